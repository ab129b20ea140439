//! Where the bytes come from and where they go.

ghost use Rattle.std.specs.Prelude.{◌≡◌, ◌≢◌, ℕ, ◌<◌, ◌≤◌, Bool, List, [], Option, true, false, IfOk, IsErr};
ghost use Rattle.std.specs.Prelude.{OnOk, OnErr, Some, None, length, ⊤};
ghost use Rattle.std.specs.Io.KnownBytes.{ReadConsumes, WriteAppends, Keeps};
ghost use Rattle.std.specs.IoError.{error_kind};
ghost use Rattle.jp_command.specs.Device.{carried, carrier_failed, carrier_holds_back, carrier_hung_up};
ghost use Rattle.jp_command.specs.Device.{size_carried};
ghost use Rattle.jp_command.specs.Reads.{bytes_moved};

use std::io::{Error, ErrorKind, Read, Write};

/// A read, a write or a flush that failed.
#[derive(Debug, Clone, Copy, PartialEq, Eq)]
pub struct Failed;

/// What bytes are read from. It tells its bytes as std's readers do.
pub trait Source {
    // The bytes that are still to come, where they are known.
    ghost remaining: { Self → Option (List ℕ) };

    // Whether a call failed.
    ghost has_failed: { Self → Bool };

    // What leads from one state to the next where a read gave these bytes, or failed (None): so a
    // contract can speak of each call.
    ghost read_gives: { Self → Option (List ℕ) → Self → Type 0 } = { λ _ _ _. ⊤ };

    // How many bytes it says that it has, 0 where it says nothing.
    ghost size_told: { Self → ℕ } = { λ _. 0 };

    /// How many bytes it says that it has, 0 where it says nothing. More or fewer may come, so this is only
    /// for taking memory.
    fn size_told(&self) -> usize
        ensures { result ≡ size_told self.now };

    /// Reads some bytes to the start of `buffer` and answers how many; 0 only at the end of the
    /// bytes or for a buffer without room. `Failed` where they can't be read.
    fn read(&mut self, buffer: &mut [u8]) -> Result<usize, Failed>
        ensures bound { IfOk result (λ count. count ≤ length buffer.new) }
        ensures bytes { ReadConsumes (remaining self.old) (remaining self.new) result buffer.new }
        ensures works { OnOk result (has_failed self.new ≡ has_failed self.old) }
        ensures fails { OnErr result (has_failed self.new ≡ true) }
        ensures call { read_gives self.old (bytes_moved result buffer.new) self.new };

    /// Whether a call failed.
    fn failed(&self) -> bool
        ensures { result ≡ has_failed self.now };
}

/// What bytes are written to. It tells its bytes as std's writers do.
pub trait Writer {
    // The bytes that were written, where they are known.
    ghost contents: { Self → Option (List ℕ) };

    // Whether a call failed.
    ghost has_failed: { Self → Bool };

    // What leads from one state to the next where a write took these bytes, or failed (None): so a
    // contract can speak of each call. A flush takes none.
    ghost write_takes: { Self → Option (List ℕ) → Self → Type 0 } = { λ _ _ _. ⊤ };

    // Whether a call failed because what reads the bytes hung up, where that is told.
    ghost hung_up: { Self → Bool } = { λ _. false };

    /// Writes some bytes from the start of `bytes` and answers how many, at least one if there are
    /// any. `Failed` where none can be written.
    fn write(&mut self, bytes: &[u8]) -> Result<usize, Failed>
        ensures bound { IfOk result (λ count. count ≤ length bytes.now) }
        ensures some { IfOk result (λ count. 0 < length bytes.now → 0 < count) }
        ensures bytes { WriteAppends (contents self.old) (contents self.new) result bytes.now }
        ensures works { OnOk result (has_failed self.new ≡ has_failed self.old) }
        ensures fails { OnErr result (has_failed self.new ≡ true) }
        ensures call { write_takes self.old (bytes_moved result bytes.now) self.new }
        ensures reader { OnOk result (hung_up self.new ≡ hung_up self.old) };

    /// Whether a call failed.
    fn failed(&self) -> bool
        ensures { result ≡ has_failed self.now };

    /// Whether a call failed because what reads the bytes hung up, as `head` does once it has its lines.
    fn hung_up(&self) -> bool
        ensures { result ≡ hung_up self.now };
}

/// What bytes are written to and handed on from. Only the whole program flushes (`run_line`); a run
/// takes a `Writer`, and so it can't.
pub trait Output: Writer {
    // Whether it may hold back some of the bytes that it took.
    ghost holds_back: { Self → Bool };

    /// Hands on what a buffer still holds. `Failed` where it can't be written.
    fn flush(&mut self) -> Result<(), Failed>
        ensures bytes { Keeps (Self.contents self.old) (Self.contents self.new) }
        ensures works { OnOk result (Self.has_failed self.new ≡ Self.has_failed self.old) }
        ensures fails { OnErr result (Self.has_failed self.new ≡ true) }
        ensures done { OnOk result (Self.write_takes self.old (Some []) self.new) }
        ensures stopped { OnErr result (Self.write_takes self.old None self.new) }
        ensures handed_on { OnOk result (Self.holds_back self.new ≡ false) }
        ensures reader { OnOk result (Self.hung_up self.new ≡ Self.hung_up self.old) };
}

/// Carries any reader or writer of std and keeps whether a call of it failed, and whether a write or a
/// flush failed because its reader hung up (`ErrorKind::BrokenPipe`). A write that takes none of the bytes
/// it is given fails. What it carries may hold back some of what it took from a write on to the next flush
/// that does not fail.
#[derive(Drop)]
pub struct Device<T> {
    pub(crate) inner: T,
    failed: bool,
    hung_up: bool,
    pub(crate) holds_back: bool,
    pub(crate) size: usize,
}

impl<T> Device<T> {
    /// Carries `inner`, of which no call has failed so far.
    pub fn new(inner: T) -> Device<T>
        ensures carries { carried result ≡ inner }
        ensures fresh { carrier_failed result ≡ false }
        ensures reader { carrier_hung_up result ≡ false }
        ensures empty { carrier_holds_back result ≡ false }
    {
        Device {
            inner,
            failed: false,
            hung_up: false,
            holds_back: false,
            size: 0,
        }
    }

    /// This device, which says that it has so many bytes, as a file does.
    pub fn with_size(self, size: usize) -> Device<T>
        ensures size { size_carried result ≡ size }
        ensures carries { carried result ≡ carried self }
        ensures failed { carrier_failed result ≡ carrier_failed self }
        ensures reader { carrier_hung_up result ≡ carrier_hung_up self }
        ensures held { carrier_holds_back result ≡ carrier_holds_back self }
    {
        Device { size, ..self }
    }

    /// What it carries.
    pub fn into_inner(self) -> T
        ensures { result ≡ carried self }
    {
        self.inner
    }

    /// Keeps that a call failed.
    fn fail<X>(&mut self) -> Result<X, Failed>
        ensures failed { carrier_failed self.new ≡ true }
        ensures reader { carrier_hung_up self.new ≡ carrier_hung_up self.old }
        ensures same { carried self.new ≡ carried self.old }
        ensures answer { IsErr result }
    {
        self.failed = true;
        Err(Failed)
    }

    /// Keeps that a write or a flush failed with this error.
    pub(crate) fn fail_by<X>(&mut self, error: &Error) -> Result<X, Failed>
        ensures failed { carrier_failed self.new ≡ true }
        ensures hung_up { error_kind error.now ≡ ErrorKind.BrokenPipe → carrier_hung_up self.new ≡ true }
        ensures others { error_kind error.now ≢ ErrorKind.BrokenPipe
            → carrier_hung_up self.new ≡ carrier_hung_up self.old }
        ensures same { carried self.new ≡ carried self.old }
        ensures answer { IsErr result }
    {
        if error.kind() == ErrorKind::BrokenPipe {
            self.hung_up = true;
        }
        self.fail()
    }
}

impl<T: Read> Source for Device<T> {
    ghost remaining = { λ device. T.Read.remaining (carried device) };

    ghost has_failed = { carrier_failed };

    ghost size_told = { size_carried };

    fn size_told(&self) -> usize {
        self.size
    }

    fn read(&mut self, buffer: &mut [u8]) -> Result<usize, Failed> {
        match self.inner.read(buffer) {
            Ok(count) => Ok(count),
            Err(_) => self.fail(),
        }
    }

    fn failed(&self) -> bool {
        self.failed
    }
}

impl<T: Write> Writer for Device<T> {
    ghost contents = { λ device. T.Write.contents (carried device) };

    ghost has_failed = { carrier_failed };

    ghost hung_up = { carrier_hung_up };

    fn write(&mut self, bytes: &[u8]) -> Result<usize, Failed> {
        self.holds_back = true;
        match self.inner.write(bytes) {
            Ok(count) if count > 0 || bytes.is_empty() => Ok(count),
            Ok(_) => self.fail(),
            Err(error) => self.fail_by(&error),
        }
    }

    fn failed(&self) -> bool {
        self.failed
    }

    fn hung_up(&self) -> bool {
        self.hung_up
    }
}

impl<T: Write> Output for Device<T> {
    ghost holds_back = { carrier_holds_back };

    fn flush(&mut self) -> Result<(), Failed> {
        match self.inner.flush() {
            Ok(()) => {
                self.holds_back = false;
                Ok(())
            }
            Err(error) => self.fail_by(&error),
        }
    }
}
