//! Readers and writers that go on long, give or take little at a time, or fail on purpose.

use std::alloc::Global;
use std::io::{Error, ErrorKind, Read, Result, Write};

/// Gives its bytes, and then fails.
#[derive(Drop)]
pub struct Broken<'b>(pub &'b [u8]);

impl Read for Broken<'_> {
    fn read(&mut self, buffer: &mut [u8]) -> Result<usize> {
        if self.0.is_empty() {
            return Err(Error::from(ErrorKind::TimedOut));
        }
        self.0.read(buffer)
    }
}

/// Gives blanks, and then a one.
#[derive(Drop)]
pub struct Blanks(pub usize);

impl Read for Blanks {
    fn read(&mut self, buffer: &mut [u8]) -> Result<usize> {
        if buffer.is_empty() {
            return Ok(0);
        }
        if self.0 == 0 {
            buffer[0] = b'1';
            self.0 = usize::MAX;
            return Ok(1);
        }
        if self.0 == usize::MAX {
            return Ok(0);
        }
        let count = self.0.min(buffer.len());
        for byte in buffer[..count].iter_mut() {
            *byte = b' ';
        }
        self.0 -= count;
        Ok(count)
    }
}

/// Gives at most so many bytes a call of what another reader gives; the call of this number, from
/// 1, fails.
#[derive(Drop)]
pub struct Trickle<R> {
    pub inner: R,
    pub size: usize,
    pub failing: usize,
    pub calls: usize,
}

impl<R: Read> Trickle<R> {
    pub fn new(inner: R, size: usize) -> Trickle<R> {
        Trickle {
            inner,
            size,
            failing: 0,
            calls: 0,
        }
    }
}

impl<R: Read> Read for Trickle<R> {
    fn read(&mut self, buffer: &mut [u8]) -> Result<usize> {
        self.calls = self.calls.saturating_add(1);
        if self.calls == self.failing {
            return Err(Error::from(ErrorKind::TimedOut));
        }
        let size = self.size.min(buffer.len());
        self.inner.read(&mut buffer[..size])
    }
}

/// Takes at most so many bytes a call; the call of this number, from 1, fails or takes none, and so
/// does the flush of this number.
#[derive(Drop)]
pub struct Drip {
    pub taken: Vec<u8>,
    pub size: usize,
    pub failing: usize,
    pub takes_none: bool,
    pub calls: usize,
    pub failing_flush: u8,
    pub flush_count: u8,
}

impl Drip {
    pub fn new(alloc: Global, size: usize) -> Drip {
        Drip {
            taken: Vec::new(alloc),
            size,
            failing: 0,
            takes_none: false,
            calls: 0,
            failing_flush: 0,
            flush_count: 0,
        }
    }
}

impl Write for Drip {
    fn write(&mut self, bytes: &[u8]) -> Result<usize> {
        self.calls = self.calls.saturating_add(1);
        if self.calls == self.failing && self.takes_none {
            return Ok(0);
        }
        if self.calls == self.failing {
            return Err(Error::from(ErrorKind::BrokenPipe));
        }
        let count = bytes.len().min(self.size);
        self.taken.extend_from_slice(&bytes[..count])?;
        Ok(count)
    }

    fn flush(&mut self) -> Result<()> {
        self.flush_count = self.flush_count.saturating_add(1);
        if self.flush_count == self.failing_flush {
            return Err(Error::from(ErrorKind::BrokenPipe));
        }
        Ok(())
    }
}

/// Each write and each flush fails with an error of this kind.
#[derive(Drop)]
pub struct Refusing(pub ErrorKind);

impl Write for Refusing {
    fn write(&mut self, _bytes: &[u8]) -> Result<usize> {
        Err(Error::from(self.0))
    }

    fn flush(&mut self) -> Result<()> {
        Err(Error::from(self.0))
    }
}

/// Takes so many bytes, a few at a time, and then fails; a flush may fail too.
#[derive(Drop)]
pub struct Narrow {
    pub taken: Vec<u8>,
    pub room: usize,
    pub flushes: bool,
}

impl Narrow {
    pub fn new(alloc: Global, room: usize, flushes: bool) -> Narrow {
        Narrow {
            taken: Vec::new(alloc),
            room,
            flushes,
        }
    }
}

impl Write for Narrow {
    fn write(&mut self, bytes: &[u8]) -> Result<usize> {
        let count = bytes.len().min(self.room).min(4);
        if count == 0 {
            return Err(Error::from(ErrorKind::BrokenPipe));
        }
        self.taken.extend_from_slice(&bytes[..count])?;
        self.room -= count;
        Ok(count)
    }

    fn flush(&mut self) -> Result<()> {
        if self.flushes {
            Ok(())
        } else {
            Err(Error::from(ErrorKind::BrokenPipe))
        }
    }
}
