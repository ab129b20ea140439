//! Readers and writers that give or take little at a time, or fail on purpose.

use jp_command::Device;
use jp_lines::{Inputs, Unopened};
use std::alloc::Global;
use std::io::{self, Error, ErrorKind, Read, Write};

/// Gives at most so many bytes a call, and fails where its bytes end, if it is to.
#[derive(Drop)]
pub struct Trickle<'b> {
    pub bytes: &'b [u8],
    pub size: usize,
    pub fails: bool,
}

impl Read for Trickle<'_> {
    fn read(&mut self, buffer: &mut [u8]) -> io::Result<usize> {
        if self.bytes.is_empty() && self.fails {
            return Err(Error::from(ErrorKind::TimedOut));
        }
        let size = self.size.min(buffer.len());
        self.bytes.read(&mut buffer[..size])
    }
}

/// Gives spaces without end, and counts its calls.
#[derive(Drop)]
pub struct Endless {
    pub reads: usize,
}

impl Read for Endless {
    fn read(&mut self, buffer: &mut [u8]) -> io::Result<usize> {
        self.reads = self.reads.saturating_add(1);
        buffer.fill(b' ');
        Ok(buffer.len())
    }
}

/// Takes so many bytes, one a call, fails once, and takes all that comes after that; counts how often
/// it is flushed. The failure is that its disk is full, or that what reads it hung up.
#[derive(Drop)]
pub struct Narrow {
    pub taken: Vec<u8>,
    pub room: usize,
    pub flushes: usize,
    pub hangs_up: bool,
}

impl Narrow {
    pub fn new(alloc: Global, room: usize) -> Narrow {
        Narrow {
            taken: Vec::new(alloc),
            room,
            flushes: 0,
            hangs_up: false,
        }
    }
}

impl Write for Narrow {
    fn write(&mut self, bytes: &[u8]) -> io::Result<usize> {
        let count = bytes.len().min(self.room).min(1);
        if count == 0 {
            self.room = usize::MAX;
            return Err(Error::from(if self.hangs_up {
                ErrorKind::BrokenPipe
            } else {
                ErrorKind::StorageFull
            }));
        }
        self.taken.extend_from_slice(&bytes[..count])?;
        self.room -= count;
        Ok(count)
    }

    fn flush(&mut self) -> io::Result<()> {
        self.flushes = self.flushes.saturating_add(1);
        Ok(())
    }
}

/// Takes all bytes, and fails where it is flushed.
#[derive(Drop)]
pub struct Unflushed {
    pub taken: Vec<u8>,
}

impl Write for Unflushed {
    fn write(&mut self, bytes: &[u8]) -> io::Result<usize> {
        self.taken.extend_from_slice(bytes)?;
        Ok(bytes.len())
    }

    fn flush(&mut self) -> io::Result<()> {
        Err(Error::from(ErrorKind::StorageFull))
    }
}

/// The standard input alone, which is opened once.
#[derive(Drop)]
pub struct Alone<T> {
    unopened: Option<T>,
}

impl<T> Alone<T> {
    pub fn new(input: T) -> Alone<T> {
        Alone {
            unopened: Some(input),
        }
    }
}

impl<T: Read + Drop> Inputs for Alone<T> {
    type Input = Device<T>;

    fn open(&mut self, name: &str) -> Result<Device<T>, Unopened> {
        if name != "-" {
            return Err(Unopened::Missing);
        }
        match self.unopened.take() {
            Some(input) => Ok(Device::new(input)),
            None => Err(Unopened::Failed),
        }
    }
}

/// What stands under a name.
#[derive(Clone, Copy)]
pub enum Kept<'b> {
    Lines(&'b str),
    /// Lines, behind which a read fails.
    Failing(&'b str),
    Unopened(Unopened),
}

/// Inputs by their names. What has none of these names is missing.
#[derive(Drop)]
pub struct Shelf<'b> {
    pub kept: &'b [(&'b str, Kept<'b>)],
    /// How often an input was to be opened.
    pub asked: usize,
}

impl<'b> Inputs for Shelf<'b> {
    type Input = Device<Trickle<'b>>;

    fn open(&mut self, name: &str) -> Result<Device<Trickle<'b>>, Unopened> {
        self.asked = self.asked.saturating_add(1);
        let mut found = Kept::Unopened(Unopened::Missing);
        for (other, kept) in self.kept {
            if *other == name {
                found = *kept;
            }
        }
        let (lines, fails) = match found {
            Kept::Lines(lines) => (lines, false),
            Kept::Failing(lines) => (lines, true),
            Kept::Unopened(why) => return Err(why),
        };
        Ok(Device::new(Trickle {
            bytes: lines.as_bytes(),
            size: 3,
            fails,
        }))
    }
}
