//! The inputs of a process.

ghost use Rattle.std.specs.Prelude.{◌≡◌};

use crate::inputs::{Inputs, Unopened};
use jp_command::Device;
use std::io::{ErrorKind, Read};
use std::rt::Files;
use std::{fs, io};

/// A file that was opened, or the standard input.
#[derive(Drop)]
pub enum Opened<F, S> {
    File(F),
    Standard(S),
}

impl<F: Read, S: Read> Read for Opened<F, S> {
    fn read(&mut self, buffer: &mut [u8]) -> io::Result<usize> {
        match self {
            Opened::File(file) => file.read(buffer),
            Opened::Standard(standard) => standard.read(buffer),
        }
    }
}

/// The files of a process by their paths, and by `-` its standard input.
#[derive(Drop)]
pub struct Opener<'r, R, S> {
    rt: &'r R,
    standard: S,
}

impl<'r, R, S> Opener<'r, R, S> {
    /// Of the process whose runtime and standard input these are.
    pub fn new(rt: &'r R, standard: S) -> Opener<'r, R, S>
        ensures { result.standard ≡ standard }
    {
        Opener { rt, standard }
    }
}

impl<'r, R: Files, S: Read + Copy + Drop> Inputs for Opener<'r, R, S> {
    ghost use Rattle.jp_lines.specs.Files.{OpensNamed};

    type Input = Device<Opened<R::File, S>>;

    ghost opens = { λ opener name result _. OpensNamed opener.standard name result };

    fn open(&mut self, name: &str) -> Result<Device<Opened<R::File, S>>, Unopened> {
        if name == "-" {
            return Ok(Device::new(Opened::Standard(self.standard)));
        }
        match fs::open(self.rt, name) {
            Ok(file) => Ok(Device::new(Opened::File(file))),
            Err(error) => Err(match error.kind() {
                ErrorKind::NotFound => Unopened::Missing,
                ErrorKind::PermissionDenied => Unopened::NotPermitted,
                _ => Unopened::Failed,
            }),
        }
    }
}
