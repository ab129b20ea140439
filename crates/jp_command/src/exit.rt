//! The status of a program, also of one that could not begin.

ghost use Rattle.std.specs.Prelude.{◌≡◌, ◌≢◌, IfErr, IfOk};
ghost use Rattle.std.specs.IoError.{error_kind};
ghost use Rattle.jp_command.specs.Line.{fault_line, words_line};
ghost use Rattle.jp_command.specs.Output.{AppendsPrefix};

use crate::device::Writer;
use crate::fault::Fault;
use crate::line::report;
use crate::output::write_all;
use std::alloc::Global;
use std::io::{ErrorKind, Result};

/// The line of words that are not UTF-8.
const NOT_UTF8: &str = "words refused: NotUtf8\n";

/// The status that a run answered. Where it could not begin, since its words or its output could not
/// be had, that is 4 for want of memory and otherwise 2. Want of memory has its line in `faults`, and so have
/// words that are not UTF-8; of others nothing is told.
pub fn exit_status<E: Writer>(alloc: Global, answer: Result<u8>, faults: &mut E) -> u8
    ensures ran { IfOk answer (λ status. (result ≡ status) × (faults.new ≡ faults.old)) }
    ensures memory { IfErr answer (λ error. error_kind error ≡ ErrorKind.OutOfMemory → (result ≡ 4)
        × AppendsPrefix (E.contents faults.old) (E.contents faults.new)
        (fault_line Fault.NoMemory)) }
    ensures words { IfErr answer (λ error. error_kind error ≡ ErrorKind.InvalidData → (result ≡ 2)
        × AppendsPrefix (E.contents faults.old) (E.contents faults.new) words_line) }
    ensures other { IfErr answer (λ error. error_kind error ≢ ErrorKind.OutOfMemory
        → error_kind error ≢ ErrorKind.InvalidData → (result ≡ 2) × (faults.new ≡ faults.old)) }
{
    match answer {
        Ok(status) => status,
        Err(error) if error.kind() == ErrorKind::OutOfMemory => {
            report(alloc, &Fault::NoMemory, faults);
            4
        }
        Err(error) if error.kind() == ErrorKind::InvalidData => {
            refuse_encoding(faults);
            2
        }
        Err(_) => 2,
    }
}

/// Writes the line of words that are not UTF-8. What cannot be written is left out.
fn refuse_encoding<E: Writer>(faults: &mut E)
    ensures { AppendsPrefix (E.contents faults.old) (E.contents faults.new) words_line }
{
    let _ = write_all(faults, NOT_UTF8.as_bytes());
}
