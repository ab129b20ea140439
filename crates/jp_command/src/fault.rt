//! Why a run did not do what it was asked.

ghost use Rattle.std.specs.Prelude.{◌≡◌};
ghost use Rattle.jp_command.specs.declared.fault.Fault.TheVariants.{NoMemory};
ghost use Rattle.jp_command.specs.Private.Faults.{fault_of_document, fault_of_refusal};

use jp_document::DocumentFault;
use jp_query::{Refusal, RefusalKind};
use std::alloc::AllocError;
use std::fmt;
use thiserror::Error;

/// Why a run did not do what it was asked.
#[derive(Debug, PartialEq, Drop, Error)]
pub enum Fault {
    /// The query is refused; nothing was read or written.
    Query(Refusal),
    /// The input is no document; nothing was written.
    Document(DocumentFault),
    /// The input has more than `DOCUMENT_LIMIT` bytes; nothing was written.
    DocumentTooLarge,
    /// The memory did not suffice; what was written is a prefix of the output.
    NoMemory,
    /// A read failed; nothing was written.
    Read,
    /// A write failed; what was written is a prefix of the output.
    Write,
}

/// The fault's line, without the newline.
impl fmt::Display for Fault {
    ghost use Rattle.std.specs.Prelude.{Some};
    ghost use Rattle.jp_command.specs.Line.{fault_text};

    ghost output = { λ fault. Some (fault_text fault) };

    fn fmt<W: fmt::Write>(&self, f: &mut fmt::Formatter<W>) -> fmt::Result {
        match self {
            Fault::Query(refusal) => write!(f, "query refused: {refusal}"),
            Fault::Document(fault) => {
                let name = fault.name();
                write!(f, "document refused: {name}")
            }
            Fault::DocumentTooLarge => f.write_str("document refused: DocumentTooLarge"),
            Fault::NoMemory => f.write_str("want of memory"),
            Fault::Read => f.write_str("read fault"),
            Fault::Write => f.write_str("write fault"),
        }
    }
}

impl From<AllocError> for Fault {
    ghost from_gives = { λ _ fault. fault ≡ NoMemory };

    fn from(_error: AllocError) -> Fault {
        Fault::NoMemory
    }
}

impl From<Refusal> for Fault {
    ghost from_gives = { λ refusal fault. fault ≡ fault_of_refusal refusal };

    fn from(refusal: Refusal) -> Fault {
        match refusal.kind {
            RefusalKind::NoMemory => Fault::NoMemory,
            _ => Fault::Query(refusal),
        }
    }
}

impl From<DocumentFault> for Fault {
    ghost from_gives = { λ fault given. given ≡ fault_of_document fault };

    fn from(fault: DocumentFault) -> Fault {
        match fault {
            DocumentFault::NoMemory => Fault::NoMemory,
            fault => Fault::Document(fault),
        }
    }
}
