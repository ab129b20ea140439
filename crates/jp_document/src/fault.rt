//! Why bytes are refused.

ghost use Rattle.std.specs.Prelude.{◌≡◌};
ghost use Rattle.jp_document.specs.declared.fault.DocumentFault.TheVariants.{NoMemory};

use std::alloc::{AllocError, Global};
use std::fmt;
use thiserror::Error;

/// Why bytes are no document, numbered from 1 in this order.
#[derive(Debug, PartialEq, Drop, Error)]
pub enum DocumentFault {
    /// They hold no JSON value, or more than one, or the escape of half a surrogate pair, or are no UTF-8, or
    /// nest deeper than 127 levels; or, where numbers are whole, they hold one too large for a float of 64
    /// bits.
    NotJson,
    /// Where numbers are whole: some number of the value is not one of 64 bits. It holds the normalized path of the
    /// first such number, in document order.
    NotWhole(String),
    /// There is no fault of a number, and some list has more than (2^53)-1 items.
    ListTooLong,
    /// The memory did not suffice.
    NoMemory,
    /// Of a document whose numbers are exact decimals: some number of the value has more than 38 digits
    /// from the first to the last that is not 0, or the power of ten by which the last of these is to be
    /// multiplied is not from -1,000,000 to 1,000,000; and it is no whole number of 64 bits. It holds the
    /// normalized path (RFC 9535 section 2.7) of the first such number, in document order. Of the members
    /// of one name the last one alone counts.
    NumberRange(String),
}

impl From<AllocError> for DocumentFault {
    ghost from_gives = { λ _ fault. fault ≡ NoMemory };

    fn from(_: AllocError) -> DocumentFault {
        DocumentFault::NoMemory
    }
}

/// The fault's name, and of `NotWhole` and `NumberRange` also the path, as `NotWhole at $['a'][1]`.
impl fmt::Display for DocumentFault {
    ghost use Rattle.std.specs.Prelude.{Some};
    ghost use Rattle.jp_document.specs.Faults.{document_fault_text};

    ghost output = { λ fault. Some (document_fault_text fault) };

    fn fmt<W: fmt::Write>(&self, f: &mut fmt::Formatter<W>) -> fmt::Result {
        let name = self.name();
        match self {
            DocumentFault::NotWhole(path) => write!(f, "{name} at {path}"),
            DocumentFault::NumberRange(path) => write!(f, "{name} at {path}"),
            _ => f.write_str(name),
        }
    }
}

impl DocumentFault {
    ghost use Rattle.std.specs.Prelude.{IfOk};
    ghost use Rattle.jp_document.specs.Faults.{document_fault_number, document_fault_name};
    ghost use Rattle.jp_document.specs.Faults.{document_fault_text};

    /// A copy of the fault. The only error is that memory ran out.
    pub fn copy(&self, alloc: Global) -> Result<DocumentFault, AllocError>
        ensures { IfOk result (λ fault. document_fault_text fault ≡ document_fault_text self.now) }
    {
        Ok(match self {
            DocumentFault::NotJson => DocumentFault::NotJson,
            DocumentFault::NotWhole(path) => {
                DocumentFault::NotWhole(String::from_str(alloc, path.as_str())?)
            }
            DocumentFault::ListTooLong => DocumentFault::ListTooLong,
            DocumentFault::NoMemory => DocumentFault::NoMemory,
            DocumentFault::NumberRange(path) => {
                DocumentFault::NumberRange(String::from_str(alloc, path.as_str())?)
            }
        })
    }

    /// The number of the fault, from 1 to 5.
    pub fn number(&self) -> u8
        ensures { result ≡ document_fault_number self.now }
    {
        match self {
            DocumentFault::NotJson => 1,
            DocumentFault::NotWhole(_) => 2,
            DocumentFault::ListTooLong => 3,
            DocumentFault::NoMemory => 4,
            DocumentFault::NumberRange(_) => 5,
        }
    }

    /// The name of the fault, as it stands in this enum.
    pub fn name(&self) -> &'static str
        ensures { result.now ≡ document_fault_name self.now }
    {
        match self {
            DocumentFault::NotJson => "NotJson",
            DocumentFault::NotWhole(_) => "NotWhole",
            DocumentFault::ListTooLong => "ListTooLong",
            DocumentFault::NoMemory => "NoMemory",
            DocumentFault::NumberRange(_) => "NumberRange",
        }
    }
}
