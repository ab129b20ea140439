//! Why a reading has no value.

ghost use Rattle.std.specs.Prelude.{◌≡◌};
ghost use Rattle.jp_document.specs.declared.value_fault.ValueFault.TheVariants.{NoMemory};

use crate::fault::DocumentFault;
use crate::location::OwnedStep;
use crate::path::owned_path_text;
use std::alloc::{AllocError, Global};

/// Why a reading has no value: a number in it is not whole, or memory ran out.
#[derive(Drop)]
pub(crate) enum ValueFault {
    /// The first number that is not whole stands here; the last step comes first.
    Fraction(Vec<OwnedStep>),
    NoMemory,
}

impl From<AllocError> for ValueFault {
    ghost from_gives = { λ _ fault. fault ≡ NoMemory };

    fn from(_: AllocError) -> ValueFault {
        ValueFault::NoMemory
    }
}

impl ValueFault {
    ghost use Rattle.jp_document.specs.Private.ValueFault.{IsFaultWithin, IsFaultAt};

    /// The fault seen one step further out.
    pub(crate) fn within(self, step: OwnedStep) -> ValueFault
        ensures { IsFaultWithin self step result }
    {
        match self {
            ValueFault::Fraction(mut steps) => match steps.push(step) {
                Ok(()) => ValueFault::Fraction(steps),
                Err(_) => ValueFault::NoMemory,
            },
            ValueFault::NoMemory => ValueFault::NoMemory,
        }
    }

    /// The fault of the document that gives no value so.
    pub(crate) fn document_fault(self, alloc: Global) -> DocumentFault
        ensures { IsFaultAt self result }
    {
        match self {
            ValueFault::Fraction(mut steps) => {
                steps.reverse();
                match owned_path_text(alloc, &steps) {
                    Ok(path) => DocumentFault::NotWhole(path),
                    Err(_) => DocumentFault::NoMemory,
                }
            }
            ValueFault::NoMemory => DocumentFault::NoMemory,
        }
    }
}
