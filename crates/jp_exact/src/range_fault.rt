//! Why a value can't be held.

ghost use Rattle.std.specs.Prelude.{◌≡◌, map, string_bytes, IfOk};
ghost use Rattle.jp_document.specs.Location.{owned_step};
ghost use Rattle.jp_document.specs.Path.{path_of};
ghost use Rattle.jp_exact.specs.declared.range_fault.RangeFault.TheVariants.{NoMemory};

use jp_document::{DocumentFault, OwnedStep, push_step};
use std::alloc::{AllocError, Global};

/// Why a value can't be held: a number in it is out of range, or memory ran out.
#[derive(Drop)]
pub(crate) enum RangeFault {
    /// The first number that can't be held stands here; the last step comes first.
    OutOfRange(Vec<OwnedStep>),
    NoMemory,
}

impl From<AllocError> for RangeFault {
    ghost from_gives = { λ _ fault. fault ≡ NoMemory };

    fn from(_: AllocError) -> RangeFault {
        RangeFault::NoMemory
    }
}

impl RangeFault {
    ghost use Rattle.jp_exact.specs.Private.RangeFault.{IsRangeFaultWithin, IsRangeFaultAt};

    /// The fault seen one step further out.
    pub(crate) fn within(self, step: OwnedStep) -> RangeFault
        ensures { IsRangeFaultWithin self step result }
    {
        match self {
            RangeFault::OutOfRange(mut steps) => match steps.push(step) {
                Ok(()) => RangeFault::OutOfRange(steps),
                Err(_) => RangeFault::NoMemory,
            },
            RangeFault::NoMemory => RangeFault::NoMemory,
        }
    }

    /// The fault of the bytes whose value can't be held so.
    pub(crate) fn exact_fault(self, alloc: Global) -> DocumentFault
        ensures { IsRangeFaultAt self result }
    {
        match self {
            RangeFault::OutOfRange(mut steps) => {
                steps.reverse();
                match path_text(alloc, &steps) {
                    Ok(path) => DocumentFault::NumberRange(path),
                    Err(_) => DocumentFault::NoMemory,
                }
            }
            RangeFault::NoMemory => DocumentFault::NoMemory,
        }
    }
}

/// The normalized path of a location (RFC 9535 section 2.7).
fn path_text(alloc: Global, location: &[OwnedStep]) -> Result<String, AllocError>
    ensures { IfOk result (λ s. string_bytes s ≡ path_of (map owned_step location.now)) }
{
    let mut text = String::from_str(alloc, "$")?;
    for step in location {
        push_step(&mut text, step.as_step())?;
    }
    Ok(text)
}
