//! How a document that is refused is told: with the byte where it goes wrong.

ghost use Rattle.std.specs.Prelude.{◌≡◌, IfOk, IfSome};
ghost use Rattle.jp_check.specs.Numbers.{numbers};
ghost use Rattle.jp_exact.specs.Defects.{IsDocumentFaultIn};
ghost use Rattle.jp_c.specs.Misread.{IsMisreadAt};
ghost use Rattle.jp_c.specs.Private.Placing.{HasOfBytes, IsOfBytes, IsPlaced, IsTold};

use crate::outcome::{Answered, Outcome};
use jp_check::Profile;
use jp_decimal::Numbers;
use jp_document::DocumentFault;
use jp_json::misreading_of;
use jsonpath::FindFault;
use std::alloc::{AllocError, Global};

/// The byte where bytes go wrong that have this fault where such numbers are read. They are read once more for it.
fn misread_at(
    alloc: Global,
    document: &[u8],
    numbers: Numbers,
    fault: &DocumentFault,
) -> Result<usize, AllocError>
    requires { IsDocumentFaultIn numbers document.now fault.now }
    ensures { IfOk result (IsMisreadAt numbers document.now) }
{
    let misreading = misreading_of(alloc, document, numbers, fault)?;
    Ok(misreading.offset)
}

/// The byte where a document with such numbers goes wrong that is refused so, if it is found.
pub(crate) fn place_of(
    alloc: Global,
    document: &[u8],
    numbers: Numbers,
    fault: &FindFault,
) -> Option<usize>
    requires { IsOfBytes numbers document.now fault.now }
    ensures { IfSome result (IsMisreadAt numbers document.now) }
{
    match fault {
        FindFault::Document(fault) => misread_at(alloc, document, numbers, fault).ok(),
        _ => None,
    }
}

/// A fault as it is told: that of a document with such numbers with the byte where it goes wrong, which may be
/// known. Where there is no memory to find it, that is told.
pub(crate) fn refused(
    alloc: Global,
    fault: FindFault,
    document: &[u8],
    numbers: Numbers,
    known: Option<usize>,
) -> Outcome
    requires fault { IsOfBytes numbers document.now fault }
    requires known { IfSome known (IsMisreadAt numbers document.now) }
    ensures { IsTold numbers document.now fault result }
{
    match fault {
        FindFault::Document(fault) => {
            match known_or_found(alloc, document, numbers, &fault, known) {
                Ok(place) => Outcome::Misread(fault, place),
                Err(_) => Outcome::Fault(FindFault::NoMemory),
            }
        }
        fault => Outcome::Fault(fault),
    }
}

/// The byte where bytes go wrong that have this fault where such numbers are read, which may be known.
fn known_or_found(
    alloc: Global,
    document: &[u8],
    numbers: Numbers,
    fault: &DocumentFault,
    known: Option<usize>,
) -> Result<usize, AllocError>
    requires fault { IsDocumentFaultIn numbers document.now fault.now }
    requires known { IfSome known (IsMisreadAt numbers document.now) }
    ensures { IfOk result (IsMisreadAt numbers document.now) }
{
    match known {
        Some(place) => Ok(place),
        None => misread_at(alloc, document, numbers, fault),
    }
}

impl Answered {
    /// This answer, with its fault as it is told of a document with the numbers of that profile.
    pub(crate) fn placed(
        self,
        alloc: Global,
        document: &[u8],
        profile: Profile,
        known: Option<usize>,
    ) -> Answered
        requires fault { HasOfBytes (numbers profile) document.now self.outcome }
        requires known { IfSome known (IsMisreadAt (numbers profile) document.now) }
        ensures outcome { IsPlaced (numbers profile) document.now self.outcome result.outcome }
        ensures steps { result.steps ≡ self.steps }
    {
        let Answered { outcome, steps } = self;
        let outcome = match outcome {
            Outcome::Fault(fault) => refused(alloc, fault, document, profile.numbers(), known),
            outcome => outcome,
        };
        Answered { outcome, steps }
    }
}
