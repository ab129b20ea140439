//! Why bytes are no document, told to whoever wrote them.

ghost use Rattle.std.specs.Prelude.{◌≡◌, ◌⊎◌, IfErr, IfOk, string_bytes};
ghost use Rattle.jp_exact.specs.Defects.{IsDocumentFaultIn};
ghost use Rattle.jp_c.specs.Calls.{IsMisreadOutcome};
ghost use Rattle.jp_c.specs.Limit.{AtOnce};
ghost use Rattle.jp_c.specs.Misread.{ExplainsDocument, nowhere, part_text, place_of_misreading};
ghost use Rattle.jp_c.specs.Outcome.{Answers};
ghost use Rattle.jsonpath.specs.Size.{Fits, IsTooLarge};
ghost use Rattle.jsonpath.specs.declared.fault.FindFault.TheVariants.{DocumentTooLarge, NoMemory};

use crate::numbers::{document_part, profile};
use crate::outcome::{Answered, Outcome, Report, tell};
use jp_decimal::Numbers;
use jp_document::DocumentFault;
use jp_held::read_flat;
use jp_json::{Misreading, misreading_of};
use jsonpath::{FindFault, check_size};
use std::alloc::{AllocError, Global};

/// Where a document goes wrong.
#[repr(C)]
#[derive(Debug, Clone, Copy, PartialEq, Eq)]
pub struct Place {
    /// The byte, from 0; the length of the document where it ends too early.
    pub offset: usize,
    /// The number of its line, from 1, or 0 where nothing is told.
    pub line: usize,
    /// Its column in that line, in characters from 1, or 0 where nothing is told.
    pub column: usize,
}

/// Which part of a misreading is told.
#[derive(Debug, Clone, Copy, PartialEq, Eq)]
pub enum DocumentPart {
    /// Its line, with the place, the path of a number, and the sentence.
    Line,
    /// The sentence.
    Sentence,
    /// The name of the reason.
    Reason,
}

impl Place {
    /// No place.
    fn nowhere() -> Place
        ensures { result ≡ nowhere }
    {
        Place {
            offset: 0,
            line: 0,
            column: 0,
        }
    }

    /// The place of a misreading.
    fn of(misreading: &Misreading) -> Place
        ensures { result ≡ place_of_misreading misreading.now }
    {
        Place {
            offset: misreading.offset,
            line: misreading.line,
            column: misreading.column,
        }
    }
}

/// Tells why the bytes are no document (RFC 8259) with the numbers of the profile of this number: the place of the
/// first wrong byte, and as text the part of this number: 0 the whole line, which has the place, the path of a
/// number that is not whole or out of range, and a sentence; 1 the sentence; 2 the name of the reason, as
/// `TrailingComma`. There is no text, and a place of line 0, where they are a document. Answers the report's status,
/// which is 0 also where they are none.
#[unsafe(no_mangle)]
pub extern "C" fn jp_explain_document(
    alloc: Global,
    document: &[u8],
    profile: u32,
    part: u32,
    place: &mut Place,
    out: &mut [u8],
    report: &mut Report,
) -> u32
    ensures { Answers (AtOnce (λ o. IsMisreadOutcome profile part document.now o place.new)) out.old
        out.new report.new result }
{
    let (outcome, told) = misread_outcome(alloc, document, profile, part);
    *place = told;
    tell(&Answered::at_once(outcome), out, report)
}

/// What asking why bytes are no document answers, and the place.
fn misread_outcome(
    alloc: Global,
    document: &[u8],
    profile_number: u32,
    part_number: u32,
) -> (Outcome, Place)
    ensures { IsMisreadOutcome profile_number part_number document.now result.0 result.1 }
{
    let Some(profile) = profile(profile_number) else {
        return (Outcome::Usage, Place::nowhere());
    };
    let Some(part) = document_part(part_number) else {
        return (Outcome::Usage, Place::nowhere());
    };
    match told_misreading(alloc, document, profile.numbers(), part) {
        Ok((text, place)) => (Outcome::Text(text), place),
        Err(fault) => (Outcome::Fault(fault), Place::nowhere()),
    }
}

/// What is told of the bytes, which are to be a document with such numbers, and the place.
fn told_misreading(
    alloc: Global,
    document: &[u8],
    numbers: Numbers,
    part: DocumentPart,
) -> Result<(String, Place), FindFault>
    ensures fits { IfOk result (λ told. Fits document.now) }
    ensures told { IfOk result
        (λ told. ExplainsDocument numbers part document.now (string_bytes told.0) told.1) }
    ensures fault { IfErr result (λ fault. (fault ≡ NoMemory)
        ⊎ ((fault ≡ DocumentTooLarge) × IsTooLarge document.now)) }
{
    check_size(document)?;
    match read_flat(alloc, document, numbers) {
        Ok(_) => Ok((String::new(alloc), Place::nowhere())),
        Err(fault) => Ok(told_of(alloc, document, numbers, part, &fault)?),
    }
}

/// What is told of bytes that have this fault where such numbers are read, and the place.
fn told_of(
    alloc: Global,
    document: &[u8],
    numbers: Numbers,
    part: DocumentPart,
    fault: &DocumentFault,
) -> Result<(String, Place), AllocError>
    requires { IsDocumentFaultIn numbers document.now fault.now }
    ensures { IfOk result
        (λ told. ExplainsDocument numbers part document.now (string_bytes told.0) told.1) }
{
    let misreading = misreading_of(alloc, document, numbers, fault)?;
    let text = part_text(alloc, part, &misreading)?;
    Ok((text, Place::of(&misreading)))
}

/// The text of a part of a misreading.
fn part_text(
    alloc: Global,
    part: DocumentPart,
    misreading: &Misreading,
) -> Result<String, AllocError>
    ensures { IfOk result (λ text. string_bytes text ≡ part_text part misreading.now) }
{
    match part {
        DocumentPart::Line => format!(in alloc; "{misreading}\n"),
        DocumentPart::Sentence => String::from_str(alloc, misreading.sentence),
        DocumentPart::Reason => String::from_str(alloc, misreading.reason.name()),
    }
}
