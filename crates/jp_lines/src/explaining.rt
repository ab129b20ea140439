//! What is told behind the refusal of a line.

ghost use Rattle.std.specs.Prelude.{◌≡◌, IfOk, string_bytes};
ghost use Rattle.jp_exact.specs.Defects.{IsDocumentFaultIn};
ghost use Rattle.jp_check.specs.Numbers.{numbers};
ghost use Rattle.jp_lines.specs.Outcome.{IsMisreadAs, IsToldBehind, hint_of};
ghost use Rattle.jp_lines.specs.Private.Answers.{IsDefectOfBytes};

use crate::answer::Asked;
use crate::defect::Defect;
use jp_check::Profile;
use jp_document::DocumentFault;
use jp_json::{JsonReason, Misreading, misreading_of};
use std::alloc::{AllocError, Global};

/// What is told behind the defect of a line that is told, which has that defect: why and where it is no
/// document, where that is asked for, and else nothing, as where there is no memory for it.
pub(crate) fn explanation(
    asked: Asked<'_>,
    is_told: bool,
    number: u64,
    line: &[u8],
    defect: &Defect,
) -> String
    requires { IsDefectOfBytes asked.options.profile line.now defect.now }
    ensures { IsToldBehind asked.entry.options number line.now defect.now (string_bytes result) }
{
    match defect {
        Defect::Document(fault) if is_told && asked.options.explaining => {
            match misread_line(asked.alloc, asked.options.profile, number, line, fault) {
                Ok(told) => told,
                Err(_) => String::new(asked.alloc),
            }
        }
        _ => String::new(asked.alloc),
    }
}

/// Why and where the input's line of that number is no document with the numbers of the profile, which has that
/// fault.
fn misread_line(
    alloc: Global,
    profile: Profile,
    number: u64,
    line: &[u8],
    fault: &DocumentFault,
) -> Result<String, AllocError>
    requires { IsDocumentFaultIn (numbers profile) line.now fault.now }
    ensures { IfOk result (λ text. IsMisreadAs profile number line.now (string_bytes text)) }
{
    let misreading = misreading_of(alloc, line, profile.numbers(), fault)?;
    let hint = hint(misreading.reason);
    let told = Misreading {
        line: number as usize,
        ..misreading
    };
    format!(in alloc; "{told}{hint}\n")
}

/// What is said more of a line with a number that is not whole, or that shows another form than one document a
/// line, behind a space.
fn hint(reason: JsonReason) -> &'static str
    ensures { result.now ≡ hint_of reason }
{
    match reason {
        JsonReason::AfterValue => " Each line holds one document.",
        JsonReason::EndInArray | JsonReason::EndInObject => {
            " A document ends with its line: jp eval --decimals '$' writes it on one."
        }
        JsonReason::HasFraction | JsonReason::NegativeZero | JsonReason::OutOfRange => {
            " Without --whole jp-lines takes numbers of up to 38 digits exactly."
        }
        JsonReason::RecordSeparator => " tr -d '\\036' takes it away.",
        JsonReason::Gzip => " gzip -dc writes what it holds.",
        JsonReason::Utf16 => " iconv -f UTF-16 -t UTF-8 writes it so.",
        _ => "",
    }
}
