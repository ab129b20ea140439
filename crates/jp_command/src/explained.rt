//! What is told of a refused query or document where it is explained.

ghost use Rattle.std.specs.Prelude.{◌≡◌, ◌⊎◌, ◌++◌, IfOk, IfSome, string_bytes};
ghost use Rattle.jp_command.specs.Explained.{IsExplanation, IsExpressionExplanation};
ghost use Rattle.jp_reading.specs.Numbers.{is_digit};
ghost use Rattle.jp_command.specs.Hint.{begins_value, document_hint, is_next_document};
ghost use Rattle.jp_command.specs.Line.{IsExplainedLine, IsExpressionLine, IsMisreadLine};
ghost use Rattle.jp_command.specs.Line.{TellsExplained, TellsExpression, TellsMisread, fault_line};
ghost use Rattle.jp_command.specs.Output.{AppendsPrefix};
ghost use Rattle.jp_command.specs.Private.Kept.{IsFaultOfBytes};
ghost use Rattle.jp_command.specs.declared.fault.Fault.TheVariants.{Query};

use crate::device::Writer;
use crate::fault::Fault;
use crate::line::report;
use crate::output::write_all;
use jp_check::Profile;
use jp_explain::Surroundings::Shell;
use jp_explain::{Reason, explain, explain_expression, explanation_text};
use jp_json::{JsonReason, Misreading, misreading_of};
use jp_query::{Refusal, RefusalKind};
use std::alloc::{AllocError, Global};

/// Writes the line of a query that is refused in the profile, and behind it why: the query's line that
/// holds the place, a caret, a sentence, and where there is one a query to try instead. Of a query that
/// is too long the sentence alone stands there. Where there is no memory for that, the line is written
/// alone, and what cannot be written is left out.
pub fn report_refusal<E: Writer>(
    alloc: Global,
    query: &str,
    profile: Profile,
    refusal: Refusal,
    faults: &mut E,
)
    ensures { AppendsPrefix (E.contents faults.old) (E.contents faults.new)
        (fault_line (Query refusal))
        ⊎ TellsExplained profile query.now refusal (E.contents faults.old) (E.contents faults.new) }
{
    match explained_line(alloc, query, profile, refusal) {
        Ok(text) => {
            let _ = write_all(faults, text.as_bytes());
        }
        Err(_) => report(alloc, &Fault::Query(refusal), faults),
    }
}

/// The line of a refused query, and behind it why it is refused.
fn explained_line(
    alloc: Global,
    query: &str,
    profile: Profile,
    refusal: Refusal,
) -> Result<String, AllocError>
    ensures { IfOk result
        (λ text. IsExplainedLine profile query.now refusal (string_bytes text)) }
{
    let behind = explanation(alloc, query, profile, refusal)?;
    Ok(line_before(alloc, refusal, behind.as_str())?)
}

/// The line of a refusal, and that text behind it.
fn line_before(alloc: Global, refusal: Refusal, behind: &str) -> Result<String, AllocError>
    ensures { IfOk result
        (λ text. string_bytes text ≡ fault_line (Query refusal) ++ behind.now) }
{
    let mut text = format!(in alloc; "query refused: {refusal}\n")?;
    text.push_str(behind)?;
    Ok(text)
}

/// Why a query is refused. The only error is that memory ran out.
fn explanation(
    alloc: Global,
    query: &str,
    profile: Profile,
    refusal: Refusal,
) -> Result<String, AllocError>
    ensures { IfOk result
        (λ text. IsExplanation profile query.now refusal (string_bytes text)) }
{
    match refusal.kind {
        RefusalKind::TextTooLong => {
            let sentence = Reason::TextTooLong.sentence(Shell);
            format!(in alloc; "{sentence}\n")
        }
        _ => explanation_text(alloc, &explain(alloc, query, profile, refusal, Shell)?),
    }
}

/// Writes the line of the expression of a filter that is refused in the profile, and behind it why, as
/// `report_refusal` does of a query. What is to be tried instead is an expression.
pub fn report_refused_expression<E: Writer>(
    alloc: Global,
    expression: &str,
    profile: Profile,
    refusal: Refusal,
    faults: &mut E,
)
    ensures { AppendsPrefix (E.contents faults.old) (E.contents faults.new)
        (fault_line (Query refusal))
        ⊎ TellsExpression profile expression.now refusal (E.contents faults.old)
        (E.contents faults.new) }
{
    match expression_line(alloc, expression, profile, refusal) {
        Ok(text) => {
            let _ = write_all(faults, text.as_bytes());
        }
        Err(_) => report(alloc, &Fault::Query(refusal), faults),
    }
}

/// The line of a refused expression, and behind it why it is refused.
fn expression_line(
    alloc: Global,
    expression: &str,
    profile: Profile,
    refusal: Refusal,
) -> Result<String, AllocError>
    ensures { IfOk result
        (λ text. IsExpressionLine profile expression.now refusal (string_bytes text)) }
{
    let behind = expression_explanation(alloc, expression, profile, refusal)?;
    Ok(line_before(alloc, refusal, behind.as_str())?)
}

/// Why an expression is refused. The only error is that memory ran out.
fn expression_explanation(
    alloc: Global,
    expression: &str,
    profile: Profile,
    refusal: Refusal,
) -> Result<String, AllocError>
    ensures { IfOk result
        (λ text. IsExpressionExplanation profile expression.now refusal (string_bytes text)) }
{
    match refusal.kind {
        RefusalKind::TextTooLong => {
            let sentence = Reason::TextTooLong.sentence(Shell);
            format!(in alloc; "{sentence}\n")
        }
        _ => {
            let explanation = explain_expression(alloc, expression, profile, refusal, Shell)?;
            explanation_text(alloc, &explanation)
        }
    }
}

/// Writes the line of that fault of a document, which are these bytes, and behind it why and where they
/// are none. Where there is no memory for that, the line is written alone, and what cannot be written
/// is left out.
pub(crate) fn report_misreading<E: Writer>(
    alloc: Global,
    fault: &Fault,
    profile: Profile,
    bytes: &[u8],
    faults: &mut E,
)
    requires { IsFaultOfBytes profile bytes.now fault.now }
    ensures { AppendsPrefix (E.contents faults.old) (E.contents faults.new) (fault_line fault.now)
        ⊎ TellsMisread profile bytes.now fault.now (E.contents faults.old) (E.contents faults.new) }
{
    match misread_line(alloc, fault, profile, bytes) {
        Ok(Some(text)) => {
            let _ = write_all(faults, text.as_bytes());
        }
        _ => report(alloc, fault, faults),
    }
}

/// The line of a fault, and behind it why and where the bytes are no document; None where it is another fault.
fn misread_line(
    alloc: Global,
    fault: &Fault,
    profile: Profile,
    bytes: &[u8],
) -> Result<Option<String>, AllocError>
    requires { IsFaultOfBytes profile bytes.now fault.now }
    ensures { IfOk result (λ found. IfSome found
        (λ text. IsMisreadLine profile bytes.now fault.now (string_bytes text))) }
{
    match fault {
        Fault::Document(refused) => {
            let misreading = misreading_of(alloc, bytes, profile.numbers(), refused)?;
            let hint = hint(&misreading, bytes);
            Ok(Some(format!(in alloc; "{fault}\n{misreading}{hint}\n")?))
        }
        _ => Ok(None),
    }
}

/// What is said more in a shell of bytes that show another form than one document, behind a space.
fn hint(misreading: &Misreading, bytes: &[u8]) -> &'static str
    ensures { result.now ≡ document_hint misreading.now bytes.now }
{
    match misreading.reason {
        JsonReason::AfterValue if is_next_document(misreading.column, misreading.offset, bytes) => {
            " Where each line holds a document, jp-lines reads them."
        }
        JsonReason::HasFraction | JsonReason::NegativeZero | JsonReason::OutOfRange => {
            " With --decimals jp takes numbers of up to 38 digits exactly."
        }
        JsonReason::RecordSeparator => " tr -d '\\036' takes it away.",
        JsonReason::Gzip => " gzip -dc writes what it holds.",
        JsonReason::Utf16 => " iconv -f UTF-16 -t UTF-8 writes it so.",
        _ => "",
    }
}

/// Whether a line begins at that byte, which has that column, and a value with it.
fn is_next_document(column: usize, offset: usize, bytes: &[u8]) -> bool
    ensures { result ≡ is_next_document column offset bytes.now }
{
    match bytes.get(offset) {
        Some(byte) => column == 1 && begins_value(*byte),
        None => false,
    }
}

/// Whether a JSON value begins with the byte (RFC 8259 section 3).
fn begins_value(byte: u8) -> bool
    ensures { result ≡ begins_value byte }
{
    byte == b'{'
        || byte == b'['
        || byte == b'"'
        || byte == b'-'
        || is_digit(byte)
        || byte == b't'
        || byte == b'f'
        || byte == b'n'
}

/// Whether the byte is one of the digits `0` to `9`.
#[tactic(auto, unfolding(jp_reading::specs::Numbers::is_digit))]
fn is_digit(byte: u8) -> bool
    ensures { result ≡ is_digit byte }
{
    matches!(byte, b'0'..=b'9')
}
