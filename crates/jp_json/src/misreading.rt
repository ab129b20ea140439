//! What is told of bytes that are no document.

ghost use Rattle.std.specs.Prelude.{◌≡◌, true, IfOk, IfNone, IfSome, None, string_bytes};
ghost use Rattle.std.specs.Str.{chars};
ghost use Rattle.jp_decimal.specs.declared.numbers.Numbers.TheVariants.{Decimal, Whole};
ghost use Rattle.jp_document.specs.Document.{HasDefect, not_whole};
ghost use Rattle.jp_document.specs.Exact.{IsDocumentIn};
ghost use Rattle.jp_exact.specs.Defects.{HasExactDefect, IsDocumentFaultIn, number_range};
ghost use Rattle.jp_document.specs.Value.{Value};
ghost use Rattle.jp_json.specs.Misreading.{IsMisreading, IsNoJson};
ghost use Rattle.jp_json.specs.Place.{front_of, line_number, column};
ghost use Rattle.jp_reading.specs.Sentences.{is_sentence};

use crate::fractions::{fraction_at, range_at};
use crate::place::line_and_column;
use crate::reading::{Stop, read};
use crate::reason::JsonReason;
use crate::reasons::{encoding_reason, stop_reason, wrong_reason};
use crate::scalars::refused_scalar;
use crate::utf8::utf8_front;
use jp_decimal::Numbers;
use jp_document::DocumentFault;
use jp_exact::read_value;
use std::alloc::{AllocError, Global};
use std::fmt;

/// Why bytes are no document, and where.
#[derive(Debug, PartialEq, Drop)]
pub struct Misreading {
    /// The byte, from 0; the length of the bytes where they end too early.
    pub offset: usize,
    /// The number of its line, from 1.
    pub line: usize,
    /// Its column in that line, in characters from 1.
    pub column: usize,
    pub reason: JsonReason,
    /// The sentence for the reason: one line of printable characters, in ASCII.
    pub sentence: &'static str,
    /// The normalized path of a number that is not whole, or too much for a decimal (RFC 9535 section 2.7);
    /// None for other reasons.
    pub path: Option<String>,
}

/// The place, the path of a number, and the sentence, as `line 1, column 4: No comma may come before a
/// closing bracket.`
impl fmt::Display for Misreading {
    ghost use Rattle.std.specs.Prelude.{Some};
    ghost use Rattle.jp_json.specs.Told.{misreading_text};

    ghost output = { λ m. Some (misreading_text m) };

    fn fmt<W: fmt::Write>(&self, f: &mut fmt::Formatter<W>) -> fmt::Result {
        let (line, column) = (self.line, self.column);
        let sentence = self.sentence;
        match &self.path {
            Some(path) => write!(f, "line {line}, column {column}, at {path}: {sentence}"),
            None => write!(f, "line {line}, column {column}: {sentence}"),
        }
    }
}

/// That reason, at that byte of the text.
fn told(text: &str, offset: usize, reason: JsonReason, path: Option<String>) -> Misreading
    ensures offset { result.offset ≡ offset }
    ensures reason { result.reason ≡ reason }
    ensures path { result.path ≡ path }
    ensures line { result.line ≡ line_number (front_of offset (chars text.now)) }
    ensures column { result.column ≡ column (front_of offset (chars text.now)) }
    ensures sentence { is_sentence result.sentence.now ≡ true }
{
    let (line, column) = line_and_column(text, offset);
    Misreading {
        offset,
        line,
        column,
        reason,
        sentence: reason.sentence(),
        path,
    }
}

/// Why bytes hold no JSON value with such numbers.
fn not_json(alloc: Global, bytes: &[u8], numbers: Numbers) -> Result<Misreading, AllocError>
    requires { IsNoJson numbers bytes.now }
    ensures { IfOk result (IsMisreading numbers bytes.now) }
{
    let (text, is_utf8) = utf8_front(bytes);
    let reading = read(alloc, text)?;
    match reading.stop {
        Stop::Unexpected => {
            let reason = wrong_reason(bytes, stop_reason(reading));
            Ok(told(text, reading.offset, reason, None))
        }
        Stop::TooDeep => Ok(told(text, reading.offset, JsonReason::TooManyLevels, None)),
        Stop::Unfinished if is_utf8 => Ok(told(text, reading.offset, stop_reason(reading), None)),
        Stop::Whole if is_utf8 => {
            let (offset, reason) = refused_scalar(alloc, bytes, numbers)?;
            Ok(told(text, offset, reason, None))
        }
        Stop::Unfinished => Ok(told(text, text.len(), encoding_reason(bytes), None)),
        Stop::Whole => Ok(told(text, text.len(), encoding_reason(bytes), None)),
    }
}

/// The first number that is not whole.
fn not_whole(alloc: Global, bytes: &[u8], path: String) -> Result<Misreading, AllocError>
    requires { HasDefect bytes.now (not_whole (string_bytes path)) }
    ensures { IfOk result (IsMisreading Whole bytes.now) }
{
    let (text, _) = utf8_front(bytes);
    let (offset, reason) = fraction_at(alloc, bytes, path.as_str())?;
    Ok(told(text, offset, reason, Some(path)))
}

/// The first number that is too much for a decimal.
fn out_of_range(alloc: Global, bytes: &[u8], path: String) -> Result<Misreading, AllocError>
    requires { HasExactDefect bytes.now (number_range (string_bytes path)) }
    ensures { IfOk result (IsMisreading Decimal bytes.now) }
{
    let (text, _) = utf8_front(bytes);
    let (offset, reason) = range_at(alloc, bytes, path.as_str())?;
    Ok(told(text, offset, reason, Some(path)))
}

/// Why and where bytes are no document with such numbers, which have that fault.
///
/// The only error is that memory ran out, as it has where the fault is `NoMemory`.
pub fn misreading_of(
    alloc: Global,
    bytes: &[u8],
    numbers: Numbers,
    fault: &DocumentFault,
) -> Result<Misreading, AllocError>
    requires { IsDocumentFaultIn numbers bytes.now fault.now }
    ensures { IfOk result (IsMisreading numbers bytes.now) }
{
    match fault {
        DocumentFault::NoMemory => Err(AllocError),
        DocumentFault::NotJson => not_json(alloc, bytes, numbers),
        DocumentFault::NotWhole(path) => {
            not_whole(alloc, bytes, String::from_str(alloc, path.as_str())?)
        }
        DocumentFault::NumberRange(path) => {
            out_of_range(alloc, bytes, String::from_str(alloc, path.as_str())?)
        }
        DocumentFault::ListTooLong => {
            let (text, _) = utf8_front(bytes);
            Ok(told(text, text.len(), JsonReason::ListTooLong, None))
        }
    }
}

/// Why bytes are no document with such numbers, and where; None where they are one.
///
/// The only error is that memory ran out.
pub fn find_misreading(
    alloc: Global,
    bytes: &[u8],
    numbers: Numbers,
) -> Result<Option<Misreading>, AllocError>
    ensures none { IfOk result (λ m. IfNone m ((v : Value) × IsDocumentIn numbers bytes.now v)) }
    ensures some { IfOk result (λ m. IfSome m (IsMisreading numbers bytes.now)) }
{
    match read_value(alloc, bytes, numbers) {
        Ok(_) => Ok(None),
        Err(fault) => Ok(Some(misreading_of(alloc, bytes, numbers, &fault)?)),
    }
}
