//! The strings and numbers of a JSON text.

ghost use Rattle.std.specs.Prelude.{◌≡◌, ◌<◌, ◌≤◌, ◌+◌, true, IfOk, IfSome, get_or, length};
ghost use Rattle.std.specs.Prelude.{IsUtf8};
ghost use Rattle.std.specs.Str.{chars};
ghost use Rattle.jp_reading.specs.Characters.{double_quote};
ghost use Rattle.jp_json.specs.Grammar.{json_text};
ghost use Rattle.jp_json.specs.Misreading.{IsNoJson, IsNoValue, IsPlaceIn, begins_scalar, cause_of, scalar};
ghost use Rattle.jp_json.specs.Private.Parts.{IsBlamed};
ghost use Rattle.jp_json.specs.Private.Strings.{IsStringEnd};

use crate::reading::{Stop, read};
use crate::reason::JsonReason;
use jp_decimal::Numbers;
use jp_document::DocumentFault;
use jp_exact::read_value;
use std::alloc::{AllocError, Global};
use std::str::from_utf8;

/// Where a string or a number stands in a JSON text: its bytes from `start` up to and without `end`.
#[derive(Clone, Copy, Debug, PartialEq, Eq)]
pub(crate) struct Scalar {
    pub start: usize,
    pub end: usize,
}

/// The end of the string whose characters begin at that byte.
fn string_end(text: &[u8], from: usize) -> usize
    requires { from ≤ length text.now }
    ensures low { from ≤ result }
    ensures high { result ≤ length text.now }
    ensures string { IsStringEnd text.now from result }
{
    let mut at = from;
    'characters: while at < text.len() {
        match text[at] {
            b'"' => return at + 1,
            b'\\' if at + 1 < text.len() => at += 2,
            _ => at += 1,
        }
    }
    at
}

/// The end of the number that goes on at that byte.
fn number_end(text: &[u8], from: usize) -> usize
    requires { from ≤ length text.now }
    ensures low { from ≤ result }
    ensures high { result ≤ length text.now }
{
    let mut at = from;
    'digits: while at < text.len() {
        if !matches!(text[at], b'0'..=b'9' | b'.' | b'e' | b'E' | b'+' | b'-') {
            break;
        }
        at += 1;
    }
    at
}

/// The string or the number that begins at that byte, if one does.
pub(crate) fn scalar_at(text: &[u8], start: usize) -> Option<Scalar>
    requires { start < length text.now }
    ensures start { IfSome result (λ s. s.start ≡ start) }
    ensures end { IfSome result (λ s. (start < s.end) × (s.end ≤ length text.now)) }
    ensures string { IfSome result (λ s. get_or text.now start 0 ≡ double_quote
        → IsStringEnd text.now (start + 1) s.end) }
    ensures ascii { IfSome result (λ _. get_or text.now start 0 < 128) }
{
    let end = match text[start] {
        b'"' => string_end(text, start + 1),
        b'-' | b'0'..=b'9' => number_end(text, start + 1),
        _ => return None,
    };
    Some(Scalar { start, end })
}

/// Whether the first byte is a double quote, a minus or a digit.
#[tactic(auto, unfolding(jp_reading::specs::Numbers::is_digit))]
fn begins_scalar(part: &[u8]) -> bool
    ensures { result ≡ begins_scalar part.now }
{
    match part {
        [first, ..] => *first == b'"' || *first == b'-' || first.is_ascii_digit(),
        [] => false,
    }
}

/// Whether the bytes are a JSON text by the grammar.
fn is_text(alloc: Global, part: &[u8]) -> Result<bool, AllocError>
    ensures { IfOk result (λ b. b ≡ true → IsUtf8 part.now × json_text 127 (chars part.now)) }
{
    match from_utf8(part) {
        Ok(text) => match read(alloc, text)?.stop {
            Stop::Whole => Ok(true),
            Stop::Unfinished | Stop::Unexpected | Stop::TooDeep => Ok(false),
        },
        Err(_) => Ok(false),
    }
}

/// Whether the bytes hold no JSON value with such numbers.
fn is_not_json(alloc: Global, part: &[u8], numbers: Numbers) -> Result<bool, AllocError>
    ensures { IfOk result (λ b. b ≡ true → IsNoJson numbers part.now) }
{
    match read_value(alloc, part, numbers) {
        Err(DocumentFault::NotJson) => Ok(true),
        Err(DocumentFault::NoMemory) => Err(AllocError),
        _ => Ok(false),
    }
}

/// Whether the bytes are a string or a number that alone holds no value with such numbers.
fn is_no_value(alloc: Global, part: &[u8], numbers: Numbers) -> Result<bool, AllocError>
    ensures { IfOk result (λ b. b ≡ true → IsNoValue numbers part.now) }
{
    let is_text = is_text(alloc, part)?;
    let is_not_json = is_not_json(alloc, part, numbers)?;
    Ok(begins_scalar(part) && is_text && is_not_json)
}

/// Whether a string has half a surrogate pair or a number is beyond those of 64 bits, so that it is read alone to tell
/// whether it is to blame.
fn is_suspect(part: &[u8]) -> bool {
    if part.first() == Some(&b'"') {
        return lone_surrogate(part, 0) > 0;
    }
    let is_large = part.len() > 300 || part.iter().any(|b| *b == b'e' || *b == b'E');
    is_large
        && match fast_float::parse::<f64, _>(part) {
            Ok(number) => number.is_infinite(),
            Err(_) => true,
        }
}

/// Of a JSON text that holds no value with such numbers the first string or number that is to blame, and
/// why.
pub(crate) fn refused_scalar(
    alloc: Global,
    text: &[u8],
    numbers: Numbers,
) -> Result<(usize, JsonReason), AllocError>
    ensures blamed { IfOk result
        (λ x. IsBlamed scalar (IsNoValue numbers) text.now x.0 x.1) }
    ensures place { IfOk result (λ x. IsUtf8 text.now → IsPlaceIn text.now x.0) }
{
    let mut at = 0;
    'scalars: while at < text.len() {
        match scalar_at(text, at) {
            Some(found) => {
                let part = &text[at..found.end];
                if is_suspect(part) && is_no_value(alloc, part, numbers)? {
                    return Ok(blamed(&text[..found.end], at));
                }
                at = found.end;
            }
            None => at += 1,
        }
    }
    Ok((0, JsonReason::Unreadable))
}

/// The place and the reason in the string or number that begins at that byte and ends the text.
fn blamed(text: &[u8], start: usize) -> (usize, JsonReason)
    requires { start < length text.now }
    ensures low { start ≤ result.0 }
    ensures high { result.0 ≤ length text.now }
    ensures cause { cause_of result.1 ≡ scalar }
    ensures ascii { get_or text.now start 0 < 128 → (result.0 < length text.now)
        × (get_or text.now result.0 0 < 128) }
{
    if text[start] == b'"' {
        (lone_surrogate(text, start), JsonReason::LoneSurrogate)
    } else {
        (start, JsonReason::BeyondFloat)
    }
}

/// The backslash of the first escape of half a surrogate pair, in the string that begins at that byte; the
/// byte itself where there is none.
fn lone_surrogate(text: &[u8], from: usize) -> usize
    requires { from ≤ length text.now }
    ensures low { from ≤ result }
    ensures high { result ≤ length text.now }
    ensures ascii { from < length text.now → get_or text.now from 0 < 128
        → (result < length text.now) × (get_or text.now result 0 < 128) }
{
    let mut at = from;
    'characters: while at < text.len() {
        if text[at] != b'\\' {
            at += 1;
            continue;
        }
        match unit_at(text, at) {
            Some(0xd800..=0xdbff) if is_low_at(text, at + 6) => at += 12,
            Some(0xd800..=0xdfff) => return at,
            Some(_) => at += 6,
            None if at + 1 < text.len() => at += 2,
            None => at += 1,
        }
    }
    from
}

/// Whether an escape of the second half of a surrogate pair stands at that byte.
fn is_low_at(text: &[u8], at: usize) -> bool
    ensures { result ≡ true → at + 6 ≤ length text.now }
{
    matches!(unit_at(text, at), Some(0xdc00..=0xdfff))
}

/// The number of the escape by `u` that stands at that byte, if one does.
fn unit_at(text: &[u8], at: usize) -> Option<u32>
    ensures { IfSome result (λ _. at + 6 ≤ length text.now) }
{
    if at >= text.len() || text.len() - at < 6 || text[at] != b'\\' || text[at + 1] != b'u' {
        return None;
    }
    let mut unit = 0u32;
    for digit in &text[at + 2..at + 6] {
        let value = char::from(*digit).to_digit(16)?;
        unit = (unit * 16 + value) % 0x1_0000;
    }
    Some(unit)
}
