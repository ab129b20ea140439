//! The reason for which reading stops.

ghost use Rattle.std.specs.Prelude.{◌≡◌};
ghost use Rattle.jp_json.specs.Private.Reasons.{is_word, is_comment, bracket_reason, brace_reason};
ghost use Rattle.jp_json.specs.Private.Reasons.{mark_reason, separator_reason, value_reason, name_reason, joint_reason};
ghost use Rattle.jp_json.specs.Private.Reasons.{after_reason, colon_reason, past_number_reason, number_reason};
ghost use Rattle.jp_json.specs.Private.Reasons.{outside_reason, unexpected_reason, open_reason, end_reason};
ghost use Rattle.jp_json.specs.Private.Reasons.{stop_reason, wrong_reason, encoding_reason};
ghost use Rattle.jp_json.specs.Misreading.{is_gzip, is_utf16};
ghost use Rattle.std.specs.Str.{chars};

use crate::machine::{ends_number, is_digit};
use crate::reading::{Reading, Stop};
use crate::reason::JsonReason;
use crate::state::{Level, Part, State};
use jp_reading::split_first;

/// Whether the character is a digit, a letter, `_` or `$`.
fn is_word(c: char) -> bool
    ensures { result ≡ is_word c }
{
    is_digit(c) || matches!(c, 'A'..='Z' | 'a'..='z' | '_' | '$')
}

/// Whether other formats begin a comment with the character, as JSON never does.
fn is_comment(c: char) -> bool
    ensures { result ≡ is_comment c }
{
    matches!(c, '/' | '#')
}

/// For a `]` that stands where a value has to: behind a comma of an array, or where no array is innermost.
fn bracket_reason(top: Option<Level>) -> JsonReason
    ensures { result ≡ bracket_reason top }
{
    match top {
        Some(Level::Array) => JsonReason::TrailingComma,
        Some(Level::Object) | None => JsonReason::WrongBracket,
    }
}

/// For a `}` that stands where a value has to: behind a member's colon, or where no object is innermost.
fn brace_reason(top: Option<Level>) -> JsonReason
    ensures { result ≡ brace_reason top }
{
    match top {
        Some(Level::Object) => JsonReason::MissingValue,
        Some(Level::Array) | None => JsonReason::WrongBracket,
    }
}

/// For U+FEFF that stands where a value has to: a byte order mark, if no level is open.
fn mark_reason(top: Option<Level>) -> JsonReason
    ensures { result ≡ mark_reason top }
{
    match top {
        None => JsonReason::ByteOrderMark,
        Some(_) => JsonReason::Unexpected,
    }
}

/// For U+001E that stands where a value has to: a record separator, if no level is open.
fn separator_reason(top: Option<Level>) -> JsonReason
    ensures { result ≡ separator_reason top }
{
    match top {
        None => JsonReason::RecordSeparator,
        Some(_) => JsonReason::Unexpected,
    }
}

/// For a character that stands where a value has to.
fn value_reason(top: Option<Level>, c: char) -> JsonReason
    ensures { result ≡ value_reason top c }
{
    match c {
        '\u{feff}' => mark_reason(top),
        '\u{1e}' => separator_reason(top),
        '\'' => JsonReason::SingleQuote,
        _ if is_comment(c) => JsonReason::Comment,
        ']' => bracket_reason(top),
        '}' => brace_reason(top),
        ',' | ':' => JsonReason::MissingValue,
        '+' | '.' => JsonReason::WrongNumber,
        _ if is_word(c) => JsonReason::WrongWord,
        _ => JsonReason::Unexpected,
    }
}

/// For a character that stands where a member's name has to.
fn name_reason(c: char) -> JsonReason
    ensures { result ≡ name_reason c }
{
    match c {
        '\'' => JsonReason::SingleQuote,
        _ if is_comment(c) => JsonReason::Comment,
        '}' => JsonReason::TrailingComma,
        ']' => JsonReason::WrongBracket,
        _ if c == '-' || is_word(c) => JsonReason::UnquotedName,
        _ => JsonReason::MissingName,
    }
}

/// For a character after a value in an array or an object.
fn joint_reason(c: char) -> JsonReason
    ensures { result ≡ joint_reason c }
{
    match c {
        ']' | '}' => JsonReason::WrongBracket,
        ':' => JsonReason::StrayColon,
        _ => JsonReason::MissingComma,
    }
}

/// For a character after a value.
fn after_reason(top: Option<Level>, c: char) -> JsonReason
    ensures { result ≡ after_reason top c }
{
    if is_comment(c) {
        return JsonReason::Comment;
    }
    match top {
        None => JsonReason::AfterValue,
        Some(_) => joint_reason(c),
    }
}

/// For a character after a part of a number that may end it.
fn past_number_reason(top: Option<Level>, c: char) -> JsonReason
    ensures { result ≡ past_number_reason top c }
{
    if is_word(c) || c == '.' || c == '+' || c == '-' {
        JsonReason::WrongNumber
    } else {
        after_reason(top, c)
    }
}

/// For a character after that part of a number.
fn number_reason(part: Part, top: Option<Level>, c: char) -> JsonReason
    ensures { result ≡ number_reason part top c }
{
    match part {
        Part::Minus if c == 'I' => JsonReason::WrongWord,
        Part::Zero if is_digit(c) => JsonReason::LeadingZero,
        Part::Zero | Part::Whole | Part::Fraction | Part::Power => past_number_reason(top, c),
        Part::Minus | Part::Point | Part::Exponent | Part::Sign => JsonReason::WrongNumber,
    }
}

/// For a character outside of strings, where it shows more than the other reason.
fn outside_reason(c: char, other: JsonReason) -> JsonReason
    ensures { result ≡ outside_reason c other }
{
    match c {
        '\0' => JsonReason::NullCharacter,
        '\u{a0}' => JsonReason::NoBreakSpace,
        _ => other,
    }
}

/// For a character after a member's name.
fn colon_reason(c: char) -> JsonReason
    ensures { result ≡ colon_reason c }
{
    if is_comment(c) {
        JsonReason::Comment
    } else {
        JsonReason::MissingColon
    }
}

/// For a character with which no JSON text goes on.
fn unexpected_reason(top: Option<Level>, state: State, c: char) -> JsonReason
    ensures { result ≡ unexpected_reason top state c }
{
    match state {
        State::Value | State::Item => outside_reason(c, value_reason(top, c)),
        State::Member | State::Name => outside_reason(c, name_reason(c)),
        State::Colon => outside_reason(c, colon_reason(c)),
        State::After => outside_reason(c, after_reason(top, c)),
        State::Text(_) => JsonReason::ControlCharacter,
        State::Escape(_) | State::Hex(_, _) => JsonReason::WrongEscape,
        State::Number(part) => outside_reason(c, number_reason(part, top, c)),
        State::Letters(_) => outside_reason(c, JsonReason::WrongWord),
    }
}

/// For an end that comes between the parts of an array or an object, or before any value.
fn open_reason(top: Option<Level>) -> JsonReason
    ensures { result ≡ open_reason top }
{
    match top {
        None => JsonReason::Empty,
        Some(Level::Array) => JsonReason::EndInArray,
        Some(Level::Object) => JsonReason::EndInObject,
    }
}

/// For an end that comes too early.
fn end_reason(top: Option<Level>, state: State) -> JsonReason
    ensures { result ≡ end_reason top state }
{
    match state {
        State::Text(_) | State::Escape(_) | State::Hex(_, _) => JsonReason::EndInText,
        State::Number(part) if !ends_number(part) => JsonReason::EndInNumber,
        State::Letters(_) => JsonReason::EndInWord,
        _ => open_reason(top),
    }
}

/// The reason for which reading stops.
pub(crate) fn stop_reason(reading: Reading) -> JsonReason
    ensures { result ≡ stop_reason reading.entry.stop reading.entry.top reading.entry.state
        (chars reading.entry.rest.now) }
{
    match reading.stop {
        Stop::Whole => JsonReason::Unreadable,
        Stop::Unfinished => end_reason(reading.top, reading.state),
        Stop::TooDeep => JsonReason::TooManyLevels,
        Stop::Unexpected => match split_first(reading.rest) {
            Some((next, _)) => unexpected_reason(reading.top, reading.state, next),
            None => JsonReason::Unreadable,
        },
    }
}

/// Whether bytes begin with the mark of gzip (RFC 1952 section 2.3.1).
fn is_gzip(bytes: &[u8]) -> bool
    ensures { result ≡ is_gzip bytes.now }
{
    matches!(bytes, [0x1f, 0x8b, ..])
}

/// Whether bytes begin with U+FEFF in UTF-16, in either order of its bytes.
fn is_utf16(bytes: &[u8]) -> bool
    ensures { result ≡ is_utf16 bytes.now }
{
    matches!(bytes, [0xff, 0xfe, ..] | [0xfe, 0xff, ..])
}

/// The reason for bytes with which no JSON text goes on, where they show more than the other reason.
pub(crate) fn wrong_reason(bytes: &[u8], other: JsonReason) -> JsonReason
    ensures { result ≡ wrong_reason bytes.now other }
{
    if is_gzip(bytes) {
        JsonReason::Gzip
    } else {
        other
    }
}

/// The reason for bytes that are no UTF-8.
pub(crate) fn encoding_reason(bytes: &[u8]) -> JsonReason
    ensures { result ≡ encoding_reason bytes.now }
{
    if is_utf16(bytes) {
        JsonReason::Utf16
    } else {
        JsonReason::NotUtf8
    }
}
