//! Texts between quotes, with their escapes undone (RFC 8259 section 7).

ghost use Rattle.std.specs.Prelude.{◌≡◌, ◌+◌, ◌++◌, ◌<◌, ◌≤◌, IfSome, IsTrue, OnSome, Some, true};
ghost use Rattle.std.specs.Prelude.{length, slice_index, slice_range, string_bytes};
ghost use Rattle.std.specs.Bool.{OnTrue};
ghost use Rattle.std.specs.Char.{digit_value};
ghost use Rattle.std.specs.Str.{IsCharBoundary};
ghost use Rattle.json.specs.Text.{after_backslash, after_high, after_u, content, plain, prepend};
ghost use Rattle.json.specs.Text.{is_high_surrogate, short_escape};
ghost use Rattle.jp_flat.specs.Private.Escapes.{GoesOn, IsCodeUnit, IsEscape, IsPastEscape};
ghost use Rattle.jp_flat.specs.Private.Tokens.{IsSaid};

use crate::runs::plain_end;

/// Appends what a text between quotes holds, from behind the first quote on. None where an escape is
/// none, the last quote is missing, or no memory is left; a part of it may then be there.
pub(crate) fn push_content(out: &mut String, text: &str) -> Option<()>
    ensures { OnSome result (prepend (string_bytes out.old) (content plain text.now)
        ≡ Some (string_bytes out.new)) }
{
    let bytes = text.as_bytes();
    let mut first = 0;
    let mut at = 0;
    'pieces: loop {
        let end = push_piece(out, text, first, at)?;
        if end == bytes.len() {
            return None;
        }
        if bytes[end] == b'"' {
            return Some(());
        }
        if is_escaped_itself(bytes, end) {
            first = end + 1;
            at = end + 2;
        } else {
            let (character, next) = escape(bytes, end)?;
            out.push(character).ok()?;
            first = next;
            at = next;
        }
    }
}

/// Whether a text between quotes, from behind the first quote on, has a last one and no escapes that
/// are none.
#[inline(never)]
pub(crate) fn has_content(bytes: &[u8]) -> bool
    ensures { IsTrue result → IsSaid (content plain bytes.now) }
{
    let mut at = 0;
    'escapes: loop {
        let end = plain_end(bytes, at);
        if end == bytes.len() {
            return false;
        }
        if bytes[end] == b'"' {
            return true;
        }
        let Some(next) = past_escape(bytes, end) else {
            return false;
        };
        at = next;
    }
}

/// Where the text goes on behind the escape at an offset. None where there is none.
#[inline(always)]
fn past_escape(bytes: &[u8], at: usize) -> Option<usize>
    requires { at < length bytes.now }
    ensures { IfSome result (IsPastEscape bytes.now at) }
{
    if is_escaped_itself(bytes, at) {
        return Some(at + 2);
    }
    let (_, next) = escape(bytes, at)?;
    Some(next)
}

/// Appends a piece of the text: the bytes from the first on up to an offset, and those behind it that
/// stand for themselves. Answers where they end.
#[inline(always)]
fn push_piece(out: &mut String, text: &str, first: usize, at: usize) -> Option<usize>
    requires boundary { IsCharBoundary text.now first }
    requires order { (first ≤ at) × (at ≤ length text.now) }
    ensures goes { IfSome result (GoesOn text.now
        (string_bytes out.old ++ slice_range text.now first at) at (string_bytes out.new)) }
    ensures end { IfSome result (IsCharBoundary text.now) }
{
    let end = plain_end(text.as_bytes(), at);
    out.push_str(&text[first..end]).ok()?;
    Some(end)
}

/// Whether the escape at an offset stands for its own second character, so that a piece of the text
/// can begin there.
#[inline(always)]
fn is_escaped_itself(bytes: &[u8], at: usize) -> bool
    requires { at < length bytes.now }
    ensures { OnTrue result (IsEscape bytes.now plain at (slice_index bytes.now (at + 1)) (at + 2)) }
{
    bytes.len() - at >= 2 && bytes[at] == b'\\' && matches!(bytes[at + 1], b'"' | b'\\' | b'/')
}

/// The character that the escape at an offset stands for, and where the text goes on.
#[inline(always)]
fn escape(bytes: &[u8], at: usize) -> Option<(char, usize)>
    requires { at < length bytes.now }
    ensures { IfSome result (λ r. IsEscape bytes.now plain at r.0 r.1) }
{
    if bytes.len() - at < 2 || bytes[at] != b'\\' {
        return None;
    }
    let letter = bytes[at + 1];
    if letter == b'u' {
        let (character, next) = spelled_by_number(bytes, at + 2)?;
        return Some((character, next));
    }
    let byte = short_escape(letter)?;
    Some((char::from(byte), at + 2))
}

/// What a backslash and this letter stand for, other than `\u`.
#[inline(always)]
#[tactic(auto, unfolding(json::specs::Text::short_escape))]
fn short_escape(letter: u8) -> Option<u8>
    ensures value { result ≡ short_escape letter }
    ensures ascii { IfSome result (λ c. (c < 128) × (letter < 128)) }
{
    match letter {
        b'"' | b'\\' | b'/' => Some(letter),
        b'b' => Some(8),
        b'f' => Some(12),
        b'n' => Some(b'\n'),
        b'r' => Some(b'\r'),
        b't' => Some(b'\t'),
        _ => None,
    }
}

/// The character whose digits stand behind `\u`, from an offset on, and where the text goes on.
#[inline(never)]
fn spelled_by_number(bytes: &[u8], from: usize) -> Option<(char, usize)>
    ensures { IfSome result (λ r. IsEscape bytes.now after_u from r.0 r.1) }
{
    let unit = code_unit(bytes, from)?;
    if 0xd800 <= unit && unit < 0xdc00 {
        let (character, next) = surrogate_pair(bytes, from + 4, unit)?;
        return Some((character, next));
    }
    let character = char::from_u32(unit)?;
    Some((character, from + 4))
}

/// The character of a high surrogate and of the low one that is spelled behind it.
fn surrogate_pair(bytes: &[u8], at: usize, high: u32) -> Option<(char, usize)>
    requires { is_high_surrogate high ≡ true }
    ensures { IfSome result (λ r. IsEscape bytes.now (after_high high) at r.0 r.1) }
{
    if bytes.len().saturating_sub(at) < 2 || bytes[at] != b'\\' || bytes[at + 1] != b'u' {
        return None;
    }
    let low = code_unit(bytes, at + 2)?;
    if low < 0xdc00 || 0xe000 <= low {
        return None;
    }
    let character = char::from_u32(0x10000 + (high - 0xd800) * 1024 + (low - 0xdc00))?;
    Some((character, at + 6))
}

/// The number that four hexadecimal digits write.
fn code_unit(bytes: &[u8], from: usize) -> Option<u32>
    ensures { IfSome result (IsCodeUnit bytes.now from) }
{
    if bytes.len().saturating_sub(from) < 4 {
        return None;
    }
    let first = hex_digit(bytes[from])?;
    let second = hex_digit(bytes[from + 1])?;
    let third = hex_digit(bytes[from + 2])?;
    let fourth = hex_digit(bytes[from + 3])?;
    Some(first * 4096 + second * 256 + third * 16 + fourth)
}

/// The value of a hexadecimal digit.
fn hex_digit(byte: u8) -> Option<u32>
    ensures value { IfSome result (λ n. n ≡ digit_value byte) }
    ensures small { IfSome result (λ n. n < 16) }
    ensures ascii { IfSome result (λ n. byte < 128) }
{
    char::from(byte).to_digit(16)
}
