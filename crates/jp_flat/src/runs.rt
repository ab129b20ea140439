//! Runs of digits, and of the bytes of a text that stand for themselves.

ghost use Rattle.std.specs.Prelude.{◌≡◌, ◌≤◌, ◌<◌, ◌+◌, ◌-◌, IfSome, drop, get_or, length, map};
ghost use Rattle.std.specs.Prelude.{take};
ghost use Rattle.std.specs.Char.{is_ascii_digit};
ghost use Rattle.std.specs.List.{prefix_len};
ghost use Rattle.std.specs.Simd.Lanes.{mask_l};
ghost use Rattle.json.specs.Lex.{between, in_string, lex};
ghost use Rattle.json.specs.Run.{is_plain, is_stop};
ghost use Rattle.jp_flat.specs.Private.Tokens.{IsDigits, IsSpelledFrom};

use crate::token::Spelled;
use std::simd::prelude::*;

/// The text that is spelled from behind its quote on, and where its last quote ends.
#[inline(always)]
pub(crate) fn spelled<'t>(bytes: &'t [u8], first: usize) -> Option<(Spelled<'t>, usize)>
    requires { (0 < first) × (first ≤ length bytes.now) }
    ensures { IfSome result (λ r. IsSpelledFrom bytes.now first r.1 r.0) }
{
    let end = plain_end(bytes, first);
    if end < bytes.len() && bytes[end] == b'"' {
        return Some((Spelled::Plain(first, &bytes[first..end]), end + 1));
    }
    let quote = escaped_end(bytes, first, end)?;
    Some((Spelled::Escaped(&bytes[first - 1..]), quote + 1))
}

/// The quote that ends a text with escapes, which is read up to an offset.
fn escaped_end(bytes: &[u8], first: usize, from: usize) -> Option<usize>
    requires inside { (first ≤ from) × (from ≤ length bytes.now) }
    requires plain { lex in_string (drop first bytes.now) ≡ lex in_string (drop from bytes.now) }
    ensures passes { IfSome result (λ q. lex in_string (drop first bytes.now)
        ≡ lex between (drop (q + 1) bytes.now)) }
    ensures within { IfSome result (λ q. (first ≤ q) × (q < length bytes.now)) }
{
    let mut at = from;
    'escapes: while bytes.len() - at >= 2 && bytes[at] == b'\\' {
        at = plain_end(bytes, at + 2);
    }
    if at < bytes.len() && bytes[at] == b'"' {
        Some(at)
    } else {
        None
    }
}

/// The first quote, backslash or control from an offset on, or the end.
#[inline(always)]
pub(crate) fn plain_end(bytes: &[u8], from: usize) -> usize
    requires { from ≤ length bytes.now }
    ensures value { result ≡ from + prefix_len is_plain (drop from bytes.now) }
    ensures within { result ≤ length bytes.now }
{
    let mut at = from;
    'lanes: while bytes.len() - at >= 16 {
        let found = stops(u8x16::from_slice(&bytes[at..]));
        if found != 0 {
            return at + found.trailing_zeros() as usize;
        }
        at += 16;
    }
    plain_end_slowly(bytes, at)
}

/// The quotes, backslashes and controls among the bytes of a block, a bit for each byte.
#[inline(always)]
fn stops(block: u8x16) -> u64
    ensures { result ≡ mask_l (map is_stop block) }
{
    (block.simd_eq(u8x16::splat(b'"'))
        | block.simd_eq(u8x16::splat(b'\\'))
        | block.simd_lt(u8x16::splat(0x20))).to_bitmask()
}

/// The first quote, backslash or control from an offset on, or the end, looked for byte by byte.
fn plain_end_slowly(bytes: &[u8], from: usize) -> usize
    requires { from ≤ length bytes.now }
    ensures { result ≡ from + prefix_len is_plain (drop from bytes.now) }
{
    let mut at = from;
    'bytes: while at < bytes.len() && bytes[at] != b'"' && bytes[at] != b'\\' && bytes[at] >= 0x20 {
        at += 1;
    }
    at
}

/// The end of the digits from an offset on, and the number that they write, if they are at most 18.
#[inline(always)]
pub(crate) fn digits_end(bytes: &[u8], from: usize) -> (usize, u64)
    requires { from ≤ length bytes.now }
    ensures end { result.0 ≡ from + prefix_len is_ascii_digit (drop from bytes.now) }
    ensures within { result.0 ≤ length bytes.now }
    ensures digits { IsDigits (take (result.0 - from) (drop from bytes.now)) result.1 }
{
    let mut at = from;
    let mut number = 0u64;
    'digits: while at < bytes.len() && bytes[at].is_ascii_digit() {
        let digit = u64::from(bytes[at] - b'0');
        number = number.wrapping_mul(10).wrapping_add(digit);
        at += 1;
    }
    (at, number)
}
