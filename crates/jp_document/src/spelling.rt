//! How texts are spelled between quotes.

ghost use Rattle.std.specs.Prelude.{◌≡◌, ◌+◌, ◌<◌, ◌≤◌, ◌++◌, ◌∷◌, [], true, false, length};
ghost use Rattle.std.specs.Prelude.{take, drop, slice_index, string_bytes, OnOk};
ghost use Rattle.std.specs.Prelude.{All, ◌==◌, ◌||◌, map, nat_lt};
ghost use Rattle.std.specs.Simd.Lanes.{mask_l};
ghost use Rattle.std.specs.Bool.{OnTrue};
ghost use Rattle.std.specs.List.{flat_map};
ghost use Rattle.jp_decimal.specs.Appended.{IsBegun};
ghost use Rattle.jp_document.specs.Spelling.{spelling, quoted_in, hex_digit, control};

use std::alloc::AllocError;
use std::simd::prelude::*;

/// Appends the text between two of these quotes, each character as it is spelled there. A text in which
/// each stands for itself, as nearly all do, is copied as it is.
#[inline(always)]
pub(crate) fn push_quoted(out: &mut String, text: &str, quote: u8) -> Result<(), AllocError>
    requires { quote < 128 }
    ensures ok { OnOk result
        (string_bytes out.new ≡ string_bytes out.old ++ quoted_in quote text.now) }
    ensures kept { IsBegun (string_bytes out.old) (quoted_in quote text.now)
        (string_bytes out.new) }
{
    if is_plain(text.as_bytes(), quote) {
        push_plain(out, text, quote)
    } else {
        push_escaped(out, text, quote)
    }
}

/// Appends a text whose bytes stand for themselves, between quotes.
#[inline(always)]
fn push_plain(out: &mut String, text: &str, quote: u8) -> Result<(), AllocError>
    requires ascii { quote < 128 }
    requires plain { flat_map (spelling quote) text.now ≡ text.now }
    ensures ok { OnOk result
        (string_bytes out.new ≡ string_bytes out.old ++ quoted_in quote text.now) }
    ensures kept { IsBegun (string_bytes out.old) (quoted_in quote text.now)
        (string_bytes out.new) }
{
    out.push(char::from(quote))?;
    out.push_str(text)?;
    out.push(char::from(quote))
}

/// Appends any text between quotes. What needs no spelling of its own is copied in whole runs.
#[inline(never)]
fn push_escaped(out: &mut String, text: &str, quote: u8) -> Result<(), AllocError>
    requires { quote < 128 }
    ensures ok { OnOk result
        (string_bytes out.new ≡ string_bytes out.old ++ quoted_in quote text.now) }
    ensures kept { IsBegun (string_bytes out.old) (quoted_in quote text.now)
        (string_bytes out.new) }
{
    out.push(char::from(quote))?;
    push_spelled(out, text, quote)?;
    out.push(char::from(quote))
}

/// Whether all bytes stand for themselves. A text of four bytes or more is looked at in blocks, of which
/// the last two may overlap.
#[inline(always)]
fn is_plain(text: &[u8], quote: u8) -> bool
    requires { quote < 128 }
    ensures { OnTrue result (flat_map (spelling quote) text.now ≡ text.now) }
{
    match text.len() {
        0..=3 => plain_len(text, quote) == text.len(),
        4..=8 => is_plain_by_fours(text, quote),
        9..=16 => is_plain_by_eights(text, quote),
        _ => is_plain_long(text, quote),
    }
}

/// Whether all bytes stand for themselves, where there are four to eight.
#[inline(always)]
fn is_plain_by_fours(text: &[u8], quote: u8) -> bool
    requires least { 4 ≤ length text.now }
    requires most { length text.now ≤ 8 }
    ensures { OnTrue result (flat_map (spelling quote) text.now ≡ text.now) }
{
    let first = u8x4::from_slice(text);
    let last = u8x4::from_slice(&text[text.len() - 4..]);
    is_plain_block(first.shuffle(last, [0, 1, 2, 3, 4, 5, 6, 7]), quote)
}

/// Whether all bytes stand for themselves, where there are eight to sixteen.
#[inline(always)]
fn is_plain_by_eights(text: &[u8], quote: u8) -> bool
    requires least { 8 ≤ length text.now }
    requires most { length text.now ≤ 16 }
    ensures { OnTrue result (flat_map (spelling quote) text.now ≡ text.now) }
{
    let first = u8x8::from_slice(text);
    let last = u8x8::from_slice(&text[text.len() - 8..]);
    let both = first.shuffle(last, [0, 1, 2, 3, 4, 5, 6, 7, 8, 9, 10, 11, 12, 13, 14, 15]);
    is_plain_block(both, quote)
}

/// Whether all bytes stand for themselves, where there are sixteen or more.
#[inline(never)]
fn is_plain_long(text: &[u8], quote: u8) -> bool
    requires { LANES ≤ length text.now }
    ensures { OnTrue result (flat_map (spelling quote) text.now ≡ text.now) }
{
    let front = plain_blocks(text, quote);
    text.len() - front < LANES && is_plain_at(text, text.len() - LANES, quote)
}

/// Appends a text as it is spelled between two of the quotes, without these.
#[inline(always)]
fn push_spelled(out: &mut String, text: &str, quote: u8) -> Result<(), AllocError>
    requires { quote < 128 }
    ensures ok { OnOk result
        (string_bytes out.new ≡ string_bytes out.old ++ flat_map (spelling quote) text.now) }
    ensures kept { IsBegun (string_bytes out.old) (flat_map (spelling quote) text.now)
        (string_bytes out.new) }
{
    let mut rest = text;
    'runs: loop {
        let (plain, marked) = rest.split_at(plain_len(rest.as_bytes(), quote));
        out.push_str(plain)?;
        let Some(first) = marked.as_bytes().first() else {
            return Ok(());
        };
        push_marked(out, *first, quote)?;
        rest = marked.split_at(1).1;
    }
}

/// How many bytes at the start stand for themselves: looked at sixteen by sixteen, and the last ones
/// one by one.
fn plain_len(text: &[u8], quote: u8) -> usize
    requires { quote < 128 }
    ensures within { result ≤ length text.now }
    ensures plain { flat_map (spelling quote) (take result text.now) ≡ take result text.now }
    ensures ascii { result < length text.now → slice_index text.now result < 128 }
{
    let mut plain = plain_blocks(text, quote);
    'bytes: while plain < text.len() && !is_marked(text[plain], quote) {
        plain += 1;
    }
    plain
}

const LANES: usize = 16;

/// How many bytes at the start stand for themselves, as far as whole blocks of sixteen tell.
fn plain_blocks(text: &[u8], quote: u8) -> usize
    ensures within { result ≤ length text.now }
    ensures plain { All (λ b. spelling quote b ≡ b ∷ []) (take result text.now) }
{
    let mut plain = 0;
    'lanes: while text.len() - plain >= LANES {
        let next = plain_lanes(u8x16::from_slice(&text[plain..]), quote);
        plain += next;
        if next < LANES {
            break;
        }
    }
    plain
}

/// How many bytes of a block stand for themselves before the first other one.
#[inline(always)]
fn plain_lanes<const N: usize>(block: Simd<u8, N>, quote: u8) -> usize
    requires { N ≤ 64 }
    ensures within { result ≤ N }
    ensures plain { All (λ b. spelling quote b ≡ b ∷ []) (take result block.entry) }
{
    let marked = marks(block, quote);
    if marked == 0 {
        N
    } else {
        marked.trailing_zeros() as usize
    }
}

/// Whether the next sixteen bytes stand for themselves.
#[inline(always)]
fn is_plain_at(text: &[u8], from: usize, quote: u8) -> bool
    requires { from + LANES ≤ length text.now }
    ensures { OnTrue result
        (All (λ b. spelling quote b ≡ b ∷ []) (take LANES (drop from text.now))) }
{
    is_plain_block(u8x16::from_slice(&text[from..]), quote)
}

/// Whether the bytes of a block stand for themselves.
#[inline(always)]
fn is_plain_block<const N: usize>(block: Simd<u8, N>, quote: u8) -> bool
    requires { N ≤ 64 }
    ensures { OnTrue result (All (λ b. spelling quote b ≡ b ∷ []) block.entry) }
{
    marks(block, quote) == 0
}

/// The bytes of a block that have a spelling of their own, a bit for each.
#[inline(always)]
fn marks<const N: usize>(block: Simd<u8, N>, quote: u8) -> u64
    requires { N ≤ 64 }
    ensures { result
        ≡ mask_l (map (λ b. (nat_lt b 32 || b == quote) || b == 92) block.entry) }
{
    (block.simd_lt(Simd::splat(b' '))
        | block.simd_eq(Simd::splat(quote))
        | block.simd_eq(Simd::splat(b'\\'))).to_bitmask()
}

/// Whether the byte has a spelling of its own.
#[tactic(auto, unfolding(crate::specs::Spelling::spelling))]
fn is_marked(byte: u8, quote: u8) -> bool
    requires { quote < 128 }
    ensures plain { result ≡ false → spelling quote byte ≡ byte ∷ [] }
    ensures ascii { result ≡ true → byte < 128 }
{
    byte < 0x20 || byte == quote || byte == b'\\'
}

/// Appends the spelling of one character.
#[tactic(auto, unfolding(crate::specs::Spelling::spelling))]
fn push_marked(out: &mut String, byte: u8, quote: u8) -> Result<(), AllocError>
    requires { byte < 128 }
    ensures ok { OnOk result (string_bytes out.new ≡ string_bytes out.old ++ spelling quote byte) }
    ensures kept { IsBegun (string_bytes out.old) (spelling quote byte)
        (string_bytes out.new) }
{
    match byte {
        0x08 => out.push_str("\\b"),
        b'\t' => out.push_str("\\t"),
        b'\n' => out.push_str("\\n"),
        0x0c => out.push_str("\\f"),
        b'\r' => out.push_str("\\r"),
        _ if byte == quote || byte == b'\\' => push_two(out, b'\\', byte),
        _ if byte < 0x20 => push_control(out, byte),
        _ => out.push(char::from(byte)),
    }
}

/// Appends a control character by its number.
fn push_control(out: &mut String, byte: u8) -> Result<(), AllocError>
    requires { byte < 32 }
    ensures ok { OnOk result (string_bytes out.new ≡ string_bytes out.old ++ control byte) }
    ensures kept { IsBegun (string_bytes out.old) (control byte) (string_bytes out.new) }
{
    out.push_str("\\u00")?;
    push_two(out, hex_digit_of(byte / 16), hex_digit_of(byte % 16))
}

/// Appends two ASCII characters.
fn push_two(out: &mut String, first: u8, second: u8) -> Result<(), AllocError>
    requires first { first < 128 }
    requires second { second < 128 }
    ensures ok { OnOk result (string_bytes out.new ≡ string_bytes out.old ++ first ∷ second ∷ []) }
    ensures kept { IsBegun (string_bytes out.old) (first ∷ second ∷ [])
        (string_bytes out.new) }
{
    out.push(char::from(first))?;
    out.push(char::from(second))
}

/// The hexadecimal digit of a number below 16, in lower case.
fn hex_digit_of(n: u8) -> u8
    requires { n < 16 }
    ensures value { result ≡ hex_digit n }
    ensures ascii { result < 128 }
{
    if n < 10 { b'0' + n } else { b'a' + (n - 10) }
}
