//! The token at an offset (RFC 8259 sections 2, 3 and 6). Numbers are whole ones, unless they are read
//! exactly.

ghost use Rattle.std.specs.Prelude.{◌≡◌, ◌≤◌, ◌<◌, ◌+◌, ◌-◌, ◌==◌, ◌⊎◌, IfSome, OnSome, Some, drop, length};
ghost use Rattle.std.specs.Prelude.{slice_index, take, true, false};
ghost use Rattle.json.specs.Lex.{after_value, begins_colon, between, fresh, lex, may_begin};
ghost use Rattle.json.specs.Lex.{punctuate};
ghost use Rattle.json.specs.Word.{after_digits, after_exponent, after_fraction, after_minus, after_sign};
ghost use Rattle.json.specs.Word.{after_whole};
ghost use Rattle.jp_flat.specs.Private.Tokens.{EndsWhole, GivesToken, IsLiteral, TokenHolds};
ghost use Rattle.jp_flat.specs.Private.Tokens.{IsSized, token_of, tokens_from, expected_of};
ghost use Rattle.json.specs.Token.{Token as JsonToken};

use crate::blanks::{ends_whole, past_blanks};
use crate::cursor::{Expected, Point, may_begin, may_close};
use crate::runs::{digits_end, spelled};
use crate::token::Token;

/// The token at an offset, and where the text goes on behind it.
#[inline(always)]
pub(crate) fn token_at<'t, const EXACT: bool>(
    bytes: &'t [u8],
    from: Point,
) -> Option<(Token<'t>, Point)>
    requires { from.at ≤ length bytes.now }
    ensures gives { IfSome result (λ r. GivesToken bytes.now from (token_of r.0) r.1) }
    ensures stands { IfSome result (λ r. TokenHolds bytes.now r.0) }
    ensures within { IfSome result (λ r. r.1.at ≤ length bytes.now) }
{
    if from.at >= bytes.len() {
        return None;
    }
    let byte = bytes[from.at];
    if byte == b'"' {
        // Most tokens are names and texts.
        return if may_begin(from.expected) {
            text(bytes, from)
        } else {
            None
        };
    }
    if byte == b'}' || byte == b']' {
        return closed(bytes, from, byte);
    }
    if !may_begin(from.expected) {
        return None;
    }
    match byte {
        b'{' => Some((Token::BeginObject, begun(bytes, from.at + 1))),
        b'[' => Some((Token::BeginArray, begun(bytes, from.at + 1))),
        b't' if has_four(bytes, from.at, *b"true") => {
            literal(bytes, from, from.at + 4, Token::Bool(true))
        }
        b'f' if has_four(bytes, from.at + 1, *b"alse") => {
            literal(bytes, from, from.at + 5, Token::Bool(false))
        }
        b'n' if has_four(bytes, from.at, *b"null") => {
            literal(bytes, from, from.at + 4, Token::Null)
        }
        _ => number::<EXACT>(bytes, from),
    }
}

/// Where a value or a name may begin, or a list or an object end.
#[inline(always)]
fn begun(bytes: &[u8], at: usize) -> Point
    requires { at ≤ length bytes.now }
    ensures goes { tokens_from bytes.now result ≡ punctuate fresh (lex between (drop at bytes.now)) }
    ensures within { result.at ≤ length bytes.now }
{
    Point {
        at: past_blanks(bytes, at),
        expected: Expected::Fresh,
    }
}

/// Behind a value, with the comma that may follow. Most often it follows at once.
#[inline(always)]
pub(crate) fn passed(bytes: &[u8], end: usize) -> Point
    requires { end ≤ length bytes.now }
    ensures goes { tokens_from bytes.now result
        ≡ punctuate after_value (lex between (drop end bytes.now)) }
    ensures within { result.at ≤ length bytes.now }
{
    if end < bytes.len() && bytes[end] == b',' {
        return behind_comma(bytes, end);
    }
    passed_blanks(bytes, end)
}

/// Behind a value, with the blanks and the comma that may follow.
#[inline(always)]
fn passed_blanks(bytes: &[u8], end: usize) -> Point
    requires { end ≤ length bytes.now }
    ensures goes { tokens_from bytes.now result
        ≡ punctuate after_value (lex between (drop end bytes.now)) }
    ensures within { result.at ≤ length bytes.now }
{
    let at = past_blanks(bytes, end);
    if at < bytes.len() && bytes[at] == b',' {
        return behind_comma(bytes, at);
    }
    Point {
        at,
        expected: Expected::AfterValue,
    }
}

/// Behind the comma at this offset, which follows a value.
#[inline(always)]
fn behind_comma(bytes: &[u8], comma: usize) -> Point
    requires inside { comma < length bytes.now }
    requires byte { slice_index bytes.now comma ≡ 44 }
    ensures goes { tokens_from bytes.now result
        ≡ punctuate after_value (lex between (drop comma bytes.now)) }
    ensures within { result.at ≤ length bytes.now }
{
    Point {
        at: past_blanks(bytes, comma + 1),
        expected: Expected::AfterComma,
    }
}

/// The end of a list or an object that this byte is, and where the text goes on behind it; None where none
/// may end.
#[inline(always)]
fn closed<'t>(bytes: &'t [u8], from: Point, byte: u8) -> Option<(Token<'t>, Point)>
    requires inside { from.at < length bytes.now }
    requires byte { (byte ≡ slice_index bytes.now from.at) × ((byte ≡ 125) ⊎ (byte ≡ 93)) }
    ensures gives { IfSome result (λ r. GivesToken bytes.now from (token_of r.0) r.1) }
    ensures stands { IfSome result (λ r. TokenHolds bytes.now r.0) }
    ensures within { IfSome result (λ r. r.1.at ≤ length bytes.now) }
{
    if !may_close(from.expected) {
        return None;
    }
    let point = passed(bytes, from.at + 1);
    if byte == b'}' {
        Some((Token::EndObject, point))
    } else {
        Some((Token::EndArray, point))
    }
}

/// A name with its colon, or a text.
#[inline(always)]
fn text<'t>(bytes: &'t [u8], from: Point) -> Option<(Token<'t>, Point)>
    requires inside { from.at < length bytes.now }
    requires byte { slice_index bytes.now from.at ≡ 34 }
    requires begins { may_begin (expected_of from.expected) ≡ true }
    ensures gives { IfSome result (λ r. GivesToken bytes.now from (token_of r.0) r.1) }
    ensures stands { IfSome result (λ r. TokenHolds bytes.now r.0) }
    ensures within { IfSome result (λ r. r.1.at ≤ length bytes.now) }
{
    let (spelled, end) = spelled(bytes, from.at + 1)?;
    let at = past_blanks(bytes, end);
    if at < bytes.len() && bytes[at] == b':' {
        return Some((Token::Key(spelled), begun(bytes, at + 1)));
    }
    let point = text_passed(bytes, at)?;
    Some((Token::Text(spelled), point))
}

/// Behind a text, which is no name, and behind the blanks that follow it.
#[inline(always)]
fn text_passed(bytes: &[u8], at: usize) -> Option<Point>
    requires { at ≤ length bytes.now }
    ensures no_name { IfSome result (λ p. begins_colon (lex between (drop at bytes.now)) ≡ false) }
    ensures goes { IfSome result (λ p. tokens_from bytes.now p
        ≡ punctuate after_value (lex between (drop at bytes.now))) }
    ensures within { IfSome result (λ p. p.at ≤ length bytes.now) }
{
    if at < bytes.len() && bytes[at] == b',' {
        return Some(behind_comma(bytes, at));
    }
    if is_last(bytes, at) {
        Some(Point {
            at,
            expected: Expected::AfterValue,
        })
    } else {
        None
    }
}

/// Whether the last value of a list, an object or a document may end before this offset, and a name may
/// not.
#[inline(always)]
fn is_last(bytes: &[u8], at: usize) -> bool
    requires { at ≤ length bytes.now }
    ensures { result ≡ true → begins_colon (lex between (drop at bytes.now)) ≡ false }
{
    if at == bytes.len() {
        return true;
    }
    match bytes[at] {
        b'}' => true,
        b']' => true,
        _ => false,
    }
}

/// The literal that ends before an offset.
#[inline(always)]
fn literal<'t>(
    bytes: &'t [u8],
    from: Point,
    end: usize,
    token: Token<'t>,
) -> Option<(Token<'t>, Point)>
    requires inside { (from.at ≤ end) × (end ≤ length bytes.now) }
    requires begins { may_begin (expected_of from.expected) ≡ true }
    requires name { IsLiteral (take (end - from.at) (drop from.at bytes.now)) (token_of token) }
    requires stands { TokenHolds bytes.now token }
    ensures gives { IfSome result (λ r. GivesToken bytes.now from (token_of r.0) r.1) }
    ensures stands { IfSome result (λ r. TokenHolds bytes.now r.0) }
    ensures within { IfSome result (λ r. r.1.at ≤ length bytes.now) }
{
    let point = word_passed(bytes, end)?;
    Some((token, point))
}

/// Whether four bytes stand at an offset.
#[inline(always)]
fn has_four(bytes: &[u8], at: usize, four: [u8; 4]) -> bool
    requires { at ≤ length bytes.now }
    ensures within { result ≡ true → at + 4 ≤ length bytes.now }
    ensures four { result ≡ true → take 4 (drop at bytes.now) ≡ four }
{
    bytes.len() - at >= 4
        && bytes[at] == four[0]
        && bytes[at + 1] == four[1]
        && bytes[at + 2] == four[2]
        && bytes[at + 3] == four[3]
}

/// Behind a word, with the comma that may follow. None where no whole number and no literal ends.
#[inline(always)]
fn word_passed(bytes: &[u8], end: usize) -> Option<Point>
    requires { end ≤ length bytes.now }
    ensures ends { OnSome result (EndsWhole (drop end bytes.now)) }
    ensures goes { IfSome result (λ p. tokens_from bytes.now p
        ≡ punctuate after_value (lex between (drop end bytes.now))) }
    ensures within { IfSome result (λ p. p.at ≤ length bytes.now) }
{
    if end < bytes.len() && bytes[end] == b',' {
        return Some(behind_comma(bytes, end));
    }
    if ends_whole(bytes, end) {
        Some(passed_blanks(bytes, end))
    } else {
        None
    }
}

/// The number at an offset, and where the text goes on behind it. None where no number stands, and of one
/// with a fraction or an exponent unless numbers are read exactly.
#[inline(always)]
fn number<'t, const EXACT: bool>(bytes: &'t [u8], from: Point) -> Option<(Token<'t>, Point)>
    requires inside { from.at < length bytes.now }
    requires begins { may_begin (expected_of from.expected) ≡ true }
    ensures gives { IfSome result (λ r. GivesToken bytes.now from (token_of r.0) r.1) }
    ensures stands { IfSome result (λ r. TokenHolds bytes.now r.0) }
    ensures within { IfSome result (λ r. r.1.at ≤ length bytes.now) }
{
    let first = past_minus(bytes, from.at);
    let (end, size) = digits_end(bytes, first);
    if !is_whole(bytes, first, end) {
        return None;
    }
    let Some(point) = word_passed(bytes, end) else {
        return behind_whole::<EXACT>(bytes, from, end);
    };
    Some((whole::<EXACT>(bytes, from.at, end, size), point))
}

/// The number that goes on behind its whole part, where numbers are read exactly.
fn behind_whole<'t, const EXACT: bool>(
    bytes: &'t [u8],
    from: Point,
    whole: usize,
) -> Option<(Token<'t>, Point)>
    requires inside { (from.at ≤ whole) × (whole ≤ length bytes.now) }
    requires begins { may_begin (expected_of from.expected) ≡ true }
    requires whole { after_whole (after_minus (drop from.at bytes.now)) ≡ Some (drop whole bytes.now) }
    ensures gives { IfSome result (λ r. GivesToken bytes.now from (token_of r.0) r.1) }
    ensures stands { IfSome result (λ r. TokenHolds bytes.now r.0) }
    ensures within { IfSome result (λ r. r.1.at ≤ length bytes.now) }
{
    if EXACT {
        numeral(bytes, from, whole)
    } else {
        None
    }
}

/// The whole number between two offsets, where numbers are taken exactly by its characters if it has more
/// than 18 or may be -0.
fn whole<const EXACT: bool>(bytes: &[u8], from: usize, end: usize, size: u64) -> Token<'_>
    requires within { (from ≤ end) × (end ≤ length bytes.now) }
    requires sized { IsSized (take (end - from) (drop from bytes.now)) size }
    ensures token { token_of result ≡ JsonToken.number (take (end - from) (drop from bytes.now)) }
    ensures holds { TokenHolds bytes.now result }
{
    let characters = &bytes[from..end];
    if EXACT && (end - from > 18 || (size == 0 && end - from == 2)) {
        return Token::Numeral(from, characters);
    }
    Token::Number(characters, size)
}

/// The number that goes on behind its whole part, with a point or an exponent.
#[inline(never)]
fn numeral<'t>(bytes: &'t [u8], from: Point, whole: usize) -> Option<(Token<'t>, Point)>
    requires inside { (from.at ≤ whole) × (whole ≤ length bytes.now) }
    requires begins { may_begin (expected_of from.expected) ≡ true }
    requires whole { after_whole (after_minus (drop from.at bytes.now)) ≡ Some (drop whole bytes.now) }
    ensures gives { IfSome result (λ r. GivesToken bytes.now from (token_of r.0) r.1) }
    ensures stands { IfSome result (λ r. TokenHolds bytes.now r.0) }
    ensures within { IfSome result (λ r. r.1.at ≤ length bytes.now) }
{
    let point = past_fraction(bytes, whole)?;
    let end = past_exponent(bytes, point)?;
    let next = word_passed(bytes, end)?;
    Some((Token::Numeral(from.at, &bytes[from.at..end]), next))
}

/// The offset behind the fraction that begins here, or this one where no point stands; None where no digit
/// follows the point (RFC 8259 section 6).
fn past_fraction(bytes: &[u8], at: usize) -> Option<usize>
    requires { at ≤ length bytes.now }
    ensures after { IfSome result (λ e. after_fraction (drop at bytes.now) ≡ Some (drop e bytes.now)) }
    ensures within { IfSome result (λ e. (at ≤ e) × (e ≤ length bytes.now)) }
{
    if at < bytes.len() && bytes[at] == b'.' {
        return past_digits(bytes, at + 1);
    }
    Some(at)
}

/// The offset behind the exponent that begins here, or this one where none does; None where it has no
/// digits.
fn past_exponent(bytes: &[u8], at: usize) -> Option<usize>
    requires { at ≤ length bytes.now }
    ensures after { IfSome result (λ e. after_exponent (drop at bytes.now) ≡ Some (drop e bytes.now)) }
    ensures within { IfSome result (λ e. (at ≤ e) × (e ≤ length bytes.now)) }
{
    if at < bytes.len() && (bytes[at] == b'e' || bytes[at] == b'E') {
        let first = past_sign(bytes, at + 1);
        return past_digits(bytes, first);
    }
    Some(at)
}

/// The offset behind the sign of an exponent, or this one where it has none.
fn past_sign(bytes: &[u8], at: usize) -> usize
    requires { at ≤ length bytes.now }
    ensures after { after_sign (drop at bytes.now) ≡ drop result bytes.now }
    ensures within { (at ≤ result) × (result ≤ length bytes.now) }
{
    if at < bytes.len() && (bytes[at] == b'-' || bytes[at] == b'+') {
        at + 1
    } else {
        at
    }
}

/// The offset behind one digit or more; None where none stands here.
fn past_digits(bytes: &[u8], at: usize) -> Option<usize>
    requires { at ≤ length bytes.now }
    ensures after { IfSome result (λ e. after_digits (drop at bytes.now) ≡ Some (drop e bytes.now)) }
    ensures within { IfSome result (λ e. (at ≤ e) × (e ≤ length bytes.now)) }
{
    let (end, _) = digits_end(bytes, at);
    if at < end { Some(end) } else { None }
}

/// The offset behind a minus sign, or this one where none stands here.
#[inline(always)]
fn past_minus(bytes: &[u8], from: usize) -> usize
    requires { from < length bytes.now }
    ensures minus { after_minus (drop from bytes.now) ≡ drop result bytes.now }
    ensures bare { (slice_index bytes.now from == 45) ≡ false → result ≡ from }
    ensures within { (from ≤ result) × (result ≤ length bytes.now) }
{
    if bytes[from] == b'-' { from + 1 } else { from }
}

/// Whether there are digits, with no 0 before others.
#[inline(always)]
fn is_whole(bytes: &[u8], first: usize, end: usize) -> bool
    requires { end ≤ length bytes.now }
    ensures some { result ≡ true → first < end }
    ensures zero { result ≡ true → slice_index bytes.now first ≡ 48 → end ≡ first + 1 }
{
    first < end && (bytes[first] != b'0' || end == first + 1)
}
