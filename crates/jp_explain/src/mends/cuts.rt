//! Where a text is cut to be mended.

ghost use Rattle.std.specs.Prelude.{◌≡◌, ◌++◌, ◌⊎◌, [], true, false, drop, length, position, take, unwrap_or};
ghost use Rattle.std.specs.List.{list_any, prefix_len};
ghost use Rattle.jp_reading.specs.Texts.{is_among};
ghost use Rattle.jp_explain.specs.declared.class.Class.TheVariants.{Blank};
ghost use Rattle.jp_explain.specs.Private.Classes.{holds};
ghost use Rattle.jp_explain.specs.Private.Marks.{begins_in};

use crate::class::{Class, prefix_len, split_prefix};
use crate::marks::{ends, is_among, stem, without_last};

/// The text cut before that character, or at its end.
fn cut_before(text: &[char], place: Option<usize>) -> (&[char], &[char])
    ensures before { result.0.now ≡ take (unwrap_or place (length text.now)) text.now }
    ensures after { result.1.now ≡ drop (unwrap_or place (length text.now)) text.now }
{
    text.split_at(place.unwrap_or(text.len()).min(text.len()))
}

/// The text cut before the first of these signs; if there is none, all of it is before.
pub(crate) fn cut_at<'t>(text: &'t [char], signs: &str) -> (&'t [char], &'t [char])
    ensures parts { text.now ≡ result.0.now ++ result.1.now }
    ensures before { list_any (is_among signs.now) result.0.now ≡ false }
    ensures sign { begins_in result.1.now signs.now ≡ true ⊎ (result.1.now ≡ []) }
{
    cut_before(text, first_among(text, signs))
}

/// Where the first of these signs stands.
fn first_among(text: &[char], signs: &str) -> Option<usize>
    ensures { result ≡ position (is_among signs.now) text.now }
{
    text.iter().position(|c| is_among(signs, *c))
}

/// Whether one of these signs stands in the text.
pub(crate) fn has(text: &[char], signs: &str) -> bool {
    text.iter().any(|c| is_among(signs, *c))
}

/// The text cut after the last of these signs; if there is none, all of it is after.
pub(super) fn cut_after<'t>(text: &'t [char], signs: &str) -> (&'t [char], &'t [char]) {
    let count = text.iter().rev().position(|c| is_among(signs, *c));
    text.split_at(text.len().saturating_sub(count.unwrap_or(text.len())))
}

/// The text cut before the digits, and commas between them, that it ends with.
pub(crate) fn cut_digits(text: &[char]) -> (&[char], &[char]) {
    let count = text
        .iter()
        .rev()
        .position(|c| *c != ',' && !Class::Digit.holds(*c));
    text.split_at(text.len().saturating_sub(count.unwrap_or(text.len())))
}

/// The text cut after the name that it begins with, in which these signs may stand too.
pub(super) fn cut_name<'t>(text: &'t [char], signs: &str) -> (&'t [char], &'t [char]) {
    let goes_on = |c: char| Class::Name.holds(c) || is_among(signs, c);
    cut_before(text, text.iter().position(|c| !goes_on(*c)))
}

/// The text cut before its first quotation mark of another kind than those of queries.
pub(super) fn cut_at_quote(text: &[char]) -> (&[char], &[char]) {
    cut_before(text, text.iter().position(|c| Class::Quote.holds(*c)))
}

/// The text cut before the path or the literal that it ends with, without the blanks after that.
pub(super) fn cut_side(text: &[char]) -> (&[char], &[char]) {
    cut_after(stem(text), "?(&|!=<> ")
}

/// The text cut after the `)` of the call that it begins with; parentheses in texts count too.
pub(super) fn cut_call(text: &[char]) -> (&[char], &[char]) {
    let mut open: usize = 0;
    let mut passed: usize = 0;
    for c in text {
        passed = passed.saturating_add(1);
        match *c {
            '(' => open = open.saturating_add(1),
            ')' if open <= 1 => break,
            ')' => open -= 1,
            _ => {}
        }
    }
    text.split_at(passed.min(text.len()))
}

/// The text cut after the literal that it begins with, a text between quotation marks, or a pattern between
/// slashes, without escapes, a number or a word; nothing is before the cut where there is none.
pub(super) fn cut_literal(text: &[char]) -> (&[char], &[char]) {
    let size = match text {
        ['"', inner @ ..] => quoted_size(inner, "\""),
        ['\'', inner @ ..] => quoted_size(inner, "'"),
        ['/', inner @ ..] => quoted_size(inner, "/"),
        ['-', number @ ..] => prefix_len(number, Class::Name).saturating_add(1),
        _ => prefix_len(text, Class::Name),
    };
    text.split_at(size.min(text.len()))
}

/// How many characters a text between these marks takes, of which this is what comes after the first mark;
/// 0 where the other one is missing, or an escape stands in it.
fn quoted_size(inner: &[char], mark: &str) -> usize {
    let (body, end) = cut_at(inner, mark);
    if end.is_empty() || has(body, "\\") {
        0
    } else {
        body.len().saturating_add(2)
    }
}

/// The text without the blanks that it begins with.
pub(super) fn past_blanks(text: &[char]) -> &[char]
    ensures { result.now ≡ drop (prefix_len (holds Blank) text.now) text.now }
{
    split_prefix(text, Class::Blank).1
}

/// The text without as many characters as the word has, which is in ASCII.
pub(super) fn past_word<'t>(text: &'t [char], word: &str) -> &'t [char]
    ensures { result.now ≡ drop (length word.now) text.now }
{
    &text[word.len().min(text.len())..]
}

/// The text without the name that it begins with.
pub(super) fn past_name(text: &[char]) -> &[char] {
    split_prefix(text, Class::Name).1
}

/// The text without the dot that it ends with, where brackets follow; the two of descendants stay.
pub(super) fn before_bracket(text: &[char]) -> &[char] {
    if ends(text, "..") {
        text
    } else {
        without_last(text)
    }
}
