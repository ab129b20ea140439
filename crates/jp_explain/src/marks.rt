//! What a text begins and ends with.

ghost use Rattle.std.specs.Prelude.{◌≡◌, ◌==◌};
ghost use Rattle.std.specs.List.{count_by};
ghost use Rattle.jp_explain.specs.Private.Marks.{is, begins, ends, begins_in, ends_in, begins_as, ends_as};
ghost use Rattle.jp_explain.specs.Private.Marks.{ends_in_one, has_more, is_inside, is_odd, without_first, without_last, stem, name_at};
ghost use Rattle.jp_explain.specs.Private.Marks.{last_name, without_name, before_name, is_quoted};
ghost use Rattle.jp_reading.specs.Texts.{is_among};

use crate::class::{Class, split_prefix, split_suffix};

/// Whether the text is the word, which is in ASCII.
pub(crate) fn is(text: &[char], word: &str) -> bool
    ensures { result ≡ is text.now word.now }
{
    let word = word.as_bytes();
    if text.len() != word.len() {
        return false;
    }
    for i in 0..word.len() {
        if text[i] != char::from(word[i]) {
            return false;
        }
    }
    true
}

/// Whether the text begins with the word.
pub(crate) fn begins(text: &[char], word: &str) -> bool
    ensures { result ≡ begins text.now word.now }
{
    is(&text[..word.len().min(text.len())], word)
}

/// Whether the text ends with the word.
pub(crate) fn ends(text: &[char], word: &str) -> bool
    ensures { result ≡ ends text.now word.now }
{
    is(&text[text.len().saturating_sub(word.len())..], word)
}

/// Whether the text ends with the sign, and not with two of it.
pub(crate) fn ends_in_one(text: &[char], sign: &str) -> bool
    ensures { result ≡ ends_in_one text.now sign.now }
{
    ends(text, sign) && !ends(&text[..text.len().saturating_sub(sign.len())], sign)
}

/// Whether the character is one of those signs, which are in ASCII.
pub(crate) fn is_among(signs: &str, c: char) -> bool
    ensures { result ≡ is_among signs.now c }
{
    for sign in signs.as_bytes() {
        if c == char::from(*sign) {
            return true;
        }
    }
    false
}

/// Whether the first character is one of those.
pub(crate) fn begins_in(text: &[char], signs: &str) -> bool
    ensures { result ≡ begins_in text.now signs.now }
{
    match text {
        [first, ..] => is_among(signs, *first),
        [] => false,
    }
}

/// Whether the last character is one of those.
pub(crate) fn ends_in(text: &[char], signs: &str) -> bool
    ensures { result ≡ ends_in text.now signs.now }
{
    match text {
        [.., last] => is_among(signs, *last),
        [] => false,
    }
}

/// Whether the first character is of the class.
pub(crate) fn begins_as(text: &[char], class: Class) -> bool
    ensures { result ≡ begins_as text.now class }
{
    match text {
        [first, ..] => class.holds(*first),
        [] => false,
    }
}

/// Whether the last character is of the class.
pub(crate) fn ends_as(text: &[char], class: Class) -> bool
    ensures { result ≡ ends_as text.now class }
{
    match text {
        [.., last] => class.holds(*last),
        [] => false,
    }
}

/// How often the text has one of these signs.
fn count(text: &[char], signs: &str) -> usize
    ensures { result ≡ count_by (is_among signs.now) text.now }
{
    text.iter().filter(|c| is_among(signs, **c)).count()
}

/// Whether the text has the one sign more often than the other.
pub(crate) fn has_more(text: &[char], sign: &str, other: &str) -> bool
    ensures { result ≡ has_more text.now sign.now other.now }
{
    count(text, other) < count(text, sign)
}

/// Whether the text has more opening brackets than closing ones.
pub(crate) fn is_inside(text: &[char]) -> bool
    ensures { result ≡ is_inside text.now }
{
    has_more(text, "[", "]")
}

/// Whether the text has the sign an odd number of times.
fn is_odd(text: &[char], sign: &str) -> bool
    ensures { result ≡ is_odd text.now sign.now }
{
    count(text, sign) % 2 == 1
}

/// Whether the text has an odd number of either quotation mark.
pub(crate) fn is_quoted(text: &[char]) -> bool
    ensures { result ≡ is_quoted text.now }
{
    is_odd(text, "'") || is_odd(text, "\"")
}

/// The text without its first character.
pub(crate) fn without_first(text: &[char]) -> &[char]
    ensures { result.now ≡ without_first text.now }
{
    match text {
        [_, rest @ ..] => rest,
        [] => text,
    }
}

/// The text without its last character.
pub(crate) fn without_last(text: &[char]) -> &[char]
    ensures { result.now ≡ without_last text.now }
{
    &text[..text.len().saturating_sub(1)]
}

/// The text without the blanks at its end.
pub(crate) fn stem(text: &[char]) -> &[char]
    ensures { result.now ≡ stem text.now }
{
    split_suffix(text, Class::Blank).0
}

/// The name that the text begins with.
pub(crate) fn name_at(text: &[char]) -> &[char]
    ensures { result.now ≡ name_at text.now }
{
    split_prefix(text, Class::Name).0
}

/// The name that the text ends with.
pub(crate) fn last_name(text: &[char]) -> &[char]
    ensures { result.now ≡ last_name text.now }
{
    split_suffix(text, Class::Name).1
}

/// The text without the name that it ends with.
pub(crate) fn without_name(text: &[char]) -> &[char]
    ensures { result.now ≡ without_name text.now }
{
    split_suffix(text, Class::Name).0
}

/// The text without the name that it ends with, and without the blanks before that.
pub(crate) fn before_name(text: &[char]) -> &[char]
    ensures { result.now ≡ before_name text.now }
{
    stem(without_name(text))
}
