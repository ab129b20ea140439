//! Where a byte is in a text.

ghost use Rattle.std.specs.Prelude.{◌≡◌, ◌≤◌, ◌==◌, IfOk, length};
ghost use Rattle.std.specs.List.{count_by};
ghost use Rattle.std.specs.Str.{chars};
ghost use Rattle.jp_reading.specs.Characters.{line_feed};
ghost use Rattle.jp_explain.specs.Place.{characters_before, front_of, rest_of, starting};
ghost use Rattle.jp_explain.specs.Place.{line_before, line_after};

use crate::class::{Class, split_prefix, suffix_len};
use crate::marks::without_last;
use std::alloc::{AllocError, Global};

/// The characters of the text.
pub(crate) fn characters(alloc: Global, text: &str) -> Result<Vec<char>, AllocError>
    ensures { IfOk result (λ characters. characters.items ≡ chars text.now) }
{
    text.chars().collect(alloc)
}

/// How many of the first characters end at or before the byte.
fn characters_before(text: &[char], place: usize) -> usize
    ensures count { result ≡ characters_before place text.now }
    ensures within { result ≤ length text.now }
{
    let mut left = place;
    let mut count = 0;
    for c in text {
        let size = c.len_utf8();
        if left < size {
            break;
        }
        left -= size;
        count += 1;
    }
    count
}

/// The text cut at the byte.
pub(crate) fn split_at_byte(text: &[char], place: usize) -> (&[char], &[char])
    ensures front { result.0.now ≡ front_of place text.now }
    ensures rest { result.1.now ≡ rest_of place text.now }
{
    text.split_at(characters_before(text, place))
}

/// The front, of which each line feed starts a line: one at the text's end starts none.
pub(crate) fn starting<'t>(front: &'t [char], rest: &[char]) -> &'t [char]
    ensures front { result.now ≡ starting front.now rest.now }
    ensures within { length result.now ≤ length front.now }
{
    if rest.is_empty() {
        without_last(front)
    } else {
        front
    }
}

/// The line of the place between the front and the rest, before the place.
pub(crate) fn line_before<'t>(front: &'t [char], rest: &[char]) -> &'t [char]
    ensures { result.now ≡ line_before front.now rest.now }
{
    let starting = starting(front, rest);
    front
        .split_at(starting.len() - suffix_len(starting, Class::Line))
        .1
}

/// The line of the place before the rest, from the place on.
pub(crate) fn line_after(rest: &[char]) -> &[char]
    ensures { result.now ≡ line_after rest.now }
{
    split_prefix(rest, Class::Line).0
}

/// How many line feeds the text has.
pub(crate) fn line_feeds(text: &[char]) -> usize
    ensures { result ≡ count_by (λ c. c == line_feed) text.now }
{
    text.iter().filter(|c| **c == '\n').count()
}
