//! Where a byte is in a text.

ghost use Rattle.std.specs.Prelude.{◌≡◌, ◌-◌, ◌+◌, ◌≤◌, ◌∷◌, [], MatchOption, IfSome, length};
ghost use Rattle.std.specs.Char.{len_utf8};
ghost use Rattle.std.specs.Str.{chars, IsUtf8};
ghost use Rattle.jp_json.specs.Place.{front_of, line_number, column};
ghost use Rattle.jp_json.specs.Private.Fronts.{IsBehindPlainFront, IsPlainFront};

use crate::lanes::line_front;
use jp_reading::split_first;

/// The first character, which ends at or before the byte, and the text after it.
fn first_before(text: &str, offset: usize) -> Option<(char, &str)>
    ensures parts { MatchOption
        result
        (front_of offset (chars text.now) ≡ [])
        (λ x. (front_of offset (chars text.now)
        ≡ x.0 ∷ front_of (offset - len_utf8 x.0) (chars x.1.now))
        × (len_utf8 x.0 ≤ offset) × (length text.now ≡ len_utf8 x.0 + length x.1.now)) }
    ensures text { IfSome result (λ x. IsUtf8 x.1.now) }
{
    match split_first(text) {
        Some((first, rest)) if first.len_utf8() <= offset => Some((first, rest)),
        _ => None,
    }
}

/// How many bytes at the front of a text, of at most so many, are ASCII characters that are no line feeds.
fn plain_front(text: &str, most: usize) -> usize
    ensures { IsPlainFront text.now most result }
{
    line_front(&text.as_bytes()[..text.len().min(most)])
}

/// What is left of a text behind ASCII characters at its front that are no line feeds, of at most so many bytes. Most
/// of a text stands in such, which are gone over at once.
fn behind_plain_front(text: &str, most: usize) -> &str
    ensures front { IsBehindPlainFront text.now most result.now }
    ensures utf8 { IsUtf8 result.now }
{
    &text[plain_front(text, most)..]
}

/// The line and the column of a byte of the text, both from 1; a column counts characters.
pub(crate) fn line_and_column(text: &str, offset: usize) -> (usize, usize)
    ensures line { result.0 ≡ line_number (front_of offset (chars text.now)) }
    ensures column { result.1 ≡ column (front_of offset (chars text.now)) }
{
    let mut rest = text;
    let mut left = offset;
    let mut feeds = 0;
    let mut since = 0;
    'characters: while let Some((next, after)) = first_before(rest, left) {
        left -= next.len_utf8();
        rest = after;
        if next == '\n' {
            feeds += 1;
            since = 0;
        } else {
            since += 1;
        }
        let before = rest.len();
        rest = behind_plain_front(rest, left);
        left -= before - rest.len();
        since += before - rest.len();
    }
    (feeds + 1, since + 1)
}
