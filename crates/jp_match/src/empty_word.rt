//! Whether patterns have the empty word.

ghost use Rattle.std.specs.Prelude.{◌≡◌, map};
ghost use Rattle.jp_iregexp.specs.Tree.{tree, branches, pieces, repeat};
ghost use Rattle.jp_match.specs.Private.EmptyWord.{has_empty};

use jp_iregexp::Pattern;

/// Whether the empty word is in the language of the pattern.
#[cycle(empty_word)]
pub(crate) fn has_empty_word(pattern: &Pattern) -> bool
    ensures { result ≡ has_empty (tree pattern.now) }
{
    match pattern {
        Pattern::Either(branches) => any_has_empty_word(branches),
        Pattern::Sequence(pieces) => each_has_empty_word(pieces),
        Pattern::Repeat { inner, least, most } => repeats_empty_word(inner, *least, *most),
        Pattern::Class(_) => false,
    }
}

/// Whether the empty word is in the language of one of these branches; without branches it is in none.
#[cycle(empty_word)]
fn any_has_empty_word(parts: &[Pattern]) -> bool
    ensures { result ≡ has_empty (branches (map tree parts.now)) }
{
    for branch in parts {
        if has_empty_word(branch) {
            return true;
        }
    }
    false
}

/// Whether the empty word is in the language of each of these pieces, and so of their sequence.
#[cycle(empty_word)]
fn each_has_empty_word(parts: &[Pattern]) -> bool
    ensures { result ≡ has_empty (pieces (map tree parts.now)) }
{
    for piece in parts {
        if !has_empty_word(piece) {
            return false;
        }
    }
    true
}

/// Whether the empty text is a word of the repeat of a pattern.
#[cycle(empty_word)]
fn repeats_empty_word(inner: &Pattern, least: u32, most: Option<u32>) -> bool
    ensures { result ≡ has_empty (repeat (tree inner.now) least most) }
{
    if let Some(most) = most
        && most < least
    {
        return false;
    }
    least == 0 || has_empty_word(inner)
}
