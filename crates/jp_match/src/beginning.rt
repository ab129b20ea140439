//! Which characters a word of a pattern begins with.

ghost use Rattle.std.specs.Prelude.{◌≡◌, map, false};
ghost use Rattle.jp_iregexp.specs.Tree.{tree, branches, pieces, repeat};
ghost use Rattle.jp_iregexp.specs.Language.{Language};
ghost use Rattle.jp_iregexp.specs.Positions.{positions_of};
ghost use Rattle.jp_match.specs.Bounds.{MakesAtMost};
ghost use Rattle.jp_match.specs.Private.Beginning.{NeverBegins};

use crate::class_tests::Tests;
use jp_iregexp::Pattern;

/// Whether a word of the pattern may begin with the character, or be empty: told by the classes
/// that stand first. Where the first part may be left out the answer is true.
#[cycle(begins)]
pub(crate) fn may_begin(pattern: &Pattern, c: char, tests: &mut Tests) -> bool
    ensures never { result ≡ false → NeverBegins (Language (tree pattern.now)) c }
    ensures tests { MakesAtMost (positions_of (tree pattern.now)) tests.old tests.new }
{
    match pattern {
        Pattern::Either(branches) => any_may_begin(branches, c, tests),
        Pattern::Sequence(pieces) => first_may_begin(pieces, c, tests),
        Pattern::Repeat { inner, least, most } => {
            repeat_may_begin(inner, *least, *most, c, tests)
        }
        Pattern::Class(class) => tests.holds(class, c),
    }
}

/// Whether a word of one of the branches may begin with the character.
#[cycle(begins)]
fn any_may_begin(parts: &[Pattern], c: char, tests: &mut Tests) -> bool
    ensures never { result ≡ false → NeverBegins (Language (branches (map tree parts.now))) c }
    ensures tests { MakesAtMost (positions_of (branches (map tree parts.now))) tests.old tests.new }
{
    for branch in parts {
        if may_begin(branch, c, tests) {
            return true;
        }
    }
    false
}

/// Whether a word of pieces may begin with the character: by the first of them.
#[cycle(begins)]
fn first_may_begin(parts: &[Pattern], c: char, tests: &mut Tests) -> bool
    ensures never { result ≡ false → NeverBegins (Language (pieces (map tree parts.now))) c }
    ensures tests { MakesAtMost (positions_of (pieces (map tree parts.now))) tests.old tests.new }
{
    let [first, ..] = parts else {
        return true;
    };
    may_begin(first, c, tests)
}

/// Whether a word of a repeat may begin with the character.
#[cycle(begins)]
fn repeat_may_begin(
    inner: &Pattern,
    least: u32,
    most: Option<u32>,
    c: char,
    tests: &mut Tests,
) -> bool
    ensures never { result ≡ false → NeverBegins (Language (repeat (tree inner.now) least most)) c }
    ensures tests { MakesAtMost (positions_of (repeat (tree inner.now) least most)) tests.old
        tests.new }
{
    if least == 0 || most == Some(0) {
        return true;
    }
    may_begin(inner, c, tests)
}
