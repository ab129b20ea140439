//! Words of patterns of one width, taken from the front of a text: no marks are needed.

ghost use Rattle.std.specs.Prelude.{◌≡◌, ◌↔◌, ◌*◌, IfSome, IsTrue, Some, [], length, map, false};
ghost use Rattle.std.specs.Prelude.{option_map};
ghost use Rattle.std.specs.Str.{chars};
ghost use Rattle.jp_iregexp.specs.Tree.{tree, branches, pieces, repeat, class as one_of};
ghost use Rattle.jp_iregexp.specs.Language.{Language};
ghost use Rattle.jp_iregexp.specs.Positions.{positions_of};
ghost use Rattle.jp_match.specs.Bounds.{MakesAtMost};
ghost use Rattle.jp_match.specs.Part.{HasPart};
ghost use Rattle.jp_match.specs.Private.Beginning.{RulesOut};
ghost use Rattle.jp_match.specs.Private.OneWidth.{HasOneWidth, Leaves, cut_first, HasFirst};
ghost use Rattle.jp_match.specs.Private.OneWidth.{HasPrefix, IsAlike};

use crate::class_tests::Tests;
use crate::empty_word::has_empty_word;
use crate::first_chars::FirstChars;
use jp_iregexp::{CharClass, Pattern};

/// Whether the text is a word of the pattern.
pub(crate) fn is_word(pattern: &Pattern, text: &str, tests: &mut Tests) -> bool
    requires { HasOneWidth (tree pattern.now) }
    ensures answer { IsTrue result ↔ Language (tree pattern.now) (chars text.now) }
    ensures tests { MakesAtMost (positions_of (tree pattern.now) * length (chars text.now))
        tests.old tests.new }
{
    if has_ended(text) {
        return has_empty_word(pattern);
    }
    match after_first_word(pattern, text, tests) {
        Some(rest) => has_ended(rest),
        None => false,
    }
}

/// Whether some part of the text is a word of the pattern: one is looked for at each character that
/// may begin one.
pub(crate) fn has_word(
    pattern: &Pattern,
    first_chars: Option<&FirstChars>,
    text: &str,
    tests: &mut Tests,
) -> bool
    requires wide { HasOneWidth (tree pattern.now) }
    requires begins { IfSome first_chars (λ first. RulesOut first.now (Language (tree pattern.now))) }
    ensures answer { IsTrue result ↔ HasPart (Language (tree pattern.now)) (chars text.now) }
    ensures tests { MakesAtMost (positions_of (tree pattern.now) * length (chars text.now))
        tests.old tests.new }
{
    let mut left = text;
    while let Some((c, next)) = cut_first(left) {
        if begins_with_word(pattern, first_chars, c, left, tests) {
            return true;
        }
        left = next;
    }
    has_empty_word(pattern)
}

/// Whether the text, whose first character is given, begins with a word of the pattern.
#[inline(always)]
fn begins_with_word(
    pattern: &Pattern,
    first_chars: Option<&FirstChars>,
    c: char,
    text: &str,
    tests: &mut Tests,
) -> bool
    requires wide { HasOneWidth (tree pattern.now) }
    requires begins { IfSome first_chars (λ first. RulesOut first.now (Language (tree pattern.now))) }
    requires first { HasFirst c (chars text.now) }
    ensures begins { IsTrue result → HasPrefix (Language (tree pattern.now)) (chars text.now) }
    ensures only { result ≡ false → HasPrefix (Language (tree pattern.now)) (chars text.now) → ⊥ }
    ensures tests { MakesAtMost (positions_of (tree pattern.now)) tests.old tests.new }
{
    if let Some(first_chars) = first_chars
        && first_chars.rule_out(c)
    {
        return false;
    }
    after_first_word(pattern, text, tests).is_some()
}

/// What follows the word of the pattern that the text begins with; None where it begins with none. A
/// pattern that has one branch is left for that branch.
#[inline(always)]
fn after_first_word<'t>(pattern: &Pattern, text: &'t str, tests: &mut Tests) -> Option<&'t str>
    requires { HasOneWidth (tree pattern.now) }
    ensures leaves { Leaves (Language (tree pattern.now)) (chars text.now) (option_map (λ s. chars
        s.now) result) }
    ensures tests { MakesAtMost (positions_of (tree pattern.now)) tests.old tests.new }
{
    after_word(only_branch(pattern), text, tests)
}

/// The only branch of a pattern that has one, else the pattern.
#[inline(always)]
fn only_branch(pattern: &Pattern) -> &Pattern
    ensures { IsAlike (tree pattern.now) (tree result.now) }
{
    let Pattern::Either(branches) = pattern else {
        return pattern;
    };
    match branches.as_slice() {
        [only] => only,
        _ => pattern,
    }
}

/// What follows the word of the pattern that the text begins with; None where it begins with none.
/// As all words have one width, no choice is taken back: each position is tested at most once.
#[cycle(taking)]
fn after_word<'t>(pattern: &Pattern, text: &'t str, tests: &mut Tests) -> Option<&'t str>
    requires { HasOneWidth (tree pattern.now) }
    ensures leaves { Leaves (Language (tree pattern.now)) (chars text.now) (option_map (λ s. chars
        s.now) result) }
    ensures tests { MakesAtMost (positions_of (tree pattern.now)) tests.old tests.new }
{
    match pattern {
        Pattern::Either(branches) => after_branch(branches, text, tests),
        Pattern::Sequence(pieces) => after_sequence(pieces, text, tests),
        Pattern::Repeat { inner, least, .. } => after_repeat(inner, *least, text, tests),
        Pattern::Class(class) => after_char(class, text, tests),
    }
}

/// What follows a word of one of the branches: of the first that has one, since a word of another is
/// as long.
#[cycle(taking)]
fn after_branch<'t>(parts: &[Pattern], text: &'t str, tests: &mut Tests) -> Option<&'t str>
    requires { HasOneWidth (branches (map tree parts.now)) }
    ensures leaves { Leaves (Language (branches (map tree parts.now))) (chars text.now) (option_map
        (λ s. chars s.now) result) }
    ensures tests { MakesAtMost (positions_of (branches (map tree parts.now))) tests.old tests.new }
{
    for branch in parts {
        if let Some(rest) = after_word(branch, text, tests) {
            return Some(rest);
        }
    }
    None
}

/// What follows words of the pieces, one after another. The tests are counted apart, and added behind
/// the last.
#[cycle(taking)]
fn after_sequence<'t>(parts: &[Pattern], text: &'t str, tests: &mut Tests) -> Option<&'t str>
    requires { HasOneWidth (pieces (map tree parts.now)) }
    ensures leaves { Leaves (Language (pieces (map tree parts.now))) (chars text.now) (option_map
        (λ s. chars s.now) result) }
    ensures tests { MakesAtMost (positions_of (pieces (map tree parts.now))) tests.old tests.new }
{
    let mut apart = Tests::new();
    let left = after_pieces(parts, text, &mut apart);
    tests.add(&apart);
    left
}

/// What follows words of the pieces, one after another.
#[cycle(taking)]
#[inline(always)]
fn after_pieces<'t>(parts: &[Pattern], text: &'t str, tests: &mut Tests) -> Option<&'t str>
    requires { HasOneWidth (pieces (map tree parts.now)) }
    ensures leaves { Leaves (Language (pieces (map tree parts.now))) (chars text.now) (option_map
        (λ s. chars s.now) result) }
    ensures tests { MakesAtMost (positions_of (pieces (map tree parts.now))) tests.old tests.new }
{
    let mut rest = text;
    for piece in parts {
        rest = after_piece(piece, rest, tests)?;
    }
    Some(rest)
}

/// What follows a word of a piece. Most pieces are classes: these take no call.
#[cycle(taking)]
#[inline(always)]
fn after_piece<'t>(piece: &Pattern, text: &'t str, tests: &mut Tests) -> Option<&'t str>
    requires { HasOneWidth (tree piece.now) }
    ensures leaves { Leaves (Language (tree piece.now)) (chars text.now) (option_map (λ s. chars
        s.now) result) }
    ensures tests { MakesAtMost (positions_of (tree piece.now)) tests.old tests.new }
{
    match piece {
        Pattern::Class(class) => after_char(class, text, tests),
        _ => after_group(piece, text, tests),
    }
}

/// What follows a word of a piece that is no class. Its tests are counted apart, so that a count that
/// no call sees goes on around it.
#[cycle(taking)]
#[inline(always)]
fn after_group<'t>(piece: &Pattern, text: &'t str, tests: &mut Tests) -> Option<&'t str>
    requires { HasOneWidth (tree piece.now) }
    ensures leaves { Leaves (Language (tree piece.now)) (chars text.now) (option_map (λ s. chars
        s.now) result) }
    ensures tests { MakesAtMost (positions_of (tree piece.now)) tests.old tests.new }
{
    let mut apart = Tests::new();
    let left = after_word(piece, text, &mut apart);
    tests.add(&apart);
    let rest = left?;
    Some(rest)
}

/// What follows so many words of the inner pattern, one after another.
#[cycle(taking)]
fn after_repeat<'t>(
    inner: &Pattern,
    count: u32,
    text: &'t str,
    tests: &mut Tests,
) -> Option<&'t str>
    requires { HasOneWidth (tree inner.now) }
    ensures leaves { Leaves (Language (repeat (tree inner.now) count (Some count))) (chars text.now)
        (option_map (λ s. chars s.now) result) }
    ensures tests { MakesAtMost (count * positions_of (tree inner.now)) tests.old tests.new }
{
    let mut rest = text;
    for _ in 0..count {
        rest = after_piece(inner, rest, tests)?;
    }
    Some(rest)
}

/// What follows the first character of the text, where the class holds it.
#[inline(always)]
fn after_char<'t>(class: &CharClass, text: &'t str, tests: &mut Tests) -> Option<&'t str>
    ensures leaves { Leaves (Language (one_of class.now.negated class.now.elements.items)) (chars
        text.now) (option_map (λ s. chars s.now) result) }
    ensures tests { MakesAtMost 1 tests.old tests.new }
{
    let (c, rest) = cut_first(text)?;
    if tests.holds(class, c) {
        Some(rest)
    } else {
        None
    }
}

/// The first character of the text, and what follows it.
#[inline(always)]
fn cut_first(text: &str) -> Option<(char, &str)>
    ensures { option_map (λ cut. (cut.0, chars cut.1.now)) result ≡ cut_first (chars text.now) }
{
    let mut rest = text.chars();
    let c = rest.next()?;
    Some((c, rest.as_str()))
}

/// Whether the text has no character.
#[inline(always)]
fn has_ended(text: &str) -> bool
    ensures { IsTrue result ↔ (chars text.now ≡ []) }
{
    text.is_empty()
}
