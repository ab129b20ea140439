//! Patterns whose words all have one number of characters, as those of dates have.

ghost use Rattle.std.specs.Prelude.{IfSome, map};
ghost use Rattle.jp_iregexp.specs.Tree.{tree, branches, pieces, repeat};
ghost use Rattle.jp_match.specs.Private.OneWidth.{IsWidthOf};

use jp_iregexp::Pattern;

/// How many characters each word of the pattern has; None where its parts don't tell one number, or
/// one that is too great for its type.
#[cycle(width)]
pub(crate) fn width_of(pattern: &Pattern) -> Option<u64>
    ensures { IfSome result (IsWidthOf (tree pattern.now)) }
{
    match pattern {
        Pattern::Either(branches) => width_of_each(branches),
        Pattern::Sequence(pieces) => width_of_all(pieces),
        Pattern::Repeat { inner, least, most } => width_of_repeat(inner, *least, *most),
        Pattern::Class(_) => Some(1),
    }
}

/// The width of each branch.
#[cycle(width)]
fn width_of_each(parts: &[Pattern]) -> Option<u64>
    ensures { IfSome result (IsWidthOf (branches (map tree parts.now))) }
{
    let [first, others @ ..] = parts else {
        return None;
    };
    let width = width_of(first)?;
    for branch in others {
        if width_of(branch)? != width {
            return None;
        }
    }
    Some(width)
}

/// The width of all pieces together.
#[cycle(width)]
fn width_of_all(parts: &[Pattern]) -> Option<u64>
    ensures { IfSome result (IsWidthOf (pieces (map tree parts.now))) }
{
    let mut width: u64 = 0;
    for piece in parts {
        let own = width_of(piece)?;
        width = width.checked_add(own)?;
    }
    Some(width)
}

/// The width of a repeat that takes one number of words. There is none told where those are empty,
/// so that each round of a repeat takes a character.
#[cycle(width)]
fn width_of_repeat(inner: &Pattern, least: u32, most: Option<u32>) -> Option<u64>
    ensures { IfSome result (IsWidthOf (repeat (tree inner.now) least most)) }
{
    if most != Some(least) {
        return None;
    }
    let each = width_of(inner)?;
    if each == 0 {
        return None;
    }
    u64::from(least).checked_mul(each)
}
