//! Counting the positions of patterns.

ghost use Rattle.std.specs.Prelude.{◌≡◌, min, map};
ghost use Rattle.jp_iregexp.specs.Tree.{tree, pieces};
ghost use Rattle.jp_iregexp.specs.Positions.{positions_of, copies};

use crate::pattern::Pattern;

/// From here on numbers of positions are not told apart.
const MANY: u64 = 4_097;

/// How many positions a pattern has: 1 for a class, the sum over the parts of an `Either` or a
/// `Sequence`, and for a `Repeat` those of its inner pattern times its most, or without a most
/// times the greater of its least and 1. From 4,097 on the answer is 4,097.
#[cycle(positions)]
pub fn positions(pattern: &Pattern) -> u64
    ensures { result ≡ min (positions_of (tree pattern.now)) 4097 }
{
    match pattern {
        Pattern::Either(branches) => positions_of_all(branches),
        Pattern::Sequence(pieces) => positions_of_all(pieces),
        Pattern::Repeat { inner, least, most } => {
            (u64::from(copies(*least, *most)) * positions(inner)).min(MANY)
        }
        Pattern::Class(_) => 1,
    }
}

/// How many of its inner pattern a repeat has to tell apart.
fn copies(least: u32, most: Option<u32>) -> u32
    ensures { result ≡ copies least most }
{
    most.unwrap_or(least.max(1))
}

/// How many positions the parts have together. From 4,097 on the answer is 4,097.
#[cycle(positions)]
fn positions_of_all(parts: &[Pattern]) -> u64
    ensures { result ≡ min (positions_of (pieces (map tree parts.now))) 4097 }
{
    let mut sum = 0;
    for part in parts {
        // Most parts are classes: no call for these.
        let count = match part {
            Pattern::Class(_) => 1,
            _ => positions(part),
        };
        sum = (sum + count).min(MANY);
    }
    sum
}
