//! What is known of the parts of a pattern before its offsets are followed.

ghost use Rattle.std.specs.Prelude.{map};
ghost use Rattle.jp_iregexp.specs.Tree.{tree};
ghost use Rattle.jp_iregexp.specs.Language.{Language};
ghost use Rattle.jp_match.specs.Private.Rows.{AreRows, AreKnown, EachKnown, marks_of, rows_of};
ghost use Rattle.jp_match.specs.Private.Rows.{parts_of};
ghost use Rattle.jp_match.specs.Private.Search.{IsFound};

use crate::class_tests::Tests;
use crate::images::image_of;
use crate::offsets::only;
use crate::rows::Rows;
use crate::scan::MOST_POSITIONS;
use crate::search::Ground;
use jp_iregexp::{Pattern, positions};
use std::alloc::AllocError;

/// How deep repeats of more positions than a scan takes stand inside one another.
#[cycle(depth)]
pub(crate) fn depth(pattern: &Pattern) -> u32 {
    match pattern {
        Pattern::Either(parts) | Pattern::Sequence(parts) => greatest_depth(parts),
        Pattern::Repeat { inner, .. } if positions(pattern) > MOST_POSITIONS => {
            depth(inner).saturating_add(1)
        }
        Pattern::Repeat { .. } | Pattern::Class(_) => 0,
    }
}

/// How deep repeats of more positions than a scan takes stand inside one another in the deepest of these
/// parts; without parts 0.
#[cycle(depth)]
fn greatest_depth(parts: &[Pattern]) -> u32 {
    let mut greatest = 0;
    for part in parts {
        greatest = depth(part).max(greatest);
    }
    greatest
}

/// What is known of the parts of a pattern. Where repeats stand at most two deep, their rounds are
/// few enough, and nothing is.
#[cycle(relations)]
pub(crate) fn known_parts(
    pattern: &Pattern,
    ground: Ground<'_>,
    tests: &mut Tests,
) -> Result<Vec<Rows>, AllocError>
    ensures { IsFound (λ known. EachKnown (parts_of (tree pattern.now)) ground.entry.text.now (rows_of
        known.items)) tests.old tests.new result }
{
    if depth(pattern) <= 2 {
        return Ok(Vec::new(ground.alloc));
    }
    match pattern {
        Pattern::Either(parts) => each_known(parts, ground, tests),
        Pattern::Sequence(parts) => each_known(parts, ground, tests),
        Pattern::Repeat { inner, .. } => {
            let mut known = Vec::new(ground.alloc);
            known.push(known_rows(inner, ground, tests)?)?;
            Ok(known)
        }
        Pattern::Class(_) => Ok(Vec::new(ground.alloc)),
    }
}

/// What is known of each of these parts, in their order: its rows, or none where its repeats stand less
/// than two deep.
#[cycle(relations)]
fn each_known(
    parts: &[Pattern],
    ground: Ground<'_>,
    tests: &mut Tests,
) -> Result<Vec<Rows>, AllocError>
    ensures { IsFound (λ known. EachKnown (map tree parts.now) ground.entry.text.now (rows_of
        known.items)) tests.old tests.new result }
{
    let mut known = Vec::new(ground.alloc);
    for part in parts {
        let rows = known_rows(part, ground, tests)?;
        known.push(rows)?;
    }
    Ok(known)
}

/// The rows of a pattern whose repeats stand at least two deep.
#[cycle(relations)]
fn known_rows(pattern: &Pattern, ground: Ground<'_>, tests: &mut Tests) -> Result<Rows, AllocError>
    ensures { IsFound (λ rows. AreKnown (Language (tree pattern.now)) ground.entry.text.now (marks_of
        rows.items)) tests.old tests.new result }
{
    if depth(pattern) < 2 {
        return Ok(Vec::new(ground.alloc));
    }
    rows(pattern, ground, tests)
}

/// What words of the pattern reach from each offset alone.
#[cycle(relations)]
fn rows(pattern: &Pattern, ground: Ground<'_>, tests: &mut Tests) -> Result<Rows, AllocError>
    ensures { IsFound (λ rows. AreRows (Language (tree pattern.now)) ground.entry.text.now (marks_of
        rows.items)) tests.old tests.new result }
{
    let known = known_parts(pattern, ground, tests)?;
    let mut rows = Vec::new(ground.alloc);
    for start in 0..ground.text.len() + 1 {
        let row = image_of(pattern, &known, ground, only(ground, start)?, tests)?;
        rows.push(row)?;
    }
    Ok(rows)
}
