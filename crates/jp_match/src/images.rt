//! The plain matcher: for each part of a pattern, the offsets that its words reach.

ghost use Rattle.std.specs.Prelude.{◌≡◌, ◌↔◌, ◌≤◌, IfOk, IsTrue, map, ◌∷◌, []};
ghost use Rattle.std.specs.Str.{chars};
ghost use Rattle.jp_iregexp.specs.Tree.{tree, pieces, branches, repeat};
ghost use Rattle.jp_iregexp.specs.Language.{Language, Power};
ghost use Rattle.jp_match.specs.Private.Counts.{IsMostAfter, Times};
ghost use Rattle.jp_match.specs.Part.{HasPart};
ghost use Rattle.jp_match.specs.Private.Offset.{IsOver, IsImage};
ghost use Rattle.jp_match.specs.Private.Rows.{AreKnown, EachKnown, marks_of, rows_of, parts_of};
ghost use Rattle.jp_match.specs.Private.Search.{IsFound, Leads};

use crate::class_tests::Tests;
use crate::offsets::{
    Offsets, assign, clear, copy_of, every, is_any, is_settled, none, only, remove, shift, unite,
};
use crate::passing::pass;
use crate::relations::known_parts;
use crate::rows::{Rows, follow, rows_at};
use crate::scan::MOST_POSITIONS;
use crate::search::{Ground, Search};
use jp_iregexp::{Pattern, positions};
use std::alloc::{AllocError, Global};
use std::mem;

/// The plain matcher. It goes down the pattern and keeps sets of offsets in the text, a mark for
/// each offset. A repeat of few positions is one pass over the text. Any other goes on only while
/// its set changes, so it ends after about as many rounds as the text has characters, however large
/// its counts.
///
/// Where repeats stand more than two deep inside one another, each part in which they still stand
/// two deep is gone over once from each single offset, and a round puts these images together. For
/// a text of n characters they take a block of `n^2` bytes for each such part of the pattern.
#[derive(Clone, Copy, Debug, Default)]
pub struct Images;

impl Images {
    /// Whether the text is in the language of the pattern (RFC 9485 section 4; RFC 9535 section
    /// 2.4.6).
    pub fn whole(
        &self,
        alloc: Global,
        pattern: &Pattern,
        text: &str,
        tests: &mut Tests,
    ) -> Result<bool, AllocError>
        ensures exact { IfOk result (λ answer. IsTrue answer ↔ Language (tree pattern.now) (chars
            text.now)) }
        ensures kept { tests.old ≤ tests.new }
    {
        let text = characters(alloc, text)?;
        let ground = Ground { alloc, text: &text };
        let start = only(ground, 0)?;
        let offsets = reached_from(pattern, ground, start, tests)?;
        Ok(offsets[text.len()])
    }

    /// Whether some part of the text is in the language of the pattern, the empty parts included
    /// (RFC 9535 section 2.4.7).
    pub fn part(
        &self,
        alloc: Global,
        pattern: &Pattern,
        text: &str,
        tests: &mut Tests,
    ) -> Result<bool, AllocError>
        ensures exact { IfOk result (λ answer. IsTrue answer ↔ HasPart (Language (tree
            pattern.now)) (chars text.now)) }
        ensures kept { tests.old ≤ tests.new }
    {
        let text = characters(alloc, text)?;
        let ground = Ground { alloc, text: &text };
        let start = every(ground)?;
        let offsets = reached_from(pattern, ground, start, tests)?;
        Ok(is_any(&offsets))
    }
}

/// The characters of the text.
fn characters(alloc: Global, text: &str) -> Result<Vec<char>, AllocError>
    ensures { IfOk result (λ characters. characters.items ≡ chars text.now) }
{
    text.chars().collect(alloc)
}

/// The offsets that a word of the pattern reaches from these.
fn reached_from(
    pattern: &Pattern,
    ground: Ground<'_>,
    offsets: Offsets,
    tests: &mut Tests,
) -> Result<Offsets, AllocError>
    requires { IsOver offsets.items ground.text.now }
    ensures { IsFound (λ to. IsImage (Language (tree pattern.now)) ground.entry.text.now
        offsets.items to.items) tests.old tests.new result }
{
    let known = known_parts(pattern, ground, tests)?;
    image_of(pattern, &known, ground, offsets, tests)
}

/// The offsets that a word of the pattern reaches from these, by what is known of its parts.
pub(crate) fn image_of(
    pattern: &Pattern,
    known: &[Rows],
    ground: Ground<'_>,
    offsets: Offsets,
    tests: &mut Tests,
) -> Result<Offsets, AllocError>
    requires sized { IsOver offsets.items ground.text.now }
    requires known { EachKnown (parts_of (tree pattern.now)) ground.text.now (rows_of known.now) }
    ensures { IsFound (λ to. IsImage (Language (tree pattern.now)) ground.entry.text.now
        offsets.items to.items) tests.old tests.new result }
{
    let mut search = Search {
        ground,
        offsets,
        tests: Tests::new(),
    };
    mem::swap(&mut search.tests, tests);
    let led = image(pattern, known, &mut search);
    mem::swap(&mut search.tests, tests);
    led?;
    let Search { offsets, .. } = search;
    Ok(offsets)
}

/// Replaces the offsets by those that a word of the pattern reaches from them.
#[cycle(images)]
fn image(pattern: &Pattern, known: &[Rows], search: &mut Search<'_>) -> Result<(), AllocError>
    requires { EachKnown (parts_of (tree pattern.now)) search.old.ground.text.now (rows_of
        known.now) }
    ensures { Leads (Language (tree pattern.now)) search.old search.new result }
{
    match pattern {
        Pattern::Either(branches) => either_image(branches, known, search),
        Pattern::Sequence(pieces) => sequence_image(pieces, known, search),
        Pattern::Repeat { .. } if positions(pattern) <= MOST_POSITIONS => pass(pattern, search),
        Pattern::Repeat { inner, least, most } => {
            repeat_image(inner, known, *least, *most, search)
        }
        Pattern::Class(class) => {
            shift(
                class,
                search.ground.text,
                &mut search.offsets,
                &mut search.tests,
            );
            Ok(())
        }
    }
}

/// Replaces the offsets by those that a part of a pattern reaches: by its rows, where they are
/// known.
#[cycle(images)]
fn part_image(part: &Pattern, rows: &[Offsets], search: &mut Search<'_>) -> Result<(), AllocError>
    requires { AreKnown (Language (tree part.now)) search.old.ground.text.now (marks_of rows.now) }
    ensures { Leads (Language (tree part.now)) search.old search.new result }
{
    if rows.is_empty() {
        return image(part, &[], search);
    }
    follow(rows, search.ground.alloc, &mut search.offsets)
}

/// Replaces the offsets by those that branches reach: from the same offsets each, and together what
/// they reach.
#[cycle(images)]
fn either_image(
    parts: &[Pattern],
    known: &[Rows],
    search: &mut Search<'_>,
) -> Result<(), AllocError>
    requires { EachKnown (map tree parts.now) search.old.ground.text.now (rows_of known.now) }
    ensures { Leads (Language (branches (map tree parts.now))) search.old search.new result }
{
    let alloc = search.ground.alloc;
    let from = copy_of(alloc, &search.offsets)?;
    let mut reached = none(alloc, from.len())?;
    for (i, branch) in parts.iter().enumerate() {
        assign(&mut search.offsets, &from);
        part_image(branch, rows_at(known, i), search)?;
        unite(&mut reached, &search.offsets);
    }
    mem::swap(&mut search.offsets, &mut reached);
    Ok(())
}

/// Replaces the offsets by those that pieces reach, one after another.
#[cycle(images)]
fn sequence_image(
    parts: &[Pattern],
    known: &[Rows],
    search: &mut Search<'_>,
) -> Result<(), AllocError>
    requires { EachKnown (map tree parts.now) search.old.ground.text.now (rows_of known.now) }
    ensures { Leads (Language (pieces (map tree parts.now))) search.old search.new result }
{
    for (i, piece) in parts.iter().enumerate() {
        part_image(piece, rows_at(known, i), search)?;
    }
    Ok(())
}

/// Replaces the offsets by those that a repeat reaches: the least number of words, and then more of
/// them up to the most.
#[cycle(images)]
fn repeat_image(
    inner: &Pattern,
    known: &[Rows],
    least: u32,
    most: Option<u32>,
    search: &mut Search<'_>,
) -> Result<(), AllocError>
    requires { EachKnown (tree inner.now ∷ []) search.old.ground.text.now (rows_of known.now) }
    ensures { Leads (Language (repeat (tree inner.now) least most)) search.old search.new result }
{
    let Some(more) = most_after(most, least) else {
        clear(&mut search.offsets);
        return Ok(());
    };
    let rows = rows_at(known, 0);
    exactly_image(inner, rows, least, search)?;
    at_most_image(inner, rows, more, search)
}

/// The most words that may still follow once some are taken, where there is a most; none where so
/// many may not be taken.
fn most_after(most: Option<u32>, taken: u32) -> Option<Option<u32>>
    ensures { IsMostAfter most taken result }
{
    match most {
        None => Some(None),
        Some(most) => Some(Some(most.checked_sub(taken)?)),
    }
}

/// Replaces the offsets by those that exactly so many words of the pattern reach. Once a word more
/// reaches the same offsets, so do all further ones.
#[cycle(images)]
fn exactly_image(
    inner: &Pattern,
    rows: &[Offsets],
    count: u32,
    search: &mut Search<'_>,
) -> Result<(), AllocError>
    requires { AreKnown (Language (tree inner.now)) search.old.ground.text.now (marks_of rows.now) }
    ensures { Leads (Power (Language (tree inner.now)) count) search.old search.new result }
{
    let mut before = copy_of(search.ground.alloc, &search.offsets)?;
    for _ in 0..count {
        part_image(inner, rows, search)?;
        if is_settled(&search.offsets, &before) {
            break;
        }
        assign(&mut before, &search.offsets);
    }
    Ok(())
}

/// Replaces the offsets by those that at most so many words of the pattern reach. Only the offsets
/// that are new go on.
#[cycle(images)]
fn at_most_image(
    inner: &Pattern,
    rows: &[Offsets],
    most: Option<u32>,
    search: &mut Search<'_>,
) -> Result<(), AllocError>
    requires { AreKnown (Language (tree inner.now)) search.old.ground.text.now (marks_of rows.now) }
    ensures { Leads (Times (Language (tree inner.now)) most) search.old search.new result }
{
    let mut reached = none(search.ground.alloc, search.offsets.len())?;
    let mut left = most;
    while is_any(&search.offsets) {
        unite(&mut reached, &search.offsets);
        let Some(fewer) = most_after(left, 1) else {
            break;
        };
        left = fewer;
        part_image(inner, rows, search)?;
        remove(&mut search.offsets, &reached);
    }
    mem::swap(&mut search.offsets, &mut reached);
    Ok(())
}
