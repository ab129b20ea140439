//! Patterns on texts, by both matchers.

use jp_iregexp::{Pattern, read_pattern};
use jp_match::{CountedPattern, Marks, Matching, Tests};
use std::alloc::{AllocError, Global};
use std::test::Fail;

mod agreement;
mod class_tests;
mod languages;
mod scans;

/// Whether a text is in the pattern's language, and whether some part of it is.
fn answers(alloc: Global, pattern: &Pattern, text: &str) -> Result<(bool, bool), AllocError> {
    let mut tests = Tests::new();
    let whole = Marks.whole(alloc, pattern, text, &mut tests)?;
    let part = Marks.part(alloc, pattern, text, &mut tests)?;
    Ok((whole, part))
}

/// What `answers` gives for the pattern that a text spells, once counted and once not: None where
/// the two differ.
fn answers_counted(alloc: Global, pattern: &str, text: &str) -> Result<Option<(bool, bool)>, Fail> {
    let pattern = CountedPattern::new(read_pattern(alloc, pattern)?);
    let mut tests = Tests::new();
    let whole = Marks.whole_counted(alloc, &pattern, text, &mut tests)?;
    let part = Marks.part_counted(alloc, &pattern, text, &mut tests)?;
    let uncounted = answers(alloc, pattern.pattern(), text)?;
    Ok((uncounted == (whole, part)).then_some(uncounted))
}
