//! A search for the offsets of a text that words of a pattern reach.

ghost use Rattle.jp_match.specs.Private.Offset.{IsOver};

use crate::class_tests::Tests;
use crate::offsets::Offsets;
use std::alloc::Global;

/// A text, and what sets of its offsets are allocated by.
#[derive(Clone, Copy)]
pub(crate) struct Ground<'t> {
    pub(crate) alloc: Global,
    pub(crate) text: &'t [char],
}

/// The offsets of a text that are reached so far, and the class tests that this took.
#[derive(Drop)]
pub(crate) struct Search<'t> {
    pub(crate) ground: Ground<'t>,
    pub(crate) offsets: Offsets,
    pub(crate) tests: Tests,
    ghost sized: { IsOver offsets.items ground.text.now },
}
