//! Patterns as trees.

use crate::class::CharClass;

/// A pattern. A whole pattern and each group are an `Either` of one or more branches, each branch a
/// `Sequence` of pieces (RFC 9485 section 3).
#[derive(Debug, PartialEq, Eq, Drop)]
pub enum Pattern {
    Either(Vec<Pattern>),
    Sequence(Vec<Pattern>),
    Repeat {
        inner: Box<Pattern>,
        least: u32,
        most: Option<u32>,
    },
    Class(CharClass),
}
