//! Laws about the definitions, each the contract of a function that does nothing.

ghost use Rattle.std.specs.Prelude.{◌≡◌, ◌↔◌, IsTrue};
ghost use Rattle.jp_iregexp.specs.Spelled.{OnePattern};
ghost use Rattle.jp_iregexp.specs.Laws.{BranchesUnite, SequencesCut, RepeatsCut};
ghost use Rattle.jp_iregexp.specs.Tree.{tree};

mod membership;

use crate::pattern::Pattern;
pub use membership::{pattern_found, tested_matches, tested_words};

/// What the words of a pattern are (RFC 9485 section 4): of an `Either` those of each branch, of a
/// `Sequence` those cut into a word of each piece, of a `Repeat` those cut into as many words of
/// the inner pattern as it allows.
pub fn languages()
    ensures branches { BranchesUnite }
    ensures sequences { SequencesCut }
    ensures repeats { RepeatsCut }
{}

/// No text spells two patterns (RFC 9485 section 3).
pub fn one_pattern()
    ensures { OnePattern }
{}

/// Two patterns are equal (`==`) exactly where their trees are (RFC 9485 section 3).
pub fn equal_patterns()
    ensures { (p q : Pattern) → IsTrue (⟦<Pattern as PartialEq>⟧.eq p q) ↔ (tree p ≡ tree q) }
{}
