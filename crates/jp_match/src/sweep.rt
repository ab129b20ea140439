//! A sweep over the parts of a pattern, from the left.

ghost use Rattle.std.specs.Prelude.{◌≡◌, ◌↔◌, ◌+◌, ◌≤◌, IsTrue, false, length, get_or};
ghost use Rattle.jp_match.specs.Private.Sweeps.{IsUnmarked, at_start, by_either, by_next, nowhere};
ghost use Rattle.jp_match.specs.Private.Sweeps.{only_if};

use crate::class_tests::Tests;
use crate::offsets::is_any;

/// The marks of a pattern, what is kept of its repeats, the character that moves them, and where a
/// sweep over the parts stands: it comes to the positions and to the repeats one after another, so
/// nothing is counted or looked up.
#[derive(Drop)]
pub(crate) struct Sweep {
    /// The character that is taken; before the first one, any.
    pub(crate) c: char,
    /// A mark for each position: its class has taken the last character.
    pub(crate) marks: Vec<bool>,
    /// For each repeat without a most whether a round of it has ended.
    pub(crate) rounds: Vec<bool>,
    pub(crate) at: usize,
    pub(crate) round: usize,
    /// Counts the class tests.
    pub(crate) tests: Tests,
}

impl Sweep {
    /// Whether none of the next positions, as many as that, has a mark.
    #[inline(always)]
    pub(crate) fn is_unmarked(&self, positions: usize) -> bool
        requires { self.now.at + positions ≤ length self.now.marks.items }
        ensures { IsTrue result ↔ IsUnmarked self.now positions }
    {
        !is_any(&self.marks[self.at..self.at + positions])
    }

    /// Whether a round of the next repeat has ended.
    pub(crate) fn round_has_ended(&self) -> bool
        ensures { result ≡ get_or self.now.rounds.items self.now.round false }
    {
        match self.rounds.get(self.round) {
            Some(ended) => *ended,
            None => false,
        }
    }
}

/// Whether the end of a part of a pattern is reached by a mark, or by the empty word where the part
/// is entered.
#[derive(Clone, Copy)]
pub(crate) struct Reach {
    /// Before the character.
    pub(crate) before: bool,
    /// After it, the part not being entered.
    pub(crate) after: bool,
    /// After it, the part being entered.
    pub(crate) after_entered: bool,
}

impl Reach {
    /// Nowhere.
    pub(crate) fn none() -> Reach
        ensures { result ≡ nowhere }
    {
        Reach {
            before: false,
            after: false,
            after_entered: false,
        }
    }

    /// At the start of a part.
    pub(crate) fn at_start(entered: bool) -> Reach
        ensures { result ≡ at_start entered }
    {
        Reach {
            before: entered,
            after: false,
            after_entered: true,
        }
    }

    /// Whether it is reached in no way.
    pub(crate) fn is_nowhere(self) -> bool
        ensures { IsTrue result ↔ (self ≡ nowhere) }
    {
        !(self.before | self.after | self.after_entered)
    }

    /// By this part or by the other.
    pub(crate) fn or(self, other: Reach) -> Reach
        ensures { result ≡ by_either self other }
    {
        Reach {
            before: self.before | other.before,
            after: self.after | other.after,
            after_entered: self.after_entered | other.after_entered,
        }
    }

    /// This reach where the condition holds, and else nowhere.
    pub(crate) fn only_if(self, condition: bool) -> Reach
        ensures { result ≡ only_if condition self }
    {
        Reach {
            before: condition & self.before,
            after: condition & self.after,
            after_entered: condition & self.after_entered,
        }
    }

    /// By the part after this one, which was swept as it was entered.
    pub(crate) fn then(self, next: Reach) -> Reach
        ensures { result ≡ by_next self next }
    {
        Reach {
            before: next.before,
            after: next.after | (self.after & next.after_entered),
            after_entered: next.after | (self.after_entered & next.after_entered),
        }
    }
}
