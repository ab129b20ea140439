//! A pattern with a mark for each of its positions.

ghost use Rattle.std.specs.Prelude.{◌≡◌, ◌^◌, ℕ, ◌≤◌, IsTrue, IfOk, min, length};
ghost use Rattle.std.specs.Prelude.{get_or, true, false, ◌||◌};
ghost use Rattle.jp_iregexp.specs.Tree.{tree};
ghost use Rattle.jp_iregexp.specs.Positions.{positions_of};
ghost use Rattle.jp_match.specs.Bounds.{MakesAtMost};
ghost use Rattle.jp_match.specs.Private.Plain.{unrolled};
ghost use Rattle.jp_match.specs.Private.Marks.{Ends, Steps};
ghost use Rattle.jp_match.specs.Private.Sweeps.{rounds_of, rounds_end, marks_end};
ghost use Rattle.jp_match.specs.Private.Sweeps.{takes_none};

use crate::class_tests::Tests;
use crate::counts::{Counts, MANY_ROUNDS};
use crate::empty_word::has_empty_word;
use crate::offsets::{is_any, none};
use crate::sweep::Sweep;
use crate::whole::step_whole;
use jp_iregexp::Pattern;
use std::alloc::{AllocError, Global};
use std::mem::swap;

/// A pattern, a mark for each of its positions, and whether its end is reached.
#[derive(Drop)]
pub(crate) struct Marking<'p> {
    pub(crate) pattern: &'p Pattern,
    /// The sweep of the last step: there is no mark from its end on.
    pub(crate) sweep: Sweep,
    pub(crate) ends: bool,
    pub(crate) ends_entered: bool,
    /// There is no mark.
    pub(crate) is_idle: bool,
    ghost no_mark: { IsTrue is_idle → (position : ℕ) → IsTrue (get_or sweep.marks.items position
        false) → ⊥ },
    ghost ended: { (position : ℕ) → sweep.at ≤ position → IsTrue (get_or sweep.marks.items position
        false) → ⊥ },
    ghost sized: { length sweep.marks.items ≡ positions_of (tree pattern.now) },
    ghost kept: { length sweep.rounds.items ≡ rounds_of (unrolled (tree pattern.now)) },
    ghost so: { rounds_end (unrolled (tree pattern.now)) sweep.marks.items sweep.rounds.items ≡ true },
    ghost reached: { ends ≡ marks_end (unrolled (tree pattern.now)) sweep.marks.items },
    ghost reached_entered: { ends_entered ≡ (marks_end (unrolled (tree pattern.now))
        sweep.marks.items || takes_none (unrolled (tree pattern.now))) },
}

impl<'p> Marking<'p> {
    /// No mark so far.
    pub(crate) fn new(
        alloc: Global,
        pattern: &'p Pattern,
        counts: Counts,
    ) -> Result<Marking<'p>, AllocError>
        requires positions { counts.positions ≡ positions_of (tree pattern.now) }
        requires rounds { counts.rounds ≡ min (rounds_of (unrolled (tree pattern.now))) (2 ^ 31) }
        ensures of { IfOk result (λ marking. marking.pattern.now ≡ pattern.entry.now) }
        ensures none { IfOk result (λ marking. (position : ℕ)
            → IsTrue (get_or marking.sweep.marks.items position false) → ⊥) }
    {
        if counts.rounds >= MANY_ROUNDS {
            return Err(AllocError);
        }
        let marks = none(alloc, counts.positions as usize)?;
        let rounds = none(alloc, counts.rounds as usize)?;
        Ok(Marking {
            pattern,
            sweep: Sweep {
                c: '\0',
                marks,
                rounds,
                at: 0,
                round: 0,
                tests: Tests::new(),
            },
            ends: false,
            ends_entered: has_empty_word(pattern),
            is_idle: true,
        })
    }

    /// Moves the marks over the character, and answers whether the end was reached before.
    pub(crate) fn step(&mut self, entered: bool, c: char, tests: &mut Tests) -> bool
        ensures same { self.new.pattern.now ≡ self.old.pattern.now }
        ensures step { Steps (unrolled (tree self.old.pattern.now)) c entered
            self.old.sweep.marks.items self.new.sweep.marks.items result }
        ensures tests { MakesAtMost (positions_of (tree self.old.pattern.now)) tests.old tests.new }
    {
        let end = self.sweep.at;
        self.sweep.c = c;
        self.sweep.at = 0;
        self.sweep.round = 0;
        swap(&mut self.sweep.tests, tests);
        let reach = step_whole(self.pattern, &mut self.sweep, end, entered);
        swap(&mut self.sweep.tests, tests);
        self.ends = reach.after;
        self.ends_entered = reach.after_entered;
        self.is_idle = !is_any(&self.sweep.marks);
        self.sweep.at = if self.is_idle { 0 } else { self.sweep.at };
        reach.before
    }

    /// Whether the end is reached.
    pub(crate) fn ends(&self, entered: bool) -> bool
        ensures { Ends (unrolled (tree self.now.pattern.now)) entered self.now.sweep.marks.items
            result }
    {
        self.ends | (entered & self.ends_entered)
    }
}
