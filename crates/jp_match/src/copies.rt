//! Marks of copies of one class.

ghost use Rattle.std.specs.Prelude.{◌≡◌, ◌↔◌, IsTrue, length};
ghost use Rattle.jp_match.specs.Private.Copies.{AreMoved, IsEndMarked, IsNoneEnough, AreStepped};

use crate::offsets::is_any;
use crate::sweep::Reach;

/// Copies of one class, of which there must be so many, and each may be left out or none.
#[derive(Clone, Copy)]
pub(crate) struct Copies {
    pub(crate) least: usize,
    pub(crate) is_optional: bool,
}

impl Copies {
    /// Moves the marks over a character, which the class holds or not. They move at once, for all
    /// copies share one test of the class.
    pub(crate) fn step(self, marks: &mut [bool], entered: bool, holds: bool) -> Reach
        ensures { AreStepped self.is_optional entered holds self.least marks.old marks.new
            result.before result.after result.after_entered }
    {
        let none_enough = self.is_none_enough(marks.len());
        let before = self.is_end_marked(marks);
        self.move_on(marks, entered, holds);
        let after = self.is_end_marked(marks);
        Reach {
            before: before | (entered & none_enough),
            after,
            after_entered: after | none_enough,
        }
    }

    /// Whether so many have the empty word.
    fn is_none_enough(self, count: usize) -> bool
        ensures { IsTrue result ↔ IsNoneEnough self.is_optional self.least count }
    {
        self.least <= count && (self.is_optional || self.least == 0)
    }

    /// Whether a mark reaches the end.
    fn is_end_marked(self, marks: &[bool]) -> bool
        ensures { IsTrue result ↔ IsEndMarked self.is_optional self.least (length marks.now)
            marks.now }
    {
        if marks.len() < self.least {
            return false;
        }
        if self.is_optional {
            return is_any(marks);
        }
        is_any(&marks[self.least.saturating_sub(1)..])
    }

    /// Moves the marks: from a copy to the next one, and on to all others where they may be left
    /// out.
    fn move_on(self, marks: &mut [bool], entered: bool, holds: bool)
        ensures { AreMoved self.is_optional entered holds marks.old marks.new }
    {
        let mut through = entered;
        for copy in 0..marks.len() {
            let marked = marks[copy];
            marks[copy] = through & holds;
            through = marked | (self.is_optional & through);
        }
    }
}
