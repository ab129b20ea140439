//! The steps that an evaluation may still make.
//!
//! They are counted down, so that each costs one subtraction; where they are not limited the count
//! stays at 0 when it gets there.

ghost use Rattle.std.specs.Prelude.{◌≡◌, ◌<◌, ◌+◌, ◌-◌, OnErr, OnOk, false, true};
ghost use Rattle.jp_select.specs.Steps.{Counts, IsSpent, Takes};

/// How many steps may still be made, where they are limited.
#[derive(Debug, Clone, Copy)]
pub struct Steps {
    left: u64,
    limited: bool,
}

/// All steps that were allowed were made.
#[derive(Debug, Clone, Copy, PartialEq, Eq, Drop)]
pub struct Stopped;

impl Steps {
    /// At most so many steps.
    pub fn at_most(limit: u64) -> Steps
        ensures left { result.left ≡ limit }
        ensures limited { result.limited ≡ true }
    {
        Steps {
            left: limit,
            limited: true,
        }
    }

    /// As many steps as it takes.
    pub fn unlimited() -> Steps
        ensures left { result.left ≡ u64.MAX }
        ensures limited { result.limited ≡ false }
    {
        Steps {
            left: u64::MAX,
            limited: false,
        }
    }

    /// How many steps are left; of steps without a limit, how far they are from 2^64 - 1.
    pub fn left(&self) -> u64
        ensures { result ≡ self.now.left }
    {
        self.left
    }

    /// Makes a step. Every step goes through here or through `take_many`.
    #[inline(always)]
    pub fn take(&mut self) -> Result<(), Stopped>
        ensures takes { Takes self.old self.new }
        ensures counts { OnOk result (Counts 1 self.old self.new) }
        ensures stopped { OnErr result (IsSpent self.new) }
        ensures few { OnErr result (self.old.left < 1) }
    {
        match self.left.checked_sub(1) {
            Some(left) => {
                self.left = left;
                Ok(())
            }
            None => self.refuse(),
        }
    }

    /// Makes this many steps; where fewer are left, these are lost.
    #[inline(always)]
    pub fn take_many(&mut self, count: u64) -> Result<(), Stopped>
        ensures takes { Takes self.old self.new }
        ensures counts { OnOk result (Counts count self.old self.new) }
        ensures stopped { OnErr result (IsSpent self.new) }
        ensures few { OnErr result (self.old.left < count) }
    {
        match self.left.checked_sub(count) {
            Some(left) => {
                self.left = left;
                Ok(())
            }
            None => self.refuse(),
        }
    }

    /// No step is left, which stops where they are limited.
    fn refuse(&mut self) -> Result<(), Stopped>
        ensures takes { Takes self.old self.new }
        ensures unlimited { OnOk result (self.old.limited ≡ false) }
        ensures stopped { OnErr result (IsSpent self.new) }
    {
        self.left = 0;
        if self.limited { Err(Stopped) } else { Ok(()) }
    }
}
