//! The arrays and objects that are open.

ghost use Rattle.std.specs.Prelude.{◌≡◌, ◌-◌, ◌∷◌, ◌<◌, ◌≤◌, [], MatchOption, MatchResult, length};
ghost use Rattle.jp_json.specs.Private.Machine.{top};

use crate::state::Level;
use std::alloc::{AllocError, Global};
use std::marker::Model;

/// The most arrays and objects that may be inside one another in a document.
pub const LEVEL_LIMIT: usize = 127;

/// The arrays and objects that are open.
#[derive(Drop)]
pub(crate) struct Levels {
    open: Vec<Level>,
}

impl Model for Levels {
    ghost use Rattle.std.specs.Prelude.{◌≤◌, List, reverse, length};
    ghost use Rattle.jp_json.specs.declared.state.Level.{Level};

    ghost Value = { List Level };

    // the innermost first
    ghost view = { λ l. reverse l.open.items };

    ghost invariant = { λ l. length l.open.items ≤ 127 };
}

impl Levels {
    /// None.
    pub(crate) fn new(alloc: Global) -> Levels
        ensures { result ≡ [] }
    {
        Levels {
            open: Vec::new(alloc),
        }
    }

    /// The innermost.
    pub(crate) fn top(&self) -> Option<Level>
        ensures { result ≡ top self.now }
    {
        self.open.last().copied()
    }

    /// How many more may be opened.
    pub(crate) fn spare(&self) -> usize
        ensures spare { result ≡ 127 - length self.now }
        ensures within { length self.now ≤ 127 }
    {
        LEVEL_LIMIT - self.open.len()
    }

    /// One more, inside all others.
    pub(crate) fn open(&mut self, level: Level) -> Result<(), AllocError>
        requires { length self.old < 127 }
        ensures { MatchResult result (λ _. self.new ≡ level ∷ self.old) (λ _. self.new ≡ self.old) }
    {
        self.open.push(level)?;
        Ok(())
    }

    /// One less; None where there is none.
    pub(crate) fn close(&mut self) -> Option<Level>
        ensures levels { MatchOption
            result
            ((self.old ≡ []) × (self.new ≡ []))
            (λ level. self.old ≡ level ∷ self.new) }
        ensures within { length self.old ≤ 127 }
    {
        self.open.pop()
    }
}
