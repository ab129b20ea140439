//! A scan, which takes a text one character at a time.

ghost use Rattle.std.specs.Prelude.{◌≡◌, ◌↔◌, ℕ, IfOk, IsTrue, List, [], ◌∷◌, false};
ghost use Rattle.jp_iregexp.specs.Tree.{tree};
ghost use Rattle.jp_iregexp.specs.Language.{Language};
ghost use Rattle.jp_iregexp.specs.Positions.{positions_of};
ghost use Rattle.jp_match.specs.Bounds.{MakesAtMost};
ghost use Rattle.jp_match.specs.Private.Beginning.{NeverBegins};
ghost use Rattle.jp_match.specs.Scan.{Begins, Left, tree_of};

use crate::beginning::may_begin;
use crate::class_tests::Tests;
use crate::counted::Counted;
use crate::marking::Marking;
use jp_iregexp::Pattern;
use std::alloc::{AllocError, Global};

/// The most positions of a pattern that there is a scan for.
pub(crate) const MOST_POSITIONS: u64 = 4_096;

/// A matcher that has taken some characters of a text. It keeps no text: what it knows is a mark for
/// each position of the pattern, and one for the start. So it never goes back, and a step takes no
/// memory.
#[derive(Drop)]
pub struct Scan<'p> {
    marking: Marking<'p>,
    anywhere: bool,
    at_start: bool,
}

impl<'p> Scan<'p> {
    /// A scan that has taken no character; None exactly where the pattern has more than 4,096
    /// positions. It accepts the words of the pattern's language, and with `anywhere` the texts
    /// that end in one. The only error is that memory ran out.
    pub fn new(
        alloc: Global,
        pattern: &'p Pattern,
        anywhere: bool,
    ) -> Result<Option<Scan<'p>>, AllocError>
        ensures { IfOk result (Begins (tree pattern.now) anywhere) }
    {
        Scan::of_counted(alloc, Counted::of(pattern), anywhere)
    }

    /// A scan by a pattern that was counted.
    pub(crate) fn of_counted(
        alloc: Global,
        counted: Counted<'p>,
        anywhere: bool,
    ) -> Result<Option<Scan<'p>>, AllocError>
        ensures { IfOk result (Begins (tree counted.entry.pattern.now) anywhere) }
    {
        let Counted { pattern, counts } = counted;
        if counts.positions > MOST_POSITIONS {
            return Ok(None);
        }
        let marking = Marking::new(alloc, pattern, counts)?;
        Ok(Some(Scan {
            marking,
            anywhere,
            at_start: true,
        }))
    }

    /// Takes one character. That makes at most one class test for each position of the pattern.
    pub fn step(&mut self, c: char, tests: &mut Tests)
        ensures left { (word : List ℕ) → Left self.new word ↔ Left self.old (c ∷ word) }
        ensures same { tree_of self.new ≡ tree_of self.old }
        ensures tests { MakesAtMost (positions_of (tree_of self.old)) tests.old tests.new }
    {
        self.advance(c, tests);
    }

    /// Takes one character, and answers whether those before it were accepted.
    pub(crate) fn advance(&mut self, c: char, tests: &mut Tests) -> bool
        ensures accepted { IsTrue result ↔ Left self.old [] }
        ensures left { (word : List ℕ) → Left self.new word ↔ Left self.old (c ∷ word) }
        ensures same { tree_of self.new ≡ tree_of self.old }
        ensures tests { MakesAtMost (positions_of (tree_of self.old)) tests.old tests.new }
    {
        let ended = self.marking.step(self.at_start, c, tests);
        self.at_start &= self.anywhere;
        ended
    }

    /// Whether the characters taken so far are in the language of the pattern, or with `anywhere`
    /// whether some suffix of them is, the empty one included.
    pub fn accepts(&self) -> bool
        ensures { IsTrue result ↔ Left self.now [] }
    {
        self.marking.ends(self.at_start)
    }

    /// Whether no further character leads to a word.
    pub(crate) fn is_spent(&self) -> bool
        ensures { IsTrue result → (word : List ℕ) → Left self.now word → ⊥ }
    {
        !self.at_start && self.marking.is_idle
    }

    /// How many positions the pattern has.
    pub(crate) fn positions(&self) -> u64
        ensures { result ≡ positions_of (tree_of self.now) }
    {
        self.marking.sweep.marks.len() as u64
    }

    /// Whether the scan stays as it is over a character that no word begins with, and does not accept
    /// before it: it looks anywhere, and has no mark.
    pub(crate) fn is_at_rest(&self) -> bool
        ensures stays { IsTrue result → (c : ℕ) → NeverBegins (Language (tree_of self.now)) c
            → (word : List ℕ) → Left self.now word ↔ Left self.now (c ∷ word) }
        ensures refuses { IsTrue result → (c : ℕ) → NeverBegins (Language (tree_of self.now)) c
            → Left self.now [] → ⊥ }
    {
        if !self.anywhere || !self.at_start {
            return false;
        }
        self.marking.is_idle
    }

    /// Whether a word may begin with the character. That makes at most one class test for each
    /// position.
    pub(crate) fn may_begin(&self, c: char, tests: &mut Tests) -> bool
        ensures never { result ≡ false → NeverBegins (Language (tree_of self.now)) c }
        ensures tests { MakesAtMost (positions_of (tree_of self.now)) tests.old tests.new }
    {
        may_begin(self.marking.pattern, c, tests)
    }
}
