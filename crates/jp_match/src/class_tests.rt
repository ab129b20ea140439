//! The count of class tests.

ghost use Rattle.std.specs.Prelude.{◌≡◌, ◌+◌, ◌-◌, ◌^◌, ◌&&◌, min, nat_le};
ghost use Rattle.jp_iregexp.specs.Class.{class_holds as holds_in};
ghost use Rattle.jp_match.specs.Bounds.{MakesAtMost};
ghost use Rattle.jp_match.specs.Private.ClassTests.{Makes};

use jp_iregexp::{CharClass, ClassElement};
use std::marker::Model;

/// How often a matcher has tested whether a class holds a character; at most the greatest `u64`.
#[derive(Debug, Default, Drop)]
pub struct Tests {
    made: u64,
}

impl Model for Tests {
    ghost use Rattle.std.specs.Prelude.{ℕ};

    ghost Value = { ℕ };

    ghost view = { λ tests. tests.made };
}

impl Tests {
    /// No test so far.
    pub fn new() -> Tests
        ensures { result ≡ 0 }
    {
        Tests { made: 0 }
    }

    /// How many tests there were; the greatest `u64` also stands for more.
    pub fn count(&self) -> u64
        ensures { result ≡ self.now }
    {
        self.made
    }

    /// Adds the tests that were counted apart.
    #[inline(always)]
    pub(crate) fn add(&mut self, apart: &Tests)
        ensures adds { self.new ≡ min (self.old + apart.now) (2 ^ 64 - 1) }
        ensures tests { MakesAtMost apart.now self.old self.new }
    {
        let Tests { made } = self;
        *made = made.saturating_add(apart.made);
    }

    /// Whether the class holds the character. Every class test of every matcher goes through here.
    #[inline(always)]
    pub(crate) fn holds(&mut self, class: &CharClass, c: char) -> bool
        ensures answer { result ≡ holds_in class.now.negated class.now.elements.items c }
        ensures tests { Makes 1 self.old self.new }
    {
        let Tests { made } = self;
        *made = made.saturating_add(1);
        class_holds(class, c)
    }
}

/// Whether the class holds the character. A class of one range, as most are, is tested in place.
#[inline(always)]
pub(crate) fn class_holds(class: &CharClass, c: char) -> bool
    ensures { result ≡ holds_in class.now.negated class.now.elements.items c }
{
    let [only] = class.elements.as_slice() else {
        return pair_holds(class, c);
    };
    match *only {
        ClassElement::Range(first, last) => is_between(first, last, c) != class.negated,
        ClassElement::Category { .. } => class.holds(c),
    }
}

/// Whether the class holds the character. A class of two ranges is tested in place: `.` is none of
/// two characters, and `[tT]` is one of two.
#[inline(always)]
fn pair_holds(class: &CharClass, c: char) -> bool
    ensures { result ≡ holds_in class.now.negated class.now.elements.items c }
{
    let [one, other] = class.elements.as_slice() else {
        return class.holds(c);
    };
    match (*one, *other) {
        (ClassElement::Range(first, last), ClassElement::Range(from, to)) => {
            (is_between(first, last, c) | is_between(from, to, c)) != class.negated
        }
        _ => class.holds(c),
    }
}

/// Whether the character is one from the first to the last, both included; none is where the last is below
/// the first.
fn is_between(first: char, last: char, c: char) -> bool
    ensures { result ≡ (nat_le first c && nat_le c last) }
{
    first <= c && c <= last
}
