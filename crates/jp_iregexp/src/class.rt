//! PatternCharacter classes (RFC 9485 section 3).

ghost use Rattle.std.specs.Prelude.{◌≡◌};
ghost use Rattle.std.specs.List.{list_any};
ghost use Rattle.jp_iregexp.specs.Class.{element_holds, class_holds};

use crate::category::Category;

/// A character class: with `negated` it holds the characters that no element holds, else those that
/// one does.
#[derive(Debug, PartialEq, Eq, Drop)]
pub struct CharClass {
    pub negated: bool,
    pub elements: Vec<ClassElement>,
}

/// An element of a character class.
#[derive(Clone, Copy, Debug, PartialEq, Eq)]
pub enum ClassElement {
    /// The characters from the first to the last, both included; none where the last is below the
    /// first.
    Range(char, char),
    /// The characters of a general category, with `negated` all others.
    Category { code: Category, negated: bool },
}

impl CharClass {
    /// Whether the class holds the character. The categories are those of the crate `unicode`.
    #[tactic(auto, unfolding(crate::specs::Class::class_holds))]
    pub fn holds(&self, c: char) -> bool
        ensures { result ≡ class_holds self.now.negated self.now.elements.items c }
    {
        is_any_holding(&self.elements, c) != self.negated
    }
}

impl ClassElement {
    /// Whether the character is in the range, or of the category; with `negated`, of any other one.
    #[inline(always)]
    #[tactic(auto, unfolding(crate::specs::Class::element_holds))]
    fn holds(&self, c: char) -> bool
        ensures { result ≡ element_holds c self.now }
    {
        match *self {
            ClassElement::Range(first, last) => first <= c && c <= last,
            ClassElement::Category { code, negated } => code.holds(c) != negated,
        }
    }
}

/// Whether one of the elements holds the character, which none does where there are none.
#[inline(always)]
fn is_any_holding(elements: &[ClassElement], c: char) -> bool
    ensures { result ≡ list_any (element_holds c) elements.now }
{
    elements.iter().any(|element| element.holds(c))
}
