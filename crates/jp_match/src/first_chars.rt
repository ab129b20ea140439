//! Which characters a word of a pattern may begin with, told once for many texts.

ghost use Rattle.std.specs.Prelude.{◌≡◌, ℕ, IsTrue, false, get_or, map};
ghost use Rattle.jp_iregexp.specs.Tree.{tree, branches, pieces, repeat, class as one_of};
ghost use Rattle.jp_iregexp.specs.Language.{Language};
ghost use Rattle.jp_match.specs.Private.Beginning.{RulesOut, Admits};

use crate::class_tests::class_holds;
use jp_iregexp::{CharClass, Pattern};
use std::marker::Model;

/// The ASCII characters that no word of a pattern begins with. There is none where the empty word is
/// one.
#[derive(Drop)]
pub(crate) struct FirstChars {
    ruled_out: [bool; 128],
}

impl Model for FirstChars {
    ghost use Rattle.std.specs.Prelude.{Bool, List};

    ghost Value = { List Bool };

    ghost view = { λ first. first.ruled_out };
}

impl FirstChars {
    /// Those that the classes of the pattern rule out that stand first. The tests that this takes are
    /// not a matcher's.
    pub(crate) fn of(pattern: &Pattern) -> FirstChars
        ensures { RulesOut result (Language (tree pattern.now)) }
    {
        let mut ruled_out = [true; 128];
        admit(pattern, &mut ruled_out);
        FirstChars { ruled_out }
    }

    /// Whether the character is ruled out.
    pub(crate) fn rule_out(&self, c: char) -> bool
        ensures { result ≡ get_or self.now c false }
    {
        match self.ruled_out.get(c as usize) {
            Some(ruled_out) => *ruled_out,
            None => false,
        }
    }
}

/// Admits the characters that a word of the pattern may begin with: those of the classes that stand
/// first, and all where the first part may be left out.
#[cycle(admits)]
fn admit(pattern: &Pattern, ruled_out: &mut [bool; 128])
    ensures { Admits (Language (tree pattern.now)) ruled_out.old ruled_out.new }
{
    match pattern {
        Pattern::Either(branches) => admit_each(branches, ruled_out),
        Pattern::Sequence(pieces) => admit_first(pieces, ruled_out),
        Pattern::Repeat { inner, least, most } => admit_repeat(inner, *least, *most, ruled_out),
        Pattern::Class(class) => admit_class(class, ruled_out),
    }
}

/// Admits the characters that words of any of the branches begin with.
#[cycle(admits)]
fn admit_each(parts: &[Pattern], ruled_out: &mut [bool; 128])
    ensures { Admits (Language (branches (map tree parts.now))) ruled_out.old ruled_out.new }
{
    for branch in parts {
        admit(branch, ruled_out);
    }
}

/// Admits the characters that words of pieces begin with: those of the first of them.
#[cycle(admits)]
fn admit_first(parts: &[Pattern], ruled_out: &mut [bool; 128])
    ensures { Admits (Language (pieces (map tree parts.now))) ruled_out.old ruled_out.new }
{
    let [first, ..] = parts else {
        admit_all(ruled_out);
        return;
    };
    admit(first, ruled_out);
}

/// Admits the characters that words of a repeat begin with.
#[cycle(admits)]
fn admit_repeat(inner: &Pattern, least: u32, most: Option<u32>, ruled_out: &mut [bool; 128])
    ensures { Admits (Language (repeat (tree inner.now) least most)) ruled_out.old ruled_out.new }
{
    if least == 0 || most == Some(0) {
        admit_all(ruled_out);
        return;
    }
    admit(inner, ruled_out);
}

/// Admits the characters of a class.
fn admit_class(class: &CharClass, ruled_out: &mut [bool; 128])
    ensures { Admits (Language (one_of class.now.negated class.now.elements.items)) ruled_out.old
        ruled_out.new }
{
    for code in 0..128u8 {
        let index = usize::from(code);
        ruled_out[index] = ruled_out[index] & !class_holds(class, char::from(code));
    }
}

/// Admits every character.
fn admit_all(ruled_out: &mut [bool; 128])
    ensures { (c : ℕ) → IsTrue (get_or ruled_out.new c false) → ⊥ }
{
    *ruled_out = [false; 128];
}
