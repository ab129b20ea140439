//! Sets of offsets in a text.

ghost use Rattle.std.specs.Prelude.{◌≡◌, ◌↔◌, ◌⊎◌, ℕ, ◌≤◌, IsTrue, IfOk, length};
ghost use Rattle.jp_iregexp.specs.Tree.{class as class_tree};
ghost use Rattle.jp_iregexp.specs.Language.{Language};
ghost use Rattle.jp_match.specs.Private.ClassTests.{Makes};
ghost use Rattle.jp_match.specs.Private.Offset.{IsOver, Marked, Holds, IsImage, followed_count};
ghost use Rattle.jp_match.specs.Private.Rows.{IsOnly};

use crate::class_tests::Tests;
use crate::search::Ground;
use jp_iregexp::CharClass;
use std::alloc::{AllocError, Global};

/// Whether an offset is in the set, for the offset before each character and for the one at the end.
pub(crate) type Offsets = Vec<bool>;

/// A copy of the set.
pub(crate) fn copy_of(alloc: Global, offsets: &[bool]) -> Result<Offsets, AllocError>
    ensures { IfOk result (λ copy. copy.items ≡ offsets.now) }
{
    let mut copy = Vec::new(alloc);
    copy.extend_from_slice(offsets)?;
    Ok(copy)
}

/// None of so many offsets.
pub(crate) fn none(alloc: Global, count: usize) -> Result<Offsets, AllocError>
    ensures same_length { IfOk result (λ offsets. length offsets.items ≡ count) }
    ensures none { IfOk result (λ offsets. (offset : ℕ) → Marked offsets.items offset → ⊥) }
{
    vec![in alloc; false; count]
}

/// One offset of the text alone.
pub(crate) fn only(ground: Ground<'_>, offset: usize) -> Result<Offsets, AllocError>
    requires { offset ≤ length ground.text.now }
    ensures same_length { IfOk result (λ offsets. IsOver offsets.items ground.entry.text.now) }
    ensures only { IfOk result (λ offsets. IsOnly offsets.items offset) }
{
    let mut offsets = vec![in ground.alloc; false; ground.text.len() + 1]?;
    offsets[offset] = true;
    Ok(offsets)
}

/// Every offset of the text.
pub(crate) fn every(ground: Ground<'_>) -> Result<Offsets, AllocError>
    ensures same_length { IfOk result (λ offsets. IsOver offsets.items ground.entry.text.now) }
    ensures every { IfOk result (λ offsets. (offset : ℕ)
        → Marked offsets.items offset ↔ (offset ≤ length ground.entry.text.now)) }
{
    vec![in ground.alloc; true; ground.text.len() + 1]
}

/// Makes the set the same as the other.
pub(crate) fn assign(offsets: &mut Offsets, other: &Offsets)
    requires { length offsets.old.items ≡ length other.now.items }
    ensures { offsets.new.items ≡ other.now.items }
{
    offsets.copy_from_slice(other);
}

/// Takes every offset out of the set.
pub(crate) fn clear(offsets: &mut Offsets)
    ensures { Holds (λ offset. ⊥) offsets.old.items offsets.new.items }
{
    offsets.fill(false);
}

/// Whether any offset is in the set.
pub(crate) fn is_any(offsets: &[bool]) -> bool
    ensures { IsTrue result ↔ ((offset : ℕ) × Marked offsets.now offset) }
{
    offsets.contains(&true)
}

/// Whether the steps that led from one set to the next lead no further: there is no offset left, or
/// the offsets are those of before.
pub(crate) fn is_settled(offsets: &[bool], before: &[bool]) -> bool
    ensures { IsTrue result ↔ (((offset : ℕ) → Marked offsets.now offset
        → ⊥) ⊎ (offsets.now ≡ before.now)) }
{
    !is_any(offsets) || is_same(offsets, before)
}

/// Whether two sets are the same.
fn is_same(offsets: &[bool], other: &[bool]) -> bool
    ensures { IsTrue result ↔ (offsets.now ≡ other.now) }
{
    offsets == other
}

/// Adds the offsets of the other set.
pub(crate) fn unite(offsets: &mut Offsets, other: &[bool])
    requires { length offsets.old.items ≡ length other.now }
    ensures { Holds (λ offset. Marked offsets.old.items offset ⊎ Marked other.now offset)
        offsets.old.items offsets.new.items }
{
    for (i, also) in other.iter().enumerate() {
        offsets[i] = offsets[i] || *also;
    }
}

/// Takes out the offsets of the other set.
pub(crate) fn remove(offsets: &mut Offsets, other: &[bool])
    requires { length offsets.old.items ≡ length other.now }
    ensures { Holds (λ offset. Marked offsets.old.items offset × (Marked other.now offset → ⊥))
        offsets.old.items offsets.new.items }
{
    for (i, taken) in other.iter().enumerate() {
        offsets[i] = offsets[i] && !*taken;
    }
}

/// Moves each offset past the character that follows it, where the class holds that character. That
/// makes a class test for each offset of the set that a character follows.
pub(crate) fn shift(class: &CharClass, text: &[char], offsets: &mut Offsets, tests: &mut Tests)
    requires { IsOver offsets.old.items text.now }
    ensures image { IsImage (Language (class_tree class.now.negated class.now.elements.items))
        text.now offsets.old.items offsets.new.items }
    ensures tests { Makes (followed_count text.now offsets.old.items) tests.old tests.new }
{
    let mut arrives = false;
    for (i, c) in text.iter().enumerate() {
        let leaves = offsets[i];
        offsets[i] = arrives;
        arrives = leaves && tests.holds(class, *c);
    }
    offsets[text.len()] = arrives;
}
