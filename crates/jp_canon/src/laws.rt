//! Laws of canonical texts, each the contract of a function that does nothing.

ghost use Rattle.jp_canon.specs.Laws.{CanonIsAccepted, CanonSpells, CanonTellsApart};

use jp_query::laws::one_reading;

/// The canonical text of a tree spells that tree, within any number of levels within which some
/// text spells it; that of a tree that is accepted in a profile is accepted in it as that tree (RFC
/// 9535 section 2.1.1).
pub fn canon_spells()
    ensures spells { CanonSpells }
    ensures accepted { CanonIsAccepted }
{}

/// Trees that are accepted, each in some profile, have one canonical text exactly if they are equal.
pub fn canon_tells_apart()
    ensures { CanonTellsApart }
{
    one_reading();
}
