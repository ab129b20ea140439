//! Laws of the grammar, each the contract of a function that does nothing.

ghost use Rattle.jp_query.specs.Laws.{LevelsOnlyAdd, OneReading, OneRefusal, SpansOfComponents};

/// No text spells two trees, or one tree with two lists of spans, whatever the levels.
pub fn one_reading()
    ensures { OneReading }
{}

/// A text that spells a tree within some levels spells the same tree within more: a query that was
/// accepted while the limit was lower is accepted with the same tree, and so with the same canonical
/// text, at the same cost.
pub fn levels_only_add()
    ensures { LevelsOnlyAdd }
{}

/// The spans of a text that spells a tree are those of its components: within each is the text of that
/// component, only an omitted step has none, and they start one after the other, whatever the levels.
pub fn spans_of_components()
    ensures { SpansOfComponents }
{}

/// Each text spells a tree, or is refused with one kind and at one place, and not both, whatever
/// the levels.
pub fn one_refusal()
    ensures { OneRefusal }
{}
