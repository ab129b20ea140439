//! What is true of the definitions that the calls cite: functions without a body, each for one law.

ghost use Rattle.jp_select.specs.Laws.{ChoosesNodesAlone, EqualsIsExact, SlicesAreExact};
ghost use Rattle.jp_select.specs.Laws.{SubtreeRises};

/// A node and its descendants are exactly the nodes whose locations begin with its own, in document
/// order, each with the value that stands there (RFC 9535 section 2.5.2.2).
pub fn subtree_rises()
    ensures { SubtreeRises }
{}

/// A slice selects exactly the indexes that its step leads to within its bounds, in the direction
/// of the step, and none by step 0 (RFC 9535 section 2.3.4.2).
pub fn slices_are_exact()
    ensures { SlicesAreExact }
{}

/// `==` holds between values whose members stand in the order of their names, as those of documents
/// do, exactly where they are equal as the standard has it: lists item by item, objects by the same
/// names with equal values, in whatever order (RFC 9535 section 2.3.5.2.2).
pub fn equals_is_exact()
    ensures { EqualsIsExact }
{}

/// A name, a wildcard, an index or a slice selects nodes of the document alone, each with the value
/// that stands at its location (RFC 9535 section 2.3).
pub fn chooses_nodes_alone()
    ensures { ChoosesNodesAlone }
{}
