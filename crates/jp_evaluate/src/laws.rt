//! Laws over the definitions.

ghost use Rattle.jp_evaluate.specs.Cost.{NodesTakeSteps};
ghost use Rattle.jp_evaluate.specs.Laws.{PathSelectsItsNode, SelectsNodesAlone};
ghost use Rattle.jp_evaluate.specs.NodelistLaws.{CountsAddUp, DistinctIsExact, ExistenceGoesBySets, NamesRiseInSides};
ghost use Rattle.jp_evaluate.specs.NodelistLaws.{SingularSelectsOne, StandardCalls};

/// The normalized path of a node of a document, read as a query, is accepted and selects that node
/// alone (RFC 9535 section 2.7).
pub fn path_selects_its_node()
    ensures { PathSelectsItsNode }
{}

/// A nodelist has nodes of the document alone, each with the value that stands at its location
/// (section 2.1.2).
pub fn selects_nodes_alone()
    ensures { SelectsNodesAlone }
{}

/// A singular query selects at most one node, whatever the document (section 2.3.5.1).
pub fn singular_selects_one()
    ensures { SingularSelectsOne }
{}

/// The value of a side of a comparison, over a document, has its members in the order of their
/// names, so that `==` is the standard's equality there, by the law `equals_is_exact` of jp_select
/// (sections 2.3.5.1 and 2.3.5.2.2).
pub fn names_rise_in_sides()
    ensures { NamesRiseInSides }
{}

/// `distinct` answers the nodes of its argument, each location once, in the order of their first
/// occurrences; a list without repeats stays as it is.
pub fn distinct_is_exact()
    ensures { DistinctIsExact }
{}

/// A call of another function than `distinct` answers no nodes, and is true as a test where its
/// answer is: a query without `distinct` means what it means with the standard's functions alone.
pub fn standard_calls()
    ensures { StandardCalls }
{}

/// Whether segments reach a node from a list of nodes depends on the set of these alone (section
/// 2.1.2).
pub fn existence_goes_by_sets()
    ensures { ExistenceGoesBySets }
{}

/// Segments reach from a list as many nodes as from each of its nodes together (section 2.1.2).
pub fn counts_add_up()
    ensures { CountsAddUp }
{}

/// A nodelist takes at least a step for each of its nodes, and for each that a segment before the last selects.
pub fn nodes_take_steps()
    ensures { NodesTakeSteps }
{}
