//! Laws about the definitions, each the contract of a function that does nothing.

ghost use Rattle.jp_document.specs.ChildNodes.{ChildrenAreExact};
ghost use Rattle.jp_document.specs.Laws.{DocumentNamesRise, DocumentOrDefect, PathsDiffer};
ghost use Rattle.jp_document.specs.Laws.{NodesDiffer, NumbersAreWhole};

/// The children of a node are exactly the nodes one step further on, rising in document order; each
/// is a node of the document, and the child at a step is the node there, if there is one (RFC 9535
/// section 1.1).
pub fn children_are_exact()
    ensures { ChildrenAreExact }
{}

/// Two lists of steps have one normalized path exactly if they are equal, and two nodes of a
/// document exactly if they are the same node (RFC 9535 section 2.7).
pub fn paths_differ()
    ensures locations { PathsDiffer }
    ensures nodes { NodesDiffer }
{}

/// Bytes are a document, and the document of one value, or have a defect, and one alone; and not
/// both.
pub fn document_or_defect()
    ensures { DocumentOrDefect }
{}

/// The numbers of a document are whole: a value may hold decimals, and none that is read of a document
/// does.
pub fn numbers_are_whole()
    ensures { NumbersAreWhole }
{}

/// The names of an object's members rise by bytes, in a document's value and in each value inside
/// it.
pub fn document_names_rise()
    ensures { DocumentNamesRise }
{}
