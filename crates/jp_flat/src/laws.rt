//! Laws about the definitions, each the contract of a function that does nothing.

ghost use Rattle.jp_document.specs.Exact.{DocumentIsExact, WholeIsDocument};

/// A document is an exact one with the same value, and an exact one whose numbers are whole is a
/// document.
pub fn exact_documents()
    ensures exact { DocumentIsExact }
    ensures whole { WholeIsDocument }
{}
