//! Laws about the definitions, each the contract of a function that does nothing.

ghost use Rattle.jp_exact.specs.Laws.{ExactOrDefect};

/// Bytes are an exact document, and the exact document of one value, or have a defect, and one alone;
/// and not both.
pub fn exact_or_defect()
    ensures { ExactOrDefect }
{}
