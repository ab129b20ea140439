//! Laws of the definitions, each the contract of a function that does nothing.

ghost use Rattle.jp_json.specs.Laws.{OnePlace};

/// A text is a JSON text within the levels, or it is wrong at one byte, and not both (RFC 8259
/// section 2): where its longest viable prefix ends.
pub fn one_place()
    ensures { OnePlace }
{}
