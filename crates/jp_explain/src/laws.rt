//! Laws of places, each the contract of a function that does nothing.

ghost use Rattle.jp_explain.specs.Laws.{CutAtPlace};

/// A text is cut after its first characters at the byte that is as many bytes in as they take. So
/// what a refusal says of the text before its place, and of the character there (`IsSyntaxAt` of
/// jp_query), it says of the front and the rest by which the refusal is explained.
pub fn cut_at_place()
    ensures { CutAtPlace }
{}
