//! Laws of the tests of membership.

ghost use Rattle.jp_iregexp.specs.Membership.{WordsAreTested, PartsAreTested};
ghost use Rattle.jp_iregexp.specs.Matches.{MatchesAreTested, PartMatchesAreTested};
ghost use Rattle.jp_iregexp.specs.PatternOf.{SpeltIsFound, OthersHaveNone};

/// `is_word` tells exactly the words of a pattern (RFC 9485 section 4), and `has_word` exactly the
/// texts of which some part is one (RFC 9535 section 2.4.7).
pub fn tested_words()
    ensures words { WordsAreTested }
    ensures parts { PartsAreTested }
{}

/// `pattern_of` answers exactly the pattern that a text spells within the limit of groups, and none
/// where the text spells none so (RFC 9485 section 3).
pub fn pattern_found()
    ensures spelt { SpeltIsFound }
    ensures none { OthersHaveNone }
{}

/// `is_match` tells exactly the texts that match a pattern (RFC 9535 section 2.4.6), and
/// `has_match` exactly those of which some part does (RFC 9535 section 2.4.7).
pub fn tested_matches()
    ensures whole { MatchesAreTested }
    ensures part { PartMatchesAreTested }
{}
