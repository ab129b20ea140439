//! What a matcher answers.

ghost use Rattle.std.specs.Prelude.{◌↔◌, IfOk, IsTrue};
ghost use Rattle.std.specs.Str.{chars};
ghost use Rattle.jp_iregexp.specs.Tree.{tree};
ghost use Rattle.jp_iregexp.specs.Language.{Language};
ghost use Rattle.jp_match.specs.Bounds.{KeepsBound};
ghost use Rattle.jp_match.specs.Part.{HasPart};

use crate::class_tests::Tests;
use crate::counted::CountedPattern;
use jp_iregexp::Pattern;
use std::alloc::{AllocError, Global};

/// A matcher of patterns. Each answer is exact for every pattern; the only error is that memory ran
/// out. Where the pattern has at most 4,096 positions, a call makes at most one class test for each
/// of them and each character, whatever its outcome.
pub trait Matching {
    /// Whether the text is in the language of the pattern (RFC 9485 section 4; RFC 9535 section
    /// 2.4.6).
    fn whole(
        &self,
        alloc: Global,
        pattern: &Pattern,
        text: &str,
        tests: &mut Tests,
    ) -> Result<bool, AllocError>
        ensures exact { IfOk result (λ answer. IsTrue answer ↔ Language (tree pattern.now) (chars
            text.now)) }
        ensures tests { KeepsBound (tree pattern.now) (chars text.now) tests.old tests.new };

    /// Whether some part of the text is in the language of the pattern, the empty parts included
    /// (RFC 9535 section 2.4.7).
    fn part(
        &self,
        alloc: Global,
        pattern: &Pattern,
        text: &str,
        tests: &mut Tests,
    ) -> Result<bool, AllocError>
        ensures exact { IfOk result (λ answer. IsTrue answer ↔ HasPart (Language (tree
            pattern.now)) (chars text.now)) }
        ensures tests { KeepsBound (tree pattern.now) (chars text.now) tests.old tests.new };

    /// What `whole` answers, for a pattern that was counted before.
    fn whole_counted(
        &self,
        alloc: Global,
        pattern: &CountedPattern,
        text: &str,
        tests: &mut Tests,
    ) -> Result<bool, AllocError>
        ensures exact { IfOk result (λ answer. IsTrue answer ↔ Language (tree pattern.now.pattern)
            (chars text.now)) }
        ensures tests { KeepsBound (tree pattern.now.pattern) (chars text.now) tests.old tests.new }
    {
        self.whole(alloc, pattern.pattern(), text, tests)
    }

    /// What `part` answers, for a pattern that was counted before.
    fn part_counted(
        &self,
        alloc: Global,
        pattern: &CountedPattern,
        text: &str,
        tests: &mut Tests,
    ) -> Result<bool, AllocError>
        ensures exact { IfOk result (λ answer. IsTrue answer ↔ HasPart (Language (tree
            pattern.now.pattern)) (chars text.now)) }
        ensures tests { KeepsBound (tree pattern.now.pattern) (chars text.now) tests.old tests.new }
    {
        self.part(alloc, pattern.pattern(), text, tests)
    }
}
