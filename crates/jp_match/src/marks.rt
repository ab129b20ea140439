//! The matcher of positions: a scan stepped once over the text.

ghost use Rattle.std.specs.Prelude.{◌≡◌, ◌↔◌, ◌*◌, ◌≤◌, ℕ, IfSome, IsTrue, List, [], ◌∷◌};
ghost use Rattle.std.specs.Prelude.{length, take};
ghost use Rattle.std.specs.Str.{chars};
ghost use Rattle.jp_iregexp.specs.Tree.{tree};
ghost use Rattle.jp_iregexp.specs.Language.{Language};
ghost use Rattle.jp_iregexp.specs.Positions.{positions_of};
ghost use Rattle.jp_match.specs.Bounds.{KeepsBound, MakesAtMost};
ghost use Rattle.jp_match.specs.Part.{HasPart};
ghost use Rattle.jp_match.specs.Private.Beginning.{RulesOut};
ghost use Rattle.jp_match.specs.Private.ClassTests.{LeavesRoom};
ghost use Rattle.jp_match.specs.Private.Search.{IsFound};
ghost use Rattle.jp_match.specs.Scan.{Left, tree_of};

use crate::class_tests::Tests;
use crate::counted::{Counted, CountedPattern};
use crate::cutting::cut;
use crate::first_chars::FirstChars;
use crate::images::Images;
use crate::matching::Matching;
use crate::scan::Scan;
use crate::word::{has_word, is_word};
use jp_iregexp::Pattern;
use std::alloc::{AllocError, Global};

/// The matcher of positions. It steps one [`Scan`] over the text, so a pattern of at most 4,096
/// positions takes at most one class test for each of them and each character. A pattern of more
/// positions is first cut down to the text's length, and where there still are more it is handed to
/// [`Images`]. A pattern that was counted before needs no scan where it has few words, or words of
/// one number of characters, or where the text does not begin as all its words do.
#[derive(Clone, Copy, Debug, Default)]
pub struct Marks;

impl Matching for Marks {
    fn whole(
        &self,
        alloc: Global,
        pattern: &Pattern,
        text: &str,
        tests: &mut Tests,
    ) -> Result<bool, AllocError> {
        whole_of(alloc, Counted::of(pattern), text, tests)
    }

    fn part(
        &self,
        alloc: Global,
        pattern: &Pattern,
        text: &str,
        tests: &mut Tests,
    ) -> Result<bool, AllocError> {
        part_of(alloc, Counted::of(pattern), None, text, tests)
    }

    fn whole_counted(
        &self,
        alloc: Global,
        pattern: &CountedPattern,
        text: &str,
        tests: &mut Tests,
    ) -> Result<bool, AllocError> {
        match pattern.only_words() {
            Some(words) => Ok(words.contain(text)),
            None if pattern.refuses(text) => Ok(false),
            None if pattern.has_one_width() => Ok(is_word(pattern.pattern(), text, tests)),
            None => whole_of(alloc, pattern.counted(), text, tests),
        }
    }

    fn part_counted(
        &self,
        alloc: Global,
        pattern: &CountedPattern,
        text: &str,
        tests: &mut Tests,
    ) -> Result<bool, AllocError> {
        match pattern.only_words() {
            Some(words) => Ok(words.occur_in(text)),
            None if pattern.is_sought() => {
                let first_chars = pattern.first_chars();
                Ok(has_word(pattern.pattern(), first_chars, text, tests))
            }
            None => part_of(alloc, pattern.counted(), pattern.first_chars(), text, tests),
        }
    }
}

/// Whether the text is in the language of a pattern that was counted.
fn whole_of(
    alloc: Global,
    counted: Counted<'_>,
    text: &str,
    tests: &mut Tests,
) -> Result<bool, AllocError>
    ensures found { IsFound (λ answer. IsTrue answer ↔ Language (tree counted.entry.pattern.now)
        (chars text.entry.now)) tests.old tests.new result }
    ensures tests { KeepsBound (tree counted.entry.pattern.now) (chars text.entry.now) tests.old
        tests.new }
{
    match Scan::of_counted(alloc, counted, false)? {
        Some(mut scan) => Ok(accepts_whole(&mut scan, text, tests)),
        None => whole_of_many(alloc, counted.pattern, text, tests),
    }
}

/// Whether some part of the text is in its language.
fn part_of(
    alloc: Global,
    counted: Counted<'_>,
    first_chars: Option<&FirstChars>,
    text: &str,
    tests: &mut Tests,
) -> Result<bool, AllocError>
    requires { IfSome first_chars (λ first. RulesOut first.now (Language (tree
        counted.pattern.now))) }
    ensures found { IsFound (λ answer. IsTrue answer ↔ HasPart (Language (tree
        counted.entry.pattern.now)) (chars text.entry.now)) tests.old tests.new result }
    ensures tests { KeepsBound (tree counted.entry.pattern.now) (chars text.entry.now) tests.old
        tests.new }
{
    match Scan::of_counted(alloc, counted, true)? {
        Some(mut scan) => Ok(accepts_prefix(&mut scan, first_chars, text, tests)),
        None => part_of_many(alloc, counted.pattern, text, tests),
    }
}

/// Whether the text is in the language of a pattern of many positions: of the pattern cut down to
/// the text.
fn whole_of_many(
    alloc: Global,
    pattern: &Pattern,
    text: &str,
    tests: &mut Tests,
) -> Result<bool, AllocError>
    ensures { IsFound (λ answer. IsTrue answer ↔ Language (tree pattern.entry.now) (chars
        text.entry.now)) tests.old tests.new result }
{
    let cut = cut(alloc, pattern, char_count(text))?;
    match Scan::new(alloc, &cut, false)? {
        Some(mut scan) => Ok(accepts_whole(&mut scan, text, tests)),
        None => Images.whole(alloc, &cut, text, tests),
    }
}

/// Whether some part of the text is in its language.
fn part_of_many(
    alloc: Global,
    pattern: &Pattern,
    text: &str,
    tests: &mut Tests,
) -> Result<bool, AllocError>
    ensures { IsFound (λ answer. IsTrue answer ↔ HasPart (Language (tree pattern.entry.now)) (chars
        text.entry.now)) tests.old tests.new result }
{
    let cut = cut(alloc, pattern, char_count(text))?;
    match Scan::new(alloc, &cut, true)? {
        Some(mut scan) => Ok(accepts_prefix(&mut scan, None, text, tests)),
        None => Images.part(alloc, &cut, text, tests),
    }
}

/// How many characters the text has.
fn char_count(text: &str) -> usize
    ensures { result ≡ length (chars text.now) }
{
    text.chars().count()
}

/// Whether the scan accepts once it has taken the text. It ends early where no word is left.
fn accepts_whole(scan: &mut Scan<'_>, text: &str, tests: &mut Tests) -> bool
    ensures accepted { IsTrue result ↔ Left scan.old (chars text.now) }
    ensures tests { MakesAtMost (positions_of (tree_of scan.old) * length (chars text.now)) tests.old
        tests.new }
{
    for c in text.chars() {
        if scan.is_spent() {
            return false;
        }
        scan.step(c, tests);
    }
    scan.accepts()
}

/// Whether the scan accepts once it has taken some prefix of the text. It ends at the first one, and
/// passes over the characters that no word begins with.
fn accepts_prefix(
    scan: &mut Scan<'_>,
    first_chars: Option<&FirstChars>,
    text: &str,
    tests: &mut Tests,
) -> bool
    requires { IfSome first_chars (λ first. RulesOut first.now (Language (tree_of scan.old))) }
    ensures accepted { IsTrue result
        ↔ ((count : ℕ) × (count ≤ length (chars text.now))
        × Left scan.old (take count (chars text.now))) }
    ensures tests { MakesAtMost (positions_of (tree_of scan.old) * length (chars text.now)) tests.old
        tests.new }
{
    let mut budget = tests.count();
    for c in text.chars() {
        budget = budget.saturating_add(scan.positions());
        if stays_within(scan, first_chars, c, tests, budget) {
            continue;
        }
        if scan.advance(c, tests) {
            return true;
        }
    }
    scan.accepts()
}

/// Whether the scan stays as it is over the character. It tests classes only where their tests leave
/// those of a step within the budget, since a step may follow.
fn stays_within(
    scan: &Scan<'_>,
    first_chars: Option<&FirstChars>,
    c: char,
    tests: &mut Tests,
    budget: u64,
) -> bool
    requires { IfSome first_chars (λ first. RulesOut first.now (Language (tree_of scan.now))) }
    ensures stays { IsTrue result → (word : List ℕ) → Left scan.now word ↔ Left scan.now (c ∷
        word) }
    ensures refuses { IsTrue result → Left scan.now [] → ⊥ }
    ensures tests { LeavesRoom (positions_of (tree_of scan.now)) budget tests.old tests.new }
{
    if !scan.is_at_rest() {
        return false;
    }
    if let Some(first_chars) = first_chars
        && first_chars.rule_out(c)
    {
        return true;
    }
    if budget.saturating_sub(tests.count()) / 2 < scan.positions() {
        return false;
    }
    !scan.may_begin(c, tests)
}
