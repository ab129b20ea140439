//! What an evaluation goes by, and the functions that ask its matcher.

ghost use Rattle.jp_evaluate.specs.Stopping.{CountsBy64, StopsSpent};
ghost use Rattle.jp_select.specs.Steps.{Counts, Takes};
ghost use Rattle.std.specs.Prelude.{◌≡◌, ◌≤◌, ◌+◌, ◌-◌, ◌*◌, ◌^◌, ℕ, List, IfOk, OnOk, Some};
ghost use Rattle.std.specs.Prelude.{length, min, option_map};
ghost use Rattle.std.specs.Str.{chars};
ghost use Rattle.jp_iregexp.specs.PatternOf.{pattern_of};
ghost use Rattle.jp_iregexp.specs.Positions.{positions_of};
ghost use Rattle.jp_iregexp.specs.Tree.{Tree, tree};
ghost use Rattle.jp_document.specs.Value.{text as text_value};
ghost use Rattle.jp_evaluate.specs.Functions.{logical_answer, meaning};
ghost use Rattle.jp_evaluate.specs.Private.Meanings.{matched};

use crate::evaluation_fault::EvaluationFault;
use crate::pattern::Patterns;
use jp_check::{Function, may_meet};
use jp_match::{CountedPattern, Matching, Tests};
use jp_select::Steps;
use jp_tree::Segment;
use std::alloc::{AllocError, Global};

/// How many class tests a step is for.
const TESTS_A_STEP: u64 = 64;

/// What an evaluation goes by: the value of the root, `$`, the matcher of patterns, and whether a query
/// in a filter may come to a value by several ways.
#[derive(Drop)]
pub(crate) struct Evaluation<'q, V, M> {
    pub(crate) alloc: Global,
    pub(crate) root: V,
    pub(crate) matcher: &'q M,
    pub(crate) ways: bool,
}

impl<'q, V, M> Evaluation<'q, V, M> {
    /// Whether several ways by the segments of a query in a filter may lead to a value. Where none of
    /// these queries does so, none is looked at.
    #[inline(always)]
    pub(crate) fn may_meet(&self, segments: &[Segment]) -> bool {
        self.ways && may_meet(segments)
    }
}

/// What changes while an evaluation goes on: the patterns that were read, and the steps that may still be
/// made.
#[derive(Drop)]
pub(crate) struct Work {
    pub(crate) patterns: Patterns,
    pub(crate) steps: Steps,
}

/// How much of a text a pattern is to match.
#[derive(Clone, Copy)]
enum Extent {
    Whole,
    Part,
}

/// Whether a function is true of two arguments that are these texts, where None is no text.
#[inline(always)]
pub(crate) fn logical_answer<'q, V, M: Matching>(
    evaluation: &Evaluation<'q, V, M>,
    work: &mut Work,
    function: Option<Function>,
    left: Option<&'q str>,
    right: Option<&'q str>,
) -> Result<bool, EvaluationFault>
    ensures gives { IfOk result (λ answer. answer ≡ logical_answer (option_map meaning function)
        (option_map (λ s. text_value s.now) left.entry) (option_map (λ s. text_value s.now) right.entry)) }
    ensures takes { Takes work.old.steps work.new.steps }
    ensures stopped { StopsSpent result work.new.steps }
{
    match function {
        Some(Function::Match) => matched(evaluation, work, Extent::Whole, left, right),
        Some(Function::Search) => matched(evaluation, work, Extent::Part, left, right),
        _ => Ok(false),
    }
}

/// Whether a text matches a pattern; not so where one of both is no text.
fn matched<'q, V, M: Matching>(
    evaluation: &Evaluation<'q, V, M>,
    work: &mut Work,
    extent: Extent,
    text: Option<&'q str>,
    pattern: Option<&'q str>,
) -> Result<bool, EvaluationFault>
    ensures gives { IfOk result (λ answer. answer ≡ matched extent
        (option_map (λ s. text_value s.now) text.entry)
        (option_map (λ s. text_value s.now) pattern.entry)) }
    ensures takes { Takes work.old.steps work.new.steps }
    ensures stopped { StopsSpent result work.new.steps }
{
    match (text, pattern) {
        (Some(text), Some(pattern)) => text_answer(evaluation, work, extent, text, pattern),
        _ => Ok(false),
    }
}

/// Whether a text matches the pattern of the other, the whole of it for `match` (RFC 9535 section
/// 2.4.6), some part of it for `search` (section 2.4.7); not so where it spells none. Each byte of
/// both texts is a step, and so are for each byte of the text each 64 positions of the pattern beyond
/// the first 64. They are taken before the text is matched.
fn text_answer<'q, V, M: Matching>(
    evaluation: &Evaluation<'q, V, M>,
    work: &mut Work,
    extent: Extent,
    text: &str,
    pattern: &'q str,
) -> Result<bool, EvaluationFault>
    ensures gives { IfOk result (λ answer. answer
        ≡ matched extent (Some (text_value text.now)) (Some (text_value pattern.now))) }
    ensures takes { Takes work.old.steps work.new.steps }
    ensures stopped { StopsSpent result work.new.steps }
    ensures counts { OnOk result (Counts (length text.now + length pattern.now) work.old.steps
        work.new.steps) }
    ensures moves { OnOk result ((read : Tree) → pattern_of (chars pattern.now) ≡ Some read
        → positions_of read ≤ 4096 → CountsBy64 (min (positions_of read * length text.now)
        (2 ^ 64 - 1)) work.old.steps work.new.steps) }
{
    let alloc = evaluation.alloc;
    work.steps.take_many((text.len() + pattern.len()) as u64)?;
    let Some(pattern) = work.patterns.of(alloc, pattern)? else {
        return Ok(false);
    };
    let length = text.len() as u64;
    let ahead = pattern.steps_over(text.len());
    if ahead > length {
        work.steps.take_many(ahead - length)?;
    }
    let mut tests = Tests::new();
    let answer = is_matched(evaluation, extent, pattern, text, &mut tests)?;
    let beyond = steps_beyond(&tests, ahead.max(length));
    if beyond > 0 {
        work.steps.take_many(beyond)?;
    }
    Ok(answer)
}

/// What `match` or `search` answers of a text and a pattern that was read.
fn is_matched<V, M: Matching>(
    evaluation: &Evaluation<'_, V, M>,
    extent: Extent,
    pattern: &CountedPattern,
    text: &str,
    tests: &mut Tests,
) -> Result<bool, AllocError>
    ensures { IfOk result (λ answer. (spelled : List ℕ)
        → pattern_of (chars spelled) ≡ Some (tree pattern.now.pattern)
        → answer ≡ matched extent (Some (text_value text.now)) (Some (text_value spelled))) }
{
    let alloc = evaluation.alloc;
    let matcher = evaluation.matcher;
    match extent {
        Extent::Whole => matcher.whole_counted(alloc, pattern, text, tests),
        Extent::Part => matcher.part_counted(alloc, pattern, text, tests),
    }
}

/// The steps for class tests beyond those that were taken ahead.
fn steps_beyond(tests: &Tests, ahead: u64) -> u64 {
    (tests.count() / TESTS_A_STEP).saturating_sub(ahead)
}
