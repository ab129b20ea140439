//! The nodes of a nodelist as they are lent, to be taken one by one.

ghost use Rattle.std.specs.Prelude.{◌≡◌, ◌<◌, ◌+◌, ◌++◌, ◌∷◌, IfNone, IfOk, IfSome, OnOk, [], false, filter, length, true};
ghost use Rattle.std.specs.Prelude.{if◌then◌else◌, MatchOption, OnSome, map, option_to_list, slice_get, Some};
ghost use Rattle.std.specs.Iterator.{at_most};
ghost use Rattle.jp_tree.specs.Views.{query_of};
ghost use Rattle.jp_select.specs.Giving.{GivesNextAs};
ghost use Rattle.jp_select.specs.Steps.{Counts, Takes};
ghost use Rattle.jp_evaluate.specs.Stopping.{GivenCounts, StopsSpent};
ghost use Rattle.jp_evaluate.specs.Lent.{GivesNextValue, KeepsWay, given_node, has_failed, kept_of, lent_node};
ghost use Rattle.jp_evaluate.specs.Lent.{rest_of, steps_of, way_of};
ghost use Rattle.jp_evaluate.specs.Nodelist.{nodelist};
ghost use Rattle.jp_evaluate.specs.Private.Segments.{AreOf, followed, is_begun};
ghost use Rattle.jp_evaluate.specs.Private.Walk.{Keeps, reached_node};
ghost use Rattle.jp_evaluate.specs.Patterns.{is_short, texts_in, texts_kept};

use crate::evaluating::{Evaluation, Work};
use crate::evaluation_fault::EvaluationFault;
use crate::pattern::Patterns;
use crate::walk::{Frame, Reached, Walk};
use jp_check::{Checked, Needs};
use jp_document::Step;
use jp_lent::Selectable;
use jp_match::Matching;
use jp_select::Steps;
use jp_tree::{Query, Segment};
use std::alloc::Global;

/// The nodes that a query selects, one after another, each as the steps to it from the root and its
/// value, in the form in which the root was lent. What came so far is a prefix of the nodelist.
#[derive(Drop)]
pub struct LentNodes<'d, 'q, V, M> {
    evaluation: Evaluation<'q, V, M>,
    work: Work,
    segments: Segments<'q>,
    walk: Walk<'d, V>,
    last: Option<Step<'d>>,
    failed: bool,
}

/// The segments that the walk follows.
#[derive(Drop)]
enum Segments<'q> {
    /// Those of a query in whose filters there are absolute queries to be answered, before the walk
    /// begins.
    Unsettled(&'q Query),
    /// The query's own.
    Lent(&'q [Segment]),
    /// Those of the query with the answers.
    Settled(Vec<Segment>),
}

impl<'q> Segments<'q> {
    /// The segments of a query whose walk has not begun: its own, unless absolute queries in its filters
    /// are to be answered first.
    fn of(query: &'q Query, needs: Needs) -> Segments<'q>
        ensures { AreOf result query.now }
    {
        if needs.answers {
            Segments::Unsettled(query)
        } else {
            Segments::Lent(&query.segments)
        }
    }

    /// Those that the walk follows, once nothing is to be answered before it.
    #[inline(always)]
    fn begun(&self) -> Option<&[Segment]>
        ensures begun { OnSome result (is_begun self.now ≡ true) }
        ensures followed { IfSome result (λ s. s.now ≡ followed self.now) }
    {
        match self {
            Segments::Unsettled(_) => None,
            Segments::Lent(segments) => Some(segments),
            Segments::Settled(segments) => Some(segments),
        }
    }

    /// Those that the walk follows; as long as absolute queries are still to be answered, the query's own.
    fn followed(&self) -> &[Segment]
        ensures { result.now ≡ followed self.now }
    {
        match self {
            Segments::Unsettled(query) => &query.segments,
            Segments::Lent(segments) => segments,
            Segments::Settled(segments) => segments,
        }
    }
}

/// The nodes that a query selects in the document whose value is the root (RFC 9535 section 2.1.2),
/// as `nodes` gives them, but each as the steps to it and its value, in the root's form. Absolute
/// queries inside its filters are answered when the first node is asked for.
pub fn lent_nodes<'d: 'q, 'q, V: Selectable + 'd, M: Matching>(
    alloc: Global,
    root: V,
    query: &'q Checked,
    matcher: &'q M,
) -> LentNodes<'d, 'q, V, M>
    ensures working { has_failed result ≡ false }
    ensures nodes { rest_of V.meaning result
        ≡ nodelist (query_of query.now.query) (V.meaning root) }
    ensures unlimited { (steps_of result).limited ≡ false }
{
    let patterns = Patterns::new(alloc);
    lent_nodes_with(alloc, root, query, matcher, patterns, Steps::unlimited())
}

/// `lent_nodes` with the patterns that other evaluations have read, which are not read again, and
/// with the steps that it may make.
pub fn lent_nodes_with<'d: 'q, 'q, V: Selectable + 'd, M: Matching>(
    alloc: Global,
    root: V,
    query: &'q Checked,
    matcher: &'q M,
    patterns: Patterns,
    steps: Steps,
) -> LentNodes<'d, 'q, V, M>
    ensures working { has_failed result ≡ false }
    ensures nodes { rest_of V.meaning result
        ≡ nodelist (query_of query.now.query) (V.meaning root) }
    ensures patterns { texts_kept result ≡ texts_in patterns }
    ensures steps { steps_of result ≡ steps }
{
    let frames = Vec::new(alloc);
    lent_nodes_in(alloc, root, query, matcher, patterns, frames, steps)
}

/// `lent_nodes_with` in the memory of the frames of other evaluations.
pub fn lent_nodes_in<'d: 'q, 'q, V: Selectable + 'd, M: Matching>(
    alloc: Global,
    root: V,
    query: &'q Checked,
    matcher: &'q M,
    patterns: Patterns,
    frames: Vec<Frame<'d, V>>,
    steps: Steps,
) -> LentNodes<'d, 'q, V, M>
    ensures working { has_failed result ≡ false }
    ensures nodes { rest_of V.meaning result
        ≡ nodelist (query_of query.now.query) (V.meaning root) }
    ensures patterns { texts_kept result ≡ texts_in patterns }
    ensures steps { steps_of result ≡ steps }
{
    LentNodes {
        evaluation: Evaluation {
            alloc,
            root,
            matcher,
            ways: query.needs().ways,
        },
        work: Work { patterns, steps },
        segments: Segments::of(query.query(), query.needs()),
        walk: Walk::within(frames, root),
        last: None,
        failed: false,
    }
}

impl<'d: 'q, 'q, V: Selectable + 'd, M: Matching> LentNodes<'d, 'q, V, M> {
    /// Whether a node could not be given, for an error. No more are given then.
    pub fn failed(&self) -> bool
        ensures { result ≡ has_failed self.now }
    {
        self.failed
    }

    /// Where it takes its memory.
    pub(crate) fn alloc(&self) -> Global {
        self.evaluation.alloc
    }

    /// What goes on to another evaluation: the patterns that were read whose texts have at most
    /// 1,024 bytes, and the steps that may still be made.
    pub fn into_parts(self) -> (Patterns, Steps)
        ensures patterns { texts_in result.0 ≡ filter is_short (texts_kept self.entry) }
        ensures steps { result.1 ≡ steps_of self.entry }
    {
        let (patterns, steps, _) = self.into_rooms();
        (patterns, steps)
    }

    /// What `into_parts` gives back, and the memory of the frames, with none in it.
    pub fn into_rooms(self) -> (Patterns, Steps, Vec<Frame<'d, V>>)
        ensures patterns { texts_in result.0 ≡ filter is_short (texts_kept self.entry) }
        ensures steps { result.1 ≡ steps_of self.entry }
        ensures frames { result.2.items ≡ [] }
    {
        let LentNodes { work, walk, .. } = self;
        let Work {
            mut patterns,
            steps,
        } = work;
        patterns.forget_long();
        (patterns, steps, walk.into_frames())
    }

    /// The next node: its value, and in `location` the steps to it instead of what that held; None
    /// at the end of the nodelist. `NoMemory` says that there is no memory for it, `StepsUsedUp` that
    /// the steps that it was allowed are used up; there are no more then, and `location` may hold
    /// anything.
    pub fn next_at(&mut self, location: &mut Vec<Step<'d>>) -> Option<Result<V, EvaluationFault>>
        ensures gives { GivesNextAs (λ v. lent_node V.meaning (location.new, v)) (rest_of V.meaning) has_failed
            self.old result self.new }
        ensures counts { IfSome result (λ r. OnOk r (Counts 1 (steps_of self.old) (steps_of self.new))) }
        ensures takes { Takes (steps_of self.old) (steps_of self.new) }
        ensures stopped { IfSome result (λ r. StopsSpent r (steps_of self.new)) }
    {
        if self.failed {
            return None;
        }
        let taken = self.take(location);
        self.failed = taken.is_err();
        taken.transpose()
    }

    /// The value of the next node, as `next_at` gives it, without the steps to it, for which no memory
    /// is taken.
    pub fn next_value(&mut self) -> Option<Result<V, EvaluationFault>>
        ensures gives { GivesNextValue V.meaning self.old result self.new }
        ensures counts { IfSome result (λ r. OnOk r (Counts 1 (steps_of self.old) (steps_of self.new))) }
        ensures takes { Takes (steps_of self.old) (steps_of self.new) }
        ensures stopped { IfSome result (λ r. StopsSpent r (steps_of self.new)) }
    {
        if self.failed {
            return None;
        }
        match self.next_child() {
            Some(next) => Some(next),
            None => self.reached_value(),
        }
    }

    /// The value of the next node, where it is the next child that a wildcard or a slice of the last segment
    /// chooses; else None, and nothing changes.
    #[inline(always)]
    fn next_child(&mut self) -> Option<Result<V, EvaluationFault>>
        requires { has_failed self.old ≡ false }
        ensures gives { IfSome result (λ r. GivesNextValue V.meaning self.old (Some r) self.new) }
        ensures none { IfNone result (self.new ≡ self.old) }
        ensures counts { IfSome result (λ r. OnOk r (Counts 1 (steps_of self.old) (steps_of self.new))) }
        ensures takes { Takes (steps_of self.old) (steps_of self.new) }
        ensures stopped { IfSome result (λ r. StopsSpent r (steps_of self.new)) }
    {
        let segments = self.segments.begun()?;
        let value = self.walk.next_child(segments)?;
        match self.work.steps.take() {
            Ok(()) => Some(Ok(value)),
            Err(stopped) => {
                self.failed = true;
                Some(Err(EvaluationFault::from(stopped)))
            }
        }
    }

    /// The value that the walk reaches next, as `next_value` gives it.
    fn reached_value(&mut self) -> Option<Result<V, EvaluationFault>>
        requires { has_failed self.old ≡ false }
        ensures gives { GivesNextValue V.meaning self.old result self.new }
        ensures counts { IfSome result (λ r. OnOk r (Counts 1 (steps_of self.old) (steps_of self.new))) }
        ensures takes { Takes (steps_of self.old) (steps_of self.new) }
        ensures stopped { IfSome result (λ r. StopsSpent r (steps_of self.new)) }
    {
        let reached = self.reach();
        self.failed = reached.is_err();
        match reached.transpose()? {
            Ok(reached) => Some(Ok(reached.value)),
            Err(error) => Some(Err(error)),
        }
    }

    /// The value of the next node, as `next_at` gives it. Where the node is, `last_step` tells, and `step_at`.
    pub fn next_placed(&mut self) -> Option<Result<V, EvaluationFault>>
        ensures gives { GivesNextAs (given_node V.meaning self.new) (rest_of V.meaning) has_failed
            self.old result self.new }
        ensures keeps { IfSome result (λ r. OnOk r (KeepsWay self.old self.new)) }
        ensures counts { IfSome result (λ r. OnOk r (Counts 1 (steps_of self.old) (steps_of self.new))) }
        ensures takes { Takes (steps_of self.old) (steps_of self.new) }
        ensures stopped { IfSome result (λ r. StopsSpent r (steps_of self.new)) }
    {
        if self.failed {
            return None;
        }
        self.walk.kept = usize::MAX;
        let next = self.reach();
        self.failed = next.is_err();
        match next.transpose()? {
            Ok(reached) => {
                self.last = reached.step;
                Some(Ok(reached.value))
            }
            Err(error) => Some(Err(error)),
        }
    }

    /// The step to the node that `next_placed` gave last, from where the walk stands; the root has none.
    pub fn last_step(&self) -> Option<Step<'d>>
        ensures { result ≡ self.now.last }
    {
        self.last
    }

    /// How many values on the way to where the walk stands, from the first on, are the same as before the last call of
    /// `next_placed`.
    pub fn kept(&self) -> usize
        ensures { result ≡ kept_of self.now }
    {
        self.walk.kept
    }

    /// The step to the value of this number, from 0, on the way to where the walk stands, from the one before it. The
    /// first has none; None where there are no more.
    pub fn step_at(&self, index: usize) -> Option<Option<Step<'d>>>
        ensures step { result ≡ slice_get (way_of self.now) index }
        ensures more { OnSome result (index < usize.MAX) }
    {
        self.walk.step_at(index)
    }

    /// The next node, before an error is kept.
    fn take(&mut self, location: &mut Vec<Step<'d>>) -> Result<Option<V>, EvaluationFault>
        ensures gives { IfOk result (λ o. rest_of V.meaning self.old
            ≡ map (λ v. lent_node V.meaning (location.new, v)) (option_to_list o)
            ++ rest_of V.meaning self.new) }
        ensures end { IfOk result (λ o. IfNone o (rest_of V.meaning self.new ≡ [])) }
        ensures counts { GivenCounts result (steps_of self.old) (steps_of self.new) }
        ensures failed { has_failed self.new ≡ has_failed self.old }
        ensures takes { Takes (steps_of self.old) (steps_of self.new) }
        ensures stopped { StopsSpent result (steps_of self.new) }
    {
        let Some(reached) = self.reach()? else {
            return Ok(None);
        };
        self.walk.locate(&reached, location)?;
        Ok(Some(reached.value))
    }

    /// Where the walk reaches the next node.
    #[inline(always)]
    fn reach(&mut self) -> Result<Option<Reached<'d, V>>, EvaluationFault>
        ensures gives { IfOk result (λ o. let left = rest_of V.meaning in MatchOption o
            ((left self.old ≡ []) × (left self.new ≡ []))
            (λ p. left self.old ≡ reached_node V.meaning self.new.walk p ∷ left self.new)) }
        ensures keeps { OnOk result (Keeps self.old.walk self.new.walk) }
        ensures counts { GivenCounts result (steps_of self.old) (steps_of self.new) }
        ensures failed { has_failed self.new ≡ has_failed self.old }
        ensures takes { Takes (steps_of self.old) (steps_of self.new) }
        ensures stopped { StopsSpent result (steps_of self.new) }
    {
        self.begin()?;
        self.walk
            .advance(&self.evaluation, &mut self.work, self.segments.followed())
    }

    /// Answers what is to be answered before the walk.
    #[inline(always)]
    fn begin(&mut self) -> Result<(), EvaluationFault>
        ensures rest { OnOk result (rest_of V.meaning self.new ≡ rest_of V.meaning self.old) }
        ensures begun { OnOk result (is_begun self.new.segments ≡ true) }
        ensures keeps { OnOk result (Keeps self.old.walk self.new.walk) }
        ensures failed { has_failed self.new ≡ has_failed self.old }
        ensures takes { Takes (steps_of self.old) (steps_of self.new) }
        ensures stopped { StopsSpent result (steps_of self.new) }
    {
        if let Segments::Unsettled(query) = &self.segments {
            let query = self.evaluation.settled_query(&mut self.work, query)?;
            self.segments = Segments::Settled(query.segments);
            self.walk = Walk::from(self.evaluation.alloc, self.evaluation.root);
        }
        Ok(())
    }
}

impl<'d: 'q, 'q, V: Selectable + 'd, M: Matching> Iterator for LentNodes<'d, 'q, V, M> {
    type Item = Result<(Vec<Step<'d>>, V), EvaluationFault>;

    ghost next_gives = { GivesNextAs (lent_node V.meaning) (rest_of V.meaning) has_failed };

    ghost remaining = { λ nodes. at_most (if has_failed nodes then 0 else length (rest_of V.meaning nodes) + 1) };

    fn size_hint(&self) -> (usize, Option<usize>) {
        (0, None)
    }

    /// The next node, or an error where there is no memory for it or the steps are used up, after
    /// which there are no more; None at the end of the nodelist.
    fn next(&mut self) -> Option<Result<(Vec<Step<'d>>, V), EvaluationFault>> {
        let mut location = Vec::new(self.evaluation.alloc);
        match self.next_at(&mut location)? {
            Ok(value) => Some(Ok((location, value))),
            Err(error) => Some(Err(error)),
        }
    }
}
