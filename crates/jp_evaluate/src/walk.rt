//! The walk of a query through a document, from choice to choice (RFC 9535 section 2.1.2). It keeps
//! a frame for each value on the way from where it begins to where it stands, and no list of nodes.

ghost use Rattle.jp_evaluate.specs.Stopping.{GivenCounts, StopsSpent};
ghost use Rattle.std.specs.Prelude.{◌≡◌, ◌↔◌, ◌<◌, ◌≤◌, ◌-◌, ◌++◌, ◌∷◌, [], IfNone, IfOk, IfSome};
ghost use Rattle.std.specs.Prelude.{IsTrue, MatchOption, None, OnErr, OnOk, OnSome, Some, drop, length, map, min};
ghost use Rattle.std.specs.Prelude.{option_and_then, option_map, slice_get, suc};
ghost use Rattle.jp_document.specs.Location.{entries, step_of};
ghost use Rattle.jp_document.specs.Node.{root_of};
ghost use Rattle.jp_document.specs.Value.{Value};
ghost use Rattle.std.specs.Option.{option_map_or};
ghost use Rattle.jp_tree.specs.Tree.{segments as segment_trees};
ghost use Rattle.jp_tree.specs.Views.{expr_of, segment_of, selector_of};
ghost use Rattle.jp_lent.specs.Lending.{entry_value, step_with};
ghost use Rattle.jp_select.specs.Selectors.{candidates};
ghost use Rattle.jp_select.specs.Steps.{Counts, IsSpent, Takes};
ghost use Rattle.jp_evaluate.specs.Cost.{entering_cost};
ghost use Rattle.jp_evaluate.specs.Private.Due.{Pays, offer_cost, walk_cost};
ghost use Rattle.jp_evaluate.specs.Private.Sizes.{expr_size, segments_size, selector_size};
ghost use Rattle.jp_evaluate.specs.Private.Walk.{GivesChild, choice_at, entered, frame_choices, offered};
ghost use Rattle.jp_evaluate.specs.Private.Walk.{passes, pending, reached_at, reached_node};
ghost use Rattle.jp_evaluate.specs.Private.Walk.{segments_left, steps_of, walk_reaches};
ghost use Rattle.jp_evaluate.specs.Private.Walk.{test_of, turn_of, turn_selector, turns};
ghost use Rattle.jp_evaluate.specs.Private.Walk.{LeadsNowhere, LeadsNowhereAt, IsLeaf, Keeps, Skips, walk_frames, walk_steps};

use crate::evaluating::{Evaluation, Work};
use crate::evaluation_fault::EvaluationFault;
use crate::filter::Asking;
use jp_document::Step;
use jp_lent::Selectable;
use jp_match::Matching;
use jp_select::{Steps, Stopped, candidate, slice_place};
use jp_tree::{Expr, Segment, Selector};
use std::alloc::{AllocError, Global};

/// A value that segments led to.
#[derive(Clone, Copy)]
pub(crate) struct Reached<'d, V> {
    /// How many segments are before it.
    pub(crate) done: usize,
    /// The step to it from the frame before it, None where the walk begins.
    pub(crate) step: Option<Step<'d>>,
    pub(crate) value: V,
}

impl<'d, V: Selectable + 'd> Reached<'d, V> {
    /// Whether there is nothing inside its value, so that no segment chooses anything there.
    fn is_leaf(&self) -> bool
        ensures { IsTrue result ↔ (length (entries (V.meaning self.now.value)) ≡ 0) }
    {
        self.value.count() == 0
    }
}

/// A value at which a segment chooses: by which turn, and the position of the next of its choices.
#[derive(Clone, Copy)]
pub struct Frame<'d, V> {
    reached: Reached<'d, V>,
    turn: usize,
    next: usize,
}

/// A value to go on from, where the test is passed.
#[derive(Clone, Copy)]
pub(crate) struct Offer<'q, 'd, V> {
    pub(crate) reached: Reached<'d, V>,
    test: Option<&'q Expr>,
}

/// What a segment chooses by: one of its selectors, or, in a descendant segment, all children, at
/// which it is applied again.
#[derive(Clone, Copy)]
struct Turn<'q> {
    selector: Option<&'q Selector>,
    done: usize,
}

/// A walk under way: the value that it begins with, while that has not been offered, and the frames
/// from there on. The last frame stands apart, so that a walk of one frame takes no memory.
#[derive(Drop)]
pub(crate) struct Walk<'d, V> {
    first: Option<V>,
    top: Option<Frame<'d, V>>,
    below: Vec<Frame<'d, V>>,
    /// How many of the frames, from the first on, stood there when all were kept.
    pub(crate) kept: usize,
}

impl<'d, V: Selectable + 'd> Walk<'d, V> {
    /// A walk that begins with this value.
    pub(crate) fn from(alloc: Global, value: V) -> Walk<'d, V>
        ensures first { result.first ≡ Some value }
        ensures frames { walk_frames result ≡ [] }
        ensures kept { result.kept ≡ 0 }
    {
        Walk::within(Vec::new(alloc), value)
    }

    /// A walk from this value, in the memory of other frames.
    pub(crate) fn within(mut frames: Vec<Frame<'d, V>>, value: V) -> Walk<'d, V>
        ensures first { result.first ≡ Some value }
        ensures frames { walk_frames result ≡ [] }
        ensures kept { result.kept ≡ 0 }
    {
        frames.clear();
        Walk {
            first: Some(value),
            top: None,
            below: frames,
            kept: 0,
        }
    }

    /// The memory of its frames, with none in it.
    pub(crate) fn into_frames(self) -> Vec<Frame<'d, V>>
        ensures { result.items ≡ [] }
    {
        let Walk { mut below, .. } = self;
        below.clear();
        below
    }

    /// The next value that segments reach, None at the end. After an error nothing is said of what
    /// is left.
    #[cycle(filter)]
    pub(crate) fn advance<'q, M: Matching>(
        &mut self,
        evaluation: &Evaluation<'q, V, M>,
        work: &mut Work,
        segments: &'q [Segment],
    ) -> Result<Option<Reached<'d, V>>, EvaluationFault>
    where
        'd: 'q,
        ensures gives { IfOk result (λ o. let left = walk_reaches V.meaning segments.now
            (V.meaning evaluation.now.root) in MatchOption o
            ((left self.old ≡ []) × (left self.new ≡ []))
            (λ p. left self.old ≡ reached_node V.meaning self.new p ∷ left self.new)) }
        ensures counts { GivenCounts result work.old.steps work.new.steps }
        ensures pays { IfOk result (λ o. let due = walk_cost V.meaning segments.now (V.meaning evaluation.now.root) in
            Pays (due self.old) (option_map_or (λ _. due self.new) o 0) work.old.steps work.new.steps) }
        ensures keeps { OnOk result (Keeps self.old self.new) }
        ensures takes { Takes work.old.steps work.new.steps }
        ensures stopped { StopsSpent result work.new.steps }
    {
        loop {
            work.steps.take()?;
            let Some(offer) = self.next_offer(segments, &mut work.steps)? else {
                return Ok(None);
            };
            if offer.passes(evaluation, work)? {
                if offer.reached.done >= segments.len() {
                    return Ok(Some(offer.reached));
                }
                if !offer.reached.is_leaf() {
                    work.steps
                        .take_many(turn_count(segments, offer.reached.done))?;
                    self.enter(offer.reached)?;
                }
            }
        }
    }

    /// The next value that segments reach, where it is the next one that a wildcard or a slice of the last segment
    /// chooses at the frame that stands apart; else None, and nothing changes. It takes no step.
    #[inline(always)]
    pub(crate) fn next_child(&mut self, segments: &[Segment]) -> Option<V>
        ensures gives { IfSome result (λ v. GivesChild V.meaning segments.now self.old v self.new) }
        ensures none { IfNone result (self.new ≡ self.old) }
        ensures costs { OnSome result ((d : Value) → let due = walk_cost V.meaning segments.now d in
            due self.old ≡ suc (due self.new)) }
    {
        if self.first.is_some() {
            return None;
        }
        let Some(frame) = &mut self.top else {
            return None;
        };
        let turn = turn_at(segments, frame.reached.done, frame.turn)?;
        if turn.done < segments.len() {
            return None;
        }
        let child = turn.listed(frame.reached.value, frame.next)?;
        frame.next += 1;
        Some(child)
    }

    /// The next choice that may lead somewhere, None at the end. What it passes over takes steps.
    fn next_offer<'q>(
        &mut self,
        segments: &'q [Segment],
        steps: &mut Steps,
    ) -> Result<Option<Offer<'q, 'd, V>>, Stopped>
        ensures gives { IfOk result (λ next. let left = pending V.meaning segments.now in
            MatchOption next (Skips LeadsNowhereAt (left self.old) [] × (left self.new ≡ []))
            (λ o. Skips LeadsNowhereAt (left self.old)
            (choice_at (reached_at [] (walk_frames self.new)) (offered V.meaning segments.now o)
            ∷ left self.new))) }
        ensures begun { OnOk result (self.new.first ≡ None) }
        ensures pays { IfOk result (λ next. (d : Value) → let due = walk_cost V.meaning segments.now d in
            Pays (due self.old) (offer_cost V.meaning segments.now d next (due self.new)) steps.old steps.new) }
        ensures keeps { OnOk result (Keeps self.old self.new) }
        ensures smaller { IfOk result (λ next. IfSome next (λ o. IfSome o.test (λ e. expr_size (expr_of e.now)
            < segments_size (segment_trees (map segment_of segments.now))))) }
        ensures takes { Takes steps.old steps.new }
        ensures stopped { OnErr result (IsSpent steps.new) }
    {
        if let Some(start) = self.first {
            self.first = None;
            return Ok(Some(Offer {
                reached: Reached {
                    done: 0,
                    step: None,
                    value: start,
                },
                test: None,
            }));
        }
        loop {
            self.take_up();
            let Some(frame) = &mut self.top else {
                return Ok(None);
            };
            if let Some(offer) = frame_offer(segments, frame, steps)? {
                return Ok(Some(offer));
            }
            self.leave();
        }
    }

    /// No more frames are kept than those below.
    #[inline(always)]
    fn keep_below(&mut self)
        ensures first { self.new.first ≡ self.old.first }
        ensures top { self.new.top ≡ self.old.top }
        ensures below { self.new.below ≡ self.old.below }
        ensures kept { self.new.kept ≡ min self.old.kept (length self.old.below.items) }
    {
        self.kept = self.kept.min(self.below.len());
    }

    /// The step to the frame of this number, from 0, from the one before it; None where there is no such frame.
    #[inline(always)]
    pub(crate) fn step_at(&self, index: usize) -> Option<Option<Step<'d>>>
        ensures step { result ≡ slice_get (walk_steps self.now) index }
        ensures more { OnSome result (index < usize.MAX) }
    {
        if index < self.below.len() {
            return Some(self.below[index].reached.step);
        }
        if index > self.below.len() {
            return None;
        }
        match &self.top {
            Some(frame) => Some(frame.reached.step),
            None => None,
        }
    }

    /// Takes up the last frame of those below where none stands apart.
    fn take_up(&mut self)
        ensures first { self.new.first ≡ self.old.first }
        ensures frames { walk_frames self.new ≡ walk_frames self.old }
        ensures none { IfNone self.new.top (walk_frames self.new ≡ []) }
        ensures kept { self.new.kept ≡ self.old.kept }
    {
        if self.top.is_none() {
            self.top = self.below.pop();
        }
    }

    /// Takes off the frame that stands apart, and takes up the one below it.
    #[inline(always)]
    fn leave(&mut self)
        ensures first { self.new.first ≡ self.old.first }
        ensures frames { walk_frames self.new ≡ self.old.below.items }
        ensures kept { self.new.kept ≡ min self.old.kept (length self.old.below.items) }
    {
        self.keep_below();
        self.top = self.below.pop();
    }

    /// Goes on from a value.
    fn enter(&mut self, reached: Reached<'d, V>) -> Result<(), AllocError>
        ensures first { self.new.first ≡ self.old.first }
        ensures frames { OnOk result
            (walk_frames self.new ≡ walk_frames self.old ++ entered reached.entry ∷ []) }
        ensures keeps { OnOk result (Keeps self.old self.new) }
    {
        self.push(reached)?;
        self.keep_below();
        Ok(())
    }

    /// Goes on from a value, with what was kept.
    #[inline(always)]
    fn push(&mut self, reached: Reached<'d, V>) -> Result<(), AllocError>
        ensures first { self.new.first ≡ self.old.first }
        ensures frames { OnOk result
            (walk_frames self.new ≡ walk_frames self.old ++ entered reached.entry ∷ []) }
        ensures below { OnOk result (self.new.below.items ≡ walk_frames self.old) }
        ensures kept { self.new.kept ≡ self.old.kept }
    {
        let frame = Frame {
            reached,
            turn: 0,
            next: 0,
        };
        if let Some(frame) = self.top.replace(frame) {
            self.below.push(frame)?;
        }
        Ok(())
    }

    /// Where a value is that the last frame led to.
    #[inline(always)]
    pub(crate) fn location_at(
        &self,
        alloc: Global,
        reached: &Reached<'d, V>,
    ) -> Result<Vec<Step<'d>>, AllocError>
        ensures { IfOk result (λ l. map step_of l.items
            ≡ (reached_node V.meaning self.now reached.now).location) }
    {
        let mut location = Vec::new(alloc);
        self.locate(reached, &mut location)?;
        Ok(location)
    }

    /// Puts the steps to that value into the list, instead of what it holds.
    #[inline(always)]
    pub(crate) fn locate(
        &self,
        reached: &Reached<'d, V>,
        location: &mut Vec<Step<'d>>,
    ) -> Result<(), AllocError>
        ensures { OnOk result (map step_of location.new.items
            ≡ (reached_node V.meaning self.now reached.now).location) }
    {
        location.clear();
        location.reserve(self.below.len() + 2)?;
        for frame in &self.below {
            push_step(location, frame.reached.step)?;
        }
        push_step(location, self.last_step())?;
        push_step(location, reached.step)?;
        Ok(())
    }

    /// The step to the frame that stands apart.
    #[inline(always)]
    fn last_step(&self) -> Option<Step<'d>>
        ensures { result ≡ option_and_then (λ f. f.reached.step) self.now.top }
    {
        match &self.top {
            Some(frame) => frame.reached.step,
            None => None,
        }
    }
}

/// Appends a step to a location; where there is none, the location stays.
fn push_step<'d>(location: &mut Vec<Step<'d>>, step: Option<Step<'d>>) -> Result<(), AllocError>
    ensures { OnOk result
        (map step_of location.new.items ≡ map step_of location.old.items ++ steps_of step.entry) }
{
    if let Some(step) = step {
        location.push(step)?;
    }
    Ok(())
}

impl<'d, V: Selectable + 'd> Frame<'d, V> {
    /// A frame at the first choice of the segment after `done` others.
    pub(crate) fn at(done: usize, value: V) -> Frame<'d, V>
        ensures { result ≡ entered (record { done = done; step = None; value = value }) }
    {
        Frame {
            reached: Reached {
                done,
                step: None,
                value,
            },
            turn: 0,
            next: 0,
        }
    }
}

/// The next choice of a frame that may lead somewhere, None where it has no more. On the way down it passes
/// over values with nothing inside them, each of which takes a step.
#[inline(always)]
pub(crate) fn frame_offer<'q, 'd, V: Selectable + 'd>(
    segments: &'q [Segment],
    frame: &mut Frame<'d, V>,
    steps: &mut Steps,
) -> Result<Option<Offer<'q, 'd, V>>, Stopped>
    ensures reached { frame.new.reached ≡ frame.old.reached }
    ensures gives { IfOk result (λ next. let left = frame_choices V.meaning segments.now in
        MatchOption next (Skips LeadsNowhere (left frame.old) [])
        (λ o. Skips LeadsNowhere (left frame.old) (offered V.meaning segments.now o ∷ left frame.new))) }
    ensures pays { IfOk result (λ next. let left = frame_choices V.meaning segments.now in
        Pays (length (left frame.old)) (option_map_or (λ _. suc (length (left frame.new))) next 0)
        steps.old steps.new) }
    ensures smaller { IfOk result (λ next. IfSome next (λ o. IfSome o.test (λ e. expr_size (expr_of e.now)
        < segments_size (segment_trees (map segment_of segments.now))))) }
    ensures takes { Takes steps.old steps.new }
    ensures stopped { OnErr result (IsSpent steps.new) }
{
    while let Some(turn) = turn_at(segments, frame.reached.done, frame.turn) {
        pass_leaves(turn, frame, steps)?;
        if let Some(choice) = turn.choice(frame.reached.value, frame.next) {
            frame.next += 1;
            return Ok(Some(Offer {
                reached: Reached {
                    done: turn.done,
                    step: Some(choice.0),
                    value: choice.1,
                },
                test: turn.test(),
            }));
        }
        frame.turn += 1;
        frame.next = 0;
    }
    Ok(None)
}

/// Goes on behind the children with nothing inside them, where a turn is on the way down. Each takes a step.
#[inline(always)]
fn pass_leaves<'q, 'd, V: Selectable + 'd>(
    turn: Turn<'q>,
    frame: &mut Frame<'d, V>,
    steps: &mut Steps,
) -> Result<(), Stopped>
    ensures reached { frame.new.reached ≡ frame.old.reached }
    ensures turn { frame.new.turn ≡ frame.old.turn }
    ensures leaves { OnOk result (let all = entries (V.meaning frame.old.reached.value) in
        Skips IsLeaf (drop frame.old.next all) (drop frame.new.next all)) }
    ensures others { OnOk result (OnSome turn.entry.selector (frame.new.next ≡ frame.old.next)) }
    ensures takes { Takes steps.old steps.new }
    ensures stopped { OnErr result (IsSpent steps.new) }
    ensures counts { OnOk result (Counts (frame.new.next - frame.old.next) steps.old steps.new) }
{
    if turn.selector.is_some() {
        return Ok(());
    }
    let next = past_leaves(frame.reached.value, frame.next);
    steps.take_many((next - frame.next) as u64)?;
    frame.next = next;
    Ok(())
}

/// The position, from this one on, of the first of a value's children that has something inside it; behind
/// the last where none has.
#[inline(always)]
fn past_leaves<'d, V: Selectable + 'd>(value: V, from: usize) -> usize
    ensures onward { from ≤ result }
    ensures leaves { let all = entries (V.meaning value) in Skips IsLeaf (drop from all) (drop result all) }
{
    let mut position = from;
    'leaves: while let Some(child) = value.child(position) {
        if child.1.count() > 0 {
            return position;
        }
        position += 1;
    }
    position
}

/// How many turns are tried at a value after `done` segments, the one that is not there included.
#[inline(always)]
pub(crate) fn turn_count(segments: &[Segment], done: usize) -> u64
    ensures { result ≡ entering_cost (segments_left segments.now done) }
{
    match segments.get(done) {
        Some(segment) => (segment.selectors.len() as u64).saturating_add(2),
        None => 0,
    }
}

/// The turn of this number, from 0, of the segment after `done` others, None where there are no
/// more.
#[inline(always)]
fn turn_at<'q>(segments: &'q [Segment], done: usize, number: usize) -> Option<Turn<'q>>
    ensures gives { option_map (turn_of segments.now) result
        ≡ slice_get (turns (segments_left segments.now done)) number }
    ensures smaller { IfSome result (λ t. IfSome t.selector (λ s. selector_size (selector_of s.now)
        < segments_size (segment_trees (map segment_of segments.now)))) }
    ensures there { IfSome result (λ t. IfNone t.selector (t.done < length segments.now)) }
    ensures more { OnSome result (number < usize.MAX) }
{
    let segment = segments.get(done)?;
    match segment.selectors.get(number) {
        Some(selector) => Some(Turn {
            selector: Some(selector),
            done: done + 1,
        }),
        None => {
            if segment.descendant && number == segment.selectors.len() {
                return Some(Turn {
                    selector: None,
                    done,
                });
            }
            None
        }
    }
}

impl<'q, 'd, V: Selectable + 'd> Offer<'q, 'd, V> {
    /// Whether the test is passed; without one it is.
    #[cycle(filter)]
    #[inline(always)]
    pub(crate) fn passes<M: Matching>(
        &self,
        evaluation: &Evaluation<'q, V, M>,
        work: &mut Work,
    ) -> Result<bool, EvaluationFault>
    where
        'd: 'q,
        ensures gives { IfOk result (λ answer. answer
            ≡ passes (option_map (λ e. expr_of e.now) self.now.test)
            (V.meaning evaluation.now.root) (root_of (V.meaning self.now.reached.value))) }
        ensures takes { Takes work.old.steps work.new.steps }
        ensures stopped { StopsSpent result work.new.steps }
    {
        let Some(expr) = self.test else {
            return Ok(true);
        };
        let asking = Asking {
            evaluation,
            current: self.reached.value,
        };
        asking.holds(work, expr)
    }
}

impl<'q> Turn<'q> {
    /// The value at this position among those that it chooses from.
    #[inline(always)]
    fn choice<'d, V: Selectable + 'd>(self, value: V, position: usize) -> Option<(Step<'d>, V)>
        ensures entry { option_map (step_with V.meaning) result
            ≡ slice_get (candidates (turn_selector self.entry) (V.meaning value)) position }
        ensures more { OnSome result (position < usize.MAX) }
    {
        match self.selector {
            Some(selector) => candidate(selector, value, position),
            None => value.child(position),
        }
    }

    /// The value of that choice where a wildcard or a slice chooses, None for other selectors and on the way down.
    #[inline(always)]
    fn listed<'d, V: Selectable + 'd>(self, value: V, position: usize) -> Option<V>
        ensures gives { IfSome result (λ v. Some (V.meaning v) ≡ option_map entry_value
            (slice_get (candidates (turn_selector self.entry) (V.meaning value)) position)) }
        ensures untested { OnSome result (test_of (turn_selector self.entry) ≡ None) }
        ensures more { OnSome result (position < usize.MAX) }
    {
        match self.selector? {
            Selector::Wildcard => value.child_value(position),
            Selector::Slice(slice) => value.child_value(slice_place(value, *slice, position)?),
            Selector::Name(_) | Selector::Index(_) | Selector::Filter(_) => None,
        }
    }

    /// What is asked of its choices.
    #[inline(always)]
    fn test(self) -> Option<&'q Expr>
        ensures test { option_map (λ e. expr_of e.now) result ≡ test_of (turn_selector self.entry) }
        ensures smaller { IfSome result (λ e. IfSome self.entry.selector (λ s.
            expr_size (expr_of e.now) < selector_size (selector_of s.now))) }
    {
        match self.selector? {
            Selector::Filter(expr) => Some(expr),
            Selector::Name(_) | Selector::Wildcard | Selector::Index(_) | Selector::Slice(_) =>
                None,
        }
    }
}
