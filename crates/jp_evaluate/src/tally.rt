//! The number of nodes that segments reach from a value, told without a walk to each: a value of
//! the document to which several ways lead is taken once, with how many they are (RFC 9535 section
//! 2.1.2). It keeps the values from which it has to go on, and no list of nodes.

ghost use Rattle.std.specs.Prelude.{◌≡◌, ◌↔◌, ◌≤◌, ◌<◌, ◌+◌, ◌*◌, ℕ, [], ◌∷◌, IfOk, IfSome, IsTrue, OnOk, length};
ghost use Rattle.std.specs.Prelude.{option_map, slice_index_or, sum_by, Some, map};
ghost use Rattle.std.specs.Option.{option_map_or};
ghost use Rattle.jp_document.specs.Location.{child, entries, step_of};
ghost use Rattle.jp_document.specs.Node.{root_of};
ghost use Rattle.jp_document.specs.Value.{Value};
ghost use Rattle.jp_select.specs.Steps.{Counts as CountsSteps, Takes};
ghost use Rattle.jp_evaluate.specs.Stopping.{StopsSpent};
ghost use Rattle.jp_evaluate.specs.Private.Compared.{name_steps};
ghost use Rattle.jp_evaluate.specs.Private.Tally.{AreByDone, AreInside, ByStep, Counts, CountsEach, IsByDone, Tells, all_ways, capped, children_sum, ended};
ghost use Rattle.jp_evaluate.specs.Private.Tally.{first_sum, inside, node_sum, places_sum};
ghost use Rattle.jp_evaluate.specs.Private.Tally.{reached_sum, spread_sum, spread_weight, way_weight};
ghost use Rattle.jp_evaluate.specs.Private.Tally.{way_cost, ways_sum};
ghost use Rattle.jp_evaluate.specs.Private.Walk.{reaches, segments_left};
ghost use Rattle.jp_evaluate.specs.declared.tally.Way.{Way};

use crate::compared::name_steps;
use crate::evaluating::{Evaluation, Work};
use crate::evaluation_fault::EvaluationFault;
use crate::walk::{Frame, Reached, frame_offer, turn_count};
use jp_document::Step;
use jp_lent::Selectable;
use jp_match::Matching;
use jp_select::Steps;
use jp_tree::Segment;
use std::alloc::{AllocError, Global};
use std::collections::BTreeMap;

/// How many ways the first `done` segments lead to a value; 2^64-1 where there are more.
#[derive(Clone, Copy)]
struct Way {
    done: usize,
    count: u64,
}

/// The ways that lead to a value, some of each number of segments. The first stand apart, so that a
/// value which no others lead to takes no memory.
#[derive(Drop)]
struct Ways {
    first: Way,
    more: Vec<Way>,
}

/// The values one step inside a value to which ways lead, by their steps.
type Children<'d, V> = BTreeMap<Step<'d>, Place<V>>;

/// A value to go on from.
#[derive(Drop)]
struct Place<V> {
    value: V,
    ways: Ways,
}

impl<V: Selectable> Place<V> {
    /// Whether there is nothing inside its value, so that no segment chooses anything there.
    fn is_leaf(&self) -> bool
        ensures { IsTrue result ↔ (length (entries (V.meaning self.now.value)) ≡ 0) }
    {
        self.value.count() == 0
    }
}

/// The nodes that were reached: how many, 2^64-1 where there are more, and the value of the first.
#[derive(Clone, Copy)]
pub(crate) struct Tallied<V> {
    pub(crate) count: u64,
    pub(crate) first: Option<V>,
}

impl<V: Selectable> Tallied<V> {
    /// Counts so many nodes of a value.
    fn add(&mut self, value: V, count: u64)
        ensures count { self.new.count ≡ capped (self.old.count + count) }
        ensures first { (f : Value → ℕ) → self.new.count ≤ 1 → first_sum V.meaning f self.new
            ≡ first_sum V.meaning f self.old + count * f (V.meaning value) }
    {
        if self.count == 0 && count > 0 {
            self.first = Some(value);
        }
        self.count = self.count.saturating_add(count);
    }
}

/// The nodes that segments reach from a value; it ends where they are more than `most`.
#[cycle(filter)]
pub(crate) fn tally<'q, V: Selectable + 'q, M: Matching>(
    evaluation: &Evaluation<'q, V, M>,
    work: &mut Work,
    segments: &'q [Segment],
    start: V,
    most: u64,
) -> Result<Tallied<V>, EvaluationFault>
    ensures tells { IfOk result (λ t. Tells most t.count (length
        (reaches (segments_left segments.now 0) (V.meaning evaluation.now.root) (root_of (V.meaning start))))) }
    ensures first { IfOk result (λ t. t.count ≤ most → t.count ≤ 1 → (f : Value → ℕ)
        → capped (first_sum V.meaning f t) ≡ capped (node_sum f
        (reaches (segments_left segments.now 0) (V.meaning evaluation.now.root) (root_of (V.meaning start))))) }
    ensures takes { Takes work.old.steps work.new.steps }
    ensures stopped { StopsSpent result work.new.steps }
{
    let mut tallied = Tallied {
        count: 0,
        first: None,
    };
    work.steps.take()?;
    let mut places = begun(evaluation.alloc, start)?;
    while let Some(place) = places.pop() {
        tallied.add(place.value, place.ways.ended(segments.len()));
        if tallied.count > most {
            return Ok(tallied);
        }
        let children = ways_inside(evaluation, work, segments, &place)?;
        push_children(&mut places, children)?;
    }
    work.steps.take()?;
    Ok(tallied)
}

/// The place where segments begin.
fn begun<V: Selectable>(alloc: Global, start: V) -> Result<Vec<Place<V>>, AllocError>
    ensures { IfOk result (λ places. (h : Value → Way → ℕ) → places_sum V.meaning h places.items
        ≡ h (V.meaning start) (record { done = 0; count = 1 })) }
{
    let mut places = Vec::new(alloc);
    places.push(Place {
        value: start,
        ways: Ways::from(alloc, Way { done: 0, count: 1 }),
    })?;
    Ok(places)
}

/// The values one step inside a place to which the segments go on.
#[cycle(filter)]
fn ways_inside<'q, V: Selectable + 'q, M: Matching>(
    evaluation: &Evaluation<'q, V, M>,
    work: &mut Work,
    segments: &'q [Segment],
    place: &Place<V>,
) -> Result<Children<'q, V>, EvaluationFault>
    ensures sums { IfOk result (λ children. (f : Value → ℕ) →
        let d = V.meaning evaluation.now.root in let v = V.meaning place.now.value in
        capped (children_sum (inside v (reached_sum f segments.now d)) children)
        ≡ capped (ways_sum (spread_sum f segments.now d v) place.now.ways)) }
    ensures fewer { IfOk result (λ children. let v = V.meaning place.now.value in
        children_sum (inside v (way_weight segments.now)) children
        ≤ ways_sum (λ w. spread_weight segments.now v w.done) place.now.ways) }
    ensures inside { IfOk result (AreInside V.meaning (V.meaning place.now.value)) }
    ensures takes { Takes work.old.steps work.new.steps }
    ensures stopped { StopsSpent result work.new.steps }
{
    let mut children = BTreeMap::new(evaluation.alloc);
    if place.is_leaf() {
        return Ok(children);
    }
    spread(
        evaluation,
        work,
        segments,
        place.value,
        place.ways.first,
        &mut children,
    )?;
    for way in &place.ways.more {
        spread(evaluation, work, segments, place.value, *way, &mut children)?;
    }
    Ok(children)
}

/// Adds the ways by which the next segment goes on from a value.
#[cycle(filter)]
fn spread<'q, V: Selectable + 'q, M: Matching>(
    evaluation: &Evaluation<'q, V, M>,
    work: &mut Work,
    segments: &'q [Segment],
    value: V,
    way: Way,
    children: &mut Children<'q, V>,
) -> Result<(), EvaluationFault>
    ensures sums { OnOk result ((f : Value → ℕ) → let d = V.meaning evaluation.now.root in
        let h = inside (V.meaning value) (reached_sum f segments.now d) in
        capped (children_sum h children.new)
        ≡ capped (children_sum h children.old + spread_sum f segments.now d (V.meaning value) way)) }
    ensures fewer { OnOk result (let h = inside (V.meaning value) (way_weight segments.now) in
        children_sum h children.new
        ≤ children_sum h children.old + spread_weight segments.now (V.meaning value) way.done) }
    ensures inside { OnOk result (AreInside V.meaning (V.meaning value) children.old
        → AreInside V.meaning (V.meaning value) children.new) }
    ensures takes { Takes work.old.steps work.new.steps }
    ensures stopped { StopsSpent result work.new.steps }
    ensures counts { OnOk result (CountsSteps (way_cost segments.now (V.meaning value) way.done)
        work.old.steps work.new.steps) }
{
    work.steps.take_many(turn_count(segments, way.done))?;
    let mut frame = Frame::at(way.done, value);
    while let Some(offer) = frame_offer(segments, &mut frame, &mut work.steps)? {
        work.steps.take()?;
        if offer.passes(evaluation, work)? {
            let way = Way {
                done: offer.reached.done,
                count: way.count,
            };
            add(
                evaluation.alloc,
                &mut work.steps,
                children,
                offer.reached,
                way,
            )?;
        }
    }
    Ok(())
}

/// Adds ways that lead to a value one step inside. Its name is compared with those of others, and takes
/// steps by its length.
fn add<'d, V: Selectable + 'd>(
    alloc: Global,
    steps: &mut Steps,
    children: &mut Children<'d, V>,
    reached: Reached<'d, V>,
    way: Way,
) -> Result<(), EvaluationFault>
    ensures inside { OnOk result ((v : Value)
        → IfSome reached.entry.step (λ s. child v (step_of s) ≡ Some (V.meaning reached.entry.value))
        → AreInside V.meaning v children.old → AreInside V.meaning v children.new) }
    ensures sums { OnOk result ((h : ByStep) → CountsEach h → capped (children_sum h children.new)
        ≡ capped (children_sum h children.old + option_map_or (λ s. h (step_of s) way) reached.entry.step 0)) }
    ensures fewer { OnOk result ((h : ByStep) → AreByDone h → children_sum h children.new
        ≤ children_sum h children.old + option_map_or (λ s. h (step_of s) way) reached.entry.step 0) }
    ensures takes { Takes steps.old steps.new }
    ensures stopped { StopsSpent result steps.new }
    ensures counts { OnOk result (IfSome reached.entry.step
        (λ s. CountsSteps (name_steps (step_of s)) steps.old steps.new)) }
{
    let Some(step) = reached.step else {
        return Ok(());
    };
    steps.take_many(name_steps(step))?;
    let value = reached.value;
    let ways = joined(alloc, children.remove(&step), way)?;
    children.insert(step, Place { value, ways })?;
    Ok(())
}

/// Ways beside those that are there.
fn joined<V: Selectable>(
    alloc: Global,
    there: Option<Place<V>>,
    way: Way,
) -> Result<Ways, AllocError>
    ensures sums { IfOk result (λ ways. (h : Way → ℕ) → Counts h
        → capped (ways_sum h ways) ≡ capped (option_map_or (λ p. ways_sum h p.ways) there 0 + h way)) }
    ensures fewer { IfOk result (λ ways. (h : Way → ℕ) → IsByDone h
        → ways_sum h ways ≤ option_map_or (λ p. ways_sum h p.ways) there 0 + h way) }
{
    match there {
        Some(place) => place.ways.with(way),
        None => Ok(Ways::from(alloc, way)),
    }
}

/// Goes on from the values one step inside, from the first of them on.
fn push_children<'d, V: Selectable + 'd>(
    places: &mut Vec<Place<V>>,
    children: Children<'d, V>,
) -> Result<(), AllocError>
    ensures { OnOk result ((v : Value) (h : Value → Way → ℕ) → AreInside V.meaning v children.entry
        → places_sum V.meaning h places.new.items
        ≡ places_sum V.meaning h places.old.items + children_sum (inside v h) children.entry) }
{
    let mut children = children;
    while let Some((_, place)) = children.pop_last() {
        places.push(place)?;
    }
    Ok(())
}

impl Ways {
    /// These ways and no others. It takes no memory.
    fn from(alloc: Global, way: Way) -> Ways
        ensures { all_ways result ≡ way ∷ [] }
    {
        Ways {
            first: way,
            more: Vec::new(alloc),
        }
    }

    /// These and others.
    fn with(self, way: Way) -> Result<Ways, AllocError>
        ensures sums { IfOk result (λ ways. (h : Way → ℕ) → Counts h
            → capped (ways_sum h ways) ≡ capped (ways_sum h self + h way)) }
        ensures fewer { IfOk result (λ ways. (h : Way → ℕ) → IsByDone h
            → ways_sum h ways ≤ ways_sum h self + h way) }
    {
        let mut ways = self;
        if ways.first.done == way.done {
            ways.first.count = ways.first.count.saturating_add(way.count);
            return Ok(ways);
        }
        add_way(&mut ways.more, way)?;
        Ok(ways)
    }

    /// How many of them are by all of so many segments; 2^64-1 where there are more.
    fn ended(&self, segments: usize) -> u64
        ensures { (n : ℕ) → capped (result * n) ≡ capped (ways_sum (λ w. ended segments w * n) self.now) }
    {
        let mut count = self.first.ended(segments);
        for way in &self.more {
            count = count.saturating_add(way.ended(segments));
        }
        count
    }
}

impl Way {
    /// How many of them are by all of so many segments: all, or none where they are by fewer.
    fn ended(self, segments: usize) -> u64
        ensures { result ≡ ended segments self }
    {
        if self.done >= segments { self.count } else { 0 }
    }
}

/// Adds ways to others, those by as many segments together.
fn add_way(ways: &mut Vec<Way>, way: Way) -> Result<(), AllocError>
    ensures sums { OnOk result ((h : Way → ℕ) → Counts h
        → capped (sum_by h ways.new.items) ≡ capped (sum_by h ways.old.items + h way)) }
    ensures fewer { OnOk result ((h : Way → ℕ) → IsByDone h
        → sum_by h ways.new.items ≤ sum_by h ways.old.items + h way) }
{
    match last_of(ways, way.done) {
        Some(index) => {
            let count = ways[index].count.saturating_add(way.count);
            ways[index] = Way {
                done: way.done,
                count,
            };
            Ok(())
        }
        None => {
            ways.push(way)?;
            Ok(())
        }
    }
}

/// Where the ways by so many segments stand. They mostly come last.
fn last_of(ways: &[Way], done: usize) -> Option<usize>
    ensures within { IfSome result (λ i. i < length ways.now) }
    ensures done { IfSome result (λ i. (w : Way) → (slice_index_or ways.now i w).done ≡ done) }
{
    let mut left = ways.len();
    while left > 0 {
        left -= 1;
        if ways[left].done == done {
            return Some(left);
        }
    }
    None
}
