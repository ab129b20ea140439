//! The nodes of a query inside an expression, one by one, each once where that is asked.

ghost use Rattle.jp_evaluate.specs.Stopping.{StopsSpent};
ghost use Rattle.jp_select.specs.Steps.{Counts, Takes};
ghost use Rattle.std.specs.Prelude.{◌≡◌, ◌∷◌, [], IfOk, MatchOption, OnOk, OnSome, Some};
ghost use Rattle.jp_tree.specs.declared.tree.Query.{out-Query};
ghost use Rattle.jp_evaluate.specs.Private.Compared.{location_steps};
ghost use Rattle.jp_evaluate.specs.Private.Selecting.{IsFresh, TellsNew, to_come};
ghost use Rattle.jp_evaluate.specs.Private.Walk.{reached_node, walk_frames};

use crate::compared::take_location;
use crate::evaluating::{Evaluation, Work};
use crate::evaluation_fault::EvaluationFault;
use crate::location_set::LocationSet;
use crate::walk::{Reached, Walk};
use jp_lent::Selectable;
use jp_match::Matching;
use jp_select::Steps;
use jp_tree::{Query, Segment};
use std::alloc::Global;

/// A query, and whether each of its nodes counts once.
#[derive(Clone, Copy)]
pub(crate) struct NodesQuery<'q> {
    pub(crate) query: &'q Query,
    pub(crate) distinct: bool,
}

/// The nodes of a query that are still to come. It keeps the locations of those that came where each
/// counts once, and else none.
#[derive(Drop)]
pub(crate) struct Selecting<'q, V> {
    segments: &'q [Segment],
    pub(crate) walk: Walk<'q, V>,
    seen: Option<LocationSet<'q>>,
}

impl<'q, V: Selectable + 'q> Selecting<'q, V> {
    /// The nodes of a query that begins at this value.
    pub(crate) fn from(alloc: Global, nodes: NodesQuery<'q>, start: V) -> Selecting<'q, V>
        ensures segments { result.segments.now ≡ (out-Query nodes.entry.query.now).segments.items }
        ensures first { result.walk.first ≡ Some start }
        ensures frames { walk_frames result.walk ≡ [] }
        ensures seen { IsFresh nodes.entry.distinct result.seen }
    {
        Selecting {
            segments: &nodes.query.segments,
            walk: Walk::from(alloc, start),
            seen: if nodes.distinct {
                Some(LocationSet::new(alloc))
            } else {
                None
            },
        }
    }

    /// The next node that counts, None at the end. After an error nothing is said of what is left.
    #[cycle(filter)]
    #[inline(always)]
    pub(crate) fn next<M: Matching>(
        &mut self,
        evaluation: &Evaluation<'q, V, M>,
        work: &mut Work,
    ) -> Result<Option<Reached<'q, V>>, EvaluationFault>
        ensures segments { self.new.segments ≡ self.old.segments }
        ensures gives { IfOk result (λ o. let left = to_come V.meaning (V.meaning evaluation.now.root)
            in MatchOption o ((left self.old ≡ []) × (left self.new ≡ []))
            (λ p. left self.old ≡ reached_node V.meaning self.new.walk p ∷ left self.new)) }
        ensures takes { Takes work.old.steps work.new.steps }
        ensures stopped { StopsSpent result work.new.steps }
    {
        while let Some(reached) = self.walk.advance(evaluation, work, self.segments)? {
            if self.is_new(evaluation.alloc, &mut work.steps, &reached)? {
                return Ok(Some(reached));
            }
        }
        Ok(None)
    }

    /// Whether a node counts, which the walk has reached: it did not come before, or each counts. Its
    /// location is compared with those of others, and takes steps by its length and those of its names.
    #[inline(always)]
    fn is_new(
        &mut self,
        alloc: Global,
        steps: &mut Steps,
        reached: &Reached<'q, V>,
    ) -> Result<bool, EvaluationFault>
        ensures walk { self.new.walk ≡ self.old.walk }
        ensures segments { self.new.segments ≡ self.old.segments }
        ensures new { IfOk result (λ new. TellsNew self.old.seen
            (reached_node V.meaning self.old.walk reached.now) new self.new.seen) }
        ensures takes { Takes steps.old steps.new }
        ensures stopped { StopsSpent result steps.new }
        ensures counts { OnOk result (OnSome self.old.seen (Counts (location_steps
            (reached_node V.meaning self.old.walk reached.now).location) steps.old steps.new)) }
    {
        match &mut self.seen {
            Some(seen) => {
                let location = self.walk.location_at(alloc, reached)?;
                take_location(&location, steps)?;
                Ok(seen.insert(alloc, &location)?)
            }
            None => Ok(true),
        }
    }
}
