//! Queries whose filters have answers in the places of absolute queries, which give the same at each
//! value that is tested (RFC 9535 sections 2.2.2 and 2.3.5). Those that name a location stay: to
//! follow one is as cheap as to look an answer up.

ghost use Rattle.std.specs.Prelude.{◌≡◌, IfOk, map};
ghost use Rattle.jp_tree.specs.Tree.{segments as segment_trees, selectors as selector_trees};
ghost use Rattle.jp_tree.specs.Views.{query_of, segment_of, selector_of};
ghost use Rattle.jp_select.specs.Steps.{Takes};
ghost use Rattle.jp_evaluate.specs.Stopping.{StopsSpent};
ghost use Rattle.jp_evaluate.specs.Private.Settled.{settled_query, settled_segment, settled_segments};
ghost use Rattle.jp_evaluate.specs.Private.Settled.{settled_selector, settled_selectors};

mod answers;
mod calls;
mod copies;
mod expressions;

use crate::evaluating::{Evaluation, Work};
use crate::evaluation_fault::EvaluationFault;
use jp_lent::Selectable;
use jp_match::Matching;
use jp_tree::{Query, Segment, Selector};

impl<'q, V: Selectable + 'q, M: Matching> Evaluation<'q, V, M> {
    /// The query with the answers in the places of absolute queries of its filters; it is itself not
    /// asked.
    #[cycle(settled)]
    pub(crate) fn settled_query(
        &self,
        work: &mut Work,
        query: &Query,
    ) -> Result<Query, EvaluationFault>
        ensures gives { IfOk result (λ q. query_of q
            ≡ settled_query (V.meaning self.now.root) (query_of query.now)) }
        ensures takes { Takes work.old.steps work.new.steps }
        ensures stopped { StopsSpent result work.new.steps }
    {
        Ok(Query {
            absolute: query.absolute,
            segments: self.settled_segments(work, &query.segments)?,
        })
    }

    /// The segments of a query with the answers in the filters among their selectors, in their order.
    #[cycle(settled)]
    fn settled_segments(
        &self,
        work: &mut Work,
        segments: &[Segment],
    ) -> Result<Vec<Segment>, EvaluationFault>
        ensures gives { IfOk result (λ v. segment_trees (map segment_of v.items)
            ≡ settled_segments (V.meaning self.now.root) (segment_trees (map segment_of segments.now))) }
        ensures takes { Takes work.old.steps work.new.steps }
        ensures stopped { StopsSpent result work.new.steps }
    {
        let mut settled = Vec::with_capacity(self.alloc, segments.len())?;
        for segment in segments {
            settled.push(self.settled_segment(work, segment)?)?;
        }
        Ok(settled)
    }

    /// A segment with the answers in the filters among its selectors.
    #[cycle(settled)]
    fn settled_segment(
        &self,
        work: &mut Work,
        segment: &Segment,
    ) -> Result<Segment, EvaluationFault>
        ensures gives { IfOk result (λ s. segment_of s
            ≡ settled_segment (V.meaning self.now.root) (segment_of segment.now)) }
        ensures takes { Takes work.old.steps work.new.steps }
        ensures stopped { StopsSpent result work.new.steps }
    {
        Ok(Segment {
            descendant: segment.descendant,
            selectors: self.settled_selectors(work, &segment.selectors)?,
        })
    }

    /// The selectors of a segment with the answers in the filters among them, in their order.
    #[cycle(settled)]
    fn settled_selectors(
        &self,
        work: &mut Work,
        selectors: &[Selector],
    ) -> Result<Vec<Selector>, EvaluationFault>
        ensures gives { IfOk result (λ v. selector_trees (map selector_of v.items)
            ≡ settled_selectors (V.meaning self.now.root) (selector_trees (map selector_of selectors.now))) }
        ensures takes { Takes work.old.steps work.new.steps }
        ensures stopped { StopsSpent result work.new.steps }
    {
        let mut settled = Vec::with_capacity(self.alloc, selectors.len())?;
        for selector in selectors {
            settled.push(self.settled_selector(work, selector)?)?;
        }
        Ok(settled)
    }

    /// A copy of a selector, of a filter with the answers in its expression.
    #[cycle(settled)]
    fn settled_selector(
        &self,
        work: &mut Work,
        selector: &Selector,
    ) -> Result<Selector, EvaluationFault>
        ensures gives { IfOk result (λ s. selector_of s
            ≡ settled_selector (V.meaning self.now.root) (selector_of selector.now)) }
        ensures takes { Takes work.old.steps work.new.steps }
        ensures stopped { StopsSpent result work.new.steps }
    {
        match selector {
            Selector::Name(name) => Ok(Selector::Name(String::from_str(
                self.alloc,
                name.as_str(),
            )?)),
            Selector::Wildcard => Ok(Selector::Wildcard),
            Selector::Index(index) => Ok(Selector::Index(*index)),
            Selector::Slice(slice) => Ok(Selector::Slice(*slice)),
            Selector::Filter(expr) => Ok(Selector::Filter(self.settled_expr(work, expr)?)),
        }
    }
}
