//! The truth of the expressions of filters (RFC 9535 section 2.3.5.2).

ghost use Rattle.jp_evaluate.specs.Stopping.{StopsSpent};
ghost use Rattle.jp_select.specs.Steps.{Takes};
ghost use Rattle.std.specs.Prelude.{◌≡◌, ◌⊎◌, IfOk, None, Some, map, true};
ghost use Rattle.jp_document.specs.Value.{whole};
ghost use Rattle.jp_tree.specs.declared.tree.Op.TheVariants.{Greater, Less};
ghost use Rattle.jp_tree.specs.Tree.{exprs, node_value};
ghost use Rattle.jp_tree.specs.Views.{expr_of, operand_of, query_of};
ghost use Rattle.jp_select.specs.Comparable.{comparable_of};
ghost use Rattle.jp_select.specs.Comparison.{compared};
ghost use Rattle.jp_evaluate.specs.Nodelist.{all_hold, any_holds, has_node, holds, nodelist_at};
ghost use Rattle.jp_evaluate.specs.Nodelist.{operand_value};
ghost use Rattle.jp_evaluate.specs.Private.Asked.{asked};

use crate::calls::call_query;
use crate::evaluating::{Evaluation, Work};
use crate::evaluation_fault::EvaluationFault;
use crate::operand::literal_value;
use crate::tally::tally;
use crate::walk::Walk;
use jp_lent::{Lent, Selectable};
use jp_match::Matching;
use jp_select::{Comparable, compare, compare_lent, compare_to_whole};
use jp_tree::{Expr, Literal, Numeral, Op, Operand, Query, Subject};

/// What stays the same while an expression is evaluated: what the evaluation goes by, and the value
/// of the current node, `@`.
#[derive(Drop)]
pub(crate) struct Asking<'a, 'q, V, M> {
    pub(crate) evaluation: &'a Evaluation<'q, V, M>,
    pub(crate) current: V,
}

impl<'a, 'q, V: Selectable + 'q, M: Matching> Asking<'a, 'q, V, M> {
    /// Whether an expression is true.
    #[cycle(filter)]
    pub(crate) fn holds(&self, work: &mut Work, expr: &'q Expr) -> Result<bool, EvaluationFault>
        ensures gives { IfOk result (λ answer. answer ≡ asked V.meaning self.now (holds (expr_of expr.now))) }
        ensures takes { Takes work.old.steps work.new.steps }
        ensures stopped { StopsSpent result work.new.steps }
    {
        match expr {
            Expr::AnyOf(parts) => self.any_holds(work, parts),
            Expr::AllOf(parts) => self.all_hold(work, parts),
            Expr::Not(part) => Ok(!self.holds(work, part)?),
            Expr::Compare { left, op, right } => match (left, right) {
                (Operand::Query(left), Operand::Query(right)) => {
                    self.nodes_compare(work, left, *op, right)
                }
                (Operand::Query(left), Operand::Literal(Literal::Number(Numeral::Whole(right)))) =>
                    { self.node_compares(work, left, *op, *right) }
                _ => {
                    let left = self.operand_value(work, left)?;
                    if is_never(*op, &left) {
                        return Ok(false);
                    }
                    let right = self.operand_value(work, right)?;
                    Ok(compare(*op, left, right, &mut work.steps)?)
                }
            },
            Expr::Test(Subject::Query(query)) => self.selects_some(work, query),
            Expr::Test(Subject::Call(call)) => match call_query(call) {
                Some(nodes) => self.selects_some(work, nodes.query),
                None => self.call_holds(work, call),
            },
        }
    }

    /// Whether one of the expressions is true; those after it are not asked.
    #[cycle(filter)]
    fn any_holds(&self, work: &mut Work, parts: &'q [Expr]) -> Result<bool, EvaluationFault>
        ensures gives { IfOk result
            (λ answer. answer ≡ asked V.meaning self.now (any_holds (exprs (map expr_of parts.now)))) }
        ensures takes { Takes work.old.steps work.new.steps }
        ensures stopped { StopsSpent result work.new.steps }
    {
        for part in parts {
            if self.holds(work, part)? {
                return Ok(true);
            }
        }
        Ok(false)
    }

    /// Whether all of the expressions are true; those after one that is not are not asked.
    #[cycle(filter)]
    fn all_hold(&self, work: &mut Work, parts: &'q [Expr]) -> Result<bool, EvaluationFault>
        ensures gives { IfOk result
            (λ answer. answer ≡ asked V.meaning self.now (all_hold (exprs (map expr_of parts.now)))) }
        ensures takes { Takes work.old.steps work.new.steps }
        ensures stopped { StopsSpent result work.new.steps }
    {
        for part in parts {
            if !self.holds(work, part)? {
                return Ok(false);
            }
        }
        Ok(true)
    }

    /// Whether a query selects a node; the walk ends at the first.
    #[cycle(filter)]
    pub(crate) fn selects_some(
        &self,
        work: &mut Work,
        query: &'q Query,
    ) -> Result<bool, EvaluationFault>
        ensures gives { IfOk result
            (λ answer. answer ≡ has_node (asked V.meaning self.now (nodelist_at (query_of query.now)))) }
        ensures takes { Takes work.old.steps work.new.steps }
        ensures stopped { StopsSpent result work.new.steps }
    {
        if self.evaluation.may_meet(&query.segments) {
            let start = self.start(query);
            let tallied = tally(self.evaluation, work, &query.segments, start, 0)?;
            return Ok(tallied.count > 0);
        }
        let mut walk = Walk::from(self.evaluation.alloc, self.start(query));
        let first = walk.advance(self.evaluation, work, &query.segments)?;
        Ok(first.is_some())
    }

    /// Whether a comparison is true of what two singular queries select. What they select does not go to
    /// memory for it.
    #[inline(always)]
    fn nodes_compare(
        &self,
        work: &mut Work,
        left: &'q Query,
        op: Op,
        right: &'q Query,
    ) -> Result<bool, EvaluationFault>
        ensures gives { IfOk result (λ answer. answer ≡ compared op
            (asked V.meaning self.now (operand_value (node_value (query_of left.now))))
            (asked V.meaning self.now (operand_value (node_value (query_of right.now))))) }
        ensures takes { Takes work.old.steps work.new.steps }
        ensures stopped { StopsSpent result work.new.steps }
    {
        work.steps.take_many(left.segments.len() as u64)?;
        let left = self.node_value(left);
        if is_never(op, &Comparable::of(left)) {
            return Ok(false);
        }
        work.steps.take_many(right.segments.len() as u64)?;
        let right = self.node_value(right);
        Ok(compare_lent(op, left, right, &mut work.steps)?)
    }

    /// Whether a comparison is true of what a singular query selects and a whole number. What it selects
    /// does not go to memory for it.
    #[inline(always)]
    fn node_compares(
        &self,
        work: &mut Work,
        left: &'q Query,
        op: Op,
        right: i128,
    ) -> Result<bool, EvaluationFault>
        ensures gives { IfOk result (λ answer. answer ≡ compared op
            (asked V.meaning self.now (operand_value (node_value (query_of left.now))))
            (Some (whole right))) }
        ensures takes { Takes work.old.steps work.new.steps }
        ensures stopped { StopsSpent result work.new.steps }
    {
        work.steps.take_many(left.segments.len() as u64)?;
        let left = self.node_value(left);
        if is_never(op, &Comparable::of(left)) {
            return Ok(false);
        }
        Ok(compare_to_whole(op, left, right, &mut work.steps)?)
    }

    /// The value of a side of a comparison (RFC 9535 section 2.3.5.2.2): of a literal, of the node
    /// that a singular query selects, or what a function answers; Nothing where there is none. It
    /// copies nothing.
    #[cycle(filter)]
    fn operand_value(
        &self,
        work: &mut Work,
        operand: &'q Operand,
    ) -> Result<Comparable<'q, V>, EvaluationFault>
        ensures gives { IfOk result (λ value. comparable_of V.meaning value
            ≡ asked V.meaning self.now (operand_value (operand_of operand.now))) }
        ensures takes { Takes work.old.steps work.new.steps }
        ensures stopped { StopsSpent result work.new.steps }
    {
        match operand {
            Operand::Literal(literal) => Ok(literal_value(literal)),
            Operand::Query(query) => {
                work.steps.take_many(query.segments.len() as u64)?;
                Ok(Comparable::of(self.node_value(query)))
            }
            Operand::Call(call) => self.call_value(work, call),
        }
    }
}

/// Whether a comparison is false whatever stands on its right: Nothing is neither less nor greater
/// (RFC 9535 section 2.3.5.2.2).
fn is_never<V: Lent>(op: Op, left: &Comparable<'_, V>) -> bool
    ensures nothing { result ≡ true → comparable_of V.meaning left.now ≡ None }
    ensures order { result ≡ true → (op ≡ Less) ⊎ (op ≡ Greater) }
{
    match (left, op) {
        (Comparable::Nothing, Op::Less | Op::Greater) => true,
        _ => false,
    }
}
