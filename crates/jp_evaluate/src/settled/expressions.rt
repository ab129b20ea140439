//! Expressions of filters with answers in the places of absolute queries (RFC 9535 section 2.3.5.1).

ghost use Rattle.std.specs.Prelude.{◌≡◌, IfOk, map};
ghost use Rattle.jp_tree.specs.Tree.{exprs};
ghost use Rattle.jp_tree.specs.Views.{expr_of, operand_of};
ghost use Rattle.jp_select.specs.Steps.{Takes};
ghost use Rattle.jp_evaluate.specs.Stopping.{StopsSpent};
ghost use Rattle.jp_evaluate.specs.Private.Settled.{settled_expr, settled_exprs, settled_operand};

use crate::evaluating::{Evaluation, Work};
use crate::evaluation_fault::EvaluationFault;
use crate::settled::copies::copied_literal;
use jp_lent::Selectable;
use jp_match::Matching;
use jp_tree::{Expr, Operand, Subject};

impl<'q, V: Selectable + 'q, M: Matching> Evaluation<'q, V, M> {
    /// An expression that is true of the same values.
    #[cycle(settled)]
    pub(crate) fn settled_expr(&self, work: &mut Work, expr: &Expr) -> Result<Expr, EvaluationFault>
        ensures gives { IfOk result (λ e. expr_of e
            ≡ settled_expr (V.meaning self.now.root) (expr_of expr.now)) }
        ensures takes { Takes work.old.steps work.new.steps }
        ensures stopped { StopsSpent result work.new.steps }
    {
        match expr {
            Expr::AnyOf(parts) => Ok(Expr::AnyOf(self.settled_parts(work, parts)?)),
            Expr::AllOf(parts) => Ok(Expr::AllOf(self.settled_parts(work, parts)?)),
            Expr::Not(part) => Ok(Expr::Not(Box::new(self.alloc, self.settled_expr(work, part)?)?)),
            Expr::Compare { left, op, right } => Ok(Expr::Compare {
                left: self.settled_operand(work, left)?,
                op: *op,
                right: self.settled_operand(work, right)?,
            }),
            Expr::Test(Subject::Query(query)) => {
                let query = self.settled_query(work, query)?;
                self.settled_test(work, Subject::Query(query))
            }
            Expr::Test(Subject::Call(call)) => {
                let call = self.settled_call(work, call)?;
                self.settled_test(work, Subject::Call(call))
            }
        }
    }

    /// The parts of an expression, each true of the values that it was true of, in their order.
    #[cycle(settled)]
    fn settled_parts(&self, work: &mut Work, parts: &[Expr]) -> Result<Vec<Expr>, EvaluationFault>
        ensures gives { IfOk result (λ v. exprs (map expr_of v.items)
            ≡ settled_exprs (V.meaning self.now.root) (exprs (map expr_of parts.now))) }
        ensures takes { Takes work.old.steps work.new.steps }
        ensures stopped { StopsSpent result work.new.steps }
    {
        let mut settled = Vec::with_capacity(self.alloc, parts.len())?;
        for part in parts {
            settled.push(self.settled_expr(work, part)?)?;
        }
        Ok(settled)
    }

    /// A side of a comparison with the answers in its query or call. A call of `count` whose query
    /// is asked once (`is_asked_once`) gives way to the number that it answers.
    #[cycle(settled)]
    fn settled_operand(
        &self,
        work: &mut Work,
        operand: &Operand,
    ) -> Result<Operand, EvaluationFault>
        ensures gives { IfOk result (λ x. operand_of x
            ≡ settled_operand (V.meaning self.now.root) (operand_of operand.now)) }
        ensures takes { Takes work.old.steps work.new.steps }
        ensures stopped { StopsSpent result work.new.steps }
    {
        match operand {
            Operand::Literal(literal) => Ok(Operand::Literal(copied_literal(self.alloc, literal)?)),
            Operand::Query(query) => Ok(Operand::Query(self.settled_query(work, query)?)),
            Operand::Call(call) => {
                let call = self.settled_call(work, call)?;
                match self.count_of(work, &call)? {
                    Some(count) => Ok(Operand::Literal(count)),
                    None => Ok(Operand::Call(call)),
                }
            }
        }
    }
}
