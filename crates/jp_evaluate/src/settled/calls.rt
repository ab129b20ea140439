//! Calls of filters with answers in the places of absolute queries (RFC 9535 section 2.4).

ghost use Rattle.std.specs.Prelude.{◌≡◌, IfOk, map};
ghost use Rattle.jp_tree.specs.Tree.{arguments as argument_trees};
ghost use Rattle.jp_tree.specs.Views.{argument_of, call_of};
ghost use Rattle.jp_select.specs.Steps.{Takes};
ghost use Rattle.jp_evaluate.specs.Stopping.{StopsSpent};
ghost use Rattle.jp_evaluate.specs.Private.Settled.{settled_argument, settled_arguments, settled_call};

use crate::evaluating::{Evaluation, Work};
use crate::evaluation_fault::EvaluationFault;
use crate::settled::copies::{copied_literal, copied_name};
use jp_lent::Selectable;
use jp_match::Matching;
use jp_tree::{Argument, Call};

impl<'q, V: Selectable + 'q, M: Matching> Evaluation<'q, V, M> {
    /// A call that answers the same.
    #[cycle(settled)]
    pub(crate) fn settled_call(&self, work: &mut Work, call: &Call) -> Result<Call, EvaluationFault>
        ensures gives { IfOk result (λ f. call_of f
            ≡ settled_call (V.meaning self.now.root) (call_of call.now)) }
        ensures takes { Takes work.old.steps work.new.steps }
        ensures stopped { StopsSpent result work.new.steps }
    {
        let call = Call {
            name: copied_name(self.alloc, &call.name)?,
            arguments: self.settled_arguments(work, &call.arguments)?,
        };
        self.settled_value(work, call)
    }

    /// The arguments of a call with the answers in their places, in their order.
    #[cycle(settled)]
    fn settled_arguments(
        &self,
        work: &mut Work,
        arguments: &[Argument],
    ) -> Result<Vec<Argument>, EvaluationFault>
        ensures gives { IfOk result (λ v. argument_trees (map argument_of v.items)
            ≡ settled_arguments (V.meaning self.now.root)
            (argument_trees (map argument_of arguments.now))) }
        ensures takes { Takes work.old.steps work.new.steps }
        ensures stopped { StopsSpent result work.new.steps }
    {
        let mut settled = Vec::with_capacity(self.alloc, arguments.len())?;
        for argument in arguments {
            settled.push(self.settled_argument(work, argument)?)?;
        }
        Ok(settled)
    }

    /// An argument with the answers in its query, call or expression. A call of `count` whose query
    /// is asked once (`is_asked_once`) gives way to the number that it answers.
    #[cycle(settled)]
    fn settled_argument(
        &self,
        work: &mut Work,
        argument: &Argument,
    ) -> Result<Argument, EvaluationFault>
        ensures gives { IfOk result (λ x. argument_of x
            ≡ settled_argument (V.meaning self.now.root) (argument_of argument.now)) }
        ensures takes { Takes work.old.steps work.new.steps }
        ensures stopped { StopsSpent result work.new.steps }
    {
        match argument {
            Argument::Literal(literal) => Ok(Argument::Literal(copied_literal(
                self.alloc, literal,
            )?)),
            Argument::Query(query) => Ok(Argument::Query(self.settled_query(work, query)?)),
            Argument::Logical(expr) => Ok(Argument::Logical(self.settled_expr(work, expr)?)),
            Argument::Call(call) => {
                let call = self.settled_call(work, call)?;
                match self.count_of(work, &call)? {
                    Some(count) => Ok(Argument::Literal(count)),
                    None => Ok(Argument::Call(call)),
                }
            }
        }
    }
}
