//! The functions of filters (RFC 9535 section 2.4), over their arguments.

ghost use Rattle.jp_evaluate.specs.Stopping.{StopsSpent};
ghost use Rattle.jp_select.specs.Steps.{Counts, Takes};
ghost use Rattle.std.specs.Prelude.{◌≡◌, ◌<◌, IfOk, IfSome, OnOk, length, option_map};
ghost use Rattle.jp_tree.specs.declared.function.Function.TheVariants.{ValueOf};
ghost use Rattle.jp_tree.specs.Views.{argument_of, call_of, query_of};
ghost use Rattle.jp_select.specs.Comparable.{comparable_of};
ghost use Rattle.jp_evaluate.specs.Functions.{meaning, only_value};
ghost use Rattle.jp_evaluate.specs.Named.{location_named};
ghost use Rattle.jp_evaluate.specs.Nodelist.{argument_value, call_answer, call_holds, nodelist_at};
ghost use Rattle.jp_evaluate.specs.Private.Asked.{asked};
ghost use Rattle.jp_evaluate.specs.Private.Calls.{argument_query, both_arguments, call_function};
ghost use Rattle.jp_evaluate.specs.Private.Calls.{call_query, counted, only_argument};
ghost use Rattle.jp_evaluate.specs.Private.Compared.{location_steps};
ghost use Rattle.jp_document.specs.Value.{text};
ghost use Rattle.jp_evaluate.specs.Private.Meanings.{made_of_nodes, only_text};
ghost use Rattle.jp_evaluate.specs.Private.Selecting.{nodes_query};
ghost use Rattle.jp_evaluate.specs.Private.Sizes.{argument_size, call_size, query_size};

use crate::compared::take_named;
use crate::evaluating::{Work, logical_answer};
use crate::evaluation_fault::EvaluationFault;
use crate::filter::Asking;
use crate::kind::{Kind, kind_of, value_of_value};
use crate::operand::{lent_text, literal_text, literal_value, seen_text, whole};
use crate::selecting::{NodesQuery, Selecting};
use crate::tally::tally;
use jp_check::Function;
use jp_lent::Selectable;
use jp_match::Matching;
use jp_select::Comparable;
use jp_tree::{Argument, Call};

impl<'a, 'q, V: Selectable + 'q, M: Matching> Asking<'a, 'q, V, M> {
    /// The value that a function answers, Nothing where it answers none.
    #[cycle(filter)]
    pub(crate) fn call_value(
        &self,
        work: &mut Work,
        call: &'q Call,
    ) -> Result<Comparable<'q, V>, EvaluationFault>
        ensures gives { IfOk result
            (λ value. comparable_of V.meaning value ≡ asked V.meaning self.now (call_answer (call_of call.now))) }
        ensures takes { Takes work.old.steps work.new.steps }
        ensures stopped { StopsSpent result work.new.steps }
    {
        let Some(argument) = only_argument(call) else {
            return Ok(Comparable::Nothing);
        };
        let Some(function) = function_of(call) else {
            return Ok(Comparable::Nothing);
        };
        match kind_of(function) {
            Kind::ValueOfValue => {
                let value = self.argument_value(work, argument)?;
                Ok(value_of_value(function, value, &mut work.steps)?)
            }
            Kind::ValueOfNodes => match argument_query(argument) {
                Some(nodes) => self.value_of_nodes(work, function, nodes),
                None => Ok(Comparable::Nothing),
            },
            Kind::NodesOfNodes | Kind::TruthOfValues => Ok(Comparable::Nothing),
        }
    }

    /// What a function makes of the nodes of a query, of those that are counted; Nothing of another
    /// kind's function. That of `value` may be a path that stands for an answer, with names of the
    /// document, so it takes the steps for the location that it names.
    #[cycle(filter)]
    fn value_of_nodes(
        &self,
        work: &mut Work,
        function: Function,
        nodes: NodesQuery<'q>,
    ) -> Result<Comparable<'q, V>, EvaluationFault>
        ensures gives { IfOk result (λ value. comparable_of V.meaning value
            ≡ made_of_nodes (meaning function) (counted nodes.entry.distinct
            (asked V.meaning self.now (nodelist_at (query_of nodes.entry.query.now))))) }
        ensures takes { Takes work.old.steps work.new.steps }
        ensures stopped { StopsSpent result work.new.steps }
        ensures counts { OnOk result (function ≡ ValueOf
            → IfSome (location_named (query_of nodes.entry.query.now))
            (λ l. Counts (location_steps l) work.old.steps work.new.steps)) }
    {
        match function {
            Function::Count => Ok(whole(self.node_count(work, nodes)?)),
            Function::ValueOf => {
                take_named(nodes.query, &mut work.steps)?;
                Ok(Comparable::of(self.only_value(work, nodes)?))
            }
            _ => Ok(Comparable::Nothing),
        }
    }

    /// The truth that a function answers, false where it answers none.
    #[cycle(filter)]
    pub(crate) fn call_holds(
        &self,
        work: &mut Work,
        call: &'q Call,
    ) -> Result<bool, EvaluationFault>
        ensures gives { IfOk result (λ answer. answer ≡ asked V.meaning self.now (call_holds (call_of call.now))) }
        ensures takes { Takes work.old.steps work.new.steps }
        ensures stopped { StopsSpent result work.new.steps }
    {
        let Some((first, second)) = both_arguments(call) else {
            return Ok(false);
        };
        let text = self.argument_text(work, first)?;
        let pattern = self.argument_text(work, second)?;
        logical_answer(self.evaluation, work, function_of(call), text, pattern)
    }

    /// The text that an argument stands for, None where it stands for another value or for none. It does
    /// not go to memory, as a value of any kind would.
    #[cycle(filter)]
    #[inline(always)]
    fn argument_text(
        &self,
        work: &mut Work,
        argument: &'q Argument,
    ) -> Result<Option<&'q str>, EvaluationFault>
        ensures gives { IfOk result (λ found. option_map (λ s. text s.now) found
            ≡ only_text (asked V.meaning self.now (argument_value (argument_of argument.now)))) }
        ensures takes { Takes work.old.steps work.new.steps }
        ensures stopped { StopsSpent result work.new.steps }
    {
        match argument {
            Argument::Literal(literal) => Ok(literal_text(literal)),
            Argument::Query(query) => {
                work.steps.take_many(query.segments.len() as u64)?;
                Ok(lent_text(self.node_value(query)))
            }
            Argument::Call(call) => {
                let value = self.call_value(work, call)?;
                Ok(seen_text(value.seen()))
            }
            Argument::Logical(_) => Ok(None),
        }
    }

    /// The value that an argument stands for, Nothing where it stands for none.
    #[cycle(filter)]
    #[inline(always)]
    fn argument_value(
        &self,
        work: &mut Work,
        argument: &'q Argument,
    ) -> Result<Comparable<'q, V>, EvaluationFault>
        ensures gives { IfOk result (λ value. comparable_of V.meaning value
            ≡ asked V.meaning self.now (argument_value (argument_of argument.now))) }
        ensures takes { Takes work.old.steps work.new.steps }
        ensures stopped { StopsSpent result work.new.steps }
    {
        match argument {
            Argument::Literal(literal) => Ok(literal_value(literal)),
            Argument::Query(query) => {
                work.steps.take_many(query.segments.len() as u64)?;
                Ok(Comparable::of(self.node_value(query)))
            }
            Argument::Call(call) => self.call_value(work, call),
            Argument::Logical(_) => Ok(Comparable::Nothing),
        }
    }

    /// How many nodes a query selects, those alone that are counted.
    #[cycle(filter)]
    pub(crate) fn node_count(
        &self,
        work: &mut Work,
        nodes: NodesQuery<'q>,
    ) -> Result<u64, EvaluationFault>
        ensures gives { IfOk result (λ count. count ≡ length (counted nodes.entry.distinct
            (asked V.meaning self.now (nodelist_at (query_of nodes.entry.query.now))))) }
        ensures takes { Takes work.old.steps work.new.steps }
        ensures stopped { StopsSpent result work.new.steps }
    {
        let segments = &nodes.query.segments;
        if !nodes.distinct && self.evaluation.may_meet(segments) {
            let start = self.start(nodes.query);
            let tallied = tally(self.evaluation, work, segments, start, u64::MAX)?;
            if tallied.count == u64::MAX {
                return Err(EvaluationFault::NoMemory);
            }
            return Ok(tallied.count);
        }
        let mut selecting = Selecting::from(self.evaluation.alloc, nodes, self.start(nodes.query));
        let mut count: u64 = 0;
        while selecting.next(self.evaluation, work)?.is_some() {
            count = count.checked_add(1).ok_or(EvaluationFault::NoMemory)?;
        }
        Ok(count)
    }

    /// The value of the only node that a query selects, of those that are counted; None where these
    /// are none or several. The walk ends at the second.
    #[cycle(filter)]
    fn only_value(
        &self,
        work: &mut Work,
        nodes: NodesQuery<'q>,
    ) -> Result<Option<V>, EvaluationFault>
        ensures gives { IfOk result (λ value. option_map V.meaning value ≡ only_value
            (counted nodes.entry.distinct
            (asked V.meaning self.now (nodelist_at (query_of nodes.entry.query.now))))) }
        ensures takes { Takes work.old.steps work.new.steps }
        ensures stopped { StopsSpent result work.new.steps }
    {
        let segments = &nodes.query.segments;
        if !nodes.distinct && self.evaluation.may_meet(segments) {
            let start = self.start(nodes.query);
            let tallied = tally(self.evaluation, work, segments, start, 1)?;
            if tallied.count == 1 {
                return Ok(tallied.first);
            }
            return Ok(None);
        }
        let mut selecting = Selecting::from(self.evaluation.alloc, nodes, self.start(nodes.query));
        let Some(reached) = selecting.next(self.evaluation, work)? else {
            return Ok(None);
        };
        match selecting.next(self.evaluation, work)? {
            Some(_) => Ok(None),
            None => Ok(Some(reached.value)),
        }
    }
}

/// The function that a call names.
#[tactic(auto, using(crate::proofs::Parts::Arguments::named_function))]
pub(crate) fn function_of(call: &Call) -> Option<Function>
    ensures { result ≡ call_function (call_of call.now) }
{
    call.name.function()
}

/// The query whose nodes an argument stands for, if it stands for nodes.
#[cycle(arguments)]
pub(crate) fn argument_query(argument: &Argument) -> Option<NodesQuery<'_>>
    ensures gives { option_map nodes_query result ≡ argument_query (argument_of argument.now) }
    ensures smaller { IfSome result (λ n. query_size (query_of n.query.now)
        < argument_size (argument_of argument.now)) }
{
    match argument {
        Argument::Query(query) => Some(NodesQuery {
            query,
            distinct: false,
        }),
        Argument::Call(call) => call_query(call),
        Argument::Literal(_) | Argument::Logical(_) => None,
    }
}

/// The query whose nodes a call answers, if it answers nodes. Calls of `distinct` inside one another
/// are the same as one.
#[cycle(arguments)]
#[inline(always)]
pub(crate) fn call_query(call: &Call) -> Option<NodesQuery<'_>>
    ensures gives { option_map nodes_query result ≡ call_query (call_of call.now) }
    ensures smaller { IfSome result (λ n. query_size (query_of n.query.now)
        < call_size (call_of call.now)) }
{
    let argument = only_argument(call)?;
    match function_of(call) {
        Some(Function::Distinct) => Some(NodesQuery {
            query: argument_query(argument)?.query,
            distinct: true,
        }),
        _ => None,
    }
}

/// The argument of a call that has one.
pub(crate) fn only_argument(call: &Call) -> Option<&Argument>
    ensures { option_map (λ x. argument_of x.now) result ≡ only_argument (call_of call.now) }
{
    if call.arguments.len() == 1 {
        call.arguments.first()
    } else {
        None
    }
}

/// The arguments of a call that has two.
fn both_arguments(call: &Call) -> Option<(&Argument, &Argument)>
    ensures { option_map (λ x. (argument_of x.0.now, argument_of x.1.now)) result
        ≡ both_arguments (call_of call.now) }
{
    if call.arguments.len() != 2 {
        return None;
    }
    Some((call.arguments.first()?, call.arguments.get(1)?))
}
