//! The answers of absolute queries that name no location, and what stands for them.

ghost use Rattle.std.specs.Prelude.{◌≡◌, IfOk, OnOk, Some, map, option_map};
ghost use Rattle.jp_tree.specs.Tree.{arguments as argument_trees};
ghost use Rattle.jp_tree.specs.Views.{argument_of, call_of, expr_of, literal_of, query_of};
ghost use Rattle.jp_tree.specs.Views.{subject_of};
ghost use Rattle.jp_select.specs.Steps.{Counts, Takes};
ghost use Rattle.jp_evaluate.specs.Stopping.{StopsSpent};
ghost use Rattle.jp_evaluate.specs.Private.Calls.{call_function};
ghost use Rattle.jp_evaluate.specs.Private.Compared.{location_steps};
ghost use Rattle.jp_evaluate.specs.Private.Selecting.{nodes_query};
ghost use Rattle.jp_evaluate.specs.Private.Settled.{count_answer, count_nodes, given_query};
ghost use Rattle.jp_evaluate.specs.Private.Settled.{is_asked_once, is_at_path, nodes_counted};
ghost use Rattle.jp_evaluate.specs.Private.Settled.{nodes_once, only_node, path_arguments};
ghost use Rattle.jp_evaluate.specs.Private.Settled.{query_once, settled_test, settled_value};
ghost use Rattle.jp_evaluate.specs.Private.Settled.{test_query, truth, value_nodes};
ghost use Rattle.jp_evaluate.specs.Private.OnlyNode.{told_node};

use crate::calls::{argument_query, call_query, function_of, only_argument};
use crate::compared::take_location;
use crate::evaluating::{Evaluation, Work};
use crate::evaluation_fault::EvaluationFault;
use crate::filter::Asking;
use crate::named::names_steps;
use crate::selecting::{NodesQuery, Selecting};
use crate::settled::copies::path_query;
use jp_check::Function;
use jp_document::Step;
use jp_lent::Selectable;
use jp_match::Matching;
use jp_select::Comparable;
use jp_tree::{Argument, Call, Expr, Literal, Numeral, Query, Subject};
use std::alloc::Global;

/// The only node of a nodelist.
#[derive(Drop)]
struct OnlyNode<'d, V> {
    location: Vec<Step<'d>>,
    value: V,
}

impl<'q, V: Selectable + 'q, M: Matching> Evaluation<'q, V, M> {
    /// A test of a query that gives the same at each value is true or false.
    #[inline(never)]
    pub(super) fn settled_test(
        &self,
        work: &mut Work,
        subject: Subject,
    ) -> Result<Expr, EvaluationFault>
        ensures gives { IfOk result (λ e. expr_of e
            ≡ settled_test (V.meaning self.now.root) (subject_of subject)) }
        ensures takes { Takes work.old.steps work.new.steps }
        ensures stopped { StopsSpent result work.new.steps }
    {
        if let Some(query) = tested_once(&subject) {
            let answer = self.asking().selects_some(work, query)?;
            return Ok(truth(self.alloc, answer));
        }
        Ok(Expr::Test(subject))
    }

    /// What `count` answers of such a query.
    #[inline(never)]
    pub(super) fn count_of(
        &self,
        work: &mut Work,
        call: &Call,
    ) -> Result<Option<Literal>, EvaluationFault>
        ensures gives { IfOk result (λ o. option_map literal_of o
            ≡ count_answer (V.meaning self.now.root) (call_of call.now)) }
        ensures takes { Takes work.old.steps work.new.steps }
        ensures stopped { StopsSpent result work.new.steps }
    {
        let Some(nodes) = counted_once(call) else {
            return Ok(None);
        };
        let count = self.asking().node_count(work, nodes)?;
        Ok(Some(Literal::Number(Numeral::Whole(count as i128))))
    }

    /// A call of `value` of such a query asks for the node's path in its place, or for nothing where
    /// there is not one node.
    #[inline(never)]
    pub(super) fn settled_value(&self, work: &mut Work, call: Call) -> Result<Call, EvaluationFault>
        ensures gives { IfOk result (λ f. call_of f
            ≡ settled_value (V.meaning self.now.root) (call_of call)) }
        ensures takes { Takes work.old.steps work.new.steps }
        ensures stopped { StopsSpent result work.new.steps }
    {
        let Some(nodes) = valued_once(&call) else {
            return Ok(call);
        };
        let Some(arguments) = self.only_path(work, nodes)? else {
            return Ok(call);
        };
        Ok(Call {
            name: call.name,
            arguments,
        })
    }

    /// The path of the only node as an argument, none where there is not one node; None where the
    /// path does not lead to its value.
    fn only_path(
        &self,
        work: &mut Work,
        nodes: NodesQuery<'_>,
    ) -> Result<Option<Vec<Argument>>, EvaluationFault>
        ensures gives { IfOk result (λ o. option_map (λ v. argument_trees (map argument_of v.items)) o
            ≡ path_arguments (V.meaning self.now.root) (only_node
            (nodes_counted (V.meaning self.now.root) (nodes_query nodes.entry)))) }
        ensures takes { Takes work.old.steps work.new.steps }
        ensures stopped { StopsSpent result work.new.steps }
    {
        match self.only_node(work, nodes)? {
            Some(node) => self.path_to(work, &node),
            None => Ok(Some(Vec::new(self.alloc))),
        }
    }

    /// The path of a node as an argument, None where it does not lead to the node's value. The names in it
    /// are copied and compared, so it takes the steps for the location.
    fn path_to(
        &self,
        work: &mut Work,
        node: &OnlyNode<'_, V>,
    ) -> Result<Option<Vec<Argument>>, EvaluationFault>
        ensures gives { IfOk result (λ o. option_map (λ v. argument_trees (map argument_of v.items)) o
            ≡ path_arguments (V.meaning self.now.root) (Some (told_node V.meaning node.now))) }
        ensures takes { Takes work.old.steps work.new.steps }
        ensures stopped { StopsSpent result work.new.steps }
        ensures counts { OnOk result (Counts (location_steps (told_node V.meaning node.now).location)
            work.old.steps work.new.steps) }
    {
        take_location(&node.location, &mut work.steps)?;
        let path = path_query(self.alloc, &node.location)?;
        if !self.is_at(work, &path, node.value)? {
            return Ok(None);
        }
        let mut arguments = Vec::new(self.alloc);
        arguments.push(Argument::Query(path))?;
        Ok(Some(arguments))
    }

    /// The only node of a query, of those that are counted; None where these are none or several.
    fn only_node<'s>(
        &self,
        work: &mut Work,
        nodes: NodesQuery<'s>,
    ) -> Result<Option<OnlyNode<'s, V>>, EvaluationFault>
    where
        'q: 's,
        ensures gives { IfOk result (λ o. option_map (told_node V.meaning) o
            ≡ only_node (nodes_counted (V.meaning self.now.root) (nodes_query nodes.entry))) }
        ensures takes { Takes work.old.steps work.new.steps }
        ensures stopped { StopsSpent result work.new.steps }
    {
        let mut selecting = Selecting::from(self.alloc, nodes, self.root);
        let Some(reached) = selecting.next(self, work)? else {
            return Ok(None);
        };
        let location = selecting.walk.location_at(self.alloc, &reached)?;
        match selecting.next(self, work)? {
            Some(_) => Ok(None),
            None => Ok(Some(OnlyNode {
                location,
                value: reached.value,
            })),
        }
    }

    /// Whether a singular query selects a node of this value.
    fn is_at(&self, work: &mut Work, query: &Query, value: V) -> Result<bool, EvaluationFault>
        ensures gives { IfOk result (λ answer. answer
            ≡ is_at_path (V.meaning self.now.root) (query_of query.now) (V.meaning value)) }
        ensures takes { Takes work.old.steps work.new.steps }
        ensures stopped { StopsSpent result work.new.steps }
    {
        let found = Comparable::of(self.asking().node_value(query));
        Ok(found.equals(&Comparable::Lent(value), &mut work.steps)?)
    }

    /// Absolute queries give the same whatever the current value is.
    fn asking(&self) -> Asking<'_, 'q, V, M>
        ensures evaluation { result.evaluation.now ≡ self.now }
        ensures current { result.current ≡ self.now.root }
    {
        Asking {
            evaluation: self,
            current: self.root,
        }
    }
}

/// The expression that is true, or the one that is false.
fn truth(alloc: Global, answer: bool) -> Expr
    ensures { expr_of result ≡ truth answer }
{
    if answer {
        Expr::AllOf(Vec::new(alloc))
    } else {
        Expr::AnyOf(Vec::new(alloc))
    }
}

/// The query that a test asks for, if it gives the same at each value and names no location.
fn tested_once(subject: &Subject) -> Option<&Query>
    ensures { option_map (λ q. query_of q.now) result
        ≡ query_once (test_query (subject_of subject.now)) }
{
    let query = match subject {
        Subject::Query(query) => query,
        Subject::Call(call) => call_query(call)?.query,
    };
    if is_asked_once(query) {
        Some(query)
    } else {
        None
    }
}

/// The nodes that a call of `count` counts, if their query is asked once (`is_asked_once`).
fn counted_once(call: &Call) -> Option<NodesQuery<'_>>
    ensures { option_map nodes_query result
        ≡ count_nodes (call_function (call_of call.now)) (given_query (call_of call.now)) }
{
    match function_of(call) {
        Some(Function::Count) => nodes_once(call),
        _ => None,
    }
}

/// The nodes that a call of `value` looks at, if their query is asked once.
fn valued_once(call: &Call) -> Option<NodesQuery<'_>>
    ensures { option_map nodes_query result
        ≡ value_nodes (call_function (call_of call.now)) (given_query (call_of call.now)) }
{
    match function_of(call) {
        Some(Function::ValueOf) => nodes_once(call),
        _ => None,
    }
}

/// The nodes that a call is given, if their query is asked once.
fn nodes_once(call: &Call) -> Option<NodesQuery<'_>>
    ensures { option_map nodes_query result ≡ nodes_once (given_query (call_of call.now)) }
{
    let nodes = argument_query(only_argument(call)?)?;
    if is_asked_once(nodes.query) {
        Some(nodes)
    } else {
        None
    }
}

/// Whether the query gives the same at each value and names no location.
fn is_asked_once(query: &Query) -> bool
    ensures { result ≡ is_asked_once (query_of query.now) }
{
    query.absolute && !names_steps(query)
}
