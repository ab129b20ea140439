//! Counting nodes and lines.

ghost use Rattle.std.specs.Prelude.{◌≡◌, IfErr, IfOk, false, length, suc, take};
ghost use Rattle.jp_tree.specs.Views.{query_of};
ghost use Rattle.jp_select.specs.Steps.{Takes};
ghost use Rattle.jp_evaluate.specs.Lent.{has_failed, rest_of, steps_of};
ghost use Rattle.jp_evaluate.specs.Nodelist.{nodelist};
ghost use Rattle.jp_evaluate.specs.Stopping.{StopsSpent};
ghost use Rattle.jp_command.specs.Selecting.{StopsOnlySpent};
ghost use Rattle.jp_lines.specs.Private.Limits.{IsMoreThan};
ghost use Rattle.jp_lines.specs.Task.{nodes_within};

use crate::limits::is_above;
use crate::options::Extent;
use jp_check::Checked;
use jp_command::SelectionFault;
use jp_evaluate::{EvaluationFault, LentNodes, Patterns, lent_nodes_with};
use jp_lent::Selectable;
use jp_match::Marks;
use jp_select::Steps;
use std::alloc::{AllocError, Global};
use std::mem;

/// The number after this one. An error says that it does not fit 64 bits, which counts as want of
/// memory.
pub(crate) fn number_after(number: u64) -> Result<u64, AllocError>
    ensures { IfOk result (λ next. next ≡ suc number) }
{
    number.checked_add(1).ok_or(AllocError)
}

/// How many nodes the query selects in the document whose value is the root, all of them or one at
/// most; an error says that memory ran out, that the steps are used up, or that of all there are more than
/// `limit` says, which is told at the first of those. The evaluation takes from `steps` those that it makes;
/// what was read of the patterns is kept for the next document.
pub(crate) fn count_selected<'d: 'q, 'q, V: Selectable + 'd>(
    alloc: Global,
    extent: Extent,
    limit: Option<u64>,
    root: V,
    query: &'q Checked,
    patterns: &mut Patterns,
    steps: &mut Steps,
) -> Result<u64, SelectionFault>
    ensures count { IfOk result (λ count. count
        ≡ length (nodes_within extent (nodelist (query_of query.now.query) (V.meaning root)))) }
    ensures beyond { IfErr result (IsMoreThan limit
        (length (nodes_within extent (nodelist (query_of query.now.query) (V.meaning root))))) }
    ensures takes { Takes steps.old steps.new }
    ensures stopped { StopsOnlySpent result steps.new }
{
    let read = mem::replace(patterns, Patterns::new(alloc));
    let mut nodes = lent_nodes_with(alloc, root, query, &Marks, read, *steps);
    let count = match extent {
        Extent::All => count_rest(limit, &mut nodes),
        Extent::First => count_first(&mut nodes).map_err(SelectionFault::from),
    };
    let (read, left) = nodes.into_parts();
    *patterns = read;
    *steps = left;
    count
}

/// How many nodes are still to come, where they are no more than the limit.
fn count_rest<'d: 'q, 'q, V: Selectable + 'd>(
    limit: Option<u64>,
    nodes: &mut LentNodes<'d, 'q, V, Marks>,
) -> Result<u64, SelectionFault>
    requires { has_failed nodes.now ≡ false }
    ensures count { IfOk result (λ count. count ≡ length (rest_of V.meaning nodes.old)) }
    ensures takes { Takes (steps_of nodes.old) (steps_of nodes.new) }
    ensures beyond { IfErr result (IsMoreThan limit (length (rest_of V.meaning nodes.old))) }
    ensures stopped { StopsOnlySpent result (steps_of nodes.new) }
{
    let mut count = 0;
    while let Some(next) = nodes.next_value() {
        next?;
        count = number_after(count)?;
        if is_above(limit, count) {
            return Err(SelectionFault::TooManyNodes);
        }
    }
    Ok(count)
}

/// Whether a node is still to come, as a number.
fn count_first<'d: 'q, 'q, V: Selectable + 'd>(
    nodes: &mut LentNodes<'d, 'q, V, Marks>,
) -> Result<u64, EvaluationFault>
    requires { has_failed nodes.now ≡ false }
    ensures count { IfOk result (λ count. count ≡ length (take 1 (rest_of V.meaning nodes.old))) }
    ensures takes { Takes (steps_of nodes.old) (steps_of nodes.new) }
    ensures stopped { StopsSpent result (steps_of nodes.new) }
{
    match nodes.next_value() {
        Some(next) => {
            next?;
            Ok(1)
        }
        None => Ok(0),
    }
}
