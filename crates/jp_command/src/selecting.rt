//! Lines of selected nodes behind a text, in memory that goes from one document to the next.

ghost use Rattle.std.specs.Prelude.{◌≡◌, ◌<◌, ◌≤◌, ◌+◌, ◌-◌, ◌^◌, ◌⊎◌, ◌++◌, IfErr, IfOk, OnOk, [], drop};
ghost use Rattle.std.specs.Prelude.{false, length, min, option_map, string_bytes};
ghost use Rattle.std.specs.List.{flat_map};
ghost use Rattle.jp_command.specs.Lead.{line_behind};
ghost use Rattle.jp_command.specs.Lines.{lines_of};
ghost use Rattle.jp_command.specs.Selecting.{IsBeyond, StopsOnlySpent, first_nodes, nodes_behind};
ghost use Rattle.jp_command.specs.Private.Firsts.{is_more};
ghost use Rattle.jp_command.specs.Private.Fronts.{IsAlong};
ghost use Rattle.jp_command.specs.declared.selection_fault.SelectionFault.TheVariants as selection;
ghost use Rattle.jp_evaluate.specs.Lent.{has_failed, rest_of, steps_of};
ghost use Rattle.jp_evaluate.specs.Nodelist.{nodelist};
ghost use Rattle.jp_evaluate.specs.Stopping.{StopsSpent};
ghost use Rattle.jp_limit.specs.OutputLimit.{StaysWithin};
ghost use Rattle.jp_select.specs.Steps.{Takes};
ghost use Rattle.jp_tree.specs.Views.{query_of};

use crate::form::Form;
use crate::front::Front;
use crate::lines::{next_shown, push_line};
use crate::selection_fault::SelectionFault;
use jp_check::Checked;
use jp_evaluate::{EvaluationFault, Frame, LentNodes, Patterns, lent_nodes_in};
use jp_lent::Selectable;
use jp_limit::OutputLimit;
use jp_match::Marks;
use jp_select::Steps;
use std::alloc::{AllocError, Global};
use std::mem;

/// Memory that goes from the nodes of one document to those of the next. What its lists and its text hold
/// is gone with the next nodes.
#[derive(Drop)]
pub struct Rooms<'d, V> {
    /// What was read of the patterns.
    pub patterns: Patterns,
    /// The frames of the walk.
    pub frames: Vec<Frame<'d, V>>,
    /// What paths begin with.
    pub path: String,
}

/// Appends the lines of the nodes that the query selects in the document whose value is the root, in the
/// nodelist's order (RFC 9535 section 2.1.2), of those behind the first `from` ones: of all, or of as many as
/// `most` says, with which the evaluation stops. The evaluation takes from `steps` those that it makes. The
/// errors are that memory ran out, that the steps are used up, and that there are more such nodes than `limit`
/// says, or that their lines have more bytes; after each nothing is said of what was appended, which is one line
/// more at most than the limit is for.
pub fn push_selected<'d: 'q, 'q, V: Selectable + 'd>(
    alloc: Global,
    form: Form,
    from: u64,
    most: Option<u64>,
    limit: OutputLimit,
    root: V,
    query: &'q Checked,
    rooms: &mut Rooms<'d, V>,
    steps: &mut Steps,
    lines: &mut String,
) -> Result<(), SelectionFault>
    ensures lines { OnOk result (string_bytes lines.new ≡ string_bytes lines.old
        ++ lines_of form (nodes_behind from most (nodelist (query_of query.now.query) (V.meaning root)))) }
    ensures within { OnOk result (StaysWithin limit
        (length (nodes_behind from most (nodelist (query_of query.now.query) (V.meaning root))))
        (length (lines_of form (nodes_behind from most
        (nodelist (query_of query.now.query) (V.meaning root)))))) }
    ensures beyond { IfErr result (IsBeyond limit
        (length (nodes_behind from most (nodelist (query_of query.now.query) (V.meaning root))))
        (length (lines_of form (nodes_behind from most
        (nodelist (query_of query.now.query) (V.meaning root)))))) }
    ensures takes { Takes steps.old steps.new }
    ensures stopped { StopsOnlySpent result steps.new }
{
    let patterns = mem::replace(&mut rooms.patterns, Patterns::new(alloc));
    let frames = mem::replace(&mut rooms.frames, Vec::new(alloc));
    let mut nodes = lent_nodes_in(alloc, root, query, &Marks, patterns, frames, *steps);
    let mut front = Front::within(mem::replace(&mut rooms.path, String::new(alloc)));
    let pushed = push_behind(form, from, most, limit, &mut nodes, &mut front, lines);
    rooms.path = front.text;
    (rooms.patterns, *steps, rooms.frames) = nodes.into_rooms();
    pushed
}

/// Appends the lines of the nodes that are still to come, behind the first `from` ones, of all or of so many.
#[tactic(auto, using(crate::proofs::Fronts::along_none))]
fn push_behind<'d: 'q, 'q, V: Selectable + 'd>(
    form: Form,
    from: u64,
    most: Option<u64>,
    limit: OutputLimit,
    nodes: &mut LentNodes<'d, 'q, V, Marks>,
    front: &mut Front,
    lines: &mut String,
) -> Result<(), SelectionFault>
    requires working { has_failed nodes.now ≡ false }
    requires count { front.now.count ≡ 0 }
    requires text { string_bytes front.now.text ≡ [] }
    ensures lines { OnOk result (string_bytes lines.new ≡ string_bytes lines.old
        ++ lines_of form (nodes_behind from most (rest_of V.meaning nodes.old))) }
    ensures within { OnOk result (StaysWithin limit
        (length (nodes_behind from most (rest_of V.meaning nodes.old)))
        (length (lines_of form (nodes_behind from most (rest_of V.meaning nodes.old))))) }
    ensures beyond { IfErr result (IsBeyond limit
        (length (nodes_behind from most (rest_of V.meaning nodes.old)))
        (length (lines_of form (nodes_behind from most (rest_of V.meaning nodes.old))))) }
    ensures takes { Takes (steps_of nodes.old) (steps_of nodes.new) }
    ensures stopped { StopsOnlySpent result (steps_of nodes.new) }
{
    pass_over(nodes, from)?;
    push_rest(form, "", most, limit, nodes, front, lines)?;
    Ok(())
}

/// Passes over so many nodes, or over all where there are fewer.
fn pass_over<'d: 'q, 'q, V: Selectable + 'd>(
    nodes: &mut LentNodes<'d, 'q, V, Marks>,
    count: u64,
) -> Result<(), EvaluationFault>
    requires working { has_failed nodes.now ≡ false }
    ensures working { OnOk result (has_failed nodes.new ≡ false) }
    ensures rest { OnOk result (rest_of V.meaning nodes.new
        ≡ drop count (rest_of V.meaning nodes.old)) }
    ensures takes { Takes (steps_of nodes.old) (steps_of nodes.new) }
    ensures stopped { StopsSpent result (steps_of nodes.new) }
{
    let mut left = count;
    while left > 0 {
        let Some(next) = nodes.next_value() else {
            return Ok(());
        };
        next?;
        left -= 1;
    }
    Ok(())
}

/// Appends the lines of the nodes that are still to come, of all or of so many, each behind the text `lead`.
/// Answers how many there are. Nodes are counted before their lines are made, and bytes after each line.
pub(crate) fn push_rest<'d: 'q, 'q, V: Selectable + 'd>(
    form: Form,
    lead: &str,
    most: Option<u64>,
    limit: OutputLimit,
    nodes: &mut LentNodes<'d, 'q, V, Marks>,
    front: &mut Front,
    lines: &mut String,
) -> Result<u64, SelectionFault>
    requires working { has_failed nodes.now ≡ false }
    requires front { IsAlong form front.now nodes.now }
    ensures lines { OnOk result (string_bytes lines.new ≡ string_bytes lines.old
        ++ flat_map (line_behind lead.now form) (first_nodes most (rest_of V.meaning nodes.old))) }
    ensures count { IfOk result (λ count. count ≡ length (first_nodes most (rest_of V.meaning nodes.old))) }
    ensures within { OnOk result (StaysWithin limit
        (length (first_nodes most (rest_of V.meaning nodes.old)))
        (length (flat_map (line_behind lead.now form) (first_nodes most (rest_of V.meaning nodes.old))))) }
    ensures beyond { IfErr result (IsBeyond limit
        (length (first_nodes most (rest_of V.meaning nodes.old)))
        (length (flat_map (line_behind lead.now form) (first_nodes most (rest_of V.meaning nodes.old))))) }
    ensures takes { Takes (steps_of nodes.old) (steps_of nodes.new) }
    ensures stopped { StopsOnlySpent result (steps_of nodes.new) }
{
    let most_nodes = limit.most_nodes();
    let end = end_behind(lines.as_str(), limit.most_bytes());
    let mut count: u64 = 0;
    let mut left = most;
    while is_more(left) {
        let Some(next) = next_shown(form, nodes) else {
            return Ok(count);
        };
        let value = next?;
        count = counted(count, most_nodes)?;
        lines.push_str(lead)?;
        push_line(form, nodes, front, value, lines)?;
        check_end(lines.as_str(), end)?;
        left = one_less(left);
    }
    Ok(count)
}

/// Where a text ends at most that is given so many bytes more.
fn end_behind(text: &str, most: u64) -> u64
    ensures end { result ≡ min (length text.now + most) (2 ^ 64 - 1) }
    ensures behind { length text.now ≤ result }
{
    (text.len() as u64).saturating_add(most)
}

/// Refuses a text that ends behind that.
#[inline(always)]
fn check_end(text: &str, end: u64) -> Result<(), SelectionFault>
    ensures within { OnOk result (length text.now ≤ end) }
    ensures beyond { IfErr result (λ fault. (fault ≡ selection.TooManyBytes) × (end < length text.now)
        × (length text.now < 2 ^ 64)) }
{
    if text.len() as u64 <= end {
        Ok(())
    } else {
        Err(SelectionFault::TooManyBytes)
    }
}

/// One node more than so many, of which there may be `most`.
#[inline(always)]
fn counted(count: u64, most: u64) -> Result<u64, SelectionFault>
    ensures more { IfOk result (λ next. (next ≡ count + 1) × (next ≤ most)) }
    ensures beyond { IfErr result (λ fault. (fault ≡ selection.NoMemory)
        ⊎ ((fault ≡ selection.TooManyNodes) × (most < count + 1) × (count + 1 < 2 ^ 64))) }
{
    let next = count.checked_add(1).ok_or(AllocError)?;
    if next <= most {
        Ok(next)
    } else {
        Err(SelectionFault::TooManyNodes)
    }
}

/// Whether there is one more of so many, or of all.
fn is_more(left: Option<u64>) -> bool
    ensures { result ≡ is_more left }
{
    match left {
        Some(count) => count != 0,
        None => true,
    }
}

/// How many are left of so many, or of all, after one.
fn one_less(left: Option<u64>) -> Option<u64>
    ensures { result ≡ option_map (λ n. n - 1) left }
{
    match left {
        Some(count) => Some(count.saturating_sub(1)),
        None => None,
    }
}
