//! Writing a line for each node.

ghost use Rattle.std.specs.Prelude.{◌≡◌, ◌++◌, IfErr, IfOk, IfSome, OnOk, false, length, string_bytes};
ghost use Rattle.std.specs.List.{flat_map};
ghost use Rattle.jp_command.specs.Lead.{line_behind, output_behind};
ghost use Rattle.jp_command.specs.Lines.{line_of};
ghost use Rattle.jp_command.specs.Output.{WritesAll};
ghost use Rattle.jp_command.specs.Private.AsFound.{WritesAsFound};
ghost use Rattle.jp_command.specs.Private.Fronts.{ComesAlong, IsAlong, has_both, path_in_line, text_after_path};
ghost use Rattle.jp_command.specs.Private.Shown.{GivesShown, KeepsShown};
ghost use Rattle.jp_command.specs.Selecting.{IsBeyond, StopsOnlySpent, first_nodes};
ghost use Rattle.jp_command.specs.Written.{GoesAs, StopsWriting};
ghost use Rattle.jp_evaluate.specs.Lent.{given_node, has_failed, place_of, rest_of, steps_of};
ghost use Rattle.jp_evaluate.specs.Nodelist.{nodelist};
ghost use Rattle.jp_evaluate.specs.Stopping.{StopsSpent};
ghost use Rattle.jp_limit.specs.OutputLimit.{StaysWithin};
ghost use Rattle.jp_select.specs.Steps.{Takes};
ghost use Rattle.jp_tree.specs.Views.{query_of};

use crate::device::Writer;
use crate::fault::Fault;
use crate::form::{Form, ValueForm};
use crate::front::Front;
use crate::output::write_all;
use crate::selecting::push_rest;
use crate::selection_fault::SelectionFault;
use jp_check::Checked;
use jp_evaluate::{EvaluationFault, LentNodes, Patterns, lent_nodes_with};
use jp_lent::{Selectable, push_raw, push_value};
use jp_limit::OutputLimit;
use jp_match::Marks;
use jp_select::Steps;
use std::alloc::{AllocError, Global};
use std::mem;

/// Appends the line of the node that was given last, with this value. After an error nothing is said of the front.
#[inline(always)]
pub(crate) fn push_line<'d: 'q, 'q, V: Selectable + 'd>(
    form: Form,
    nodes: &LentNodes<'d, 'q, V, Marks>,
    front: &mut Front,
    value: V,
    line: &mut String,
) -> Result<(), AllocError>
    requires { ComesAlong form front.old nodes.now }
    ensures kept { OnOk result (IsAlong form front.new nodes.now) }
    ensures line { OnOk result (string_bytes line.new
        ≡ string_bytes line.old ++ line_of form (given_node V.meaning nodes.now value)) }
{
    push_front(form, nodes, front, line)?;
    push_after_path(form, value, line)
}

/// Appends the path that the line of that node has, if it has one.
#[inline(always)]
fn push_front<'d: 'q, 'q, V: Selectable + 'd>(
    form: Form,
    nodes: &LentNodes<'d, 'q, V, Marks>,
    front: &mut Front,
    line: &mut String,
) -> Result<(), AllocError>
    requires { ComesAlong form front.old nodes.now }
    ensures kept { OnOk result (IsAlong form front.new nodes.now) }
    ensures path { OnOk result (string_bytes line.new ≡ string_bytes line.old
        ++ path_in_line form (place_of nodes.now)) }
{
    if form.has_path {
        front.push_path(nodes, line)
    } else {
        Ok(())
    }
}

/// Appends what the line of a node with this value has behind the path.
#[inline(always)]
pub(crate) fn push_after_path<V: Selectable>(
    form: Form,
    value: V,
    line: &mut String,
) -> Result<(), AllocError>
    ensures { OnOk result (string_bytes line.new
        ≡ string_bytes line.old ++ text_after_path form (V.meaning value)) }
{
    if has_both(form) {
        line.push('\t')?;
    }
    match form.value {
        ValueForm::Omitted => {}
        ValueForm::Compact => push_value(line, value)?,
        ValueForm::Raw => push_raw(line, value)?,
    }
    line.push('\n')
}

/// Whether the line of a node has a path and a value.
fn has_both(form: Form) -> bool
    ensures { result ≡ has_both form }
{
    match form.value {
        ValueForm::Omitted => false,
        ValueForm::Compact | ValueForm::Raw => form.has_path,
    }
}

/// The lines of nodes, in memory.
#[derive(Drop)]
pub struct SelectedLines {
    /// A line for each node.
    pub text: String,
    /// How many nodes there are.
    pub count: u64,
}

/// The lines of the nodes that the query selects in the document whose value is the root, in the
/// nodelist's order (RFC 9535 section 2.1.2), each behind the text `lead`, and how many there are: of all,
/// or of as many as `most` says, with which the evaluation stops. The evaluation takes from `steps` those
/// that it makes; what was read of the patterns is kept for the next document. The errors are that memory
/// ran out, or that there are more nodes than 2^64 - 1, that the steps are used up, and that there are more such
/// nodes than `limit` says, or that their lines have more bytes. Then no more than one line is made behind
/// those that the limit is for.
#[tactic(auto, using(crate::proofs::Fronts::along_none))]
pub fn selected_lines<'d: 'q, 'q, V: Selectable + 'd>(
    alloc: Global,
    form: Form,
    lead: &str,
    most: Option<u64>,
    limit: OutputLimit,
    root: V,
    query: &'q Checked,
    patterns: &mut Patterns,
    steps: &mut Steps,
) -> Result<SelectedLines, SelectionFault>
    ensures lines { IfOk result (λ lines. string_bytes lines.text
        ≡ flat_map (line_behind lead.now form)
        (first_nodes most (nodelist (query_of query.now.query) (V.meaning root)))) }
    ensures count { IfOk result (λ lines. lines.count
        ≡ length (first_nodes most (nodelist (query_of query.now.query) (V.meaning root)))) }
    ensures within { IfOk result (λ lines.
        StaysWithin limit lines.count (length (string_bytes lines.text))) }
    ensures beyond { IfErr result (IsBeyond limit
        (length (first_nodes most (nodelist (query_of query.now.query) (V.meaning root))))
        (length (flat_map (line_behind lead.now form)
        (first_nodes most (nodelist (query_of query.now.query) (V.meaning root)))))) }
    ensures takes { Takes steps.old steps.new }
    ensures stopped { StopsOnlySpent result steps.new }
{
    let read = mem::replace(patterns, Patterns::new(alloc));
    let mut nodes = lent_nodes_with(alloc, root, query, &Marks, read, *steps);
    let mut text = String::new(alloc);
    let mut front = Front::new(alloc);
    let pushed = push_rest(form, lead, most, limit, &mut nodes, &mut front, &mut text);
    let (read, left) = nodes.into_parts();
    *patterns = read;
    *steps = left;
    let count = pushed?;
    Ok(SelectedLines { text, count })
}

/// Memory that goes from the lines of one document to those of the next.
#[derive(Drop)]
pub struct Spare {
    /// What lines are made in. What it holds is gone with the next one.
    pub line: String,
    /// What was read of the patterns.
    pub patterns: Patterns,
}

impl Spare {
    /// None yet: it is taken as lines need it.
    pub fn new(alloc: Global) -> Spare {
        Spare {
            line: String::new(alloc),
            patterns: Patterns::new(alloc),
        }
    }
}

/// Writes a line for each node that the query selects in the document whose value is the root, in
/// the nodelist's order (RFC 9535 section 2.1.2), each behind the text `lead`; a node's line before
/// the next node is looked for. Answers how many nodes there are. `Write` says that the output failed,
/// and `NoMemory` that memory ran out, or that there are more nodes than 2^64 - 1; after both a prefix of
/// the lines is written. There are no other errors.
pub fn write_selected<'d: 'q, 'q, V: Selectable + 'd, W: Writer>(
    alloc: Global,
    form: Form,
    lead: &str,
    root: V,
    query: &'q Checked,
    spare: &mut Spare,
    output: &mut W,
) -> Result<u64, Fault>
    ensures ok { OnOk result (WritesAll W.contents W.has_failed output.old output.new
        (output_behind lead.now form (query_of query.now.query) (V.meaning root))) }
    ensures stopped { IfErr result (StopsWriting W.contents W.has_failed output.old output.new
        (output_behind lead.now form (query_of query.now.query) (V.meaning root))) }
    ensures calls { GoesAs W.write_takes output.old output.new
        (output_behind lead.now form (query_of query.now.query) (V.meaning root)) result }
    ensures count { IfOk result (λ count.
        count ≡ length (nodelist (query_of query.now.query) (V.meaning root))) }
{
    let patterns = mem::replace(&mut spare.patterns, Patterns::new(alloc));
    let mut nodes = lent_nodes_with(alloc, root, query, &Marks, patterns, Steps::unlimited());
    let written = write_lines(alloc, form, lead, &mut nodes, &mut spare.line, output);
    spare.patterns = nodes.into_parts().0;
    written
}

/// Writes the line of each node before it asks for the next, and answers how many there are. After a
/// fault a prefix of the lines is written: those of the nodes that were given, the last of them perhaps
/// in part or not at all.
pub(crate) fn write_lines<'d: 'q, 'q, V: Selectable + 'd, W: Writer>(
    alloc: Global,
    form: Form,
    lead: &str,
    nodes: &mut LentNodes<'d, 'q, V, Marks>,
    line: &mut String,
    output: &mut W,
) -> Result<u64, Fault>
    requires working { has_failed nodes.now ≡ false }
    requires unlimited { (steps_of nodes.now).limited ≡ false }
    ensures ok { OnOk result (WritesAll W.contents W.has_failed output.old output.new
        (flat_map (line_behind lead.now form) (rest_of V.meaning nodes.old))) }
    ensures stopped { IfErr result (StopsWriting W.contents W.has_failed output.old output.new
        (flat_map (line_behind lead.now form) (rest_of V.meaning nodes.old))) }
    ensures calls { GoesAs W.write_takes output.old output.new
        (flat_map (line_behind lead.now form) (rest_of V.meaning nodes.old)) result }
    ensures as_found { WritesAsFound W.contents W.write_takes (line_behind lead.now form) V.meaning
        nodes.old nodes.new output.old output.new result }
    ensures count { IfOk result (λ count. count ≡ length (rest_of V.meaning nodes.old)) }
{
    let mut count: u64 = 0;
    let mut front = Front::new(alloc);
    while let Some(next) = next_unlimited(form, nodes) {
        let value = next?;
        count = count.checked_add(1).ok_or(AllocError)?;
        line.clear();
        line.push_str(lead)?;
        push_line(form, nodes, &mut front, value, line)?;
        let Ok(()) = write_all(output, line.as_bytes()) else {
            return Err(Fault::Write);
        };
    }
    Ok(count)
}

/// The value of the next node, of which the evaluation keeps where it stands where the form shows a path.
pub(crate) fn next_shown<'d: 'q, 'q, V: Selectable + 'd>(
    form: Form,
    nodes: &mut LentNodes<'d, 'q, V, Marks>,
) -> Option<Result<V, EvaluationFault>>
    ensures gives { GivesShown form V.meaning nodes.old result nodes.new }
    ensures keeps { IfSome result (λ r. OnOk r (KeepsShown form nodes.old nodes.new)) }
    ensures takes { Takes (steps_of nodes.old) (steps_of nodes.new) }
    ensures stopped { IfSome result (λ r. StopsSpent r (steps_of nodes.new)) }
{
    if form.has_path {
        nodes.next_placed()
    } else {
        nodes.next_value()
    }
}

/// The value of the next node of an evaluation that may make all the steps that it takes.
fn next_unlimited<'d: 'q, 'q, V: Selectable + 'd>(
    form: Form,
    nodes: &mut LentNodes<'d, 'q, V, Marks>,
) -> Option<Result<V, AllocError>>
    requires { (steps_of nodes.now).limited ≡ false }
    ensures gives { GivesShown form V.meaning nodes.old result nodes.new }
    ensures keeps { IfSome result (λ r. OnOk r (KeepsShown form nodes.old nodes.new)) }
    ensures unlimited { (steps_of nodes.new).limited ≡ false }
{
    match next_shown(form, nodes)? {
        Ok(value) => Some(Ok(value)),
        Err(fault) => Some(Err(fault.without_limit())),
    }
}
