//! A run of a query over an input.

ghost use Rattle.std.specs.Prelude.{◌≡◌, ◌⊎◌, IfErr, IfOk, OnOk, length, take};
ghost use Rattle.jp_tree.specs.Views.{query_of};
ghost use Rattle.jp_evaluate.specs.Nodelist.{nodelist};
ghost use Rattle.jp_evaluate.specs.Plan.{nodes_read};
ghost use Rattle.jp_command.specs.Found.{found_nodes};
ghost use Rattle.jp_command.specs.NodeTask.{nodes_taken, output_asked, status_done};
ghost use Rattle.jp_command.specs.Private.Ended.{IsDoneWith, ending};
ghost use Rattle.jp_command.specs.Lines.{lines_of};
ghost use Rattle.jp_command.specs.Output.{WritesAll};
ghost use Rattle.jp_command.specs.Private.Kept.{KeepsRead};
ghost use Rattle.jp_command.specs.Run.{IsAsked, IsNodesOutput, IsOutput, RanOut, RefusesQuery};
ghost use Rattle.jp_command.specs.Run.{RunsEval, RunsNodes};
ghost use Rattle.jp_command.specs.Writes.{WritesByCalls};
ghost use Rattle.jp_command.specs.Written.{GoesAs, StopsWriting};
ghost use Rattle.jp_command.specs.declared.words.Task.TheVariants.{Eval};

use crate::device::{Source, Writer};
use crate::fault::Fault;
use crate::form::Form;
use crate::found::write_found;
use crate::input::read_all;
use crate::limits::QUERY_LIMIT;
use crate::lines::{Spare, selected_lines, write_selected};
use crate::node_task::NodeTask;
use crate::output::write_all;
use jp_check::{Checked, Profile, read_query};
use jp_document::OwnedStep;
use jp_evaluate::Plan;
use jp_held::Excerpt;
use jp_lent::Selectable;
use jp_limit::OutputLimit;
use jp_query::{Refusal, RefusalKind};
use jp_select::Steps;
use std::alloc::Global;

/// Writes a line for each node that `query`, read in that profile, selects in the document that
/// `input` gives, in the nodelist's order (RFC 9535 section 2.1.2).
///
/// The query is read first, and where it is refused the input stays unread; then the input is read
/// to its end; then the document is read; and only then is anything written, each node's line
/// before the next node is looked for. `Query` says that the query has more than `QUERY_LIMIT`
/// bytes (`TextTooLong`) or is refused, `Document` that what was read is no document,
/// `DocumentTooLarge` that more than `DOCUMENT_LIMIT` bytes came, `Read` and `Write` that the input
/// or the output failed: a call that fails is not tried again. `NoMemory` says that memory ran out,
/// at whatever step. After `Write` and `NoMemory` a prefix of the output is written.
///
/// Of the document so much is read into tables as the query's plan says: where it names a location, the
/// value there alone.
pub fn run_eval<R: Source, W: Writer>(
    alloc: Global,
    query: &str,
    profile: Profile,
    form: Form,
    input: &mut R,
    output: &mut W,
) -> Result<(), Fault>
    ensures says { RunsEval profile R.remaining R.has_failed R.read_gives W.contents W.has_failed
        form query.now input.old input.new output.old output.new result }
    ensures calls { WritesByCalls W.write_takes (IsOutput profile R.remaining R.has_failed
        R.read_gives W.contents W.has_failed form query.now input.old input.new)
        output.old output.new result }
{
    let nodes = NodeTask::all(form);
    let mut kept = Vec::new(alloc);
    match run_eval_keeping(alloc, query, profile, nodes, input, &mut kept, output) {
        Ok(_) => Ok(()),
        Err(fault) => Err(fault),
    }
}

/// `run_eval` of the nodes that are asked for, which answers the status of a run that is done; after `Document`
/// what was read is left in `kept`.
pub(crate) fn run_eval_keeping<R: Source, W: Writer>(
    alloc: Global,
    query: &str,
    profile: Profile,
    nodes: NodeTask,
    input: &mut R,
    kept: &mut Vec<u8>,
    output: &mut W,
) -> Result<u8, Fault>
    ensures says { RunsNodes profile R.remaining R.has_failed R.read_gives W.contents W.has_failed
        nodes query.now input.old input.new output.old output.new (ending result) }
    ensures calls { WritesByCalls W.write_takes (IsNodesOutput profile R.remaining R.has_failed
        R.read_gives W.contents W.has_failed nodes query.now input.old input.new)
        output.old output.new (ending result) }
    ensures done { IfOk result (IsDoneWith profile R.remaining R.has_failed R.read_gives W.contents
        W.has_failed W.write_takes (Eval nodes) query.now input.old input.new output.old output.new) }
    ensures kept { IfErr result (KeepsRead profile R.remaining R.has_failed R.read_gives W.contents
        W.has_failed query.now input.old input.new kept.new.items) }
{
    let query = read_within_limit(alloc, query, profile)?;
    let bytes = read_all(alloc, input)?;
    *kept = bytes;
    let plan = Plan::of(alloc, &query)?;
    let read = plan.read(alloc, kept.as_slice(), profile.numbers())?;
    write_read(alloc, nodes, &query, &read, output)
}

/// Writes the lines of the nodes that are asked for, of those that a query has in what was read of a document
/// for it, and answers the status.
fn write_read<W: Writer>(
    alloc: Global,
    nodes: NodeTask,
    query: &Checked,
    read: &Excerpt<'_, '_>,
    output: &mut W,
) -> Result<u8, Fault>
    ensures ok { OnOk result (WritesAll W.contents W.has_failed output.old output.new (lines_of nodes.form
        (nodes_taken nodes.is_first (nodes_read (query_of query.now.query) read.now)))) }
    ensures stopped { IfErr result (StopsWriting W.contents W.has_failed output.old output.new
        (lines_of nodes.form
        (nodes_taken nodes.is_first (nodes_read (query_of query.now.query) read.now)))) }
    ensures calls { GoesAs W.write_takes output.old output.new (lines_of nodes.form
        (nodes_taken nodes.is_first (nodes_read (query_of query.now.query) read.now))) result }
    ensures status { IfOk result (λ status.
        status ≡ status_done nodes.tells_none (nodes_read (query_of query.now.query) read.now)) }
{
    let mut spare = Spare::new(alloc);
    match read {
        Excerpt::Document(flat) => {
            write_output(alloc, nodes, flat.value(), query, &mut spare, output)
        }
        Excerpt::Value(location, found) => {
            write_named(
                alloc,
                nodes,
                location,
                found.value(),
                &mut spare.line,
                output,
            )
        }
    }
}

/// Writes the line of the node that was found at a location, if one was, and answers the status.
fn write_named<V: Selectable, W: Writer>(
    alloc: Global,
    nodes: NodeTask,
    location: &[OwnedStep],
    found: Option<V>,
    line: &mut String,
    output: &mut W,
) -> Result<u8, Fault>
    ensures ok { OnOk result (WritesAll W.contents W.has_failed output.old output.new
        (lines_of nodes.form (found_nodes V.meaning location.now found))) }
    ensures stopped { IfErr result (StopsWriting W.contents W.has_failed output.old output.new
        (lines_of nodes.form (found_nodes V.meaning location.now found))) }
    ensures calls { GoesAs W.write_takes output.old output.new
        (lines_of nodes.form (found_nodes V.meaning location.now found)) result }
    ensures status { IfOk result (λ status.
        status ≡ status_done nodes.tells_none (found_nodes V.meaning location.now found)) }
{
    let Some(value) = found else {
        return Ok(nodes.status(0));
    };
    write_found(alloc, nodes.form, "", location, Some(value), line, output)?;
    Ok(nodes.status(1))
}

/// Writes the lines of the nodes that are asked for, and answers the status.
fn write_output<'d: 'q, 'q, V: Selectable + 'd, W: Writer>(
    alloc: Global,
    nodes: NodeTask,
    root: V,
    query: &'q Checked,
    spare: &mut Spare,
    output: &mut W,
) -> Result<u8, Fault>
    ensures ok { OnOk result (WritesAll W.contents W.has_failed output.old output.new
        (output_asked nodes (query_of query.now.query) (V.meaning root))) }
    ensures stopped { IfErr result (StopsWriting W.contents W.has_failed output.old output.new
        (output_asked nodes (query_of query.now.query) (V.meaning root))) }
    ensures calls { GoesAs W.write_takes output.old output.new
        (output_asked nodes (query_of query.now.query) (V.meaning root)) result }
    ensures status { IfOk result (λ status. status
        ≡ status_done nodes.tells_none (nodelist (query_of query.now.query) (V.meaning root))) }
{
    let count = write_taken(alloc, nodes, root, query, spare, output)?;
    Ok(nodes.status(count))
}

/// Writes the lines of the nodes that are asked for, and answers how many there are.
fn write_taken<'d: 'q, 'q, V: Selectable + 'd, W: Writer>(
    alloc: Global,
    nodes: NodeTask,
    root: V,
    query: &'q Checked,
    spare: &mut Spare,
    output: &mut W,
) -> Result<u64, Fault>
    ensures ok { OnOk result (WritesAll W.contents W.has_failed output.old output.new
        (output_asked nodes (query_of query.now.query) (V.meaning root))) }
    ensures stopped { IfErr result (StopsWriting W.contents W.has_failed output.old output.new
        (output_asked nodes (query_of query.now.query) (V.meaning root))) }
    ensures calls { GoesAs W.write_takes output.old output.new
        (output_asked nodes (query_of query.now.query) (V.meaning root)) result }
    ensures count { IfOk result (λ count. count
        ≡ length (nodes_taken nodes.is_first (nodelist (query_of query.now.query) (V.meaning root)))) }
{
    if nodes.is_first {
        write_first(alloc, nodes.form, root, query, spare, output)
    } else {
        write_selected(alloc, nodes.form, "", root, query, spare, output)
    }
}

/// Writes the line of the first node, if there is one, with which the evaluation stops, and answers how many there
/// are.
fn write_first<'d: 'q, 'q, V: Selectable + 'd, W: Writer>(
    alloc: Global,
    form: Form,
    root: V,
    query: &'q Checked,
    spare: &mut Spare,
    output: &mut W,
) -> Result<u64, Fault>
    ensures ok { OnOk result (WritesAll W.contents W.has_failed output.old output.new
        (lines_of form (take 1 (nodelist (query_of query.now.query) (V.meaning root))))) }
    ensures stopped { IfErr result (StopsWriting W.contents W.has_failed output.old output.new
        (lines_of form (take 1 (nodelist (query_of query.now.query) (V.meaning root))))) }
    ensures calls { GoesAs W.write_takes output.old output.new
        (lines_of form (take 1 (nodelist (query_of query.now.query) (V.meaning root)))) result }
    ensures count { IfOk result (λ count.
        count ≡ length (take 1 (nodelist (query_of query.now.query) (V.meaning root)))) }
{
    let (limit, mut steps) = (OutputLimit::none(), Steps::unlimited());
    let patterns = &mut spare.patterns;
    let Ok(first) = selected_lines(
        alloc,
        form,
        "",
        Some(1),
        limit,
        root,
        query,
        patterns,
        &mut steps,
    ) else {
        return Err(Fault::NoMemory);
    };
    let Ok(()) = write_all(output, first.text.as_bytes()) else {
        return Err(Fault::Write);
    };
    Ok(first.count)
}

/// Reads a query of at most `QUERY_LIMIT` bytes in a profile, as `read_query` does. A longer one is
/// refused with `TextTooLong` at 0.
pub fn read_within_limit(alloc: Global, text: &str, profile: Profile) -> Result<Checked, Refusal>
    ensures asked { IfOk result (λ c. IsAsked profile text.now (query_of c.query)) }
    ensures refused { IfErr result
        (λ refusal. RanOut refusal ⊎ RefusesQuery profile text.now refusal) }
{
    if text.len() > QUERY_LIMIT {
        return Err(Refusal {
            kind: RefusalKind::TextTooLong,
            place: 0,
        });
    }
    read_query(alloc, text, profile)
}
