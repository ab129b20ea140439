//! What is written of a document.

ghost use Rattle.std.specs.Prelude.{◌≡◌, ◌++◌, ◌<◌, IfErr, IfOk, OnOk, codes, map};
ghost use Rattle.std.specs.Prelude.{length, string_bytes};
ghost use Rattle.std.specs.Fmt.{decimal};
ghost use Rattle.std.specs.List.{flat_map};
ghost use Rattle.jp_tree.specs.Views.{query_of};
ghost use Rattle.jp_select.specs.Steps.{Takes};
ghost use Rattle.jp_evaluate.specs.Nodelist.{nodelist};
ghost use Rattle.jp_command.specs.Lead.{line_behind};
ghost use Rattle.jp_command.specs.Selecting.{IsBeyond, StopsOnlySpent};
ghost use Rattle.jp_command.specs.Found.{found_nodes};
ghost use Rattle.jp_command.specs.Output.{WritesAll};
ghost use Rattle.jp_command.specs.Written.{StopsWriting};
ghost use Rattle.jp_cells.specs.Columns.{columns_text};
ghost use Rattle.jp_cells.specs.Rows.{separator};
ghost use Rattle.jp_reading.specs.Characters.{tab};
ghost use Rattle.jp_lines.specs.Names.{names_before, names_text};
ghost use Rattle.jp_lines.specs.Outcome.{lead_of};
ghost use Rattle.jp_lines.specs.Private.Limits.{IsAllowed, WritesOrGivesUp, WritesWithin};
ghost use Rattle.jp_lines.specs.Task.{mark_behind_number, nodes_output, nodes_within, selected_in};
ghost use Rattle.jp_lines.specs.Task.{written_for};
ghost use Rattle.jp_lines.specs.Views.{columns_task, selection_task, task_of};

use crate::answer::{Asked, Memory, Reply};
use crate::count::count_selected;
use crate::defect::Defect;
use crate::keeping::write_kept;
use crate::limits::{allowed_by, defect_of_output, fault_of_row, most_within, stop_of};
use crate::options::{Extent, Options, Wanted};
use crate::task::{Columns, Selection, Task};
use itoa::Buffer;
use jp_cells::{Format, Style, push_columns, push_row};
use jp_command::{
    Fault, Form, SelectionFault, Spare, Writer, push_found, selected_lines, write_all,
    write_selected,
};
use jp_document::OwnedStep;
use jp_lent::Selectable;
use jp_limit::OutputLimit;
use jp_select::Steps;
use std::alloc::{AllocError, Global};

/// Writes what is asked of the document whose value is the root, in this line of the input, or answers
/// that the steps did not suffice for it.
pub(crate) fn write_for<'d: 'q, 'q, V: Selectable + 'd, W: Writer>(
    asked: Asked<'q>,
    number: u64,
    line: &[u8],
    root: V,
    memory: &mut Memory,
    output: &mut W,
) -> Result<Reply, Fault>
    ensures ok { IfOk result (WritesOrGivesUp W.contents W.has_failed asked.entry.options
        (selected_in (task_of asked.entry.task) (V.meaning root))
        (written_for (task_of asked.entry.task)
        (lead_of (mark_behind_number (task_of asked.entry.task)) asked.entry.options.numbered number)
        line.now (V.meaning root)) output.old output.new) }
    ensures stopped { IfErr result (StopsWriting W.contents W.has_failed output.old output.new
        (written_for (task_of asked.entry.task)
        (lead_of (mark_behind_number (task_of asked.entry.task)) asked.entry.options.numbered number)
        line.now (V.meaning root))) }
    ensures within { IfErr result (WritesWithin W.contents W.has_failed asked.entry.options
        (selected_in (task_of asked.entry.task) (V.meaning root))
        (written_for (task_of asked.entry.task)
        (lead_of (mark_behind_number (task_of asked.entry.task)) asked.entry.options.numbered number)
        line.now (V.meaning root)) output.old output.new) }
{
    match asked.task {
        Task::Select(selection) => {
            write_selection(asked, selection, number, root, memory, output)
        }
        Task::Keep(keeping) => {
            set_lead(asked.options.numbered, number, '\t', &mut memory.lead)?;
            let lead = memory.lead.as_str();
            let patterns = &mut memory.spare.patterns;
            write_kept(asked, keeping.filter, lead, line, root, patterns, output)
        }
        Task::Tabulate(columns) => write_columns(asked, columns, number, root, memory, output),
    }
}

/// Writes what is asked of the nodes that a selection has in the document whose value is the root.
pub(crate) fn write_selection<'d: 'q, 'q, V: Selectable + 'd, W: Writer>(
    asked: Asked<'q>,
    selection: Selection<'q>,
    number: u64,
    root: V,
    memory: &mut Memory,
    output: &mut W,
) -> Result<Reply, Fault>
    ensures ok { IfOk result (WritesOrGivesUp W.contents W.has_failed asked.entry.options
        (selected_in (selection_task selection.entry) (V.meaning root))
        (nodes_output selection.entry.wanted (lead_of tab asked.entry.options.numbered number)
        (nodes_within selection.entry.extent
        (nodelist (query_of selection.entry.query.now.query) (V.meaning root)))) output.old output.new) }
    ensures stopped { IfErr result (StopsWriting W.contents W.has_failed output.old output.new
        (nodes_output selection.entry.wanted (lead_of tab asked.entry.options.numbered number)
        (nodes_within selection.entry.extent
        (nodelist (query_of selection.entry.query.now.query) (V.meaning root))))) }
    ensures within { IfErr result (WritesWithin W.contents W.has_failed asked.entry.options
        (selected_in (selection_task selection.entry) (V.meaning root))
        (nodes_output selection.entry.wanted (lead_of tab asked.entry.options.numbered number)
        (nodes_within selection.entry.extent
        (nodelist (query_of selection.entry.query.now.query) (V.meaning root)))) output.old output.new) }
{
    set_lead(asked.options.numbered, number, '\t', &mut memory.lead)?;
    let lead = memory.lead.as_str();
    write_wanted(asked, selection, lead, root, &mut memory.spare, output)
}

/// Writes the row of a document. Nothing is written before all of the row is made.
fn write_columns<'d: 'q, 'q, V: Selectable + 'd, W: Writer>(
    asked: Asked<'q>,
    columns: Columns<'q>,
    number: u64,
    root: V,
    memory: &mut Memory,
    output: &mut W,
) -> Result<Reply, Fault>
    ensures ok { IfOk result (WritesOrGivesUp W.contents W.has_failed asked.entry.options
        (selected_in (columns_task columns.entry) (V.meaning root))
        (lead_of (separator columns.entry.style.format) asked.entry.options.numbered number
        ++ columns_text columns.entry.style (map (λ c. query_of c.query) columns.entry.queries.now)
        (V.meaning root)) output.old output.new) }
    ensures stopped { IfErr result (StopsWriting W.contents W.has_failed output.old output.new
        (lead_of (separator columns.entry.style.format) asked.entry.options.numbered number
        ++ columns_text columns.entry.style (map (λ c. query_of c.query) columns.entry.queries.now)
        (V.meaning root))) }
    ensures within { IfErr result (WritesWithin W.contents W.has_failed asked.entry.options
        (selected_in (columns_task columns.entry) (V.meaning root))
        (lead_of (separator columns.entry.style.format) asked.entry.options.numbered number
        ++ columns_text columns.entry.style (map (λ c. query_of c.query) columns.entry.queries.now)
        (V.meaning root)) output.old output.new) }
{
    let allowed = allowed_by(asked.options.limit);
    let mut steps = allowed;
    let Columns { style, queries, .. } = columns;
    let line = &mut memory.spare.line;
    set_lead(
        asked.options.numbered,
        number,
        mark_between(style.format),
        line,
    )?;
    let cells = &mut memory.cells;
    match push_columns(
        asked.alloc,
        style,
        asked.options.output_limit,
        root,
        queries,
        cells,
        &mut steps,
        line,
    ) {
        Ok(selected) => write_within(asked.options, selected, line.as_str(), output),
        Err(fault) => stop_of(fault_of_row(fault), allowed.left() - steps.left()),
    }
}

/// Writes a row of these names, if it is to be, behind `line` where the rows begin with numbers.
pub(crate) fn write_names<W: Writer>(
    alloc: Global,
    style: Style,
    named: bool,
    numbered: bool,
    names: &[&str],
    output: &mut W,
) -> Result<(), Fault>
    ensures ok { OnOk result (WritesAll W.contents W.has_failed output.old output.new
        (names_before style named numbered (map (λ t. t.now) names.now))) }
    ensures stopped { IfErr result (StopsWriting W.contents W.has_failed output.old output.new
        (names_before style named numbered (map (λ t. t.now) names.now))) }
{
    if !named {
        return Ok(());
    }
    let row = names_row(alloc, style, numbered, names)?;
    write_text(row.as_str(), output)
}

/// The row of these names.
fn names_row(
    alloc: Global,
    style: Style,
    numbered: bool,
    names: &[&str],
) -> Result<String, AllocError>
    ensures { IfOk result (λ row. string_bytes row
        ≡ names_text style numbered (map (λ t. t.now) names.now)) }
{
    let mut row = String::new(alloc);
    if numbered {
        row.push_str("line")?;
        row.push(mark_between(style.format))?;
    }
    push_row(Style { raw: true, ..style }, names, &mut row)?;
    Ok(row)
}

/// What stands between two cells.
fn mark_between(format: Format) -> char
    ensures { result ≡ separator format }
{
    match format {
        Format::Tabs => '\t',
        Format::Csv => ',',
    }
}

/// Writes what is asked of the nodes that a selection has in a document, behind the text `lead`.
fn write_wanted<'d: 'q, 'q, V: Selectable + 'd, W: Writer>(
    asked: Asked<'q>,
    selection: Selection<'q>,
    lead: &str,
    root: V,
    spare: &mut Spare,
    output: &mut W,
) -> Result<Reply, Fault>
    ensures ok { IfOk result (WritesOrGivesUp W.contents W.has_failed asked.entry.options
        (length (nodes_within selection.entry.extent
        (nodelist (query_of selection.entry.query.now.query) (V.meaning root))))
        (nodes_output selection.entry.wanted lead.now
        (nodes_within selection.entry.extent
        (nodelist (query_of selection.entry.query.now.query) (V.meaning root)))) output.old output.new) }
    ensures stopped { IfErr result (StopsWriting W.contents W.has_failed output.old output.new
        (nodes_output selection.entry.wanted lead.now
        (nodes_within selection.entry.extent
        (nodelist (query_of selection.entry.query.now.query) (V.meaning root))))) }
    ensures within { IfErr result (WritesWithin W.contents W.has_failed asked.entry.options
        (length (nodes_within selection.entry.extent
        (nodelist (query_of selection.entry.query.now.query) (V.meaning root))))
        (nodes_output selection.entry.wanted lead.now
        (nodes_within selection.entry.extent
        (nodelist (query_of selection.entry.query.now.query) (V.meaning root)))) output.old output.new) }
{
    let Options {
        limit,
        output_limit,
        ..
    } = asked.options;
    match (selection.wanted, selection.extent, limit, output_limit) {
        (
            Wanted::Nodes(form),
            Extent::All,
            None,
            OutputLimit {
                nodes: None,
                bytes: None,
            },
        ) => {
            let selected = write_selected(
                asked.alloc,
                form,
                lead,
                root,
                selection.query,
                spare,
                output,
            )?;
            Ok(Reply::Written(selected))
        }
        _ => write_whole(
            asked,
            selection,
            lead,
            allowed_by(limit),
            root,
            spare,
            output,
        ),
    }
}

/// Writes that with the steps that are allowed, by way of memory: nothing is written before all of it is
/// made, and is no more than may come out of one document.
fn write_whole<'d: 'q, 'q, V: Selectable + 'd, W: Writer>(
    asked: Asked<'q>,
    selection: Selection<'q>,
    lead: &str,
    allowed: Steps,
    root: V,
    spare: &mut Spare,
    output: &mut W,
) -> Result<Reply, Fault>
    requires { IsAllowed asked.options.limit allowed }
    ensures ok { IfOk result (WritesOrGivesUp W.contents W.has_failed asked.entry.options
        (length (nodes_within selection.entry.extent
        (nodelist (query_of selection.entry.query.now.query) (V.meaning root))))
        (nodes_output selection.entry.wanted lead.now
        (nodes_within selection.entry.extent
        (nodelist (query_of selection.entry.query.now.query) (V.meaning root)))) output.old output.new) }
    ensures stopped { IfErr result (StopsWriting W.contents W.has_failed output.old output.new
        (nodes_output selection.entry.wanted lead.now
        (nodes_within selection.entry.extent
        (nodelist (query_of selection.entry.query.now.query) (V.meaning root))))) }
    ensures within { IfErr result (WritesWithin W.contents W.has_failed asked.entry.options
        (length (nodes_within selection.entry.extent
        (nodelist (query_of selection.entry.query.now.query) (V.meaning root))))
        (nodes_output selection.entry.wanted lead.now
        (nodes_within selection.entry.extent
        (nodelist (query_of selection.entry.query.now.query) (V.meaning root)))) output.old output.new) }
{
    let mut steps = allowed;
    match make_wanted(asked, selection, lead, root, spare, &mut steps) {
        Ok(selected) => write_within(asked.options, selected, spare.line.as_str(), output),
        Err(fault) => stop_of(fault, allowed.left() - steps.left()),
    }
}

/// Makes `spare.line` what is asked of the document whose value is the root, and answers how many nodes
/// it is of.
fn make_wanted<'d: 'q, 'q, V: Selectable + 'd>(
    asked: Asked<'q>,
    selection: Selection<'q>,
    lead: &str,
    root: V,
    spare: &mut Spare,
    steps: &mut Steps,
) -> Result<u64, SelectionFault>
    ensures made { OnOk result (string_bytes spare.new.line ≡ nodes_output selection.entry.wanted
        lead.now (nodes_within selection.entry.extent
        (nodelist (query_of selection.entry.query.now.query) (V.meaning root)))) }
    ensures count { IfOk result (λ count. count ≡ length (nodes_within selection.entry.extent
        (nodelist (query_of selection.entry.query.now.query) (V.meaning root)))) }
    ensures beyond { IfErr result (IsBeyond asked.entry.options.output_limit
        (length (nodes_within selection.entry.extent
        (nodelist (query_of selection.entry.query.now.query) (V.meaning root))))
        (length (nodes_output selection.entry.wanted lead.now
        (nodes_within selection.entry.extent
        (nodelist (query_of selection.entry.query.now.query) (V.meaning root)))))) }
    ensures takes { Takes steps.old steps.new }
    ensures stopped { StopsOnlySpent result steps.new }
{
    let patterns = &mut spare.patterns;
    match selection.wanted {
        Wanted::Nodes(form) => {
            let lines = selected_lines(
                asked.alloc,
                form,
                lead,
                most_within(selection.extent),
                asked.options.output_limit,
                root,
                selection.query,
                patterns,
                steps,
            )?;
            spare.line = lines.text;
            Ok(lines.count)
        }
        Wanted::Count => {
            let count = count_selected(
                asked.alloc,
                selection.extent,
                asked.options.output_limit.nodes,
                root,
                selection.query,
                patterns,
                steps,
            )?;
            push_count(lead, count, &mut spare.line)?;
            Ok(count)
        }
    }
}

/// Writes what is asked of a document in which the query selects the value at the location alone, or
/// nothing where there is none.
pub(crate) fn write_wanted_at<V: Selectable, W: Writer>(
    asked: Asked<'_>,
    wanted: Wanted,
    number: u64,
    location: &[OwnedStep],
    value: Option<V>,
    memory: &mut Memory,
    output: &mut W,
) -> Result<Reply, Fault>
    ensures ok { IfOk result (WritesOrGivesUp W.contents W.has_failed asked.entry.options
        (length (found_nodes V.meaning location.now value))
        (nodes_output wanted (lead_of tab asked.entry.options.numbered number)
        (found_nodes V.meaning location.now value)) output.old output.new) }
    ensures stopped { IfErr result (StopsWriting W.contents W.has_failed output.old output.new
        (nodes_output wanted (lead_of tab asked.entry.options.numbered number)
        (found_nodes V.meaning location.now value))) }
    ensures within { IfErr result (WritesWithin W.contents W.has_failed asked.entry.options
        (length (found_nodes V.meaning location.now value))
        (nodes_output wanted (lead_of tab asked.entry.options.numbered number)
        (found_nodes V.meaning location.now value)) output.old output.new) }
{
    let lead = &mut memory.lead;
    let line = &mut memory.spare.line;
    set_lead(asked.options.numbered, number, '\t', lead)?;
    let lead = lead.as_str();
    let selected = u64::from(value.is_some());
    match wanted {
        Wanted::Nodes(form) => push_found_behind(form, lead, location, value, line)?,
        Wanted::Count => push_count(lead, selected, line)?,
    }
    write_within(asked.options, selected, line.as_str(), output)
}

/// Makes `line` the line of the node that was found at the location, behind `lead`, or nothing where there is
/// none.
fn push_found_behind<V: Selectable>(
    form: Form,
    lead: &str,
    location: &[OwnedStep],
    value: Option<V>,
    line: &mut String,
) -> Result<(), AllocError>
    ensures { OnOk result (string_bytes line.new
        ≡ flat_map (line_behind lead.now form) (found_nodes V.meaning location.now value)) }
{
    line.clear();
    if value.is_some() {
        line.push_str(lead)?;
    }
    push_found(form, location, value, line)
}

/// Makes `lead` what each line of output begins with: the number, where it is asked for, and a mark.
fn set_lead(numbered: bool, number: u64, mark: char, lead: &mut String) -> Result<(), AllocError>
    requires { mark < 128 }
    ensures { OnOk result (string_bytes lead.new ≡ lead_of mark numbered number) }
{
    lead.clear();
    if numbered {
        let mut buffer = Buffer::new();
        lead.push_str(buffer.format(number))?;
        lead.push(mark)?;
    }
    Ok(())
}

/// Writes a text that shows so many nodes, unless that is more than may come out of one document.
fn write_within<W: Writer>(
    options: Options,
    selected: u64,
    text: &str,
    output: &mut W,
) -> Result<Reply, Fault>
    ensures ok { IfOk result (WritesOrGivesUp W.contents W.has_failed options selected text.now
        output.old output.new) }
    ensures stopped { IfErr result (StopsWriting W.contents W.has_failed output.old output.new
        text.now) }
    ensures within { IfErr result (WritesWithin W.contents W.has_failed options selected text.now
        output.old output.new) }
{
    match defect_of_output(options.output_limit, selected, text.len()) {
        Some(defect) => Ok(Reply::Refused(defect)),
        None => {
            write_text(text, output)?;
            Ok(Reply::Written(selected))
        }
    }
}

/// Writes a text.
pub(crate) fn write_text<W: Writer>(text: &str, output: &mut W) -> Result<(), Fault>
    ensures ok { OnOk result (WritesAll W.contents W.has_failed output.old output.new text.now) }
    ensures stopped { IfErr result (StopsWriting W.contents W.has_failed output.old output.new
        text.now) }
{
    write_bytes(text.as_bytes(), output)
}

/// Writes bytes.
pub(crate) fn write_bytes<W: Writer>(bytes: &[u8], output: &mut W) -> Result<(), Fault>
    ensures ok { OnOk result (WritesAll W.contents W.has_failed output.old output.new bytes.now) }
    ensures stopped { IfErr result (StopsWriting W.contents W.has_failed output.old output.new
        bytes.now) }
{
    match write_all(output, bytes) {
        Ok(()) => Ok(()),
        Err(_) => Err(Fault::Write),
    }
}

/// Makes `text` the line of a count.
fn push_count(lead: &str, count: u64, text: &mut String) -> Result<(), AllocError>
    ensures { OnOk result (string_bytes text.new ≡ lead.now ++ decimal count ++ codes "\n") }
{
    let mut buffer = Buffer::new();
    text.clear();
    text.push_str(lead)?;
    text.push_str(buffer.format(count))?;
    text.push('\n')
}
