//! What one line comes to.

ghost use Rattle.std.specs.Prelude.{◌≡◌, ◌≤◌, IfErr, IfOk, false, length};
ghost use Rattle.jp_tree.specs.Views.{query_of};
ghost use Rattle.jp_evaluate.specs.Plan.{Serves, nodes_read};
ghost use Rattle.jp_reading.specs.Characters.{tab};
ghost use Rattle.jp_command.specs.Limits.{document_limit};
ghost use Rattle.jp_command.specs.Written.{StopsWriting};
ghost use Rattle.jp_lines.specs.Lines.{is_blank_line};
ghost use Rattle.jp_lines.specs.Outcome.{lead_of};
ghost use Rattle.jp_lines.specs.Private.Answers.{AnswersOrRefuses, HasPlan, ServesTask};
ghost use Rattle.jp_lines.specs.Private.Answers.{StopsAnswering, defect_of};
ghost use Rattle.jp_lines.specs.Private.Limits.{WritesOrGivesUp, WritesWithin};
ghost use Rattle.jp_lines.specs.Task.{nodes_output, nodes_within};
ghost use Rattle.jp_lines.specs.Views.{selection_task, task_of};

use crate::defect::Defect;
use crate::options::Options;
use crate::task::{Selection, Task};
use crate::wanted::{write_for, write_selection, write_wanted_at};
use jp_command::{DOCUMENT_LIMIT, Fault, Spare, Writer};
use jp_document::DocumentFault;
use jp_evaluate::Plan;
use jp_flat::Room;
use jp_held::Excerpt;
use std::alloc::Global;
use std::mem;

/// What is asked of each line.
#[derive(Clone, Copy)]
pub(crate) struct Asked<'q> {
    pub(crate) alloc: Global,
    pub(crate) task: Task<'q>,
    pub(crate) options: Options,
    /// What the reports of this input begin with: its name, a colon and a space, or nothing.
    pub(crate) lead: &'q str,
}

/// What a line comes to.
#[derive(Drop)]
pub(crate) enum Reply {
    /// It holds no document.
    Blank,
    /// All that is to be written of its document is written; how many nodes are selected in it, or 1 where
    /// it is kept.
    Written(u64),
    /// It is refused, and nothing is written of it.
    Refused(Defect),
}

/// The memory that goes from one line to the next.
#[derive(Drop)]
pub(crate) struct Memory {
    pub(crate) room: Room,
    /// What each line of output begins with.
    pub(crate) lead: String,
    pub(crate) spare: Spare,
    pub(crate) cells: jp_cells::Room,
}

impl Memory {
    /// None yet: it is taken as lines need it.
    pub(crate) fn new(alloc: Global) -> Memory {
        Memory {
            room: Room::new(alloc),
            lead: String::new(alloc),
            spare: Spare::new(alloc),
            cells: jp_cells::Room::new(alloc),
        }
    }
}

/// Whether a line has blanks alone, or nothing.
fn is_blank_line(line: &[u8]) -> bool
    ensures { result ≡ is_blank_line line.now }
{
    line.iter()
        .all(|byte| matches!(*byte, b' ' | b'\t' | b'\n' | b'\r'))
}

/// Writes what is asked of the line's document, or answers the line's defect and writes nothing. Of
/// a line with more than `DOCUMENT_LIMIT` bytes, one byte more than that is enough.
pub(crate) fn answer<W: Writer>(
    asked: Asked<'_>,
    number: u64,
    line: &[u8],
    memory: &mut Memory,
    output: &mut W,
) -> Result<Reply, Fault>
    requires plan { HasPlan asked.task }
    ensures answers { IfOk result (AnswersOrRefuses W.contents W.has_failed asked.entry.options
        (task_of asked.entry.task) number line.now output.old output.new) }
    ensures stopped { IfErr result (StopsAnswering W.contents W.has_failed asked.entry.options
        (task_of asked.entry.task) number line.now output.old output.new) }
{
    if line.len() > DOCUMENT_LIMIT {
        return Ok(Reply::Refused(Defect::TooLarge));
    }
    if is_blank_line(line) {
        return Ok(Reply::Blank);
    }
    match asked.task {
        Task::Select(selection) => {
            answer_selection(asked, selection, number, line, memory, output)
        }
        Task::Keep(keeping) => {
            answer_document(asked, keeping.plan, number, line, memory, output)
        }
        Task::Tabulate(columns) => {
            answer_document(asked, columns.plan, number, line, memory, output)
        }
    }
}

/// Answers a line that is not blank with what is selected in it. So much of the document is read as the
/// query's plan says.
fn answer_selection<W: Writer>(
    asked: Asked<'_>,
    selection: Selection<'_>,
    number: u64,
    line: &[u8],
    memory: &mut Memory,
    output: &mut W,
) -> Result<Reply, Fault>
    requires plan { Serves (query_of selection.query.now.query) selection.plan.now.portion }
    requires few { length line.now ≤ document_limit }
    requires some { is_blank_line line.now ≡ false }
    ensures answers { IfOk result (AnswersOrRefuses W.contents W.has_failed asked.entry.options
        (selection_task selection.entry) number line.now output.old output.new) }
    ensures stopped { IfErr result (StopsAnswering W.contents W.has_failed asked.entry.options
        (selection_task selection.entry) number line.now output.old output.new) }
{
    let room = mem::replace(&mut memory.room, Room::new(asked.alloc));
    let numbers = asked.options.profile.numbers();
    match selection.plan.read_into(asked.alloc, room, line, numbers) {
        Ok(read) => {
            let answer = write_read(asked, selection, number, &read, memory, output);
            memory.room = read.into_room();
            answer
        }
        Err((room, fault)) => {
            memory.room = room;
            defect_of(fault)
        }
    }
}

/// Writes what is asked of the nodes that a selection has in what was read of a document for it.
fn write_read<W: Writer>(
    asked: Asked<'_>,
    selection: Selection<'_>,
    number: u64,
    read: &Excerpt<'_, '_>,
    memory: &mut Memory,
    output: &mut W,
) -> Result<Reply, Fault>
    ensures ok { IfOk result (WritesOrGivesUp W.contents W.has_failed asked.entry.options
        (length (nodes_within selection.entry.extent
        (nodes_read (query_of selection.entry.query.now.query) read.now)))
        (nodes_output selection.entry.wanted (lead_of tab asked.entry.options.numbered number)
        (nodes_within selection.entry.extent
        (nodes_read (query_of selection.entry.query.now.query) read.now))) output.old output.new) }
    ensures stopped { IfErr result (StopsWriting W.contents W.has_failed output.old output.new
        (nodes_output selection.entry.wanted (lead_of tab asked.entry.options.numbered number)
        (nodes_within selection.entry.extent
        (nodes_read (query_of selection.entry.query.now.query) read.now)))) }
    ensures within { IfErr result (WritesWithin W.contents W.has_failed asked.entry.options
        (length (nodes_within selection.entry.extent
        (nodes_read (query_of selection.entry.query.now.query) read.now)))
        (nodes_output selection.entry.wanted (lead_of tab asked.entry.options.numbered number)
        (nodes_within selection.entry.extent
        (nodes_read (query_of selection.entry.query.now.query) read.now))) output.old output.new) }
{
    match read {
        Excerpt::Document(flat) => {
            let root = flat.value();
            write_selection(asked, selection, number, root, memory, output)
        }
        Excerpt::Value(location, found) => {
            let value = found.value();
            let wanted = selection.wanted;
            write_wanted_at(asked, wanted, number, location, value, memory, output)
        }
    }
}

/// Answers a line that is not blank with what is asked of its document, of which so much is read as the
/// task's plan says.
fn answer_document<W: Writer>(
    asked: Asked<'_>,
    plan: &Plan,
    number: u64,
    line: &[u8],
    memory: &mut Memory,
    output: &mut W,
) -> Result<Reply, Fault>
    requires plan { ServesTask (task_of asked.task) plan.now.portion }
    requires few { length line.now ≤ document_limit }
    requires some { is_blank_line line.now ≡ false }
    ensures answers { IfOk result (AnswersOrRefuses W.contents W.has_failed asked.entry.options
        (task_of asked.entry.task) number line.now output.old output.new) }
    ensures stopped { IfErr result (StopsAnswering W.contents W.has_failed asked.entry.options
        (task_of asked.entry.task) number line.now output.old output.new) }
{
    let room = mem::replace(&mut memory.room, Room::new(asked.alloc));
    let numbers = asked.options.profile.numbers();
    match plan.read_document(asked.alloc, room, line, numbers) {
        Ok(flat) => {
            let answer = write_for(asked, number, line, flat.value(), memory, output);
            memory.room = flat.into_room();
            answer
        }
        Err((room, fault)) => {
            memory.room = room;
            defect_of(fault)
        }
    }
}

/// The defect of a line with that fault. Want of memory is none.
fn defect_of(fault: DocumentFault) -> Result<Reply, Fault>
    ensures { result ≡ defect_of fault }
{
    match fault {
        DocumentFault::NoMemory => Err(Fault::NoMemory),
        fault => Ok(Reply::Refused(Defect::Document(fault))),
    }
}
