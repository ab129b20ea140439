//! A run over the lines of an input.

ghost use Rattle.std.specs.Prelude.{◌≡◌, []};
ghost use Rattle.jp_tree.specs.Views.{query_of};
ghost use Rattle.jp_lines.specs.Private.Answers.{HasPlan};
ghost use Rattle.jp_lines.specs.Private.Asking.{RunsAsked};
ghost use Rattle.jp_lines.specs.Private.Passing.{BeginsAtStart};
ghost use Rattle.jp_lines.specs.Request.{IsTaskOf, Request, SelectBy};
ghost use Rattle.jp_lines.specs.Run.{GoesOver, RunsLines};
ghost use Rattle.jp_lines.specs.Task.{Select};
ghost use Rattle.jp_lines.specs.Views.{task_of};
ghost use Rattle.jp_lines.specs.declared.options.Extent.TheVariants as Extent;

use crate::answer::Asked;
use crate::options::{Extent, Options, Wanted};
use crate::passing::{Progress, end_line, pass};
use crate::stop::Stop;
use crate::tally::Tally;
use crate::task::{Selection, Task};
use jp_check::Checked;
use jp_command::{Fault, Output, Source, Writer, chunk_buffer, read_within_limit};
use jp_evaluate::Plan;
use std::alloc::Global;

/// How often an input is read at most, which is more often than any run can.
const READS: u64 = u64::MAX;

/// Runs `query`, read in the profile of the options, over the lines of `input`, each of which is one document
/// (JSON Lines, NDJSON). A line of blanks alone, or of nothing, holds none and is passed over. For
/// each document in turn, what is `wanted` is written before the next line is read from what
/// came; one document is in memory at a time, or so much of it as the query asks for: where it names a
/// location, the value there alone.
///
/// Answers how many documents there are, how many nodes are selected in them, and how many lines are
/// refused: one that is no document, or whose document needs more steps than `limit` says, or of which more
/// comes out than `output_limit` says, is told to
/// `faults`, where `keep_going` asks the run to go on and no more than `reports` says are told, and is else
/// the `Line` that the run stops with. Of a line that is refused nothing is written: where there is a
/// limit, what is written of a document is made in memory first. What can't be
/// written to `faults` is left out, and no further write to it is tried. The other errors are those
/// of a run over one document: `Query` (the input stays unread), `Read`, `Write` and `NoMemory`,
/// which also says that lines, nodes or reads are more than 2^64. What is written then is a prefix
/// of the output: after `Line` and `Read` that of all lines before, and after the others that of all
/// lines that had ended before the last read, or more. The output is flushed only where
/// `line_buffered` asks for it.
pub fn run_lines<R: Source, W: Output, E: Writer>(
    alloc: Global,
    query: &str,
    wanted: Wanted,
    options: Options,
    input: &mut R,
    output: &mut W,
    faults: &mut E,
) -> Result<Tally, Stop>
    ensures { RunsLines options R.remaining R.has_failed R.read_gives
        W.contents W.has_failed E.contents E.has_failed (SelectBy wanted Extent.All query.now)
        input.old input.new output.old output.new faults.old faults.new result }
{
    let query = read_within_limit(alloc, query, options.profile).map_err(Fault::from)?;
    run_selected(
        alloc,
        wanted,
        Extent::All,
        &query,
        options,
        input,
        output,
        faults,
    )
}

/// Runs a query that was read.
fn run_selected<R: Source, W: Output, E: Writer>(
    alloc: Global,
    wanted: Wanted,
    extent: Extent,
    query: &Checked,
    options: Options,
    input: &mut R,
    output: &mut W,
    faults: &mut E,
) -> Result<Tally, Stop>
    ensures { (request : Request)
        → IsTaskOf options.profile request (Select wanted extent (query_of query.now.query))
        → RunsAsked options R.remaining R.has_failed R.read_gives
        W.contents W.has_failed E.contents E.has_failed request
        input.old input.new output.old output.new faults.old faults.new result }
{
    let plan = Plan::of(alloc, query)?;
    let selection = Selection {
        wanted,
        extent,
        query,
        plan: &plan,
    };
    let asked = Asked {
        alloc,
        task: Task::Select(selection),
        options,
        lead: "",
    };
    pass_alone(asked, input, output, faults)
}

/// Runs a task over an input that has no name.
fn pass_alone<R: Source, W: Output, E: Writer>(
    asked: Asked<'_>,
    input: &mut R,
    output: &mut W,
    faults: &mut E,
) -> Result<Tally, Stop>
    requires plan { HasPlan asked.task }
    requires alone { asked.lead.now ≡ [] }
    ensures { (request : Request)
        → IsTaskOf asked.entry.options.profile request (task_of asked.entry.task)
        → RunsAsked asked.entry.options R.remaining R.has_failed R.read_gives
        W.contents W.has_failed E.contents E.has_failed request
        input.old input.new output.old output.new faults.old faults.new result }
{
    let (tally, ended) = pass_all(asked, input, output, faults);
    match ended {
        Ok(()) => Ok(tally),
        Err(stop) => Err(stop),
    }
}

/// Goes over the lines of an input with a task. Answers what they count, or those before a stop, and how
/// it ended.
pub(crate) fn pass_all<R: Source, W: Output, E: Writer>(
    asked: Asked<'_>,
    input: &mut R,
    output: &mut W,
    faults: &mut E,
) -> (Tally, Result<(), Stop>)
    requires plan { HasPlan asked.task }
    ensures { GoesOver asked.entry.options asked.entry.lead.now R.remaining R.has_failed R.read_gives
        W.contents W.has_failed E.contents E.has_failed (task_of asked.entry.task)
        input.old input.new output.old output.new faults.old faults.new result.0 result.1 }
{
    let mut progress = Progress::new(asked.alloc);
    let ended = pass_reads(asked, &mut progress, input, output, faults);
    (progress.tally, ended)
}

/// Goes over an input from the start of the first line on; what is counted stands in `progress`.
fn pass_reads<R: Source, W: Output, E: Writer>(
    asked: Asked<'_>,
    progress: &mut Progress,
    input: &mut R,
    output: &mut W,
    faults: &mut E,
) -> Result<(), Stop>
    requires plan { HasPlan asked.task }
    requires start { BeginsAtStart progress.now }
    ensures { GoesOver asked.entry.options asked.entry.lead.now R.remaining R.has_failed R.read_gives
        W.contents W.has_failed E.contents E.has_failed (task_of asked.entry.task)
        input.old input.new output.old output.new faults.old faults.new progress.new.tally result }
{
    let mut chunk = chunk_buffer(asked.alloc)?;
    for _ in 0..READS {
        let Ok(count) = input.read(chunk.as_mut_slice()) else {
            return Err(Stop::Run(Fault::Read));
        };
        if count == 0 {
            end_line(asked, progress, output, faults)?;
            return Ok(());
        }
        pass(asked, progress, &chunk[..count], output, faults)?;
    }
    Err(Stop::Run(Fault::NoMemory))
}
