//! Runs over inputs.

ghost use Rattle.std.specs.Prelude.{◌≡◌, map};
ghost use Rattle.jp_command.specs.Output.{WritesAll};
ghost use Rattle.jp_lines.specs.Names.{begin_of};
ghost use Rattle.jp_lines.specs.Private.Answers.{HasPlan};
ghost use Rattle.jp_lines.specs.Program.{Flushes, RunsJob, RunsWhole};
ghost use Rattle.jp_lines.specs.Request.{ColumnsBy, KeepBy, SelectBy};
ghost use Rattle.jp_lines.specs.Request as asking;
ghost use Rattle.jp_lines.specs.Views.{job_of, task_of};

use crate::answer::Asked;
use crate::halt::{Ended, Halt, Passed, Unbegun};
use crate::inputs::Inputs;
use crate::opening::pass_inputs;
use crate::options::{Extent, Wanted};
use crate::reading::{read_all, read_keeping, read_query};
use crate::task::{Columns, Job, Keeping, Request, Selection, Task};
use crate::wanted::write_names;
use jp_cells::Style;
use jp_command::{Fault, Output, Writer};
use jp_evaluate::Plan;
use std::alloc::Global;

/// Does what a job asks. The output is flushed where the run ends, unless a write that failed ended it.
pub(crate) fn run_job<'w, I: Inputs, W: Output, E: Writer>(
    alloc: Global,
    job: &Job<'w>,
    inputs: &mut I,
    output: &mut W,
    faults: &mut E,
) -> Result<Ended, Unbegun<'w>>
    ensures { RunsJob I.opens I.Input.remaining I.Input.has_failed I.Input.read_gives
        W.contents W.has_failed W.write_takes W.holds_back E.contents E.has_failed
        (job_of job.now) inputs.old inputs.new output.old output.new faults.old faults.new
        result }
{
    match &job.request {
        Request::SelectBy(wanted, extent, query) => {
            run_selected(alloc, job, *wanted, *extent, query, inputs, output, faults)
        }
        Request::KeepBy(text) => run_kept(alloc, job, text, inputs, output, faults),
        Request::ColumnsBy(style, named, texts) => {
            run_columns(alloc, job, *style, *named, texts, inputs, output, faults)
        }
    }
}

/// Runs a selection.
fn run_selected<'w, I: Inputs, W: Output, E: Writer>(
    alloc: Global,
    job: &Job<'_>,
    wanted: Wanted,
    extent: Extent,
    text: &'w str,
    inputs: &mut I,
    output: &mut W,
    faults: &mut E,
) -> Result<Ended, Unbegun<'w>>
    ensures { RunsJob I.opens I.Input.remaining I.Input.has_failed I.Input.read_gives
        W.contents W.has_failed W.write_takes W.holds_back E.contents E.has_failed
        (record (job_of job.now) { request = SelectBy wanted extent text.now }) inputs.old inputs.new output.old output.new faults.old faults.new
        result }
{
    let query = read_query(alloc, text, job.options.profile)?;
    let plan = Plan::of(alloc, &query)?;
    let selection = Selection {
        wanted,
        extent,
        query: &query,
        plan: &plan,
    };
    Ok(run_task(alloc, Task::Select(selection), job, inputs, output, faults))
}

/// Runs an expression, whose lines are kept.
fn run_kept<'w, I: Inputs, W: Output, E: Writer>(
    alloc: Global,
    job: &Job<'_>,
    text: &'w str,
    inputs: &mut I,
    output: &mut W,
    faults: &mut E,
) -> Result<Ended, Unbegun<'w>>
    ensures { RunsJob I.opens I.Input.remaining I.Input.has_failed I.Input.read_gives
        W.contents W.has_failed W.write_takes W.holds_back E.contents E.has_failed
        (record (job_of job.now) { request = KeepBy text.now }) inputs.old inputs.new output.old output.new faults.old faults.new
        result }
{
    let filter = read_keeping(alloc, text, job.options.profile)?;
    let plan = Plan::of_test(alloc, &filter)?;
    let keeping = Keeping {
        filter: &filter,
        plan: &plan,
    };
    Ok(run_task(alloc, Task::Keep(keeping), job, inputs, output, faults))
}

/// Runs columns, which have names or not.
fn run_columns<'w, I: Inputs, W: Output, E: Writer>(
    alloc: Global,
    job: &Job<'_>,
    style: Style,
    named: bool,
    texts: &[&'w str],
    inputs: &mut I,
    output: &mut W,
    faults: &mut E,
) -> Result<Ended, Unbegun<'w>>
    ensures { RunsJob I.opens I.Input.remaining I.Input.has_failed I.Input.read_gives
        W.contents W.has_failed W.write_takes W.holds_back E.contents E.has_failed
        (record (job_of job.now) { request = ColumnsBy style named (map (λ t. t.now) texts.now) }) inputs.old inputs.new output.old output.new faults.old faults.new
        result }
{
    let queries = read_all(alloc, texts, job.options.profile)?;
    let plan = Plan::of_all(alloc, &queries)?;
    write_names(alloc, style, named, job.options.numbered, texts, output)?;
    let columns = Columns {
        style,
        queries: &queries,
        plan: &plan,
    };
    Ok(run_task(alloc, Task::Tabulate(columns), job, inputs, output, faults))
}

/// Goes over all inputs with a task, and flushes the output.
fn run_task<I: Inputs, W: Output, E: Writer>(
    alloc: Global,
    task: Task<'_>,
    job: &Job<'_>,
    inputs: &mut I,
    output: &mut W,
    faults: &mut E,
) -> Ended
    requires { HasPlan task }
    ensures { (o : W) (request : asking.Request)
        → WritesAll W.contents W.has_failed o output.old (begin_of job.now.options request)
        → RunsWhole I.opens I.Input.remaining I.Input.has_failed I.Input.read_gives
        W.contents W.has_failed W.write_takes W.holds_back E.contents E.has_failed
        job.now.options request (job_of job.now).inputs (task_of task.entry)
        inputs.old inputs.new o output.new faults.old faults.new result }
{
    let asked = Asked {
        alloc,
        task,
        options: job.options,
        lead: "",
    };
    let mut passed = Passed::none();
    let ended = pass_inputs(asked, &job.inputs, &mut passed, inputs, output, faults);
    Ended {
        passed,
        end: flush_ended(ended, output),
    }
}

/// Flushes the output of a run that has ended, unless a write that failed ended it. Answers how the run
/// ended, or that the flush failed.
fn flush_ended<W: Output>(ended: Result<(), Halt>, output: &mut W) -> Result<(), Halt>
    ensures { Flushes W.contents W.has_failed W.write_takes W.holds_back output.old output.new ended
        result }
{
    if let Err(Halt::Fault(Fault::Write)) = &ended {
        return ended;
    }
    match output.flush() {
        Ok(()) => ended,
        Err(_) => Err(Halt::Fault(Fault::Write)),
    }
}
