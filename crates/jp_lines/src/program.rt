//! The whole program over its words.

ghost use Rattle.std.specs.Prelude.{◌≡◌, List, ℕ, Some, map, string_bytes};
ghost use Rattle.jp_lines.specs.CommandLine.{asked};
ghost use Rattle.jp_lines.specs.Views.{job_of};
ghost use Rattle.jp_lines.specs.Private.Telling.{Shows, TellsUnshown};
ghost use Rattle.jp_lines.specs.Program.{RunsProgram};

use crate::closing::{close, tell_fault, tell_unbegun, tell_write_fault};
use crate::inputs::Inputs;
use crate::runs::run_job;
use crate::status::status_of_unbegun;
use crate::task::Job;
use crate::words::read_words;
use clap::Error;
use jp_command::{Fault, Output, Writer, is_shown, refuse_words, status, write_shown};
use std::alloc::Global;

/// Does what `words` ask for, of which the first is the program's name, and answers the status: 0
/// where it is done, also where help or the version is written to `output`, 1 where a query or an
/// expression is refused, 2 where the words are not ones that the command line takes, 3 where some line
/// is refused, 4 where the memory did not suffice, 5 where an input can't be opened or read, or the output
/// failed, and with `--exit-status` 6 where it is done and nothing was selected; of several the greatest of
/// 3 and 5. Statuses 1 to 5 have their line in `faults`, if it can be written there. With `--keep-going` the
/// run goes on after a line that is refused, and after an input that can't be read and is named in the words,
/// and each has its line; with status 2 that is clap's own text. Behind the line of a refused query stands an
/// explanation, if there is memory for it. The output is flushed at the end of a run, before anything is
/// told of that, unless a write that failed ended it; where the flush fails, that is told alone. Then come how many
/// refused lines were not told, where `--reports` says how many are to be, and with `--summary` what the run
/// counts. Where what reads the output hung up, nothing is told of that, and status is 5.
pub fn run_program<I: Inputs, W: Output, E: Writer>(
    alloc: Global,
    words: Vec<String>,
    inputs: &mut I,
    output: &mut W,
    faults: &mut E,
) -> u8
    ensures { RunsProgram I.opens I.Input.remaining I.Input.has_failed I.Input.read_gives
        W.contents W.has_failed W.write_takes W.holds_back E.contents E.has_failed W.hung_up
        (map string_bytes words.items) inputs.old inputs.new output.old output.new
        faults.old faults.new result }
{
    match read_words(alloc, &words) {
        Ok(job) => do_job(alloc, &job, inputs, output, faults),
        Err(error) if is_shown(error.kind()) => show(alloc, &error, output, faults),
        Err(error) => refuse_words(alloc, &error, faults),
    }
}

/// Does what a job asks, tells how it ended, and answers the status.
fn do_job<I: Inputs, W: Output, E: Writer>(
    alloc: Global,
    job: &Job<'_>,
    inputs: &mut I,
    output: &mut W,
    faults: &mut E,
) -> u8
    ensures { (words : List (List ℕ)) → asked words ≡ Some (job_of job.now)
        → RunsProgram I.opens I.Input.remaining I.Input.has_failed I.Input.read_gives
        W.contents W.has_failed W.write_takes W.holds_back E.contents E.has_failed W.hung_up
        words inputs.old inputs.new output.old output.new faults.old faults.new result }
{
    match run_job(alloc, job, inputs, output, faults) {
        Ok(ended) => close(alloc, job.options, &job.request, &ended, output, faults),
        Err(why) => {
            tell_unbegun(alloc, &why, job.options.profile, output, faults);
            status_of_unbegun(&why)
        }
    }
}

/// Writes the text of clap's error, and answers the status.
fn show<W: Output, E: Writer>(alloc: Global, error: &Error, output: &mut W, faults: &mut E) -> u8
    ensures { Shows W.contents W.has_failed W.hung_up W.holds_back E.contents E.has_failed output.old
        output.new faults.old faults.new result }
{
    match write_shown(alloc, error, output) {
        Ok(()) => 0,
        Err(fault) => {
            tell_unshown(alloc, &fault, output, faults);
            status(&fault)
        }
    }
}

/// Tells why clap's text could not be written, but not that a write failed where what reads the output hung up.
fn tell_unshown<W: Output, E: Writer>(alloc: Global, fault: &Fault, output: &W, faults: &mut E)
    ensures { TellsUnshown E.contents E.has_failed fault.now (W.hung_up output.now)
        faults.old faults.new }
{
    match fault {
        Fault::Write => tell_write_fault(alloc, output, faults),
        _ => tell_fault(alloc, fault, faults),
    }
}
