//! Going over inputs, one after the other.

ghost use Rattle.std.specs.Prelude.{◌≡◌, ◌≢◌, [], IfErr, IfOk, OnErr, OnOk, map, string_bytes, true};
ghost use Rattle.jp_lines.specs.Inputs.{RunsOver, inputs_of, lead_of_input, lead_of_lines, unread_line};
ghost use Rattle.jp_lines.specs.Private.Answers.{HasPlan};
ghost use Rattle.jp_lines.specs.Private.Opening.{HaltsNext, IsAtStart, PassesNext, PassesOne};
ghost use Rattle.jp_lines.specs.Private.Opening.{StopsLeaving, cut_of};
ghost use Rattle.jp_lines.specs.Told.{Tells};
ghost use Rattle.jp_lines.specs.Views.{task_of};

use crate::answer::Asked;
use crate::closing::tell_unread;
use crate::defect::RefusedLine;
use crate::halt::{Halt, Passed, Unread};
use crate::inputs::Inputs;
use crate::options::Options;
use crate::run::pass_all;
use crate::stop::Stop;
use crate::tally::Tally;
use jp_command::{Fault, Output, Writer};
use std::alloc::{AllocError, Global};

/// The name of the standard input, which is the only input where none is named.
const STANDARD_INPUT: &[&str] = &["-"];

/// Why an input was not gone over to its end.
#[derive(Drop)]
pub(crate) enum Cut {
    Line(RefusedLine),
    Input(Unread),
    Fault(Fault),
}

/// Goes over the inputs that are named, in order, and over the standard input alone where none is.
/// `passed` is what the run has come to. After an input that can't be opened or read the run goes on
/// only where it is to, and its inputs are named.
pub(crate) fn pass_inputs<I: Inputs, W: Output, E: Writer>(
    asked: Asked<'_>,
    named: &[&str],
    passed: &mut Passed,
    inputs: &mut I,
    output: &mut W,
    faults: &mut E,
) -> Result<(), Halt>
    requires plan { HasPlan asked.task }
    requires start { IsAtStart passed.old }
    ensures { RunsOver asked.entry.options (map (λ t. t.now) named.now) I.opens I.Input.remaining
        I.Input.has_failed I.Input.read_gives W.contents W.has_failed E.contents E.has_failed
        (task_of asked.entry.task) inputs.old inputs.new output.old output.new faults.old faults.new
        passed.new result }
{
    let names = inputs_of(named);
    for name in names {
        pass_next(asked, named, name, passed, inputs, output, faults)?;
    }
    Ok(())
}

/// The names of the inputs of a run that names these.
fn inputs_of<'n>(named: &'n [&'n str]) -> &'n [&'n str]
    ensures { map (λ t. t.now) result.now ≡ inputs_of (map (λ t. t.now) named.now) }
{
    if named.is_empty() {
        STANDARD_INPUT
    } else {
        named
    }
}

/// Goes over the next input.
fn pass_next<I: Inputs, W: Output, E: Writer>(
    asked: Asked<'_>,
    named: &[&str],
    name: &str,
    passed: &mut Passed,
    inputs: &mut I,
    output: &mut W,
    faults: &mut E,
) -> Result<(), Halt>
    requires { HasPlan asked.task }
    ensures passed { OnOk result (PassesNext asked.entry.options I.opens I.Input.remaining
        I.Input.has_failed I.Input.read_gives W.contents W.has_failed E.contents E.has_failed
        (task_of asked.entry.task) name.now inputs.old inputs.new output.old output.new
        faults.old faults.new (map (λ t. t.now) named.now) passed.old passed.new) }
    ensures halted { IfErr result (HaltsNext asked.entry.options I.opens I.Input.remaining
        I.Input.has_failed I.Input.read_gives W.contents W.has_failed E.contents E.has_failed
        (task_of asked.entry.task) name.now inputs.old inputs.new output.old output.new
        faults.old faults.new (map (λ t. t.now) named.now) passed.old passed.new) }
{
    let lead = lead_of_lines(asked.alloc, named, name)?;
    let next = Asked {
        lead: lead.as_str(),
        options: Options {
            reports: asked.options.reports_left(passed.tally.refused),
            ..asked.options
        },
        ..asked
    };
    let (tally, ended) = pass_input(next, name, inputs, output, faults);
    passed.tally = passed.tally.with(tally)?;
    match ended {
        Ok(()) => Ok(()),
        Err(Cut::Line(refused)) => Err(Halt::Line(lead, refused)),
        Err(Cut::Fault(fault)) => Err(Halt::Fault(fault)),
        Err(Cut::Input(why)) => {
            leave(asked, named, name, why, faults)?;
            passed.unread = true;
            Ok(())
        }
    }
}

/// Opens an input, and goes over its lines.
fn pass_input<I: Inputs, W: Output, E: Writer>(
    asked: Asked<'_>,
    name: &str,
    inputs: &mut I,
    output: &mut W,
    faults: &mut E,
) -> (Tally, Result<(), Cut>)
    requires { HasPlan asked.task }
    ensures { PassesOne asked.entry.options I.opens I.Input.remaining
        I.Input.has_failed I.Input.read_gives W.contents W.has_failed E.contents E.has_failed
        (task_of asked.entry.task) name.now inputs.old inputs.new output.old output.new
        faults.old faults.new asked.entry.lead.now result.0 result.1 }
{
    match inputs.open(name) {
        Ok(mut input) => {
            let (tally, ended) = pass_all(asked, &mut input, output, faults);
            (tally, cut_of(ended))
        }
        Err(why) => (Tally::none(), Err(Cut::Input(Unread::Unopened(why)))),
    }
}

/// How going over an input ended, where a read that failed is no fault of the run.
fn cut_of(ended: Result<(), Stop>) -> Result<(), Cut>
    ensures { result ≡ cut_of ended }
{
    match ended {
        Ok(()) => Ok(()),
        Err(Stop::Line(refused)) => Err(Cut::Line(refused)),
        Err(Stop::Run(Fault::Read)) => Err(Cut::Input(Unread::Failed)),
        Err(Stop::Run(fault)) => Err(Cut::Fault(fault)),
    }
}

/// Tells that an input was not read to its end, where the run goes on after it.
fn leave<E: Writer>(
    asked: Asked<'_>,
    named: &[&str],
    name: &str,
    why: Unread,
    faults: &mut E,
) -> Result<(), Halt>
    ensures told { OnOk result (Tells E.contents E.has_failed faults.old faults.new
        (unread_line (lead_of_input (map (λ t. t.now) named.now) name.now) why)) }
    ensures going { OnOk result (asked.entry.options.keep_going ≡ true) }
    ensures named { OnOk result (map (λ t. t.now) named.now ≢ []) }
    ensures stopped { IfErr result (StopsLeaving asked.entry.options (map (λ t. t.now) named.now)
        name.now why) }
    ensures silent { OnErr result (faults.new ≡ faults.old) }
{
    let lead = lead_of_input(asked.alloc, named, name)?;
    if named.is_empty() || !asked.options.keep_going {
        return Err(Halt::Input(lead, why));
    }
    tell_unread(asked.alloc, lead.as_str(), why, faults)?;
    Ok(())
}

/// What the reports of an input's lines begin with: its name, where several are named.
fn lead_of_lines(alloc: Global, named: &[&str], name: &str) -> Result<String, AllocError>
    ensures { IfOk result (λ lead. string_bytes lead
        ≡ lead_of_lines (map (λ t. t.now) named.now) name.now) }
{
    if named.len() > 1 {
        format!(in alloc; "{name}: ")
    } else {
        Ok(String::new(alloc))
    }
}

/// What the report of an input that is not read begins with: its name, where it was named.
fn lead_of_input(alloc: Global, named: &[&str], name: &str) -> Result<String, AllocError>
    ensures { IfOk result (λ lead. string_bytes lead
        ≡ lead_of_input (map (λ t. t.now) named.now) name.now) }
{
    if named.is_empty() {
        Ok(String::new(alloc))
    } else {
        format!(in alloc; "{name}: ")
    }
}
