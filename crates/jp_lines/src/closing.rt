//! What is told of a run at its end, or of one that did not begin.

ghost use Rattle.std.specs.Prelude.{◌≡◌, Err, IfOk, OnErr, OnOk, false, is_some, string_bytes, true};
ghost use Rattle.jp_command.specs.declared.fault.Fault.TheVariants.{Write};
ghost use Rattle.jp_lines.specs.declared.halt.Halt.TheVariants as halt;
ghost use Rattle.jp_lines.specs.Closing.{asks_closing, closing_text, counts_text, lines_cut, more_text};
ghost use Rattle.jp_lines.specs.Closing.{selected_name, summary_text, with_last};
ghost use Rattle.jp_lines.specs.Inputs.{unread_line};
ghost use Rattle.jp_lines.specs.Program.{Closes, TellsEnd, TellsLine, TellsUnbegun, TellsWriteFault, halt_line};
ghost use Rattle.jp_command.specs.Line.{fault_line};
ghost use Rattle.jp_lines.specs.Told.{Tells};
ghost use Rattle.jp_lines.specs.Views.{request_of};

use crate::halt::{Ended, Halt, Unbegun, Unread};
use crate::options::Options;
use crate::status::status_of_end;
use crate::tally::Tally;
use crate::task::Request;
use crate::telling::tell;
use jp_check::Profile;
use jp_command::{
    Fault, Output, Writer, report, report_refusal, report_refused_expression, status, write_all,
};
use std::alloc::{AllocError, Global};

/// Tells how a run ended, and what is asked for at its end, and answers its status. Where a write failed
/// because what reads the output hung up, nothing is told.
pub(crate) fn close<W: Output, E: Writer>(
    alloc: Global,
    options: Options,
    request: &Request<'_>,
    ended: &Ended,
    output: &W,
    faults: &mut E,
) -> u8
    ensures { Closes E.contents E.has_failed options (request_of request.now) ended.now
        (W.hung_up output.now) faults.old faults.new result }
{
    if is_unheard(&ended.end, output) {
        return status(&Fault::Write);
    }
    tell_end(alloc, &ended.end, faults);
    match tell_closing(alloc, options, request, ended, faults) {
        Ok(()) => status_of_end(options, ended),
        Err(_) => {
            tell_fault(alloc, &Fault::NoMemory, faults);
            status(&Fault::NoMemory)
        }
    }
}

/// Whether a write failed because what reads the output hung up, so that nothing is told.
fn is_unheard<W: Output>(end: &Result<(), Halt>, output: &W) -> bool
    ensures write { result ≡ true → end.now ≡ Err (halt.Fault Write) }
    ensures unheard { result ≡ true → W.hung_up output.now ≡ true }
    ensures heard { result ≡ false → end.now ≡ Err (halt.Fault Write) → W.hung_up output.now ≡ false }
{
    match end {
        Err(Halt::Fault(Fault::Write)) => output.hung_up(),
        _ => false,
    }
}

/// Tells what ended a run before the end of its last input, where something did.
fn tell_end<E: Writer>(alloc: Global, end: &Result<(), Halt>, faults: &mut E)
    ensures { TellsEnd E.contents E.has_failed end.now faults.old faults.new }
{
    match end {
        Ok(()) => {}
        Err(halt) => tell_halt(alloc, halt, faults),
    }
}

/// Tells what ended a run before the end of its last input, unless a write to `faults` has failed before.
/// What cannot be written, or for which there is no memory, is left out.
fn tell_halt<E: Writer>(alloc: Global, halt: &Halt, faults: &mut E)
    ensures { TellsLine E.contents E.has_failed (halt_line halt.now) faults.old faults.new }
{
    match halt {
        Halt::Line(lead, refused) => {
            let _ = tell(alloc, lead.as_str(), refused, faults);
        }
        Halt::Input(lead, why) => {
            let _ = tell_unread(alloc, lead.as_str(), *why, faults);
        }
        Halt::Fault(fault) => tell_fault(alloc, fault, faults),
    }
}

/// Tells that an input was not read to its end, unless a write to `faults` has failed before. The only error
/// is that there is no memory for the line; then nothing is told.
pub(crate) fn tell_unread<E: Writer>(
    alloc: Global,
    lead: &str,
    why: Unread,
    faults: &mut E,
) -> Result<(), AllocError>
    ensures told { OnOk result (Tells E.contents E.has_failed faults.old faults.new
        (unread_line lead.now why)) }
    ensures silent { OnErr result (faults.new ≡ faults.old) }
{
    if faults.failed() {
        return Ok(());
    }
    let text = format!(in alloc; "{lead}{why}\n")?;
    let _ = write_all(faults, text.as_bytes());
    Ok(())
}

/// Writes the line of a fault, unless a write to `faults` has failed before. One that cannot be written,
/// or for which there is no memory, is left out.
pub(crate) fn tell_fault<E: Writer>(alloc: Global, fault: &Fault, faults: &mut E)
    ensures { TellsLine E.contents E.has_failed (fault_line fault.now) faults.old faults.new }
{
    if faults.failed() {
        return;
    }
    report(alloc, fault, faults);
}

/// Tells why a run did not begin, unless a write to `faults` has failed before, or a write failed because
/// what reads the output hung up. Behind the line of a refused query or expression stands why it is refused. What cannot be
/// written, or for which there is no memory, is left out.
pub(crate) fn tell_unbegun<W: Output, E: Writer>(
    alloc: Global,
    why: &Unbegun<'_>,
    profile: Profile,
    output: &W,
    faults: &mut E,
)
    ensures { TellsUnbegun E.contents E.has_failed profile why.now (W.hung_up output.now)
        faults.old faults.new }
{
    match why {
        Unbegun::Query(text, refusal) => {
            if !faults.failed() {
                report_refusal(alloc, text, profile, *refusal, faults);
            }
        }
        Unbegun::Expression(text, refusal) => {
            if !faults.failed() {
                report_refused_expression(alloc, text, profile, *refusal, faults);
            }
        }
        Unbegun::Fault(Fault::Write) => tell_write_fault(alloc, output, faults),
        Unbegun::Fault(fault) => tell_fault(alloc, fault, faults),
    }
}

/// Tells that a write failed, but not where what reads the output hung up.
pub(crate) fn tell_write_fault<W: Output, E: Writer>(alloc: Global, output: &W, faults: &mut E)
    ensures { TellsWriteFault E.contents E.has_failed (W.hung_up output.now) faults.old faults.new }
{
    if output.hung_up() {
        return;
    }
    tell_fault(alloc, &Fault::Write, faults);
}

/// Tells what is asked for at the end of a run, unless a write to `faults` has failed before. The only error
/// is that there is no memory for it; then nothing of it is told.
fn tell_closing<E: Writer>(
    alloc: Global,
    options: Options,
    request: &Request<'_>,
    ended: &Ended,
    faults: &mut E,
) -> Result<(), AllocError>
    ensures told { OnOk result (Tells E.contents E.has_failed faults.old faults.new
        (closing_text options (request_of request.now) ended.now.passed.tally ended.now.end)) }
    ensures silent { OnErr result (faults.new ≡ faults.old) }
    ensures asked { OnErr result (asks_closing options ≡ true) }
{
    if faults.failed() {
        return Ok(());
    }
    let mut text = more_line(alloc, options.reports, ended.passed.tally)?;
    if options.summary {
        let summary = summary_line(alloc, request, ended)?;
        text.push_str(summary.as_str())?;
    }
    let _ = write_all(faults, text.as_bytes());
    Ok(())
}

/// How many refused lines were not told one by one, where there are more than were to be told.
fn more_line(alloc: Global, reports: Option<u64>, tally: Tally) -> Result<String, AllocError>
    ensures text { IfOk result (λ text. string_bytes text ≡ more_text reports tally) }
    ensures asked { OnErr result (is_some reports ≡ true) }
{
    match reports {
        Some(most) if most < tally.refused => {
            let more = tally.refused - most;
            format!(in alloc; "more lines refused: {more}\n")
        }
        _ => Ok(String::new(alloc)),
    }
}

/// What a run counts, with the line that ended it. An error says that there is no memory for it, or that a
/// number does not fit 64 bits, which counts as want of memory.
fn summary_line(alloc: Global, request: &Request<'_>, ended: &Ended) -> Result<String, AllocError>
    ensures { IfOk result (λ text. string_bytes text ≡ summary_text (request_of request.now)
        (with_last ended.now.passed.tally ended.now.end)) }
{
    let Tally {
        documents,
        refused,
        selected,
    } = ended.passed.tally;
    let cut = u64::from(lines_cut(&ended.end));
    let refused = refused.checked_add(cut).ok_or(AllocError)?;
    let lines = documents.checked_add(refused).ok_or(AllocError)?;
    let name = selected_name(request);
    counts_line(alloc, lines, documents, refused, name, selected)
}

/// A line with these counts.
fn counts_line(
    alloc: Global,
    lines: u64,
    documents: u64,
    refused: u64,
    name: &str,
    selected: u64,
) -> Result<String, AllocError>
    ensures { IfOk result (λ text. string_bytes text
        ≡ counts_text lines documents refused name.now selected) }
{
    let mut text = format!(in alloc; "lines {lines}, documents {documents}")?;
    let second = format!(in alloc; ", refused {refused}, ")?;
    text.push_str(second.as_str())?;
    let third = format!(in alloc; "{name} {selected}\n")?;
    text.push_str(third.as_str())?;
    Ok(text)
}

/// How many lines ended the run, since they are refused: one, or none.
fn lines_cut(end: &Result<(), Halt>) -> u8
    ensures { result ≡ lines_cut end.now }
{
    match end {
        Err(Halt::Line(..)) => 1,
        _ => 0,
    }
}

/// What the selected ones are: lines that are kept, or nodes.
fn selected_name(request: &Request<'_>) -> &'static str
    ensures { result.now ≡ selected_name (request_of request.now) }
{
    match request {
        Request::KeepBy(_) => "kept",
        Request::SelectBy(..) | Request::ColumnsBy(..) => "nodes",
    }
}
