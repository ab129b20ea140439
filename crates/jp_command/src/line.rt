//! The whole program over its words.

ghost use Rattle.std.specs.Prelude.{◌≡◌, ◌≢◌, IfErr, IfOk, OnOk, false, map, string_bytes};
ghost use Rattle.std.specs.Cow.{cow_str_bytes};
ghost use Rattle.clap.specs.Words.{kind_of};
ghost use Rattle.jp_command.specs.Line.{IsWrittenBy, RunsLine, RunsTask, EndsShowing, fault_line, status_of};
ghost use Rattle.jp_command.specs.Private.Asked.{TellsFault};
ghost use Rattle.jp_command.specs.Private.Ended.{IsDoneWith, ending};
ghost use Rattle.jp_command.specs.Private.Kept.{IsFaultOfBytes, KeepsRead};
ghost use Rattle.jp_command.specs.Writes.{WritesByCalls};
ghost use Rattle.jp_command.specs.Output.{AppendsPrefix, AppendsSome};

use crate::canon::run_canon;
use crate::check::run_check;
use crate::device::{Output, Source, Writer};
use crate::eval::run_eval_keeping;
use crate::explained::{report_misreading, report_refusal};
use crate::fault::Fault;
use crate::output::write_all;
use crate::showing::{is_shown, write_shown};
use crate::words::{Asked, Task, read_words};
use clap::Error;
use clap::error::ErrorKind;
use std::alloc::{AllocError, Global};
use std::borrow::CowStr;

/// Does what `words` ask for, of which the first is the program's name, and answers the status: 0
/// where it is done, also where help or the version is written to `output`, 1 where the query is
/// refused, 2 where the words are not ones that the command line takes, 3 where the document is refused,
/// 4 where the memory did not suffice, 5 where the input or the output failed, and 6 where it is done and
/// no node is selected, if the flag `--exit-status` asks for that. Every status but 0 and 6 has its
/// line in `faults`, if it can be written there; with status 2 that is clap's own text. With the flag
/// `--explain` the line of a refused query or document has an explanation behind it, if there is memory
/// for that. The output is flushed once, after a run that is done.
pub fn run_line<R: Source, W: Output, E: Writer>(
    alloc: Global,
    words: Vec<String>,
    input: &mut R,
    output: &mut W,
    faults: &mut E,
) -> u8
    ensures { RunsLine R.remaining R.has_failed R.read_gives W.contents W.has_failed W.write_takes
        W.holds_back E.contents (map string_bytes words.items) input.old input.new output.old
        output.new faults.old faults.new result }
{
    match read_words(alloc, &words) {
        Ok(asked) => {
            let mut kept = Vec::new(alloc);
            match run_and_flush(alloc, &asked, input, &mut kept, output) {
                Ok(status) => status,
                Err(fault) => {
                    tell(alloc, &asked, &fault, kept.as_slice(), faults);
                    status(&fault)
                }
            }
        }
        Err(error) if is_shown(error.kind()) => show(alloc, &error, output, faults),
        Err(error) => refuse_words(alloc, &error, faults),
    }
}

/// Writes help or the version, and answers the status.
fn show<W: Output, E: Writer>(alloc: Global, error: &Error, output: &mut W, faults: &mut E) -> u8
    ensures { EndsShowing W.contents W.has_failed W.write_takes W.holds_back E.contents output.old output.new
        faults.old faults.new result }
{
    match write_shown(alloc, error, output) {
        Ok(()) => 0,
        Err(fault) => {
            report(alloc, &fault, faults);
            status(&fault)
        }
    }
}

/// Runs what is asked for, and flushes the output once that is done, which is answered with the status. After
/// `Document` what was read is in `kept`.
fn run_and_flush<R: Source, W: Output>(
    alloc: Global,
    asked: &Asked<'_>,
    input: &mut R,
    kept: &mut Vec<u8>,
    output: &mut W,
) -> Result<u8, Fault>
    ensures says { RunsTask asked.now.profile R.remaining R.has_failed R.read_gives W.contents
        W.has_failed asked.now.task asked.now.query.now input.old input.new output.old output.new
        (ending result) }
    ensures calls { WritesByCalls W.write_takes (IsWrittenBy asked.now.profile R.remaining
        R.has_failed R.read_gives W.contents W.has_failed asked.now.task asked.now.query.now
        input.old input.new) output.old output.new (ending result) }
    ensures done { IfOk result (IsDoneWith asked.now.profile R.remaining R.has_failed R.read_gives
        W.contents W.has_failed W.write_takes asked.now.task asked.now.query.now input.old input.new
        output.old output.new) }
    ensures kept { IfErr result (KeepsRead asked.now.profile R.remaining R.has_failed R.read_gives
        W.contents W.has_failed asked.now.query.now input.old input.new kept.new.items) }
    ensures handed_on { OnOk result (W.holds_back output.new ≡ false) }
{
    let status = run_task(alloc, asked, input, kept, output)?;
    match output.flush() {
        Ok(()) => Ok(status),
        Err(_) => Err(Fault::Write),
    }
}

/// Runs what is asked for, and answers the status once that is done. After `Document` what was read is in `kept`.
fn run_task<R: Source, W: Writer>(
    alloc: Global,
    asked: &Asked<'_>,
    input: &mut R,
    kept: &mut Vec<u8>,
    output: &mut W,
) -> Result<u8, Fault>
    ensures says { RunsTask asked.now.profile R.remaining R.has_failed R.read_gives W.contents
        W.has_failed asked.now.task asked.now.query.now input.old input.new output.old output.new
        (ending result) }
    ensures calls { WritesByCalls W.write_takes (IsWrittenBy asked.now.profile R.remaining
        R.has_failed R.read_gives W.contents W.has_failed asked.now.task asked.now.query.now
        input.old input.new) output.old output.new (ending result) }
    ensures done { IfOk result (IsDoneWith asked.now.profile R.remaining R.has_failed R.read_gives
        W.contents W.has_failed W.write_takes asked.now.task asked.now.query.now input.old input.new
        output.old output.new) }
    ensures kept { IfErr result (KeepsRead asked.now.profile R.remaining R.has_failed R.read_gives
        W.contents W.has_failed asked.now.query.now input.old input.new kept.new.items) }
{
    let (query, profile) = (asked.query, asked.profile);
    match asked.task {
        Task::Check => match run_check(alloc, query, profile, output) {
            Ok(()) => Ok(0),
            Err(fault) => Err(fault),
        },
        Task::Canon => match run_canon(alloc, query, profile, output) {
            Ok(()) => Ok(0),
            Err(fault) => Err(fault),
        },
        Task::Eval(nodes) => run_eval_keeping(alloc, query, profile, nodes, input, kept, output),
    }
}

/// Writes the line of a fault, and behind it, where the words ask for that and the query or the
/// document, of these bytes, is refused, why it is.
fn tell<E: Writer>(alloc: Global, asked: &Asked<'_>, fault: &Fault, bytes: &[u8], faults: &mut E)
    requires { IsFaultOfBytes asked.now.profile bytes.now fault.now }
    ensures { TellsFault (E.contents faults.old) (E.contents faults.new) asked.now.is_explaining
        asked.now.profile asked.now.query.now bytes.now fault.now }
{
    match fault {
        Fault::Query(refusal) if asked.is_explaining => {
            report_refusal(alloc, asked.query, asked.profile, *refusal, faults);
        }
        Fault::Document(_) if asked.is_explaining => {
            report_misreading(alloc, fault, asked.profile, bytes, faults);
        }
        _ => report(alloc, fault, faults),
    }
}

/// The status of a fault, as the program ends with it.
pub fn status(fault: &Fault) -> u8
    ensures { result ≡ status_of fault.now }
{
    match fault {
        Fault::Query(_) => 1,
        Fault::Document(_) | Fault::DocumentTooLarge => 3,
        Fault::NoMemory => 4,
        Fault::Read | Fault::Write => 5,
    }
}

/// Writes the line of a fault. One that cannot be written, or for which there is no memory, is left
/// out.
pub fn report<E: Writer>(alloc: Global, fault: &Fault, faults: &mut E)
    ensures { AppendsPrefix (E.contents faults.old) (E.contents faults.new) (fault_line fault.now) }
{
    if let Ok(line) = line_of(alloc, fault) {
        let _ = write_all(faults, line.as_str().as_bytes());
    }
}

/// The line of a fault. Those that tell of memory or of streams need no memory.
fn line_of(alloc: Global, fault: &Fault) -> Result<CowStr<'static>, AllocError>
    ensures { IfOk result (λ line. cow_str_bytes line ≡ fault_line fault.now) }
{
    Ok(match fault {
        Fault::Query(_) | Fault::Document(_) => CowStr::Owned(format!(in alloc; "{fault}\n")?),
        Fault::DocumentTooLarge => CowStr::Borrowed("document refused: DocumentTooLarge\n"),
        Fault::NoMemory => CowStr::Borrowed("want of memory\n"),
        Fault::Read => CowStr::Borrowed("read fault\n"),
        Fault::Write => CowStr::Borrowed("write fault\n"),
    })
}

/// Writes the text of clap's error, and answers its status: 4 where the error is that memory ran
/// out, and otherwise 2. A text that cannot be written, or for which there is no memory, is left out.
pub fn refuse_words<E: Writer>(alloc: Global, error: &Error, faults: &mut E) -> u8
    ensures memory { kind_of error.now ≡ ErrorKind.OutOfMemory → result ≡ 4 }
    ensures memory_line { kind_of error.now ≡ ErrorKind.OutOfMemory
        → AppendsPrefix (E.contents faults.old) (E.contents faults.new)
        (fault_line Fault.NoMemory) }
    ensures usage { kind_of error.now ≢ ErrorKind.OutOfMemory → result ≡ 2 }
    ensures usage_text { kind_of error.now ≢ ErrorKind.OutOfMemory
        → AppendsSome (E.contents faults.old) (E.contents faults.new) }
{
    match error.kind() {
        ErrorKind::OutOfMemory => {
            report(alloc, &Fault::NoMemory, faults);
            4
        }
        _ => {
            if let Ok(text) = usage_text(alloc, error) {
                let _ = write_all(faults, text.as_bytes());
            }
            2
        }
    }
}

/// The text of clap's error, but for the tip to give a word that begins with two dashes as a value: no query
/// and no expression begins so.
fn usage_text(alloc: Global, error: &Error) -> Result<String, AllocError> {
    let text = error.to_string(alloc)?;
    match around_tip(text.as_str()) {
        Some((front, end)) => format!(in alloc; "{front}\n\n{end}"),
        None => Ok(text),
    }
}

/// What stands before and behind that tip.
fn around_tip(text: &str) -> Option<(&str, &str)> {
    let (front, tip) = text.split_once("\n  tip: to pass '--")?;
    let (_, end) = tip.split_once('\n')?;
    Some((front.trim_end(), end.trim_start()))
}
