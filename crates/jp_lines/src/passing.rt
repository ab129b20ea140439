//! Going over the bytes of an input, line by line.

ghost use Rattle.std.specs.Prelude.{◌≡◌, ◌≤◌, ◌++◌, [], List, ℕ, IfErr, OnOk, false, length};
ghost use Rattle.jp_command.specs.Limits.{document_limit};
ghost use Rattle.jp_lines.specs.Private.Answers.{HasPlan};
ghost use Rattle.jp_lines.specs.Outcome.{tally_of};
ghost use Rattle.jp_lines.specs.Private.Passing.{EndsLine, Keeps, PassesOn, StopsEnding, StopsPassing};
ghost use Rattle.jp_lines.specs.Private.Passing.{kept_of};
ghost use Rattle.jp_lines.specs.Views.{task_of};

use crate::answer::{Asked, Memory};
use crate::count::number_after;
use crate::defect::{Defect, RefusedLine};
use crate::stop::Stop;
use crate::tally::Tally;
use crate::treating::treat;
use jp_command::{DOCUMENT_LIMIT, Output, Writer};
use memchr::memchr;
use std::alloc::{AllocError, Global};

/// Where a run stands in its input.
#[derive(Drop)]
pub(crate) struct Progress {
    /// The number of the line that has begun.
    pub(crate) number: u64,
    /// What has come of it, but at most one byte more than a document may have.
    pub(crate) line: Vec<u8>,
    /// What the lines before it count.
    pub(crate) tally: Tally,
    pub(crate) memory: Memory,
}

impl Progress {
    /// At the start of the first line.
    pub(crate) fn new(alloc: Global) -> Progress
        ensures number { result.number ≡ 1 }
        ensures line { result.line.items ≡ [] }
        ensures tally { result.tally ≡ tally_of [] }
    {
        Progress {
            number: 1,
            line: Vec::new(alloc),
            tally: Tally::none(),
            memory: Memory::new(alloc),
        }
    }
}

/// Goes over the next bytes of the input. A line that has grown too large is refused before its end
/// where the run does not go on after it.
pub(crate) fn pass<W: Output, E: Writer>(
    asked: Asked<'_>,
    progress: &mut Progress,
    bytes: &[u8],
    output: &mut W,
    faults: &mut E,
) -> Result<(), Stop>
    requires plan { HasPlan asked.task }
    ensures passes { OnOk result ((line : List ℕ) → Keeps progress.old line
        → PassesOn asked.entry.options asked.entry.lead.now W.contents W.has_failed
        E.contents E.has_failed (task_of asked.entry.task) bytes.now progress.old progress.new line
        output.old output.new faults.old faults.new) }
    ensures few { OnOk result (asked.entry.options.keep_going ≡ false
        → length progress.new.line.items ≤ document_limit) }
    ensures stopped { IfErr result (λ stop. (line : List ℕ) → Keeps progress.old line
        → StopsPassing asked.entry.options asked.entry.lead.now W.contents W.has_failed
        E.contents E.has_failed (task_of asked.entry.task) bytes.now progress.old progress.new line
        output.old output.new faults.old faults.new stop) }
{
    let mut rest = bytes;
    while let Some(end) = memchr(b'\n', rest) {
        keep(&mut progress.line, &rest[..end])?;
        end_line(asked, progress, output, faults)?;
        rest = &rest[end..][1..];
    }
    keep(&mut progress.line, rest)?;
    if progress.line.len() > DOCUMENT_LIMIT && !asked.options.keep_going {
        return Err(Stop::Line(RefusedLine {
            number: progress.number,
            defect: Defect::TooLarge,
            explanation: String::new(asked.alloc),
        }));
    }
    Ok(())
}

/// Adds to what is kept of a line.
fn keep(line: &mut Vec<u8>, bytes: &[u8]) -> Result<(), AllocError>
    ensures { OnOk result ((begun : List ℕ) → line.old.items ≡ kept_of begun
        → line.new.items ≡ kept_of (begun ++ bytes.now)) }
{
    let room = (DOCUMENT_LIMIT + 1).saturating_sub(line.len());
    line.extend_from_slice(&bytes[..bytes.len().min(room)])
}

/// Treats the line that has ended, and begins the next one.
pub(crate) fn end_line<W: Output, E: Writer>(
    asked: Asked<'_>,
    progress: &mut Progress,
    output: &mut W,
    faults: &mut E,
) -> Result<(), Stop>
    requires plan { HasPlan asked.task }
    ensures ended { OnOk result ((line : List ℕ) → Keeps progress.old line
        → EndsLine asked.entry.options asked.entry.lead.now W.contents W.has_failed
        E.contents E.has_failed (task_of asked.entry.task) progress.old progress.new line
        output.old output.new faults.old faults.new) }
    ensures stopped { IfErr result (λ stop. (line : List ℕ) → Keeps progress.old line
        → StopsEnding asked.entry.options asked.entry.lead.now W.contents W.has_failed
        E.contents E.has_failed (task_of asked.entry.task) progress.old.number line
        progress.old.tally progress.new.tally
        output.old output.new faults.old faults.new stop) }
{
    progress.tally = treat(
        asked,
        progress.number,
        progress.tally,
        progress.line.as_slice(),
        &mut progress.memory,
        output,
        faults,
    )?;
    progress.line.clear();
    progress.number = number_after(progress.number)?;
    Ok(())
}
