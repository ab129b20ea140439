//! What is done with one line.

ghost use Rattle.std.specs.Prelude.{◌≡◌, ◌⊎◌, ◌∷◌, [], List, ℕ, IfErr, IfOk, OnErr, OnOk, true, false};
ghost use Rattle.std.specs.Io.KnownBytes.{Keeps};
ghost use Rattle.jp_command.specs.declared.fault.Fault.TheVariants as fault;
ghost use Rattle.jp_lines.specs.Outcome.{IsRefusal, Refused, left_after, told_of_all};
ghost use Rattle.jp_lines.specs.Told.{Tells};
ghost use Rattle.jp_lines.specs.declared.stop.Stop.TheVariants as stop;
ghost use Rattle.jp_lines.specs.Private.Answers.{HasPlan, IsDefectOfBytes};
ghost use Rattle.jp_lines.specs.Private.Passing.{StopsEnding, kept_of};
ghost use Rattle.jp_lines.specs.Private.Treating.{Treats};
ghost use Rattle.jp_lines.specs.Views.{task_of};

use crate::answer::{Asked, Memory, Reply, answer};
use crate::defect::{Defect, RefusedLine};
use crate::explaining::explanation;
use crate::stop::Stop;
use crate::tally::Tally;
use crate::telling::tell;
use jp_command::{Fault, Output, Writer};
use std::alloc::{AllocError, Global};

/// Writes what is asked of a line's document, or tells that the line is refused; answers what it and the
/// lines before it count. Of the line it takes what is kept of it.
pub(crate) fn treat<W: Output, E: Writer>(
    asked: Asked<'_>,
    number: u64,
    before: Tally,
    kept: &[u8],
    memory: &mut Memory,
    output: &mut W,
    faults: &mut E,
) -> Result<Tally, Stop>
    requires plan { HasPlan asked.task }
    ensures treated { IfOk result (λ after. (line : List ℕ) → kept.now ≡ kept_of line
        → Treats asked.entry.options asked.entry.lead.now W.contents W.has_failed
        E.contents E.has_failed (task_of asked.entry.task) number line before after
        output.old output.new faults.old faults.new) }
    ensures stopped { IfErr result (λ why. (line : List ℕ) → kept.now ≡ kept_of line
        → StopsEnding asked.entry.options asked.entry.lead.now W.contents W.has_failed
        E.contents E.has_failed (task_of asked.entry.task) number line before before
        output.old output.new faults.old faults.new why) }
{
    match answer(asked, number, kept, memory, output)? {
        Reply::Blank => {
            flush(asked.options.line_buffered, output)?;
            Ok(before)
        }
        Reply::Written(selected) => {
            flush(asked.options.line_buffered, output)?;
            let after = before.with(Tally::of_document(selected))?;
            Ok(after)
        }
        Reply::Refused(defect) => {
            let after = before.with(Tally::of_refusal())?;
            refuse(asked, number, before.refused, kept, defect, faults)?;
            Ok(after)
        }
    }
}

/// Hands the output on, where that is asked for.
pub(crate) fn flush<W: Output>(is_asked_for: bool, output: &mut W) -> Result<(), Fault>
    ensures kept { Keeps (W.contents output.old) (W.contents output.new) }
    ensures works { OnOk result (W.has_failed output.new ≡ W.has_failed output.old) }
    ensures write { IfErr result (λ stop. stop ≡ fault.Write) }
    ensures fails { OnErr result (W.has_failed output.new ≡ true) }
    ensures handed_on { OnOk result (is_asked_for ≡ true → W.holds_back output.new ≡ false) }
{
    if is_asked_for && output.flush().is_err() {
        return Err(Fault::Write);
    }
    Ok(())
}

/// Tells that a line, of which this is kept, is refused for that defect, where the run goes on after it and fewer than are
/// to be told are refused before it.
fn refuse<E: Writer>(
    asked: Asked<'_>,
    number: u64,
    before: u64,
    kept: &[u8],
    defect: Defect,
    faults: &mut E,
) -> Result<(), Stop>
    requires { IsDefectOfBytes asked.options.profile kept.now defect }
    ensures told { OnOk result ((line : RefusedLine)
        × IsRefusal asked.entry.options number kept.now defect line
        × Tells E.contents E.has_failed faults.old faults.new (told_of_all asked.entry.lead.now
        (left_after before asked.entry.options.reports) (Refused line ∷ []))) }
    ensures going { OnOk result (asked.entry.options.keep_going ≡ true) }
    ensures stopped { IfErr result (λ why. (why ≡ stop.Run fault.NoMemory)
        ⊎ (((line : RefusedLine) × IsRefusal asked.entry.options number kept.now defect line
        × (why ≡ stop.Line line)) × (asked.entry.options.keep_going ≡ false))) }
    ensures silent { OnErr result (faults.new ≡ faults.old) }
{
    let left = asked.options.reports_left(before);
    let is_told = !asked.options.keep_going || left != Some(0);
    let explanation = explanation(asked, is_told, number, kept, &defect);
    let refused = RefusedLine {
        number,
        defect,
        explanation,
    };
    if !asked.options.keep_going {
        return Err(Stop::Line(refused));
    }
    tell_within(asked.alloc, left, asked.lead, &refused, faults)?;
    Ok(())
}

/// Tells that a line is refused, unless none may be told any more.
fn tell_within<E: Writer>(
    alloc: Global,
    left: Option<u64>,
    lead: &str,
    refused: &RefusedLine,
    faults: &mut E,
) -> Result<(), AllocError>
    ensures told { OnOk result (Tells E.contents E.has_failed faults.old faults.new
        (told_of_all lead.now left (Refused refused.now ∷ []))) }
    ensures silent { OnErr result (faults.new ≡ faults.old) }
{
    match left {
        Some(0) => Ok(()),
        _ => tell(alloc, lead, refused, faults),
    }
}
