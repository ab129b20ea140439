//! Telling which lines are refused.

ghost use Rattle.std.specs.Prelude.{◌≡◌, OnErr, OnOk};
ghost use Rattle.jp_lines.specs.Outcome.{told_of};
ghost use Rattle.jp_lines.specs.Told.{Tells};

use crate::defect::RefusedLine;
use jp_command::{Writer, write_all};
use std::alloc::{AllocError, Global};

/// Tells that a line is refused, behind what the reports of its input begin with, and what explains it,
/// unless a write to `faults` has failed before. The only error is that there is no memory for the text; then nothing is told.
pub(crate) fn tell<E: Writer>(
    alloc: Global,
    lead: &str,
    refused: &RefusedLine,
    faults: &mut E,
) -> Result<(), AllocError>
    ensures told { OnOk result (Tells E.contents E.has_failed faults.old faults.new
        (told_of lead.now refused.now)) }
    ensures silent { OnErr result (faults.new ≡ faults.old) }
{
    if faults.failed() {
        return Ok(());
    }
    let text = format!(in alloc; "{lead}{refused}\n")?;
    let Ok(()) = write_all(faults, text.as_bytes()) else {
        return Ok(());
    };
    let _ = write_all(faults, refused.explanation.as_bytes());
    Ok(())
}
