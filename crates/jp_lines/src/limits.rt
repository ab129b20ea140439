//! What may be done for one document, and what comes of an evaluation that was given up.

ghost use Rattle.std.specs.Prelude.{◌≡◌, IfSome, None, false, true};
ghost use Rattle.jp_limit.specs.OutputLimit.{Exceeds, KeepsTo, StaysWithin};
ghost use Rattle.jp_lines.specs.Private.Limits.{IsAllowed, IsExcess, most_within, fault_of_row};
ghost use Rattle.jp_lines.specs.Private.Limits.{stop_of};

use crate::answer::Reply;
use crate::defect::Defect;
use crate::options::Extent;
use jp_cells::RowFault;
use jp_command::{Fault, SelectionFault};
use jp_limit::OutputLimit;
use jp_select::Steps;

/// How many nodes the lines are of at most.
pub(crate) fn most_within(extent: Extent) -> Option<u64>
    ensures { result ≡ most_within extent }
{
    match extent {
        Extent::All => None,
        Extent::First => Some(1),
    }
}

/// The steps that the evaluation over one document may make.
pub(crate) fn allowed_by(limit: Option<u64>) -> Steps
    ensures { IsAllowed limit result }
{
    match limit {
        Some(limit) => Steps::at_most(limit),
        None => Steps::unlimited(),
    }
}

/// What keeps a row from being made, as what keeps lines.
pub(crate) fn fault_of_row(fault: RowFault) -> SelectionFault
    ensures { result ≡ fault_of_row fault }
{
    match fault {
        RowFault::NoMemory => SelectionFault::NoMemory,
        RowFault::StepsUsedUp => SelectionFault::StepsUsedUp,
        RowFault::TooManyNodes => SelectionFault::TooManyNodes,
        RowFault::TooManyBytes => SelectionFault::TooManyBytes,
    }
}

/// What an evaluation that was given up after so many steps means for the line: a defect, or that
/// memory ran out.
pub(crate) fn stop_of(fault: SelectionFault, made: u64) -> Result<Reply, Fault>
    ensures { result ≡ stop_of fault made }
{
    match fault {
        SelectionFault::NoMemory => Err(Fault::NoMemory),
        SelectionFault::StepsUsedUp => Ok(Reply::Refused(Defect::StepsUsedUp(made))),
        SelectionFault::TooManyNodes => Ok(Reply::Refused(Defect::TooManyNodes)),
        SelectionFault::TooManyBytes => Ok(Reply::Refused(Defect::TooManyBytes)),
    }
}

/// Whether so many are more than there may be.
pub(crate) fn is_above(most: Option<u64>, count: u64) -> bool
    ensures above { result ≡ true → Exceeds most count }
    ensures within { result ≡ false → KeepsTo most count }
{
    match most {
        Some(most) => count > most,
        None => false,
    }
}

/// The defect of a document of which so many nodes and bytes are to come out, where that is more than may.
pub(crate) fn defect_of_output(limit: OutputLimit, nodes: u64, bytes: usize) -> Option<Defect>
    ensures within { result ≡ None → StaysWithin limit nodes bytes }
    ensures beyond { IfSome result (IsExcess limit nodes bytes) }
{
    if is_above(limit.nodes, nodes) {
        return Some(Defect::TooManyNodes);
    }
    if is_above(limit.bytes, bytes as u64) {
        return Some(Defect::TooManyBytes);
    }
    None
}
