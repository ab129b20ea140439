//! Why no row is made.

ghost use Rattle.std.specs.Prelude.{◌≡◌, ◌≢◌, IfErr, OnOk, false, true};
ghost use Rattle.jp_limit.specs.OutputLimit.{Exceeds, KeepsTo, StaysWithin};
ghost use Rattle.jp_cells.specs.Limits.{IsTooMuch};
ghost use Rattle.jp_cells.specs.Private.Limits.{row_fault_of};
ghost use Rattle.jp_cells.specs.declared.fault.RowFault.TheVariants.{NoMemory, StepsUsedUp};

use jp_evaluate::EvaluationFault;
use jp_limit::OutputLimit;
use std::alloc::AllocError;

/// Why no row of a document is made.
#[derive(Debug, Clone, Copy, PartialEq, Eq, Drop)]
pub enum RowFault {
    /// Memory ran out.
    NoMemory,
    /// The steps that the caller allowed are used up.
    StepsUsedUp,
    /// The queries select more nodes together than the caller allowed.
    TooManyNodes,
    /// The row has more bytes than the caller allowed.
    TooManyBytes,
}

impl From<AllocError> for RowFault {
    ghost from_gives = { λ _ fault. fault ≡ NoMemory };

    fn from(_error: AllocError) -> RowFault {
        RowFault::NoMemory
    }
}

impl From<EvaluationFault> for RowFault {
    ghost from_gives = { λ fault given. given ≡ row_fault_of fault };

    fn from(fault: EvaluationFault) -> RowFault {
        match fault {
            EvaluationFault::NoMemory => RowFault::NoMemory,
            EvaluationFault::StepsUsedUp => RowFault::StepsUsedUp,
        }
    }
}

/// That so many nodes and bytes are no more than there may be.
pub(crate) fn stay_within(limit: OutputLimit, nodes: u64, bytes: usize) -> Result<(), RowFault>
    ensures within { OnOk result (StaysWithin limit nodes bytes) }
    ensures beyond { IfErr result (IsTooMuch limit nodes bytes) }
    ensures alone { IfErr result (λ fault. fault ≢ StepsUsedUp) }
{
    if is_above(limit.nodes, nodes) {
        return Err(RowFault::TooManyNodes);
    }
    if is_above(limit.bytes, bytes as u64) {
        return Err(RowFault::TooManyBytes);
    }
    Ok(())
}

/// Whether so many are more than there may be.
fn is_above(most: Option<u64>, count: u64) -> bool
    ensures above { result ≡ true → Exceeds most count }
    ensures within { result ≡ false → KeepsTo most count }
{
    match most {
        Some(most) => count > most,
        None => false,
    }
}
