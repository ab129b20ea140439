//! Why no lines of nodes are given.

ghost use Rattle.std.specs.Prelude.{◌≡◌, IfErr, OnOk};
ghost use Rattle.jp_command.specs.Private.Faults.{selection_fault_of};
ghost use Rattle.jp_command.specs.Selecting.{IsBeyond};
ghost use Rattle.jp_command.specs.declared.selection_fault.SelectionFault.TheVariants.{NoMemory};
ghost use Rattle.jp_limit.specs.OutputLimit.{StaysWithin};

use jp_evaluate::EvaluationFault;
use jp_limit::OutputLimit;
use std::alloc::AllocError;

/// Why no lines are given of the nodes that a query selects.
#[derive(Debug, Clone, Copy, PartialEq, Eq, Drop)]
pub enum SelectionFault {
    /// Memory ran out.
    NoMemory,
    /// The steps that the caller allowed are used up.
    StepsUsedUp,
    /// There are more nodes than the caller allowed.
    TooManyNodes,
    /// The lines of the nodes have more bytes together than the caller allowed.
    TooManyBytes,
}

impl From<AllocError> for SelectionFault {
    ghost from_gives = { λ _ fault. fault ≡ NoMemory };

    fn from(_error: AllocError) -> SelectionFault {
        SelectionFault::NoMemory
    }
}

impl From<EvaluationFault> for SelectionFault {
    ghost from_gives = { λ fault given. given ≡ selection_fault_of fault };

    fn from(fault: EvaluationFault) -> SelectionFault {
        match fault {
            EvaluationFault::NoMemory => SelectionFault::NoMemory,
            EvaluationFault::StepsUsedUp => SelectionFault::StepsUsedUp,
        }
    }
}

/// Refuses so many nodes, of which so many bytes are written, where there are more than the limit says.
pub fn check_output(limit: OutputLimit, nodes: u64, bytes: usize) -> Result<(), SelectionFault>
    ensures within { OnOk result (StaysWithin limit nodes bytes) }
    ensures beyond { IfErr result (IsBeyond limit nodes bytes) }
{
    if nodes > limit.most_nodes() {
        return Err(SelectionFault::TooManyNodes);
    }
    if bytes as u64 > limit.most_bytes() {
        return Err(SelectionFault::TooManyBytes);
    }
    Ok(())
}
