//! Why an evaluation gives no more nodes.

ghost use Rattle.std.specs.Prelude.{◌≡◌};
ghost use Rattle.jp_evaluate.specs.declared.evaluation_fault.EvaluationFault.TheVariants.{NoMemory};
ghost use Rattle.jp_evaluate.specs.declared.evaluation_fault.EvaluationFault.TheVariants.{StepsUsedUp};

use jp_select::Stopped;
use std::alloc::{AllocError, AllocFailed};

/// Why an evaluation gives no more nodes.
#[derive(Debug, Clone, Copy, PartialEq, Eq, Drop)]
pub enum EvaluationFault {
    /// Memory ran out.
    NoMemory,
    /// The steps that the caller allowed are used up.
    StepsUsedUp,
}

impl EvaluationFault {
    /// The error of an evaluation whose steps are not limited.
    pub fn without_limit(self) -> AllocError
        requires { self ≡ NoMemory }
    {
        AllocError
    }
}

impl From<AllocError> for EvaluationFault {
    ghost from_gives = { λ _ fault. fault ≡ NoMemory };

    fn from(_error: AllocError) -> EvaluationFault {
        EvaluationFault::NoMemory
    }
}

impl<T: Drop> From<AllocFailed<T>> for EvaluationFault {
    ghost from_gives = { λ _ fault. fault ≡ NoMemory };

    fn from(_failed: AllocFailed<T>) -> EvaluationFault {
        EvaluationFault::NoMemory
    }
}

impl From<Stopped> for EvaluationFault {
    ghost from_gives = { λ _ fault. fault ≡ StepsUsedUp };

    fn from(_stopped: Stopped) -> EvaluationFault {
        EvaluationFault::StepsUsedUp
    }
}
