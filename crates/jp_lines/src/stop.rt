//! Why a run over lines stopped.

ghost use Rattle.std.specs.Prelude.{◌≡◌};
ghost use Rattle.jp_command.specs.declared.fault.Fault.TheVariants.{NoMemory};
ghost use Rattle.jp_lines.specs.declared.stop.Stop.TheVariants.{Run};

use crate::defect::RefusedLine;
use jp_command::Fault;
use std::alloc::AllocError;
use std::fmt;
use thiserror::Error;

/// Why a run over lines stopped before the end of its input.
#[derive(Debug, PartialEq, Drop, Error)]
pub enum Stop {
    /// A line is refused, and the run was not to go on after it.
    Line(RefusedLine),
    /// What also stops a run over one document, but for its refusal.
    Run(Fault),
}

/// The line that tells it, without the newline.
impl fmt::Display for Stop {
    ghost use Rattle.std.specs.Prelude.{Some};
    ghost use Rattle.jp_lines.specs.Program.{stop_text};

    ghost output = { λ stop. Some (stop_text stop) };

    fn fmt<W: fmt::Write>(&self, f: &mut fmt::Formatter<W>) -> fmt::Result {
        match self {
            Stop::Line(refused) => write!(f, "{refused}"),
            Stop::Run(fault) => write!(f, "{fault}"),
        }
    }
}

impl From<AllocError> for Stop {
    ghost from_gives = { λ _ stop. stop ≡ Run NoMemory };

    fn from(_error: AllocError) -> Stop {
        Stop::Run(Fault::NoMemory)
    }
}

impl From<Fault> for Stop {
    ghost from_gives = { λ fault stop. stop ≡ Run fault };

    fn from(fault: Fault) -> Stop {
        Stop::Run(fault)
    }
}
