//! How a run over inputs ended, or why it did not begin.

ghost use Rattle.std.specs.Prelude.{◌≡◌, [], false};
ghost use Rattle.jp_command.specs.declared.fault.Fault.TheVariants.{NoMemory};
ghost use Rattle.jp_lines.specs.Outcome.{tally_of};
ghost use Rattle.jp_lines.specs.declared.halt.Halt.TheVariants as halt;
ghost use Rattle.jp_lines.specs.declared.halt.Unbegun.TheVariants as unbegun;

use crate::defect::RefusedLine;
use crate::inputs::Unopened;
use crate::tally::Tally;
use jp_command::Fault;
use jp_query::Refusal;
use std::alloc::AllocError;
use std::fmt;

/// Why an input was not read to its end.
#[derive(Clone, Copy, PartialEq, Eq)]
pub(crate) enum Unread {
    Unopened(Unopened),
    /// A read failed.
    Failed,
}

/// As `no such file`.
impl fmt::Display for Unread {
    ghost use Rattle.std.specs.Prelude.{Some};
    ghost use Rattle.jp_lines.specs.Inputs.{unread_text};

    ghost output = { λ why. Some (unread_text why) };

    fn fmt<W: fmt::Write>(&self, f: &mut fmt::Formatter<W>) -> fmt::Result {
        f.write_str(match self {
            Unread::Unopened(Unopened::Missing) => "no such file",
            Unread::Unopened(Unopened::NotPermitted) => "not permitted",
            Unread::Unopened(Unopened::Failed) => "open fault",
            Unread::Failed => "read fault",
        })
    }
}

/// Why a run over inputs ended before the end of the last one.
#[derive(Drop)]
pub(crate) enum Halt {
    /// A line is refused, and the run was not to go on after it. Before it stands what the reports of its
    /// input begin with.
    Line(String, RefusedLine),
    /// An input was not read to its end, and the run was not to go on after it. Before the reason stands
    /// what its report begins with.
    Input(String, Unread),
    /// Memory ran out, or a write failed.
    Fault(Fault),
}

impl From<AllocError> for Halt {
    ghost from_gives = { λ _ why. why ≡ halt.Fault NoMemory };

    fn from(_error: AllocError) -> Halt {
        Halt::Fault(Fault::NoMemory)
    }
}

/// Why a run did not begin.
#[derive(Drop)]
pub(crate) enum Unbegun<'w> {
    /// The query of this text is refused.
    Query(&'w str, Refusal),
    /// The expression of this text is refused.
    Expression(&'w str, Refusal),
    /// Memory ran out, or the names of columns could not be written.
    Fault(Fault),
}

impl<'w> From<AllocError> for Unbegun<'w> {
    ghost from_gives = { λ _ why. why ≡ unbegun.Fault NoMemory };

    fn from(_error: AllocError) -> Unbegun<'w> {
        Unbegun::Fault(Fault::NoMemory)
    }
}

impl<'w> From<Fault> for Unbegun<'w> {
    ghost from_gives = { λ fault why. why ≡ unbegun.Fault fault };

    fn from(fault: Fault) -> Unbegun<'w> {
        Unbegun::Fault(fault)
    }
}

/// What a run has come to.
#[derive(Clone, Copy)]
pub(crate) struct Passed {
    /// What the lines of its inputs count.
    pub(crate) tally: Tally,
    /// Whether some input was not read to its end, and the run went on after it.
    pub(crate) unread: bool,
}

impl Passed {
    /// Nothing yet.
    pub(crate) fn none() -> Passed
        ensures tally { result.tally ≡ tally_of [] }
        ensures unread { result.unread ≡ false }
    {
        Passed {
            tally: Tally::none(),
            unread: false,
        }
    }
}

/// A run that ended.
#[derive(Drop)]
pub(crate) struct Ended {
    pub(crate) passed: Passed,
    pub(crate) end: Result<(), Halt>,
}
