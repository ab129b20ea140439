//! The status of a run.

ghost use Rattle.std.specs.Prelude.{◌≡◌};
ghost use Rattle.jp_lines.specs.Program.{status_of_end, status_of_halt, status_of_passed};
ghost use Rattle.jp_lines.specs.Program.{status_of_unbegun};

use crate::halt::{Ended, Halt, Passed, Unbegun};
use crate::options::Options;
use jp_command::status;

/// The status of a run of which some line is refused.
const LINE_REFUSED: u8 = 3;

/// The status of a run of which some input was not read, or whose output failed.
const UNREAD: u8 = 5;

/// The status of a run in which nothing is selected, where that is to be told by it.
const NOTHING_SELECTED: u8 = 6;

/// The status of a run that began.
pub(crate) fn status_of_end(options: Options, ended: &Ended) -> u8
    ensures { result ≡ status_of_end options ended.now.passed ended.now.end }
{
    match &ended.end {
        Ok(()) => status_of_passed(options, ended.passed),
        Err(halt) => status_of_halt(halt),
    }
}

/// The status of a run over all inputs.
fn status_of_passed(options: Options, passed: Passed) -> u8
    ensures { result ≡ status_of_passed options passed }
{
    if passed.unread {
        UNREAD
    } else if passed.tally.refused > 0 {
        LINE_REFUSED
    } else if options.exit_status && passed.tally.selected == 0 {
        NOTHING_SELECTED
    } else {
        0
    }
}

/// The status of what ended a run before the end of its last input.
fn status_of_halt(halt: &Halt) -> u8
    ensures { result ≡ status_of_halt halt.now }
{
    match halt {
        Halt::Line(..) => LINE_REFUSED,
        Halt::Input(..) => UNREAD,
        Halt::Fault(fault) => status(fault),
    }
}

/// The status of what keeps a run from its beginning.
pub(crate) fn status_of_unbegun(why: &Unbegun<'_>) -> u8
    ensures { result ≡ status_of_unbegun why.now }
{
    match why {
        Unbegun::Query(..) | Unbegun::Expression(..) => 1,
        Unbegun::Fault(fault) => status(fault),
    }
}
