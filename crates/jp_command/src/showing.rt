//! Help and the version, which are written where they are asked for.

ghost use Rattle.std.specs.Prelude.{◌≡◌, IfErr, OnErr, OnOk, false, true};
ghost use Rattle.jp_command.specs.Help.{is_shown};
ghost use Rattle.jp_command.specs.Output.{AppendsPrefix, AppendsSome, WritesAll};
ghost use Rattle.jp_command.specs.Private.Showing.{GoesShowing, StopsShowing};
ghost use Rattle.jp_command.specs.Writes.{GoByCalls, GoesToAFailure};

use crate::device::{Failed, Output};
use crate::fault::Fault;
use crate::output::write_all;
use clap::Error;
use clap::error::ErrorKind;
use std::alloc::Global;

/// Whether an error of clap's tells that its text is asked for, as help and the version are.
pub fn is_shown(kind: ErrorKind) -> bool
    ensures { result ≡ is_shown kind }
{
    matches!(kind, ErrorKind::DisplayHelp | ErrorKind::DisplayVersion)
}

/// Writes the text of clap's error and hands it on. `NoMemory` says that there is no memory for the text, and
/// then nothing is written; `Write` that the output failed: that call is not tried again, and a prefix of the
/// text is written.
pub fn write_shown<W: Output>(alloc: Global, error: &Error, output: &mut W) -> Result<(), Fault>
    ensures written { AppendsSome (W.contents output.old) (W.contents output.new) }
    ensures works { OnOk result (W.has_failed output.new ≡ W.has_failed output.old) }
    ensures handed_on { OnOk result (W.holds_back output.new ≡ false) }
    ensures stopped { IfErr result (StopsShowing W.has_failed output.old output.new) }
    ensures calls { GoesShowing W.contents W.has_failed W.write_takes output.old output.new result }
{
    let text = error.to_string(alloc)?;
    match write_and_flush(output, text.as_bytes()) {
        Ok(()) => Ok(()),
        Err(_) => Err(Fault::Write),
    }
}

/// Writes all of `bytes` and hands it on. Where a write or the flush fails, what was written is a prefix of
/// them, and no further call is made.
fn write_and_flush<W: Output>(output: &mut W, bytes: &[u8]) -> Result<(), Failed>
    ensures ok { OnOk result (WritesAll W.contents W.has_failed output.old output.new bytes.now) }
    ensures prefix { OnErr result
        (AppendsPrefix (W.contents output.old) (W.contents output.new) bytes.now) }
    ensures failed { OnErr result (W.has_failed output.new ≡ true) }
    ensures calls { OnOk result (GoByCalls W.write_takes output.old output.new bytes.now) }
    ensures stopped { OnErr result (GoesToAFailure W.write_takes output.old output.new bytes.now) }
    ensures handed_on { OnOk result (W.holds_back output.new ≡ false) }
{
    write_all(output, bytes)?;
    output.flush()
}
