//! Writing all of a text.

ghost use Rattle.std.specs.Prelude.{◌≡◌, true, OnOk, OnErr};
ghost use Rattle.jp_command.specs.Output.{AppendsPrefix, WritesAll};
ghost use Rattle.jp_command.specs.Writes.{GoByCalls, GoesToAFailure};

use crate::device::{Failed, Writer};

/// Writes all of `bytes`. Where a write fails, what was written is a prefix of them, and no further
/// write is tried.
#[inline(always)]
pub fn write_all<W: Writer>(output: &mut W, bytes: &[u8]) -> Result<(), Failed>
    ensures ok { OnOk result (WritesAll W.contents W.has_failed output.old output.new bytes.now) }
    ensures prefix { OnErr result
        (AppendsPrefix (W.contents output.old) (W.contents output.new) bytes.now) }
    ensures failed { OnErr result (W.has_failed output.new ≡ true) }
    ensures calls { OnOk result (GoByCalls W.write_takes output.old output.new bytes.now) }
    ensures stopped { OnErr result (GoesToAFailure W.write_takes output.old output.new bytes.now) }
{
    let mut rest = bytes;
    while !rest.is_empty() {
        let count = output.write(rest)?;
        rest = &rest[count..];
    }
    Ok(())
}
