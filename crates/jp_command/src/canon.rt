//! A run that writes the canonical text of a query.

ghost use Rattle.std.specs.Prelude.{◌≡◌, IfOk, string_bytes};
ghost use Rattle.jp_tree.specs.Views.{query_of};
ghost use Rattle.jp_command.specs.Canon.{RunsCanon, canon_line};
ghost use Rattle.jp_command.specs.QueryLine.{IsQueryLine};
ghost use Rattle.jp_command.specs.Writes.{WritesByCalls};

use crate::device::Writer;
use crate::eval::read_within_limit;
use crate::fault::Fault;
use crate::output::write_all;
use jp_canon::canon;
use jp_check::{Checked, Profile};
use std::alloc::{AllocError, Global};

/// Writes the canonical text of `query`, read in that profile, and a newline (RFC 9535 sections 2.1
/// to 2.5).
///
/// `Query` says that the query has more than `QUERY_LIMIT` bytes (`TextTooLong`) or is refused, and
/// `NoMemory` that the memory did not suffice; after both nothing is written. `Write` says that the
/// output failed: that call is not tried again, and a prefix of the line is written. No other fault
/// is answered.
pub fn run_canon<W: Writer>(
    alloc: Global,
    query: &str,
    profile: Profile,
    output: &mut W,
) -> Result<(), Fault>
    ensures says { RunsCanon profile W.contents W.has_failed query.now
        output.old output.new result }
    ensures calls { WritesByCalls W.write_takes (IsQueryLine profile canon_line query.now)
        output.old output.new result }
{
    let query = read_within_limit(alloc, query, profile)?;
    let line = canon_line(alloc, &query)?;
    let Ok(()) = write_all(output, line.as_bytes()) else {
        return Err(Fault::Write);
    };
    Ok(())
}

/// The line of an accepted query.
fn canon_line(alloc: Global, query: &Checked) -> Result<String, AllocError>
    ensures { IfOk result (λ line. string_bytes line ≡ canon_line (query_of query.now.query)) }
{
    let mut line = canon(alloc, query)?;
    line.push('\n')?;
    Ok(line)
}
