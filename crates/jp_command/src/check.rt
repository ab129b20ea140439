//! A run that tells whether a query is accepted.

ghost use Rattle.jp_command.specs.Check.{RunsCheck, accepted_line};
ghost use Rattle.jp_command.specs.QueryLine.{IsQueryLine};
ghost use Rattle.jp_command.specs.Writes.{WritesByCalls};

use crate::device::Writer;
use crate::eval::read_within_limit;
use crate::fault::Fault;
use crate::output::write_all;
use jp_check::Profile;
use std::alloc::Global;

/// Writes `accepted` and a newline if `query` is accepted in that profile (RFC 9535 sections 2.1
/// and 2.1.1).
///
/// `Query` says that the query has more than `QUERY_LIMIT` bytes (`TextTooLong`) or is refused, and
/// `NoMemory` that the memory did not suffice; after both nothing is written. `Write` says that the
/// output failed: that call is not tried again, and a prefix of the line is written. No other fault
/// is answered.
pub fn run_check<W: Writer>(
    alloc: Global,
    query: &str,
    profile: Profile,
    output: &mut W,
) -> Result<(), Fault>
    ensures says { RunsCheck profile W.contents W.has_failed query.now
        output.old output.new result }
    ensures calls { WritesByCalls W.write_takes (IsQueryLine profile accepted_line query.now)
        output.old output.new result }
{
    read_within_limit(alloc, query, profile)?;
    let Ok(()) = write_all(output, b"accepted\n") else {
        return Err(Fault::Write);
    };
    Ok(())
}
