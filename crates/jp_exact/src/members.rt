//! The members of an object that count: of equal names the last one (RFC 8259 section 4).

ghost use Rattle.std.specs.Prelude.{◌≡◌, ◌<◌, [], length, map, IfOk};
ghost use Rattle.std.specs.List.{AllByRecursion};
ghost use Rattle.json.specs.Value.{members_view};
ghost use Rattle.jp_exact.specs.Private.ExactValue.{members_in, member_there, StandsBefore};

use json::Value;
use std::alloc::{AllocError, Global};
use std::collections::BTreeMap;

/// Where the last member of each name stands, by the bytes of the names.
pub(crate) fn last_members<'t>(
    alloc: Global,
    members: &[(&'t str, Value<'t>)],
) -> Result<BTreeMap<&'t str, usize>, AllocError>
    ensures within { IfOk result
        (λ last. AllByRecursion (StandsBefore (length members.now)) last.entries) }
    ensures last { IfOk result (λ last. map (member_there members.now) last.entries
        ≡ members_in (members_view members.now) []) }
{
    let mut last = BTreeMap::new(alloc);
    'members: for (index, (name, _)) in members.iter().enumerate() {
        last.insert(*name, index)?;
    }
    Ok(last)
}
