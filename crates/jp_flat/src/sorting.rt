//! Members put in the order of their names.

ghost use Rattle.std.specs.Prelude.{◌≡◌, ◌<◌, ◌≤◌, IfSome, OnSome, drop, length, take};
ghost use Rattle.std.specs.Cmp.Lexicographic.{slice_cmp};
ghost use Rattle.std.specs.List.{insert};
ghost use Rattle.std.specs.List.Sorted.{IsBinarySearchResult, IsSearchInRange};
ghost use Rattle.std.specs.Ordering.{nat_cmp};
ghost use Rattle.jp_flat.specs.Flat.{shown};
ghost use Rattle.jp_flat.specs.Private.Parts.{name_in};
ghost use Rattle.jp_flat.specs.Private.Keys.{members_in};
ghost use Rattle.jp_flat.specs.Private.Sorting.{IsSameByName, Puts, PutsAll};

use crate::item::Named;
use crate::key::{Keyed, order, shared_length, with_keys};
use crate::parts::{bytes_at, bytes_order};
use crate::tables::Tables;
use std::alloc::Global;
use std::cmp::Ordering;

/// The most members that are put in order one by one.
const MAX_MOVED: usize = 64;

/// How often members are sorted by keys before they are by their whole names: each time takes up to
/// eight more bytes of a name for a key, and room on the stack.
const MAX_AGAIN: u32 = 4;

/// Fills `found` with the members in the order of their names, each instead of an earlier one
/// of its name. Members in that order all go in last.
pub(crate) fn put_each(tables: &Tables<'_>, members: &[Named], found: &mut Vec<Named>) -> Option<()>
    ensures { OnSome result (PutsAll (shown tables.now) members.now found.new.items) }
{
    found.clear();
    for member in members {
        put(tables, found, *member)?;
    }
    Some(())
}

/// Puts a member among others in the order of their names, instead of one of its name.
fn put(tables: &Tables<'_>, found: &mut Vec<Named>, member: Named) -> Option<()>
    ensures { OnSome result (Puts (shown tables.now) member found.old.items found.new.items) }
{
    let name = bytes_at(tables, member.name)?;
    match search(tables, found, name) {
        Ok(index) => {
            found[index] = member;
            Some(())
        }
        Err(index) => {
            put_at(found, index, member)?;
            Some(())
        }
    }
}

/// Puts a member at an index among others. At the end none has to move.
#[inline(always)]
fn put_at(found: &mut Vec<Named>, index: usize, member: Named) -> Option<()>
    requires { index ≤ length found.old.items }
    ensures { OnSome result (found.new.items ≡ insert found.old.items index member) }
{
    if index == found.len() {
        found.push(member).ok()?;
    } else {
        found.insert(index, member).ok()?;
    }
    Some(())
}

/// Where a name is among those of members, or where it goes, if theirs rise: a binary search that
/// looks at the last one first, since names often come in order.
fn search(tables: &Tables<'_>, members: &[Named], name: &[u8]) -> Result<usize, usize>
    ensures within { IsSearchInRange result (length members.now) }
    ensures index { IsBinarySearchResult
        (λ m. slice_cmp nat_cmp (name_in (shown tables.now) m) name.now) members.now result }
{
    let mut low = 0;
    let mut high = members.len();
    let mut next = high.saturating_sub(1);
    'halves: while low < high {
        match bytes_order(tables, &members[next], name) {
            Ordering::Less => low = next + 1,
            Ordering::Equal => return Ok(next),
            Ordering::Greater => high = next,
        }
        next = low + (high - low) / 2;
    }
    Err(low)
}

/// Sorts the members from the base on by their names, those of one name as they came, so that `put_each`
/// takes little time. Few of them stay as they are, since sorting would take more.
pub(crate) fn sort_many(tables: &Tables<'_>, members: &mut Vec<Named>, base: usize) -> Option<()>
    requires { base ≤ length members.old.items }
    ensures front { OnSome result (take base members.new.items ≡ take base members.old.items) }
    ensures same { OnSome result (IsSameByName (shown tables.now) (drop base members.old.items)
        (drop base members.new.items)) }
    ensures long { OnSome result (base ≤ length members.new.items) }
{
    if members.len() - base <= MAX_MOVED {
        return Some(());
    }
    sort_by_keys(tables, members, base, MAX_AGAIN)
}

/// Sorts the members from the base on by their keys, then those of one key again so, as often as the
/// number says, and then by their whole names.
fn sort_by_keys(
    tables: &Tables<'_>,
    members: &mut Vec<Named>,
    base: usize,
    again: u32,
) -> Option<()>
    requires { base ≤ length members.old.items }
    ensures front { OnSome result (take base members.new.items ≡ take base members.old.items) }
    ensures same { OnSome result (IsSameByName (shown tables.now) (drop base members.old.items)
        (drop base members.new.items)) }
    ensures long { OnSome result (base ≤ length members.new.items) }
{
    if members.len() - base < 2 {
        return Some(());
    }
    let sorted = sorted(*members.allocator(), tables, &members[base..], again)?;
    members.truncate(base);
    let mut first = base;
    for index in 0..sorted.len() {
        members.push(sorted[index].member).ok()?;
        if again > 0 && ends_run(&sorted, index) {
            sort_by_keys(tables, members, first, again - 1)?;
            first = members.len();
        }
    }
    Some(())
}

/// The members in the order of their keys, those of one name as they came. Where those of one key are
/// not sorted again, they stand in the order of their names.
fn sorted(alloc: Global, tables: &Tables<'_>, members: &[Named], again: u32) -> Option<Vec<Keyed>>
    ensures { IfSome result (λ v. IsSameByName (shown tables.now) members.now (members_in v.items)) }
{
    let mut found = with_keys(alloc, tables, members, shared_length(tables, members))?;
    if again > 0 {
        found.sort_by_key(|keyed| keyed.key).ok()?;
        return Some(found);
    }
    found.sort_by(|a, b| order(tables, a, b)).ok()?;
    Some(found)
}

/// Whether the next member has another key, or there is none.
fn ends_run(sorted: &[Keyed], index: usize) -> bool
    requires { index < length sorted.now }
{
    match sorted.get(index + 1) {
        Some(next) => next.key != sorted[index].key,
        None => true,
    }
}
