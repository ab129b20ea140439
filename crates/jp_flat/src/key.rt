//! Members with keys, by which they are sorted: what tells their names apart, as numbers.

ghost use Rattle.std.specs.Prelude.{◌≡◌, ◌<◌, ◌≤◌, IfSome, drop, get_or, length};
ghost use Rattle.jp_flat.specs.Flat.{shown};
ghost use Rattle.jp_flat.specs.Private.Fronts.{front_of};
ghost use Rattle.jp_flat.specs.Private.Keys.{AreKeyed, keyed_cmp};
ghost use Rattle.jp_flat.specs.Private.Parts.{name_in};

use crate::item::Named;
use crate::parts::{bytes_order, name_at};
use crate::tables::Tables;
use std::alloc::Global;
use std::cmp::Ordering;

/// A member, and eight bytes of its name as one number, by which most names differ.
#[derive(Clone, Copy)]
pub(crate) struct Keyed {
    pub(crate) key: u64,
    pub(crate) member: Named,
}

/// The members with their keys, which are taken behind so many bytes of the names.
pub(crate) fn with_keys(
    alloc: Global,
    tables: &Tables<'_>,
    members: &[Named],
    shared: usize,
) -> Option<Vec<Keyed>>
    ensures { IfSome result (λ v. AreKeyed (shown tables.now) shared members.now v.items) }
{
    let mut found = Vec::with_capacity(alloc, members.len()).ok()?;
    for member in members {
        let key = key_behind(name_at(tables, member), shared);
        found
            .push(Keyed {
                key,
                member: *member,
            })
            .ok()?;
    }
    Some(found)
}

/// The order of two members by their keys, and where these are the same by their names.
pub(crate) fn order(tables: &Tables<'_>, left: &Keyed, right: &Keyed) -> Ordering
    ensures { result ≡ keyed_cmp (shown tables.now) left.now right.now }
{
    if left.key != right.key {
        return left.key.cmp(&right.key);
    }
    bytes_order(tables, &left.member, name_at(tables, &right.member))
}

/// How many bytes the names of all members begin with alike. No contract speaks of it: behind any other
/// number, keys would sort the members more slowly, and what is made of them would be the same.
pub(crate) fn shared_length(tables: &Tables<'_>, members: &[Named]) -> usize {
    let Some(first) = members.first() else {
        return 0;
    };
    let mut shared = name_at(tables, first);
    for member in members {
        let count = alike(shared, name_at(tables, member));
        shared = &shared[..count];
    }
    shared.len()
}

/// How many bytes two names begin with alike.
fn alike(left: &[u8], right: &[u8]) -> usize
    ensures { result ≤ length left.now }
{
    let both = left.len().min(right.len());
    for index in 0..both {
        if left[index] != right[index] {
            return index;
        }
    }
    both
}

/// The key of a name: the bytes behind so many.
fn key_behind(name: &[u8], shared: usize) -> u64
    ensures { result ≡ front_of 8 (drop shared name.now) }
{
    if shared < name.len() {
        front_of(&name[shared..])
    } else {
        0
    }
}

/// The first eight bytes as a number, with zeros behind a shorter name.
#[inline(always)]
fn front_of(name: &[u8]) -> u64
    ensures { result ≡ front_of 8 name.now }
{
    if name.len() < 8 {
        front_of_short(name)
    } else {
        front_by_bytes(name)
    }
}

/// The front of a name that may be shorter, out of the way of the others: where eight bytes are known
/// to stand there, none of them is looked for.
#[inline(never)]
fn front_of_short(name: &[u8]) -> u64
    ensures { result ≡ front_of 8 name.now }
{
    front_by_bytes(name)
}

/// The first eight bytes as a number, the first of them highest, put together one by one.
#[inline(always)]
fn front_by_bytes(name: &[u8]) -> u64
    ensures { result ≡ front_of 8 name.now }
{
    let high = byte_at(name, 0) * 0x100_0000
        + byte_at(name, 1) * 0x1_0000
        + byte_at(name, 2) * 0x100;
    let low = byte_at(name, 4) * 0x100_0000
        + byte_at(name, 5) * 0x1_0000
        + byte_at(name, 6) * 0x100;
    (high + byte_at(name, 3)) * 0x1_0000_0000 + low + byte_at(name, 7)
}

/// The byte at an offset, 0 where the name is shorter.
#[inline(always)]
fn byte_at(name: &[u8], at: usize) -> u64
    ensures byte { result ≡ get_or name.now at 0 }
    ensures small { result < 256 }
{
    if at < name.len() {
        u64::from(name[at])
    } else {
        0
    }
}
