//! Few members, put in the order of their names where they stand.

ghost use Rattle.std.specs.Prelude.{◌≡◌, ◌+◌, ◌<◌, ◌≤◌, drop, length, take, true};
ghost use Rattle.jp_flat.specs.Flat.{shown};
ghost use Rattle.jp_flat.specs.Private.Sorting.{IsSameByName, MembersRise};

use crate::item::Named;
use crate::parts::{name_at, names_order};
use crate::tables::Tables;
use std::cmp::Ordering;

/// The most members of which each sinks to its place: of more, each would sink past too many others.
const MAX_FEW: usize = 16;

/// Puts the members from the base on in the order of their names, if they are few, and answers whether
/// these rise now. Where they are many, or two have one name, it answers that they don't. It stands out of
/// the way of objects whose names rise as they come.
#[inline(never)]
pub(crate) fn sort_few(tables: &Tables<'_>, members: &mut Vec<Named>, base: usize) -> bool
    requires { base ≤ length members.old.items }
    ensures front { take base members.new.items ≡ take base members.old.items }
    ensures same { IsSameByName (shown tables.now) (drop base members.old.items)
        (drop base members.new.items) }
    ensures rise { result ≡ true → MembersRise (shown tables.now) (drop base members.new.items) }
    ensures long { base ≤ length members.new.items }
{
    if members.len() - base > MAX_FEW {
        return false;
    }
    all_sink(tables, &mut members[base..])
}

/// Puts members in the order of their names, and answers whether these rise now: not so where two have
/// one name.
fn all_sink(tables: &Tables<'_>, members: &mut [Named]) -> bool
    ensures same { IsSameByName (shown tables.now) members.old members.new }
    ensures rise { result ≡ true → MembersRise (shown tables.now) members.new }
{
    for index in 1..members.len() {
        if !sinks(tables, members, index) {
            return false;
        }
    }
    true
}

/// Lets the member at an index sink to its place among those before it, whose names rise, and answers
/// whether these and its own rise now: not so where one of them has its name.
#[inline(always)]
fn sinks(tables: &Tables<'_>, members: &mut [Named], index: usize) -> bool
    requires { index < length members.old }
    ensures same { IsSameByName (shown tables.now) members.old members.new }
    ensures rise { MembersRise (shown tables.now) (take index members.old) → result ≡ true
        → MembersRise (shown tables.now) (take (index + 1) members.new) }
{
    let name = name_at(tables, &members[index]);
    let mut place = index;
    'places: while place > 0 {
        match names_order(name_at(tables, &members[place - 1]), name) {
            Ordering::Less => return true,
            Ordering::Equal => return false,
            Ordering::Greater => {
                let member = members[place];
                members[place] = members[place - 1];
                members[place - 1] = member;
                place -= 1;
            }
        }
    }
    true
}
