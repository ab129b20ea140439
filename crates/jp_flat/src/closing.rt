//! Lists and objects whose parts are all read.

ghost use Rattle.std.specs.Prelude.{◌≡◌, ◌+◌, ◌^◌, ◌<◌, ◌≤◌, ◌∷◌, ℕ, suc, true, IfSome, IsTrue};
ghost use Rattle.std.specs.Prelude.{List, [], OnSome, Some, drop, length, take};
ghost use Rattle.std.specs.Map.{keys_of};
ghost use Rattle.jp_document.specs.Value.{Value, members_of, names_rise, object};
ghost use Rattle.jp_flat.specs.Flat.{Grows, all_of, flat_value, member_with, shown};
ghost use Rattle.jp_flat.specs.Private.Reading.{IsTheListOf, IsObjectOf, put_all, with_items};
ghost use Rattle.jp_flat.specs.Private.Sorting.{IsSameByName};
ghost use Rattle.jp_flat.specs.declared.item.Named.{Named};

use crate::item::{Item, Named};
use crate::moving::{move_parts, put};
use crate::sinking::sort_few;
use crate::sorting::{put_each, sort_many};
use crate::spans::span_of;
use crate::tables::Tables;

/// The list of the items from the base on, which move to the tables.
pub(crate) fn close_list(
    tables: &mut Tables<'_>,
    items: &mut Vec<Item>,
    base: usize,
) -> Option<Item>
    requires { base ≤ length items.old.items }
    ensures list { IfSome result (IsTheListOf (drop base items.old.items) (shown tables.old)
        (shown tables.new)) }
    ensures grows { OnSome result (Grows (shown tables.old) (shown tables.new)) }
    ensures rest { OnSome result (items.new.items ≡ take base items.old.items) }
    ensures few { OnSome result (length items.old.items < base + 2 ^ 32) }
{
    let first = tables.items.len();
    move_parts(&mut tables.items, items, base)?;
    let list = list_from(tables, first)?;
    Some(list)
}

/// The list of the items in the tables from the first on.
pub(crate) fn list_from(tables: &Tables<'_>, first: usize) -> Option<Item>
    requires { first ≤ length tables.now.items.items }
    ensures list { IfSome result (IsTheListOf (drop first tables.now.items.items)
        (with_items (shown tables.now) (take first tables.now.items.items)) (shown tables.now)) }
    ensures few { OnSome result (length tables.now.items.items < first + 2 ^ 32) }
{
    let span = span_of(first, tables.items.len() - first)?;
    Some(Item::List(span))
}

/// The object of the members from the base on, which move to the tables in the order of their
/// names, each instead of an earlier one of its name. `rises` says that they came in it; else
/// they are put in order in `sorted`, which is free before and after.
#[inline(always)]
pub(crate) fn close_object(
    tables: &mut Tables<'_>,
    members: &mut Vec<Named>,
    sorted: &mut Vec<Named>,
    base: usize,
    rises: bool,
) -> Option<Item>
    requires { base ≤ length members.old.items }
    ensures object { IfSome result (λ i. (n : ℕ) (ms : List (List ℕ × Value))
        → (rises ≡ true → names_rise (keys_of ms) ≡ true)
        → all_of (member_with (flat_value n (shown tables.old)) (shown tables.old))
        (drop base members.old.items) ≡ Some ms
        → flat_value (suc n) (shown tables.new) i ≡ Some (object (members_of (put_all [] ms)))) }
    ensures grows { OnSome result (Grows (shown tables.old) (shown tables.new)) }
    ensures rest { OnSome result (members.new.items ≡ take base members.old.items) }
{
    if rises {
        let object = object_of(tables, members, base)?;
        return Some(object);
    }
    if sort_few(tables, members, base) {
        let object = object_of(tables, members, base)?;
        return Some(object);
    }
    let object = close_many(tables, members, sorted, base)?;
    Some(object)
}

/// The object of the members from the base on, or of what they were before they were put in another order,
/// those of each name in theirs.
#[inline(never)]
fn close_many(
    tables: &mut Tables<'_>,
    members: &mut Vec<Named>,
    sorted: &mut Vec<Named>,
    base: usize,
) -> Option<Item>
    requires { base ≤ length members.old.items }
    ensures object { IfSome result (λ i. (were : List Named) (n : ℕ) (ms : List (List ℕ × Value))
        → IsSameByName (shown tables.old) were (drop base members.old.items)
        → all_of (member_with (flat_value n (shown tables.old)) (shown tables.old)) were ≡ Some ms
        → flat_value (suc n) (shown tables.new) i ≡ Some (object (members_of (put_all [] ms)))) }
    ensures grows { OnSome result (Grows (shown tables.old) (shown tables.new)) }
    ensures rest { OnSome result (members.new.items ≡ take base members.old.items) }
{
    sort_many(tables, members, base)?;
    put_each(tables, tail(members, base), sorted)?;
    members.truncate(base);
    let object = object_of(tables, sorted, 0)?;
    Some(object)
}

/// The object of the members from the base on as they stand, which move to the tables.
#[inline(always)]
pub(crate) fn object_of(
    tables: &mut Tables<'_>,
    members: &mut Vec<Named>,
    base: usize,
) -> Option<Item>
    requires { base ≤ length members.old.items }
    ensures object { IfSome result (IsObjectOf (drop base members.old.items) (shown tables.old)
        (shown tables.new)) }
    ensures grows { OnSome result (Grows (shown tables.old) (shown tables.new)) }
    ensures rest { OnSome result (members.new.items ≡ take base members.old.items) }
{
    let span = span_of(tables.members.len(), members.len() - base)?;
    move_parts(&mut tables.members, members, base)?;
    Some(Item::Members(span))
}

/// The object of one member, a new one of the tables.
#[inline(always)]
pub(crate) fn object_of_one(tables: &mut Tables<'_>, member: Named) -> Option<Item>
    ensures object { IfSome result (IsObjectOf (member ∷ []) (shown tables.old)
        (shown tables.new)) }
    ensures grows { OnSome result (Grows (shown tables.old) (shown tables.new)) }
{
    let span = span_of(tables.members.len(), 1)?;
    put(&mut tables.members, member)?;
    Some(Item::Members(span))
}

/// What stands from the base on.
fn tail<T>(all: &[T], base: usize) -> &[T]
    requires { base ≤ length all.now }
    ensures { result.now ≡ drop base all.now }
{
    &all[base..]
}
