//! Tables of a document's value that is held as a tree.

ghost use Rattle.std.specs.Prelude.{◌≡◌, ℕ, suc, true, IfSome, OnSome, Some, map};
ghost use Rattle.std.specs.List.{list_all};
ghost use Rattle.jp_decimal.specs.Number.{is_decimal};
ghost use Rattle.jp_document.specs.Value.{IsDocumentValue, decimal, everywhere, is_allowed};
ghost use Rattle.jp_document.specs.Value.{items_of, list, member_of, members_of, object, value_of};
ghost use Rattle.jp_flat.specs.Flat.{Grows, flat_value, shown};

use crate::closing::{close_list, object_of};
use crate::item::{Item, Named};
use crate::number::whole_item;
use crate::reading::Pending;
use crate::spans::{spared, spared_number};
use crate::tables::Tables;
use jp_decimal::{Decimal, Number};
use jp_document::{Json, Member};

/// Puts a value behind its parts into the tables, with its texts among the spare ones. None where it
/// has more levels of lists and objects than the number, no memory is left, or more than 2^32 bytes
/// or parts would stand there.
#[cycle(of_tree)]
pub(crate) fn put_value(
    tables: &mut Tables<'_>,
    pending: &mut Pending,
    value: &Json,
    depth: usize,
) -> Option<Item>
    requires { IsDocumentValue (value_of value.now) }
    ensures means { IfSome result
        (λ i. flat_value depth (shown tables.new) i ≡ Some (value_of value.now)) }
    ensures grows { OnSome result (Grows (shown tables.old) (shown tables.new)) }
    ensures items { OnSome result (pending.new.items.items ≡ pending.old.items.items) }
    ensures members { OnSome result (pending.new.members.items ≡ pending.old.members.items) }
{
    match value {
        Json::Null => Some(Item::Null),
        Json::Bool(truth) => Some(Item::Bool(*truth)),
        Json::Whole(number) => whole_item(*number),
        Json::Decimal {
            exponent,
            coefficient,
        } => {
            let number = Decimal {
                coefficient: *coefficient,
                exponent: *exponent,
            };
            let item = put_decimal(tables, number)?;
            Some(item)
        }
        Json::Text(text) => {
            let span = spared(tables, text.as_str())?;
            Some(Item::Text(span))
        }
        Json::List(items) if depth > 0 => put_items(tables, pending, items, depth - 1),
        Json::Members(members) if depth > 0 => put_members(tables, pending, members, depth - 1),
        Json::List(_) | Json::Members(_) => None,
    }
}

/// Puts a decimal into the tables, by its text among the spare ones.
fn put_decimal(tables: &mut Tables<'_>, number: Decimal) -> Option<Item>
    requires { is_decimal number.coefficient number.exponent ≡ true }
    ensures means { IfSome result (λ i. (n : ℕ) → flat_value n (shown tables.new) i
        ≡ Some (decimal number.coefficient number.exponent)) }
    ensures grows { OnSome result (Grows (shown tables.old) (shown tables.new)) }
{
    let span = spared_number(tables, Number::Decimal(number))?;
    Some(Item::Numeral(span))
}

/// Puts the items of a list into the tables, and answers the list.
#[cycle(of_tree)]
fn put_items(
    tables: &mut Tables<'_>,
    pending: &mut Pending,
    items: &[Json],
    depth: usize,
) -> Option<Item>
    requires { list_all (everywhere is_allowed) (map value_of items.now) ≡ true }
    ensures means { IfSome result (λ i. flat_value (suc depth) (shown tables.new) i
        ≡ Some (list (items_of (map value_of items.now)))) }
    ensures grows { OnSome result (Grows (shown tables.old) (shown tables.new)) }
    ensures items { OnSome result (pending.new.items.items ≡ pending.old.items.items) }
    ensures members { OnSome result (pending.new.members.items ≡ pending.old.members.items) }
{
    let base = pending.items.len();
    for value in items {
        let item = put_value(tables, pending, value, depth)?;
        pending.items.push(item).ok()?;
    }
    let list = close_list(tables, &mut pending.items, base)?;
    Some(list)
}

/// Puts the members of an object into the tables, as they stand, and answers the object.
#[cycle(of_tree)]
fn put_members(
    tables: &mut Tables<'_>,
    pending: &mut Pending,
    members: &[Member],
    depth: usize,
) -> Option<Item>
    requires { list_all (λ m. everywhere is_allowed m.1) (map member_of members.now) ≡ true }
    ensures means { IfSome result (λ i. flat_value (suc depth) (shown tables.new) i
        ≡ Some (object (members_of (map member_of members.now)))) }
    ensures grows { OnSome result (Grows (shown tables.old) (shown tables.new)) }
    ensures items { OnSome result (pending.new.items.items ≡ pending.old.items.items) }
    ensures members { OnSome result (pending.new.members.items ≡ pending.old.members.items) }
{
    let base = pending.members.len();
    for member in members {
        let name = spared(tables, member.name.as_str())?;
        let item = put_value(tables, pending, &member.value, depth)?;
        pending.members.push(Named { name, item }).ok()?;
    }
    let object = object_of(tables, &mut pending.members, base)?;
    Some(object)
}
