//! An object, and of it some members alone, or a list, and of its items that are objects.

ghost use Rattle.std.specs.Prelude.{◌≡◌, ◌≤◌, ◌<◌, ◌∷◌, IfSome, OnSome, length, true};
ghost use Rattle.json.specs.Align.{is_good};
ghost use Rattle.jp_flat.specs.Asked.{is_listed, is_name, with_items_of, with_members};
ghost use Rattle.jp_flat.specs.Flat.{Grows, shown};
ghost use Rattle.jp_flat.specs.Private.Kept.{IsSaidAmong, KeepsFlat, KeepsFlatItems};
ghost use Rattle.jp_flat.specs.Private.Kept.{KeepsFlatMembers};
ghost use Rattle.jp_flat.specs.Private.Tokens.{IsSpelledIn, TokenHolds, token_of};

use crate::closing::{close_list, close_object};
use crate::cursor::Cursor;
use crate::item::{Item, Named};
use crate::moving::put;
use crate::parts::{bytes_at, is_same};
use crate::passing::pass_value;
use crate::reading::{Pending, value, value_behind};
use crate::rising::still_rises;
use crate::spans::text_span;
use crate::tables::Tables;
use crate::token::{Spelled, Token};

/// Reads a document's value, and if it is a list, of the objects that are its items the members of
/// these names alone.
pub(crate) fn picked_list<const EXACT: bool>(
    tables: &mut Tables<'_>,
    pending: &mut Pending,
    reader: &mut Cursor<'_>,
    depth: usize,
    names: &[String],
) -> Option<Item>
    requires { reader.old.text ≡ tables.old.text.now }
    ensures keeps { IfSome result (KeepsFlat (λ v u. u ≡ with_items_of (is_listed names.now) v) depth
        reader.old.tokens reader.new.tokens (shown tables.new)) }
    ensures text { reader.new.text ≡ reader.old.text }
    ensures exact { OnSome result (tables.new.exact ≡ tables.old.exact) }
{
    let token = reader.next::<EXACT>()?;
    match token {
        Token::BeginArray => {
            let inside = depth.checked_sub(1)?;
            let list = picked_items::<EXACT>(tables, pending, reader, inside, names)?;
            Some(list)
        }
        _ => {
            let item = value_behind::<EXACT>(tables, pending, reader, depth, token)?;
            Some(item)
        }
    }
}

/// Reads the items of a list, and of those that are objects the members of these names alone.
fn picked_items<const EXACT: bool>(
    tables: &mut Tables<'_>,
    pending: &mut Pending,
    reader: &mut Cursor<'_>,
    depth: usize,
    names: &[String],
) -> Option<Item>
    requires { reader.old.text ≡ tables.old.text.now }
    ensures keeps { IfSome result (KeepsFlatItems (λ v u. u ≡ with_items_of (is_listed names.now) v)
        depth reader.old.tokens reader.new.tokens (shown tables.new)) }
    ensures text { reader.new.text ≡ reader.old.text }
    ensures exact { OnSome result (tables.new.exact ≡ tables.old.exact) }
{
    let base = pending.items.len();
    'items: while !reader.take_end_array() {
        let item = picked_object::<EXACT>(tables, pending, reader, depth, names)?;
        put(&mut pending.items, item)?;
    }
    let list = close_list(tables, &mut pending.items, base)?;
    Some(list)
}

/// Reads a value, and if it is an object the members of these names alone.
#[inline(always)]
pub(crate) fn picked_object<const EXACT: bool>(
    tables: &mut Tables<'_>,
    pending: &mut Pending,
    reader: &mut Cursor<'_>,
    depth: usize,
    names: &[String],
) -> Option<Item>
    requires { reader.old.text ≡ tables.old.text.now }
    ensures keeps { IfSome result (KeepsFlat (λ v u. u ≡ with_members (is_listed names.now) v) depth
        reader.old.tokens reader.new.tokens (shown tables.new)) }
    ensures grows { OnSome result (Grows (shown tables.old) (shown tables.new)) }
    ensures items { OnSome result (pending.new.items.items ≡ pending.old.items.items) }
    ensures members { OnSome result (pending.new.members.items ≡ pending.old.members.items) }
    ensures shorter { OnSome result (length reader.new.tokens < length reader.old.tokens) }
    ensures text { reader.new.text ≡ reader.old.text }
{
    let token = reader.next::<EXACT>()?;
    match token {
        Token::BeginObject => {
            let inside = depth.checked_sub(1)?;
            let object = picked_members::<EXACT>(tables, pending, reader, inside, names)?;
            Some(object)
        }
        _ => {
            let item = value_behind::<EXACT>(tables, pending, reader, depth, token)?;
            Some(item)
        }
    }
}

/// Reads the members of an object, and keeps those of these names alone.
fn picked_members<const EXACT: bool>(
    tables: &mut Tables<'_>,
    pending: &mut Pending,
    reader: &mut Cursor<'_>,
    depth: usize,
    names: &[String],
) -> Option<Item>
    requires { reader.old.text ≡ tables.old.text.now }
    ensures keeps { IfSome result (KeepsFlatMembers (λ v u. u ≡ with_members (is_listed names.now) v)
        depth reader.old.tokens reader.new.tokens (shown tables.new)) }
    ensures grows { OnSome result (Grows (shown tables.old) (shown tables.new)) }
    ensures items { OnSome result (pending.new.items.items ≡ pending.old.items.items) }
    ensures members { OnSome result (pending.new.members.items ≡ pending.old.members.items) }
    ensures shorter { OnSome result (length reader.new.tokens < length reader.old.tokens) }
    ensures text { reader.new.text ≡ reader.old.text }
{
    let base = pending.members.len();
    let mut rises = true;
    'members: while let Some(name) = reader.next_name()? {
        if !is_picked(tables, names, name)? {
            pass_value::<EXACT>(tables, reader, depth)?;
            continue;
        }
        rises = still_rises(rises, tables, &pending.members, base, name);
        let span = text_span(tables, name)?;
        let item = value::<EXACT>(tables, pending, reader, depth)?;
        put(&mut pending.members, Named { name: span, item })?;
    }
    let object = close_object(
        tables,
        &mut pending.members,
        &mut pending.sorted,
        base,
        rises,
    )?;
    Some(object)
}

/// Whether a name is one of these. None where its escapes are none, or no memory is left to undo them.
#[inline(always)]
fn is_picked(tables: &mut Tables<'_>, names: &[String], name: Spelled<'_>) -> Option<bool>
    requires { IsSpelledIn tables.old.text.now name }
    ensures picked { IfSome result (IsSaidAmong names.now name.entry) }
    ensures grows { OnSome result (Grows (shown tables.old) (shown tables.new)) }
{
    match name {
        Spelled::Plain(_, text) => Some(is_one_of(names, text)),
        Spelled::Escaped(_) => {
            let span = text_span(tables, name)?;
            let text = bytes_at(tables, span)?;
            Some(is_one_of(names, text))
        }
    }
}

/// Whether the bytes are one of these names.
#[inline(always)]
fn is_one_of(names: &[String], bytes: &[u8]) -> bool
    ensures { result ≡ is_listed names.now bytes.now }
{
    let mut at = 0;
    'names: while at < names.len() {
        if is_name(names[at].as_str(), bytes) {
            return true;
        }
        at += 1;
    }
    false
}

/// Whether the bytes are this name. Most names differ in their length.
#[inline(always)]
fn is_name(name: &str, bytes: &[u8]) -> bool
    ensures { result ≡ is_name name.now bytes.now }
{
    name.len() == bytes.len() && is_same(name, bytes)
}
