//! The value at a location of a document, found while the document is read. Of values that stand
//! elsewhere nothing is kept but unescaped names and texts on the way to it.

ghost use Rattle.std.specs.Prelude.{◌≡◌, ◌<◌, IfSome, OnSome, Some, length};
ghost use Rattle.jp_document.specs.Location.{named, nth};
ghost use Rattle.jp_flat.specs.Flat.{Grows, shown};
ghost use Rattle.jp_flat.specs.Private.Found.{FindsAt, FindsItem, FindsMember, later, location_of};
ghost use Rattle.jp_flat.specs.Private.Found.{IsSoughtIn, sought_at, whole_location};
ghost use Rattle.jp_flat.specs.Private.Tokens.{IsSpelledIn};

use crate::cursor::Cursor;
use crate::item::Item;
use crate::leaf::leaf;
use crate::parts::{bytes_at, is_same};
use crate::passing::pass_value;
use crate::reading::{Pending, lone_value};
use crate::spans::text_span;
use crate::tables::Tables;
use crate::token::{Spelled, Token};
use jp_document::OwnedStep;

/// What is sought in a list or an object: in its part at a step, the value at the rest of a location.
#[derive(Clone, Copy)]
struct Sought<'l> {
    step: &'l OwnedStep,
    rest: &'l [OwnedStep],
}

/// Reads one value, and finds in it the value at a location, if one is given.
#[cycle(finding)]
#[inline(always)]
pub(crate) fn find<const EXACT: bool>(
    tables: &mut Tables<'_>,
    pending: &mut Pending,
    reader: &mut Cursor<'_>,
    depth: usize,
    location: Option<&[OwnedStep]>,
) -> Option<Option<Item>>
    requires { reader.old.text ≡ tables.old.text.now }
    ensures finds { IfSome result (FindsAt depth reader.old.tokens reader.new.tokens (shown tables.new)
        (location_of location.entry)) }
    ensures grows { OnSome result (Grows (shown tables.old) (shown tables.new)) }
    ensures items { OnSome result (pending.new.items.items ≡ pending.old.items.items) }
    ensures members { OnSome result (pending.new.members.items ≡ pending.old.members.items) }
    ensures shorter { OnSome result (length reader.new.tokens < length reader.old.tokens) }
    ensures text { reader.new.text ≡ reader.old.text }
{
    match location {
        Some([]) => {
            let item = lone_value::<EXACT>(tables, pending, reader, depth)?;
            Some(Some(item))
        }
        Some([step, rest @ ..]) => {
            let sought = Sought { step, rest };
            find_inside::<EXACT>(tables, pending, reader, depth, sought)
        }
        None => {
            pass_value::<EXACT>(tables, reader, depth)?;
            Some(None)
        }
    }
}

/// Reads one value, and finds what is sought in it, which is not the value itself.
#[cycle(finding)]
#[inline(always)]
fn find_inside<const EXACT: bool>(
    tables: &mut Tables<'_>,
    pending: &mut Pending,
    reader: &mut Cursor<'_>,
    depth: usize,
    sought: Sought<'_>,
) -> Option<Option<Item>>
    requires { reader.old.text ≡ tables.old.text.now }
    ensures finds { IfSome result (FindsAt depth reader.old.tokens reader.new.tokens (shown tables.new)
        (Some (whole_location sought.entry))) }
    ensures grows { OnSome result (Grows (shown tables.old) (shown tables.new)) }
    ensures items { OnSome result (pending.new.items.items ≡ pending.old.items.items) }
    ensures members { OnSome result (pending.new.members.items ≡ pending.old.members.items) }
    ensures shorter { OnSome result (length reader.new.tokens < length reader.old.tokens) }
    ensures text { reader.new.text ≡ reader.old.text }
{
    let token = reader.next::<EXACT>()?;
    match token {
        Token::BeginArray if depth > 0 => {
            let found = find_item::<EXACT>(tables, pending, reader, depth - 1, sought)?;
            Some(found)
        }
        Token::BeginObject if depth > 0 => {
            let found = find_member::<EXACT>(tables, pending, reader, depth - 1, sought)?;
            Some(found)
        }
        _ => {
            leaf::<EXACT>(tables, token)?;
            Some(None)
        }
    }
}

/// Reads the items of a list, and finds what is sought in them.
#[cycle(finding)]
fn find_item<const EXACT: bool>(
    tables: &mut Tables<'_>,
    pending: &mut Pending,
    reader: &mut Cursor<'_>,
    depth: usize,
    sought: Sought<'_>,
) -> Option<Option<Item>>
    requires { reader.old.text ≡ tables.old.text.now }
    ensures finds { IfSome result (FindsItem depth reader.old.tokens reader.new.tokens
        (shown tables.new) (Some (whole_location sought.entry))) }
    ensures grows { OnSome result (Grows (shown tables.old) (shown tables.new)) }
    ensures items { OnSome result (pending.new.items.items ≡ pending.old.items.items) }
    ensures members { OnSome result (pending.new.members.items ≡ pending.old.members.items) }
    ensures shorter { OnSome result (length reader.new.tokens < length reader.old.tokens) }
    ensures text { reader.new.text ≡ reader.old.text }
{
    let mut found = None;
    let mut index = 0u32;
    'items: while !reader.take_end_array() {
        let inside = item_sought(sought, index);
        let item = find::<EXACT>(tables, pending, reader, depth, inside)?;
        found = found_later(found, inside, item);
        index = index.checked_add(1)?;
    }
    Some(found)
}

/// Reads the members of an object, and finds what is sought in them: of members with one name, in
/// the last.
#[cycle(finding)]
fn find_member<const EXACT: bool>(
    tables: &mut Tables<'_>,
    pending: &mut Pending,
    reader: &mut Cursor<'_>,
    depth: usize,
    sought: Sought<'_>,
) -> Option<Option<Item>>
    requires { reader.old.text ≡ tables.old.text.now }
    ensures finds { IfSome result (FindsMember depth reader.old.tokens reader.new.tokens
        (shown tables.new) (Some (whole_location sought.entry))) }
    ensures grows { OnSome result (Grows (shown tables.old) (shown tables.new)) }
    ensures items { OnSome result (pending.new.items.items ≡ pending.old.items.items) }
    ensures members { OnSome result (pending.new.members.items ≡ pending.old.members.items) }
    ensures shorter { OnSome result (length reader.new.tokens < length reader.old.tokens) }
    ensures text { reader.new.text ≡ reader.old.text }
{
    let mut found = None;
    'members: while let Some(name) = reader.next_name()? {
        let inside = member_sought(tables, sought, name)?;
        let item = find::<EXACT>(tables, pending, reader, depth, inside)?;
        found = found_later(found, inside, item);
    }
    Some(found)
}

/// What is found so far, with what a later part has, if it is the one that is sought.
#[inline(always)]
fn found_later(
    found: Option<Item>,
    inside: Option<&[OwnedStep]>,
    item: Option<Item>,
) -> Option<Item>
    ensures { result ≡ later (location_of inside.entry) found item }
{
    if inside.is_some() { item } else { found }
}

/// What is sought in the item with this index.
#[inline(always)]
fn item_sought<'l>(sought: Sought<'l>, index: u32) -> Option<&'l [OwnedStep]>
    ensures { location_of result ≡ sought_at (nth index) (Some (whole_location sought.entry)) }
{
    let Sought { step, rest } = sought;
    match step {
        OwnedStep::Index(wanted) if *wanted == u64::from(index) => Some(rest),
        _ => None,
    }
}

/// What is sought in the member with this name. None where its escapes are none, or no memory is left
/// to undo them.
#[inline(always)]
fn member_sought<'l>(
    tables: &mut Tables<'_>,
    sought: Sought<'l>,
    name: Spelled<'_>,
) -> Option<Option<&'l [OwnedStep]>>
    requires { IsSpelledIn tables.old.text.now name }
    ensures sought { IfSome result (λ inside. IsSoughtIn name.entry (Some (whole_location
        sought.entry)) (location_of inside)) }
    ensures grows { OnSome result (Grows (shown tables.old) (shown tables.new)) }
{
    match name {
        Spelled::Plain(_, text) => Some(sought_by(sought, text)),
        Spelled::Escaped(_) => {
            let span = text_span(tables, name)?;
            let text = bytes_at(tables, span)?;
            Some(sought_by(sought, text))
        }
    }
}

/// What is sought in the member with the name of these bytes.
#[inline(always)]
fn sought_by<'l>(sought: Sought<'l>, name: &[u8]) -> Option<&'l [OwnedStep]>
    ensures { location_of result ≡ sought_at (named name.now) (Some (whole_location sought.entry)) }
{
    let Sought { step, rest } = sought;
    match step {
        OwnedStep::Name(wanted) if is_same(wanted.as_str(), name) => Some(rest),
        _ => None,
    }
}
