//! Values of which what leads to the members of one name is kept.

ghost use Rattle.std.specs.Prelude.{◌≡◌, ◌≤◌, ◌<◌, ◌∷◌, ◌⊎◌, IfSome, OnSome, false, length, true};
ghost use Rattle.json.specs.Align.{is_good};
ghost use Rattle.jp_flat.specs.Asked.{IsThinned};
ghost use Rattle.jp_flat.specs.Flat.{Grows, shown};
ghost use Rattle.jp_flat.specs.Private.Kept.{IsLeftOut, IsMemberKept, IsPushed, IsSaidOther};
ghost use Rattle.jp_flat.specs.Private.Kept.{KeepsFlat, KeepsFlatItems, KeepsFlatMembers};
ghost use Rattle.jp_flat.specs.Private.Tokens.{IsSpelledIn, TokenHolds, token_of};

use crate::closing::{close_list, close_object, list_from};
use crate::cursor::Cursor;
use crate::item::{Item, Named};
use crate::leaf::{leaf, leaves};
use crate::moving::{move_parts, put};
use crate::parts::is_same;
use crate::reading::{Pending, lone_container};
use crate::rising::still_rises;
use crate::spans::text_span;
use crate::tables::Tables;
use crate::token::{Spelled, Token};

/// Reads one value, in which members of other names may be left out where nothing can be inside them.
#[cycle(thinning)]
#[inline(always)]
pub(crate) fn thin_value<const EXACT: bool>(
    tables: &mut Tables<'_>,
    pending: &mut Pending,
    reader: &mut Cursor<'_>,
    depth: usize,
    wanted: &str,
) -> Option<Item>
    requires { reader.old.text ≡ tables.old.text.now }
    ensures keeps { IfSome result (λ i. KeepsFlat (IsThinned wanted.now) depth reader.old.tokens
        reader.new.tokens (shown tables.new) i) }
    ensures grows { OnSome result (Grows (shown tables.old) (shown tables.new)) }
    ensures items { OnSome result (pending.new.items.items ≡ pending.old.items.items) }
    ensures members { OnSome result (pending.new.members.items ≡ pending.old.members.items) }
    ensures shorter { OnSome result (length reader.new.tokens < length reader.old.tokens) }
    ensures text { reader.new.text ≡ reader.old.text }
{
    let token = reader.next::<EXACT>()?;
    match token {
        Token::BeginArray | Token::BeginObject => {
            let item = thin_container::<EXACT>(tables, pending, reader, depth, token, wanted)?;
            Some(item)
        }
        _ => {
            let item = leaf::<EXACT>(tables, token)?;
            Some(item)
        }
    }
}

/// The list or the object that begins with a token.
#[cycle(thinning)]
#[inline(always)]
fn thin_container<const EXACT: bool>(
    tables: &mut Tables<'_>,
    pending: &mut Pending,
    reader: &mut Cursor<'_>,
    depth: usize,
    token: Token<'_>,
    wanted: &str,
) -> Option<Item>
    requires { reader.old.text ≡ tables.old.text.now }
    ensures keeps { IfSome result (λ i. KeepsFlat (IsThinned wanted.now) depth
        (token_of token.entry ∷ reader.old.tokens) reader.new.tokens (shown tables.new) i) }
    ensures grows { OnSome result (Grows (shown tables.old) (shown tables.new)) }
    ensures items { OnSome result (pending.new.items.items ≡ pending.old.items.items) }
    ensures members { OnSome result (pending.new.members.items ≡ pending.old.members.items) }
    ensures shorter { OnSome result (length reader.new.tokens < length reader.old.tokens) }
    ensures text { reader.new.text ≡ reader.old.text }
{
    if depth == 0 {
        return None;
    }
    match token {
        Token::BeginArray => {
            let item = thin_items::<EXACT>(tables, pending, reader, depth - 1, wanted)?;
            Some(item)
        }
        Token::BeginObject => {
            let item = thin_members::<EXACT>(tables, pending, reader, depth - 1, wanted)?;
            Some(item)
        }
        _ => None,
    }
}

/// Reads the items of a list, as `items` does.
#[cycle(thinning)]
fn thin_items<const EXACT: bool>(
    tables: &mut Tables<'_>,
    pending: &mut Pending,
    reader: &mut Cursor<'_>,
    depth: usize,
    wanted: &str,
) -> Option<Item>
    requires { reader.old.text ≡ tables.old.text.now }
    ensures keeps { IfSome result (λ i. KeepsFlatItems (IsThinned wanted.now) depth reader.old.tokens
        reader.new.tokens (shown tables.new) i) }
    ensures grows { OnSome result (Grows (shown tables.old) (shown tables.new)) }
    ensures items { OnSome result (pending.new.items.items ≡ pending.old.items.items) }
    ensures members { OnSome result (pending.new.members.items ≡ pending.old.members.items) }
    ensures shorter { OnSome result (length reader.new.tokens < length reader.old.tokens) }
    ensures text { reader.new.text ≡ reader.old.text }
{
    let first = tables.items.len();
    let token = leaves::<EXACT>(tables, reader)?;
    if let Token::EndArray = token {
        let list = list_from(tables, first)?;
        return Some(list);
    }
    let base = pending.items.len();
    move_parts(&mut pending.items, &mut tables.items, first)?;
    let item = thin_container::<EXACT>(tables, pending, reader, depth, token, wanted)?;
    put(&mut pending.items, item)?;
    'items: while !reader.take_end_array() {
        let item = thin_value::<EXACT>(tables, pending, reader, depth, wanted)?;
        put(&mut pending.items, item)?;
    }
    let list = close_list(tables, &mut pending.items, base)?;
    Some(list)
}

/// Reads the members of an object, and leaves out those of other names in whose values nothing can be
/// inside, up to the first one that is kept: a later one may stand instead of one of its name.
#[cycle(thinning)]
fn thin_members<const EXACT: bool>(
    tables: &mut Tables<'_>,
    pending: &mut Pending,
    reader: &mut Cursor<'_>,
    depth: usize,
    wanted: &str,
) -> Option<Item>
    requires { reader.old.text ≡ tables.old.text.now }
    ensures keeps { IfSome result (λ i. KeepsFlatMembers (IsThinned wanted.now) depth reader.old.tokens
        reader.new.tokens (shown tables.new) i) }
    ensures grows { OnSome result (Grows (shown tables.old) (shown tables.new)) }
    ensures items { OnSome result (pending.new.items.items ≡ pending.old.items.items) }
    ensures members { OnSome result (pending.new.members.items ≡ pending.old.members.items) }
    ensures shorter { OnSome result (length reader.new.tokens < length reader.old.tokens) }
    ensures text { reader.new.text ≡ reader.old.text }
{
    let base = pending.members.len();
    let mut rises = true;
    'members: while let Some(name) = reader.next_name()? {
        let token = reader.next::<EXACT>()?;
        let (item, spare) = member_behind::<EXACT>(
            tables, pending, reader, depth, name, token, wanted,
        )?;
        rises = put_member(tables, &mut pending.members, base, rises, name, item, spare)?;
    }
    let object = close_object(
        tables,
        &mut pending.members,
        &mut pending.sorted,
        base,
        rises,
    )?;
    Some(object)
}

/// Reads the value of a member that begins with a token, all of it if the name may be the one that is
/// wanted, and answers whether the member is spare: it may be missing.
#[cycle(thinning)]
#[inline(always)]
fn member_behind<const EXACT: bool>(
    tables: &mut Tables<'_>,
    pending: &mut Pending,
    reader: &mut Cursor<'_>,
    depth: usize,
    name: Spelled<'_>,
    token: Token<'_>,
    wanted: &str,
) -> Option<(Item, bool)>
    requires text { reader.old.text ≡ tables.old.text.now }
    requires stands { TokenHolds tables.old.text.now token }
    ensures keeps { IfSome result (λ p. KeepsFlat (IsMemberKept wanted.now name.entry p.1) depth
        (token_of token.entry ∷ reader.old.tokens) reader.new.tokens (shown tables.new) p.0) }
    ensures good { OnSome result (is_good (token_of token.entry) ≡ true) }
    ensures grows { OnSome result (Grows (shown tables.old) (shown tables.new)) }
    ensures items { OnSome result (pending.new.items.items ≡ pending.old.items.items) }
    ensures members { OnSome result (pending.new.members.items ≡ pending.old.members.items) }
    ensures shorter { OnSome result (length reader.new.tokens ≤ length reader.old.tokens) }
    ensures text { reader.new.text ≡ reader.old.text }
{
    match token {
        Token::BeginArray | Token::BeginObject => {
            if may_be(wanted, name) {
                let item = lone_container::<EXACT>(tables, pending, reader, depth, token)?;
                return Some((item, false));
            }
            let item = thin_container::<EXACT>(tables, pending, reader, depth, token, wanted)?;
            Some((item, false))
        }
        _ => {
            let item = leaf::<EXACT>(tables, token)?;
            Some((item, !may_be(wanted, name)))
        }
    }
}

/// Whether the name may be the one that is wanted. A name with escapes is not looked at.
#[inline(always)]
fn may_be(wanted: &str, name: Spelled<'_>) -> bool
    ensures { result ≡ false → IsSaidOther wanted.now name.entry }
{
    match name {
        Spelled::Plain(_, name) => is_same(wanted, name),
        Spelled::Escaped(_) => true,
    }
}

/// Puts a member behind those of its object, and answers whether their names still rise. A spare one
/// is left out while there are none.
#[inline(always)]
fn put_member(
    tables: &mut Tables<'_>,
    members: &mut Vec<Named>,
    base: usize,
    rises: bool,
    name: Spelled<'_>,
    item: Item,
    spare: bool,
) -> Option<bool>
    requires base { base ≤ length members.old.items }
    requires spelled { IsSpelledIn tables.old.text.now name }
    ensures puts { IfSome result (λ still.
        IsLeftOut spare rises still base members.old.items members.new.items
        ⊎ IsPushed (shown tables.old) (shown tables.new) name.entry item rises still base
        members.old.items members.new.items) }
    ensures grows { OnSome result (Grows (shown tables.old) (shown tables.new)) }
{
    if spare && members.len() == base {
        return Some(rises);
    }
    let still = still_rises(rises, tables, members, base, name);
    let span = text_span(tables, name)?;
    put(members, Named { name: span, item })?;
    Some(still)
}
