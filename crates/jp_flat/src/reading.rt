//! Values from the tokens of a text, into tables. What is no document, and what fits no table, is
//! left to others.

ghost use Rattle.std.specs.Prelude.{◌≡◌, ◌≤◌, ◌<◌, ◌∷◌, [], IfSome, None, OnSome, Some, length, true};
ghost use Rattle.std.specs.Bool.{MatchBool};
ghost use Rattle.json.specs.Align.{is_good};
ghost use Rattle.json.specs.Json.{read_key};
ghost use Rattle.jp_flat.specs.Flat.{Grows, shown};
ghost use Rattle.jp_flat.specs.Private.Reading.{ReadsFlat, ReadsFlatItems, ReadsFlatMembers};
ghost use Rattle.jp_flat.specs.Private.Tokens.{TokenHolds, token_of};

use crate::closing::{close_list, close_object, list_from, object_of_one};
use crate::cursor::Cursor;
use crate::item::{Item, Named};
use crate::leaf::{leaf, leaves};
use crate::moving::{move_parts, put};
use crate::rising::still_rises;
use crate::spans::text_span;
use crate::tables::Tables;
use crate::token::Token;
use std::alloc::Global;

/// The parts of the lists and objects that are being read, innermost last.
#[derive(Drop)]
pub(crate) struct Pending {
    pub(crate) items: Vec<Item>,
    pub(crate) members: Vec<Named>,

    /// Room to sort the members of one object.
    pub(crate) sorted: Vec<Named>,
}

impl Pending {
    /// Nothing is being read yet. It takes no memory.
    pub(crate) fn new(alloc: Global) -> Pending
        ensures items { result.items.items ≡ [] }
        ensures members { result.members.items ≡ [] }
    {
        Pending {
            items: Vec::new(alloc),
            members: Vec::new(alloc),
            sorted: Vec::new(alloc),
        }
    }

    /// Nothing is being read.
    pub(crate) fn clear(&mut self)
        ensures items { self.new.items.items ≡ [] }
        ensures members { self.new.members.items ≡ [] }
    {
        self.items.clear();
        self.members.clear();
    }

    /// Takes memory for so many parts of a list or an object at once. Where there is none, it is
    /// taken as they are read.
    pub(crate) fn reserve(&mut self, count: usize)
        ensures items { self.new.items.items ≡ self.old.items.items }
        ensures members { self.new.members.items ≡ self.old.members.items }
    {
        let _ = self.items.reserve(count);
        let _ = self.members.reserve(count);
        let _ = self.sorted.reserve(count);
    }
}

/// Reads one value, with its parts into the tables: a document's, or one that is sought in it. The code
/// for values that are parts of others stands where they are read.
#[inline(never)]
pub(crate) fn lone_value<const EXACT: bool>(
    tables: &mut Tables<'_>,
    pending: &mut Pending,
    reader: &mut Cursor<'_>,
    depth: usize,
) -> Option<Item>
    requires { reader.old.text ≡ tables.old.text.now }
    ensures reads { IfSome result (λ i. ReadsFlat depth reader.old.tokens reader.new.tokens (shown tables.new) i) }
    ensures grows { OnSome result (Grows (shown tables.old) (shown tables.new)) }
    ensures items { OnSome result (pending.new.items.items ≡ pending.old.items.items) }
    ensures members { OnSome result (pending.new.members.items ≡ pending.old.members.items) }
    ensures shorter { OnSome result (length reader.new.tokens < length reader.old.tokens) }
    ensures text { reader.new.text ≡ reader.old.text }
{
    value::<EXACT>(tables, pending, reader, depth)
}

/// The list or the object that begins with a token, one that is read apart from the others.
#[inline(never)]
pub(crate) fn lone_container<const EXACT: bool>(
    tables: &mut Tables<'_>,
    pending: &mut Pending,
    reader: &mut Cursor<'_>,
    depth: usize,
    token: Token<'_>,
) -> Option<Item>
    requires { reader.old.text ≡ tables.old.text.now }
    ensures reads { IfSome result (λ i. ReadsFlat depth (token_of token.entry ∷ reader.old.tokens)
        reader.new.tokens (shown tables.new) i) }
    ensures grows { OnSome result (Grows (shown tables.old) (shown tables.new)) }
    ensures items { OnSome result (pending.new.items.items ≡ pending.old.items.items) }
    ensures members { OnSome result (pending.new.members.items ≡ pending.old.members.items) }
    ensures shorter { OnSome result (length reader.new.tokens < length reader.old.tokens) }
    ensures text { reader.new.text ≡ reader.old.text }
{
    container::<EXACT>(tables, pending, reader, depth, token)
}

/// The value that begins with a token, one that is read apart from the others.
#[inline(always)]
pub(crate) fn value_behind<const EXACT: bool>(
    tables: &mut Tables<'_>,
    pending: &mut Pending,
    reader: &mut Cursor<'_>,
    depth: usize,
    token: Token<'_>,
) -> Option<Item>
    requires text { reader.old.text ≡ tables.old.text.now }
    requires stands { TokenHolds tables.old.text.now token }
    ensures reads { IfSome result (λ i. ReadsFlat depth (token_of token.entry ∷ reader.old.tokens)
        reader.new.tokens (shown tables.new) i) }
    ensures good { OnSome result (is_good (token_of token.entry) ≡ true) }
    ensures grows { OnSome result (Grows (shown tables.old) (shown tables.new)) }
    ensures items { OnSome result (pending.new.items.items ≡ pending.old.items.items) }
    ensures members { OnSome result (pending.new.members.items ≡ pending.old.members.items) }
    ensures shorter { OnSome result (length reader.new.tokens ≤ length reader.old.tokens) }
    ensures text { reader.new.text ≡ reader.old.text }
{
    match token {
        Token::BeginArray | Token::BeginObject => {
            let item = lone_container::<EXACT>(tables, pending, reader, depth, token)?;
            Some(item)
        }
        _ => {
            let item = leaf::<EXACT>(tables, token)?;
            Some(item)
        }
    }
}

/// Reads one value, with its parts into the tables.
#[cycle(reading)]
#[inline(always)]
pub(crate) fn value<const EXACT: bool>(
    tables: &mut Tables<'_>,
    pending: &mut Pending,
    reader: &mut Cursor<'_>,
    depth: usize,
) -> Option<Item>
    requires { reader.old.text ≡ tables.old.text.now }
    ensures reads { IfSome result (λ i. ReadsFlat depth reader.old.tokens reader.new.tokens (shown tables.new) i) }
    ensures grows { OnSome result (Grows (shown tables.old) (shown tables.new)) }
    ensures items { OnSome result (pending.new.items.items ≡ pending.old.items.items) }
    ensures members { OnSome result (pending.new.members.items ≡ pending.old.members.items) }
    ensures shorter { OnSome result (length reader.new.tokens < length reader.old.tokens) }
    ensures text { reader.new.text ≡ reader.old.text }
{
    let token = reader.next::<EXACT>()?;
    match token {
        Token::BeginArray | Token::BeginObject => {
            let item = container::<EXACT>(tables, pending, reader, depth, token)?;
            Some(item)
        }
        _ => {
            let item = leaf::<EXACT>(tables, token)?;
            Some(item)
        }
    }
}

/// The list or the object that begins with a token.
#[cycle(reading)]
#[inline(always)]
fn container<const EXACT: bool>(
    tables: &mut Tables<'_>,
    pending: &mut Pending,
    reader: &mut Cursor<'_>,
    depth: usize,
    token: Token<'_>,
) -> Option<Item>
    requires { reader.old.text ≡ tables.old.text.now }
    ensures reads { IfSome result (λ i. ReadsFlat depth (token_of token.entry ∷ reader.old.tokens)
        reader.new.tokens (shown tables.new) i) }
    ensures grows { OnSome result (Grows (shown tables.old) (shown tables.new)) }
    ensures items { OnSome result (pending.new.items.items ≡ pending.old.items.items) }
    ensures members { OnSome result (pending.new.members.items ≡ pending.old.members.items) }
    ensures shorter { OnSome result (length reader.new.tokens < length reader.old.tokens) }
    ensures text { reader.new.text ≡ reader.old.text }
{
    if depth == 0 {
        return None;
    }
    match token {
        Token::BeginArray => {
            let item = items::<EXACT>(tables, pending, reader, depth - 1)?;
            Some(item)
        }
        Token::BeginObject => {
            let item = members::<EXACT>(tables, pending, reader, depth - 1)?;
            Some(item)
        }
        _ => None,
    }
}

/// Reads the items of a list: into the tables while they have no parts, and to those that are
/// being read from the first one on that has some.
#[cycle(reading)]
fn items<const EXACT: bool>(
    tables: &mut Tables<'_>,
    pending: &mut Pending,
    reader: &mut Cursor<'_>,
    depth: usize,
) -> Option<Item>
    requires { reader.old.text ≡ tables.old.text.now }
    ensures reads { IfSome result
        (λ i. ReadsFlatItems depth reader.old.tokens reader.new.tokens (shown tables.new) i) }
    ensures grows { OnSome result (Grows (shown tables.old) (shown tables.new)) }
    ensures items { OnSome result (pending.new.items.items ≡ pending.old.items.items) }
    ensures members { OnSome result (pending.new.members.items ≡ pending.old.members.items) }
    ensures shorter { OnSome result (length reader.new.tokens < length reader.old.tokens) }
    ensures text { reader.new.text ≡ reader.old.text }
{
    let first = tables.items.len();
    let token = leaves::<EXACT>(tables, reader)?;
    if let Token::EndArray = token {
        let list = list_from(tables, first)?;
        return Some(list);
    }
    let base = pending.items.len();
    move_parts(&mut pending.items, &mut tables.items, first)?;
    let item = container::<EXACT>(tables, pending, reader, depth, token)?;
    put(&mut pending.items, item)?;
    'items: while !reader.take_end_array() {
        let item = value::<EXACT>(tables, pending, reader, depth)?;
        put(&mut pending.items, item)?;
    }
    let list = close_list(tables, &mut pending.items, base)?;
    Some(list)
}

/// Reads the members of an object: one that stands alone into the tables, and else to those that are
/// being read.
#[cycle(reading)]
fn members<const EXACT: bool>(
    tables: &mut Tables<'_>,
    pending: &mut Pending,
    reader: &mut Cursor<'_>,
    depth: usize,
) -> Option<Item>
    requires { reader.old.text ≡ tables.old.text.now }
    ensures reads { IfSome result
        (λ i. ReadsFlatMembers depth reader.old.tokens reader.new.tokens (shown tables.new) i) }
    ensures grows { OnSome result (Grows (shown tables.old) (shown tables.new)) }
    ensures items { OnSome result (pending.new.items.items ≡ pending.old.items.items) }
    ensures members { OnSome result (pending.new.members.items ≡ pending.old.members.items) }
    ensures shorter { OnSome result (length reader.new.tokens < length reader.old.tokens) }
    ensures text { reader.new.text ≡ reader.old.text }
{
    let base = pending.members.len();
    let mut rises = true;
    'members: while let Some(name) = reader.next_name()? {
        rises = still_rises(rises, tables, &pending.members, base, name);
        let span = text_span(tables, name)?;
        let item = value::<EXACT>(tables, pending, reader, depth)?;
        let member = Named { name: span, item };
        if ends_alone(reader, &pending.members, base) {
            let object = object_of_one(tables, member)?;
            return Some(object);
        }
        put(&mut pending.members, member)?;
    }
    let object = close_object(
        tables,
        &mut pending.members,
        &mut pending.sorted,
        base,
        rises,
    )?;
    Some(object)
}

/// Takes the end of an object of which one member was read, and not put to those from the base on, if
/// it stands here and there are none of them.
#[inline(always)]
fn ends_alone(reader: &mut Cursor<'_>, members: &[Named], base: usize) -> bool
    ensures ends { MatchBool result (read_key reader.old.tokens ≡ Some (None, reader.new.tokens))
        (reader.new ≡ reader.old) }
    ensures alone { result ≡ true → base ≡ length members.now }
    ensures text { reader.new.text ≡ reader.old.text }
{
    if members.len() != base {
        return false;
    }
    reader.take_end_object()
}
