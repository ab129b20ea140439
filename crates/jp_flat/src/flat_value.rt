//! Values of documents in tables, wherever they stand.

ghost use Rattle.std.specs.Prelude.{◌≡◌, ◌<◌, true, OnSome, length, option_and_then, option_map, slice_get};
ghost use Rattle.jp_document.specs.Location.{child_entry, entries, named, nth};
ghost use Rattle.jp_document.specs.Value.{list_length};
ghost use Rattle.jp_flat.specs.Flat.{is_flat, meaning, shown};
ghost use Rattle.jp_flat.specs.declared.item.Item.TheVariants.{Members};
ghost use Rattle.jp_lent.specs.Lending.{bare, entry_value, seen_value};

use crate::item::{Item, Span};
use crate::numeral::seen_numeral;
use crate::parts::{first_named, item_at, member_at, members, name_order, text_at};
use crate::tables::Tables;
use jp_document::Step;
use jp_lent::Seen;

/// The most members that are looked at one by one for a name.
const FEW: usize = 16;

/// A value of a document in tables: the document's own, or one that stands inside it. It copies
/// nothing of it.
#[derive(Clone, Copy)]
pub struct FlatValue<'d, 't> {
    tables: &'d Tables<'t>,
    item: Item,
    ghost sound: { is_flat (shown tables.now) item ≡ true },
}

impl<'d, 't> FlatValue<'d, 't> {
    ghost use Rattle.jp_flat.specs.FlatValue.{flat_entry, lent_flat};

    /// The value of an item.
    pub(crate) fn of(tables: &'d Tables<'t>, item: Item) -> FlatValue<'d, 't>
        requires { is_flat (shown tables.now) item ≡ true }
        ensures { lent_flat result ≡ meaning (shown tables.now) item }
    {
        FlatValue { tables, item }
    }

    /// What it is, without what is in it.
    #[inline(always)]
    pub fn seen(self) -> Seen<'d>
        ensures { seen_value result ≡ bare (lent_flat self.entry) }
    {
        match self.item {
            Item::Null => Seen::Null,
            Item::Bool(truth) => Seen::Bool(truth),
            Item::Above(halves) => Seen::Whole(halves.above()),
            Item::Below(halves) => Seen::Whole(halves.below()),
            Item::Numeral(span) => seen_numeral(self.tables, span),
            Item::Text(span) => Seen::Text(text_at(self.tables, span)),
            Item::List(_) => Seen::List,
            Item::Members(_) => Seen::Members,
        }
    }

    /// How many values it has one step inside: a list its items, an object its members, others
    /// none.
    pub fn count(self) -> usize
        ensures { result ≡ length (entries (lent_flat self.entry)) }
    {
        match self.item {
            Item::List(span) | Item::Members(span) => span.count as usize,
            Item::Null
            | Item::Bool(_)
            | Item::Above(_)
            | Item::Below(_)
            | Item::Numeral(_)
            | Item::Text(_) => 0,
        }
    }

    /// How many items a list has, None of another value.
    pub fn list_length(self) -> Option<u64>
        ensures { result ≡ list_length (lent_flat self.entry) }
    {
        match self.item {
            Item::List(span) => Some(u64::from(span.count)),
            Item::Null
            | Item::Bool(_)
            | Item::Above(_)
            | Item::Below(_)
            | Item::Numeral(_)
            | Item::Text(_)
            | Item::Members(_) => None,
        }
    }

    /// The value at this position one step inside, from 0, with its step; None where there are no
    /// more. A list has its items, an object its members by the bytes of their names (RFC 9535
    /// section 1.1).
    pub fn child(self, position: usize) -> Option<(Step<'d>, FlatValue<'d, 't>)>
        ensures entry { option_map flat_entry result
            ≡ slice_get (entries (lent_flat self.entry)) position }
        ensures more { OnSome result (position < usize.MAX) }
    {
        let tables = self.tables;
        match self.item {
            Item::List(span) => {
                let item = item_at(tables, span, position)?;
                Some((Step::Index(position as u64), FlatValue { tables, item }))
            }
            Item::Members(span) => FlatValue::member_entry(tables, span, position),
            Item::Null
            | Item::Bool(_)
            | Item::Above(_)
            | Item::Below(_)
            | Item::Numeral(_)
            | Item::Text(_) => None,
        }
    }

    /// The value that `child` gives, without its step.
    #[inline(always)]
    pub fn child_value(self, position: usize) -> Option<FlatValue<'d, 't>>
        ensures value { option_map lent_flat result
            ≡ option_map entry_value (slice_get (entries (lent_flat self.entry)) position) }
        ensures more { OnSome result (position < usize.MAX) }
    {
        let tables = self.tables;
        match self.item {
            Item::List(span) => {
                let item = item_at(tables, span, position)?;
                Some(FlatValue { tables, item })
            }
            Item::Members(span) => {
                let item = member_at(tables, span, position)?.item;
                Some(FlatValue { tables, item })
            }
            Item::Null
            | Item::Bool(_)
            | Item::Above(_)
            | Item::Below(_)
            | Item::Numeral(_)
            | Item::Text(_) => None,
        }
    }

    /// The item at this index of a list, with its step; None where there is none (RFC 9535 section
    /// 2.3.3).
    pub fn item(self, index: u64) -> Option<(Step<'d>, FlatValue<'d, 't>)>
        ensures { option_map flat_entry result ≡ child_entry (lent_flat self.entry) (nth index) }
    {
        match self.item {
            Item::List(_) => self.child(index as usize),
            Item::Null
            | Item::Bool(_)
            | Item::Above(_)
            | Item::Below(_)
            | Item::Numeral(_)
            | Item::Text(_)
            | Item::Members(_) => None,
        }
    }

    /// The member of this name of an object, with its step; None where there is none (RFC 9535
    /// section 2.3.1).
    #[inline(always)]
    pub fn member(self, name: &str) -> Option<(Step<'d>, FlatValue<'d, 't>)>
        ensures { option_map flat_entry result
            ≡ child_entry (lent_flat self.entry) (named name.now) }
    {
        match self.item {
            Item::Members(span) => match place_of(self.tables, span, name) {
                Some(place) => FlatValue::member_entry(self.tables, span, place),
                None => None,
            },
            Item::Null
            | Item::Bool(_)
            | Item::Above(_)
            | Item::Below(_)
            | Item::Numeral(_)
            | Item::Text(_)
            | Item::List(_) => None,
        }
    }

    /// The member at this position of an object whose members stand at a span, with its step.
    #[inline(always)]
    fn member_entry(
        tables: &'d Tables<'t>,
        span: Span,
        position: usize,
    ) -> Option<(Step<'d>, FlatValue<'d, 't>)>
        requires { is_flat (shown tables.now) (Members span) ≡ true }
        ensures entry { option_map flat_entry result
            ≡ slice_get (entries (meaning (shown tables.now) (Members span))) position }
        ensures more { OnSome result (position < usize.MAX) }
    {
        let member = member_at(tables, span, position)?;
        let name = text_at(tables, member.name);
        let item = member.item;
        Some((Step::Name(name), FlatValue { tables, item }))
    }
}

/// Where the member of this name stands among those at a span.
#[inline(always)]
fn place_of(tables: &Tables<'_>, span: Span, name: &str) -> Option<usize>
    requires { is_flat (shown tables.now) (Members span) ≡ true }
    ensures { let object = meaning (shown tables.now) (Members span) in
        option_and_then (λ place. slice_get (entries object) place) result ≡ child_entry object (named name.now) }
{
    let members = members(tables, span)?;
    if members.len() > FEW {
        return place_among_many(tables, span, name);
    }
    match first_named(tables, members, name) {
        Some(place) => Some(place),
        None => None,
    }
}

/// Where the member of this name stands among many, by halves. It stands apart, so that objects of few
/// members, as most are, take no call.
#[inline(never)]
fn place_among_many(tables: &Tables<'_>, span: Span, name: &str) -> Option<usize>
    requires { is_flat (shown tables.now) (Members span) ≡ true }
    ensures { let object = meaning (shown tables.now) (Members span) in
        option_and_then (λ place. slice_get (entries object) place) result ≡ child_entry object (named name.now) }
{
    let members = members(tables, span)?;
    match members.binary_search_by(|member| name_order(tables, member, name)) {
        Ok(place) => Some(place),
        Err(_) => None,
    }
}
