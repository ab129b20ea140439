//! The parts of lists and objects in tables, and texts.

ghost use Rattle.std.specs.Prelude.{◌≡◌, ◌<◌, IfSome, OnSome, Some, length, option_map, slice_get};
ghost use Rattle.std.specs.Cmp.Lexicographic.{slice_cmp};
ghost use Rattle.std.specs.Ordering.{is_eq, nat_cmp};
ghost use Rattle.jp_flat.specs.Flat.{piece, shown, text_at};
ghost use Rattle.jp_flat.specs.Private.Parts.{HoldsText, item_at, items_at, member_at, members_at};
ghost use Rattle.jp_flat.specs.Private.Parts.{NamesAt, is_named, name_in};

use crate::item::{Item, Named, Span};
use crate::spans::piece;
use crate::tables::Tables;
use std::cmp::Ordering;

/// The item at this position of those at a span.
pub(crate) fn item_at(tables: &Tables<'_>, span: Span, position: usize) -> Option<Item>
    ensures item { result ≡ item_at (shown tables.now) span position }
    ensures more { OnSome result (position < usize.MAX) }
{
    let items = piece(&tables.items, span.first as usize, span.count as usize)?;
    copy_at(items, position)
}

/// The member at this position of those at a span.
pub(crate) fn member_at(tables: &Tables<'_>, span: Span, position: usize) -> Option<Named>
    ensures member { result ≡ member_at (shown tables.now) span position }
    ensures more { OnSome result (position < usize.MAX) }
{
    copy_at(members(tables, span)?, position)
}

/// The items at a span, none where they are not all there.
pub(crate) fn items_at<'d>(tables: &'d Tables<'_>, span: Span) -> &'d [Item]
    ensures { result.now ≡ items_at (shown tables.entry.now) span }
{
    match piece(&tables.items, span.first as usize, span.count as usize) {
        Some(items) => items,
        None => &[],
    }
}

/// The members at a span, none where they are not all there.
pub(crate) fn members_at<'d>(tables: &'d Tables<'_>, span: Span) -> &'d [Named]
    ensures { result.now ≡ members_at (shown tables.entry.now) span }
{
    match piece(&tables.members, span.first as usize, span.count as usize) {
        Some(members) => members,
        None => &[],
    }
}

/// The members at a span.
pub(crate) fn members<'d>(tables: &'d Tables<'_>, span: Span) -> Option<&'d [Named]>
    ensures { option_map (λ s. s.now) result
        ≡ piece (shown tables.entry.now).members span.first span.count }
{
    piece(&tables.members, span.first as usize, span.count as usize)
}

/// The entry at this position; None where there are not so many.
fn copy_at<T: Copy>(all: &[T], position: usize) -> Option<T>
    ensures entry { result ≡ slice_get all.now position }
    ensures more { OnSome result (position < usize.MAX) }
{
    if position < all.len() {
        Some(all[position])
    } else {
        None
    }
}

/// The order of a member's name beside another, by their bytes.
pub(crate) fn name_order(tables: &Tables<'_>, member: &Named, name: &str) -> Ordering
    ensures { result ≡ slice_cmp nat_cmp (name_in (shown tables.now) member.now) name.now }
{
    bytes_order(tables, member, name.as_bytes())
}

/// The order of a member's name beside these bytes.
pub(crate) fn bytes_order(tables: &Tables<'_>, member: &Named, name: &[u8]) -> Ordering
    ensures { result ≡ slice_cmp nat_cmp (name_in (shown tables.now) member.now) name.now }
{
    name_at(tables, member).cmp(name)
}

/// The order of two names. Most differ in their first byte.
#[inline(always)]
pub(crate) fn names_order(one: &[u8], other: &[u8]) -> Ordering
    ensures { result ≡ slice_cmp nat_cmp one.now other.now }
{
    if !one.is_empty() && !other.is_empty() && one[0] != other[0] {
        return one[0].cmp(&other[0]);
    }
    whole_names_order(one, other)
}

/// The order of two names, whatever they begin with. `cmp` takes them by references, so that they go to
/// memory: here only, where it is called.
fn whole_names_order(one: &[u8], other: &[u8]) -> Ordering
    ensures { result ≡ slice_cmp nat_cmp one.now other.now }
{
    one.cmp(other)
}

/// The bytes of a member's name.
#[inline(always)]
pub(crate) fn name_at<'d>(tables: &'d Tables<'_>, member: &Named) -> &'d [u8]
    ensures { result.now ≡ name_in (shown tables.entry.now) member.now }
{
    match bytes_at(tables, member.name) {
        Some(bytes) => bytes,
        None => b"",
    }
}

/// The first member of this name, None where there is none.
#[inline(always)]
pub(crate) fn first_named(tables: &Tables<'_>, members: &[Named], name: &str) -> Option<usize>
    ensures found { IfSome result (λ i. i < length members.now) }
    ensures named { NamesAt (shown tables.now) name.now members.now result }
{
    let mut at = 0;
    'members: while at < members.len() {
        if is_named(tables, &members[at], name) {
            return Some(at);
        }
        at += 1;
    }
    None
}

/// Whether a member has this name. Most differ in their length, or else in their first byte.
#[inline(always)]
fn is_named(tables: &Tables<'_>, member: &Named, name: &str) -> bool
    ensures { result ≡ is_named (shown tables.now) name.now member.now }
{
    let count = member.name.count as usize;
    if count != name.len() && !name.is_empty() {
        return false;
    }
    name.as_bytes() == name_at(tables, member)
}

/// Whether the text is these bytes.
#[inline(always)]
pub(crate) fn is_same(text: &str, bytes: &[u8]) -> bool
    ensures { result ≡ is_eq (slice_cmp nat_cmp text.now bytes.now) }
{
    let text = text.as_bytes();
    if !text.is_empty() && !bytes.is_empty() && text[0] != bytes[0] {
        return false;
    }
    text == bytes
}

/// The text at a span.
pub(crate) fn text_at<'d>(tables: &'d Tables<'_>, span: Span) -> &'d str
    requires { HoldsText (shown tables.now) span }
    ensures { Some result.now ≡ text_at (shown tables.entry.now) span }
{
    match bytes_at(tables, span) {
        Some(bytes) => unsafe { std::str::from_utf8_unchecked(bytes) },
        None => "",
    }
}

/// The bytes of the text at a span.
pub(crate) fn bytes_at<'d>(tables: &'d Tables<'_>, span: Span) -> Option<&'d [u8]>
    ensures { option_map (λ s. s.now) result ≡ text_at (shown tables.entry.now) span }
{
    let first = span.first as usize;
    let count = span.count as usize;
    if first + count <= tables.text.len() {
        return piece(tables.text.as_bytes(), first, count);
    }
    piece(
        tables.spare.as_bytes(),
        first.checked_sub(tables.text.len())?,
        count,
    )
}
