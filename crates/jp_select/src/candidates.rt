//! The values that a selector chooses from, one by one (RFC 9535 section 2.3).

ghost use Rattle.std.specs.Prelude.{◌≡◌, ◌<◌, OnSome, option_and_then, option_map, slice_get};
ghost use Rattle.jp_document.specs.Location.{entries};
ghost use Rattle.jp_tree.specs.Tree.{index as index_tree, slice as slice_tree};
ghost use Rattle.jp_tree.specs.Views.{selector_of};
ghost use Rattle.jp_lent.specs.Lending.{step_with};
ghost use Rattle.jp_select.specs.Selectors.{candidates, item_at, single};

use crate::slice::{slice_index, whole};
use jp_document::Step;
use jp_lent::Selectable;
use jp_tree::{Numeral, Selector, Slice};

/// The value at this position, from 0, among those that a selector chooses from at a value, with
/// its step; None where there are no more. A name has that member, an index that item, a slice its
/// items in its order, a wildcard and a filter all children, of which a filter takes those for
/// which its expression is true. A number that is not whole, or beyond 64 bits, chooses nothing.
#[inline(always)]
pub fn candidate<'d, V: Selectable + 'd>(
    selector: &Selector,
    value: V,
    position: usize,
) -> Option<(Step<'d>, V)>
    ensures entry { option_map (step_with V.meaning) result
        ≡ slice_get (candidates (selector_of selector.now) (V.meaning value)) position }
    ensures more { OnSome result (position < usize.MAX) }
{
    match selector {
        Selector::Wildcard | Selector::Filter(_) => value.child(position),
        Selector::Slice(slice) => slice_item(value, *slice, position),
        Selector::Name(_) => {
            if position > 0 {
                return None;
            }
            single(selector, value)
        }
        Selector::Index(_) => {
            if position > 0 {
                return None;
            }
            single(selector, value)
        }
    }
}

/// The value that a name or an index selects at a value, with its step (RFC 9535 sections 2.3.1 and
/// 2.3.3); None where there is none, and for other selectors.
#[inline(always)]
pub fn single<'d, V: Selectable + 'd>(selector: &Selector, value: V) -> Option<(Step<'d>, V)>
    ensures { option_map (step_with V.meaning) result
        ≡ single (selector_of selector.now) (V.meaning value) }
{
    match selector {
        Selector::Name(name) => value.member(name.as_str()),
        Selector::Index(index) => item(value, *index),
        Selector::Wildcard | Selector::Slice(_) | Selector::Filter(_) => None,
    }
}

/// The item of a list that an index selects (section 2.3.3.2).
#[inline(always)]
fn item<'d, V: Selectable + 'd>(value: V, index: Numeral) -> Option<(Step<'d>, V)>
    ensures { option_map (step_with V.meaning) result ≡ single (index_tree index) (V.meaning value) }
{
    let length = value.list_length()?;
    value.child(item_at(length, whole(index)?)? as usize)
}

/// The item of a list at a position among those that a slice selects (section 2.3.4.2).
#[inline(always)]
fn slice_item<'d, V: Selectable + 'd>(
    value: V,
    slice: Slice,
    position: usize,
) -> Option<(Step<'d>, V)>
    ensures entry { option_map (step_with V.meaning) result
        ≡ slice_get (candidates (slice_tree slice) (V.meaning value)) position }
    ensures more { OnSome result (position < usize.MAX) }
{
    value.child(slice_place(value, slice, position)?)
}

/// Where the item of a list stands that has this position, from 0, among those that a slice selects (RFC
/// 9535 section 2.3.4.2); None where there are no more, and for a value that is no list.
#[inline(always)]
pub fn slice_place<'d, V: Selectable + 'd>(value: V, slice: Slice, position: usize) -> Option<usize>
    ensures place { option_and_then (slice_get (entries (V.meaning value))) result
        ≡ slice_get (candidates (slice_tree slice) (V.meaning value)) position }
    ensures more { OnSome result (position < usize.MAX) }
{
    let length = value.list_length()?;
    Some(slice_index(length, slice, position as u64)? as usize)
}

/// Which of `length` items an index selects, counted from the end where it is negative.
fn item_at(length: u64, index: i128) -> Option<u64>
    ensures { result ≡ item_at length index }
{
    let item = if index < 0 {
        length as i128 + index
    } else {
        index
    };
    if 0 <= item && item < length as i128 {
        Some(item as u64)
    } else {
        None
    }
}
