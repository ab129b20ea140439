//! Array slices (RFC 9535 section 2.3.4.2): which items of a list they select.

ghost use Rattle.std.specs.Prelude.{◌≡◌, ◌-◌, ◌<◌, ◌≤◌, pos, negsuc, ◌+ℤ◌, ◌-ℤ◌, ◌≤ℤ◌, OnSome};
ghost use Rattle.std.specs.Prelude.{slice_get};
ghost use Rattle.jp_select.specs.Selectors.{bound_of, indexes_chosen, whole_of};
ghost use Rattle.jp_select.specs.Slice.{normalized, held_within, slice_of};
ghost use Rattle.jp_select.specs.Slice.{falling_lower, falling_upper, rising_lower, rising_upper};

use jp_tree::{Numeral, Slice};

/// The index of the item at this position, from 0, among those that a slice of a list of this
/// length selects, in its order; None where there are no more. A number that is not whole, or
/// beyond 64 bits, selects nothing.
#[inline(always)]
pub(crate) fn slice_index(length: u64, slice: Slice, position: u64) -> Option<u64>
    ensures index { result ≡ slice_get (indexes_chosen slice length) position }
    ensures more { OnSome result (position < length) }
{
    let (start, end, step) = (bound(slice.start)?, bound(slice.end)?, whole(slice.step)?);
    if step > 0 {
        rising(length, start, end, step.unsigned_abs(), position)
    } else if step < 0 {
        falling(length, start, end, step.unsigned_abs(), position)
    } else {
        None
    }
}

/// What a slice with a positive step selects: from the lower bound up, below the upper one.
#[inline(always)]
fn rising(
    length: u64,
    start: Option<i128>,
    end: Option<i128>,
    step: u128,
    position: u64,
) -> Option<u64>
    requires { 0 < step }
    ensures index { result ≡ slice_get (slice_of length start end (pos step)) position }
    ensures more { OnSome result (position < length) }
{
    let lower = rising_lower(length, start);
    let upper = rising_upper(length, end);
    let index = lower.saturating_add(step.saturating_mul(position as u128));
    if index < upper {
        Some(index as u64)
    } else {
        None
    }
}

/// What a slice with a negative step selects: from the upper bound down, above the lower one.
#[inline(always)]
fn falling(
    length: u64,
    start: Option<i128>,
    end: Option<i128>,
    size: u128,
    position: u64,
) -> Option<u64>
    requires { 0 < size }
    ensures index { result ≡ slice_get (slice_of length start end (negsuc (size - 1))) position }
    ensures more { OnSome result (position < length) }
{
    let upper = falling_upper(length, start);
    let lower = falling_lower(length, end);
    let above = upper.saturating_sub(size.saturating_mul(position as u128));
    if lower < above {
        Some((above - 1) as u64)
    } else {
        None
    }
}

/// The lower bound of a slice whose step is positive: 0 where it is omitted.
#[tactic(auto, using(crate::proofs::Slices::Bounds::rising_lower_omitted))]
fn rising_lower(length: u64, start: Option<i128>) -> u128
    ensures bound { pos result ≡ rising_lower length start }
    ensures within { result ≤ length }
{
    match start {
        Some(start) => from_zero(length, start),
        None => 0,
    }
}

/// The upper bound of a slice whose step is positive: the length where it is omitted.
#[tactic(auto, using(crate::proofs::Slices::Bounds::rising_upper_omitted))]
fn rising_upper(length: u64, end: Option<i128>) -> u128
    ensures bound { pos result ≡ rising_upper length end }
    ensures within { result ≤ length }
{
    match end {
        Some(end) => from_zero(length, end),
        None => length as u128,
    }
}

/// One more than the upper bound of a slice whose step is negative, which is the last index where
/// it is omitted.
#[tactic(auto, using(crate::proofs::Slices::Bounds::falling_upper_omitted))]
fn falling_upper(length: u64, start: Option<i128>) -> u128
    ensures bound { pos result ≡ falling_upper length start +ℤ pos 1 }
    ensures within { result ≤ length }
{
    match start {
        Some(start) => one_higher(length, start),
        None => length as u128,
    }
}

/// One more than the lower bound of a slice whose step is negative, which is -1 where it is
/// omitted.
#[tactic(auto, using(crate::proofs::Slices::Bounds::falling_lower_omitted))]
fn falling_lower(length: u64, end: Option<i128>) -> u128
    ensures bound { pos result ≡ falling_lower length end +ℤ pos 1 }
    ensures within { result ≤ length }
{
    match end {
        Some(end) => one_higher(length, end),
        None => 0,
    }
}

/// A bound of a slice whose step is positive, held within 0 and the length.
fn from_zero(length: u64, number: i128) -> u128
    ensures bound { pos result ≡ held_within (pos 0) (pos length) (normalized length number) }
    ensures within { result ≤ length }
{
    normalized(length, number).max(0).min(length as i128) as u128
}

/// A bound of a slice whose step is negative, held within -1 and the last index.
fn from_minus_one(length: u64, number: i128) -> i128
    ensures bound { result
        ≡ held_within (negsuc 0) (pos length -ℤ pos 1) (normalized length number) }
    ensures least { negsuc 0 ≤ℤ result }
    ensures most { result ≤ℤ (pos length -ℤ pos 1) }
{
    normalized(length, number).max(-1).min(length as i128 - 1)
}

/// One more than that bound.
fn one_higher(length: u64, number: i128) -> u128
    ensures bound { pos result
        ≡ held_within (negsuc 0) (pos length -ℤ pos 1) (normalized length number) +ℤ pos 1 }
    ensures within { result ≤ length }
{
    (from_minus_one(length, number) + 1) as u128
}

/// A number of a slice, counted from the end of the list where it is negative.
fn normalized(length: u64, number: i128) -> i128
    ensures { result ≡ normalized length number }
{
    if number < 0 {
        length as i128 + number
    } else {
        number
    }
}

/// A bound of a slice, None where it is a number that is not whole or out of range.
fn bound(number: Option<Numeral>) -> Option<Option<i128>>
    ensures { result ≡ bound_of number }
{
    match number {
        None => Some(None),
        Some(number) => Some(Some(whole(number)?)),
    }
}

/// The whole number that a numeral is, None of one that is not whole or out of range.
pub(crate) fn whole(number: Numeral) -> Option<i128>
    ensures { result ≡ whole_of number }
{
    match number {
        Numeral::Whole(number) => Some(number),
        Numeral::Beyond(_) | Numeral::Fraction(_) => None,
    }
}
