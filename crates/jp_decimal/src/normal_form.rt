//! The form that a number is held in.

ghost use Rattle.std.specs.Prelude.{◌≡◌, ◌≢◌, ◌*ℤ◌, ◌^◌, ◌<◌, ◌≤ℤ◌, ◌%◌, pos, true, false};
ghost use Rattle.std.specs.Option.{MatchOption};
ghost use Rattle.fast_float.specs.Text.{with_sign};
ghost use Rattle.jp_decimal.specs.Number.{is_in_64_bits, is_whole_64};
ghost use Rattle.jp_decimal.specs.Scaled.{from_zero};
ghost use Rattle.jp_decimal.specs.NormalForm.{IsHeldAs, IsOutOfRange};

use crate::number::{Decimal, Number};

/// The size, behind a sign or none, times ten to the exponent. None: it is no whole number of 64
/// bits, and the exponent is less than -1,000,000 or greater than 1,000,000.
#[inline(always)]
pub(crate) fn normal_number(negative: bool, size: u128, exponent: i128) -> Option<Number>
    requires short { size < 10 ^ 38 }
    requires ends { size % 10 ≢ 0 }
    ensures { MatchOption result
        (IsOutOfRange (record { coefficient = with_sign negative size; exponent = exponent }))
        (IsHeldAs (record { coefficient = with_sign negative size; exponent = exponent })) }
{
    if let Some(whole) = whole_64(negative, size, exponent) {
        return Some(Number::Whole(whole));
    }
    if exponent < -1_000_000 {
        return None;
    }
    if exponent > 1_000_000 {
        return None;
    }
    let coefficient = signed(negative, size);
    Some(Number::Decimal(Decimal {
        coefficient,
        exponent: exponent as i32,
    }))
}

/// The whole number of 64 bits that this is, if it is one.
#[inline(always)]
fn whole_64(negative: bool, size: u128, exponent: i128) -> Option<i128>
    requires { 0 < size }
    ensures { MatchOption result (is_whole_64 (with_sign negative size) exponent ≡ false)
        (λ z. (is_in_64_bits z ≡ true) × (pos 0 ≤ℤ exponent)
        × (z ≡ with_sign negative size *ℤ pos (10 ^ from_zero exponent))) }
{
    if exponent < 0 {
        return None;
    }
    if exponent > 19 {
        return None;
    }
    if size >= 1 << 64 {
        return None;
    }
    let whole = size * 10u128.pow(exponent as u32);
    if negative {
        if whole > 1 << 63 {
            return None;
        }
    } else if whole >= 1 << 64 {
        return None;
    }
    let number = signed(negative, whole);
    Some(number)
}

/// The size with its sign.
#[inline(always)]
pub(crate) fn signed(negative: bool, size: u128) -> i128
    requires { size < 2 ^ 127 }
    ensures { result ≡ with_sign negative size }
{
    if negative {
        -(size as i128)
    } else {
        size as i128
    }
}
