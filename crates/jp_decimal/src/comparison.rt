//! How two numbers stand.

ghost use Rattle.std.specs.Prelude.{◌≡◌};
ghost use Rattle.jp_decimal.specs.Number.{scaled_decimal, scaled_of};
ghost use Rattle.jp_decimal.specs.Scaled.{scaled_cmp};

use crate::number::{Decimal, Number, scaled};
use crate::sizes::compare_sizes;
use std::cmp::Ordering;

/// Which of two numbers is less, by their values and exactly, or that they are the same number.
pub fn compare(x: Number, y: Number) -> Ordering
    ensures { result ≡ scaled_cmp (scaled_of x) (scaled_of y) }
{
    let a = scaled(x);
    let b = scaled(y);
    compare_decimals(a, b)
}

/// How two numbers stand, each with its sign.
fn compare_decimals(a: Decimal, b: Decimal) -> Ordering
    ensures { result ≡ scaled_cmp (scaled_decimal a) (scaled_decimal b) }
{
    let left = a.coefficient.unsigned_abs();
    let right = b.coefficient.unsigned_abs();
    if a.coefficient < 0 {
        if b.coefficient < 0 {
            compare_sizes(right, b.exponent, left, a.exponent)
        } else {
            Ordering::Less
        }
    } else if b.coefficient < 0 {
        Ordering::Greater
    } else {
        compare_sizes(left, a.exponent, right, b.exponent)
    }
}
