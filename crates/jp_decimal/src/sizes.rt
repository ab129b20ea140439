//! Sizes of numbers: how two naturals stand, each times a power of ten.

ghost use Rattle.std.specs.Prelude.{◌≡◌, ◌*◌, ◌^◌, ◌-ℤ◌};
ghost use Rattle.std.specs.Ordering.{nat_cmp};
ghost use Rattle.jp_decimal.specs.Scaled.{from_zero};

use std::cmp::Ordering;

/// How a times ten to the e and b times ten to the f stand.
pub(crate) fn compare_sizes(a: u128, e: i32, b: u128, f: i32) -> Ordering
    ensures { result ≡ nat_cmp (a * 10 ^ from_zero (e -ℤ f)) (b * 10 ^ from_zero (f -ℤ e)) }
{
    if e >= f {
        let by = (i64::from(e) - i64::from(f)) as u64;
        compare_raised(a, by, b)
    } else {
        let by = (i64::from(f) - i64::from(e)) as u64;
        compare_raised(b, by, a).reverse()
    }
}

/// How a times ten to the `by` and b stand.
fn compare_raised(a: u128, by: u64, b: u128) -> Ordering
    ensures { result ≡ nat_cmp (a * 10 ^ by) b }
{
    if by == 0 {
        return a.cmp(&b);
    }
    if a == 0 {
        return a.cmp(&b);
    }
    if by >= 39 {
        return Ordering::Greater;
    }
    let power = 10u128.pow(by as u32);
    let part = b / power;
    if a < part {
        Ordering::Less
    } else if a > part {
        Ordering::Greater
    } else if b % power == 0 {
        Ordering::Equal
    } else {
        Ordering::Less
    }
}
