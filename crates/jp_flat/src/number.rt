//! Whole numbers from their characters.

ghost use Rattle.std.specs.Prelude.{◌≡◌, ℕ, IfSome, Some};
ghost use Rattle.jp_document.specs.Value.{whole};
ghost use Rattle.jp_flat.specs.Flat.{Shown, flat_value, number_of};
ghost use Rattle.jp_flat.specs.Private.Reading.{IsWholeItem};
ghost use Rattle.jp_flat.specs.Private.Tokens.{IsSized};

use crate::integer::{has_minus, integer_of};
use crate::item::{Halves, Item};

/// The whole number of 64 bits that these characters of JSON write. `size` is what their digits write,
/// if they are at most 18.
#[inline(always)]
pub(crate) fn number(bytes: &[u8], size: u64) -> Option<Item>
    requires { IsSized bytes.now size }
    ensures { IfSome result (IsWholeItem bytes.now) }
{
    if bytes.len() <= 18 && !has_minus(bytes) {
        return Some(Item::Above(halves(size)));
    }
    long_number(bytes)
}

/// The whole number of 64 bits that these characters of JSON write.
fn long_number(bytes: &[u8]) -> Option<Item>
    ensures { IfSome result (IsWholeItem bytes.now) }
{
    let whole = integer_of(bytes)?;
    let item = whole_item(whole)?;
    Some(item)
}

/// A whole number, None where it has more than 64 bits.
pub(crate) fn whole_item(number: i128) -> Option<Item>
    ensures { IfSome result (λ i. (n : ℕ) (t : Shown) → flat_value n t i ≡ Some (whole number)) }
{
    if number < 0 {
        let below = u64::try_from(-1 - number).ok()?;
        Some(Item::Below(halves(below)))
    } else {
        let above = u64::try_from(number).ok()?;
        Some(Item::Above(halves(above)))
    }
}

/// A number as its high and its low 32 bits.
#[inline(always)]
fn halves(number: u64) -> Halves
    ensures { number_of result ≡ number }
{
    Halves {
        high: (number >> 32) as u32,
        low: (number & 0xffff_ffff) as u32,
    }
}
