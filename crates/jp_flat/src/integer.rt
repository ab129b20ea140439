//! Whole numbers of 64 bits from their characters.

ghost use Rattle.std.specs.Prelude.{◌≡◌, ◌<◌, ◌==◌, ◌^◌, ◌-◌, ◌≤ℤ◌, ◌<ℤ◌, pos, negsuc, true, false};
ghost use Rattle.std.specs.Prelude.{IfSome, IsTrue, Some, length, slice_index};
ghost use Rattle.serde_json.specs.Data.{unsigned, negative};
ghost use Rattle.serde_json.specs.Read.{number_from};
ghost use Rattle.jp_flat.specs.Private.Integer.{IsWholeText};

use fast_float::Numeral;

/// The whole number of 64 bits, signed or unsigned, that these characters of JSON write. None says
/// nothing of them.
pub(crate) fn integer_of(bytes: &[u8]) -> Option<i128>
    ensures written { IfSome result (IsWholeText bytes.now) }
    ensures range { IfSome result
        (λ z. (negsuc (2 ^ 63 - 1) ≤ℤ z) × (z <ℤ pos (2 ^ 64))) }
{
    if has_minus(bytes) {
        Some(i128::from(below_zero(&Numeral::scan(&bytes[1..]))?))
    } else {
        Some(i128::from(from_zero(&Numeral::scan(bytes))?))
    }
}

/// Whether they begin with the sign of a number below zero.
#[inline(always)]
pub(crate) fn has_minus(bytes: &[u8]) -> bool
    ensures value { result ≡ (slice_index bytes.now 0 == 45) }
    ensures some { IsTrue result → 0 < length bytes.now }
{
    !bytes.is_empty() && bytes[0] == b'-'
}

/// The number from 0 on that the numeral writes, if it is whole and has at most 64 bits. None says nothing
/// of it.
fn from_zero(numeral: &Numeral<'_>) -> Option<u64>
    ensures { IfSome result (λ n. number_from false numeral.now ≡ Some (unsigned n)) }
{
    numeral.to_u64()
}

/// The number below 0 that a `-` and the numeral write, if it is whole and at least -(2^63). None says
/// nothing of them.
fn below_zero(numeral: &Numeral<'_>) -> Option<i64>
    ensures { IfSome result (λ n. number_from true numeral.now ≡ Some (negative n)) }
{
    let number = numeral.to_i64(true)?;
    if number < 0 { Some(number) } else { None }
}
