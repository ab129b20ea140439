//! Numbers from the characters that write them.

ghost use Rattle.std.specs.Prelude.{◌≡◌, ◌<◌, ◌==◌, ◌+◌, ◌^◌, length, slice_index, IsTrue};
ghost use Rattle.std.specs.Option.{MatchOption};
ghost use Rattle.jp_decimal.specs.NormalForm.{IsHeldAs, IsOutOfRange, normal_form};
ghost use Rattle.jp_decimal.specs.TextValue.{value_of_parts, value_of_text};

use crate::digits::run_of;
use crate::normal_form::{normal_number, signed};
use crate::number::Number;
use core::dec2flt::Numeral;

/// The number that the text of a JSON number writes (RFC 8259 section 6). None: it is no whole
/// number of 64 bits, and has more than 38 digits from the first to the last that is not 0, or the
/// exponent of the last of these is not from -1,000,000 to 1,000,000. Each digit is looked at once,
/// and no memory is taken.
pub fn number_of(bytes: &[u8]) -> Option<Number>
    ensures value { result ≡ normal_form (value_of_text bytes.now) }
    ensures right { MatchOption result (IsOutOfRange (value_of_text bytes.now))
        (IsHeldAs (value_of_text bytes.now)) }
{
    let number = number_read(bytes);
    number
}

/// `number_of`, by the two cases of its sign.
fn number_read(bytes: &[u8]) -> Option<Number>
    ensures { MatchOption result (IsOutOfRange (value_of_text bytes.now))
        (IsHeldAs (value_of_text bytes.now)) }
{
    if has_minus(bytes) {
        number_from(true, &Numeral::scan(&bytes[1..]))
    } else {
        number_from(false, &Numeral::scan(bytes))
    }
}

/// Whether they begin with the sign of a number below zero.
#[inline(always)]
fn has_minus(bytes: &[u8]) -> bool
    ensures value { result ≡ (slice_index bytes.now 0 == 45) }
    ensures some { IsTrue result → 0 < length bytes.now }
{
    !bytes.is_empty() && bytes[0] == b'-'
}

/// The number that the parts write, behind a sign or none. None as of `number_of`.
#[inline(always)]
fn number_from(negative: bool, numeral: &Numeral<'_>) -> Option<Number>
    requires { length numeral.now.whole + length numeral.now.fraction < 2 ^ 63 }
    ensures { MatchOption result (IsOutOfRange (value_of_parts negative numeral.now))
        (IsHeldAs (value_of_parts negative numeral.now)) }
{
    let run = run_of(numeral)?;
    if run.size == 0 {
        return Some(Number::Whole(0));
    }
    let power = numeral.saturated_exponent();
    if power == u64::MAX {
        return None;
    }
    let zeros = i128::from(run.zeros) - numeral.fraction().len() as i128;
    let exponent = signed(numeral.is_exponent_negative(), u128::from(power)) + zeros;
    normal_number(negative, run.size, exponent)
}
