//! Digits, the numbers that they write, and the greatest of the exact ones.

ghost use Rattle.std.specs.Prelude.{◌≡◌, ◌+◌, ◌≤◌, IfOk, IfErr, IsTrue};
ghost use Rattle.jp_reading.specs.Numbers.{is_digit};
ghost use Rattle.jp_reading.specs.NumberReading.{is_at_digit, digit_at, digits_at, capped};
ghost use Rattle.jp_reading.specs.Views.{Gives, outcome_map};

use crate::reader::{Reader, Stop};

/// The greatest of the whole numbers that are exact as IEEE 754 doubles, with all below them: (2^53)-1
/// (RFC 7493 section 2.2, RFC 9535 section 2.1).
pub const LARGEST_EXACT: u64 = 9_007_199_254_740_991;

/// Whether the next character is a digit.
pub fn is_at_digit(reader: &Reader) -> bool
    ensures { result ≡ is_at_digit reader.now }
{
    match reader.peek() {
        Some(next) => is_digit(next),
        None => false,
    }
}

/// Takes a digit and answers its value. Where there is none the answer is `Syntax` at that byte,
/// and the reader stays.
pub fn digit(reader: &mut Reader) -> Result<u8, Stop>
    ensures taken { Gives (λ value. 48 + value) result reader.new (digit_at reader.old) }
    ensures value { IfOk result (λ value. value ≤ 9) }
    ensures refused { IfErr result
        (λ stop. (stop ≡ Stop.Syntax reader.old.at) × (reader.new ≡ reader.old)) }
{
    match reader.peek() {
        Some(next) if is_digit(next) => {
            reader.bump();
            Ok((next as u32 - '0' as u32) as u8)
        },
        _ => Err(Stop::Syntax(reader.place())),
    }
}

/// Takes a digit and all digits after it, and answers the number that they write in base ten, or
/// `cap` where it is larger. Where there is no digit the answer is `Syntax` at that byte, and the
/// reader stays.
pub fn natural(reader: &mut Reader, cap: u128) -> Result<u128, Stop>
    ensures taken { Gives
        (λ number. number)
        result
        reader.new
        (outcome_map (capped cap 0) (digits_at reader.old)) }
    ensures refused { IfErr result
        (λ stop. (stop ≡ Stop.Syntax reader.old.at) × (reader.new ≡ reader.old)) }
{
    let mut number = u128::from(digit(reader)?).min(cap);
    'digits: while is_at_digit(reader) {
        let next = digit(reader)?;
        number = number
            .saturating_mul(10)
            .saturating_add(u128::from(next))
            .min(cap);
    }
    Ok(number)
}

/// Whether a character is one of the ten digits, `0` to `9`.
#[tactic(auto, unfolding(crate::specs::Numbers::is_digit))]
fn is_digit(c: char) -> bool
    ensures test { result ≡ is_digit c }
    ensures range { IsTrue result → (48 ≤ c) × (c ≤ 57) }
{
    matches!(c, '0'..='9')
}
