//! The texts of numbers (RFC 8785 section 3.2.2.3).

ghost use Rattle.std.specs.Prelude.{◌≡◌, ◌++◌, ◌∷◌, ◌+◌, ◌-◌, ◌<◌, ◌≤◌, ◌^◌, OnOk, codes, length};
ghost use Rattle.std.specs.Prelude.{pos, decimal, string_bytes, unsigned_abs, negsuc};
ghost use Rattle.std.specs.Str.{IsAscii};
ghost use Rattle.std.specs.Fmt.{sign_text};
ghost use Rattle.jp_decimal.specs.Appended.{IsBegun};
ghost use Rattle.jp_decimal.specs.NumberText.{number_text, pointed, power_text, size_text};
ghost use Rattle.jp_decimal.specs.NumberText.{with_places, with_power, zeros};
ghost use Rattle.jp_decimal.specs.Scaled.{is_below_zero};
ghost use Rattle.jp_decimal.specs.declared.number.Number.TheVariants.{Decimal as AsDecimal};

use crate::number::{Decimal, Number};
use itoa::Buffer;
use std::alloc::AllocError;

/// Appends the text of a number: its digits, with a point or an exponent where they need one (RFC
/// 8785 section 3.2.2.3). Numbers that are held have the same text exactly where they are the same
/// number. Where memory runs out, the text still begins with what it held, and only a beginning of
/// the number stands behind it.
pub fn push_number(text: &mut String, number: Number) -> Result<(), AllocError>
    ensures ok { OnOk result (string_bytes text.new ≡ string_bytes text.old ++ number_text number) }
    ensures kept { IsBegun (string_bytes text.old) (number_text number) (string_bytes text.new) }
{
    match number {
        Number::Whole(whole) => text.push_str(Buffer::new().format(whole)),
        Number::Decimal(decimal) => push_decimal(text, decimal),
    }
}

/// Appends the text of a decimal.
fn push_decimal(text: &mut String, number: Decimal) -> Result<(), AllocError>
    ensures ok { OnOk result (string_bytes text.new
        ≡ string_bytes text.old ++ number_text (AsDecimal number)) }
    ensures kept { IsBegun (string_bytes text.old) (number_text (AsDecimal number))
        (string_bytes text.new) }
{
    let mut buffer = Buffer::new();
    let digits = buffer.format(number.coefficient.unsigned_abs());
    push_signed(text, number.coefficient < 0, digits, number.exponent)
}

/// Appends digits times ten to the exponent, behind a sign or none.
fn push_signed(
    text: &mut String,
    negative: bool,
    digits: &str,
    exponent: i32,
) -> Result<(), AllocError>
    requires { IsAscii digits.now }
    ensures ok { OnOk result (string_bytes text.new
        ≡ string_bytes text.old ++ (sign_text negative ++ size_text digits.now exponent)) }
    ensures kept { IsBegun (string_bytes text.old)
        (sign_text negative ++ size_text digits.now exponent) (string_bytes text.new) }
{
    push_sign(text, negative)?;
    push_size(text, digits, exponent)
}

/// Appends the sign of a number below zero.
fn push_sign(text: &mut String, negative: bool) -> Result<(), AllocError>
    ensures ok { OnOk result (string_bytes text.new ≡ string_bytes text.old ++ sign_text negative) }
    ensures kept { IsBegun (string_bytes text.old) (sign_text negative) (string_bytes text.new) }
{
    if negative { text.push_str("-") } else { Ok(()) }
}

/// Appends digits times ten to the exponent.
fn push_size(text: &mut String, digits: &str, exponent: i32) -> Result<(), AllocError>
    requires { IsAscii digits.now }
    ensures ok { OnOk result (string_bytes text.new
        ≡ string_bytes text.old ++ size_text digits.now exponent) }
    ensures kept { IsBegun (string_bytes text.old) (size_text digits.now exponent)
        (string_bytes text.new) }
{
    if exponent < 0 {
        return push_places(text, digits, exponent.unsigned_abs());
    }
    let zeros = exponent.unsigned_abs() as usize;
    let before = digits.len() + zeros;
    if before < 22 {
        text.push_str(digits)?;
        return push_zeros(text, zeros);
    }
    push_power(text, digits, false, before - 1)
}

/// Appends digits with so many of them behind a point.
fn push_places(text: &mut String, digits: &str, places: u32) -> Result<(), AllocError>
    requires { IsAscii digits.now }
    ensures ok { OnOk result (string_bytes text.new
        ≡ string_bytes text.old ++ with_places places digits.now) }
    ensures kept { IsBegun (string_bytes text.old) (with_places places digits.now)
        (string_bytes text.new) }
{
    let behind = places as usize;
    if behind < digits.len() {
        let before = digits.len() - behind;
        if before < 22 {
            return push_pointed(text, digits, before);
        }
        return push_power(text, digits, false, before - 1);
    }
    let missing = behind - digits.len();
    if missing < 6 {
        text.push_str("0.")?;
        push_zeros(text, missing)?;
        return text.push_str(digits);
    }
    push_power(text, digits, true, missing + 1)
}

/// Appends digits with a point behind the first, and an exponent.
fn push_power(text: &mut String, digits: &str, below: bool, power: usize) -> Result<(), AllocError>
    requires { IsAscii digits.now }
    ensures ok { OnOk result (string_bytes text.new
        ≡ string_bytes text.old ++ with_power below power digits.now) }
    ensures kept { IsBegun (string_bytes text.old) (with_power below power digits.now)
        (string_bytes text.new) }
{
    push_pointed(text, digits, 1)?;
    push_exponent(text, below, power)
}

/// Appends an exponent, below 0 or not.
fn push_exponent(text: &mut String, below: bool, power: usize) -> Result<(), AllocError>
    ensures ok { OnOk result (string_bytes text.new
        ≡ string_bytes text.old ++ power_text below power) }
    ensures kept { IsBegun (string_bytes text.old) (power_text below power)
        (string_bytes text.new) }
{
    text.push_str(if below { "e-" } else { "e+" })?;
    text.push_str(Buffer::new().format(power))
}

/// Appends digits with a point behind the first so many, if more follow.
fn push_pointed(text: &mut String, digits: &str, before: usize) -> Result<(), AllocError>
    requires { IsAscii digits.now }
    ensures ok { OnOk result (string_bytes text.new
        ≡ string_bytes text.old ++ pointed before digits.now) }
    ensures kept { IsBegun (string_bytes text.old) (pointed before digits.now)
        (string_bytes text.new) }
{
    if before < digits.len() {
        text.push_str(&digits[..before])?;
        text.push_str(".")?;
        return text.push_str(&digits[before..]);
    }
    text.push_str(digits)
}

/// Appends so many digits 0.
fn push_zeros(text: &mut String, count: usize) -> Result<(), AllocError>
    ensures ok { OnOk result (string_bytes text.new ≡ string_bytes text.old ++ zeros count) }
    ensures kept { IsBegun (string_bytes text.old) (zeros count) (string_bytes text.new) }
{
    for _ in 0..count {
        text.push_str("0")?;
    }
    Ok(())
}
