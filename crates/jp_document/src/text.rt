//! Texts and numbers, as they stand in the text of a value.

ghost use Rattle.std.specs.Prelude.{◌≡◌, ◌++◌, string_bytes, OnOk};
ghost use Rattle.std.specs.Fmt.{signed_decimal};
ghost use Rattle.jp_decimal.specs.Appended.{IsBegun};
ghost use Rattle.jp_document.specs.Text.{string_text, text_of};
ghost use Rattle.jp_document.specs.Value.{decimal};

use crate::spelling::push_quoted;
use itoa::Buffer;
use jp_decimal::{Decimal, Number, push_number};
use std::alloc::AllocError;

/// Appends a text between double quotes, as it stands in the text of a value. Where memory runs out,
/// the text still begins with what it held, and only a beginning of what was to come stands after
/// it.
#[inline(always)]
pub fn push_text(out: &mut String, text: &str) -> Result<(), AllocError>
    ensures ok { OnOk result (string_bytes out.new ≡ string_bytes out.old ++ string_text text.now) }
    ensures kept { IsBegun (string_bytes out.old) (string_text text.now)
        (string_bytes out.new) }
{
    push_quoted(out, text, b'"')
}

/// Appends a whole number in decimal; numbers of 64 bits are the quick ones to print. Where memory
/// runs out, the text still begins with what it held, and only a beginning of the number stands
/// after it.
#[inline(never)]
pub fn push_integer(out: &mut String, number: i128) -> Result<(), AllocError>
    ensures ok { OnOk result
        (string_bytes out.new ≡ string_bytes out.old ++ signed_decimal number) }
    ensures kept { IsBegun (string_bytes out.old) (signed_decimal number)
        (string_bytes out.new) }
{
    let mut buffer = Buffer::new();
    match i64::try_from(number) {
        Ok(number) => out.push_str(buffer.format(number)),
        Err(_) => out.push_str(buffer.format(number)),
    }
}

/// Appends the coefficient times ten to the exponent, a number that is no whole one of 64 bits, in the
/// layout of RFC 8785 section 3.2.2.3. Where memory runs out, the text still begins with what it held,
/// and only a beginning of the number stands after it.
#[inline(never)]
pub fn push_decimal(out: &mut String, coefficient: i128, exponent: i32) -> Result<(), AllocError>
    ensures ok { OnOk result
        (string_bytes out.new ≡ string_bytes out.old ++ text_of (decimal coefficient exponent)) }
    ensures kept { IsBegun (string_bytes out.old) (text_of (decimal coefficient exponent))
        (string_bytes out.new) }
{
    let decimal = Decimal {
        coefficient,
        exponent,
    };
    push_number(out, Number::Decimal(decimal))
}
