//! The numbers of literals (RFC 9535 section 2.3.5.1, number).
//!
//! What is read is kept as it is written, since the number that a fraction and an exponent write is
//! that of the whole text.

ghost use Rattle.std.specs.Prelude.{◌≡◌, ◌++◌};
ghost use Rattle.jp_reading.specs.Numbers.{is_digit};
ghost use Rattle.jp_reading.specs.Views.{Gives, outcome_map};
ghost use Rattle.jp_query.specs.Private.Numerals.{held_integer};
ghost use Rattle.jp_query.specs.Private.Reading.{read_flat};
ghost use Rattle.jp_query.specs.Private.Rules as rules;

use crate::ints::is_leading_digit;
use crate::lists::append;
use jp_decimal::{Number, number_of};
use jp_reading::{Reader, Stop, digit, is_at_digit};
use jp_tree::Numeral;

/// A number, with a fraction and an exponent or without.
pub(crate) fn number(reader: &mut Reader) -> Result<Numeral, Stop>
    ensures { Gives (λ x. x) result reader.new (read_flat rules.number reader.old) }
{
    let whole = mantissa(reader, Vec::new(reader.alloc()))?;
    let length = whole.len();
    let with_decimals = decimals(reader, whole)?;
    let text = exponent(reader, with_decimals)?;
    let number = number_of(&text);
    if text.len() > length {
        Ok(Numeral::Fraction(number))
    } else {
        Ok(integer(number))
    }
}

/// A number without a fraction and an exponent.
fn integer(number: Option<Number>) -> Numeral
    ensures { result ≡ held_integer number }
{
    match number {
        Some(Number::Whole(whole)) => Numeral::Whole(whole),
        Some(Number::Decimal(decimal)) => Numeral::Beyond(Some(decimal)),
        None => Numeral::Beyond(None),
    }
}

/// The text with a whole number, or `-0`, behind it.
#[tactic(auto, unfolding(crate::specs::Private::Rules::mantissa))]
fn mantissa(reader: &mut Reader, text: Vec<u8>) -> Result<Vec<u8>, Stop>
    ensures { Gives
        (λ t. t.items)
        result
        reader.new
        (outcome_map (λ w. text.items ++ w) (read_flat rules.mantissa reader.old)) }
{
    if !reader.is_at('-') {
        return int_digits(reader, text);
    }
    reader.bump();
    let mut signed = text;
    append(&mut signed, b'-')?;
    int_digits(reader, signed)
}

/// The text with a zero, or digits without a leading one, behind it.
#[tactic(auto, unfolding(crate::specs::Private::Rules::int_digits))]
fn int_digits(reader: &mut Reader, text: Vec<u8>) -> Result<Vec<u8>, Stop>
    ensures { Gives
        (λ t. t.items)
        result
        reader.new
        (outcome_map (λ w. text.items ++ w) (read_flat rules.int_digits reader.old)) }
{
    let mut longer = text;
    match reader.peek() {
        Some('0') => {
            reader.bump();
            append(&mut longer, b'0')?;
            Ok(longer)
        }
        Some(first) if is_leading_digit(first) => {
            reader.bump();
            append(&mut longer, first as u8)?;
            more_digits(reader, longer)
        }
        _ => Err(Stop::Syntax(reader.place())),
    }
}

/// The text with a dot and digits behind it, if there is a dot.
#[tactic(auto, unfolding(crate::specs::Private::Rules::decimals))]
fn decimals(reader: &mut Reader, text: Vec<u8>) -> Result<Vec<u8>, Stop>
    ensures { Gives
        (λ t. t.items)
        result
        reader.new
        (outcome_map (λ w. text.items ++ w) (read_flat rules.decimals reader.old)) }
{
    if !reader.is_at('.') {
        return Ok(text);
    }
    reader.bump();
    let mut longer = text;
    append(&mut longer, b'.')?;
    digits(reader, longer)
}

/// The text with an `e`, a sign or none, and digits behind it, if there is an `e`.
#[tactic(auto, unfolding(crate::specs::Private::Rules::exponent))]
fn exponent(reader: &mut Reader, text: Vec<u8>) -> Result<Vec<u8>, Stop>
    ensures { Gives
        (λ t. t.items)
        result
        reader.new
        (outcome_map (λ w. text.items ++ w) (read_flat rules.exponent reader.old)) }
{
    let Some(e @ ('e' | 'E')) = reader.peek() else {
        return Ok(text);
    };
    reader.bump();
    let mut longer = text;
    append(&mut longer, e as u8)?;
    power(reader, longer)
}

/// The text with a sign or none, and digits, behind it.
#[tactic(auto, unfolding(crate::specs::Private::Rules::power))]
fn power(reader: &mut Reader, text: Vec<u8>) -> Result<Vec<u8>, Stop>
    ensures { Gives
        (λ t. t.items)
        result
        reader.new
        (outcome_map (λ w. text.items ++ w) (read_flat rules.power reader.old)) }
{
    let Some(sign @ ('+' | '-')) = reader.peek() else {
        return digits(reader, text);
    };
    reader.bump();
    let mut longer = text;
    append(&mut longer, sign as u8)?;
    digits(reader, longer)
}

/// The text with digits, at least one, behind it.
#[tactic(auto, unfolding(crate::specs::Private::Rules::digits))]
fn digits(reader: &mut Reader, text: Vec<u8>) -> Result<Vec<u8>, Stop>
    ensures { Gives
        (λ t. t.items)
        result
        reader.new
        (outcome_map (λ w. text.items ++ w) (read_flat rules.digits reader.old)) }
{
    let mut longer = text;
    let first = digit(reader)?;
    append(&mut longer, b'0' + first)?;
    more_digits(reader, longer)
}

/// The text with the digits behind it that come next, as many as there are.
fn more_digits(reader: &mut Reader, text: Vec<u8>) -> Result<Vec<u8>, Stop>
    ensures { Gives
        (λ t. t.items)
        result
        reader.new
        (outcome_map (λ w. text.items ++ w) (read_flat (rules.run is_digit) reader.old)) }
{
    let mut longer = text;
    'digits: while is_at_digit(reader) {
        let next = digit(reader)?;
        append(&mut longer, b'0' + next)?;
    }
    Ok(longer)
}
