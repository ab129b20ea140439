//! Whole numbers (RFC 9535 section 2.3.3.1).

ghost use Rattle.std.specs.Prelude.{◌≡◌, ◌^◌, ◌≤◌, min, IsTrue};
ghost use Rattle.jp_reading.specs.Outcome.{passes};
ghost use Rattle.jp_reading.specs.Rule.{component};
ghost use Rattle.jp_reading.specs.Views.{Gives, outcome_map};
ghost use Rattle.jp_query.specs.Private.Rules as rules;
ghost use Rattle.jp_query.specs.Private.Rules.{begins_int};
ghost use Rattle.jp_query.specs.Private.Reading.{read_flat};
ghost use Rattle.jp_query.specs.Ints.{whole_of, negative_of};
ghost use Rattle.jp_reading.specs.Numbers.{is_leading_digit};

use jp_reading::{Reader, Stop, natural};
use jp_tree::Numeral;

/// A whole number, which is a component.
pub(crate) fn int_component(reader: &mut Reader) -> Result<Numeral, Stop>
    ensures { Gives (λ x. x) result reader.new (read_flat (component rules.int) reader.old) }
{
    let start = reader.place();
    let before = reader.components();
    let number = int(reader)?;
    reader.add_component(start, before)?;
    Ok(number)
}

/// Whether a character begins a whole number.
pub(crate) fn begins_int(next: Option<char>) -> bool
    ensures { result ≡ passes begins_int next }
{
    matches!(next, Some('0' | '-' | '1'..='9'))
}

/// A whole number (RFC 9535 section 2.3.3.1, int).
#[tactic(auto, using(crate::proofs::CappedIntegers::sizes), unfolding(crate::specs::Private::Rules::int))]
fn int(reader: &mut Reader) -> Result<Numeral, Stop>
    ensures { Gives (λ x. x) result reader.new (read_flat rules.int reader.old) }
{
    if reader.is_at('-') {
        reader.bump();
        return Ok(negative(size(reader)?));
    }
    unsigned(reader)
}

/// A whole number without a sign.
#[tactic(auto, using(crate::proofs::CappedIntegers::sizes), unfolding(crate::specs::Private::Rules::unsigned))]
fn unsigned(reader: &mut Reader) -> Result<Numeral, Stop>
    ensures { Gives (λ x. x) result reader.new (read_flat rules.unsigned reader.old) }
{
    if reader.is_at('0') {
        reader.bump();
        return Ok(whole(0));
    }
    Ok(whole(size(reader)?))
}

/// The number that digits without a leading zero write, or 2^64 where it is larger.
#[tactic(auto, unfolding(crate::specs::Private::Rules::size))]
fn size(reader: &mut Reader) -> Result<u128, Stop>
    ensures { Gives
        (λ n. n)
        result
        reader.new
        (outcome_map (λ n. min n (2 ^ 64)) (read_flat rules.size reader.old)) }
{
    match reader.peek() {
        Some(first) if is_leading_digit(first) => natural(reader, 1 << 64),
        _ => Err(Stop::Syntax(reader.place())),
    }
}

/// Whether a character may begin a whole number other than zero (section 2.3.3.1, DIGIT1).
pub(crate) fn is_leading_digit(c: char) -> bool
    ensures test { result ≡ is_leading_digit c }
    ensures range { IsTrue result → (49 ≤ c) × (c ≤ 57) }
{
    matches!(c, '1'..='9')
}

/// The whole number of that size.
fn whole(size: u128) -> Numeral
    ensures { result ≡ whole_of size }
{
    if size < 1 << 64 {
        Numeral::Whole(size as i128)
    } else {
        Numeral::Beyond(None)
    }
}

/// The number below zero of that size.
fn negative(size: u128) -> Numeral
    ensures { result ≡ negative_of size }
{
    if size <= 1 << 63 {
        Numeral::Whole(-(size as i128))
    } else {
        Numeral::Beyond(None)
    }
}
