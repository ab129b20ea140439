//! Numbers in the form that they are held in.

ghost use Rattle.std.specs.Prelude.{◌≡◌};
ghost use Rattle.jp_decimal.specs.Number.{scaled_decimal, scaled_of};

/// The coefficient times ten to the exponent.
#[derive(Clone, Copy, Debug, PartialEq, Eq)]
pub struct Decimal {
    /// Where the number is held so: of at most 38 digits, the last of which is not 0.
    pub coefficient: i128,
    /// Where the number is held so: from -1,000,000 to 1,000,000.
    pub exponent: i32,
}

/// A number. Those that `number_of` gives are in the form that a number is held in, so that `==`
/// tells whether two of them are the same number.
#[derive(Clone, Copy, Debug, PartialEq, Eq)]
pub enum Number {
    /// A whole number from -(2^63) to (2^64)-1.
    Whole(i128),
    /// Any other number.
    Decimal(Decimal),
}

/// Any number as a coefficient times a power of ten.
#[inline(always)]
pub(crate) fn scaled(number: Number) -> Decimal
    ensures { scaled_decimal result ≡ scaled_of number }
{
    match number {
        Number::Whole(coefficient) => Decimal {
            coefficient,
            exponent: 0,
        },
        Number::Decimal(decimal) => decimal,
    }
}
