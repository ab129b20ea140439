//! Laws of the definitions, each the contract of a function that does nothing.

ghost use Rattle.std.specs.Prelude.{◌↔◌, IsTrue};
ghost use Rattle.jp_decimal.specs.Number.{IsNormal, scaled_of};
ghost use Rattle.jp_decimal.specs.Scaled.{SameNumber};
ghost use Rattle.jp_decimal.specs.Laws.{DecimalTold, EachNumberWrites, IntegersStay, OneForm};
ghost use Rattle.jp_decimal.specs.Laws.{OneOrder, OneText, OneValue, WholeNumbersStay, WrittenBack};

use crate::number::Number;

/// Numbers are totally ordered: of two, one is less or they are the same number, and what is less
/// than less is less.
pub fn one_order()
    ensures { OneOrder }
{}

/// A number is held in one form: what are the same number are the same value.
pub fn one_form()
    ensures { OneForm }
{}

/// `==` tells whether two numbers are the same, where both are in the form that a number is held
/// in.
pub fn equal_numbers()
    ensures { (m n : Number) → IsNormal m → IsNormal n
        → IsTrue (⟦<Number as PartialEq>⟧.eq m n) ↔ SameNumber (scaled_of m) (scaled_of n) }
{}

/// A text writes one number at most by the rules of RFC 8259 section 6, the one that is read of it.
pub fn one_value()
    ensures { OneValue }
{}

/// The text of a number that is held is a JSON number (RFC 8259 section 6), and writes that number.
pub fn written_back()
    ensures { WrittenBack }
{}

/// Different numbers that are held have different texts.
pub fn one_text()
    ensures { OneText }
{}

/// Digits with neither a point nor an exponent write the whole number that they are.
pub fn integers_stay()
    ensures { IntegersStay }
{}

/// The test of decimals is true exactly of the decimals that are held.
pub fn decimal_told()
    ensures { DecimalTold }
{}

/// Each text that the kit's lexer takes for a number writes one by the rules of RFC 8259 section 6.
pub fn each_number_writes()
    ensures { EachNumberWrites }
{}

/// A text that `serde_json` reads as a whole number writes that number.
pub fn whole_numbers_stay()
    ensures { WholeNumbersStay }
{}
