//! Numbers, slices and literals in canonical texts (RFC 9535 sections 2.3.3, 2.3.4 and 2.3.5.1).

ghost use Rattle.std.specs.Prelude.{◌≡◌, ◌++◌, OnOk};
ghost use Rattle.std.specs.List.{list_any};
ghost use Rattle.jp_query.specs.Literals.{spelling};
ghost use Rattle.jp_tree.specs.Views.{literal_of};
ghost use Rattle.jp_canon.specs.Canon.{bound_text, is_one, literal_text, numeral_text, slice_text};
ghost use Rattle.jp_canon.specs.Canon.{step_text};
ghost use Rattle.jp_canon.specs.NumeralText.{fraction_text, integer_text, is_point};
ghost use Rattle.jp_decimal.specs.declared.number.Number.TheVariants.{Decimal as AsDecimal};

use crate::writer::Writer;
use jp_decimal::{Decimal, Number, push_number};
use jp_tree::{Literal, Numeral, Op, Slice};
use std::alloc::AllocError;

/// Writes a number as it was written, with a fraction or an exponent or without. Those that can't be
/// held, which no accepted query has, are written as one of their kind.
pub(crate) fn write_numeral(out: &mut Writer, number: Numeral) -> Result<(), AllocError>
    ensures { OnOk result (out.new ≡ out.old ++ numeral_text number) }
{
    match number {
        Numeral::Whole(number) => out.whole(number),
        Numeral::Beyond(Some(decimal)) => write_integer(out, decimal),
        Numeral::Beyond(None) => out.word("111111111111111111111111111111111111111"),
        Numeral::Fraction(Some(number)) => write_fraction(out, number),
        Numeral::Fraction(None) => out.word("1e-1000001"),
    }
}

/// Writes the digits of a whole number, and a zero for each ten that it is multiplied by.
fn write_integer(out: &mut Writer, number: Decimal) -> Result<(), AllocError>
    ensures { OnOk result (out.new ≡ out.old ++ integer_text number) }
{
    out.whole(number.coefficient)?;
    if number.exponent < 0 {
        return Ok(());
    }
    out.zeros(number.exponent.unsigned_abs())
}

/// Writes a number with a point or an exponent.
fn write_fraction(out: &mut Writer, number: Number) -> Result<(), AllocError>
    ensures { OnOk result (out.new ≡ out.old ++ fraction_text number) }
{
    match number {
        Number::Whole(whole) => {
            out.whole(whole)?;
            out.word(".0")
        }
        Number::Decimal(decimal) => write_decimal(out, decimal.coefficient, decimal.exponent),
    }
}

/// Writes the coefficient times ten to the exponent, with a point or an exponent.
fn write_decimal(out: &mut Writer, coefficient: i128, exponent: i32) -> Result<(), AllocError>
    ensures { OnOk result (out.new
        ≡ out.old ++ fraction_text (AsDecimal (record { coefficient = coefficient; exponent = exponent }))) }
{
    let mut text = String::new(out.alloc());
    let number = Decimal {
        coefficient,
        exponent,
    };
    push_number(&mut text, Number::Decimal(number))?;
    out.text(text.as_str())?;
    if has_point(text.as_bytes()) {
        Ok(())
    } else {
        out.word(".0")
    }
}

/// Whether the text of a number has a point or an exponent.
fn has_point(text: &[u8]) -> bool
    ensures { result ≡ list_any is_point text.now }
{
    text.iter().any(|byte| matches!(*byte, b'.' | b'e' | b'E'))
}

/// Writes the bounds of a slice, and its step unless that is 1.
pub(crate) fn write_slice(out: &mut Writer, slice: &Slice) -> Result<(), AllocError>
    ensures { OnOk result (out.new ≡ out.old ++ slice_text slice.now) }
{
    write_bound(out, slice.start)?;
    out.word(":")?;
    write_bound(out, slice.end)?;
    write_step(out, slice.step)
}

/// Writes the start or the end of a slice, and nothing where it is omitted.
fn write_bound(out: &mut Writer, bound: Option<Numeral>) -> Result<(), AllocError>
    ensures { OnOk result (out.new ≡ out.old ++ bound_text bound) }
{
    match bound {
        Some(number) => write_numeral(out, number),
        None => Ok(()),
    }
}

/// Writes a colon and the step of a slice, and nothing where the step is 1.
fn write_step(out: &mut Writer, step: Numeral) -> Result<(), AllocError>
    ensures { OnOk result (out.new ≡ out.old ++ step_text step) }
{
    if is_one(step) {
        return Ok(());
    }
    out.word(":")?;
    write_numeral(out, step)
}

/// Whether the number is 1, the step of a slice without one.
fn is_one(number: Numeral) -> bool
    ensures { result ≡ is_one number }
{
    match number {
        Numeral::Whole(number) => number == 1,
        Numeral::Beyond(_) | Numeral::Fraction(_) => false,
    }
}

/// Writes a literal.
pub(crate) fn write_literal(out: &mut Writer, literal: &Literal) -> Result<(), AllocError>
    ensures { OnOk result (out.new ≡ out.old ++ literal_text (literal_of literal.now)) }
{
    match literal {
        Literal::Number(number) => write_numeral(out, *number),
        Literal::Text(text) => out.quote(text.as_str()),
        Literal::True => out.word("true"),
        Literal::False => out.word("false"),
        Literal::Null => out.word("null"),
    }
}

/// Writes the operator of a comparison.
pub(crate) fn write_operator(out: &mut Writer, op: Op) -> Result<(), AllocError>
    ensures { OnOk result (out.new ≡ out.old ++ spelling op) }
{
    match op {
        Op::Equal => out.word("=="),
        Op::Unequal => out.word("!="),
        Op::Less => out.word("<"),
        Op::LessEqual => out.word("<="),
        Op::Greater => out.word(">"),
        Op::GreaterEqual => out.word(">="),
    }
}
