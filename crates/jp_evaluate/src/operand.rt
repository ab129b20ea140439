//! The values of literals (RFC 9535 section 2.3.5.1), and the texts that values are.

ghost use Rattle.std.specs.Prelude.{◌≡◌, Some, option_map, pos};
ghost use Rattle.jp_document.specs.Value.{decimal, text, whole};
ghost use Rattle.jp_lent.specs.Lending.{seen_value};
ghost use Rattle.jp_tree.specs.Tree.{number as number_tree};
ghost use Rattle.jp_tree.specs.Views.{literal_of};
ghost use Rattle.jp_tree.specs.declared.tree.Numeral.TheVariants.{Fraction};
ghost use Rattle.jp_select.specs.Comparable.{comparable_of};
ghost use Rattle.jp_evaluate.specs.Nodelist.{literal_value};
ghost use Rattle.jp_evaluate.specs.Private.Meanings.{only_text};

use jp_decimal::{Decimal, Number};
use jp_lent::{Lent, Seen};
use jp_select::Comparable;
use jp_tree::{Literal, Numeral};

/// The value of a literal; a number that can't be held has none.
#[inline(always)]
pub(crate) fn literal_value<V: Lent>(literal: &Literal) -> Comparable<'_, V>
    ensures { comparable_of V.meaning result ≡ literal_value (literal_of literal.now) }
{
    match literal {
        Literal::Number(Numeral::Whole(number)) => Comparable::Whole(*number),
        Literal::Number(Numeral::Beyond(Some(decimal))) => decimal_side(*decimal),
        Literal::Number(Numeral::Fraction(Some(number))) => number_side(*number),
        Literal::Number(Numeral::Beyond(None) | Numeral::Fraction(None)) => Comparable::Nothing,
        Literal::Text(text) => Comparable::Text(text.as_str()),
        Literal::True => Comparable::Bool(true),
        Literal::False => Comparable::Bool(false),
        Literal::Null => Comparable::Null,
    }
}

/// The side that has this number.
fn number_side<'a, V: Lent>(number: Number) -> Comparable<'a, V>
    ensures { comparable_of V.meaning result ≡ literal_value (number_tree (Fraction (Some number))) }
{
    match number {
        Number::Whole(whole) => Comparable::Whole(whole),
        Number::Decimal(decimal) => decimal_side(decimal),
    }
}

/// The side that has this decimal.
fn decimal_side<'a, V: Lent>(number: Decimal) -> Comparable<'a, V>
    ensures { comparable_of V.meaning result ≡ Some (decimal number.coefficient number.exponent) }
{
    Comparable::Decimal {
        exponent: number.exponent,
        coefficient: number.coefficient,
    }
}

/// The side that has this count.
pub(crate) fn whole<'a, V: Lent>(count: u64) -> Comparable<'a, V>
    ensures { comparable_of V.meaning result ≡ Some (whole (pos count)) }
{
    Comparable::Whole(count as i128)
}

/// The text that a literal is, None of others.
#[inline(always)]
pub(crate) fn literal_text(literal: &Literal) -> Option<&str>
    ensures { option_map (λ s. text s.now) result ≡ only_text (literal_value (literal_of literal.now)) }
{
    match literal {
        Literal::Text(text) => Some(text.as_str()),
        Literal::Number(_) | Literal::True | Literal::False | Literal::Null => None,
    }
}

/// The text that a value is that is lent, None of others and of Nothing.
#[inline(always)]
pub(crate) fn lent_text<'a, V: Lent + 'a>(value: Option<V>) -> Option<&'a str>
    ensures { option_map (λ s. text s.now) result ≡ only_text (option_map V.meaning value) }
{
    seen_text(Some(value?.seen()))
}

/// The text that a value is, as it is seen; None of others and of Nothing.
#[inline(always)]
pub(crate) fn seen_text(value: Option<Seen<'_>>) -> Option<&str>
    ensures { option_map (λ s. text s.now) result ≡ only_text (option_map seen_value value.entry) }
{
    match value? {
        Seen::Text(text) => Some(text),
        Seen::Null
        | Seen::Bool(_)
        | Seen::Whole(_)
        | Seen::Decimal { .. }
        | Seen::List
        | Seen::Members => None,
    }
}
