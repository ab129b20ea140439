//! Numbers by their characters, which stay in the text and are read when they are looked at.

ghost use Rattle.std.specs.Prelude.{◌≡◌, IfSome, OnSome, true};
ghost use Rattle.jp_flat.specs.Flat.{is_flat, meaning, shown};
ghost use Rattle.jp_flat.specs.Private.Parts.{numeral_at};
ghost use Rattle.jp_flat.specs.Private.Taken.{IsHeld, IsTaken};
ghost use Rattle.jp_flat.specs.Private.Tokens.{StandsAt};
ghost use Rattle.jp_flat.specs.declared.item.Item.TheVariants.{Numeral};
ghost use Rattle.jp_lent.specs.Lending.{bare, seen_value};

use crate::item::{Item, Span};
use crate::parts::bytes_at;
use crate::spans::in_text;
use crate::tables::Tables;
use jp_decimal::{Number, number_of};
use jp_lent::Seen;

/// `numeral` where numbers are read exactly, else None.
pub(crate) fn taken<const EXACT: bool>(
    tables: &Tables<'_>,
    first: usize,
    text: &[u8],
) -> Option<Item>
    requires { StandsAt tables.now.text.now first text.now }
    ensures { IfSome result (IsTaken (shown tables.now) text.now) }
{
    if EXACT {
        numeral(tables, first, text)
    } else {
        None
    }
}

/// `held` where numbers are read exactly, else None.
pub(crate) fn passed<const EXACT: bool>(tables: &Tables<'_>, text: &[u8]) -> Option<()>
    ensures { OnSome result (IsHeld (shown tables.now) text.now) }
{
    if EXACT { held(tables, text) } else { None }
}

/// Passes over the number with these characters, where the tables take such numbers. None where it can't be
/// held.
#[inline(never)]
fn held(tables: &Tables<'_>, text: &[u8]) -> Option<()>
    ensures { OnSome result (IsHeld (shown tables.now) text.now) }
{
    if !tables.exact {
        return None;
    }
    number_of(text)?;
    Some(())
}

/// The number with these characters, which stand in the text from this offset on, where the tables take
/// such numbers. None where it can't be held, or stands beyond 2^32 bytes.
#[inline(never)]
fn numeral(tables: &Tables<'_>, first: usize, text: &[u8]) -> Option<Item>
    requires { StandsAt tables.now.text.now first text.now }
    ensures { IfSome result (IsTaken (shown tables.now) text.now) }
{
    held(tables, text)?;
    let span = in_text(tables, first, text)?;
    Some(Item::Numeral(span))
}

/// What the number at a span is. It takes the call's answer apart, so that what is seen of other values
/// does not go to memory for it.
#[inline(always)]
pub(crate) fn seen_numeral<'d>(tables: &Tables<'_>, span: Span) -> Seen<'d>
    requires { is_flat (shown tables.now) (Numeral span) ≡ true }
    ensures { seen_value result ≡ bare (meaning (shown tables.now) (Numeral span)) }
{
    match numeral_at(tables, span) {
        Some(Number::Whole(whole)) => Seen::Whole(whole),
        Some(Number::Decimal(decimal)) => Seen::Decimal {
            exponent: decimal.exponent,
            coefficient: decimal.coefficient,
        },
        None => Seen::Null,
    }
}

/// The number that the characters at a span write, None where it can't be held.
#[cold]
#[inline(never)]
fn numeral_at(tables: &Tables<'_>, span: Span) -> Option<Number>
    ensures { result ≡ numeral_at (shown tables.now) span }
{
    number_of(bytes_at(tables, span)?)
}
