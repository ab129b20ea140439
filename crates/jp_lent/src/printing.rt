//! The compact text of values: JSON (RFC 8259) without blank space.

ghost use Rattle.std.specs.Prelude.{◌≡◌, ◌==◌, ◌<◌, ◌++◌, ◌∷◌, [], if◌then◌else◌, IfOk, OnOk};
ghost use Rattle.std.specs.Prelude.{string_bytes};
ghost use Rattle.std.specs.List.{join_with_byte};
ghost use Rattle.jp_decimal.specs.Appended.{IsBegun};
ghost use Rattle.jp_document.specs.Location.{entries, step_of};
ghost use Rattle.jp_document.specs.Text.{text_of};
ghost use Rattle.jp_lent.specs.Lending.{step_with};
ghost use Rattle.jp_lent.specs.Private.Printing.{enclosed, name_text, part_text, part_texts};

use crate::lent::Lent;
use crate::seen::Seen;
use jp_document::{Step, push_decimal, push_integer, push_text};
use std::alloc::{AllocError, Global};

/// The compact text of a value. The only error is that memory ran out.
pub fn value_text<'d, V: Lent + 'd>(alloc: Global, value: V) -> Result<String, AllocError>
    ensures { IfOk result (λ s. string_bytes s ≡ text_of (V.meaning value)) }
{
    let mut text = String::new(alloc);
    push_value(&mut text, value)?;
    Ok(text)
}

/// Appends the compact text of a value. Where memory runs out, the text still begins with what it
/// held, and only a beginning of the value's text stands after it.
#[cycle(printing)]
#[inline(always)]
pub fn push_value<'d, V: Lent + 'd>(out: &mut String, value: V) -> Result<(), AllocError>
    ensures ok { OnOk result
        (string_bytes out.new ≡ string_bytes out.old ++ text_of (V.meaning value)) }
    ensures kept { IsBegun (string_bytes out.old) (text_of (V.meaning value))
        (string_bytes out.new) }
{
    match value.seen() {
        Seen::Null => out.push_str("null"),
        Seen::Bool(true) => out.push_str("true"),
        Seen::Bool(false) => out.push_str("false"),
        Seen::Whole(number) => push_integer(out, number),
        Seen::Decimal {
            exponent,
            coefficient,
        } => push_decimal(out, coefficient, exponent),
        Seen::Text(text) => push_text(out, text),
        Seen::List => push_copy(out, b'[', value, b']'),
        Seen::Members => push_copy(out, b'{', value, b'}'),
    }
}

/// `push_enclosed` of a copy of the value, so that a value without parts does not go to memory for it.
#[cycle(printing)]
#[inline(always)]
fn push_copy<'d, V: Lent + 'd>(
    out: &mut String,
    opening: u8,
    value: V,
    closing: u8,
) -> Result<(), AllocError>
    requires opening { opening < 128 }
    requires closing { closing < 128 }
    ensures ok { OnOk result (string_bytes out.new
        ≡ string_bytes out.old ++ enclosed opening closing (V.meaning value)) }
    ensures kept { IsBegun (string_bytes out.old) (enclosed opening closing (V.meaning value))
        (string_bytes out.new) }
{
    let copy = value;
    push_enclosed(out, opening, copy, closing)
}

/// Appends the texts of the parts between two marks. It stands apart, so that values without parts are
/// written where they are met.
#[cycle(printing)]
#[inline(never)]
fn push_enclosed<'d, V: Lent + 'd>(
    out: &mut String,
    opening: u8,
    value: V,
    closing: u8,
) -> Result<(), AllocError>
    requires opening { opening < 128 }
    requires closing { closing < 128 }
    ensures ok { OnOk result (string_bytes out.new
        ≡ string_bytes out.old ++ enclosed opening closing (V.meaning value)) }
    ensures kept { IsBegun (string_bytes out.old) (enclosed opening closing (V.meaning value))
        (string_bytes out.new) }
{
    push_mark(out, opening)?;
    push_parts(out, value)?;
    push_mark(out, closing)
}

/// Appends one ASCII character, such as a bracket or a brace.
#[inline(always)]
fn push_mark(out: &mut String, mark: u8) -> Result<(), AllocError>
    requires { mark < 128 }
    ensures ok { OnOk result (string_bytes out.new ≡ string_bytes out.old ++ mark ∷ []) }
    ensures kept { IsBegun (string_bytes out.old) (mark ∷ []) (string_bytes out.new) }
{
    out.push(char::from(mark))
}

/// Appends the texts of the parts.
#[cycle(printing)]
#[inline(always)]
fn push_parts<'d, V: Lent + 'd>(out: &mut String, value: V) -> Result<(), AllocError>
    ensures ok { OnOk result (string_bytes out.new ≡ string_bytes out.old
        ++ join_with_byte 44 (part_texts (entries (V.meaning value)))) }
    ensures kept { IsBegun (string_bytes out.old)
        (join_with_byte 44 (part_texts (entries (V.meaning value)))) (string_bytes out.new) }
{
    let mut position = 0;
    while let Some(part) = value.child(position) {
        push_comma(out, position)?;
        push_part(out, part)?;
        position += 1;
    }
    Ok(())
}

/// Appends a value, of a member behind its name and a colon.
#[cycle(printing)]
#[inline(always)]
fn push_part<'d, V: Lent + 'd>(out: &mut String, part: (Step<'d>, V)) -> Result<(), AllocError>
    ensures ok { OnOk result (string_bytes out.new
        ≡ string_bytes out.old ++ part_text (step_with V.meaning part.entry)) }
    ensures kept { IsBegun (string_bytes out.old) (part_text (step_with V.meaning part.entry))
        (string_bytes out.new) }
{
    push_name(out, part.0)?;
    push_value(out, part.1)
}

/// Appends the name of a member and a colon; of an item nothing.
#[inline(always)]
fn push_name(out: &mut String, step: Step<'_>) -> Result<(), AllocError>
    ensures ok { OnOk result (string_bytes out.new ≡ string_bytes out.old ++ name_text (step_of step.entry)) }
    ensures kept { IsBegun (string_bytes out.old) (name_text (step_of step.entry))
        (string_bytes out.new) }
{
    match step {
        Step::Name(name) => {
            push_text(out, name)?;
            out.push(':')
        }
        Step::Index(_) => Ok(()),
    }
}

/// Appends the comma before the part at this position: none before the first.
#[inline(always)]
fn push_comma(out: &mut String, position: usize) -> Result<(), AllocError>
    ensures ok { OnOk result (string_bytes out.new
        ≡ string_bytes out.old ++ (if position == 0 then [] else 44 ∷ [])) }
    ensures kept { IsBegun (string_bytes out.old) (if position == 0 then [] else 44 ∷ [])
        (string_bytes out.new) }
{
    if position > 0 { out.push(',') } else { Ok(()) }
}
