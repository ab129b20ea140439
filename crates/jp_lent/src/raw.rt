//! Values that are written raw: strings by their characters.

ghost use Rattle.std.specs.Prelude.{◌≡◌, ◌++◌, OnOk, option_map, string_bytes};
ghost use Rattle.jp_lent.specs.Raw.{characters_of, raw_text};

use crate::lent::Lent;
use crate::printing::push_value;
use crate::seen::Seen;
use std::alloc::AllocError;

/// Appends a value raw: a string (RFC 8259 section 7) by its characters, without quotes and escapes, any
/// other value by its compact text. The only error is that memory ran out; then nothing is said of the text.
#[inline(always)]
pub fn push_raw<'d, V: Lent + 'd>(out: &mut String, value: V) -> Result<(), AllocError>
    ensures { OnOk result (string_bytes out.new
        ≡ string_bytes out.old ++ raw_text (V.meaning value)) }
{
    match characters_of(value) {
        Some(characters) => out.push_str(characters),
        None => push_value(out, value),
    }
}

/// The characters of a string.
#[inline(always)]
fn characters_of<'d, V: Lent + 'd>(value: V) -> Option<&'d str>
    ensures { option_map (λ s. s.now) result ≡ characters_of (V.meaning value) }
{
    match value.seen() {
        Seen::Text(text) => Some(text),
        _ => None,
    }
}
