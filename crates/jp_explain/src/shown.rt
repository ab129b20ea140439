//! How a text is shown in one line of a terminal.

ghost use Rattle.std.specs.Prelude.{◌≡◌, ◌<◌, ◌++◌, true, IfOk, OnOk, string_bytes};
ghost use Rattle.std.specs.List.{list_any};
ghost use Rattle.std.specs.Str.{chars};
ghost use Rattle.jp_explain.specs.Shown.{is_hidden, hex_digit, number_shown, shown, shown_character};

use crate::written::write_word;
use jp_canon::Writer;
use std::alloc::{AllocError, Global};

/// Whether a terminal may not show the character as one of the line.
pub(crate) fn is_hidden(c: char) -> bool
    ensures { result ≡ is_hidden c }
{
    matches!(
        c,
        '\0'..='\u{1f}'
            | '\u{7f}'..='\u{a0}'
            | '\u{ad}'
            | '\u{61c}'
            | '\u{200b}'
            | '\u{200e}'..='\u{200f}'
            | '\u{2028}'..='\u{202e}'
            | '\u{2060}'..='\u{206f}'
            | '\u{feff}'
    )
}

/// Whether a terminal may not show some character of the text.
pub(crate) fn has_hidden(text: &[char]) -> bool
    ensures { result ≡ list_any is_hidden text.now }
{
    text.iter().any(|c| is_hidden(*c))
}

/// A lower case hex digit.
fn hex_digit(digit: u32) -> char
    requires { digit < 16 }
    ensures { result ≡ hex_digit digit }
{
    match char::from_digit(digit, 16) {
        Some(c) => c,
        None => '0',
    }
}

/// Writes `\u` and the number of the character in four hex digits.
fn write_number(out: &mut Writer, c: char) -> Result<(), AllocError>
    requires { is_hidden c ≡ true }
    ensures { OnOk result (out.new ≡ out.old ++ number_shown c) }
{
    let number = c as u32;
    write_word(out, "\\u")?;
    out.character(hex_digit(number / 4096))?;
    out.character(hex_digit(number / 256 % 16))?;
    out.character(hex_digit(number / 16 % 16))?;
    out.character(hex_digit(number % 16))
}

/// Writes a character as it is shown.
fn write_character(out: &mut Writer, c: char) -> Result<(), AllocError>
    ensures { OnOk result (out.new ≡ out.old ++ shown_character c) }
{
    match c {
        '\n' => write_word(out, "\\n"),
        '\r' => write_word(out, "\\r"),
        '\t' => write_word(out, "\\t"),
        _ if is_hidden(c) => write_number(out, c),
        _ => out.character(c),
    }
}

/// The text as it is shown: control characters, and others that a terminal does not show as one of
/// the line, by `\n`, `\r`, `\t` or `\u` and four hex digits.
pub(crate) fn show(alloc: Global, text: &[char]) -> Result<String, AllocError>
    ensures { IfOk result (λ s. chars (string_bytes s) ≡ shown text.now) }
{
    let mut out = Writer::new(alloc);
    for c in text {
        write_character(&mut out, *c)?;
    }
    Ok(out.into_text())
}
