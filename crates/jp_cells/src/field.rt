//! How a cell stands in a row.

ghost use Rattle.std.specs.Prelude.{◌≡◌, ◌++◌, ◌<◌, ◌≤◌, OnOk, length, position, slice_index};
ghost use Rattle.std.specs.Prelude.{string_bytes, take};
ghost use Rattle.std.specs.List.{flat_map, list_any};
ghost use Rattle.jp_cells.specs.Fields.{calls_for_quotes, field_text, in_quotes, spelling};
ghost use Rattle.jp_cells.specs.Private.Marks.{is_marked};

use crate::style::{Format, Style};
use std::alloc::AllocError;

/// Appends a cell of this text as it stands in a row. Where memory runs out, nothing is said of the row.
pub fn push_field(style: Style, text: &str, row: &mut String) -> Result<(), AllocError>
    ensures { OnOk result (string_bytes row.new ≡ string_bytes row.old ++ field_text style text.now) }
{
    match style.format {
        Format::Tabs => {
            if style.raw {
                push_spelled(Format::Tabs, text, row)
            } else {
                row.push_str(text)
            }
        }
        Format::Csv => {
            if calls_for_quotes(text.as_bytes()) {
                push_in_quotes(text, row)
            } else {
                row.push_str(text)
            }
        }
    }
}

/// Whether some byte can't stand in a field without quotes.
fn calls_for_quotes(text: &[u8]) -> bool
    ensures { result ≡ list_any calls_for_quotes text.now }
{
    text.iter()
        .any(|byte| matches!(*byte, b',' | b'"' | b'\r' | b'\n'))
}

/// Appends a field between quotes.
fn push_in_quotes(text: &str, row: &mut String) -> Result<(), AllocError>
    ensures { OnOk result (string_bytes row.new ≡ string_bytes row.old ++ in_quotes text.now) }
{
    row.push('"')?;
    push_spelled(Format::Csv, text, row)?;
    row.push('"')
}

/// Appends each character as the format spells it. What needs no spelling of its own is copied in whole
/// runs.
fn push_spelled(format: Format, text: &str, row: &mut String) -> Result<(), AllocError>
    ensures { OnOk result (string_bytes row.new
        ≡ string_bytes row.old ++ flat_map (spelling format) text.now) }
{
    let mut rest = text;
    'runs: loop {
        let (plain, marked) = rest.split_at(plain_len(format, rest.as_bytes()));
        row.push_str(plain)?;
        let Some(first) = marked.as_bytes().first() else {
            return Ok(());
        };
        push_marked(format, *first, row)?;
        rest = marked.split_at(1).1;
    }
}

/// How many bytes at the start stand for themselves.
fn plain_len(format: Format, text: &[u8]) -> usize
    ensures within { result ≤ length text.now }
    ensures plain { flat_map (spelling format) (take result text.now) ≡ take result text.now }
    ensures ascii { result < length text.now → slice_index text.now result < 128 }
{
    first_marked(format, text).unwrap_or(text.len())
}

/// The first byte that the format has a spelling for.
fn first_marked(format: Format, text: &[u8]) -> Option<usize>
    ensures { result ≡ position (is_marked format) text.now }
{
    text.iter().position(|byte| is_marked(format, *byte))
}

/// Whether the format has a spelling for the byte.
fn is_marked(format: Format, byte: u8) -> bool
    ensures { result ≡ is_marked format byte }
{
    match format {
        // Small letters stand behind the last of those that have a spelling.
        Format::Tabs if byte > b'\\' => false,
        Format::Tabs => matches!(byte, b'\t' | b'\n' | b'\r' | b'\\'),
        Format::Csv => byte == b'"',
    }
}

/// Appends the spelling of a byte that has one, or of another in ASCII.
fn push_marked(format: Format, byte: u8, row: &mut String) -> Result<(), AllocError>
    requires { byte < 128 }
    ensures { OnOk result (string_bytes row.new ≡ string_bytes row.old ++ spelling format byte) }
{
    match (format, byte) {
        (Format::Tabs, b'\t') => row.push_str("\\t"),
        (Format::Tabs, b'\n') => row.push_str("\\n"),
        (Format::Tabs, b'\r') => row.push_str("\\r"),
        (Format::Tabs, b'\\') => row.push_str("\\\\"),
        (Format::Csv, b'"') => row.push_str("\"\""),
        _ => row.push(char::from(byte)),
    }
}
