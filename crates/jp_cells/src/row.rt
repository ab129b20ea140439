//! Rows.

ghost use Rattle.std.specs.Prelude.{◌≡◌, ◌++◌, ◌==◌, ◌∷◌, [], List, ℕ, OnOk, if◌then◌else◌, length, map};
ghost use Rattle.std.specs.Prelude.{string_bytes};
ghost use Rattle.jp_cells.specs.Rows.{row_end, row_text, separator, shown};

use crate::field::push_field;
use crate::style::{Format, Style};
use std::alloc::AllocError;

/// Appends a row of cells with these texts. Where memory runs out, nothing is said of the row.
pub fn push_row(style: Style, cells: &[&str], row: &mut String) -> Result<(), AllocError>
    ensures { OnOk result (string_bytes row.new
        ≡ string_bytes row.old ++ row_text style (map (λ s. s.now) cells.now)) }
{
    let begin = row.len();
    for (column, cell) in cells.iter().enumerate() {
        push_separator(style.format, column, row)?;
        push_field(style, cell, row)?;
    }
    end_row(style.format, begin, row)
}

/// Appends what stands before the cell of this column, counted from 0: a tab or a comma, but nothing
/// before the first.
pub fn push_separator(format: Format, column: usize, row: &mut String) -> Result<(), AllocError>
    ensures { OnOk result (string_bytes row.new ≡ string_bytes row.old
        ++ (if column == 0 then [] else separator format ∷ [])) }
{
    if column == 0 {
        return Ok(());
    }
    match format {
        Format::Tabs => row.push('\t'),
        Format::Csv => row.push(','),
    }
}

/// Ends the row whose cells stand from `begin` on.
pub fn end_row(format: Format, begin: usize, row: &mut String) -> Result<(), AllocError>
    ensures { OnOk result ((before cells : List ℕ) → string_bytes row.old ≡ before ++ cells
        → length before ≡ begin
        → string_bytes row.new ≡ before ++ (shown format cells ++ row_end format)) }
{
    match format {
        Format::Tabs => row.push('\n'),
        Format::Csv => {
            if row.len() == begin {
                row.push_str("\"\"")?;
            }
            row.push_str("\r\n")
        }
    }
}
