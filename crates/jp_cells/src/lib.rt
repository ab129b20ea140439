//! Cells and rows: what queries select in a document, as a line of a table.
//!
//! A cell shows the values that one query selects, a row the cells of several queries, between tabs or
//! as CSV (RFC 4180). `push_columns` makes the row of a document. `push_field` makes a cell, and
//! `push_separator` and `end_row` put a row together; `push_row` does all of that with texts that are there:
//!
//! ```text
//! let style = Style { format: Format::Csv, raw: true };
//! push_row(style, &["$.id", "$['a,b']"], &mut row)?; // $.id,"$['a,b']"
//! ```
//!
//! `specs/Cells.antt` says what stands in a cell, `specs/Fields.antt` how a cell stands in a row, and
//! `specs/Rows.antt` what a row is.
#![tactic(auto)]

mod columns;
mod fault;
mod field;
mod row;
mod style;

pub use columns::{Room, push_columns};
pub use fault::RowFault;
pub use field::push_field;
pub use row::{end_row, push_row, push_separator};
pub use style::{Format, Style};
