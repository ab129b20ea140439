//! Queries of JSONPath (RFC 9535): the reader of their texts, which gives trees of `jp_tree` and
//! the spans of their components.
//!
//! ```text
//! let parsed = parse(alloc, "$.store['book'][0]")?;
//! parsed.query();    // three child segments: a name, a name, an index
//! parsed.spans();    // the index stands from byte 16 up to 17
//! ```
//!
//! The contract for the crates above: `parse` answers a query exactly for the texts that spell one
//! within `LEVEL_LIMIT` levels by the grammar of `specs/Grammar.antt`, with its tree and the spans
//! of its components; and no text spells two. `parse_filter` does the same for the expression of a
//! filter alone.
#![tactic(auto)]

mod calls;
mod expressions;
mod ints;
pub mod laws;
mod lists;
mod literals;
mod names;
mod numbers;
mod operators;
mod parsed;
mod parsed_filter;
mod refusal;
mod segments;
mod selectors;
mod sides;
mod slices;
mod strings;

pub use jp_reading::Span;
pub use jp_tree::{
    Argument, Call, Expr, Literal, Numeral, Op, Operand, Query, Segment, Selector, Slice, Subject,
};
pub use parsed::{LEVEL_LIMIT, Parsed, parse};
pub use parsed_filter::{ParsedFilter, parse_filter};
pub use refusal::{Refusal, RefusalKind};
