//! The value of a JSON document whose numbers are exact decimals, or what is wrong with bytes that are
//! none, and where.
//!
//! ```text
//! exact_value(alloc, b"{\"price\":8.95}")?;     // {"price":8.95}
//! exact_value(alloc, b"[1,1e9999999]");         // NumberRange at $[1]
//! ```
//!
//! For the layer above: `exact_value` accepts exactly the exact documents, with the value of each, and
//! of other bytes names the one defect that they have (`laws`). It makes a tree of the text and then a
//! value of the tree, so it is for bytes of which a quicker reader can't tell. `read_value` is that or
//! `parsed_value`, by which numbers a document may have.
#![tactic(auto)]

mod conversion;
pub mod laws;
mod members;
mod range_fault;
mod reading;

pub use reading::{exact_value, read_value};
