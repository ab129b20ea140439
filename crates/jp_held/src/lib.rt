//! From bytes to documents, in tables or as a tree (RFC 9535 section 1.1).
//!
//! `read_flat` reads a document into tables, and `read_into` does in the memory of others. `read_portion`
//! reads so much of one as is wanted of it, also in such memory: all, what is asked for, or what stands at
//! a location, which `read_value_into` reads alone, as `read_asked` does what is asked for. Each takes which
//! numbers the document may have. Where tables refuse the bytes, `serde_json` tells why, or `jp_exact` of decimals.
//! `Document::read` makes a tree of the tables of a document of whole numbers, `Document::root` is its root,
//! and `Document::find` the value at the location that `read_path` reads:
//!
//! ```text
//! let document = Document::read(alloc, b"{\"a\":[1,2]}")?;
//! let two = document.find(&read_path(alloc, "$['a'][1]")?);   // 2
//! ```
//!
//! For the layer above: an Ok is the document that the bytes are, and an Err why they are none, with
//! the path of the first number that is not whole, or too much for a decimal.
#![tactic(auto)]

mod document;
mod portion;
mod reading;

pub use document::Document;
pub use portion::{Excerpt, Portion, push_location};
pub use reading::{read_asked, read_flat, read_into, read_portion, read_value_into};
