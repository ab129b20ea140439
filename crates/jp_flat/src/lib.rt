//! JSON documents in flat tables (RFC 9535 section 1.1): the parts of their lists and objects side by
//! side, and no tree.
//!
//! `flat_document` reads one, `Flat::value` is its value, and a `FlatValue` is a `Lent` one. A `Room`
//! takes the memory from one document to the next: `Room::read_at` reads a document for the one value
//! at a location, and `Room::read_asked` for what a query asks of it. Each takes which numbers the document
//! may have:
//!
//! ```text
//! let flat = flat_document(alloc, b"{\"a\":[1,2]}")?;
//! let (_, list) = flat.value().member("a")?;     // [1,2]
//! let flat = flat.into_room().read(b"[0.5]", Numbers::Decimal)?;     // the next one, in the same memory
//! let a = OwnedStep::Name(String::from_str(alloc, "a")?);
//! let a0 = &[a, OwnedStep::Index(0)];
//! let found = flat.into_room().read_at(b"{\"a\":[1,2]}", a0, Numbers::Whole)?;     // 1
//! let asked = AskedFor::OfItems(vec![in alloc; String::from_str(alloc, "a")?]?);
//! let flat = found.into_room().read_asked(b"[{\"a\":1,\"b\":2}]", &asked, Numbers::Whole)?;    // [{"a":1}]
//! ```
//!
//! For the layer above: what is read is a document, with its value in `specs/FlatValue.antt`, or what
//! is kept of it in `specs/Asked.antt`, and each call at a value answers as at a `DocumentValue`. Where
//! nothing is read, nothing is said of the bytes: `jp_held`, above this crate, tells what is wrong with
//! them.
#![tactic(auto)]

mod asked;
mod blanks;
mod closing;
mod cursor;
mod escapes;
mod finding;
mod flat;
mod flat_value;
mod form;
mod integer;
mod item;
mod key;
pub mod laws;
mod leaf;
mod lexing;
mod met;
mod moving;
mod no_json;
mod number;
mod numeral;
mod of_tree;
mod parts;
mod passing;
mod picking;
mod reading;
mod rising;
mod runs;
mod sinking;
mod sorting;
mod spans;
mod tables;
mod thinning;
mod token;
mod value_at;

pub use asked::AskedFor;
pub use flat::{Flat, Found, Room, flat_document};
pub use flat_value::FlatValue;
pub use no_json::is_no_json;
