//! What a JSON document is whose numbers are whole, its nodes, and normalized paths (RFC 9535).
//!
//! `parsed_value` takes the value of a document from bytes, `child_named` and `child_at` go from a
//! node to its children, a `DocumentValue` to the values inside it, and `path_text` prints a
//! location, which `read_path` reads again:
//!
//! ```text
//! let json = parsed_value(alloc, b"{\"a\":[1,2]}")?;     // {"a":[1,2]}
//! let location = read_path(alloc, "$['a'][1]")?;         // the steps "a" and 1
//! ```
//!
//! For the layer above: `parsed_value` accepts exactly the documents and names the first number
//! that is no whole one; each node that these calls give stands in its document, with the
//! document's own value; paths are exact, and `read_path` accepts exactly the normalized paths
//! without an index above (2^53)-1, of which no two locations have the same.
#![tactic(auto)]

mod characters;
mod child_nodes;
mod document_value;
mod fault;
pub mod laws;
mod location;
mod name_reader;
mod node;
mod path;
mod path_fault;
mod path_reader;
mod reading;
mod spelling;
mod text;
mod value;
mod value_fault;

pub use child_nodes::children;
pub use document_value::DocumentValue;
pub use fault::DocumentFault;
pub use location::{OwnedLocation, OwnedStep, Step};
pub use node::{Node, child_at, child_named};
pub use path::{path_text, push_path, push_quote, push_step, quote};
pub use path_fault::PathFault;
pub use path_reader::read_path;
pub use reading::parsed_value;
pub use text::{push_decimal, push_integer, push_text};
pub use value::{Json, Member};
