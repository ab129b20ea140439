//! JSONPath (RFC 9535) for programs: all that a caller needs, in one place.
//!
//! **One call.** `find` takes a document as bytes and a query as text, and gives each selected node
//! as two texts, its normalized path and its value:
//!
//! ```text
//! let found = find(alloc, b"{\"a\":[1,2]}", "$.a[-1]", Standard)?;
//! found[0].path;     // $['a'][1]
//! found[0].value;    // 2
//! ```
//!
//! A query from a stranger may need as long as it likes: `find_within` finds in the `Steps` that it is
//! given, and says `StepsUsedUp` where they do not suffice. What is left of them tells how many it made. It may
//! also select more than the caller has room for: an `OutputLimit` says how many nodes there may be, and how many
//! bytes their paths and values may have.
//!
//! **Step by step.** A document that is asked more than once is read once, and so is a query:
//!
//! ```text
//! let document = Document::read(alloc, b"{\"a\":[1,2]}")?;
//! let query = read_query(alloc, "$.a[-1]", Standard)?;
//! for node in evaluate(alloc, &document, &query, &Marks)? {
//!     path_text(alloc, node.location())?;    // $['a'][1]
//!     value_text(alloc, node.value())?;      // 2
//! }
//! ```
//!
//! - `Document::read` takes whole numbers of 64 bits alone; a `DocumentFault` says what is wrong
//!   with other bytes, and of a number that is not whole its path.
//! - `read_query` reads a query in a `Profile`: `Standard` is RFC 9535, and `Extended` has the
//!   function `distinct` besides. A `Refusal` has a kind and a place, the byte of the query's text
//!   where it goes wrong. `canon` gives the one canonical text of a query.
//! - `evaluate` gives the nodelist, and `nodes` the same nodes one at a time, for who needs the
//!   first alone. `find_nodes` reads a query and gives its nodelist. The nodes borrow from the
//!   document and copy nothing of it.
//! - `Marks` is the matcher, for `match` and `search`: over a text of c characters it makes at most
//!   p times c tests of a character for a pattern of p positions, if these are at most 4,096. A
//!   program needs no other.
//! - A node has a location, which is a list of `Step`s, and a value. `path_text` and `value_text`
//!   write them. `read_path` reads a path again, and `Document::find` finds the value there.
//! - Numbers, texts, lists and members stand in a `Json`, to be taken apart by `match`.
//!
//! Every call that takes memory takes an allocator, and running out of memory is an error of its
//! own. The contract for the layer above: `find`, `find_within` and `find_nodes` give exactly the
//! nodelist of the query that the text is accepted as, over the document that the bytes are, or say
//! why there is none (`specs/Find.antt`).
#![tactic(auto)]

mod fault;
mod finding;
mod size;

pub use fault::FindFault;
pub use finding::{Match, find, find_nodes, find_within};
pub use jp_canon::canon;
pub use jp_check::{Checked, Profile, read_query};
pub use jp_document::{
    DocumentFault, Json, Member, Node, OwnedLocation, OwnedStep, PathFault, Step, child_at,
    child_named, children, path_text, read_path,
};
pub use jp_evaluate::{Nodes, evaluate, nodes};
pub use jp_held::Document;
pub use jp_lent::value_text;
pub use jp_limit::OutputLimit;
pub use jp_match::{Marks, Matching};
pub use jp_query::{Refusal, RefusalKind};
pub use jp_select::Steps;
pub use size::{TOO_MANY_BYTES, check_size};
