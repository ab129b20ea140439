//! The evaluation of queries over documents (RFC 9535 section 2.1.2).
//!
//! ```text
//! let document = Document::read(alloc, b"[{\"a\":1},{\"a\":2}]")?;
//! let query = read_query(alloc, "$..a", Profile::Standard)?;
//! evaluate(alloc, &document, &query, &Marks)?;      // $[0]['a'] $[1]['a']
//! nodes(alloc, &document, &query, &Marks).next();   // $[0]['a']
//! ```
//!
//! The contract for the crates above: `nodes` gives the nodes of the query's nodelist, by
//! `specs/Nodelist.antt` and, for what functions answer, `specs/Functions.antt`, in order and with
//! repeats, one at a time, and `evaluate` collects them; `lent_nodes` gives them of a value in
//! whatever form it is lent. `holds_of` tells whether a filter's expression is true of a whole document.
//! A `Plan` tells how much of a document a query is answered from, and reads that: the value at the
//! location that it names, by `specs/Named.antt`, what it asks for, by `specs/Asked.antt`, or all of it. So it
//! does for several queries that are answered together, and for an expression that `holds_of` is given.
//! By `laws` the normalized path of a node of a document, read as a
//! query, selects that node alone, a query selects nodes of the document alone, and a singular one
//! at most one. Nothing that they give depends on a query's profile: one without `distinct` means
//! what it means with the standard's functions alone.
//!
//! An absolute query inside a filter gives the same at each value, and is asked once, before the
//! first node is given. A query inside a filter that is tested, or whose nodes `count` or `value` is
//! given, takes each value once, however many ways lead to it: by `laws` existence goes by sets of
//! nodes, and counts add up.
#![tactic(auto)]

mod asked;
mod calls;
mod compared;
mod each;
mod evaluating;
mod evaluation;
mod evaluation_fault;
mod filter;
mod kind;
pub mod laws;
mod length;
mod lent;
mod location_set;
mod named;
mod operand;
mod pattern;
mod plan;
mod selecting;
mod settled;
mod singular;
mod tally;
mod truth;
mod walk;

pub use each::Nodes;
pub use evaluation::{evaluate, nodes};
pub use evaluation_fault::EvaluationFault;
pub use lent::{LentNodes, lent_nodes, lent_nodes_in, lent_nodes_with};
pub use pattern::Patterns;
pub use plan::Plan;
pub use truth::holds_of;
pub use walk::Frame;
