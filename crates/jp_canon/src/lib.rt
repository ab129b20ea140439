//! Canonical texts of queries (RFC 9535): one spelling for each query.
//!
//! ```text
//! let query = read_query(alloc, "$ .a [ ?(@.b==-0) ]", Standard)?;
//! canon(alloc, &query);    // $['a'][?@['b']==0]
//! ```
//!
//! The contract for the crates above: `canon` gives the text that `specs/Canon.antt` gives the
//! query's tree, in whichever profile it was checked. Read in that profile, the text is accepted as
//! the same tree, and two trees that are accepted, each in some profile, have one canonical text
//! exactly if they are equal (`laws`). `Writer` is the text that it is written to, piece by piece, for
//! whoever writes other texts so.
#![tactic(auto)]

mod calls;
mod canonical;
mod expressions;
pub mod laws;
mod segments;
mod values;
mod writer;

pub use canonical::canon;
pub use writer::Writer;
