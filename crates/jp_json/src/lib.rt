//! Why bytes are no JSON document, and where (RFC 8259).
//!
//! ```text
//! let told = find_misreading(alloc, b"{\"a\": [1,]}", Numbers::Whole)?;   // Some(..)
//! told.offset;               // 9, in line 1 and column 10
//! told.sentence;             // No comma may come before a closing bracket.
//! ```
//!
//! The contract for the crates above: `find_misreading` answers None only for a document, and else a
//! reason that is of the kind that `specs/Misreading.antt` says; so does `misreading_of`, which is given the
//! fault of the bytes and does not read them for it. Both are told which numbers the document may have. A
//! reason of syntax is told at the end of the longest viable prefix: what is before that byte goes on to a
//! JSON text of at most `LEVEL_LIMIT` levels by the grammar of `specs/Grammar.antt`, and what is before and
//! with the character there goes on to none. The line and the column are those of that byte.
#![tactic(auto)]

mod fractions;
mod lanes;
pub mod laws;
mod levels;
mod machine;
mod misreading;
mod place;
mod reading;
mod reason;
mod reasons;
mod run;
mod scalars;
mod state;
mod utf8;

pub use levels::LEVEL_LIMIT;
pub use misreading::{Misreading, find_misreading, misreading_of};
pub use reason::JsonReason;
