//! Reading texts by a grammar: a `Reader` goes over a text character by character, knows the byte
//! where it stands, and keeps the spans of the components that it has passed. Functions over it take a
//! rule's text each:
//!
//! ```text
//! let mut reader = Reader::new(alloc, "[7]");
//! reader.expect('[')?;
//! let seven = natural(&mut reader, 1000)?;
//! reader.expect(']')?;
//! ```
//!
//! The contract for a crate above: its rules, in its own `specs/`, are values of `Rule`, or
//! functions from `State` to `Outcome`; each reading function answers `Gives`; and `proofs/` here
//! has what turns such rules into the texts that a grammar's forms speak of.
#![tactic(auto)]

mod character_class;
mod numbers;
mod reader;
mod span;

pub use character_class::CharacterClass;
pub use numbers::{LARGEST_EXACT, digit, is_at_digit, natural};
pub use reader::{Reader, Stop, split_first};
pub use span::Span;
