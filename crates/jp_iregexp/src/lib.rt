//! Patterns of I-Regexp (RFC 9485): their trees, the reader of their texts, and the characters that
//! a class holds.
//!
//! ```text
//! let pattern = read_pattern(alloc, "a|[^-b-d]")?;  // an Either of two Sequences, a Class each
//! class.holds('c');                                 // of the second class: false
//! ```
//!
//! The contract for the crates above: `read_pattern` answers a pattern exactly for the texts that
//! spell one by the grammar of `specs/Grammar.antt` within the limit of groups, and no text spells
//! two. `CharClass::holds` is `class_holds` of `specs/Class.antt`, by the general categories of
//! `unicode`. `positions` is `positions_of` of `specs/Positions.antt`, at most 4,097. `Language` of
//! `specs/Language.antt` says which words a pattern stands for.
#![tactic(auto)]

mod brackets;
mod branches;
mod category;
mod characters;
mod class;
mod fault;
pub mod laws;
mod pattern;
mod position_count;
mod quantifiers;
mod read;

pub use category::Category;
pub use class::{CharClass, ClassElement};
pub use fault::PatternFault;
pub use pattern::Pattern;
pub use position_count::positions;
pub use read::{GROUP_LIMIT, read_pattern};
