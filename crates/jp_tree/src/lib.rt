//! The tree of a query (RFC 9535 sections 2.1 to 2.5): what a text spells, and what the crates
//! above check, write and evaluate.
//!
//! ```text
//! // $.a[-1]
//! let segments = vec![in alloc;
//!     Segment { descendant: false, selectors: vec![in alloc; Selector::Name(a)]? },
//!     Segment {
//!         descendant: false,
//!         selectors: vec![in alloc; Selector::Index(Numeral::Whole(-1))]?,
//!     },
//! ]?;
//! let query = Query { absolute: true, segments };
//! ```
//!
//! `specs/Tree.antt` has the tree as the definitions speak of it, and which one each value of these
//! types is. They hold every tree that a query's text spells, and others, such as numbers outside
//! the ranges of the standard. `specs/Functions.antt` has the functions and their names.
#![tactic(auto)]

mod function;
mod function_name;
pub mod laws;
mod tree;

pub use function::Function;
pub use function_name::FunctionName;
pub use tree::{
    Argument, Call, Expr, Literal, Numeral, Op, Operand, Query, Segment, Selector, Slice, Subject,
};
