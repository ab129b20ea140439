//! What selectors and descendant segments select, and how values compare (RFC 9535 sections 2.3 and
//! 2.5.2).
//!
//! ```text
//! let value = parsed_value(alloc, b"[5,3,[8]]")?;
//! let root = Node::of(Vec::new(alloc), DocumentValue::of(&value));
//! select_plain(alloc, &root, &Selector::Wildcard)?;   // $[0] $[1] $[2]
//! descend(alloc, root)?;                              // $ $[0] $[1] $[2] $[2][0]
//! let five = Comparable::of(Some(&Json::Whole(5)));
//! compare(Op::Less, Comparable::Whole(3), five, &mut Steps::at_most(1))?;    // true
//! ```
//!
//! For the layer above: `select_plain` gives the nodes that the standard has for the selector at a
//! node, in its order, and `descend` the node and all its descendants, in document order;
//! `descend_each` gives these one by one. By `laws` they are nodes of each document in which the
//! node stands.
//! `candidate` is what a selector chooses from at a value, position by position, without a list.
//! `compare` answers what the standard has for an operator between two values, or Nothing, and
//! takes no memory. Both take values in whatever form they are lent. `Steps` says how much work may
//! still be done, and counts it down.
#![tactic(auto)]

mod candidates;
mod comparable;
mod comparison;
mod descent;
pub mod laws;
mod selector;
mod slice;
mod steps;

pub use candidates::{candidate, single, slice_place};
pub use comparable::Comparable;
pub use comparison::{compare, compare_lent, compare_to_whole, equal, less};
pub use descent::{Descent, descend, descend_each};
pub use selector::select_plain;
pub use steps::{Steps, Stopped};
