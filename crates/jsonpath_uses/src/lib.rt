//! What callers of `jsonpath` write: the first match or a default, whether there is any, all paths,
//! the value at a path, a filter with `match`, and a refusal shown with a caret under its place.
//!
//! Each is short enough to be copied into a program, and its contract says what it answers.
#![tactic(auto)]

mod caret;
mod filter;
mod first;
mod paths;

pub use caret::show_refusal;
pub use filter::{BORN_IN_THE_1800S, ids_of_the_1800s};
pub use first::{first_or, is_any};
pub use paths::{all_paths, value_at_path};
