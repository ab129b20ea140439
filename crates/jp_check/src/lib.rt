//! Which queries are accepted in a profile: those without a fault of numbers or types (RFC 9535
//! sections 2.1, 2.3.5.1 and 2.4.3). The profile says which functions there are, and which numbers.
//!
//! ```text
//! let checked = read_query(alloc, "$.store['book'][0]", Standard)?;
//! checked.query();                                    // the query's tree
//! checked.profile();                                  // Standard
//! read_query(alloc, "$[9007199254740992]", Standard)  // refused: IndexRange at 2
//! read_query(alloc, "$[?@.*==1]", Standard)           // refused: NotSingular at 3
//! read_query(alloc, "$[?value(@..color)]", Standard)  // refused: IllTyped at 3
//! read_query(alloc, "$[?distinct(@.*)]", Standard)    // refused: UnknownFunction at 3
//! read_query(alloc, "$[?distinct(@.*)]", Extended)    // accepted
//! read_query(alloc, "$[?@<8.95]", Standard)           // refused: NotWhole at 5
//! read_query(alloc, "$[?@<8.95]", Decimal)            // accepted
//! ```
//!
//! The contract for the crates above: `read_query` answers a tree exactly for the texts that are
//! accepted as it in the profile, by `specs/Accepted.antt`; each other text is refused as the
//! parser refuses it, or with its first fault. `read_filter` does the same with the expression of a
//! filter alone. What is accepted in `Standard` is accepted in `Extended`, and what is accepted over
//! whole numbers is accepted over decimals (`laws`).
#![tactic(auto)]

mod checked;
mod checked_filter;
mod faults;
mod functions;
mod inspection;
pub mod laws;
mod needs;
mod profile;
mod ranges;
mod singular;

pub use checked::{Checked, check, read_query};
pub use checked_filter::{CheckedFilter, read_filter};
pub use jp_tree::Function;
pub use needs::{Needs, may_meet};
pub use profile::Profile;
