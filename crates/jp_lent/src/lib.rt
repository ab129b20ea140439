//! Values that are lent, in whatever form their document is held (RFC 9535 section 1.1).
//!
//! A `Lent` value is looked at from outside by `seen` and `list_length`, and gone on from by `child`
//! and `member`; it copies nothing. What it stands for is its ghost `meaning`, in whose words each
//! call answers, so that what is built on `Lent` is proved once for all forms:
//!
//! ```text
//! fn is_true<V: Lent>(value: V) -> bool {
//!     matches!(value.seen(), Seen::Bool(true))
//! }
//! ```
//!
//! `DocumentValue` is such a form, and so is a `&Json`, which need not be of a document. In a document
//! names rise. Where they do not, `==` (`equals` of jp_select) still goes member by member, in their
//! order, so that two objects with the same members in another order are not equal.
#![tactic(auto)]

mod copying;
mod document_form;
mod json_form;
mod lent;
mod printing;
mod raw;
mod seen;

pub use copying::json_of;
pub use lent::{Lent, Selectable};
pub use printing::{push_value, value_text};
pub use raw::push_raw;
pub use seen::Seen;
