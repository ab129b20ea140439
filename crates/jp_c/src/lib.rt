//! jp for C and for all that calls C: a query over a document in one call, or by way of handles, which
//! keep a query or a document from one call to the next.
//!
//! Each call takes bytes and numbers, writes the text that is asked for into a buffer of the
//! caller's, and fills a `Report`. The buffer is filled from its start where it has room for the
//! whole text, and else is left as it was; the report says in each case how long the text is, so a
//! caller with too little room calls again. `bindings/c/jp.h` has the calls as C sees them, with
//! what a caller owes, which nothing checks.
//!
//! The contract of each: there is an `Outcome` of the kind that the definitions of the crates below
//! allow (`specs/Calls.antt`), within the call's limit of steps, nodes and bytes (`specs/Limit.antt`), and
//! the status, the report and the buffer are the ones of that outcome (`specs/Outcome.antt`); where bytes
//! that are no document go wrong (`specs/Misread.antt`); and what each handle keeps then
//! (`specs/Handles.antt`).
#![tactic(auto)]

mod asked;
mod asker;
mod asking;
mod emptied;
mod explained;
mod exports;
mod given_up;
mod handle;
mod held;
mod keeping;
mod kept;
mod lent;
mod limit;
mod many;
mod memory;
mod misread;
mod names;
mod numbers;
mod outcome;
mod planned;
mod refused;

pub use asking::{jp_ask, jp_ask_document};
pub use explained::{Part, jp_explain};
pub use exports::{VERSION, jp_canon, jp_check, jp_eval, jp_version};
pub use handle::Handle;
pub use held::Held;
pub use keeping::{jp_clear, jp_document_new, jp_query_new};
pub use kept::{Asker, Kept, KeptDocument};
pub use lent::Lent;
pub use limit::Limit;
pub use many::{Question, jp_eval_many};
pub use misread::{DocumentPart, Place, jp_explain_document};
pub use names::jp_kind_name;
pub use outcome::{Outcome, Report};
