//! The most that may come out of a query.
//!
//! ```text
//! let limit = OutputLimit { nodes: Some(1_000), bytes: None };
//! limit.most_nodes();    // 1000
//! limit.most_bytes();    // 2^64 - 1
//! ```
//!
//! For the layer above: an `OutputLimit` says how many nodes there may be, and how many bytes what is
//! written of them may have. `specs/OutputLimit.antt` says what keeps to it and what goes beyond.
#![tactic(auto)]

mod output_limit;

pub use output_limit::OutputLimit;
