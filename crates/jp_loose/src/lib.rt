//! A box as its pointer, for a struct that C holds: no `Box` can be passed to C.
//!
//! ```text
//! let loose = Loose::of(Box::new(alloc, 7u32)?);
//! let boxed = loose.into_box();    // the same box, which holds 7
//! ```
//!
//! For the layer above: a `Loose` owns the box with its value. It is taken apart and made again where
//! `at` is kept as a plain pointer, which asks for a proof by hand there, and is never dropped. The same
//! where the pointer goes on as one to other values: `proofs/Emptied.antt` has what a box of a vector with
//! nothing in it owns, which is the same for values of other lifetimes.
#![tactic(auto)]

mod loose;

pub use loose::Loose;
