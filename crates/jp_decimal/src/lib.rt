//! Exact decimal numbers: read from JSON texts (RFC 8259 section 6), compared, and written (RFC
//! 8785 section 3.2.2.3).
//!
//! ```text
//! let price = number_of(b"8.950")?;          // 895 times ten to the -2
//! compare(price, number_of(b"9")?);          // Less
//! push_number(&mut line, price)?;            // 8.95
//! number_of(b"1e2")?;                        // the whole number 100
//! ```
//!
//! For the layer above: a number is held as a whole number of 64 bits, or else as at most 38
//! digits, the last of which is not 0, times a power of ten from -1,000,000 to 1,000,000. So it is
//! held in one form, `==` tells whether two are the same, and nothing is rounded: `number_of`
//! answers None where no number that is held is the one that the text writes. `compare` is exact
//! and total, and the text that `push_number` appends writes the number again (`laws`).
#![tactic(auto)]

mod comparison;
mod digits;
pub mod laws;
mod normal_form;
mod number;
mod numbers;
mod reading;
mod sizes;
mod writing;

pub use comparison::compare;
pub use number::{Decimal, Number};
pub use numbers::Numbers;
pub use reading::number_of;
pub use writing::push_number;
