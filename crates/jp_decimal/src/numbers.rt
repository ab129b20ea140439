//! Which numbers there are, in documents and in queries.

/// Which numbers a document or a query may have.
#[derive(Debug, Clone, Copy, PartialEq, Eq)]
pub enum Numbers {
    /// Whole numbers of 64 bits, from -(2^63) to (2^64)-1, written without a fraction and an exponent.
    Whole,
    /// Each number that a text of JSON writes (RFC 8259 section 6), exactly: a whole number of 64 bits, or
    /// at most 38 digits, from the first to the last that is not 0, times a power of ten from -1,000,000 to
    /// 1,000,000.
    Decimal,
}
