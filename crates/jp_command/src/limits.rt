//! The limits of a run.

/// The most bytes that a query may have.
pub const QUERY_LIMIT: usize = 1_048_576;

/// The most bytes that a document may have.
pub const DOCUMENT_LIMIT: usize = 16_777_216;

/// The most bytes that one read may give.
pub(crate) const CHUNK_SIZE: usize = 65_536;
