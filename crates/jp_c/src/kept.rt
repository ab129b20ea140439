//! What a handle keeps.

use crate::memory::Memory;
use crate::planned::Planned;
use jp_decimal::Numbers;
use jp_flat::Flat;

/// What a handle keeps.
#[derive(Drop)]
pub enum Kept {
    /// A query that is accepted, with the memory of what is asked with it.
    Query(Asker),
    /// A document, with the numbers that it was read with.
    Document(KeptDocument),
}

/// A query that is accepted, with what is read of documents for it, and the memory of what is asked with it.
#[derive(Drop)]
pub struct Asker {
    pub(crate) query: Planned,
    pub(crate) memory: Memory,
}

/// A document, with the numbers that it was read with.
#[derive(Drop)]
pub struct KeptDocument {
    pub(crate) flat: Flat<'static>,
    pub(crate) numbers: Numbers,
}
