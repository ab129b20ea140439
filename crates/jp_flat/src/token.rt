//! What a text is read as, one after another (RFC 8259 section 2).

/// A text between quotes as a document spells it: by itself, from its first byte on, or with
/// escapes, and then with the whole document from its first quote on.
#[derive(Clone, Copy, Drop)]
pub(crate) enum Spelled<'t> {
    Plain(usize, &'t [u8]),
    Escaped(&'t [u8]),
}

/// A token. The colon behind a key goes with it, and so does the comma behind a value. A number has
/// its characters, and the number that its digits write, if they are at most 18. `Numeral` is one by
/// its characters alone, from an offset on.
#[derive(Clone, Copy, Drop)]
pub(crate) enum Token<'t> {
    BeginArray,
    EndArray,
    BeginObject,
    EndObject,
    Key(Spelled<'t>),
    Text(Spelled<'t>),
    Number(&'t [u8], u64),
    Numeral(usize, &'t [u8]),
    Bool(bool),
    Null,
}
