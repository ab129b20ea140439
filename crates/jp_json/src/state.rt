//! What a JSON text goes on with.

/// An array or an object that is not closed yet.
#[derive(Clone, Copy, Debug, PartialEq, Eq)]
pub(crate) enum Level {
    Array,
    Object,
}

/// What a string is: the name of a member, or a value.
#[derive(Clone, Copy, Debug, PartialEq, Eq)]
pub(crate) enum Role {
    Key,
    Plain,
}

/// The part of a number that was read last (RFC 8259 section 6).
#[derive(Clone, Copy, Debug, PartialEq, Eq)]
pub(crate) enum Part {
    Minus,
    Zero,
    Whole,
    Point,
    Fraction,
    Exponent,
    Sign,
    Power,
}

/// The letters that `true`, `false` or `null` still wants (section 3).
#[derive(Clone, Copy, Debug, PartialEq, Eq)]
pub(crate) enum Letters {
    Rue,
    Ue,
    E,
    Alse,
    Lse,
    Se,
    Ull,
    Ll,
    L,
}

/// How many of the four hexadecimal digits of an escape are still wanted (section 7).
#[derive(Clone, Copy, Debug, PartialEq, Eq)]
pub(crate) enum Wanted {
    Four,
    Three,
    Two,
    Last,
}

/// What comes next in the array or object that is open, or in the text.
#[derive(Clone, Copy, Debug, PartialEq, Eq)]
pub(crate) enum State {
    /// A value.
    Value,
    /// The first value of an array, or its end.
    Item,
    /// The first member of an object, or its end.
    Member,
    /// A member.
    Name,
    /// A colon.
    Colon,
    /// A comma, or an end.
    After,
    /// A character of a string, or its end.
    Text(Role),
    /// What is after a backslash.
    Escape(Role),
    /// Hexadecimal digits of an escape.
    Hex(Role, Wanted),
    /// More of a number, or what is after it.
    Number(Part),
    /// Letters of a literal name.
    Letters(Letters),
}

/// What a character does to what is open.
#[derive(Clone, Copy, Debug, PartialEq, Eq)]
pub(crate) enum Step {
    /// It changes nothing, and this comes next.
    Go(State),
    /// It opens a level.
    Open(Level),
    /// It closes the innermost level.
    Close,
    /// No JSON text goes on with it.
    Stuck,
}
