//! Values, as seen from outside.

/// What a value is, without what is in it.
#[derive(Clone, Copy)]
pub enum Seen<'d> {
    Null,
    Bool(bool),
    Whole(i128),
    /// Any other number: the coefficient times ten to the exponent.
    Decimal { exponent: i32, coefficient: i128 },
    Text(&'d str),
    List,
    Members,
}
