//! Values as plain data.

/// A JSON value. The numbers of a document are whole.
#[cycle(json)]
#[derive(Drop)]
pub enum Json {
    Null,
    Bool(bool),
    Whole(i128),
    /// Any other number: the coefficient times ten to the exponent.
    Decimal { exponent: i32, coefficient: i128 },
    Text(String),
    List(Vec<Json>),
    Members(Vec<Member>),
}

/// A named value of an object.
#[cycle(json)]
#[derive(Drop)]
pub struct Member {
    pub name: String,
    pub value: Json,
}
