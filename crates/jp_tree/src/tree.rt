//! A query's tree (RFC 9535 sections 2.1 to 2.5).

use crate::function_name::FunctionName;
use jp_decimal::{Decimal, Number};

/// A query: an identifier and segments (RFC 9535 section 2.1).
#[cycle(tree)]
#[derive(Debug, PartialEq, Eq, Drop)]
pub struct Query {
    /// Whether the identifier is `$`, the root, and not `@`, the current node.
    pub absolute: bool,
    pub segments: Vec<Segment>,
}

/// A child segment, or a descendant segment (RFC 9535 section 2.5).
#[cycle(tree)]
#[derive(Debug, PartialEq, Eq, Drop)]
pub struct Segment {
    pub descendant: bool,
    pub selectors: Vec<Selector>,
}

/// A selector (RFC 9535 section 2.3).
#[cycle(tree)]
#[derive(Debug, PartialEq, Eq, Drop)]
pub enum Selector {
    /// The member of that name (section 2.3.1).
    Name(String),
    /// All children (section 2.3.2).
    Wildcard,
    /// The item at that index, counted from the end where it is negative (section 2.3.3).
    Index(Numeral),
    /// Items from a start up to an end, step by step (section 2.3.4).
    Slice(Slice),
    /// The children for which the expression is true (section 2.3.5).
    Filter(Expr),
}

/// The bounds and the step of a slice (RFC 9535 section 2.3.4). An omitted step is 1.
#[derive(Debug, Clone, Copy, PartialEq, Eq)]
pub struct Slice {
    pub start: Option<Numeral>,
    pub end: Option<Numeral>,
    pub step: Numeral,
}

/// A number as a query writes it.
#[derive(Debug, Clone, Copy, PartialEq, Eq)]
pub enum Numeral {
    /// A whole number from -(2^63) to (2^64)-1.
    Whole(i128),
    /// A whole number outside that range: which one, where it is a literal and can be held.
    Beyond(Option<Decimal>),
    /// A literal with a fraction or an exponent: the number that it writes, where that can be held.
    Fraction(Option<Number>),
}

/// A logical expression of a filter (RFC 9535 section 2.3.5.1).
#[cycle(tree)]
#[derive(Debug, PartialEq, Eq, Drop)]
pub enum Expr {
    /// `||`: two parts or more, of which one is true.
    AnyOf(Vec<Expr>),
    /// `&&`: two parts or more, which all are true.
    AllOf(Vec<Expr>),
    /// `!`: its part is not true.
    Not(Box<Expr>),
    /// Two sides and the operator between them.
    Compare {
        left: Operand,
        op: Op,
        right: Operand,
    },
    /// A test expression.
    Test(Subject),
}

/// What a test expression asks for (RFC 9535 section 2.3.5.1).
#[cycle(tree)]
#[derive(Debug, PartialEq, Eq, Drop)]
pub enum Subject {
    /// Whether the query selects a node.
    Query(Query),
    /// Whether the function's answer is true, or has a node.
    Call(Call),
}

/// A side of a comparison (RFC 9535 section 2.3.5.1, comparable).
#[cycle(tree)]
#[derive(Debug, PartialEq, Eq, Drop)]
pub enum Operand {
    Literal(Literal),
    /// The value of the node that a singular query selects, or Nothing.
    Query(Query),
    /// The value that the function answers, or Nothing.
    Call(Call),
}

/// A function expression (RFC 9535 section 2.4).
#[cycle(tree)]
#[derive(Debug, PartialEq, Eq, Drop)]
pub struct Call {
    pub name: FunctionName,
    pub arguments: Vec<Argument>,
}

/// An argument of a function (RFC 9535 section 2.4, function-argument). A literal, a query or a
/// function expression that is all of it is that, and no logical expression.
#[cycle(tree)]
#[derive(Debug, PartialEq, Eq, Drop)]
pub enum Argument {
    Literal(Literal),
    Query(Query),
    Call(Call),
    Logical(Expr),
}

/// A literal (RFC 9535 section 2.3.5.1).
#[derive(Debug, PartialEq, Eq, Drop)]
pub enum Literal {
    Number(Numeral),
    Text(String),
    True,
    False,
    Null,
}

/// A comparison operator (RFC 9535 section 2.3.5.1, comparison-op).
#[derive(Debug, Clone, Copy, PartialEq, Eq)]
pub enum Op {
    Equal,
    Unequal,
    Less,
    LessEqual,
    Greater,
    GreaterEqual,
}
