//! Why a query is refused, and where.

ghost use Rattle.std.specs.Prelude.{◌≡◌};
ghost use Rattle.jp_query.specs.Refusal.{number_of, name_of};

use jp_reading::Stop;
use std::fmt;
use thiserror::Error;

/// Why a query is refused, and where.
#[derive(Debug, Clone, Copy, PartialEq, Eq, Error)]
pub struct Refusal {
    pub kind: RefusalKind,
    /// The byte offset in the query's text, from 0; the text's end has the text's length.
    pub place: usize,
}

/// The kinds of refusal, numbered from 1 in this order.
#[derive(Debug, Clone, Copy, PartialEq, Eq, Error)]
pub enum RefusalKind {
    /// The text is no query: at the end of its longest viable prefix, or at its end.
    Syntax,
    /// More filters, parentheses and calls are inside one another than `LEVEL_LIMIT`: at the `?` or
    /// `(` of the level too many, or at the character by which a word is a function's name.
    TooDeep,
    /// A literal with a fraction or an exponent, where numbers are whole.
    NotWhole,
    /// A literal that can't be held: where numbers are whole, one outside -(2^63) to (2^64)-1; where they
    /// are decimals, one that has more than 38 digits, or whose power of ten is out of range.
    NumberRange,
    /// An index or a part of a slice outside -(2^53)+1 to (2^53)-1 (RFC 9535 section 2.1).
    IndexRange,
    /// A call of a function that is none of RFC 9535 section 2.4.
    UnknownFunction,
    /// A call with another number of arguments than the function has parameters (section 2.4.3).
    ArgumentCount,
    /// A query that stands for one value and is not singular (section 2.3.5.1).
    NotSingular,
    /// A call or an argument that does not fit the type that is wanted there (section 2.4.3).
    IllTyped,
    /// Memory ran out, at place 0.
    NoMemory,
    /// A text longer than the program takes, at place 0.
    TextTooLong,
}

impl From<Stop> for Refusal {
    ghost use Rattle.std.specs.Prelude.{◌≡◌};
    ghost use Rattle.jp_query.specs.Private.Stops.{refusal_of};

    ghost from_gives = { λ stop r. r ≡ refusal_of stop };

    fn from(stop: Stop) -> Refusal {
        match stop {
            Stop::Memory => Refusal {
                kind: RefusalKind::NoMemory,
                place: 0,
            },
            Stop::Syntax(place) => Refusal {
                kind: RefusalKind::Syntax,
                place,
            },
            Stop::TooDeep(place) => Refusal {
                kind: RefusalKind::TooDeep,
                place,
            },
        }
    }
}

/// The kind's name and the place, as `Syntax at 5`.
impl fmt::Display for Refusal {
    ghost use Rattle.std.specs.Prelude.{Some};
    ghost use Rattle.jp_query.specs.Refusal.{refusal_text};

    ghost output = { λ refusal. Some (refusal_text refusal) };

    fn fmt<W: fmt::Write>(&self, f: &mut fmt::Formatter<W>) -> fmt::Result {
        let (kind, place) = (self.kind, self.place);
        write!(f, "{kind} at {place}")
    }
}

/// The kind's name.
impl fmt::Display for RefusalKind {
    ghost use Rattle.std.specs.Prelude.{Some};

    ghost output = { λ kind. Some (name_of kind) };

    fn fmt<W: fmt::Write>(&self, f: &mut fmt::Formatter<W>) -> fmt::Result {
        f.write_str(self.name())
    }
}

impl RefusalKind {
    /// The number of the kind, from 1 to 11.
    pub fn number(self) -> u8
        ensures { result ≡ number_of self }
    {
        match self {
            RefusalKind::Syntax => 1,
            RefusalKind::TooDeep => 2,
            RefusalKind::NotWhole => 3,
            RefusalKind::NumberRange => 4,
            RefusalKind::IndexRange => 5,
            RefusalKind::UnknownFunction => 6,
            RefusalKind::ArgumentCount => 7,
            RefusalKind::NotSingular => 8,
            RefusalKind::IllTyped => 9,
            RefusalKind::NoMemory => 10,
            RefusalKind::TextTooLong => 11,
        }
    }

    /// The name of the kind, as it stands in this enum.
    pub fn name(self) -> &'static str
        ensures { result.now ≡ name_of self }
    {
        match self {
            RefusalKind::Syntax => "Syntax",
            RefusalKind::TooDeep => "TooDeep",
            RefusalKind::NotWhole => "NotWhole",
            RefusalKind::NumberRange => "NumberRange",
            RefusalKind::IndexRange => "IndexRange",
            RefusalKind::UnknownFunction => "UnknownFunction",
            RefusalKind::ArgumentCount => "ArgumentCount",
            RefusalKind::NotSingular => "NotSingular",
            RefusalKind::IllTyped => "IllTyped",
            RefusalKind::NoMemory => "NoMemory",
            RefusalKind::TextTooLong => "TextTooLong",
        }
    }
}
