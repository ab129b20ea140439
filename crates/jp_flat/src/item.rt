//! What stands in the tables of a document: items and members, by the offsets of their parts.

ghost use Rattle.std.specs.Prelude.{◌≡◌, negsuc, pos};
ghost use Rattle.jp_flat.specs.Flat.{number_of};

/// A part of a text or of a table: where it begins, and how many bytes or entries it has.
#[derive(Clone, Copy)]
pub(crate) struct Span {
    pub(crate) first: u32,
    pub(crate) count: u32,
}

/// A number of 64 bits by its halves, so that an item stands at any multiple of four bytes.
#[derive(Clone, Copy)]
pub(crate) struct Halves {
    pub(crate) high: u32,
    pub(crate) low: u32,
}

impl Halves {
    /// The number from 0 on.
    pub(crate) fn above(self) -> i128
        ensures { result ≡ pos (number_of self) }
    {
        i128::from(self.number())
    }

    /// The number that is so far below -1.
    pub(crate) fn below(self) -> i128
        ensures { result ≡ negsuc (number_of self) }
    {
        -1 - i128::from(self.number())
    }

    /// The number of 64 bits whose halves these are.
    fn number(self) -> u64
        ensures { result ≡ number_of self }
    {
        u64::from(self.high) * 0x1_0000_0000 + u64::from(self.low)
    }
}

/// A value: itself, or where its bytes or its parts stand. `Above` is a whole number from 0 on,
/// `Below` one below 0, by how far it is below -1, and `Numeral` any number by its characters.
#[derive(Clone, Copy)]
pub(crate) enum Item {
    Null,
    Bool(bool),
    Above(Halves),
    Below(Halves),
    Numeral(Span),
    Text(Span),
    List(Span),
    Members(Span),
}

/// A named value of an object.
#[derive(Clone, Copy)]
pub(crate) struct Named {
    pub(crate) name: Span,
    pub(crate) item: Item,
}
