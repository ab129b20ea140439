//! Profiles: which functions a query may call, and which numbers there are.

ghost use Rattle.std.specs.Prelude.{◌≡◌};
ghost use Rattle.jp_check.specs.Numbers.{numbers};

use jp_decimal::Numbers;

/// Which functions a query may call (RFC 9535 section 2.4), and which numbers there are.
#[derive(Debug, Clone, Copy, PartialEq, Eq)]
pub enum Profile {
    /// The five functions of RFC 9535 sections 2.4.4 to 2.4.8, over whole numbers of 64 bits.
    Standard,
    /// These and `distinct`, which answers the nodes of its argument, each once, over whole numbers
    /// of 64 bits.
    Extended,
    /// The functions of `Standard`, over exact decimal numbers.
    Decimal,
    /// The functions of `Extended`, over exact decimal numbers.
    ExtendedDecimal,
}

impl Profile {
    /// Which numbers a query may have, and the documents that it is asked of.
    pub fn numbers(self) -> Numbers
        ensures { result ≡ numbers self }
    {
        match self {
            Profile::Standard | Profile::Extended => Numbers::Whole,
            Profile::Decimal | Profile::ExtendedDecimal => Numbers::Decimal,
        }
    }
}
