//! Why a text is not read as a pattern.

ghost use Rattle.std.specs.Prelude.{◌≡◌};
ghost use Rattle.jp_iregexp.specs.Fault.{number_of};

use std::fmt;
use thiserror::Error;

/// Why a text is not read as a pattern, numbered from 1 in this order.
#[derive(Clone, Copy, Debug, PartialEq, Eq, Error)]
pub enum PatternFault {
    /// The text spells no pattern with at most `GROUP_LIMIT` groups inside one another.
    NotConforming,
    /// Memory ran out.
    NoMemory,
}

/// The fault's name, as it stands in the enum.
impl fmt::Display for PatternFault {
    ghost use Rattle.std.specs.Prelude.{Some};
    ghost use Rattle.jp_iregexp.specs.Fault.{name_of};

    ghost output = { λ fault. Some (name_of fault) };

    fn fmt<W: fmt::Write>(&self, f: &mut fmt::Formatter<W>) -> fmt::Result {
        f.write_str(match self {
            PatternFault::NotConforming => "NotConforming",
            PatternFault::NoMemory => "NoMemory",
        })
    }
}

impl PatternFault {
    /// The number of the fault, 1 or 2.
    pub fn number(self) -> u8
        ensures { result ≡ number_of self }
    {
        match self {
            PatternFault::NotConforming => 1,
            PatternFault::NoMemory => 2,
        }
    }
}
