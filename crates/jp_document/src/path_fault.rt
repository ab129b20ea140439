//! Why a text is no normalized path.

ghost use Rattle.std.specs.Prelude.{◌≡◌};

use jp_reading::Stop;
use std::fmt;
use thiserror::Error;

/// Why a text gives no location, numbered from 1 in this order.
#[derive(Debug, PartialEq, Drop, Error)]
pub enum PathFault {
    /// It is the normalized path of no list of steps.
    NotNormalized,
    /// It is a normalized path, and some index is above (2^53)-1.
    IndexRange,
    /// The memory did not suffice.
    NoMemory,
}

impl From<Stop> for PathFault {
    ghost use Rattle.jp_document.specs.PathFault.{fault_of};

    ghost from_gives = { λ stop fault. fault ≡ fault_of stop };

    fn from(stop: Stop) -> PathFault {
        match stop {
            Stop::Memory => PathFault::NoMemory,
            Stop::Syntax(_) | Stop::TooDeep(_) => PathFault::NotNormalized,
        }
    }
}

/// The fault's name, as it stands in the enum.
impl fmt::Display for PathFault {
    ghost use Rattle.std.specs.Prelude.{Some};
    ghost use Rattle.jp_document.specs.Faults.{path_fault_name};

    ghost output = { λ fault. Some (path_fault_name fault) };

    fn fmt<W: fmt::Write>(&self, f: &mut fmt::Formatter<W>) -> fmt::Result {
        f.write_str(match self {
            PathFault::NotNormalized => "NotNormalized",
            PathFault::IndexRange => "IndexRange",
            PathFault::NoMemory => "NoMemory",
        })
    }
}

impl PathFault {
    ghost use Rattle.jp_document.specs.Faults.{path_fault_number};

    /// The number of the fault, from 1 to 3.
    pub fn number(&self) -> u8
        ensures { result ≡ path_fault_number self.now }
    {
        match self {
            PathFault::NotNormalized => 1,
            PathFault::IndexRange => 2,
            PathFault::NoMemory => 3,
        }
    }
}
