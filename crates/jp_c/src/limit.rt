//! The most that a call may do and give.

ghost use Rattle.std.specs.Prelude.{◌≡◌, ◌-◌, ◌≤◌, IfErr, OnOk, length};
ghost use Rattle.jp_c.specs.Limit.{most_of, output_within};
ghost use Rattle.jp_c.specs.Private.Spending.{steps_of_limit};
ghost use Rattle.jp_limit.specs.OutputLimit.{Exceeds, KeepsTo};
ghost use Rattle.jsonpath.specs.declared.fault.FindFault.TheVariants as find;

use jp_limit::OutputLimit;
use jp_select::Steps;
use jsonpath::FindFault;

/// The most that a call may do and give. Of each 0 is no limit.
#[repr(C)]
#[derive(Debug, Clone, Copy, PartialEq, Eq)]
pub struct Limit {
    /// How many steps the evaluation may make.
    pub steps: u64,
    /// How many nodes there may be.
    pub nodes: u64,
    /// How many bytes the lines of these nodes may have together.
    pub bytes: u64,
}

impl Limit {
    /// The most that may come out.
    pub(crate) fn output(self) -> OutputLimit
        ensures { result ≡ output_within self }
    {
        OutputLimit {
            nodes: most(self.nodes),
            bytes: most(self.bytes),
        }
    }

    /// Refuses a text that has more bytes.
    pub(crate) fn check_bytes(self, text: &str) -> Result<(), FindFault>
        ensures within { OnOk result (KeepsTo (most_of self.bytes) (length text.now)) }
        ensures beyond { IfErr result (λ fault. (fault ≡ find.TooManyBytes)
            × Exceeds (most_of self.bytes) (length text.now)) }
    {
        if self.bytes == 0 || text.len() as u64 <= self.bytes {
            Ok(())
        } else {
            Err(FindFault::TooManyBytes)
        }
    }
}

/// So many at most, where 0 is any number.
pub(crate) fn most(count: u64) -> Option<u64>
    ensures { result ≡ most_of count }
{
    match count {
        0 => None,
        _ => Some(count),
    }
}

/// The steps of a limit, of which 0 is none.
pub(crate) fn steps_within(limit: u64) -> Steps
    ensures { result ≡ steps_of_limit limit }
{
    match limit {
        0 => Steps::unlimited(),
        _ => Steps::at_most(limit),
    }
}

/// How many of the steps of a limit were made, where these are left.
pub(crate) fn steps_made(limit: u64, left: Steps) -> u64
    requires { left.left ≤ (steps_of_limit limit).left }
    ensures { result ≡ (steps_of_limit limit).left - left.left }
{
    steps_within(limit).left() - left.left()
}
