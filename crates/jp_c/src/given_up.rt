//! How it is told that a selection gives no lines.

ghost use Rattle.std.specs.Prelude.{◌≡◌};
ghost use Rattle.jp_c.specs.Private.Spending.{fault_of_selection};

use jp_command::SelectionFault;
use jsonpath::FindFault;

/// The fault of a call for that of a selection.
pub(crate) fn given_up(fault: SelectionFault) -> FindFault
    ensures { result ≡ fault_of_selection fault }
{
    match fault {
        SelectionFault::NoMemory => FindFault::NoMemory,
        SelectionFault::StepsUsedUp => FindFault::StepsUsedUp,
        SelectionFault::TooManyNodes => FindFault::TooManyNodes,
        SelectionFault::TooManyBytes => FindFault::TooManyBytes,
    }
}
