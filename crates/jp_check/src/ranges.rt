//! The range of indexes.

ghost use Rattle.std.specs.Prelude.{◌≡◌};
ghost use Rattle.jp_check.specs.Ranges.{is_in_index_range};

use jp_reading::LARGEST_EXACT;
use jp_tree::Numeral;

/// Whether a number may be an index or a part of a slice: a whole one from -(2^53)+1 to (2^53)-1.
pub(crate) fn is_in_index_range(number: Numeral) -> bool
    ensures { result ≡ is_in_index_range number }
{
    match number {
        Numeral::Whole(whole) => {
            let largest = i128::from(LARGEST_EXACT);
            -largest <= whole && whole <= largest
        }
        _ => false,
    }
}
