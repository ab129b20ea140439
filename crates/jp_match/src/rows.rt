//! What is reached from each offset alone.

ghost use Rattle.std.specs.Prelude.{◌≡◌, ◌<◌, ℕ, [], OnOk, length, get_or};
ghost use Rattle.jp_match.specs.Private.Rows.{IsUnion, marks_of, rows_of};

use crate::offsets::{Offsets, clear, copy_of, unite};
use std::alloc::{AllocError, Global};

/// For each offset of a text, what a pattern reaches from it alone.
pub(crate) type Rows = Vec<Offsets>;

/// The rows that are known of one part of a pattern; none where nothing is known of it.
pub(crate) fn rows_at(known: &[Rows], part: usize) -> &[Offsets]
    ensures { marks_of result.now ≡ get_or (rows_of known.now) part [] }
{
    match known.get(part) {
        Some(rows) => rows,
        None => &[],
    }
}

/// Replaces the offsets by those of their rows.
pub(crate) fn follow(
    rows: &[Offsets],
    alloc: Global,
    offsets: &mut Offsets,
) -> Result<(), AllocError>
    requires long { (start : ℕ) → start < length rows.now
        → length (get_or (marks_of rows.now) start []) ≡ length offsets.old.items }
    requires count { length rows.now ≡ length offsets.old.items }
    ensures same_length { length offsets.new.items ≡ length offsets.old.items }
    ensures union { OnOk result (IsUnion (marks_of rows.now) offsets.old.items offsets.new.items) }
{
    let from = copy_of(alloc, offsets)?;
    clear(offsets);
    for (start, row) in rows.iter().enumerate() {
        if from[start] {
            unite(offsets, row);
        }
    }
    Ok(())
}
