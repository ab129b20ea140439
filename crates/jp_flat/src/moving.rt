//! Parts that move from one table to another.

ghost use Rattle.std.specs.Prelude.{◌≡◌, ◌∷◌, ◌≤◌, ◌<◌, ◌+◌, ◌++◌, OnSome, drop, length, take, []};

use std::mem::swap;

/// Moves the parts from an offset on behind those of a table.
pub(crate) fn move_parts<T: Copy>(
    table: &mut Vec<T>,
    parts: &mut Vec<T>,
    first: usize,
) -> Option<()>
    requires { first ≤ length parts.old.items }
    ensures moved { OnSome result (table.new.items ≡ table.old.items ++ drop first parts.old.items) }
    ensures left { OnSome result (parts.new.items ≡ take first parts.old.items) }
{
    if parts.len() - first < 2 {
        return move_part(table, parts, first);
    }
    if first == 0 && table.is_empty() {
        swap(table, parts);
        return Some(());
    }
    table.extend_from_slice(&parts[first..]).ok()?;
    parts.truncate(first);
    Some(())
}

/// Moves one part or none, which is what most lists have that stand deep.
#[inline(always)]
fn move_part<T: Copy>(table: &mut Vec<T>, parts: &mut Vec<T>, first: usize) -> Option<()>
    requires { (first ≤ length parts.old.items) × (length parts.old.items < first + 2) }
    ensures moved { OnSome result (table.new.items ≡ table.old.items ++ drop first parts.old.items) }
    ensures left { OnSome result (parts.new.items ≡ take first parts.old.items) }
{
    if first < parts.len() {
        let part = parts[first];
        put(table, part)?;
        parts.truncate(first);
    }
    Some(())
}

/// Puts a part behind those of a table. Where there is room for it, no call is made.
#[inline(always)]
pub(crate) fn put<T: Copy>(table: &mut Vec<T>, part: T) -> Option<()>
    ensures puts { OnSome result (table.new.items ≡ table.old.items ++ part ∷ []) }
{
    if table.len() >= table.capacity() {
        table.reserve(1).ok()?;
    }
    table.push_reserved(part);
    Some(())
}
