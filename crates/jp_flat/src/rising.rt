//! Whether the names of an object rise, while it is read.

ghost use Rattle.std.specs.Prelude.{◌≡◌, ◌≤◌, Some, IfSome, IsTrue, drop, length};
ghost use Rattle.std.specs.Prelude.{true};
ghost use Rattle.std.specs.Cmp.Lexicographic.{slice_cmp};
ghost use Rattle.std.specs.Ordering.{is_lt, nat_cmp};
ghost use Rattle.jp_flat.specs.Flat.{shown, text_at};
ghost use Rattle.jp_flat.specs.Private.Reading.{IsAboveLast};
ghost use Rattle.jp_flat.specs.Private.Tokens.{said};

use crate::item::Named;
use crate::parts::{bytes_at, names_order};
use crate::tables::Tables;
use crate::token::Spelled;
use std::cmp::Ordering;

/// Whether names rose so far, and this one is above that of the last member from the base on. A
/// name with escapes is not looked at.
pub(crate) fn still_rises(
    rises: bool,
    tables: &Tables<'_>,
    members: &[Named],
    base: usize,
    name: Spelled<'_>,
) -> bool
    requires { base ≤ length members.now }
    ensures rose { result ≡ true → rises ≡ true }
    ensures above { result ≡ true
        → IfSome (said name.entry) (IsAboveLast (shown tables.now) (drop base members.now)) }
{
    if !rises {
        return false;
    }
    let Spelled::Plain(_, name) = name else {
        return false;
    };
    let (_, these) = members.split_at(base);
    match these.last() {
        Some(last) => is_below(tables, last, name),
        None => true,
    }
}

/// Whether a member's name is below another.
fn is_below(tables: &Tables<'_>, member: &Named, name: &[u8]) -> bool
    ensures { result ≡ true → IfSome (text_at (shown tables.now) member.now.name)
        (λ x. is_lt (slice_cmp nat_cmp x name.now) ≡ true) }
{
    match bytes_at(tables, member.name) {
        Some(bytes) => matches!(names_order(bytes, name), Ordering::Less),
        None => false,
    }
}
