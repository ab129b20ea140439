//! Values that are lent.

ghost use Rattle.std.specs.Prelude.{◌≡◌, ◌<◌, OnSome, length, option_map, slice_get};
ghost use Rattle.jp_document.specs.Location.{child_entry, entries, named};
ghost use Rattle.jp_document.specs.Value.{IsDocumentValue, Value, list_length};
ghost use Rattle.jp_lent.specs.Lending.{bare, entry_value, seen_value, step_with};

use crate::seen::Seen;
use jp_document::Step;

/// A value that is lent. It copies nothing of what it is in, and its names and texts live as long
/// as that.
pub trait Lent: Copy {
    /// The value that it stands for.
    ghost meaning: { Self → Value };

    /// What it is, without what is in it.
    fn seen<'d>(self) -> Seen<'d>
    where
        Self: 'd,
        ensures { seen_value result ≡ bare (meaning self) };

    /// How many values it has one step inside: a list its items, an object its members, others
    /// none.
    fn count(self) -> usize
        ensures { result ≡ length (entries (meaning self)) };

    /// The value at this position one step inside, from 0, with its step; None where there are no
    /// more. A list has its items, an object its members in their order (RFC 9535 section 1.1).
    fn child<'d>(self, position: usize) -> Option<(Step<'d>, Self)>
    where
        Self: 'd,
        ensures entry { option_map (step_with meaning) result
            ≡ slice_get (entries (meaning self)) position }
        ensures more { OnSome result (position < usize.MAX) };

    /// The value that `child` gives, without its step.
    fn child_value(self, position: usize) -> Option<Self>
        ensures value { option_map meaning result
            ≡ option_map entry_value (slice_get (entries (meaning self)) position) }
        ensures more { OnSome result (position < usize.MAX) };
}

/// A value of a document, that selectors choose from.
pub trait Selectable: Lent {
    /// How many items a list has, None of another value.
    fn list_length(self) -> Option<u64>
        ensures { result ≡ list_length (Self.meaning self) };

    /// The member of this name of an object, with its step; None where there is none (RFC 9535
    /// section 2.3.1).
    fn member<'d>(self, name: &str) -> Option<(Step<'d>, Self)>
    where
        Self: 'd,
        ensures { option_map (step_with Self.meaning) result
            ≡ child_entry (Self.meaning self) (named name.now) };

    /// So each of its steps leads to one value alone.
    ghost sound: { (v : Self) → IsDocumentValue (Self.meaning v) };
}
