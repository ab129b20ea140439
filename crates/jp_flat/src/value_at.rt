//! One value of a document, without the others.

ghost use Rattle.std.specs.Prelude.{◌≡◌, IfSome, OnSome, map};
ghost use Rattle.jp_document.specs.Location.{owned_step};
ghost use Rattle.jp_flat.specs.Flat.{shown};
ghost use Rattle.jp_flat.specs.Private.Found.{FindsInText};

use crate::cursor::Cursor;
use crate::finding::find;
use crate::item::Item;
use crate::reading::Pending;
use crate::tables::{MAX_DEPTH, Tables};
use jp_document::OwnedStep;

/// Reads a whole text, and finds the value at a location.
pub(crate) fn value_in(
    tables: &mut Tables<'_>,
    pending: &mut Pending,
    location: &[OwnedStep],
) -> Option<Option<Item>>
    ensures finds { IfSome result (FindsInText tables.old.text.now (shown tables.new) (map owned_step
        location.now)) }
    ensures exact { OnSome result (tables.new.exact ≡ tables.old.exact) }
{
    let mut reader = Cursor::new(tables.text.as_bytes());
    let found = if tables.exact {
        find::<true>(tables, pending, &mut reader, MAX_DEPTH, Some(location))?
    } else {
        find::<false>(tables, pending, &mut reader, MAX_DEPTH, Some(location))?
    };
    if reader.is_done() { Some(found) } else { None }
}
