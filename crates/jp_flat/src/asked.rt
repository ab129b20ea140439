//! What a query asks of a document, where it asks only for some of its members, and reading no more of
//! the document into tables.

ghost use Rattle.std.specs.Prelude.{◌≡◌, IfSome, OnSome};
ghost use Rattle.jp_flat.specs.Asked.{IsKept};
ghost use Rattle.jp_flat.specs.Flat.{shown};
ghost use Rattle.jp_document.specs.OfJson.{most_levels};
ghost use Rattle.jp_flat.specs.Private.Kept.{KeepsFlat, KeepsFlatText};

use crate::cursor::Cursor;
use crate::item::Item;
use crate::picking::{picked_list, picked_object};
use crate::reading::Pending;
use crate::tables::{MAX_DEPTH, Tables};
use crate::thinning::thin_value;

/// What a query asks of a document. What it does not ask for may be left out of the tables.
#[derive(Drop)]
pub enum AskedFor {
    /// Of the document, if this is an object, the members of these names.
    OfRoot(Vec<String>),
    /// Of the objects that are items of the document, if this is a list, the members of these names.
    OfItems(Vec<String>),
    /// Of each object the member of this name, and what lists and objects are members of it.
    Anywhere(String),
}

/// Reads the value of a whole text, of which what is not asked for may be left out.
pub(crate) fn kept_root(
    tables: &mut Tables<'_>,
    pending: &mut Pending,
    asked: &AskedFor,
) -> Option<Item>
    ensures keeps { IfSome result (KeepsFlatText asked.now tables.old.text.now (shown tables.new)) }
    ensures exact { OnSome result (tables.new.exact ≡ tables.old.exact) }
{
    let mut reader = Cursor::new(tables.text.as_bytes());
    let item = if tables.exact {
        kept_value::<true>(tables, pending, &mut reader, asked)?
    } else {
        kept_value::<false>(tables, pending, &mut reader, asked)?
    };
    if reader.is_done() { Some(item) } else { None }
}

/// Reads a document's value, of which what is not asked for may be left out.
fn kept_value<const EXACT: bool>(
    tables: &mut Tables<'_>,
    pending: &mut Pending,
    reader: &mut Cursor<'_>,
    asked: &AskedFor,
) -> Option<Item>
    requires { reader.old.text ≡ tables.old.text.now }
    ensures keeps { IfSome result (KeepsFlat (IsKept asked.now) most_levels reader.old.tokens
        reader.new.tokens (shown tables.new)) }
    ensures exact { OnSome result (tables.new.exact ≡ tables.old.exact) }
{
    match asked {
        AskedFor::OfRoot(names) => {
            let item = picked_object::<EXACT>(
                tables,
                pending,
                reader,
                MAX_DEPTH,
                names.as_slice(),
            )?;
            Some(item)
        }
        AskedFor::OfItems(names) => {
            let item = picked_list::<EXACT>(tables, pending, reader, MAX_DEPTH, names.as_slice())?;
            Some(item)
        }
        AskedFor::Anywhere(name) => {
            let item = thin_value::<EXACT>(tables, pending, reader, MAX_DEPTH, name.as_str())?;
            Some(item)
        }
    }
}
