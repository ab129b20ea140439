//! The tables of a document.

ghost use Rattle.std.specs.Prelude.{◌≡◌, [], IfOk, false};
ghost use Rattle.jp_flat.specs.Flat.{IsOwned, shown};

use crate::item::{Item, Named};
use std::alloc::{AllocError, Global};

/// The most levels of lists and objects.
pub(crate) const MAX_DEPTH: usize = 127;

/// A document's text, the texts that are spelled otherwise in it, unescaped, and the parts of its
/// lists and objects, side by side. `exact` says that numbers that are not whole are taken.
#[derive(Drop)]
pub(crate) struct Tables<'t> {
    pub(crate) text: &'t str,
    pub(crate) spare: String,
    pub(crate) items: Vec<Item>,
    pub(crate) members: Vec<Named>,
    pub(crate) exact: bool,
}

impl<'t> Tables<'t> {
    /// The tables of a document of which nothing is read yet, with no memory.
    pub(crate) fn new(alloc: Global, text: &'t str) -> Tables<'t>
        ensures source { (shown result).source ≡ text.now }
        ensures exact { (shown result).exact ≡ false }
    {
        Tables {
            text,
            spare: String::new(alloc),
            items: Vec::new(alloc),
            members: Vec::new(alloc),
            exact: false,
        }
    }

    /// The tables of a document of which nothing is read yet, in the memory of others.
    pub(crate) fn of(
        text: &'t str,
        spare: String,
        items: Vec<Item>,
        members: Vec<Named>,
        exact: bool,
    ) -> Tables<'t>
        ensures source { (shown result).source ≡ text.now }
        ensures spare { (shown result).spare ≡ [] }
        ensures items { (shown result).items ≡ [] }
        ensures members { (shown result).members ≡ [] }
        ensures exact { (shown result).exact ≡ exact }
    {
        let mut tables = Tables {
            text,
            spare,
            items,
            members,
            exact,
        };
        tables.spare.clear();
        tables.items.clear();
        tables.members.clear();
        tables
    }

    /// These tables, borrowing nothing: the document's text is copied in front of the spare
    /// ones. The only error is that memory ran out.
    pub(crate) fn owned(self, alloc: Global) -> Result<Tables<'static>, AllocError>
        ensures { IfOk result (λ tables. IsOwned (shown self.entry) (shown tables)) }
    {
        let mut spare = String::with_capacity(alloc, self.text.len())?;
        spare.push_str(self.text)?;
        spare.push_str(self.spare.as_str())?;
        Ok(Tables {
            text: "",
            spare,
            items: self.items,
            members: self.members,
            exact: self.exact,
        })
    }

    /// Takes memory for so many items and members at once. Where there is none, the tables grow as
    /// they are filled.
    pub(crate) fn reserve(&mut self, count: usize)
        ensures same { shown self.new ≡ shown self.old }
        ensures text { self.new.text.now ≡ self.old.text.now }
    {
        let _ = self.items.reserve(count);
        let _ = self.members.reserve(count);
    }
}

/// About as many parts as a document of these bytes has, and not more than the most.
pub(crate) fn parts_in(bytes: &[u8], most: usize) -> usize {
    (bytes.len() / 16).min(most)
}
