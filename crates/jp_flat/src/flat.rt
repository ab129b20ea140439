//! Documents in tables.

ghost use Rattle.std.specs.Prelude.{◌≡◌, [], true, IfOk, IfSome, OnSome, Some, map, option_map, string_bytes};
ghost use Rattle.jp_document.specs.Document.{IsDocument};
ghost use Rattle.jp_document.specs.Location.{owned_step};
ghost use Rattle.jp_flat.specs.Flat.{is_flat, meaning, shown};
ghost use Rattle.jp_document.specs.Exact.{IsDocumentIn};
ghost use Rattle.jp_flat.specs.Private.Reading.{ReadsFlatText};
ghost use Rattle.jp_flat.specs.Private.Modes.{is_exact};
ghost use Rattle.jp_flat.specs.Room.{IsIdle};

use crate::asked::{AskedFor, kept_root};
use crate::cursor::Cursor;
use crate::flat_value::FlatValue;
use crate::item::{Item, Named};
use crate::of_tree::put_value;
use crate::reading::{Pending, lone_value};
use crate::tables::{MAX_DEPTH, Tables, parts_in};
use crate::value_at::value_in;
use jp_decimal::Numbers;
use jp_document::{DocumentValue, OwnedStep};
use std::alloc::{AllocError, Global};

/// A document in tables, which are made of its text.
#[derive(Drop)]
pub struct Flat<'t> {
    pub(crate) tables: Tables<'t>,
    pub(crate) root: Item,
    pub(crate) pending: Pending,
    ghost sound: { is_flat (shown tables) root ≡ true },
}

impl<'t> Flat<'t> {
    ghost use Rattle.jp_document.specs.DocumentValue.{lent_value};
    ghost use Rattle.jp_flat.specs.FlatValue.{document_in, lent_flat};

    /// The tables of a document's value that is held as a tree. The only error is that memory ran
    /// out, or that the value is too much for tables: 2^32 bytes, or 127 levels.
    pub fn of(alloc: Global, value: DocumentValue<'_>) -> Result<Flat<'t>, AllocError>
        ensures { IfOk result (λ f. document_in f ≡ lent_value value.entry) }
    {
        let mut tables = Tables::new(alloc, "");
        let mut pending = Pending::new(alloc);
        match put_value(&mut tables, &mut pending, value.json(), MAX_DEPTH) {
            Some(root) => Ok(Flat {
                tables,
                root,
                pending,
            }),
            None => Err(AllocError),
        }
    }

    /// The document's value, to go on from.
    pub fn value(&self) -> FlatValue<'_, 't>
        ensures { lent_flat result ≡ document_in self.now }
    {
        FlatValue::of(&self.tables, self.root)
    }

    /// This document, borrowing nothing. The only error is that memory ran out.
    pub fn owned(self, alloc: Global) -> Result<Flat<'static>, AllocError>
        ensures { IfOk result (λ f. document_in f ≡ document_in self.entry) }
    {
        let Flat { tables, root, .. } = self;
        let tables = tables.owned(alloc)?;
        let pending = Pending::new(alloc);
        Ok(Flat {
            tables,
            root,
            pending,
        })
    }

    /// The memory, for the next document.
    pub fn into_room(self) -> Room {
        Room::of(self.tables, self.pending)
    }
}

/// The document that these bytes are, in tables. None says nothing of the bytes: they may be no
/// document, too many for tables (2^32), or more than there is memory for.
pub fn flat_document(alloc: Global, bytes: &[u8]) -> Option<Flat<'_>>
    ensures { IfSome result (λ f. IsDocument bytes.now (meaning (shown f.tables) f.root)) }
{
    Room::new(alloc).read(bytes, Numbers::Whole).ok()
}

/// What a document has at a location, in the memory that goes on to the next document.
#[derive(Drop)]
pub enum Found<'t> {
    /// The value there, in tables that hold nothing else.
    Value(Flat<'t>),
    /// There is none. This is the memory.
    Nothing(Room),
}

impl<'t> Found<'t> {
    ghost use Rattle.jp_flat.specs.FlatValue.{document_in, flat_found, lent_flat};

    /// The value that was found, to go on from.
    pub fn value(&self) -> Option<FlatValue<'_, 't>>
        ensures { option_map lent_flat result ≡ option_map document_in (flat_found self.now) }
    {
        match self {
            Found::Value(flat) => Some(flat.value()),
            Found::Nothing(_) => None,
        }
    }

    /// The memory, for the next document.
    pub fn into_room(self) -> Room {
        match self {
            Found::Value(flat) => flat.into_room(),
            Found::Nothing(room) => room,
        }
    }
}

/// Memory to read documents into, which goes from one to the next. Nothing is being read in it: what
/// a document left unread is not kept.
#[derive(Drop)]
pub struct Room {
    spare: String,
    items: Vec<Item>,
    members: Vec<Named>,
    pending: Pending,
    ghost idle: { IsIdle pending },
}

impl Room {
    ghost use Rattle.jp_flat.specs.Asked.{IsReadFor};
    ghost use Rattle.jp_flat.specs.FlatValue.{IsValueAt, document_in, flat_found};

    /// No memory yet: it is taken as documents need it.
    pub fn new(alloc: Global) -> Room {
        Room {
            spare: String::new(alloc),
            items: Vec::new(alloc),
            members: Vec::new(alloc),
            pending: Pending::new(alloc),
        }
    }

    /// The memory of these tables and of what was being read.
    fn of(tables: Tables<'_>, mut pending: Pending) -> Room {
        pending.clear();
        Room {
            spare: tables.spare,
            items: tables.items,
            members: tables.members,
            pending,
        }
    }

    /// The document that these bytes are, in this memory. Its numbers are whole ones of 64 bits, or exact
    /// decimals (RFC 8259 section 6): each is then what its text writes, in at most 38 digits and a power of
    /// ten from -1,000,000 to 1,000,000. An `Err` gives the memory back, and says nothing of the bytes: they
    /// may be no document, too many for tables (2^32), or more than there is memory for.
    pub fn read(self, bytes: &[u8], numbers: Numbers) -> Result<Flat<'_>, Room>
        ensures { IfOk result (λ f. IsDocumentIn numbers bytes.now (document_in f)) }
    {
        let Ok(text) = simdutf8::basic::from_utf8(bytes) else {
            return Err(self);
        };
        let mut pending = self.pending;
        let exact = is_exact(numbers);
        let mut tables = Tables::of(text, self.spare, self.items, self.members, exact);
        tables.reserve(parts_in(bytes, 64));
        pending.reserve(parts_in(bytes, 16));
        let read = root(&mut tables, &mut pending);
        match read {
            Some(root) => Ok(Flat {
                tables,
                root,
                pending,
            }),
            None => Err(Room::of(tables, pending)),
        }
    }

    /// The document with such numbers that these bytes are, in this memory, of which what is not asked for
    /// may be left out. An `Err` gives the memory back, and says nothing of the bytes.
    pub fn read_asked<'t>(
        self,
        bytes: &'t [u8],
        asked: &AskedFor,
        numbers: Numbers,
    ) -> Result<Flat<'t>, Room>
        ensures { IfOk result (IsReadFor numbers asked.now bytes.now) }
    {
        let Ok(text) = simdutf8::basic::from_utf8(bytes) else {
            return Err(self);
        };
        let mut pending = self.pending;
        let exact = is_exact(numbers);
        let mut tables = Tables::of(text, self.spare, self.items, self.members, exact);
        tables.reserve(parts_in(bytes, 64));
        pending.reserve(parts_in(bytes, 16));
        let read = kept_root(&mut tables, &mut pending, asked);
        match read {
            Some(root) => Ok(Flat {
                tables,
                root,
                pending,
            }),
            None => Err(Room::of(tables, pending)),
        }
    }

    /// The value at this location of the document with such numbers that these bytes are, or that it has
    /// none there. It is found while the document is read, and takes no memory for what stands elsewhere
    /// but for texts with escapes on the way to it. An `Err` gives the memory back, and says nothing of the
    /// bytes.
    pub fn read_at<'t>(
        self,
        bytes: &'t [u8],
        location: &[OwnedStep],
        numbers: Numbers,
    ) -> Result<Found<'t>, Room>
        ensures { IfOk result
            (λ f. IsValueAt numbers bytes.now (map owned_step location.now) (flat_found f)) }
    {
        let Ok(text) = simdutf8::basic::from_utf8(bytes) else {
            return Err(self);
        };
        let mut pending = self.pending;
        let exact = is_exact(numbers);
        let mut tables = Tables::of(text, self.spare, self.items, self.members, exact);
        let Some(found) = value_in(&mut tables, &mut pending, location) else {
            return Err(Room::of(tables, pending));
        };
        match found {
            Some(root) => Ok(Found::Value(Flat {
                tables,
                root,
                pending,
            })),
            None => Ok(Found::Nothing(Room::of(tables, pending))),
        }
    }
}

/// Whether such numbers are decimals.
fn is_exact(numbers: Numbers) -> bool
    ensures { result ≡ is_exact numbers }
{
    matches!(numbers, Numbers::Decimal)
}

/// Reads the value of a whole text.
fn root(tables: &mut Tables<'_>, pending: &mut Pending) -> Option<Item>
    ensures reads { IfSome result (ReadsFlatText tables.old.text.now (shown tables.new)) }
    ensures exact { OnSome result (tables.new.exact ≡ tables.old.exact) }
{
    let mut reader = Cursor::new(tables.text.as_bytes());
    let item = if tables.exact {
        lone_value::<true>(tables, pending, &mut reader, MAX_DEPTH)?
    } else {
        lone_value::<false>(tables, pending, &mut reader, MAX_DEPTH)?
    };
    if reader.is_done() { Some(item) } else { None }
}
