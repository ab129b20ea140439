//! From bytes to tables, or to what is wrong with the bytes.
//!
//! Tables of whole numbers are made in one pass, which stops at the first number that is not whole.
//! `serde_json` decides: where a later member of the same name replaces such a number, the bytes are a
//! document. So does `jp_exact` where numbers are decimals, of the first that can't be held.

ghost use Rattle.std.specs.Prelude.{◌≡◌, IfErr, IfOk, map};
ghost use Rattle.jp_document.specs.Exact.{IsDocumentIn};
ghost use Rattle.jp_document.specs.Location.{owned_step};
ghost use Rattle.jp_exact.specs.Defects.{IsDocumentFaultIn};
ghost use Rattle.jp_flat.specs.Asked.{IsReadFor};
ghost use Rattle.jp_flat.specs.FlatValue.{IsValueAt, document_in, flat_found};
ghost use Rattle.jp_held.specs.Portions.{IsExcerpt};

use crate::document::Document;
use crate::portion::{Excerpt, Portion};
use jp_decimal::Numbers;
use jp_document::{DocumentFault, OwnedStep};
use jp_flat::{AskedFor, Flat, Found, Room};
use std::alloc::Global;

/// The document with such numbers that these bytes are, in tables, else what is wrong with them.
/// `NoMemory` says nothing of the bytes: memory ran out, or they are too many for tables (2^32).
pub fn read_flat(alloc: Global, bytes: &[u8], numbers: Numbers) -> Result<Flat<'_>, DocumentFault>
    ensures ok { IfOk result (λ f. IsDocumentIn numbers bytes.now (document_in f)) }
    ensures fault { IfErr result (IsDocumentFaultIn numbers bytes.now) }
{
    match read_into(alloc, Room::new(alloc), bytes, numbers) {
        Ok(flat) => Ok(flat),
        Err((_, fault)) => Err(fault),
    }
}

/// So much of the document with such numbers that these bytes are as is wanted, in the memory of other
/// documents, which an `Err` gives back; else what is wrong with them, as `read_flat` says: with what is
/// not wanted, too.
pub fn read_portion<'p, 't>(
    alloc: Global,
    room: Room,
    bytes: &'t [u8],
    portion: &'p Portion,
    numbers: Numbers,
) -> Result<Excerpt<'p, 't>, (Room, DocumentFault)>
    ensures ok { IfOk result (IsExcerpt numbers portion.now bytes.now) }
    ensures fault { IfErr result (λ e. IsDocumentFaultIn numbers bytes.now e.1) }
{
    match portion {
        Portion::Value(location) => {
            let found = read_value_into(alloc, room, bytes, location, numbers)?;
            Ok(Excerpt::Value(location, found))
        }
        Portion::Members(asked) => {
            let flat = read_asked(alloc, room, bytes, asked, numbers)?;
            Ok(Excerpt::Document(flat))
        }
        Portion::Whole => {
            let flat = read_into(alloc, room, bytes, numbers)?;
            Ok(Excerpt::Document(flat))
        }
    }
}

/// `read_flat` in the memory of other documents, which an `Err` gives back.
pub fn read_into(
    alloc: Global,
    room: Room,
    bytes: &[u8],
    numbers: Numbers,
) -> Result<Flat<'_>, (Room, DocumentFault)>
    ensures ok { IfOk result (λ f. IsDocumentIn numbers bytes.now (document_in f)) }
    ensures fault { IfErr result (λ e. IsDocumentFaultIn numbers bytes.now e.1) }
{
    match room.read(bytes, numbers) {
        Ok(flat) => Ok(flat),
        Err(room) => match read_by_tree(alloc, bytes, numbers) {
            Ok(flat) => Ok(flat),
            Err(fault) => Err((room, fault)),
        },
    }
}

/// What the document with such numbers that these bytes are has at this location, in the memory of other
/// documents, which an `Err` gives back with what is wrong with the bytes. It is found while the document is
/// read.
pub fn read_value_into<'t>(
    alloc: Global,
    room: Room,
    bytes: &'t [u8],
    location: &[OwnedStep],
    numbers: Numbers,
) -> Result<Found<'t>, (Room, DocumentFault)>
    ensures ok { IfOk result
        (λ f. IsValueAt numbers bytes.now (map owned_step location.now) (flat_found f)) }
    ensures fault { IfErr result (λ e. IsDocumentFaultIn numbers bytes.now e.1) }
{
    match room.read_at(bytes, location, numbers) {
        Ok(found) => Ok(found),
        Err(room) => match value_by_tree(alloc, bytes, location, numbers) {
            Ok(Some(flat)) => Ok(Found::Value(flat)),
            Ok(None) => Ok(Found::Nothing(room)),
            Err(fault) => Err((room, fault)),
        },
    }
}

/// The document with such numbers that these bytes are, of which so much is kept as is asked of it, in the
/// memory of other documents, which an `Err` gives back with what is wrong with the bytes.
pub fn read_asked<'t>(
    alloc: Global,
    room: Room,
    bytes: &'t [u8],
    asked: &AskedFor,
    numbers: Numbers,
) -> Result<Flat<'t>, (Room, DocumentFault)>
    ensures ok { IfOk result (IsReadFor numbers asked.now bytes.now) }
    ensures fault { IfErr result (λ e. IsDocumentFaultIn numbers bytes.now e.1) }
{
    match room.read_asked(bytes, asked, numbers) {
        Ok(flat) => Ok(flat),
        Err(room) => match read_by_tree(alloc, bytes, numbers) {
            Ok(flat) => Ok(flat),
            Err(fault) => Err((room, fault)),
        },
    }
}

/// The document with such numbers that a tree is made of from these bytes, in tables, else what is wrong
/// with them.
fn read_by_tree<'t>(
    alloc: Global,
    bytes: &[u8],
    numbers: Numbers,
) -> Result<Flat<'t>, DocumentFault>
    ensures ok { IfOk result (λ f. IsDocumentIn numbers bytes.now (document_in f)) }
    ensures fault { IfErr result (IsDocumentFaultIn numbers bytes.now) }
{
    let document = Document::parsed(alloc, bytes, numbers)?;
    Ok(Flat::of(alloc, document.value())?)
}

/// The value at this location of that document, None where it has none there.
fn value_by_tree<'t>(
    alloc: Global,
    bytes: &[u8],
    location: &[OwnedStep],
    numbers: Numbers,
) -> Result<Option<Flat<'t>>, DocumentFault>
    ensures ok { IfOk result (IsValueAt numbers bytes.now (map owned_step location.now)) }
    ensures fault { IfErr result (IsDocumentFaultIn numbers bytes.now) }
{
    let document = Document::parsed(alloc, bytes, numbers)?;
    match document.value_at(location) {
        Some(value) => Ok(Some(Flat::of(alloc, value)?)),
        None => Ok(None),
    }
}
