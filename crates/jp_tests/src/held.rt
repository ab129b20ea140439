//! Rows of documents, both readers beside each other, and documents of exact decimals.

mod decimals;
mod documents;
mod two_readers;

use jp_decimal::Numbers;
use jp_document::OwnedStep;
use jp_flat::{AskedFor, Room};
use jp_held::{Excerpt, Portion, read_flat, read_portion};
use jp_lent::{push_value, value_text};
use std::alloc::{AllocError, Global};
use std::process::Abort;

/// The compact text of a document that is read into tables, or what is said of the bytes.
fn by_tables(alloc: Global, text: &str, numbers: Numbers) -> Result<String, AllocError> {
    match read_flat(alloc, text.as_bytes(), numbers) {
        Ok(flat) => value_text(alloc, flat.value()),
        Err(fault) => format!(in alloc; "{fault}"),
    }
}

/// Appends the compact text of what is read of a document, `nothing` where that is no value.
fn push_excerpt(line: &mut String, read: &Excerpt) -> Result<(), AllocError> {
    match read {
        Excerpt::Document(flat) => push_value(line, flat.value()),
        Excerpt::Value(_, found) => match found.value() {
            Some(value) => push_value(line, value),
            None => line.push_str("nothing"),
        },
    }
}

/// Appends what is read of a document where a portion is wanted, or what is said of the bytes, and gives the memory
/// back.
fn push_portion(
    line: &mut String,
    alloc: Global,
    room: Room,
    text: &str,
    (portion, numbers): (&Portion, Numbers),
) -> Result<Room, AllocError> {
    match read_portion(alloc, room, text.as_bytes(), portion, numbers) {
        Ok(read) => {
            push_excerpt(line, &read)?;
            Ok(read.into_room())
        }
        Err((room, fault)) => {
            write!(line, "{fault}")?;
            Ok(room)
        }
    }
}

/// A document, and what is read of it where each of some portions is wanted.
type PortionsRow = (&'static str, &'static [&'static str]);

/// Asserts what is read of a document into one memory, which it gives back. Each stands on a line for a while.
fn assert_portions(
    rt: &impl Abort,
    alloc: Global,
    line: &mut String,
    room: Room,
    (text, read): (&str, &[&str]),
    (portions, numbers): (&[Portion], Numbers),
) -> Result<Room, AllocError> {
    let mut room = room;
    for (portion, wanted) in portions.iter().zip(read) {
        line.clear();
        room = push_portion(line, alloc, room, text, (portion, numbers))?;
        assert_eq!(rt; line.as_str(), *wanted, "{text}");
    }
    Ok(room)
}

/// Asserts what is read of each document into one memory.
fn assert_all_portions(
    rt: &impl Abort,
    alloc: Global,
    line: &mut String,
    rows: &[PortionsRow],
    portions: (&[Portion], Numbers),
) -> Result<(), AllocError> {
    let mut room = Room::new(alloc);
    for row in rows {
        room = assert_portions(rt, alloc, line, room, *row, portions)?;
    }
    Ok(())
}

/// The portion that is the value at `$[0]['a']`.
fn one_value(alloc: Global) -> Result<Portion, AllocError> {
    let name = String::from_str(alloc, "a")?;
    let location = vec![in alloc; OwnedStep::Index(0), OwnedStep::Name(name)]?;
    Ok(Portion::Value(location))
}

/// The portion that is the members `a` of items.
fn members_of_items(alloc: Global) -> Result<Portion, AllocError> {
    let asked = vec![in alloc; String::from_str(alloc, "a")?]?;
    Ok(Portion::Members(AskedFor::OfItems(asked)))
}
