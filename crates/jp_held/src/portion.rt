//! How much of a document is wanted, and what is read of it for that.

ghost use Rattle.std.specs.Prelude.{◌≡◌, ◌++◌, OnOk, map, string_bytes};
ghost use Rattle.jp_document.specs.Location.{owned_step};
ghost use Rattle.jp_document.specs.Path.{path_of};

use jp_document::{OwnedStep, push_step};
use jp_flat::{AskedFor, Flat, Found, Room};
use std::alloc::AllocError;

/// How much of a document is wanted.
#[derive(Drop)]
pub enum Portion {
    /// The value at this location.
    Value(Vec<OwnedStep>),
    /// What is asked of it. The rest may be left out.
    Members(AskedFor),
    /// All of it.
    Whole,
}

/// What was read of a document, in tables.
#[derive(Drop)]
pub enum Excerpt<'p, 't> {
    /// The document, of which what is not wanted may be left out.
    Document(Flat<'t>),
    /// What the document has at this location.
    Value(&'p [OwnedStep], Found<'t>),
}

impl<'p, 't> Excerpt<'p, 't> {
    /// The memory, for the next document.
    pub fn into_room(self) -> Room {
        match self {
            Excerpt::Document(flat) => flat.into_room(),
            Excerpt::Value(_, found) => found.into_room(),
        }
    }
}

/// Appends the normalized path of a location that is wanted (RFC 9535 section 2.7). The only error is that
/// memory ran out.
pub fn push_location(out: &mut String, location: &[OwnedStep]) -> Result<(), AllocError>
    ensures { OnOk result
        (string_bytes out.new ≡ string_bytes out.old ++ path_of (map owned_step location.now)) }
{
    out.push('$')?;
    for step in location {
        push_step(out, step.as_step())?;
    }
    Ok(())
}
