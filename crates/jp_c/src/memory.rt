//! The memory of what is asked with a query that is kept, which goes from one call to the next.

ghost use Rattle.std.specs.Prelude.{◌≡◌, [], string_bytes};

use crate::emptied::{Frames, frames_again};
use jp_command::Rooms;
use jp_evaluate::Patterns;
use jp_flat::{FlatValue, Room};
use std::alloc::{AllocError, Global};
use std::mem;

/// The memory: none at first, since it is taken as calls need it. Of what it holds nothing is asked but the
/// text.
#[derive(Drop)]
pub(crate) struct Memory {
    /// The answer of the call before, which is lent until the next.
    pub(crate) text: String,
    /// That of documents.
    pub(crate) room: Room,
    /// That of evaluations.
    pub(crate) walking: Walking,
}

/// The memory of evaluations.
#[derive(Drop)]
pub(crate) struct Walking {
    patterns: Patterns,
    path: String,
    frames: Option<Box<Frames<'static>, Global>>,
}

/// The memory while an evaluation uses it, and the boxes that it goes back into.
#[derive(Drop)]
pub(crate) struct Walk<'d> {
    pub(crate) rooms: Rooms<'d, FlatValue<'d, 'd>>,
    frames: Box<Frames<'d>, Global>,
}

impl Memory {
    /// None yet.
    pub(crate) fn new(alloc: Global) -> Memory
        ensures { string_bytes result.text ≡ [] }
    {
        Memory {
            text: String::new(alloc),
            room: Room::new(alloc),
            walking: Walking {
                patterns: Patterns::new(alloc),
                path: String::new(alloc),
                frames: None,
            },
        }
    }
}

impl Memory {
    /// The memory of documents, without which it is left.
    pub(crate) fn take_room(&mut self, alloc: Global) -> Room
        ensures { self.new.text ≡ self.old.text }
    {
        mem::replace(&mut self.room, Room::new(alloc))
    }
}

impl Walking {
    /// The memory for an evaluation.
    pub(crate) fn open<'d>(&mut self, alloc: Global) -> Result<Walk<'d>, AllocError> {
        let mut frames: Box<Frames<'d>, Global> = frames_again(boxed(alloc, self.frames.take())?);
        let rooms = Rooms {
            patterns: mem::replace(&mut self.patterns, Patterns::new(alloc)),
            frames: taken_out(alloc, &mut frames),
            path: mem::replace(&mut self.path, String::new(alloc)),
        };
        Ok(Walk { rooms, frames })
    }

    /// The memory after an evaluation.
    pub(crate) fn close(&mut self, walk: Walk<'_>) {
        let Walk { rooms, mut frames } = walk;
        *frames = rooms.frames;
        self.patterns = rooms.patterns;
        self.path = rooms.path;
        self.frames = Some(frames_again(frames));
    }
}

/// The vector of a box, which is left with one that has no memory.
fn taken_out<T: Drop>(alloc: Global, boxed: &mut Box<Vec<T>, Global>) -> Vec<T> {
    mem::replace(&mut **boxed, Vec::new(alloc))
}

/// The box, made where there is none yet.
fn boxed<T: Drop>(
    alloc: Global,
    kept: Option<Box<Vec<T>, Global>>,
) -> Result<Box<Vec<T>, Global>, AllocError> {
    match kept {
        Some(kept) => Ok(kept),
        None => match Box::new(alloc, Vec::new(alloc)) {
            Ok(made) => Ok(made),
            Err(error) => Err(AllocError::from(error)),
        },
    }
}
