//! Texts that spell patterns and texts that spell none.

use jp_iregexp::{CharClass, Pattern, read_pattern};
use std::alloc::Global;

mod categories;
mod classes;
mod conforming;
mod hostile;
mod position_counts;
mod trees;

/// The class that is the whole pattern, if it is one.
fn only_class(pattern: &Pattern) -> Option<&CharClass> {
    let Pattern::Either(branches) = pattern else {
        return None;
    };
    let [Pattern::Sequence(pieces)] = branches.as_slice() else {
        return None;
    };
    match pieces.as_slice() {
        [Pattern::Class(class)] => Some(class),
        _ => None,
    }
}

/// Whether a text, which is a class, holds a character; None where it is none.
fn holds(alloc: Global, text: &str, character: char) -> Option<bool> {
    match read_pattern(alloc, text) {
        Ok(pattern) => Some(only_class(&pattern)?.holds(character)),
        Err(_) => None,
    }
}
