//! Texts that hold another one again and again.

use std::alloc::{AllocError, Global};

/// Appends a text so many times.
pub(crate) fn push_times(text: &mut String, piece: &str, count: usize) -> Result<(), AllocError> {
    for _ in 0..count {
        text.push_str(piece)?;
    }
    Ok(())
}

/// Appends a text inside so many others.
pub(crate) fn push_nested(
    text: &mut String,
    (open, inner, close): (&str, &str, &str),
    depth: usize,
) -> Result<(), AllocError> {
    push_times(text, open, depth)?;
    text.push_str(inner)?;
    push_times(text, close, depth)
}

/// A text inside so many others.
pub(crate) fn nested(
    alloc: Global,
    pieces: (&str, &str, &str),
    depth: usize,
) -> Result<String, AllocError> {
    let mut text = String::new(alloc);
    push_nested(&mut text, pieces, depth)?;
    Ok(text)
}
