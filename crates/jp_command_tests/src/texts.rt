//! Long and deep texts.

use std::alloc::{AllocError, Global};

/// A text with a middle, so many times `opening` before it and as many times `closing` after it.
pub(crate) fn nested(
    alloc: Global,
    (start, opening, count, middle): (&str, &str, usize, &str),
    (closing, end): (&str, &str),
) -> Result<String, AllocError> {
    let (opened, closed) = (opening.repeat(alloc, count)?, closing.repeat(alloc, count)?);
    format!(in alloc; "{start}{opened}{middle}{closed}{end}")
}
