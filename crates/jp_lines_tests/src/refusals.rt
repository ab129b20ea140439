//! What is told of queries and expressions that are refused.

use jp_explain::Reason;
use jp_explain::Surroundings::Shell;
use std::alloc::{AllocError, Global};

/// A text that is no query or no expression, how it is refused, at a byte of its own, how many columns stand before
/// that, the reason, and what to try instead, if there is a suggestion.
pub type Refused = (&'static str, &'static str, usize, Reason, &'static str);

/// What is told of one of them, whose shown line that is.
pub fn told(
    alloc: Global,
    line: &str,
    (_, refusal, width, reason, suggestion): Refused,
) -> Result<String, AllocError> {
    let spaces = " ".repeat(alloc, width)?;
    let sentence = reason.sentence(Shell);
    let mut text = format!(in alloc;
        "query refused: {refusal}\n  {line}\n  {spaces}^\n{sentence}\n"
    )?;
    if !suggestion.is_empty() {
        write!(text, "Try: {suggestion}\n")?;
    }
    Ok(text)
}

/// What is told of one that is too long.
pub fn too_long(alloc: Global) -> Result<String, AllocError> {
    let sentence = Reason::TextTooLong.sentence(Shell);
    format!(in alloc; "query refused: TextTooLong at 0\n{sentence}\n")
}
