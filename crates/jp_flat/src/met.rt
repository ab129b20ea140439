//! What stands in a text where the cursor gives no token.

ghost use Rattle.std.specs.Prelude.{◌≡◌, ◌≤◌, drop, if◌then◌else◌, length};
ghost use Rattle.json.specs.Lex.{tokens};
ghost use Rattle.jp_flat.specs.Private.NoJson.{IsMet};
ghost use Rattle.jp_flat.specs.Private.Tokens.{tokens_from};

use crate::blanks::is_blank;
use crate::cursor::{Point, may_begin, may_close};
use json::{Reader, Scratch, Token};
use std::alloc::Global;

/// What stands where the cursor gives no token.
#[derive(Clone, Copy, PartialEq, Eq)]
pub(crate) enum Met {
    /// The end of the text.
    End,
    /// What no JSON text goes on with.
    Fault,
    /// What is not told here, as a number that is not whole.
    Other,
}

/// What stands at a point of a text.
#[inline(never)]
pub(crate) fn what_stands(alloc: Global, bytes: &[u8], from: Point) -> Met
    requires { from.at ≤ length bytes.now }
    ensures { IsMet (tokens_from bytes.now from) result }
{
    if from.at >= bytes.len() {
        return fault_unless(may_close(from.expected), Met::End);
    }
    let byte = bytes[from.at];
    if byte == b'}' || byte == b']' {
        return fault_unless(may_close(from.expected), Met::Other);
    }
    if is_blank(byte) {
        return Met::Other;
    }
    if may_begin(from.expected) {
        return begun(alloc, bytes, from.at);
    }
    fault_unless(byte == b',', Met::Other)
}

/// That, or a fault.
#[inline(always)]
fn fault_unless(is: bool, what: Met) -> Met
    ensures { result ≡ if is then what else Met.Fault }
{
    if is { what } else { Met::Fault }
}

/// What begins at an offset where a value or a name may: that is read by `json`, which knows all of them, and with
/// it what follows a value without parts.
fn begun(alloc: Global, bytes: &[u8], at: usize) -> Met
    requires { at ≤ length bytes.now }
    ensures { IsMet (tokens (drop at bytes.now)) result }
{
    let Ok(text) = simdutf8::basic::from_utf8(&bytes[at..]) else {
        return Met::Other;
    };
    let mut scratch = Scratch::new(alloc);
    let Ok(mut reader) = Reader::new(text, &mut scratch) else {
        return Met::Other;
    };
    let first = reader.next();
    match first {
        Some(Token::Bad) => Met::Fault,
        Some(Token::String(_) | Token::Number(_) | Token::Bool(_) | Token::Null) => {
            match reader.next() {
                Some(Token::Bad) => Met::Fault,
                _ => Met::Other,
            }
        }
        _ => Met::Other,
    }
}
