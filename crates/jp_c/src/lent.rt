//! Text that is lent to C.

ghost use Rattle.std.specs.Prelude.{◌≡◌, length, string_bytes};
ghost use Rattle.std.specs.String.{string_vec};
ghost use Rattle.std.specs.Vec.{vec_ptr};

use std::ptr::null;

/// Where a text begins that C may read, and how many bytes it has.
#[repr(C)]
#[derive(Clone, Copy)]
pub struct Lent {
    /// The first byte, unless there is none.
    pub start: *const u8,
    /// How many bytes there are.
    pub length: usize,
}

impl Lent {
    /// No text.
    pub(crate) fn nothing() -> Lent
        ensures { result.length ≡ 0 }
    {
        let start = null();
        Lent { start, length: 0 }
    }
}

/// The text as it is lent.
pub(crate) fn lend(text: String) -> (String, Lent)
    ensures same { string_bytes result.0 ≡ string_bytes text }
    ensures start { result.1.start ≡ vec_ptr (string_vec result.0) }
    ensures length { result.1.length ≡ length (string_bytes text) }
{
    let length = text.as_str().len();
    let bytes = text.into_bytes();
    let start = bytes.as_ptr();
    let text = unsafe { String::from_utf8_unchecked(bytes) };
    (text, Lent { start, length })
}
