//! The front of bytes that is UTF-8.

ghost use Rattle.std.specs.Prelude.{◌≡◌, ◌↔◌, IsTrue, IsUtf8, take};
ghost use Rattle.std.specs.Str.Lossy.{utf8_valid_len};

use std::str::from_utf8;

/// The longest front of the bytes that is UTF-8, and whether it is all of them.
pub(crate) fn utf8_front(bytes: &[u8]) -> (&str, bool)
    ensures text { result.0.now ≡ take (utf8_valid_len bytes.now) bytes.now }
    ensures utf8 { IsUtf8 result.0.now }
    ensures whole { IsTrue result.1 ↔ IsUtf8 bytes.now }
{
    match from_utf8(bytes) {
        Ok(text) => (text, true),
        Err(error) => match from_utf8(&bytes[..error.valid_up_to()]) {
            Ok(text) => (text, false),
            Err(_) => unreachable!(),
        },
    }
}
