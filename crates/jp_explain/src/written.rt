//! Words and spaces that are written to a text.

ghost use Rattle.std.specs.Prelude.{◌≡◌, ◌++◌, true, OnOk, replicate};
ghost use Rattle.std.specs.Char.{is_ascii};
ghost use Rattle.std.specs.List.{list_all};
ghost use Rattle.jp_reading.specs.Characters.{space};

use jp_canon::Writer;
use std::alloc::AllocError;

/// Writes a word or a sentence in ASCII.
#[tactic(auto, using(crate::proofs::Ascii::ascii_chars))]
pub(crate) fn write_word(out: &mut Writer, word: &str) -> Result<(), AllocError>
    requires { list_all is_ascii word.now ≡ true }
    ensures { OnOk result (out.new ≡ out.old ++ word.now) }
{
    out.text(word)
}

/// Writes so many spaces.
pub(crate) fn write_spaces(out: &mut Writer, count: usize) -> Result<(), AllocError>
    ensures { OnOk result (out.new ≡ out.old ++ replicate count space) }
{
    for _ in 0..count {
        out.character(' ')?;
    }
    Ok(())
}
