//! A text that is written piece by piece.

ghost use Rattle.std.specs.Prelude.{◌≡◌, ◌++◌, ◌∷◌, [], if◌then◌else◌, true, string_bytes, OnOk};
ghost use Rattle.std.specs.Char.{is_ascii};
ghost use Rattle.std.specs.Fmt.{signed_decimal};
ghost use Rattle.std.specs.List.{list_all};
ghost use Rattle.std.specs.Str.{chars};
ghost use Rattle.jp_decimal.specs.NumberText.{zeros};
ghost use Rattle.jp_document.specs.Path.{quoted};

use itoa::Buffer;
use jp_document::push_quote;
use std::alloc::{AllocError, Global};
use std::marker::Model;

/// A text as far as it is written. Where memory runs out, a part of the next piece may stand there.
#[derive(Drop)]
pub struct Writer {
    alloc: Global,
    text: String,
}

impl Model for Writer {
    ghost use Rattle.std.specs.Prelude.{ℕ, List, string_bytes};
    ghost use Rattle.std.specs.Str.{chars};

    ghost Value = { List ℕ };

    ghost view = { λ w. chars (string_bytes w.text) };
}

impl Writer {
    /// Nothing yet.
    pub fn new(alloc: Global) -> Writer
        ensures { result ≡ [] }
    {
        Writer {
            alloc,
            text: String::new(alloc),
        }
    }

    /// The whole text.
    pub fn into_text(self) -> String
        ensures { chars (string_bytes result) ≡ self }
    {
        self.text
    }

    /// Writes a word or a sign.
    pub(crate) fn word(&mut self, word: &str) -> Result<(), AllocError>
        requires { list_all is_ascii word.now ≡ true }
        ensures { OnOk result (self.new ≡ self.old ++ word.now) }
    {
        self.text.push_str(word)
    }

    /// Writes a word or a sign, if it has to be there.
    pub(crate) fn word_if(&mut self, there: bool, word: &str) -> Result<(), AllocError>
        requires { list_all is_ascii word.now ≡ true }
        ensures { OnOk result (self.new ≡ self.old ++ (if there then word.now else [])) }
    {
        if there { self.word(word) } else { Ok(()) }
    }

    /// Writes a text. The only error is that memory ran out.
    pub fn text(&mut self, text: &str) -> Result<(), AllocError>
        ensures { OnOk result (self.new ≡ self.old ++ chars text.now) }
    {
        self.text.push_str(text)
    }

    /// Writes a character. The only error is that memory ran out.
    pub fn character(&mut self, c: char) -> Result<(), AllocError>
        ensures { OnOk result (self.new ≡ self.old ++ c ∷ []) }
    {
        self.text.push(c)
    }

    /// Writes a text between single quotes, spelled as a name in a normalized path.
    pub(crate) fn quote(&mut self, text: &str) -> Result<(), AllocError>
        ensures { OnOk result (self.new ≡ self.old ++ quoted (chars text.now)) }
    {
        push_quote(&mut self.text, text)
    }

    /// The allocator of the text.
    pub(crate) fn alloc(&self) -> Global {
        self.alloc
    }

    /// Writes so many zeros.
    pub(crate) fn zeros(&mut self, count: u32) -> Result<(), AllocError>
        ensures { OnOk result (self.new ≡ self.old ++ zeros count) }
    {
        'zeros: for _ in 0..count {
            self.character('0')?;
        }
        Ok(())
    }

    /// Writes a whole number in decimal.
    pub(crate) fn whole(&mut self, number: i128) -> Result<(), AllocError>
        ensures { OnOk result (self.new ≡ self.old ++ signed_decimal number) }
    {
        self.text.push_str(Buffer::new().format(number))
    }
}
