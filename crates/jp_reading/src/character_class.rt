//! Classes of characters: which characters may come next in a text.

ghost use Rattle.std.specs.Prelude.{◌≡◌, ℕ, Bool};

/// A class of characters, of which a grammar allows one at some point of a text.
pub trait CharacterClass: Copy {
    // Which characters the class has.
    ghost holds: { Self → ℕ → Bool };

    /// Whether the character is in the class.
    fn contains(self, c: char) -> bool
        ensures { result ≡ holds self c };
}
