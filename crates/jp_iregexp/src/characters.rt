//! The characters of patterns, alone and after `\` (RFC 9485 section 3).

ghost use Rattle.std.specs.Prelude.{◌≡◌};
ghost use Rattle.jp_reading.specs.Views.{Gives};
ghost use Rattle.jp_iregexp.specs.Characters.{is_normal, is_plain, is_escaped, meant};
ghost use Rattle.jp_iregexp.specs.Private.Reading.{is_one_of, escaped_at, character_at};

use jp_reading::{CharacterClass, Reader, Stop};

/// The classes of characters that patterns are made of.
#[derive(Clone, Copy)]
pub(crate) enum Characters {
    /// Those that stand for themselves outside a class.
    Normal,
    /// Those that stand for themselves in a class.
    Plain,
    /// Those that stand for a character after `\`.
    Escaped,
    /// Those that begin a category after `\`.
    CategorySign,
    /// Those of which codes are made.
    Letter,
    /// Those that begin an element of a class after its first one.
    Element,
    /// Those that begin a quantifier.
    Quantifier,
    /// Those that begin a piece.
    Piece,
}

impl CharacterClass for Characters {
    ghost holds = { is_one_of };

    fn contains(self, c: char) -> bool {
        match self {
            Characters::Normal => is_normal(c),
            Characters::Plain => is_plain(c),
            Characters::Escaped => is_escaped(c),
            Characters::CategorySign => c == 'p' || c == 'P',
            Characters::Letter => c.is_ascii_alphabetic(),
            Characters::Element => !(c == '-' || c == ']'),
            Characters::Quantifier => matches!(c, '*' | '+' | '?' | '{'),
            Characters::Piece => !(c == '|' || c == ')'),
        }
    }
}

/// The character that stands after `\`.
#[tactic(auto, unfolding(crate::specs::Private::Reading::escaped_at))]
pub(crate) fn escaped(reader: &mut Reader) -> Result<char, Stop>
    ensures { Gives (λ c. c) result reader.new (escaped_at reader.old) }
{
    let letter = reader.take_one_of(Characters::Escaped)?;
    Ok(meant(letter))
}

/// A character of a class.
#[tactic(auto, unfolding(crate::specs::Private::Reading::character_at))]
pub(crate) fn character(reader: &mut Reader) -> Result<char, Stop>
    ensures { Gives (λ c. c) result reader.new (character_at reader.old) }
{
    if reader.is_at('\\') {
        reader.bump();
        escaped(reader)
    } else {
        reader.take_one_of(Characters::Plain)
    }
}

/// Whether a character stands for itself outside a class (NormalChar).
#[tactic(auto, unfolding(crate::specs::Characters::is_normal))]
fn is_normal(c: char) -> bool
    ensures { result ≡ is_normal c }
{
    !matches!(c, '('..='+' | '.' | '?' | '['..=']' | '{'..='}')
}

/// Whether a character stands for itself in a class (CCchar).
#[tactic(auto, unfolding(crate::specs::Characters::is_plain))]
fn is_plain(c: char) -> bool
    ensures { result ≡ is_plain c }
{
    !matches!(c, '-' | '['..=']')
}

/// Whether a character may stand after `\` (SingleCharEsc).
#[tactic(auto, unfolding(crate::specs::Characters::is_escaped))]
fn is_escaped(c: char) -> bool
    ensures { result ≡ is_escaped c }
{
    matches!(c, '('..='+' | '-' | '.' | '?' | '['..='^' | 'n' | 'r' | 't' | '{'..='}')
}

/// What a character after `\` stands for.
#[tactic(auto, unfolding(crate::specs::Characters::meant))]
fn meant(c: char) -> char
    ensures { result ≡ meant c }
{
    match c {
        'n' => '\n',
        'r' => '\r',
        't' => '\t',
        _ => c,
    }
}
