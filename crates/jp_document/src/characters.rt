//! The characters of the names in normalized paths (RFC 9535 section 2.7).

ghost use Rattle.std.specs.Prelude.{◌≡◌, ◌<◌, true};
ghost use Rattle.jp_document.specs.Private.PathRules.{is_one_of, is_plain, is_letter, meant};
ghost use Rattle.jp_document.specs.Private.PathRules.{is_low_digit, is_hex_digit, hex_value};

use jp_reading::CharacterClass;

/// The classes of characters that names are made of.
#[derive(Clone, Copy)]
pub(crate) enum Characters {
    /// Those with which a name goes on: all but the quote that ends it.
    Inside,
    /// Those that stand for themselves.
    Plain,
    /// Those that stand for a character after `\`.
    Letter,
    /// The hexadecimal digits of the numbers below 16 whose characters have no letter.
    LowDigit,
    /// The lower case hexadecimal digits.
    HexDigit,
}

impl CharacterClass for Characters {
    ghost holds = { is_one_of };

    fn contains(self, c: char) -> bool {
        match self {
            Characters::Inside => c != '\'',
            Characters::Plain => is_plain(c),
            Characters::Letter => is_letter(c),
            Characters::LowDigit => is_low_digit(c),
            Characters::HexDigit => is_hex_digit(c),
        }
    }
}

/// What a letter after `\` stands for.
#[tactic(auto, unfolding(crate::specs::Private::PathRules::meant))]
pub(crate) fn meant(letter: char) -> char
    ensures { result ≡ meant letter }
{
    match letter {
        'b' => '\u{8}',
        't' => '\t',
        'n' => '\n',
        'f' => '\u{c}',
        'r' => '\r',
        _ => letter,
    }
}

/// What a hexadecimal digit writes.
#[tactic(auto, unfolding(crate::specs::Private::PathRules::is_hex_digit, crate::specs::Private::PathRules::hex_value,))]
pub(crate) fn hex_value(digit: char) -> u8
    requires { is_hex_digit digit ≡ true }
    ensures value { result ≡ hex_value digit }
    ensures small { result < 16 }
{
    if digit < 'a' {
        digit as u8 - b'0'
    } else {
        digit as u8 - b'a' + 10
    }
}

/// Whether the character stands for itself in a name: it is no control below U+0020, no `'` and no `\`
/// (normal-unescaped).
#[tactic(auto, unfolding(crate::specs::Private::PathRules::is_plain))]
fn is_plain(c: char) -> bool
    ensures { result ≡ is_plain c }
{
    !(c < ' ' || c == '\'' || c == '\\')
}

/// Whether the character stands for one after a `\`, as all of normal-escapable but `u` do.
#[tactic(auto, unfolding(crate::specs::Private::PathRules::is_letter))]
fn is_letter(c: char) -> bool
    ensures { result ≡ is_letter c }
{
    matches!(c, 'b' | 't' | 'n' | 'f' | 'r' | '\'' | '\\')
}

/// Whether the digit may follow `\u000`: it ends the number of a control below U+0010 that has no letter.
#[tactic(auto, unfolding(crate::specs::Private::PathRules::is_low_digit))]
fn is_low_digit(c: char) -> bool
    ensures { result ≡ is_low_digit c }
{
    matches!(c, '0'..='7' | 'b' | 'e' | 'f')
}

/// Whether the character is a hexadecimal digit as normalized paths have them, in lower case
/// (normal-HEXDIG).
#[tactic(auto, unfolding(crate::specs::Private::PathRules::is_hex_digit))]
fn is_hex_digit(c: char) -> bool
    ensures { result ≡ is_hex_digit c }
{
    matches!(c, '0'..='9' | 'a'..='f')
}
