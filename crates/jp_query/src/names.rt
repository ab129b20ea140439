//! Members' names after a dot (RFC 9535 section 2.5.1.1, member-name-shorthand), and functions'
//! names (section 2.4).

ghost use Rattle.std.specs.Prelude.{◌≡◌, ◌++◌};
ghost use Rattle.std.specs.Str.{chars};
ghost use Rattle.std.specs.String.{string_bytes};
ghost use Rattle.jp_reading.specs.Outcome.{head, passes};
ghost use Rattle.jp_reading.specs.Views.{Gives, outcome_map};
ghost use Rattle.jp_query.specs.Names.{is_name_first, is_name_char, is_function_first};
ghost use Rattle.jp_query.specs.Names.{is_function_char};
ghost use Rattle.jp_query.specs.Private.Rules as rules;
ghost use Rattle.jp_query.specs.Private.Rules.{opens};
ghost use Rattle.jp_query.specs.Private.NameCharacters.{is_one_of};
ghost use Rattle.jp_query.specs.Private.Reading.{read_flat};

use crate::lists::append_char;
use jp_reading::{CharacterClass, Reader, Stop};

/// Classes of characters in names.
#[derive(Clone, Copy)]
pub(crate) enum NameCharacter {
    /// What begins a member's name (name-first).
    First,
    /// What goes on with a member's name (name-char).
    Member,
    /// What goes on with a function's name (function-name-char, section 2.4).
    Function,
}

impl CharacterClass for NameCharacter {
    ghost holds = { is_one_of };

    fn contains(self, c: char) -> bool {
        match self {
            NameCharacter::First => is_name_first(c),
            NameCharacter::Member => is_name_char(c),
            NameCharacter::Function => is_function_char(c),
        }
    }
}

/// A member's name after a dot.
#[tactic(auto, unfolding(crate::specs::Private::Rules::shorthand))]
pub(crate) fn shorthand(reader: &mut Reader) -> Result<String, Stop>
    ensures { Gives
        (λ s. chars (string_bytes s))
        result
        reader.new
        (read_flat rules.shorthand reader.old) }
{
    let first = reader.take_one_of(NameCharacter::First)?;
    let mut name = String::new(reader.alloc());
    append_char(&mut name, first)?;
    name_from(reader, NameCharacter::Member, name)
}

/// A name with the characters of the class after it that stand next, as many as there are.
pub(crate) fn name_from(
    reader: &mut Reader,
    class: NameCharacter,
    name: String,
) -> Result<String, Stop>
    ensures { Gives
        (λ s. chars (string_bytes s))
        result
        reader.new
        (outcome_map
        (λ w. chars (string_bytes name) ++ w)
        (read_flat (rules.run (is_one_of class)) reader.old)) }
{
    let mut text = name;
    'characters: while reader.is_at_one_of(class) {
        let next = reader.take_one_of(class)?;
        append_char(&mut text, next)?;
    }
    Ok(text)
}

/// Whether a character may begin a shorthand (name-first).
fn is_name_first(c: char) -> bool
    ensures { result ≡ is_name_first c }
{
    matches!(c, 'A'..='Z' | 'a'..='z' | '_' | '\u{80}'..)
}

/// Whether a character may stand in a shorthand (name-char).
#[tactic(auto, unfolding(jp_reading::specs::Numbers::is_digit))]
fn is_name_char(c: char) -> bool
    ensures { result ≡ is_name_char c }
{
    is_name_first(c) || matches!(c, '0'..='9')
}

/// Whether a character may stand in a function's name (function-name-char).
#[tactic(auto, unfolding(jp_reading::specs::Numbers::is_digit))]
fn is_function_char(c: char) -> bool
    ensures { result ≡ is_function_char c }
{
    matches!(c, 'a'..='z' | '_' | '0'..='9')
}

/// Whether a function's name begins here (function-name-first).
pub(crate) fn is_at_function(reader: &Reader) -> bool
    ensures { result ≡ passes is_function_first (head reader.now) }
{
    matches!(reader.peek(), Some('a'..='z'))
}

/// Whether a function's name goes on with that character or ends with it, and it is not the other.
pub(crate) fn goes_on(next: char, other: Option<char>) -> bool
    ensures { result ≡ opens (rules.name_on other) next }
{
    if next == '(' {
        return true;
    }
    match other {
        Some(letter) => is_function_char(next) && next != letter,
        None => is_function_char(next),
    }
}
