//! Reading the names of normalized paths (RFC 9535 section 2.7).

ghost use Rattle.std.specs.Prelude.{string_bytes};
ghost use Rattle.jp_reading.specs.Views.{Gives};
ghost use Rattle.jp_document.specs.Private.PathRules as rules;
ghost use Rattle.jp_document.specs.Private.PathReading.{read_rule};

use crate::characters::{Characters, hex_value, meant};
use jp_reading::{Reader, Stop};

/// Takes a name between single quotes.
#[tactic(auto, unfolding(crate::specs::Private::PathRules::name))]
pub(crate) fn name(reader: &mut Reader) -> Result<String, Stop>
    ensures { Gives (λ s. string_bytes s) result reader.new (read_rule rules.name reader.old) }
{
    reader.expect('\'')?;
    let name = characters(reader)?;
    reader.expect('\'')?;
    Ok(name)
}

/// Takes the characters of a name, up to the quote that ends it.
fn characters(reader: &mut Reader) -> Result<String, Stop>
    ensures { Gives
        (λ s. string_bytes s)
        result
        reader.new
        (read_rule rules.name_characters reader.old) }
{
    let mut name = String::new(reader.alloc());
    'characters: while reader.is_at_one_of(Characters::Inside) {
        let next = character(reader)?;
        name.push(next)?;
    }
    Ok(name)
}

/// Takes a character of a name, which stands for itself or after `\`.
#[tactic(auto, unfolding(crate::specs::Private::PathRules::name_character))]
fn character(reader: &mut Reader) -> Result<char, Stop>
    ensures { Gives (λ c. c) result reader.new (read_rule rules.name_character reader.old) }
{
    if reader.is_at('\\') {
        reader.bump();
        escaped(reader)
    } else {
        reader.take_one_of(Characters::Plain)
    }
}

/// Takes what stands after `\`: a letter, or `u` and a number.
#[tactic(auto, unfolding(crate::specs::Private::PathRules::escape))]
fn escaped(reader: &mut Reader) -> Result<char, Stop>
    ensures { Gives (λ c. c) result reader.new (read_rule rules.escape reader.old) }
{
    if reader.is_at('u') {
        reader.bump();
        hexchar(reader)
    } else {
        let letter = reader.take_one_of(Characters::Letter)?;
        Ok(meant(letter))
    }
}

/// Takes the number of a character below U+0020 that has no letter: `00` and two lower case
/// hexadecimal digits.
#[tactic(auto, unfolding(crate::specs::Private::PathRules::hexchar))]
fn hexchar(reader: &mut Reader) -> Result<char, Stop>
    ensures { Gives (λ c. c) result reader.new (read_rule rules.hexchar reader.old) }
{
    reader.expect('0')?;
    reader.expect('0')?;
    if reader.is_at('0') {
        reader.bump();
        let low = reader.take_one_of(Characters::LowDigit)?;
        return Ok(char::from(hex_value(low)));
    }
    reader.expect('1')?;
    let low = reader.take_one_of(Characters::HexDigit)?;
    Ok(char::from(16 + hex_value(low)))
}
