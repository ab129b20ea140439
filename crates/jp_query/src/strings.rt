//! Strings (RFC 9535 section 2.3.1.1, string-literal).

ghost use Rattle.std.specs.Prelude.{◌≡◌, ◌<◌, true, IfOk};
ghost use Rattle.std.specs.Char.{digit_value, InScalarRange};
ghost use Rattle.std.specs.Str.{chars};
ghost use Rattle.std.specs.String.{string_bytes};
ghost use Rattle.jp_reading.specs.Outcome.{head, passes};
ghost use Rattle.jp_reading.specs.Views.{Gives};
ghost use Rattle.jp_query.specs.Strings.{is_plain, is_escapable, escaped};
ghost use Rattle.jp_query.specs.Private.HexDigits.{holds_value, is_one_of, IsUnitAfter, IsUnitOf};
ghost use Rattle.jp_query.specs.Private.Rules as rules;
ghost use Rattle.jp_query.specs.Private.Rules.{begins_character};
ghost use Rattle.jp_query.specs.Private.Reading.{read_flat};

use crate::lists::append_char;
use jp_reading::{CharacterClass, Reader, Stop};

/// A string between two of the quotation mark.
#[tactic(auto, unfolding(crate::specs::Private::Rules::quoted))]
pub(crate) fn quoted(reader: &mut Reader, quote: char) -> Result<String, Stop>
    ensures { Gives
        (λ s. chars (string_bytes s))
        result
        reader.new
        (read_flat (rules.quoted quote) reader.old) }
{
    reader.expect(quote)?;
    let text = characters(reader, quote)?;
    reader.expect(quote)?;
    Ok(text)
}

/// StringCharacter after character, as long as one begins.
fn characters(reader: &mut Reader, quote: char) -> Result<String, Stop>
    ensures { Gives
        (λ s. chars (string_bytes s))
        result
        reader.new
        (read_flat (rules.characters quote) reader.old) }
{
    let mut text = String::new(reader.alloc());
    'characters: while is_at_character(reader, quote) {
        let next = character(reader, quote)?;
        append_char(&mut text, next)?;
    }
    Ok(text)
}

/// Whether a character of the string begins here.
fn is_at_character(reader: &Reader, quote: char) -> bool
    ensures { result ≡ passes (begins_character quote) (head reader.now) }
{
    match reader.peek() {
        Some(next) => is_plain(quote, next) || next == '\\',
        None => false,
    }
}

/// A character that stands for itself, or what an escape stands for.
#[tactic(auto, unfolding(crate::specs::Private::Rules::string_character))]
fn character(reader: &mut Reader, quote: char) -> Result<char, Stop>
    ensures { Gives
        (λ c. c)
        result
        reader.new
        (read_flat (rules.string_character quote) reader.old) }
{
    match reader.peek() {
        Some('\\') => {
            reader.bump();
            escape(reader, quote)
        },
        Some(next) if is_plain(quote, next) => {
            reader.bump();
            Ok(next)
        },
        _ => Err(Stop::Syntax(reader.place())),
    }
}

/// What stands after a backslash.
#[tactic(auto, unfolding(crate::specs::Private::Rules::escape))]
fn escape(reader: &mut Reader, quote: char) -> Result<char, Stop>
    ensures { Gives (λ c. c) result reader.new (read_flat (rules.escape quote) reader.old) }
{
    match reader.peek() {
        Some('u') => {
            reader.bump();
            hexchar(reader)
        },
        Some(letter) if is_escapable(quote, letter) => {
            reader.bump();
            Ok(escaped(letter))
        },
        _ => Err(Stop::Syntax(reader.place())),
    }
}

/// Four hexadecimal digits that write a character, or a surrogate pair in two escapes (hexchar).
#[tactic(auto, unfolding(crate::specs::Private::Rules::hexchar))]
fn hexchar(reader: &mut Reader) -> Result<char, Stop>
    ensures { Gives (λ c. c) result reader.new (read_flat rules.hexchar reader.old) }
{
    if reader.is_at_one_of(HexDigit::NotD) {
        return Ok(scalar(unit(reader, HexDigit::NotD, HexDigit::Any)?));
    }
    let first = digit(reader, HexDigit::D)?;
    if reader.is_at_one_of(HexDigit::UpTo7) {
        return Ok(scalar(unit_after(reader, first, HexDigit::UpTo7)?));
    }
    surrogates_after(reader, first)
}

/// A surrogate pair after its first digit: the other digits of its first half, a backslash, `u`,
/// and the digits of its second half.
#[tactic(auto, unfolding(crate::specs::Private::Rules::surrogates_after))]
fn surrogates_after(reader: &mut Reader, first: u32) -> Result<char, Stop>
    requires { first ≡ 13 }
    ensures { Gives
        (λ c. c)
        result
        reader.new
        (read_flat (rules.surrogates_after first) reader.old) }
{
    let high = unit_after(reader, first, HexDigit::EightToB)?;
    reader.expect('\\')?;
    reader.expect('u')?;
    let low = unit(reader, HexDigit::D, HexDigit::FromC)?;
    Ok(scalar(0x1_0000 + (high - 0xd800) * 0x400 + (low - 0xdc00)))
}

/// Four hexadecimal digits, of which the first two are of these kinds.
#[tactic(auto, unfolding(crate::specs::Private::Rules::unit))]
fn unit(reader: &mut Reader, first: HexDigit, second: HexDigit) -> Result<u32, Stop>
    ensures taken { Gives
        (λ v. v)
        result
        reader.new
        (read_flat (rules.unit (is_one_of first) (is_one_of second)) reader.old) }
    ensures range { IfOk result (λ v. IsUnitOf first second v) }
{
    let a = digit(reader, first)?;
    unit_after(reader, a, second)
}

/// The last three of four hexadecimal digits, of which the second is of this kind, after a first
/// with this value.
#[tactic(auto, unfolding(crate::specs::Private::Rules::unit_after))]
fn unit_after(reader: &mut Reader, a: u32, second: HexDigit) -> Result<u32, Stop>
    requires { a < 16 }
    ensures taken { Gives
        (λ v. v)
        result
        reader.new
        (read_flat (rules.unit_after a (is_one_of second)) reader.old) }
    ensures range { IfOk result (λ v. IsUnitAfter a second v) }
{
    let b = digit(reader, second)?;
    let c = digit(reader, HexDigit::Any)?;
    let d = digit(reader, HexDigit::Any)?;
    Ok(((a * 16 + b) * 16 + c) * 16 + d)
}

/// The value of a hexadecimal digit of that kind.
fn digit(reader: &mut Reader, kind: HexDigit) -> Result<u32, Stop>
    ensures taken { Gives
        (λ v. v)
        result
        reader.new
        (read_flat (rules.hex_digit (is_one_of kind)) reader.old) }
    ensures range { IfOk result (λ v. holds_value kind v ≡ true) }
    ensures below { IfOk result (λ v. v < 16) }
{
    let next = reader.take_one_of(kind)?;
    Ok(value_of(next))
}

/// Kinds of hexadecimal digits, in either case.
#[derive(Clone, Copy)]
enum HexDigit {
    Any,
    NotD,
    D,
    UpTo7,
    EightToB,
    FromC,
}

impl CharacterClass for HexDigit {
    ghost holds = { is_one_of };

    fn contains(self, c: char) -> bool {
        match c.to_digit(16) {
            Some(value) => self.holds_value(value),
            None => false,
        }
    }
}

impl HexDigit {
    /// Whether a digit of this value is of the kind; one of a value from 16 on never is.
    fn holds_value(self, value: u32) -> bool
        ensures { result ≡ holds_value self value }
    {
        match self {
            HexDigit::Any => value < 16,
            HexDigit::NotD => value < 16 && value != 13,
            HexDigit::D => value == 13,
            HexDigit::UpTo7 => value < 8,
            HexDigit::EightToB => value >= 8 && value < 12,
            HexDigit::FromC => value >= 12 && value < 16,
        }
    }
}

/// The value of a hexadecimal digit.
fn value_of(digit: char) -> u32
    requires { digit_value digit < 16 }
    ensures { result ≡ digit_value digit }
{
    digit.to_digit(16).unwrap()
}

/// The character of that scalar value.
fn scalar(code: u32) -> char
    requires { InScalarRange code }
    ensures { result ≡ code }
{
    char::from_u32(code).unwrap()
}

/// Whether a character stands for itself between two of the quotation mark (unescaped).
fn is_plain(quote: char, c: char) -> bool
    ensures { result ≡ is_plain quote c }
{
    c >= ' ' && c != quote && c != '\\'
}

/// Whether a character may follow a backslash between two of the quotation mark, but for `u`
/// (escapable).
fn is_escapable(quote: char, c: char) -> bool
    ensures { result ≡ is_escapable quote c }
{
    c == quote || matches!(c, 'b' | 'f' | 'n' | 'r' | 't' | '/' | '\\')
}

/// What such a character stands for after a backslash.
fn escaped(letter: char) -> char
    ensures { result ≡ escaped letter }
{
    match letter {
        'b' => '\u{8}',
        'f' => '\u{c}',
        'n' => '\n',
        'r' => '\r',
        't' => '\t',
        other => other,
    }
}
