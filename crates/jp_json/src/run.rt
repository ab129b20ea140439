//! Runs of characters over which the automaton goes at once.

ghost use Rattle.std.specs.Prelude.{◌≡◌, ◌<◌, IfSome, IsUtf8, length};
ghost use Rattle.jp_reading.specs.Numbers.{is_digit};
ghost use Rattle.jp_reading.specs.Texts.{is_blank};
ghost use Rattle.jp_json.specs.declared.state.Letters.{Letters};
ghost use Rattle.jp_json.specs.declared.state.Role.{Role};
ghost use Rattle.jp_json.specs.declared.state.State.TheVariants as state;
ghost use Rattle.jp_json.specs.Private.Runs.{IsBehindRun, IsBehindText, LeadsOver, FrontPasses};

use crate::lanes::unescaped_front;
use crate::machine::{is_blank, is_digit, is_escapable, is_hex_digit, past_text};
use crate::state::{Letters, Part, Role, State};

/// What is left of a text behind characters that a string has as they are (RFC 8259 section 7).
#[inline(always)]
fn behind_plain(text: &str) -> &str
    ensures run { IsBehindText text.now result.now }
    ensures utf8 { IsUtf8 result.now }
{
    &text[unescaped_front(text.as_bytes())..]
}

/// How many bytes the escape has that begins a text, 0 where none does.
fn escape_size(bytes: &[u8]) -> usize
    ensures { (r : Role) → LeadsOver (state.Text r) (state.Text r) bytes.now result }
{
    if bytes.len() < 2 || bytes[0] != b'\\' {
        return 0;
    }
    if is_escapable(char::from(bytes[1])) {
        return 2;
    }
    if bytes.len() >= 6
        && bytes[1] == b'u'
        && is_hex_digit(char::from(bytes[2]))
        && is_hex_digit(char::from(bytes[3]))
        && is_hex_digit(char::from(bytes[4]))
        && is_hex_digit(char::from(bytes[5]))
    {
        return 6;
    }
    0
}

/// What is left of a text behind an escape that begins it; None where none does.
fn behind_escape(text: &str) -> Option<&str>
    ensures run { IfSome result (λ x. IsBehindText text.now x.now) }
    ensures shorter { IfSome result (λ x. length x.now < length text.now) }
    ensures utf8 { IfSome result (λ x. IsUtf8 x.now) }
{
    match escape_size(text.as_bytes()) {
        0 => None,
        size => Some(&text[size..]),
    }
}

/// What is left of a text behind characters of a string.
#[inline(always)]
fn behind_text(text: &str) -> &str
    ensures run { IsBehindText text.now result.now }
    ensures utf8 { IsUtf8 result.now }
{
    let mut rest = behind_plain(text);
    'escapes: while let Some(after) = behind_escape(rest) {
        rest = behind_plain(after);
    }
    rest
}

/// How many blanks are at the front of a text.
#[inline(always)]
#[tactic(auto, unfolding(jp_reading::specs::Texts::is_blank))]
fn blanks(bytes: &[u8]) -> usize
    ensures { FrontPasses is_blank bytes.now result }
{
    let mut end = 0;
    'bytes: while end < bytes.len()
        && (bytes[end] == b' ' || bytes[end] < b' ' && is_blank(char::from(bytes[end])))
    {
        end += 1;
    }
    end
}

/// How many digits are at the front of a text.
#[inline(always)]
fn digits(bytes: &[u8]) -> usize
    ensures { FrontPasses is_digit bytes.now result }
{
    let mut end = 0;
    'bytes: while end < bytes.len() && is_digit(char::from(bytes[end])) {
        end += 1;
    }
    end
}

/// How many digits at the front of a text go on with that part of a number.
#[inline(always)]
fn more_digits(part: Part, bytes: &[u8]) -> usize
    ensures { LeadsOver (state.Number part) (state.Number part) bytes.now result }
{
    match part {
        Part::Whole | Part::Fraction | Part::Power => digits(bytes),
        _ => 0,
    }
}

/// What comes behind the rest of a literal name where all of it begins a text, and how many bytes it has.
fn behind_letters(letters: Letters, bytes: &[u8]) -> (State, usize)
    ensures { LeadsOver (state.Letters letters) result.0 bytes.now result.1 }
{
    match letters {
        Letters::Rue if bytes.starts_with(b"rue") => (State::After, 3),
        Letters::Alse if bytes.starts_with(b"alse") => (State::After, 4),
        Letters::Ull if bytes.starts_with(b"ull") => (State::After, 3),
        _ => (State::Letters(letters), 0),
    }
}

/// What comes behind the quotation mark that begins a text, and the colon behind that of a name, and how many bytes
/// they are.
#[inline(always)]
fn behind_quote(role: Role, bytes: &[u8]) -> (State, usize)
    ensures { LeadsOver (state.Text role) result.0 bytes.now result.1 }
{
    if bytes.len() == 0 || bytes[0] != b'"' {
        return (State::Text(role), 0);
    }
    match role {
        Role::Key if bytes.len() > 1 && bytes[1] == b':' => (State::Value, 2),
        _ => (past_text(role), 1),
    }
}

/// What comes behind ASCII characters at the front of a text, and how many these are.
#[inline(always)]
fn led(state: State, bytes: &[u8]) -> (State, usize)
    ensures { LeadsOver state result.0 bytes.now result.1 }
{
    match state {
        State::Value | State::Item | State::Member | State::Name | State::Colon | State::After => (
            state,
            blanks(bytes),
        ),
        State::Number(part) => (state, more_digits(part, bytes)),
        State::Text(role) => behind_quote(role, bytes),
        State::Letters(letters) => behind_letters(letters, bytes),
        _ => (state, 0),
    }
}

/// What comes behind them, and what is left of the text.
#[inline(always)]
fn behind_ascii(state: State, text: &str) -> (State, &str)
    ensures run { IsBehindRun state result.0 text.now result.1.now }
    ensures utf8 { IsUtf8 result.1.now }
{
    let (then, size) = led(state, text.as_bytes());
    (then, &text[size..])
}

/// What comes behind characters at the front of a text that open and close no level, and what is left of the text
/// there. Most of a text stands in such, which are gone over byte by byte.
#[inline(always)]
pub(crate) fn behind_run(state: State, text: &str) -> (State, &str)
    ensures run { IsBehindRun state result.0 text.now result.1.now }
    ensures utf8 { IsUtf8 result.1.now }
{
    let rest = match state {
        State::Text(_) => behind_text(text),
        _ => text,
    };
    behind_ascii(state, rest)
}
