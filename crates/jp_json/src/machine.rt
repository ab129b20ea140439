//! What each character of a JSON text does (RFC 8259).

ghost use Rattle.std.specs.Prelude.{◌≡◌, ◌==◌};
ghost use Rattle.jp_reading.specs.Numbers.{is_digit, is_leading_digit};
ghost use Rattle.jp_reading.specs.Texts.{is_blank};
ghost use Rattle.jp_json.specs.Grammar.{is_unescaped, is_escapable, is_hex_digit, is_e, is_sign};
ghost use Rattle.jp_json.specs.Private.Machine.{after_comma, closing, begin_value, begin_name};
ghost use Rattle.jp_json.specs.Private.Machine.{after_value, past_text, in_text, in_escape, past_hex};
ghost use Rattle.jp_json.specs.Private.Machine.{letter, past_letter, in_number, step, first_in};
ghost use Rattle.jp_json.specs.Private.Machine.{or_exponent, may_end, ends_number};

use crate::state::{Letters, Level, Part, Role, State, Step, Wanted};

/// Whether the character is a space, a tab, a line feed or a carriage return (section 2).
#[tactic(auto, unfolding(jp_reading::specs::Texts::is_blank))]
pub(crate) fn is_blank(c: char) -> bool
    ensures { result ≡ is_blank c }
{
    matches!(c, ' ' | '\t' | '\n' | '\r')
}

/// Whether the character is one of `0` to `9`.
#[tactic(auto, unfolding(jp_reading::specs::Numbers::is_digit))]
pub(crate) fn is_digit(c: char) -> bool
    ensures { result ≡ is_digit c }
{
    matches!(c, '0'..='9')
}

/// Whether the character is one of `1` to `9` (section 6).
fn is_leading_digit(c: char) -> bool
    ensures { result ≡ is_leading_digit c }
{
    matches!(c, '1'..='9')
}

/// Whether a string may have the character as it is (section 7).
fn is_unescaped(c: char) -> bool
    ensures { result ≡ is_unescaped c }
{
    c >= ' ' && c != '"' && c != '\\'
}

/// Whether the character may stand after a backslash alone (section 7).
pub(crate) fn is_escapable(c: char) -> bool
    ensures { result ≡ is_escapable c }
{
    matches!(c, '"' | '\\' | '/' | 'b' | 'f' | 'n' | 'r' | 't')
}

/// Whether the character is a hexadecimal digit.
pub(crate) fn is_hex_digit(c: char) -> bool
    ensures { result ≡ is_hex_digit c }
{
    is_digit(c) || matches!(c, 'A'..='F' | 'a'..='f')
}

/// Whether an exponent begins with the character (section 6).
fn is_e(c: char) -> bool
    ensures { result ≡ is_e c }
{
    matches!(c, 'e' | 'E')
}

/// Whether the character may be the sign of an exponent (section 6).
fn is_sign(c: char) -> bool
    ensures { result ≡ is_sign c }
{
    matches!(c, '-' | '+')
}

/// What comes first in a level.
pub(crate) fn first_in(level: Level) -> State
    ensures { result ≡ first_in level }
{
    match level {
        Level::Array => State::Item,
        Level::Object => State::Member,
    }
}

/// What a comma after a value does: a value comes next in an array, a name in an object, and outside of
/// both none may stand.
fn after_comma(top: Option<Level>) -> Step
    ensures { result ≡ after_comma top }
{
    match top {
        None => Step::Stuck,
        Some(Level::Array) => Step::Go(State::Value),
        Some(Level::Object) => Step::Go(State::Name),
    }
}

/// What the bracket that closes such a level does, where `top` is the innermost open.
fn closing(level: Level, top: Option<Level>) -> Step
    ensures { result ≡ closing level top }
{
    match (level, top) {
        (Level::Array, Some(Level::Array)) | (Level::Object, Some(Level::Object)) => Step::Close,
        _ => Step::Stuck,
    }
}

/// What a character does where a value has to begin (section 3).
#[tactic(auto, unfolding(jp_reading::specs::Texts::is_blank))]
fn begin_value(c: char) -> Step
    ensures { result ≡ begin_value c }
{
    match c {
        '"' => Step::Go(State::Text(Role::Plain)),
        _ if is_leading_digit(c) => Step::Go(State::Number(Part::Whole)),
        '[' => Step::Open(Level::Array),
        '{' => Step::Open(Level::Object),
        _ if is_blank(c) => Step::Go(State::Value),
        '-' => Step::Go(State::Number(Part::Minus)),
        '0' => Step::Go(State::Number(Part::Zero)),
        't' => Step::Go(State::Letters(Letters::Rue)),
        'f' => Step::Go(State::Letters(Letters::Alse)),
        'n' => Step::Go(State::Letters(Letters::Ull)),
        _ => Step::Stuck,
    }
}

/// What a character does where a member's name has to begin (section 4).
#[tactic(auto, unfolding(jp_reading::specs::Texts::is_blank))]
fn begin_name(c: char) -> Step
    ensures { result ≡ begin_name c }
{
    match c {
        '"' => Step::Go(State::Text(Role::Key)),
        _ if is_blank(c) => Step::Go(State::Name),
        _ => Step::Stuck,
    }
}

/// What a character does after a value, where `top` is the innermost level open.
#[tactic(auto, unfolding(jp_reading::specs::Texts::is_blank))]
fn after_value(top: Option<Level>, c: char) -> Step
    ensures { result ≡ after_value top c }
{
    match c {
        ',' => after_comma(top),
        ']' => closing(Level::Array, top),
        '}' => closing(Level::Object, top),
        _ if is_blank(c) => Step::Go(State::After),
        _ => Step::Stuck,
    }
}

/// What comes after a string: a colon after a member's name, else a comma or an end.
pub(crate) fn past_text(role: Role) -> State
    ensures { result ≡ past_text role }
{
    match role {
        Role::Key => State::Colon,
        Role::Plain => State::After,
    }
}

/// What a character does in a string (section 7).
fn in_text(role: Role, c: char) -> Step
    ensures { result ≡ in_text role c }
{
    match c {
        _ if is_unescaped(c) => Step::Go(State::Text(role)),
        '"' => Step::Go(past_text(role)),
        '\\' => Step::Go(State::Escape(role)),
        _ => Step::Stuck,
    }
}

/// What a character does right after a backslash (section 7).
fn in_escape(role: Role, c: char) -> Step
    ensures { result ≡ in_escape role c }
{
    match c {
        _ if is_escapable(c) => Step::Go(State::Text(role)),
        'u' => Step::Go(State::Hex(role, Wanted::Four)),
        _ => Step::Stuck,
    }
}

/// What comes after a hexadecimal digit of an escape, where so many were still wanted (section 7).
fn past_hex(role: Role, wanted: Wanted) -> State
    ensures { result ≡ past_hex role wanted }
{
    match wanted {
        Wanted::Four => State::Hex(role, Wanted::Three),
        Wanted::Three => State::Hex(role, Wanted::Two),
        Wanted::Two => State::Hex(role, Wanted::Last),
        Wanted::Last => State::Text(role),
    }
}

/// The first of the letters that are still wanted.
fn letter(letters: Letters) -> char
    ensures { result ≡ letter letters }
{
    match letters {
        Letters::Rue => 'r',
        Letters::Ue | Letters::Ull => 'u',
        Letters::E => 'e',
        Letters::Alse => 'a',
        Letters::Lse | Letters::Ll | Letters::L => 'l',
        Letters::Se => 's',
    }
}

/// What comes after the first of the letters that are still wanted.
fn past_letter(letters: Letters) -> State
    ensures { result ≡ past_letter letters }
{
    match letters {
        Letters::Rue => State::Letters(Letters::Ue),
        Letters::Ue | Letters::Se => State::Letters(Letters::E),
        Letters::E | Letters::L => State::After,
        Letters::Alse => State::Letters(Letters::Lse),
        Letters::Lse => State::Letters(Letters::Se),
        Letters::Ull => State::Letters(Letters::Ll),
        Letters::Ll => State::Letters(Letters::L),
    }
}

/// On to the exponent, or past the number.
fn exponent_or_after(top: Option<Level>, c: char) -> Step
    ensures { result ≡ or_exponent c (after_value top c) }
{
    if is_e(c) {
        Step::Go(State::Number(Part::Exponent))
    } else {
        after_value(top, c)
    }
}

/// What a character does after that part of a number (section 6).
fn in_number(part: Part, top: Option<Level>, c: char) -> Step
    ensures { result ≡ in_number part top c }
{
    match part {
        Part::Minus if is_leading_digit(c) => Step::Go(State::Number(Part::Whole)),
        Part::Minus if c == '0' => Step::Go(State::Number(Part::Zero)),
        Part::Minus => Step::Stuck,
        Part::Whole if is_digit(c) => Step::Go(State::Number(Part::Whole)),
        Part::Zero | Part::Whole if c == '.' => Step::Go(State::Number(Part::Point)),
        Part::Zero | Part::Whole => exponent_or_after(top, c),
        Part::Point | Part::Fraction if is_digit(c) => Step::Go(State::Number(Part::Fraction)),
        Part::Point => Step::Stuck,
        Part::Fraction => exponent_or_after(top, c),
        Part::Exponent | Part::Sign | Part::Power if is_digit(c) => {
            Step::Go(State::Number(Part::Power))
        }
        Part::Exponent if is_sign(c) => Step::Go(State::Number(Part::Sign)),
        Part::Exponent | Part::Sign => Step::Stuck,
        Part::Power => after_value(top, c),
    }
}

/// What a character does, where that level is the innermost open.
pub(crate) fn step(top: Option<Level>, state: State, c: char) -> Step
    ensures { result ≡ step top state c }
{
    match state {
        State::Value => begin_value(c),
        State::Item if c == ']' => closing(Level::Array, top),
        State::Item if is_blank(c) => Step::Go(State::Item),
        State::Item => begin_value(c),
        State::Member if c == '}' => closing(Level::Object, top),
        State::Member if is_blank(c) => Step::Go(State::Member),
        State::Member => begin_name(c),
        State::Name => begin_name(c),
        State::Colon if is_blank(c) => Step::Go(State::Colon),
        State::Colon if c == ':' => Step::Go(State::Value),
        State::Colon => Step::Stuck,
        State::After => after_value(top, c),
        State::Text(role) => in_text(role, c),
        State::Escape(role) => in_escape(role, c),
        State::Hex(role, wanted) if is_hex_digit(c) => Step::Go(past_hex(role, wanted)),
        State::Hex(_, _) => Step::Stuck,
        State::Number(part) => in_number(part, top, c),
        State::Letters(letters) if c == letter(letters) => Step::Go(past_letter(letters)),
        State::Letters(_) => Step::Stuck,
    }
}

/// Whether a number may end after that part.
pub(crate) fn ends_number(part: Part) -> bool
    ensures { result ≡ ends_number part }
{
    matches!(
        part,
        Part::Zero | Part::Whole | Part::Fraction | Part::Power
    )
}

/// Whether the text may end so, where no level is open.
pub(crate) fn may_end(state: State) -> bool
    ensures { result ≡ may_end state }
{
    match state {
        State::After => true,
        State::Number(part) => ends_number(part),
        _ => false,
    }
}
