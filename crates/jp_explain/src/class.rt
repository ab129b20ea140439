//! Classes of characters, and the runs of them at a text's start and end.

ghost use Rattle.std.specs.Prelude.{◌≡◌, ◌≤◌, ◌-◌, length, take, drop};
ghost use Rattle.std.specs.List.{prefix_len, suffix_len};
ghost use Rattle.jp_reading.specs.Numbers.{is_digit};
ghost use Rattle.jp_query.specs.Names.{is_name_first};
ghost use Rattle.jp_explain.specs.Private.Classes.{holds};

use crate::shown::is_hidden;

/// A class of characters.
#[derive(Clone, Copy, Debug, PartialEq, Eq)]
pub(crate) enum Class {
    /// Space, tab, line feed, carriage return (RFC 9535 section 2.1.1).
    Blank,
    /// The first character of a member's name after a dot (section 2.5.1.1).
    NameFirst,
    /// Its characters.
    Name,
    /// `0` to `9`.
    Digit,
    /// All characters but a line feed.
    Line,
    /// A space, and what is not shown as it is.
    Unseen,
    /// A quotation mark other than those of queries.
    Quote,
}

impl Class {
    /// Whether the character is of the class.
    #[tactic(auto, unfolding(jp_reading::specs::Texts::is_blank))]
    pub(crate) fn holds(self, c: char) -> bool
        ensures { result ≡ holds self c }
    {
        match self {
            Class::Blank => matches!(c, ' ' | '\t' | '\n' | '\r'),
            Class::NameFirst => is_name_first(c),
            Class::Name => is_name_first(c) || is_digit(c),
            Class::Digit => is_digit(c),
            Class::Line => c != '\n',
            Class::Unseen => c == ' ' || is_hidden(c),
            Class::Quote => matches!(c, '`' | '\u{2018}'..='\u{2019}' | '\u{201c}'..='\u{201d}'),
        }
    }
}

/// Whether a name after a dot may begin with the character (RFC 9535 section 2.5.1.1).
fn is_name_first(c: char) -> bool
    ensures { result ≡ is_name_first c }
{
    matches!(c, 'A'..='Z' | '_' | 'a'..='z' | '\u{80}'..)
}

/// Whether the character is one of `0` to `9`.
#[tactic(auto, unfolding(jp_reading::specs::Numbers::is_digit))]
fn is_digit(c: char) -> bool
    ensures { result ≡ is_digit c }
{
    matches!(c, '0'..='9')
}

/// How many characters of the class the text begins with.
pub(crate) fn prefix_len(text: &[char], class: Class) -> usize
    ensures count { result ≡ prefix_len (holds class) text.now }
    ensures within { result ≤ length text.now }
{
    let mut count = 0;
    for c in text {
        if !class.holds(*c) {
            break;
        }
        count += 1;
    }
    count
}

/// How many characters of the class the text ends with.
pub(crate) fn suffix_len(text: &[char], class: Class) -> usize
    ensures count { result ≡ suffix_len (holds class) text.now }
    ensures within { result ≤ length text.now }
{
    let mut before = text;
    'back: while let [rest @ .., last] = before {
        if !class.holds(*last) {
            break;
        }
        before = rest;
    }
    text.len() - before.len()
}

/// The text cut after the characters of the class that it begins with.
pub(crate) fn split_prefix(text: &[char], class: Class) -> (&[char], &[char])
    ensures prefix { result.0.now ≡ take (prefix_len (holds class) text.now) text.now }
    ensures after { result.1.now ≡ drop (prefix_len (holds class) text.now) text.now }
{
    text.split_at(prefix_len(text, class))
}

/// The text cut before the characters of the class that it ends with.
pub(crate) fn split_suffix(text: &[char], class: Class) -> (&[char], &[char])
    ensures before { result.0.now
        ≡ take (length text.now - suffix_len (holds class) text.now) text.now }
    ensures suffix { result.1.now
        ≡ drop (length text.now - suffix_len (holds class) text.now) text.now }
{
    text.split_at(text.len() - suffix_len(text, class))
}
