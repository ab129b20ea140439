//! The reader: a text, where reading stands in it, and the spans of the components before it.

ghost use Rattle.std.specs.Prelude.{◌≡◌, ◌∷◌, [], ◌+◌, true, length};
ghost use Rattle.std.specs.Prelude.{MatchOption, IfSome, IfOk, IfErr, OnOk, OnErr};
ghost use Rattle.std.specs.Char.{len_utf8};
ghost use Rattle.std.specs.Str.{chars, IsUtf8};
ghost use Rattle.jp_reading.specs.Texts.{is_blank};
ghost use Rattle.jp_reading.specs.Outcome.{State, head, passes, past, skip, after_blank};
ghost use Rattle.jp_reading.specs.Texts.{first_of};
ghost use Rattle.jp_reading.specs.Outcome.{is_at, take_if, expect, component_since, omit};
ghost use Rattle.jp_reading.specs.Views.{Gives};

use crate::character_class::CharacterClass;
use crate::span::Span;
use std::alloc::{AllocError, Global};
use std::marker::Model;

/// Why reading stops.
#[derive(Clone, Copy, PartialEq, Eq, Debug)]
pub enum Stop {
    /// Memory ran out.
    Memory,
    /// No text of the grammar has the character at this byte, or the end, where it stands.
    Syntax(usize),
    /// At this byte the text goes a level further in than is allowed.
    TooDeep(usize),
}

impl From<AllocError> for Stop {
    ghost use Rattle.jp_reading.specs.declared.reader.Stop.{Stop};
    ghost use Rattle.jp_reading.specs.declared.reader.Stop.TheVariants.{Memory};

    ghost from_gives = { λ _ s. s ≡ Memory };

    fn from(_: AllocError) -> Stop {
        Stop::Memory
    }
}

/// The first character of a text and the text after it; None at the end.
pub fn split_first(text: &str) -> Option<(char, &str)>
    ensures parts { MatchOption
        result
        (chars text.now ≡ [])
        (λ x. (chars text.now ≡ x.0 ∷ chars x.1.now)
        × (length text.now ≡ len_utf8 x.0 + length x.1.now)) }
    ensures text { IfSome result (λ x. IsUtf8 x.1.now) }
{
    let mut characters = text.chars();
    let first = characters.next()?;
    Some((first, characters.as_str()))
}

/// A text on its way through a grammar's rules. Places are bytes from the text's start.
#[derive(Drop)]
pub struct Reader<'t> {
    alloc: Global,
    rest: &'t str,
    place: usize,
    spans: Vec<Option<Span>>,
}

impl<'t> Model for Reader<'t> {
    ghost use Rattle.std.specs.Prelude.{◌+◌, ◌^◌, ◌<◌, length};
    ghost use Rattle.std.specs.Str.{chars};
    ghost use Rattle.jp_reading.specs.Outcome.{State};

    ghost Value = { State };

    ghost view = { λ r. record { at = r.place; rest = chars r.rest.now; found = r.spans.items } };

    ghost invariant = { λ r. r.place + length r.rest.now < 2 ^ 64 };
}

impl<'t> Reader<'t> {
    /// A reader at the start of the text, with no component passed.
    pub fn new(alloc: Global, text: &'t str) -> Reader<'t>
        ensures { result ≡ record { at = 0; rest = chars text.now; found = [] } }
    {
        Reader {
            alloc,
            rest: text,
            place: 0,
            spans: Vec::new(alloc),
        }
    }

    /// The byte where the reader stands.
    pub fn place(&self) -> usize
        ensures { result ≡ self.now.at }
    {
        self.place
    }

    /// The next character; None at the end.
    pub fn peek(&self) -> Option<char>
        ensures { result ≡ head self.now }
    {
        first_of(self.rest)
    }

    /// The character after the next; None where there is none.
    pub fn peek_second(&self) -> Option<char>
        ensures { result ≡ head (past self.now) }
    {
        match split_first(self.rest) {
            Some((_, rest)) => first_of(rest),
            None => None,
        }
    }

    /// Takes the next character; None at the end, where the reader stays.
    pub fn bump(&mut self) -> Option<char>
        ensures next { result ≡ head self.old }
        ensures past { self.new ≡ past self.old }
    {
        match split_first(self.rest) {
            Some((first, rest)) => {
                self.place += first.len_utf8();
                self.rest = rest;
                Some(first)
            },
            None => None,
        }
    }

    /// Takes all blanks that stand next.
    pub fn skip(&mut self)
        ensures { self.new ≡ skip self.old }
    {
        'blanks: while self.is_at_blank() {
            self.bump();
        }
    }

    /// Whether the next character is a blank; at the end of the text none is.
    fn is_at_blank(&self) -> bool
        ensures { result ≡ passes is_blank (head self.now) }
    {
        match self.peek() {
            Some(next) => is_blank(next),
            None => false,
        }
    }

    /// Whether the next character is `wanted`.
    pub fn is_at(&self, wanted: char) -> bool
        ensures { result ≡ is_at wanted self.now }
    {
        self.peek() == Some(wanted)
    }

    /// Whether the next character is of this class.
    pub fn is_at_one_of<C: CharacterClass>(&self, class: C) -> bool
        ensures { result ≡ passes (C.holds class) (head self.now) }
    {
        match self.peek() {
            Some(next) => class.contains(next),
            None => false,
        }
    }

    /// Takes the next character, which has to be of this class: else, also at the text's end, the
    /// answer is `Syntax` at the byte where the reader stands, and it stays.
    pub fn take_one_of<C: CharacterClass>(&mut self, class: C) -> Result<char, Stop>
        ensures taken { Gives (λ c. c) result self.new (take_if (C.holds class) self.old) }
        ensures member { IfOk result (λ c. C.holds class c ≡ true) }
        ensures refused { IfErr result
            (λ stop. (stop ≡ Stop.Syntax self.old.at) × (self.new ≡ self.old)) }
    {
        match split_first(self.rest) {
            Some((next, rest)) if class.contains(next) => {
                self.place += next.len_utf8();
                self.rest = rest;
                Ok(next)
            },
            _ => Err(Stop::Syntax(self.place)),
        }
    }

    /// Takes the next character. It has to be `wanted`: else the answer is `Syntax` at its byte,
    /// and the reader stays.
    pub fn expect(&mut self, wanted: char) -> Result<(), Stop>
        ensures taken { Gives (λ _. wanted) result self.new (expect wanted self.old) }
        ensures refused { IfErr result
            (λ stop. (stop ≡ Stop.Syntax self.old.at) × (self.new ≡ self.old)) }
    {
        if !self.is_at(wanted) {
            return Err(Stop::Syntax(self.place));
        }
        self.bump();
        Ok(())
    }

    /// The next character that is no blank; the reader stays before the blanks.
    pub fn peek_past_blank(&self) -> Option<char>
        ensures { result ≡ after_blank self.now }
    {
        first_past_blanks(self.rest)
    }

    /// Whether the next character that is no blank is `wanted`.
    pub fn is_before(&self, wanted: char) -> bool
        ensures { result ≡ is_at wanted (skip self.now) }
    {
        self.peek_past_blank() == Some(wanted)
    }

    /// How many components the reader has passed.
    pub fn components(&self) -> usize
        ensures { result ≡ length self.now.found }
    {
        self.spans.len()
    }

    /// Ends a component here that began at the byte `start`, when the reader had passed `before`
    /// components: its span goes in before the spans of the components inside it. Where memory runs
    /// out the reader stays as it was.
    pub fn add_component(&mut self, start: usize, before: usize) -> Result<(), AllocError>
        ensures added { OnOk result (self.new ≡ component_since start before self.old) }
        ensures refused { OnErr result (self.new ≡ self.old) }
    {
        let span = Span {
            start,
            end: self.place,
        };
        if before < self.components() {
            self.spans.insert(before, Some(span))?;
        } else {
            self.spans.push(Some(span))?;
        }
        Ok(())
    }

    /// Counts a component that the text omits: it has no span. Where memory runs out the reader stays
    /// as it was.
    pub fn omit_component(&mut self) -> Result<(), AllocError>
        ensures added { OnOk result (self.new ≡ omit self.old) }
        ensures refused { OnErr result (self.new ≡ self.old) }
    {
        self.spans.push(None)?;
        Ok(())
    }

    /// The allocator of the reader's answers.
    pub fn alloc(&self) -> Global {
        self.alloc
    }

    /// The spans of the components that the reader has passed, an outer component's before those
    /// inside it.
    pub fn into_spans(self) -> Vec<Option<Span>>
        ensures { result.items ≡ self.entry.found }
    {
        let Reader {
            alloc: _,
            rest: _,
            place: _,
            spans,
        } = self;
        spans
    }
}

/// Whether a character is a blank: a space, a tab, a line feed or a carriage return (RFC 9535 section
/// 2.1.1).
#[tactic(auto, unfolding(crate::specs::Texts::is_blank))]
fn is_blank(c: char) -> bool
    ensures { result ≡ is_blank c }
{
    matches!(c, ' ' | '\t' | '\n' | '\r')
}

/// The first character of a text; None of the empty text.
fn first_of(text: &str) -> Option<char>
    ensures { result ≡ first_of (chars text.now) }
{
    match split_first(text) {
        Some((first, _)) => Some(first),
        None => None,
    }
}

/// The first character of a text that is no blank; None where the text has blanks alone, or nothing.
fn first_past_blanks(text: &str) -> Option<char>
    ensures { result ≡ after_blank (record { at = 0; rest = chars text.now; found = [] }) }
{
    let mut rest = text;
    'blanks: while let Some((first, after)) = split_first(rest) {
        if !is_blank(first) {
            return Some(first);
        }
        rest = after;
    }
    None
}
