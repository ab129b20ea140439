//! A point in a text, and the token that stands there.

ghost use Rattle.std.specs.Prelude.{◌≡◌, ◌≤◌, ◌∷◌, [], true, IfNone, IfSome, None, OnSome, Some, length};
ghost use Rattle.std.specs.Bool.{MatchBool};
ghost use Rattle.json.specs.Align.{is_good};
ghost use Rattle.json.specs.Json.{after_end_array, read_key};
ghost use Rattle.json.specs.Lex.{may_begin, may_close, tokens};
ghost use Rattle.jp_flat.specs.Private.Tokens.{ReadsName, IsSpelledIn, TokenHolds, token_of, expected_of};
ghost use Rattle.jp_flat.specs.Private.Tokens.{tokens_from};

use crate::blanks::past_blanks;
use crate::lexing::{passed, token_at};
use crate::token::{Spelled, Token};
use std::marker::Model;

/// What may stand next in a list or an object.
#[derive(Clone, Copy, Drop)]
pub(crate) enum Expected {
    Fresh,
    AfterValue,
    AfterComma,
}

/// Where a text goes on.
#[derive(Clone, Copy, Drop)]
pub(crate) struct Point {
    pub(crate) at: usize,
    pub(crate) expected: Expected,
}

/// A text from an offset on. A clause sees the text and the tokens that are left.
#[derive(Drop)]
pub(crate) struct Cursor<'t> {
    bytes: &'t [u8],
    point: Point,
}

impl<'t> Model for Cursor<'t> {
    ghost use Rattle.std.specs.Prelude.{◌≤◌, length};
    ghost use Rattle.jp_flat.specs.Private.Tokens.{TokensLeft, tokens_left_code, tokens_from};

    ghost Value = { TokensLeft };

    ghost coded = { tokens_left_code };

    ghost view = { λ a. record { text = a.bytes.now; tokens = tokens_from a.bytes.now a.point } };

    ghost invariant = { λ a. a.point.at ≤ length a.bytes.now };
}

impl<'t> Cursor<'t> {
    /// The start of a text, in which numbers that are not whole are tokens if `exact` says so.
    pub(crate) fn new(bytes: &'t [u8]) -> Cursor<'t>
        ensures tokens { result.tokens ≡ tokens bytes.now }
        ensures text { result.text ≡ bytes.now }
    {
        Cursor {
            bytes,
            point: Point {
                at: past_blanks(bytes, 0),
                expected: Expected::Fresh,
            },
        }
    }

    /// Where it is.
    pub(crate) fn point(&self) -> Point
        ensures tokens { self.now.tokens ≡ tokens_from self.now.text result }
        ensures within { result.at ≤ length self.now.text }
    {
        self.point
    }

    /// Goes back to where it was.
    pub(crate) fn back_to(&mut self, point: Point)
        requires { point.at ≤ length self.old.text }
        ensures tokens { self.new.tokens ≡ tokens_from self.old.text point }
        ensures text { self.new.text ≡ self.old.text }
    {
        self.point = point;
    }

    /// The next token. None where there is none, and where the text is no JSON of whole numbers; a
    /// text whose escapes are none is found only where it is unescaped.
    #[inline(always)]
    pub(crate) fn next<const EXACT: bool>(&mut self) -> Option<Token<'t>>
        ensures reads { IfSome result (λ t. is_good (token_of t) ≡ true
            → self.old.tokens ≡ token_of t ∷ self.new.tokens) }
        ensures stands { IfSome result (TokenHolds self.old.text) }
        ensures same { IfNone result (self.new ≡ self.old) }
        ensures text { self.new.text ≡ self.old.text }
    {
        let (token, point) = token_at::<EXACT>(self.bytes, self.point)?;
        self.point.at = point.at;
        self.point.expected = point.expected;
        Some(token)
    }

    /// The next name, or None in it at the end of an object.
    #[inline(always)]
    pub(crate) fn next_name(&mut self) -> Option<Option<Spelled<'t>>>
        ensures reads { IfSome result (ReadsName self.old.tokens self.new.tokens) }
        ensures stands { IfSome result (λ o. IfSome o (IsSpelledIn self.old.text)) }
        ensures text { self.new.text ≡ self.old.text }
    {
        let token = self.next::<false>()?;
        match token {
            Token::Key(name) => Some(Some(name)),
            Token::EndObject => Some(None),
            _ => None,
        }
    }

    /// Takes the end of a list, if it stands here.
    #[inline(always)]
    pub(crate) fn take_end_array(&mut self) -> bool
        ensures takes { MatchBool result (after_end_array self.old.tokens ≡ Some self.new.tokens)
            (self.new ≡ self.old) }
        ensures text { self.new.text ≡ self.old.text }
    {
        let at = self.point.at;
        if at < self.bytes.len() && self.bytes[at] == b']' && may_close(self.point.expected) {
            let point = passed(self.bytes, at + 1);
            self.point.at = point.at;
            self.point.expected = point.expected;
            return true;
        }
        false
    }

    /// Takes the end of an object, if it stands here.
    #[inline(always)]
    pub(crate) fn take_end_object(&mut self) -> bool
        ensures takes { MatchBool result (read_key self.old.tokens ≡ Some (None, self.new.tokens))
            (self.new ≡ self.old) }
        ensures text { self.new.text ≡ self.old.text }
    {
        let at = self.point.at;
        if at < self.bytes.len() && self.bytes[at] == b'}' && may_close(self.point.expected) {
            let point = passed(self.bytes, at + 1);
            self.point.at = point.at;
            self.point.expected = point.expected;
            return true;
        }
        false
    }

    /// Whether the text ends here, as it may.
    pub(crate) fn is_done(&self) -> bool
        ensures { result ≡ true → self.now.tokens ≡ [] }
    {
        self.point.at == self.bytes.len() && may_close(self.point.expected)
    }
}

/// Whether a value may begin, or a name.
#[inline(always)]
pub(crate) fn may_begin(expected: Expected) -> bool
    ensures { result ≡ may_begin (expected_of expected) }
{
    matches!(expected, Expected::Fresh | Expected::AfterComma)
}

/// Whether a list or an object may end.
#[inline(always)]
pub(crate) fn may_close(expected: Expected) -> bool
    ensures { result ≡ may_close (expected_of expected) }
{
    matches!(expected, Expected::Fresh | Expected::AfterValue)
}
