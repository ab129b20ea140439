//! Whether bytes are told to be no JSON text by their tokens, of which nothing is kept (RFC 8259).

ghost use Rattle.std.specs.Prelude.{◌≡◌, ◌≢◌, ◌<◌, ◌≤◌, [], IfErr, IfNone, IfSome, List, OnOk, OnSome, Some, length};
ghost use Rattle.std.specs.Prelude.{true};
ghost use Rattle.json.specs.Align.{is_good};
ghost use Rattle.json.specs.Json.{skip_value};
ghost use Rattle.json.specs.Reads.{skip_items, skip_members};
ghost use Rattle.json.specs.Token.{Token as JsonToken};
ghost use Rattle.jp_document.specs.Document.{HasDefect, not_json};
ghost use Rattle.jp_document.specs.OfJson.{IsNoText};
ghost use Rattle.jp_flat.specs.Private.NoJson.{Halts, IsAhead, HasNoItems, HasNoMembers, HasNoValue};
ghost use Rattle.jp_flat.specs.Private.NoJson.{IsOfKind};
ghost use Rattle.jp_flat.specs.Private.Tokens.{token_of};

use crate::cursor::Cursor;
use crate::met::{Met, what_stands};
use crate::passing::pass_text;
use crate::tables::MAX_DEPTH;
use crate::token::Token;
use std::alloc::Global;

/// What a token is to the value that it stands in.
#[derive(Clone, Copy, PartialEq, Eq)]
pub(crate) enum TokenKind {
    BeginArray,
    EndArray,
    BeginObject,
    EndObject,
    Key,
    /// A value without parts.
    Leaf,
}

/// Why no value is passed over.
#[derive(Clone, Copy, PartialEq, Eq)]
pub(crate) enum Impasse {
    /// None stands there.
    NoValue,
    /// None stands there if no token does where the cursor is now.
    Here,
}

/// Whether the bytes are told to be no JSON value of at most 127 levels. `false` says nothing of them.
pub fn is_no_json(alloc: Global, bytes: &[u8]) -> bool
    ensures whole { result ≡ true → HasDefect bytes.now not_json }
    ensures text { result ≡ true → IsNoText bytes.now }
{
    let Ok(text) = simdutf8::basic::from_utf8(bytes) else {
        return true;
    };
    let mut cursor = Cursor::new(text.as_bytes());
    match pass(&mut cursor, MAX_DEPTH) {
        Err(Impasse::NoValue) => true,
        Err(Impasse::Here) => !matches!(what_stands(alloc, bytes, cursor.point()), Met::Other),
        Ok(()) => goes_on(alloc, bytes, &mut cursor),
    }
}

/// Whether a text is told to go on where the cursor is.
fn goes_on(alloc: Global, bytes: &[u8], cursor: &mut Cursor<'_>) -> bool
    requires { cursor.old.text ≡ bytes.now }
    ensures { result ≡ true → cursor.old.tokens ≢ [] }
{
    match next(cursor) {
        Some(_) => true,
        None => matches!(what_stands(alloc, bytes, cursor.point()), Met::Fault),
    }
}

/// What a token is, where it is one: an escape in it may be none.
#[inline(always)]
fn kind_of(token: Token<'_>) -> Option<TokenKind>
    ensures kind { IfSome result (λ k. IsOfKind k (token_of token.entry)) }
    ensures good { OnSome result (is_good (token_of token.entry) ≡ true) }
{
    match token {
        Token::BeginArray => Some(TokenKind::BeginArray),
        Token::EndArray => Some(TokenKind::EndArray),
        Token::BeginObject => Some(TokenKind::BeginObject),
        Token::EndObject => Some(TokenKind::EndObject),
        Token::Key(name) => {
            pass_text(name)?;
            Some(TokenKind::Key)
        }
        Token::Text(text) => {
            pass_text(text)?;
            Some(TokenKind::Leaf)
        }
        Token::Number(_, _) | Token::Numeral(_, _) | Token::Bool(_) | Token::Null => Some(
            TokenKind::Leaf,
        ),
    }
}

/// Takes the next token. None, and nothing is taken, where none is told.
#[inline(always)]
fn next(cursor: &mut Cursor<'_>) -> Option<TokenKind>
    ensures ahead { IfSome result (λ k. IsAhead cursor.old.tokens k cursor.new.tokens) }
    ensures same { IfNone result (cursor.new ≡ cursor.old) }
    ensures text { cursor.new.text ≡ cursor.old.text }
{
    let before = cursor.point();
    let token = cursor.next::<false>()?;
    match kind_of(token) {
        Some(kind) => Some(kind),
        None => {
            cursor.back_to(before);
            None
        }
    }
}

/// Passes over one value, nested no deeper than so.
#[cycle(no_json)]
fn pass(cursor: &mut Cursor<'_>, depth: usize) -> Result<(), Impasse>
    ensures passed { OnOk result (skip_value depth cursor.old.tokens ≡ Some cursor.new.tokens) }
    ensures halted { IfErr result (λ h. Halts h cursor.new.tokens (HasNoValue depth cursor.old.tokens)) }
    ensures shorter { OnOk result (length cursor.new.tokens < length cursor.old.tokens) }
    ensures text { cursor.new.text ≡ cursor.old.text }
{
    match next(cursor) {
        Some(kind) => pass_behind(cursor, depth, kind),
        None => Err(Impasse::Here),
    }
}

/// Passes over what is left of the value that a token of that kind begins.
#[cycle(no_json)]
#[inline(always)]
fn pass_behind(cursor: &mut Cursor<'_>, depth: usize, kind: TokenKind) -> Result<(), Impasse>
    ensures passed { OnOk result ((ts : List JsonToken) → IsAhead ts kind cursor.old.tokens
        → skip_value depth ts ≡ Some cursor.new.tokens) }
    ensures halted { IfErr result (λ h. (ts : List JsonToken) → IsAhead ts kind cursor.old.tokens
        → Halts h cursor.new.tokens (HasNoValue depth ts)) }
    ensures shorter { OnOk result (length cursor.new.tokens ≤ length cursor.old.tokens) }
    ensures text { cursor.new.text ≡ cursor.old.text }
{
    match kind {
        TokenKind::Leaf => Ok(()),
        TokenKind::BeginArray => {
            if depth == 0 {
                return Err(Impasse::NoValue);
            }
            pass_items(cursor, depth - 1)
        }
        TokenKind::BeginObject => {
            if depth == 0 {
                return Err(Impasse::NoValue);
            }
            pass_members(cursor, depth - 1)
        }
        TokenKind::EndArray | TokenKind::EndObject | TokenKind::Key => Err(Impasse::NoValue),
    }
}

/// Passes over the items of a list, and its end.
#[cycle(no_json)]
#[inline(never)]
fn pass_items(cursor: &mut Cursor<'_>, depth: usize) -> Result<(), Impasse>
    ensures passed { OnOk result (skip_items depth cursor.old.tokens ≡ Some cursor.new.tokens) }
    ensures halted { IfErr result (λ h. Halts h cursor.new.tokens (HasNoItems depth cursor.old.tokens)) }
    ensures shorter { OnOk result (length cursor.new.tokens < length cursor.old.tokens) }
    ensures text { cursor.new.text ≡ cursor.old.text }
{
    'items: loop {
        match next(cursor) {
            Some(TokenKind::EndArray) => return Ok(()),
            Some(kind) => match pass_behind(cursor, depth, kind) {
                Ok(()) => {}
                Err(halt) => return Err(halt),
            },
            None => return Err(Impasse::Here),
        }
    }
}

/// Passes over the members of an object, and its end.
#[cycle(no_json)]
#[inline(never)]
fn pass_members(cursor: &mut Cursor<'_>, depth: usize) -> Result<(), Impasse>
    ensures passed { OnOk result (skip_members depth cursor.old.tokens ≡ Some cursor.new.tokens) }
    ensures halted { IfErr result (λ h. Halts h cursor.new.tokens (HasNoMembers depth cursor.old.tokens)) }
    ensures shorter { OnOk result (length cursor.new.tokens < length cursor.old.tokens) }
    ensures text { cursor.new.text ≡ cursor.old.text }
{
    'members: loop {
        match next(cursor) {
            Some(TokenKind::EndObject) => return Ok(()),
            Some(TokenKind::Key) => match pass(cursor, depth) {
                Ok(()) => {}
                Err(halt) => return Err(halt),
            },
            Some(_) => return Err(Impasse::NoValue),
            None => return Err(Impasse::Here),
        }
    }
}
