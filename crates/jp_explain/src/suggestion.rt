//! Suggestions: queries that are accepted.

ghost use Rattle.std.specs.Prelude.{◌≡◌, false, IfOk, IfSome, string_bytes};
ghost use Rattle.std.specs.List.{list_any};
ghost use Rattle.std.specs.Str.{chars};
ghost use Rattle.jp_explain.specs.Shown.{is_hidden};
ghost use Rattle.jp_explain.specs.Suggestion.{IsQuery, IsSuggested};
ghost use Rattle.jp_explain.specs.Private.Attempts.{IsSound};

use crate::mends::{Cut, mended};
use crate::place::{characters, split_at_byte};
use crate::reasons::reason_of;
use crate::shown::{has_hidden, show};
use jp_canon::canon;
use jp_check::{Checked, Profile, read_query};
use jp_query::{Refusal, RefusalKind};
use std::alloc::{AllocError, Global};

/// How many slips are mended at most.
const ROUNDS: u32 = 8;

/// How much of a number with a comma in a comparison the characters before a place are.
#[derive(Clone, Copy)]
enum Grouped {
    /// Nothing of it.
    Nothing,
    /// The sign of the comparison.
    Sign,
    /// Digits before the comma.
    Whole,
    /// The comma, and as many digits.
    Group(u32),
}

impl Grouped {
    /// How much of it they are with one more character.
    fn with(self, c: char) -> Grouped {
        match (self, c) {
            (_, '=' | '<' | '>') | (Grouped::Sign, ' ' | '-') => Grouped::Sign,
            (Grouped::Sign | Grouped::Whole, '0'..='9') => Grouped::Whole,
            (Grouped::Whole, ',') => Grouped::Group(0),
            (Grouped::Group(count), '0'..='9') => Grouped::Group(count.saturating_add(1)),
            _ => Grouped::Nothing,
        }
    }
}

/// Whether a number in a comparison may have been written with a comma before three digits, which are read as
/// another selector.
fn has_thousands(text: &[char]) -> bool {
    let mut before = Grouped::Nothing;
    for c in text {
        let after = before.with(*c);
        if matches!(before, Grouped::Group(3)) && !matches!(after, Grouped::Group(_)) {
            return true;
        }
        before = after;
    }
    false
}

/// What reading a mended text comes to.
#[derive(Drop)]
enum Attempt {
    /// It is accepted, and this is how it is told.
    Query(String),
    /// It is refused.
    Refused(String, Refusal),
    /// There is none.
    Nothing,
}

/// A query that is accepted in the profile: the text with its slips mended one after the other,
/// each where the text is then refused. None where a slip is not known, or it is not plain what it
/// meant. The only error is that memory ran out.
pub(crate) fn suggestion(
    alloc: Global,
    text: &str,
    profile: Profile,
    refusal: Refusal,
) -> Result<Option<String>, AllocError>
    ensures { IfOk result
        (λ found. IfSome found (λ query. IsSuggested profile (chars (string_bytes query)))) }
{
    let mut attempt = attempted(alloc, text, profile, refusal)?;
    for _ in 1..ROUNDS {
        attempt = match attempt {
            Attempt::Refused(text, refusal) => attempted(alloc, text.as_str(), profile, refusal)?,
            other => other,
        };
    }
    match attempt {
        Attempt::Query(query) => Ok(Some(query)),
        Attempt::Refused(_, _) | Attempt::Nothing => Ok(None),
    }
}

/// Mends one slip, and reads what that gives.
fn attempted(
    alloc: Global,
    text: &str,
    profile: Profile,
    refusal: Refusal,
) -> Result<Attempt, AllocError>
    ensures { IfOk result (IsSound profile) }
{
    let characters = characters(alloc, text)?;
    let (front, rest) = split_at_byte(&characters, refusal.place);
    let reason = reason_of(refusal.kind, profile.numbers(), front, rest);
    match mended(alloc, reason, Cut { front, rest })? {
        Some(text) => read(alloc, text, profile),
        None => Ok(Attempt::Nothing),
    }
}

/// Reads a text.
fn read(alloc: Global, text: String, profile: Profile) -> Result<Attempt, AllocError>
    ensures { IfOk result (IsSound profile) }
{
    match read_query(alloc, text.as_str(), profile) {
        Ok(query) => plain(alloc, text, &query, profile),
        Err(refusal) if refusal.kind == RefusalKind::NoMemory => Err(AllocError),
        Err(refusal) => Ok(Attempt::Refused(text, refusal)),
    }
}

/// The text of a query as it is, or where a character of it would not be shown, its canonical text, with such
/// characters in quotes as escapes, if that is accepted. None where a comma in a number may make it a list.
fn plain(
    alloc: Global,
    text: String,
    query: &Checked,
    profile: Profile,
) -> Result<Attempt, AllocError>
    requires { IsQuery profile (chars (string_bytes text)) }
    ensures { IfOk result (IsSound profile) }
{
    let written = characters(alloc, text.as_str())?;
    if has_thousands(&written) {
        return Ok(Attempt::Nothing);
    }
    if !has_hidden(&written) {
        return Ok(Attempt::Query(text));
    }
    let canonical = canon(alloc, query)?;
    let shown = show(alloc, &characters(alloc, canonical.as_str())?)?;
    reread(alloc, shown, profile)
}

/// The text, if it is accepted and each character of it is shown.
fn reread(alloc: Global, text: String, profile: Profile) -> Result<Attempt, AllocError>
    ensures { IfOk result (IsSound profile) }
{
    if has_hidden(&characters(alloc, text.as_str())?) {
        return Ok(Attempt::Nothing);
    }
    match read_query(alloc, text.as_str(), profile) {
        Ok(_) => Ok(Attempt::Query(text)),
        Err(refusal) if refusal.kind == RefusalKind::NoMemory => Err(AllocError),
        Err(_) => Ok(Attempt::Nothing),
    }
}
