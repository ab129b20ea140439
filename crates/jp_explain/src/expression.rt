//! Expressions of filters, explained as the filter of a query.

ghost use Rattle.std.specs.Prelude.{◌≡◌, false, IfOk, IfSome, string_bytes};
ghost use Rattle.std.specs.List.{list_any};
ghost use Rattle.std.specs.Str.{chars};
ghost use Rattle.jp_explain.specs.Shown.{is_hidden};
ghost use Rattle.jp_explain.specs.Suggestion.{IsSuggestedExpression};

use crate::marks::{has_more, is_inside, is_quoted};
use crate::mends::cuts::has;
use crate::place::{characters, split_at_byte};
use crate::reasons::is_file_name;
use crate::shown::has_hidden;
use crate::suggestion::suggestion;
use crate::written::write_word;
use jp_canon::Writer;
use jp_check::{Profile, read_filter};
use jp_query::{Refusal, RefusalKind};
use std::alloc::{AllocError, Global};

/// What stands before the expression of a query that has but one filter.
const FRONT: &str = "$[?";

/// What stands behind it.
const END: &str = "]";

/// A query that has but the one filter with the expression, and the refusal at the same character of it. Where
/// the expression ends before what is open in it is closed, so does the query.
pub(crate) fn as_query(
    alloc: Global,
    text: &str,
    refusal: Refusal,
) -> Result<(String, Refusal), AllocError> {
    let characters = characters(alloc, text)?;
    let (front, rest) = split_at_byte(&characters, refusal.place);
    let mut out = Writer::new(alloc);
    write_word(&mut out, FRONT)?;
    out.text(text)?;
    if !rest.is_empty() || !is_open(front) {
        write_word(&mut out, END)?;
    }
    let place = refusal.place.saturating_add(FRONT.len());
    Ok((out.into_text(), Refusal { place, ..refusal }))
}

/// Whether a bracket, a parenthesis or a quotation mark is open at the end of the text.
fn is_open(text: &[char]) -> bool {
    is_inside(text) || has_more(text, "(", ")") || is_quoted(text)
}

/// Whether the expression is refused as what a file of documents may be called: a name such as `a.json`, without a
/// sign of expressions.
pub(crate) fn is_file(alloc: Global, text: &str, refusal: Refusal) -> Result<bool, AllocError> {
    let name = characters(alloc, text)?;
    let is_syntax = refusal.kind == RefusalKind::Syntax;
    Ok(is_syntax && is_file_name(&name) && !has(&name, "@$ =<>!&|()[]'\"?"))
}

/// An expression that is accepted in the profile: that of the query, which is refused so, with its slips
/// mended. None where there is no such query, or it has more than that filter. The only error is that memory
/// ran out.
pub(crate) fn expression_suggestion(
    alloc: Global,
    query: &str,
    profile: Profile,
    refusal: Refusal,
) -> Result<Option<String>, AllocError>
    ensures { IfOk result (λ found.
        IfSome found (λ text. IsSuggestedExpression profile (chars (string_bytes text)))) }
{
    match suggestion(alloc, query, profile, refusal)? {
        Some(mended) => expression_in(alloc, mended.as_str(), profile),
        None => Ok(None),
    }
}

/// What stands in the one filter of the query, if it is accepted and each character of it is shown.
fn expression_in(alloc: Global, query: &str, profile: Profile) -> Result<Option<String>, AllocError>
    ensures { IfOk result (λ found.
        IfSome found (λ text. IsSuggestedExpression profile (chars (string_bytes text)))) }
{
    let Some(text) = within(query) else {
        return Ok(None);
    };
    if has_hidden(&characters(alloc, text)?) {
        return Ok(None);
    }
    match read_filter(alloc, text, profile) {
        Ok(_) => Ok(Some(String::from_str(alloc, text)?)),
        Err(refusal) if refusal.kind == RefusalKind::NoMemory => Err(AllocError),
        Err(_) => Ok(None),
    }
}

/// What stands between the front and the end of a query with one filter.
fn within(query: &str) -> Option<&str> {
    let rest = query.strip_prefix(FRONT)?;
    rest.strip_suffix(END)
}
