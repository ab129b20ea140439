//! What is told of a refused query.

ghost use Rattle.std.specs.Prelude.{◌≡◌, ◌++◌, true, IfOk, IfSome, string_bytes};
ghost use Rattle.std.specs.Str.{chars};
ghost use Rattle.jp_explain.specs.Explanation.{IsPlacedAt};
ghost use Rattle.jp_reading.specs.Sentences.{is_sentence};
ghost use Rattle.jp_explain.specs.Suggestion.{IsSuggested, IsSuggestedExpression};

use crate::expression::{as_query, expression_suggestion, is_file};
use crate::place::{characters, line_after, line_before, line_feeds, split_at_byte, starting};
use crate::reason::Reason;
use crate::reasons::reason_of;
use crate::shown::show;
use crate::suggestion::suggestion;
use crate::surroundings::Surroundings;
use jp_canon::Writer;
use jp_check::Profile;
use jp_query::Refusal;
use std::alloc::{AllocError, Global};
use unicode_width::UnicodeWidthStr;

/// Where a query is refused and why, and what to try instead.
#[derive(Debug, Drop)]
pub struct Explanation {
    /// The number of the line that holds the place, from 1.
    pub line_number: usize,
    /// Which character of that line is at the place, from 1.
    pub column: usize,
    /// The line as it is shown in a terminal: a control character, or another that a terminal would
    /// not show as one of the line, stands there as `\n`, `\r`, `\t`, or `\u` and four hex digits.
    pub line: String,
    /// How many columns of a terminal the shown line has before the place.
    pub width_before: usize,
    /// Why the query is refused.
    pub reason: Reason,
    /// The sentence for the reason in the surroundings: one line of printable characters, in ASCII.
    pub sentence: &'static str,
    /// A query, or of an expression an expression, that is accepted in the profile, where it is plain what was
    /// meant. None of its characters is one that a terminal would not show.
    pub suggestion: Option<String>,
}

/// Explains the refusal of a query's text in the profile to whoever asks in these surroundings.
///
/// The place may be any byte: one within a character is the start of that character, and one after
/// the text is its end. The reason is told by the refusal's kind and by what is at its place. The
/// suggestion is the text with what is wrong at the place mended, and then at the place where the
/// mended text is refused, at most eight times in all. Each mended text is read in the profile, and
/// only one that is accepted is told, in its canonical text where a character of it would not be shown.
/// The only error is that memory ran out.
pub fn explain(
    alloc: Global,
    text: &str,
    profile: Profile,
    refusal: Refusal,
    surroundings: Surroundings,
) -> Result<Explanation, AllocError>
    ensures place { IfOk result (IsPlacedAt (chars text.now) refusal.place) }
    ensures sentence { IfOk result (λ e. is_sentence e.sentence.now ≡ true) }
    ensures suggestion { IfOk result
        (λ e. IfSome e.suggestion (λ query. IsSuggested profile (chars (string_bytes query)))) }
{
    let suggestion = suggestion(alloc, text, profile, refusal)?;
    let reason = reason_at(alloc, text, profile, refusal)?;
    placed(alloc, text, refusal.place, reason, surroundings, suggestion)
}

/// Explains the refusal of an expression alone, as `read_filter` reads it, in the profile.
///
/// It is explained as the same expression would be in a query that has but the one filter with it. The place
/// and its line are those of the expression's own text, and a suggestion is an expression, which is read
/// as one before it is told. A file's name is told as such. The only error is that memory ran out.
pub fn explain_expression(
    alloc: Global,
    text: &str,
    profile: Profile,
    refusal: Refusal,
    surroundings: Surroundings,
) -> Result<Explanation, AllocError>
    ensures place { IfOk result (IsPlacedAt (chars text.now) refusal.place) }
    ensures sentence { IfOk result (λ e. is_sentence e.sentence.now ≡ true) }
    ensures suggestion { IfOk result (λ e.
        IfSome e.suggestion (λ text. IsSuggestedExpression profile (chars (string_bytes text)))) }
{
    if is_file(alloc, text, refusal)? {
        let reason = Reason::FileFirst;
        return placed(alloc, text, refusal.place, reason, surroundings, None);
    }
    let (query, within) = as_query(alloc, text, refusal)?;
    let suggestion = expression_suggestion(alloc, query.as_str(), profile, within)?;
    let reason = reason_at(alloc, query.as_str(), profile, within)?;
    placed(alloc, text, refusal.place, reason, surroundings, suggestion)
}

/// The reason for which a query's text is refused in the profile.
fn reason_at(
    alloc: Global,
    text: &str,
    profile: Profile,
    refusal: Refusal,
) -> Result<Reason, AllocError> {
    let characters = characters(alloc, text)?;
    let (front, rest) = split_at_byte(&characters, refusal.place);
    Ok(reason_of(refusal.kind, profile.numbers(), front, rest))
}

/// What is told of that byte of the text, for the reason in the surroundings.
fn placed(
    alloc: Global,
    text: &str,
    place: usize,
    reason: Reason,
    surroundings: Surroundings,
    suggestion: Option<String>,
) -> Result<Explanation, AllocError>
    ensures place { IfOk result (IsPlacedAt (chars text.now) place) }
    ensures sentence { IfOk result (λ e. is_sentence e.sentence.now ≡ true) }
    ensures suggestion { IfOk result (λ e. e.suggestion ≡ suggestion) }
{
    let characters = characters(alloc, text)?;
    let (front, rest) = split_at_byte(&characters, place);
    let line = line_before(front, rest);
    let before = show(alloc, line)?;
    let after = show(alloc, line_after(rest))?;
    Ok(Explanation {
        line_number: line_feeds(starting(front, rest)) + 1,
        column: line.len() + 1,
        width_before: before.as_str().width(),
        line: joined(alloc, before.as_str(), after.as_str())?,
        reason,
        sentence: reason.sentence(surroundings),
        suggestion,
    })
}

/// Both texts, one after the other.
fn joined(alloc: Global, before: &str, after: &str) -> Result<String, AllocError>
    ensures { IfOk result
        (λ line. chars (string_bytes line) ≡ chars before.now ++ chars after.now) }
{
    let mut line = Writer::new(alloc);
    line.text(before)?;
    line.text(after)?;
    Ok(line.into_text())
}
