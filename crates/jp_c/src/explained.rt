//! Why a query is refused, told to whoever typed it.

ghost use Rattle.std.specs.Prelude.{◌≡◌, ◌⊎◌, IfOk, string_bytes};
ghost use Rattle.std.specs.Str.{chars, IsUtf8};
ghost use Rattle.jp_check.specs.Accepted.{IsNotAccepted};
ghost use Rattle.jp_check.specs.Refused.{IsRefused};
ghost use Rattle.jp_query.specs.declared.refusal.RefusalKind.TheVariants.{NoMemory};
ghost use Rattle.jp_c.specs.Calls.{IsExplainOutcome};
ghost use Rattle.jp_c.specs.Explained.{Explains, IsPart, suggested};
ghost use Rattle.jp_c.specs.Limit.{AtOnce};
ghost use Rattle.jp_c.specs.Outcome.{Answers};

use crate::numbers::{part, profile};
use crate::outcome::{Answered, Outcome, Report, tell};
use jp_check::{Profile, read_query};
use jp_explain::Surroundings::Library;
use jp_explain::{Explanation, explain, explanation_text};
use jp_query::{Refusal, RefusalKind};
use jsonpath::FindFault;
use std::alloc::{AllocError, Global};

/// Which part of an explanation is told.
#[derive(Debug, Clone, Copy, PartialEq, Eq)]
pub enum Part {
    /// All of it: the line of the query, a caret, the sentence, and the suggestion.
    Whole,
    /// The sentence.
    Sentence,
    /// The suggestion, if there is one.
    Suggestion,
}

/// Writes why the query is refused in the profile of this number, as the part of this number: 0 the
/// whole explanation, which is the line of the query with a caret below it, a sentence and, where there
/// is one, the suggestion; 1 the sentence; 2 the suggestion, a query that is accepted. There is no text
/// where the query is accepted or is no UTF-8. Answers the report's status, which is 0 also where the
/// query is refused.
#[unsafe(no_mangle)]
pub extern "C" fn jp_explain(
    alloc: Global,
    query: &[u8],
    profile: u32,
    part: u32,
    out: &mut [u8],
    report: &mut Report,
) -> u32
    ensures { Answers (AtOnce (IsExplainOutcome profile part query.now)) out.old out.new report.new
        result }
{
    let answered = Answered::at_once(explain_outcome(alloc, query, profile, part));
    tell(&answered, out, report)
}

/// What asking for an explanation answers.
fn explain_outcome(alloc: Global, query: &[u8], profile_number: u32, part_number: u32) -> Outcome
    ensures { IsExplainOutcome profile_number part_number query.now result }
{
    let Some(profile) = profile(profile_number) else {
        return Outcome::Usage;
    };
    let Some(part) = part(part_number) else {
        return Outcome::Usage;
    };
    match explained(alloc, query, profile, part) {
        Ok(text) => Outcome::Text(text),
        Err(_) => Outcome::Fault(FindFault::NoMemory),
    }
}

/// What is told of the query that these bytes are.
fn explained(
    alloc: Global,
    query: &[u8],
    profile: Profile,
    part: Part,
) -> Result<String, AllocError>
    ensures { IfOk result (λ text. Explains profile part query.now (string_bytes text)) }
{
    match str::from_utf8(query) {
        Ok(text) => explained_text(alloc, text, profile, part),
        Err(_) => Ok(String::new(alloc)),
    }
}

/// That part of an explanation of how the query of this text is refused.
fn explained_text(
    alloc: Global,
    query: &str,
    profile: Profile,
    part: Part,
) -> Result<String, AllocError>
    requires { IsUtf8 query.now }
    ensures { IfOk result (λ text. Explains profile part query.now (string_bytes text)) }
{
    match read_query(alloc, query, profile) {
        Ok(_) => Ok(String::new(alloc)),
        Err(refusal) => refused_text(alloc, query, profile, part, refusal),
    }
}

/// That part of the explanation of this refusal of the query of this text.
fn refused_text(
    alloc: Global,
    query: &str,
    profile: Profile,
    part: Part,
    refusal: Refusal,
) -> Result<String, AllocError>
    requires utf8 { IsUtf8 query.now }
    requires refused { IsRefused profile (chars query.now) refusal }
    requires only { (refusal.kind ≡ NoMemory) ⊎ IsNotAccepted profile (chars query.now) }
    ensures { IfOk result (λ text. Explains profile part query.now (string_bytes text)) }
{
    match refusal.kind {
        RefusalKind::NoMemory => Err(AllocError),
        _ => told(
            alloc,
            &explain(alloc, query, profile, refusal, Library)?,
            part,
        ),
    }
}

/// The text of a part of an explanation.
fn told(alloc: Global, explanation: &Explanation, part: Part) -> Result<String, AllocError>
    ensures { IfOk result (λ text. IsPart part explanation.now (string_bytes text)) }
{
    match part {
        Part::Whole => explanation_text(alloc, explanation),
        Part::Sentence => String::from_str(alloc, explanation.sentence),
        Part::Suggestion => suggested(alloc, &explanation.suggestion),
    }
}

/// The text of a suggestion, which is empty where there is none.
fn suggested(alloc: Global, suggestion: &Option<String>) -> Result<String, AllocError>
    ensures { IfOk result (λ text. string_bytes text ≡ suggested suggestion.now) }
{
    match suggestion {
        Some(query) => String::from_str(alloc, query.as_str()),
        None => Ok(String::new(alloc)),
    }
}
