//! The names of the kinds of refusals and of faults, as `jp_kind_name` writes them for C.

ghost use Rattle.std.specs.Prelude.{◌≡◌, ℕ, IfSome, List, None};
ghost use Rattle.jp_c.specs.Calls.{IsNameOutcome};
ghost use Rattle.jp_c.specs.Limit.{AtOnce};
ghost use Rattle.jp_c.specs.Names.{IsKindName};
ghost use Rattle.jp_c.specs.Outcome.{Answers};

use crate::numbers::{document_fault, refusal_kind};
use crate::outcome::{Answered, Outcome, Report, TOO_LARGE, tell};
use jsonpath::FindFault;
use std::alloc::Global;

/// Writes the name of the kind of this number beside this status, as `Syntax` for the status 1 and the
/// kind 1. Answers the report's status: 2 where there is no such kind.
#[unsafe(no_mangle)]
pub extern "C" fn jp_kind_name(
    alloc: Global,
    status: u32,
    kind: u32,
    out: &mut [u8],
    report: &mut Report,
) -> u32
    ensures { Answers (AtOnce (IsNameOutcome status kind)) out.old out.new report.new result }
{
    let answered = Answered::at_once(name_outcome(alloc, status, kind));
    tell(&answered, out, report)
}

/// What asking for a name answers.
fn name_outcome(alloc: Global, status: u32, kind: u32) -> Outcome
    ensures { IsNameOutcome status kind result }
{
    let Some(name) = kind_name(alloc, status, kind) else {
        return Outcome::Usage;
    };
    match String::from_str(alloc, name) {
        Ok(text) => Outcome::Text(text),
        Err(_) => Outcome::Fault(FindFault::NoMemory),
    }
}

/// The name of a kind beside a status, if there is such a kind.
fn kind_name(alloc: Global, status: u32, kind: u32) -> Option<&'static str>
    ensures some { IfSome result (λ name. IsKindName status kind name.now) }
    ensures none { result ≡ None → (name : List ℕ) → ¬ IsKindName status kind name }
{
    match status {
        1 => query_kind_name(kind),
        3 => document_kind_name(alloc, kind),
        _ => None,
    }
}

/// The name of a kind of a query's refusal, if there is such a kind.
fn query_kind_name(number: u32) -> Option<&'static str>
    ensures some { IfSome result (λ name. IsKindName 1 number name.now) }
    ensures none { result ≡ None → (name : List ℕ) → ¬ IsKindName 1 number name }
{
    let kind = refusal_kind(number)?;
    Some(kind.name())
}

/// The name of a kind of what is wrong with a document, if there is such a kind.
fn document_kind_name(alloc: Global, number: u32) -> Option<&'static str>
    ensures some { IfSome result (λ name. IsKindName 3 number name.now) }
    ensures none { result ≡ None → (name : List ℕ) → ¬ IsKindName 3 number name }
{
    if number == TOO_LARGE {
        return Some("DocumentTooLarge");
    }
    let fault = document_fault(alloc, number)?;
    Some(fault.name())
}
