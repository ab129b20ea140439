//! The calls that C makes.

ghost use Rattle.std.specs.Prelude.{◌≡◌, []};
ghost use Rattle.jp_c.specs.Calls.{IsCanonOutcome, IsCheckOutcome, IsEvalOutcome};
ghost use Rattle.jp_c.specs.Limit.{AtOnce, Within};
ghost use Rattle.jp_c.specs.Outcome.{Answers};

use crate::asked::{answer, asked, canonical};
use crate::limit::{Limit, steps_within};
use crate::numbers::{form, profile};
use crate::outcome::{Answered, Outcome, Report, tell};
use std::alloc::Global;

/// The version: 65536 times the major number, 256 times the minor one, and the patch.
pub const VERSION: u32 = 0x00_01_00;

/// The version of the library.
#[unsafe(no_mangle)]
pub extern "C" fn jp_version() -> u32
    ensures { result ≡ 256 }
{
    VERSION
}

/// Writes a line for each node that the query selects in the document, in the nodelist's order (RFC
/// 9535 section 2.1.2), in the form (0 values, 1 normalized paths, 2 both with a tab between) and
/// the profile (0 `Standard`, 1 `Extended`, 2 `Decimal`, 3 `ExtendedDecimal`) of these numbers, within the limit.
/// Answers the report's status: 10 where the evaluation needs more steps, 8 where there are more nodes and 9 where
/// their lines have more bytes.
#[unsafe(no_mangle)]
pub extern "C" fn jp_eval(
    alloc: Global,
    query: &[u8],
    document: &[u8],
    form: u32,
    profile: u32,
    limit: &Limit,
    out: &mut [u8],
    report: &mut Report,
) -> u32
    ensures { Answers (Within limit.now (IsEvalOutcome form profile query.now document.now))
        out.old out.new report.new result }
{
    let answered = eval_outcome(alloc, query, document, form, profile, *limit);
    tell(&answered, out, report)
}

/// What a query over a document answers.
fn eval_outcome(
    alloc: Global,
    query: &[u8],
    document: &[u8],
    form_number: u32,
    profile_number: u32,
    limit: Limit,
) -> Answered
    ensures { Within limit (IsEvalOutcome form_number profile_number query.now document.now)
        result.outcome result.steps }
{
    let Some(form) = form(form_number) else {
        return Answered::at_once(Outcome::Usage);
    };
    let Some(profile) = profile(profile_number) else {
        return Answered::at_once(Outcome::Usage);
    };
    let mut steps = steps_within(limit.steps);
    let answer = answer(alloc, query, document, form, profile, limit, &mut steps);
    Answered::within(limit.steps, steps, answer).placed(alloc, document, profile, None)
}

/// Writes the canonical text of the query, read in the profile of this number (RFC 9535 sections 2.1
/// to 2.5). Answers the report's status.
#[unsafe(no_mangle)]
pub extern "C" fn jp_canon(
    alloc: Global,
    query: &[u8],
    profile: u32,
    out: &mut [u8],
    report: &mut Report,
) -> u32
    ensures { Answers (AtOnce (IsCanonOutcome profile query.now)) out.old out.new report.new result }
{
    let answered = Answered::at_once(canon_outcome(alloc, query, profile));
    tell(&answered, out, report)
}

/// What asking for a canonical text answers.
fn canon_outcome(alloc: Global, query: &[u8], profile_number: u32) -> Outcome
    ensures { IsCanonOutcome profile_number query.now result }
{
    let Some(profile) = profile(profile_number) else {
        return Outcome::Usage;
    };
    match canonical(alloc, query, profile) {
        Ok(text) => Outcome::Text(text),
        Err(fault) => Outcome::Fault(fault),
    }
}

/// Tells whether the query is accepted in the profile of this number (RFC 9535 sections 2.1 and
/// 2.1.1). Answers the report's status, 0 where it is.
#[unsafe(no_mangle)]
pub extern "C" fn jp_check(alloc: Global, query: &[u8], profile: u32, report: &mut Report) -> u32
    ensures { Answers (AtOnce (IsCheckOutcome profile query.now)) [] [] report.new result }
{
    let answered = Answered::at_once(check_outcome(alloc, query, profile));
    tell(&answered, &mut [], report)
}

/// What asking whether a query is accepted answers.
fn check_outcome(alloc: Global, query: &[u8], profile_number: u32) -> Outcome
    ensures { IsCheckOutcome profile_number query.now result }
{
    let Some(profile) = profile(profile_number) else {
        return Outcome::Usage;
    };
    match asked(alloc, query, profile) {
        Ok(_) => Outcome::Text(String::new(alloc)),
        Err(fault) => Outcome::Fault(fault),
    }
}
