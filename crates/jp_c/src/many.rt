//! Many queries over one document, of which so much is read as they ask for together.

ghost use Rattle.std.specs.Prelude.{◌≡◌, ◌≢◌, ◌⊎◌, ◌++◌, ℕ, List, IfSome, drop, string_bytes, take};
ghost use Rattle.jp_evaluate.specs.Plan.{Serves};
ghost use Rattle.jp_tree.specs.Tree.{QueryTree};
ghost use Rattle.jsonpath.specs.declared.fault.FindFault.TheVariants.{NoMemory};
ghost use Rattle.jp_c.specs.Calls.{IsEvalOutcome};
ghost use Rattle.jp_c.specs.Limit.{Within};
ghost use Rattle.jp_c.specs.Many.{AnswersAll, AnswersEach, AnswersOne, query_asked};
ghost use Rattle.jp_c.specs.Outcome.{told_text};
ghost use Rattle.jp_c.specs.Private.Subjects.{AreRead, IsAnswered, IsReadToServe, IsSound};
ghost use Rattle.jp_c.specs.declared.outcome.Outcome.TheVariants.{Fault, Usage};

use crate::asked::{answer_from, read_bytes, read_for};
use crate::limit::{Limit, steps_within};
use crate::numbers::{form, numbers_of_profile, profile};
use crate::outcome::{Answered, Outcome, Report, fill};
use crate::refused::place_of;
use jp_check::Checked;
use jp_evaluate::Plan;
use jp_flat::Flat;
use jp_query::{Refusal, RefusalKind};
use jsonpath::FindFault;
use std::alloc::Global;

/// A query that is not read, for want of memory.
const NOT_READ: Refusal = Refusal {
    kind: RefusalKind::NoMemory,
    place: 0,
};

/// One of many queries: where it stands, and what is answered.
#[repr(C)]
#[derive(Debug, Clone, Copy, PartialEq, Eq)]
pub struct Question {
    /// The byte at which the query begins.
    pub start: usize,
    /// How many bytes it has.
    pub size: usize,
    /// What the call answers.
    pub report: Report,
}

/// Answers each question in turn as `jp_eval` does, over one document, of which what all of the accepted
/// queries ask for is read once: the report goes into the question, and each has the whole limit. A
/// question's query is the bytes of `queries` from its start on, as many as it says, or as there are. The buffer gets the texts of all
/// questions one after another where it has room for all of them, and is else left as it was.
/// Answers how many bytes these texts have.
#[unsafe(no_mangle)]
pub extern "C" fn jp_eval_many(
    alloc: Global,
    queries: &[u8],
    questions: &mut [Question],
    document: &[u8],
    form: u32,
    profile: u32,
    limit: &Limit,
    out: &mut [u8],
) -> usize
    ensures { AnswersAll (λ query. Within limit.now (IsEvalOutcome form profile query document.now))
        queries.now questions.old questions.new out.old out.new result }
{
    let mut plan = Plan::of_none(alloc);
    let reads = read_each(alloc, queries, questions, profile, &mut plan);
    let subject = Subject::read(alloc, document, &plan, form, profile, *limit);
    let texts = answer_each(&subject, queries, &reads, questions);
    fill(texts.as_bytes(), out);
    texts.len()
}

/// Reads the query of each question in the profile of this number, as many as there is memory for, and has
/// the plan serve each that is accepted.
fn read_each(
    alloc: Global,
    queries: &[u8],
    questions: &[Question],
    profile: u32,
    plan: &mut Plan,
) -> Vec<Result<Checked, Refusal>>
    ensures { AreRead profile plan.new.portion queries.now questions.now result.items }
{
    let mut reads = Vec::new(alloc);
    for question in questions {
        let query = part(queries, question.start, question.size);
        let read = read_one(alloc, query, profile, plan);
        match reads.push(read) {
            Ok(()) => {}
            Err(_) => return reads,
        }
    }
    reads
}

/// Reads a query, and has the plan serve it with those that it serves. Where there is no profile of this
/// number nothing is read.
fn read_one(
    alloc: Global,
    query: &[u8],
    profile_number: u32,
    plan: &mut Plan,
) -> Result<Checked, Refusal>
    ensures read { IsReadToServe profile_number plan.new.portion query.now result }
    ensures others { (q : QueryTree) → Serves q plan.old.portion → Serves q plan.new.portion }
{
    let Some(profile) = profile(profile_number) else {
        return Err(NOT_READ);
    };
    let checked = read_bytes(alloc, query, profile)?;
    match plan.add(&checked) {
        Ok(()) => Ok(checked),
        Err(_) => Err(NOT_READ),
    }
}

/// What all of the queries are asked of, and how.
#[derive(Drop)]
struct Subject<'d> {
    alloc: Global,
    document: &'d [u8],
    /// What is read of the document.
    plan: &'d Plan,
    read: Result<Flat<'d>, FindFault>,
    /// Where the document goes wrong, if that was found.
    place: Option<usize>,
    form: u32,
    profile: u32,
    limit: Limit,
}

impl<'d> Subject<'d> {
    /// Reads what the plan asks for of the document, with the numbers of the profile, once for all of the queries.
    /// Where the document goes wrong, its place is looked for too.
    fn read(
        alloc: Global,
        document: &'d [u8],
        plan: &'d Plan,
        form: u32,
        profile: u32,
        limit: Limit,
    ) -> Subject<'d>
        ensures plan { result.plan.now ≡ plan.now }
        ensures document { result.document.now ≡ document.now }
        ensures form { result.form ≡ form }
        ensures profile { result.profile ≡ profile }
        ensures limit { result.limit ≡ limit }
        ensures sound { IsSound result }
    {
        let numbers = numbers_of_profile(profile);
        let read = read_for(alloc, document, plan, numbers);
        let place = match &read {
            Ok(_) => None,
            Err(fault) => place_of(alloc, document, numbers, fault),
        };
        Subject {
            alloc,
            document,
            plan,
            read,
            place,
            form,
            profile,
            limit,
        }
    }

    /// What a query that was read answers, with the whole limit.
    fn outcome(&self, query: &[u8], read: Option<&Result<Checked, Refusal>>) -> Answered
        requires sound { IsSound self.now }
        requires read { IfSome read
            (λ r. IsReadToServe self.now.profile self.now.plan.now.portion query.now r.now) }
        ensures { Within self.now.limit
            (IsEvalOutcome self.now.form self.now.profile query.now self.now.document.now)
            result.outcome result.steps }
    {
        let Some(form) = form(self.form) else {
            return Answered::at_once(Outcome::Usage);
        };
        let Some(profile) = profile(self.profile) else {
            return Answered::at_once(Outcome::Usage);
        };
        let Some(asked) = read else {
            return Answered::at_once(Outcome::Fault(FindFault::NoMemory));
        };
        let mut steps = steps_within(self.limit.steps);
        let answer = answer_from(
            self.alloc,
            query,
            asked,
            &self.read,
            self.document,
            form,
            profile,
            self.limit,
            &mut steps,
        );
        let answered = Answered::within(self.limit.steps, steps, answer);
        answered.placed(self.alloc, self.document, profile, self.place)
    }
}

/// Answers all questions, whose queries were read, and gives their texts one after another.
fn answer_each(
    subject: &Subject<'_>,
    queries: &[u8],
    reads: &[Result<Checked, Refusal>],
    questions: &mut [Question],
) -> String
    requires sound { IsSound subject.now }
    requires read { AreRead subject.now.profile subject.now.plan.now.portion queries.now questions.old
        reads.now }
    ensures { AnswersEach (IsAnswered subject.now) queries.now questions.old questions.new
        (string_bytes result) }
{
    let mut texts = String::new(subject.alloc);
    let mut index: usize = 0;
    for question in questions.iter_mut() {
        answer_one(subject, queries, reads.get(index), question, &mut texts);
        index += 1;
    }
    texts
}

/// Answers one question, and puts its text behind the others.
fn answer_one(
    subject: &Subject<'_>,
    queries: &[u8],
    read: Option<&Result<Checked, Refusal>>,
    question: &mut Question,
    texts: &mut String,
)
    requires sound { IsSound subject.now }
    requires read { IfSome read (λ r. IsReadToServe subject.now.profile subject.now.plan.now.portion
        (query_asked queries.now question.old) r.now) }
    ensures { (text : List ℕ)
        × AnswersOne (IsAnswered subject.now) queries.now question.old question.new text
        × (string_bytes texts.new ≡ string_bytes texts.old ++ text) }
{
    let query = part(queries, question.start, question.size);
    let answered = told_behind(subject.outcome(query, read), texts);
    question.report = answered.report();
}

/// The bytes from a start on, as many as wanted, or as there are.
fn part(bytes: &[u8], start: usize, size: usize) -> &[u8]
    ensures { result.now ≡ take size (drop start bytes.now) }
{
    let rest = bytes.get(start..).unwrap_or(&[]);
    rest.get(..size).unwrap_or(rest)
}

/// Puts the text of an outcome behind the others. Where there is no memory for it, that is the
/// outcome.
fn told_behind(answered: Answered, texts: &mut String) -> Answered
    ensures is { (result.outcome ≡ answered.outcome)
        ⊎ ((result.outcome ≡ Fault NoMemory) × (answered.outcome ≢ Usage)) }
    ensures steps { result.steps ≡ answered.steps }
    ensures told { string_bytes texts.new ≡ string_bytes texts.old ++ told_text result.outcome }
{
    let Answered { outcome, steps } = answered;
    let outcome = outcome_behind(outcome, texts);
    Answered { outcome, steps }
}

/// Puts the text of an outcome behind the others, of an outcome without its steps.
fn outcome_behind(outcome: Outcome, texts: &mut String) -> Outcome
    ensures is { (result ≡ outcome) ⊎ ((result ≡ Fault NoMemory) × (outcome ≢ Usage)) }
    ensures told { string_bytes texts.new ≡ string_bytes texts.old ++ told_text result }
{
    if let Outcome::Usage = outcome {
        return outcome;
    }
    match texts.push_str(outcome.text()) {
        Ok(()) => outcome,
        Err(_) => Outcome::Fault(FindFault::NoMemory),
    }
}
