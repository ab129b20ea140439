//! What a call answers, and how it is told to C.

ghost use Rattle.std.specs.Prelude.{◌≡◌, MatchResult, string_bytes};
ghost use Rattle.jp_c.specs.Limit.{MakesSteps};
ghost use Rattle.jp_c.specs.Outcome.{ReportsOutcome, filled, report_of, told_text};
ghost use Rattle.jp_c.specs.Private.Spending.{Spends, steps_of_limit};
ghost use Rattle.jp_c.specs.declared.outcome.Outcome.TheVariants.{Fault, Text};

use crate::limit::steps_made;
use jp_document::DocumentFault;
use jp_select::Steps;
use jsonpath::FindFault;

/// The kind of a document that is too large, after those of `DocumentFault`.
pub(crate) const TOO_LARGE: u32 = 6;

/// What a call answers.
#[derive(Debug, PartialEq, Drop)]
pub enum Outcome {
    /// The text that was asked for.
    Text(String),
    /// There is no form or no profile of the number that was given.
    Usage,
    /// The query or the document is refused, memory ran out, the steps are used up, or too much would come out.
    Fault(FindFault),
    /// The bytes are no document, and go wrong at this one.
    Misread(DocumentFault, usize),
    /// The kept document was not read with the numbers of the query's profile.
    OtherNumbers,
}

/// An outcome, and how many steps were made for it.
#[derive(Debug, PartialEq, Drop)]
pub(crate) struct Answered {
    pub(crate) outcome: Outcome,
    pub(crate) steps: u64,
}

/// An outcome in numbers.
#[repr(C)]
#[derive(Debug, Clone, Copy, PartialEq, Eq)]
pub struct Report {
    /// 0 done, 1 query refused, 2 usage, 3 document refused, 4 want of memory, 8 too many nodes, 9 too many bytes,
    /// 10 steps used up, 11 document not read with the numbers of the query's profile.
    pub status: u32,
    /// The number of the query's kind of refusal or of the document's fault, else 0.
    pub kind: u32,
    /// The byte of the query or of the document at which it is refused, else 0.
    pub place: usize,
    /// How many bytes the text has: the one that was asked for, or the normalized path of the first
    /// number that is not whole or out of range; else 0.
    pub length: usize,
    /// How many steps the evaluation made, 0 where nothing was evaluated.
    pub steps: u64,
}

impl Outcome {
    /// The text that the buffer is for.
    pub(crate) fn text(&self) -> &str
        ensures { result.now ≡ told_text self.now }
    {
        match self {
            Outcome::Text(text) => text.as_str(),
            Outcome::Fault(FindFault::Document(DocumentFault::NotWhole(path))) => path.as_str(),
            Outcome::Misread(DocumentFault::NotWhole(path), _) => path.as_str(),
            Outcome::Fault(FindFault::Document(DocumentFault::NumberRange(path))) => path.as_str(),
            Outcome::Misread(DocumentFault::NumberRange(path), _) => path.as_str(),
            Outcome::Usage | Outcome::Fault(_) | Outcome::Misread(_, _) | Outcome::OtherNumbers =>
                "",
        }
    }

    /// The text that the buffer is for, to keep; the memory of another text serves where there
    /// is none.
    pub(crate) fn into_text(self, mut spare: String) -> String
        ensures { string_bytes result ≡ told_text self }
    {
        match self {
            Outcome::Text(text) => text,
            Outcome::Fault(FindFault::Document(DocumentFault::NotWhole(path))) => path,
            Outcome::Misread(DocumentFault::NotWhole(path), _) => path,
            Outcome::Fault(FindFault::Document(DocumentFault::NumberRange(path))) => path,
            Outcome::Misread(DocumentFault::NumberRange(path), _) => path,
            Outcome::Usage | Outcome::Fault(_) | Outcome::Misread(_, _) | Outcome::OtherNumbers => {
                spare.clear();
                spare
            }
        }
    }

    /// The outcome in numbers, for which so many steps were made.
    pub(crate) fn report(&self, steps: u64) -> Report
        ensures { result ≡ report_of self.now steps }
    {
        let length = self.text().len();
        let (status, kind, place) = match self {
            Outcome::Text(_) => (0, 0, 0),
            Outcome::Usage => (2, 0, 0),
            Outcome::Fault(FindFault::Query(refusal)) => {
                (1, refusal.kind.number() as u32, refusal.place)
            }
            Outcome::Fault(FindFault::Document(fault)) => (3, fault.number() as u32, 0),
            Outcome::Misread(fault, place) => (3, fault.number() as u32, *place),
            Outcome::Fault(FindFault::DocumentTooLarge) => (3, TOO_LARGE, 0),
            Outcome::Fault(FindFault::NoMemory) => (4, 0, 0),
            Outcome::Fault(FindFault::StepsUsedUp) => (10, 0, 0),
            Outcome::Fault(FindFault::TooManyNodes) => (8, 0, 0),
            Outcome::Fault(FindFault::TooManyBytes) => (9, 0, 0),
            Outcome::OtherNumbers => (11, 0, 0),
        };
        Report {
            status,
            kind,
            place,
            length,
            steps,
        }
    }
}

impl Answered {
    /// An outcome for which nothing is evaluated.
    pub(crate) fn at_once(outcome: Outcome) -> Answered
        ensures outcome { result.outcome ≡ outcome }
        ensures steps { result.steps ≡ 0 }
    {
        Answered { outcome, steps: 0 }
    }

    /// The answer of an evaluation that was given the steps of a limit, of which these are left.
    pub(crate) fn within(limit: u64, left: Steps, answer: Result<String, FindFault>) -> Answered
        requires { Spends answer (steps_of_limit limit) left }
        ensures outcome { MatchResult answer (λ text. result.outcome ≡ Text text)
            (λ fault. result.outcome ≡ Fault fault) }
        ensures makes { MakesSteps limit result.outcome result.steps }
    {
        let steps = steps_made(limit, left);
        match answer {
            Ok(text) => Answered {
                outcome: Outcome::Text(text),
                steps,
            },
            Err(fault) => Answered {
                outcome: Outcome::Fault(fault),
                steps,
            },
        }
    }

    /// The numbers of the outcome and the steps.
    pub(crate) fn report(&self) -> Report
        ensures { result ≡ report_of self.now.outcome self.now.steps }
    {
        self.outcome.report(self.steps)
    }
}

/// Tells what is answered: its numbers, and its text where there is room for all of it.
pub(crate) fn tell(answered: &Answered, out: &mut [u8], report: &mut Report) -> u32
    ensures { ReportsOutcome answered.now.outcome answered.now.steps out.old out.new report.new
        result }
{
    fill(answered.outcome.text().as_bytes(), out);
    *report = answered.report();
    report.status
}

/// Writes a text to the start of a buffer that has room for all of it.
pub(crate) fn fill(text: &[u8], out: &mut [u8])
    ensures { out.new ≡ filled text.now out.old }
{
    if text.len() <= out.len() {
        out[..text.len()].copy_from_slice(text);
    }
}
