//! The calls that ask a query that is kept, in memory that is kept with it, and lend the answer.

ghost use Rattle.std.specs.Prelude.{◌≡◌, ◌≢◌, IfSome, None, Some, option_map};
ghost use Rattle.jp_c.specs.Asking.{AnswersLent, IsAskDocumentOutcome, IsAskOutcome};
ghost use Rattle.jp_c.specs.Handles.{document_kept, kept_by, numbers_kept, profile_kept, query_kept};
ghost use Rattle.jp_c.specs.Limit.{Within};
ghost use Rattle.jp_c.specs.Numbers.{form_of};
ghost use Rattle.jp_c.specs.Outcome.{report_of};
ghost use Rattle.jp_c.specs.Private.Askers.{Asks, IsAskedOutcome};
ghost use Rattle.jp_c.specs.declared.kept.Kept.TheVariants.{Document, Query};
ghost use Rattle.jp_c.specs.declared.outcome.Outcome.TheVariants.{OtherNumbers, Usage};

use crate::handle::Handle;
use crate::kept::{Asker, Kept, KeptDocument};
use crate::lent::Lent;
use crate::limit::{Limit, steps_within};
use crate::numbers::{are_same, form};
use crate::outcome::{Outcome, Report};
use jp_command::Form;
use std::alloc::Global;

/// Asks the query that the handle keeps of a document, as `jp_eval` does in the query's profile: a line for each node
/// behind the first `from` ones, or for as many of these as `count` says, where 0 is all. The text is lent from the
/// handle until its next call. Where a call with the same query took enough memory before, this one takes
/// none. Answers the report's status: 2 where the handle keeps no query, 10 where the evaluation needs more
/// steps than the limit allows, 8 where there are more nodes and 9 where their lines have more bytes.
#[unsafe(no_mangle)]
pub extern "C" fn jp_ask(
    alloc: Global,
    query: &mut Handle,
    document: &[u8],
    form: u32,
    from: u64,
    count: u64,
    limit: &Limit,
    text: &mut Lent,
    report: &mut Report,
) -> u32
    ensures answers { AnswersLent (Within limit.now (IsAskOutcome form from count (kept_by query.old) document.now))
        (kept_by query.new) text.new report.new result }
    ensures query { query_kept (kept_by query.new) ≡ query_kept (kept_by query.old) }
    ensures profile { profile_kept (kept_by query.new) ≡ profile_kept (kept_by query.old) }
    ensures document { document_kept (kept_by query.new) ≡ document_kept (kept_by query.old) }
    ensures numbers { numbers_kept (kept_by query.new) ≡ numbers_kept (kept_by query.old) }
{
    let mut kept = Handle::take(alloc, query);
    let wanted = Wanted {
        form,
        from,
        count,
        limit: *limit,
    };
    let (lent, told) = asked(alloc, &mut kept, Given::Bytes(document), wanted);
    *query = Handle::of_any(alloc, kept);
    *text = lent;
    *report = told;
    told.status
}

/// Asks the query that one handle keeps of the document that the other does: a line for each node behind the
/// first `from` ones, or for as many of these as `count` says, where 0 is all. The text is lent from the
/// query's handle until its next call; both handles keep what they keep. Answers the report's status: 2 where
/// a handle keeps nothing or the other of the two, 11 where the document was read with other numbers than those of
/// the query's profile, 8, 9 and 10 as of `jp_ask`.
#[unsafe(no_mangle)]
pub extern "C" fn jp_ask_document(
    alloc: Global,
    query: &mut Handle,
    document: &mut Handle,
    form: u32,
    from: u64,
    count: u64,
    limit: &Limit,
    text: &mut Lent,
    report: &mut Report,
) -> u32
    ensures answers { AnswersLent
        (Within limit.now (IsAskDocumentOutcome form from count (kept_by query.old) (kept_by document.old)))
        (kept_by query.new) text.new report.new result }
    ensures query { query_kept (kept_by query.new) ≡ query_kept (kept_by query.old) }
    ensures profile { profile_kept (kept_by query.new) ≡ profile_kept (kept_by query.old) }
    ensures other { document_kept (kept_by query.new) ≡ document_kept (kept_by query.old) }
    ensures numbers { numbers_kept (kept_by query.new) ≡ numbers_kept (kept_by query.old) }
    ensures document { kept_by document.new ≡ kept_by document.old }
{
    let mut kept = Handle::take(alloc, query);
    let other = Handle::take(alloc, document);
    let wanted = Wanted {
        form,
        from,
        count,
        limit: *limit,
    };
    let (lent, told) = asked_of_other(alloc, &mut kept, &other, wanted);
    *query = Handle::of_any(alloc, kept);
    *document = Handle::of_any(alloc, other);
    *text = lent;
    *report = told;
    told.status
}

/// What is wanted: lines of the form of this number, for so many nodes behind the first ones, within a limit.
#[derive(Clone, Copy)]
struct Wanted {
    form: u32,
    from: u64,
    count: u64,
    limit: Limit,
}

/// What a query is asked of.
#[derive(Clone, Copy)]
enum Given<'d> {
    /// The document that these bytes are.
    Bytes(&'d [u8]),
    /// A document that is kept.
    Document(&'d KeptDocument),
}

/// The document that is kept, if one is.
fn document_of(kept: &Option<Box<Kept, Global>>) -> Option<&KeptDocument>
    ensures some { IfSome result (λ d. option_map (λ b. b.value) kept.now ≡ Some (Document d.now)) }
    ensures none { result ≡ None → document_kept (option_map (λ b. b.value) kept.now) ≡ None }
{
    match kept {
        Some(kept) => match &**kept {
            Kept::Document(document) => Some(document),
            Kept::Query(_) => None,
        },
        None => None,
    }
}

/// The answer of what is kept about what another handle keeps, and its report.
fn asked_of_other(
    alloc: Global,
    kept: &mut Option<Box<Kept, Global>>,
    other: &Option<Box<Kept, Global>>,
    wanted: Wanted,
) -> (Lent, Report)
    ensures { Asks (λ k. Within wanted.limit
        (IsAskDocumentOutcome wanted.form wanted.from wanted.count k (option_map (λ b. b.value) other.now)))
        (option_map (λ b. b.value) kept.old) (option_map (λ b. b.value) kept.new) result.0 result.1 }
{
    match document_of(other) {
        Some(document) => asked(alloc, kept, Given::Document(document), wanted),
        None => usage(),
    }
}

/// The answer of what is kept, and its report.
fn asked(
    alloc: Global,
    kept: &mut Option<Box<Kept, Global>>,
    given: Given<'_>,
    wanted: Wanted,
) -> (Lent, Report)
    ensures { Asks (λ k. Within wanted.limit
        (IsAskedOutcome wanted.form wanted.from wanted.count given.entry k))
        (option_map (λ b. b.value) kept.old) (option_map (λ b. b.value) kept.new) result.0 result.1 }
{
    match kept {
        Some(kept) => asked_of_box(alloc, kept, given, wanted),
        None => usage(),
    }
}

/// `asked_of` what the box of a handle holds.
fn asked_of_box(
    alloc: Global,
    kept: &mut Box<Kept, Global>,
    given: Given<'_>,
    wanted: Wanted,
) -> (Lent, Report)
    ensures { Asks (λ k. Within wanted.limit
        (IsAskedOutcome wanted.form wanted.from wanted.count given.entry k))
        (Some kept.old.value) (Some kept.new.value) result.0 result.1 }
{
    asked_of(alloc, kept.as_mut(), given, wanted)
}

/// The nodes that are wanted of the query that is kept over the document that is given, as a text
/// that is lent, and the report.
fn asked_of(alloc: Global, kept: &mut Kept, given: Given<'_>, wanted: Wanted) -> (Lent, Report)
    ensures { Asks (λ k. Within wanted.limit
        (IsAskedOutcome wanted.form wanted.from wanted.count given.entry k))
        (Some kept.old) (Some kept.new) result.0 result.1 }
{
    let Some(form) = form(wanted.form) else {
        return usage();
    };
    let Kept::Query(asker) = kept else {
        return usage();
    };
    match given {
        Given::Bytes(document) => asked_of_bytes(alloc, asker, form, document, wanted),
        Given::Document(document) => asked_of_document(alloc, asker, form, document, wanted),
    }
}

/// The nodes that are wanted, in that form, of a query that is kept over the document that the bytes are.
fn asked_of_bytes(
    alloc: Global,
    asker: &mut Asker,
    form: Form,
    document: &[u8],
    wanted: Wanted,
) -> (Lent, Report)
    requires { form_of wanted.form ≡ Some form }
    ensures { Asks (λ k. Within wanted.limit
        (IsAskOutcome wanted.form wanted.from wanted.count k document.now))
        (Some (Query asker.old)) (Some (Query asker.new)) result.0 result.1 }
{
    let mut steps = steps_within(wanted.limit.steps);
    let profile = asker.profile();
    let answer = asker.ask(
        alloc,
        form,
        wanted.from,
        wanted.count,
        document,
        wanted.limit,
        &mut steps,
    );
    let (answered, spare) = asker.answered(alloc, wanted.limit.steps, steps, answer);
    asker.tell(answered.placed(alloc, document, profile, None), spare)
}

/// The nodes that are wanted, in that form, of a query that is kept over a document that is: none where that was read
/// with other numbers.
fn asked_of_document(
    alloc: Global,
    asker: &mut Asker,
    form: Form,
    document: &KeptDocument,
    wanted: Wanted,
) -> (Lent, Report)
    requires { form_of wanted.form ≡ Some form }
    ensures { Asks (λ k. Within wanted.limit
        (IsAskDocumentOutcome wanted.form wanted.from wanted.count k (Some (Document document.now))))
        (Some (Query asker.old)) (Some (Query asker.new)) result.0 result.1 }
{
    if !are_same(asker.profile().numbers(), document.numbers) {
        return other_numbers();
    }
    let mut steps = steps_within(wanted.limit.steps);
    let answer = asker.ask_value(
        alloc,
        form,
        wanted.from,
        wanted.count,
        document.flat.value(),
        wanted.limit,
        &mut steps,
    );
    let (answered, spare) = asker.answered(alloc, wanted.limit.steps, steps, answer);
    asker.tell(answered, spare)
}

/// No text, where a number stands for nothing or a handle keeps no such thing.
fn usage() -> (Lent, Report)
    ensures nothing { result.0.length ≡ 0 }
    ensures report { result.1 ≡ report_of Usage 0 }
{
    (Lent::nothing(), Outcome::Usage.report(0))
}

/// No text, where a document was read with other numbers than those of the query's profile.
fn other_numbers() -> (Lent, Report)
    ensures nothing { result.0.length ≡ 0 }
    ensures report { result.1 ≡ report_of OtherNumbers 0 }
{
    (Lent::nothing(), Outcome::OtherNumbers.report(0))
}
