//! From bytes to answers.

ghost use Rattle.std.specs.Prelude.{◌≡◌, ◌⊎◌, IfErr, IfOk, length, string_bytes};
ghost use Rattle.jp_command.specs.Lines.{output_of};
ghost use Rattle.std.specs.Str.{IsUtf8};
ghost use Rattle.jp_check.specs.Numbers.{numbers};
ghost use Rattle.jp_document.specs.Exact.{IsDocumentIn};
ghost use Rattle.jp_evaluate.specs.Nodelist.{nodelist};
ghost use Rattle.jp_evaluate.specs.Plan.{HoldsPortion, IsReadToAnswer};
ghost use Rattle.jp_flat.specs.FlatValue.{document_in, lent_flat};
ghost use Rattle.jp_held.specs.declared.portion.Excerpt.TheVariants.{Document};
ghost use Rattle.jp_limit.specs.OutputLimit.{StaysWithin};
ghost use Rattle.jp_query.specs.declared.refusal.RefusalKind.TheVariants.{NoMemory};
ghost use Rattle.jp_tree.specs.Views.{query_of};
ghost use Rattle.jp_c.specs.Asked.{IsAnswer, IsAcceptedInBytes, IsCanonOf, IsNoAnswer, IsRefusedAsBytes};
ghost use Rattle.jp_c.specs.Asked.{IsNoDocument, IsQueryFault, RefusesBytes};
ghost use Rattle.jp_c.specs.Limit.{output_within};
ghost use Rattle.jp_c.specs.Private.Subjects.{IsReadAs};
ghost use Rattle.jp_c.specs.Private.Spending.{Spends};
ghost use Rattle.jsonpath.specs.Find.{IsGivenUp};
ghost use Rattle.jsonpath.specs.Size.{Fits};

use crate::asker::walk;
use crate::kept::Asker;
use crate::limit::Limit;
use crate::memory::Memory;
use jp_canon::canon;
use jp_check::{Checked, Profile, read_query};
use jp_command::Form;
use jp_decimal::Numbers;
use jp_evaluate::Plan;
use jp_flat::{Flat, FlatValue, Room};
use jp_held::read_flat;
use jp_query::{Refusal, RefusalKind};
use jp_select::Steps;
use jsonpath::{FindFault, check_size};
use std::alloc::Global;

/// The text that these bytes are. Where they are no UTF-8 the place is the first that is none.
fn text_of(query: &[u8]) -> Result<&str, Refusal>
    ensures same { IfOk result (λ text. text.now ≡ query.now) }
    ensures utf8 { IfOk result (λ text. IsUtf8 query.now) }
    ensures none { IfErr result (IsRefusedAsBytes query.now) }
{
    match str::from_utf8(query) {
        Ok(text) => Ok(text),
        Err(error) => Err(Refusal {
            kind: RefusalKind::Syntax,
            place: error.valid_up_to(),
        }),
    }
}

/// The query that these bytes are in a profile.
pub(crate) fn asked(alloc: Global, query: &[u8], profile: Profile) -> Result<Checked, FindFault>
    ensures asked { IfOk result (λ c. IsAcceptedInBytes profile query.now (query_of c.query)) }
    ensures profile { IfOk result (λ c. c.profile ≡ profile) }
    ensures fault { IfErr result (IsQueryFault profile query.now) }
{
    Ok(read_bytes(alloc, query, profile)?)
}

/// The query that these bytes are in a profile, or how it is refused.
pub(crate) fn read_bytes(alloc: Global, query: &[u8], profile: Profile) -> Result<Checked, Refusal>
    ensures asked { IfOk result (λ c. IsAcceptedInBytes profile query.now (query_of c.query)) }
    ensures profile { IfOk result (λ c. c.profile ≡ profile) }
    ensures refused { IfErr result
        (λ r. (r.kind ≡ NoMemory) ⊎ RefusesBytes profile query.now r) }
{
    let text = text_of(query)?;
    read_text(alloc, text, profile)
}

/// The query that this text is in a profile, or how it is refused.
fn read_text(alloc: Global, text: &str, profile: Profile) -> Result<Checked, Refusal>
    ensures asked { IfOk result (λ c. IsAcceptedInBytes profile text.now (query_of c.query)) }
    ensures profile { IfOk result (λ c. c.profile ≡ profile) }
    ensures refused { IfErr result
        (λ r. (r.kind ≡ NoMemory) ⊎ RefusesBytes profile text.now r) }
{
    read_query(alloc, text, profile)
}

/// The document with such numbers that these bytes are, in tables.
pub(crate) fn read_document(
    alloc: Global,
    bytes: &[u8],
    numbers: Numbers,
) -> Result<Flat<'_>, FindFault>
    ensures document { IfOk result
        (λ flat. IsDocumentIn numbers bytes.now (document_in flat) × Fits bytes.now) }
    ensures fault { IfErr result (IsNoDocument numbers bytes.now) }
{
    check_size(bytes)?;
    Ok(read_flat(alloc, bytes, numbers)?)
}

/// The document with such numbers that these bytes are, of which what the plan does not ask for may be left
/// out.
pub(crate) fn read_for<'t>(
    alloc: Global,
    bytes: &'t [u8],
    plan: &Plan,
    numbers: Numbers,
) -> Result<Flat<'t>, FindFault>
    ensures document { IfOk result
        (λ flat. HoldsPortion numbers plan.now.portion bytes.now flat × Fits bytes.now) }
    ensures fault { IfErr result (IsNoDocument numbers bytes.now) }
{
    check_size(bytes)?;
    match plan.read_document(alloc, Room::new(alloc), bytes, numbers) {
        Ok(flat) => Ok(flat),
        Err((_, fault)) => Err(FindFault::from(fault)),
    }
}

/// The lines, in that form, of the nodes that a query selects in a document that was read.
pub(crate) fn lines(
    alloc: Global,
    form: Form,
    root: FlatValue<'_, '_>,
    query: &Checked,
    limit: Limit,
    steps: &mut Steps,
) -> Result<String, FindFault>
    ensures lines { IfOk result (λ text.
        string_bytes text ≡ output_of form (query_of query.now.query) (lent_flat root.entry)) }
    ensures within { IfOk result (λ text. StaysWithin (output_within limit)
        (length (nodelist (query_of query.now.query) (lent_flat root.entry)))
        (length (string_bytes text))) }
    ensures fault { IfErr result (IsGivenUp (output_within limit)
        (length (nodelist (query_of query.now.query) (lent_flat root.entry)))
        (length (output_of form (query_of query.now.query) (lent_flat root.entry)))) }
    ensures spends { Spends result steps.old steps.new }
{
    let mut memory = Memory::new(alloc);
    walk(alloc, form, 0, 0, query, root, &mut memory, limit, steps)?;
    Ok(memory.text)
}

/// The lines, in that form, of the nodes that a query selects in a document. Both are read here, the
/// query first, and the document with the numbers of its profile.
pub(crate) fn answer(
    alloc: Global,
    query: &[u8],
    document: &[u8],
    form: Form,
    profile: Profile,
    limit: Limit,
    steps: &mut Steps,
) -> Result<String, FindFault>
    ensures answer { IfOk result (λ text.
        IsAnswer (output_within limit) profile form query.now document.now (string_bytes text)) }
    ensures fault { IfErr result
        (IsNoAnswer (output_within limit) profile form query.now document.now) }
    ensures spends { Spends result steps.old steps.new }
{
    let query = asked(alloc, query, profile)?;
    let mut asker = Asker::new(alloc, query)?;
    asker.ask(alloc, form, 0, 0, document, limit, steps)?;
    let Asker { memory, .. } = asker;
    Ok(memory.text)
}

/// What `answer` answers, where the query and so much of the document as it selects from were read before.
/// Both are read again only where memory ran out for the document, and its length is looked at again where
/// it is too large.
pub(crate) fn answer_from(
    alloc: Global,
    query: &[u8],
    asked: &Result<Checked, Refusal>,
    read: &Result<Flat<'_>, FindFault>,
    document: &[u8],
    form: Form,
    profile: Profile,
    limit: Limit,
    steps: &mut Steps,
) -> Result<String, FindFault>
    requires asked { IsReadAs profile query.now asked.now }
    requires document { IfOk asked.now (λ c. IfOk read.now (λ flat.
        IsReadToAnswer (numbers profile) (query_of c.query) document.now (Document flat)
        × Fits document.now)) }
    requires fault { IfErr read.now (IsNoDocument (numbers profile) document.now) }
    ensures answer { IfOk result (λ text.
        IsAnswer (output_within limit) profile form query.now document.now (string_bytes text)) }
    ensures fault { IfErr result
        (IsNoAnswer (output_within limit) profile form query.now document.now) }
    ensures spends { Spends result steps.old steps.new }
{
    let checked = match asked {
        Ok(checked) => checked,
        Err(refusal) => return Err(FindFault::from(*refusal)),
    };
    match read {
        Ok(flat) => lines(alloc, form, flat.value(), checked, limit, steps),
        Err(FindFault::Document(fault)) => Err(FindFault::Document(fault.copy(alloc)?)),
        Err(_) => answer(alloc, query, document, form, profile, limit, steps),
    }
}

/// The canonical text of the query that these bytes are in a profile.
pub(crate) fn canonical(alloc: Global, query: &[u8], profile: Profile) -> Result<String, FindFault>
    ensures text { IfOk result (λ text. IsCanonOf profile query.now (string_bytes text)) }
    ensures fault { IfErr result (IsQueryFault profile query.now) }
{
    let query = asked(alloc, query, profile)?;
    Ok(canon(alloc, &query)?)
}
