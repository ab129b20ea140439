//! The calls that fill and clear handles.

ghost use Rattle.std.specs.Prelude.{◌≡◌, [], IfErr, IfOk, None, Some};
ghost use Rattle.jp_c.specs.Asked.{IsAcceptedInBytes, IsNoDocument, IsQueryFault};
ghost use Rattle.jp_c.specs.Handles.{IsDocumentMade, IsQueryMade, document_kept, kept_by};
ghost use Rattle.jp_c.specs.Handles.{numbers_kept, profile_kept, query_kept};
ghost use Rattle.jp_c.specs.Limit.{AtOnce};
ghost use Rattle.jp_c.specs.Outcome.{Answers};
ghost use Rattle.jp_document.specs.Exact.{IsDocumentIn};
ghost use Rattle.jsonpath.specs.Size.{Fits};
ghost use Rattle.jp_tree.specs.Tree.{QueryTree};
ghost use Rattle.jp_document.specs.Value.{Value};

use crate::asked::{asked, read_document};
use crate::handle::Handle;
use crate::kept::{Asker, Kept, KeptDocument};
use crate::numbers::profile;
use crate::outcome::{Answered, Outcome, Report, tell};
use crate::refused::refused;
use jp_check::Profile;
use jp_decimal::Numbers;
use jsonpath::FindFault;
use std::alloc::Global;

/// Keeps the query, read in the profile of this number (RFC 9535 sections 2.1 and 2.1.1), with its profile in place
/// of what the handle kept; where it is refused the handle keeps nothing. Answers the report's status.
#[unsafe(no_mangle)]
pub extern "C" fn jp_query_new(
    alloc: Global,
    query: &[u8],
    profile: u32,
    handle: &mut Handle,
    report: &mut Report,
) -> u32
    ensures { Answers (AtOnce (λ o. IsQueryMade profile query.now o (kept_by handle.new))) [] []
        report.new result }
{
    let (outcome, made) = query_made(alloc, query, profile);
    *handle = made;
    tell(&Answered::at_once(outcome), &mut [], report)
}

/// The outcome of keeping a query, and the handle that keeps it.
fn query_made(alloc: Global, query: &[u8], profile_number: u32) -> (Outcome, Handle)
    ensures { IsQueryMade profile_number query.now result.0 (kept_by result.1) }
{
    let Some(profile) = profile(profile_number) else {
        return (Outcome::Usage, Handle::empty(alloc));
    };
    match kept_query(alloc, query, profile) {
        Ok(made) => (Outcome::Text(String::new(alloc)), made),
        Err(fault) => (Outcome::Fault(fault), Handle::empty(alloc)),
    }
}

/// A handle that keeps the query.
fn kept_query(alloc: Global, query: &[u8], profile: Profile) -> Result<Handle, FindFault>
    ensures kept { IfOk result (λ h. (q : QueryTree) × IsAcceptedInBytes profile query.now q
        × (query_kept (kept_by h) ≡ Some q) × (profile_kept (kept_by h) ≡ Some profile)) }
    ensures fault { IfErr result (IsQueryFault profile query.now) }
{
    let query = asked(alloc, query, profile)?;
    let asker = Asker::new(alloc, query)?;
    Ok(Handle::keep(alloc, Kept::Query(asker))?)
}

/// Keeps the document, read with the numbers of the profile of this number, and these with it, in place of what the
/// handle kept; where it is refused the handle keeps nothing, and the buffer gets the path of the first number that
/// is not whole, or of decimals out of range. Answers the report's status.
#[unsafe(no_mangle)]
pub extern "C" fn jp_document_new(
    alloc: Global,
    document: &[u8],
    profile: u32,
    handle: &mut Handle,
    out: &mut [u8],
    report: &mut Report,
) -> u32
    ensures { Answers (AtOnce (λ o. IsDocumentMade profile document.now o (kept_by handle.new)))
        out.old out.new report.new result }
{
    let (outcome, made) = document_made(alloc, document, profile);
    *handle = made;
    tell(&Answered::at_once(outcome), out, report)
}

/// The outcome of keeping a document, and the handle that keeps it.
fn document_made(alloc: Global, document: &[u8], profile_number: u32) -> (Outcome, Handle)
    ensures { IsDocumentMade profile_number document.now result.0 (kept_by result.1) }
{
    let Some(profile) = profile(profile_number) else {
        return (Outcome::Usage, Handle::empty(alloc));
    };
    let numbers = profile.numbers();
    match kept_document(alloc, document, numbers) {
        Ok(made) => (Outcome::Text(String::new(alloc)), made),
        Err(fault) => (
            refused(alloc, fault, document, numbers, None),
            Handle::empty(alloc),
        ),
    }
}

/// A handle that keeps the document with such numbers.
fn kept_document(alloc: Global, document: &[u8], numbers: Numbers) -> Result<Handle, FindFault>
    ensures kept { IfOk result (λ h. (d : Value) × IsDocumentIn numbers document.now d
        × Fits document.now × (document_kept (kept_by h) ≡ Some d)) }
    ensures numbers { IfOk result (λ h. numbers_kept (kept_by h) ≡ Some numbers) }
    ensures fault { IfErr result (IsNoDocument numbers document.now) }
{
    let flat = read_document(alloc, document, numbers)?.owned(alloc)?;
    let document = KeptDocument { flat, numbers };
    Ok(Handle::keep(alloc, Kept::Document(document))?)
}

/// Frees what the handle keeps. It then keeps nothing, and may be filled or cleared again.
#[unsafe(no_mangle)]
pub extern "C" fn jp_clear(alloc: Global, handle: &mut Handle)
    ensures { kept_by handle.new ≡ None }
{
    drop(Handle::take(alloc, handle))
}
