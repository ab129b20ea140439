//! What the numbers that C gives stand for.

ghost use Rattle.std.specs.Prelude.{◌≡◌, ◌≢◌, IfSome, None, false, true};
ghost use Rattle.jp_c.specs.Numbers.{document_part_of, form_of, part_of, profile_of};
ghost use Rattle.jp_c.specs.Private.Subjects.{numbers_in};
ghost use Rattle.jp_document.specs.Faults.{document_fault_number};
ghost use Rattle.jp_document.specs.declared.fault.DocumentFault.{DocumentFault};
ghost use Rattle.jp_query.specs.Refusal.{number_of};
ghost use Rattle.jp_query.specs.declared.refusal.RefusalKind.{RefusalKind};

use crate::explained::Part;
use crate::misread::DocumentPart;
use jp_check::Profile;
use jp_command::Form;
use jp_decimal::Numbers;
use jp_document::DocumentFault;
use jp_query::RefusalKind;
use std::alloc::Global;

/// The form of this number, if there is one.
pub(crate) fn form(number: u32) -> Option<Form>
    ensures { result ≡ form_of number }
{
    match number {
        0 => Some(Form::VALUES),
        1 => Some(Form::PATHS),
        2 => Some(Form::BOTH),
        _ => None,
    }
}

/// The profile of this number, if there is one.
pub(crate) fn profile(number: u32) -> Option<Profile>
    ensures { result ≡ profile_of number }
{
    match number {
        0 => Some(Profile::Standard),
        1 => Some(Profile::Extended),
        2 => Some(Profile::Decimal),
        3 => Some(Profile::ExtendedDecimal),
        _ => None,
    }
}

/// The numbers of the profile of this number: whole ones where there is none, and then no query is asked.
pub(crate) fn numbers_of_profile(number: u32) -> Numbers
    ensures { result ≡ numbers_in (profile_of number) }
{
    match profile(number) {
        Some(profile) => profile.numbers(),
        None => Numbers::Whole,
    }
}

/// Whether both are the same numbers.
pub(crate) fn are_same(one: Numbers, other: Numbers) -> bool
    ensures same { result ≡ true → one ≡ other }
    ensures others { result ≡ false → one ≢ other }
{
    match one {
        Numbers::Whole => matches!(other, Numbers::Whole),
        Numbers::Decimal => matches!(other, Numbers::Decimal),
    }
}

/// The part of a query's explanation of this number, if there is one.
pub(crate) fn part(number: u32) -> Option<Part>
    ensures { result ≡ part_of number }
{
    match number {
        0 => Some(Part::Whole),
        1 => Some(Part::Sentence),
        2 => Some(Part::Suggestion),
        _ => None,
    }
}

/// The part of a document's explanation of this number, if there is one.
pub(crate) fn document_part(number: u32) -> Option<DocumentPart>
    ensures { result ≡ document_part_of number }
{
    match number {
        0 => Some(DocumentPart::Line),
        1 => Some(DocumentPart::Sentence),
        2 => Some(DocumentPart::Reason),
        _ => None,
    }
}

/// The kind of a query's refusal of this number, if there is one.
pub(crate) fn refusal_kind(number: u32) -> Option<RefusalKind>
    ensures some { IfSome result (λ kind. number_of kind ≡ number) }
    ensures none { result ≡ None → (kind : RefusalKind) → number_of kind ≢ number }
{
    match number {
        1 => Some(RefusalKind::Syntax),
        2 => Some(RefusalKind::TooDeep),
        3 => Some(RefusalKind::NotWhole),
        4 => Some(RefusalKind::NumberRange),
        5 => Some(RefusalKind::IndexRange),
        6 => Some(RefusalKind::UnknownFunction),
        7 => Some(RefusalKind::ArgumentCount),
        8 => Some(RefusalKind::NotSingular),
        9 => Some(RefusalKind::IllTyped),
        10 => Some(RefusalKind::NoMemory),
        11 => Some(RefusalKind::TextTooLong),
        _ => None,
    }
}

/// The fault of a document of this number, if there is one: of a number that is not whole or out of
/// range with an empty path.
pub(crate) fn document_fault(alloc: Global, number: u32) -> Option<DocumentFault>
    ensures some { IfSome result (λ fault. document_fault_number fault ≡ number) }
    ensures none { result ≡ None → (fault : DocumentFault) → document_fault_number fault ≢ number }
{
    match number {
        1 => Some(DocumentFault::NotJson),
        2 => Some(DocumentFault::NotWhole(String::new(alloc))),
        3 => Some(DocumentFault::ListTooLong),
        4 => Some(DocumentFault::NoMemory),
        5 => Some(DocumentFault::NumberRange(String::new(alloc))),
        _ => None,
    }
}
