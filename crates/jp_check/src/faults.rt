//! The faults of components, one by one.

ghost use Rattle.std.specs.Prelude.{◌≡◌};
ghost use Rattle.jp_tree.specs.Views.{call_of, literal_of, query_of};
ghost use Rattle.jp_check.specs.Private.Inspection.{fault_of_call, fault_of_int, fault_of_literal};
ghost use Rattle.jp_check.specs.Private.Inspection.{fault_of_logical, fault_of_number};
ghost use Rattle.jp_check.specs.Private.Inspection.{fault_of_query, ill_typed};

use crate::functions::{DataType, signature_named};
use crate::profile::Profile;
use crate::ranges::is_in_index_range;
use crate::singular::is_singular;
use jp_decimal::Numbers;
use jp_query::RefusalKind;
use jp_tree::{Call, Literal, Numeral, Query};

/// The fault of an index or a part of a slice, if it is outside -(2^53)+1 to (2^53)-1 (RFC 9535
/// section 2.1).
pub(crate) fn fault_of_int(number: Numeral) -> Option<RefusalKind>
    ensures { result ≡ fault_of_int number }
{
    if is_in_index_range(number) {
        None
    } else {
        Some(RefusalKind::IndexRange)
    }
}

/// The fault of what has the type `own`, if another is wanted there and it doesn't fit (RFC 9535
/// section 2.4.3).
fn ill_typed(own: DataType, wanted: Option<DataType>) -> Option<RefusalKind>
    ensures { result ≡ ill_typed own wanted }
{
    match wanted {
        Some(other) if !own.fits(other) => Some(RefusalKind::IllTyped),
        _ => None,
    }
}

/// The fault of a literal, if it is none of these numbers, or if no value is wanted there.
pub(crate) fn fault_of_literal(
    literal: &Literal,
    wanted: Option<DataType>,
    numbers: Numbers,
) -> Option<RefusalKind>
    ensures { result ≡ fault_of_literal numbers (literal_of literal.now) wanted }
{
    match literal {
        Literal::Number(number) => match fault_of_number(*number, numbers) {
            Some(kind) => Some(kind),
            None => ill_typed(DataType::Value, wanted),
        },
        Literal::Text(_) | Literal::True | Literal::False | Literal::Null => {
            ill_typed(DataType::Value, wanted)
        }
    }
}

/// The fault of a number, if it is none of these: of whole ones, that it has a fraction or an exponent,
/// or is outside -(2^63) to (2^64)-1; of decimals, that it can't be held.
fn fault_of_number(number: Numeral, numbers: Numbers) -> Option<RefusalKind>
    ensures { result ≡ fault_of_number numbers number }
{
    match (numbers, number) {
        (Numbers::Whole, Numeral::Fraction(_)) => Some(RefusalKind::NotWhole),
        (Numbers::Whole, Numeral::Beyond(_)) => Some(RefusalKind::NumberRange),
        (Numbers::Decimal, Numeral::Fraction(None) | Numeral::Beyond(None)) => {
            Some(RefusalKind::NumberRange)
        }
        _ => None,
    }
}

/// The fault of a query, if a value is wanted there and it is not singular (sections 2.3.5.1 and
/// 2.4.3).
pub(crate) fn fault_of_query(query: &Query, wanted: Option<DataType>) -> Option<RefusalKind>
    ensures { result ≡ fault_of_query (query_of query.now) wanted }
{
    match wanted {
        Some(DataType::Value) if !is_singular(query) => Some(RefusalKind::NotSingular),
        _ => None,
    }
}

/// The fault of a call, if the profile has no function of that name, if it has another number of
/// parameters, or if its answer doesn't fit what is wanted there (section 2.4.3).
#[tactic(auto, using(crate::proofs::Calls::fault_of_call_is))]
pub(crate) fn fault_of_call(
    call: &Call,
    wanted: Option<DataType>,
    profile: Profile,
) -> Option<RefusalKind>
    ensures { result ≡ fault_of_call profile (call_of call.now) wanted }
{
    match signature_named(&call.name, profile) {
        None => Some(RefusalKind::UnknownFunction),
        Some(function) if function.parameters.len() != call.arguments.len() => {
            Some(RefusalKind::ArgumentCount)
        }
        Some(function) => ill_typed(function.answer, wanted),
    }
}

/// The fault of a logical expression that is an argument, if another type is wanted there.
pub(crate) fn fault_of_logical(wanted: Option<DataType>) -> Option<RefusalKind>
    ensures { result ≡ fault_of_logical wanted }
{
    ill_typed(DataType::Logical, wanted)
}
