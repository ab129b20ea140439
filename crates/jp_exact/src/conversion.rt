//! From what the grammar of JSON reads to a value.

ghost use Rattle.std.specs.Prelude.{◌≡◌, ◌&&◌, [], true, map, IfOk, IfErr};
ghost use Rattle.json.specs.Value.{items_view, members_view, value_view};
ghost use Rattle.jp_decimal.specs.TextValue.{value_of_text};
ghost use Rattle.jp_document.specs.NumberValue.{number_value};
ghost use Rattle.jp_document.specs.Value.{everywhere, everywhere_in_items, everywhere_in_members};
ghost use Rattle.jp_document.specs.Value.{items_of, list, list_fits, member_of, members_of, object};
ghost use Rattle.jp_document.specs.Value.{value_of};
ghost use Rattle.jp_exact.specs.Defects.{is_held};
ghost use Rattle.jp_exact.specs.Private.ExactValue.{items_in, members_in, value_in};
ghost use Rattle.jp_exact.specs.Private.RangeFault.{IsRangeFaultOf};

use crate::members::last_members;
use crate::range_fault::RangeFault;
use jp_decimal::{Number, number_of};
use jp_document::{Json, Member, OwnedStep};
use jp_reading::LARGEST_EXACT;
use json::Value;
use std::alloc::{AllocError, Global};

/// The value of what was read, with members in the order of their names, or why it can't be held.
/// `fits` is cleared where some list has more than (2^53)-1 items.
#[cycle(json_of)]
pub(crate) fn json_of(alloc: Global, value: &Value<'_>, fits: &mut bool) -> Result<Json, RangeFault>
    ensures value { IfOk result (λ j. value_of j ≡ value_in (value_view value.now)) }
    ensures held { IfOk result (λ j. everywhere is_held (value_of j) ≡ true) }
    ensures fits { IfOk result (λ j. fits.new ≡ (everywhere list_fits (value_of j) && fits.old)) }
    ensures fault { IfErr result (IsRangeFaultOf (value_in (value_view value.now))) }
{
    match value {
        Value::Null => Ok(Json::Null),
        Value::Bool(truth) => Ok(Json::Bool(*truth)),
        Value::Number(text) => json_of_number(alloc, text),
        Value::String(text) => Ok(Json::Text(String::from_str(alloc, text)?)),
        Value::Array(items) => {
            let list = json_items(alloc, items.as_slice(), fits)?;
            if !is_short(&list) {
                *fits = false;
            }
            Ok(Json::List(list))
        }
        Value::Object(members) => {
            Ok(Json::Members(json_members(alloc, members.as_slice(), fits)?))
        }
    }
}

/// The value of a number's text, or `OutOfRange` with no steps yet where it can't be held.
fn json_of_number(alloc: Global, text: &str) -> Result<Json, RangeFault>
    ensures value { IfOk result (λ j. value_of j ≡ number_value (value_of_text text.now)) }
    ensures held { IfOk result (λ j. everywhere is_held (value_of j) ≡ true) }
    ensures fits { IfOk result (λ j. everywhere list_fits (value_of j) ≡ true) }
    ensures fault { IfErr result (IsRangeFaultOf (number_value (value_of_text text.now))) }
{
    match number_of(text.as_bytes()) {
        Some(Number::Whole(whole)) => Ok(Json::Whole(whole)),
        Some(Number::Decimal(decimal)) => Ok(Json::Decimal {
            exponent: decimal.exponent,
            coefficient: decimal.coefficient,
        }),
        None => Err(RangeFault::OutOfRange(Vec::new(alloc))),
    }
}

/// The values of a list's items, in their order, or the fault of the first that can't be held, with its
/// index. `fits` is cleared as by `json_of`.
#[cycle(json_of)]
fn json_items(alloc: Global, items: &[Value<'_>], fits: &mut bool) -> Result<Vec<Json>, RangeFault>
    ensures value { IfOk result
        (λ v. items_of (map value_of v.items) ≡ items_in (items_view items.now)) }
    ensures held { IfOk result
        (λ v. everywhere_in_items is_held (items_of (map value_of v.items)) ≡ true) }
    ensures fits { IfOk result (λ v. fits.new
        ≡ (everywhere_in_items list_fits (items_of (map value_of v.items)) && fits.old)) }
    ensures fault { IfErr result (IsRangeFaultOf (list (items_in (items_view items.now)))) }
{
    let mut found = Vec::with_capacity(alloc, items.len())?;
    for item in items {
        match json_of(alloc, item, fits) {
            Ok(json) => found.push(json).map_err(AllocError::from)?,
            Err(fault) => return Err(fault.within(OwnedStep::Index(found.len() as u64))),
        }
    }
    Ok(found)
}

/// The members of an object in the order of their names, the last of each name, or the fault of the first
/// that can't be held, with its name. `fits` is cleared as by `json_of`.
#[cycle(json_of)]
fn json_members<'t>(
    alloc: Global,
    members: &[(&'t str, Value<'t>)],
    fits: &mut bool,
) -> Result<Vec<Member>, RangeFault>
    ensures value { IfOk result
        (λ v. map member_of v.items ≡ members_in (members_view members.now) []) }
    ensures held { IfOk result
        (λ v. everywhere_in_members is_held (members_of (map member_of v.items)) ≡ true) }
    ensures fits { IfOk result (λ v. fits.new
        ≡ (everywhere_in_members list_fits (members_of (map member_of v.items)) && fits.old)) }
    ensures fault { IfErr result
        (IsRangeFaultOf (object (members_of (members_in (members_view members.now) [])))) }
{
    let last = last_members(alloc, members)?;
    let mut found = Vec::with_capacity(alloc, last.len())?;
    for (name, index) in last {
        let name = String::from_str(alloc, name)?;
        match json_of(alloc, &members[index].1, fits) {
            Ok(value) => found
                .push(Member { name, value })
                .map_err(AllocError::from)?,
            Err(fault) => return Err(fault.within(OwnedStep::Name(name))),
        }
    }
    Ok(found)
}

/// Whether a list has at most (2^53)-1 items.
fn is_short(items: &[Json]) -> bool
    ensures { result ≡ list_fits (list (items_of (map value_of items.now))) }
{
    items.len() <= LARGEST_EXACT as usize
}
