//! From a reading of `serde_json` to a value.
//!
//! That reading is a tree of its own, which takes some thirty times the memory of a text. So bytes
//! that are no JSON text are refused before it is made.

ghost use Rattle.std.specs.Prelude.{◌≡◌, ◌&&◌, ◌↔◌, map, Some, true, IfOk, IfErr, IsSome, IsTrue};
ghost use Rattle.serde_json.specs.View.{view, number_view, items_view, members_view};
ghost use Rattle.jp_document.specs.Document.{IsDocument, IsDocumentFault, value_of_data};
ghost use Rattle.jp_document.specs.Document.{items_of_data, members_of_data};
ghost use Rattle.jp_document.specs.Private.JsonText.{json_of};
ghost use Rattle.jp_document.specs.Private.ValueFault.{IsValueFaultOf};
ghost use Rattle.serde_json.specs.Data.{number as number_data, array, object};
ghost use Rattle.jp_document.specs.Value.{value_of, list, items_of, members_of};
ghost use Rattle.jp_document.specs.Value.{member_of, everywhere, everywhere_in_items};
ghost use Rattle.jp_document.specs.Value.{everywhere_in_members, list_fits};

use crate::fault::DocumentFault;
use crate::location::OwnedStep;
use crate::value::{Json, Member};
use crate::value_fault::ValueFault;
use jp_reading::LARGEST_EXACT;
use json::{Reader, Scratch};
use serde_json::{Map, Number, Value};
use std::alloc::{AllocError, Global};

/// How many levels of lists and objects `serde_json` reads inside one another.
const LEVELS: usize = 127;

/// The value that `serde_json` parses from bytes that are a document, else what is wrong with them.
pub fn parsed_value(alloc: Global, bytes: &[u8]) -> Result<Json, DocumentFault>
    ensures ok { IfOk result (λ j. IsDocument bytes.now (value_of j)) }
    ensures fault { IfErr result (IsDocumentFault bytes.now) }
{
    let Ok(text) = simdutf8::basic::from_utf8(bytes) else {
        return Err(DocumentFault::NotJson);
    };
    if !is_json(alloc, text)? {
        return Err(DocumentFault::NotJson);
    }
    let parsed = match Value::from_str(alloc, text) {
        Ok(parsed) => parsed,
        Err(error) if error.is_memory() => return Err(DocumentFault::NoMemory),
        Err(_) => return Err(DocumentFault::NotJson),
    };
    let mut fits = true;
    let json = match json_of(alloc, parsed, &mut fits) {
        Ok(json) => json,
        Err(fault) => return Err(fault.document_fault(alloc)),
    };
    if fits {
        Ok(json)
    } else {
        Err(DocumentFault::ListTooLong)
    }
}

/// Whether a text is JSON, with as many levels as `serde_json` reads. It makes no tree, and takes memory for the
/// text alone.
#[inline(never)]
fn is_json(alloc: Global, text: &str) -> Result<bool, AllocError>
    ensures { IfOk result (λ is. IsTrue is ↔ IsSome (json_of text.now)) }
{
    let mut scratch = Scratch::new(alloc);
    let mut reader = Reader::new(text, &mut scratch)?;
    Ok(reader.skip_value(LEVELS).is_ok() && reader.next().is_none())
}

/// The value of a reading. The texts move over, and members come in the order of their names.
/// `fits` is cleared where some list has more than (2^53)-1 items.
#[cycle(json_of)]
fn json_of(alloc: Global, value: Value, fits: &mut bool) -> Result<Json, ValueFault>
    ensures value { IfOk result (λ j. value_of_data (view value) ≡ Some (value_of j)) }
    ensures fits { IfOk result (λ j. fits.new ≡ (everywhere list_fits (value_of j) && fits.old)) }
    ensures fault { IfErr result (IsValueFaultOf (view value)) }
{
    match value {
        Value::Null => Ok(Json::Null),
        Value::Bool(b) => Ok(Json::Bool(b)),
        Value::Number(number) => json_of_number(alloc, number),
        Value::String(text) => Ok(Json::Text(text)),
        Value::Array(items) => {
            let list = json_items(alloc, items, fits)?;
            if !is_short(&list) {
                *fits = false;
            }
            Ok(Json::List(list))
        }
        Value::Object(members) => Ok(Json::Members(json_members(alloc, members, fits)?)),
    }
}

/// The value of a number that `serde_json` read as a whole one of 64 bits; of any other, `Fraction` with no
/// steps yet.
fn json_of_number(alloc: Global, number: Number) -> Result<Json, ValueFault>
    ensures value { IfOk result
        (λ j. value_of_data (number_data (number_view number)) ≡ Some (value_of j)) }
    ensures fault { IfErr result (IsValueFaultOf (number_data (number_view number))) }
{
    if let Some(n) = number.as_u64() {
        Ok(Json::Whole(i128::from(n)))
    } else if let Some(n) = number.as_i64() {
        Ok(Json::Whole(i128::from(n)))
    } else {
        Err(ValueFault::Fraction(Vec::new(alloc)))
    }
}

/// The values of a list's items, in their order, or the fault of the first that has no value, with its
/// index. `fits` is cleared as by `json_of`.
#[cycle(json_of)]
fn json_items(alloc: Global, items: Vec<Value>, fits: &mut bool) -> Result<Vec<Json>, ValueFault>
    ensures value { IfOk result
        (λ v. items_of_data (items_view items.items) ≡ Some (items_of (map value_of v.items))) }
    ensures fits { IfOk result (λ v. fits.new
        ≡ (everywhere_in_items list_fits (items_of (map value_of v.items)) && fits.old)) }
    ensures fault { IfErr result (IsValueFaultOf (array (items_view items.items))) }
{
    let mut found = Vec::with_capacity(alloc, items.len())?;
    for item in items {
        match json_of(alloc, item, fits) {
            Ok(json) => found.push(json).map_err(AllocError::from)?,
            Err(fault) => return Err(fault.within(OwnedStep::Index(found.len() as u64))),
        }
    }
    Ok(found)
}

/// The members of an object in the order of their names, or the fault of the first that has no value, with
/// its name. `fits` is cleared as by `json_of`.
#[cycle(json_of)]
fn json_members(
    alloc: Global,
    members: Map<String, Value>,
    fits: &mut bool,
) -> Result<Vec<Member>, ValueFault>
    ensures value { IfOk result (λ v. members_of_data (members_view members.entries)
        ≡ Some (members_of (map member_of v.items))) }
    ensures fits { IfOk result (λ v. fits.new
        ≡ (everywhere_in_members list_fits (members_of (map member_of v.items)) && fits.old)) }
    ensures fault { IfErr result (IsValueFaultOf (object (members_view members.entries))) }
{
    let mut found = Vec::with_capacity(alloc, members.len())?;
    for (name, member) in members {
        match json_of(alloc, member, fits) {
            Ok(value) => found
                .push(Member { name, value })
                .map_err(AllocError::from)?,
            Err(fault) => return Err(fault.within(OwnedStep::Name(name))),
        }
    }
    Ok(found)
}

/// Whether a list has at most (2^53)-1 items.
fn is_short(items: &[Json]) -> bool
    ensures { result ≡ list_fits (list (items_of (map value_of items.now))) }
{
    items.len() <= LARGEST_EXACT as usize
}
