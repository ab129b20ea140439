//! The value of an exact document, and of one with numbers of either kind.

ghost use Rattle.std.specs.Prelude.{◌≡◌, IfOk, IfErr, option_map};
ghost use Rattle.json.specs.Value.{value_view};
ghost use Rattle.jp_document.specs.Exact.{IsDocumentIn, IsExactDocument};
ghost use Rattle.jp_document.specs.OfJson.{json_in};
ghost use Rattle.jp_document.specs.Value.{value_of};
ghost use Rattle.jp_exact.specs.Defects.{IsDocumentFaultIn, IsExactFault};

use crate::conversion::json_of;
use jp_decimal::Numbers;
use jp_document::{DocumentFault, Json, parsed_value};
use json::{Error, Reader, Scratch, Value};
use std::alloc::{AllocError, Global};
use std::str;

/// How many levels of lists and objects a document has at most.
const LEVELS: usize = 127;

/// The value of bytes that are an exact document, else what is wrong with them.
pub fn exact_value(alloc: Global, bytes: &[u8]) -> Result<Json, DocumentFault>
    ensures ok { IfOk result (λ j. IsExactDocument bytes.now (value_of j)) }
    ensures fault { IfErr result (IsExactFault bytes.now) }
{
    let Ok(text) = str::from_utf8(bytes) else {
        return Err(DocumentFault::NotJson);
    };
    let mut scratch = Scratch::new(alloc);
    let Some(parsed) = parsed_text(alloc, text, &mut scratch)? else {
        return Err(DocumentFault::NotJson);
    };
    let mut fits = true;
    let json = match json_of(alloc, &parsed, &mut fits) {
        Ok(json) => json,
        Err(fault) => return Err(fault.exact_fault(alloc)),
    };
    if fits {
        Ok(json)
    } else {
        Err(DocumentFault::ListTooLong)
    }
}

/// The value of bytes that are a document with such numbers, else what is wrong with them.
pub fn read_value(alloc: Global, bytes: &[u8], numbers: Numbers) -> Result<Json, DocumentFault>
    ensures ok { IfOk result (λ j. IsDocumentIn numbers bytes.now (value_of j)) }
    ensures fault { IfErr result (IsDocumentFaultIn numbers bytes.now) }
{
    match numbers {
        Numbers::Whole => parsed_value(alloc, bytes),
        Numbers::Decimal => exact_value(alloc, bytes),
    }
}

/// What the grammar of JSON reads the text as, None where it is no JSON text. The only error is that
/// memory ran out.
fn parsed_text<'t>(
    alloc: Global,
    text: &'t str,
    scratch: &'t mut Scratch,
) -> Result<Option<Value<'t>>, AllocError>
    ensures { IfOk result (λ parsed. option_map value_view parsed ≡ json_in text.now) }
{
    let mut reader = Reader::new(text, scratch)?;
    match Value::read(alloc, &mut reader, LEVELS) {
        Ok(value) => {
            if reader.next().is_none() {
                Ok(Some(value))
            } else {
                Ok(None)
            }
        }
        Err(Error::OutOfMemory) => Err(AllocError),
        Err(_) => Ok(None),
    }
}
