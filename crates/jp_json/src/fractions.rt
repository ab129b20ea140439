//! The first number that is not whole, or too much for a decimal.

ghost use Rattle.std.specs.Prelude.{◌≡◌, ◌≤◌, ◌<◌, IfOk, IfSome, IsUtf8, get_or, length};
ghost use Rattle.std.specs.Prelude.{true};
ghost use Rattle.jp_json.specs.Misreading.{IsBeyondDecimal, IsNotWhole, IsPlaceIn, cause_of};
ghost use Rattle.jp_json.specs.Misreading.{fraction, range};
ghost use Rattle.jp_json.specs.Private.Parts.{IsBlamed};
ghost use Rattle.jp_json.specs.Private.Reasons.{fraction_reason, has_fraction, is_zero};

use crate::reason::JsonReason;
use crate::scalars::{Scalar, scalar_at};
use jp_document::{DocumentFault, Json, OwnedStep, PathFault, parsed_value, read_path};
use jp_exact::exact_value;
use std::alloc::{AllocError, Global};

/// An array or an object that is open.
#[derive(Clone, Copy, Debug, PartialEq, Eq)]
enum Open {
    /// An array, at the item with that index.
    Array(u64),
    Object,
}

/// A walk over a JSON text to the value at a location.
#[derive(Drop)]
struct Walk<'s> {
    alloc: Global,
    steps: &'s [OwnedStep],
    open: Vec<Open>,
    /// How many of the outermost open levels stand at the steps of the location.
    matched: usize,
    /// Whether a member's name comes next.
    awaits_name: bool,
}

impl<'s> Walk<'s> {
    /// Whether the walk is at the location.
    fn is_there(&self) -> bool {
        self.open.len() == self.steps.len() && self.matched == self.steps.len()
    }

    /// The innermost level goes on to the step of the location, or to another.
    fn turn(&mut self, is_step: bool) {
        let depth = self.open.len();
        if depth > 0 && self.matched >= depth - 1 {
            self.matched = if is_step { depth } else { depth - 1 };
        }
    }

    /// The step of the location in the innermost level.
    fn step(&self) -> Option<&'s OwnedStep> {
        self.steps.get(self.open.len().saturating_sub(1))
    }

    /// Goes on to the item with that index.
    fn item(&mut self, index: u64) {
        let is_step = match self.step() {
            Some(OwnedStep::Index(wanted)) => *wanted == index,
            _ => false,
        };
        self.turn(is_step);
    }

    /// Goes on to the member whose name is spelled so.
    fn member(&mut self, name: &[u8]) -> Result<(), AllocError> {
        let is_step = match self.step() {
            Some(OwnedStep::Name(wanted)) => { spells(self.alloc, name, wanted.as_str())? }
            _ => false,
        };
        self.turn(is_step);
        self.awaits_name = false;
        Ok(())
    }

    /// Goes over a bracket, a comma or another sign.
    fn pass(&mut self, sign: u8) -> Result<(), AllocError> {
        match sign {
            b'[' => {
                self.open.push(Open::Array(0))?;
                self.item(0);
            }
            b'{' => {
                self.open.push(Open::Object)?;
                self.awaits_name = true;
            }
            b']' | b'}' => {
                self.open.pop();
                self.matched = self.matched.min(self.open.len());
                self.awaits_name = false;
            }
            b',' => self.next(),
            _ => {}
        }
        Ok(())
    }

    /// Goes on past a comma.
    fn next(&mut self) {
        let index = match self.open.last_mut() {
            Some(Open::Array(index)) => {
                *index = index.saturating_add(1);
                *index
            }
            Some(Open::Object) => {
                self.awaits_name = true;
                return;
            }
            None => return,
        };
        self.item(index);
    }
}

/// Whether the string spells that text.
fn spells(alloc: Global, string: &[u8], text: &str) -> Result<bool, AllocError> {
    match parsed_value(alloc, string) {
        Ok(Json::Text(spelled)) => Ok(spelled.as_str() == text),
        Err(DocumentFault::NoMemory) => Err(AllocError),
        _ => Ok(false),
    }
}

/// The last number at the steps of the location, as the last member of a name is the one that
/// counts.
fn number_at(alloc: Global, text: &[u8], steps: &[OwnedStep]) -> Result<Option<Scalar>, AllocError>
    ensures within { IfOk result
        (λ o. IfSome o (λ s. (s.start ≤ s.end) × (s.end ≤ length text.now))) }
    ensures ascii { IfOk result (λ o. IfSome o (λ s.
        (s.start < length text.now) × (get_or text.now s.start 0 < 128))) }
{
    let mut walk = Walk {
        alloc,
        steps,
        open: Vec::new(alloc),
        matched: 0,
        awaits_name: false,
    };
    let mut found = None;
    let mut at = 0;
    'text: while at < text.len() {
        match scalar_at(text, at) {
            Some(scalar) => {
                if walk.awaits_name {
                    walk.member(&text[at..scalar.end])?;
                } else if walk.is_there() && text[at] != b'"' {
                    found = Some(scalar);
                }
                at = scalar.end;
            }
            None => {
                walk.pass(text[at])?;
                at += 1;
            }
        }
    }
    Ok(found)
}

/// Whether a number has a fraction or an exponent.
fn has_fraction(number: &[u8]) -> bool
    ensures { result ≡ has_fraction number.now }
{
    number
        .iter()
        .any(|b| *b == b'.' || *b == b'e' || *b == b'E')
}

/// Whether a number has no digit but `0`.
fn is_zero(number: &[u8]) -> bool
    ensures { result ≡ is_zero number.now }
{
    number.iter().all(|b| *b == b'-' || *b == b'0')
}

/// Why a number is not whole.
fn fraction_reason(number: &[u8]) -> JsonReason
    ensures reason { result ≡ fraction_reason number.now }
    ensures cause { cause_of result ≡ fraction }
{
    if has_fraction(number) {
        JsonReason::HasFraction
    } else if is_zero(number) {
        JsonReason::NegativeZero
    } else {
        JsonReason::OutOfRange
    }
}

/// Whether these bytes alone are a number that is not whole.
fn is_not_whole(alloc: Global, text: &[u8]) -> Result<bool, AllocError>
    ensures { IfOk result (λ b. b ≡ true → IsNotWhole text.now) }
{
    match parsed_value(alloc, text) {
        Err(DocumentFault::NotWhole(path)) => Ok(path.as_str() == "$"),
        Err(DocumentFault::NoMemory) => Err(AllocError),
        _ => Ok(false),
    }
}

/// Whether these bytes alone are a number that is too much for a decimal.
fn is_beyond(alloc: Global, text: &[u8]) -> Result<bool, AllocError>
    ensures { IfOk result (λ b. b ≡ true → IsBeyondDecimal text.now) }
{
    match exact_value(alloc, text) {
        Err(DocumentFault::NumberRange(path)) => Ok(path.as_str() == "$"),
        Err(DocumentFault::NoMemory) => Err(AllocError),
        _ => Ok(false),
    }
}

/// The number that has that path, None where none is found.
fn number_named(alloc: Global, text: &[u8], path: &str) -> Result<Option<Scalar>, AllocError>
    ensures within { IfOk result
        (λ o. IfSome o (λ s. (s.start ≤ s.end) × (s.end ≤ length text.now))) }
    ensures ascii { IfOk result (λ o. IfSome o (λ s.
        (s.start < length text.now) × (get_or text.now s.start 0 < 128))) }
{
    match read_path(alloc, path) {
        Ok(location) => number_at(alloc, text, location.steps()),
        Err(PathFault::NoMemory) => Err(AllocError),
        Err(_) => Ok(None),
    }
}

/// The place of the first number that is not whole, which has that path, and why it is not.
pub(crate) fn fraction_at(
    alloc: Global,
    text: &[u8],
    path: &str,
) -> Result<(usize, JsonReason), AllocError>
    ensures blamed { IfOk result (λ x. IsBlamed fraction IsNotWhole text.now x.0 x.1) }
    ensures place { IfOk result (λ x. IsUtf8 text.now → IsPlaceIn text.now x.0) }
{
    let Some(number) = number_named(alloc, text, path)? else {
        return Ok((0, JsonReason::Unreadable));
    };
    let part = &text[number.start..number.end];
    if is_not_whole(alloc, part)? {
        Ok((number.start, fraction_reason(part)))
    } else {
        Ok((0, JsonReason::Unreadable))
    }
}

/// The place of the first number that is too much for a decimal, which has that path, and that reason.
pub(crate) fn range_at(
    alloc: Global,
    text: &[u8],
    path: &str,
) -> Result<(usize, JsonReason), AllocError>
    ensures blamed { IfOk result (λ x. IsBlamed range IsBeyondDecimal text.now x.0 x.1) }
    ensures place { IfOk result (λ x. IsUtf8 text.now → IsPlaceIn text.now x.0) }
{
    let Some(number) = number_named(alloc, text, path)? else {
        return Ok((0, JsonReason::Unreadable));
    };
    let part = &text[number.start..number.end];
    if is_beyond(alloc, part)? {
        Ok((number.start, JsonReason::BeyondDecimal))
    } else {
        Ok((0, JsonReason::Unreadable))
    }
}
