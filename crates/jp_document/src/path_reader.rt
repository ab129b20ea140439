//! Reading normalized paths (RFC 9535 section 2.7).

ghost use Rattle.std.specs.Prelude.{◌≡◌, map, false, IfOk, IfErr};
ghost use Rattle.std.specs.List.{list_any};
ghost use Rattle.jp_reading.specs.Views.{Gives};
ghost use Rattle.jp_document.specs.Location.{owned_step};
ghost use Rattle.jp_document.specs.Path.{path_of};
ghost use Rattle.jp_document.specs.PathFault.{is_large, IsPathFaultOf};
ghost use Rattle.jp_document.specs.Private.PathRules as rules;
ghost use Rattle.jp_document.specs.Private.PathReading.{read_rule, path_at};

use crate::location::{OwnedLocation, OwnedStep};
use crate::name_reader::name;
use crate::path_fault::PathFault;
use jp_reading::{LARGEST_EXACT, Reader, Stop, natural};
use std::alloc::{AllocError, Global};

/// The location whose normalized path the text is (RFC 9535 section 2.7). Refused are: a text that
/// is the path of no list of steps (`NotNormalized`), so each other spelling of a step, as `["a"]`
/// or `[01]`, and each text that goes on after its path; a path with an index above (2^53)-1
/// (`IndexRange`). `NoMemory` says nothing of the text.
pub fn read_path(alloc: Global, text: &str) -> Result<OwnedLocation, PathFault>
    ensures path { IfOk result (λ l. text.now ≡ path_of l) }
    ensures small { IfOk result (λ l. list_any is_large l ≡ false) }
    ensures fault { IfErr result (IsPathFaultOf text.now) }
{
    let steps = path(&mut Reader::new(alloc, text))?;
    if is_any_large(&steps) {
        return Err(PathFault::IndexRange);
    }
    Ok(OwnedLocation::of(steps))
}

/// Whether some index is above (2^53)-1.
fn is_any_large(steps: &[OwnedStep]) -> bool
    ensures { result ≡ list_any (λ s. is_large (owned_step s)) steps.now }
{
    steps.iter().any(is_large)
}

/// Whether the step is an index above (2^53)-1, as no name is.
fn is_large(step: &OwnedStep) -> bool
    ensures { result ≡ is_large (owned_step step.now) }
{
    match step {
        OwnedStep::Name(_) => false,
        OwnedStep::Index(index) => *index > LARGEST_EXACT,
    }
}

/// Takes a whole path: the text ends after it. An index above (2^53)-1 is read as 2^53.
#[tactic(auto, unfolding(crate::specs::Private::PathReading::path_at, crate::specs::Private::PathRules::path,))]
fn path(reader: &mut Reader) -> Result<Vec<OwnedStep>, Stop>
    ensures { Gives (λ v. map owned_step v.items) result reader.new (path_at reader.old) }
{
    reader.expect('$')?;
    let steps = steps(reader)?;
    match reader.peek() {
        Some(_) => Err(Stop::Syntax(reader.place())),
        None => Ok(steps),
    }
}

/// Takes step after step, as long as another begins.
fn steps(reader: &mut Reader) -> Result<Vec<OwnedStep>, Stop>
    ensures { Gives
        (λ v. map owned_step v.items)
        result
        reader.new
        (read_rule rules.steps reader.old) }
{
    let mut steps = Vec::new(reader.alloc());
    'steps: while reader.is_at('[') {
        let next = step(reader)?;
        steps.push(next).map_err(AllocError::from)?;
    }
    Ok(steps)
}

/// Takes a step between brackets.
#[tactic(auto, unfolding(crate::specs::Private::PathRules::step))]
fn step(reader: &mut Reader) -> Result<OwnedStep, Stop>
    ensures { Gives owned_step result reader.new (read_rule rules.step reader.old) }
{
    reader.expect('[')?;
    let step = normal_selector(reader)?;
    reader.expect(']')?;
    Ok(step)
}

/// Takes a name or an index.
#[tactic(auto, unfolding(crate::specs::Private::PathRules::normal_selector))]
fn normal_selector(reader: &mut Reader) -> Result<OwnedStep, Stop>
    ensures { Gives owned_step result reader.new (read_rule rules.normal_selector reader.old) }
{
    if reader.is_at('\'') {
        let name = name(reader)?;
        Ok(OwnedStep::Name(name))
    } else {
        let index = index(reader)?;
        Ok(OwnedStep::Index(index))
    }
}

/// Takes an index without a leading zero, and answers 2^53 where it is larger.
#[tactic(auto, unfolding(crate::specs::Private::PathRules::index))]
fn index(reader: &mut Reader) -> Result<u64, Stop>
    ensures { Gives (λ n. n) result reader.new (read_rule rules.index reader.old) }
{
    if reader.is_at('0') {
        reader.bump();
        return Ok(0);
    }
    let index = natural(reader, LARGEST_EXACT as u128 + 1)?;
    Ok(index as u64)
}
