//! The location that a query names (RFC 9535 section 2.7).

ghost use Rattle.std.specs.Prelude.{◌≡◌, [], if◌then◌else◌, IfOk, IfSome, None, Some};
ghost use Rattle.std.specs.Prelude.{is_some, map, option_map, true};
ghost use Rattle.jp_document.specs.Location.{owned_step, step_of};
ghost use Rattle.jp_tree.specs.Views.{query_of, segment_of, selector_of};
ghost use Rattle.jp_evaluate.specs.Named.{NamesLocation, location_named, step_of_segment};
ghost use Rattle.jp_evaluate.specs.Named.{step_of_selector};

use jp_check::Checked;
use jp_document::{OwnedStep, Step};
use jp_tree::{Numeral, Query, Segment, Selector};
use std::alloc::{AllocError, Global};

/// The location that a query names: over each document the query selects the node there alone, or
/// none where the document has no value there. A query names one where each of its segments is a
/// child segment whose only selector is a name or an index from 0 on; others have None, which takes
/// no memory, nor does the root. The only error is that memory ran out.
pub(crate) fn named_location(
    alloc: Global,
    query: &Checked,
) -> Result<Option<Vec<OwnedStep>>, AllocError>
    ensures names { IfOk result (λ o. IfSome o
        (λ l. NamesLocation (query_of query.now.query) (map owned_step l.items))) }
    ensures exact { IfOk result (λ o. option_map (λ l. map owned_step l.items) o
        ≡ location_named (query_of query.now.query)) }
{
    let query = query.query();
    if !names_steps(query) {
        return Ok(None);
    }
    let mut location = Vec::with_capacity(alloc, query.segments.len())?;
    if push_steps(alloc, query, &mut location)? {
        Ok(Some(location))
    } else {
        Ok(None)
    }
}

/// Whether each segment names a step.
pub(crate) fn names_steps(query: &Query) -> bool
    ensures { result ≡ is_some (location_named (query_of query.now)) }
{
    for segment in &query.segments {
        if segment_step(segment).is_none() {
            return false;
        }
    }
    true
}

/// Puts the steps that the segments name into a list that holds none; whether each names one.
fn push_steps(
    alloc: Global,
    query: &Query,
    location: &mut Vec<OwnedStep>,
) -> Result<bool, AllocError>
    requires { location.old.items ≡ [] }
    ensures { IfOk result (λ is_named.
        (if is_named then Some (map owned_step location.new.items) else None)
        ≡ location_named (query_of query.now)) }
{
    for segment in &query.segments {
        let Some(step) = segment_step(segment) else {
            return Ok(false);
        };
        location.push(owned(alloc, step)?)?;
    }
    Ok(true)
}

/// This step, with a name of its own.
fn owned(alloc: Global, step: Step<'_>) -> Result<OwnedStep, AllocError>
    ensures { IfOk result (λ owned. owned_step owned ≡ step_of step.entry) }
{
    match step {
        Step::Name(name) => Ok(OwnedStep::Name(String::from_str(alloc, name)?)),
        Step::Index(index) => Ok(OwnedStep::Index(index)),
    }
}

/// The step that a segment names, None for a descendant segment, and for one with no selector or
/// several.
pub(crate) fn segment_step(segment: &Segment) -> Option<Step<'_>>
    ensures { option_map step_of result ≡ step_of_segment (segment_of segment.now) }
{
    if segment.descendant || segment.selectors.len() != 1 {
        return None;
    }
    selector_step(segment.selectors.first()?)
}

/// The step that a selector names, None for others than names and indexes from 0 on.
fn selector_step(selector: &Selector) -> Option<Step<'_>>
    ensures { option_map step_of result ≡ step_of_selector (selector_of selector.now) }
{
    match selector {
        Selector::Name(name) => Some(Step::Name(name.as_str())),
        Selector::Index(Numeral::Whole(index)) => Some(Step::Index(u64::try_from(*index).ok()?)),
        Selector::Index(_) | Selector::Wildcard | Selector::Slice(_) | Selector::Filter(_) => None,
    }
}
