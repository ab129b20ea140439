//! Segments that select members of some names alone, and then what their values have.

ghost use Rattle.std.specs.Prelude.{◌≡◌, IfOk, map, option_map};
ghost use Rattle.jp_tree.specs.Tree.{segments as segment_trees, selectors as selector_trees};
ghost use Rattle.jp_tree.specs.Views.{segment_of, selector_of};
ghost use Rattle.jp_evaluate.specs.Private.Asks.{Collects, are_unfiltered, asks_members, asks_name};
ghost use Rattle.jp_evaluate.specs.Private.Asks.{asks_names, has_no_filter, is_unfiltered, name_selected};

use crate::asked::names::push_name;
use jp_tree::{Segment, Selector};
use std::alloc::AllocError;

/// Puts the names of the members that the segments ask for among others; whether these are told.
pub(crate) fn push_members(
    segments: &[Segment],
    names: &mut Vec<String>,
) -> Result<bool, AllocError>
    ensures { IfOk result (Collects names.old.items names.new.items
        (λ p. asks_members p (segment_trees (map segment_of segments.now)))) }
{
    let [first, rest @ ..] = segments else {
        return Ok(false);
    };
    if first.descendant || !has_no_filter(rest) {
        return Ok(false);
    }
    push_names(&first.selectors, names)
}

/// Puts the names that the selectors select among others; false where one of them is no name, or there is
/// no room.
fn push_names(selectors: &[Selector], names: &mut Vec<String>) -> Result<bool, AllocError>
    ensures { IfOk result (Collects names.old.items names.new.items
        (λ p. asks_names p (selector_trees (map selector_of selectors.now)))) }
{
    for selector in selectors {
        if !push_name_of(selector, names)? {
            return Ok(false);
        }
    }
    Ok(true)
}

/// Puts the name that a selector selects among others; false where it is no name, or there is no room.
fn push_name_of(selector: &Selector, names: &mut Vec<String>) -> Result<bool, AllocError>
    ensures { IfOk result (Collects names.old.items names.new.items
        (λ p. asks_name p (selector_of selector.now))) }
{
    match name_of(selector) {
        Some(name) => push_name(name, names),
        None => Ok(false),
    }
}

/// The name that a selector selects; None of a selector of any other kind.
pub(crate) fn name_of(selector: &Selector) -> Option<&str>
    ensures { option_map (λ s. s.now) result ≡ name_selected (selector_of selector.now) }
{
    match selector {
        Selector::Name(name) => Some(name.as_str()),
        Selector::Wildcard | Selector::Index(_) | Selector::Slice(_) | Selector::Filter(_) => None,
    }
}

/// Whether none of the segments has a filter among its selectors.
pub(crate) fn has_no_filter(segments: &[Segment]) -> bool
    ensures { result ≡ has_no_filter (segment_trees (map segment_of segments.now)) }
{
    for segment in segments {
        if !are_unfiltered(&segment.selectors) {
            return false;
        }
    }
    true
}

/// Whether none of the selectors is a filter.
fn are_unfiltered(selectors: &[Selector]) -> bool
    ensures { result ≡ are_unfiltered (selector_trees (map selector_of selectors.now)) }
{
    for selector in selectors {
        if !is_unfiltered(selector) {
            return false;
        }
    }
    true
}

/// Whether the selector is no filter.
fn is_unfiltered(selector: &Selector) -> bool
    ensures { result ≡ is_unfiltered (selector_of selector.now) }
{
    match selector {
        Selector::Filter(_) => false,
        Selector::Name(_) | Selector::Wildcard | Selector::Index(_) | Selector::Slice(_) => true,
    }
}
