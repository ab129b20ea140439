//! What a query asks of a document, where it is told that it asks only for some members.

ghost use Rattle.std.specs.Prelude.{◌≡◌, IfOk, IfSome, map, option_map};
ghost use Rattle.jp_tree.specs.Tree.{segments as segment_trees, selectors as selector_trees};
ghost use Rattle.jp_tree.specs.Views.{query_of, segment_of, selector_of};
ghost use Rattle.jp_evaluate.specs.Asked.{AsksNoMore};
ghost use Rattle.jp_evaluate.specs.Private.Asks.{AskedOf, Collects, asked_anywhere, asks_items};
ghost use Rattle.jp_evaluate.specs.Private.Asks.{asks_selector, asks_selectors, only_name};

mod filters;
mod members;
mod names;
mod root;

use crate::asked::filters::push_expr;
use crate::asked::members::{has_no_filter, name_of, push_members};
pub(crate) use crate::asked::root::{asked_beside, asked_by_test};
use jp_check::Checked;
use jp_flat::AskedFor;
use jp_tree::{Segment, Selector};
use std::alloc::{AllocError, Global};

/// What a query asks of a document: over each document it selects the same nodes in what is kept of
/// it. A query asks for members of one name anywhere if a descendant segment with that name comes
/// first, for some members of a list's items if it goes to items and then to these members, and for
/// some of the document itself if it goes to these members; what comes later has no filters, and the
/// filters of items ask each of their queries of such members. Others have None. The only error is that memory ran out.
pub(crate) fn asked_by(alloc: Global, query: &Checked) -> Result<Option<AskedFor>, AllocError>
    ensures { IfOk result (λ o. IfSome o (AsksNoMore (query_of query.now.query))) }
{
    let segments = &query.query().segments;
    if let Some(name) = name_anywhere(segments) {
        let name = String::from_str(alloc, name)?;
        return Ok(Some(AskedFor::Anywhere(name)));
    }
    if let Some(names) = names_of_items(alloc, segments)? {
        return Ok(Some(AskedFor::OfItems(names)));
    }
    asked_beside(AskedFor::OfRoot(Vec::new(alloc)), query)
}

/// The name that a descendant segment selects, if it comes first and no filter comes later.
fn name_anywhere(segments: &[Segment]) -> Option<&str>
    ensures { option_map (λ s. s.now) result
        ≡ asked_anywhere (segment_trees (map segment_of segments.now)) }
{
    let [first, rest @ ..] = segments else {
        return None;
    };
    if !first.descendant || !has_no_filter(rest) {
        return None;
    }
    only_name(&first.selectors)
}

/// The name that these selectors select alone; None where there is not one selector, or the one is no name.
fn only_name(selectors: &[Selector]) -> Option<&str>
    ensures { option_map (λ s. s.now) result
        ≡ only_name (selector_trees (map selector_of selectors.now)) }
{
    if selectors.len() != 1 {
        return None;
    }
    name_of(selectors.first()?)
}

/// The names of all members that the segments ask for of a list's items, None where it is not told.
fn names_of_items(alloc: Global, segments: &[Segment]) -> Result<Option<Vec<String>>, AllocError>
    ensures { IfOk result (λ o. IfSome o (λ names. AskedOf names.items
        (λ p. asks_items p (segment_trees (map segment_of segments.now))))) }
{
    let mut names = Vec::new(alloc);
    if push_items(segments, &mut names)? {
        Ok(Some(names))
    } else {
        Ok(None)
    }
}

/// Puts the names of the members that the segments ask for of a list's items among others; whether these
/// are told.
fn push_items(segments: &[Segment], names: &mut Vec<String>) -> Result<bool, AllocError>
    ensures { IfOk result (Collects names.old.items names.new.items
        (λ p. asks_items p (segment_trees (map segment_of segments.now)))) }
{
    let [first, rest @ ..] = segments else {
        return Ok(false);
    };
    if first.descendant {
        return Ok(false);
    }
    if !push_selectors(&first.selectors, names)? {
        return Ok(false);
    }
    push_members(rest, names)
}

/// Puts the names of the members that the selectors ask for of the items among others; whether these are
/// told.
fn push_selectors(selectors: &[Selector], names: &mut Vec<String>) -> Result<bool, AllocError>
    ensures { IfOk result (Collects names.old.items names.new.items
        (λ p. asks_selectors p (selector_trees (map selector_of selectors.now)))) }
{
    for selector in selectors {
        if !push_selector(selector, names)? {
            return Ok(false);
        }
    }
    Ok(true)
}

/// A name selects no items, so that there is nothing to be left out.
fn push_selector(selector: &Selector, names: &mut Vec<String>) -> Result<bool, AllocError>
    ensures { IfOk result (Collects names.old.items names.new.items
        (λ p. asks_selector p (selector_of selector.now))) }
{
    match selector {
        Selector::Filter(test) => push_expr(test, names),
        Selector::Wildcard | Selector::Index(_) | Selector::Slice(_) => Ok(true),
        Selector::Name(_) => Ok(false),
    }
}
