//! Copies of the smallest parts of queries, and of locations as queries.

ghost use Rattle.std.specs.Prelude.{◌≡◌, IfOk, map, string_bytes};
ghost use Rattle.jp_document.specs.Location.{step_of};
ghost use Rattle.jp_tree.specs.Views.{literal_of, query_of, segment_of};
ghost use Rattle.jp_evaluate.specs.Private.PathTrees.{path_tree, step_segment};

use jp_document::Step;
use jp_tree::{FunctionName, Literal, Numeral, Query, Segment, Selector};
use std::alloc::{AllocError, Global};

/// A copy of a literal, with a text of its own. The only error is that memory ran out.
#[inline(never)]
pub(super) fn copied_literal(alloc: Global, literal: &Literal) -> Result<Literal, AllocError>
    ensures { IfOk result (λ l. literal_of l ≡ literal_of literal.now) }
{
    match literal {
        Literal::Number(number) => Ok(Literal::Number(*number)),
        Literal::Text(text) => Ok(Literal::Text(String::from_str(alloc, text.as_str())?)),
        Literal::True => Ok(Literal::True),
        Literal::False => Ok(Literal::False),
        Literal::Null => Ok(Literal::Null),
    }
}

/// A copy of a function's name. The only error is that memory ran out.
#[inline(never)]
pub(super) fn copied_name(alloc: Global, name: &FunctionName) -> Result<FunctionName, AllocError>
    ensures { IfOk result (λ n. string_bytes n ≡ string_bytes name.now) }
{
    Ok(FunctionName::new(String::from_str(alloc, name.as_str())?))
}

/// The query that selects the node at this location alone.
pub(super) fn path_query(alloc: Global, location: &[Step]) -> Result<Query, AllocError>
    ensures { IfOk result (λ q. query_of q ≡ path_tree (map step_of location.now)) }
{
    let mut segments = Vec::with_capacity(alloc, location.len())?;
    for step in location {
        segments.push(step_segment(alloc, *step)?)?;
    }
    Ok(Query {
        absolute: true,
        segments,
    })
}

/// The child segment that selects the child at this step alone.
fn step_segment(alloc: Global, step: Step) -> Result<Segment, AllocError>
    ensures { IfOk result (λ s. segment_of s ≡ step_segment (step_of step.entry)) }
{
    let selector = match step {
        Step::Name(name) => Selector::Name(String::from_str(alloc, name)?),
        Step::Index(index) => Selector::Index(Numeral::Whole(index as i128)),
    };
    let mut selectors = Vec::with_capacity(alloc, 1)?;
    selectors.push(selector)?;
    Ok(Segment {
        descendant: false,
        selectors,
    })
}
