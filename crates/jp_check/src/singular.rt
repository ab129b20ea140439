//! Singular queries (RFC 9535 section 2.3.5.1).

ghost use Rattle.std.specs.Prelude.{◌≡◌};
ghost use Rattle.jp_tree.specs.Singular.{is_single, is_single_segment, is_singular};
ghost use Rattle.jp_tree.specs.Views.{query_of, segment_of, selector_of};

use jp_tree::{Query, Segment, Selector};

/// Whether a query selects at most one node, whatever the document: it has singular segments alone.
pub(crate) fn is_singular(query: &Query) -> bool
    ensures { result ≡ is_singular (query_of query.now) }
{
    for segment in &query.segments {
        if !is_single_segment(segment) {
            return false;
        }
    }
    true
}

/// Whether it is a child segment with exactly one selector, a name or an index.
#[tactic(auto, using(crate::proofs::Segments::several_not_single))]
pub(crate) fn is_single_segment(segment: &Segment) -> bool
    ensures { result ≡ is_single_segment (segment_of segment.now) }
{
    match segment.selectors.as_slice() {
        [selector] => !segment.descendant && is_single(selector),
        _ => false,
    }
}

/// Whether the selector is a name or an index.
fn is_single(selector: &Selector) -> bool
    ensures { result ≡ is_single (selector_of selector.now) }
{
    match selector {
        Selector::Name(_) | Selector::Index(_) => true,
        Selector::Wildcard | Selector::Slice(_) | Selector::Filter(_) => false,
    }
}
