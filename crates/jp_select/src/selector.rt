//! What a plain selector selects at a node (RFC 9535 section 2.3).

ghost use Rattle.std.specs.Prelude.{◌≡◌, IfOk, map};
ghost use Rattle.jp_document.specs.Node.{node_of};
ghost use Rattle.jp_tree.specs.Views.{selector_of};
ghost use Rattle.jp_select.specs.Selectors.{chosen};

use crate::candidates::candidate;
use jp_document::Node;
use jp_tree::Selector;
use std::alloc::{AllocError, Global};

/// The nodes that a plain selector selects at a node; a filter is none, and gives no node here,
/// since what it selects depends on queries of its own, which only a layer above can evaluate.
///
/// In the selector's order (section 2.3): of an object the member of that name; of any value all
/// children; of a list the item at that index, or the items of that slice. An index or a slice with
/// a number that is not whole, or beyond 64 bits, selects nothing. The only error is that
/// memory ran out.
pub fn select_plain<'d>(
    alloc: Global,
    node: &Node<'d>,
    selector: &Selector,
) -> Result<Vec<Node<'d>>, AllocError>
    ensures { IfOk result
        (λ nodes. map node_of nodes.items ≡ chosen (selector_of selector.now) (node_of node.now)) }
{
    let mut nodes = Vec::new(alloc);
    if let Selector::Filter(_) = selector {
        return Ok(nodes);
    }
    while let Some((step, value)) = candidate(selector, node.document_value(), nodes.len()) {
        nodes.push(node.below(alloc, step, value)?)?;
    }
    Ok(nodes)
}
