//! The children of a node (RFC 9535 section 1.1).

ghost use Rattle.std.specs.Prelude.{◌≡◌, map, IfOk};
ghost use Rattle.jp_document.specs.Node.{children, node_of};

use crate::node::Node;
use std::alloc::{AllocError, Global};

/// The children of a node in document order: a list's items, an object's members by the bytes of
/// their names, none of other values. The only error is that memory ran out.
pub fn children<'d>(alloc: Global, node: &Node<'d>) -> Result<Vec<Node<'d>>, AllocError>
    ensures { IfOk result (λ ns. map node_of ns.items ≡ children (node_of node.now)) }
{
    let mut nodes = Vec::new(alloc);
    while let Some((step, value)) = node.document_value().child(nodes.len()) {
        nodes.push(node.below(alloc, step, value)?)?;
    }
    Ok(nodes)
}
