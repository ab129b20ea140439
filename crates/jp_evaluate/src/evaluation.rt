//! The evaluation of a query, node by node.

ghost use Rattle.std.specs.Prelude.{◌≡◌, IfOk, false, map};
ghost use Rattle.jp_held.specs.Held.{document_of};
ghost use Rattle.jp_document.specs.Node.{node_of};
ghost use Rattle.jp_tree.specs.Views.{query_of};
ghost use Rattle.jp_evaluate.specs.Nodelist.{nodelist};
ghost use Rattle.jp_evaluate.specs.Rest.{has_failed, rest_of};

use crate::each::Nodes;
use crate::lent::lent_nodes;
use jp_check::Checked;
use jp_document::Node;
use jp_held::Document;
use jp_match::Matching;
use std::alloc::{AllocError, Global};

/// The nodes that a query selects in a document (RFC 9535 section 2.1.2), to be taken one by one in
/// the nodelist's order; a node that is selected twice is given twice. The matcher answers `match`
/// and `search`. It takes no memory before the first is asked for, and then what it holds follows
/// the depth of the document and the query, the patterns that were read, of which it keeps 16 at
/// most, and, where absolute queries stand in its filters, the query's size. The nodes borrow from
/// the document.
pub fn nodes<'d: 'q, 'q, M: Matching>(
    alloc: Global,
    document: &'d Document,
    query: &'q Checked,
    matcher: &'q M,
) -> Nodes<'d, 'q, M>
    ensures working { has_failed result ≡ false }
    ensures nodes { rest_of result ≡ nodelist (query_of query.now.query) (document_of document.now) }
{
    Nodes {
        nodes: lent_nodes(alloc, document.value(), query, matcher),
    }
}

/// The nodes that a query selects in a document (RFC 9535 section 2.1.2), in the nodelist's order;
/// a node that is selected twice stands there twice. The matcher answers `match` and `search`. The
/// nodes borrow from the document and copy nothing of it. The only error is that memory ran out,
/// also where `count` finds more nodes than 64 bits count.
pub fn evaluate<'d, M: Matching>(
    alloc: Global,
    document: &'d Document,
    query: &Checked,
    matcher: &M,
) -> Result<Vec<Node<'d>>, AllocError>
    ensures { IfOk result (λ nodes. map node_of nodes.items
        ≡ nodelist (query_of query.now.query) (document_of document.now)) }
{
    let mut selected = Vec::new(alloc);
    for next in nodes(alloc, document, query, matcher) {
        selected.push(next?)?;
    }
    Ok(selected)
}
