//! The first node alone, which is looked for no further.

ghost use Rattle.std.specs.Prelude.{◌≡◌, IfOk};
ghost use Rattle.jsonpath.specs.Held.{document_of};
ghost use Rattle.jsonpath.specs.Nodelist.{has_node, nodelist};
ghost use Rattle.jsonpath.specs.Views.{query_of};
ghost use Rattle.jsonpath.specs.Value.{value_of};
ghost use Rattle.jsonpath_uses.specs.First.{first_value};

use jsonpath::{Checked, Document, Json, Marks, nodes};
use std::alloc::{AllocError, Global};

/// The value of the first node that a query selects in a document, or the other value where it
/// selects none. The only error is that memory ran out.
pub fn first_or<'d>(
    alloc: Global,
    document: &'d Document,
    query: &Checked,
    other: &'d Json,
) -> Result<&'d Json, AllocError>
    ensures { IfOk result (λ json. value_of json.now ≡ first_value
        (nodelist (query_of query.now.query) (document_of document.now)) (value_of other.now)) }
{
    match nodes(alloc, document, query, &Marks).next() {
        Some(node) => Ok(node?.value()),
        None => Ok(other),
    }
}

/// Whether a query selects any node in a document. The only error is that memory ran out.
pub fn is_any(alloc: Global, document: &Document, query: &Checked) -> Result<bool, AllocError>
    ensures { IfOk result (λ any. any
        ≡ has_node (nodelist (query_of query.now.query) (document_of document.now))) }
{
    match nodes(alloc, document, query, &Marks).next() {
        Some(node) => {
            node?;
            Ok(true)
        }
        None => Ok(false),
    }
}
