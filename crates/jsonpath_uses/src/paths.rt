//! From nodes to paths, and from a path to a value.

ghost use Rattle.std.specs.Prelude.{◌≡◌, IfErr, IfOk, map, option_map, string_bytes};
ghost use Rattle.jsonpath.specs.Held.{document_of};
ghost use Rattle.jsonpath.specs.Nodelist.{nodelist};
ghost use Rattle.jsonpath.specs.PathFault.{IsPathFaultOf};
ghost use Rattle.jsonpath.specs.Views.{query_of};
ghost use Rattle.jsonpath.specs.Value.{value_of};
ghost use Rattle.jsonpath_uses.specs.Paths.{LeadsTo, path_of_node};

use jsonpath::{Checked, Document, Json, Marks, PathFault, evaluate, path_text, read_path};
use std::alloc::{AllocError, Global};

/// The normalized paths of all nodes that a query selects in a document, in the nodelist's order.
/// The only error is that memory ran out.
pub fn all_paths(
    alloc: Global,
    document: &Document,
    query: &Checked,
) -> Result<Vec<String>, AllocError>
    ensures { IfOk result (λ paths. map string_bytes paths.items ≡ map path_of_node
        (nodelist (query_of query.now.query) (document_of document.now))) }
{
    let mut paths = Vec::new(alloc);
    for node in &evaluate(alloc, document, query, &Marks)? {
        paths.push(path_text(alloc, node.location())?)?;
    }
    Ok(paths)
}

/// The value that a normalized path leads to in a document, None where there is none. The fault says
/// why the text is no such path, or that memory ran out.
pub fn value_at_path<'d>(
    alloc: Global,
    document: &'d Document,
    path: &str,
) -> Result<Option<&'d Json>, PathFault>
    ensures found { IfOk result (λ found. LeadsTo (document_of document.now) path.now
        (option_map (λ json. value_of json.now) found)) }
    ensures fault { IfErr result (IsPathFaultOf path.now) }
{
    let location = read_path(alloc, path)?;
    Ok(document.find(&location))
}
