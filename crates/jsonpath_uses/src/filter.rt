//! A query that is part of a program, with a filter that asks for a pattern (RFC 9485).

ghost use Rattle.std.specs.Prelude.{IfErr, IfOk, map};
ghost use Rattle.std.specs.Str.{chars};
ghost use Rattle.jsonpath.specs.Held.{document_of};
ghost use Rattle.jsonpath.specs.Find.{RefusesOrRanOut, Selects};
ghost use Rattle.jsonpath.specs.Node.{node_of};

use jsonpath::{Document, Node, Profile, Refusal, find_nodes};
use std::alloc::Global;

/// The ids of those who were born in one of the years 1800 to 1899.
pub const BORN_IN_THE_1800S: &str = r#"$[?match(@.born, "18[0-9]{2}")].id"#;

/// The nodes that `BORN_IN_THE_1800S` selects in a document. The only refusal is that memory ran
/// out, as a test shows: that the query is accepted.
pub fn ids_of_the_1800s<'d>(alloc: Global, document: &'d Document) -> Result<Vec<Node<'d>>, Refusal>
    ensures found { IfOk result (λ found. Selects Profile.Standard (chars BORN_IN_THE_1800S.now)
        (document_of document.now) (map node_of found.items)) }
    ensures refused { IfErr result (RefusesOrRanOut Profile.Standard (chars BORN_IN_THE_1800S.now)) }
{
    find_nodes(alloc, document, BORN_IN_THE_1800S, Profile::Standard)
}
