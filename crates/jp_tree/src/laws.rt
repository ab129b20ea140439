//! Laws about the definitions, each the contract of a function that does nothing.

ghost use Rattle.std.specs.Prelude.{◌≡◌, ◌↔◌, IsTrue};
ghost use Rattle.jp_tree.specs.Views.{query_of};

use crate::tree::Query;

/// Two queries are equal (`==`) exactly where their trees are (RFC 9535 section 2.1).
pub fn equal_queries()
    ensures { (p q : Query) → IsTrue (⟦<Query as PartialEq>⟧.eq p q) ↔ (query_of p ≡ query_of q) }
{}
