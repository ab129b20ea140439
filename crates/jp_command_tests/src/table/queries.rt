//! Sections 2.1 and 2.2: queries, documents and the root.

use crate::rows::Answer::{Document, Nodes, Query};
use crate::rows::{Row, gives_each};
use std::test::Fail;

/// Section 2.1: queries, and documents.
const QUERIES: &[Row] = &[
    ("1", "", Query("Syntax at 0")),
    ("[0,1,2,3,4]", "$ [-3]", Nodes(&[("$[2]", "2")])),
    ("1", "$.a ", Query("Syntax at 4")),
    ("1", "$.a.", Query("Syntax at 4")),
    ("1", "$. a", Query("Syntax at 2")),
    ("1", "$['é'!]", Query("Syntax at 6")),
    ("", "$", Document("NotJson")),
    ("[1", "$", Document("NotJson")),
    ("1 2", "$", Document("NotJson")),
    ("[8.95]", "$", Document("NotWhole")),
    (
        r#"{"store":{"bicycle":{"color":"red","price":399},"book":[{"title":"A","price":8.95}]}}"#,
        "$",
        Document("NotWhole"),
    ),
    ("[1e2]", "$[0]", Document("NotWhole")),
    ("[1.5]", "$", Document("NotWhole")),
    ("1", "$.a x", Query("Syntax at 4")),
    ("1", " $", Query("Syntax at 0")),
];

/// Section 2.2.3: the root.
const ROOT: &[Row] = &[(r#"{ "k" : "v" }"#, "$", Nodes(&[("$", r#"{"k":"v"}"#)]))];

#[test]
fn queries(rt: HostRuntime) -> Result<(), Fail> {
    gives_each(&rt, rt.alloc(), &[QUERIES, ROOT])
}
