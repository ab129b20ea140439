//! Section 2.3.1: names.

use crate::rows::Answer::{Nodes, Query};
use crate::rows::{Row, gives_each};
use std::test::Fail;

pub const NAMES: &str = r#"{"o":{"j j":{"k.k":3}},"'":{"@":2}}"#;

/// Over `NAMES`, a query of the node `$['\'']['@']`.
pub const IN_QUOTES: &str = r#"$["'"]["@"]"#;

/// Section 2.3.1: names.
const NAME_SELECTORS: &[Row] = &[
    (
        NAMES,
        "$.o['j j']",
        Nodes(&[("$['o']['j j']", r#"{"k.k":3}"#)]),
    ),
    (
        NAMES,
        "$.o['j j']['k.k']",
        Nodes(&[("$['o']['j j']['k.k']", "3")]),
    ),
    (
        NAMES,
        r#"$.o["j j"]["k.k"]"#,
        Nodes(&[("$['o']['j j']['k.k']", "3")]),
    ),
    (NAMES, IN_QUOTES, Nodes(&[(r"$['\'']['@']", "2")])),
    ("[0,1]", "$.a", Nodes(&[])),
    ("1", r#"$["\'"]"#, Query("Syntax at 4")),
    ("1", r#"$["\uD83D"]"#, Query("Syntax at 9")),
    ("1", r#"$["\uDC00"]"#, Query("Syntax at 6")),
    ("1", r#"$['a"]"#, Query("Syntax at 6")),
    ("1", r#"$["a']"#, Query("Syntax at 6")),
    ("1", r#"$['\"']"#, Query("Syntax at 4")),
    ("1", r"$['\uD83D\u0041']", Query("Syntax at 11")),
    ("1", r"$['\uD83D\n']", Query("Syntax at 10")),
    ("1", r"$['\uD83D\uD83D']", Query("Syntax at 12")),
    ("1", r"$['\udbffx']", Query("Syntax at 9")),
    ("1", r"$['\u00g0']", Query("Syntax at 7")),
    ("1", r"$['\u004']", Query("Syntax at 8")),
    ("1", r"$['\U0041']", Query("Syntax at 4")),
    ("1", r"$['\0']", Query("Syntax at 4")),
    ("1", r#"$['\"#, Query("Syntax at 4")),
    ("1", "$['\u{1f}']", Query("Syntax at 3")),
    ("1", "$.1", Query("Syntax at 2")),
];

#[test]
fn names(rt: HostRuntime) -> Result<(), Fail> {
    gives_each(&rt, rt.alloc(), &[NAME_SELECTORS])
}
