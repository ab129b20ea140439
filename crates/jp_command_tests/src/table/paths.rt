//! Section 2.7: normalized paths.

use crate::rows::Answer::Nodes;
use crate::rows::{Row, gives_each};
use std::test::Fail;

/// Section 2.7: normalized paths.
const NORMALIZED_PATHS: &[Row] = &[
    (r#"{"a":1}"#, "$.a", Nodes(&[("$['a']", "1")])),
    ("[0,1]", "$[1]", Nodes(&[("$[1]", "1")])),
    ("[0,1,2,3,4]", "$[-3]", Nodes(&[("$[2]", "2")])),
    (
        r#"{"a":{"b":[0,1]}}"#,
        "$.a.b[1:2]",
        Nodes(&[("$['a']['b'][1]", "1")]),
    ),
    (
        r#"{"\u000b":1}"#,
        r#"$["\u000B"]"#,
        Nodes(&[(r"$['\u000b']", "1")]),
    ),
    (r#"{"a":1}"#, r#"$["\u0061"]"#, Nodes(&[("$['a']", "1")])),
    (
        r#"{"\u001f\n'\\":1}"#,
        "$.*",
        Nodes(&[(r"$['\u001f\n\'\\']", "1")]),
    ),
    (
        r#"{"\u001f\n'\\":1}"#,
        r"$['\u001f\n\'\\']",
        Nodes(&[(r"$['\u001f\n\'\\']", "1")]),
    ),
];

#[test]
fn normalized_paths(rt: HostRuntime) -> Result<(), Fail> {
    gives_each(&rt, rt.alloc(), &[NORMALIZED_PATHS])
}
