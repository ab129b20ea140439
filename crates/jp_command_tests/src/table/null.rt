//! Section 2.6: null.

use crate::rows::Answer::Nodes;
use crate::rows::{Row, gives_each};
use std::test::Fail;

const NULLS: &str = r#"{"a":null,"b":[null],"c":[{}],"null":1}"#;

/// Section 2.6: null.
const NULL: &[Row] = &[
    (NULLS, "$.a", Nodes(&[("$['a']", "null")])),
    (NULLS, "$.a[0]", Nodes(&[])),
    (NULLS, "$.a.d", Nodes(&[])),
    (NULLS, "$.b[0]", Nodes(&[("$['b'][0]", "null")])),
    (NULLS, "$.b[*]", Nodes(&[("$['b'][0]", "null")])),
    (NULLS, "$.b[?@]", Nodes(&[("$['b'][0]", "null")])),
    (NULLS, "$.b[?@==null]", Nodes(&[("$['b'][0]", "null")])),
    (NULLS, "$.c[?@.d==null]", Nodes(&[])),
    (NULLS, "$.null", Nodes(&[("$['null']", "1")])),
];

#[test]
fn null(rt: HostRuntime) -> Result<(), Fail> {
    gives_each(&rt, rt.alloc(), &[NULL])
}
