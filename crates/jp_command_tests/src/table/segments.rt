//! Section 2.5: segments.

use super::selectors::LETTERS;
use crate::rows::Answer::{Nodes, Query};
use crate::rows::{Row, gives_each};
use std::test::Fail;

const NESTED: &str = r#"{"o":{"j":1,"k":2},"a":[5,3,[{"j":4},{"k":6}]]}"#;

/// All nodes of `NESTED` but its root.
const DESCENDANTS: &[(&str, &str)] = &[
    ("$['a']", r#"[5,3,[{"j":4},{"k":6}]]"#),
    ("$['o']", r#"{"j":1,"k":2}"#),
    ("$['a'][0]", "5"),
    ("$['a'][1]", "3"),
    ("$['a'][2]", r#"[{"j":4},{"k":6}]"#),
    ("$['a'][2][0]", r#"{"j":4}"#),
    ("$['a'][2][1]", r#"{"k":6}"#),
    ("$['a'][2][0]['j']", "4"),
    ("$['a'][2][1]['k']", "6"),
    ("$['o']['j']", "1"),
    ("$['o']['k']", "2"),
];

/// The first two of `LETTERS` and the sixth.
const SLICE_AND_INDEX: &[(&str, &str)] = &[
    ("$[0]", r#""a""#),
    ("$[1]", r#""b""#),
    ("$[5]", r#""f""#),
];

/// The first of `LETTERS`, twice.
const FIRST_TWICE: &[(&str, &str)] = &[("$[0]", r#""a""#), ("$[0]", r#""a""#)];

/// Section 2.5.1: child segments.
const CHILD_SEGMENTS: &[Row] = &[
    (
        LETTERS,
        "$[0, 3]",
        Nodes(&[("$[0]", r#""a""#), ("$[3]", r#""d""#)]),
    ),
    (LETTERS, "$[0:2, 5]", Nodes(SLICE_AND_INDEX)),
    (LETTERS, "$[0:2,5]", Nodes(SLICE_AND_INDEX)),
    (LETTERS, "$[0, 0]", Nodes(FIRST_TWICE)),
    (LETTERS, "$[0,0]", Nodes(FIRST_TWICE)),
    (
        LETTERS,
        "$[*,0]",
        Nodes(&[
            ("$[0]", r#""a""#),
            ("$[1]", r#""b""#),
            ("$[2]", r#""c""#),
            ("$[3]", r#""d""#),
            ("$[4]", r#""e""#),
            ("$[5]", r#""f""#),
            ("$[6]", r#""g""#),
            ("$[0]", r#""a""#),
        ]),
    ),
    (NESTED, "$.a[-1][0].j", Nodes(&[("$['a'][2][0]['j']", "4")])),
    (
        NESTED,
        "$.a[*,0]",
        Nodes(&[
            ("$['a'][0]", "5"),
            ("$['a'][1]", "3"),
            ("$['a'][2]", r#"[{"j":4},{"k":6}]"#),
            ("$['a'][0]", "5"),
        ]),
    ),
    (
        NESTED,
        "$.a[::-1]",
        Nodes(&[
            ("$['a'][2]", r#"[{"j":4},{"k":6}]"#),
            ("$['a'][1]", "3"),
            ("$['a'][0]", "5"),
        ]),
    ),
    (NESTED, "$.a.j", Nodes(&[])),
    (NESTED, "$.o.k", Nodes(&[("$['o']['k']", "2")])),
    ("1", "$[ ", Query("Syntax at 3")),
    ("1", "$[]", Query("Syntax at 2")),
    ("1", "$[1,]", Query("Syntax at 4")),
    ("1", "$[,1]", Query("Syntax at 2")),
    ("1", "$[1 2]", Query("Syntax at 4")),
    ("1", "$.[0]", Query("Syntax at 2")),
    ("1", "$.*a", Query("Syntax at 3")),
];

/// Section 2.5.2: descendant segments.
const DESCENDANT_SEGMENTS: &[Row] = &[
    (
        NESTED,
        "$..j",
        Nodes(&[("$['a'][2][0]['j']", "4"), ("$['o']['j']", "1")]),
    ),
    (
        NESTED,
        "$..[0]",
        Nodes(&[("$['a'][0]", "5"), ("$['a'][2][0]", r#"{"j":4}"#)]),
    ),
    (NESTED, "$..[*]", Nodes(DESCENDANTS)),
    (NESTED, "$..*", Nodes(DESCENDANTS)),
    (NESTED, "$..o", Nodes(&[("$['o']", r#"{"j":1,"k":2}"#)])),
    (
        NESTED,
        "$.o..[*, *]",
        Nodes(&[
            ("$['o']['j']", "1"),
            ("$['o']['k']", "2"),
            ("$['o']['j']", "1"),
            ("$['o']['k']", "2"),
        ]),
    ),
    (
        NESTED,
        "$.a..[0, 1]",
        Nodes(&[
            ("$['a'][0]", "5"),
            ("$['a'][1]", "3"),
            ("$['a'][2][0]", r#"{"j":4}"#),
            ("$['a'][2][1]", r#"{"k":6}"#),
        ]),
    ),
    ("1", "$..", Query("Syntax at 3")),
    ("1", "$...a", Query("Syntax at 3")),
    ("1", "$.. a", Query("Syntax at 3")),
    ("1", "$. .a", Query("Syntax at 2")),
];

#[test]
fn segments(rt: HostRuntime) -> Result<(), Fail> {
    gives_each(&rt, rt.alloc(), &[CHILD_SEGMENTS, DESCENDANT_SEGMENTS])
}
