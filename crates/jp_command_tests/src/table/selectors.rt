//! Sections 2.3.2 to 2.3.4: wildcards, indexes and slices.

use crate::rows::Answer::{Nodes, Query};
use crate::rows::{Row, gives_each};
use std::test::Fail;

const FLAT: &str = r#"{"o":{"j":1,"k":2},"a":[5,3]}"#;

const PAIR: &str = r#"["a","b"]"#;

pub const LETTERS: &str = r#"["a","b","c","d","e","f","g"]"#;

/// Section 2.3.2: wildcards.
const WILDCARDS: &[Row] = &[
    (
        FLAT,
        "$[*]",
        Nodes(&[("$['a']", "[5,3]"), ("$['o']", r#"{"j":1,"k":2}"#)]),
    ),
    (
        FLAT,
        "$.o[*]",
        Nodes(&[("$['o']['j']", "1"), ("$['o']['k']", "2")]),
    ),
    (
        FLAT,
        "$.o[*, *]",
        Nodes(&[
            ("$['o']['j']", "1"),
            ("$['o']['k']", "2"),
            ("$['o']['j']", "1"),
            ("$['o']['k']", "2"),
        ]),
    ),
    (
        FLAT,
        "$.a[*]",
        Nodes(&[("$['a'][0]", "5"), ("$['a'][1]", "3")]),
    ),
    (
        r#"{"b":1,"B":2,"é":3,"":4}"#,
        "$.*",
        Nodes(&[
            ("$['']", "4"),
            ("$['B']", "2"),
            ("$['b']", "1"),
            ("$['é']", "3"),
        ]),
    ),
];

/// Section 2.3.3: indexes.
const INDEXES: &[Row] = &[
    (PAIR, "$[1]", Nodes(&[("$[1]", r#""b""#)])),
    (PAIR, "$[-2]", Nodes(&[("$[0]", r#""a""#)])),
    (PAIR, "$[2]", Nodes(&[])),
    (PAIR, "$[-3]", Nodes(&[])),
    ("0", "$[9007199254740991]", Nodes(&[])),
    ("1", "$[9007199254740992]", Query("IndexRange at 2")),
    ("1", "$[-9007199254740992]", Query("IndexRange at 2")),
    ("1", "$[01]", Query("Syntax at 3")),
    ("1", "$[-0]", Query("Syntax at 3")),
    ("1", "$[-]", Query("Syntax at 3")),
    (
        "1",
        "$[9007199254740992][-9007199254740992]",
        Query("IndexRange at 2"),
    ),
    (
        "1",
        "$.é[0, 99999999999999999999]",
        Query("IndexRange at 8"),
    ),
    ("1", "$..[*, -9007199254740992]", Query("IndexRange at 7")),
    ("1", "$[9007199254740992", Query("Syntax at 18")),
];

/// Section 2.3.4: slices.
const SLICES: &[Row] = &[
    (
        LETTERS,
        "$[1:3]",
        Nodes(&[("$[1]", r#""b""#), ("$[2]", r#""c""#)]),
    ),
    (
        LETTERS,
        "$[5:]",
        Nodes(&[("$[5]", r#""f""#), ("$[6]", r#""g""#)]),
    ),
    (
        LETTERS,
        "$[1:5:2]",
        Nodes(&[("$[1]", r#""b""#), ("$[3]", r#""d""#)]),
    ),
    (
        LETTERS,
        "$[5:1:-2]",
        Nodes(&[("$[5]", r#""f""#), ("$[3]", r#""d""#)]),
    ),
    (
        LETTERS,
        "$[::-1]",
        Nodes(&[
            ("$[6]", r#""g""#),
            ("$[5]", r#""f""#),
            ("$[4]", r#""e""#),
            ("$[3]", r#""d""#),
            ("$[2]", r#""c""#),
            ("$[1]", r#""b""#),
            ("$[0]", r#""a""#),
        ]),
    ),
    (LETTERS, "$[::0]", Nodes(&[])),
    (
        LETTERS,
        "$[-3:-1]",
        Nodes(&[("$[4]", r#""e""#), ("$[5]", r#""f""#)]),
    ),
    (
        LETTERS,
        "$[10:0:-3]",
        Nodes(&[("$[6]", r#""g""#), ("$[3]", r#""d""#)]),
    ),
    (
        LETTERS,
        "$[::9007199254740991]",
        Nodes(&[("$[0]", r#""a""#)]),
    ),
    (LETTERS, "$[2:1]", Nodes(&[])),
    (
        LETTERS,
        "$[-100:2]",
        Nodes(&[("$[0]", r#""a""#), ("$[1]", r#""b""#)]),
    ),
    (
        LETTERS,
        "$[1:-100:-1]",
        Nodes(&[("$[1]", r#""b""#), ("$[0]", r#""a""#)]),
    ),
    (LETTERS, "$[0:9007199254740992]", Query("IndexRange at 4")),
    ("1", "$[1:-0]", Query("Syntax at 5")),
    (
        LETTERS,
        "$[::-9007199254740991]",
        Nodes(&[("$[6]", r#""g""#)]),
    ),
    (
        LETTERS,
        "$[-9007199254740991:9007199254740991:3]",
        Nodes(&[("$[0]", r#""a""#), ("$[3]", r#""d""#), ("$[6]", r#""g""#)]),
    ),
    (FLAT, "$[:]", Nodes(&[])),
    ("1", "$[::][::-9007199254740992]", Query("IndexRange at 8")),
    ("1", "$[1:2:3:4]", Query("Syntax at 7")),
    ("1", "$[:a]", Query("Syntax at 3")),
    ("1", "$[1:--2]", Query("Syntax at 5")),
    ("1", "$[::01]", Query("Syntax at 5")),
    ("1", "$[1:2 3]", Query("Syntax at 6")),
];

#[test]
fn selectors(rt: HostRuntime) -> Result<(), Fail> {
    gives_each(&rt, rt.alloc(), &[WILDCARDS, INDEXES, SLICES])
}
