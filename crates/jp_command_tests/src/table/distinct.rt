//! Section 2.4: `distinct`, a function of `Extended` alone.

use crate::rows::Answer::{Canonical, Nodes, Query};
use crate::rows::{ProfileRow, gives_in_each_profile};
use std::test::Fail;

const ONE_A: &str = r#"[{"a":0}]"#;

const A_AND_NONE: &str = r#"[{"a":0},{}]"#;

/// What the function answers.
const DISTINCT: &[ProfileRow] = &[
    (
        ONE_A,
        "$[?count(distinct(@['a','a']))==1]",
        Nodes(&[("$[0]", r#"{"a":0}"#)]),
        Query("UnknownFunction at 9"),
    ),
    (
        ONE_A,
        "$[?value(distinct(@['a','a']))==0]",
        Nodes(&[("$[0]", r#"{"a":0}"#)]),
        Query("UnknownFunction at 9"),
    ),
    (
        "[[1,1]]",
        "$[?count(distinct(@[*]))==2]",
        Nodes(&[("$[0]", "[1,1]")]),
        Query("UnknownFunction at 9"),
    ),
    (
        r#"[{"a":0,"b":0},{"a":0}]"#,
        "$[?count(distinct(@['a','a','b']))==2]",
        Nodes(&[("$[0]", r#"{"a":0,"b":0}"#)]),
        Query("UnknownFunction at 9"),
    ),
    (
        r#"[{"a":0,"b":1}]"#,
        "$[?count(distinct(@['a','b','a']))==2]",
        Nodes(&[("$[0]", r#"{"a":0,"b":1}"#)]),
        Query("UnknownFunction at 9"),
    ),
    (
        r#"[{"a":[1,2]},3]"#,
        "$[?count(distinct(@..*))==count(@..*)]",
        Nodes(&[("$[0]", r#"{"a":[1,2]}"#), ("$[1]", "3")]),
        Query("UnknownFunction at 9"),
    ),
    (
        "[[1],[1,1],[2],[]]",
        "$[?value(distinct(@[0,0]))==1]",
        Nodes(&[("$[0]", "[1]"), ("$[1]", "[1,1]")]),
        Query("UnknownFunction at 9"),
    ),
    (
        "[[1],[1,1],[2],[]]",
        "$[?value(distinct(@[0,1,0]))==1]",
        Nodes(&[("$[0]", "[1]")]),
        Query("UnknownFunction at 9"),
    ),
    (
        "[[1],[1,1]]",
        "$[?count(distinct(distinct(@[*,0])))==1]",
        Nodes(&[("$[0]", "[1]")]),
        Query("UnknownFunction at 9"),
    ),
];

/// What it is as a test, and its canonical text.
const TESTS: &[ProfileRow] = &[
    (
        A_AND_NONE,
        "$[?distinct(@.*)]",
        Nodes(&[("$[0]", r#"{"a":0}"#)]),
        Query("UnknownFunction at 3"),
    ),
    (
        A_AND_NONE,
        "$[?distinct(distinct(@.a))]",
        Nodes(&[("$[0]", r#"{"a":0}"#)]),
        Query("UnknownFunction at 3"),
    ),
    (
        A_AND_NONE,
        "$[?!distinct(@.a)]",
        Nodes(&[("$[1]", "{}")]),
        Query("UnknownFunction at 4"),
    ),
    (
        "",
        "$[?distinct( @.a )]",
        Canonical("$[?distinct(@['a'])]"),
        Query("UnknownFunction at 3"),
    ),
    (
        "",
        "$[? !( distinct( distinct( $..* ) ) )]",
        Canonical("$[?!distinct(distinct($..[*]))]"),
        Query("UnknownFunction at 7"),
    ),
];

/// Section 2.4.3: calls and arguments that are refused.
const REFUSED: &[ProfileRow] = &[
    (
        "[]",
        "$[?distinct(@)==1]",
        Query("IllTyped at 3"),
        Query("UnknownFunction at 3"),
    ),
    (
        "[]",
        "$[?distinct(1)]",
        Query("IllTyped at 12"),
        Query("UnknownFunction at 3"),
    ),
    (
        "[]",
        "$[?distinct(@.a==1)]",
        Query("IllTyped at 12"),
        Query("UnknownFunction at 3"),
    ),
    (
        "[]",
        "$[?distinct()]",
        Query("ArgumentCount at 3"),
        Query("UnknownFunction at 3"),
    ),
    (
        "[]",
        "$[?distinct(@.a,@.b)]",
        Query("ArgumentCount at 3"),
        Query("UnknownFunction at 3"),
    ),
    (
        "[]",
        "$[?length(distinct(@))==1]",
        Query("IllTyped at 10"),
        Query("UnknownFunction at 10"),
    ),
    (
        "[]",
        "$[?match(distinct(@),'a')]",
        Query("IllTyped at 9"),
        Query("UnknownFunction at 9"),
    ),
    (
        "[]",
        "$[?count(distinct(value(@.a)))==1]",
        Query("IllTyped at 18"),
        Query("UnknownFunction at 9"),
    ),
    (
        "[]",
        "$[?count(distinct(foo(1)))==1]",
        Query("UnknownFunction at 18"),
        Query("UnknownFunction at 9"),
    ),
];

#[test]
fn distinct(rt: HostRuntime) -> Result<(), Fail> {
    gives_in_each_profile(&rt, rt.alloc(), &[DISTINCT, TESTS, REFUSED])
}
