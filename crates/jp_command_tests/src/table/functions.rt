//! Section 2.4: functions.

use super::filters::FILTERED;
use crate::rows::Answer::{Nodes, Query};
use crate::rows::{Row, gives_each};
use std::test::Fail;

const WORDS: &str = r#"["","aaa","b","^"]"#;

const LENGTHS: &str = r#"["é","😀ab",[1,2],{"a":1},7]"#;

const DEPTHS: &str = r#"[{"a":{"c":1}},{"a":{"c":1},"b":{"c":1}}]"#;

/// The items of `FILTERED` that are `j` or `k`.
const J_OR_K: &[(&str, &str)] = &[("$['a'][6]", r#"{"b":"j"}"#), ("$['a'][7]", r#"{"b":"k"}"#)];

/// Those with `j` or `k` in them.
const WITH_J_OR_K: &[(&str, &str)] = &[
    ("$['a'][6]", r#"{"b":"j"}"#),
    ("$['a'][7]", r#"{"b":"k"}"#),
    ("$['a'][9]", r#"{"b":"kilo"}"#),
];

/// Section 2.4: what functions answer.
const FUNCTIONS: &[Row] = &[
    (
        LENGTHS,
        "$[?length(@)==1]",
        Nodes(&[("$[0]", r#""é""#), ("$[3]", r#"{"a":1}"#)]),
    ),
    (
        LENGTHS,
        "$[?length(@)==length(@.x)]",
        Nodes(&[("$[4]", "7")]),
    ),
    (
        LENGTHS,
        "$[?length(@) < 3]",
        Nodes(&[
            ("$[0]", r#""é""#),
            ("$[2]", "[1,2]"),
            ("$[3]", r#"{"a":1}"#),
        ]),
    ),
    (
        r#"[{"a":"éé"},{"a":"é"}]"#,
        "$[?length(value(@.a))==2]",
        Nodes(&[("$[0]", r#"{"a":"éé"}"#)]),
    ),
    (
        "[[1],\"ab\",2,{}]",
        "$[?length(@) < 2]",
        Nodes(&[("$[0]", "[1]"), ("$[3]", "{}")]),
    ),
    (
        r#"["ab","abc",[1,2,3],{"a":1},2]"#,
        "$[?length(@) < 3]",
        Nodes(&[("$[0]", r#""ab""#), ("$[3]", r#"{"a":1}"#)]),
    ),
    ("[0]", "$[?length(@)==0]", Nodes(&[])),
    (
        "[[1],[1,1],{}]",
        "$[?count(@.*) == 1]",
        Nodes(&[("$[0]", "[1]")]),
    ),
    (
        "[[1,1,1]]",
        "$[?count(@[*])==3]",
        Nodes(&[("$[0]", "[1,1,1]")]),
    ),
    (
        r#"[{"a":0}]"#,
        "$[?count(@['a','a'])==2]",
        Nodes(&[("$[0]", r#"{"a":0}"#)]),
    ),
    (
        DEPTHS,
        "$[?count(@..c)==2]",
        Nodes(&[("$[1]", r#"{"a":{"c":1},"b":{"c":1}}"#)]),
    ),
    (
        DEPTHS,
        "$[?value(@..c)==1]",
        Nodes(&[("$[0]", r#"{"a":{"c":1}}"#)]),
    ),
    (r#"[{"a":0}]"#, "$[?value(@['a','a'])==0]", Nodes(&[])),
    (
        r#"[{"color":"red"},{"color":"red","b":{"color":"red"}}]"#,
        r#"$[?value(@..color) == "red"]"#,
        Nodes(&[("$[0]", r#"{"color":"red"}"#)]),
    ),
    (
        r#"[{"timezone":"Europe/Rome"},{"timezone":"In Europe/Rome"},{"timezone":5},{}]"#,
        "$[?match(@.timezone, 'Europe/.*')]",
        Nodes(&[("$[0]", r#"{"timezone":"Europe/Rome"}"#)]),
    ),
    (
        r#"[{"p":"[0-9]"},{"t":"a1"},{"t":"a"}]"#,
        "$[?search(@.t,$[0].p)]",
        Nodes(&[("$[1]", r#"{"t":"a1"}"#)]),
    ),
    (r#"["aab"]"#, r#"$[?match(@,"((a*)*)*")]"#, Nodes(&[])),
    (
        r#"["aab"]"#,
        r#"$[?search(@,"((a*)*)*")]"#,
        Nodes(&[("$[0]", r#""aab""#)]),
    ),
    (r#"["a("]"#, "$[?search(@,'a(')]", Nodes(&[])),
    (FILTERED, r#"$.a[?match(@.b, "[jk]")]"#, Nodes(J_OR_K)),
    (FILTERED, r#"$.a[?match(@.b,"[jk]")]"#, Nodes(J_OR_K)),
    (FILTERED, r#"$.a[?search(@.b, "[jk]")]"#, Nodes(WITH_J_OR_K)),
    (FILTERED, r#"$.a[?search(@.b,"[jk]")]"#, Nodes(WITH_J_OR_K)),
    (
        WORDS,
        r#"$[?match(@,"(a?){2,5}")]"#,
        Nodes(&[("$[0]", r#""""#), ("$[1]", r#""aaa""#)]),
    ),
    (
        WORDS,
        r#"$[?match(@,"[^-a]")]"#,
        Nodes(&[("$[2]", r#""b""#), ("$[3]", r#""^""#)]),
    ),
    (WORDS, r#"$[?match(@,"[^]")]"#, Nodes(&[])),
    (
        WORDS,
        r#"$[?match(@,"x{999999999}|b")]"#,
        Nodes(&[("$[2]", r#""b""#)]),
    ),
];

/// Section 2.4.3: functions and arguments that are refused.
const REFUSED_FUNCTIONS: &[Row] = &[
    ("[]", "$[?length(@.*) < 3]", Query("NotSingular at 10")),
    ("[]", "$[?length(@.*)<3]", Query("NotSingular at 10")),
    ("[]", "$[?count(1) == 1]", Query("IllTyped at 9")),
    ("[]", "$[?count(1)==1]", Query("IllTyped at 9")),
    (
        "[]",
        "$[?match(@.timezone, 'Europe/.*') == true]",
        Query("IllTyped at 3"),
    ),
    ("[]", "$[?value(@..color)]", Query("IllTyped at 3")),
    (
        "[]",
        "$[?count(foo(@.*)) == 1]",
        Query("UnknownFunction at 9"),
    ),
    ("[]", "$[?bar(@.a)]", Query("UnknownFunction at 3")),
    ("[]", "$[?blt(1==1)]", Query("UnknownFunction at 3")),
    ("[]", "$[?true(@)]", Query("UnknownFunction at 3")),
    ("[]", "$[?foo(1.5)]", Query("UnknownFunction at 3")),
    ("[]", "$[?length()]", Query("ArgumentCount at 3")),
    ("[]", "$[?length(1.5==1)==1]", Query("NotWhole at 10")),
    ("[]", "$[?length(1.5)==1]", Query("NotWhole at 10")),
    ("[]", "$[?count(@.a,1.5)==1]", Query("ArgumentCount at 3")),
    (
        "[]",
        "$[?length(match('a','b'))==1]",
        Query("IllTyped at 10"),
    ),
    ("[]", "$[?length(@.a==1)==1]", Query("IllTyped at 10")),
    ("[]", "$[?length((@.a))==1]", Query("IllTyped at 10")),
    (
        "[]",
        "$[?length(foo(1))==1]",
        Query("UnknownFunction at 10"),
    ),
    ("[]", "$[?length(@)]", Query("IllTyped at 3")),
    ("[]", "$[?F(@)]", Query("Syntax at 3")),
    ("[]", "$[?f(@.a]", Query("Syntax at 8")),
    ("[]", "$[?truex==1]", Query("Syntax at 8")),
    ("[]", "$[?true (@)==1]", Query("Syntax at 8")),
    ("[]", "$[?length (@)]", Query("Syntax at 9")),
    ("[]", "$[?f(1&&@)]", Query("Syntax at 6")),
    ("[]", "$[?f(@,)]", Query("Syntax at 7")),
    ("[]", "$[?f(,@)]", Query("Syntax at 5")),
];

#[test]
fn functions(rt: HostRuntime) -> Result<(), Fail> {
    gives_each(&rt, rt.alloc(), &[FUNCTIONS, REFUSED_FUNCTIONS])
}
