//! Section 2.3.5.2.2: comparisons.

use crate::rows::Answer::Nodes;
use crate::rows::{Row, gives_each};
use std::test::Fail;

const COMPARED: &str = r#"{"obj":{"x":"y"},"arr":[2,3]}"#;

const LARGE: &str = "[18446744073709551615,18446744073709551614]";

/// Where a comparison over `COMPARED` is true, both members are selected.
const BOTH_MEMBERS: &[(&str, &str)] = &[("$['arr']", "[2,3]"), ("$['obj']", r#"{"x":"y"}"#)];

/// Section 2.3.5.2.2: comparisons.
const COMPARISONS: &[Row] = &[
    (COMPARED, "$[?$.absent1 == $.absent2]", Nodes(BOTH_MEMBERS)),
    (COMPARED, "$[?$.absent1 <= $.absent2]", Nodes(BOTH_MEMBERS)),
    (COMPARED, "$[?$.absent == 'g']", Nodes(&[])),
    (COMPARED, "$[?$.absent1 != $.absent2]", Nodes(&[])),
    (COMPARED, "$[?$.absent != 'g']", Nodes(BOTH_MEMBERS)),
    (COMPARED, "$[?1 <= 2]", Nodes(BOTH_MEMBERS)),
    (COMPARED, "$[?1 > 2]", Nodes(&[])),
    (COMPARED, "$[?13 == '13']", Nodes(&[])),
    (COMPARED, "$[?'a' <= 'b']", Nodes(BOTH_MEMBERS)),
    (COMPARED, "$[?'a' > 'b']", Nodes(&[])),
    (COMPARED, "$[?$.obj == $.arr]", Nodes(&[])),
    (COMPARED, "$[?$.obj != $.arr]", Nodes(BOTH_MEMBERS)),
    (COMPARED, "$[?$.obj == $.obj]", Nodes(BOTH_MEMBERS)),
    (COMPARED, "$[?$.obj != $.obj]", Nodes(&[])),
    (COMPARED, "$[?$.arr == $.arr]", Nodes(BOTH_MEMBERS)),
    (COMPARED, "$[?$.arr != $.arr]", Nodes(&[])),
    (COMPARED, "$[?$.obj == 17]", Nodes(&[])),
    (COMPARED, "$[?$.obj != 17]", Nodes(BOTH_MEMBERS)),
    (COMPARED, "$[?$.obj <= $.arr]", Nodes(&[])),
    (COMPARED, "$[?$.obj < $.arr]", Nodes(&[])),
    (COMPARED, "$[?$.obj <= $.obj]", Nodes(BOTH_MEMBERS)),
    (COMPARED, "$[?$.arr <= $.arr]", Nodes(BOTH_MEMBERS)),
    (COMPARED, "$[?1 <= $.arr]", Nodes(&[])),
    (COMPARED, "$[?1 >= $.arr]", Nodes(&[])),
    (COMPARED, "$[?1 > $.arr]", Nodes(&[])),
    (COMPARED, "$[?1 < $.arr]", Nodes(&[])),
    (COMPARED, "$[?true <= true]", Nodes(BOTH_MEMBERS)),
    (COMPARED, "$[?true > true]", Nodes(&[])),
    ("[{}]", "$[?@.x==@.y]", Nodes(&[("$[0]", "{}")])),
    ("[{}]", "$[?@.x<=@.y]", Nodes(&[("$[0]", "{}")])),
    ("[{}]", "$[?@.x<@.y]", Nodes(&[])),
    ("[[0],[1]]", "$[?@[ 0 ]==-0]", Nodes(&[("$[0]", "[0]")])),
    (
        LARGE,
        "$[?@>18446744073709551614]",
        Nodes(&[("$[0]", "18446744073709551615")]),
    ),
    (
        LARGE,
        "$[?@==18446744073709551615]",
        Nodes(&[("$[0]", "18446744073709551615")]),
    ),
    (COMPARED, "$[?2 >= 2]", Nodes(BOTH_MEMBERS)),
    (
        "[-9223372036854775808,0]",
        "$[?@==-9223372036854775808]",
        Nodes(&[("$[0]", "-9223372036854775808")]),
    ),
    (
        r#"[{"a":{"x":"y"},"b":{"x":"y","z":0}}]"#,
        "$[?@.a==@.b]",
        Nodes(&[]),
    ),
    (r#"[{"a":[2,3],"b":[2]}]"#, "$[?@.a==@.b]", Nodes(&[])),
    (
        r#"["","e","ee","é"]"#,
        "$[?@<'ee']",
        Nodes(&[("$[0]", r#""""#), ("$[1]", r#""e""#)]),
    ),
    (
        r#"["","e","ee","é"]"#,
        "$[?@>'ee']",
        Nodes(&[("$[3]", r#""é""#)]),
    ),
];

#[test]
fn comparisons(rt: HostRuntime) -> Result<(), Fail> {
    gives_each(&rt, rt.alloc(), &[COMPARISONS])
}
