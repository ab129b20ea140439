//! Documents of exact decimals through each door of reading. The values are those that RFC 8259 sections 4
//! and 6 give the texts, by arithmetic, and numbers are written in the layout of RFC 8785 section 3.2.2.3.

use super::{
    PortionsRow, assert_all_portions, by_tables, members_of_items, one_value, push_portion,
};
use jp_decimal::Numbers;
use jp_flat::Room;
use jp_held::Portion;
use std::alloc::{AllocError, Global};
use std::process::Abort;
use std::test::Fail;

/// Documents, and their compact texts.
const DOCUMENTS: &[(&str, &str)] = &[
    ("0.1", "0.1"),
    ("0.10", "0.1"),
    ("8.95", "8.95"),
    ("1e400", "1e+400"),
    ("5e-324", "5e-324"),
    ("-0.0", "0"),
    ("0.000001", "0.000001"),
    ("0.0000001", "1e-7"),
    ("1e20", "100000000000000000000"),
    ("1e21", "1e+21"),
    ("18446744073709551616", "18446744073709551616"),
    ("[1,1.0,1e0]", "[1,1,1]"),
    (
        "12345678901234567890123456789012345678",
        "1.2345678901234567890123456789012345678e+37",
    ),
    ("1e1000000", "1e+1000000"),
    ("1e-1000000", "1e-1000000"),
    (r#"{"a":1e1000001,"a":2.5}"#, r#"{"a":2.5}"#),
    (r#"{"a":1e400,"b":0.5,"a":2}"#, r#"{"a":2,"b":0.5}"#),
    (
        r#"[{"a":[1e1000001],"b":0.25,"a":{"c":-1.5e-9,"b":[8.990]}}]"#,
        r#"[{"a":{"b":[8.99],"c":-1.5e-9},"b":0.25}]"#,
    ),
    (r#"["1.50",true,null]"#, r#"["1.50",true,null]"#),
    ("123456789.123456789", "123456789.123456789"),
    ("[ 1.7976931348623157e308 ]", "[1.7976931348623157e+308]"),
];

/// Asserts what each text is read as where it is a document of such numbers, or what is said of it.
fn assert_told(
    rt: &impl Abort,
    alloc: Global,
    rows: &[(&str, &str)],
    numbers: Numbers,
) -> Result<(), AllocError> {
    for (text, wanted) in rows {
        let told = by_tables(alloc, text, numbers)?;
        assert_eq!(rt; told.as_str(), *wanted, "{text}");
    }
    Ok(())
}

#[test]
fn documents(rt: HostRuntime) -> Result<(), Fail> {
    Ok(assert_told(&rt, rt.alloc(), DOCUMENTS, Numbers::Decimal)?)
}

/// Bytes that are no documents of decimals, and what is said of them.
const REFUSED: &[(&str, &str)] = &[
    ("1e1000001", "NumberRange at $"),
    ("1e-1000001", "NumberRange at $"),
    (
        "123456789012345678901234567890123456789",
        "NumberRange at $",
    ),
    ("[0.5,1e1000001,1e1000002]", "NumberRange at $[1]"),
    (
        r#"{"b":1e1000001,"a":[2,1e1000001]}"#,
        "NumberRange at $['a'][1]",
    ),
    (r#"{"a":2,"a":1e1000001}"#, "NumberRange at $['a']"),
    ("[1.5", "NotJson"),
    ("[1.]", "NotJson"),
    ("[.5,1e1000001]", "NotJson"),
    ("1e1000001 1", "NotJson"),
    ("[0.5,\"\\ud800\"]", "NotJson"),
    ("", "NotJson"),
];

#[test]
fn no_documents(rt: HostRuntime) -> Result<(), Fail> {
    Ok(assert_told(&rt, rt.alloc(), REFUSED, Numbers::Decimal)?)
}

/// A fraction is none of the whole numbers, and a whole number beyond 64 bits neither.
const NOT_WHOLE: &[(&str, &str)] = &[
    ("[0.5]", "NotWhole at $[0]"),
    ("[18446744073709551616]", "NotWhole at $[0]"),
    ("[-0.0]", "NotWhole at $[0]"),
];

#[test]
fn no_documents_of_whole_numbers(rt: HostRuntime) -> Result<(), Fail> {
    assert_told(&rt, rt.alloc(), NOT_WHOLE, Numbers::Whole)?;
    let beyond_float = by_tables(rt.alloc(), "[1e400,1]", Numbers::Whole)?;
    assert!(rt; matches!(beyond_float.as_str(), "NotWhole at $[0]" | "NotJson"));
    Ok(())
}

/// Documents, and the value at `$[0]['a']` and the whole of each.
const PORTIONS: &[PortionsRow] = &[
    (
        r#"[{"a":0.50,"b":[1.5]}]"#,
        &["0.5", r#"[{"a":0.5,"b":[1.5]}]"#],
    ),
    (
        r#"[{"b":0.5,"a":"\u0061"},1.5]"#,
        &[r#""a""#, r#"[{"a":"a","b":0.5},1.5]"#],
    ),
    (
        r#"[{"a":1e1000001,"a":[2.5]}]"#,
        &["[2.5]", r#"[{"a":[2.5]}]"#],
    ),
    (r#"[{"b":7.5}]"#, &["nothing", r#"[{"b":7.5}]"#]),
    (r#"{"a":1.5}"#, &["nothing", r#"{"a":1.5}"#]),
    ("0.25", &["nothing", "0.25"]),
    (
        r#"[{"a":1,"b":1e1000001}]"#,
        &["NumberRange at $[0]['b']", "NumberRange at $[0]['b']"],
    ),
    (r#"[{"a":1.5}"#, &["NotJson", "NotJson"]),
];

#[test]
fn portions_in_the_memory_of_others(rt: HostRuntime) -> Result<(), Fail> {
    let alloc = rt.alloc();
    let portions = [one_value(alloc)?, Portion::Whole];
    let mut line = String::new(alloc);
    let read_as = (portions.as_slice(), Numbers::Decimal);
    Ok(assert_all_portions(&rt, alloc, &mut line, PORTIONS, read_as)?)
}

/// Where the members `a` of items are asked for, others may be left out.
#[test]
fn members_that_are_asked_for(rt: HostRuntime) -> Result<(), Fail> {
    let portion = members_of_items(rt.alloc())?;
    let text = r#"[{"a":0.50,"b":1.5},{"b":2.5}]"#;
    let mut line = String::new(rt.alloc());
    let room = Room::new(rt.alloc());
    push_portion(
        &mut line,
        rt.alloc(),
        room,
        text,
        (&portion, Numbers::Decimal),
    )?;
    let all = r#"[{"a":0.5,"b":1.5},{"b":2.5}]"#;
    assert!(rt; line.as_str() == all || line.as_str() == r#"[{"a":0.5},{}]"#);
    Ok(())
}
