//! Documents whose numbers are exact decimals. The values are those that RFC 8259 sections 4 and 6 give the
//! texts, by arithmetic, and numbers are written in the layout of RFC 8785 section 3.2.2.3.

use crate::nested::{nested, push_times};
use jp_document::{DocumentFault, Json};
use jp_exact::exact_value;
use jp_lent::value_text;
use std::alloc::{AllocError, Global};
use std::process::Abort;
use std::test::Fail;

/// The value of a text, as it is written, else what is wrong with the text, as the fault says it.
fn told(alloc: Global, bytes: &[u8]) -> Result<String, AllocError> {
    match exact_value(alloc, bytes) {
        Ok(json) => value_text(alloc, &json),
        Err(fault) => format!(in alloc; "{fault}"),
    }
}

/// Asserts the value of a text, or what is wrong with it.
fn assert_told(
    rt: &impl Abort,
    alloc: Global,
    bytes: &[u8],
    wanted: &str,
) -> Result<(), AllocError> {
    let told = told(alloc, bytes)?;
    assert_eq!(rt; told.as_str(), wanted);
    Ok(())
}

/// Texts, and their values.
const DOCUMENTS: &[(&str, &str)] = &[
    (" null ", "null"),
    (
        r#"[true,false,"a\u00e9",[],{}]"#,
        r#"[true,false,"aé",[],{}]"#,
    ),
    ("[1,1.0,1e0]", "[1,1,1]"),
    ("-0.0", "0"),
    ("0e999999999999", "0"),
    ("0.1", "0.1"),
    ("0.10", "0.1"),
    ("8.95", "8.95"),
    ("1e2", "100"),
    ("-1.5e-9", "-1.5e-9"),
    ("1e400", "1e+400"),
    ("18446744073709551615", "18446744073709551615"),
    ("18446744073709551616", "18446744073709551616"),
    ("-9223372036854775809", "-9223372036854775809"),
    (
        "12345678901234567890123456789012345678",
        "1.2345678901234567890123456789012345678e+37",
    ),
    (
        "123456789012345678901234567890123456780",
        "1.2345678901234567890123456789012345678e+38",
    ),
    (
        "0.12345678901234567890123456789012345678",
        "0.12345678901234567890123456789012345678",
    ),
    ("1e1000000", "1e+1000000"),
    ("12e1000000", "1.2e+1000001"),
    ("10e999999", "1e+1000000"),
    ("1e-1000000", "1e-1000000"),
    ("-0.1e-999999", "-1e-1000000"),
    (r#"{"b":2,"a":1}"#, r#"{"a":1,"b":2}"#),
    (r#"{"a":1,"a":2.50}"#, r#"{"a":2.5}"#),
    (r#"{"b":0,"a":1,"b":2,"a":3}"#, r#"{"a":3,"b":2}"#),
    (r#"{"\u0061":1,"a":2}"#, r#"{"a":2}"#),
    (r#"{"a":1e9999999,"a":2}"#, r#"{"a":2}"#),
    (
        r#"[{"a":[1e9999999],"a":{"a":1e9999999,"a":0.5}}]"#,
        r#"[{"a":{"a":0.5}}]"#,
    ),
];

#[test]
fn documents(rt: HostRuntime) -> Result<(), Fail> {
    for (text, value) in DOCUMENTS {
        assert_told(&rt, rt.alloc(), text.as_bytes(), value)?;
    }
    Ok(())
}

/// Texts that are JSON, and what is said of them: the path of the first number that can't be held.
const OUT_OF_RANGE: &[(&str, &str)] = &[
    (
        "123456789012345678901234567890123456789",
        "NumberRange at $",
    ),
    (
        "1.23456789012345678901234567890123456789",
        "NumberRange at $",
    ),
    ("1e1000001", "NumberRange at $"),
    ("100e999999", "NumberRange at $"),
    ("1e-1000001", "NumberRange at $"),
    ("-1e999999999999", "NumberRange at $"),
    ("[1,2.5,1e9999999,1e9999999]", "NumberRange at $[2]"),
    (
        r#"[0,{"x":[1,{"y":1e9999999}]}]"#,
        "NumberRange at $[1]['x'][1]['y']",
    ),
    (
        r#"{"b":[1,1e9999999],"a":1e9999999}"#,
        "NumberRange at $['a']",
    ),
    (r#"{"b":[1,1e9999999],"a":2}"#, "NumberRange at $['b'][1]"),
    (r#"{"a":2,"a":1e9999999}"#, "NumberRange at $['a']"),
    (
        r#"{"a":1e9999999,"b":1e9999999,"a":2}"#,
        "NumberRange at $['b']",
    ),
    (r#"{"'\n":1e9999999}"#, r"NumberRange at $['\'\n']"),
];

#[test]
fn numbers_out_of_range(rt: HostRuntime) -> Result<(), Fail> {
    for (text, fault) in OUT_OF_RANGE {
        assert_told(&rt, rt.alloc(), text.as_bytes(), fault)?;
    }
    Ok(())
}

/// Texts that are not JSON.
const NOT_JSON: &[&str] = &[
    "",
    " ",
    "NaN",
    ".5",
    "1.",
    "01",
    "+1",
    "-",
    "1e",
    "1e9999999x",
    "[1,]",
    r#"{"a":1,}"#,
    r#"{"a":1e9999999"#,
    "1 2",
    "\"\u{1}\"",
    r#""\ud800""#,
    r#"["\ude00\ud83d"]"#,
];

#[test]
fn no_json_texts(rt: HostRuntime) -> Result<(), Fail> {
    for text in NOT_JSON {
        assert_told(&rt, rt.alloc(), text.as_bytes(), "NotJson")?;
    }
    Ok(())
}

#[test]
fn no_unicode_texts(rt: HostRuntime) -> Result<(), Fail> {
    assert_told(&rt, rt.alloc(), b"\"\xff\"", "NotJson")?;
    assert_told(&rt, rt.alloc(), b"\"\xc0\x80\"", "NotJson")?;
    Ok(assert_told(&rt, rt.alloc(), b"\"\xed\xa0\x80\"", "NotJson")?)
}

#[test]
fn levels(rt: HostRuntime) -> Result<(), Fail> {
    let deepest = nested(rt.alloc(), ("[", "", "]"), 127)?;
    assert_told(&rt, rt.alloc(), deepest.as_bytes(), deepest.as_str())?;
    let deeper = nested(rt.alloc(), ("[", "", "]"), 128)?;
    Ok(assert_told(&rt, rt.alloc(), deeper.as_bytes(), "NotJson")?)
}

/// A text and a digit that stands so often behind it, and the value of both.
const LONG: &[(&str, &str, usize, &str)] = &[
    ("1", "0", 1_000_000, "1e+1000000"),
    ("1", "0", 1_000_001, "NumberRange at $"),
    ("-0.", "0", 1_000_000, "0"),
    ("1", "1", 1_000_000, "NumberRange at $"),
    ("1e", "9", 1_000_000, "NumberRange at $"),
    ("0e", "9", 1_000_000, "0"),
];

#[test]
fn long_numbers(rt: HostRuntime) -> Result<(), Fail> {
    let mut text = String::new(rt.alloc());
    for (front, digit, count, wanted) in LONG {
        text.clear();
        text.push_str(front)?;
        push_times(&mut text, digit, *count)?;
        assert_told(&rt, rt.alloc(), text.as_bytes(), wanted)?;
    }
    Ok(())
}

/// The form of a number: the coefficient, and the exponent of one that is not whole.
fn form(alloc: Global, bytes: &[u8]) -> Option<(i128, Option<i32>)> {
    match exact_value(alloc, bytes) {
        Ok(
            Json::Decimal {
                exponent,
                coefficient,
            },
        ) => Some((coefficient, Some(exponent))),
        Ok(Json::Whole(number)) => Some((number, None)),
        _ => None,
    }
}

/// A decimal in its form: the coefficient does not end in 0.
#[test]
fn forms(rt: HostRuntime) {
    assert_eq!(rt; form(rt.alloc(), b"-8.950"), Some((-895, Some(-2))));
    assert_eq!(rt; form(rt.alloc(), b"1e2"), Some((100, None)));
}

/// Asserts the number of a fault, its name, and what it says.
fn assert_fault(
    rt: &impl Abort,
    alloc: Global,
    fault: &DocumentFault,
    (number, name, wanted): (u8, &str, &str),
) -> Result<(), AllocError> {
    assert_eq!(rt; (fault.number(), fault.name()), (number, name));
    let told = format!(in alloc; "{fault}")?;
    assert_eq!(rt; told.as_str(), wanted);
    Ok(())
}

#[test]
fn faults(rt: HostRuntime) -> Result<(), Fail> {
    let alloc = rt.alloc();
    let not_json = (1, "NotJson", "NotJson");
    assert_fault(&rt, alloc, &DocumentFault::NotJson, not_json)?;
    let too_long = (3, "ListTooLong", "ListTooLong");
    assert_fault(&rt, alloc, &DocumentFault::ListTooLong, too_long)?;
    let no_memory = (4, "NoMemory", "NoMemory");
    assert_fault(&rt, alloc, &DocumentFault::NoMemory, no_memory)?;
    let range = DocumentFault::NumberRange(String::from_str(alloc, "$[0]")?);
    let out_of_range = (5, "NumberRange", "NumberRange at $[0]");
    Ok(assert_fault(&rt, alloc, &range, out_of_range)?)
}
