//! Bytes that are told to be no JSON text by their tokens.

use crate::nested::nested;
use jp_flat::is_no_json;
use std::alloc::{AllocError, Global};
use std::process::Abort;
use std::test::Fail;

const FAULTS: &[&str] = &[
    "",
    " ",
    "[1,]",
    "[,1]",
    "[1 2]",
    "[1,,2]",
    "[1",
    "[1,2",
    "{",
    "{\"a\"",
    "{\"a\":",
    "{\"a\":1",
    "{\"a\":1,",
    "{\"a\":1,}",
    "{\"a\"}",
    "{\"a\" 1}",
    "{\"a\":]",
    "{\"a\":1]",
    "{1:2}",
    "{,}",
    "[\"a\":1]",
    "[1}",
    "]",
    "[1]]",
    "[1] x",
    "1 2",
    "1,",
    "tru",
    "[nul]",
    "[truex]",
    "[01]",
    "[1x]",
    "[-]",
    "[.5]",
    "[1.]",
    "[1.e5]",
    "[1.5,]",
    "[1e]",
    "[+1]",
    "[12:1]",
    "[true:1]",
    "[\"a]",
    "[\"a\u{1}\"]",
    "[\"\\x\"]",
    "[\"\\u12\"]",
    "[\"\\ud800\"]",
    "{\"\\x\":1}",
    "[é]",
    "[\"a\" \"b\"]",
    "[\"a\"x]",
    "[1;2]",
    "'a'",
];

#[test]
fn faults_of_each_kind(rt: HostRuntime) {
    for text in FAULTS {
        assert!(rt; is_no_json(rt.alloc(), text.as_bytes()), "{text}");
    }
    assert!(rt; is_no_json(rt.alloc(), b"[\"\xff\"]"));
    assert!(rt; is_no_json(rt.alloc(), b"[1,2\xff]"));
}

const TEXTS: &[&str] = &[
    "null",
    " [ 1 , -2 , true , false , null , \"\" , [ ] , { } ] ",
    r#"{"a":{"b":[1,{"c":"\n\u00e9\ud83d\ude00"}]},"a":2}"#,
    "[18446744073709551616,-0]",
    "[1.5]",
    "[1e5,1.5e-7]",
];

#[test]
fn texts_of_json(rt: HostRuntime) {
    for text in TEXTS {
        assert!(rt; !is_no_json(rt.alloc(), text.as_bytes()), "{text}");
    }
}

/// Asserts that 127 values in one another are JSON, and 128 are none.
fn assert_levels(
    rt: &impl Abort,
    alloc: Global,
    pieces: (&str, &str, &str),
) -> Result<(), AllocError> {
    let deepest = nested(alloc, pieces, 127)?;
    assert!(rt; !is_no_json(alloc, deepest.as_bytes()));
    let deeper = nested(alloc, pieces, 128)?;
    assert!(rt; is_no_json(alloc, deeper.as_bytes()));
    Ok(())
}

#[test]
fn levels(rt: HostRuntime) -> Result<(), Fail> {
    assert_levels(&rt, rt.alloc(), ("[", "", "]"))?;
    Ok(assert_levels(&rt, rt.alloc(), ("{\"a\":", "1", "}"))?)
}
