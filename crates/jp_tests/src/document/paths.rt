//! Texts that are normalized paths or none.

use jp_document::{OwnedStep, PathFault, Step, path_text, push_step, quote, read_path};
use std::alloc::{AllocError, Global};
use std::process::Abort;
use std::test::Fail;

/// Normalized paths, and their steps, each on a line.
const PATHS: &[(&str, &str)] = &[
    ("$", ""),
    ("$['']", "name \n"),
    ("$['a']['b']", "name a\nname b\n"),
    (
        r"$['\b\t\n\f\r\'\\\u001f\u0000é😀/']",
        "name \u{8}\t\n\u{c}\r'\\\u{1f}\0é😀/\n",
    ),
    ("$['a'][0]", "name a\nindex 0\n"),
    ("$[9007199254740991]", "index 9007199254740991\n"),
];

/// Appends steps, each on a line.
fn push_steps(lines: &mut String, steps: &[OwnedStep]) -> Result<(), AllocError> {
    for step in steps {
        match step {
            OwnedStep::Name(name) => write!(lines, "name {name}\n")?,
            OwnedStep::Index(index) => write!(lines, "index {index}\n")?,
        }
    }
    Ok(())
}

/// Asserts the steps of a normalized path.
fn assert_steps(rt: &impl Abort, alloc: Global, path: &str, wanted: &str) -> Result<(), Fail> {
    let location = read_path(alloc, path)?;
    let mut lines = String::new(alloc);
    push_steps(&mut lines, location.steps())?;
    assert_eq!(rt; lines.as_str(), wanted, "{path}");
    Ok(())
}

#[test]
fn steps(rt: HostRuntime) -> Result<(), Fail> {
    for (path, wanted) in PATHS {
        assert_steps(&rt, rt.alloc(), path, wanted)?;
    }
    Ok(())
}

const NOT_NORMALIZED: &[&str] = &[
    "",
    r#"$["a"]"#,
    "$[01]",
    r"$['\u000B']",
    r"$['\u000a']",
    r"$['\u0008']",
    r"$['\u0041']",
    r"$['\/']",
    "$['a'] ",
    "$['a'].b",
    "$[-1]",
    "$['a",
    "$[ 0]",
    "a",
];

#[test]
fn texts_that_are_no_paths(rt: HostRuntime) {
    for text in NOT_NORMALIZED {
        let fault = read_path(rt.alloc(), text).err();
        assert_eq!(rt; fault, Some(PathFault::NotNormalized), "{text}");
    }
}

const LARGE_INDEXES: &[&str] = &["$[9007199254740992]", "$[99999999999999999999]['a'][0]"];

#[test]
fn paths_with_large_indexes(rt: HostRuntime) {
    for text in LARGE_INDEXES {
        let fault = read_path(rt.alloc(), text).err();
        assert_eq!(rt; fault, Some(PathFault::IndexRange), "{text}");
    }
    assert_eq!(rt; PathFault::IndexRange.number(), 2);
}

#[test]
fn steps_are_spelled_one_after_another(rt: HostRuntime) -> Result<(), Fail> {
    let mut path = String::from_str(rt.alloc(), "$")?;
    push_step(&mut path, Step::Name("it's"))?;
    push_step(&mut path, Step::Index(0))?;
    assert_eq!(rt; path.as_str(), r"$['it\'s'][0]");
    Ok(())
}

#[test]
fn quotes(rt: HostRuntime) -> Result<(), Fail> {
    let quoted = quote(rt.alloc(), "'")?;
    assert_eq!(rt; quoted.as_str(), r"'\''");
    Ok(())
}

#[test]
fn paths(rt: HostRuntime) -> Result<(), Fail> {
    let path = path_text(rt.alloc(), &[Step::Name("\u{1f}\n'\\"), Step::Index(10)])?;
    assert_eq!(rt; path.as_str(), r"$['\u001f\n\'\\'][10]");
    Ok(())
}
