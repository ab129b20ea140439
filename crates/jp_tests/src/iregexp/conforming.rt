//! Texts that conform to RFC 9485 and to the limits of this crate, and texts that do not.

use crate::nested::nested;
use jp_iregexp::{PatternFault, read_pattern};
use std::alloc::Global;
use std::test::Fail;

const CONFORMING: &[&str] = &[
    "[-]",
    "[--]",
    "[a-]",
    "[-a]",
    "[^^]",
    "[a^]",
    r"[\p{L}-]",
    r"\-",
    "a{007}",
    "a{999999999}",
    "a{0}",
    "a{2,}",
    "a{0,999999999}",
    r"[+-\-]",
    r"\^",
    "^a$",
    "a,b",
    "a-b",
    "(a|ab)(c|bcd)",
    "a||",
    "()",
    r"\n\r\t\(\)\*\+\.\?\[\\\]\{\|\}",
];

const NOT_CONFORMING: &[&str] = &[
    "[]",
    "[^]",
    "[a-b-c]",
    "[--a]",
    "[b-a]",
    "a**",
    "a{,2}",
    "a{2,1}",
    "a{1000000000}",
    r"\d",
    r"\$",
    r"\p{Cs}",
    "(a",
    "a)",
    "]",
    "}",
    "*",
    "a|*",
    "(",
    ")",
    "[",
    "{",
    r"\",
    r"\p",
    r"\p{Lu",
    r"\p{LC}",
    r"\p{Luu}",
    r"\p{}",
    r"[a-\p{L}]",
    "[a--]",
    "[---]",
    r"\/",
    "(?:a)",
    "a{1,1000000000}",
];

/// Whether a text conforms, None where the memory does not suffice to tell it.
pub(crate) fn conforms(alloc: Global, text: &str) -> Option<bool> {
    match read_pattern(alloc, text) {
        Ok(_) => Some(true),
        Err(PatternFault::NotConforming) => Some(false),
        Err(PatternFault::NoMemory) => None,
    }
}

#[test]
fn reads_what_conforms(rt: HostRuntime) {
    for text in CONFORMING {
        assert_eq!(rt; conforms(rt.alloc(), text), Some(true), "{text}");
    }
}

#[test]
fn refuses_what_does_not(rt: HostRuntime) {
    for text in NOT_CONFORMING {
        assert_eq!(rt; conforms(rt.alloc(), text), Some(false), "{text}");
    }
    assert_eq!(rt; PatternFault::NotConforming.number(), 1);
    assert_eq!(rt; PatternFault::NoMemory.number(), 2);
}

#[test]
fn reads_64_groups_and_not_65(rt: HostRuntime) -> Result<(), Fail> {
    let most = nested(rt.alloc(), ("(", "a", ")"), 64)?;
    assert_eq!(rt; conforms(rt.alloc(), most.as_str()), Some(true));
    let more = nested(rt.alloc(), ("(", "a", ")"), 65)?;
    assert_eq!(rt; conforms(rt.alloc(), more.as_str()), Some(false));
    Ok(())
}
