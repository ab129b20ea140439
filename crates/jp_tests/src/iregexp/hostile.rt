//! Long and deep texts.

use super::conforming::conforms;
use super::only_class;
use crate::nested::nested;
use jp_iregexp::read_pattern;
use std::alloc::Global;
use std::test::Fail;

#[test]
fn answers_open_parentheses(rt: HostRuntime) -> Result<(), Fail> {
    let text = "(".repeat(rt.alloc(), 100_000)?;
    assert_eq!(rt; conforms(rt.alloc(), text.as_str()), Some(false));
    Ok(())
}

/// How many items a text has that is a class.
fn items_of_class(alloc: Global, text: &str) -> Result<usize, Fail> {
    let pattern = read_pattern(alloc, text)?;
    let class = only_class(&pattern).ok_or("no class")?;
    Ok(class.elements.len())
}

#[test]
fn answers_a_class_of_a_million_items(rt: HostRuntime) -> Result<(), Fail> {
    let items = "a".repeat(rt.alloc(), 1_000_000)?;
    let text = nested(rt.alloc(), ("[", items.as_str(), "]"), 1)?;
    assert_eq!(rt; items_of_class(rt.alloc(), text.as_str())?, 1_000_000);
    Ok(())
}

/// Whether a quantifier conforms that is one digit a million times.
fn conforms_as_count(alloc: Global, digit: &str) -> Result<Option<bool>, Fail> {
    let digits = digit.repeat(alloc, 1_000_000)?;
    let text = format!(in alloc; "a{{{digits}}}")?;
    Ok(conforms(alloc, text.as_str()))
}

#[test]
fn answers_quantifiers_of_a_million_digits(rt: HostRuntime) -> Result<(), Fail> {
    assert_eq!(rt; conforms_as_count(rt.alloc(), "9")?, Some(false));
    assert_eq!(rt; conforms_as_count(rt.alloc(), "0")?, Some(true));
    Ok(())
}
