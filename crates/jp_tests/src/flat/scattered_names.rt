//! Objects whose names come in any order, up to many of them.

use crate::flat::documents::assert_printed;
use std::alloc::{AllocError, Global};
use std::process::Abort;
use std::test::Fail;

/// Adds a name with a number of three digits or more between two texts.
fn push_numbered(
    names: &mut Vec<String>,
    alloc: Global,
    (front, back): (&str, &str),
    number: u32,
) -> Result<(), AllocError> {
    let name = format!(in alloc; "{front}{number:03}{back}")?;
    Ok(names.push(name)?)
}

/// Names that rise, by the number between two texts.
fn numbered(alloc: Global, pieces: (&str, &str), count: u32) -> Result<Vec<String>, AllocError> {
    let mut names = Vec::new(alloc);
    for number in 0..count {
        push_numbered(&mut names, alloc, pieces, number)?;
    }
    Ok(names)
}

/// Adds a name that is a text so many times.
fn push_lengthened(
    names: &mut Vec<String>,
    alloc: Global,
    piece: &str,
    length: usize,
) -> Result<(), AllocError> {
    Ok(names.push(piece.repeat(alloc, length)?)?)
}

/// Names that rise, each with the text once more than the one before.
fn lengthened(alloc: Global, piece: &str, count: u32) -> Result<Vec<String>, AllocError> {
    let mut names = Vec::new(alloc);
    for length in 0..count {
        push_lengthened(&mut names, alloc, piece, length as usize)?;
    }
    Ok(names)
}

/// Appends the members, one of them after each so many, with the places of their names as values, or
/// all with this one.
fn push_members(
    text: &mut String,
    names: &[String],
    apart: usize,
    value: Option<usize>,
) -> Result<(), AllocError> {
    for turn in 0..names.len() {
        let place = turn.wrapping_mul(apart) % names.len();
        let value = value.unwrap_or(place);
        let comma = if text.ends_with('{') { "" } else { "," };
        write!(text, "{comma}\"{}\":{value}", names[place])?;
    }
    Ok(())
}

/// Appends an object of these members in another order, where it is said with each of them twice.
fn push_shuffled(text: &mut String, names: &[String], twice: bool) -> Result<(), AllocError> {
    text.push('{')?;
    if twice {
        push_members(text, names, 11, Some(7000))?;
    }
    push_members(text, names, 37, None)?;
    text.push('}')
}

/// Appends an object of these members in the order of their names.
fn push_rising(text: &mut String, names: &[String]) -> Result<(), AllocError> {
    text.push('{')?;
    push_members(text, names, 1, None)?;
    text.push('}')
}

/// Asserts that an object of these members is printed in the order of their names.
fn assert_in_order(
    rt: &impl Abort,
    alloc: Global,
    names: &[String],
    twice: bool,
) -> Result<(), AllocError> {
    let mut text = String::new(alloc);
    push_shuffled(&mut text, names, twice)?;
    let mut wanted = String::new(alloc);
    push_rising(&mut wanted, names)?;
    assert_printed(rt, alloc, text.as_str(), wanted.as_str())
}

/// Neither 11 nor 37 divides one of these counts, so each name has its turn.
const COUNTS: &[u32] = &[2, 3, 5, 8, 15, 16, 17, 32, 40, 63, 64, 65, 100, 300];

/// What stands before a number and behind it.
const NUMBERED: &[(&str, &str)] = &[
    ("", ""),
    ("1234567", ""),
    ("12345678", ""),
    ("123456789", ""),
    ("123456789012345", ""),
    ("1234567890123456", ""),
    ("12345678901234567", ""),
    ("", "a name of more than eight bytes"),
    ("é€😀", "\u{10FFFF}"),
];

/// Asserts so of so many names with numbers.
fn assert_numbered(
    rt: &impl Abort,
    alloc: Global,
    pieces: (&str, &str),
    count: u32,
) -> Result<(), AllocError> {
    let names = numbered(alloc, pieces, count)?;
    assert_in_order(rt, alloc, &names, false)?;
    assert_in_order(rt, alloc, &names, true)
}

#[test]
fn names_with_numbers_in_any_order(rt: HostRuntime) -> Result<(), Fail> {
    for pieces in NUMBERED {
        for count in COUNTS {
            assert_numbered(&rt, rt.alloc(), *pieces, *count)?;
        }
    }
    Ok(())
}

/// What stands in a name again and again.
const LENGTHENED: &[&str] = &["a", "\\u0000", "\u{10FFFF}"];

/// Asserts so of so many names that grow.
fn assert_lengthened(
    rt: &impl Abort,
    alloc: Global,
    piece: &str,
    count: u32,
) -> Result<(), AllocError> {
    let names = lengthened(alloc, piece, count)?;
    assert_in_order(rt, alloc, &names, false)?;
    assert_in_order(rt, alloc, &names, true)
}

#[test]
fn names_that_grow_in_any_order(rt: HostRuntime) -> Result<(), Fail> {
    for piece in LENGTHENED {
        for count in COUNTS {
            assert_lengthened(&rt, rt.alloc(), piece, *count)?;
        }
    }
    Ok(())
}
