//! Texts between quotes, with a character of each kind at each place of them.

use crate::nested::push_times;
use jp_document::{push_quote, push_text};
use std::alloc::{AllocError, Global};
use std::test::Fail;

/// A character, how it stands between double quotes (RFC 8259 section 7), and how between single ones (RFC
/// 9535 section 2.7).
type Row = (&'static str, &'static str, &'static str);

const ROWS: &[Row] = &[
    ("\0", r"\u0000", r"\u0000"),
    ("\u{7}", r"\u0007", r"\u0007"),
    ("\u{8}", r"\b", r"\b"),
    ("\t", r"\t", r"\t"),
    ("\n", r"\n", r"\n"),
    ("\u{b}", r"\u000b", r"\u000b"),
    ("\u{c}", r"\f", r"\f"),
    ("\r", r"\r", r"\r"),
    ("\u{1f}", r"\u001f", r"\u001f"),
    (" ", " ", " "),
    ("!", "!", "!"),
    ("\"", r#"\""#, "\""),
    ("#", "#", "#"),
    ("'", "'", r"\'"),
    ("/", "/", "/"),
    ("[", "[", "["),
    ("\\", r"\\", r"\\"),
    ("]", "]", "]"),
    ("\u{7f}", "\u{7f}", "\u{7f}"),
    ("é", "é", "é"),
    ("€", "€", "€"),
    ("😀", "😀", "😀"),
];

/// How many letters stand before a character and behind it, at most.
const MOST: usize = 20;

/// Appends a character with letters before it and behind it, between quotes.
fn push_framed(
    out: &mut String,
    quote: &str,
    before: usize,
    piece: &str,
    behind: usize,
) -> Result<(), AllocError> {
    out.push_str(quote)?;
    push_times(out, "a", before)?;
    out.push_str(piece)?;
    push_times(out, "z", behind)?;
    out.push_str(quote)
}

/// Appends a text between double quotes and one between single ones.
fn push_both(out: &mut String, text: &str) -> Result<(), AllocError> {
    push_text(out, text)?;
    push_quote(out, text)
}

/// Appends what `push_both` must for a text with this many letters before a character and behind it.
fn push_wanted(
    out: &mut String,
    row: &Row,
    before: usize,
    behind: usize,
) -> Result<(), AllocError> {
    push_framed(out, "\"", before, row.1, behind)?;
    push_framed(out, "'", before, row.2, behind)
}

/// Whether a text with this many letters before a character and behind it is written as it must be, behind
/// what stands there.
fn is_written(alloc: Global, row: &Row, before: usize, behind: usize) -> Result<bool, AllocError> {
    let mut text = String::new(alloc);
    push_framed(&mut text, "", before, row.0, behind)?;
    let mut found = String::from_str(alloc, "[")?;
    push_both(&mut found, text.as_str())?;
    let mut wanted = String::from_str(alloc, "[")?;
    push_wanted(&mut wanted, row, before, behind)?;
    Ok(found.as_str() == wanted.as_str())
}

/// Appends a piece with letters around it, and then with as many on the other sides, between quotes.
fn push_twice(
    out: &mut String,
    quote: &str,
    piece: &str,
    (before, behind): (usize, usize),
) -> Result<(), AllocError> {
    out.push_str(quote)?;
    push_framed(out, "", before, piece, behind)?;
    push_framed(out, "", behind, piece, before)?;
    out.push_str(quote)
}

/// Whether two texts side by side, each with letters around a character, are written as they must be in one.
fn is_written_twice(
    alloc: Global,
    row: &Row,
    before: usize,
    behind: usize,
) -> Result<bool, AllocError> {
    let mut text = String::new(alloc);
    push_twice(&mut text, "", row.0, (before, behind))?;
    let mut found = String::new(alloc);
    push_text(&mut found, text.as_str())?;
    let mut wanted = String::new(alloc);
    push_twice(&mut wanted, "\"", row.1, (before, behind))?;
    Ok(found.as_str() == wanted.as_str())
}

/// Whether texts with this many letters before a character are written as they must be.
fn are_written(alloc: Global, row: &Row, before: usize) -> Result<bool, AllocError> {
    for behind in 0..=MOST {
        if !is_written(alloc, row, before, behind)?
            || !is_written_twice(alloc, row, before, behind)?
        {
            return Ok(false);
        }
    }
    Ok(true)
}

#[test]
fn texts_with_a_character_at_each_place(rt: HostRuntime) -> Result<(), Fail> {
    for row in ROWS {
        for before in 0..=MOST {
            assert!(rt; are_written(rt.alloc(), row, before)?, "{before} {}", row.1);
        }
    }
    Ok(())
}

/// Whether a text of so many letters is copied between its quotes.
fn is_copied(alloc: Global, length: usize) -> Result<bool, AllocError> {
    let mut text = String::new(alloc);
    push_framed(&mut text, "", length, "", 0)?;
    let mut found = String::new(alloc);
    push_text(&mut found, text.as_str())?;
    let mut wanted = String::new(alloc);
    push_framed(&mut wanted, "\"", length, "", 0)?;
    Ok(found.as_str() == wanted.as_str())
}

#[test]
fn texts_that_are_copied(rt: HostRuntime) -> Result<(), Fail> {
    for length in 0..=40 {
        assert!(rt; is_copied(rt.alloc(), length)?, "{length}");
    }
    Ok(())
}
