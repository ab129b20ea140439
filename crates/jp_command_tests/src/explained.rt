//! What `--explain` adds to the line of a refused query or document.

mod documents;
mod filters;
mod forms;
mod paths;

use super::devices::Drip;
use super::rows::{assert_ended, status_over, words};
use super::texts::nested;
use jp_explain::Reason;
use jp_explain::Surroundings::Shell;
use jp_json::JsonReason;
use std::alloc::{AllocError, Global};
use std::process::Abort;
use std::test::Fail;

/// A query as a new user types it, its refusal, how many columns stand before its place, the reason,
/// and what to try instead, if there is a suggestion.
pub type Explained = (&'static str, &'static str, usize, Reason, &'static str);

/// What is told of a refused query, of which that line is shown.
fn told(
    alloc: Global,
    line: &str,
    (_, refusal, width, reason, suggestion): Explained,
) -> Result<String, AllocError> {
    let spaces = " ".repeat(alloc, width)?;
    let sentence = reason.sentence(Shell);
    let mut text = format!(in alloc;
        "query refused: {refusal}\n  {line}\n  {spaces}^\n{sentence}\n"
    )?;
    if !suggestion.is_empty() {
        write!(text, "Try: {suggestion}\n")?;
    }
    Ok(text)
}

#[test]
fn explains_a_refused_query_where_that_is_asked_for(rt: HostRuntime) -> Result<(), Fail> {
    for rows in [paths::PATHS, filters::FILTERS] {
        for row in rows {
            assert_explained(&rt, rt.alloc(), *row)?;
        }
    }
    Ok(())
}

/// Asserts what each subcommand tells of a query with the flag, and that without it one line is told.
fn assert_explained(rt: &impl Abort, alloc: Global, row: Explained) -> Result<(), Fail> {
    let (query, refusal, ..) = row;
    let text = told(alloc, query, row)?;
    let line = format!(in alloc; "query refused: {refusal}\n")?;
    for subcommand in ["check", "canon", "eval", "paths", "both"] {
        let explaining = ["jp", subcommand, "--explain", query];
        let explained = (1, "", text.as_str());
        assert_ended(rt, alloc, &explaining, b"".as_slice(), explained)?;
        let plain = ["jp", subcommand, query];
        assert_ended(rt, alloc, &plain, b"".as_slice(), (1, "", line.as_str()))?;
    }
    Ok(())
}

/// Words of `jp check`, of which that line is shown.
type Shown = (&'static [&'static str], &'static str, Explained);

const SHOWN: &[Shown] = &[
    (
        &["jp", "check", "$.a\n", "--explain"],
        "$.a\\n",
        ("$.a\n", "Syntax at 4", 5, Reason::BlankLast, "$.a"),
    ),
    (
        &["jp", "check", "--explain", "$.a\n[name]"],
        "[name]",
        (
            "$.a\n[name]",
            "Syntax at 5",
            1,
            Reason::BracketName,
            "$['a']['name']",
        ),
    ),
];

#[test]
fn shows_one_line_of_a_query(rt: HostRuntime) -> Result<(), Fail> {
    let alloc = rt.alloc();
    for (words, line, row) in SHOWN {
        let text = told(alloc, line, *row)?;
        assert_ended(&rt, alloc, words, b"".as_slice(), (1, "", text.as_str()))?;
    }
    let long = nested(alloc, ("$", ".a", 524_288, ""), ("", ""))?;
    let line = ["jp", "eval", "--explain", long.as_str()];
    let sentence = Reason::TextTooLong.sentence(Shell);
    let text = format!(in alloc; "query refused: TextTooLong at 0\n{sentence}\n")?;
    assert_ended(&rt, alloc, &line, b"".as_slice(), (1, "", text.as_str()))
}

/// Words, an input, and how that ends: the status, and what is written to either output.
type Line = (
    &'static [&'static str],
    &'static str,
    (u8, &'static str, &'static str),
);

/// Runs that the flag adds nothing to.
const LINES: &[Line] = &[
    (
        &[
            "jp",
            "check",
            "--extended",
            "--explain",
            "$[?distinct(@.*)]",
        ],
        "",
        (0, "accepted\n", ""),
    ),
    (
        &["jp", "eval", "--explain", "$.a"],
        r#"{"a":1}"#,
        (0, "1\n", ""),
    ),
    (
        &["jp", "check", "--explain", "$.a"],
        r#"{"a":1,}"#,
        (0, "accepted\n", ""),
    ),
];

#[test]
fn explains_nothing_that_is_accepted(rt: HostRuntime) -> Result<(), Fail> {
    for (line, document, ended) in LINES {
        assert_ended(&rt, rt.alloc(), line, document.as_bytes(), *ended)?;
    }
    Ok(())
}

#[test]
fn writes_no_more_of_an_explanation_after_a_write_that_failed(rt: HostRuntime) -> Result<(), Fail> {
    let alloc = rt.alloc();
    let row = filters::FILTERS[0];
    let query = told(alloc, row.0, row)?;
    let check = ["jp", "check", "--explain", "$[(@.a)]"];
    assert_stops(&rt, alloc, &check, "", (1, query.as_str()))?;
    let place = "line 1, column 4";
    let document = misread(
        alloc,
        (b"[1,]", "NotJson", place, JsonReason::TrailingComma, ""),
    )?;
    let eval = ["jp", "eval", "--explain", "$"];
    assert_stops(&rt, alloc, &eval, "[1,]", (3, document.as_str()))
}

/// Asserts that of what is told as much is written as comes before a write that fails, which is the
/// last one.
fn assert_stops(
    rt: &impl Abort,
    alloc: Global,
    line: &[&str],
    document: &str,
    (status, text): (u8, &str),
) -> Result<(), Fail> {
    for taken in 0..=text.len() {
        let mut drip = Drip::new(alloc, 1);
        drip.failing = taken.saturating_add(1);
        let ended = status_over(
            alloc,
            words(alloc, line)?,
            document.as_bytes(),
            Vec::new(alloc),
            &mut drip,
        );
        assert_eq!(rt; ended, status);
        assert!(rt; text.as_bytes().get(..taken) == Some(drip.taken.as_slice()));
        let made = taken.saturating_add(usize::from(taken < text.len()));
        assert_eq!(rt; drip.calls, made);
    }
    Ok(())
}

#[test]
fn explains_a_refused_document_where_that_is_asked_for(rt: HostRuntime) -> Result<(), Fail> {
    for rows in [documents::NOT_JSON, documents::NOT_WHOLE, forms::FORMS] {
        for row in rows {
            assert_misread(&rt, rt.alloc(), *row)?;
        }
    }
    Ok(())
}

/// What is told of bytes that are no document.
fn misread(
    alloc: Global,
    (_, fault, place, reason, more): documents::Misread,
) -> Result<String, AllocError> {
    let sentence = reason.sentence();
    format!(in alloc; "document refused: {fault}\n{place}: {sentence}{more}\n")
}

/// Asserts what each subcommand that reads a document tells of it with the flag, and that without it
/// one line is told: of queries that name a location, and of others.
fn assert_misread(rt: &impl Abort, alloc: Global, row: documents::Misread) -> Result<(), Fail> {
    let (bytes, fault, ..) = row;
    let line = format!(in alloc; "document refused: {fault}\n")?;
    let text = misread(alloc, row)?;
    for subcommand in ["eval", "paths", "both"] {
        for query in ["$.a", "$", "$..a"] {
            let explaining = ["jp", subcommand, query, "--explain"];
            assert_ended(rt, alloc, &explaining, bytes, (3, "", text.as_str()))?;
            let plain = ["jp", subcommand, query];
            assert_ended(rt, alloc, &plain, bytes, (3, "", line.as_str()))?;
        }
    }
    Ok(())
}

#[test]
fn tells_where_a_document_nests_too_deep(rt: HostRuntime) -> Result<(), Fail> {
    let alloc = rt.alloc();
    let deep = nested(alloc, ("", "[", 128, ""), ("]", ""))?;
    let place = "line 1, column 128";
    let text = misread(
        alloc,
        (b"", "NotJson", place, JsonReason::TooManyLevels, ""),
    )?;
    let line = ["jp", "paths", "--explain", "$..a"];
    assert_ended(&rt, alloc, &line, deep.as_bytes(), (3, "", text.as_str()))
}
