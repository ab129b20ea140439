//! The limits: of a query's length, of a document's, and of levels in a query.

use super::devices::Blanks;
use super::prefixes;
use super::rows::Answer::{Canonical, Nodes, Query};
use super::rows::{Answer, assert_ended, assert_gives};
use super::texts::nested;
use jp_canon::canon;
use jp_check::Profile::Standard;
use jp_check::read_query;
use std::alloc::Global;
use std::process::Abort;
use std::test::Fail;

/// Queries of the greatest length, which select nothing.
const LONGEST: &[(&str, &str, usize, &str)] = &[
    ("$", ".a", 524_287, ""),
    ("$", "                ", 65_535, "             .a"),
    ("$[?@", ".*", 524_285, "]"),
];

/// Queries that are longer.
const LONGER: &[(&str, &str, usize, &str)] = &[
    ("$", "                ", 65_535, "             .ab"),
    ("$", ".a", 524_288, ""),
    ("$[?@", ".a", 524_288, "==1]"),
];

#[test]
fn runs_queries_up_to_the_longest(rt: HostRuntime) -> Result<(), Fail> {
    let alloc = rt.alloc();
    for text in LONGEST {
        let query = nested(alloc, *text, ("", ""))?;
        let asked = ("[1]", query.as_str(), Standard);
        assert_gives(&rt, alloc, asked, Nodes(&[]), 999)?;
        let line = ["jp", "check", query.as_str()];
        assert_ended(&rt, alloc, &line, b"".as_slice(), (0, "accepted\n", ""))?;
    }
    for text in LONGER {
        let query = nested(alloc, *text, ("", ""))?;
        assert_too_long(&rt, alloc, query.as_str())?;
    }
    Ok(())
}

/// Asserts that no run takes a query, for its length, though it is an accepted one.
fn assert_too_long(rt: &impl Abort, alloc: Global, query: &str) -> Result<(), Fail> {
    assert!(rt; read_query(alloc, query, Standard).is_ok());
    let refused = (1, "", "query refused: TextTooLong at 0\n");
    for subcommand in ["eval", "paths", "both", "canon", "check"] {
        let line = ["jp", subcommand, query];
        assert_ended(rt, alloc, &line, b"[1]".as_slice(), refused)?;
    }
    Ok(())
}

#[test]
fn gives_canonical_texts_of_half_a_million_segments(rt: HostRuntime) -> Result<(), Fail> {
    let query = nested(rt.alloc(), ("$", ".a", 500_000, ""), ("", ""))?;
    let canonical = nested(rt.alloc(), ("$", "['a']", 500_000, ""), ("", ""))?;
    for text in [query.as_str(), canonical.as_str()] {
        assert!(rt; canonical_text(rt.alloc(), text)? == canonical);
    }
    Ok(())
}

/// The canonical text of a query.
fn canonical_text(alloc: Global, text: &str) -> Result<String, Fail> {
    let query = read_query(alloc, text, Standard).ok().ok_or("refused")?;
    Ok(canon(alloc, &query)?)
}

#[test]
fn reads_documents_up_to_the_limit(rt: HostRuntime) -> Result<(), Fail> {
    let line = ["jp", "both", "$"];
    let refused = (3, "", "document refused: DocumentTooLarge\n");
    for (blanks, ended) in [(16_777_215, (0, "$\t1\n", "")), (16_777_216, refused)] {
        assert_ended(&rt, rt.alloc(), &line, Blanks(blanks), ended)?;
    }
    Ok(())
}

/// Asserts that `read_query` refuses the query so, or that its canonical text is its own.
fn assert_read(rt: &impl Abort, alloc: Global, text: &str, answer: Answer) -> Result<(), Fail> {
    let refused = match answer {
        Query(refusal) => Some(refusal),
        Nodes(_) | Canonical(_) | Answer::Document(_) => None,
    };
    match read_query(alloc, text, Standard) {
        Ok(query) => {
            let canonical = canon(alloc, &query)?;
            let again = canonical_text(alloc, canonical.as_str())?;
            assert_eq!(rt;
                (again.as_str(), refused),
                (canonical.as_str(), None),
                "{text}"
            );
        }
        Err(refusal) => {
            let said = format!(in alloc; "{} at {}", refusal.kind.name(), refusal.place)?;
            assert_eq!(rt; Some(said.as_str()), refused, "{text}");
        }
    }
    Ok(())
}

/// A text that begins a query, what is repeated how often, what stands inside, what closes it, and
/// the query's end; and what that gives over no items.
const NESTED: &[((&str, &str, usize, &str), (&str, &str), Answer)] = &[
    (("$", "[?@", 64, ""), ("]", ""), Nodes(&[])),
    (("$", "[?@", 128, ""), ("]", ""), Nodes(&[])),
    (("$", "[?@", 129, ""), ("]", ""), Query("TooDeep at 386")),
    (("$[?", "(", 63, "@.a"), (")", "]"), Canonical("$[?@['a']]")),
    (("$[?", "(", 64, "@.a"), (")", "]"), Canonical("$[?@['a']]")),
    (
        ("$[?", "(", 127, "@.a"),
        (")", "]"),
        Canonical("$[?@['a']]"),
    ),
    (("$[?", "(", 127, "@.a"), (")", "]"), Nodes(&[])),
    (("$[?", "(", 127, "@==true"), (")", "]"), Nodes(&[])),
    (
        ("$[?", "(", 128, "@.a"),
        (")", "]"),
        Query("TooDeep at 130"),
    ),
    (
        ("$[?", "g(", 63, "1"),
        (")", "]"),
        Query("UnknownFunction at 3"),
    ),
    (
        ("$[?", "g(", 127, "1"),
        (")", "]"),
        Query("UnknownFunction at 3"),
    ),
    (("$[?", "g(", 128, "1"), (")", "]"), Query("TooDeep at 257")),
    (("$[?", "f(", 128, "1"), (")", "]"), Query("TooDeep at 258")),
    (
        ("$[?", "(", 126, "f()"),
        (")", "]"),
        Query("UnknownFunction at 129"),
    ),
    (
        ("$[?", "(", 127, "f()"),
        (")", "]"),
        Query("TooDeep at 131"),
    ),
    (
        ("$[?", "(", 127, "!f()"),
        (")", "]"),
        Query("TooDeep at 131"),
    ),
    (
        ("$[?", "(", 127, "true()"),
        (")", "]"),
        Query("TooDeep at 134"),
    ),
    (
        ("$[?", "(", 127, "tru)"),
        (")", "]"),
        Query("Syntax at 133"),
    ),
];

#[test]
fn nests_filters_parentheses_and_calls_128_deep(rt: HostRuntime) -> Result<(), Fail> {
    let alloc = rt.alloc();
    for (opening, closing, answer) in NESTED {
        let query = nested(alloc, *opening, *closing)?;
        assert_gives(&rt, alloc, ("[]", query.as_str(), Standard), *answer, 999)?;
        assert_read(&rt, alloc, query.as_str(), *answer)?;
        if let Nodes(_) = answer {
            prefixes::are_accepted_or_end(&rt, alloc, query.as_str(), Standard);
        }
    }
    Ok(())
}
