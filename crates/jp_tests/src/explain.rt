//! Wrong queries as they are typed by those who come from jq, JavaScript, Python, XPath, kubectl and
//! the shell, with the place, the reason and the suggestion of each.

mod comparisons;
mod ends;
mod hidden;
mod kinds;
mod names;
mod numbers;
mod operators;
mod starts;
mod tests_of_filters;

use jp_check::Profile::Standard;
use jp_check::{Profile, read_query};
use jp_explain::Surroundings::Library;
use jp_explain::{Reason, explain, explanation_text};
use std::alloc::{AllocError, Global};
use std::process::Abort;
use std::test::Fail;

/// A query, the line with the caret below it, the reason, and the suggestion, which is empty where
/// there is none.
pub type Row = (&'static str, &'static str, Reason, &'static str);

#[test]
fn each_wrong_query_is_explained(rt: HostRuntime) -> Result<(), Fail> {
    let alloc = rt.alloc();
    assert_rows(&rt, alloc, starts::ROWS)?;
    assert_rows(&rt, alloc, ends::ROWS)?;
    assert_rows(&rt, alloc, names::ROWS)?;
    assert_rows(&rt, alloc, numbers::ROWS)?;
    assert_rows(&rt, alloc, comparisons::ROWS)?;
    assert_rows(&rt, alloc, operators::ROWS)?;
    assert_rows(&rt, alloc, tests_of_filters::ROWS)
}

/// Asserts that the query of each row is refused, and explained as the row says.
fn assert_rows(rt: &impl Abort, alloc: Global, rows: &[Row]) -> Result<(), Fail> {
    for row in rows {
        assert_explained(rt, alloc, (row.0, Standard), *row)?;
    }
    Ok(())
}

/// Asserts that the query is refused in the profile, and explained as the row says, whose line is shown.
fn assert_explained(
    rt: &impl Abort,
    alloc: Global,
    (query, profile): (&str, Profile),
    row: Row,
) -> Result<(), Fail> {
    let told = told(alloc, query, profile, row.2)?;
    let wanted = wanted(alloc, row)?;
    assert_eq!(rt; told.as_str(), wanted.as_str());
    Ok(())
}

/// The text of an explanation with these parts.
fn wanted(alloc: Global, (line, caret, reason, suggestion): Row) -> Result<String, AllocError> {
    let sentence = reason.sentence(Library);
    if suggestion.is_empty() {
        format!(in alloc; "  {line}\n  {caret}\n{sentence}\n")
    } else {
        format!(in alloc; "  {line}\n  {caret}\n{sentence}\nTry: {suggestion}\n")
    }
}

/// The text of the explanation of a query that is refused in the profile for the reason.
fn told(
    alloc: Global,
    query: &str,
    profile: Profile,
    reason: Reason,
) -> Result<String, AllocError> {
    match read_query(alloc, query, profile) {
        Ok(_) => String::from_str(alloc, "accepted"),
        Err(refusal) => {
            let explanation = explain(alloc, query, profile, refusal, Library)?;
            if explanation.reason == reason {
                explanation_text(alloc, &explanation)
            } else {
                String::from_str(alloc, "another reason")
            }
        }
    }
}
