//! Canonical texts of queries. Other rows are in jp_command's table.

use jp_canon::canon;
use jp_check::Profile::{self, Extended, Standard};
use jp_check::read_query;
use std::alloc::Global;
use std::process::Abort;
use std::test::Fail;

/// Queries, the profiles that they are read in, and their canonical texts.
const ROWS: &[(&str, Profile, &str)] = &[
    ("$.a [ 1: ]", Standard, "$['a'][1:]"),
    (
        "$[?( !(@.b) ) && ('c'>-0||@ ['d'])]",
        Standard,
        "$[?!@['b']&&('c'>0||@['d'])]",
    ),
    ("$[?distinct( @.a )]", Extended, "$[?distinct(@['a'])]"),
];

/// Asserts the canonical text of a query.
fn assert_canonical(
    rt: &impl Abort,
    alloc: Global,
    (text, profile): (&str, Profile),
    wanted: &str,
) -> Result<(), Fail> {
    let query = read_query(alloc, text, profile)?;
    let canonical = canon(alloc, &query)?;
    assert_eq!(rt; canonical.as_str(), wanted);
    Ok(())
}

#[test]
fn canonical_texts(rt: HostRuntime) -> Result<(), Fail> {
    for (text, profile, canonical) in ROWS {
        assert_canonical(&rt, rt.alloc(), (text, *profile), canonical)?;
    }
    Ok(())
}
