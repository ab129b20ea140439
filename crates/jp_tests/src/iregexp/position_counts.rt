//! The positions of patterns.

use jp_iregexp::{positions, read_pattern};
use std::alloc::Global;
use std::test::Fail;

const ROWS: &[(&str, u64)] = &[
    ("(a?){2,5}", 5),
    ("(a|bc)*d", 4),
    ("a{3,}", 3),
    ("(a{2,}b?){2}", 6),
    ("(){3}", 0),
    ("a{4096}", 4_096),
    ("a{4097}", 4_097),
    ("x{999999999}|b", 4_097),
];

/// How many positions the pattern has that a text spells.
fn positions_of(alloc: Global, text: &str) -> Result<u64, Fail> {
    let pattern = read_pattern(alloc, text)?;
    Ok(positions(&pattern))
}

#[test]
fn counts_positions(rt: HostRuntime) -> Result<(), Fail> {
    for (text, count) in ROWS {
        assert_eq!(rt; positions_of(rt.alloc(), text)?, *count, "{text}");
    }
    Ok(())
}
