//! Scans, a character at a time.

use jp_iregexp::read_pattern;
use jp_match::{Scan, Tests};
use std::alloc::Global;
use std::test::Fail;

/// Whether a scan accepts so at first, and after each character.
fn accepts_so(
    alloc: Global,
    (pattern, anywhere): (&str, bool),
    text: &str,
    first: bool,
    accepted: &[bool],
) -> Result<bool, Fail> {
    let read = read_pattern(alloc, pattern)?;
    let mut scan = Scan::new(alloc, &read, anywhere)?.ok_or("no scan")?;
    let mut tests = Tests::new();
    let mut is_so = scan.accepts() == first;
    for (c, accepts) in text.chars().zip(accepted) {
        scan.step(c, &mut tests);
        is_so = is_so && scan.accepts() == *accepts;
    }
    Ok(is_so)
}

#[test]
fn scans_a_character_at_a_time(rt: HostRuntime) -> Result<(), Fail> {
    let alloc = rt.alloc();
    let whole = ("ab*", false);
    assert!(rt; accepts_so(alloc, whole, "abc", false, &[true, true, false])?);
    let part = ("ab?", true);
    assert!(rt; accepts_so(alloc, part, "cabb", false, &[false, true, true, false])?);
    let many = read_pattern(rt.alloc(), "a{4097}")?;
    assert!(rt; Scan::new(rt.alloc(), &many, false)?.is_none());
    Ok(())
}

#[test]
fn accepts_after_many_steps(rt: HostRuntime) -> Result<(), Fail> {
    let pattern = read_pattern(rt.alloc(), "(ab)*")?;
    let mut scan = Scan::new(rt.alloc(), &pattern, false)?.ok_or("no scan")?;
    let mut tests = Tests::new();
    for _ in 0..100_000 {
        scan.step('a', &mut tests);
        scan.step('b', &mut tests);
    }
    assert!(rt; scan.accepts());
    Ok(())
}
