//! How many class tests an answer takes.

use jp_iregexp::read_pattern;
use jp_match::{CountedPattern, Marks, Matching, Tests};
use std::alloc::{AllocError, Global};
use std::process::Abort;
use std::test::Fail;

/// What a matcher answers, each with the number of its class tests.
fn counted_answers(
    alloc: Global,
    pattern: &str,
    text: &str,
) -> Result<((bool, u64), (bool, u64)), Fail> {
    let pattern = read_pattern(alloc, pattern)?;
    let mut of_whole = Tests::new();
    let whole = Marks.whole(alloc, &pattern, text, &mut of_whole)?;
    let mut of_part = Tests::new();
    let part = Marks.part(alloc, &pattern, text, &mut of_part)?;
    Ok(((whole, of_whole.count()), (part, of_part.count())))
}

#[test]
fn counts_class_tests(rt: HostRuntime) -> Result<(), Fail> {
    let answers = counted_answers(rt.alloc(), "a", "ba")?;
    assert_eq!(rt; answers, ((false, 1), (true, 2)));
    let answers = counted_answers(rt.alloc(), "()", "ba")?;
    assert_eq!(rt; answers, ((false, 0), (true, 0)));
    Ok(())
}

#[test]
fn counts_go_on_from_call_to_call(rt: HostRuntime) -> Result<(), Fail> {
    let pattern = read_pattern(rt.alloc(), "a")?;
    let mut tests = Tests::new();
    let whole = Marks.whole(rt.alloc(), &pattern, "ba", &mut tests)?;
    let part = Marks.part(rt.alloc(), &pattern, "ba", &mut tests)?;
    assert_eq!(rt; (whole, part, tests.count()), (false, true, 3));
    Ok(())
}

/// How many class tests it takes to answer whether the text is in the language of a pattern that was
/// counted before.
fn tests_of_whole(alloc: Global, pattern: &str, text: &str) -> Result<u64, Fail> {
    let pattern = CountedPattern::new(read_pattern(alloc, pattern)?);
    let mut tests = Tests::new();
    Marks.whole_counted(alloc, &pattern, text, &mut tests)?;
    Ok(tests.count())
}

#[test]
fn tests_no_class_again_where_words_have_one_width(rt: HostRuntime) -> Result<(), Fail> {
    for (text, count) in [("", 0), ("b2", 1), ("a2c", 3), ("a2d", 4), ("a2dd", 4)] {
        let made = tests_of_whole(rt.alloc(), "a[0-9](c|d)", text)?;
        assert_eq!(rt; made, count, "{text}");
    }
    Ok(())
}

/// Asserts what is answered, and that neither answer takes more class tests.
fn assert_within(
    rt: &impl Abort,
    alloc: Global,
    (pattern, text): (&str, &str),
    expected: (bool, bool),
    most: u64,
) -> Result<(), Fail> {
    let (whole, part) = counted_answers(alloc, pattern, text)?;
    assert_eq!(rt; (whole.0, part.0), expected, "{pattern}");
    assert!(rt; whole.1 <= most && part.1 <= most, "{pattern}");
    Ok(())
}

#[test]
fn tests_each_position_at_most_once_a_character(rt: HostRuntime) -> Result<(), Fail> {
    let many = "a".repeat(rt.alloc(), 10_000)?;
    let many = format!(in rt.alloc(); "{many}b")?;
    let long = "a".repeat(rt.alloc(), 4_096)?;
    let longer = "a".repeat(rt.alloc(), 4_097)?;
    for (pattern, text, whole, part, most) in [
        ("((a*)*)*", many.as_str(), false, true, 10_001),
        ("(a?){2,5}", "aaa", true, true, 15),
        ("a{0}", "a", false, true, 0),
        ("(){3}b", "b", true, true, 1),
        ("a{4096}", long.as_str(), true, true, 16_777_216),
        ("a{4097}", longer.as_str(), true, true, u64::MAX),
        ("(a{2,}b?){2}", "aabaa", true, true, 30),
        ("(a{2,}b?){2}", "aaba", false, false, 24),
    ] {
        assert_within(&rt, rt.alloc(), (pattern, text), (whole, part), most)?;
    }
    Ok(())
}

/// The first pattern in so many repeats, each of what is before it.
fn nested_repeats(alloc: Global, first: &str, depth: u32) -> Result<String, AllocError> {
    let mut pattern = String::new(alloc);
    pattern.push_str(first)?;
    for letter in ('b'..='z').take(depth as usize) {
        pattern = format!(in alloc; "({pattern}{letter}|a)*")?;
    }
    Ok(pattern)
}

#[test]
fn answers_repeats_in_repeats(rt: HostRuntime) -> Result<(), Fail> {
    let text = "a".repeat(rt.alloc(), 50)?;
    for first in ["a*", "(a|x{5000})*", "(a|x{5000}){0,40}"] {
        let pattern = nested_repeats(rt.alloc(), first, 10)?;
        let pattern = format!(in rt.alloc(); "x{{5000}}|{pattern}y")?;
        let row = (pattern.as_str(), text.as_str());
        assert_within(&rt, rt.alloc(), row, (false, false), 100_000)?;
    }
    Ok(())
}
