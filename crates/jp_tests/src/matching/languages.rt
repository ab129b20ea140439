//! Words of patterns, and texts that have one as a part.

use super::{answers, answers_counted};
use jp_iregexp::Pattern;
use std::alloc::{AllocError, Global};
use std::process::Abort;
use std::test::Fail;

// A pattern, a text, whether the whole text is in its language, and whether some part of it is.
const ROWS: [(&str, &str, bool, bool); 40] = [
    ("", "", true, true),
    ("", "a", false, true),
    ("^a$", "a", false, false),
    ("^a$", "^a$", true, true),
    (".", "\n", false, false),
    (".", "é", true, true),
    (r"\p{Lu}+\P{L}", "AB5", true, true),
    (r"\p{Lu}+\P{L}", "aB5", false, true),
    ("(a*)*", "aab", false, true),
    ("a{2,3}", "aaaa", false, true),
    ("a{0}", "a", false, true),
    ("(){3}b", "b", true, true),
    ("[a-c-]+", "a-c", true, true),
    ("(a|ab)(c|bcd)", "abcd", true, true),
    ("a|b|", "", true, true),
    ("a|b|", "ab", false, true),
    ("a{2,}", "a", false, false),
    ("a{2,}", "aaaaa", true, true),
    ("a{2,}b", "aab", true, true),
    ("(a?){999999999}", "aaa", true, true),
    ("(a|aa){999999999}", "aaaa", false, false),
    ("(()|a){2,3}", "aaa", true, true),
    ("(()|a){2,3}", "aaaa", false, true),
    ("((){999999999}){999999999}", "", true, true),
    ("x{999999999}|b", "b", true, true),
    ("((a{0,99999}b?){0,99999}c?){0,99999}d", "abcad", true, true),
    ("(a{0,99999}b){2,99999}", "aabab", true, true),
    ("(a{0,99999}b){2,99999}", "aab", false, false),
    ("(a{5000}|b){3,}c", "bbbc", true, true),
    ("a{5000,}|a{3,9000}", "aaa", true, true),
    ("(a|b)*c", "abab", false, false),
    ("(ab|c)*", "abcab", true, true),
    ("a{2,4}", "a", false, false),
    ("a{2,4}", "aaaaa", false, true),
    ("(a?){2,4}", "aaaa", true, true),
    ("(a?){2,4}", "aaaaa", false, true),
    ("b(a?){2}b", "bb", true, true),
    ("b(a?){2}b", "baaab", false, false),
    ("[ab]{3}c{0,2}", "abac", true, true),
    ("[ab]{3}c{0,2}", "abcc", false, false),
];

/// Asserts whether a text, and whether some part of it, matches the pattern that another spells.
fn assert_answers(
    rt: &impl Abort,
    alloc: Global,
    (pattern, text): (&str, &str),
    expected: (bool, bool),
) -> Result<(), Fail> {
    let answers = answers_counted(alloc, pattern, text)?;
    assert_eq!(rt; answers, Some(expected), "{pattern} {text}");
    Ok(())
}

#[test]
fn answers_each_row(rt: HostRuntime) -> Result<(), Fail> {
    for (pattern, text, whole, part) in &ROWS {
        assert_answers(&rt, rt.alloc(), (pattern, text), (*whole, *part))?;
    }
    Ok(())
}

// The same for patterns of a few words, and for some that only look so.
const WORDS: [(&str, &str, bool, bool); 28] = [
    ("timeout|refused", "timeout", true, true),
    ("timeout|refused", "connection refused", false, true),
    ("timeout|refused", "a timeout of it", false, true),
    ("timeout|refused", "time out, refuse", false, false),
    ("timeout|refused", "", false, false),
    ("refused", "refuse", false, false),
    ("aab", "aaab", false, true),
    ("aab", "aaaba", false, true),
    ("abab", "abaabab", false, true),
    ("abab", "abaabaab", false, false),
    ("b", "aba", false, true),
    ("b", "b", true, true),
    ("a|ab|abc", "abc", true, true),
    ("abc|ab|a", "ab", true, true),
    ("abcd|bc", "abce", false, true),
    ("a|b|", "", true, true),
    ("a|b|", "c", false, true),
    ("é", "aéb", false, true),
    ("é", "ã©", false, false),
    ("aé|ü", "éaüé", false, true),
    ("ab", "éabé", false, true),
    ("ab", "aéb", false, false),
    ("©", "é", false, false),
    ("😀a", "a😀a", false, true),
    ("[ab]c|d", "xbc", false, true),
    ("[^a]|bc", "ab", false, true),
    ("[a-a]b", "cab", false, true),
    ("a|b|c|d|e|f|g|h|i|j|k|l|m|n|o|p|q", "xq", false, true),
];

#[test]
fn answers_patterns_of_a_few_words(rt: HostRuntime) -> Result<(), Fail> {
    for (pattern, text, whole, part) in &WORDS {
        assert_answers(&rt, rt.alloc(), (pattern, text), (*whole, *part))?;
    }
    Ok(())
}

// The same for patterns whose words all have one number of characters, and for some that only look
// so.
const ONE_WIDTH: [(&str, &str, bool, bool); 54] = [
    (
        "[0-9]{4}-(0[1-9]|1[0-2])-[0-3][0-9]",
        "2026-11-28",
        true,
        true,
    ),
    (
        "[0-9]{4}-(0[1-9]|1[0-2])-[0-3][0-9]",
        "2026-01-28",
        true,
        true,
    ),
    (
        "[0-9]{4}-(0[1-9]|1[0-2])-[0-3][0-9]",
        "2026-13-28",
        false,
        false,
    ),
    (
        "[0-9]{4}-(0[1-9]|1[0-2])-[0-3][0-9]",
        "2026-11-2",
        false,
        false,
    ),
    (
        "[0-9]{4}-(0[1-9]|1[0-2])-[0-3][0-9]",
        "2026-11-280",
        false,
        true,
    ),
    ("[0-9]{4}-(0[1-9]|1[0-2])-[0-3][0-9]", "", false, false),
    (
        "[0-9a-f]{8}(-[0-9a-f]{4}){3}-[0-9a-f]{3}",
        "01234567-89ab-cdef-0123-45a",
        true,
        true,
    ),
    (
        "[0-9a-f]{8}(-[0-9a-f]{4}){3}-[0-9a-f]{3}",
        "01234567-89ab-cdef-012g-45a",
        false,
        false,
    ),
    (
        "[0-9a-f]{8}(-[0-9a-f]{4}){3}-[0-9a-f]{3}",
        "01234567-89ab-cdef-45a",
        false,
        false,
    ),
    ("([ab]b|cd|ef)g", "efg", true, true),
    ("([ab]b|cd)x", "cdx", true, true),
    ("([ab]b|ac)d", "acd", true, true),
    ("([ab]b|ac)d", "abe", false, false),
    ("[ab]c|ad|[b-e]f", "ef", true, true),
    ("[ab]c|ad|[b-e]f", "bd", false, false),
    ("(ab|ba){3}", "abbaab", true, true),
    ("(ab|ba){3}", "abbaa", false, false),
    ("(ab|ba){3}", "abbaabb", false, true),
    ("(ab|ba){3,3}", "bababa", true, true),
    ("(a[0-9]){0}", "", true, true),
    ("(a[0-9]){0}", "a", false, true),
    ("(a{2}){2}", "aaaa", true, true),
    ("(a{2}){2}", "aaa", false, false),
    ("(a{2}){2}", "aaaaa", false, true),
    ("(a{0}b){2}", "bb", true, true),
    ("(a{0}){2}b", "b", true, true),
    ("((a|b){2}|[cd][^e])f", "cgf", true, true),
    ("((a|b){2}|[cd][^e])f", "cef", false, false),
    ("[^0-9]{3}", "aé😀", true, true),
    ("[^0-9]{3}", "a1b", false, false),
    ("[à-ü]é{2}", "üéé", true, true),
    ("[à-ü]é{2}", "aéé", false, false),
    ("(é|😀).", "😀ü", true, true),
    ("(é|😀).", "é", false, false),
    ("..", "é", false, false),
    (".", "éé", false, true),
    (r"\p{Lu}{2}[0-9]", "ÄB1", true, true),
    (r"\p{Lu}{2}[0-9]", "Äb1", false, false),
    ("()", "", true, true),
    ("()", "a", false, true),
    ("()[ab]()", "b", true, true),
    ("()|[ab]", "b", true, true),
    ("[ab]|[ab]c", "bc", true, true),
    ("[ab]{2}|[ab]{3}", "aba", true, true),
    ("([ab]|[ab]c)d", "bcd", true, true),
    ("[ab]{1,2}c", "abc", true, true),
    ("[0-9]{4} ms", "served after 8032 ms", false, true),
    ("[0-9]{4} ms", "served after 803 ms, 8032 s", false, false),
    ("[ab]{2}c", "aaabc", false, true),
    ("[ab]{2}c", "aacb", false, true),
    ("(é|ü)[0-9]", "éüé7ü", false, true),
    ("(é|ü)[0-9]", "7éü", false, false),
    ("[ab]{65}c|[a-c]{66}", "ab", false, false),
    ("[^b]{2}", "babab", false, false),
];

#[test]
fn answers_patterns_of_one_width(rt: HostRuntime) -> Result<(), Fail> {
    for (pattern, text, whole, part) in &ONE_WIDTH {
        assert_answers(&rt, rt.alloc(), (pattern, text), (*whole, *part))?;
    }
    Ok(())
}

#[test]
fn answers_no_branch(rt: HostRuntime) -> Result<(), Fail> {
    let nothing = Pattern::Either(Vec::new(rt.alloc()));
    assert_eq!(rt; answers(rt.alloc(), &nothing, "")?, (false, false));
    Ok(())
}

/// The empty word, at least and at most so many times.
fn repeat(alloc: Global, least: u32, most: u32) -> Result<Pattern, AllocError> {
    let empty = Pattern::Sequence(Vec::new(alloc));
    Ok(Pattern::Repeat {
        inner: Box::new(alloc, empty).map_err(AllocError::from)?,
        least,
        most: Some(most),
    })
}

#[test]
fn answers_a_repeat_that_no_count_fits(rt: HostRuntime) -> Result<(), Fail> {
    let repeat = repeat(rt.alloc(), 3, 2)?;
    assert_eq!(rt; answers(rt.alloc(), &repeat, "")?, (false, false));
    Ok(())
}

#[test]
fn answers_on_ten_thousand_characters(rt: HostRuntime) -> Result<(), Fail> {
    let text = "aé".repeat(rt.alloc(), 5_000)?;
    for (pattern, whole, part) in [
        ("(a|é)*", true, true),
        ("(aé){5000}", true, true),
        ("(aé){4999}", false, true),
        ("éé", false, false),
        ("((a{0,99999}é?){0,99999}c?){0,99999}d", false, false),
    ] {
        assert_answers(&rt, rt.alloc(), (pattern, text.as_str()), (whole, part))?;
    }
    Ok(())
}
