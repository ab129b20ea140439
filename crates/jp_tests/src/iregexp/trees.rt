//! The trees that texts spell.

use jp_iregexp::read_pattern;
use std::alloc::Global;
use std::test::Fail;

// A pattern, and its tree as `Debug` writes it.
const TREES: &[(&str, &str)] = &[
    ("", "Either([Sequence([])])"),
    (
        "a|",
        "Either([\
            Sequence([Class(CharClass { negated: false, elements: [Range('a', 'a')] })]), \
            Sequence([])])",
    ),
    (
        "a",
        "Either([Sequence([Class(CharClass { negated: false, elements: [Range('a', 'a')] })])])",
    ),
    (
        "[a-]",
        "Either([Sequence([Class(CharClass { \
            negated: false, elements: [Range('a', 'a'), Range('-', '-')] })])])",
    ),
    (
        "[^^]",
        "Either([Sequence([Class(CharClass { negated: true, elements: [Range('^', '^')] })])])",
    ),
    (
        "a*",
        "Either([Sequence([Repeat { \
            inner: Class(CharClass { negated: false, elements: [Range('a', 'a')] }), \
            least: 0, most: None }])])",
    ),
    (
        "a+",
        "Either([Sequence([Repeat { \
            inner: Class(CharClass { negated: false, elements: [Range('a', 'a')] }), \
            least: 1, most: None }])])",
    ),
    (
        "a?",
        "Either([Sequence([Repeat { \
            inner: Class(CharClass { negated: false, elements: [Range('a', 'a')] }), \
            least: 0, most: Some(1) }])])",
    ),
    (
        "a{007}",
        "Either([Sequence([Repeat { \
            inner: Class(CharClass { negated: false, elements: [Range('a', 'a')] }), \
            least: 7, most: Some(7) }])])",
    ),
    (
        "a{2,}",
        "Either([Sequence([Repeat { \
            inner: Class(CharClass { negated: false, elements: [Range('a', 'a')] }), \
            least: 2, most: None }])])",
    ),
    (
        "a{2,3}",
        "Either([Sequence([Repeat { \
            inner: Class(CharClass { negated: false, elements: [Range('a', 'a')] }), \
            least: 2, most: Some(3) }])])",
    ),
];

/// The tree of a pattern as `Debug` writes it.
fn tree_of(alloc: Global, text: &str) -> Result<String, Fail> {
    let pattern = read_pattern(alloc, text)?;
    Ok(format!(in alloc; "{pattern:?}")?)
}

#[test]
fn gives_trees(rt: HostRuntime) -> Result<(), Fail> {
    for (text, tree) in TREES {
        let found = tree_of(rt.alloc(), text)?;
        assert_eq!(rt; found.as_str(), *tree, "{text}");
    }
    Ok(())
}
