//! Segments and selectors but for filters: their trees, and the spans of their components.

use super::{Row, assert_trees};
use jp_query::Span;
use std::test::Fail;

const SELECTORS: [Row; 3] = [
    (
        "$.é ['j\\u0020j'] [ \"'\" ]\t[ -20 ]",
        "Query { absolute: true, segments: [\
            Segment { descendant: false, selectors: [Name(\"é\")] }, \
            Segment { descendant: false, selectors: [Name(\"j j\")] }, \
            Segment { descendant: false, selectors: [Name(\"'\")] }, \
            Segment { descendant: false, selectors: [Index(Whole(-20))] }] }",
        &[Some(Span { start: 28, end: 31 })],
    ),
    (
        "$.*..a..*..[ * , 'b',-1 ]",
        "Query { absolute: true, segments: [\
            Segment { descendant: false, selectors: [Wildcard] }, \
            Segment { descendant: true, selectors: [Name(\"a\")] }, \
            Segment { descendant: true, selectors: [Wildcard] }, \
            Segment { descendant: true, selectors: [Wildcard, Name(\"b\"), Index(Whole(-1))] }] }",
        &[Some(Span { start: 21, end: 23 })],
    ),
    (
        "$[1 : -2][::3]",
        "Query { absolute: true, segments: [\
            Segment { descendant: false, selectors: [Slice(Slice { \
                start: Some(Whole(1)), end: Some(Whole(-2)), step: Whole(1) })] }, \
            Segment { descendant: false, selectors: [Slice(Slice { \
                start: None, end: None, step: Whole(3) })] }] }",
        &[
            Some(Span { start: 2, end: 3 }),
            Some(Span { start: 6, end: 8 }),
            None,
            Some(Span { start: 12, end: 13 }),
        ],
    ),
];

#[test]
fn selectors_are_read(rt: HostRuntime) -> Result<(), Fail> {
    assert_trees(&rt, rt.alloc(), &SELECTORS)
}

// The ends of the range of whole numbers, and what is beyond them.
const NUMBERS: [Row; 5] = [
    (
        "$[0]",
        "Query { absolute: true, segments: [\
            Segment { descendant: false, selectors: [Index(Whole(0))] }] }",
        &[Some(Span { start: 2, end: 3 })],
    ),
    (
        "$[18446744073709551615]",
        "Query { absolute: true, segments: [\
            Segment { descendant: false, selectors: [Index(Whole(18446744073709551615))] }] }",
        &[Some(Span { start: 2, end: 22 })],
    ),
    (
        "$[18446744073709551616]",
        "Query { absolute: true, segments: [\
            Segment { descendant: false, selectors: [Index(Beyond(None))] }] }",
        &[Some(Span { start: 2, end: 22 })],
    ),
    (
        "$[-9223372036854775808]",
        "Query { absolute: true, segments: [\
            Segment { descendant: false, selectors: [Index(Whole(-9223372036854775808))] }] }",
        &[Some(Span { start: 2, end: 22 })],
    ),
    (
        "$[-9223372036854775809]",
        "Query { absolute: true, segments: [\
            Segment { descendant: false, selectors: [Index(Beyond(None))] }] }",
        &[Some(Span { start: 2, end: 22 })],
    ),
];

#[test]
fn whole_numbers_have_their_range(rt: HostRuntime) -> Result<(), Fail> {
    assert_trees(&rt, rt.alloc(), &NUMBERS)
}
