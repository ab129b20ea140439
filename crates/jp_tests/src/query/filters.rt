//! Filters and functions in them: their trees, and the spans of their components.

use super::{Row, assert_trees};
use jp_query::{Span, parse};
use std::test::Fail;

const FILTER: Row = (
    "$[?!(@.a && $.b >= -0 || @ != 'x' && true == 1.5e+2)]",
    "Query { absolute: true, segments: [Segment { descendant: false, selectors: [\
        Filter(Not(AnyOf([\
            AllOf([\
                Test(Query(Query { absolute: false, segments: [\
                    Segment { descendant: false, selectors: [Name(\"a\")] }] })), \
                Compare { left: Query(Query { absolute: true, segments: [\
                    Segment { descendant: false, selectors: [Name(\"b\")] }] }), \
                    op: GreaterEqual, right: Literal(Number(Whole(0))) }]), \
            AllOf([\
                Compare { left: Query(Query { absolute: false, segments: [] }), \
                    op: Unequal, right: Literal(Text(\"x\")) }, \
                Compare { left: Literal(True), \
                    op: Equal, right: Literal(Number(Fraction(Some(Whole(150))))) }])])))] }] }",
    &[
        Some(Span { start: 5, end: 8 }),
        Some(Span { start: 12, end: 15 }),
        Some(Span { start: 19, end: 21 }),
        Some(Span { start: 25, end: 26 }),
        Some(Span { start: 30, end: 33 }),
        Some(Span { start: 37, end: 41 }),
        Some(Span { start: 45, end: 51 }),
    ],
);

#[test]
fn a_filter_is_read(rt: HostRuntime) -> Result<(), Fail> {
    assert_trees(&rt, rt.alloc(), &[FILTER])
}

#[test]
fn components_inside_components_have_spans(rt: HostRuntime) -> Result<(), Fail> {
    let text = "$[?@[?@.b==$[1]] , ?'1.5'==1.5]";
    let parsed = parse(rt.alloc(), text)?;
    let spans = [
        Some(Span { start: 3, end: 16 }),
        Some(Span { start: 6, end: 9 }),
        Some(Span { start: 11, end: 15 }),
        Some(Span { start: 13, end: 14 }),
        Some(Span { start: 20, end: 25 }),
        Some(Span { start: 27, end: 30 }),
    ];
    assert!(rt; parsed.query().absolute);
    assert_eq!(rt; parsed.spans(), spans.as_slice());
    Ok(())
}

#[test]
fn functions_and_their_arguments_have_spans(rt: HostRuntime) -> Result<(), Fail> {
    let text = "$[?length(@.a == 1) < match( $ , 'x', t_1( ), (@))]";
    let parsed = parse(rt.alloc(), text)?;
    let spans = [
        Some(Span { start: 3, end: 19 }),
        Some(Span { start: 10, end: 18 }),
        Some(Span { start: 10, end: 13 }),
        Some(Span { start: 17, end: 18 }),
        Some(Span { start: 22, end: 50 }),
        Some(Span { start: 29, end: 30 }),
        Some(Span { start: 33, end: 36 }),
        Some(Span { start: 38, end: 44 }),
        Some(Span { start: 46, end: 49 }),
        Some(Span { start: 47, end: 48 }),
    ];
    assert!(rt; parsed.query().absolute);
    assert_eq!(rt; parsed.spans(), spans.as_slice());
    Ok(())
}

#[test]
fn parentheses_are_kept_in_trees(rt: HostRuntime) -> Result<(), Fail> {
    let grouped = parse(rt.alloc(), "$[?(@.a||@.b)||@.c]")?;
    let flat = parse(rt.alloc(), "$[?@.a||@.b||@.c]")?;
    assert!(rt; grouped.into_query() != flat.into_query());
    Ok(())
}
