//! The texts of filters' expressions alone: trees and spans, and the places of refusals.

use crate::nested::nested;
use jp_query::{RefusalKind, Span, parse_filter};
use jp_tree::Expr;
use std::alloc::{AllocError, Global};
use std::process::Abort;
use std::test::Fail;

const SPANS: &[Option<Span>] = &[
    Some(Span { start: 1, end: 4 }),
    Some(Span { start: 8, end: 9 }),
];

const TREE: &str = "Compare { left: Query(Query { absolute: false, segments: [\
    Segment { descendant: false, selectors: [Name(\"a\")] }] }), \
    op: Equal, right: Literal(Number(Whole(1))) }";

/// Asserts that an expression is the tree.
fn assert_tree(rt: &impl Abort, alloc: Global, expr: &Expr) -> Result<(), AllocError> {
    let written = format!(in alloc; "{expr:?}")?;
    assert_eq!(rt; written.as_str(), TREE);
    Ok(())
}

#[test]
fn an_expression_is_read_with_blanks_around_it(rt: HostRuntime) -> Result<(), Fail> {
    let parsed = parse_filter(rt.alloc(), "\t@.a == 1 \n")?;
    assert_eq!(rt; parsed.spans(), SPANS);
    assert_tree(&rt, rt.alloc(), parsed.expr())?;
    Ok(assert_tree(&rt, rt.alloc(), &parsed.into_expr())?)
}

/// Texts that are refused as `Syntax`, and the byte at which they are.
const REFUSED: &[(&str, usize)] = &[
    ("", 0),
    (" \t", 2),
    ("@.a ==", 6),
    ("@.a, ?@.b", 3),
    ("@.a][0", 3),
    ("@.a]", 3),
    ("$[?@.a]]", 7),
    ("?@.a", 0),
    ("1", 1),
    ("@.a && ", 7),
    ("@.é & 1", 6),
    ("(@.a))", 5),
    ("@.a == 1 == 2", 9),
];

/// The kind in which a text is refused and the byte at which it is, if it is.
fn refused(alloc: Global, text: &str) -> Option<(RefusalKind, usize)> {
    match parse_filter(alloc, text) {
        Ok(_) => None,
        Err(refusal) => Some((refusal.kind, refusal.place)),
    }
}

#[test]
fn other_texts_are_refused_at_their_places(rt: HostRuntime) {
    for (text, place) in REFUSED {
        let wanted = Some((RefusalKind::Syntax, *place));
        assert_eq!(rt; refused(rt.alloc(), text), wanted, "{text}");
    }
}

#[test]
fn a_128th_level_is_refused(rt: HostRuntime) -> Result<(), Fail> {
    let deepest = nested(rt.alloc(), ("(", "@", ")"), 127)?;
    assert_eq!(rt; refused(rt.alloc(), deepest.as_str()), None);
    let deeper = nested(rt.alloc(), ("(", "@", ")"), 128)?;
    let too_deep = Some((RefusalKind::TooDeep, 127));
    assert_eq!(rt; refused(rt.alloc(), deeper.as_str()), too_deep);
    Ok(())
}
