//! Texts that are refused, and the kinds of refusals.

use crate::nested::push_times;
use jp_query::{RefusalKind, parse};
use std::alloc::Global;
use std::test::Fail;

/// The kind in which a text is refused and the byte at which it is, if it is.
fn refused(alloc: Global, text: &str) -> Option<(RefusalKind, usize)> {
    match parse(alloc, text) {
        Ok(_) => None,
        Err(refusal) => Some((refusal.kind, refusal.place)),
    }
}

#[test]
fn texts_are_refused_at_their_places(rt: HostRuntime) {
    let at_one = refused(rt.alloc(), "$.é[0 1]");
    assert_eq!(rt; at_one, Some((RefusalKind::Syntax, 7)));
    let at_the_end = refused(rt.alloc(), "$.é[");
    assert_eq!(rt; at_the_end, Some((RefusalKind::Syntax, 5)));
}

/// A text, one that stands so often behind it, and how the whole is refused.
const LEVELS: &[(&str, &str, usize, RefusalKind, usize)] = &[
    ("$", "[?(@", 65, RefusalKind::TooDeep, 258),
    ("$[?", "(", 64, RefusalKind::Syntax, 67),
    ("$[?", "(", 100_000, RefusalKind::TooDeep, 130),
];

#[test]
fn a_129th_level_is_refused(rt: HostRuntime) -> Result<(), Fail> {
    let mut text = String::new(rt.alloc());
    for (start, level, count, kind, place) in LEVELS {
        text.clear();
        text.push_str(start)?;
        push_times(&mut text, level, *count)?;
        assert_eq!(rt; refused(rt.alloc(), text.as_str()), Some((*kind, *place)));
    }
    Ok(())
}

#[test]
fn kinds_have_numbers_and_names(rt: HostRuntime) {
    assert_eq!(rt; RefusalKind::Syntax.number(), 1);
    assert_eq!(rt; RefusalKind::TextTooLong.number(), 11);
    assert_eq!(rt; RefusalKind::IndexRange.name(), "IndexRange");
}

#[test]
fn a_refusal_tells_its_kind_and_place(rt: HostRuntime) -> Result<(), Fail> {
    let refusal = parse(rt.alloc(), "$.a[01]").err().ok_or("a query")?;
    let told = format!(in rt.alloc(); "{refusal}")?;
    assert_eq!(rt; told.as_str(), "Syntax at 5");
    Ok(())
}
