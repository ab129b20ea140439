//! Queries at the ends of the range of indexes, first faults, and the functions of both profiles.
//! Each other query is a row of jp_command's table.

use jp_check::Profile::{Extended, Standard};
use jp_check::{Checked, Function, Profile, check, read_filter, read_query};
use jp_query::{RefusalKind, parse};
use std::alloc::{AllocError, Global};
use std::process::Abort;
use std::test::Fail;

/// Queries of one index, as `Debug` writes them.
const LARGEST: &str = "Query { absolute: true, segments: [\
    Segment { descendant: false, selectors: [Index(Whole(9007199254740991))] }] }";

const SMALLEST: &str = "Query { absolute: true, segments: [\
    Segment { descendant: false, selectors: [Index(Whole(-9007199254740991))] }] }";

/// Asserts the tree of a query, and its profile.
fn assert_checked(
    rt: &impl Abort,
    alloc: Global,
    checked: &Checked,
    tree: &str,
    profile: Profile,
) -> Result<(), AllocError> {
    assert_eq!(rt; checked.profile(), profile);
    let query = checked.query();
    let written = format!(in alloc; "{query:?}")?;
    assert_eq!(rt; written.as_str(), tree);
    Ok(())
}

#[test]
fn a_query_without_faults_is_read(rt: HostRuntime) -> Result<(), Fail> {
    let read = read_query(rt.alloc(), "$[9007199254740991]", Standard)?;
    Ok(assert_checked(&rt, rt.alloc(), &read, LARGEST, Standard)?)
}

#[test]
fn a_query_without_faults_is_accepted(rt: HostRuntime) -> Result<(), Fail> {
    let parsed = parse(rt.alloc(), "$[-9007199254740991]")?;
    let checked = check(parsed, Extended)?;
    Ok(assert_checked(&rt, rt.alloc(), &checked, SMALLEST, Extended)?)
}

/// A kind of refusals and the byte that is refused, if one is.
type Refused = Option<(RefusalKind, usize)>;

/// How `read_query` refuses a text.
fn refused(alloc: Global, text: &str, profile: Profile) -> Refused {
    match read_query(alloc, text, profile) {
        Ok(_) => None,
        Err(refusal) => Some((refusal.kind, refusal.place)),
    }
}

#[test]
fn texts_are_refused_with_their_first_faults(rt: HostRuntime) {
    let count = refused(rt.alloc(), "$[?length()==1.5]", Standard);
    assert_eq!(rt; count, Some((RefusalKind::ArgumentCount, 3)));
    let fraction = refused(rt.alloc(), "$[?2.5==@.*]", Standard);
    assert_eq!(rt; fraction, Some((RefusalKind::NotWhole, 3)));
}

/// Queries with `distinct`, how `Extended` refuses them, and where `Standard` does, which does not know it.
const DISTINCT: &[(&str, Refused, usize)] = &[
    ("$[?count(distinct(@['a','a']))==1]", None, 9),
    ("$[?value(distinct(@['a','a']))==0]", None, 9),
    ("$[?count(distinct(@[*]))==2]", None, 9),
    ("$[?distinct(@.*)]", None, 3),
    ("$[?!distinct(distinct(@.a))]", None, 4),
    ("$[?distinct(@)==1]", Some((RefusalKind::IllTyped, 3)), 3),
    ("$[?distinct(1)]", Some((RefusalKind::IllTyped, 12)), 3),
    ("$[?distinct()]", Some((RefusalKind::ArgumentCount, 3)), 3),
    (
        "$[?length(distinct(@))==1]",
        Some((RefusalKind::IllTyped, 10)),
        10,
    ),
    (
        "$[?match(distinct(@),'a')]",
        Some((RefusalKind::IllTyped, 9)),
        9,
    ),
    (
        "$[?count(distinct(value(@.a)))==1]",
        Some((RefusalKind::IllTyped, 18)),
        9,
    ),
    (
        "$[?count(distinct(foo(1)))==1]",
        Some((RefusalKind::UnknownFunction, 18)),
        9,
    ),
];

#[test]
fn distinct_is_a_function_of_extended(rt: HostRuntime) {
    for (text, extended, unknown_at) in DISTINCT {
        let unknown = Some((RefusalKind::UnknownFunction, *unknown_at));
        assert_eq!(rt; refused(rt.alloc(), text, Extended), *extended, "{text}");
        assert_eq!(rt; refused(rt.alloc(), text, Standard), unknown, "{text}");
    }
    let value = "$[?value(@['a','a'])==0]";
    assert_eq!(rt; refused(rt.alloc(), value, Standard), None);
    assert_eq!(rt; refused(rt.alloc(), value, Extended), None);
}

/// Names, and the functions of both profiles that have them.
const FUNCTIONS: &[(&str, Option<Function>)] = &[
    ("length", Some(Function::Length)),
    ("count", Some(Function::Count)),
    ("match", Some(Function::Match)),
    ("search", Some(Function::Search)),
    ("value", Some(Function::ValueOf)),
    ("", None),
    ("Length", None),
    ("counts", None),
    ("Distinct", None),
];

#[test]
fn functions_are_known_by_their_names(rt: HostRuntime) {
    for (name, function) in FUNCTIONS {
        assert!(rt; Standard.function_named(name) == *function, "{name:?}");
        assert!(rt; Extended.function_named(name) == *function, "{name:?}");
    }
    assert!(rt; Standard.function_named("distinct") == None);
    assert!(rt; Extended.function_named("distinct") == Some(Function::Distinct));
}

#[test]
fn expressions_of_filters_are_read_alone(rt: HostRuntime) -> Result<(), Fail> {
    let filter = read_filter(rt.alloc(), " @.a == 1 || $.b ", Extended)?;
    assert_eq!(rt; filter.profile(), Extended);
    let expr = filter.expr();
    let written = format!(in rt.alloc(); "{expr:?}")?;
    assert!(rt; written.starts_with("AnyOf([Compare"));
    Ok(())
}

/// Expressions of filters, and how they are refused.
const REFUSED_FILTERS: &[(&str, RefusalKind, usize)] = &[
    ("@.a, @.b", RefusalKind::Syntax, 3),
    ("@.a == 1.5", RefusalKind::NotWhole, 7),
    ("@.* == 1", RefusalKind::NotSingular, 0),
    ("@.a && distinct(@)", RefusalKind::UnknownFunction, 7),
];

/// How `read_filter` refuses a text.
fn refused_filter(alloc: Global, text: &str) -> Refused {
    match read_filter(alloc, text, Standard) {
        Ok(_) => None,
        Err(refusal) => Some((refusal.kind, refusal.place)),
    }
}

#[test]
fn expressions_of_filters_are_refused(rt: HostRuntime) {
    for (text, kind, place) in REFUSED_FILTERS {
        let wanted = Some((*kind, *place));
        assert_eq!(rt; refused_filter(rt.alloc(), text), wanted, "{text}");
    }
}

/// Queries; whether an absolute query in a filter is answered once, and whether a query in one may come to a
/// value by several ways.
const NEEDS: &[(&str, bool, bool)] = &[
    ("$..a..b", false, false),
    ("$[?@.a]", false, false),
    ("$[?@..a]", false, false),
    ("$[?$.a[0]]", false, false),
    ("$[?$.a[-1]]", true, false),
    ("$[?@.a==$.b[-1]]", false, false),
    ("$[?!(@.a&&$..b)]", true, false),
    ("$[?@.a==value($..b)]", true, false),
    ("$[?count($[*][*])>length(@.a)]", true, false),
    ("$[?@.*.*]", false, false),
    ("$[?@..a..b]", false, true),
    ("$[?@.a||@['a','b']['c','d']]", false, true),
    ("$[?1<count(@..a[0,0])]", false, true),
    ("$..a[?@.b[?$.*[?@.*..a..b]]]", true, true),
];

/// Asserts the needs of a query.
fn assert_needs(
    rt: &impl Abort,
    alloc: Global,
    text: &str,
    wanted: (bool, bool),
) -> Result<(), Fail> {
    let query = read_query(alloc, text, Standard)?;
    let needs = query.needs();
    assert_eq!(rt; (needs.answers, needs.ways), wanted, "{text}");
    Ok(())
}

#[test]
fn needs_of_queries(rt: HostRuntime) -> Result<(), Fail> {
    for (text, answers, ways) in NEEDS {
        assert_needs(&rt, rt.alloc(), text, (*answers, *ways))?;
    }
    Ok(())
}

#[test]
fn needs_of_filters(rt: HostRuntime) -> Result<(), Fail> {
    let one_way = read_filter(rt.alloc(), "@.a..b", Standard)?;
    assert!(rt; !one_way.needs().ways);
    let ways = read_filter(rt.alloc(), "@..a..b", Standard)?;
    assert!(rt; ways.needs().ways);
    Ok(())
}
