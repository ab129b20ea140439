//! Queries with decimals: what they are accepted as, their canonical texts, and what they select. The
//! expected values are those of arithmetic, the layout is that of RFC 8785 section 3.2.2.3.

use jp_canon::canon;
use jp_check::Profile::{Decimal, Extended, ExtendedDecimal, Standard};
use jp_check::{Function, Profile, read_query};
use jp_decimal::Numbers;
use jp_document::path_text;
use jp_evaluate::evaluate;
use jp_explain::{Reason, Surroundings, explain};
use jp_held::Document;
use jp_match::Marks;
use jp_query::{Refusal, RefusalKind};
use std::alloc::Global;
use std::process::Abort;
use std::test::Fail;

#[test]
fn profiles_have_functions_and_numbers(rt: HostRuntime) {
    for (profile, numbers, distinct) in [
        (Standard, Numbers::Whole, None),
        (Extended, Numbers::Whole, Some(Function::Distinct)),
        (Decimal, Numbers::Decimal, None),
        (ExtendedDecimal, Numbers::Decimal, Some(Function::Distinct)),
    ] {
        assert_eq!(rt; profile.numbers(), numbers);
        assert!(rt; profile.function_named("distinct") == distinct);
        assert!(rt; profile.function_named("count") == Some(Function::Count));
    }
}

/// Literals and their canonical texts.
const LITERALS: [(&str, &str); 38] = [
    ("8.95", "8.95"),
    ("1.0", "1.0"),
    ("1.50", "1.5"),
    ("1e2", "100.0"),
    ("1E+2", "100.0"),
    ("1e-2", "0.01"),
    ("0.10", "0.1"),
    ("-0.0", "0.0"),
    ("-0", "0"),
    ("0e999999999999", "0.0"),
    ("-0.10e1", "-1.0"),
    ("-12.5e-1", "-1.25"),
    ("1e400", "1e+400"),
    ("-1.5e400", "-1.5e+400"),
    ("1e20", "100000000000000000000.0"),
    ("1e21", "1e+21"),
    ("0.000001", "0.000001"),
    ("0.0000001", "1e-7"),
    ("5e-324", "5e-324"),
    ("1e1000000", "1e+1000000"),
    ("1e-1000000", "1e-1000000"),
    ("10e-1000001", "1e-1000000"),
    ("100e999998", "1e+1000000"),
    ("18446744073709551615", "18446744073709551615"),
    ("18446744073709551615.0", "18446744073709551615.0"),
    ("18446744073709551616", "18446744073709551616"),
    ("18446744073709551616.0", "18446744073709551616.0"),
    ("1.8446744073709551616e19", "18446744073709551616.0"),
    ("-9223372036854775808", "-9223372036854775808"),
    ("-9223372036854775809", "-9223372036854775809"),
    ("9007199254740993.5", "9007199254740993.5"),
    ("100000000000000000000000", "100000000000000000000000"),
    ("-1230000000000000000000000", "-1230000000000000000000000"),
    (
        "99999999999999999999999999999999999999",
        "99999999999999999999999999999999999999",
    ),
    (
        "999999999999999999999999999999999999990",
        "999999999999999999999999999999999999990",
    ),
    (
        "0.99999999999999999999999999999999999999",
        "0.99999999999999999999999999999999999999",
    ),
    (
        "9999999999999999999999999999999999999.9",
        "9.9999999999999999999999999999999999999e+36",
    ),
    ("899e-2", "8.99"),
];

#[test]
fn literals_have_one_canonical_text(rt: HostRuntime) -> Result<(), Fail> {
    let alloc = rt.alloc();
    for (literal, canonical) in LITERALS {
        let text = format!(in alloc; "$[? @<{literal} ]")?;
        let wanted = format!(in alloc; "$[?@<{canonical}]")?;
        for profile in [Decimal, ExtendedDecimal] {
            let query = read_query(alloc, text.as_str(), profile)
                .ok()
                .ok_or("refused")?;
            let written = canon(alloc, &query)?;
            assert_eq!(rt; written.as_str(), wanted.as_str(), "{literal}");
            let again = read_query(alloc, written.as_str(), profile)
                .ok()
                .ok_or("refused")?;
            assert!(rt; again.query() == query.query(), "{literal}");
        }
    }
    Ok(())
}

#[test]
fn numbers_written_otherwise_are_other_queries(rt: HostRuntime) -> Result<(), Fail> {
    let alloc = rt.alloc();
    for (one, other, same) in [
        ("$[?@==1]", "$[?@==1.0]", false),
        ("$[?@==1.0]", "$[?@==1e0]", true),
        ("$[?@==0]", "$[?@==-0.0]", false),
        (
            "$[?@==18446744073709551616]",
            "$[?@==18446744073709551616.0]",
            false,
        ),
        ("$[?@==1e1]", "$[?@==100e-1]", true),
        ("$[?@==1.5]", "$[?@==-1.5]", false),
    ] {
        let left = read_query(alloc, one, Decimal).ok().ok_or("refused")?;
        let right = read_query(alloc, other, Decimal).ok().ok_or("refused")?;
        assert_eq!(rt; left.query() == right.query(), same, "{one} {other}");
    }
    Ok(())
}

/// Queries, and how they are refused over whole numbers and over decimals.
const REFUSED: [(&str, Option<RefusalKind>, Option<RefusalKind>, usize); 16] = [
    ("$[?@<8.95]", Some(RefusalKind::NotWhole), None, 5),
    ("$[?@<1e2]", Some(RefusalKind::NotWhole), None, 5),
    ("$[?1.0==@]", Some(RefusalKind::NotWhole), None, 3),
    (
        "$[?@<18446744073709551616]",
        Some(RefusalKind::NumberRange),
        None,
        5,
    ),
    (
        "$[?@>-9223372036854775809]",
        Some(RefusalKind::NumberRange),
        None,
        5,
    ),
    (
        "$[?@<100000000000000000000000000000000000001]",
        Some(RefusalKind::NumberRange),
        Some(RefusalKind::NumberRange),
        5,
    ),
    (
        "$[?@<1.00000000000000000000000000000000000001]",
        Some(RefusalKind::NotWhole),
        Some(RefusalKind::NumberRange),
        5,
    ),
    (
        "$[?@<1e1000001]",
        Some(RefusalKind::NotWhole),
        Some(RefusalKind::NumberRange),
        5,
    ),
    (
        "$[?@<1e1000037]",
        Some(RefusalKind::NotWhole),
        Some(RefusalKind::NumberRange),
        5,
    ),
    (
        "$[?@<1e-1000001]",
        Some(RefusalKind::NotWhole),
        Some(RefusalKind::NumberRange),
        5,
    ),
    (
        "$[?@<1e999999999999999999999]",
        Some(RefusalKind::NotWhole),
        Some(RefusalKind::NumberRange),
        5,
    ),
    (
        "$[1.0]",
        Some(RefusalKind::Syntax),
        Some(RefusalKind::Syntax),
        3,
    ),
    (
        "$[?@<1.]",
        Some(RefusalKind::Syntax),
        Some(RefusalKind::Syntax),
        7,
    ),
    (
        "$[?@<01]",
        Some(RefusalKind::Syntax),
        Some(RefusalKind::Syntax),
        6,
    ),
    (
        "$[?@<1e]",
        Some(RefusalKind::Syntax),
        Some(RefusalKind::Syntax),
        7,
    ),
    (
        "$[9007199254740992]",
        Some(RefusalKind::IndexRange),
        Some(RefusalKind::IndexRange),
        2,
    ),
];

#[test]
fn numbers_are_refused_by_profile(rt: HostRuntime) {
    for (text, whole, decimal, place) in REFUSED {
        for profile in [Standard, Extended] {
            assert_refused(&rt, rt.alloc(), text, profile, whole, place);
        }
        for profile in [Decimal, ExtendedDecimal] {
            assert_refused(&rt, rt.alloc(), text, profile, decimal, place);
        }
    }
}

fn assert_refused(
    rt: &impl Abort,
    alloc: Global,
    text: &str,
    profile: Profile,
    kind: Option<RefusalKind>,
    place: usize,
) {
    let found = match read_query(alloc, text, profile) {
        Ok(_) => None,
        Err(refusal) => Some((refusal.kind, refusal.place)),
    };
    let wanted = kind.map(|kind| (kind, place));
    assert_eq!(rt; found, wanted, "{text} {profile:?}");
}

#[test]
fn decimals_out_of_range_are_explained(rt: HostRuntime) -> Result<(), Fail> {
    let refusal = Refusal {
        kind: RefusalKind::NumberRange,
        place: 5,
    };
    for (profile, reason) in [
        (Standard, Reason::NumberRange),
        (Extended, Reason::NumberRange),
        (Decimal, Reason::DecimalRange),
        (ExtendedDecimal, Reason::DecimalRange),
    ] {
        let told = explain(
            rt.alloc(),
            "$[?@<1e1000001]",
            profile,
            refusal,
            Surroundings::Shell,
        )?;
        assert!(rt; told.reason == reason);
    }
    Ok(())
}

/// Documents, queries, and the paths of their nodes.
const SELECTED: [(&[u8], &str, &str); 10] = [
    (b"[8,9,10]", "$[?@<8.95]", "$[0]"),
    (b"[1,2]", "$[?@==1.0]", "$[0]"),
    (b"[99,100,101]", "$[?@==1e2]", "$[1]"),
    (b"[-1,0,1]", "$[?@==-0.0]", "$[1]"),
    (b"[-2,-1]", "$[?@<-1.5]", "$[0]"),
    (b"[9007199254740993]", "$[?@<9007199254740993.5]", "$[0]"),
    (b"[9007199254740994]", "$[?@<9007199254740993.5]", ""),
    (
        b"[18446744073709551615]",
        "$[?@<18446744073709551616]",
        "$[0]",
    ),
    (
        b"[18446744073709551615]",
        "$[?@==1.8446744073709551616e19]",
        "",
    ),
    (b"[[0]]", "$[?@.a<=0.1||0.1<0.10]", ""),
];

#[test]
fn decimals_compare_by_their_values(rt: HostRuntime) -> Result<(), Fail> {
    let alloc = rt.alloc();
    for (document, query, path) in SELECTED {
        let document = Document::read(alloc, document)?;
        let read = read_query(alloc, query, Decimal).ok().ok_or("refused")?;
        let mut paths = String::new(alloc);
        for node in &evaluate(alloc, &document, &read, &Marks)? {
            paths.push_str(path_text(alloc, node.location())?.as_str())?;
        }
        assert_eq!(rt; paths.as_str(), path, "{query}");
    }
    Ok(())
}
