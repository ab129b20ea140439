//! Texts that are no expressions of `keep`, and what is told of them.

use super::devices::Narrow;
use super::programs::{assert_ends, status_over};
use super::refusals::{Refused, told, too_long};
use jp_explain::Reason;
use std::alloc::{AllocError, Global};
use std::process::Abort;
use std::test::Fail;

const REFUSED: &[Refused] = &[
    ("", "Syntax at 0", 0, Reason::WantsTest, ""),
    ("@.a ==", "Syntax at 6", 6, Reason::WantsValue, ""),
    ("@.a &&", "Syntax at 6", 6, Reason::WantsTest, ""),
    ("@.a, @.b", "Syntax at 3", 3, Reason::Unexpected, ""),
    ("@.a][0", "Syntax at 3", 3, Reason::Unexpected, ""),
    (" $.a = 1", "Syntax at 6", 6, Reason::Equals, " $.a == 1"),
    ("'a'", "Syntax at 3", 3, Reason::LoneLiteral, ""),
    ("true", "Syntax at 4", 4, Reason::LoneLiteral, ""),
    ("records.jsonl", "Syntax at 7", 7, Reason::FileFirst, ""),
    ("./records.json", "Syntax at 0", 0, Reason::FileFirst, ""),
    ("@property", "Syntax at 1", 1, Reason::OwnName, ""),
    (
        "@.a == 1e1000001",
        "NumberRange at 7",
        7,
        Reason::DecimalRange,
        "",
    ),
    (
        "@[9007199254740992]",
        "IndexRange at 2",
        2,
        Reason::IndexRange,
        "",
    ),
    (
        "@.a == 1 || foo(@)",
        "UnknownFunction at 12",
        12,
        Reason::UnknownFunction,
        "",
    ),
    (
        "count(@.a, @.b) > 1",
        "ArgumentCount at 0",
        0,
        Reason::ArgumentCount,
        "",
    ),
    ("@.* == 1", "NotSingular at 0", 0, Reason::NotSingular, ""),
    ("!length(@.a)", "IllTyped at 1", 1, Reason::ValueAlone, ""),
];

/// Slips of those who come from other languages, and how they are mended. What is suggested is an expression.
const MENDED: &[Refused] = &[
    ("@.a = 1", "Syntax at 5", 5, Reason::Equals, "@.a == 1"),
    (
        "@.a==1,000",
        "Syntax at 6",
        6,
        Reason::Thousands,
        "@.a==1000",
    ),
    (
        ".level == 1",
        "Syntax at 0",
        0,
        Reason::MissingAt,
        "@.level == 1",
    ),
    (
        "@.a and @.b=1",
        "Syntax at 4",
        4,
        Reason::And,
        "@.a && @.b==1",
    ),
    (
        "level == \"error\"",
        "Syntax at 5",
        5,
        Reason::MissingAt,
        "@.level == \"error\"",
    ),
    (
        "@.tags contains \"x\"",
        "Syntax at 7",
        7,
        Reason::Contains,
        "(search(@.tags, \"x\") || @.tags[?@ == \"x\"])",
    ),
    (
        "@.tags[name] == 1",
        "Syntax at 7",
        7,
        Reason::BracketName,
        "@.tags[\"name\"] == 1",
    ),
    (
        "(@.a == 1",
        "Syntax at 9",
        9,
        Reason::Unclosed,
        "(@.a == 1)",
    ),
    (
        "@.a == \"x",
        "Syntax at 9",
        9,
        Reason::Unclosed,
        "@.a == \"x\"",
    ),
    (
        "@.items[0",
        "Syntax at 9",
        9,
        Reason::Unclosed,
        "@.items[0]",
    ),
    ("@.a)", "Syntax at 3", 3, Reason::StrayParenthesis, "@.a"),
];

/// Asserts what is told of an expression, and that no input is read for it.
fn assert_told(
    rt: &impl Abort,
    alloc: Global,
    expression: &str,
    told: &str,
) -> Result<(), AllocError> {
    let line = ["jp-lines", "keep", expression, "none"];
    assert_ends(rt, alloc, &line, "", true, (1, "", told, 0))
}

#[test]
fn texts_that_are_no_expressions_are_explained(rt: HostRuntime) -> Result<(), Fail> {
    let alloc = rt.alloc();
    for rows in [REFUSED, MENDED] {
        for row in rows {
            let told = told(alloc, row.0, *row)?;
            assert_told(&rt, alloc, row.0, told.as_str())?;
        }
    }
    Ok(())
}

#[test]
fn suggestions_of_expressions_are_expressions(rt: HostRuntime) -> Result<(), Fail> {
    let alloc = rt.alloc();
    for (_, _, _, _, suggestion) in MENDED {
        let line = ["jp-lines", "keep", *suggestion];
        assert_ends(&rt, alloc, &line, "", false, (0, "", "", 1))?;
    }
    Ok(())
}

/// Expressions of which the line is not shown as it is, with that line.
const SHOWN: &[(Refused, &str)] = &[
    (
        ("@.a\t= 1", "Syntax at 5", 6, Reason::Equals, "@['a']==1"),
        "@.a\\t= 1",
    ),
    (
        ("@.a\n= 1", "Syntax at 5", 1, Reason::Equals, "@['a']==1"),
        "= 1",
    ),
    (
        (
            "@.größe = 1",
            "Syntax at 11",
            9,
            Reason::Equals,
            "@.größe == 1",
        ),
        "@.größe = 1",
    ),
];

#[test]
fn the_line_of_an_expression_is_shown_as_that_of_a_query(rt: HostRuntime) -> Result<(), Fail> {
    let alloc = rt.alloc();
    for (row, line) in SHOWN {
        let told = told(alloc, line, *row)?;
        assert_told(&rt, alloc, row.0, told.as_str())?;
    }
    Ok(())
}

/// Expressions with a function that `--extended` alone lets them call, without that flag.
const DISTINCT: &[Refused] = &[
    (
        "distinct(@.*)",
        "UnknownFunction at 0",
        0,
        Reason::Distinct,
        "",
    ),
    ("distinct(@.*) and @.a", "Syntax at 14", 14, Reason::And, ""),
];

#[test]
fn expressions_are_explained_in_their_profile(rt: HostRuntime) -> Result<(), Fail> {
    let alloc = rt.alloc();
    for row in DISTINCT {
        let told = told(alloc, row.0, *row)?;
        assert_told(&rt, alloc, row.0, told.as_str())?;
    }
    let expression = "distinct(@.*) and @.a";
    let mended = "distinct(@.*) && @.a";
    let row = (expression, "Syntax at 14", 14, Reason::And, mended);
    let extended = told(alloc, expression, row)?;
    let line = ["jp-lines", "keep", "--extended", expression];
    assert_ends(&rt, alloc, &line, "", true, (1, "", extended.as_str(), 0))?;
    Ok(())
}

#[test]
fn deep_and_long_expressions_are_refused(rt: HostRuntime) -> Result<(), Fail> {
    let alloc = rt.alloc();
    let deep = "(".repeat(alloc, 128)?;
    let row = ("", "TooDeep at 127", 127, Reason::TooDeep, "");
    let too_deep = told(alloc, deep.as_str(), row)?;
    assert_told(&rt, alloc, deep.as_str(), too_deep.as_str())?;
    let long = "@".repeat(alloc, 1_048_577)?;
    let too_long = too_long(alloc)?;
    assert_told(&rt, alloc, long.as_str(), too_long.as_str())?;
    Ok(())
}

#[test]
fn nothing_of_an_explanation_follows_a_write_that_failed(
    rt: HostRuntime,
) -> Result<(), AllocError> {
    let told = told(rt.alloc(), "@.a = 1", MENDED[0])?;
    for room in 0..told.len() {
        let mut faults = Narrow::new(rt.alloc(), room);
        let ended = status_over(
            rt.alloc(),
            &["jp-lines", "keep", "@.a = 1"],
            b"1\n".as_slice(),
            &mut Narrow::new(rt.alloc(), usize::MAX),
            &mut faults,
        )?;
        assert_eq!(rt;
            (ended, Some(faults.taken.as_slice())),
            (1, told.as_bytes().get(..room))
        );
    }
    Ok(())
}
