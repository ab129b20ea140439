//! What `--explain` adds to the report of a line that is refused.

use super::devices::{Narrow, Trickle};
use super::programs::{assert_ends, status_over};
use jp_check::Profile::Standard;
use jp_command::Device;
use jp_json::JsonReason;
use jp_limit::OutputLimit;
use jp_lines::{Options, Wanted, run_lines};
use std::alloc::{AllocError, Global};
use std::process::Abort;

/// A document, a blank line, a comma too many, a number that is not whole, an end too early before a
/// carriage return, and a document.
const LINES: &str = "{\"a\":1}\n\n{\"a\": [1,]}\n[1.5]\n{\"a\":\r\n{\"a\":2}";

/// What is told of the first of them that is refused.
fn told_of_first(alloc: Global) -> Result<String, AllocError> {
    let sentence = JsonReason::TrailingComma.sentence();
    format!(in alloc; "line 3: document refused: NotJson\nline 3, column 10: {sentence}\n")
}

/// What is told of all where numbers are whole.
fn told_of_all(alloc: Global) -> Result<String, AllocError> {
    let first = told_of_first(alloc)?;
    let second = JsonReason::HasFraction.sentence();
    let third = JsonReason::EndInObject.sentence();
    format!(in alloc;
        "{first}line 4: document refused: NotWhole at $[0]\nline 4, column 2, at $[0]: {second} \
        Without --whole jp-lines takes numbers of up to 38 digits exactly.\n\
        line 5: document refused: NotJson\nline 5, column 7: {third} \
        A document ends with its line: jp eval --decimals '$' writes it on one.\n"
    )
}

/// What is told of all without `--explain`.
const PLAIN: &str = "line 3: document refused: NotJson\n\
    line 4: document refused: NotWhole at $[0]\nline 5: document refused: NotJson\n";

#[test]
fn explains_lines_where_that_is_asked_for(rt: HostRuntime) -> Result<(), AllocError> {
    let first = told_of_first(rt.alloc())?;
    let all = told_of_all(rt.alloc())?;
    let runs: [(&[&str], &str, &str); 7] = [
        (
            &["jp-lines", "eval", "--explain", "$.a"],
            "1\n",
            first.as_str(),
        ),
        (
            &["jp-lines", "eval", "$..a", "--explain"],
            "1\n",
            first.as_str(),
        ),
        (
            &[
                "jp-lines",
                "eval",
                "--explain",
                "--whole",
                "--keep-going",
                "$.a",
            ],
            "1\n2\n",
            all.as_str(),
        ),
        (
            &[
                "jp-lines",
                "paths",
                "--keep-going",
                "--number",
                "--explain",
                "$..a",
                "--whole",
            ],
            "1\t$['a']\n6\t$['a']\n",
            all.as_str(),
        ),
        (
            &[
                "jp-lines",
                "count",
                "--explain",
                "--keep-going",
                "--limit",
                "9",
                "--whole",
                "$..a",
            ],
            "1\n1\n",
            all.as_str(),
        ),
        (
            &["jp-lines", "eval", "--keep-going", "--whole", "$.a"],
            "1\n2\n",
            PLAIN,
        ),
        (
            &["jp-lines", "eval", "$..a"],
            "1\n",
            "line 3: document refused: NotJson\n",
        ),
    ];
    for (line, written, told) in runs {
        assert_ends(&rt, rt.alloc(), line, LINES, false, (3, written, told, 1))?;
    }
    Ok(())
}

/// A line that is no document, the column, the reason, and what is said more, which begins with a space.
type OtherForm = (&'static str, &'static str, JsonReason, &'static str);

const OTHER_FORMS: &[OtherForm] = &[
    (
        "{\"a\":1} {\"a\":2}",
        "column 9",
        JsonReason::AfterValue,
        " Each line holds one document.",
    ),
    (
        "1,",
        "column 2",
        JsonReason::AfterValue,
        " Each line holds one document.",
    ),
    (
        "{",
        "column 2",
        JsonReason::EndInObject,
        " A document ends with its line: jp eval --decimals '$' writes it on one.",
    ),
    (
        "{\"a\":[1,",
        "column 9",
        JsonReason::EndInArray,
        " A document ends with its line: jp eval --decimals '$' writes it on one.",
    ),
    (
        "\u{1e}{\"a\":1}",
        "column 1",
        JsonReason::RecordSeparator,
        " tr -d '\\036' takes it away.",
    ),
    (
        "\u{1e}{\"a\":",
        "column 1",
        JsonReason::RecordSeparator,
        " tr -d '\\036' takes it away.",
    ),
    (
        " \u{1e}{}",
        "column 2",
        JsonReason::RecordSeparator,
        " tr -d '\\036' takes it away.",
    ),
    ("{\"a\":\u{a0}1}", "column 6", JsonReason::NoBreakSpace, ""),
    (
        "{\0\"\0a\0\"\0}\0",
        "column 2",
        JsonReason::NullCharacter,
        "",
    ),
    ("{\"a\":\u{1e}1}", "column 6", JsonReason::Unexpected, ""),
    ("@", "column 1", JsonReason::Unexpected, ""),
    ("\u{feff}{}", "column 1", JsonReason::ByteOrderMark, ""),
];

#[test]
fn tells_which_other_form_a_line_shows(rt: HostRuntime) -> Result<(), AllocError> {
    for row in OTHER_FORMS {
        let (line, column, reason, more) = *row;
        let sentence = reason.sentence();
        let why = format!(in rt.alloc(); "{column}: {sentence}{more}\n")?;
        for size in [1, 2, 3, 7, 100] {
            assert_second(&rt, rt.alloc(), line, why.as_str(), size)?;
        }
    }
    Ok(())
}

/// Asserts what is told of a line behind a document, where reads give so many bytes.
fn assert_second(
    rt: &impl Abort,
    alloc: Global,
    line: &str,
    why: &str,
    size: usize,
) -> Result<(), AllocError> {
    let options = Options {
        profile: Standard,
        numbered: false,
        keep_going: true,
        line_buffered: false,
        explaining: true,
        exit_status: false,
        summary: false,
        reports: Some(1),
        limit: None,
        output_limit: OutputLimit::none(),
    };
    let lines = format!(in alloc; "{{}}\n{line}\n{line}\n")?;
    let told = format!(in alloc; "line 2: document refused: NotJson\nline 2, {why}")?;
    let mut faults = Narrow::new(alloc, usize::MAX);
    let input = Trickle {
        bytes: lines.as_bytes(),
        size,
        fails: false,
    };
    let ended = run_lines(
        alloc,
        "$",
        Wanted::Count,
        options,
        &mut Device::new(input),
        &mut Device::new(Narrow::new(alloc, usize::MAX)),
        &mut Device::new(&mut faults),
    );
    assert!(rt; ended.is_ok());
    assert!(rt; faults.taken.as_slice() == told.as_bytes());
    Ok(())
}

#[test]
fn explains_no_line_that_is_a_document_or_too_large(rt: HostRuntime) -> Result<(), AllocError> {
    let alloc = rt.alloc();
    let limited = ["jp-lines", "eval", "--explain", "--limit", "1", "$..a"];
    let told = "line 1: document refused: StepsUsedUp\n";
    assert_ends(&rt, alloc, &limited, "[[]]\n", false, (3, "", told, 1))?;
    let eval = ["jp-lines", "eval", "--explain", "$"];
    let large = "[".repeat(alloc, 16_777_217)?;
    let told = "line 1: document refused: DocumentTooLarge\n";
    assert_whole(&rt, alloc, &eval, large.as_str(), told)
}

/// Asserts what is told of lines that come by large reads, of which nothing is written.
fn assert_whole(
    rt: &impl Abort,
    alloc: Global,
    line: &[&str],
    lines: &str,
    told: &str,
) -> Result<(), AllocError> {
    let mut faults = Narrow::new(alloc, usize::MAX);
    let ended = status_over(
        alloc,
        line,
        lines.as_bytes(),
        Narrow::new(alloc, 0),
        &mut faults,
    )?;
    assert_eq!(rt; (ended, faults.taken.as_slice()), (3, told.as_bytes()));
    Ok(())
}

#[test]
fn explains_lines_until_a_write_fails(rt: HostRuntime) -> Result<(), AllocError> {
    let going: [&str; 6] = [
        "jp-lines",
        "count",
        "--explain",
        "--keep-going",
        "--whole",
        "$.a",
    ];
    let stopping: [&str; 4] = ["jp-lines", "count", "--explain", "$.a"];
    let first = told_of_first(rt.alloc())?;
    let all = told_of_all(rt.alloc())?;
    assert_prefixes(&rt, rt.alloc(), &going, all.as_str())?;
    assert_prefixes(&rt, rt.alloc(), &stopping, first.as_str())
}

/// Asserts that of what is told as much is written as comes before a write that fails, and no more.
fn assert_prefixes(
    rt: &impl Abort,
    alloc: Global,
    line: &[&str],
    told: &str,
) -> Result<(), AllocError> {
    for room in 0..=told.len() {
        let mut faults = Narrow::new(alloc, room);
        let ended = status_over(
            alloc,
            line,
            LINES.as_bytes(),
            Narrow::new(alloc, usize::MAX),
            &mut faults,
        )?;
        assert_eq!(rt;
            (ended, Some(faults.taken.as_slice())),
            (3, told.as_bytes().get(..room))
        );
    }
    Ok(())
}
