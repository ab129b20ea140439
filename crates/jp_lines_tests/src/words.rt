//! What words ask for.

use super::programs::words;
use clap::error::ErrorKind;
use jp_check::Profile;
use jp_command::Form;
use jp_limit::OutputLimit;
use jp_lines::{Job, Options, Request, Wanted, read_words};
use std::alloc::{AllocError, Global};
use std::process::Abort;
use std::test::Fail;

/// What no flag asks for.
const PLAIN: Options = Options {
    profile: Profile::Decimal,
    numbered: false,
    keep_going: false,
    line_buffered: false,
    explaining: false,
    exit_status: false,
    summary: false,
    reports: None,
    limit: None,
    output_limit: OutputLimit {
        nodes: None,
        bytes: None,
    },
};

/// Whether a job asks for these queries, or for this expression, over these inputs.
fn asks_for(job: &Job, texts: &[&str], inputs: &[&str]) -> bool {
    let has_texts = match &job.request {
        Request::SelectBy(_, _, query) => texts == [*query].as_slice(),
        Request::KeepBy(expression) => texts == [*expression].as_slice(),
        Request::ColumnsBy(_, _, queries) => queries.as_slice() == texts,
    };
    has_texts && job.inputs.as_slice() == inputs
}

/// Whether the words ask for the texts and the inputs, in that order.
fn assert_asks(
    rt: &impl Abort,
    alloc: Global,
    (line, texts, inputs): (&[&str], &[&str], &[&str]),
) -> Result<(), AllocError> {
    let words = words(alloc, line)?;
    let asked = read_words(alloc, &words);
    let right = match &asked {
        Ok(job) => asks_for(job, texts, inputs),
        Err(_) => false,
    };
    assert!(rt; right);
    Ok(())
}

const NAMES_OF_INPUTS_STAND_BEHIND_WHAT_IS_ASKED: &[(&[&str], &[&str], &[&str])] = &[
    (&["jp-lines", "eval", "$.a"], &["$.a"], &[]),
    (
        &["jp-lines", "eval", "$.a", "x", "--number", "-", "x"],
        &["$.a"],
        &["x", "-", "x"],
    ),
    (
        &["jp-lines", "count", "--limit", "9", "$", "--", "--raw"],
        &["$"],
        &["--raw"],
    ),
    (
        &["jp-lines", "paths", "$", "$y", "b.jsonl"],
        &["$"],
        &["$y", "b.jsonl"],
    ),
    (&["jp-lines", "keep", "@.a", "x"], &["@.a"], &["x"]),
    (
        &["jp-lines", "columns", "$.a", "$.b", "x", "$y"],
        &["$.a", "$.b"],
        &["x", "$y"],
    ),
    (
        &["jp-lines", "columns", "a", "$.b", "--csv", "./$y", ""],
        &["a", "$.b"],
        &["./$y", ""],
    ),
    (&["jp-lines", "columns", "-", "-"], &["-"], &["-"]),
];

#[test]
fn names_of_inputs_stand_behind_what_is_asked(rt: HostRuntime) -> Result<(), AllocError> {
    for &row in NAMES_OF_INPUTS_STAND_BEHIND_WHAT_IS_ASKED {
        assert_asks(&rt, rt.alloc(), row)?;
    }
    Ok(())
}

/// Whether the words ask for that form of values, and for these options.
fn assert_options(
    rt: &impl Abort,
    alloc: Global,
    (line, form, options): (&[&str], Form, Options),
) -> Result<(), AllocError> {
    let words = words(alloc, line)?;
    let asked = read_words(alloc, &words);
    let right = match &asked {
        Ok(job) => {
            let wanted = match job.request {
                Request::SelectBy(wanted, _, _) => wanted,
                _ => Wanted::Count,
            };
            wanted == Wanted::Nodes(form) && job.options == options
        }
        Err(_) => false,
    };
    assert!(rt; right);
    Ok(())
}

#[test]
fn flags_ask_for_raw_texts_a_summary_and_few_reports(rt: HostRuntime) -> Result<(), AllocError> {
    let summed = Options {
        summary: true,
        ..PLAIN
    };
    let silent = Options {
        keep_going: true,
        reports: Some(0),
        ..PLAIN
    };
    let most = Options {
        reports: Some(u64::MAX),
        limit: Some(1),
        ..PLAIN
    };
    let small = Options {
        output_limit: OutputLimit {
            nodes: Some(1),
            bytes: Some(u64::MAX),
        },
        ..PLAIN
    };
    let rows: [(&[&str], Form, Options); 6] = [
        (
            &[
                "jp-lines",
                "eval",
                "--max-nodes=1",
                "$",
                "--max-bytes",
                "18446744073709551615",
            ],
            Form::VALUES,
            small,
        ),
        (&["jp-lines", "eval", "--raw", "$"], Form::RAW_VALUES, PLAIN),
        (&["jp-lines", "both", "$", "--raw"], Form::RAW_BOTH, PLAIN),
        (
            &["jp-lines", "eval", "$", "--summary"],
            Form::VALUES,
            summed,
        ),
        (
            &["jp-lines", "both", "--keep-going", "--reports", "0", "$"],
            Form::BOTH,
            silent,
        ),
        (
            &[
                "jp-lines",
                "paths",
                "$",
                "--reports=18446744073709551615",
                "--limit=1",
            ],
            Form::PATHS,
            most,
        ),
    ];
    for row in rows {
        assert_options(&rt, rt.alloc(), row)?;
    }
    Ok(())
}

/// Words that ask for values in a profile.
const PROFILES: &[(&[&str], Profile)] = &[
    (&["jp-lines", "eval", "$"], Profile::Decimal),
    (&["jp-lines", "eval", "--whole", "$"], Profile::Standard),
    (
        &["jp-lines", "eval", "$", "--extended"],
        Profile::ExtendedDecimal,
    ),
    (
        &["jp-lines", "eval", "--extended", "$", "x", "--whole"],
        Profile::Extended,
    ),
];

#[test]
fn numbers_are_whole_where_that_is_asked_for(rt: HostRuntime) -> Result<(), AllocError> {
    for &(line, profile) in PROFILES {
        let options = Options { profile, ..PLAIN };
        assert_options(&rt, rt.alloc(), (line, Form::VALUES, options))?;
    }
    Ok(())
}

/// Whether the words are refused so.
fn assert_refused(
    rt: &impl Abort,
    alloc: Global,
    (line, kind): (&[&str], ErrorKind),
) -> Result<(), AllocError> {
    let words = words(alloc, line)?;
    let asked = read_words(alloc, &words);
    let right = match &asked {
        Ok(_) => false,
        Err(error) => error.kind() == kind,
    };
    assert!(rt; right);
    Ok(())
}

const WORDS_OF_ANOTHER_COMMAND_ARE_REFUSED: &[(&[&str], ErrorKind)] = &[
    (
        &["jp-lines", "paths", "--raw", "$"],
        ErrorKind::UnknownArgument,
    ),
    (
        &["jp-lines", "count", "$", "--raw"],
        ErrorKind::UnknownArgument,
    ),
    (
        &["jp-lines", "keep", "--first", "@.a"],
        ErrorKind::UnknownArgument,
    ),
    (
        &["jp-lines", "eval", "--reports", "-1", "$"],
        ErrorKind::UnknownArgument,
    ),
    (
        &["jp-lines", "eval", "--decimals", "$"],
        ErrorKind::UnknownArgument,
    ),
    (
        &["jp-lines", "columns", "--whole", "$", "--whole"],
        ErrorKind::ArgumentConflict,
    ),
    (
        &["jp-lines", "eval", "--reports=18446744073709551616", "$"],
        ErrorKind::ValueValidation,
    ),
    (
        &["jp-lines", "columns", "--names"],
        ErrorKind::MissingRequiredArgument,
    ),
];

#[test]
fn words_of_another_command_are_refused(rt: HostRuntime) -> Result<(), AllocError> {
    for &row in WORDS_OF_ANOTHER_COMMAND_ARE_REFUSED {
        assert_refused(&rt, rt.alloc(), row)?;
    }
    Ok(())
}
