//! Each status of `run_line`, with its line.

use super::devices::{Broken, Drip, Narrow};
use super::rows::{assert_ended, ended, status_over, words};
use super::table::names::{IN_QUOTES, NAMES};
use jp_command::{Device, exit_status};
use std::alloc::Global;
use std::io::{Error, ErrorKind, Read, Result as IoResult};
use std::process::Abort;
use std::test::Fail;

/// A line of words, an input, and how that ends: the status, and what is written to either output.
type Line = (
    &'static [&'static str],
    &'static str,
    (u8, &'static str, &'static str),
);

/// What each subcommand writes.
const FORMS: &[Line] = &[
    (&["jp", "check", IN_QUOTES], NAMES, (0, "accepted\n", "")),
    (
        &["jp", "canon", IN_QUOTES],
        NAMES,
        (0, "$['\\'']['@']\n", ""),
    ),
    (&["jp", "eval", IN_QUOTES], NAMES, (0, "2\n", "")),
    (
        &["jp", "paths", IN_QUOTES],
        NAMES,
        (0, "$['\\'']['@']\n", ""),
    ),
    (
        &["jp", "both", IN_QUOTES],
        NAMES,
        (0, "$['\\'']['@']\t2\n", ""),
    ),
    (
        &["jp", "eval", "--raw", "$[*]"],
        r#"["a\"b",7,["c"]]"#,
        (0, "a\"b\n7\n[\"c\"]\n", ""),
    ),
    (
        &["jp", "both", "$[0]", "--raw"],
        r#"["a\"b",7,["c"]]"#,
        (0, "$[0]\ta\"b\n", ""),
    ),
    (
        &["jp", "paths", "$.*"],
        r#"{"\u001f\n'\\":1}"#,
        (0, "$['\\u001f\\n\\'\\\\']\n", ""),
    ),
];

/// A document, and a query that `Extended` alone accepts.
const SOME_OR_NONE: &str = r#"[{"a":0},{}]"#;

const HAS_SOME: &str = "$[?distinct(@.*)]";

/// What `Standard` says of it.
const UNKNOWN: (u8, &str, &str) = (1, "", "query refused: UnknownFunction at 3\n");

const NO_QUERY: (u8, &str, &str) = (1, "", "query refused: Syntax at 0\n");

/// What each subcommand says with the flag and without it, on either side of the query.
const FLAGS: &[Line] = &[
    (
        &["jp", "check", HAS_SOME, "--extended"],
        SOME_OR_NONE,
        (0, "accepted\n", ""),
    ),
    (&["jp", "check", HAS_SOME], SOME_OR_NONE, UNKNOWN),
    (
        &["jp", "canon", HAS_SOME, "--extended"],
        SOME_OR_NONE,
        (0, "$[?distinct(@[*])]\n", ""),
    ),
    (&["jp", "canon", HAS_SOME], SOME_OR_NONE, UNKNOWN),
    (
        &["jp", "eval", HAS_SOME, "--extended"],
        SOME_OR_NONE,
        (0, "{\"a\":0}\n", ""),
    ),
    (&["jp", "eval", HAS_SOME], SOME_OR_NONE, UNKNOWN),
    (
        &["jp", "paths", HAS_SOME, "--extended"],
        SOME_OR_NONE,
        (0, "$[0]\n", ""),
    ),
    (&["jp", "paths", HAS_SOME], SOME_OR_NONE, UNKNOWN),
    (
        &["jp", "both", HAS_SOME, "--extended"],
        SOME_OR_NONE,
        (0, "$[0]\t{\"a\":0}\n", ""),
    ),
    (&["jp", "both", HAS_SOME], SOME_OR_NONE, UNKNOWN),
    (
        &["jp", "paths", "--extended", HAS_SOME],
        SOME_OR_NONE,
        (0, "$[0]\n", ""),
    ),
    (
        &["jp", "paths", "--extended", "--", HAS_SOME],
        SOME_OR_NONE,
        (0, "$[0]\n", ""),
    ),
    (
        &["jp", "paths", "--extended", "--", "-$"],
        SOME_OR_NONE,
        NO_QUERY,
    ),
    (&["jp", "paths", "--", "-$"], SOME_OR_NONE, NO_QUERY),
    (&["jp", "paths", "--", "--extended"], SOME_OR_NONE, NO_QUERY),
];

#[test]
fn ends_as_its_words_ask(rt: HostRuntime) -> Result<(), Fail> {
    for (line, document, ended) in FORMS {
        assert_ended(&rt, rt.alloc(), line, document.as_bytes(), *ended)?;
    }
    for (line, document, ended) in FLAGS {
        assert_ended(&rt, rt.alloc(), line, document.as_bytes(), *ended)?;
    }
    let line = ["jp", "both", "$"];
    let refused = (3, "", "document refused: NotJson\n");
    assert_ended(&rt, rt.alloc(), &line, b"\"\xff\"".as_slice(), refused)
}

const REFUSES_WORDS_THAT_IT_DOES_NOT_TAKE: &[&[&str]] = &[
    &[],
    &["jp"],
    &["jp", "both"],
    &["jp", "both", "$", "$"],
    &["jp", "value", "$"],
    &["jp", "both", "--extended"],
    &["jp", "both", "--extended", "$", "--extended"],
    &["jp", "both", "--extended", "--extended", "$"],
    &["jp", "both", "--explain"],
    &["jp", "both", "--explain", "$", "--explain"],
    &["jp", "--extended", "both", "$"],
    &["jp", "both", "--", "$", "--extended"],
    &["jp", "both", "--extended=true", "$"],
    &["jp", "both", "--extend", "$"],
    &["jp", "both", "-e", "$"],
];

#[test]
fn refuses_words_that_it_does_not_take(rt: HostRuntime) -> Result<(), Fail> {
    for &line in REFUSES_WORDS_THAT_IT_DOES_NOT_TAKE {
        let (status, output, faults) = ended(rt.alloc(), line, b"[1]".as_slice())?;
        assert_eq!(rt; (status, output.len(), faults.is_empty()), (2, 0, false));
    }
    Ok(())
}

#[test]
fn tells_of_each_subcommand_and_status_in_its_help(rt: HostRuntime) -> Result<(), Fail> {
    let alloc = rt.alloc();
    let (status, output, faults) = ended(alloc, &["jp", "--help"], b"[1]".as_slice())?;
    assert_eq!(rt; (status, faults.len()), (0, 0));
    let help = str::from_utf8(output.as_slice())?;
    for part in [
        "\n  check ",
        "\n  canon ",
        "\n  eval ",
        "\n  paths ",
        "\n  both ",
        "QUERY",
        "--extended",
        "--explain",
        "--raw",
        "--first",
        "--exit-status",
        "jp eval '$[-1]'",
        "0 done",
        "1 query refused",
        "2 usage,",
        "3 document refused",
        "4 want of memory",
        "5 read or write fault",
        "6 nothing selected",
    ] {
        assert!(rt; help.contains(part), "{part}");
    }
    Ok(())
}

/// Words that ask for help or for the version, and a part of what they are answered.
const SHOWN: &[(&[&str], &str)] = &[
    (&["jp", "--version"], "jp 0.1.0\n"),
    (&["/usr/lib/jp", "--help"], "\nUsage: jp <COMMAND>\n"),
    (
        &["jp", "help", "canon"],
        "\nExample: jp canon '$.a[\"b\"]'\n",
    ),
    (
        &["jp", "check", "--help"],
        "\nExample: jp check --explain '$[?@.a=1]'\n",
    ),
    (
        &["jp", "canon", "--help"],
        "\nExample: jp canon '$.a[\"b\"]'\n",
    ),
    (
        &["jp", "eval", "--help"],
        "\nExample: echo '[1,2]' | jp eval '$[-1]'\n",
    ),
    (
        &["jp", "paths", "--help"],
        "\nExample: echo '[1,2]' | jp paths '$[?@>1]'\n",
    ),
    (
        &["jp", "both", "--help"],
        "\nExample: echo '[1,2]' | jp both '$.*'\n",
    ),
];

/// Words that are no command since a file is named in them, and what tells where its name goes.
const FILES: &[(&[&str], &str)] = &[
    (
        &["jp", "eval", "$", "d.json"],
        "\nUsage: jp eval [OPTIONS] <QUERY> < FILE\n",
    ),
    (
        &["jp", "paths", "$", "d.json"],
        "\nUsage: jp paths [OPTIONS] <QUERY> < FILE\n",
    ),
    (
        &["jp", "both", "$", "d.json"],
        "\nUsage: jp both [OPTIONS] <QUERY> < FILE\n",
    ),
];

#[test]
fn writes_help_and_the_version(rt: HostRuntime) -> Result<(), Fail> {
    for (line, part) in SHOWN {
        let (status, output, faults) = ended(rt.alloc(), line, b"[1]".as_slice())?;
        assert_eq!(rt; (status, faults.len()), (0, 0));
        let text = str::from_utf8(output.as_slice())?;
        assert!(rt; text.contains(part), "{part}");
    }
    Ok(())
}

#[test]
fn tells_that_help_could_not_be_written(rt: HostRuntime) -> Result<(), Fail> {
    for (room, flushes) in [(0, true), (1, true), (100, true), (10_000, false)] {
        let mut output = Narrow::new(rt.alloc(), room, flushes);
        let mut faults = Vec::new(rt.alloc());
        let mut input = b"[1]".as_slice();
        let status = status_over(
            rt.alloc(),
            words(rt.alloc(), &["jp", "--help"])?,
            &mut input,
            &mut output,
            &mut faults,
        );
        assert_eq!(rt; (status, input.len()), (5, 3));
        assert_eq!(rt; faults.as_slice(), b"write fault\n".as_slice());
        assert!(rt; output.taken.len() == room || !flushes);
    }
    Ok(())
}

#[test]
fn tells_where_the_name_of_a_file_goes(rt: HostRuntime) -> Result<(), Fail> {
    for (line, part) in FILES {
        let (status, output, faults) = ended(rt.alloc(), line, b"[1]".as_slice())?;
        assert_eq!(rt; (status, output.len()), (2, 0));
        let text = str::from_utf8(faults.as_slice())?;
        assert!(rt; text.contains(part), "{part}");
    }
    Ok(())
}

/// Asserts that a run from this input to this output ends with status 5 and this line.
fn assert_fault<R: Read + Drop>(
    rt: &impl Abort,
    alloc: Global,
    input: R,
    output: Narrow,
    line: &[u8],
) -> Result<(), Fail> {
    let mut faults = Vec::new(alloc);
    let ended = status_over(
        alloc,
        words(alloc, &["jp", "both", "$"])?,
        input,
        output,
        &mut faults,
    );
    assert_eq!(rt; (ended, faults.as_slice()), (5, line));
    Ok(())
}

#[test]
fn tells_failures_of_its_streams(rt: HostRuntime) -> Result<(), Fail> {
    let alloc = rt.alloc();
    let document = b"[1]".as_slice();
    let wide = Narrow::new(alloc, 99, true);
    assert_fault(&rt, alloc, Broken(b"[1"), wide, b"read fault\n")?;
    let narrow = Narrow::new(alloc, 3, true);
    assert_fault(&rt, alloc, document, narrow, b"write fault\n")?;
    let unflushed = Narrow::new(alloc, 99, false);
    assert_fault(&rt, alloc, document, unflushed, b"write fault\n")
}

#[test]
fn flushes_only_an_output_that_took_all_and_only_once(rt: HostRuntime) -> Result<(), Fail> {
    let alloc = rt.alloc();
    for (failing, failing_flush, flush_count) in [(2, 0, 0), (0, 1, 1)] {
        let mut drip = Drip::new(alloc, 1);
        drip.failing = failing;
        drip.failing_flush = failing_flush;
        let ended = status_over(
            alloc,
            words(alloc, &["jp", "both", "$"])?,
            b"[1]".as_slice(),
            &mut drip,
            Narrow::new(alloc, 99, true),
        );
        assert_eq!(rt; (ended, drip.flush_count), (5, flush_count));
    }
    Ok(())
}

#[test]
fn keeps_its_status_where_its_line_cannot_be_written(rt: HostRuntime) -> Result<(), Fail> {
    let alloc = rt.alloc();
    for (query, status) in [("$", 3), ("$[", 1)] {
        let ended = status_over(
            alloc,
            words(alloc, &["jp", "both", query])?,
            b"".as_slice(),
            Narrow::new(alloc, 99, true),
            Narrow::new(alloc, 7, true),
        );
        assert_eq!(rt; ended, status);
    }
    Ok(())
}

/// Asserts that a program whose run answered this ends with this status, and tells this.
fn assert_exit(rt: &impl Abort, alloc: Global, answer: IoResult<u8>, status: u8, line: &str) {
    let mut told = Vec::new(alloc);
    let ended = exit_status(alloc, answer, &mut Device::new(&mut told));
    assert_eq!(rt; (ended, told.as_slice()), (status, line.as_bytes()));
}

#[test]
fn the_status_of_a_program_that_cannot_begin(rt: HostRuntime) {
    let alloc = rt.alloc();
    assert_exit(&rt, alloc, Ok(3), 3, "");
    let exhausted = Err(Error::from(ErrorKind::OutOfMemory));
    assert_exit(&rt, alloc, exhausted, 4, "want of memory\n");
    let words = Err(Error::from(ErrorKind::InvalidData));
    assert_exit(&rt, alloc, words, 2, "words refused: NotUtf8\n");
    assert_exit(&rt, alloc, Err(Error::from(ErrorKind::InvalidInput)), 2, "");
}
