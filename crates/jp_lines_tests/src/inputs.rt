//! Runs over several inputs, some of which can't be opened or read.

use super::devices::{Kept, Narrow, Shelf};
use super::programs::{status_of, words};
use super::refusals::told;
use jp_command::Device;
use jp_explain::Reason;
use jp_json::JsonReason;
use jp_lines::Unopened::{Failed, NotPermitted};
use jp_lines::run_program;
use std::alloc::{AllocError, Global};
use std::process::Abort;

/// Two inputs, the first without a newline at its end, and the standard input. Then two with lines that
/// are refused, one of which a read fails, and two that can't be opened.
const SHELF: &[(&str, Kept<'_>)] = &[
    ("one", Kept::Lines("{\"a\":1}\n\n{\"a\":2}")),
    ("two", Kept::Lines("{\"a\":3}\n{\"b\":0}\n")),
    ("-", Kept::Lines("{\"a\":4}\n")),
    ("bad", Kept::Lines("x\n{\"a\":5}\ny\nz\n")),
    ("comma", Kept::Lines("{\"a\": [3,]}\n")),
    ("torn", Kept::Failing("{\"a\":6}\n{\"a\":7}")),
    ("locked", Kept::Unopened(NotPermitted)),
    ("odd", Kept::Unopened(Failed)),
];

/// How a program ends: its status, what it writes, what it tells, and how often it asks for an input.
type Ended<'a> = (u8, &'a str, &'a str, usize);

/// Runs the program over inputs.
fn assert_ends(
    rt: &impl Abort,
    alloc: Global,
    line: &[&str],
    (status, written, told, asked): Ended<'_>,
) -> Result<(), AllocError> {
    let mut shelf = Shelf {
        kept: SHELF,
        asked: 0,
    };
    let mut output = Narrow::new(alloc, usize::MAX);
    let mut faults = Narrow::new(alloc, usize::MAX);
    let ended = status_of(alloc, line, &mut shelf, &mut output, &mut faults)?;
    let written_is = output.taken.as_slice() == written.as_bytes();
    let told_is = faults.taken.as_slice() == told.as_bytes();
    assert_eq!(rt; (ended, shelf.asked), (status, asked));
    assert!(rt; written_is, "{line:?}");
    assert!(rt; told_is, "{line:?}");
    assert_eq!(rt; output.flushes, if status == 1 { 0 } else { 1 });
    Ok(())
}

const GOES_OVER_ITS_INPUTS_IN_ORDER: &[(&[&str], Ended<'_>)] = &[
    (&["jp-lines", "eval", "$.a"], (0, "4\n", "", 1)),
    (
        &["jp-lines", "eval", "--number", "$.a", "two", "one"],
        (0, "1\t3\n1\t1\n3\t2\n", "", 2),
    ),
    (
        &["jp-lines", "count", "$.a", "one", "-", "two", "one"],
        (0, "1\n1\n1\n1\n0\n1\n1\n", "", 4),
    ),
    (
        &["jp-lines", "keep", "@.a>1", "one", "two"],
        (0, "{\"a\":2}\n{\"a\":3}\n", "", 2),
    ),
    (
        &["jp-lines", "columns", "--names", "$.a", "$.b", "two"],
        (0, "$.a\t$.b\n3\t\n\t0\n", "", 1),
    ),
    (
        &["jp-lines", "eval", "--exit-status", "$.c", "one", "two"],
        (6, "", "", 2),
    ),
];

#[test]
fn goes_over_its_inputs_in_order(rt: HostRuntime) -> Result<(), AllocError> {
    for &(line, ended) in GOES_OVER_ITS_INPUTS_IN_ORDER {
        assert_ends(&rt, rt.alloc(), line, ended)?;
    }
    Ok(())
}

#[test]
fn stops_at_an_input_that_is_not_read(rt: HostRuntime) -> Result<(), AllocError> {
    let refused = ("$[", "Syntax at 2", 2, Reason::InBrackets, "");
    let told = told(rt.alloc(), refused.0, refused)?;
    let rows: [(&[&str], Ended<'_>); 5] = [
        (
            &["jp-lines", "eval", "$.a", "one", "none", "two"],
            (5, "1\n2\n", "none: no such file\n", 2),
        ),
        (
            &["jp-lines", "eval", "$.a", "locked"],
            (5, "", "locked: not permitted\n", 1),
        ),
        (
            &["jp-lines", "eval", "$.a", "odd", "one"],
            (5, "", "odd: open fault\n", 1),
        ),
        (
            &["jp-lines", "eval", "$.a", "torn", "one"],
            (5, "6\n", "torn: read fault\n", 1),
        ),
        (
            &["jp-lines", "eval", "$[", "none"],
            (1, "", told.as_str(), 0),
        ),
    ];
    for (line, ended) in rows {
        assert_ends(&rt, rt.alloc(), line, ended)?;
    }
    Ok(())
}

#[test]
fn goes_on_after_an_input_that_is_not_read(rt: HostRuntime) -> Result<(), AllocError> {
    let rows: [(&[&str], Ended<'_>); 3] = [
        (
            &[
                "jp-lines",
                "eval",
                "--keep-going",
                "$.a",
                "torn",
                "none",
                "two",
                "locked",
            ],
            (
                5,
                "6\n3\n",
                "torn: read fault\nnone: no such file\nlocked: not permitted\n",
                4,
            ),
        ),
        // an input that is not read before a line that is refused, and before nothing selected
        (
            &["jp-lines", "eval", "--keep-going", "$.a", "odd", "bad"],
            (
                5,
                "5\n",
                "odd: open fault\nbad: line 1: document refused: NotJson\n\
                bad: line 3: document refused: NotJson\nbad: line 4: document refused: NotJson\n",
                2,
            ),
        ),
        (
            &[
                "jp-lines",
                "eval",
                "--keep-going",
                "--exit-status",
                "$.c",
                "none",
            ],
            (5, "", "none: no such file\n", 1),
        ),
    ];
    for (line, ended) in rows {
        assert_ends(&rt, rt.alloc(), line, ended)?;
    }
    Ok(())
}

#[test]
fn names_the_input_of_a_refused_line_where_there_are_several(
    rt: HostRuntime,
) -> Result<(), AllocError> {
    let sentence = JsonReason::TrailingComma.sentence();
    let told = format!(in rt.alloc();
        "comma: line 1: document refused: NotJson\nline 1, column 10: {sentence}\n"
    )?;
    let rows: [(&[&str], Ended<'_>); 3] = [
        (
            &["jp-lines", "eval", "$.a", "bad"],
            (3, "", "line 1: document refused: NotJson\n", 1),
        ),
        (
            &["jp-lines", "eval", "$.a", "one", "bad", "two"],
            (3, "1\n2\n", "bad: line 1: document refused: NotJson\n", 2),
        ),
        (
            &["jp-lines", "eval", "--explain", "$.a", "one", "comma"],
            (3, "1\n2\n", told.as_str(), 2),
        ),
    ];
    for (line, ended) in rows {
        assert_ends(&rt, rt.alloc(), line, ended)?;
    }
    Ok(())
}

#[test]
fn tells_so_many_refused_lines_over_all_inputs(rt: HostRuntime) -> Result<(), AllocError> {
    let first = "bad: line 1: document refused: NotJson\n";
    let rows: [(&[&str], Ended<'_>); 3] = [
        (
            &[
                "jp-lines",
                "eval",
                "--keep-going",
                "--reports",
                "4",
                "$.a",
                "bad",
                "one",
                "bad",
            ],
            (
                3,
                "5\n1\n2\n5\n",
                "bad: line 1: document refused: NotJson\nbad: line 3: document refused: NotJson\n\
                bad: line 4: document refused: NotJson\nbad: line 1: document refused: NotJson\n\
                more lines refused: 2\n",
                3,
            ),
        ),
        (
            &[
                "jp-lines",
                "eval",
                "--keep-going",
                "--reports",
                "0",
                "$.a",
                "bad",
                "none",
            ],
            (5, "5\n", "none: no such file\nmore lines refused: 3\n", 2),
        ),
        // the line that ends a run is always told
        (
            &["jp-lines", "eval", "--reports", "0", "$.a", "one", "bad"],
            (3, "1\n2\n", first, 2),
        ),
    ];
    for (line, ended) in rows {
        assert_ends(&rt, rt.alloc(), line, ended)?;
    }
    Ok(())
}

#[test]
fn tells_what_a_run_counts(rt: HostRuntime) -> Result<(), AllocError> {
    let refused = ("@.a,", "Syntax at 3", 3, Reason::Unexpected, "");
    let told = told(rt.alloc(), refused.0, refused)?;
    let rows: [(&[&str], Ended<'_>); 7] = [
        (
            &["jp-lines", "eval", "--summary", "$.*", "one", "two"],
            (
                0,
                "1\n2\n3\n0\n",
                "lines 4, documents 4, refused 0, nodes 4\n",
                2,
            ),
        ),
        (
            &["jp-lines", "keep", "--summary", "@.a>1", "one", "two"],
            (
                0,
                "{\"a\":2}\n{\"a\":3}\n",
                "lines 4, documents 4, refused 0, kept 2\n",
                2,
            ),
        ),
        (
            &["jp-lines", "columns", "--summary", "$.a", "$.*", "two"],
            (
                0,
                "3\t3\n\t0\n",
                "lines 2, documents 2, refused 0, nodes 3\n",
                1,
            ),
        ),
        // the line that ends a run counts as refused
        (
            &["jp-lines", "eval", "--summary", "$.a", "one", "bad"],
            (
                3,
                "1\n2\n",
                "bad: line 1: document refused: NotJson\nlines 3, documents 2, refused 1, nodes 2\n",
                2,
            ),
        ),
        (
            &[
                "jp-lines",
                "count",
                "--keep-going",
                "--reports",
                "1",
                "--summary",
                "$.a",
                "bad",
                "torn",
            ],
            (
                5,
                "1\n1\n",
                "bad: line 1: document refused: NotJson\ntorn: read fault\n\
                more lines refused: 2\nlines 5, documents 2, refused 3, nodes 2\n",
                2,
            ),
        ),
        (
            &["jp-lines", "eval", "--summary", "$.a", "none"],
            (
                5,
                "",
                "none: no such file\nlines 0, documents 0, refused 0, nodes 0\n",
                1,
            ),
        ),
        // a run that does not begin counts nothing
        (
            &["jp-lines", "keep", "--summary", "@.a,", "none"],
            (1, "", told.as_str(), 0),
        ),
    ];
    for (line, ended) in rows {
        assert_ends(&rt, rt.alloc(), line, ended)?;
    }
    Ok(())
}

/// Runs the program over one input with an output that takes so many bytes, and then hangs up or fails.
fn assert_fails(
    rt: &impl Abort,
    alloc: Global,
    line: &[&str],
    room: usize,
    hangs_up: bool,
    (written, told): (&str, &str),
) -> Result<(), AllocError> {
    let mut shelf = Shelf {
        kept: SHELF,
        asked: 0,
    };
    let mut output = Narrow {
        hangs_up,
        ..Narrow::new(alloc, room)
    };
    let mut faults = Narrow::new(alloc, usize::MAX);
    let ended = status_of(alloc, line, &mut shelf, &mut output, &mut faults)?;
    assert_eq!(rt;
        (
            ended,
            output.flushes,
            output.taken.as_slice(),
            faults.taken.as_slice()
        ),
        (5, 0, written.as_bytes(), told.as_bytes())
    );
    Ok(())
}

#[test]
fn tells_nothing_where_what_reads_its_output_hung_up(rt: HostRuntime) -> Result<(), AllocError> {
    let line = ["jp-lines", "eval", "--summary", "$.a", "one", "two"];
    let told = "write fault\nlines 1, documents 1, refused 0, nodes 1\n";
    assert_fails(&rt, rt.alloc(), &line, 3, true, ("1\n2", ""))?;
    assert_fails(&rt, rt.alloc(), &line, 3, false, ("1\n2", told))?;
    let names = ["jp-lines", "columns", "--names", "--summary", "$.a", "one"];
    assert_fails(&rt, rt.alloc(), &names, 3, true, ("$.a", ""))?;
    assert_fails(&rt, rt.alloc(), &names, 3, false, ("$.a", "write fault\n"))?;
    let help = ["jp-lines", "--version"];
    assert_fails(&rt, rt.alloc(), &help, 3, true, ("jp-", ""))?;
    assert_fails(&rt, rt.alloc(), &help, 3, false, ("jp-", "write fault\n"))
}

#[test]
fn tells_of_the_standard_input_alone_without_a_name(rt: HostRuntime) -> Result<(), AllocError> {
    let rows: [(&[&str], Kept<'_>, &str); 3] = [
        (
            &["jp-lines", "eval", "--keep-going", "$.a"],
            Kept::Failing(""),
            "read fault\n",
        ),
        (
            &["jp-lines", "eval", "$.a"],
            Kept::Unopened(Failed),
            "open fault\n",
        ),
        (
            &["jp-lines", "eval", "$.a", "-"],
            Kept::Failing(""),
            "-: read fault\n",
        ),
    ];
    for (line, kept, told) in rows {
        let mut faults = Narrow::new(rt.alloc(), usize::MAX);
        let ended = run_program(
            rt.alloc(),
            words(rt.alloc(), line)?,
            &mut Shelf {
                kept: &[("-", kept)],
                asked: 0,
            },
            &mut Device::new(Narrow::new(rt.alloc(), usize::MAX)),
            &mut Device::new(&mut faults),
        );
        assert_eq!(rt; ended, 5);
        assert!(rt; faults.taken.as_slice() == told.as_bytes());
    }
    Ok(())
}
