//! What the program writes and tells with each status.

use super::devices::{Alone, Narrow, Trickle, Unflushed};
use super::refusals::{Refused, told, too_long};
use jp_command::Device;
use jp_explain::Reason;
use jp_lines::{Inputs, run_program};
use std::alloc::{AllocError, Global};
use std::io::{Read, Write};
use std::process::Abort;
use std::test::Fail;

/// A document in the first line, none in the second, a fault in the third, and in the fourth a
/// document before a carriage return.
const LINES: &str = "{\"a\":1,\"b\":[2,3]}\n\nx\n[4]\r\n";

/// The words with a subcommand, flags and a query.
pub fn words(alloc: Global, line: &[&str]) -> Result<Vec<String>, AllocError> {
    let mut words = Vec::new(alloc);
    for word in line {
        words.push(String::from_str(alloc, *word)?)?;
    }
    Ok(words)
}

/// The status of a run over these inputs.
pub fn status_of<I: Inputs, O: Write + Drop, F: Write + Drop>(
    alloc: Global,
    line: &[&str],
    inputs: &mut I,
    output: O,
    faults: F,
) -> Result<u8, AllocError> {
    let words = words(alloc, line)?;
    let (output, faults) = (&mut Device::new(output), &mut Device::new(faults));
    Ok(run_program(alloc, words, inputs, output, faults))
}

/// The status of a run over this standard input.
pub fn status_over<I: Read + Drop, O: Write + Drop, F: Write + Drop>(
    alloc: Global,
    line: &[&str],
    input: I,
    output: O,
    faults: F,
) -> Result<u8, AllocError> {
    status_of(alloc, line, &mut Alone::new(input), output, faults)
}

/// How a program ends: its status, what it writes, what it tells, and how often it flushes.
pub type Ended<'a> = (u8, &'a str, &'a str, usize);

/// Runs the program over lines, where a read behind them fails if it is to.
pub fn assert_ends(
    rt: &impl Abort,
    alloc: Global,
    line: &[&str],
    lines: &str,
    fails: bool,
    (status, written, told, flushes): Ended<'_>,
) -> Result<(), AllocError> {
    let mut output = Narrow::new(alloc, usize::MAX);
    let mut faults = Narrow::new(alloc, usize::MAX);
    let input = Trickle {
        bytes: lines.as_bytes(),
        size: 3,
        fails,
    };
    let ended = status_over(alloc, line, input, &mut output, &mut faults)?;
    assert_eq!(rt;
        (
            ended,
            output.taken.as_slice(),
            faults.taken.as_slice(),
            output.flushes
        ),
        (status, written.as_bytes(), told.as_bytes(), flushes)
    );
    Ok(())
}

const WRITES_WHAT_ITS_WORDS_ASK_FOR: &[(&[&str], &str)] = &[
    (&["jp-lines", "eval", "$.*"], "1\n[2,3]\n"),
    (
        &["jp-lines", "eval", "--keep-going", "$.*"],
        "1\n[2,3]\n4\n",
    ),
    (
        &["jp-lines", "paths", "$.*", "--keep-going", "--number"],
        "1\t$['a']\n1\t$['b']\n4\t$[0]\n",
    ),
    (
        &["jp-lines", "both", "--keep-going", "$.*"],
        "$['a']\t1\n$['b']\t[2,3]\n$[0]\t4\n",
    ),
    (&["jp-lines", "count", "--keep-going", "$.*"], "2\n1\n"),
    (&["jp-lines", "count", "--number", "$.*"], "1\t2\n"),
    (
        &["jp-lines", "eval", "--extended", "$[?distinct(@[*])]"],
        "[2,3]\n",
    ),
];

#[test]
fn writes_what_its_words_ask_for(rt: HostRuntime) -> Result<(), AllocError> {
    let refused = "line 3: document refused: NotJson\n";
    for &(line, written) in WRITES_WHAT_ITS_WORDS_ASK_FOR {
        assert_ends(
            &rt,
            rt.alloc(),
            line,
            LINES,
            false,
            (3, written, refused, 1),
        )?;
    }
    Ok(())
}

/// Lines with a text at `$.user.name`, none, another value than an object, escapes, a name twice and a
/// number; the fourth and the seventh are no documents, and the eighth is blank.
const USERS: &str =
    "{\"id\":[1,{}],\"user\":{\"name\":\"Ann\",\"x\":null}}\n{\"user\":{\"id\":2}}\nnull\n\
    {\"user\":{\"name\":4}\n{\"\\u0075ser\":{\"n\\u0061me\":\"\\u0041\\n\"}}\n\
    {\"user\":{\"name\":0,\"name\":{\"a\":[ ]}}}\n\
    {\"user\":{\"name\":7},\"more\":[1.5]}\n \r\n{\"user\":{\"name\":9}}";

#[test]
fn finds_the_value_at_the_location_that_a_query_names(rt: HostRuntime) -> Result<(), AllocError> {
    let told = "line 4: document refused: NotJson\n\
        line 7: document refused: NotWhole at $['more'][0]\n";
    let runs: [(&[&str], &str); 4] = [
        (
            &["jp-lines", "eval", "--whole", "--keep-going", "$.user.name"],
            "\"Ann\"\n\"A\\n\"\n{\"a\":[]}\n9\n",
        ),
        (
            &[
                "jp-lines",
                "both",
                "--whole",
                "--number",
                "--keep-going",
                "$['user'].name",
            ],
            "1\t$['user']['name']\t\"Ann\"\n5\t$['user']['name']\t\"A\\n\"\n\
            6\t$['user']['name']\t{\"a\":[]}\n9\t$['user']['name']\t9\n",
        ),
        (
            &[
                "jp-lines",
                "count",
                "--keep-going",
                "--whole",
                "$.user.name",
            ],
            "1\n0\n0\n1\n1\n1\n",
        ),
        (
            &[
                "jp-lines",
                "count",
                "--number",
                "--keep-going",
                "$.id[1]",
                "--whole",
            ],
            "1\t1\n2\t0\n3\t0\n5\t0\n6\t0\n9\t0\n",
        ),
    ];
    for (line, written) in runs {
        assert_ends(&rt, rt.alloc(), line, USERS, false, (3, written, told, 1))?;
    }
    Ok(())
}

#[test]
fn flushes_after_each_document_where_that_is_asked_for(rt: HostRuntime) -> Result<(), AllocError> {
    let mut output = Unflushed {
        taken: Vec::new(rt.alloc()),
    };
    let mut faults = Narrow::new(rt.alloc(), usize::MAX);
    let ended = status_over(
        rt.alloc(),
        &["jp-lines", "eval", "--line-buffered", "$[0]"],
        b"[1]\n[2]\n".as_slice(),
        &mut output,
        &mut faults,
    )?;
    assert_eq!(rt;
        (ended, output.taken.as_slice(), faults.taken.as_slice()),
        (5, "1\n".as_bytes(), "write fault\n".as_bytes())
    );
    Ok(())
}

#[test]
fn ends_with_the_status_of_its_run(rt: HostRuntime) -> Result<(), AllocError> {
    let alloc = rt.alloc();
    let eval = ["jp-lines", "eval", "$[1]"];
    assert_ends(&rt, alloc, &eval, "[1,2]\n[3]\n", false, (0, "2\n", "", 1))?;
    assert_ends(&rt, alloc, &eval, "", false, (0, "", "", 1))?;
    let not_whole = "line 2: document refused: NotWhole at $['a'][1]\n";
    let lines = "[0,0]\n{\"a\":[1,1.5]}\n";
    let whole = ["jp-lines", "eval", "--whole", "$[1]"];
    assert_ends(&rt, alloc, &whole, lines, false, (3, "0\n", not_whole, 1))?;
    assert_ends(
        &rt,
        alloc,
        &eval,
        "[1,2]\n[3,4]",
        true,
        (5, "2\n", "read fault\n", 1),
    )
}

#[test]
fn tells_why_its_query_is_refused(rt: HostRuntime) -> Result<(), AllocError> {
    let unknown = told(rt.alloc(), UNKNOWN.0, UNKNOWN)?;
    assert_ends(
        &rt,
        rt.alloc(),
        &["jp-lines", "count", UNKNOWN.0],
        "[]\n",
        false,
        (1, "", unknown.as_str(), 0),
    )
}

#[test]
fn tells_that_its_query_is_too_long(rt: HostRuntime) -> Result<(), AllocError> {
    let long = long_query(rt.alloc())?;
    let told = too_long(rt.alloc())?;
    assert_ends(
        &rt,
        rt.alloc(),
        &["jp-lines", "count", long.as_str()],
        "[]\n",
        false,
        (1, "", told.as_str(), 0),
    )
}

/// A query that is accepted with `--extended` alone.
const UNKNOWN: Refused = (
    "$[?distinct(@[*])]",
    "UnknownFunction at 3",
    3,
    Reason::Distinct,
    "",
);

/// A query of more than 2^20 bytes.
fn long_query(alloc: Global) -> Result<String, AllocError> {
    let segments = ".a".repeat(alloc, 524_288)?;
    format!(in alloc; "${segments}")
}

const REFUSES_WORDS_THAT_NAME_NO_RUN: &[&[&str]] = &[
    &["jp-lines"],
    &["jp-lines", "check", "$"],
    &["jp-lines", "eval"],
    &["jp-lines", "count", "--raw", "$"],
    &["jp-lines", "eval", "--number", "--number", "$"],
    &["jp-lines", "keep"],
    &["jp-lines", "keep", "--first", "@"],
    &["jp-lines", "eval", "--limit"],
    &["jp-lines", "eval", "--limit", "$"],
    &["jp-lines", "eval", "--limit", "0", "$"],
    &["jp-lines", "eval", "--limit", "1.5", "$"],
    &["jp-lines", "eval", "--limit=-1", "$"],
    &["jp-lines", "eval", "--limit", "18446744073709551616", "$"],
    &["jp-lines", "eval", "--limit", "1", "--limit", "1", "$"],
    &["jp-lines", "eval", "--reports", "few", "$"],
    &["jp-lines", "eval", "--max-nodes", "$"],
    &["jp-lines", "keep", "--max-nodes", "0", "@"],
    &["jp-lines", "count", "--max-nodes=18446744073709551616", "$"],
    &["jp-lines", "columns", "--max-bytes", "1k", "$"],
    &["jp-lines", "paths", "--max-bytes=1", "--max-bytes=1", "$"],
];

#[test]
fn refuses_words_that_name_no_run(rt: HostRuntime) -> Result<(), AllocError> {
    for &line in REFUSES_WORDS_THAT_NAME_NO_RUN {
        let mut input = Trickle {
            bytes: b"[1]",
            size: 3,
            fails: false,
        };
        let mut output = Narrow::new(rt.alloc(), usize::MAX);
        let mut faults = Narrow::new(rt.alloc(), usize::MAX);
        let ended = status_over(rt.alloc(), line, &mut input, &mut output, &mut faults)?;
        assert_eq!(rt;
            (
                ended,
                input.bytes.len(),
                output.taken.len(),
                !faults.taken.is_empty()
            ),
            (2, 3, 0, true)
        );
    }
    Ok(())
}

/// Words that ask for help or for the version, and a part of what they are answered.
const SHOWN: &[(&[&str], &str)] = &[
    (
        &["jp-lines", "--help"],
        "\nExample: printf '{\"a\":1}\\n{\"a\":2}\\n' | jp-lines eval '$.a'\n",
    ),
    (
        &["/usr/lib/jp_lines_main", "--help"],
        "\nUsage: jp-lines <COMMAND>\n",
    ),
    (&["jp-lines", "--version"], "jp-lines 0.1.0\n"),
    (
        &["jp-lines", "keep", "--help"],
        "\nExample: printf '{\"a\":1}\\n{\"a\":2}\\n' | jp-lines keep '@.a > 1'\n",
    ),
    (
        &["jp-lines", "eval", "--help"],
        "\nExample: printf '[1]\\n[2]\\n' | jp-lines eval '$[0]'\n",
    ),
    (
        &["jp-lines", "paths", "--help"],
        "\nExample: printf '[1]\\n[2]\\n' | jp-lines paths --number '$[?@>1]'\n",
    ),
    (
        &["jp-lines", "both", "--help"],
        "\nExample: printf '[1]\\n[2]\\n' | jp-lines both --number '$.*'\n",
    ),
    (
        &["jp-lines", "help", "count"],
        "\nExample: printf '[1]\\n[2,3]\\n' | jp-lines count '$.*'\n",
    ),
];

#[test]
fn writes_help_and_the_version(rt: HostRuntime) -> Result<(), Fail> {
    for (line, part) in SHOWN {
        let mut output = Narrow::new(rt.alloc(), usize::MAX);
        let mut faults = Narrow::new(rt.alloc(), usize::MAX);
        let mut lines = b"[1]".as_slice();
        let ended = status_over(rt.alloc(), line, &mut lines, &mut output, &mut faults)?;
        assert_eq!(rt;
            (ended, output.flushes, faults.taken.len(), lines.len()),
            (0, 1, 0, 3)
        );
        let text = str::from_utf8(output.taken.as_slice())?;
        assert!(rt; text.contains(part), "{part}");
    }
    Ok(())
}

#[test]
fn tells_that_help_could_not_be_written(rt: HostRuntime) -> Result<(), AllocError> {
    for room in [0, 1, 100] {
        let mut output = Narrow::new(rt.alloc(), room);
        let mut faults = Narrow::new(rt.alloc(), usize::MAX);
        let ended = status_over(
            rt.alloc(),
            &["jp-lines", "--help"],
            b"[1]".as_slice(),
            &mut output,
            &mut faults,
        )?;
        assert_eq!(rt;
            (
                ended,
                output.taken.len(),
                output.flushes,
                faults.taken.as_slice()
            ),
            (5, room, 0, "write fault\n".as_bytes())
        );
    }
    let mut output = Unflushed {
        taken: Vec::new(rt.alloc()),
    };
    let mut faults = Narrow::new(rt.alloc(), usize::MAX);
    let ended = status_over(
        rt.alloc(),
        &["jp-lines", "--version"],
        b"[1]".as_slice(),
        &mut output,
        &mut faults,
    )?;
    assert_eq!(rt;
        (ended, output.taken.as_slice(), faults.taken.as_slice()),
        (5, "jp-lines 0.1.0\n".as_bytes(), "write fault\n".as_bytes())
    );
    Ok(())
}

#[test]
fn tells_where_the_names_of_files_go(rt: HostRuntime) -> Result<(), Fail> {
    let mut faults = Narrow::new(rt.alloc(), usize::MAX);
    let ended = status_over(
        rt.alloc(),
        &["jp-lines", "eval", "--file", "d.jsonl", "$"],
        b"[1]".as_slice(),
        Narrow::new(rt.alloc(), usize::MAX),
        &mut faults,
    )?;
    let text = str::from_utf8(faults.taken.as_slice())?;
    let part = "\nUsage: jp-lines eval [OPTIONS] <QUERY> [FILE]..\n";
    assert!(rt; ended == 2 && text.contains(part), "{text}");
    Ok(())
}

#[test]
fn explains_a_refused_query_until_a_write_fails(rt: HostRuntime) -> Result<(), AllocError> {
    let told = told(rt.alloc(), UNKNOWN.0, UNKNOWN)?;
    for room in 0..=told.len() {
        let mut faults = Narrow::new(rt.alloc(), room);
        let ended = status_over(
            rt.alloc(),
            &["jp-lines", "count", "$[?distinct(@[*])]"],
            b"[]".as_slice(),
            Narrow::new(rt.alloc(), usize::MAX),
            &mut faults,
        )?;
        assert_eq!(rt;
            (ended, Some(faults.taken.as_slice())),
            (1, told.as_bytes().get(..room))
        );
    }
    Ok(())
}

#[test]
fn tells_that_a_flush_failed(rt: HostRuntime) -> Result<(), AllocError> {
    for lines in ["[1]\n", "[1]\nx\n"] {
        let mut output = Unflushed {
            taken: Vec::new(rt.alloc()),
        };
        let mut faults = Narrow::new(rt.alloc(), usize::MAX);
        let ended = status_over(
            rt.alloc(),
            &["jp-lines", "eval", "$[0]"],
            lines.as_bytes(),
            &mut output,
            &mut faults,
        )?;
        assert_eq!(rt;
            (ended, output.taken.as_slice(), faults.taken.as_slice()),
            (5, "1\n".as_bytes(), "write fault\n".as_bytes())
        );
    }
    Ok(())
}

#[test]
fn tells_a_flush_that_failed_after_a_read_that_did(rt: HostRuntime) -> Result<(), AllocError> {
    let mut output = Unflushed {
        taken: Vec::new(rt.alloc()),
    };
    let mut faults = Narrow::new(rt.alloc(), usize::MAX);
    let input = Trickle {
        bytes: b"[1]\n[2",
        size: 3,
        fails: true,
    };
    let ended = status_over(
        rt.alloc(),
        &["jp-lines", "eval", "$[0]"],
        input,
        &mut output,
        &mut faults,
    )?;
    assert_eq!(rt;
        (ended, output.taken.as_slice(), faults.taken.as_slice()),
        (5, "1\n".as_bytes(), "write fault\n".as_bytes())
    );
    Ok(())
}

#[test]
fn flushes_no_output_whose_write_failed(rt: HostRuntime) -> Result<(), AllocError> {
    let mut output = Narrow::new(rt.alloc(), 1);
    let mut faults = Narrow::new(rt.alloc(), usize::MAX);
    let ended = status_over(
        rt.alloc(),
        &["jp-lines", "eval", "$[0]"],
        b"[1]\n[2]\n".as_slice(),
        &mut output,
        &mut faults,
    )?;
    assert_eq!(rt;
        (
            ended,
            output.flushes,
            output.taken.as_slice(),
            faults.taken.as_slice()
        ),
        (5, 0, "1".as_bytes(), "write fault\n".as_bytes())
    );
    Ok(())
}

#[test]
fn writes_no_more_faults_after_one_that_failed(rt: HostRuntime) -> Result<(), AllocError> {
    let mut output = Narrow::new(rt.alloc(), 1);
    let mut faults = Narrow::new(rt.alloc(), 4);
    let ended = status_over(
        rt.alloc(),
        &["jp-lines", "eval", "--keep-going", "$[0]"],
        b"x\n[1]\n".as_slice(),
        &mut output,
        &mut faults,
    )?;
    assert_eq!(rt; (ended, faults.taken.as_slice()), (5, "line".as_bytes()));
    Ok(())
}

#[test]
fn tells_by_its_status_that_nothing_is_selected(rt: HostRuntime) -> Result<(), AllocError> {
    let refused = "line 1: document refused: NotJson\n";
    let runs: [(&[&str], &str, Ended<'_>); 14] = [
        (&["eval", "$.a"], "{\"b\":1}\n[]\n", (6, "", "", 1)),
        (&["paths", "$..a"], "{\"b\":1}\n[]\n", (6, "", "", 1)),
        (&["count", "$.a"], "{\"b\":1}\n[]\n", (6, "0\n0\n", "", 1)),
        (&["count", "$..a"], "{\"b\":1}\n", (6, "0\n", "", 1)),
        (&["eval", "$"], "", (6, "", "", 1)),
        (&["eval", "$..*"], "\n \r\n\t", (6, "", "", 1)),
        (
            &["eval", "$.a"],
            "[]\n\n{\"a\":null}\n[]",
            (0, "null\n", "", 1),
        ),
        (
            &["both", "--number", "$[?@>6]"],
            "[]\n[7]\n{}\n",
            (0, "2\t$[0]\t7\n", "", 1),
        ),
        (&["count", "$..a"], "[]\n{\"a\":1}", (0, "0\n1\n", "", 1)),
        (&["eval", "--limit", "9", "$.*"], "[]\n{}\n", (6, "", "", 1)),
        (
            &["eval", "--limit", "9", "$.*"],
            "[1]\n{}\n",
            (0, "1\n", "", 1),
        ),
        (
            &["eval", "--keep-going", "$.a"],
            "x\n{}",
            (3, "", refused, 1),
        ),
        (&["eval", "$.a"], "x\n{\"a\":1}", (3, "", refused, 1)),
        (&["eval", "$[1]"], "[]\n", (6, "", "", 1)),
    ];
    for (words, lines, ended) in runs {
        let mut line = Vec::new(rt.alloc());
        line.extend_from_slice(&["jp-lines"])?;
        line.extend_from_slice(words)?;
        line.push("--exit-status")?;
        assert_ends(&rt, rt.alloc(), line.as_slice(), lines, false, ended)?;
    }
    let fails = ["jp-lines", "eval", "--exit-status", "$.a"];
    let told = (5, "", "read fault\n", 1);
    assert_ends(&rt, rt.alloc(), &fails, "{}\n", true, told)?;
    let plain = ["jp-lines", "eval", "$.a"];
    assert_ends(&rt, rt.alloc(), &plain, "{}\n", false, (0, "", "", 1))
}

const WRITES_THE_FIRST_NODE_OF_EACH_DOCUMENT_ALONE: &[(&[&str], &str)] = &[
    (&["eval", "$.*"], "1\n{\"a\":4}\n"),
    (&["eval", "$..a"], "1\n4\n"),
    (&["paths", "$..a"], "$['a']\n$[0]['a']\n"),
    (
        &["both", "--number", "$..a"],
        "1\t$['a']\t1\n5\t$[0]['a']\t4\n",
    ),
    (&["count", "$..a"], "1\n0\n1\n"),
    (&["count", "--number", "$..*"], "1\t1\n4\t0\n5\t1\n"),
    (&["eval", "$[0].a"], "4\n"),
    (&["count", "$[0]"], "0\n0\n1\n"),
    (&["count", "--line-buffered", "$"], "1\n1\n1\n"),
];

#[test]
fn writes_the_first_node_of_each_document_alone(rt: HostRuntime) -> Result<(), AllocError> {
    let lines = "{\"a\":1,\"b\":[2,{\"a\":3}]}\n\nx\n[]\n[{\"a\":4}]\r\n";
    let told = "line 3: document refused: NotJson\n";
    for &(words, written) in WRITES_THE_FIRST_NODE_OF_EACH_DOCUMENT_ALONE {
        let mut line = Vec::new(rt.alloc());
        line.extend_from_slice(&["jp-lines"])?;
        line.extend_from_slice(words)?;
        line.extend_from_slice(&["--keep-going", "--first"])?;
        let flushes = if words.contains(&"--line-buffered") {
            6
        } else {
            1
        };
        let ended = (3, written, told, flushes);
        assert_ends(&rt, rt.alloc(), line.as_slice(), lines, false, ended)?;
    }
    Ok(())
}
