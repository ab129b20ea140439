//! The flags for scripts: `--first` and `--exit-status`.

use super::devices::{Broken, Drip, Narrow};
use super::rows::{assert_ended, ended, status_over, words};
use std::test::Fail;

/// Three texts in a list, one of them in an object, behind a number.
const DOCUMENT: &str = r#"[7,"a b",{"k":"v"},"c"]"#;

/// Words with `--first`, and what is written.
const FIRST: &[(&[&str], &str)] = &[
    (&["jp", "eval", "--first", "$[*]"], "7\n"),
    (&["jp", "eval", "$[1:]", "--first"], "\"a b\"\n"),
    (&["jp", "eval", "--first", "$..k"], "\"v\"\n"),
    (&["jp", "eval", "--first", "$[9]"], ""),
    (&["jp", "eval", "--first", "$[?@.none]"], ""),
    (&["jp", "eval", "--first", "$[3,1]"], "\"c\"\n"),
    (&["jp", "paths", "--first", "$[1:]"], "$[1]\n"),
    (&["jp", "paths", "--first", "$[2].k"], "$[2]['k']\n"),
    (&["jp", "paths", "--first", "$.none"], ""),
    (&["jp", "both", "--first", "$[::-1]"], "$[3]\t\"c\"\n"),
    (&["jp", "both", "--first", "$[2].*"], "$[2]['k']\t\"v\"\n"),
    (&["jp", "both", "--first", "$[2].none"], ""),
    (&["jp", "eval", "--raw", "--first", "$[1:]"], "a b\n"),
    (
        &["jp", "both", "--first", "--raw", "$..k"],
        "$[2]['k']\tv\n",
    ),
    (&["jp", "eval", "--first", "--raw", "$[4:]"], ""),
];

#[test]
fn writes_the_first_node_alone(rt: HostRuntime) -> Result<(), Fail> {
    for &(line, written) in FIRST {
        assert_ended(&rt, rt.alloc(), line, DOCUMENT.as_bytes(), (0, written, ""))?;
    }
    Ok(())
}

/// Words with `--exit-status` or without it, the status, and what is written.
const STATUSES: &[(&[&str], u8, &str)] = &[
    (&["jp", "eval", "--exit-status", "$[2].k"], 0, "\"v\"\n"),
    (&["jp", "eval", "--exit-status", "$[:2]"], 0, "7\n\"a b\"\n"),
    (&["jp", "eval", "$.nothere", "--exit-status"], 6, ""),
    (&["jp", "eval", "--exit-status", "$..nothere"], 6, ""),
    (&["jp", "eval", "--exit-status", "$[?@.k=='w']"], 6, ""),
    (&["jp", "eval", "--exit-status", "--raw", "$[9]"], 6, ""),
    (
        &["jp", "eval", "--raw", "--exit-status", "$[1]"],
        0,
        "a b\n",
    ),
    (&["jp", "paths", "--exit-status", "$[9]"], 6, ""),
    (&["jp", "paths", "--exit-status", "$[3]"], 0, "$[3]\n"),
    (&["jp", "both", "--exit-status", "$[3].*"], 6, ""),
    (
        &["jp", "both", "--exit-status", "$..k"],
        0,
        "$[2]['k']\t\"v\"\n",
    ),
    (
        &["jp", "eval", "--exit-status", "--first", "$[*]"],
        0,
        "7\n",
    ),
    (&["jp", "paths", "--first", "--exit-status", "$[4:]"], 6, ""),
    (&["jp", "both", "--first", "--exit-status", "$[4]"], 6, ""),
    (&["jp", "eval", "$.nothere"], 0, ""),
    (&["jp", "paths", "$[9]"], 0, ""),
    (&["jp", "both", "--first", "$[4:]"], 0, ""),
];

#[test]
fn the_status_tells_whether_a_node_is_selected(rt: HostRuntime) -> Result<(), Fail> {
    for &(line, status, written) in STATUSES {
        assert_ended(
            &rt,
            rt.alloc(),
            line,
            DOCUMENT.as_bytes(),
            (status, written, ""),
        )?;
    }
    for written in ["null", "false", "0", "\"\"", "[]"] {
        // a value that is none is a node too
        let (status, output, faults) = ended(
            rt.alloc(),
            &["jp", "eval", "--exit-status", "$"],
            written.as_bytes(),
        )?;
        assert_eq!(rt;
            (status, output.len(), faults.len()),
            (0, written.len() + 1, 0)
        );
    }
    Ok(())
}

/// Words with these flags that end otherwise, the document, the status and what is told.
const REFUSED: &[(&[&str], &str, u8, &str)] = &[
    (
        &["jp", "eval", "--first", "$["],
        DOCUMENT,
        1,
        "query refused: Syntax at 2\n",
    ),
    (
        &["jp", "paths", "--first", "$"],
        "[1",
        3,
        "document refused: NotJson\n",
    ),
    // the rest of a document is read behind its first node
    (
        &["jp", "both", "--first", "$[0]"],
        "[1,2",
        3,
        "document refused: NotJson\n",
    ),
    (
        &["jp", "eval", "--exit-status", "$["],
        DOCUMENT,
        1,
        "query refused: Syntax at 2\n",
    ),
    (
        &["jp", "eval", "--exit-status", "$.nothere"],
        "",
        3,
        "document refused: NotJson\n",
    ),
    (
        &["jp", "both", "--exit-status", "--first", "$.nothere"],
        "{}}",
        3,
        "document refused: NotJson\n",
    ),
    (
        &["jp", "paths", "--exit-status", "$"],
        "[0.5]",
        3,
        "document refused: NotWhole\n",
    ),
];

#[test]
fn refuses_as_without_them(rt: HostRuntime) -> Result<(), Fail> {
    for &(line, document, status, told) in REFUSED {
        assert_ended(
            &rt,
            rt.alloc(),
            line,
            document.as_bytes(),
            (status, "", told),
        )?;
    }
    Ok(())
}

/// Words, the number of the write or of the flush that fails, and what is written before.
const FAILING: &[(&[&str], usize, u8, &str)] = &[
    (&["jp", "eval", "--first", "$[*]"], 2, 0, "7"),
    (&["jp", "both", "--first", "$[*]"], 5, 0, "$[0]"),
    (&["jp", "eval", "--first", "$[*]"], 0, 1, "7\n"),
    (&["jp", "eval", "--exit-status", "$[*]"], 1, 0, ""),
    // the flush of an output that has nothing
    (&["jp", "eval", "--exit-status", "$[9]"], 0, 1, ""),
];

#[test]
fn tells_that_the_output_failed(rt: HostRuntime) -> Result<(), Fail> {
    for &(line, failing, failing_flush, written) in FAILING {
        let mut drip = Drip::new(rt.alloc(), 1);
        drip.failing = failing;
        drip.failing_flush = failing_flush;
        let mut faults = Narrow::new(rt.alloc(), 99, true);
        let status = status_over(
            rt.alloc(),
            words(rt.alloc(), line)?,
            DOCUMENT.as_bytes(),
            &mut drip,
            &mut faults,
        );
        assert_eq!(rt;
            (status, drip.taken.as_slice(), faults.taken.as_slice()),
            (5, written.as_bytes(), b"write fault\n".as_slice())
        );
    }
    Ok(())
}

#[test]
fn tells_that_the_input_failed(rt: HostRuntime) -> Result<(), Fail> {
    for flag in ["--first", "--exit-status"] {
        let line = ["jp", "eval", flag, "$.nothere"];
        let ended = (5, "", "read fault\n");
        assert_ended(&rt, rt.alloc(), &line, Broken(b"{}"), ended)?;
    }
    Ok(())
}
