//! Lines that are kept by an expression, byte for byte, and those that are not.

use super::devices::{Narrow, Trickle};
use super::programs::{assert_ends, status_over};
use std::alloc::{AllocError, Global};
use std::process::Abort;

/// Records of which the third has blanks and a carriage return, the fourth is blank, the fifth no
/// document, and the last has no newline.
const LOG: &str = "{\"level\":\"error\",\"status\":502}\n{\"level\":\"info\",\"status\":200}\n\
    \t{ \"status\" : 500, \"level\":\"error\" } \r\n \r\n{\"level\":\n{\"level\":\"error\"}\n\
    {\"st\\u0061tus\":7,\"tags\":[\"a\",\"b\"],\"level\":\"error\"}";

/// What is kept of it where the level is `error` and the status at least 500.
const SEVERE: &str = "{\"level\":\"error\",\"status\":502}\n\
    \t{ \"status\" : 500, \"level\":\"error\" } \r\n";

const NO_JSON: &str = "line 5: document refused: NotJson\n";

#[test]
fn keeps_lines_byte_for_byte(rt: HostRuntime) -> Result<(), AllocError> {
    let last = "{\"st\\u0061tus\":7,\"tags\":[\"a\",\"b\"],\"level\":\"error\"}\n";
    let errors = "1\t{\"level\":\"error\",\"status\":502}\n\
        3\t\t{ \"status\" : 500, \"level\":\"error\" } \r\n6\t{\"level\":\"error\"}\n\
        7\t{\"st\\u0061tus\":7,\"tags\":[\"a\",\"b\"],\"level\":\"error\"}\n";
    let severe = "@.level==\"error\" && @.status>=500";
    let rows: [(&[&str], &str); 9] = [
        (&["jp-lines", "keep", severe], SEVERE),
        (&["jp-lines", "keep", "--keep-going", severe], SEVERE),
        (&["jp-lines", "keep", "--keep-going", "$.status == 7"], last),
        (
            &[
                "jp-lines",
                "keep",
                "--keep-going",
                "@.tags[?@ == 'b'] || !@.level",
            ],
            last,
        ),
        (
            &["jp-lines", "keep", "--keep-going", "count(@.tags[*]) == 2"],
            last,
        ),
        (
            &[
                "jp-lines",
                "keep",
                "--keep-going",
                "--extended",
                "distinct(@.tags[*])",
            ],
            last,
        ),
        (
            &[
                "jp-lines",
                "keep",
                "--keep-going",
                "--number",
                "search(@.level, 'err')",
            ],
            errors,
        ),
        (&["jp-lines", "keep", "--keep-going", "!(@.level)"], ""),
        (
            &["jp-lines", "keep", "--line-buffered", "@.level < 'b'"],
            "",
        ),
    ];
    for (line, written) in rows {
        let flushes = if line.contains(&"--line-buffered") {
            5
        } else {
            1
        };
        assert_ends(
            &rt,
            rt.alloc(),
            line,
            LOG,
            false,
            (3, written, NO_JSON, flushes),
        )?;
    }
    Ok(())
}

/// Records with members that are not asked for, before and behind those that are; a name twice; none of
/// those; no objects; and faults in what is not asked for.
const MEMBERS: &str =
    "{\"x\":1,\"a\":2,\"y\":[3]}\n{\"a\":1,\"x\":0,\"a\":2}\n{\"x\":{\"a\":2}}\n[{\"a\":2}]\n\"a\"\n\
    {\"x\":1.5,\"a\":2}\n{\"a\":2,\"x\":[1,}\n{\"\\u0061\":2,\"c\":2}\n";

#[test]
fn members_that_are_not_asked_for(rt: HostRuntime) -> Result<(), AllocError> {
    let told = "line 6: document refused: NotWhole at $['x']\nline 7: document refused: NotJson\n";
    let two = "{\"x\":1,\"a\":2,\"y\":[3]}\n{\"a\":1,\"x\":0,\"a\":2}\n";
    let last = "{\"\\u0061\":2,\"c\":2}\n";
    let inside = "{\"x\":{\"a\":2}}\n[{\"a\":2}]\n";
    let others = "{\"x\":{\"a\":2}}\n[{\"a\":2}]\n\"a\"\n";
    let all = format!(in rt.alloc(); "{two}{others}{last}")?;
    let anywhere = format!(in rt.alloc(); "{two}{inside}{last}")?;
    let with_a = format!(in rt.alloc(); "{two}{last}")?;
    let rows = [
        ("@.a==2", with_a.as_str()),
        (
            "@.a==2&&@.y[0]==3||@.c",
            "{\"x\":1,\"a\":2,\"y\":[3]}\n{\"\\u0061\":2,\"c\":2}\n",
        ),
        ("!@.a", others),
        ("@.b", ""),
        ("1==1", all.as_str()),
        // these ask for the whole document
        ("$.x.a==2&&!@.b", "{\"x\":{\"a\":2}}\n"),
        ("count(@.*)==3", "{\"x\":1,\"a\":2,\"y\":[3]}\n"),
        ("@..a", anywhere.as_str()),
    ];
    for (test, written) in rows {
        let line = ["jp-lines", "keep", "--whole", "--keep-going", test];
        let ended = (3, written, told, 1);
        assert_ends(&rt, rt.alloc(), &line, MEMBERS, false, ended)?;
    }
    Ok(())
}

#[test]
fn keeps_the_same_however_many_bytes_a_read_gives(rt: HostRuntime) -> Result<(), AllocError> {
    for size in [1, 2, 5, 31, 32, 33, 1_000] {
        let mut output = Narrow::new(rt.alloc(), usize::MAX);
        let mut faults = Narrow::new(rt.alloc(), usize::MAX);
        let input = Trickle {
            bytes: LOG.as_bytes(),
            size,
            fails: false,
        };
        let ended = status_over(
            rt.alloc(),
            &["jp-lines", "keep", "@.status >= 500", "--keep-going"],
            input,
            &mut output,
            &mut faults,
        )?;
        assert_eq!(rt;
            (ended, output.taken.as_slice(), faults.taken.as_slice()),
            (3, SEVERE.as_bytes(), NO_JSON.as_bytes())
        );
    }
    Ok(())
}

#[test]
fn says_by_its_status_whether_a_line_is_kept(rt: HostRuntime) -> Result<(), AllocError> {
    for (expression, status, written) in [("@ == 2", 0, "2\n"), ("@ == 3", 6, "")] {
        assert_ends(
            &rt,
            rt.alloc(),
            &["jp-lines", "keep", "--exit-status", expression],
            "1\n2",
            false,
            (status, written, "", 1),
        )?;
    }
    Ok(())
}

/// Runs `keep` with a write of the output that fails behind so many bytes.
fn assert_prefix(rt: &impl Abort, alloc: Global, room: usize) -> Result<(), AllocError> {
    let mut output = Narrow::new(alloc, room);
    let mut faults = Narrow::new(alloc, usize::MAX);
    let ended = status_over(
        alloc,
        &["jp-lines", "keep", "--keep-going", "@.status >= 500"],
        LOG.as_bytes(),
        &mut output,
        &mut faults,
    )?;
    assert_eq!(rt;
        (
            ended,
            Some(output.taken.as_slice()),
            faults.taken.as_slice().ends_with(b"write fault\n")
        ),
        (5, SEVERE.as_bytes().get(..room), true)
    );
    Ok(())
}

#[test]
fn writes_a_prefix_where_a_write_fails(rt: HostRuntime) -> Result<(), AllocError> {
    for room in 0..SEVERE.len() {
        assert_prefix(&rt, rt.alloc(), room)?;
    }
    Ok(())
}

#[test]
fn gives_a_document_up_that_needs_more_steps(rt: HostRuntime) -> Result<(), AllocError> {
    assert_ends(
        &rt,
        rt.alloc(),
        &[
            "jp-lines",
            "keep",
            "--keep-going",
            "--limit",
            "12",
            "@[?@ == 3]",
        ],
        "[3]\n[1,1,1,1,1,1,1,1,1,3]\n[1,3]\n",
        false,
        (
            3,
            "[3]\n[1,3]\n",
            "line 2: document refused: StepsUsedUp\n",
            1,
        ),
    )
}
