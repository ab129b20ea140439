//! Rows of columns.

use super::devices::{Alone, Narrow, Trickle};
use super::programs::{assert_ends, words};
use super::refusals::told;
use jp_command::Device;
use jp_explain::Reason;
use jp_lines::run_program;
use std::alloc::AllocError;
use std::test::Fail;

/// Two documents, a blank line between them, a line that is none, and a last one without a newline.
const LINES: &str = "{\"id\":1,\"name\":\"Ann\\tA, \\\"x\\\"\",\"tags\":[\"a\",\"b\"]}\r\n\n\
    {\"name\":\"\\\\\",\"tags\":[7]}\n{\"id\":\n{\"id\":{\"n\":null},\"name\":\"\",\"tags\":[]}";

const REFUSED: &str = "line 4: document refused: NotJson\n";

#[test]
fn a_cell_for_each_query(rt: HostRuntime) -> Result<(), AllocError> {
    let runs: [(&[&str], &str); 5] = [
        (
            &["--keep-going"],
            "1\t\"Ann\\tA, \\\"x\\\"\"\t[\"a\",\"b\"]\n\t\"\\\\\"\t7\n{\"n\":null}\t\"\"\t\n",
        ),
        (
            &["--keep-going", "--raw"],
            "1\tAnn\\tA, \"x\"\t[\"a\",\"b\"]\n\t\\\\\t7\n{\"n\":null}\t\t\n",
        ),
        (
            &["--keep-going", "--csv"],
            "1,\"\"\"Ann\\tA, \\\"\"x\\\"\"\"\"\",\"[\"\"a\"\",\"\"b\"\"]\"\r\n\
            ,\"\"\"\\\\\"\"\",7\r\n\"{\"\"n\"\":null}\",\"\"\"\"\"\",\r\n",
        ),
        (
            &["--keep-going", "--csv", "--raw", "--number", "--names"],
            "line,$.id,$.name,$.tags[*]\r\n1,1,\"Ann\tA, \"\"x\"\"\",\"[\"\"a\"\",\"\"b\"\"]\"\r\n\
            3,,\\,7\r\n5,\"{\"\"n\"\":null}\",,\r\n",
        ),
        (
            &["--names", "--raw", "--number", "--line-buffered"],
            "line\t$.id\t$.name\t$.tags[*]\n1\t1\tAnn\\tA, \"x\"\t[\"a\",\"b\"]\n3\t\t\\\\\t7\n",
        ),
    ];
    for (flags, written) in runs {
        let mut line = Vec::new(rt.alloc());
        line.extend_from_slice(&["jp-lines", "columns"])?;
        line.extend_from_slice(flags)?;
        line.extend_from_slice(&["$.id", "$.name", "$.tags[*]"])?;
        let flushes = if flags.contains(&"--line-buffered") {
            4
        } else {
            1
        };
        assert_ends(
            &rt,
            rt.alloc(),
            line.as_slice(),
            LINES,
            false,
            (3, written, REFUSED, flushes),
        )?;
    }
    Ok(())
}

const FLAGS_AND_NAMES: &[(&[&str], &str, &str)] = &[
    // flags between the queries; an empty cell alone
    (&["$.a", "--csv"], "{}", "\"\"\r\n"),
    (&["$.a"], "{}", "\n"),
    (
        &["$.a", "--raw", "$['b,c']", "--csv", "--names"],
        "{\"b,c\":2}",
        "$.a,\"$['b,c']\"\r\n,2\r\n",
    ),
    // blank space in a query, and a backslash
    (
        &["--names", "$ \t.a", "$['\\n']"],
        "",
        "$ \\t.a\t$['\\\\n']\n",
    ),
];

#[test]
fn flags_and_names(rt: HostRuntime) -> Result<(), AllocError> {
    for &(flags, lines, written) in FLAGS_AND_NAMES {
        let mut line = Vec::new(rt.alloc());
        line.extend_from_slice(&["jp-lines", "columns"])?;
        line.extend_from_slice(flags)?;
        assert_ends(
            &rt,
            rt.alloc(),
            line.as_slice(),
            lines,
            false,
            (0, written, "", 1),
        )?;
    }
    Ok(())
}

/// Records with members that are not asked for, before and behind those that are; a name twice; none of
/// those; a list, a text; and a fault in what is not asked for.
const MEMBERS: &str =
    "{\"x\":1,\"b\":[2,{\"c\":3}],\"y\":0,\"a\":4}\n{\"a\":1,\"x\":0,\"a\":2}\n{\"x\":{\"a\":2}}\n\
    [{\"a\":2}]\n\"a\"\n{\"x\":1.5,\"a\":2}\n";

const MEMBERS_THAT_ARE_NOT_ASKED_FOR: &[(&[&str], &str)] = &[
    (&["$.a", "$.b[*]"], "4\t[2,{\"c\":3}]\n2\t\n\t\n\t\n\t\n"),
    (&["$.b..c", "$['a','z']"], "3\t4\n\t2\n\t\n\t\n\t\n"),
    (&["$.z", "$.w"], "\t\n\t\n\t\n\t\n\t\n"),
    // the second of these asks for the whole document
    (&["$.a", "$[?@.a==$.x.a].a"], "4\t\n2\t\n\t2\n\t\n\t\n"),
];

#[test]
fn members_that_are_not_asked_for(rt: HostRuntime) -> Result<(), AllocError> {
    let told = "line 6: document refused: NotWhole at $['x']\n";
    for &(queries, written) in MEMBERS_THAT_ARE_NOT_ASKED_FOR {
        let mut line = Vec::new(rt.alloc());
        line.extend_from_slice(&["jp-lines", "columns", "--whole", "--keep-going"])?;
        line.extend_from_slice(queries)?;
        let ended = (3, written, told, 1);
        assert_ends(&rt, rt.alloc(), line.as_slice(), MEMBERS, false, ended)?;
    }
    Ok(())
}

#[test]
fn queries_share_the_steps_of_a_document(rt: HostRuntime) -> Result<(), AllocError> {
    // Over `[1,2]` the query `$.*` makes 7 steps, over `[3]` 6.
    let used_up = "line 1: document refused: StepsUsedUp\n";
    let runs = [
        ("14", (0, "[1,2]\t[1,2]\n3\t3\n", "", 1)),
        ("13", (3, "3\t3\n", used_up, 1)),
        ("12", (3, "3\t3\n", used_up, 1)),
    ];
    for (limit, ended) in runs {
        let line = [
            "jp-lines",
            "columns",
            "--keep-going",
            "--limit",
            limit,
            "$.*",
            "$.*",
        ];
        assert_ends(&rt, rt.alloc(), &line, "[1,2]\n[3]\n", false, ended)?;
    }
    Ok(())
}

#[test]
fn reads_all_queries_before_the_input(rt: HostRuntime) -> Result<(), AllocError> {
    let refused = ("$.b[", "Syntax at 4", 4, Reason::InBrackets, "");
    let told = told(rt.alloc(), refused.0, refused)?;
    let line = ["jp-lines", "columns", "--names", "$.a", "$.b[", "$.c["];
    assert_ends(
        &rt,
        rt.alloc(),
        &line,
        "1\n",
        true,
        (1, "", told.as_str(), 0),
    )
}

#[test]
fn stops_where_a_write_fails(rt: HostRuntime) -> Result<(), Fail> {
    let line = ["jp-lines", "columns", "--names", "$.a", "$.b"];
    let whole = "$.a\t$.b\n1\t\n\t2\n";
    for room in 0..whole.len() {
        let mut output = Narrow::new(rt.alloc(), room);
        let mut faults = Narrow::new(rt.alloc(), usize::MAX);
        let input = Trickle {
            bytes: b"{\"a\":1}\n{\"b\":2}\n",
            size: 1,
            fails: false,
        };
        let ended = run_program(
            rt.alloc(),
            words(rt.alloc(), &line)?,
            &mut Alone::new(input),
            &mut Device::new(&mut output),
            &mut Device::new(&mut faults),
        );
        assert_eq!(rt; ended, 5);
        assert!(rt; output.taken.as_slice() == &whole.as_bytes()[..room]);
        assert!(rt; faults.taken.as_slice() == "write fault\n".as_bytes());
    }
    Ok(())
}
