//! Documents over which an evaluation may make so many steps, and of which no more may come out.

use super::devices::Narrow;
use super::programs::assert_ends;
use jp_check::Profile::Standard;
use jp_command::{Device, Form};
use jp_limit::OutputLimit;
use jp_lines::{Defect, Options, RefusedLine, Stop, Wanted, run_lines};
use std::alloc::{AllocError, Global};
use std::process::Abort;

/// Documents over which `$.*` makes 7 steps, 8, none since it is refused, and 6. Of the first these
/// are: the root, its two items and the end are four, and at the root it has one selector and two more.
const LISTS: &str = "[1,2]\n[3,4,5]\n[\n[6]\n";

const USED_UP: &str = "line 2: document refused: StepsUsedUp\n";

/// Subcommand and flags, the query, and how a run over these lines ends.
type Row<'a> = (&'a [&'a str], &'a str, (u8, &'a str, &'a str));

fn assert_each(
    rt: &impl Abort,
    alloc: Global,
    lines: &str,
    rows: &[Row<'_>],
) -> Result<(), AllocError> {
    for (flags, query, (status, written, told)) in rows {
        let mut line = Vec::new(alloc);
        line.push("jp-lines")?;
        line.extend_from_slice(*flags)?;
        line.push(*query)?;
        assert_ends(
            rt,
            alloc,
            line.as_slice(),
            lines,
            false,
            (*status, *written, *told, 1),
        )?;
    }
    Ok(())
}

#[test]
fn gives_each_document_as_many_steps(rt: HostRuntime) -> Result<(), AllocError> {
    let no_json = "line 3: document refused: NotJson\n";
    let both = "line 2: document refused: StepsUsedUp\nline 3: document refused: NotJson\n";
    let all = "line 1: document refused: StepsUsedUp\nline 2: document refused: StepsUsedUp\n\
        line 3: document refused: NotJson\nline 4: document refused: StepsUsedUp\n";
    let rows: [Row<'_>; 8] = [
        (
            &["eval", "--limit", "8"],
            "$.*",
            (3, "1\n2\n3\n4\n5\n", no_json),
        ),
        (&["eval", "--limit", "7"], "$.*", (3, "1\n2\n", USED_UP)),
        (
            &["eval", "--keep-going", "--limit", "8"],
            "$.*",
            (3, "1\n2\n3\n4\n5\n6\n", no_json),
        ),
        (
            &["eval", "--keep-going", "--limit=7"],
            "$.*",
            (3, "1\n2\n6\n", both),
        ),
        (
            &["both", "--number", "--keep-going", "--limit", "7"],
            "$.*",
            (3, "1\t$[0]\t1\n1\t$[1]\t2\n4\t$[0]\t6\n", both),
        ),
        (
            &["count", "--number", "--keep-going", "--limit", "7"],
            "$.*",
            (3, "1\t2\n4\t1\n", both),
        ),
        (
            &["count", "--keep-going", "--limit", "5"],
            "$.*",
            (3, "", all),
        ),
        (
            &["eval", "--keep-going", "--limit", "18446744073709551615"],
            "$.*",
            (3, "1\n2\n3\n4\n5\n6\n", no_json),
        ),
    ];
    assert_each(&rt, rt.alloc(), LISTS, &rows)
}

#[test]
fn makes_no_steps_where_a_location_is_named(rt: HostRuntime) -> Result<(), AllocError> {
    let rows: [Row<'_>; 3] = [
        (
            &["eval", "--limit", "1"],
            "$[0]",
            (3, "1\n3\n", "line 3: document refused: NotJson\n"),
        ),
        (
            &["count", "--limit", "1"],
            "$",
            (3, "1\n1\n", "line 3: document refused: NotJson\n"),
        ),
        (
            &["count", "--limit", "1"],
            "$[-1]",
            (3, "", "line 1: document refused: StepsUsedUp\n"),
        ),
    ];
    assert_each(&rt, rt.alloc(), LISTS, &rows)
}

#[test]
fn ends_a_query_that_would_go_on_for_hours(rt: HostRuntime) -> Result<(), AllocError> {
    let mut lines = String::new(rt.alloc());
    for bracket in ["[", "]"] {
        for _ in 0..120 {
            lines.push_str(bracket)?;
        }
    }
    lines.push_str("\n[[]]\n")?;
    let told = "line 1: document refused: StepsUsedUp\n";
    let rows: [Row<'_>; 2] = [
        (
            &["count", "--keep-going", "--limit", "10000"],
            "$..*..*..*..*..*..*..*..*",
            (3, "0\n", told),
        ),
        (
            &["eval", "--keep-going", "--limit", "10000"],
            "$..[?@[*]]..[?@[*]]..[?@[*]]..[?@[*]]..[?@[*]]..[?@[*]]",
            (3, "", told),
        ),
    ];
    assert_each(&rt, rt.alloc(), lines.as_str(), &rows)
}

#[test]
fn tells_how_many_steps_were_made(rt: HostRuntime) -> Result<(), AllocError> {
    let options = Options {
        profile: Standard,
        numbered: false,
        keep_going: false,
        line_buffered: false,
        explaining: false,
        exit_status: false,
        summary: false,
        reports: None,
        limit: Some(7),
        output_limit: OutputLimit::none(),
    };
    let mut output = Narrow::new(rt.alloc(), usize::MAX);
    let run = run_lines(
        rt.alloc(),
        "$.*",
        Wanted::Nodes(Form::VALUES),
        options,
        &mut Device::new(LISTS.as_bytes()),
        &mut Device::new(&mut output),
        &mut Device::new(Narrow::new(rt.alloc(), 0)),
    );
    let refused = RefusedLine {
        number: 2,
        defect: Defect::StepsUsedUp(7),
        explanation: String::new(rt.alloc()),
    };
    assert_eq!(rt; run, Err(Stop::Line(refused)));
    assert!(rt; output.taken.as_slice() == "1\n2\n".as_bytes());
    Ok(())
}

#[test]
fn goes_no_further_than_the_first_node(rt: HostRuntime) -> Result<(), AllocError> {
    // The root, one item, and at the root one selector and two more, are the steps to a first node.
    let no_json = "line 3: document refused: NotJson\n";
    let rows: [Row<'_>; 4] = [
        (
            &["eval", "--first", "--limit", "5"],
            "$.*",
            (3, "1\n3\n", no_json),
        ),
        (
            &["eval", "--first", "--limit", "4"],
            "$.*",
            (3, "", "line 1: document refused: StepsUsedUp\n"),
        ),
        (
            &["count", "--first", "--limit", "5"],
            "$.*",
            (3, "1\n1\n", no_json),
        ),
        (
            &["both", "--first", "--number", "--limit", "5"],
            "$.*",
            (3, "1\t$[0]\t1\n2\t$[0]\t3\n", no_json),
        ),
    ];
    assert_each(&rt, rt.alloc(), LISTS, &rows)
}

const MANY_NODES: &str = "line 2: document refused: TooManyNodes\n";

const MANY_BYTES: &str = "line 2: document refused: TooManyBytes\n";

const NO_JSON: &str = "line 3: document refused: NotJson\n";

#[test]
fn no_more_nodes_come_out_of_a_document(rt: HostRuntime) -> Result<(), AllocError> {
    let both = "line 2: document refused: TooManyNodes\nline 3: document refused: NotJson\n";
    let rows: [Row<'_>; 10] = [
        (
            &["eval", "--max-nodes", "3"],
            "$.*",
            (3, "1\n2\n3\n4\n5\n", NO_JSON),
        ),
        (
            &["eval", "--max-nodes", "2"],
            "$.*",
            (3, "1\n2\n", MANY_NODES),
        ),
        (
            &["paths", "--keep-going", "--max-nodes=2"],
            "$.*",
            (3, "$[0]\n$[1]\n$[0]\n", both),
        ),
        (
            &["both", "--number", "--keep-going", "--max-nodes", "2"],
            "$.*",
            (3, "1\t$[0]\t1\n1\t$[1]\t2\n4\t$[0]\t6\n", both),
        ),
        (
            &["count", "--keep-going", "--max-nodes", "2"],
            "$.*",
            (3, "2\n1\n", both),
        ),
        (
            &["count", "--max-nodes", "3"],
            "$.*",
            (3, "2\n3\n", NO_JSON),
        ),
        (
            &[
                "eval",
                "--keep-going",
                "--max-nodes",
                "18446744073709551615",
            ],
            "$.*",
            (3, "1\n2\n3\n4\n5\n6\n", NO_JSON),
        ),
        (
            &["eval", "--first", "--max-nodes", "1"],
            "$.*",
            (3, "1\n3\n", NO_JSON),
        ),
        (
            &["count", "--first", "--max-nodes", "1"],
            "$.*",
            (3, "1\n1\n", NO_JSON),
        ),
        (
            &["eval", "--max-nodes", "1"],
            "$[0]",
            (3, "1\n3\n", NO_JSON),
        ),
    ];
    assert_each(&rt, rt.alloc(), LISTS, &rows)
}

#[test]
fn no_more_bytes_come_out_of_a_document(rt: HostRuntime) -> Result<(), AllocError> {
    let both = "line 2: document refused: TooManyBytes\nline 3: document refused: NotJson\n";
    let first = "line 1: document refused: TooManyBytes\n";
    let rows: [Row<'_>; 10] = [
        (
            &["eval", "--max-bytes", "6"],
            "$.*",
            (3, "1\n2\n3\n4\n5\n", NO_JSON),
        ),
        (
            &["eval", "--max-bytes", "5"],
            "$.*",
            (3, "1\n2\n", MANY_BYTES),
        ),
        (
            &["eval", "--keep-going", "--number", "--max-bytes=11"],
            "$.*",
            (3, "1\t1\n1\t2\n4\t6\n", both),
        ),
        (
            &["paths", "--keep-going", "--max-bytes", "14"],
            "$.*",
            (3, "$[0]\n$[1]\n$[0]\n", both),
        ),
        (
            &["count", "--max-bytes", "2"],
            "$.*",
            (3, "2\n3\n", NO_JSON),
        ),
        (&["count", "--max-bytes", "1"], "$.*", (3, "", first)),
        (
            &["eval", "--first", "--max-bytes", "2"],
            "$.*",
            (3, "1\n3\n", NO_JSON),
        ),
        (
            &["both", "--number", "--max-bytes", "9"],
            "$[1]",
            (3, "1\t$[1]\t2\n2\t$[1]\t4\n", NO_JSON),
        ),
        (
            &["both", "--number", "--max-bytes", "8"],
            "$[1]",
            (3, "", first),
        ),
        (&["eval", "--max-bytes", "1"], "$.a", (3, "", NO_JSON)),
    ];
    assert_each(&rt, rt.alloc(), LISTS, &rows)
}

#[test]
fn bytes_are_counted_and_not_characters(rt: HostRuntime) -> Result<(), AllocError> {
    // U+00E9 has two bytes.
    let rows: [Row<'_>; 2] = [
        (
            &["eval", "--raw", "--max-bytes", "3"],
            "$",
            (0, "\u{e9}\n", ""),
        ),
        (
            &["eval", "--raw", "--max-bytes", "2"],
            "$",
            (3, "", "line 1: document refused: TooManyBytes\n"),
        ),
    ];
    assert_each(&rt, rt.alloc(), "\"\u{e9}\"\n", &rows)
}

#[test]
fn what_a_limit_is_met_by_first_is_told(rt: HostRuntime) -> Result<(), AllocError> {
    // A node is counted before its line is made, and the bytes behind it.
    let rows: [Row<'_>; 4] = [
        (
            &["eval", "--max-nodes", "1", "--max-bytes", "3"],
            "$.*",
            (3, "", "line 1: document refused: TooManyNodes\n"),
        ),
        (
            &["eval", "--max-nodes", "2", "--max-bytes", "4"],
            "$.*",
            (3, "1\n2\n", MANY_NODES),
        ),
        (
            &["eval", "--max-nodes", "2", "--max-bytes", "3"],
            "$.*",
            (3, "", "line 1: document refused: TooManyBytes\n"),
        ),
        (
            &[
                "eval",
                "--limit",
                "7",
                "--max-nodes",
                "1000",
                "--max-bytes",
                "1000",
            ],
            "$.*",
            (3, "1\n2\n", USED_UP),
        ),
    ];
    assert_each(&rt, rt.alloc(), LISTS, &rows)
}

#[test]
fn a_row_is_within_the_limits_or_refused(rt: HostRuntime) -> Result<(), AllocError> {
    let rows: [Row<'_>; 6] = [
        (
            &["columns", "--max-nodes", "4", "$[0]"],
            "$.*",
            (3, "1\t[1,2]\n3\t[3,4,5]\n", NO_JSON),
        ),
        (
            &["columns", "--max-nodes", "3", "$[0]"],
            "$.*",
            (3, "1\t[1,2]\n", MANY_NODES),
        ),
        (
            &["columns", "--names", "--max-bytes", "8", "$[0]"],
            "$.*",
            (3, "$[0]\t$.*\n1\t[1,2]\n", MANY_BYTES),
        ),
        (
            &["columns", "--csv", "--max-bytes", "12", "$[0]"],
            "$.*",
            (3, "1,\"[1,2]\"\r\n", MANY_BYTES),
        ),
        (
            &["columns", "--csv", "--max-bytes", "10", "$[0]"],
            "$.*",
            (3, "", "line 1: document refused: TooManyBytes\n"),
        ),
        (
            &[
                "columns",
                "--keep-going",
                "--number",
                "--max-bytes",
                "10",
                "$[0]",
            ],
            "$.*",
            (
                3,
                "1\t1\t[1,2]\n4\t6\t6\n",
                "line 2: document refused: TooManyBytes\nline 3: document refused: NotJson\n",
            ),
        ),
    ];
    assert_each(&rt, rt.alloc(), LISTS, &rows)
}

#[test]
fn a_kept_line_is_within_the_limits_or_refused(rt: HostRuntime) -> Result<(), AllocError> {
    let rows: [Row<'_>; 5] = [
        (
            &["keep", "--max-bytes", "9"],
            "@.a",
            (0, "{\"a\":1}\n{\"a\":20}\n", ""),
        ),
        (
            &["keep", "--max-bytes", "8"],
            "@.a",
            (3, "{\"a\":1}\n", MANY_BYTES),
        ),
        (
            &["keep", "--number", "--keep-going", "--max-bytes", "10"],
            "@.a",
            (3, "1\t{\"a\":1}\n", MANY_BYTES),
        ),
        (
            &["keep", "--max-nodes", "1"],
            "@.a",
            (0, "{\"a\":1}\n{\"a\":20}\n", ""),
        ),
        (&["keep", "--max-bytes", "1"], "@.c", (0, "", "")),
    ];
    assert_each(&rt, rt.alloc(), "{\"a\":1}\n{\"a\":20}\n{\"b\":3}\n", &rows)
}

#[test]
fn what_is_refused_for_its_size_is_counted_so(rt: HostRuntime) -> Result<(), AllocError> {
    let rows: [Row<'_>; 2] = [
        (
            &[
                "count",
                "--keep-going",
                "--summary",
                "--reports",
                "1",
                "--max-nodes",
                "2",
            ],
            "$.*",
            (
                3,
                "2\n1\n",
                "line 2: document refused: TooManyNodes\nmore lines refused: 1\n\
                lines 4, documents 2, refused 2, nodes 3\n",
            ),
        ),
        (
            &["eval", "--summary", "--max-bytes", "5"],
            "$.*",
            (
                3,
                "1\n2\n",
                "line 2: document refused: TooManyBytes\nlines 2, documents 1, refused 1, nodes 2\n",
            ),
        ),
    ];
    assert_each(&rt, rt.alloc(), LISTS, &rows)
}

#[test]
fn counting_ends_at_the_node_that_is_too_many(rt: HostRuntime) -> Result<(), AllocError> {
    let mut lines = String::new(rt.alloc());
    for bracket in ["[", "]"] {
        for _ in 0..120 {
            lines.push_str(bracket)?;
        }
    }
    let told = "line 1: document refused: TooManyNodes\n";
    let rows: [Row<'_>; 2] = [
        (
            &["count", "--max-nodes", "1000"],
            "$..*..*..*..*..*..*..*..*",
            (3, "", told),
        ),
        (
            &["paths", "--max-nodes", "100"],
            "$..*..*..*..*..*..*..*..*",
            (3, "", told),
        ),
    ];
    assert_each(&rt, rt.alloc(), lines.as_str(), &rows)
}
