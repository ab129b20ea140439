//! How many nodes the lines are of.

use jp_check::{Profile, read_query};
use jp_command::{
    Device, Form, OutputLimit, SelectionFault, Spare, selected_lines, write_selected,
};
use jp_evaluate::Patterns;
use jp_held::Document;
use jp_select::Steps;
use std::test::Fail;

/// A query, how many nodes are asked for, how many of these there are, and their lines.
const ROWS: &[(&str, Option<u64>, u64, &str)] = &[
    ("$", None, 1, "[1,[2,2]]\n"),
    ("$..*", None, 4, "1\n[2,2]\n2\n2\n"),
    ("$..*", Some(3), 3, "1\n[2,2]\n2\n"),
    ("$..*", Some(0), 0, ""),
    ("$[5]", Some(7), 0, ""),
];

#[test]
fn lines_are_counted(rt: HostRuntime) -> Result<(), Fail> {
    let alloc = rt.alloc();
    let document = Document::read(alloc, b"[1,[2,2]]")?;
    for &(query, most, count, text) in ROWS {
        let query = read_query(alloc, query, Profile::Standard)
            .ok()
            .ok_or("refused")?;
        let lines = selected_lines(
            alloc,
            Form::VALUES,
            "",
            most,
            OutputLimit::none(),
            document.value(),
            &query,
            &mut Patterns::new(alloc),
            &mut Steps::unlimited(),
        )?;
        assert_eq!(rt; (lines.text.as_str(), lines.count), (text, count));
    }
    Ok(())
}

/// A query, how many nodes are asked for, how many of these there are, and how many bytes their lines have behind
/// a text of two: of `[1,[2,2]]` the values `1`, `[2,2]`, `2` and `2`.
const LIMITED: &[(&str, Option<u64>, u64, u64)] = &[
    ("$", None, 1, 12),
    ("$..*", None, 4, 20),
    ("$..*", Some(2), 2, 12),
    ("$[1][*]", Some(1), 1, 4),
];

#[test]
fn lines_keep_to_a_limit(rt: HostRuntime) -> Result<(), Fail> {
    let alloc = rt.alloc();
    let document = Document::read(alloc, b"[1,[2,2]]")?;
    for &(query, most, nodes, bytes) in LIMITED {
        let query = read_query(alloc, query, Profile::Standard)
            .ok()
            .ok_or("refused")?;
        let rows = [
            (nodes, bytes, None),
            (nodes - 1, bytes, Some(SelectionFault::TooManyNodes)),
            (nodes, bytes - 1, Some(SelectionFault::TooManyBytes)),
            (nodes - 1, bytes - 1, Some(SelectionFault::TooManyNodes)),
            (
                nodes - 1,
                3,
                Some(if nodes == 1 {
                    SelectionFault::TooManyNodes
                } else {
                    SelectionFault::TooManyBytes
                }),
            ),
        ];
        for (most_nodes, most_bytes, fault) in rows {
            let limit = OutputLimit {
                nodes: Some(most_nodes),
                bytes: Some(most_bytes),
            };
            let mut patterns = Patterns::new(alloc);
            let mut steps = Steps::unlimited();
            let lines = selected_lines(
                alloc,
                Form::VALUES,
                "> ",
                most,
                limit,
                document.value(),
                &query,
                &mut patterns,
                &mut steps,
            );
            assert_eq!(rt; lines.err(), fault);
        }
    }
    Ok(())
}

#[test]
fn written_lines_are_counted(rt: HostRuntime) -> Result<(), Fail> {
    let alloc = rt.alloc();
    let document = Document::read(alloc, b"[1,[2,2]]")?;
    let mut spare = Spare::new(alloc);
    for (query, count) in [("$..*", 4), ("$[5]", 0)] {
        let query = read_query(alloc, query, Profile::Standard)
            .ok()
            .ok_or("refused")?;
        let mut written = Vec::new(alloc);
        let answer = write_selected(
            alloc,
            Form::PATHS,
            "",
            document.value(),
            &query,
            &mut spare,
            &mut Device::new(&mut written),
        );
        assert_eq!(rt; answer, Ok(count));
    }
    Ok(())
}
