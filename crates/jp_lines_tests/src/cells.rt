//! Rows by the examples of RFC 4180, and the row of a document.

use jp_cells::{Format, Room, RowFault, Style, push_columns, push_row};
use jp_check::{Profile, read_query};
use jp_held::Document;
use jp_limit::OutputLimit;
use jp_select::Steps;
use std::alloc::Global;
use std::test::Fail;

const TABS: Style = Style {
    format: Format::Tabs,
    raw: false,
};

const RAW_TABS: Style = Style { raw: true, ..TABS };

const CSV: Style = Style {
    format: Format::Csv,
    raw: false,
};

const RAW_CSV: Style = Style { raw: true, ..CSV };

const ROWS: &[(Style, &[&str], &str)] = &[
    // RFC 4180 section 2, rules 1 and 4 to 7
    (CSV, &["aaa", "bbb", "ccc"], "aaa,bbb,ccc\r\n"),
    (CSV, &["aaa", "b\r\nbb", "ccc"], "aaa,\"b\r\nbb\",ccc\r\n"),
    (CSV, &["aaa", "b\"bb", "ccc"], "aaa,\"b\"\"bb\",ccc\r\n"),
    (CSV, &["a,b", " c "], "\"a,b\", c \r\n"),
    (CSV, &["\"", "\"\""], "\"\"\"\",\"\"\"\"\"\"\r\n"),
    (CSV, &["", ""], ",\r\n"),
    (CSV, &[""], "\"\"\r\n"),
    (TABS, &["1", "[2,3]", ""], "1\t[2,3]\t\n"),
    (TABS, &[""], "\n"),
    (TABS, &["\"a\\nb\""], "\"a\\nb\"\n"),
    (
        RAW_TABS,
        &["a\tb", "\\", "c\r\nd"],
        "a\\tb\t\\\\\tc\\r\\nd\n",
    ),
    (RAW_TABS, &["été", "\"x\", y"], "été\t\"x\", y\n"),
];

#[test]
fn rows(rt: HostRuntime) -> Result<(), Fail> {
    for &(style, cells, wanted) in ROWS {
        let mut row = String::new(rt.alloc());
        push_row(style, cells, &mut row)?;
        assert!(rt; row.as_str() == wanted, "{row}");
    }
    Ok(())
}

/// The row of a document, of no more than so much, and how many nodes its queries select.
fn row_within(
    alloc: Global,
    style: Style,
    limit: OutputLimit,
    queries: &[&str],
    document: &str,
) -> Result<Result<(String, u64), RowFault>, Fail> {
    let mut read = Vec::new(alloc);
    for query in queries {
        let query = read_query(alloc, query, Profile::Standard)
            .ok()
            .ok_or("refused")?;
        read.push(query)?;
    }
    let document = Document::read(alloc, document.as_bytes())?;
    let mut room = Room::new(alloc);
    let mut steps = Steps::unlimited();
    let mut row = String::new(alloc);
    let root = document.value();
    let pushed = push_columns(
        alloc, style, limit, root, &read, &mut room, &mut steps, &mut row,
    );
    match pushed {
        Ok(count) => Ok(Ok((row, count))),
        Err(fault) => Ok(Err(fault)),
    }
}

/// The row of a document, and how many nodes its queries select.
fn row_of(
    alloc: Global,
    style: Style,
    queries: &[&str],
    document: &str,
) -> Result<(String, u64), Fail> {
    match row_within(alloc, style, OutputLimit::none(), queries, document)? {
        Ok(made) => Ok(made),
        Err(_) => Err("no memory")?,
    }
}

#[test]
fn limits(rt: HostRuntime) -> Result<(), Fail> {
    let queries = ["$.a", "$.b[*]", "$.c"];
    let document = r#"{"a":"x","b":[1,"2",[3]],"c":0}"#;
    // The row in CSV is `"""x""","[1,""2"",[3]]",0`, and two bytes end it.
    let table = [
        (TABS, 5, 18, None),
        (TABS, 4, 18, Some(RowFault::TooManyNodes)),
        (TABS, 5, 17, Some(RowFault::TooManyBytes)),
        (TABS, 0, 17, Some(RowFault::TooManyNodes)),
        (CSV, 5, 27, None),
        (CSV, 5, 26, Some(RowFault::TooManyBytes)),
        (CSV, 1, 1, Some(RowFault::TooManyBytes)),
    ];
    for (style, nodes, bytes, wanted) in table {
        let limit = OutputLimit {
            nodes: Some(nodes),
            bytes: Some(bytes),
        };
        let made = row_within(rt.alloc(), style, limit, &queries, document)?;
        assert!(rt; made.err() == wanted);
    }
    Ok(())
}

#[test]
fn columns(rt: HostRuntime) -> Result<(), Fail> {
    let queries = ["$.a", "$.b[*]", "$.c"];
    let document = r#"{"a":"x\ty","b":[1,"2",[3]],"c":{"d":null}}"#;
    let table = [
        (
            TABS,
            document,
            "\"x\\ty\"\t[1,\"2\",[3]]\t{\"d\":null}\n",
            5,
        ),
        (
            RAW_TABS,
            document,
            "x\\ty\t[1,\"2\",[3]]\t{\"d\":null}\n",
            5,
        ),
        (
            CSV,
            document,
            "\"\"\"x\\ty\"\"\",\"[1,\"\"2\"\",[3]]\",\"{\"\"d\"\":null}\"\r\n",
            5,
        ),
        (
            RAW_CSV,
            document,
            "x\ty,\"[1,\"\"2\"\",[3]]\",\"{\"\"d\"\":null}\"\r\n",
            5,
        ),
        (TABS, r#"{"b":[7],"a":""}"#, "\"\"\t7\t\n", 2),
        (RAW_TABS, r#"{"b":["7"],"a":""}"#, "\t7\t\n", 2),
        (TABS, "[]", "\t\t\n", 0),
    ];
    for (style, document, wanted, nodes) in table {
        let (row, count) = row_of(rt.alloc(), style, &queries, document)?;
        assert!(rt; row.as_str() == wanted && count == nodes, "{row}{count}");
    }
    Ok(())
}
