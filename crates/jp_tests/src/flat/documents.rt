//! Rows of documents, read into tables.

use jp_decimal::Numbers;
use jp_flat::{Room, flat_document};
use jp_lent::{push_value, value_text};
use std::alloc::{AllocError, Global};
use std::process::Abort;
use std::test::Fail;

/// The compact text of a document in tables, `no document` where they do not hold it.
fn flat_text(alloc: Global, text: &str) -> Result<String, AllocError> {
    match flat_document(alloc, text.as_bytes()) {
        Some(flat) => value_text(alloc, flat.value()),
        None => String::from_str(alloc, "no document"),
    }
}

/// Asserts what a document is printed as.
pub(crate) fn assert_printed(
    rt: &impl Abort,
    alloc: Global,
    text: &str,
    wanted: &str,
) -> Result<(), AllocError> {
    let printed = flat_text(alloc, text)?;
    assert_eq!(rt; printed.as_str(), wanted, "{text}");
    Ok(())
}

/// Asserts what each document is printed as.
pub(crate) fn assert_all_printed(
    rt: &impl Abort,
    alloc: Global,
    rows: &[(&str, &str)],
) -> Result<(), AllocError> {
    for (text, wanted) in rows {
        assert_printed(rt, alloc, text, wanted)?;
    }
    Ok(())
}

/// Asserts that tables hold none of the texts.
pub(crate) fn assert_no_documents(rt: &impl Abort, alloc: Global, texts: &[&str]) {
    for text in texts {
        let flat = flat_document(alloc, text.as_bytes());
        assert!(rt; flat.is_none(), "{text}");
    }
}

/// Documents, and what they are printed as.
const LISTS: &[(&str, &str)] = &[
    (" [ ] ", "[]"),
    (
        r#"[ 1 , -2 , "a\u0009b" , "c" , true , null ]"#,
        r#"[1,-2,"a\tb","c",true,null]"#,
    ),
    ("[1, 2, [3]]", "[1,2,[3]]"),
    ("[[1], 2, 3]", "[[1],2,3]"),
    ("[1, [2], 3, [4], 5]", "[1,[2],3,[4],5]"),
    ("[[1, 2], [3, 4], []]", "[[1,2],[3,4],[]]"),
    ("[[], 1, [], 2]", "[[],1,[],2]"),
    ("[[[[1, 2], 3], 4], 5]", "[[[[1,2],3],4],5]"),
    ("[1, [2, [3, [4, []]], 5], 6]", "[1,[2,[3,[4,[]]],5],6]"),
    (
        r#"[0, {"b": [1, 2], "a": [3, {"c": [4]}, 5]}, 6]"#,
        r#"[0,{"a":[3,{"c":[4]},5],"b":[1,2]},6]"#,
    ),
    (
        r#"{"b": [1, 2], "a": [], "c": {"d": [3]}}"#,
        r#"{"a":[],"b":[1,2],"c":{"d":[3]}}"#,
    ),
];

#[test]
fn lists_with_parts_and_without(rt: HostRuntime) -> Result<(), Fail> {
    Ok(assert_all_printed(&rt, rt.alloc(), LISTS)?)
}

const NO_DOCUMENTS: &[&str] = &[
    "",
    "-0",
    "1e3",
    "1.5",
    "18446744073709551616",
    "[1",
    "{\"a\"}",
    "1 2",
    "[1,]",
];

#[test]
fn no_documents(rt: HostRuntime) {
    assert_no_documents(&rt, rt.alloc(), NO_DOCUMENTS);
}

/// Documents that are read into one memory, and what they are printed as.
const IN_ONE_MEMORY: &[(&str, &str)] = &[
    (r#"[1,"\t",{"a":[2]}]"#, r#"[1,"\t",{"a":[2]}]"#),
    ("[", "no document"),
    (r#"{"b":"\n","a":[]}"#, r#"{"a":[],"b":"\n"}"#),
    ("3", "3"),
];

/// Appends the compact text of a document that is read into a memory, and gives the memory back.
fn push_read(line: &mut String, room: Room, text: &str) -> Result<Room, AllocError> {
    match room.read(text.as_bytes(), Numbers::Whole) {
        Ok(flat) => {
            push_value(line, flat.value())?;
            Ok(flat.into_room())
        }
        Err(room) => {
            line.push_str("no document")?;
            Ok(room)
        }
    }
}

/// Asserts what each document is printed as, which stands on a line for a while.
fn assert_each_read(
    rt: &impl Abort,
    alloc: Global,
    line: &mut String,
    rows: &[(&str, &str)],
) -> Result<(), AllocError> {
    let mut room = Room::new(alloc);
    for (text, wanted) in rows {
        line.clear();
        room = push_read(line, room, text)?;
        assert_eq!(rt; line.as_str(), *wanted, "{text}");
    }
    Ok(())
}

#[test]
fn documents_in_the_memory_of_others(rt: HostRuntime) -> Result<(), Fail> {
    let mut line = String::new(rt.alloc());
    assert_each_read(&rt, rt.alloc(), &mut line, IN_ONE_MEMORY)?;
    Ok(())
}
