//! The reader into tables beside `serde_json`.

use super::{PortionsRow, assert_all_portions, by_tables, members_of_items, one_value};
use crate::nested::nested;
use jp_decimal::Numbers;
use jp_document::{OwnedLocation, OwnedStep, parsed_value, read_path};
use jp_flat::Room;
use jp_held::{Document, Portion, read_flat, read_into, read_value_into};
use jp_lent::{push_value, value_text};
use std::alloc::{AllocError, Global};
use std::process::Abort;
use std::test::Fail;

/// The compact text of the document that `serde_json` reads, or what is said of the bytes.
fn by_serde_json(alloc: Global, text: &str) -> Result<String, AllocError> {
    match parsed_value(alloc, text.as_bytes()) {
        Ok(json) => value_text(alloc, &json),
        Err(fault) => format!(in alloc; "{fault}"),
    }
}

/// Asserts that both readers read a text as the same document, or say the same of it.
fn assert_same(
    rt: &impl Abort,
    alloc: Global,
    text: &str,
    is_document: bool,
) -> Result<(), AllocError> {
    let is_read = read_flat(alloc, text.as_bytes(), Numbers::Whole).is_ok();
    assert_eq!(rt; is_read, is_document, "{text}");
    let by_tables = by_tables(alloc, text, Numbers::Whole)?;
    let by_serde_json = by_serde_json(alloc, text)?;
    assert_eq!(rt; by_tables.as_str(), by_serde_json.as_str(), "{text}");
    Ok(())
}

const DOCUMENTS: &[&str] = &[
    " null ",
    "true",
    "[ true , false , [] , {} , \"\" ]",
    "[[[[1],2],3],[],[[]],{\"a\":[{}]}]",
    "{\"a\":1,\"b\":{\"c\":[-1],\"d\":null}}",
    r#"{"b":1,"a":{"d":[-1],"":{}},"c":null}"#,
    r#"{"b":1,"a":2,"b":[3],"a":4}"#,
    r#"{"a":1,"a":2,"a":3}"#,
    r#"{"a":1.5,"b":"\u0009","a":2}"#,
    r#"[{"a":[-0,{"c":1e3}],"b":{"d":18446744073709551616,"d":[]},"a":"\n"}]"#,
    r#"[{"b":[1.5,{"c":1e2}],"b":{"d":[null],"c":-3,"é":"\n"}},true,18446744073709551615]"#,
    r#"{"e":[{"z":1,"y":[2,3]},{"y":4,"z":5}],"d":{"b":{"a":6},"a":7}}"#,
    r#"["\u00e9\ud83d\ude00\n\"\\","é😀"]"#,
    r#"{"\u0062":1,"a":"\u0041","b":2}"#,
    "[18446744073709551615,-9223372036854775808,0,4294967296,-4294967297,-1]",
    "[999999999999999999,1000000000000000000,-999999999999999999,7]",
];

#[test]
fn documents_of_each_kind(rt: HostRuntime) -> Result<(), Fail> {
    for text in DOCUMENTS {
        assert_same(&rt, rt.alloc(), text, true)?;
    }
    Ok(())
}

const NO_DOCUMENTS: &[&str] = &[
    "",
    "-0",
    "1e3",
    "1.5",
    "18446744073709551616",
    "-9223372036854775809",
    "[1",
    "{\"a\"}",
    "1 2",
    "[1,]",
    r#"{"a":1.5,"a":2,"b":1.5}"#,
    r#"{"a":{"b":[1.5,2]},"c":1}"#,
];

#[test]
fn no_documents(rt: HostRuntime) -> Result<(), Fail> {
    for text in NO_DOCUMENTS {
        assert_same(&rt, rt.alloc(), text, false)?;
    }
    Ok(())
}

/// Appends an object of so many members whose names fall, one of which comes again at the end.
fn push_falling(text: &mut String, count: u32) -> Result<(), AllocError> {
    text.push_str("{\"z\":0")?;
    for i in 0..count {
        write!(text, ",\"{}\":{i}", 999 - i % 900)?;
    }
    text.push_str(",\"990\":-1}")
}

#[test]
fn names_that_fall(rt: HostRuntime) -> Result<(), Fail> {
    let mut text = String::new(rt.alloc());
    for count in &[10, 63, 64, 200] {
        text.clear();
        push_falling(&mut text, *count)?;
        assert_same(&rt, rt.alloc(), text.as_str(), true)?;
    }
    Ok(())
}

#[test]
fn levels(rt: HostRuntime) -> Result<(), Fail> {
    let deepest = nested(rt.alloc(), ("[", "", "]"), 127)?;
    assert_same(&rt, rt.alloc(), deepest.as_str(), true)?;
    let deeper = nested(rt.alloc(), ("[", "", "]"), 128)?;
    Ok(assert_same(&rt, rt.alloc(), deeper.as_str(), false)?)
}

/// Appends the compact text of a document that is read into a memory, or what is said of the bytes, and gives the
/// memory back.
fn push_read(line: &mut String, alloc: Global, room: Room, text: &str) -> Result<Room, AllocError> {
    match read_into(alloc, room, text.as_bytes(), Numbers::Whole) {
        Ok(flat) => {
            push_value(line, flat.value())?;
            Ok(flat.into_room())
        }
        Err((room, fault)) => {
            write!(line, "{fault}")?;
            Ok(room)
        }
    }
}

const IN_ONE_MEMORY: &[&str] = &[
    "[1,\"\\t\",{\"a\":[2]}]",
    "[",
    "{\"b\":\"\\n\",\"a\":[]}",
    "3",
];

/// Asserts that documents are read into one memory as `serde_json` reads them. Each stands on a line for a while.
fn assert_read_in_one(rt: &impl Abort, alloc: Global, line: &mut String) -> Result<(), AllocError> {
    let mut room = Room::new(alloc);
    for text in IN_ONE_MEMORY {
        line.clear();
        room = push_read(line, alloc, room, text)?;
        let wanted = by_serde_json(alloc, text)?;
        assert_eq!(rt; line.as_str(), wanted.as_str(), "{text}");
    }
    Ok(())
}

#[test]
fn documents_in_the_memory_of_others(rt: HostRuntime) -> Result<(), Fail> {
    let mut line = String::new(rt.alloc());
    Ok(assert_read_in_one(&rt, rt.alloc(), &mut line)?)
}

/// Documents of which one value is wanted.
const OF_ONE_VALUE: &[&str] = &[
    r#"{"a":[0,1],"a":[2,3]}"#,
    r#"{"a":[0,1],"a":[2]}"#,
    r#"{"a":[0,1],"b":0,"a":7}"#,
    r#"{"\u0061":[0,{"z":1,"y":2}],"b":"\n"}"#,
    r#"{"a":{"1":2},"A":[0,1]}"#,
    r#"[{"a":[0,1]},1]"#,
    r#"{"a":0.5,"a":[2,{"z":[],"y":"\t"}]}"#,
    r#"{"b":0.5,"b":0,"a":[1]}"#,
    "0",
];

/// The compact text of the value that is read alone, `nothing` where there is none, or what is said of the bytes.
fn read_alone(alloc: Global, text: &str, location: &[OwnedStep]) -> Result<String, AllocError> {
    let room = Room::new(alloc);
    match read_value_into(alloc, room, text.as_bytes(), location, Numbers::Whole) {
        Ok(found) => match found.value() {
            Some(value) => value_text(alloc, value),
            None => String::from_str(alloc, "nothing"),
        },
        Err((_, fault)) => format!(in alloc; "{fault}"),
    }
}

/// The compact text of the value that is found in the whole document.
fn found(alloc: Global, text: &str, location: &OwnedLocation) -> Result<String, Fail> {
    let document = Document::read(alloc, text.as_bytes())?;
    match document.find(location) {
        Some(value) => Ok(value_text(alloc, value)?),
        None => Ok(String::from_str(alloc, "nothing")?),
    }
}

/// Asserts that a value is read alone as it is found in the whole document.
fn assert_found(
    rt: &impl Abort,
    alloc: Global,
    text: &str,
    location: &OwnedLocation,
) -> Result<(), Fail> {
    let alone = read_alone(alloc, text, location.steps())?;
    let wanted = found(alloc, text, location)?;
    assert_eq!(rt; alone.as_str(), wanted.as_str(), "{text}");
    Ok(())
}

#[test]
fn values_at_a_location(rt: HostRuntime) -> Result<(), Fail> {
    let location = read_path(rt.alloc(), "$['a'][1]")?;
    for text in OF_ONE_VALUE {
        assert_found(&rt, rt.alloc(), text, &location)?;
    }
    Ok(())
}

/// Documents, and what is read of each where the value at `$[0]['a']`, the members `a` of items, or all of it is
/// wanted. The last of equal names stands, and a number that it replaces is looked at by `serde_json` alone.
const PORTIONS: &[PortionsRow] = &[
    (
        r#"[{"a":"\u0061","b":[1]},{"b":2}]"#,
        &[
            r#""a""#,
            r#"[{"a":"a"},{}]"#,
            r#"[{"a":"a","b":[1]},{"b":2}]"#,
        ],
    ),
    (r#"[{"a":1}"#, &["NotJson", "NotJson", "NotJson"]),
    (
        r#"[{"a":0.5,"a":[2]}]"#,
        &["[2]", r#"[{"a":[2]}]"#, r#"[{"a":[2]}]"#],
    ),
    (
        r#"[{"a":1,"b":0.5}]"#,
        &[
            "NotWhole at $[0]['b']",
            "NotWhole at $[0]['b']",
            "NotWhole at $[0]['b']",
        ],
    ),
    (r#"{"a":1}"#, &["nothing", r#"{"a":1}"#, r#"{"a":1}"#]),
    (r#"[{"b":7}]"#, &["nothing", "[{}]", r#"[{"b":7}]"#]),
];

#[test]
fn portions_in_the_memory_of_others(rt: HostRuntime) -> Result<(), Fail> {
    let alloc = rt.alloc();
    let portions = [one_value(alloc)?, members_of_items(alloc)?, Portion::Whole];
    let mut line = String::new(alloc);
    let read_as = (portions.as_slice(), Numbers::Whole);
    Ok(assert_all_portions(&rt, alloc, &mut line, PORTIONS, read_as)?)
}

#[test]
fn tables_that_own_their_text(rt: HostRuntime) -> Result<(), Fail> {
    let text = r#"{"b":"\t","a":["x",{"c":"é"}]}"#;
    let flat = read_flat(rt.alloc(), text.as_bytes(), Numbers::Whole)?.owned(rt.alloc())?;
    let text = value_text(rt.alloc(), flat.value())?;
    assert_eq!(rt; text.as_str(), r#"{"a":["x",{"c":"é"}],"b":"\t"}"#);
    Ok(())
}
