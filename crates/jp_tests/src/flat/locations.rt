//! One value of a document, found while the document is read.

use jp_decimal::Numbers;
use jp_document::{OwnedStep, read_path};
use jp_flat::{Found, Room};
use jp_lent::{push_value, value_text};
use std::alloc::{AllocError, Global};
use std::process::Abort;
use std::test::Fail;

/// The compact text of what is found at a location, else `nothing`, or `no document` where the document is left to
/// others.
fn found_text(
    alloc: Global,
    text: &str,
    location: &[OwnedStep],
    numbers: Numbers,
) -> Result<String, AllocError> {
    match Room::new(alloc).read_at(text.as_bytes(), location, numbers) {
        Ok(found) => match found.value() {
            Some(value) => value_text(alloc, value),
            None => String::from_str(alloc, "nothing"),
        },
        Err(_) => String::from_str(alloc, "no document"),
    }
}

/// Asserts what is found in a document with such numbers at the location of a normalized path.
fn assert_found(
    rt: &impl Abort,
    alloc: Global,
    numbers: Numbers,
    row: &(&str, &str, &str),
) -> Result<(), Fail> {
    let (text, path, wanted) = row;
    let location = read_path(alloc, path)?;
    let found = found_text(alloc, text, location.steps(), numbers)?;
    assert_eq!(rt; found.as_str(), *wanted, "{text} {path}");
    Ok(())
}

const STORE: &str =
    r#"{"o":{"j j":{"k.k":3}},"'":{"@":2},"a":[5,{"b":[]},"\u0061\\",null],"e":true}"#;

/// Documents, paths, and what is found there.
const ROWS: &[(&str, &str, &str)] = &[
    (STORE, r"$['\'']['@']", "2"),
    (STORE, "$['o']['j j']", r#"{"k.k":3}"#),
    (STORE, "$['a'][0]", "5"),
    (STORE, "$['a'][1]['b']", "[]"),
    (STORE, "$['a'][2]", r#""a\\""#),
    (STORE, "$['a'][4]", "nothing"),
    (STORE, "$['a']['b']", "nothing"),
    (STORE, "$[0]", "nothing"),
    (STORE, "$['e']['e']", "nothing"),
    (STORE, "$['x']", "nothing"),
    (r#"{"b":[ ],"a":1}"#, "$", r#"{"a":1,"b":[]}"#),
    // the last of equal names
    (r#"{"a":[0,1],"a":[2,3]}"#, "$['a'][1]", "3"),
    (r#"{"a":[0,1],"a":[2]}"#, "$['a'][1]", "nothing"),
    (r#"{"a":[0,1],"b":0,"a":7}"#, "$['a'][1]", "nothing"),
    (
        r#"{"\u0061":[0,{"z":1,"y":2}],"b":"\n"}"#,
        "$['a'][1]",
        r#"{"y":2,"z":1}"#,
    ),
    (r#"{"a":{"1":2},"A":[0,1]}"#, "$['a'][1]", "nothing"),
    (r#"[{"a":[0,1]},1]"#, "$['a'][1]", "nothing"),
    ("0", "$['a'][1]", "nothing"),
    // what is no document
    ("", "$['a']", "no document"),
    (r#"{"a":1"#, "$['a']", "no document"),
    (r#"{"a":1}}"#, "$['a']", "no document"),
    (r#"{"a":1,"b":1.5}"#, "$['a']", "no document"),
    (r#"{"a":1,"b":[01]}"#, "$['a']", "no document"),
    (r#"{"a":1,"b":"\x"}"#, "$['a']", "no document"),
    (r#"{"a":1,"b":[1,]}"#, "$['a']", "no document"),
    (
        r#"{"a":1,"b":18446744073709551616}"#,
        "$['a']",
        "no document",
    ),
];

#[test]
fn values_at_locations(rt: HostRuntime) -> Result<(), Fail> {
    for row in ROWS {
        assert_found(&rt, rt.alloc(), Numbers::Whole, row)?;
    }
    Ok(())
}

/// Documents of decimals, paths, and what is found there.
const DECIMALS: &[(&str, &str, &str)] = &[
    // the number that is sought, in each form
    (r#"{"a":[0.5,8.950]}"#, "$['a'][1]", "8.95"),
    (r#"{"a":1e400}"#, "$['a']", "1e+400"),
    (r#"{"a":-0.0}"#, "$['a']", "0"),
    (r#"{"a":9007199254740993.0}"#, "$['a']", "9007199254740993"),
    (
        r#"{"a":18446744073709551616}"#,
        "$['a']",
        "18446744073709551616",
    ),
    (
        r#"{"b":0.1,"a":{"d":2.50,"c":1e2}}"#,
        "$['a']",
        r#"{"c":100,"d":2.5}"#,
    ),
    // numbers that are passed over, before it and behind it
    (r#"{"b":[1.5,{"c":1e-7}],"a":1,"d":2E+3}"#, "$['a']", "1"),
    (r#"[12345678901234567890,-0,0.0,7]"#, "$[3]", "7"),
    (r#"{"a":[0.5]}"#, "$['a'][1]", "nothing"),
    (r#"{"a":1.5}"#, "$['a']['b']", "nothing"),
    (r#"{"a":0.5,"a":[1.25]}"#, "$['a'][0]", "1.25"),
    // what is no document of decimals
    (r#"{"a":1,"b":1.}"#, "$['a']", "no document"),
    (r#"{"a":1,"b":[.5]}"#, "$['a']", "no document"),
    (r#"{"a":1,"b":1e}"#, "$['a']", "no document"),
    (r#"{"a":1,"b":1.5.5}"#, "$['a']", "no document"),
    (r#"{"a":1,"b":1e1000001}"#, "$['a']", "no document"),
    (
        r#"{"b":[0.123456789012345678901234567890123456789],"a":1}"#,
        "$['a']",
        "no document",
    ),
    (
        r#"{"a":123456789012345678901234567890123456789}"#,
        "$['a']",
        "no document",
    ),
];

#[test]
fn decimals_at_locations(rt: HostRuntime) -> Result<(), Fail> {
    for row in DECIMALS {
        assert_found(&rt, rt.alloc(), Numbers::Decimal, row)?;
    }
    Ok(())
}

/// Documents that are read into one memory, and what is found at `$['a'][1]`.
const IN_ONE_MEMORY: &[(&str, &str)] = &[
    (r#"{"a":[0,["\u0061",{}]]}"#, r#"["a",{}]"#),
    (r#"{"a":[0]}"#, "nothing"),
    (r#"{"b":"\u0062","a":["\u0063",{"d":[1]}]}"#, r#"{"d":[1]}"#),
    (r#"{"a":[0,[1,]}"#, "no document"),
    ("[]", "nothing"),
    (r#"{"a":[7,8]}"#, "8"),
];

/// Appends what is found in a document that is read into a memory, and gives the memory back.
fn push_found(
    line: &mut String,
    room: Room,
    text: &str,
    location: &[OwnedStep],
) -> Result<Room, AllocError> {
    match room.read_at(text.as_bytes(), location, Numbers::Whole) {
        Ok(Found::Value(flat)) => {
            push_value(line, flat.value())?;
            Ok(flat.into_room())
        }
        Ok(Found::Nothing(room)) => {
            line.push_str("nothing")?;
            Ok(room)
        }
        Err(room) => {
            line.push_str("no document")?;
            Ok(room)
        }
    }
}

/// Asserts what is found in each document, which stands on a line for a while.
fn assert_each_found(
    rt: &impl Abort,
    alloc: Global,
    line: &mut String,
    location: &[OwnedStep],
) -> Result<(), AllocError> {
    let mut room = Room::new(alloc);
    for (text, wanted) in IN_ONE_MEMORY {
        line.clear();
        room = push_found(line, room, text, location)?;
        assert_eq!(rt; line.as_str(), *wanted, "{text}");
    }
    Ok(())
}

#[test]
fn one_document_after_another(rt: HostRuntime) -> Result<(), Fail> {
    let location = read_path(rt.alloc(), "$['a'][1]")?;
    let mut line = String::new(rt.alloc());
    assert_each_found(&rt, rt.alloc(), &mut line, location.steps())?;
    Ok(())
}
