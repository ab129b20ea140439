//! Documents whose numbers are read exactly. The values are those that RFC 8259 section 6 gives the texts,
//! written in the layout of RFC 8785 section 3.2.2.3.

use jp_decimal::Numbers;
use jp_flat::Room;
use jp_lent::push_value;
use std::alloc::{AllocError, Global};
use std::process::Abort;
use std::test::Fail;

/// Documents, and what they are read as.
const DOCUMENTS: &[(&str, &str)] = &[
    ("8.950", "8.95"),
    ("-0", "0"),
    ("-0.0", "0"),
    ("0e999999999999", "0"),
    ("0", "0"),
    ("-1", "-1"),
    ("1.0", "1"),
    ("1e2", "100"),
    ("1.50E+1", "15"),
    ("0.10", "0.1"),
    ("-1.5e-9", "-1.5e-9"),
    ("1e400", "1e+400"),
    ("5e-324", "5e-324"),
    ("18446744073709551615", "18446744073709551615"),
    ("18446744073709551616", "18446744073709551616"),
    ("1.8446744073709551615e19", "18446744073709551615"),
    ("-9223372036854775808", "-9223372036854775808"),
    ("-9223372036854775809", "-9223372036854775809"),
    ("[1,1.0,1e0, 10E-1 ,0.1]", "[1,1,1,1,0.1]"),
    (
        r#"{"price":8.95,"name":"a","more":[{"price":8.990}]}"#,
        r#"{"more":[{"price":8.99}],"name":"a","price":8.95}"#,
    ),
    (r#"{"a":1.5,"a":2}"#, r#"{"a":2}"#),
    (r#"{"a":2,"a":1.5}"#, r#"{"a":1.5}"#),
];

/// Texts that are no documents with exact numbers: no JSON, or a number of too many digits or with too
/// great an exponent.
const REFUSED: &[&str] = &[
    "1.",
    ".5",
    "01",
    "-01.5",
    "+1",
    "1e",
    "1e+",
    "1.5.5",
    "[1.5 2]",
    "[NaN]",
    "1e1000001",
    "123456789012345678901234567890123456789",
];

/// Appends the compact text of a document that is read into a memory, and gives the memory back.
fn push_exact(line: &mut String, room: Room, text: &str) -> Result<Room, AllocError> {
    match room.read(text.as_bytes(), Numbers::Decimal) {
        Ok(flat) => {
            push_value(line, flat.value())?;
            Ok(flat.into_room())
        }
        Err(room) => {
            line.push_str("no document")?;
            Ok(room)
        }
    }
}

/// Asserts what each document is read as, which stands on a line for a while.
fn assert_each_read(
    rt: &impl Abort,
    alloc: Global,
    line: &mut String,
    rows: &[(&str, &str)],
) -> Result<(), AllocError> {
    let mut room = Room::new(alloc);
    for (text, wanted) in rows {
        line.clear();
        room = push_exact(line, room, text)?;
        assert_eq!(rt; line.as_str(), *wanted, "{text}");
    }
    Ok(())
}

#[test]
fn exact_documents(rt: HostRuntime) -> Result<(), Fail> {
    let mut line = String::new(rt.alloc());
    assert_each_read(&rt, rt.alloc(), &mut line, DOCUMENTS)?;
    Ok(())
}

#[test]
fn no_exact_documents(rt: HostRuntime) -> Result<(), Fail> {
    let mut room = Room::new(rt.alloc());
    for text in REFUSED {
        room = room
            .read(text.as_bytes(), Numbers::Decimal)
            .err()
            .ok_or(*text)?;
    }
    Ok(())
}

const NOT_WHOLE: &[&str] = &["1.0", "[1,1.5]", "-0", "1e2", "18446744073709551616"];

/// A number with a fraction is refused where whole numbers alone are read.
#[test]
fn fractions_are_not_whole(rt: HostRuntime) -> Result<(), Fail> {
    let mut room = Room::new(rt.alloc());
    for text in NOT_WHOLE {
        room = room
            .read(text.as_bytes(), Numbers::Whole)
            .err()
            .ok_or(*text)?;
    }
    Ok(())
}
