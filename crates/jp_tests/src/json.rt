//! Bytes that are no documents, with the reason and the place of each.

mod samples;
mod syntax;
mod values;

use jp_decimal::Numbers;
use jp_json::{JsonReason, LEVEL_LIMIT, Misreading, find_misreading};
use std::alloc::Global;
use std::process::Abort;
use std::test::Fail;

/// Bytes, the reason, and the offset, the line and the column.
pub type Row = (&'static [u8], JsonReason, (usize, usize, usize));

/// A row with the path of a number that is not whole.
pub type PathRow = (
    &'static [u8],
    JsonReason,
    (usize, usize, usize),
    &'static str,
);

#[test]
fn each_wrong_text_has_its_reason_and_place(rt: HostRuntime) -> Result<(), Fail> {
    let alloc = rt.alloc();
    assert_rows(&rt, alloc, syntax::ENDS)?;
    assert_rows(&rt, alloc, syntax::JOINTS)?;
    assert_rows(&rt, alloc, syntax::WORDS)?;
    assert_rows(&rt, alloc, syntax::FORMS)?;
    assert_rows(&rt, alloc, syntax::SCALARS)?;
    assert_rows(&rt, alloc, values::SCALARS)
}

fn assert_rows(rt: &impl Abort, alloc: Global, rows: &[Row]) -> Result<(), Fail> {
    for (bytes, reason, place) in rows {
        let told = find_misreading(alloc, bytes, Numbers::Whole)?;
        assert_told(rt, &told, *reason, *place, None);
    }
    Ok(())
}

#[test]
fn each_reason_has_a_text_and_its_sentence(rt: HostRuntime) -> Result<(), Fail> {
    for (bytes, reason) in samples::ROWS {
        let told = find_misreading(rt.alloc(), bytes, Numbers::Whole)?.ok_or("a document")?;
        assert_eq!(rt; (told.reason, told.sentence), (*reason, reason.sentence()));
    }
    Ok(())
}

#[test]
fn each_number_that_is_not_whole_has_its_path(rt: HostRuntime) -> Result<(), Fail> {
    for (bytes, reason, place, path) in values::NUMBERS {
        let told = find_misreading(rt.alloc(), bytes, Numbers::Whole)?;
        assert_told(&rt, &told, *reason, *place, Some(*path));
    }
    Ok(())
}

fn assert_told(
    rt: &impl Abort,
    told: &Option<Misreading>,
    reason: JsonReason,
    place: (usize, usize, usize),
    path: Option<&str>,
) {
    match told {
        Some(told) => {
            assert_eq!(rt; told.reason, reason);
            assert_eq!(rt; (told.offset, told.line, told.column), place);
            match (&told.path, path) {
                (Some(found), Some(wanted)) => assert_eq!(rt; found.as_str(), wanted),
                (found, wanted) => assert_eq!(rt; found.is_some(), wanted.is_some()),
            }
        }
        None => assert!(rt; false),
    }
}

#[test]
fn documents_have_none(rt: HostRuntime) -> Result<(), Fail> {
    for bytes in values::NONE {
        assert!(rt; find_misreading(rt.alloc(), bytes, Numbers::Whole)?.is_none());
    }
    Ok(())
}

#[test]
fn level_128_is_one_too_many(rt: HostRuntime) -> Result<(), Fail> {
    let mut bytes: Vec<u8> = Vec::new(rt.alloc());
    for _ in 0..=LEVEL_LIMIT {
        bytes.push(b'[')?;
    }
    let told = find_misreading(rt.alloc(), &bytes, Numbers::Whole)?;
    assert_told(&rt, &told, JsonReason::TooManyLevels, (127, 1, 128), None);
    Ok(())
}

#[test]
fn is_told_in_one_line(rt: HostRuntime) -> Result<(), Fail> {
    let alloc = rt.alloc();
    for row in LINES {
        let (bytes, place, reason, name) = *row;
        let told = find_misreading(alloc, bytes, Numbers::Whole)?.ok_or("a document")?;
        let sentence = reason.sentence();
        let wanted = format!(in alloc; "{place}: {sentence}")?;
        assert_eq!(rt; format!(in alloc; "{told}")?.as_str(), wanted.as_str());
        assert_eq!(rt; told.reason.name(), name);
    }
    Ok(())
}

/// Bytes, the place as it is told, the reason, and its name.
const LINES: &[(&[u8], &str, JsonReason, &str)] = &[
    (
        b"[1,\n]",
        "line 2, column 1",
        JsonReason::TrailingComma,
        "TrailingComma",
    ),
    (
        b"{\"a\":[1e2]}",
        "line 1, column 7, at $['a'][0]",
        JsonReason::HasFraction,
        "HasFraction",
    ),
];
