//! What is written of the node that was found at a location, and of none.

use super::devices::Drip;
use jp_command::{Device, Fault, Form, push_found, write_found};
use jp_document::{DocumentValue, read_path};
use jp_held::Document;
use std::test::Fail;

const PATH: &str = "$['a'][0]['b']";

/// What stands before each line.
const LEAD: &str = "7\t";

/// The line of the node, behind that.
const LINE: &str = "7\t$['a'][0]['b']\t[null]\n";

#[test]
fn lines_of_found_nodes(rt: HostRuntime) -> Result<(), Fail> {
    let alloc = rt.alloc();
    let document = Document::read(alloc, b"[null]")?;
    let location = read_path(alloc, PATH).ok().ok_or("no path")?;
    let location = location.steps();
    for (form, line) in [
        (Form::VALUES, "[null]\n"),
        (Form::PATHS, "$['a'][0]['b']\n"),
        (Form::BOTH, "$['a'][0]['b']\t[null]\n"),
    ] {
        let mut found = String::new(alloc);
        push_found(form, location, Some(document.value()), &mut found)?;
        assert_eq!(rt; found.as_str(), line);
    }
    let mut lines = String::from_str(alloc, "before\n")?;
    push_found(Form::BOTH, &[], Some(document.value()), &mut lines)?;
    let none: Option<DocumentValue<'_>> = None;
    push_found(Form::BOTH, location, none, &mut lines)?;
    assert_eq!(rt; lines.as_str(), "before\n$\t[null]\n");
    Ok(())
}

#[test]
fn found_nodes_written_until_a_write_fails(rt: HostRuntime) -> Result<(), Fail> {
    let alloc = rt.alloc();
    let document = Document::read(alloc, b"[null]")?;
    let location = read_path(alloc, PATH).ok().ok_or("no path")?;
    let location = location.steps();
    for taken in 0..=LINE.len() {
        let mut drip = Drip::new(alloc, 1);
        drip.failing = taken.saturating_add(1);
        let mut line = String::from_str(alloc, "before")?;
        let written = write_found(
            alloc,
            Form::BOTH,
            LEAD,
            location,
            Some(document.value()),
            &mut line,
            &mut Device::new(&mut drip),
        );
        let whole = taken == LINE.len();
        assert_eq!(rt; written, if whole { Ok(()) } else { Err(Fault::Write) });
        assert!(rt; LINE.as_bytes().get(..taken) == Some(drip.taken.as_slice()));
    }
    Ok(())
}
