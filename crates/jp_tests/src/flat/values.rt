//! Look-ups in documents in tables.

use jp_document::Step;
use jp_flat::{FlatValue, flat_document};
use jp_lent::{Seen, push_value};
use std::alloc::AllocError;
use std::test::Fail;

/// Appends a line: a step with the compact text of its value, or nothing.
pub(crate) fn push_entry(
    lines: &mut String,
    entry: Option<(Step<'_>, FlatValue<'_, '_>)>,
) -> Result<(), AllocError> {
    if let Some((step, value)) = entry {
        match step {
            Step::Name(name) => write!(lines, "{name} ")?,
            Step::Index(index) => write!(lines, "{index} ")?,
        }
        push_value(lines, value)?;
    }
    lines.push('\n')
}

/// Appends a line: the compact text of a value, or nothing.
fn push_alone(lines: &mut String, value: Option<FlatValue<'_, '_>>) -> Result<(), AllocError> {
    if let Some(value) = value {
        push_value(lines, value)?;
    }
    lines.push('\n')
}

/// Appends the children at the positions below an end, with their steps.
fn push_children(lines: &mut String, value: FlatValue, end: usize) -> Result<(), AllocError> {
    for position in 0..end {
        push_entry(lines, value.child(position))?;
    }
    Ok(())
}

/// Appends the children at the positions below an end, without their steps.
fn push_values(lines: &mut String, value: FlatValue, end: usize) -> Result<(), AllocError> {
    for position in 0..end {
        push_alone(lines, value.child_value(position))?;
    }
    Ok(())
}

/// Appends the items at the indexes below an end.
fn push_items(lines: &mut String, list: FlatValue, end: u64) -> Result<(), AllocError> {
    for index in 0..end {
        push_entry(lines, list.item(index))?;
    }
    Ok(())
}

/// Appends the members of these names.
pub(crate) fn push_members(
    lines: &mut String,
    object: FlatValue,
    names: &[&str],
) -> Result<(), AllocError> {
    for name in names {
        push_entry(lines, object.member(name))?;
    }
    Ok(())
}

/// Appends a line: what a value is, and what it holds.
fn push_seen(lines: &mut String, value: FlatValue) -> Result<(), AllocError> {
    match value.seen() {
        Seen::Members => lines.push_str("members\n"),
        Seen::List => lines.push_str("list\n"),
        Seen::Whole(number) => write!(lines, "number {number}\n"),
        Seen::Text(text) => write!(lines, "text {text:?}\n"),
        Seen::Bool(truth) => write!(lines, "{truth}\n"),
        Seen::Null | Seen::Decimal { .. } => lines.push_str("another\n"),
    }
}

const DOCUMENT: &[u8] = br#"{"d":"x\ty","a":[1,-2,"z",[]],"b":{"k":null},"c":true}"#;

/// How many children the document has, and that it is no list; the children at the positions from 0 to 4; the members
/// `a`, `d`, `e` and the one without a character in its name.
fn push_entries(lines: &mut String, root: FlatValue) -> Result<(), AllocError> {
    let (count, length) = (root.count(), root.list_length());
    write!(lines, "{count} {length:?}\n")?;
    push_children(lines, root, 5)?;
    push_members(lines, root, &["a", "d", "e", ""])
}

const ENTRIES: &str = r#"4 None
a [1,-2,"z",[]]
b {"k":null}
c true
d "x\ty"

a [1,-2,"z",[]]
d "x\ty"


"#;

#[test]
fn entries(rt: HostRuntime) -> Result<(), Fail> {
    let flat = flat_document(rt.alloc(), DOCUMENT).ok_or("no document")?;
    let mut lines = String::new(rt.alloc());
    push_entries(&mut lines, flat.value())?;
    assert_eq!(rt; lines.as_str(), ENTRIES);
    Ok(())
}

/// The values at the positions from 0 to 4, those in the first of them, and none in a number.
fn push_values_inside(lines: &mut String, root: FlatValue) -> Result<(), Fail> {
    push_values(lines, root, 5)?;
    let list = root.child_value(0).ok_or("no list")?;
    push_values(lines, list, 5)?;
    let number = list.child_value(0).ok_or("no number")?;
    Ok(push_values(lines, number, 1)?)
}

/// The length of the member `a`, its items, and what the values are that stand in the document.
fn push_items_inside(lines: &mut String, root: FlatValue) -> Result<(), Fail> {
    let (_, list) = root.member("a").ok_or("no member")?;
    let length = list.list_length();
    write!(lines, "{length:?}\n")?;
    push_items(lines, list, 5)?;
    push_seen(lines, root)?;
    push_seen(lines, list)?;
    push_seen(lines, list.item(1).ok_or("no item")?.1)?;
    push_seen(lines, root.member("d").ok_or("no member")?.1)?;
    Ok(push_seen(lines, root.member("c").ok_or("no member")?.1)?)
}

const INSIDE: &str = r#"[1,-2,"z",[]]
{"k":null}
true
"x\ty"

1
-2
"z"
[]


Some(4)
0 1
1 -2
2 "z"
3 []

members
list
number -2
text "x\ty"
true
"#;

#[test]
fn values_inside(rt: HostRuntime) -> Result<(), Fail> {
    let flat = flat_document(rt.alloc(), DOCUMENT).ok_or("no document")?;
    let mut lines = String::new(rt.alloc());
    push_values_inside(&mut lines, flat.value())?;
    push_items_inside(&mut lines, flat.value())?;
    assert_eq!(rt; lines.as_str(), INSIDE);
    Ok(())
}

/// How many items the list has, the items, and the second item of the list that stands in its third.
fn push_mixed(lines: &mut String, list: FlatValue) -> Result<(), Fail> {
    let count = list.count();
    write!(lines, "{count}\n")?;
    push_items(lines, list, 6)?;
    let (_, object) = list.child(2).ok_or("no object")?;
    let (_, inner) = object.member("a").ok_or("no member")?;
    Ok(push_entry(lines, inner.item(1))?)
}

const MIXED: &str = r#"5
0 7
1 "x"
2 {"a":[9,8]}
3 []
4 6

1 8
"#;

#[test]
fn items_before_and_behind_parts(rt: HostRuntime) -> Result<(), Fail> {
    let text = br#"[7,"x",{"a":[9,8]},[],6]"#;
    let flat = flat_document(rt.alloc(), text).ok_or("no document")?;
    let mut lines = String::new(rt.alloc());
    push_mixed(&mut lines, flat.value())?;
    assert_eq!(rt; lines.as_str(), MIXED);
    Ok(())
}
