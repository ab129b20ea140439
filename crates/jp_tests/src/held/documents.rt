//! Rows of documents, their nodes, and texts of both.

use crate::nested::nested;
use jp_document::{Node, Step, child_at, child_named, children, push_path, read_path};
use jp_held::Document;
use jp_lent::{Lent, push_value, value_text};
use std::alloc::{AllocError, Global};
use std::process::Abort;
use std::test::Fail;

/// Appends a line: the normalized path of a node, a blank, and the compact text of its value.
fn push_node(lines: &mut String, node: &Node) -> Result<(), AllocError> {
    push_path(lines, node.location())?;
    lines.push(' ')?;
    push_value(lines, node.value())?;
    lines.push('\n')
}

/// Appends a line: a node, or `none`.
fn push_some(lines: &mut String, node: Option<Node>) -> Result<(), AllocError> {
    match node {
        Some(node) => push_node(lines, &node),
        None => lines.push_str("none\n"),
    }
}

const MEMBERS: &[u8] = br#"{"o":{"j j":{"k.k":3}},"'":{"@":2}}"#;

/// The root, two of its members, and the value at `$['\'']['@']`.
const OF_MEMBERS: &str = r#"$ {"'":{"@":2},"o":{"j j":{"k.k":3}}}
$['o'] {"j j":{"k.k":3}}
none
2"#;

fn push_of_members(lines: &mut String, alloc: Global, document: &Document) -> Result<(), Fail> {
    let root = document.root(alloc);
    push_some(lines, Some(root.copy(alloc)?))?;
    push_some(lines, child_named(alloc, &root, "o")?)?;
    push_some(lines, child_named(alloc, &root, "x")?)?;
    let value = document.at(&[Step::Name("'"), Step::Name("@")]);
    Ok(push_value(lines, value.ok_or("no value")?)?)
}

#[test]
fn members(rt: HostRuntime) -> Result<(), Fail> {
    let document = Document::read(rt.alloc(), MEMBERS)?;
    let mut lines = String::new(rt.alloc());
    push_of_members(&mut lines, rt.alloc(), &document)?;
    assert_eq!(rt; lines.as_str(), OF_MEMBERS);
    Ok(())
}

fn push_of_items(lines: &mut String, alloc: Global, document: &Document) -> Result<(), AllocError> {
    let root = document.root(alloc);
    push_some(lines, child_at(alloc, &root, 1)?)?;
    push_some(lines, child_at(alloc, &root, 2)?)
}

#[test]
fn items(rt: HostRuntime) -> Result<(), Fail> {
    let document = Document::read(rt.alloc(), br#"["a","b"]"#)?;
    let mut lines = String::new(rt.alloc());
    push_of_items(&mut lines, rt.alloc(), &document)?;
    assert_eq!(rt; lines.as_str(), "$[1] \"b\"\nnone\n");
    Ok(())
}

/// Appends the item at an index of a member of the root, reached step by step, and how many items are there.
fn push_item_inside(
    lines: &mut String,
    alloc: Global,
    root: &Node,
    (name, index): (&str, u64),
) -> Result<(), Fail> {
    let (step, list) = root.document_value().member(name).ok_or("no member")?;
    let node = root.below(alloc, step, list)?;
    let (step, item) = list.item(index).ok_or("no item")?;
    push_some(lines, Some(node.below(alloc, step, item)?))?;
    let items = list.list_length().ok_or("no list")?;
    Ok(write!(lines, "of {items}\n")?)
}

/// Appends the child of the root at a position.
fn push_child_inside(
    lines: &mut String,
    alloc: Global,
    root: &Node,
    position: usize,
) -> Result<(), Fail> {
    let (step, value) = root.document_value().child(position).ok_or("no child")?;
    Ok(push_some(lines, Some(root.below(alloc, step, value)?))?)
}

#[test]
fn steps_inside(rt: HostRuntime) -> Result<(), Fail> {
    let document = Document::read(rt.alloc(), br#"{"b":1,"a":[5,3]}"#)?;
    let root = document.root(rt.alloc());
    let mut lines = String::new(rt.alloc());
    push_item_inside(&mut lines, rt.alloc(), &root, ("a", 1))?;
    push_child_inside(&mut lines, rt.alloc(), &root, 1)?;
    assert_eq!(rt; lines.as_str(), "$['a'][1] 3\nof 2\n$['b'] 1\n");
    Ok(())
}

/// Appends the compact texts of the values at the first positions one step inside, each behind a blank.
fn push_values_inside<'d, V: Lent + 'd>(lines: &mut String, value: V) -> Result<(), AllocError> {
    for position in 0..3 {
        lines.push(' ')?;
        if let Some(child) = value.child_value(position) {
            push_value(lines, child)?;
        }
    }
    Ok(())
}

#[test]
fn values_without_their_steps(rt: HostRuntime) -> Result<(), Fail> {
    let document = Document::read(rt.alloc(), br#"{"b":1,"a":[2]}"#)?;
    let mut lines = String::new(rt.alloc());
    push_values_inside(&mut lines, document.value())?;
    push_values_inside(&mut lines, document.json())?;
    assert_eq!(rt; lines.as_str(), " [2] 1  [2] 1 ");
    Ok(())
}

/// Appends the children of a document's root.
fn push_children(lines: &mut String, alloc: Global, document: &Document) -> Result<(), AllocError> {
    for node in &children(alloc, &document.root(alloc))? {
        push_node(lines, node)?;
    }
    Ok(())
}

#[test]
fn children_in_document_order(rt: HostRuntime) -> Result<(), Fail> {
    let text = br#"{"o":{"j":1,"k":2},"a":[5,3,[{"j":4},{"k":6}]]}"#;
    let document = Document::read(rt.alloc(), text)?;
    let mut lines = String::new(rt.alloc());
    push_children(&mut lines, rt.alloc(), &document)?;
    let wanted = "$['a'] [5,3,[{\"j\":4},{\"k\":6}]]\n$['o'] {\"j\":1,\"k\":2}\n";
    assert_eq!(rt; lines.as_str(), wanted);
    Ok(())
}

#[test]
fn compact_texts(rt: HostRuntime) -> Result<(), Fail> {
    let text = r#"[ -9223372036854775808,18446744073709551615,"\u0001\/é",null,true,[],{}]"#;
    let document = Document::read(rt.alloc(), text.as_bytes())?;
    let compact = value_text(rt.alloc(), document.json())?;
    let wanted = r#"[-9223372036854775808,18446744073709551615,"\u0001/é",null,true,[],{}]"#;
    assert_eq!(rt; compact.as_str(), wanted);
    Ok(())
}

/// Bytes, and the number of the fault in them with what is said of it: its name, and the path of the first number that
/// is not whole.
const FAULTS: &[(&[u8], &str)] = &[
    (
        br#"{"store":{"bicycle":{"color":"red","price":399},"book":[{"title":"A","price":8.95}]}}"#,
        "2 NotWhole at $['store']['book'][0]['price']",
    ),
    (br#"{"b":1.5,"a":[0,2.5]}"#, "2 NotWhole at $['a'][1]"),
    (br#"{"a":[0,2.5]}"#, "2 NotWhole at $['a'][1]"),
    (b"[1.5]", "2 NotWhole at $[0]"),
    (b"[1,]", "1 NotJson"),
    (b"\"\xff\"", "1 NotJson"),
];

/// Why bytes are no document.
fn fault_text(alloc: Global, bytes: &[u8]) -> Result<String, AllocError> {
    match Document::read(alloc, bytes) {
        Ok(_) => String::from_str(alloc, "a document"),
        Err(fault) => {
            let number = fault.number();
            format!(in alloc; "{number} {fault}")
        }
    }
}

/// Asserts why bytes are no document.
fn assert_fault(
    rt: &impl Abort,
    alloc: Global,
    bytes: &[u8],
    wanted: &str,
) -> Result<(), AllocError> {
    let fault = fault_text(alloc, bytes)?;
    assert_eq!(rt; fault.as_str(), wanted);
    Ok(())
}

#[test]
fn faults(rt: HostRuntime) -> Result<(), Fail> {
    for (bytes, wanted) in FAULTS {
        assert_fault(&rt, rt.alloc(), bytes, wanted)?;
    }
    Ok(())
}

#[test]
fn levels(rt: HostRuntime) -> Result<(), Fail> {
    let deepest = nested(rt.alloc(), ("[", "", "]"), 127)?;
    assert_fault(&rt, rt.alloc(), deepest.as_bytes(), "a document")?;
    let deeper = nested(rt.alloc(), ("[", "", "]"), 128)?;
    Ok(assert_fault(&rt, rt.alloc(), deeper.as_bytes(), "1 NotJson")?)
}

/// Normalized paths, and the values that they lead to.
const FOUND: &[(&str, &str)] = &[
    (r"$['a'][0]['\'']", "true"),
    ("$['a'][2]", "nothing"),
    ("$[0]", "nothing"),
];

/// The compact text of the value that a normalized path leads to in a document.
fn found(alloc: Global, document: &Document, path: &str) -> Result<String, Fail> {
    match document.find(&read_path(alloc, path)?) {
        Some(value) => Ok(value_text(alloc, value)?),
        None => Ok(String::from_str(alloc, "nothing")?),
    }
}

/// Asserts what the paths lead to.
fn assert_found(rt: &impl Abort, alloc: Global, document: &Document) -> Result<(), Fail> {
    for (path, wanted) in FOUND {
        let found = found(alloc, document, path)?;
        assert_eq!(rt; found.as_str(), *wanted, "{path}");
    }
    Ok(())
}

#[test]
fn finds(rt: HostRuntime) -> Result<(), Fail> {
    let document = Document::read(rt.alloc(), br#"{"a":[{"'":true},"b"]}"#)?;
    assert_found(&rt, rt.alloc(), &document)
}
