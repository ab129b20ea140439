//! Rows of selectors and descendants.

ghost use Rattle.jp_document.specs.Value.{IsDocumentValue, value_of};

use crate::nested::{nested, push_times};
use jp_document::{DocumentValue, Json, Node, parsed_value, push_path};
use jp_select::{descend, descend_each, select_plain, slice_place};
use jp_tree::{Numeral, Selector, Slice};
use std::alloc::{AllocError, Global};
use std::process::Abort;
use std::test::Fail;

const LETTERS: &[u8] = br#"["a","b","c","d","e","f","g"]"#;

const NESTED: &[u8] = br#"{"o":{"j":1,"k":2},"a":[5,3,[{"j":4},{"k":6}]]}"#;

/// The root of a document, whose value it is.
fn root(alloc: Global, value: &Json) -> Node<'_>
    requires { IsDocumentValue (value_of value.now) }
{
    Node::of(Vec::new(alloc), DocumentValue::of(value))
}

/// Appends the path of a node, with a blank before it.
fn push_node(paths: &mut String, node: &Node) -> Result<(), AllocError> {
    paths.push(' ')?;
    push_path(paths, node.location())
}

/// Appends the paths of the nodes, each with a blank before it.
fn push_nodes(paths: &mut String, nodes: &[Node]) -> Result<(), AllocError> {
    for node in nodes {
        push_node(paths, node)?;
    }
    Ok(())
}

/// The paths of the nodes that a selector selects at the root of a document.
fn selected(alloc: Global, bytes: &[u8], selector: &Selector) -> Result<String, Fail> {
    let value = parsed_value(alloc, bytes)?;
    let mut paths = String::new(alloc);
    push_nodes(
        &mut paths,
        &select_plain(alloc, &root(alloc, &value), selector)?,
    )?;
    Ok(paths)
}

/// Asserts that a selector selects these paths at the root of a document.
fn assert_selects(
    rt: &impl Abort,
    alloc: Global,
    (bytes, selector): (&[u8], &Selector),
    expected: &str,
) -> Result<(), Fail> {
    let paths = selected(alloc, bytes, selector)?;
    assert_eq!(rt; paths.as_str(), expected);
    Ok(())
}

fn slice(start: Option<i128>, end: Option<i128>, step: i128) -> Selector {
    Selector::Slice(Slice {
        start: start.map(Numeral::Whole),
        end: end.map(Numeral::Whole),
        step: Numeral::Whole(step),
    })
}

/// The paths of `NESTED`, in document order.
const PATHS: &str = " $ $['a'] $['a'][0] $['a'][1] $['a'][2] $['a'][2][0] $['a'][2][0]['j'] \
    $['a'][2][1] $['a'][2][1]['k'] $['o'] $['o']['j'] $['o']['k']";

/// Appends the paths of the descendants of a document's root, and of the root.
fn push_descendants(paths: &mut String, alloc: Global, bytes: &[u8]) -> Result<(), Fail> {
    let value = parsed_value(alloc, bytes)?;
    push_nodes(paths, &descend(alloc, root(alloc, &value))?)?;
    Ok(())
}

#[test]
fn descendants(rt: HostRuntime) -> Result<(), Fail> {
    let mut paths = String::new(rt.alloc());
    push_descendants(&mut paths, rt.alloc(), NESTED)?;
    assert_eq!(rt; paths.as_str(), PATHS);
    Ok(())
}

/// Appends the paths of the same nodes, which come one at a time.
fn push_each(paths: &mut String, alloc: Global, bytes: &[u8]) -> Result<(), Fail> {
    let value = parsed_value(alloc, bytes)?;
    for node in descend_each(alloc, root(alloc, &value)) {
        push_node(paths, &node?)?;
    }
    Ok(())
}

#[test]
fn descendants_one_at_a_time(rt: HostRuntime) -> Result<(), Fail> {
    let mut paths = String::new(rt.alloc());
    push_each(&mut paths, rt.alloc(), NESTED)?;
    assert_eq!(rt; paths.as_str(), PATHS);
    Ok(())
}

#[test]
fn a_walk_that_has_not_failed(rt: HostRuntime) -> Result<(), Fail> {
    let value = parsed_value(rt.alloc(), NESTED)?;
    let mut walk = descend_each(rt.alloc(), root(rt.alloc(), &value));
    assert!(rt; walk.next().is_some() && !walk.failed());
    Ok(())
}

/// Appends the path of the list at this depth in lists that are each the first item of another.
fn push_chain(path: &mut String, depth: usize) -> Result<(), AllocError> {
    path.push_str(" $")?;
    push_times(path, "[0]", depth)
}

/// Appends the paths of 100 lists, each but the last one of the next list and 0.
fn push_chains(paths: &mut String) -> Result<(), AllocError> {
    for depth in 0..100 {
        push_chain(paths, depth)?;
    }
    for depth in (0..99).rev() {
        push_chain(paths, depth)?;
        paths.push_str("[1]")?;
    }
    Ok(())
}

#[test]
fn descendants_in_depth(rt: HostRuntime) -> Result<(), Fail> {
    let text = nested(rt.alloc(), ("[", "[]", ",0]"), 99)?;
    let mut paths = String::new(rt.alloc());
    push_descendants(&mut paths, rt.alloc(), text.as_bytes())?;
    let mut expected = String::new(rt.alloc());
    push_chains(&mut expected)?;
    assert_eq!(rt; paths.as_str(), expected.as_str());
    Ok(())
}

#[test]
fn names(rt: HostRuntime) -> Result<(), Fail> {
    let name = Selector::Name(String::from_str(rt.alloc(), "o")?);
    assert_selects(&rt, rt.alloc(), (NESTED, &name), " $['o']")?;
    assert_selects(&rt, rt.alloc(), (LETTERS, &name), "")
}

#[test]
fn wildcards(rt: HostRuntime) -> Result<(), Fail> {
    let all = Selector::Wildcard;
    assert_selects(&rt, rt.alloc(), (NESTED, &all), " $['a'] $['o']")
}

#[test]
fn indexes(rt: HostRuntime) -> Result<(), Fail> {
    let first = Selector::Index(Numeral::Whole(-7));
    assert_selects(&rt, rt.alloc(), (LETTERS, &first), " $[0]")?;
    let beyond = Selector::Index(Numeral::Whole(7));
    assert_selects(&rt, rt.alloc(), (LETTERS, &beyond), "")
}

#[test]
fn slices(rt: HostRuntime) -> Result<(), Fail> {
    let falling = slice(Some(5), Some(1), -2);
    assert_selects(&rt, rt.alloc(), (LETTERS, &falling), " $[5] $[3]")?;
    let rising = slice(None, Some(2), 1);
    assert_selects(&rt, rt.alloc(), (LETTERS, &rising), " $[0] $[1]")
}

#[test]
fn places_of_slices(rt: HostRuntime) -> Result<(), Fail> {
    let letters = parsed_value(rt.alloc(), LETTERS)?;
    let list = DocumentValue::of(&letters);
    let slice = Slice {
        start: Some(Numeral::Whole(5)),
        end: Some(Numeral::Whole(1)),
        step: Numeral::Whole(-2),
    };
    let letter = list.child(0).ok_or("no letter")?;
    let places = (
        slice_place(list, slice, 0),
        slice_place(list, slice, 1),
        slice_place(list, slice, 2),
        slice_place(letter.1, slice, 0),
    );
    assert_eq!(rt; places, (Some(5), Some(3), None, None));
    Ok(())
}
