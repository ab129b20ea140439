//! Nodelists, and nodes one at a time. Other rows are in jp_command's table.

mod asked;
mod places;
mod settled;
mod steps;
mod truth;

use jp_check::{Profile, read_query};
use jp_document::path_text;
use jp_evaluate::{Plan, evaluate, nodes};
use jp_held::{Document, Portion, push_location};
use jp_lent::value_text;
use jp_match::Marks;
use std::alloc::Global;
use std::test::Fail;

const NESTED: &[u8] = br#"{"o":{"j":1,"k":2},"a":[5,3,[{"j":4},{"k":6}]]}"#;

/// The paths of the nodelist, each with a blank before it.
pub(crate) fn nodelist(alloc: Global, bytes: &[u8], query: &str) -> Result<String, Fail> {
    let query = read_query(alloc, query, Profile::Extended)
        .ok()
        .ok_or("refused")?;
    let document = Document::read(alloc, bytes)?;
    let mut paths = String::new(alloc);
    for node in &evaluate(alloc, &document, &query, &Marks)? {
        paths.push_str(" ")?;
        paths.push_str(path_text(alloc, node.location())?.as_str())?;
    }
    Ok(paths)
}

#[test]
fn nodelists(rt: HostRuntime) -> Result<(), Fail> {
    let alloc = rt.alloc();
    for (document, query, paths) in [
        (
            NESTED,
            "$[*][*]",
            " $['a'][0] $['a'][1] $['a'][2] $['o']['j'] $['o']['k']",
        ),
        (b"[[[3],[4]],[[5]],6]", "$[?@..[?@==5]]", " $[1]"),
        (
            b"[[1,1],[1]]",
            "$[?count(distinct(@[0,0,1,0]))==2]",
            " $[0]",
        ),
        (
            b"[[1,1],[1]]",
            "$[?value(distinct(@[0,0]))==1]",
            " $[0] $[1]",
        ),
        (b"[[1],[]]", "$[?distinct(distinct(@.*))]", " $[0]"),
        (
            NESTED,
            "$..*",
            " $['a'] $['o'] $['a'][0] $['a'][1] $['a'][2] $['a'][2][0] $['a'][2][1] \
                $['a'][2][0]['j'] $['a'][2][1]['k'] $['o']['j'] $['o']['k']",
        ),
    ] {
        assert_eq!(rt; nodelist(alloc, document, query)?.as_str(), paths);
    }
    Ok(())
}

#[test]
fn nodes_one_at_a_time(rt: HostRuntime) -> Result<(), Fail> {
    let alloc = rt.alloc();
    let document = Document::read(alloc, NESTED)?;
    let query = read_query(alloc, "$..*", Profile::Standard)
        .ok()
        .ok_or("refused")?;
    let mut some = nodes(alloc, &document, &query, &Marks);
    for path in ["$['a']", "$['o']", "$['a'][0]"] {
        let node = some.next().ok_or("no node")??;
        assert_eq!(rt; path_text(alloc, node.location())?.as_str(), path);
    }
    drop(some);
    let root = document.root(alloc);
    let whole = value_text(alloc, root.value())?;
    assert_eq!(rt;
        whole.as_str(),
        r#"{"a":[5,3,[{"j":4},{"k":6}]],"o":{"j":1,"k":2}}"#
    );
    Ok(())
}

#[test]
fn no_nodes(rt: HostRuntime) -> Result<(), Fail> {
    let alloc = rt.alloc();
    let document = Document::read(alloc, b"[{}]")?;
    let query = read_query(alloc, "$[?@.x]", Profile::Standard)
        .ok()
        .ok_or("refused")?;
    let mut none = nodes(alloc, &document, &query, &Marks);
    assert!(rt; none.next().is_none() && none.next().is_none() && !none.failed());
    Ok(())
}

#[test]
fn named_locations(rt: HostRuntime) -> Result<(), Fail> {
    let alloc = rt.alloc();
    for (query, path) in [
        ("$", Some("$")),
        ("$.store['book'][0]", Some("$['store']['book'][0]")),
        ("$..a", None),
        ("$[*]", None),
        ("$[-1]", None),
        ("$['a','b']", None),
        ("$[0:1]", None),
        ("$[?@.a]", None),
        ("$.a[*].b", None),
    ] {
        let query = read_query(alloc, query, Profile::Standard)
            .ok()
            .ok_or("refused")?;
        let plan = Plan::of(alloc, &query)?;
        let text = match plan.portion() {
            Portion::Value(location) => {
                let mut path = String::new(alloc);
                push_location(&mut path, location)?;
                Some(path)
            }
            Portion::Members(_) | Portion::Whole => None,
        };
        assert_eq!(rt; text.as_ref().map(|text| text.as_str()), path);
    }
    Ok(())
}
