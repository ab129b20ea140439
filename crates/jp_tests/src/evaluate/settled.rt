//! Absolute queries inside filters, which are asked once.

use crate::evaluate::nodelist;
use jp_check::{Profile, read_query};
use jp_evaluate::{Patterns, lent_nodes_with};
use jp_held::Document;
use jp_match::Marks;
use jp_select::Steps;
use std::alloc::Global;
use std::test::Fail;

const MIXED: &[u8] =
    br#"{"l":[{"a":1,"s":"x1"},{"a":2,"s":"y"},{"b":2}],"n":2,"p":"x.","o":{"k":[1,2]},"z":null}"#;

const ALL: &str = " $['l'][0] $['l'][1] $['l'][2]";

const LIMIT: u64 = 1_000_000;

#[test]
fn absolute_queries(rt: HostRuntime) -> Result<(), Fail> {
    let alloc = rt.alloc();
    for (query, paths) in [
        ("$.l[?count($..a)>1]", ALL),
        ("$.l[?count($..a)>2]", ""),
        ("$.l[?count($..a)==count(@.*)]", " $['l'][0] $['l'][1]"),
        ("$.l[?$..b]", ALL),
        ("$.l[?$..c]", ""),
        ("$.l[?!$..c&&@.a]", " $['l'][0] $['l'][1]"),
        ("$.l[?$..c||@.b]", " $['l'][2]"),
        ("$.l[?!($..c||$..b)]", ""),
        ("$.l[?@.a==value($..n)]", " $['l'][1]"),
        ("$.l[?@.a==value($..z)]", ""),
        ("$.l[?@.q==value($..a)]", ALL),
        ("$.l[?@.q==value($..q)]", ALL),
        ("$.l[?value($..k)==$.o.k]", ALL),
        ("$.l[?length(value($..k))==2]", ALL),
        ("$.l[?length(value($..o))==1]", ALL),
        ("$.l[?match(@.s,value($..p))]", " $['l'][0]"),
        ("$.l[?search(value($..p),@.s)]", ""),
        ("$.l[?@[?count($..a)==2]]", ALL),
        ("$[?@[?@.a==value($..n)]]", " $['l']"),
        ("$.l[?@[?count($.l[?$..b])==3]]", ALL),
        ("$.l[?$.l[?@.b==value($..n)]]", ALL),
        ("$.l[?count(distinct($.l[0,0]))==1]", ALL),
        ("$.l[?@==value(distinct($.l[1,1]))]", " $['l'][1]"),
        ("$.l[?distinct($..b)]", ALL),
        ("$.l[?@[?@==2]&&$..b]", " $['l'][1] $['l'][2]"),
        ("$.l[-1:][?count($[*])==5]", " $['l'][2]['b']"),
    ] {
        assert_eq!(rt; nodelist(alloc, MIXED, query)?.as_str(), paths);
    }
    Ok(())
}

/// A list of so many objects.
fn records(alloc: Global, count: u64) -> Result<Document, Fail> {
    let mut text = String::from_str(alloc, "[")?;
    for i in 0..count {
        text.push_str(if i == 0 { "" } else { "," })?;
        text.push_str(r#"{"a":[1,2]}"#)?;
    }
    text.push_str("]")?;
    Ok(Document::read(alloc, text.as_str().as_bytes())?)
}

/// How many steps the evaluation takes.
fn steps_taken(alloc: Global, count: u64, query: &str) -> Result<u64, Fail> {
    let query = read_query(alloc, query, Profile::Extended)
        .ok()
        .ok_or("refused")?;
    let document = records(alloc, count)?;
    let patterns = Patterns::new(alloc);
    let steps = Steps::at_most(LIMIT);
    let mut nodes = lent_nodes_with(alloc, document.value(), &query, &Marks, patterns, steps);
    let mut location = Vec::new(alloc);
    for _ in 0..1_000 {
        match nodes.next_at(&mut location) {
            Some(Ok(_)) => {}
            Some(Err(_)) => return Err(Fail::from("stopped")),
            None => break,
        }
    }
    Ok(LIMIT.saturating_sub(nodes.into_parts().1.left()))
}

#[test]
fn steps_follow_the_document(rt: HostRuntime) -> Result<(), Fail> {
    let alloc = rt.alloc();
    for query in [
        "$[?count($..a)>1]",
        "$[?count($[?count($[*])>0])>0]",
        "$[?!($..b||@.b)&&$[?@.a]]",
        "$[?@.a[?@<count($..a)]]",
        "$[?value($..b)==value($[0].a[?@==2])]",
        "$[?length(value($[:1]))==1]",
        "$[?count(distinct($[*][*]))>2||distinct($..b)]",
        "$[?match(@.a,value($..p))]",
    ] {
        let (one, two, four) = (
            steps_taken(alloc, 20, query)?,
            steps_taken(alloc, 40, query)?,
            steps_taken(alloc, 80, query)?,
        );
        assert!(rt; two.saturating_mul(10) <= one.saturating_mul(22));
        assert!(rt; four.saturating_mul(10) <= two.saturating_mul(22));
    }
    Ok(())
}
