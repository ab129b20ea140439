//! Queries inside filters that lead to values by many ways, and their steps.

use jp_check::{Profile, read_query};
use jp_evaluate::{Patterns, lent_nodes_with};
use jp_held::Document;
use jp_match::Marks;
use jp_select::Steps;
use std::alloc::Global;
use std::test::Fail;

/// A text so many times.
fn times(alloc: Global, text: &str, count: usize) -> Result<String, Fail> {
    let mut all = String::new(alloc);
    for _ in 0..count {
        all.push_str(text)?;
    }
    Ok(all)
}

/// A value inside so many others, inside a list.
fn nested(
    alloc: Global,
    open: &str,
    inner: &str,
    close: &str,
    depth: usize,
) -> Result<String, Fail> {
    let mut all = String::from_str(alloc, "[")?;
    all.push_str(times(alloc, open, depth)?.as_str())?;
    all.push_str(inner)?;
    all.push_str(times(alloc, close, depth)?.as_str())?;
    all.push_str("]")?;
    Ok(all)
}

/// A query whose filter has a segment so many times.
fn repeated(
    alloc: Global,
    front: &str,
    segment: &str,
    count: usize,
    end: &str,
) -> Result<String, Fail> {
    let mut all = String::from_str(alloc, front)?;
    all.push_str(times(alloc, segment, count)?.as_str())?;
    all.push_str(end)?;
    Ok(all)
}

/// How many steps a query takes over a text, and how many of its nodes, up to nine, come.
fn steps(alloc: Global, text: &str, query: &str) -> Result<(u64, usize), Fail> {
    let query = read_query(alloc, query, Profile::Extended)
        .ok()
        .ok_or("refused")?;
    let document = Document::read(alloc, text.as_bytes())?;
    let limit = 10_000_000;
    let patterns = Patterns::new(alloc);
    let steps = Steps::at_most(limit);
    let mut some = lent_nodes_with(alloc, document.value(), &query, &Marks, patterns, steps);
    let mut location = Vec::new(alloc);
    let mut count: usize = 0;
    for _ in 0..9 {
        if let Some(next) = some.next_at(&mut location) {
            next.ok().ok_or("no node")?;
            count = count.saturating_add(1);
        }
    }
    let (patterns, steps) = some.into_parts();
    drop(patterns);
    Ok((limit.saturating_sub(steps.left()), count))
}

#[test]
fn values_taken_once(rt: HostRuntime) -> Result<(), Fail> {
    let alloc = rt.alloc();
    let lists = nested(alloc, "[", "7", "]", 40)?;
    let objects = nested(alloc, "{\"a\":", "7", "}", 60)?;
    for (text, front, segment, count, end, nodes) in [
        (&lists, "$[?@", "[*,0]", 26, ".x]", 0),
        (&lists, "$[?@", "[*,0]", 26, "]", 1),
        (&lists, "$[?@", "[*,0]", 41, "]", 0),
        (&lists, "$[?value(@", "[*,0]", 26, ".x)==7]", 0),
        (&lists, "$[?value(@", "[*,'a']", 40, ")==7]", 1),
        (&lists, "$[?value(@", "[*,0]", 40, ")==7]", 0),
        (&lists, "$[?count(@", "[*,0]", 26, ")==67108864]", 1),
        (&lists, "$[?count(@", "[0,0]", 40, ")==1099511627776]", 1),
        (&lists, "$[?count(@", "[0,0]", 70, ")==0]", 1),
        (&objects, "$[?@", "..*", 12, ".x]", 0),
        (&objects, "$[?@", "..*", 60, "]", 1),
        (&objects, "$[?value(@", "..*", 60, ")==7]", 1),
        (&objects, "$[?value(@", "..*", 59, ")==7]", 0),
        (&objects, "$[?count(@", "..*", 12, ")==1399358844975]", 1),
    ] {
        let query = repeated(alloc, front, segment, count, end)?;
        let (_, found) = steps(alloc, text.as_str(), query.as_str())?;
        assert_eq!(rt; found, nodes);
    }
    Ok(())
}

#[test]
fn steps_grow_as_the_query(rt: HostRuntime) -> Result<(), Fail> {
    let alloc = rt.alloc();
    let lists = nested(alloc, "[", "7", "]", 40)?;
    let objects = nested(alloc, "{\"a\":", "7", "}", 60)?;
    for (text, front, segment, count, end) in [
        (&lists, "$[?@", "[*,0]", 10, ".x]"),
        (&lists, "$[?value(@", "[*,0]", 10, ".x)==7]"),
        (&lists, "$[?count(@", "[*,0]", 10, ")>0]"),
        (&objects, "$[?@", "..*", 4, ".x]"),
        (&objects, "$[?value(@", "..*", 4, ".x)==7]"),
        (&objects, "$[?count(@", "..*", 4, ")>0]"),
    ] {
        let query = repeated(alloc, front, segment, count, end)?;
        let twice = repeated(alloc, front, segment, count * 2, end)?;
        let (few, _) = steps(alloc, text.as_str(), query.as_str())?;
        let (more, _) = steps(alloc, text.as_str(), twice.as_str())?;
        assert!(rt; more.saturating_mul(10) <= few.saturating_mul(22));
        let again = repeated(alloc, front, segment, count * 4, end)?;
        let (most, _) = steps(alloc, text.as_str(), again.as_str())?;
        assert!(rt; most.saturating_mul(10) <= more.saturating_mul(22));
    }
    Ok(())
}
