//! The steps that evaluations make, counted by hand.

use jp_check::{Profile, read_query};
use jp_document::DocumentValue;
use jp_evaluate::{EvaluationFault, LentNodes, Patterns, lent_nodes_with};
use jp_held::Document;
use jp_match::Marks;
use jp_select::Steps;
use std::alloc::Global;
use std::test::Fail;

/// How an evaluation of at most so many steps ends: how many nodes it gives, why it gives no more, and
/// how many steps are left.
type Ended = (usize, Option<EvaluationFault>, u64);

fn ended(alloc: Global, text: &str, query: &str, limit: u64) -> Result<Ended, Fail> {
    let document = Document::read(alloc, text.as_bytes())?;
    let query = read_query(alloc, query, Profile::Extended)
        .ok()
        .ok_or("refused")?;
    let patterns = Patterns::new(alloc);
    let steps = Steps::at_most(limit);
    let mut nodes = lent_nodes_with(alloc, document.value(), &query, &Marks, patterns, steps);
    let (count, fault) = counted(&mut nodes);
    let (_, steps) = nodes.into_parts();
    Ok((count, fault, steps.left()))
}

fn counted<'d: 'q, 'q>(
    nodes: &mut LentNodes<'d, 'q, DocumentValue<'d>, Marks>,
) -> (usize, Option<EvaluationFault>) {
    let mut count: usize = 0;
    for _ in 0..100 {
        match nodes.next_value() {
            Some(Ok(_)) => count = count.saturating_add(1),
            Some(Err(fault)) => return (count, Some(fault)),
            None => break,
        }
    }
    (count, None)
}

#[test]
fn steps_made(rt: HostRuntime) -> Result<(), Fail> {
    for (text, query, nodes, count) in [
        ("[1,2,3]", "$[*]", 3, 8),
        ("[1,2,3]", "$[?@>1]", 2, 11),
        ("[[1]]", "$..*", 2, 12),
        (r#"{"a":["xyz"]}"#, "$.a[?@=='xyz']", 1, 14),
        (r#"[{"b":{"c":1}}]"#, "$[?@.b.c==1]", 1, 9),
        (r#"[{"b":1}]"#, "$[?@.b]", 1, 11),
        ("[{}]", "$[?@.b]", 0, 8),
        (r#"["ab"]"#, "$[?match(@,'a.')]", 1, 10),
        (r#"["abc"]"#, "$[?length(@)==3]", 1, 10),
        (r#"["ab"]"#, "$[?match(@,'a{64}')]", 0, 13),
        (r#"["ab"]"#, "$[?match(@,'a{65}')]", 0, 15),
        (r#"["ab"]"#, "$[?search(@,'(a?){4096}')]", 1, 144),
        (r#"["ab"]"#, "$[?match(@,'.{0,5000}')]", 1, 17),
    ] {
        let alloc = rt.alloc();
        assert_eq!(rt;
            ended(alloc, text, query, count)?,
            (nodes, None, 0),
            "{query}"
        );
        let (given, fault, left) = ended(alloc, text, query, count.saturating_sub(1))?;
        assert_eq!(rt;
            (fault, left),
            (Some(EvaluationFault::StepsUsedUp), 0),
            "{query}"
        );
        assert!(rt; given <= nodes, "{query}");
    }
    Ok(())
}

/// A list of an object whose one member has a name of so many bytes.
fn named(alloc: Global, bytes: usize, value: &str) -> Result<String, Fail> {
    let mut text = String::new(alloc);
    text.push_str("[{")?;
    push_name(&mut text, bytes)?;
    text.push_str(value)?;
    text.push_str("}]")?;
    Ok(text)
}

/// An object with a list of two numbers, and one below a member whose name has so many bytes.
fn named_beside(alloc: Global, bytes: usize) -> Result<String, Fail> {
    let mut text = String::new(alloc);
    text.push_str("{\"l\":[1,1],")?;
    push_name(&mut text, bytes)?;
    text.push_str("{\"x\":1}}")?;
    Ok(text)
}

fn push_name(text: &mut String, bytes: usize) -> Result<(), Fail> {
    text.push('"')?;
    for _ in 0..bytes {
        text.push('n')?;
    }
    text.push_str("\":")?;
    Ok(())
}

#[test]
fn names_that_are_compared(rt: HostRuntime) -> Result<(), Fail> {
    let alloc = rt.alloc();
    for (bytes, value, query, count) in [
        (15, "[1]", "$[?count(@[*,*][*,*])==4]", 21),
        (16, "[1]", "$[?count(@[*,*][*,*])==4]", 23),
        (160, "[1]", "$[?count(@[*,*][*,*])==4]", 41),
        (15, "1", "$[?count(distinct(@.*))==1]", 13),
        (16, "1", "$[?count(distinct(@.*))==1]", 14),
        (160, "1", "$[?count(distinct(@.*))==1]", 23),
        (1, "[[1]]", "$[?count(distinct(@..*))==3]", 24),
        (1, "[[[1]]]", "$[?count(distinct(@..*))==4]", 30),
    ] {
        let text = named(alloc, bytes, value)?;
        assert_eq!(rt;
            ended(alloc, text.as_str(), query, count)?,
            (1, None, 0),
            "{bytes} {query}"
        );
    }
    Ok(())
}

#[test]
fn names_in_paths_of_answers(rt: HostRuntime) -> Result<(), Fail> {
    let alloc = rt.alloc();
    for (bytes, count) in [(15, 51), (16, 54), (160, 81), (900_000, 168_801)] {
        let text = named_beside(alloc, bytes)?;
        assert_eq!(rt;
            ended(alloc, text.as_str(), "$.l[?@==value($..x)]", count)?,
            (2, None, 0),
            "{bytes}"
        );
    }
    Ok(())
}
