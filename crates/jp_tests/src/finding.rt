//! The calls of `jsonpath`, and that those of the crates below are at hand.

use jsonpath::Profile::{Extended, Standard};
use jsonpath::{
    Document, FindFault, OutputLimit, Steps, canon, find, find_nodes, find_within, path_text,
    read_query,
};
use std::alloc::Global;
use std::test::Fail;

const STORE: &[u8] = br#"{"book":[{"title":"A","price":9},{"title":"B","price":12}]}"#;

/// The lines of what is found: path, blank, value.
fn lines(alloc: Global, document: &[u8], query: &str) -> Result<String, Fail> {
    let mut lines = String::new(alloc);
    for found in &find(alloc, document, query, Standard)? {
        lines.push_str(found.path.as_str())?;
        lines.push_str(" ")?;
        lines.push_str(found.value.as_str())?;
        lines.push_str("\n")?;
    }
    Ok(lines)
}

#[test]
fn finds_paths_and_values(rt: HostRuntime) -> Result<(), Fail> {
    let alloc = rt.alloc();
    let cheap = lines(alloc, STORE, "$.book[?@.price<10].title")?;
    assert_eq!(rt; cheap.as_str(), "$['book'][0]['title'] \"A\"\n");
    let all = lines(alloc, STORE, "$..price")?;
    assert_eq!(rt;
        all.as_str(),
        "$['book'][0]['price'] 9\n$['book'][1]['price'] 12\n"
    );
    Ok(())
}

#[test]
fn says_what_is_wrong(rt: HostRuntime) -> Result<(), Fail> {
    let alloc = rt.alloc();
    let rows: [(&[u8], &str, &str); 4] = [
        (b"[1]", "$.a[01]", "query refused: Syntax at 5"),
        (b"[1,]", "$", "document refused: NotJson"),
        (
            br#"{"a":[0,2.5]}"#,
            "$",
            "document refused: NotWhole at $['a'][1]",
        ),
        (b"[1", "$[", "query refused: Syntax at 2"),
    ];
    for (document, query, text) in rows {
        let fault = find(alloc, document, query, Standard).err().ok_or("found")?;
        assert_eq!(rt; format!(in alloc; "{fault}")?.as_str(), text);
    }
    let fault = FindFault::DocumentTooLarge;
    assert_eq!(rt;
        format!(in alloc; "{fault}")?.as_str(),
        "document refused: DocumentTooLarge"
    );
    Ok(())
}

#[test]
fn finds_within_a_limit(rt: HostRuntime) -> Result<(), Fail> {
    let alloc = rt.alloc();
    for (query, needed) in [("$", 1), ("$[0]", 1), ("$[*]", 7), ("$..*", 9)] {
        let mut steps = Steps::at_most(needed + 5);
        let found = find_within(
            alloc,
            b"[1,2]",
            query,
            Standard,
            &mut steps,
            OutputLimit::none(),
        )?;
        assert_eq!(rt; found.len(), find(alloc, b"[1,2]", query, Standard)?.len());
        assert_eq!(rt; steps.left(), 5);
        let mut steps = Steps::at_most(needed - 1);
        let fault = find_within(
            alloc,
            b"[1,2]",
            query,
            Standard,
            &mut steps,
            OutputLimit::none(),
        )
        .err();
        assert!(rt; matches!(fault, Some(FindFault::StepsUsedUp)), "{query}");
        assert_eq!(rt; steps.left(), 0);
    }
    Ok(())
}

/// A query, how many nodes it selects in `[1,22]`, and how many bytes their paths and values have: `$[0]` and `1`,
/// `$[1]` and `22`.
const OUTPUTS: [(&str, u64, u64); 4] = [
    ("$", 1, 7),
    ("$[1]", 1, 6),
    ("$[*]", 2, 11),
    ("$[5]", 0, 0),
];

#[test]
fn finds_so_much_and_no_more(rt: HostRuntime) -> Result<(), Fail> {
    let alloc = rt.alloc();
    for (query, nodes, bytes) in OUTPUTS {
        let exact = found_within(alloc, query, Some(nodes), Some(bytes))?;
        assert_eq!(rt; exact, Ok(nodes));
        if nodes > 0 {
            let fewer = found_within(alloc, query, Some(nodes - 1), None)?;
            assert_eq!(rt; fewer, Err(FindFault::TooManyNodes));
            let less = found_within(alloc, query, None, Some(bytes - 1))?;
            assert_eq!(rt; less, Err(FindFault::TooManyBytes));
            let first = found_within(alloc, query, Some(nodes - 1), Some(bytes - 1))?;
            assert_eq!(rt; first, Err(FindFault::TooManyNodes));
        }
    }
    let neither = found_within(alloc, "$[*]", Some(1), Some(4))?;
    assert_eq!(rt; neither, Err(FindFault::TooManyBytes));
    let texts = format!(in alloc; "{}, {}", FindFault::TooManyNodes, FindFault::TooManyBytes)?;
    assert_eq!(rt; texts.as_str(), "too many nodes, too many bytes");
    Ok(())
}

/// How many nodes are found in `[1,22]` with that limit.
fn found_within(
    alloc: Global,
    query: &str,
    nodes: Option<u64>,
    bytes: Option<u64>,
) -> Result<Result<u64, FindFault>, Fail> {
    let mut steps = Steps::unlimited();
    let limit = OutputLimit { nodes, bytes };
    match find_within(alloc, b"[1,22]", query, Standard, &mut steps, limit) {
        Ok(found) => Ok(Ok(found.len() as u64)),
        Err(fault) => Ok(Err(fault)),
    }
}

#[test]
fn finds_nodes_in_a_document_that_was_read(rt: HostRuntime) -> Result<(), Fail> {
    let alloc = rt.alloc();
    let document = Document::read(alloc, STORE)?;
    let nodes = find_nodes(alloc, &document, "$.book[-1].title", Standard)?;
    let [title] = nodes.as_slice() else {
        return Err("one title")?;
    };
    assert_eq!(rt;
        path_text(alloc, title.location())?.as_str(),
        "$['book'][1]['title']"
    );
    let refusal = find_nodes(alloc, &document, "$[", Standard)
        .err()
        .ok_or("found")?;
    assert_eq!(rt; format!(in alloc; "{refusal}")?.as_str(), "Syntax at 2");
    Ok(())
}

#[test]
fn gives_canonical_texts(rt: HostRuntime) -> Result<(), Fail> {
    let query = read_query(rt.alloc(), "$ [?distinct(@.b)]", Extended)?;
    assert_eq!(rt; canon(rt.alloc(), &query)?.as_str(), "$[?distinct(@['b'])]");
    Ok(())
}
