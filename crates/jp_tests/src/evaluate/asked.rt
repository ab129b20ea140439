//! What queries ask of a document.

use jp_check::{Checked, Profile, read_filter, read_query};
use jp_decimal::Numbers;
use jp_document::path_text;
use jp_evaluate::{Plan, evaluate, lent_nodes};
use jp_flat::{AskedFor, Room};
use jp_held::{Document, Excerpt, Portion, push_location};
use jp_lent::{Lent, push_value};
use jp_match::Marks;
use std::alloc::Global;
use std::test::Fail;

/// Queries, and the names of the members that they ask for of a list's items.
const OF_ITEMS: [(&str, &str); 15] = [
    ("$[*].name", "name"),
    ("$[1:5:2].a", "a"),
    ("$[*,0].a", "a"),
    ("$[*]['a','b']", "a b"),
    ("$[*].a.b.c", "a"),
    ("$[*].a..b", "a"),
    ("$[*].a[*]", "a"),
    ("$[?@.price<10].title", "price title"),
    ("$[?@.a].a", "a"),
    ("$[?@.a&&!@.b||@['c']==@.d].e", "a b c d e"),
    ("$[?match(@.a,'x')].id", "a id"),
    ("$[?length(@.a)>count(@.b[*])].c", "a b c"),
    ("$[?length(value(@.a))==1].b", "a b"),
    ("$[?@.a.b[0]==1].c", "a c"),
    ("$[?1==1].a", "a"),
];

/// Queries, and the names of the members that they ask for of the document itself.
const OF_ROOT: [(&str, &str); 9] = [
    ("$.a[*].b", "a"),
    ("$.a[*]", "a"),
    ("$.a[-1]", "a"),
    ("$.a[0:2].b", "a"),
    ("$.a..b", "a"),
    ("$['a','b']", "a b"),
    ("$['a','b','a']['c','d']", "a b"),
    ("$['a','b'][0]", "a b"),
    ("$['\\u0061']..*", "a"),
];

/// Queries that ask for the members `a`, wherever they stand.
const ANYWHERE: [&str; 4] = ["$..a", "$..['a']", "$..a.b[0]", "$..a..*"];

/// Queries of which nothing is told.
const ALL: [&str; 19] = [
    "$[*]",
    "$.*.*",
    "$[*][0]",
    "$['a',0]",
    "$['a',*].b",
    "$.a[?@.b]",
    "$.a[?@.b==$.c]",
    "$..*",
    "$..a[?@.b]",
    "$..['a','b']",
    "$..[0]",
    "$[*]..a",
    "$[?@.a]",
    "$[?@].a",
    "$[?@[0]].a",
    "$[?@..b].a",
    "$[?$.a==@.b].c",
    "$[?@.a[?@.b]].c",
    "$[*].a[?@.b]",
];

/// What a query asks for: the names with a blank between two of them, behind `root`, `items` or `anywhere`;
/// or `value` or `all`.
fn asked(alloc: Global, query: &str) -> Result<String, Fail> {
    let query = read_query(alloc, query, Profile::Standard)
        .ok()
        .ok_or("refused")?;
    told(alloc, &Plan::of(alloc, &query)?)
}

/// What is read by a plan, told so.
fn told(alloc: Global, plan: &Plan) -> Result<String, Fail> {
    match plan.portion() {
        Portion::Members(AskedFor::OfRoot(names)) => names_of(alloc, "root", names),
        Portion::Members(AskedFor::OfItems(names)) => names_of(alloc, "items", names),
        Portion::Members(AskedFor::Anywhere(name)) => text_of(alloc, "anywhere", name.as_str()),
        Portion::Value(_) => Ok(String::from_str(alloc, "value")?),
        Portion::Whole => Ok(String::from_str(alloc, "all")?),
    }
}

/// The text behind a word.
fn text_of(alloc: Global, word: &str, text: &str) -> Result<String, Fail> {
    let mut whole = String::from_str(alloc, word)?;
    whole.push_str(" ")?;
    whole.push_str(text)?;
    Ok(whole)
}

/// The names behind a word.
fn names_of(alloc: Global, word: &str, names: &[String]) -> Result<String, Fail> {
    let mut text = String::from_str(alloc, word)?;
    for name in names {
        text.push_str(" ")?;
        text.push_str(name.as_str())?;
    }
    Ok(text)
}

#[test]
fn members_of_the_root(rt: HostRuntime) -> Result<(), Fail> {
    for (query, names) in OF_ROOT {
        let wanted = text_of(rt.alloc(), "root", names)?;
        let found = asked(rt.alloc(), query)?;
        assert_eq!(rt; found.as_str(), wanted.as_str(), "{query}");
    }
    Ok(())
}

/// Queries, a blank between two of them, and what they ask for together.
const TOGETHER: [(&str, &str); 8] = [
    ("$.a", "root a"),
    ("$.a $.b.c[0]", "root a b"),
    ("$.a[*].b $['c','a'] $.b..x", "root a c b"),
    ("$.a[*] $.a", "root a"),
    ("$.a $[0]", "all"),
    ("$.a $", "all"),
    ("$.a $..b", "all"),
    ("$['a','b','c','d','e'] $['e','f','g','h','i']", "all"),
];

#[test]
fn members_for_several_queries(rt: HostRuntime) -> Result<(), Fail> {
    let alloc = rt.alloc();
    for (texts, wanted) in TOGETHER {
        let mut queries = Vec::new(alloc);
        for text in texts.split(' ') {
            let query = read_query(alloc, text, Profile::Standard);
            queries.push(query.ok().ok_or("refused")?)?;
        }
        let found = told(alloc, &Plan::of_all(alloc, &queries)?)?;
        assert_eq!(rt; found.as_str(), wanted, "{texts}");
    }
    Ok(())
}

/// Expressions, and what they ask for.
const TESTED: [(&str, &str); 9] = [
    ("@.a", "root a"),
    ("@.a.b[0]==1||!@['c']", "root a c"),
    ("@.a>1&&match(@.b,'x')&&count(@.c[*])<@.a", "root a b c"),
    ("1==1", "root"),
    ("@", "all"),
    ("$.a", "all"),
    ("@.a==$.b", "all"),
    ("@.a[?@.b]", "all"),
    ("@..a", "all"),
];

#[test]
fn members_for_an_expression(rt: HostRuntime) -> Result<(), Fail> {
    let alloc = rt.alloc();
    for (text, wanted) in TESTED {
        let filter = read_filter(alloc, text, Profile::Standard);
        let filter = filter.ok().ok_or("refused")?;
        let found = told(alloc, &Plan::of_test(alloc, &filter)?)?;
        assert_eq!(rt; found.as_str(), wanted, "{text}");
    }
    Ok(())
}

#[test]
fn members_of_items(rt: HostRuntime) -> Result<(), Fail> {
    for (query, names) in OF_ITEMS {
        let wanted = text_of(rt.alloc(), "items", names)?;
        let found = asked(rt.alloc(), query)?;
        assert_eq!(rt; found.as_str(), wanted.as_str(), "{query}");
    }
    Ok(())
}

#[test]
fn members_anywhere(rt: HostRuntime) -> Result<(), Fail> {
    for query in ANYWHERE {
        let found = asked(rt.alloc(), query)?;
        assert_eq!(rt; found.as_str(), "anywhere a", "{query}");
    }
    Ok(())
}

#[test]
fn all_of_a_document(rt: HostRuntime) -> Result<(), Fail> {
    for query in ALL {
        let found = asked(rt.alloc(), query)?;
        assert_eq!(rt; found.as_str(), "all", "{query}");
    }
    Ok(())
}

#[test]
fn no_more_than_eight_names(rt: HostRuntime) -> Result<(), Fail> {
    let eight = asked(rt.alloc(), "$[*]['a','b','c','d','e','f','g','h','a']")?;
    assert_eq!(rt; eight.as_str(), "items a b c d e f g h");
    let nine = asked(rt.alloc(), "$[*]['a','b','c','d','e','f','g','h','i']")?;
    assert_eq!(rt; nine.as_str(), "all");
    Ok(())
}

/// The paths and values of the nodes that a query has in what is read of a document by its plan, each
/// behind a blank, and the memory.
fn planned_nodes(
    alloc: Global,
    room: Room,
    text: &str,
    query: &Checked,
    plan: &Plan,
) -> Result<(String, Room), Fail> {
    let mut nodes = String::new(alloc);
    let Ok(read) = plan.read_into(alloc, room, text.as_bytes(), Numbers::Whole) else {
        return Err("no document")?;
    };
    match &read {
        Excerpt::Document(flat) => {
            let mut selected = lent_nodes(alloc, flat.value(), query, &Marks);
            let mut location = Vec::new(alloc);
            for _ in 0..1_000 {
                let Some(next) = selected.next_at(&mut location) else {
                    break;
                };
                let path = path_text(alloc, &location)?;
                push_node(&mut nodes, path.as_str(), next?)?;
            }
        }
        Excerpt::Value(location, found) => {
            if let Some(value) = found.value() {
                let mut path = String::new(alloc);
                push_location(&mut path, location)?;
                push_node(&mut nodes, path.as_str(), value)?;
            }
        }
    }
    Ok((nodes, read.into_room()))
}

/// The paths and values of the nodelist over the whole document.
fn all_nodes(alloc: Global, text: &str, query: &Checked) -> Result<String, Fail> {
    let document = Document::read(alloc, text.as_bytes())?;
    let mut nodes = String::new(alloc);
    for node in evaluate(alloc, &document, query, &Marks)? {
        let path = path_text(alloc, node.location())?;
        push_node(&mut nodes, path.as_str(), node.value())?;
    }
    Ok(nodes)
}

fn push_node<V: Lent>(nodes: &mut String, path: &str, value: V) -> Result<(), Fail> {
    nodes.push(' ')?;
    nodes.push_str(path)?;
    nodes.push('=')?;
    push_value(nodes, value)?;
    Ok(())
}

#[test]
fn plans_have_all_nodes(rt: HostRuntime) -> Result<(), Fail> {
    let alloc = rt.alloc();
    let texts = [
        r#"[{"a":1,"b":{"a":[2]},"c":0},{"c":"x","a":{"b":3}},7]"#,
        r#"{"a":[{"b":1},{"a":2,"b":3}],"b":{"a":null}}"#,
        r#"{"x":1,"a":1}"#,
        "[]",
        r#""a""#,
    ];
    let queries = [
        "$",
        "$.a",
        "$[0].a",
        "$[9]",
        "$.a[1].b",
        "$.a[*].b",
        "$['b','a']",
        "$['b','x'].a",
        "$[*].a",
        "$[*]['a','b']",
        "$..a",
        "$..a.b",
        "$[?@.c==0].a",
        "$[?@.a].c",
        "$..*",
        "$.*",
        "$[-1]",
    ];
    for text in queries {
        let query = read_query(alloc, text, Profile::Standard)
            .ok()
            .ok_or("refused")?;
        let plan = Plan::of(alloc, &query)?;
        let mut room = Room::new(alloc);
        for document in texts {
            let (nodes, given_back) = planned_nodes(alloc, room, document, &query, &plan)?;
            let wanted = all_nodes(alloc, document, &query)?;
            assert_eq!(rt; nodes.as_str(), wanted.as_str(), "{text} {document}");
            room = given_back;
        }
    }
    Ok(())
}
