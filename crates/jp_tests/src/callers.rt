//! Each caller once, with values by hand.

use jsonpath::Profile::Standard;
use jsonpath::{Document, Json, Marks, PathFault, evaluate, path_text, read_query, value_text};
use jsonpath_uses::{all_paths, first_or, ids_of_the_1800s, is_any, show_refusal, value_at_path};
use std::test::Fail;

const STORE: &[u8] = br#"{"book":[{"title":"A","price":9},{"title":"B","price":12}]}"#;

const PEOPLE: &[u8] =
    br#"[{"born":"1815","id":"Ada"},{"born":"?"},{"born":"1791","id":"Faraday"}]"#;

#[test]
fn reads_then_asks(rt: HostRuntime) -> Result<(), Fail> {
    let alloc = rt.alloc();
    let document = Document::read(alloc, b"{\"a\":[1,2]}")?;
    let query = read_query(alloc, "$.a[-1]", Standard)?;
    for node in evaluate(alloc, &document, &query, &Marks)? {
        let path = path_text(alloc, node.location())?;
        let value = value_text(alloc, node.value())?;
        assert_eq!(rt; (path.as_str(), value.as_str()), ("$['a'][1]", "2"));
    }
    Ok(())
}

#[test]
fn the_first_or_another(rt: HostRuntime) -> Result<(), Fail> {
    let alloc = rt.alloc();
    let document = Document::read(alloc, STORE)?;
    let dear = read_query(alloc, "$.book[?@.price>10].title", Standard)?;
    let first = first_or(alloc, &document, &dear, &Json::Null)?;
    assert_eq!(rt; value_text(alloc, first)?.as_str(), "\"B\"");
    let none = read_query(alloc, "$.book[?@.price>99].title", Standard)?;
    let first = first_or(alloc, &document, &none, &Json::Null)?;
    assert_eq!(rt; value_text(alloc, first)?.as_str(), "null");
    assert!(rt; is_any(alloc, &document, &dear)?);
    assert!(rt; !is_any(alloc, &document, &none)?);
    Ok(())
}

#[test]
fn all_paths_and_back(rt: HostRuntime) -> Result<(), Fail> {
    let alloc = rt.alloc();
    let document = Document::read(alloc, STORE)?;
    let prices = read_query(alloc, "$..price", Standard)?;
    let paths = all_paths(alloc, &document, &prices)?;
    let [first, second] = paths.as_slice() else {
        return Err("two paths")?;
    };
    assert_eq!(rt; first.as_str(), "$['book'][0]['price']");
    assert_eq!(rt; second.as_str(), "$['book'][1]['price']");
    let value = value_at_path(alloc, &document, second.as_str())?.ok_or("no value")?;
    assert_eq!(rt; value_text(alloc, value)?.as_str(), "12");
    assert!(rt; value_at_path(alloc, &document, "$['book'][2]")?.is_none());
    let fault = value_at_path(alloc, &document, "$.book").err();
    assert!(rt; matches!(fault, Some(PathFault::NotNormalized)));
    Ok(())
}

#[test]
fn a_filter_with_a_pattern(rt: HostRuntime) -> Result<(), Fail> {
    let alloc = rt.alloc();
    let document = Document::read(alloc, PEOPLE)?;
    let ids = ids_of_the_1800s(alloc, &document)?;
    let [id] = ids.as_slice() else {
        return Err("one id")?;
    };
    assert_eq!(rt; value_text(alloc, id.value())?.as_str(), "\"Ada\"");
    Ok(())
}

#[test]
fn a_caret_under_the_place(rt: HostRuntime) -> Result<(), Fail> {
    let alloc = rt.alloc();
    for (query, text) in [
        ("$.a[01]", "$.a[01]\n     ^ Syntax at 5\n"),
        ("$.é[01]", "$.é[01]\n     ^ Syntax at 6\n"),
        ("$[", "$[\n  ^ Syntax at 2\n"),
    ] {
        let refusal = read_query(alloc, query, Standard).err().ok_or("a query")?;
        assert_eq!(rt; show_refusal(alloc, query, refusal)?.as_str(), text);
    }
    Ok(())
}
