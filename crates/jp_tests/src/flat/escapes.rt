//! Rows of texts with escapes, read into tables (RFC 8259 section 7).

use crate::flat::documents::{assert_no_documents, assert_printed};
use crate::flat::values::push_members;
use jp_flat::flat_document;
use std::alloc::{AllocError, Global};
use std::process::Abort;
use std::test::Fail;

/// A text between its quotes in a document, and what it holds, as compact text between quotes.
type Row = (&'static str, &'static str);

const TEXTS: &[Row] = &[
    // each escape alone
    (r#"\""#, r#"\""#),
    (r"\\", r"\\"),
    (r"\/", "/"),
    (r"\b", r"\b"),
    (r"\f", r"\f"),
    (r"\n", r"\n"),
    (r"\r", r"\r"),
    (r"\t", r"\t"),
    (r"\u0041", "A"),
    // first, last, and two side by side
    (r#"\"a"#, r#"\"a"#),
    (r#"a\""#, r#"a\""#),
    (r"\/a", "/a"),
    (r"a\/", "a/"),
    (r"\\\\", r"\\\\"),
    (r"\/\/", "//"),
    (r#"\\\""#, r#"\\\""#),
    (r#"\"\\"#, r#"\"\\"#),
    (r"a\bb\fc\nd\re\tf\/g", r"a\bb\fc\nd\re\tf/g"),
    // letters behind an escaped backslash
    (r"\\n", r"\\n"),
    (r"\\u0041", r"\\u0041"),
    // behind 15, 16 and 17 bytes that stand for themselves, and before as many
    (r"abcdefghijklmno\/", "abcdefghijklmno/"),
    (r"abcdefghijklmnop\/", "abcdefghijklmnop/"),
    (r"abcdefghijklmnopq\/", "abcdefghijklmnopq/"),
    (r"\/abcdefghijklmno", "/abcdefghijklmno"),
    (r"\/abcdefghijklmnop", "/abcdefghijklmnop"),
    (r"\/abcdefghijklmnopq", "/abcdefghijklmnopq"),
    (
        r"abcdefghijklmnop\/abcdefghijklmnopq\/abcdefghijklmno",
        "abcdefghijklmnop/abcdefghijklmnopq/abcdefghijklmno",
    ),
    // beside characters of 2, 3 and 4 bytes
    (r"é\/é", "é/é"),
    (r"€\/€", "€/€"),
    (r"😀\/😀", "😀/😀"),
    (r"é€😀\n\n😀€é", r"é€😀\n\n😀€é"),
    (r"\/é€😀", "/é€😀"),
    (r"é€😀\/", "é€😀/"),
    // escapes by numbers, of 1, 2, 3 and 4 bytes, with others and without
    (r"\u0000", r"\u0000"),
    (r"\u001f\u007f", "\\u001f\u{7f}"),
    (r"\u00e9\u00E9", "éé"),
    (r"\u20ac\u20AC", "€€"),
    (r"\ud83d\ude00\uD83D\uDE00", "😀😀"),
    (r"\ud800\udc00", "\u{10000}"),
    (r"\udbff\udfff", "\u{10ffff}"),
    (r"\ud7ff\ue000\uffff", "\u{d7ff}\u{e000}\u{ffff}"),
    (r"\u0022\u005c\u002f", r#"\"\\/"#),
    (r"a\/b\u20acc\td", r"a/b€c\td"),
    (r"\t\u0041\/", r"\tA/"),
    (r"\u0041\\u0041", r"A\\u0041"),
    (r"é\ud83d\ude00\/€", "é😀/€"),
];

/// Texts between quotes that hold nothing.
const WRONG: &[&str] = &[
    r"\x",
    r"\a",
    r"\0",
    r"\'",
    r"\B",
    r"\N",
    r"\U0041",
    r"\ ",
    r"\é",
    r"\😀",
    r"a\/b\x",
    r"\x\/",
    r"\u",
    r"\u0",
    r"\u00",
    r"\u004",
    r"\u004g",
    r"\u 041",
    r"\u+041",
    r"\u00é",
    r"\/\u004",
    r"\ud800",
    r"\ud83dx",
    r"\ud83d\/",
    r"\ud83d\ud83d",
    r"\ud83d\u0041",
    r"\ud83d\ue000",
    r"\ud83d\ude0",
    r"\ud83dude00",
    r"\udc00",
    r"\ude00\ud83d",
    "\\\n",
];

/// A text between quotes.
fn quoted(alloc: Global, text: &str) -> Result<String, AllocError> {
    format!(in alloc; "\"{text}\"")
}

/// A document in which a text stands among other values.
fn among_values(alloc: Global, text: &str) -> Result<String, AllocError> {
    format!(in alloc; "[\"{text}\",\"a\",{{\"b\":\"{text}\"}},1]")
}

/// A document in which a text is the name of a member, before one that has no character in its name.
fn before_no_name(alloc: Global, text: &str) -> Result<String, AllocError> {
    format!(in alloc; "{{\"{text}\":[1],\"\":2}}")
}

/// These members in the order of their names.
fn behind_no_name(alloc: Global, text: &str) -> Result<String, AllocError> {
    format!(in alloc; "{{\"\":2,\"{text}\":[1]}}")
}

/// A document in which a text is the name of a member.
fn as_name(alloc: Global, text: &str) -> Result<String, AllocError> {
    format!(in alloc; "{{\"{text}\":1}}")
}

/// Asserts that a text is read as it must be where it is the document.
fn assert_read_alone(rt: &impl Abort, alloc: Global, row: &Row) -> Result<(), AllocError> {
    let text = quoted(alloc, row.0)?;
    let wanted = quoted(alloc, row.1)?;
    assert_printed(rt, alloc, text.as_str(), wanted.as_str())
}

/// Asserts that a text is read as it must be where it stands among other values.
fn assert_read_among_values(rt: &impl Abort, alloc: Global, row: &Row) -> Result<(), AllocError> {
    let text = among_values(alloc, row.0)?;
    let wanted = among_values(alloc, row.1)?;
    assert_printed(rt, alloc, text.as_str(), wanted.as_str())
}

/// Asserts that a text is read as it must be where it is a name.
fn assert_read_as_name(rt: &impl Abort, alloc: Global, row: &Row) -> Result<(), AllocError> {
    let text = before_no_name(alloc, row.0)?;
    let wanted = behind_no_name(alloc, row.1)?;
    assert_printed(rt, alloc, text.as_str(), wanted.as_str())
}

#[test]
fn texts_with_escapes(rt: HostRuntime) -> Result<(), Fail> {
    for row in TEXTS {
        assert_read_alone(&rt, rt.alloc(), row)?;
        assert_read_among_values(&rt, rt.alloc(), row)?;
        assert_read_as_name(&rt, rt.alloc(), row)?;
    }
    Ok(())
}

#[test]
fn a_name_with_escapes_is_found(rt: HostRuntime) -> Result<(), Fail> {
    let text = br#"{"a\/b":1,"a\u002fc":2,"\"":3,"\\\"\/\t":4}"#;
    let flat = flat_document(rt.alloc(), text).ok_or("no document")?;
    let mut lines = String::new(rt.alloc());
    push_members(&mut lines, flat.value(), &["a/b", "a/c", "\"", "\\\"/\t"])?;
    assert_eq!(rt; lines.as_str(), "a/b 1\na/c 2\n\" 3\n\\\"/\t 4\n");
    Ok(())
}

/// Asserts that a text is refused where it is a value and where it is a name.
fn assert_refused(rt: &impl Abort, alloc: Global, spelled: &str) -> Result<(), AllocError> {
    let value = quoted(alloc, spelled)?;
    let name = as_name(alloc, spelled)?;
    assert_no_documents(rt, alloc, &[value.as_str(), name.as_str()]);
    Ok(())
}

#[test]
fn wrong_escapes(rt: HostRuntime) -> Result<(), Fail> {
    for spelled in WRONG {
        assert_refused(&rt, rt.alloc(), spelled)?;
    }
    Ok(())
}

const WITHOUT_END: &[&str] = &[
    r#"""#,
    r#""\"#,
    r#""\""#,
    r#""\n"#,
    r#""\u"#,
    r#""\u0041"#,
    r#""a\\\""#,
    r#"["\/"#,
    r#"{"\/"#,
];

#[test]
fn texts_that_do_not_end(rt: HostRuntime) {
    assert_no_documents(&rt, rt.alloc(), WITHOUT_END);
}
