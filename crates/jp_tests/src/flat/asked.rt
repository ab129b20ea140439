//! Documents of which no more is kept than is asked for.

use jp_decimal::Numbers;
use jp_flat::{AskedFor, Room};
use jp_lent::value_text;
use std::alloc::{AllocError, Global};
use std::process::Abort;
use std::test::Fail;

/// Documents, and what is kept of them where the members `a` and `bc` of the document are asked for.
const OF_ROOT: &[(&str, &str)] = &[
    (r#"{"a":1,"b":2}"#, r#"{"a":1}"#),
    // members left out before, between and behind those that are asked for
    (
        r#"{"x":0,"bc":1,"y":[1,{"a":2}],"a":2,"z":null}"#,
        r#"{"a":2,"bc":1}"#,
    ),
    (
        r#"{"b":{"a":1},"a":{"x":[1,{"y":2}],"b":3}}"#,
        r#"{"a":{"b":3,"x":[1,{"y":2}]}}"#,
    ),
    // none of them
    (r#"{"b":1,"c":"a"}"#, "{}"),
    ("{}", "{}"),
    // each name once, with the value that came last
    (r#"{"a":1,"b":2,"a":3}"#, r#"{"a":3}"#),
    (r#"{"b":1,"a":[1],"b":2,"a":{"b":2}}"#, r#"{"a":{"b":2}}"#),
    // names of one length, and beginnings of the names
    (r#"{"b":1,"bb":2,"ab":3,"bcd":4,"":5}"#, "{}"),
    // names with escapes
    (
        r#"{"\u0061":1,"\u0062":2,"b\u0063":3}"#,
        r#"{"a":1,"bc":3}"#,
    ),
    // what is left out may have anything inside
    (
        r#"{ "b" : [[],{"c":{"d":"\u00e9\n"}}] , "a" : -1 }"#,
        r#"{"a":-1}"#,
    ),
    // no objects
    (r#"[{"a":1,"b":2}]"#, r#"[{"a":1,"b":2}]"#),
    ("[]", "[]"),
    (r#""b""#, r#""b""#),
    ("7", "7"),
];

/// Documents, and what is kept of them where of a list's items the members `a` and `bc` are asked for.
const OF_ITEMS: &[(&str, &str)] = &[
    (r#"[{"a":1,"b":2},{"b":3},{}]"#, r#"[{"a":1},{},{}]"#),
    (r#"[{"x":0,"bc":1,"a":2}]"#, r#"[{"a":2,"bc":1}]"#),
    (
        r#"[{"a":{"x":[1,{"y":2}]},"x":3}]"#,
        r#"[{"a":{"x":[1,{"y":2}]}}]"#,
    ),
    // each name once, with the value that came last
    (r#"[{"a":1,"b":2,"a":3}]"#, r#"[{"a":3}]"#),
    (r#"[{"a":[1],"a":{"a":2}}]"#, r#"[{"a":{"a":2}}]"#),
    // names of one length, and beginnings of the names
    (r#"[{"b":1,"bb":2,"ab":3,"abc":4,"":5}]"#, "[{}]"),
    // names with escapes
    (
        r#"[{"\u0061":1,"\u0062":2,"b\u0063":3}]"#,
        r#"[{"a":1,"bc":3}]"#,
    ),
    (r#"[{"a":1,"\u0061":2}]"#, r#"[{"a":2}]"#),
    // items that are no objects, and what is in them
    (
        r#"[1,"a",null,[{"a":1,"b":2}]]"#,
        r#"[1,"a",null,[{"a":1,"b":2}]]"#,
    ),
    ("[]", "[]"),
    // no lists
    (r#"{"a":1,"b":2}"#, r#"{"a":1,"b":2}"#),
    (r#""b""#, r#""b""#),
    // what is left out may have anything inside
    (
        r#"[{"b":[[],{"c":{"d":"\u00e9\n"}}],"a":1}]"#,
        r#"[{"a":1}]"#,
    ),
    (
        r#"[{"b":"\ud83d\ude00\"\\\/\b\f\r\t","\u0062":[{"\"":-1}],"a":1}]"#,
        r#"[{"a":1}]"#,
    ),
    (
        r#"[{"b":["\u00e9",{"a":"\\"},[[]]],"a":1}]"#,
        r#"[{"a":1}]"#,
    ),
    (
        r#"[ { "b" : true , "a" : -1 } , { "a" : null } ]"#,
        r#"[{"a":-1},{"a":null}]"#,
    ),
];

/// Documents, and what is kept of them where members of the name `a` are asked for, wherever they stand.
const ANYWHERE: &[(&str, &str)] = &[
    (r#"{"x":1,"y":"b","a":2}"#, r#"{"a":2}"#),
    (r#"{"x":1,"y":2}"#, "{}"),
    (
        r#"{"a":{"x":1,"y":[{"z":2}]}}"#,
        r#"{"a":{"x":1,"y":[{"z":2}]}}"#,
    ),
    (r#"{"x":{"y":1,"a":2}}"#, r#"{"x":{"a":2}}"#),
    (
        r#"[1,{"x":true,"a":false},[{"y":null}]]"#,
        r#"[1,{"a":false},[{}]]"#,
    ),
    // behind the first one that is kept all are
    (r#"{"x":1,"a":2,"y":3}"#, r#"{"a":2,"y":3}"#),
    (r#"{"x":1,"l":[],"y":3,"a":2}"#, r#"{"a":2,"l":[],"y":3}"#),
    // each name once, with the value that came last
    (r#"{"l":[{"a":1}],"l":5}"#, r#"{"l":5}"#),
    (r#"{"l":5,"l":[{"a":1}]}"#, r#"{"l":[{"a":1}]}"#),
    (r#"{"x":1,"x":2}"#, "{}"),
    (r#"{"a":1,"a":2}"#, r#"{"a":2}"#),
    // names with escapes
    (r#"{"\u0061":1}"#, r#"{"a":1}"#),
    (r#"{"\u0062":1}"#, r#"{"b":1}"#),
    // no objects
    ("[1,2]", "[1,2]"),
    ("7", "7"),
];

/// Documents of decimals, and what is kept of them where the members `a` and `bc` of the document are asked
/// for.
const DECIMALS_OF_ROOT: &[(&str, &str)] = &[
    (r#"{"b":0.5,"a":8.950,"c":[1e2]}"#, r#"{"a":8.95}"#),
    (r#"{"bc":1E-7,"b":-0.0}"#, r#"{"bc":1e-7}"#),
    (
        r#"{"b":12345678901234567890,"a":{"b":0.10}}"#,
        r#"{"a":{"b":0.1}}"#,
    ),
    // no documents of decimals, though what is wrong is not asked for
    (r#"{"b":1.,"a":1}"#, "no document"),
    (r#"{"b":1e1000001,"a":1}"#, "no document"),
    (
        r#"{"a":1,"b":123456789012345678901234567890123456789}"#,
        "no document",
    ),
    (r#"{"a":1.5.5}"#, "no document"),
];

/// Documents of decimals, and what is kept of them where of a list's items the members `a` and `bc` are asked for.
const DECIMALS_OF_ITEMS: &[(&str, &str)] = &[
    (
        r#"[{"b":0.5,"a":8.950},1.50,{"b":[-0.0,{"c":1e400}]}]"#,
        r#"[{"a":8.95},1.5,{}]"#,
    ),
    (r#"[{"a":[1.0,2e0]}]"#, r#"[{"a":[1,2]}]"#),
    (r#"[{"b":[.5],"a":1}]"#, "no document"),
    (r#"[{"b":1e-1000001,"a":1}]"#, "no document"),
];

/// Documents of decimals, and what is kept of them where members of the name `a` are asked for, wherever they stand.
const DECIMALS_ANYWHERE: &[(&str, &str)] = &[
    (
        r#"{"x":0.5,"y":[{"z":1e2,"a":8.950}]}"#,
        r#"{"y":[{"a":8.95}]}"#,
    ),
    (r#"[1.50,{"x":0.1}]"#, "[1.5,{}]"),
    (r#"{"x":1e1000001,"a":1}"#, "no document"),
];

/// Bytes that are no document, though what is wrong is not asked for.
const WRONG: &[&str] = &[
    r#"[{"b":1.5,"a":1}]"#,
    r#"[{"b":[1,],"a":1}]"#,
    r#"[{"b":"\x","a":1}]"#,
    r#"[{"b":"\ud800","a":1}]"#,
    r#"[{"b":"\ud83dx","a":1}]"#,
    r#"[{"b":"\u12g4","a":1}]"#,
    r#"[{"b":"\"}]"#,
    r#"[{"b":{"c":["\x"]},"a":1}]"#,
    r#"[{"b":{"\udc00":1},"a":1}]"#,
    r#"[{"b":01,"a":1}]"#,
    r#"[{"b":1 "a":1}]"#,
    r#"[{"\x":1,"a":1}]"#,
    r#"[{"b":1,}]"#,
    r#"[{"b":18446744073709551616}]"#,
    r#"[{"b":1}"#,
    r#"[{"b":1}]]"#,
];

/// Objects that are no document, though what is wrong is in no member that is asked for.
const WRONG_OBJECTS: &[&str] = &[
    r#"{"b":1.5,"a":1}"#,
    r#"{"a":1,"b":[1,]}"#,
    r#"{"b":"\x","a":1}"#,
    r#"{"a":1,"b":{"c":["\ud800"]}}"#,
    r#"{"\x":1,"a":1}"#,
    r#"{"b":01,"a":1}"#,
    r#"{"b":1 "a":1}"#,
    r#"{"a":1,"b":18446744073709551616}"#,
    r#"{"a":1,"b":2"#,
    r#"{"a":1,"b":2}}"#,
];

/// The compact text of what is kept of a document, `no document` where tables do not hold it.
fn kept_text(
    alloc: Global,
    text: &str,
    asked: &AskedFor,
    numbers: Numbers,
) -> Result<String, AllocError> {
    match Room::new(alloc).read_asked(text.as_bytes(), asked, numbers) {
        Ok(flat) => value_text(alloc, flat.value()),
        Err(_) => String::from_str(alloc, "no document"),
    }
}

/// Asserts what is kept of each document with such numbers.
fn assert_kept(
    rt: &impl Abort,
    alloc: Global,
    asked: &AskedFor,
    numbers: Numbers,
    rows: &[(&str, &str)],
) -> Result<(), AllocError> {
    for (text, wanted) in rows {
        let kept = kept_text(alloc, text, asked, numbers)?;
        assert_eq!(rt; kept.as_str(), *wanted, "{text}");
    }
    Ok(())
}

/// Asserts that tables hold none of the texts.
fn assert_none_kept(rt: &impl Abort, alloc: Global, asked: &AskedFor, texts: &[&str]) {
    for text in texts {
        let kept = Room::new(alloc).read_asked(text.as_bytes(), asked, Numbers::Whole);
        assert!(rt; kept.is_err(), "{text}");
    }
}

fn push_name(names: &mut Vec<String>, alloc: Global, name: &str) -> Result<(), AllocError> {
    Ok(names.push(String::from_str(alloc, name)?)?)
}

fn names(alloc: Global) -> Result<Vec<String>, AllocError> {
    let mut names = Vec::new(alloc);
    push_name(&mut names, alloc, "a")?;
    push_name(&mut names, alloc, "bc")?;
    Ok(names)
}

fn of_root(alloc: Global) -> Result<AskedFor, AllocError> {
    Ok(AskedFor::OfRoot(names(alloc)?))
}

fn of_items(alloc: Global) -> Result<AskedFor, AllocError> {
    Ok(AskedFor::OfItems(names(alloc)?))
}

fn anywhere(alloc: Global) -> Result<AskedFor, AllocError> {
    Ok(AskedFor::Anywhere(String::from_str(alloc, "a")?))
}

#[test]
fn members_of_the_root(rt: HostRuntime) -> Result<(), Fail> {
    let asked = of_root(rt.alloc())?;
    assert_none_kept(&rt, rt.alloc(), &asked, WRONG_OBJECTS);
    assert_kept(&rt, rt.alloc(), &asked, Numbers::Decimal, OF_ROOT)?;
    assert_kept(&rt, rt.alloc(), &asked, Numbers::Decimal, DECIMALS_OF_ROOT)?;
    Ok(assert_kept(&rt, rt.alloc(), &asked, Numbers::Whole, OF_ROOT)?)
}

#[test]
fn members_of_items(rt: HostRuntime) -> Result<(), Fail> {
    let asked = of_items(rt.alloc())?;
    assert_none_kept(&rt, rt.alloc(), &asked, WRONG);
    assert_kept(&rt, rt.alloc(), &asked, Numbers::Decimal, OF_ITEMS)?;
    assert_kept(&rt, rt.alloc(), &asked, Numbers::Decimal, DECIMALS_OF_ITEMS)?;
    Ok(assert_kept(&rt, rt.alloc(), &asked, Numbers::Whole, OF_ITEMS)?)
}

#[test]
fn members_anywhere(rt: HostRuntime) -> Result<(), Fail> {
    let asked = anywhere(rt.alloc())?;
    assert_none_kept(&rt, rt.alloc(), &asked, WRONG);
    assert_kept(&rt, rt.alloc(), &asked, Numbers::Decimal, ANYWHERE)?;
    assert_kept(&rt, rt.alloc(), &asked, Numbers::Decimal, DECIMALS_ANYWHERE)?;
    Ok(assert_kept(&rt, rt.alloc(), &asked, Numbers::Whole, ANYWHERE)?)
}
