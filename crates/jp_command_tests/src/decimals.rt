//! Runs over exact decimals, as `--decimals` asks for them: RFC 9535's own document (Figure 1), and numbers that
//! other engines round.

use crate::rows::ended;
use std::alloc::{AllocError, Global};
use std::process::Abort;
use std::test::Fail;

/// RFC 9535, Figure 1.
const STORE: &str = r#"{ "store": {
    "book": [
      { "category": "reference", "author": "Nigel Rees", "title": "Sayings of the Century", "price": 8.95 },
      { "category": "fiction", "author": "Evelyn Waugh", "title": "Sword of Honour", "price": 12.99 },
      { "category": "fiction", "author": "Herman Melville", "title": "Moby Dick", "isbn": "0-553-21311-3",
        "price": 8.99 },
      { "category": "fiction", "author": "J. R. R. Tolkien", "title": "The Lord of the Rings",
        "isbn": "0-395-19395-8", "price": 22.99 }
    ],
    "bicycle": { "color": "red", "price": 399 }
} }"#;

/// A document whose numbers are one, and others that no float of 64 bits tells apart.
const NUMBERS: &str =
    r#"[1,1.0,1e0,9007199254740993,9007199254740993.5,9007199254740992,0.1,0.10000000000000000555,1e400]"#;

/// A line of words behind `jp`, a document, and what is written (of the store: RFC 9535 section 1.5, Table 2).
const ROWS: &[(&[&str], &str, &str)] = &[
    (
        &["jp", "eval", "--decimals", "$.store.book[*].author"],
        STORE,
        "\"Nigel Rees\"\n\"Evelyn Waugh\"\n\"Herman Melville\"\n\"J. R. R. Tolkien\"\n",
    ),
    (
        &["jp", "both", "--decimals", "$.store..price"],
        STORE,
        "$['store']['bicycle']['price']\t399\n$['store']['book'][0]['price']\t8.95\n\
         $['store']['book'][1]['price']\t12.99\n$['store']['book'][2]['price']\t8.99\n\
         $['store']['book'][3]['price']\t22.99\n",
    ),
    (
        &["jp", "eval", "--decimals", "$..book[2].author"],
        STORE,
        "\"Herman Melville\"\n",
    ),
    (
        &["jp", "paths", "--decimals", "$..book[-1]"],
        STORE,
        "$['store']['book'][3]\n",
    ),
    (
        &["jp", "paths", "--decimals", "$..book[?@.isbn]"],
        STORE,
        "$['store']['book'][2]\n$['store']['book'][3]\n",
    ),
    (
        &["jp", "paths", "--decimals", "$..book[?@.price<10]"],
        STORE,
        "$['store']['book'][0]\n$['store']['book'][2]\n",
    ),
    (
        &[
            "jp",
            "eval",
            "--decimals",
            "$.store.book[?@.price<8.99].title",
        ],
        STORE,
        "\"Sayings of the Century\"\n",
    ),
    (
        &[
            "jp",
            "eval",
            "--decimals",
            "$.store.book[?@.price<=899e-2].title",
        ],
        STORE,
        "\"Sayings of the Century\"\n\"Moby Dick\"\n",
    ),
    // the value at a location that a query names
    (
        &["jp", "both", "--decimals", "$.store.book[3].price"],
        STORE,
        "$['store']['book'][3]['price']\t22.99\n",
    ),
    (
        &["jp", "eval", "--decimals", "$.store.bicycle"],
        STORE,
        "{\"color\":\"red\",\"price\":399}\n",
    ),
    // numbers by what they are
    (
        &["jp", "paths", "--decimals", "$[?@==1.0]"],
        NUMBERS,
        "$[0]\n$[1]\n$[2]\n",
    ),
    (
        &[
            "jp",
            "eval",
            "--decimals",
            "$[?@>9007199254740992&&@<1e400]",
        ],
        NUMBERS,
        "9007199254740993\n9007199254740993.5\n",
    ),
    (
        &["jp", "paths", "--decimals", "$[?@==0.10]"],
        NUMBERS,
        "$[6]\n",
    ),
    (
        &["jp", "eval", "--decimals", "$[6:]"],
        NUMBERS,
        "0.1\n0.10000000000000000555\n1e+400\n",
    ),
    (
        &[
            "jp",
            "eval",
            "--extended",
            "--decimals",
            "$[?distinct(@.*)]",
        ],
        "[{\"a\":0.5},{}]",
        "{\"a\":0.5}\n",
    ),
    // canonical texts, which need no document
    (
        &["jp", "canon", "--decimals", "$[?@<8.950||@==1e2||@==-0.0]"],
        "",
        "$[?@<8.95||@==100.0||@==0.0]\n",
    ),
    (
        &["jp", "check", "--decimals", "$[?@==18446744073709551616]"],
        "",
        "accepted\n",
    ),
];

/// A line of words behind `jp`, a document, and the line that tells why it is refused.
const REFUSED: &[(&[&str], &str, &str)] = &[
    (
        &["jp", "eval", "$.store"],
        STORE,
        "document refused: NotWhole\n",
    ),
    (
        &["jp", "check", "$[?@<8.95]"],
        "",
        "query refused: NotWhole at 5\n",
    ),
    (
        &["jp", "eval", "--decimals", "$"],
        "[1,0.123456789012345678901234567890123456789]",
        "document refused: NumberRange\n",
    ),
    (
        &["jp", "eval", "--decimals", "$"],
        "[1.]",
        "document refused: NotJson\n",
    ),
    (
        &["jp", "check", "--decimals", "$[?@==1e1000001]"],
        "",
        "query refused: NumberRange at 6\n",
    ),
    (
        &["jp", "check", "--decimals", "$[1.0]"],
        "",
        "query refused: Syntax at 3\n",
    ),
];

/// Asserts that a line of words writes so much to each output over a document.
fn assert_ends(
    rt: &impl Abort,
    alloc: Global,
    line: &[&str],
    document: &str,
    expected: (&str, &str),
) -> Result<(), Fail> {
    let (_, output, faults) = ended(alloc, line, document.as_bytes())?;
    assert_eq!(rt;
        (output.as_slice(), faults.as_slice()),
        (expected.0.as_bytes(), expected.1.as_bytes())
    );
    Ok(())
}

#[test]
fn decimals_are_read_compared_and_written_exactly(rt: HostRuntime) -> Result<(), Fail> {
    for &(line, document, text) in ROWS {
        assert_ends(&rt, rt.alloc(), line, document, (text, ""))?;
    }
    Ok(())
}

#[test]
fn what_is_no_decimal_is_refused(rt: HostRuntime) -> Result<(), Fail> {
    for &(line, document, told) in REFUSED {
        assert_ends(&rt, rt.alloc(), line, document, ("", told))?;
    }
    Ok(())
}
