//! Runs over exact decimals, which numbers are unless `--whole` is given: the books of RFC 9535's own document
//! (Figure 1), one a line, and numbers that other engines round.

use super::programs::assert_ends;
use super::refusals::{Refused, told};
use jp_explain::Reason;
use jp_json::JsonReason;
use std::alloc::{AllocError, Global};
use std::process::Abort;

/// The books and the bicycle of RFC 9535, Figure 1, of which one price has a zero more.
const STORE: &str = "{\"title\":\"Sayings of the Century\",\"price\":8.95}\n\
    {\"title\":\"Sword of Honour\",\"price\":12.99}\n\
    {\"title\":\"Moby Dick\",\"price\": 8.990}\r\n\
    {\"title\":\"The Lord of the Rings\",\"price\":22.99}\n{\"color\":\"red\",\"price\":399}";

/// Durations: a tenth, a number that is the same float of 64 bits and no tenth, a tenth, two tenths, a number of more
/// digits than such a float has, and a text.
const DURATIONS: &str =
    "{\"duration\":0.1}\n{\"duration\":0.10000000000000000555}\n{\"duration\":1e-1}\n\
    {\"duration\":2E-1}\n\n{\"duration\":9007199254740993.5}\n{\"duration\":\"0.2\"}\n";

/// A line of words behind `jp-lines`, the lines of the input, and what is written.
const ROWS: &[(&[&str], &str, &str)] = &[
    (&["jp-lines", "eval", "$[?@<10]"], STORE, "8.95\n8.99\n"),
    (
        &["jp-lines", "both", "--number", "$.price"],
        STORE,
        "1\t$['price']\t8.95\n2\t$['price']\t12.99\n3\t$['price']\t8.99\n4\t$['price']\t22.99\n\
         5\t$['price']\t399\n",
    ),
    (
        &["jp-lines", "paths", "--number", "$[?@<=899e-2]"],
        STORE,
        "1\t$['price']\n3\t$['price']\n",
    ),
    (
        &["jp-lines", "count", "$[?@>12.990]"],
        STORE,
        "0\n0\n0\n1\n1\n",
    ),
    (
        &["jp-lines", "eval", "--first", "--raw", "$[?@==$.title]"],
        STORE,
        "Sayings of the Century\nSword of Honour\nMoby Dick\nThe Lord of the Rings\n",
    ),
    // a line that is kept stands as it came
    (
        &["jp-lines", "keep", "@.price<10"],
        STORE,
        "{\"title\":\"Sayings of the Century\",\"price\":8.95}\n\
         {\"title\":\"Moby Dick\",\"price\": 8.990}\r\n",
    ),
    (
        &["jp-lines", "columns", "--raw", "$.title", "$.price"],
        STORE,
        "Sayings of the Century\t8.95\nSword of Honour\t12.99\nMoby Dick\t8.99\n\
         The Lord of the Rings\t22.99\n\t399\n",
    ),
    (
        &["jp-lines", "columns", "--csv", "$[?@<9.0]", "$..[?@>399.5]"],
        "{\"a\":8.5,\"b\":9e0,\"c\":[4e2]}\n[1.50,400,7]\n",
        "8.5,400\r\n\"[1.5,7]\",400\r\n",
    ),
    // numbers by what they are
    (
        &["jp-lines", "keep", "@.duration>0.1"],
        DURATIONS,
        "{\"duration\":0.10000000000000000555}\n{\"duration\":2E-1}\n{\"duration\":9007199254740993.5}\n",
    ),
    (
        &["jp-lines", "keep", "@.duration==0.10", "--number"],
        DURATIONS,
        "1\t{\"duration\":0.1}\n3\t{\"duration\":1e-1}\n",
    ),
    (
        &["jp-lines", "eval", "$.duration"],
        DURATIONS,
        "0.1\n0.10000000000000000555\n0.1\n0.2\n9007199254740993.5\n\"0.2\"\n",
    ),
    (
        &["jp-lines", "eval", "$[?@>9007199254740992&&@<1e400]"],
        "[1,9007199254740992,9007199254740993]\n[9007199254740992.5,1e400]\n",
        "9007199254740993\n9007199254740992.5\n",
    ),
    (
        &["jp-lines", "keep", "--extended", "distinct(@.*)"],
        "{\"a\":0.5}\n{}\n",
        "{\"a\":0.5}\n",
    ),
    // whole numbers with and without the flag
    (
        &["jp-lines", "count", "$[?@>1]"],
        "[1,18446744073709551615]\n",
        "1\n",
    ),
    (
        &["jp-lines", "count", "--whole", "$[?@>1]"],
        "[1,18446744073709551615]\n",
        "1\n",
    ),
];

#[test]
fn decimals_are_read_compared_and_written_exactly(rt: HostRuntime) -> Result<(), AllocError> {
    for &(line, lines, written) in ROWS {
        assert_ends(&rt, rt.alloc(), line, lines, false, (0, written, "", 1))?;
    }
    Ok(())
}

/// A record that is read with and without the flag; a fraction, an exponent; a number of 39 digits, and one beyond the
/// greatest exponent; what is no number of JSON; and a record.
const MIXED: &str = "{\"a\":1}\n{\"a\":1.5}\n{\"b\":[2e0],\"a\":2}\n\
    {\"a\":[1,0.123456789012345678901234567890123456789]}\n[1e1000001]\n[1.]\n{\"a\":3}\n";

/// What is told of them where numbers are decimals.
const DECIMAL: &str = "line 4: document refused: NumberRange at $['a'][1]\n\
    line 5: document refused: NumberRange at $[0]\nline 6: document refused: NotJson\n";

/// What is told of them where numbers are whole: a number too large for a float of 64 bits is no JSON then.
const WHOLE: &str = "line 2: document refused: NotWhole at $['a']\n\
    line 3: document refused: NotWhole at $['b'][0]\n\
    line 4: document refused: NotWhole at $['a'][1]\nline 5: document refused: NotJson\n\
    line 6: document refused: NotJson\n";

/// The words behind `jp-lines`, and what is written and told of these.
const REFUSED: &[(&[&str], &str, &str)] = &[
    (
        &["jp-lines", "eval", "--keep-going", "$.a"],
        "1\n1.5\n2\n3\n",
        DECIMAL,
    ),
    (
        &["jp-lines", "eval", "--keep-going", "--whole", "$.a"],
        "1\n3\n",
        WHOLE,
    ),
    // members that are not asked for are numbers, too
    (
        &["jp-lines", "count", "--keep-going", "$.c"],
        "0\n0\n0\n0\n",
        DECIMAL,
    ),
    (
        &["jp-lines", "keep", "--keep-going", "@.a>1"],
        "{\"a\":1.5}\n{\"b\":[2e0],\"a\":2}\n{\"a\":3}\n",
        DECIMAL,
    ),
    (
        &["jp-lines", "keep", "--keep-going", "--whole", "@.a>1"],
        "{\"a\":3}\n",
        WHOLE,
    ),
    (
        &["jp-lines", "columns", "--keep-going", "$.a", "$.b"],
        "1\t\n1.5\t\n2\t[2]\n3\t\n",
        DECIMAL,
    ),
    (
        &[
            "jp-lines",
            "columns",
            "--keep-going",
            "--whole",
            "$.a",
            "$.b",
        ],
        "1\t\n3\t\n",
        WHOLE,
    ),
    (
        &["jp-lines", "paths", "--number", "$..a"],
        "1\t$['a']\n2\t$['a']\n3\t$['a']\n",
        "line 4: document refused: NumberRange at $['a'][1]\n",
    ),
];

#[test]
fn what_is_no_number_of_the_profile_is_refused(rt: HostRuntime) -> Result<(), AllocError> {
    for &(line, written, told) in REFUSED {
        assert_ends(&rt, rt.alloc(), line, MIXED, false, (3, written, told, 1))?;
    }
    Ok(())
}

/// Flags, a line, how it is refused, the column with the path, the reason, and what is said behind its sentence.
type Explained = (
    &'static [&'static str],
    &'static str,
    &'static str,
    &'static str,
    JsonReason,
    &'static str,
);

/// What is said behind the sentence of a number that is no whole one.
const HINT: &str = " Without --whole jp-lines takes numbers of up to 38 digits exactly.";

const EXPLAINED: &[Explained] = &[
    (
        &["--whole", "--extended"],
        "{\"title\":\"Sayings of the Century\",\"price\":8.95}",
        "NotWhole at $['price']",
        "column 43, at $['price']",
        JsonReason::HasFraction,
        HINT,
    ),
    (
        &["--whole"],
        "[18446744073709551616]",
        "NotWhole at $[0]",
        "column 2, at $[0]",
        JsonReason::OutOfRange,
        HINT,
    ),
    (
        &["--whole"],
        "[-0]",
        "NotWhole at $[0]",
        "column 2, at $[0]",
        JsonReason::NegativeZero,
        HINT,
    ),
    (
        &[],
        "[1,0.123456789012345678901234567890123456789]",
        "NumberRange at $[1]",
        "column 4, at $[1]",
        JsonReason::BeyondDecimal,
        "",
    ),
    (
        &[],
        "{\"a\":1.5,\"b\":-1e-1000001}",
        "NumberRange at $['b']",
        "column 14, at $['b']",
        JsonReason::BeyondDecimal,
        "",
    ),
    (
        &[],
        "[0.5,1.]",
        "NotJson",
        "column 8",
        JsonReason::WrongNumber,
        "",
    ),
];

/// Asserts what is told of a line behind a document.
fn assert_explained(
    rt: &impl Abort,
    alloc: Global,
    (flags, line, refusal, place, reason, behind): Explained,
) -> Result<(), AllocError> {
    let sentence = reason.sentence();
    let lines = format!(in alloc; "{{}}\n{line}\n")?;
    let told = format!(in alloc;
        "line 2: document refused: {refusal}\nline 2, {place}: {sentence}{behind}\n"
    )?;
    let mut words = Vec::new(alloc);
    words.extend_from_slice(&["jp-lines", "count", "--explain", "$"])?;
    words.extend_from_slice(flags)?;
    let ended = (3, "1\n", told.as_str(), 1);
    assert_ends(rt, alloc, words.as_slice(), lines.as_str(), false, ended)
}

#[test]
fn numbers_are_explained_in_their_profile(rt: HostRuntime) -> Result<(), AllocError> {
    for &row in EXPLAINED {
        assert_explained(&rt, rt.alloc(), row)?;
    }
    Ok(())
}

/// The words behind `jp-lines`, of which the last one is refused, and how.
const QUERIES: &[(&[&str], Refused)] = &[
    (
        &["jp-lines", "keep", "--whole", "@.price<8.95"],
        ("@.price<8.95", "NotWhole at 8", 8, Reason::NotWhole, ""),
    ),
    (
        &["jp-lines", "eval", "$[?@==1e1000001]"],
        (
            "$[?@==1e1000001]",
            "NumberRange at 6",
            6,
            Reason::DecimalRange,
            "",
        ),
    ),
    (
        &["jp-lines", "columns", "$[?@<8.95]", "$[?@==1e-1000001]"],
        (
            "$[?@==1e-1000001]",
            "NumberRange at 6",
            6,
            Reason::DecimalRange,
            "",
        ),
    ),
];

#[test]
fn numbers_of_queries_are_those_of_the_profile(rt: HostRuntime) -> Result<(), AllocError> {
    for &(line, row) in QUERIES {
        let told = told(rt.alloc(), row.0, row)?;
        assert_ends(&rt, rt.alloc(), line, "", true, (1, "", told.as_str(), 0))?;
    }
    Ok(())
}
