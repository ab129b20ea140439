//! Bytes that are no document.

use jp_json::JsonReason;

/// Bytes, the fault that their line names, and what is told behind it: the place, the sentence of the reason, and
/// what is said more, which begins with a space.
pub type Misread = (
    &'static [u8],
    &'static str,
    &'static str,
    JsonReason,
    &'static str,
);

/// Bytes that hold no JSON value.
pub const NOT_JSON: &[Misread] = &[
    (b"", "NotJson", "line 1, column 1", JsonReason::Empty, ""),
    (
        b"\xef\xbb\xbf{}",
        "NotJson",
        "line 1, column 1",
        JsonReason::ByteOrderMark,
        "",
    ),
    (
        b"[\"\xc3\xa9\", \"\xe9\"]",
        "NotJson",
        "line 1, column 8",
        JsonReason::NotUtf8,
        "",
    ),
    (
        b"{\"a\": [1,]}",
        "NotJson",
        "line 1, column 10",
        JsonReason::TrailingComma,
        "",
    ),
    (
        b"{\n  \"a\": 1\n  \"b\": 2\n}\n",
        "NotJson",
        "line 3, column 3",
        JsonReason::MissingComma,
        "",
    ),
    (
        b"{\"a\":{\"b\":[2]}",
        "NotJson",
        "line 1, column 15",
        JsonReason::EndInObject,
        "",
    ),
    (
        b"{'a':1}",
        "NotJson",
        "line 1, column 2",
        JsonReason::SingleQuote,
        "",
    ),
    (
        b"{\"a\":None}",
        "NotJson",
        "line 1, column 6",
        JsonReason::WrongWord,
        "",
    ),
    (
        b"{\"a\":1} {\"a\":2}",
        "NotJson",
        "line 1, column 9",
        JsonReason::AfterValue,
        "",
    ),
    (
        b"[\"C:\\data\"]",
        "NotJson",
        "line 1, column 6",
        JsonReason::WrongEscape,
        "",
    ),
    (
        b"[\"\\ud800\"]",
        "NotJson",
        "line 1, column 3",
        JsonReason::LoneSurrogate,
        "",
    ),
    (
        b"[0,1e999]",
        "NotJson",
        "line 1, column 4",
        JsonReason::BeyondFloat,
        "",
    ),
];

/// Bytes with a number that is not whole.
pub const NOT_WHOLE: &[Misread] = &[
    (
        b"{\"a\":1,\"b\":[1.5]}",
        "NotWhole",
        "line 1, column 13, at $['b'][0]",
        JsonReason::HasFraction,
        " With --decimals jp takes numbers of up to 38 digits exactly.",
    ),
    (
        b"[\n -0]",
        "NotWhole",
        "line 2, column 2, at $[0]",
        JsonReason::NegativeZero,
        " With --decimals jp takes numbers of up to 38 digits exactly.",
    ),
    (
        b"18446744073709551616",
        "NotWhole",
        "line 1, column 1, at $",
        JsonReason::OutOfRange,
        " With --decimals jp takes numbers of up to 38 digits exactly.",
    ),
];
