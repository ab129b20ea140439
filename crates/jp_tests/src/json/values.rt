//! JSON texts that are no documents.

use super::{PathRow, Row};
use jp_json::JsonReason;

pub const SCALARS: &[Row] = &[
    (b"[\"a\\ud800\"]", JsonReason::LoneSurrogate, (3, 1, 4)),
    (
        b"\"\\ud83d\\ude00\\udc00\"",
        JsonReason::LoneSurrogate,
        (13, 1, 14),
    ),
    (b"{\"\\ud800x\":1}", JsonReason::LoneSurrogate, (2, 1, 3)),
    (b"[1.5,\n1e400]", JsonReason::BeyondFloat, (6, 2, 1)),
    (b"-1e999", JsonReason::BeyondFloat, (0, 1, 1)),
];

pub const NUMBERS: &[PathRow] = &[
    (b"1.0", JsonReason::HasFraction, (0, 1, 1), "$"),
    (b"[1e2]", JsonReason::HasFraction, (1, 1, 2), "$[0]"),
    (b"-0", JsonReason::NegativeZero, (0, 1, 1), "$"),
    (
        b"[18446744073709551615,\n 18446744073709551616]",
        JsonReason::OutOfRange,
        (24, 2, 2),
        "$[1]",
    ),
    (
        b"-9223372036854775809",
        JsonReason::OutOfRange,
        (0, 1, 1),
        "$",
    ),
    (
        b"{\"b\":[1.5],\"a\":[{},{\"c\":[[2,3],2.5]}]}",
        JsonReason::HasFraction,
        (31, 1, 32),
        "$['a'][1]['c'][1]",
    ),
    (
        b"{\"a\":1.5,\"a\":2.5}",
        JsonReason::HasFraction,
        (13, 1, 14),
        "$['a']",
    ),
    (
        b"{\"a\":{\"b\":0.5},\"a\":[\"1.5\",0.1]}",
        JsonReason::HasFraction,
        (26, 1, 27),
        "$['a'][1]",
    ),
    (
        b"[\"\\\"\",18446744073709551616]",
        JsonReason::OutOfRange,
        (6, 1, 7),
        "$[1]",
    ),
    (
        b"{\"a\\\\\":[\"\\\"-0\"],\"\\\"b\":{\"c\":[-9223372036854775809]}}",
        JsonReason::OutOfRange,
        (28, 1, 29),
        "$['\"b']['c'][0]",
    ),
    (
        b"{\"\\u0061]\":7,\"a,\":{\"x\":0.5}}",
        JsonReason::HasFraction,
        (23, 1, 24),
        "$['a,']['x']",
    ),
];

/// Documents.
pub const NONE: &[&[u8]] = &[
    b"[]",
    b" {\"a\": [true, false, null, -1, \"\\ud83d\\ude00\"]} \n",
    b"{\"a\":1.5,\"a\":2}",
];
