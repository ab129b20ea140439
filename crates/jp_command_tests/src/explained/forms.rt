//! Bytes of another form than one JSON document in UTF-8.

use super::documents::Misread;
use jp_json::JsonReason;

pub const FORMS: &[Misread] = &[
    (
        b"{\"a\":1}\n{\"a\":2}\n",
        "NotJson",
        "line 2, column 1",
        JsonReason::AfterValue,
        " Where each line holds a document, jp-lines reads them.",
    ),
    (
        b"1\n\n-2",
        "NotJson",
        "line 3, column 1",
        JsonReason::AfterValue,
        " Where each line holds a document, jp-lines reads them.",
    ),
    (
        b"\"a\"\r\n\"b\"\r\n",
        "NotJson",
        "line 2, column 1",
        JsonReason::AfterValue,
        " Where each line holds a document, jp-lines reads them.",
    ),
    (
        b"[]\ntrue",
        "NotJson",
        "line 2, column 1",
        JsonReason::AfterValue,
        " Where each line holds a document, jp-lines reads them.",
    ),
    (
        b"{\n\"a\":1}\n}\n",
        "NotJson",
        "line 3, column 1",
        JsonReason::AfterValue,
        "",
    ),
    (
        b"[1]\n,[2]\n",
        "NotJson",
        "line 2, column 1",
        JsonReason::AfterValue,
        "",
    ),
    (
        b"[1]\n [2]\n",
        "NotJson",
        "line 2, column 2",
        JsonReason::AfterValue,
        "",
    ),
    (
        b"{}{}",
        "NotJson",
        "line 1, column 3",
        JsonReason::AfterValue,
        "",
    ),
    (
        b"\x1e{\"a\":1}\n",
        "NotJson",
        "line 1, column 1",
        JsonReason::RecordSeparator,
        " tr -d '\\036' takes it away.",
    ),
    (
        b"\x1f\x8b\x08\0\0\0\0\0\0\x03",
        "NotJson",
        "line 1, column 1",
        JsonReason::Gzip,
        " gzip -dc writes what it holds.",
    ),
    (
        b"\xff\xfe{\0}\0",
        "NotJson",
        "line 1, column 1",
        JsonReason::Utf16,
        " iconv -f UTF-16 -t UTF-8 writes it so.",
    ),
    (
        b"{\0}\0",
        "NotJson",
        "line 1, column 2",
        JsonReason::NullCharacter,
        "",
    ),
    (
        b"{\"a\":\xc2\xa01}",
        "NotJson",
        "line 1, column 6",
        JsonReason::NoBreakSpace,
        "",
    ),
];
