//! Texts that no JSON text begins with, or that end too early.

use super::Row;
use jp_json::JsonReason;

pub const ENDS: &[Row] = &[
    (b"", JsonReason::Empty, (0, 1, 1)),
    (b" \n\t ", JsonReason::Empty, (4, 2, 3)),
    (b"[1, 2", JsonReason::EndInArray, (5, 1, 6)),
    (b"[1,\n", JsonReason::EndInArray, (4, 2, 1)),
    (b"{\"a\": 1", JsonReason::EndInObject, (7, 1, 8)),
    (b"{\"a\"", JsonReason::EndInObject, (4, 1, 5)),
    (b"[\"ab", JsonReason::EndInText, (4, 1, 5)),
    (b"\"\\u00", JsonReason::EndInText, (5, 1, 6)),
    (b"-", JsonReason::EndInNumber, (1, 1, 2)),
    (b"1.", JsonReason::EndInNumber, (2, 1, 3)),
    (b"1e+", JsonReason::EndInNumber, (3, 1, 4)),
    (b"nul", JsonReason::EndInWord, (3, 1, 4)),
];

pub const JOINTS: &[Row] = &[
    (b"[1,]", JsonReason::TrailingComma, (3, 1, 4)),
    (b"{\"a\":1,}", JsonReason::TrailingComma, (7, 1, 8)),
    (b"[1 2]", JsonReason::MissingComma, (3, 1, 4)),
    (b"{\"a\":1\n \"b\":2}", JsonReason::MissingComma, (8, 2, 2)),
    (b"{\"a\" 1}", JsonReason::MissingColon, (5, 1, 6)),
    (b"[\"a\":1]", JsonReason::StrayColon, (4, 1, 5)),
    (b"[1,,2]", JsonReason::MissingValue, (3, 1, 4)),
    (b"{\"a\":}", JsonReason::MissingValue, (5, 1, 6)),
    (b"{,}", JsonReason::MissingName, (1, 1, 2)),
    (b"[1}", JsonReason::WrongBracket, (2, 1, 3)),
    (b"{\"a\":1]", JsonReason::WrongBracket, (6, 1, 7)),
    (b"]", JsonReason::WrongBracket, (0, 1, 1)),
    (b"1 2", JsonReason::AfterValue, (2, 1, 3)),
    (b"{}}", JsonReason::AfterValue, (2, 1, 3)),
];

pub const WORDS: &[Row] = &[
    (b"{'a':1}", JsonReason::SingleQuote, (1, 1, 2)),
    (b"['a']", JsonReason::SingleQuote, (1, 1, 2)),
    (b"{a:1}", JsonReason::UnquotedName, (1, 1, 2)),
    (b"{1:2}", JsonReason::UnquotedName, (1, 1, 2)),
    (b"[1] // one", JsonReason::Comment, (4, 1, 5)),
    (b"[/* */1]", JsonReason::Comment, (1, 1, 2)),
    (b"NaN", JsonReason::WrongWord, (0, 1, 1)),
    (b"[-Infinity]", JsonReason::WrongWord, (2, 1, 3)),
    (b"[None]", JsonReason::WrongWord, (1, 1, 2)),
    (b"True", JsonReason::WrongWord, (0, 1, 1)),
    (b"nan", JsonReason::WrongWord, (1, 1, 2)),
    (b"\xef\xbb\xbf[]", JsonReason::ByteOrderMark, (0, 1, 1)),
    (b"[@]", JsonReason::Unexpected, (1, 1, 2)),
];

/// Bytes of other forms than JSON text in UTF-8, and such as show them but in part.
pub const FORMS: &[Row] = &[
    // gzip of an empty file (RFC 1952)
    (
        b"\x1f\x8b\x08\0\0\0\0\0\0\x03\x03\0\0\0\0\0\0\0\0\0",
        JsonReason::Gzip,
        (0, 1, 1),
    ),
    (b"\x1f\x8b", JsonReason::Gzip, (0, 1, 1)),
    (b"\x1f", JsonReason::Unexpected, (0, 1, 1)),
    (b"\x1f\x8a", JsonReason::Unexpected, (0, 1, 1)),
    (b" \x1f\x8b", JsonReason::Unexpected, (1, 1, 2)),
    (b"\xff\xfe[\0]\0", JsonReason::Utf16, (0, 1, 1)),
    (b"\xfe\xff\0[\0]", JsonReason::Utf16, (0, 1, 1)),
    (b"\xff\xfe", JsonReason::Utf16, (0, 1, 1)),
    (b"\xff", JsonReason::NotUtf8, (0, 1, 1)),
    (b"\xff\xff", JsonReason::NotUtf8, (0, 1, 1)),
    (b"\xfe\xfe", JsonReason::NotUtf8, (0, 1, 1)),
    (b"[\xff\xfe]", JsonReason::NotUtf8, (1, 1, 2)),
    (b"{\0\"\0a\0", JsonReason::NullCharacter, (1, 1, 2)),
    (b"\0{", JsonReason::NullCharacter, (0, 1, 1)),
    (b"[\01", JsonReason::NullCharacter, (1, 1, 2)),
    (b"1\0", JsonReason::NullCharacter, (1, 1, 2)),
    (b"n\0u\0", JsonReason::NullCharacter, (1, 1, 2)),
    (b"\"\0a\0\"", JsonReason::ControlCharacter, (1, 1, 2)),
    (b"\x1e{}", JsonReason::RecordSeparator, (0, 1, 1)),
    (b"\n\x1e{}", JsonReason::RecordSeparator, (1, 2, 1)),
    (b"[\x1e]", JsonReason::Unexpected, (1, 1, 2)),
    (b"{}\n\x1e{}", JsonReason::AfterValue, (3, 2, 1)),
    (b"\xc2\xa0{}", JsonReason::NoBreakSpace, (0, 1, 1)),
    (b"{\xc2\xa0\"a\":1}", JsonReason::NoBreakSpace, (1, 1, 2)),
    (b"{\"a\"\xc2\xa0:1}", JsonReason::NoBreakSpace, (4, 1, 5)),
    (b"{\"a\":\xc2\xa01}", JsonReason::NoBreakSpace, (5, 1, 6)),
    (b"[1\xc2\xa0]", JsonReason::NoBreakSpace, (2, 1, 3)),
    (b"[true\xc2\xa0]", JsonReason::NoBreakSpace, (5, 1, 6)),
    (b"{}\xc2\xa0", JsonReason::NoBreakSpace, (2, 1, 3)),
    (b"\"\\\xc2\xa0\"", JsonReason::WrongEscape, (2, 1, 3)),
    (b"[\xc2\xa1]", JsonReason::Unexpected, (1, 1, 2)),
];

pub const SCALARS: &[Row] = &[
    (b"01", JsonReason::LeadingZero, (1, 1, 2)),
    (b"+1", JsonReason::WrongNumber, (0, 1, 1)),
    (b"[.5]", JsonReason::WrongNumber, (1, 1, 2)),
    (b"[1.]", JsonReason::WrongNumber, (3, 1, 4)),
    (b"1x", JsonReason::WrongNumber, (1, 1, 2)),
    (b"\"a\nb\"", JsonReason::ControlCharacter, (2, 1, 3)),
    (b"\"\\x41\"", JsonReason::WrongEscape, (2, 1, 3)),
    (b"\"\\u12g4\"", JsonReason::WrongEscape, (5, 1, 6)),
    (b"[\"\xc3\xa9\", x]", JsonReason::WrongWord, (7, 1, 7)),
    (b"[\"\xc3\xa9\xff\"]", JsonReason::NotUtf8, (4, 1, 4)),
    (b"[1,]\xff", JsonReason::TrailingComma, (3, 1, 4)),
    (b"[1]\xc3", JsonReason::NotUtf8, (3, 1, 4)),
];
