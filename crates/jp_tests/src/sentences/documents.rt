//! What is told of bytes that are no document, reason by reason.

use jp_json::JsonReason;

/// A reason, and its sentence.
pub const ROWS: &[(JsonReason, &str)] = &[
    (JsonReason::NotUtf8, "The bytes here are no UTF-8."),
    (JsonReason::Utf16, "This is UTF-16, and JSON is UTF-8."),
    (JsonReason::Gzip, "This is compressed by gzip."),
    (
        JsonReason::ByteOrderMark,
        "A byte order mark stands before the value, and JSON has none.",
    ),
    (
        JsonReason::RecordSeparator,
        "A record separator (RFC 7464) stands before the value, and JSON has none.",
    ),
    (
        JsonReason::NullCharacter,
        "A null character stands here, as in UTF-16: JSON is UTF-8.",
    ),
    (
        JsonReason::NoBreakSpace,
        "A no-break space (U+00A0) stands here: JSON has plain spaces between its parts.",
    ),
    (JsonReason::Empty, "There is no value here."),
    (
        JsonReason::EndInText,
        "The text ends within a string: a double quote is missing.",
    ),
    (
        JsonReason::EndInNumber,
        "The text ends within a number: a digit is missing.",
    ),
    (
        JsonReason::EndInWord,
        "The text ends within one of the words true, false and null.",
    ),
    (
        JsonReason::EndInArray,
        "The text ends within an array: its closing bracket is missing.",
    ),
    (
        JsonReason::EndInObject,
        "The text ends within an object: its closing brace is missing.",
    ),
    (
        JsonReason::AfterValue,
        "Only blanks may come after the value.",
    ),
    (
        JsonReason::TooManyLevels,
        "More than 127 arrays and objects are inside one another.",
    ),
    (JsonReason::MissingValue, "A value is missing here."),
    (
        JsonReason::MissingName,
        "A name in double quotes is missing here.",
    ),
    (
        JsonReason::MissingColon,
        "A colon is missing after the name.",
    ),
    (
        JsonReason::MissingComma,
        "A comma or a closing bracket is missing here.",
    ),
    (
        JsonReason::StrayColon,
        "A colon stands only after the name of a member.",
    ),
    (
        JsonReason::TrailingComma,
        "No comma may come before a closing bracket.",
    ),
    (
        JsonReason::WrongBracket,
        "This bracket closes nothing that is open.",
    ),
    (
        JsonReason::SingleQuote,
        "Names and texts stand between double quotes.",
    ),
    (JsonReason::UnquotedName, "A name needs double quotes."),
    (JsonReason::Comment, "JSON has no comments."),
    (
        JsonReason::WrongWord,
        "The only words without quotes are true, false and null.",
    ),
    (
        JsonReason::WrongNumber,
        "This is no number: digits stand before and after a dot, and after an exponent.",
    ),
    (
        JsonReason::LeadingZero,
        "A number has no zero before other digits.",
    ),
    (
        JsonReason::ControlCharacter,
        "A string holds a control character only as an escape.",
    ),
    (
        JsonReason::WrongEscape,
        "This is no escape of JSON: u wants four hexadecimal digits.",
    ),
    (
        JsonReason::LoneSurrogate,
        "This escape is half of a surrogate pair, and stands for no character.",
    ),
    (
        JsonReason::BeyondFloat,
        "This number is too large for a float of 64 bits.",
    ),
    (
        JsonReason::HasFraction,
        "A number with a fraction or an exponent is no whole number.",
    ),
    (
        JsonReason::NegativeZero,
        "-0 is no whole number of 64 bits.",
    ),
    (
        JsonReason::OutOfRange,
        "This number is outside -(2^63) to (2^64)-1.",
    ),
    (
        JsonReason::BeyondDecimal,
        "This number has more than 38 digits, or an exponent beyond 1,000,000.",
    ),
    (
        JsonReason::ListTooLong,
        "A list has more than (2^53)-1 items.",
    ),
    (JsonReason::Unreadable, "This is no document."),
    (JsonReason::Unexpected, "No value begins so."),
];
