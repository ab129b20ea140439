//! Why bytes are no document, reason by reason.

ghost use Rattle.std.specs.Prelude.{◌≡◌, true};
ghost use Rattle.jp_json.specs.Names.{name_of};
ghost use Rattle.jp_reading.specs.Sentences.{is_sentence};

/// Why bytes are no document (RFC 8259).
#[derive(Debug, Clone, Copy, PartialEq, Eq)]
pub enum JsonReason {
    /// At this byte no UTF-8 goes on (section 8.1).
    NotUtf8,
    /// The bytes begin with a byte order mark of UTF-16, U+FEFF in either order of its bytes.
    Utf16,
    /// The bytes begin with the mark of gzip.
    Gzip,
    /// A byte order mark stands before the value (section 8.1).
    ByteOrderMark,
    /// A record separator stands before the value, as in a JSON text sequence.
    RecordSeparator,
    /// U+0000 stands outside of strings, as in what is UTF-16 without a byte order mark.
    NullCharacter,
    /// U+00A0 stands outside of strings.
    NoBreakSpace,
    /// There is nothing but blanks.
    Empty,
    /// The end comes within a string.
    EndInText,
    /// The end comes within a number.
    EndInNumber,
    /// The end comes within `true`, `false` or `null`.
    EndInWord,
    /// The end comes within an array.
    EndInArray,
    /// The end comes within an object.
    EndInObject,
    /// Something other than blanks comes after the value.
    AfterValue,
    /// This bracket opens level 128.
    TooManyLevels,
    /// A comma, a colon or a brace stands where a value has to.
    MissingValue,
    /// Something else stands where a member's name has to.
    MissingName,
    /// No colon comes after a member's name.
    MissingColon,
    /// Something else comes after a value in an array or an object.
    MissingComma,
    /// A colon comes after a value.
    StrayColon,
    /// A bracket closes after a comma.
    TrailingComma,
    /// A bracket closes what is not open.
    WrongBracket,
    /// A single quote stands where a name or a value has to.
    SingleQuote,
    /// A name has no quotes.
    UnquotedName,
    /// A comment begins, by `/` or `#`.
    Comment,
    /// A word other than those three, as `None`, `True`, `NaN` and `Infinity`.
    WrongWord,
    /// A number is not written as section 6 has it.
    WrongNumber,
    /// A number begins with a zero before other digits.
    LeadingZero,
    /// A control character stands in a string as it is.
    ControlCharacter,
    /// What comes after a backslash is no escape of section 7.
    WrongEscape,
    /// An escape of half a surrogate pair: the grammar has it, and no document (section 8.2).
    LoneSurrogate,
    /// A number too large for a float of 64 bits.
    BeyondFloat,
    /// A number with a fraction or an exponent.
    HasFraction,
    /// The number `-0`.
    NegativeZero,
    /// A whole number outside -(2^63) to (2^64)-1.
    OutOfRange,
    /// A number that is too much for a decimal: more than 38 digits from the first to the last that is not
    /// 0, or a power of ten for the last of these that is not from -1,000,000 to 1,000,000.
    BeyondDecimal,
    /// Some list is too long.
    ListTooLong,
    /// Another reason, which no known bytes have.
    Unreadable,
    /// A character with which no value begins.
    Unexpected,
}

impl JsonReason {
    /// The sentence for the reason, in ASCII and on one line.
    pub fn sentence(self) -> &'static str
        ensures { is_sentence result.now ≡ true }
    {
        match self {
            JsonReason::NotUtf8 => "The bytes here are no UTF-8.",
            JsonReason::Utf16 => "This is UTF-16, and JSON is UTF-8.",
            JsonReason::Gzip => "This is compressed by gzip.",
            JsonReason::ByteOrderMark => {
                "A byte order mark stands before the value, and JSON has none."
            }
            JsonReason::RecordSeparator => {
                "A record separator (RFC 7464) stands before the value, and JSON has none."
            }
            JsonReason::NullCharacter => {
                "A null character stands here, as in UTF-16: JSON is UTF-8."
            }
            JsonReason::NoBreakSpace => {
                "A no-break space (U+00A0) stands here: JSON has plain spaces between its parts."
            }
            JsonReason::Empty => "There is no value here.",
            JsonReason::EndInText => "The text ends within a string: a double quote is missing.",
            JsonReason::EndInNumber => "The text ends within a number: a digit is missing.",
            JsonReason::EndInWord => "The text ends within one of the words true, false and null.",
            JsonReason::EndInArray => {
                "The text ends within an array: its closing bracket is missing."
            }
            JsonReason::EndInObject => {
                "The text ends within an object: its closing brace is missing."
            }
            JsonReason::AfterValue => "Only blanks may come after the value.",
            JsonReason::TooManyLevels => "More than 127 arrays and objects are inside one another.",
            JsonReason::MissingValue => "A value is missing here.",
            JsonReason::MissingName => "A name in double quotes is missing here.",
            JsonReason::MissingColon => "A colon is missing after the name.",
            JsonReason::MissingComma => "A comma or a closing bracket is missing here.",
            JsonReason::StrayColon => "A colon stands only after the name of a member.",
            JsonReason::TrailingComma => "No comma may come before a closing bracket.",
            JsonReason::WrongBracket => "This bracket closes nothing that is open.",
            JsonReason::SingleQuote => "Names and texts stand between double quotes.",
            JsonReason::UnquotedName => "A name needs double quotes.",
            JsonReason::Comment => "JSON has no comments.",
            JsonReason::WrongWord => "The only words without quotes are true, false and null.",
            JsonReason::WrongNumber => {
                "This is no number: digits stand before and after a dot, and after an exponent."
            }
            JsonReason::LeadingZero => "A number has no zero before other digits.",
            JsonReason::ControlCharacter => "A string holds a control character only as an escape.",
            JsonReason::WrongEscape => {
                "This is no escape of JSON: u wants four hexadecimal digits."
            }
            JsonReason::LoneSurrogate => {
                "This escape is half of a surrogate pair, and stands for no character."
            }
            JsonReason::BeyondFloat => "This number is too large for a float of 64 bits.",
            JsonReason::HasFraction => {
                "A number with a fraction or an exponent is no whole number."
            }
            JsonReason::NegativeZero => "-0 is no whole number of 64 bits.",
            JsonReason::OutOfRange => "This number is outside -(2^63) to (2^64)-1.",
            JsonReason::BeyondDecimal => {
                "This number has more than 38 digits, or an exponent beyond 1,000,000."
            }
            JsonReason::ListTooLong => "A list has more than (2^53)-1 items.",
            JsonReason::Unreadable => "This is no document.",
            JsonReason::Unexpected => "No value begins so.",
        }
    }

    /// The name of the reason, as it stands in this enum.
    pub fn name(self) -> &'static str
        ensures { result.now ≡ name_of self }
    {
        match self {
            JsonReason::NotUtf8 => "NotUtf8",
            JsonReason::Utf16 => "Utf16",
            JsonReason::Gzip => "Gzip",
            JsonReason::ByteOrderMark => "ByteOrderMark",
            JsonReason::RecordSeparator => "RecordSeparator",
            JsonReason::NullCharacter => "NullCharacter",
            JsonReason::NoBreakSpace => "NoBreakSpace",
            JsonReason::Empty => "Empty",
            JsonReason::EndInText => "EndInText",
            JsonReason::EndInNumber => "EndInNumber",
            JsonReason::EndInWord => "EndInWord",
            JsonReason::EndInArray => "EndInArray",
            JsonReason::EndInObject => "EndInObject",
            JsonReason::AfterValue => "AfterValue",
            JsonReason::TooManyLevels => "TooManyLevels",
            JsonReason::MissingValue => "MissingValue",
            JsonReason::MissingName => "MissingName",
            JsonReason::MissingColon => "MissingColon",
            JsonReason::MissingComma => "MissingComma",
            JsonReason::StrayColon => "StrayColon",
            JsonReason::TrailingComma => "TrailingComma",
            JsonReason::WrongBracket => "WrongBracket",
            JsonReason::SingleQuote => "SingleQuote",
            JsonReason::UnquotedName => "UnquotedName",
            JsonReason::Comment => "Comment",
            JsonReason::WrongWord => "WrongWord",
            JsonReason::WrongNumber => "WrongNumber",
            JsonReason::LeadingZero => "LeadingZero",
            JsonReason::ControlCharacter => "ControlCharacter",
            JsonReason::WrongEscape => "WrongEscape",
            JsonReason::LoneSurrogate => "LoneSurrogate",
            JsonReason::BeyondFloat => "BeyondFloat",
            JsonReason::HasFraction => "HasFraction",
            JsonReason::NegativeZero => "NegativeZero",
            JsonReason::OutOfRange => "OutOfRange",
            JsonReason::BeyondDecimal => "BeyondDecimal",
            JsonReason::ListTooLong => "ListTooLong",
            JsonReason::Unreadable => "Unreadable",
            JsonReason::Unexpected => "Unexpected",
        }
    }
}
