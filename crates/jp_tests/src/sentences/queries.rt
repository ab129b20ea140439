//! What is told of wrong queries, reason by reason.

use jp_explain::Reason;

/// A reason, and its sentence in a library and in a shell.
pub const BY_SURROUNDINGS: &[(Reason, &str, &str)] = &[
    (
        Reason::NotWhole,
        "Numbers in queries are whole: write 10, and neither 10.0 nor 1e1.",
        "This number has a fraction or an exponent, which jp reads exactly with --decimals, and jp-lines without --whole.",
    ),
    (
        Reason::ShellNumber,
        "A query begins with `$`: an index stands behind it in brackets, as in `$[0]`.",
        "A query begins with `$`; the shell makes a number of \"$[0]\", so put the query in single quotes.",
    ),
    (
        Reason::FileName,
        "A query begins with `$`: this looks like the name of a file.",
        "A query begins with `$`, and stands before the names of files.",
    ),
    (
        Reason::FileFirst,
        "An expression is a test, such as `@.name == 1`: this looks like the name of a file.",
        "An expression, such as `@.name == 1`, stands before the names of files.",
    ),
    (
        Reason::ShellDot,
        "A query begins with `$`: it stands before the first dot.",
        "A query begins with `$`; if you typed one, the shell took it, so put the query in single quotes.",
    ),
    (
        Reason::Quoted,
        "A query begins with `$`: quotation marks around it are no part of it.",
        "A query begins with `$`: quotation marks around it are for the shell, and no part of it.",
    ),
    (
        Reason::BracketName,
        "A name in brackets needs quotes.",
        "A name in brackets needs quotes (inside the shell's single quotes, double ones).",
    ),
    (
        Reason::Distinct,
        "`distinct` is a function of the extended profile alone, and the query is read in the standard one.",
        "`distinct` is a function of the extended profile alone: give the option --extended.",
    ),
    (
        Reason::UnknownFunction,
        "There is no such function: there are length, count, match, search and value, and in the extended profile distinct.",
        "There is no such function: there are length, count, match, search and value, and with --extended distinct.",
    ),
];

/// A reason, and its sentence in either.
pub const ROWS: &[(Reason, &str)] = &[
    (
        Reason::Empty,
        "The query is empty: `$` alone selects the whole document.",
    ),
    (
        Reason::BlankFirst,
        "A query begins with `$`: no blank, newline or invisible character may stand before it.",
    ),
    (
        Reason::CurrentNode,
        "A query begins with `$`: `@` is the current node, and stands in filters alone.",
    ),
    (
        Reason::Braces,
        "A query begins with `$`: there are no braces around it.",
    ),
    (
        Reason::Alternative,
        "There is no default behind `//`, `||` or `??`: a path to nothing selects nothing.",
    ),
    (
        Reason::Slash,
        "Names are separated by dots or stand in brackets: there are no slashes between them.",
    ),
    (
        Reason::MissingDollar,
        "A query begins with `$`, the whole document.",
    ),
    (
        Reason::BlankLast,
        "A query ends with its last segment: no blank, newline or invisible character may stand after it.",
    ),
    (
        Reason::Unclosed,
        "The query ends before a bracket, a parenthesis or a quotation mark is closed.",
    ),
    (
        Reason::Escape,
        "In quotes a backslash is written `\\\\`: other escapes are \\b, \\f, \\n, \\r, \\t, \\u and four digits, and \\/.",
    ),
    (
        Reason::ControlCharacter,
        "A control character in quotes is written as an escape, such as \\n or \\u001b.",
    ),
    (
        Reason::Unseen,
        "An invisible character, such as a no-break space, stands here.",
    ),
    (
        Reason::Quotes,
        "Quotation marks are ' or \": this is another one.",
    ),
    (
        Reason::OrderSign,
        "These comparisons are written `<=` and `>=`.",
    ),
    (
        Reason::Pattern,
        "A pattern is tested by match(@.name, \"..\") on the whole text, and by search(@.name, \"..\") on any part of it.",
    ),
    (Reason::Equals, "Values are compared with `==` and `!=`."),
    (Reason::Unequal, "`<>` is written `!=`."),
    (
        Reason::DotNumber,
        "A number does not begin with a dot: .5 is written 0.5.",
    ),
    (
        Reason::LastItem,
        "A negative index counts from the end: `[-1]` is the last item.",
    ),
    (Reason::And, "`and` is written `&&`."),
    (Reason::Or, "`or` is written `||`."),
    (Reason::Not, "`not` is written `!`."),
    (
        Reason::BaseTen,
        "Numbers are written in base ten, such as 16 for 0x10.",
    ),
    (
        Reason::Literal,
        "The literals are written `true`, `false` and `null`.",
    ),
    (
        Reason::Undefined,
        "Whether there is such a member is tested by `@.name` or `!@.name` alone.",
    ),
    (
        Reason::LoneLiteral,
        "A literal alone is no test: compare it, as in `@.name == true`.",
    ),
    (
        Reason::TextQuotes,
        "A text in a comparison needs quotes, and a member is written `@.name`.",
    ),
    (
        Reason::MissingAt,
        "A filter looks at the current node, `@`: its members are written `@.name`.",
    ),
    (
        Reason::MissingQuestionMark,
        "A filter begins with `?`, as in `[?@.name == 1]`.",
    ),
    (
        Reason::EmptyBrackets,
        "Brackets need something in them: `[*]` selects all children.",
    ),
    (Reason::LastComma, "No comma may stand before `]`."),
    (
        Reason::DotBracket,
        "No dot stands before `[`, but for the two of `..`.",
    ),
    (
        Reason::ThreeDots,
        "Descendants have two dots, `..`, and no more.",
    ),
    (
        Reason::DotQuote,
        "A name in quotes stands in brackets, without a dot.",
    ),
    (
        Reason::DotDigit,
        "An index stands in brackets, and so does, in quotes, a name that begins with a digit.",
    ),
    (
        Reason::OddName,
        "A name with other characters than letters, digits and `_` stands in quotes and brackets.",
    ),
    (
        Reason::Call,
        "A function is called in filters alone, before its argument, as in `length(@.name)`.",
    ),
    (
        Reason::Optional,
        "No `?` is needed here: a path to nothing selects nothing.",
    ),
    (
        Reason::Pipe,
        "There are no pipes: a query is one path, and jq's `.a | .b` is written `$.a.b`.",
    ),
    (
        Reason::Union,
        "A query is one path: several names or indexes stand in one pair of brackets, as in `[\"a\", \"b\"]`.",
    ),
    (
        Reason::OwnName,
        "`@` is a value, of which neither its own name nor its path nor its parent is known.",
    ),
    (Reason::MissingDot, "A name needs a dot before it."),
    (
        Reason::BlankName,
        "A name with a blank in it stands in quotes and brackets.",
    ),
    (
        Reason::InnerQuote,
        "The quotation mark before this ends the text: one is missing, or this one needs `\\` before it.",
    ),
    (Reason::StrayBracket, "This `]` closes nothing."),
    (
        Reason::Thousands,
        "Nothing stands between the digits of a number: 1,000 is written 1000.",
    ),
    (
        Reason::LeadingZero,
        "A number does not begin with `0`, unless it is 0.",
    ),
    (Reason::Plus, "A number has no `+` before it."),
    (Reason::MinusZero, "The index 0 has no `-` before it."),
    (
        Reason::LoneMinus,
        "A number comes right after a `-`, as in -1.",
    ),
    (
        Reason::IndexForm,
        "An index is a whole number, and a slice is written `[0:2]`, which selects the items 0 and 1.",
    ),
    (
        Reason::Arithmetic,
        "Filters do not calculate: there is no `+`, `-`, `*`, `/` or `%` in them.",
    ),
    (
        Reason::Among,
        "`in` is written as comparisons, such as `@.name == 1 || @.name == 2`.",
    ),
    (
        Reason::NotAmong,
        "`nin` and `not in` are written as comparisons, such as `@.name != 1 && @.name != 2`.",
    ),
    (
        Reason::AnyOf,
        "Whether an array has one of some items is tested by `@.name[?@ == 1 || @ == 2]`.",
    ),
    (
        Reason::Between,
        "`between` is written as two comparisons, such as `@.name >= 1 && @.name <= 5`.",
    ),
    (
        Reason::Contains,
        "Whether a text has a part is tested by search(@.name, \"..\"), and whether an array has an item by `@.name[?@ == 1]`.",
    ),
    (
        Reason::Affix,
        "How a text begins is tested by match(@.name, \"begin.*\"), and how it ends by match(@.name, \".*end\").",
    ),
    (
        Reason::Like,
        "`like` is written match(@.name, \"..\"), with `.*` in place of `%` and `.` in place of `_`.",
    ),
    (
        Reason::Matches,
        "A pattern is tested by match(@.name, \"..\") on the whole text, and by search(@.name, \"..\") on any part of it.",
    ),
    (
        Reason::Operator,
        "There is no such operator: there are ==, !=, <, <=, >, >=, &&, || and !.",
    ),
    (
        Reason::Semicolon,
        "No semicolon stands in brackets: selectors have commas between them, and a slice has colons.",
    ),
    (
        Reason::Ternary,
        "A `?` stands only where a filter begins: there is no `? :`, and no default behind `??`.",
    ),
    (
        Reason::DoubleStar,
        "Any number of steps down is written `..`.",
    ),
    (
        Reason::NoWayUp,
        "A query goes down only: there is no step to a parent, and none to a member's name.",
    ),
    (
        Reason::Comparison,
        "A comparison has two sides, without parentheses: join two by `&&`, and negate one as in `!(@.name == 1)`.",
    ),
    (
        Reason::MissingParenthesis,
        "A `)` is missing before this `]`.",
    ),
    (
        Reason::OutsideFilter,
        "Tests stand in filters alone, as in `$[?@.name == 1]`.",
    ),
    (Reason::StrayParenthesis, "This `)` closes nothing."),
    (
        Reason::WantsTest,
        "A test belongs here: a path such as `@.name`, a comparison, or a function call.",
    ),
    (
        Reason::WantsValue,
        "A value belongs here: a number, a text in quotes, true, false, null, a path, or a function call.",
    ),
    (
        Reason::InBrackets,
        "In brackets stand names in quotes, indexes, slices, `*`, or `?` and a filter.",
    ),
    (Reason::AfterDot, "Right after a dot comes a name or `*`."),
    (
        Reason::OpenQuote,
        "The query ends before a quotation mark is closed.",
    ),
    (Reason::Unfinished, "The query is not finished."),
    (
        Reason::NextSegment,
        "After a segment comes another one, with `.` or `[`, or the end of the query.",
    ),
    (
        Reason::Unexpected,
        "This character cannot stand here: a sign such as `,`, `]` or `==` may be missing before it.",
    ),
    (
        Reason::TooDeep,
        "Filters, parentheses and calls stand more than 128 deep inside one another.",
    ),
    (
        Reason::NumberRange,
        "Numbers in queries go from -9223372036854775808 to 18446744073709551615.",
    ),
    (
        Reason::DecimalRange,
        "This number has more than 38 digits, or a power of ten that is not from -1000000 to 1000000.",
    ),
    (
        Reason::IndexRange,
        "Indexes go from -9007199254740991 to 9007199254740991.",
    ),
    (
        Reason::LengthName,
        "The length of a text, an array or an object is `length(@.name)`.",
    ),
    (Reason::NotCall, "`not` is written `!`."),
    (
        Reason::Exists,
        "Whether there is such a node is tested by `@.name` alone.",
    ),
    (
        Reason::ArgumentCount,
        "match and search take two arguments, and the other functions take one.",
    ),
    (
        Reason::CountNodes,
        "`length` takes one value: nodes are counted by `count`.",
    ),
    (
        Reason::NotSingular,
        "What is compared or measured has to be one node: without `*`, `..`, slices, filters and commas.",
    ),
    (
        Reason::MatchCompared,
        "match and search are true or false by themselves, and are compared with nothing.",
    ),
    (
        Reason::ValueAlone,
        "length, count and value answer a value: compare it, as in `count(@.*) > 1`.",
    ),
    (
        Reason::IllTyped,
        "What stands here does not fit: length, match and search take values, and count, value and distinct take paths.",
    ),
    (
        Reason::NoMemory,
        "Memory ran out before the query was read.",
    ),
    (
        Reason::TextTooLong,
        "The query is longer than the program takes.",
    ),
];
