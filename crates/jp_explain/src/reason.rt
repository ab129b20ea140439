//! The reasons for which queries are refused, and the sentence for each.

ghost use Rattle.std.specs.Prelude.{◌≡◌, true};
ghost use Rattle.jp_reading.specs.Sentences.{is_sentence};

use crate::surroundings::Surroundings;

/// What is wrong with a query at the place of its refusal, as far as what is there tells.
#[derive(Clone, Copy, Debug, PartialEq, Eq)]
pub enum Reason {
    /// There is no query at all.
    Empty,
    /// A blank or an invisible character before the query.
    BlankFirst,
    /// A digit where `$` is wanted: what a shell leaves of `"$[0]"`.
    ShellNumber,
    /// The name of a file where the query is wanted.
    FileName,
    /// The name of a file where an expression is wanted.
    FileFirst,
    /// A dot where `$` is wanted: jq's form, or what a shell leaves of `"$x.b"`.
    ShellDot,
    /// `@` where `$` is wanted.
    CurrentNode,
    /// Braces around the query.
    Braces,
    /// Quotation marks around the query.
    Quoted,
    /// `//`, `||` or `??` behind a path, with a default.
    Alternative,
    /// A slash between names.
    Slash,
    /// Anything else where `$` is wanted.
    MissingDollar,
    /// A blank or an invisible character after the query.
    BlankLast,
    /// The end, within brackets, where they may be closed or in a text between quotation marks.
    Unclosed,
    /// A backslash between quotation marks, with what no escape has after it.
    Escape,
    /// A control character between quotation marks.
    ControlCharacter,
    /// An invisible character, or a no-break space.
    Unseen,
    /// Quotation marks of another kind.
    Quotes,
    /// `=<` or `=>`.
    OrderSign,
    /// `=~`, or `~` in a filter, or a pattern between slashes as an argument.
    Pattern,
    /// `=` or `===`.
    Equals,
    /// `<>`.
    Unequal,
    /// `.5` or `-.5`.
    DotNumber,
    /// `last()` or a script such as `(@.length-1)` in brackets.
    LastItem,
    /// A name without quotes in brackets.
    BracketName,
    /// `&` or `and`.
    And,
    /// `|` or `or`.
    Or,
    /// `not`.
    Not,
    /// `0x8`.
    BaseTen,
    /// `True`, `None` and the like.
    Literal,
    /// `undefined`.
    Undefined,
    /// A literal that is compared with nothing.
    LoneLiteral,
    /// A text without quotes.
    TextQuotes,
    /// A member's name alone in a filter, or with but a dot before it.
    MissingAt,
    /// A filter without `?`.
    MissingQuestionMark,
    /// `[]`.
    EmptyBrackets,
    /// `,]`.
    LastComma,
    /// `.[`.
    DotBracket,
    /// `...`.
    ThreeDots,
    /// A name in quotes after a dot.
    DotQuote,
    /// A digit after a dot.
    DotDigit,
    /// Another character in a name after a dot.
    OddName,
    /// `(` after a name.
    Call,
    /// `?` outside of brackets.
    Optional,
    /// `|` outside of brackets.
    Pipe,
    /// `,` outside of brackets.
    Union,
    /// `@property` and the like.
    OwnName,
    /// A name right after `$`, `@` or `]`.
    MissingDot,
    /// A name after a blank.
    BlankName,
    /// A name right after a quotation mark.
    InnerQuote,
    /// `]` without its `[`.
    StrayBracket,
    /// `1,000` or `1_000`.
    Thousands,
    /// A digit after a `0` that begins a number.
    LeadingZero,
    /// `+` before a number.
    Plus,
    /// `-0` as an index.
    MinusZero,
    /// `-` before something else than a number.
    LoneMinus,
    /// `1.0`, `1e3`, `0..2` or `0-2` in brackets.
    IndexForm,
    /// A sign of arithmetic in a filter.
    Arithmetic,
    /// `in` where an operator is wanted.
    Among,
    /// `nin` or `not in`.
    NotAmong,
    /// `anyof`.
    AnyOf,
    /// `between`.
    Between,
    /// `contains`.
    Contains,
    /// `startsWith`, `endsWith` and the like.
    Affix,
    /// `like`.
    Like,
    /// `matches` and the like.
    Matches,
    /// Another word where an operator is wanted.
    Operator,
    /// `;` in brackets.
    Semicolon,
    /// `?` after something else than `[` or a comma in brackets, or between blanks outside of them.
    Ternary,
    /// `**`.
    DoubleStar,
    /// `^` or `~` after a path.
    NoWayUp,
    /// A comparison where none may be.
    Comparison,
    /// `]` where a `)` is wanted.
    MissingParenthesis,
    /// A sign of comparisons or of logic outside of brackets.
    OutsideFilter,
    /// `)` without its `(`.
    StrayParenthesis,
    /// Anything else where a test begins.
    WantsTest,
    /// Anything else after a sign of comparisons.
    WantsValue,
    /// Anything else in brackets.
    InBrackets,
    /// Anything else after a dot.
    AfterDot,
    /// The end, after an odd number of quotation marks.
    OpenQuote,
    /// The end.
    Unfinished,
    /// Anything else outside of brackets.
    NextSegment,
    /// Any other character.
    Unexpected,
    /// `TooDeep`.
    TooDeep,
    /// `NotWhole`.
    NotWhole,
    /// `NumberRange`, where numbers are whole.
    NumberRange,
    /// `NumberRange`, where numbers are decimals.
    DecimalRange,
    /// `IndexRange`.
    IndexRange,
    /// `distinct` where the profile lacks it.
    Distinct,
    /// `len` or `size` for `length`.
    LengthName,
    /// `not(..)`.
    NotCall,
    /// `exists(..)`.
    Exists,
    /// `UnknownFunction`.
    UnknownFunction,
    /// `ArgumentCount`.
    ArgumentCount,
    /// `length` of several nodes.
    CountNodes,
    /// `NotSingular`.
    NotSingular,
    /// `match` or `search` as a side of a comparison.
    MatchCompared,
    /// `length`, `count` or `value` as a test.
    ValueAlone,
    /// `IllTyped`.
    IllTyped,
    /// `NoMemory`.
    NoMemory,
    /// `TextTooLong`, which the programs alone say: a library takes each query.
    TextTooLong,
}

impl Reason {
    /// The sentence for whoever asked the query there, in ASCII and on one line.
    pub fn sentence(self, surroundings: Surroundings) -> &'static str
        ensures { is_sentence result.now ≡ true }
    {
        match surroundings {
            Surroundings::Shell => self.shell_sentence(),
            Surroundings::Library => self.library_sentence(),
        }
    }

    /// The sentence that may speak of a shell, of a program's options and of its files.
    fn shell_sentence(self) -> &'static str
        ensures { is_sentence result.now ≡ true }
    {
        match self {
            Reason::FileName => {
                "A query begins with `$`, and stands before the names of files."
            },
            Reason::FileFirst => {
                "An expression, such as `@.name == 1`, stands before the names of files."
            },
            Reason::ShellNumber => {
                "A query begins with `$`; the shell makes a number of \"$[0]\", so put the query in single quotes."
            },
            Reason::ShellDot => {
                "A query begins with `$`; if you typed one, the shell took it, so put the query in single quotes."
            },
            Reason::Quoted => {
                "A query begins with `$`: quotation marks around it are for the shell, and no part of it."
            },
            Reason::BracketName => {
                "A name in brackets needs quotes (inside the shell's single quotes, double ones)."
            },
            Reason::NotWhole => {
                "This number has a fraction or an exponent, which jp reads exactly with --decimals, and jp-lines without --whole."
            },
            Reason::Distinct => {
                "`distinct` is a function of the extended profile alone: give the option --extended."
            },
            Reason::UnknownFunction => {
                "There is no such function: there are length, count, match, search and value, and with --extended distinct."
            },
            _ => self.library_sentence(),
        }
    }

    /// The sentence that speaks of the query alone.
    fn library_sentence(self) -> &'static str
        ensures { is_sentence result.now ≡ true }
    {
        match self {
            Reason::Empty => "The query is empty: `$` alone selects the whole document.",
            Reason::BlankFirst => {
                "A query begins with `$`: no blank, newline or invisible character may stand before it."
            },
            Reason::FileName => "A query begins with `$`: this looks like the name of a file.",
            Reason::FileFirst => {
                "An expression is a test, such as `@.name == 1`: this looks like the name of a file."
            },
            Reason::ShellNumber => {
                "A query begins with `$`: an index stands behind it in brackets, as in `$[0]`."
            },
            Reason::ShellDot => "A query begins with `$`: it stands before the first dot.",
            Reason::CurrentNode => {
                "A query begins with `$`: `@` is the current node, and stands in filters alone."
            },
            Reason::Braces => "A query begins with `$`: there are no braces around it.",
            Reason::Quoted => {
                "A query begins with `$`: quotation marks around it are no part of it."
            },
            Reason::Alternative => {
                "There is no default behind `//`, `||` or `??`: a path to nothing selects nothing."
            },
            Reason::Slash => {
                "Names are separated by dots or stand in brackets: there are no slashes between them."
            },
            Reason::MissingDollar => "A query begins with `$`, the whole document.",
            Reason::BlankLast => {
                "A query ends with its last segment: no blank, newline or invisible character may stand after it."
            },
            Reason::Unclosed => {
                "The query ends before a bracket, a parenthesis or a quotation mark is closed."
            },
            Reason::Escape => {
                "In quotes a backslash is written `\\\\`: other escapes are \\b, \\f, \\n, \\r, \\t, \\u and four digits, and \\/."
            },
            Reason::ControlCharacter => {
                "A control character in quotes is written as an escape, such as \\n or \\u001b."
            },
            Reason::Unseen => "An invisible character, such as a no-break space, stands here.",
            Reason::Quotes => "Quotation marks are ' or \": this is another one.",
            Reason::OrderSign => "These comparisons are written `<=` and `>=`.",
            Reason::Pattern => {
                "A pattern is tested by match(@.name, \"..\") on the whole text, and by search(@.name, \"..\") on any part of it."
            },
            Reason::Equals => "Values are compared with `==` and `!=`.",
            Reason::Unequal => "`<>` is written `!=`.",
            Reason::DotNumber => "A number does not begin with a dot: .5 is written 0.5.",
            Reason::LastItem => "A negative index counts from the end: `[-1]` is the last item.",
            Reason::BracketName => "A name in brackets needs quotes.",
            Reason::And => "`and` is written `&&`.",
            Reason::Or => "`or` is written `||`.",
            Reason::Not => "`not` is written `!`.",
            Reason::BaseTen => "Numbers are written in base ten, such as 16 for 0x10.",
            Reason::Literal => "The literals are written `true`, `false` and `null`.",
            Reason::Undefined => {
                "Whether there is such a member is tested by `@.name` or `!@.name` alone."
            },
            Reason::LoneLiteral => {
                "A literal alone is no test: compare it, as in `@.name == true`."
            },
            Reason::TextQuotes => {
                "A text in a comparison needs quotes, and a member is written `@.name`."
            }
            Reason::MissingAt => {
                "A filter looks at the current node, `@`: its members are written `@.name`."
            },
            Reason::MissingQuestionMark => "A filter begins with `?`, as in `[?@.name == 1]`.",
            Reason::EmptyBrackets => "Brackets need something in them: `[*]` selects all children.",
            Reason::LastComma => "No comma may stand before `]`.",
            Reason::DotBracket => "No dot stands before `[`, but for the two of `..`.",
            Reason::ThreeDots => "Descendants have two dots, `..`, and no more.",
            Reason::DotQuote => "A name in quotes stands in brackets, without a dot.",
            Reason::DotDigit => {
                "An index stands in brackets, and so does, in quotes, a name that begins with a digit."
            },
            Reason::OddName => {
                "A name with other characters than letters, digits and `_` stands in quotes and brackets."
            },
            Reason::Call => {
                "A function is called in filters alone, before its argument, as in `length(@.name)`."
            },
            Reason::Optional => "No `?` is needed here: a path to nothing selects nothing.",
            Reason::Pipe => {
                "There are no pipes: a query is one path, and jq's `.a | .b` is written `$.a.b`."
            },
            Reason::Union => {
                "A query is one path: several names or indexes stand in one pair of brackets, as in `[\"a\", \"b\"]`."
            },
            Reason::OwnName => {
                "`@` is a value, of which neither its own name nor its path nor its parent is known."
            },
            Reason::MissingDot => "A name needs a dot before it.",
            Reason::BlankName => "A name with a blank in it stands in quotes and brackets.",
            Reason::InnerQuote => {
                "The quotation mark before this ends the text: one is missing, or this one needs `\\` before it."
            }
            Reason::StrayBracket => "This `]` closes nothing.",
            Reason::Thousands => {
                "Nothing stands between the digits of a number: 1,000 is written 1000."
            },
            Reason::LeadingZero => "A number does not begin with `0`, unless it is 0.",
            Reason::Plus => "A number has no `+` before it.",
            Reason::MinusZero => "The index 0 has no `-` before it.",
            Reason::LoneMinus => "A number comes right after a `-`, as in -1.",
            Reason::IndexForm => {
                "An index is a whole number, and a slice is written `[0:2]`, which selects the items 0 and 1."
            },
            Reason::Arithmetic => {
                "Filters do not calculate: there is no `+`, `-`, `*`, `/` or `%` in them."
            },
            Reason::Among => {
                "`in` is written as comparisons, such as `@.name == 1 || @.name == 2`."
            }
            Reason::NotAmong => {
                "`nin` and `not in` are written as comparisons, such as `@.name != 1 && @.name != 2`."
            },
            Reason::AnyOf => {
                "Whether an array has one of some items is tested by `@.name[?@ == 1 || @ == 2]`."
            },
            Reason::Between => {
                "`between` is written as two comparisons, such as `@.name >= 1 && @.name <= 5`."
            },
            Reason::Contains => {
                "Whether a text has a part is tested by search(@.name, \"..\"), and whether an array has an item by `@.name[?@ == 1]`."
            },
            Reason::Affix => {
                "How a text begins is tested by match(@.name, \"begin.*\"), and how it ends by match(@.name, \".*end\")."
            },
            Reason::Like => {
                "`like` is written match(@.name, \"..\"), with `.*` in place of `%` and `.` in place of `_`."
            },
            Reason::Matches => {
                "A pattern is tested by match(@.name, \"..\") on the whole text, and by search(@.name, \"..\") on any part of it."
            },
            Reason::Operator => {
                "There is no such operator: there are ==, !=, <, <=, >, >=, &&, || and !."
            },
            Reason::Semicolon => {
                "No semicolon stands in brackets: selectors have commas between them, and a slice has colons."
            },
            Reason::Ternary => {
                "A `?` stands only where a filter begins: there is no `? :`, and no default behind `??`."
            },
            Reason::DoubleStar => "Any number of steps down is written `..`.",
            Reason::NoWayUp => {
                "A query goes down only: there is no step to a parent, and none to a member's name."
            },
            Reason::Comparison => {
                "A comparison has two sides, without parentheses: join two by `&&`, and negate one as in `!(@.name == 1)`."
            },
            Reason::MissingParenthesis => "A `)` is missing before this `]`.",
            Reason::OutsideFilter => "Tests stand in filters alone, as in `$[?@.name == 1]`.",
            Reason::StrayParenthesis => "This `)` closes nothing.",
            Reason::WantsTest => {
                "A test belongs here: a path such as `@.name`, a comparison, or a function call."
            }
            Reason::WantsValue => {
                "A value belongs here: a number, a text in quotes, true, false, null, a path, or a function call."
            },
            Reason::InBrackets => {
                "In brackets stand names in quotes, indexes, slices, `*`, or `?` and a filter."
            },
            Reason::AfterDot => "Right after a dot comes a name or `*`.",
            Reason::OpenQuote => "The query ends before a quotation mark is closed.",
            Reason::Unfinished => "The query is not finished.",
            Reason::NextSegment => {
                "After a segment comes another one, with `.` or `[`, or the end of the query."
            }
            Reason::Unexpected => {
                "This character cannot stand here: a sign such as `,`, `]` or `==` may be missing before it."
            },
            Reason::TooDeep => {
                "Filters, parentheses and calls stand more than 128 deep inside one another."
            },
            Reason::NotWhole => "Numbers in queries are whole: write 10, and neither 10.0 nor 1e1.",
            Reason::NumberRange => {
                "Numbers in queries go from -9223372036854775808 to 18446744073709551615."
            },
            Reason::DecimalRange => {
                "This number has more than 38 digits, or a power of ten that is not from -1000000 to 1000000."
            },
            Reason::IndexRange => "Indexes go from -9007199254740991 to 9007199254740991.",
            Reason::Distinct => {
                "`distinct` is a function of the extended profile alone, and the query is read in the standard one."
            },
            Reason::LengthName => {
                "The length of a text, an array or an object is `length(@.name)`."
            },
            Reason::NotCall => "`not` is written `!`.",
            Reason::Exists => "Whether there is such a node is tested by `@.name` alone.",
            Reason::UnknownFunction => {
                "There is no such function: there are length, count, match, search and value, and in the extended profile distinct."
            },
            Reason::ArgumentCount => {
                "match and search take two arguments, and the other functions take one."
            },
            Reason::CountNodes => "`length` takes one value: nodes are counted by `count`.",
            Reason::NotSingular => {
                "What is compared or measured has to be one node: without `*`, `..`, slices, filters and commas."
            },
            Reason::MatchCompared => {
                "match and search are true or false by themselves, and are compared with nothing."
            },
            Reason::ValueAlone => {
                "length, count and value answer a value: compare it, as in `count(@.*) > 1`."
            },
            Reason::IllTyped => {
                "What stands here does not fit: length, match and search take values, and count, value and distinct take paths."
            },
            Reason::NoMemory => "Memory ran out before the query was read.",
            Reason::TextTooLong => "The query is longer than the program takes.",
        }
    }
}
