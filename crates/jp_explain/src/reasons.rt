//! Which reason there is for a refusal, by what is at its place.

use crate::class::{Class, split_prefix};
use crate::marks::{
    before_name, begins, begins_as, begins_in, ends, ends_as, ends_in, ends_in_one, has_more, is,
    is_inside, is_quoted, last_name, name_at, stem, without_first, without_last, without_name,
};
use crate::mends::cuts::{cut_at, cut_digits, has};
use crate::reason::Reason;
use jp_decimal::Numbers;
use jp_query::RefusalKind;

/// The reasons why text is no query, in the order in which they are tried.
const SYNTAX_REASONS: [Reason; 81] = [
    Reason::Empty,
    Reason::BlankFirst,
    Reason::FileName,
    Reason::ShellNumber,
    Reason::Alternative,
    Reason::ShellDot,
    Reason::CurrentNode,
    Reason::Braces,
    Reason::Quoted,
    Reason::Slash,
    Reason::MissingDollar,
    Reason::BlankLast,
    Reason::Unclosed,
    Reason::Escape,
    Reason::ControlCharacter,
    Reason::Unseen,
    Reason::Quotes,
    Reason::OrderSign,
    Reason::Pattern,
    Reason::Equals,
    Reason::Unequal,
    Reason::DotNumber,
    Reason::LastItem,
    Reason::BracketName,
    Reason::Between,
    Reason::NotAmong,
    Reason::AnyOf,
    Reason::Contains,
    Reason::Affix,
    Reason::Like,
    Reason::Matches,
    Reason::And,
    Reason::Or,
    Reason::Not,
    Reason::BaseTen,
    Reason::Literal,
    Reason::Undefined,
    Reason::MissingParenthesis,
    Reason::LoneLiteral,
    Reason::TextQuotes,
    Reason::MissingAt,
    Reason::MissingQuestionMark,
    Reason::EmptyBrackets,
    Reason::LastComma,
    Reason::DotBracket,
    Reason::ThreeDots,
    Reason::DotQuote,
    Reason::DotDigit,
    Reason::OddName,
    Reason::Call,
    Reason::Optional,
    Reason::Pipe,
    Reason::Union,
    Reason::OwnName,
    Reason::MissingDot,
    Reason::BlankName,
    Reason::InnerQuote,
    Reason::StrayBracket,
    Reason::Thousands,
    Reason::LeadingZero,
    Reason::Plus,
    Reason::MinusZero,
    Reason::LoneMinus,
    Reason::IndexForm,
    Reason::Arithmetic,
    Reason::Among,
    Reason::Operator,
    Reason::Semicolon,
    Reason::Ternary,
    Reason::DoubleStar,
    Reason::NoWayUp,
    Reason::Comparison,
    Reason::OutsideFilter,
    Reason::StrayParenthesis,
    Reason::WantsTest,
    Reason::WantsValue,
    Reason::InBrackets,
    Reason::AfterDot,
    Reason::OpenQuote,
    Reason::Unfinished,
    Reason::NextSegment,
];

/// The reason why a text is no query, by the text before the place of its refusal and the text from
/// there on.
fn syntax_reason(front: &[char], rest: &[char]) -> Reason {
    match first_marked(&SYNTAX_REASONS, front, rest) {
        Some(reason) => reason,
        None => Reason::Unexpected,
    }
}

/// The first of the reasons whose mark is at the place.
fn first_marked(reasons: &[Reason], front: &[char], rest: &[char]) -> Option<Reason> {
    for reason in reasons {
        if has_mark(*reason, front, rest) {
            return Some(*reason);
        }
    }
    None
}

/// The reason for a refusal of that kind where there are these numbers, by the text before its place and
/// the text from there on.
pub(crate) fn reason_of(
    kind: RefusalKind,
    numbers: Numbers,
    front: &[char],
    rest: &[char],
) -> Reason {
    match kind {
        RefusalKind::Syntax => syntax_reason(front, rest),
        RefusalKind::TooDeep => Reason::TooDeep,
        RefusalKind::NotWhole => Reason::NotWhole,
        RefusalKind::NumberRange => match numbers {
            Numbers::Whole => Reason::NumberRange,
            Numbers::Decimal => Reason::DecimalRange,
        },
        RefusalKind::IndexRange => Reason::IndexRange,
        RefusalKind::UnknownFunction => unknown_reason(name_at(rest)),
        RefusalKind::ArgumentCount => Reason::ArgumentCount,
        RefusalKind::NotSingular => {
            if ends(front, "length(") {
                Reason::CountNodes
            } else {
                Reason::NotSingular
            }
        }
        RefusalKind::IllTyped => type_reason(front, rest),
        RefusalKind::NoMemory => Reason::NoMemory,
        RefusalKind::TextTooLong => Reason::TextTooLong,
    }
}

/// The reason why there is no function of that name.
fn unknown_reason(name: &[char]) -> Reason {
    if is(name, "distinct") {
        Reason::Distinct
    } else if is(name, "len") || is(name, "size") {
        Reason::LengthName
    } else if is(name, "not") {
        Reason::NotCall
    } else if is(name, "exists") {
        Reason::Exists
    } else if is(name, "contains") {
        Reason::Contains
    } else if is_affix_name(name) {
        Reason::Affix
    } else if is_matching_name(name) {
        Reason::Matches
    } else {
        Reason::UnknownFunction
    }
}

/// The reason why what is there has not the type that is wanted.
fn type_reason(front: &[char], rest: &[char]) -> Reason {
    if is_argument(front) {
        Reason::IllTyped
    } else if is_matching(name_at(rest)) {
        Reason::MatchCompared
    } else if is_measuring(name_at(rest)) {
        Reason::ValueAlone
    } else {
        Reason::IllTyped
    }
}

/// Whether the mark of the reason is at the place.
fn has_mark(reason: Reason, front: &[char], rest: &[char]) -> bool {
    match reason {
        Reason::Empty => front.is_empty() && rest.is_empty(),
        Reason::BlankFirst => front.is_empty() && begins_as(rest, Class::Unseen),
        Reason::FileName => front.is_empty() && is_file_name(rest),
        Reason::ShellNumber => front.is_empty() && begins_as(rest, Class::Digit),
        Reason::ShellDot => front.is_empty() && begins(rest, "."),
        Reason::CurrentNode => front.is_empty() && begins(rest, "@"),
        Reason::Braces => front.is_empty() && begins(rest, "{"),
        Reason::Quoted => front.is_empty()
            && (begins_in(rest, "'\"") || begins_as(rest, Class::Quote)),
        Reason::Alternative => is_alternative(front, rest) || is_jq_alternative(front, rest),
        Reason::Slash => begins(rest, "/") && (!is_inside(front) || is_path_name(front, rest)),
        Reason::MissingDollar => front.is_empty(),
        Reason::BlankLast => rest.is_empty() && !is_inside(front) && ends_as(front, Class::Unseen),
        Reason::Unclosed => rest.is_empty() && is_inside(front) && !wants_more(front),
        Reason::Escape => ends_in_one(front, "\\") && is_quoted(front),
        Reason::ControlCharacter => begins_as(rest, Class::Unseen) && is_quoted(front),
        Reason::Unseen => begins_as(rest, Class::Unseen) && !begins_as(rest, Class::Blank),
        Reason::Quotes => begins_as(rest, Class::Quote),
        Reason::OrderSign => ends_in_equals(front) && begins_in(rest, "<>"),
        Reason::Pattern => (begins(rest, "~") && is_inside(front))
            || (begins(rest, "/") && is_argument(front)),
        Reason::Equals => ends_in_equals(front) || is_third_equals(front, rest),
        Reason::Unequal => ends(front, "<") && begins(rest, ">"),
        Reason::DotNumber => is_dot_number(front, rest),
        Reason::LastItem => begins_selector(front) && is_last_item(rest),
        Reason::BracketName => begins_selector(front) && begins_as(rest, Class::NameFirst),
        Reason::Between => is_operator(front, rest, "between", "BETWEEN"),
        Reason::NotAmong => is_not_among(front, rest),
        Reason::AnyOf => is_operator(front, rest, "anyof", "anyOf"),
        Reason::Contains => is_operator(front, rest, "contains", "CONTAINS"),
        Reason::Affix => {
            (is_behind_blank(front) && is_affix_name(name_at(rest))) || is_affix_call(front, rest)
        }
        Reason::Like => is_operator(front, rest, "like", "LIKE"),
        Reason::Matches => is_behind_blank(front) && is_matching_name(name_at(rest)),
        Reason::And => ends_in_one(front, "&") || is_operator(front, rest, "and", "AND"),
        Reason::Or => {
            (ends_in_one(front, "|") && !is_piped(rest)) || is_operator(front, rest, "or", "OR")
        }
        Reason::Not => is_test_word(front, rest, "not")
            || (begins_test(stem(front)) && is(name_at(rest), "NOT")),
        Reason::BaseTen => is(last_name(front), "0") && begins_in(rest, "xX"),
        Reason::Literal => is_literal(front, rest),
        Reason::Undefined => begins_value(before_name(front)) && is(last_name(front), "undefined"),
        Reason::MissingParenthesis => begins(rest, "]") && has_more(front, "(", ")"),
        Reason::LoneLiteral => is_lone_literal(stem(front), rest),
        Reason::TextQuotes => is_text(front, rest),
        Reason::MissingAt => is_member(front, rest),
        Reason::MissingQuestionMark => begins_selector(front) && begins_in(rest, "@(!"),
        Reason::EmptyBrackets => ends(stem(front), "[") && begins(rest, "]"),
        Reason::LastComma => ends(stem(front), ",") && begins(rest, "]"),
        Reason::DotBracket => ends(front, ".") && begins(rest, "["),
        Reason::ThreeDots => ends(front, "..") && begins(rest, "."),
        Reason::DotQuote => ends(front, ".") && begins_in(rest, "'\""),
        Reason::DotDigit => ends(front, ".") && begins_as(rest, Class::Digit),
        Reason::OddName => is_odd_name(front, rest),
        Reason::Call => begins(rest, "(") && ends_as(front, Class::Name),
        Reason::Optional => begins(rest, "?") && !is_inside(front) && !is_apart(front, rest),
        Reason::Pipe => (begins(rest, "|") && !is_inside(front))
            || (is_inside(front) && ends_in_one(front, "|") && is_piped(rest)),
        Reason::Union => begins(rest, ",") && !is_inside(front),
        Reason::OwnName => ends(front, "@") && is_own_name(name_at(rest)),
        Reason::MissingDot => ends_in(front, "$@]") && begins_as(rest, Class::NameFirst),
        Reason::BlankName => !is_inside(front)
            && ends_as(front, Class::Blank)
            && begins_as(rest, Class::NameFirst),
        Reason::InnerQuote => ends_in(front, "'\"") && begins_as(rest, Class::NameFirst),
        Reason::StrayBracket => begins(rest, "]") && !is_inside(front),
        Reason::Thousands => {
            is_thousands(front, rest)
                || is_comma_number(front, rest)
                || is_comma_fraction(front, rest)
        }
        Reason::LeadingZero => ends(front, "0") && begins_as(rest, Class::Digit),
        Reason::Plus => begins(rest, "+") && ends_in(stem(front), "[,:=<>("),
        Reason::MinusZero => ends(front, "-") && begins(rest, "0"),
        Reason::LoneMinus => ends(front, "-") && is_inside(front) && !is_quoted(front),
        Reason::IndexForm => ends_as(front, Class::Digit)
            && ends_in(before_name(front), "[,:")
            && (begins_in(rest, ".-") || begins_as(rest, Class::NameFirst)),
        Reason::Arithmetic => is_inside(front) && begins_in(rest, "+-*/%"),
        Reason::Among => is_operator(front, rest, "in", "IN"),
        Reason::Operator => is_inside(front)
            && ends_as(front, Class::Blank)
            && begins_as(rest, Class::NameFirst),
        Reason::Semicolon => begins(rest, ";") && is_inside(front),
        Reason::Ternary => begins(rest, "?") && (is_inside(front) || is_apart(front, rest)),
        Reason::DoubleStar => ends(front, "*") && begins(rest, "*"),
        Reason::NoWayUp => begins_in(rest, "^~") && !is_inside(front),
        Reason::Comparison => begins_in(rest, "=<>!") && is_inside(front),
        Reason::OutsideFilter => begins_in(rest, "=<>!&") && !is_inside(front),
        Reason::StrayParenthesis => begins(rest, ")") && !has_more(front, "(", ")"),
        Reason::WantsTest => begins_test(stem(front)),
        Reason::WantsValue => begins_value(stem(front)),
        Reason::InBrackets => wants_selector(front),
        Reason::AfterDot => ends(front, "."),
        Reason::OpenQuote => rest.is_empty() && is_quoted(front),
        Reason::Unfinished => rest.is_empty(),
        Reason::NextSegment => !is_inside(front),
        _ => false,
    }
}

/// Whether a selector is wanted after it: it ends in `[` or a comma.
fn begins_selector(front: &[char]) -> bool {
    ends_in(stem(front), "[,")
}

/// Whether it ends where a test begins: in `?`, `(`, `!`, or the sign of `&&` or `||`.
fn begins_test(front: &[char]) -> bool {
    ends_in(front, "?(!&|")
}

/// Whether it ends in a sign of comparisons.
fn begins_value(front: &[char]) -> bool {
    ends_in(front, "=<>")
}

/// Whether it ends in a single `=`.
fn ends_in_equals(front: &[char]) -> bool {
    ends(front, "=")
        && !ends(front, "==")
        && !ends(front, "!=")
        && !ends(front, "<=")
        && !ends(front, ">=")
}

/// Whether an `=` is behind `==` or `!=`.
fn is_third_equals(front: &[char], rest: &[char]) -> bool {
    begins(rest, "=") && (ends(front, "==") || ends(front, "!="))
}

/// Whether the word is what the front ends in, where a test begins.
fn is_test_word(front: &[char], rest: &[char], word: &str) -> bool {
    begins_test(before_name(front)) && is(last_name(front), word) && !begins_as(rest, Class::Name)
}

/// Whether the name is that of a literal in another language.
fn is_literal_name(name: &[char]) -> bool {
    is(name, "True")
        || is(name, "False")
        || is(name, "None")
        || is(name, "TRUE")
        || is(name, "FALSE")
        || is(name, "NULL")
        || is(name, "Null")
}

/// Whether such a name is right after a sign of comparisons.
fn is_literal(front: &[char], rest: &[char]) -> bool {
    (begins_value(stem(front)) && is_literal_name(name_at(rest)))
        || (begins_value(before_name(front)) && is(last_name(front), "nil"))
}

/// Whether a number is what the front ends in, where a test begins.
fn is_lone_number(front: &[char]) -> bool {
    begins_test(before_name(front)) && begins_as(last_name(front), Class::Digit)
}

/// Whether a literal is all of a test.
fn is_lone_literal(front: &[char], rest: &[char]) -> bool {
    is_test_word(front, rest, "true")
        || is_test_word(front, rest, "false")
        || is_test_word(front, rest, "null")
        || is_lone_number(front)
        || (ends_in(front, "'\"") && begins_in(rest, "])&|"))
}

/// Whether a selector is wanted after it, and not an argument of a function.
pub(crate) fn wants_selector(front: &[char]) -> bool {
    begins_selector(front) && !has_more(front, "(", ")")
}

/// Whether something is wanted after it, and it is not in a text between quotation marks.
fn wants_more(front: &[char]) -> bool {
    !is_quoted(front)
        && (wants_selector(front) || begins_test(stem(front)) || begins_value(stem(front)))
}

/// Whether XPath's call for the last item is next, or a script for an item from the end.
fn is_last_item(rest: &[char]) -> bool {
    begins(rest, "last()") || begins(rest, "(@.length-") || begins(rest, "(@.length -")
}

/// Whether the word is next in a filter.
fn is_operator(front: &[char], rest: &[char], word: &str, capitals: &str) -> bool {
    is_inside(front) && (is(name_at(rest), word) || is(name_at(rest), capitals))
}

/// Whether a name is, or was begun, right after a sign of comparisons.
fn is_text(front: &[char], rest: &[char]) -> bool {
    (begins_value(stem(front)) && begins_as(rest, Class::NameFirst))
        || (begins_value(before_name(front))
            && begins_as(last_name(front), Class::NameFirst)
            && !begins(rest, "("))
}

/// Whether a name is, or was begun, where a test begins, perhaps with a dot before it.
fn is_member(front: &[char], rest: &[char]) -> bool {
    let name = if begins(rest, ".") {
        without_first(rest)
    } else {
        rest
    };
    (begins_test(stem(front)) && begins_as(name, Class::NameFirst))
        || (begins_test(before_name(front))
            && begins_as(last_name(front), Class::NameFirst)
            && !begins(rest, "("))
}

/// Whether another character begins a name after a dot, or goes on with one.
fn is_odd_name(front: &[char], rest: &[char]) -> bool {
    begins_as(without_first(rest), Class::NameFirst)
        && ((ends(front, ".") && begins_in(rest, "@$#"))
            || (begins_in(rest, "-:@#") && ends(without_name(front), ".")))
}

/// Whether an argument of a function is wanted after it.
fn is_argument(front: &[char]) -> bool {
    ends(stem(front), ",")
        || (ends(stem(front), "(") && ends_as(without_last(stem(front)), Class::Name))
}

/// Whether the name is that of a function that answers true or false.
fn is_matching(name: &[char]) -> bool {
    is(name, "match") || is(name, "search")
}

/// Whether the name is that of a function that answers a value.
fn is_measuring(name: &[char]) -> bool {
    is(name, "length") || is(name, "count") || is(name, "value")
}

/// Whether it is what a file of documents may be called.
pub(crate) fn is_file_name(text: &[char]) -> bool {
    let is_jq = begins(text, ".") && !begins(text, "./") && !begins(text, "../");
    !is_jq
        && (ends(text, ".json")
            || ends(text, ".jsonl")
            || ends(text, ".ndjson")
            || ends(text, ".jsonl.gz"))
}

/// Whether a number is next that begins with a dot, perhaps behind a minus.
fn is_dot_number(front: &[char], rest: &[char]) -> bool {
    let before = if ends(front, "-") {
        stem(without_last(front))
    } else {
        stem(front)
    };
    begins(rest, ".")
        && begins_as(without_first(rest), Class::Digit)
        && (begins_value(before) || begins_test(before) || ends_in(before, "[,:"))
}

/// Whether it ends in a blank, in a filter: a word behind that may be meant as an operator.
fn is_behind_blank(front: &[char]) -> bool {
    is_inside(front) && ends_as(front, Class::Blank)
}

/// Whether `nin` is next in a filter, or `not in`.
fn is_not_among(front: &[char], rest: &[char]) -> bool {
    let (word, after) = split_prefix(rest, Class::Name);
    let next = name_at(split_prefix(after, Class::Blank).1);
    let is_two = (is(word, "not") || is(word, "NOT")) && (is(next, "in") || is(next, "IN"));
    is_behind_blank(front) && (is(word, "nin") || is_two)
}

/// Whether the name is that of an operator or a function for how a text begins or ends.
fn is_affix_name(name: &[char]) -> bool {
    is_start_name(name) || is_end_name(name)
}

/// Whether the name is that of one for how a text begins.
pub(crate) fn is_start_name(name: &[char]) -> bool {
    is(name, "startsWith")
        || is(name, "startswith")
        || is(name, "starts_with")
        || is(name, "starts")
}

/// Whether the name is that of one for how a text ends.
fn is_end_name(name: &[char]) -> bool {
    is(name, "endsWith") || is(name, "endswith") || is(name, "ends_with") || is(name, "ends")
}

/// Whether the name is that of an operator or a function for a pattern, in another language.
fn is_matching_name(name: &[char]) -> bool {
    is(name, "matches") || is(name, "match") || is(name, "regex") || is(name, "MATCHES")
}

/// Whether what follows a single `|` is what jq has there: a name or a dot, behind a blank perhaps.
fn is_piped(rest: &[char]) -> bool {
    let after = split_prefix(rest, Class::Blank).1;
    begins(after, ".") || begins_as(after, Class::NameFirst)
}

/// Whether the name stands after `@` for what is known of a node in another language.
fn is_own_name(name: &[char]) -> bool {
    is(name, "property")
        || is(name, "parent")
        || is(name, "parentProperty")
        || is(name, "path")
        || is(name, "root")
}

/// Whether a default is next outside of brackets, behind `||` or `??`, or behind jq's `//`, which has a blank
/// before it or a value after it.
fn is_alternative(front: &[char], rest: &[char]) -> bool {
    let after = split_prefix(without_first(without_first(rest)), Class::Blank).1;
    let is_default = begins(rest, "||")
        || begins(rest, "??")
        || (begins(rest, "//") && (ends_as(front, Class::Blank) || is_jq_value(after)));
    is_default && !front.is_empty() && !is_inside(front) && !ends(front, "\\")
}

/// Whether jq's query with a default is all of the text.
fn is_jq_alternative(front: &[char], rest: &[char]) -> bool {
    let (path, behind) = cut_at(rest, "/'\"");
    front.is_empty() && begins(rest, ".") && is_alternative(path, behind)
}

/// Whether a value of jq is next, and not a name.
fn is_jq_value(text: &[char]) -> bool {
    let name = name_at(text);
    begins_in(text, "'\"-.$[{")
        || begins_as(text, Class::Digit)
        || is(name, "true")
        || is(name, "false")
        || is(name, "null")
}

/// Whether a name that begins with a slash is next, after a dot, as those of paths in OpenAPI do.
fn is_path_name(front: &[char], rest: &[char]) -> bool {
    ends(front, ".") && !begins(rest, "//")
}

/// Whether a function for how a text begins or ends, with its capital letter next, was begun where a test begins.
fn is_affix_call(front: &[char], rest: &[char]) -> bool {
    let name = last_name(front);
    begins(rest, "With(")
        && begins_test(before_name(front))
        && (is(name, "starts") || is(name, "ends"))
}

/// Whether a sign is next that has blanks on both sides.
fn is_apart(front: &[char], rest: &[char]) -> bool {
    ends_as(front, Class::Blank) && begins_as(without_first(rest), Class::Blank)
}

/// Whether the text ends with digits that are a number, or the end of one.
fn ends_in_number(text: &[char]) -> bool {
    begins_as(last_name(text), Class::Digit) && !ends(without_name(text), ".")
}

/// Whether a comma before three digits, or `_` before some, is next within a number.
fn is_comma_number(front: &[char], rest: &[char]) -> bool {
    let (digits, _) = split_prefix(without_first(rest), Class::Digit);
    let is_next = (begins(rest, ",") && digits.len() == 3)
        || (begins(rest, "_") && !digits.is_empty());
    is_next && is_inside(front) && ends_in_number(front)
}

/// Whether a fraction is next of a number in a comparison that has commas between its digits.
fn is_comma_fraction(front: &[char], rest: &[char]) -> bool {
    let (before, number) = cut_digits(front);
    begins(rest, ".") && begins_value(stem(before)) && has(number, ",")
}

/// Whether a comma stands before three digits of which the first is 0, and a digit before it.
fn is_thousands(front: &[char], rest: &[char]) -> bool {
    let before = without_name(front);
    let (digits, _) = split_prefix(rest, Class::Digit);
    is(last_name(front), "0")
        && digits.len() == 2
        && ends(before, ",")
        && ends_as(without_last(before), Class::Digit)
}
