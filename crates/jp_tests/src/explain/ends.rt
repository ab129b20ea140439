//! Queries that end too early, or with more than a query.

use super::Row;
use jp_explain::Reason;

pub const ROWS: &[Row] = &[
    ("$.a ", "    ^", Reason::BlankLast, "$.a"),
    ("$.", "  ^", Reason::AfterDot, "$"),
    ("$.a.", "    ^", Reason::AfterDot, "$.a"),
    ("$..", "   ^", Reason::AfterDot, "$..*"),
    ("$[0", "   ^", Reason::Unclosed, "$[0]"),
    ("$['a", "    ^", Reason::Unclosed, "$['a']"),
    ("$['a]", "     ^", Reason::OpenQuote, "$['a']"),
    ("$[\"a].b", "       ^", Reason::OpenQuote, "$[\"a\"].b"),
    ("$[", "  ^", Reason::InBrackets, ""),
    ("$[?", "   ^", Reason::WantsTest, ""),
    (
        "$[?@.a == 'x]",
        "             ^",
        Reason::OpenQuote,
        "$[?@.a == 'x']",
    ),
    (
        "$[?(@.a == 1",
        "            ^",
        Reason::Unclosed,
        "$[?(@.a == 1)]",
    ),
    (
        "$[?(((((@.a == 1",
        "                ^",
        Reason::Unclosed,
        "$[?(((((@.a == 1)))))]",
    ),
    (
        "$[?(@[?(@[?(@.a == 1",
        "                    ^",
        Reason::Unclosed,
        "$[?(@[?(@[?(@.a == 1)])])]",
    ),
    (
        "$[?!(((((@[0]",
        "             ^",
        Reason::Unclosed,
        "$[?!(((((@[0])))))]",
    ),
    ("$[?@.a == ", "          ^", Reason::WantsValue, ""),
    ("$.a]", "   ^", Reason::StrayBracket, "$.a"),
    ("$.a;", "   ^", Reason::NextSegment, "$.a"),
    ("$[?@.a)]", "      ^", Reason::StrayParenthesis, "$[?@.a]"),
    (
        "$[?(@.a == foo]",
        "              ^",
        Reason::MissingParenthesis,
        "$[?(@.a == \"foo\")]",
    ),
];
