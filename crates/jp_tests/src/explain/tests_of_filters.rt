//! Tests and functions in filters.

use super::Row;
use jp_explain::Reason;

pub const ROWS: &[Row] = &[
    ("$[?@.a & @.b]", "        ^", Reason::And, "$[?@.a && @.b]"),
    ("$[?@.a | @.b]", "        ^", Reason::Or, "$[?@.a || @.b]"),
    (
        "$[?(@.a)and(@.b)]",
        "        ^",
        Reason::And,
        "$[?(@.a)&&(@.b)]",
    ),
    (
        "$[?@.a==1 OR @.b==2]",
        "          ^",
        Reason::Or,
        "$[?@.a==1 || @.b==2]",
    ),
    ("$[?not @.a]", "      ^", Reason::Not, "$[?!@.a]"),
    (
        "$[?not(@.a == 1)]",
        "   ^",
        Reason::NotCall,
        "$[?!(@.a == 1)]",
    ),
    ("$[?true]", "       ^", Reason::LoneLiteral, ""),
    (
        "$[?price < 10]",
        "        ^",
        Reason::MissingAt,
        "$[?@.price < 10]",
    ),
    (
        "$[?firstName == \"x\"]",
        "        ^",
        Reason::MissingAt,
        "$[?@.firstName == \"x\"]",
    ),
    (
        "$[?this.price > 1]",
        "       ^",
        Reason::MissingAt,
        "$[?@.price > 1]",
    ),
    ("$[?@a == 1]", "    ^", Reason::MissingDot, "$[?@.a == 1]"),
    (
        "$[(@.a > 1)]",
        "  ^",
        Reason::MissingQuestionMark,
        "$[?(@.a > 1)]",
    ),
    (
        "$[@.a == 1]",
        "  ^",
        Reason::MissingQuestionMark,
        "$[?@.a == 1]",
    ),
    (
        "$[?(@.a == 1 && @.b]",
        "                   ^",
        Reason::MissingParenthesis,
        "$[?(@.a == 1 && @.b)]",
    ),
    (
        "$[?@.a == 1 && ]",
        "               ^",
        Reason::WantsTest,
        "",
    ),
    (
        "$[?@.a.length() > 3]",
        "             ^",
        Reason::Call,
        "$[?length(@.a) > 3]",
    ),
    (
        "$[?@.name.match(/x/)]",
        "               ^",
        Reason::Call,
        "",
    ),
    (
        "$[?match(@.a, /x/)]",
        "              ^",
        Reason::Pattern,
        "$[?match(@.a, \"x\")]",
    ),
    ("$[?distinct(@.a)]", "   ^", Reason::Distinct, ""),
    ("$[?@.a xor @.b]", "       ^", Reason::Operator, ""),
    (
        "$[?len(@.a)>1]",
        "   ^",
        Reason::LengthName,
        "$[?length(@.a)>1]",
    ),
    ("$[?exists(@.a)]", "   ^", Reason::Exists, "$[?(@.a)]"),
    ("$[?foo(@.a)]", "   ^", Reason::UnknownFunction, ""),
    (
        "$[?length(@.*)>1]",
        "          ^",
        Reason::CountNodes,
        "$[?count(@.*)>1]",
    ),
    ("$[?length(@.a)]", "   ^", Reason::ValueAlone, ""),
    (
        "$[?match(@.a,\"b\")==true]",
        "   ^",
        Reason::MatchCompared,
        "$[?match(@.a,\"b\")]",
    ),
    (
        "$[?(match(@.a,\"b\") == false)]",
        "    ^",
        Reason::MatchCompared,
        "$[?(!match(@.a,\"b\"))]",
    ),
    ("$[?count(1)>1]", "         ^", Reason::IllTyped, ""),
    ("$[?count(@.a,@.b)>1]", "   ^", Reason::ArgumentCount, ""),
    (
        "$.store.book[?(@.price < 10 and category = \"fiction\")].title",
        "                            ^",
        Reason::And,
        "$.store.book[?(@.price < 10 && @.category == \"fiction\")].title",
    ),
    (
        "$[?.price < 10]",
        "   ^",
        Reason::MissingAt,
        "$[?@.price < 10]",
    ),
];
