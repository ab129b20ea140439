//! Indexes and slices.

use super::Row;
use jp_explain::Reason;

pub const ROWS: &[Row] = &[
    ("$[01]", "   ^", Reason::LeadingZero, "$[1]"),
    ("$[0x8]", "   ^", Reason::BaseTen, ""),
    ("$[0;1]", "   ^", Reason::Semicolon, ""),
    ("$[-]", "   ^", Reason::LoneMinus, ""),
    ("$[.5]", "  ^", Reason::DotNumber, ""),
    ("$[+1]", "  ^", Reason::Plus, "$[1]"),
    ("$[-0]", "   ^", Reason::MinusZero, "$[0]"),
    ("$[1.0]", "   ^", Reason::IndexForm, "$[1]"),
    ("$[1.5]", "   ^", Reason::IndexForm, ""),
    ("$[1e3]", "   ^", Reason::IndexForm, ""),
    ("$[0..2]", "   ^", Reason::IndexForm, ""),
    ("$[0-2]", "   ^", Reason::IndexForm, ""),
    ("$[(@.length-1)]", "  ^", Reason::LastItem, "$[-1]"),
    ("$[(@.length-2)]", "  ^", Reason::LastItem, "$[-2]"),
    (
        "$.a[(@.length -  10)].b",
        "    ^",
        Reason::LastItem,
        "$.a[-10].b",
    ),
    ("$[0, (@.length-3)]", "     ^", Reason::LastItem, "$[0, -3]"),
    (
        "$[(@.length-12345)][7]",
        "  ^",
        Reason::LastItem,
        "$[-12345][7]",
    ),
    ("$[(@.length-n)]", "  ^", Reason::LastItem, ""),
    ("$.a[last()].b", "    ^", Reason::LastItem, "$.a[-1].b"),
    ("$[9007199254740992]", "  ^", Reason::IndexRange, ""),
];
