//! Queries of several lines, and with characters that are not shown as they are, in each profile.

use super::{Row, assert_explained};
use jp_check::Profile::{self, Extended, Standard};
use jp_explain::Reason;
use std::test::Fail;

/// A query, the profile in which it is refused, and what is told of it, with the line that is shown in place of the
/// query.
const TEXTS: &[(&str, Profile, Row)] = &[
    (
        "$.a[\n  ?@.b = 1\n]",
        Standard,
        (
            "  ?@.b = 1",
            "        ^",
            Reason::Equals,
            "$['a'][?@['b']==1]",
        ),
    ),
    (
        "$.a\n",
        Standard,
        ("$.a\\n", "     ^", Reason::BlankLast, "$.a"),
    ),
    (
        "$\n.a\t",
        Standard,
        (".a\\t", "    ^", Reason::BlankLast, "$['a']"),
    ),
    (
        "\u{feff}$.a",
        Standard,
        ("\\ufeff$.a", "^", Reason::BlankFirst, "$.a"),
    ),
    (
        "$['\u{1b}[31m']",
        Standard,
        ("$['\\u001b[31m']", "   ^", Reason::ControlCharacter, ""),
    ),
    (
        "$['\u{1f600}\u{202e}\u{9b}'].\u{e9}x = 1",
        Standard,
        (
            "$['\u{1f600}\\u202e\\u009b'].\u{e9}x = 1",
            "                       ^",
            Reason::OutsideFilter,
            "",
        ),
    ),
    (
        "$[?@.a ==\u{a0}1]",
        Standard,
        (
            "$[?@.a ==\\u00a01]",
            "         ^",
            Reason::Unseen,
            "$[?@.a == 1]",
        ),
    ),
    (
        "$[?@['\u{a0}x'] = 1\t]",
        Standard,
        (
            "$[?@['\\u00a0x'] = 1\\t]",
            "                 ^",
            Reason::Equals,
            "$[?@['\\u00a0x']==1]",
        ),
    ),
    (
        "$[?count(distinct(@.a)) = 1]",
        Extended,
        (
            "$[?count(distinct(@.a)) = 1]",
            "                         ^",
            Reason::Equals,
            "$[?count(distinct(@.a)) == 1]",
        ),
    ),
    (
        "$[?count(distinct(@.a)) = 1]",
        Standard,
        (
            "$[?count(distinct(@.a)) = 1]",
            "                         ^",
            Reason::Equals,
            "",
        ),
    ),
];

#[test]
fn lines_and_hidden_characters_are_shown(rt: HostRuntime) -> Result<(), Fail> {
    for (query, profile, row) in TEXTS {
        assert_explained(&rt, rt.alloc(), (query, *profile), *row)?;
    }
    Ok(())
}
