//! Canonical texts, by what stands in them.

use crate::rows::Answer::Canonical;
use crate::rows::{Row, gives_each};
use std::test::Fail;

/// Segments, and selectors but for filters.
const SEGMENTS: &[Row] = &[
    ("", "$", Canonical("$")),
    (
        "",
        r#"$[ 'a' , "b" ]['c']..d"#,
        Canonical("$['a','b']['c']..['d']"),
    ),
    ("", r#"$..["\u0061"]"#, Canonical("$..['a']")),
    (
        "",
        r#"$["\/\u0022\u000B", '\u001F\'\\\b\t\n\f\r']"#,
        Canonical(r#"$['/"\u000b','\u001f\'\\\b\t\n\f\r']"#),
    ),
    ("", r#"$["\/\u0022\u000B"]"#, Canonical(r#"$['/"\u000b']"#)),
    ("", r#"$["\uD83D\uDE00"]"#, Canonical("$['😀']")),
    (
        "",
        r#"$["\b\f\n\r\t\/\\\""]"#,
        Canonical(r#"$['\b\f\n\r\t/\\"']"#),
    ),
    (
        "",
        r"$['\b\f\n\r\t\/\\\'']",
        Canonical(r"$['\b\f\n\r\t/\\\'']"),
    ),
    (
        "",
        r#"$["\u0041\u00e9\u00E9\uFfFd"]"#,
        Canonical("$['Aéé\u{fffd}']"),
    ),
    (
        "",
        r"$['\ud7ff\uE000\u0000']",
        Canonical("$['\u{d7ff}\u{e000}\\u0000']"),
    ),
    (
        "",
        r"$['x\ud800\udc00\uDBFF\uDFFFx']",
        Canonical("$['x\u{10000}\u{10ffff}x']"),
    ),
    ("", r#"$["'"]"#, Canonical(r"$['\'']")),
    (
        "",
        r#"$['"\u007f\u0080']"#,
        Canonical("$['\"\u{7f}\u{80}']"),
    ),
    ("", "$.*..*[ -7 ]", Canonical("$[*]..[*][-7]")),
    ("", "$[1 : 2 : 3]", Canonical("$[1:2:3]")),
    ("", "$[1:2:]", Canonical("$[1:2]")),
    ("", "$[::1]", Canonical("$[:]")),
    ("", "$[::-1]", Canonical("$[::-1]")),
    ("", "$[-3 : ]", Canonical("$[-3:]")),
    ("", "$[5:1:-2]", Canonical("$[5:1:-2]")),
    ("", "$[::]", Canonical("$[:]")),
    ("", "$[1: ]", Canonical("$[1:]")),
    ("", "$[ 1 : : ]", Canonical("$[1:]")),
    ("", "$[:2 :\t0 ]", Canonical("$[:2:0]")),
];

/// Filters.
const FILTERS: &[Row] = &[
    ("", "$[?!(@.a)]", Canonical("$[?!@['a']]")),
    ("", "$[?!(!@.a)]", Canonical("$[?!(!@['a'])]")),
    ("", "$[?!(@.a==1)]", Canonical("$[?!(@['a']==1)]")),
    ("", "$[?(((@.a)))]", Canonical("$[?@['a']]")),
    (
        "",
        "$[?@.a==1||@.b&&!(@.c||@.d)]",
        Canonical("$[?@['a']==1||@['b']&&!(@['c']||@['d'])]"),
    ),
    (
        "",
        r#"$ .a [ "b" , 1:2:1 ]..* [?( !(@.x) ) && (@.y==-0||@['z']>1)]"#,
        Canonical("$['a']['b',1:2]..[*][?!@['x']&&(@['y']==0||@['z']>1)]"),
    ),
    (
        "",
        "$[?(@.a||@.b)||@.c]",
        Canonical("$[?(@['a']||@['b'])||@['c']]"),
    ),
    (
        "",
        "$[?@.a||@.b||@.c]",
        Canonical("$[?@['a']||@['b']||@['c']]"),
    ),
    ("", "$[?@.a==-0]", Canonical("$[?@['a']==0]")),
    (
        "",
        "$[?(@.a&&@.b)&&@.c]",
        Canonical("$[?(@['a']&&@['b'])&&@['c']]"),
    ),
    (
        "",
        "$[?@.a||(@.b&&@.c)]",
        Canonical("$[?@['a']||@['b']&&@['c']]"),
    ),
    (
        "",
        r#"$[?"it's" != $ .a, ?true <= null, ?@ [0] >= false]"#,
        Canonical(r"$[?'it\'s'!=$['a'],?true<=null,?@[0]>=false]"),
    ),
    (
        "",
        "$[?@<18446744073709551615,?-9223372036854775808<@]",
        Canonical("$[?@<18446744073709551615,?-9223372036854775808<@]"),
    ),
    (
        "",
        "$[?@[?!(@.a&&$.b)]]",
        Canonical("$[?@[?!(@['a']&&$['b'])]]"),
    ),
    (
        "",
        "$.a[?@.b == 'kilo']",
        Canonical("$['a'][?@['b']=='kilo']"),
    ),
    (
        "",
        "$.a[?(@.b == 'kilo')]",
        Canonical("$['a'][?@['b']=='kilo']"),
    ),
    ("", "$[?!@.a||@.b]", Canonical("$[?!@['a']||@['b']]")),
    ("", "$[?(!@.a)||@.b]", Canonical("$[?!@['a']||@['b']]")),
    ("", "$[?!(@.a||@.b)]", Canonical("$[?!(@['a']||@['b'])]")),
    (
        "",
        "$[?@.a&&@.b||@.c]",
        Canonical("$[?@['a']&&@['b']||@['c']]"),
    ),
    (
        "",
        "$[? ( @.a && @.b ) || @.c]",
        Canonical("$[?@['a']&&@['b']||@['c']]"),
    ),
    (
        "",
        "$[?@.a&&(@.b||@.c)]",
        Canonical("$[?@['a']&&(@['b']||@['c'])]"),
    ),
    ("", r#"$[?@.a<="b"]"#, Canonical("$[?@['a']<='b']")),
    (
        "",
        "$[?(@.a==null)||false!=@.b]",
        Canonical("$[?@['a']==null||false!=@['b']]"),
    ),
];

/// Function expressions.
const FUNCTIONS: &[Row] = &[
    (
        "",
        r#"$[?match( @.b , "[jk]" )]"#,
        Canonical("$[?match(@['b'],'[jk]')]"),
    ),
    (
        "",
        "$[?!(search(@.a,'b'))]",
        Canonical("$[?!search(@['a'],'b')]"),
    ),
    (
        "",
        "$[? length( @.authors ) >= 5]",
        Canonical("$[?length(@['authors'])>=5]"),
    ),
    (
        "",
        "$[?count(@.*.author) >= 5]",
        Canonical("$[?count(@[*]['author'])>=5]"),
    ),
    (
        "",
        r#"$[?value(@..color) == "red"]"#,
        Canonical("$[?value(@..['color'])=='red']"),
    ),
    (
        "",
        "$[?1<length( value($..[?(@.a)] ))]",
        Canonical("$[?1<length(value($..[?@['a']]))]"),
    ),
];

#[test]
fn canonical_texts(rt: HostRuntime) -> Result<(), Fail> {
    gives_each(&rt, rt.alloc(), &[SEGMENTS, FILTERS, FUNCTIONS])
}
