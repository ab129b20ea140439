//! Characters that the general categories hold.

use super::holds;

// A character that each code holds, and one that it does not; of a code of one letter the held one
// is not of the category that comes first.
const CATEGORIES: &[(&str, char, char)] = &[
    (r"\p{L}", 'ʰ', '1'),
    (r"\p{Ll}", 'a', 'A'),
    (r"\p{Lm}", 'ʰ', 'a'),
    (r"\p{Lo}", 'א', 'a'),
    (r"\p{Lt}", 'ǅ', 'A'),
    (r"\p{Lu}", 'A', 'a'),
    (r"\p{M}", '\u{488}', 'a'),
    (r"\p{Mc}", '\u{903}', '\u{300}'),
    (r"\p{Me}", '\u{20DD}', '\u{300}'),
    (r"\p{Mn}", '\u{300}', '\u{903}'),
    (r"\p{N}", '½', 'a'),
    (r"\p{Nd}", '5', '½'),
    (r"\p{Nl}", 'Ⅷ', '5'),
    (r"\p{No}", '½', '5'),
    (r"\p{P}", '«', '+'),
    (r"\p{Pc}", '_', '-'),
    (r"\p{Pd}", '-', '_'),
    (r"\p{Pe}", ')', '('),
    (r"\p{Pf}", '»', '«'),
    (r"\p{Pi}", '«', '»'),
    (r"\p{Po}", '!', '('),
    (r"\p{Ps}", '(', ')'),
    (r"\p{Z}", '\u{2028}', 'a'),
    (r"\p{Zl}", '\u{2028}', '\u{2029}'),
    (r"\p{Zp}", '\u{2029}', '\u{2028}'),
    (r"\p{Zs}", ' ', '\t'),
    (r"\p{S}", '€', '!'),
    (r"\p{Sc}", '$', '+'),
    (r"\p{Sk}", '^', '$'),
    (r"\p{Sm}", '+', '-'),
    (r"\p{So}", '©', '+'),
    (r"\p{C}", '\u{AD}', ' '),
    (r"\p{Cc}", '\n', ' '),
    (r"\p{Cf}", '\u{AD}', ' '),
    (r"\p{Cn}", '\u{FFFF}', 'a'),
    (r"\p{Co}", '\u{E000}', '\u{FFFF}'),
];

#[test]
fn holds_each_category(rt: HostRuntime) {
    for (text, held, other) in CATEGORIES {
        assert_eq!(rt; holds(rt.alloc(), text, *held), Some(true), "{text}");
        assert_eq!(rt; holds(rt.alloc(), text, *other), Some(false), "{text}");
    }
}
