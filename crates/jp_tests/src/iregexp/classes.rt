//! Characters that classes hold.

use super::holds;

/// A class, a character that it holds, and one that it does not.
const CLASSES: &[(&str, char, char)] = &[
    (r"\P{Lu}", 'a', 'A'),
    (r"[^\p{L}]", '5', 'é'),
    (r"[^\P{L}]", 'é', '5'),
    ("[a-c-]", 'c', 'd'),
    (".", '\u{85}', '\n'),
    (".", 'é', '\r'),
    ("^", '^', 'a'),
];

#[test]
fn holds_by_class(rt: HostRuntime) {
    for (text, held, other) in CLASSES {
        assert_eq!(rt; holds(rt.alloc(), text, *held), Some(true), "{text}");
        assert_eq!(rt; holds(rt.alloc(), text, *other), Some(false), "{text}");
    }
}
