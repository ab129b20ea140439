//! Patterns of one class.

ghost use Rattle.std.specs.Prelude.{IfSome, map};
ghost use Rattle.jp_iregexp.specs.Tree.{tree, branches, pieces, repeat};
ghost use Rattle.jp_match.specs.Private.OneClass.{IsOneClass};
ghost use Rattle.jp_match.specs.Private.Plain.{unrolled};

use jp_iregexp::{CharClass, Pattern};

/// The class that a pattern has as its one position, and whether it may be left out.
#[derive(Clone, Copy)]
pub(crate) struct OneClass<'p> {
    pub(crate) class: &'p CharClass,
    pub(crate) is_optional: bool,
}

/// The class of a pattern that is one class, in groups of its own or not, and may be optional;
/// None for any other pattern.
#[cycle(one_class)]
pub(crate) fn one_class(pattern: &Pattern) -> Option<OneClass<'_>>
    ensures { IfSome result (λ one. IsOneClass (unrolled (tree pattern.now)) one.class.now.negated
        one.class.now.elements.items one.is_optional) }
{
    match pattern {
        Pattern::Either(branches) => only_class(branches),
        Pattern::Sequence(pieces) => only_class(pieces),
        Pattern::Repeat { inner, least, most } => optional_class(inner, *least, *most),
        Pattern::Class(class) => Some(OneClass {
            class,
            is_optional: false,
        }),
    }
}

/// The class that the only one of branches, or of pieces, is.
#[cycle(one_class)]
fn only_class(parts: &[Pattern]) -> Option<OneClass<'_>>
    ensures branch { IfSome result (λ one. IsOneClass (unrolled (branches (map tree parts.now)))
        one.class.now.negated one.class.now.elements.items one.is_optional) }
    ensures piece { IfSome result (λ one. IsOneClass (unrolled (pieces (map tree parts.now)))
        one.class.now.negated one.class.now.elements.items one.is_optional) }
{
    let [only] = parts else {
        return None;
    };
    one_class(only)
}

/// The class of a repeat of no word or one.
#[cycle(one_class)]
fn optional_class(inner: &Pattern, least: u32, most: Option<u32>) -> Option<OneClass<'_>>
    ensures { IfSome result (λ one. IsOneClass (unrolled (repeat (tree inner.now) least most))
        one.class.now.negated one.class.now.elements.items one.is_optional) }
{
    let most = most?;
    if least != 0 || most != 1 {
        return None;
    }
    let one = one_class(inner)?;
    Some(OneClass {
        class: one.class,
        is_optional: true,
    })
}
