//! The lengths of values (RFC 9535 section 2.4.4).

ghost use Rattle.std.specs.Prelude.{◌≡◌, IfOk, OnErr, OnOk, Some, length, option_map};
ghost use Rattle.std.specs.Str.{chars};
ghost use Rattle.jp_select.specs.Comparable.{comparable_of};
ghost use Rattle.jp_lent.specs.Lending.{seen_value};
ghost use Rattle.jp_select.specs.Steps.{Counts, IsSpent, Takes};
ghost use Rattle.jp_evaluate.specs.Functions.{length_of, size_of};
ghost use Rattle.jp_evaluate.specs.Stopping.{text_bytes};

use jp_lent::{Lent, Seen};
use jp_select::{Comparable, Steps, Stopped};

/// The length of a value, Nothing where it has none. Each byte of a text is a step.
pub(crate) fn length_of<'a, V: Lent + 'a>(
    value: Comparable<'a, V>,
    steps: &mut Steps,
) -> Result<Comparable<'a, V>, Stopped>
    ensures value { IfOk result (λ length. comparable_of V.meaning length
        ≡ length_of (comparable_of V.meaning value.entry)) }
    ensures takes { Takes steps.old steps.new }
    ensures stopped { OnErr result (IsSpent steps.new) }
    ensures counts { OnOk result (Counts (text_bytes (comparable_of V.meaning value.entry)) steps.old
        steps.new) }
{
    steps.take_many(text_bytes(value.seen()))?;
    match size_of(value) {
        Some(size) => Ok(Comparable::Whole(size as i128)),
        None => Ok(Comparable::Nothing),
    }
}

/// How many bytes a text has; other values have none.
fn text_bytes(seen: Option<Seen<'_>>) -> u64
    ensures { result ≡ text_bytes (option_map seen_value seen.entry) }
{
    match seen {
        Some(Seen::Text(text)) => text.len() as u64,
        _ => 0,
    }
}

/// How many scalar values a text has, items a list, or members an object.
fn size_of<'a, V: Lent + 'a>(value: Comparable<'a, V>) -> Option<usize>
    ensures { result ≡ size_of (comparable_of V.meaning value.entry) }
{
    match value {
        Comparable::Text(text) => Some(char_count(text)),
        Comparable::Lent(value) => lent_size(value),
        Comparable::Nothing
        | Comparable::Null
        | Comparable::Bool(_)
        | Comparable::Whole(_)
        | Comparable::Decimal { .. } => None,
    }
}

/// How many characters, items or members a value that is lent has; None for all other values.
fn lent_size<'a, V: Lent + 'a>(value: V) -> Option<usize>
    ensures { result ≡ size_of (Some (V.meaning value)) }
{
    match value.seen() {
        Seen::Text(text) => Some(char_count(text)),
        Seen::List | Seen::Members => Some(value.count()),
        Seen::Null | Seen::Bool(_) | Seen::Whole(_) | Seen::Decimal { .. } => None,
    }
}

/// How many characters (Unicode scalar values) the text has.
fn char_count(text: &str) -> usize
    ensures { result ≡ length (chars text.now) }
{
    text.chars().count()
}
