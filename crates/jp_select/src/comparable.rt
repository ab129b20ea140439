//! The sides of comparisons (RFC 9535 section 2.3.5.1), and how two of them compare.

ghost use Rattle.std.specs.Prelude.{◌≡◌, ◌↔◌, ◌≤◌, ◌+◌, ◌-◌, ◌^◌, IfOk, IsTrue, MatchOption, OnErr, OnOk, Some, chars, false};
ghost use Rattle.std.specs.Prelude.{length, min, option_map};
ghost use Rattle.jp_decimal.specs.Number.{scaled_of};
ghost use Rattle.jp_document.specs.Location.{entries, step_of};
ghost use Rattle.jp_lent.specs.Lending.{bare, seen_value, step_with};
ghost use Rattle.jp_select.specs.Comparable.{comparable_of};
ghost use Rattle.jp_select.specs.Comparison.{equals, is_less, number_less, precedes, scaled};
ghost use Rattle.jp_select.specs.Steps.{Counts, IsSpent, Takes, steps_of_two};
ghost use Rattle.jp_select.specs.Private.Parts.{has_parts, same_key, same_part, same_parts};

use crate::steps::{Steps, Stopped};
use jp_decimal::{Decimal, Number, compare};
use jp_document::Step;
use jp_lent::{Lent, Seen};

/// A side of a comparison: Nothing, a value of its own, or one that is lent.
#[derive(Clone, Copy)]
pub enum Comparable<'a, V> {
    Nothing,
    Null,
    Bool(bool),
    Whole(i128),
    /// Any other number: the coefficient times ten to the exponent.
    Decimal { exponent: i32, coefficient: i128 },
    Text(&'a str),
    Lent(V),
}

impl<'a, V: Lent + 'a> Comparable<'a, V> {
    /// The side that has this value, or Nothing at None.
    pub fn of(value: Option<V>) -> Comparable<'a, V>
        ensures { comparable_of V.meaning result ≡ option_map V.meaning value }
    {
        match value {
            Some(value) => Comparable::Lent(value),
            None => Comparable::Nothing,
        }
    }

    /// What its value is, without what is in it; None of Nothing.
    pub fn seen(&self) -> Option<Seen<'a>>
        ensures { option_map seen_value result
            ≡ option_map bare (comparable_of V.meaning self.now) }
    {
        match self {
            Comparable::Nothing => None,
            Comparable::Null => Some(Seen::Null),
            Comparable::Bool(truth) => Some(Seen::Bool(*truth)),
            Comparable::Whole(number) => Some(Seen::Whole(*number)),
            Comparable::Decimal {
                exponent,
                coefficient,
            } => Some(Seen::Decimal {
                exponent: *exponent,
                coefficient: *coefficient,
            }),
            Comparable::Text(text) => Some(Seen::Text(text)),
            Comparable::Lent(value) => Some(value.seen()),
        }
    }

    /// Its value where that is a list or an object.
    fn parts(&self) -> Option<V>
        ensures { MatchOption result (has_parts (comparable_of V.meaning self.now) ≡ false)
            (λ v. comparable_of V.meaning self.now ≡ Some (V.meaning v)) }
    {
        let Comparable::Lent(value) = self else {
            return None;
        };
        match value.seen() {
            Seen::List | Seen::Members => Some(*value),
            Seen::Null | Seen::Bool(_) | Seen::Whole(_) | Seen::Decimal { .. } | Seen::Text(_) =>
                None,
        }
    }

    /// Whether `self == other`: Nothing equals only Nothing, and values are equal where they are
    /// the same (RFC 9535 section 2.3.5.2.2). Each pair of values that is compared is a step, and so
    /// is each byte of the shorter of two texts, names among them.
    #[cycle(equals)]
    pub fn equals(&self, other: &Comparable<'a, V>, steps: &mut Steps) -> Result<bool, Stopped>
        ensures value { IfOk result (λ answer. answer ≡ equals (comparable_of V.meaning self.now)
            (comparable_of V.meaning other.now)) }
        ensures same { IfOk result (λ answer. IsTrue answer
            ↔ (comparable_of V.meaning self.now ≡ comparable_of V.meaning other.now)) }
        ensures takes { Takes steps.old steps.new }
        ensures stopped { OnErr result (IsSpent steps.new) }
        ensures counts { OnOk result (Counts (steps_of_two (comparable_of V.meaning self.now)
            (comparable_of V.meaning other.now)) steps.old steps.new) }
    {
        let (left, right) = (self.seen(), other.seen());
        steps.take_many(steps_to_compare(left, right))?;
        if !looks_same(left, right) {
            return Ok(false);
        }
        let Some(left) = self.parts() else {
            return Ok(true);
        };
        let Some(right) = other.parts() else {
            return Ok(true);
        };
        same_parts(left, right, steps)
    }

    /// Whether `self < other`: two numbers in order, or two texts in the order of their scalar
    /// values; else false (RFC 9535 section 2.3.5.2.2). It is a step, and so is each byte of the
    /// shorter of two texts.
    pub fn is_less(&self, other: &Comparable<'a, V>, steps: &mut Steps) -> Result<bool, Stopped>
        ensures value { IfOk result (λ answer. answer ≡ is_less (comparable_of V.meaning self.now)
            (comparable_of V.meaning other.now)) }
        ensures takes { Takes steps.old steps.new }
        ensures stopped { OnErr result (IsSpent steps.new) }
        ensures counts { OnOk result (Counts (steps_of_two (comparable_of V.meaning self.now)
            (comparable_of V.meaning other.now)) steps.old steps.new) }
    {
        let (left, right) = (self.seen(), other.seen());
        steps.take_many(steps_to_compare(left, right))?;
        Ok(looks_less(left, right))
    }
}

/// The steps of comparing two sides, but for what is in them: one, and one for each byte of the
/// shorter of two texts.
fn steps_to_compare(left: Option<Seen>, right: Option<Seen>) -> u64
    ensures { result ≡ steps_of_two (option_map seen_value left.entry) (option_map seen_value right.entry) }
{
    match (left, right) {
        (Some(Seen::Text(left)), Some(Seen::Text(right))) => shorter(left, right).saturating_add(1),
        _ => 1,
    }
}

/// How many bytes the shorter of two texts has.
fn shorter(left: &str, right: &str) -> u64
    ensures { result ≡ min (length left.now) (length right.now) }
{
    left.len().min(right.len()) as u64
}

/// Whether two sides are the same but for what is in them.
fn looks_same(left: Option<Seen>, right: Option<Seen>) -> bool
    ensures { result ≡ equals (option_map seen_value left.entry) (option_map seen_value right.entry) }
{
    match (left, right) {
        (None, None) => true,
        (Some(Seen::Null), Some(Seen::Null)) => true,
        (Some(Seen::Bool(left)), Some(Seen::Bool(right))) => left == right,
        (Some(Seen::Whole(left)), Some(Seen::Whole(right))) => left == right,
        (
            Some(
                Seen::Decimal {
                    exponent,
                    coefficient,
                },
            ),
            Some(
                Seen::Decimal {
                    exponent: power,
                    coefficient: digits,
                },
            ),
        ) => coefficient == digits && exponent == power,
        (Some(Seen::Text(left)), Some(Seen::Text(right))) => left == right,
        (Some(Seen::List), Some(Seen::List)) => true,
        (Some(Seen::Members), Some(Seen::Members)) => true,
        _ => false,
    }
}

/// Whether a side is below another; what is in them does not count.
fn looks_less(left: Option<Seen>, right: Option<Seen>) -> bool
    ensures { result ≡ is_less (option_map seen_value left.entry) (option_map seen_value right.entry) }
{
    match (left, right) {
        (Some(Seen::Whole(left)), Some(Seen::Whole(right))) => left < right,
        (Some(Seen::Text(left)), Some(Seen::Text(right))) => precedes(left, right),
        (
            Some(Seen::Whole(left)),
            Some(
                Seen::Decimal {
                    exponent,
                    coefficient,
                },
            ),
        ) => is_below(Number::Whole(left), decimal(coefficient, exponent)),
        (
            Some(
                Seen::Decimal {
                    exponent,
                    coefficient,
                },
            ),
            Some(Seen::Whole(right)),
        ) => is_below(decimal(coefficient, exponent), Number::Whole(right)),
        (
            Some(
                Seen::Decimal {
                    exponent,
                    coefficient,
                },
            ),
            Some(
                Seen::Decimal {
                    exponent: power,
                    coefficient: digits,
                },
            ),
        ) => is_below(decimal(coefficient, exponent), decimal(digits, power)),
        _ => false,
    }
}

/// The number that a coefficient and an exponent write.
fn decimal(coefficient: i128, exponent: i32) -> Number
    ensures { scaled_of result ≡ scaled coefficient exponent }
{
    Number::Decimal(Decimal {
        coefficient,
        exponent,
    })
}

/// Whether a number is below another, by their values and exactly.
#[inline(never)]
fn is_below(left: Number, right: Number) -> bool
    ensures { result ≡ number_less (scaled_of left) (scaled_of right) }
{
    compare(left, right).is_lt()
}

/// Whether a text precedes another in the order of scalar values, which is that of the bytes.
fn precedes(left: &str, right: &str) -> bool
    ensures { result ≡ precedes (chars left.now) (chars right.now) }
{
    left < right
}

/// Whether two values have as many parts, each the same as the other's.
#[cycle(equals)]
fn same_parts<'a, V: Lent + 'a>(left: V, right: V, steps: &mut Steps) -> Result<bool, Stopped>
    ensures value { IfOk result
        (λ answer. answer ≡ same_parts (entries (V.meaning left)) (entries (V.meaning right))) }
    ensures takes { Takes steps.old steps.new }
    ensures stopped { OnErr result (IsSpent steps.new) }
{
    if left.count() != right.count() {
        return Ok(false);
    }
    let mut position = 0;
    while let Some(part) = left.child(position) {
        let Some(other) = right.child(position) else {
            return Ok(false);
        };
        if !same_part(part, other, steps)? {
            return Ok(false);
        }
        position += 1;
    }
    Ok(true)
}

/// Whether two parts have one step and the same value.
#[cycle(equals)]
fn same_part<'a, V: Lent + 'a>(
    left: (Step<'a>, V),
    right: (Step<'a>, V),
    steps: &mut Steps,
) -> Result<bool, Stopped>
    ensures value { IfOk result (λ answer. answer
        ≡ same_part (step_with V.meaning left.entry) (step_with V.meaning right.entry)) }
    ensures takes { Takes steps.old steps.new }
    ensures stopped { OnErr result (IsSpent steps.new) }
{
    steps.take_many(steps_of_names(left.0, right.0))?;
    if !same_step(left.0, right.0) {
        return Ok(false);
    }
    Comparable::Lent(left.1).equals(&Comparable::Lent(right.1), steps)
}

/// The steps of comparing the names of two members: one for each byte of the shorter.
fn steps_of_names(left: Step, right: Step) -> u64 {
    match (left, right) {
        (Step::Name(left), Step::Name(right)) => shorter(left, right),
        _ => 0,
    }
}

/// Whether two steps are equal names or equal indexes; a name and an index never are.
fn same_step(left: Step, right: Step) -> bool
    ensures { result ≡ same_key (step_of left.entry) (step_of right.entry) }
{
    match (left, right) {
        (Step::Name(left), Step::Name(right)) => left == right,
        (Step::Index(left), Step::Index(right)) => left == right,
        _ => false,
    }
}
