//! Comparisons of values and of Nothing (RFC 9535 section 2.3.5.2.2).

ghost use Rattle.std.specs.Prelude.{◌≡◌, ◌↔◌, IfOk, IfSome, IsTrue, OnErr, Some, option_map};
ghost use Rattle.jp_document.specs.Value.{whole};
ghost use Rattle.jp_select.specs.Comparable.{comparable_of, side_of};
ghost use Rattle.jp_select.specs.Steps.{IsSpent, Takes};
ghost use Rattle.jp_select.specs.Comparison.{at_most, compared, equals, is_less};

use crate::comparable::Comparable;
use crate::steps::{Steps, Stopped};
use jp_document::Json;
use jp_lent::{Lent, Seen};
use jp_tree::Op;

/// Whether `left == right`, where None is Nothing: Nothing equals only Nothing, and values are
/// equal where they are the same (RFC 9535 section 2.3.5.2.2). Members are compared in order: their
/// names rise, as in every document.
pub fn equal(left: Option<&Json>, right: Option<&Json>) -> bool
    ensures value { result ≡ equals (side_of left.entry) (side_of right.entry) }
    ensures same { IsTrue result ↔ (side_of left.entry ≡ side_of right.entry) }
{
    match Comparable::of(left).equals(&Comparable::of(right), &mut Steps::unlimited()) {
        Ok(answer) => answer,
        Err(Stopped) => false,
    }
}

/// Whether `left < right`, where None is Nothing: two numbers in order, or two texts in the order
/// of their scalar values; else false (RFC 9535 section 2.3.5.2.2).
pub fn less(left: Option<&Json>, right: Option<&Json>) -> bool
    ensures { result ≡ is_less (side_of left.entry) (side_of right.entry) }
{
    match Comparable::of(left).is_less(&Comparable::of(right), &mut Steps::unlimited()) {
        Ok(answer) => answer,
        Err(Stopped) => false,
    }
}

/// Whether the comparison `left op right` is true (RFC 9535 section 2.3.5.2.2). The members of both
/// stand in the order of their names, as in every document.
pub fn compare<'a, V: Lent + 'a>(
    op: Op,
    left: Comparable<'a, V>,
    right: Comparable<'a, V>,
    steps: &mut Steps,
) -> Result<bool, Stopped>
    ensures value { IfOk result (λ answer. answer ≡ compared op (comparable_of V.meaning left.entry)
        (comparable_of V.meaning right.entry)) }
    ensures takes { Takes steps.old steps.new }
    ensures stopped { OnErr result (IsSpent steps.new) }
{
    match op {
        Op::Equal => left.equals(&right, steps),
        Op::Unequal => Ok(!left.equals(&right, steps)?),
        Op::Less => left.is_less(&right, steps),
        Op::LessEqual => at_most(&left, &right, steps),
        Op::Greater => right.is_less(&left, steps),
        Op::GreaterEqual => at_most(&right, &left, steps),
    }
}

/// Whether `left <= right`.
fn at_most<'a, V: Lent + 'a>(
    left: &Comparable<'a, V>,
    right: &Comparable<'a, V>,
    steps: &mut Steps,
) -> Result<bool, Stopped>
    ensures value { IfOk result (λ answer. answer ≡ at_most (comparable_of V.meaning left.now)
        (comparable_of V.meaning right.now)) }
    ensures takes { Takes steps.old steps.new }
    ensures stopped { OnErr result (IsSpent steps.new) }
{
    if left.is_less(right, steps)? {
        return Ok(true);
    }
    left.equals(right, steps)
}

/// Whether the comparison `left op right` is true of two values that are lent, where None is Nothing. It
/// answers as `compare` does and takes as many steps. Two whole numbers, as most such values are, do not
/// go to memory for it.
#[inline(always)]
pub fn compare_lent<'a, V: Lent + 'a>(
    op: Op,
    left: Option<V>,
    right: Option<V>,
    steps: &mut Steps,
) -> Result<bool, Stopped>
    ensures value { IfOk result (λ answer. answer ≡ compared op (option_map V.meaning left)
        (option_map V.meaning right)) }
    ensures takes { Takes steps.old steps.new }
    ensures stopped { OnErr result (IsSpent steps.new) }
{
    match (whole_of(left), whole_of(right)) {
        (Some(left), Some(right)) => compare_whole(op, left, right, steps),
        _ => compare_any(op, left, right, steps),
    }
}

/// `compare_lent` of values of any kind. It stands apart, so that what is inlined stays small.
#[inline(never)]
fn compare_any<'a, V: Lent + 'a>(
    op: Op,
    left: Option<V>,
    right: Option<V>,
    steps: &mut Steps,
) -> Result<bool, Stopped>
    ensures value { IfOk result (λ answer. answer ≡ compared op (option_map V.meaning left)
        (option_map V.meaning right)) }
    ensures takes { Takes steps.old steps.new }
    ensures stopped { OnErr result (IsSpent steps.new) }
{
    compare(op, Comparable::of(left), Comparable::of(right), steps)
}

/// Whether the comparison `left op right` is true of a value that is lent, where None is Nothing, and a
/// whole number. It answers as `compare` does and takes as many steps. A whole number, as most such values
/// are, does not go to memory for it.
#[inline(always)]
pub fn compare_to_whole<'a, V: Lent + 'a>(
    op: Op,
    left: Option<V>,
    right: i128,
    steps: &mut Steps,
) -> Result<bool, Stopped>
    ensures value { IfOk result (λ answer. answer ≡ compared op (option_map V.meaning left)
        (Some (whole right))) }
    ensures takes { Takes steps.old steps.new }
    ensures stopped { OnErr result (IsSpent steps.new) }
{
    match whole_of(left) {
        Some(left) => compare_whole(op, left, right, steps),
        None => compare_any_to_whole(op, left, right, steps),
    }
}

/// `compare_to_whole` of values of any kind. It stands apart, so that what is inlined stays small.
#[inline(never)]
fn compare_any_to_whole<'a, V: Lent + 'a>(
    op: Op,
    left: Option<V>,
    right: i128,
    steps: &mut Steps,
) -> Result<bool, Stopped>
    ensures value { IfOk result (λ answer. answer ≡ compared op (option_map V.meaning left)
        (Some (whole right))) }
    ensures takes { Takes steps.old steps.new }
    ensures stopped { OnErr result (IsSpent steps.new) }
{
    compare(op, Comparable::of(left), Comparable::Whole(right), steps)
}

/// The number that a value is, None of others and of Nothing.
#[inline(always)]
fn whole_of<'a, V: Lent + 'a>(value: Option<V>) -> Option<i128>
    ensures { IfSome result (λ number. option_map V.meaning value ≡ Some (whole number)) }
{
    match value?.seen() {
        Seen::Whole(number) => Some(number),
        Seen::Null
        | Seen::Bool(_)
        | Seen::Decimal { .. }
        | Seen::Text(_)
        | Seen::List
        | Seen::Members => None,
    }
}

/// Whether a comparison of two whole numbers is true. It is a step, and where `<=` or `>=` asks whether
/// they are the same, one more.
#[inline(always)]
fn compare_whole(op: Op, left: i128, right: i128, steps: &mut Steps) -> Result<bool, Stopped>
    ensures value { IfOk result (λ answer. answer
        ≡ compared op (Some (whole left)) (Some (whole right))) }
    ensures takes { Takes steps.old steps.new }
    ensures stopped { OnErr result (IsSpent steps.new) }
{
    steps.take()?;
    match op {
        Op::Equal => Ok(left == right),
        Op::Unequal => Ok(left != right),
        Op::Less => Ok(left < right),
        Op::LessEqual => whole_at_most(left, right, steps),
        Op::Greater => Ok(right < left),
        Op::GreaterEqual => whole_at_most(right, left, steps),
    }
}

/// Whether `left <= right`, behind the step for `left < right`.
fn whole_at_most(left: i128, right: i128, steps: &mut Steps) -> Result<bool, Stopped>
    ensures value { IfOk result (λ answer. answer
        ≡ at_most (Some (whole left)) (Some (whole right))) }
    ensures takes { Takes steps.old steps.new }
    ensures stopped { OnErr result (IsSpent steps.new) }
{
    if left < right {
        return Ok(true);
    }
    steps.take()?;
    Ok(left == right)
}
