//! A step of a scan over one character.

ghost use Rattle.std.specs.Prelude.{◌≡◌, ◌<◌, min, map};
ghost use Rattle.jp_iregexp.specs.Tree.{tree, branches, pieces, repeat};
ghost use Rattle.jp_match.specs.Private.Plain.{unrolled, class as plain_class, plus, between};
ghost use Rattle.jp_match.specs.Private.Plain.{at_least};
ghost use Rattle.jp_match.specs.Private.Marks.{size};
ghost use Rattle.jp_match.specs.Private.Sweeps.{IsBefore, IsSize, Moves, at_start, own_rounds};

use crate::copies::Copies;
use crate::empty_word::has_empty_word;
use crate::idle::{Size, idle_part, is_idle_class};
use crate::one_class::one_class;
use crate::sweep::{Reach, Sweep};
use jp_iregexp::{CharClass, Pattern};

/// Moves the marks of a pattern over the character.
#[cycle(step)]
#[inline(always)]
pub(crate) fn step(pattern: &Pattern, sweep: &mut Sweep, entered: bool) -> Reach
    requires { IsBefore (unrolled (tree pattern.now)) sweep.old }
    ensures { Moves (unrolled (tree pattern.now)) (at_start entered) sweep.old sweep.new result }
{
    if !entered && let Some(idle) = idle_part(pattern, sweep) {
        sweep.at += idle.positions;
        return Reach {
            before: false,
            after: false,
            after_entered: idle.has_empty_word,
        };
    }
    match pattern {
        Pattern::Either(branches) => step_either(branches, sweep, entered),
        Pattern::Sequence(pieces) => step_sequence(pieces, sweep, entered),
        Pattern::Repeat { inner, least, most } => {
            step_repeat(inner, *least, *most, sweep, entered)
        }
        Pattern::Class(class) => step_class(class, sweep, entered),
    }
}

/// Moves the marks of a part that follows others, by how their end is reached. A class that is not
/// entered and has no mark, as most are, is passed over first.
#[cycle(step)]
#[inline(always)]
pub(crate) fn step_next(part: &Pattern, sweep: &mut Sweep, through: Reach) -> Reach
    requires { IsBefore (unrolled (tree part.now)) sweep.old }
    ensures { Moves (unrolled (tree part.now)) through sweep.old sweep.new result }
{
    if !through.before && is_idle_class(part, sweep) {
        sweep.at += 1;
        return Reach::none();
    }
    through.then(step(part, sweep, through.before))
}

/// Moves the mark of a class, which has one position, over the character.
#[inline(always)]
fn step_class(class: &CharClass, sweep: &mut Sweep, entered: bool) -> Reach
    requires { IsBefore (plain_class class.now.negated class.now.elements.items) sweep.old }
    ensures { Moves (plain_class class.now.negated class.now.elements.items) (at_start entered)
        sweep.old sweep.new result }
{
    let before = sweep.marks[sweep.at];
    let after = entered && sweep.tests.holds(class, sweep.c);
    sweep.marks[sweep.at] = after;
    sweep.at += 1;
    Reach {
        before,
        after,
        after_entered: after,
    }
}

/// Moves the marks of branches over the character.
#[cycle(step)]
pub(crate) fn step_either(parts: &[Pattern], sweep: &mut Sweep, entered: bool) -> Reach
    requires { IsBefore (unrolled (branches (map tree parts.now))) sweep.old }
    ensures { Moves (unrolled (branches (map tree parts.now))) (at_start entered) sweep.old
        sweep.new result }
{
    let mut ended = Reach::none();
    for branch in parts {
        ended = ended.or(step(branch, sweep, entered));
    }
    ended
}

/// Moves the marks of pieces over the character: where one has ended, the next is entered.
#[cycle(step)]
fn step_sequence(parts: &[Pattern], sweep: &mut Sweep, entered: bool) -> Reach
    requires { IsBefore (unrolled (pieces (map tree parts.now))) sweep.old }
    ensures { Moves (unrolled (pieces (map tree parts.now))) (at_start entered) sweep.old sweep.new
        result }
{
    let mut through = Reach::at_start(entered);
    for piece in parts {
        through = step_next(piece, sweep, through);
    }
    through
}

/// Moves the marks of a repeat, which has some of its own for each copy, over the character.
#[cycle(step)]
fn step_repeat(
    inner: &Pattern,
    least: u32,
    most: Option<u32>,
    sweep: &mut Sweep,
    entered: bool,
) -> Reach
    requires { IsBefore (unrolled (repeat (tree inner.now) least most)) sweep.old }
    ensures { Moves (unrolled (repeat (tree inner.now) least most)) (at_start entered) sweep.old
        sweep.new result }
{
    match most {
        Some(most) => step_between(inner, least, most, sweep, entered),
        None if least == 0 => { Reach::at_start(entered).or(step_plus(inner, sweep, entered)) }
        None => step_at_least(inner, least, sweep, entered),
    }
}

/// Moves the marks of a repeat with a most. It may end before each copy, and after the last one,
/// where there were at least the least. Copies of one class share one test of it.
#[cycle(step)]
fn step_between(inner: &Pattern, least: u32, most: u32, sweep: &mut Sweep, entered: bool) -> Reach
    requires { IsBefore (between (unrolled (tree inner.now)) least most) sweep.old }
    ensures { Moves (between (unrolled (tree inner.now)) least most) (at_start entered) sweep.old
        sweep.new result }
{
    if most < 2 {
        return step_copies(inner, least, most, sweep, entered);
    }
    let Some(one) = one_class(inner) else {
        return step_copies(inner, least, most, sweep, entered);
    };
    let holds = sweep.tests.holds(one.class, sweep.c);
    let copies = Copies {
        least: least as usize,
        is_optional: one.is_optional,
    };
    let end = sweep.at + most as usize;
    let reach = copies.step(&mut sweep.marks[sweep.at..end], entered, holds);
    sweep.at = end;
    reach
}

/// Moves the marks of copies of more than one class, each by itself. Copies without positions are
/// all as the first.
#[cycle(step)]
fn step_copies(inner: &Pattern, least: u32, most: u32, sweep: &mut Sweep, entered: bool) -> Reach
    requires { IsBefore (between (unrolled (tree inner.now)) least most) sweep.old }
    ensures { Moves (between (unrolled (tree inner.now)) least most) (at_start entered) sweep.old
        sweep.new result }
{
    let mut ended = Reach::none();
    let mut through = Reach::at_start(entered);
    let mut size = Size::unknown();
    for copies in 0..most {
        ended = ended.or(through.only_if(least <= copies));
        let at = sweep.at;
        let round = sweep.round;
        through = through.then(step_copy(inner, size, sweep, through.before));
        if sweep.at == at {
            return ended.or(through.only_if(least <= most));
        }
        size = Size {
            positions: sweep.at - at,
            rounds: sweep.round - round,
        };
    }
    ended.or(through.only_if(least <= most))
}

/// Moves the marks of one copy. Once the size of copies is known, one that is not entered and has
/// no mark is passed over.
#[cycle(step)]
fn step_copy(inner: &Pattern, size: Size, sweep: &mut Sweep, entered: bool) -> Reach
    requires before { IsBefore (unrolled (tree inner.now)) sweep.old }
    requires sized { IsSize (unrolled (tree inner.now)) size.positions size.rounds }
    ensures { Moves (unrolled (tree inner.now)) (at_start entered) sweep.old sweep.new result }
{
    if entered || size.positions == 0 {
        return step(inner, sweep, entered);
    }
    let end = sweep.at + size.positions;
    if sweep.is_unmarked(size.positions) {
        sweep.at = end;
        sweep.round += size.rounds;
        return Reach {
            before: false,
            after: false,
            after_entered: has_empty_word(inner),
        };
    }
    step(inner, sweep, entered)
}

/// Moves the marks of a repeat with a least and no most: the last copy goes on.
#[cycle(step)]
fn step_at_least(inner: &Pattern, least: u32, sweep: &mut Sweep, entered: bool) -> Reach
    requires before { IsBefore (at_least (unrolled (tree inner.now)) least) sweep.old }
    requires some { 0 < least }
    ensures { Moves (at_least (unrolled (tree inner.now)) least) (at_start entered) sweep.old
        sweep.new result }
{
    let mut through = Reach::at_start(entered);
    for _ in 1..least {
        let at = sweep.at;
        through = through.then(step(inner, sweep, through.before));
        if sweep.at == at {
            return through.then(step_plus(inner, sweep, through.before));
        }
    }
    through.then(step_plus(inner, sweep, through.before))
}

/// Moves the marks of one or more words of the pattern: where one has ended, the next may begin.
/// The mark of a class tells whether one has.
#[cycle(step)]
fn step_plus(inner: &Pattern, sweep: &mut Sweep, entered: bool) -> Reach
    requires { IsBefore (plus (unrolled (tree inner.now))) sweep.old }
    ensures { Moves (plus (unrolled (tree inner.now))) (at_start entered) sweep.old sweep.new result }
{
    match inner {
        Pattern::Class(class) => {
            let again = entered | sweep.marks[sweep.at];
            step_class(class, sweep, again)
        }
        _ => step_rounds(inner, sweep, entered),
    }
}

/// Moves the marks of one or more words of a pattern that is no class. Without positions it has no
/// round that is kept.
#[cycle(step)]
fn step_rounds(inner: &Pattern, sweep: &mut Sweep, entered: bool) -> Reach
    requires before { IsBefore (plus (unrolled (tree inner.now))) sweep.old }
    requires own { own_rounds (unrolled (tree inner.now)) ≡ min (size (unrolled (tree inner.now))) 1 }
    ensures { Moves (plus (unrolled (tree inner.now))) (at_start entered) sweep.old sweep.new result }
{
    let at = sweep.at;
    let round = sweep.round;
    let again = entered | sweep.round_has_ended();
    sweep.round = round.saturating_add(1);
    let reach = step(inner, sweep, again);
    if sweep.at == at {
        sweep.round = round;
        return Reach {
            before: reach.before & entered,
            after: reach.after,
            after_entered: reach.after_entered,
        };
    }
    sweep.rounds[round] = reach.after;
    reach
}
