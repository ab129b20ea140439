//! How many steps a pattern takes over a text, told before they are made.

ghost use Rattle.std.specs.Prelude.{◌≤◌, ◌*◌};

use crate::one_class::one_class;
use crate::relations::depth;
use crate::scan::MOST_POSITIONS;
use jp_iregexp::{CharClass, Pattern};

/// How many marks are moved in a step.
const MARKS_A_STEP: u64 = 64;

/// How many marks are moved in the time that a group, a branch or a repeat takes.
const MARKS_A_GROUP: u64 = 8;

/// How many ranges of a class are tested in the time that a group takes.
const RANGES_A_GROUP: u64 = 16;

/// How many offsets a step is for, where sets of them are moved.
const OFFSETS_A_STEP: u64 = 16;

/// How much there is of a pattern, copies counted: its positions; its groups, branches and repeats,
/// where copies of one class are gone over together; and how often sets of offsets are moved by it.
#[derive(Clone, Copy)]
struct Effort {
    positions: u64,
    groups: u64,
    moves: u64,
}

/// The text that a pattern is gone over for: how many characters it has at most, and how many rounds
/// a repeat of many positions takes beyond its least, where it has no most.
#[derive(Clone, Copy)]
struct TextSize {
    chars: u64,
    rounds: u64,
}

/// The steps for each character of a text by a scan: one for each 64 positions, or for each eight groups,
/// branches and repeats where these are more, and at least one.
pub(crate) fn steps_of_scan(pattern: &Pattern, positions: u64) -> u64
    ensures { positions ≤ 64 * result }
{
    let size = TextSize {
        chars: u64::MAX,
        rounds: 0,
    };
    steps_by(positions, effort_of(pattern, size).groups)
}

/// The steps for each character of so many positions and groups.
fn steps_by(positions: u64, groups: u64) -> u64
    ensures { positions ≤ 64 * result }
{
    let marks = positions.max(groups.saturating_mul(MARKS_A_GROUP));
    (marks.max(1) - 1) / MARKS_A_STEP + 1
}

/// The steps of a pattern of more than 4,096 positions over a text of so many bytes: those of a scan
/// where it has fewer once it is cut down to the text, else one for each 16 offsets that its sets may be
/// moved by.
pub(crate) fn steps_of_many(pattern: &Pattern, bytes: u64) -> u64 {
    let size = TextSize {
        chars: bytes,
        rounds: bytes.saturating_add(1),
    };
    let effort = effort_of(pattern, size);
    if effort.positions <= MOST_POSITIONS {
        return bytes.saturating_mul(steps_by(effort.positions, effort.groups));
    }
    let each = bytes.saturating_mul(effort.moves / OFFSETS_A_STEP + 1);
    if depth(pattern) > 2 {
        return each.saturating_mul(size.rounds);
    }
    each
}

/// How much there is of a pattern that is gone over for a text of this size.
#[cycle(effort)]
fn effort_of(pattern: &Pattern, size: TextSize) -> Effort {
    match pattern {
        Pattern::Either(parts) | Pattern::Sequence(parts) => effort_of_all(parts, size),
        Pattern::Repeat { inner, least, most } => effort_of_repeat(inner, *least, *most, size),
        Pattern::Class(class) => effort_of_class(class),
    }
}

/// How much there is of a class: one position, a group for each 16 elements, and one move more than groups.
fn effort_of_class(class: &CharClass) -> Effort {
    let groups = class.elements.len() as u64 / RANGES_A_GROUP;
    Effort {
        positions: 1,
        groups,
        moves: groups.saturating_add(1),
    }
}

/// How much there is of all parts together, with one group and one move for what they stand in.
#[cycle(effort)]
fn effort_of_all(parts: &[Pattern], size: TextSize) -> Effort {
    let mut all = Effort {
        positions: 0,
        groups: 1,
        moves: 1,
    };
    for part in parts {
        let one = effort_of(part, size);
        all.positions = all.positions.saturating_add(one.positions);
        all.groups = all.groups.saturating_add(one.groups);
        all.moves = all.moves.saturating_add(one.moves);
    }
    all
}

/// The effort of all copies. Those without positions are gone over once.
#[cycle(effort)]
fn effort_of_repeat(inner: &Pattern, least: u32, most: Option<u32>, size: TextSize) -> Effort {
    let copy = effort_of(inner, size);
    let copies = match copy.positions {
        0 => 1,
        _ => copies_within(least, most, size.chars),
    };
    let positions = copies.saturating_mul(copy.positions);
    let rounds = match positions > MOST_POSITIONS && is_endless(most, size.chars) {
        true => copies.saturating_add(size.rounds),
        false => copies,
    };
    let together = match one_class(inner) {
        Some(_) => 1,
        None => copies,
    };
    Effort {
        positions,
        groups: together.saturating_mul(copy.groups).saturating_add(1),
        moves: rounds.saturating_mul(copy.moves).saturating_add(1),
    }
}

/// How many copies a repeat has once it is cut down to a text of so many characters.
fn copies_within(least: u32, most: Option<u32>, chars: u64) -> u64 {
    match most {
        Some(most) if u64::from(most) <= chars => u64::from(most),
        _ if u64::from(least) <= chars => u64::from(least.max(1)),
        _ => 1,
    }
}

/// Whether a repeat has no most that a text of so many characters reaches.
fn is_endless(most: Option<u32>, chars: u64) -> bool {
    match most {
        Some(most) => u64::from(most) > chars,
        None => true,
    }
}
