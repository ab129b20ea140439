//! Parts of a pattern that a step passes over.

ghost use Rattle.std.specs.Prelude.{◌≡◌, IfSome, IsTrue, false};
ghost use Rattle.jp_iregexp.specs.Tree.{tree, repeat};
ghost use Rattle.jp_match.specs.Private.Plain.{unrolled};
ghost use Rattle.jp_match.specs.Private.Sweeps.{IsBefore, IsIdle};

use crate::sweep::Sweep;
use jp_iregexp::Pattern;

/// A part that has no mark: where it is not entered, a step leaves it as it is.
#[derive(Clone, Copy)]
pub(crate) struct Idle {
    pub(crate) positions: usize,
    pub(crate) has_empty_word: bool,
}

/// How many positions a part has, and how many repeats that keep a round.
#[derive(Clone, Copy)]
pub(crate) struct Size {
    /// None until the part has been swept over.
    pub(crate) positions: usize,
    pub(crate) rounds: usize,
}

impl Size {
    /// That of a part that has not been swept over.
    pub(crate) fn unknown() -> Size
        ensures { result.positions ≡ 0 }
    {
        Size {
            positions: 0,
            rounds: 0,
        }
    }
}

/// Whether the next part of a sweep is a class that has no mark.
#[inline(always)]
pub(crate) fn is_idle_class(part: &Pattern, sweep: &Sweep) -> bool
    requires { IsBefore (unrolled (tree part.now)) sweep.now }
    ensures { IsTrue result → IsIdle (unrolled (tree part.now)) sweep.now 1 false }
{
    match part {
        Pattern::Class(_) => !sweep.marks[sweep.at],
        _ => false,
    }
}

/// The next part of a sweep, where it is a class or copies of one and has no mark.
#[inline(always)]
pub(crate) fn idle_part(part: &Pattern, sweep: &Sweep) -> Option<Idle>
    requires { IsBefore (unrolled (tree part.now)) sweep.now }
    ensures { IfSome result (λ idle. IsIdle (unrolled (tree part.now)) sweep.now idle.positions
        idle.has_empty_word) }
{
    if is_idle_class(part, sweep) {
        return Some(Idle {
            positions: 1,
            has_empty_word: false,
        });
    }
    match part {
        Pattern::Repeat { inner, least, most } => idle_copies(inner, *least, *most, sweep),
        _ => None,
    }
}

/// The copies of a class that a repeat with a most has, where none has a mark.
#[inline(always)]
fn idle_copies(inner: &Pattern, least: u32, most: Option<u32>, sweep: &Sweep) -> Option<Idle>
    requires { IsBefore (unrolled (repeat (tree inner.now) least most)) sweep.now }
    ensures { IfSome result (λ idle. IsIdle (unrolled (repeat (tree inner.now) least most))
        sweep.now idle.positions idle.has_empty_word) }
{
    let Some(most) = most else {
        return None;
    };
    let Pattern::Class(_) = inner else {
        return None;
    };
    if sweep.is_unmarked(most as usize) {
        return Some(Idle {
            positions: most as usize,
            has_empty_word: least == 0,
        });
    }
    None
}
