//! A step of a scan over a whole pattern.

ghost use Rattle.std.specs.Prelude.{map};
ghost use Rattle.jp_iregexp.specs.Tree.{tree, branches, pieces};
ghost use Rattle.jp_match.specs.Private.Plain.{unrolled};
ghost use Rattle.jp_match.specs.Private.Sweeps.{IsAtStart, MovesAll};

use crate::stepping::{step, step_either, step_next};
use crate::sweep::{Reach, Sweep};
use jp_iregexp::Pattern;

/// Moves the marks of a whole pattern over the character. There is none from `end` on, so the sweep
/// may end before the pattern does: where nothing is entered and no mark is left.
pub(crate) fn step_whole(pattern: &Pattern, sweep: &mut Sweep, end: usize, entered: bool) -> Reach
    requires { IsAtStart (unrolled (tree pattern.now)) end sweep.old }
    ensures { MovesAll (unrolled (tree pattern.now)) entered sweep.old sweep.new result }
{
    match pattern {
        Pattern::Either(branches) => step_branches(branches, sweep, end, entered),
        _ => step(pattern, sweep, entered),
    }
}

/// Moves the marks of branches that are the whole pattern.
fn step_branches(parts: &[Pattern], sweep: &mut Sweep, end: usize, entered: bool) -> Reach
    requires { IsAtStart (unrolled (branches (map tree parts.now))) end sweep.old }
    ensures { MovesAll (unrolled (branches (map tree parts.now))) entered sweep.old sweep.new result }
{
    let [only] = parts else {
        return step_either(parts, sweep, entered);
    };
    match only {
        Pattern::Sequence(pieces) => step_pieces(pieces, sweep, end, entered),
        _ => step_either(parts, sweep, entered),
    }
}

/// Moves the marks of pieces that are the whole pattern. From `end` on no piece is gone over that
/// is not entered.
fn step_pieces(parts: &[Pattern], sweep: &mut Sweep, end: usize, entered: bool) -> Reach
    requires { IsAtStart (unrolled (pieces (map tree parts.now))) end sweep.old }
    ensures { MovesAll (unrolled (pieces (map tree parts.now))) entered sweep.old sweep.new result }
{
    let mut through = Reach::at_start(entered);
    for piece in parts {
        if sweep.at >= end && through.is_nowhere() {
            return Reach::none();
        }
        through = step_next(piece, sweep, through);
    }
    through
}
