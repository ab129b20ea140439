//! How many marks a scan of a pattern keeps, and of how many repeats it keeps whether a round has
//! ended.

ghost use Rattle.std.specs.Prelude.{◌≡◌, ◌+◌, ◌*◌, ◌^◌, ◌≤◌, min, map};
ghost use Rattle.jp_iregexp.specs.Tree.{tree, pieces, repeat};
ghost use Rattle.jp_iregexp.specs.Positions.{positions_of};
ghost use Rattle.jp_match.specs.Private.Plain.{unrolled};
ghost use Rattle.jp_match.specs.Private.Sweeps.{rounds_of, own_rounds as own};

use jp_iregexp::Pattern;

/// From here on numbers of positions are not told apart.
const MANY_POSITIONS: u64 = 4_097;

/// From here on numbers of rounds are not told apart.
pub(crate) const MANY_ROUNDS: u64 = 1 << 31;

/// The positions of a pattern, and its repeats that keep whether a round has ended, copies counted.
#[derive(Clone, Copy)]
pub(crate) struct Counts {
    pub(crate) positions: u64,
    pub(crate) rounds: u64,
}

impl Counts {
    /// These counts so many times, and rounds that one copy has besides.
    fn times(self, copies: u32, own: u64) -> Counts
        requires positions { self.positions ≤ 4097 }
        requires rounds { self.rounds ≤ 2 ^ 31 }
        requires own { own ≤ 1 }
        ensures positions { result.positions ≡ min (copies * self.positions) 4097 }
        ensures rounds { result.rounds ≡ min (copies * self.rounds + own) (2 ^ 31) }
    {
        let copies = u64::from(copies);
        Counts {
            positions: (copies * self.positions).min(MANY_POSITIONS),
            rounds: (copies * self.rounds + own).min(MANY_ROUNDS),
        }
    }
}

/// Counts both, up to the greatest that is told apart.
#[cycle(counts)]
pub(crate) fn counts_of(pattern: &Pattern) -> Counts
    ensures positions { result.positions ≡ min (positions_of (tree pattern.now)) 4097 }
    ensures rounds { result.rounds ≡ min (rounds_of (unrolled (tree pattern.now))) (2 ^ 31) }
{
    match pattern {
        Pattern::Either(branches) => counts_of_all(branches),
        Pattern::Sequence(pieces) => counts_of_all(pieces),
        Pattern::Repeat { inner, least, most } => counts_of_repeat(inner, *least, *most),
        Pattern::Class(_) => Counts {
            positions: 1,
            rounds: 0,
        },
    }
}

/// Counts branches, or pieces, together.
#[cycle(counts)]
fn counts_of_all(parts: &[Pattern]) -> Counts
    ensures positions { result.positions ≡ min (positions_of (pieces (map tree parts.now))) 4097 }
    ensures rounds { result.rounds
        ≡ min (rounds_of (unrolled (pieces (map tree parts.now)))) (2 ^ 31) }
{
    let mut positions = 0;
    let mut rounds = 0;
    for part in parts {
        let counts = counts_of(part);
        positions = (positions + counts.positions).min(MANY_POSITIONS);
        rounds = (rounds + counts.rounds).min(MANY_ROUNDS);
    }
    Counts { positions, rounds }
}

/// Counts all copies of a repeat: without a most its last copy goes on.
#[cycle(counts)]
fn counts_of_repeat(inner: &Pattern, least: u32, most: Option<u32>) -> Counts
    ensures positions { result.positions
        ≡ min (positions_of (repeat (tree inner.now) least most)) 4097 }
    ensures rounds { result.rounds
        ≡ min (rounds_of (unrolled (repeat (tree inner.now) least most))) (2 ^ 31) }
{
    let counts = counts_of(inner);
    match most {
        Some(most) => counts.times(most, 0),
        None => counts.times(least.max(1), own_rounds(inner, counts.positions)),
    }
}

/// Whether a repeat of the pattern keeps its round, as a number.
fn own_rounds(inner: &Pattern, positions: u64) -> u64
    requires { positions ≡ min (positions_of (tree inner.now)) 4097 }
    ensures { result ≡ own (unrolled (tree inner.now)) }
{
    match inner {
        Pattern::Class(_) => 0,
        _ => positions.min(1),
    }
}
