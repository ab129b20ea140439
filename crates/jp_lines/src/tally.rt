//! What a run counts.

ghost use Rattle.std.specs.Prelude.{◌≡◌, [], List, ℕ, IfOk, OnErr};
ghost use Rattle.jp_lines.specs.Outcome.{Answered, Overflows, Refused, plus, tally_in, tally_of};
ghost use Rattle.jp_lines.specs.declared.defect.RefusedLine.{RefusedLine};

use std::alloc::AllocError;

/// What a run counts. Lines of blanks alone are not counted.
#[derive(Debug, Clone, Copy, PartialEq, Eq)]
pub struct Tally {
    /// The lines whose documents are answered.
    pub documents: u64,
    /// The lines that are refused.
    pub refused: u64,
    /// The nodes that are selected, or the lines that are kept.
    pub selected: u64,
}

impl Tally {
    /// The tally of no lines.
    pub fn none() -> Tally
        ensures { result ≡ tally_of [] }
    {
        Tally {
            documents: 0,
            refused: 0,
            selected: 0,
        }
    }

    /// The tally of one line, whose document is answered and has so many selected nodes.
    pub fn of_document(selected: u64) -> Tally
        ensures { (output : List ℕ) → result ≡ tally_in (Answered selected output) }
    {
        Tally {
            documents: 1,
            refused: 0,
            selected,
        }
    }

    /// The tally of one line, which is refused.
    pub fn of_refusal() -> Tally
        ensures { (line : RefusedLine) → result ≡ tally_in (Refused line) }
    {
        Tally {
            documents: 0,
            refused: 1,
            selected: 0,
        }
    }

    /// The tally of these lines and of more: each number is the sum of both. The only error is that a sum does not
    /// fit 64 bits, which counts as want of memory.
    pub fn with(self, more: Tally) -> Result<Tally, AllocError>
        ensures both { IfOk result (λ both. both ≡ plus self more) }
        ensures beyond { OnErr result (Overflows (plus self more)) }
    {
        let documents = self.documents.checked_add(more.documents);
        let refused = self.refused.checked_add(more.refused);
        let selected = self.selected.checked_add(more.selected);
        Ok(Tally {
            documents: documents.ok_or(AllocError)?,
            refused: refused.ok_or(AllocError)?,
            selected: selected.ok_or(AllocError)?,
        })
    }
}
