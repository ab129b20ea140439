//! What is asked of a run.

ghost use Rattle.std.specs.Prelude.{◌≡◌};
ghost use Rattle.jp_lines.specs.Outcome.{left_after};

use jp_check::Profile;
use jp_command::Form;
use jp_limit::OutputLimit;

/// What is written of each document.
#[derive(Debug, Clone, Copy, PartialEq, Eq)]
pub enum Wanted {
    /// A line for each selected node, in this form.
    Nodes(Form),
    /// One line: how many nodes are selected.
    Count,
}

/// Of which of the selected nodes it is written.
#[derive(Debug, Clone, Copy, PartialEq, Eq)]
pub enum Extent {
    /// All of them.
    All,
    /// The first alone, where the evaluation stops.
    First,
}

/// How a run goes over the lines of its input.
#[derive(Debug, Clone, Copy, PartialEq, Eq)]
pub struct Options {
    /// The profile of jp_check in which queries and expressions are read, and whose numbers documents have.
    pub profile: Profile,
    /// Whether each line of output begins with the number of the input's line, from 1, and a tab.
    pub numbered: bool,
    /// Whether a run goes on after a line that is refused.
    pub keep_going: bool,
    /// Whether the output is flushed after each document.
    pub line_buffered: bool,
    /// Whether it is told of a line that is no document why it is none, and where.
    pub explaining: bool,
    /// Whether the program's status tells that nothing was selected.
    pub exit_status: bool,
    /// Whether the program tells at the end what the run counts.
    pub summary: bool,
    /// How many refused lines after which a run goes on are told one by one at most; None: all.
    pub reports: Option<u64>,
    /// The most steps that the evaluation over one document may make; None: as many as it takes.
    pub limit: Option<u64>,
    /// The most that may come out of one document.
    pub output_limit: OutputLimit,
}

impl Options {
    /// How many refused lines may be told still, where so many are refused before; None: all.
    pub(crate) fn reports_left(self, refused: u64) -> Option<u64>
        ensures { result ≡ left_after refused self.reports }
    {
        match self.reports {
            None => None,
            Some(most) => Some(most.saturating_sub(refused)),
        }
    }
}
