//! What the definitions imply.

ghost use Rattle.jp_lines.specs.Laws.{HandsOnAll, LinesJoinAgain, OneLineIsADocument};

use crate::inputs::Inputs;
use jp_command::{Output, Source, Writer};

/// The lines of an input, joined by newlines, are the input again.
#[tactic(auto, using(crate::proofs::Splitting::lines_joined))]
pub fn lines_join_again()
    ensures { LinesJoinAgain }
{}

/// Of an input that is one line, and no blank one, a run over lines says what `run_eval` says in the same profile,
/// where it writes nodes without numbers of lines and refuses none.
pub fn one_line_is_a_document<R: Source, W: Output, E: Writer>()
    ensures { OneLineIsADocument R.remaining R.has_failed R.read_gives
        W.contents W.has_failed E.contents E.has_failed }
{}

/// Where the status of `run_program` is 0, the output holds nothing back of what was written.
pub fn hands_on_all<I: Inputs, W: Output, E: Writer>()
    ensures { HandsOnAll I.opens I.Input.remaining I.Input.has_failed I.Input.read_gives
        W.contents W.has_failed W.write_takes W.holds_back E.contents E.has_failed W.hung_up }
{}
