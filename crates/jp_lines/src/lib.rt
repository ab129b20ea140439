//! A JSONPath query (RFC 9535) over a stream of documents, one a line (JSON Lines, NDJSON).
//!
//! ```text
//! let mut faults = Device::new(rt.stderr());
//! let values = Wanted::Nodes(Form::VALUES);
//! let tally =
//!     run_lines(alloc, "$.user.id", values, options, &mut input, &mut output, &mut faults)?;
//! ```
//!
//! `Options` say in which profile queries are read, whose numbers documents have, whether lines are numbered, a
//! run goes on after a line that is refused, the output is flushed after each, and a line that is no document is
//! explained, how many steps the evaluation over one document may make, and how much may come out of it.
//! `specs/Task.antt` says what is written of a document, `specs/Run.antt` what `run_lines` says with each answer,
//! by the outcomes of lines in `specs/Outcome.antt`, and
//! `specs/Lines.antt` what the lines of an input are. `run_program` is the whole program `jp-lines`
//! over its words and over inputs that an `Inputs` opens by their names, as an `Opener` does in a process;
//! `specs/Program.antt` has what it says with each status, by how it went over its inputs
//! (`specs/Inputs.antt`) and what it tells at the end (`specs/Closing.antt`).
#![tactic(auto)]

mod answer;
mod closing;
mod commands;
mod count;
mod defect;
mod explaining;
mod expression;
mod files;
mod halt;
mod help;
mod inputs;
mod keeping;
pub mod laws;
mod limits;
mod opening;
mod options;
mod passing;
mod program;
mod reading;
mod run;
mod runs;
mod status;
mod stop;
mod tally;
mod task;
mod telling;
mod treating;
mod wanted;
mod words;

pub use defect::{Defect, RefusedLine};
pub use files::{Opened, Opener};
pub use inputs::{Inputs, Unopened};
pub use options::{Extent, Options, Wanted};
pub use program::run_program;
pub use run::run_lines;
pub use stop::Stop;
pub use tally::Tally;
pub use task::{Job, Request};
pub use words::read_words;
