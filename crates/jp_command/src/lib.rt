//! The program `jp` as a library: a JSONPath query (RFC 9535) and a document go in, lines of
//! normalized paths and values come out.
//!
//! ```text
//! let mut output = Device::new(Vec::new(alloc));
//! run_eval(alloc, "$.a[-1]", Standard, Form::BOTH, &mut Device::new(bytes), &mut output)?;
//! ```
//!
//! `run_eval` runs one query, read in a profile of jp_check, over one input; `specs/Run.antt` has
//! what it says with each answer. `run_check` tells whether a query is accepted
//! (`specs/Check.antt`), and `run_canon` writes its canonical text (`specs/Canon.antt`). `run_line`
//! is the whole program over its words; `specs/Line.antt` has what it says with each status, and
//! `specs/Explained.antt` what stands behind the line of a refused query where that is asked for.
//! `specs/Program.antt` has what follows of the whole program, sentence by sentence.
#![tactic(auto)]

mod buffer;
mod canon;
mod check;
mod device;
mod eval;
mod exit;
mod explained;
mod fault;
mod form;
mod found;
mod front;
mod help;
mod input;
pub mod laws;
mod limits;
mod line;
mod lines;
mod node_task;
mod output;
mod selecting;
mod selection_fault;
mod showing;
mod words;

pub use buffer::{BufferedOutput, buffered, unbuffered};
pub use canon::run_canon;
pub use check::run_check;
pub use device::{Device, Failed, Output, Source, Writer};
pub use eval::{read_within_limit, run_eval};
pub use exit::exit_status;
pub use explained::{report_refusal, report_refused_expression};
pub use fault::Fault;
pub use form::{Form, ValueForm};
pub use found::{push_found, write_found};
pub use help::CommandHelp;
pub use input::{chunk_buffer, read_all};
pub use jp_limit::OutputLimit;
pub use limits::{DOCUMENT_LIMIT, QUERY_LIMIT};
pub use line::{refuse_words, report, run_line, status};
pub use lines::{SelectedLines, Spare, selected_lines, write_selected};
pub use output::write_all;
pub use selecting::{Rooms, push_selected};
pub use selection_fault::{SelectionFault, check_output};
pub use showing::{is_shown, write_shown};
pub use words::{is_set, query_command, with_flag};
