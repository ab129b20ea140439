//! What a run does with each document.

use crate::options::{Extent, Options, Wanted};
use jp_cells::Style;
use jp_check::{Checked, CheckedFilter};
use jp_evaluate::Plan;

/// What is asked of each document, in the texts of the words.
#[derive(Drop)]
pub enum Request<'w> {
    /// To write what is wanted of the nodes that the query of this text selects.
    SelectBy(Wanted, Extent, &'w str),
    /// To write the line where the expression of this text is true.
    KeepBy(&'w str),
    /// To write a row in this style, with a cell for each of the queries of these texts, and before
    /// all rows, if it is to be, one of these texts.
    ColumnsBy(Style, bool, Vec<&'w str>),
}

/// What the words of a command line ask for.
#[derive(Drop)]
pub struct Job<'w> {
    /// How the run goes over the lines of its inputs, and in which profile.
    pub options: Options,
    /// What is asked of each document.
    pub request: Request<'w>,
    /// The names of the inputs, in order, `-` for the standard input; none where none is named, which
    /// means the standard input alone.
    pub inputs: Vec<&'w str>,
}

/// What a run does with each document.
#[derive(Clone, Copy)]
pub(crate) enum Task<'q> {
    Select(Selection<'q>),
    Keep(Keeping<'q>),
    Tabulate(Columns<'q>),
}

/// Writes what is wanted of the nodes that the query selects.
#[derive(Clone, Copy)]
pub(crate) struct Selection<'q> {
    pub(crate) wanted: Wanted,
    pub(crate) extent: Extent,
    pub(crate) query: &'q Checked,
    /// How much of a document is read for the query.
    pub(crate) plan: &'q Plan,
}

/// Writes the line where the expression is true.
#[derive(Clone, Copy)]
pub(crate) struct Keeping<'q> {
    pub(crate) filter: &'q CheckedFilter,
    /// How much of a document is read for the expression.
    pub(crate) plan: &'q Plan,
}

/// Writes a row in this style, with a cell for each query.
#[derive(Clone, Copy)]
pub(crate) struct Columns<'q> {
    pub(crate) style: Style,
    pub(crate) queries: &'q [Checked],
    /// How much of a document is read for the queries.
    pub(crate) plan: &'q Plan,
}
