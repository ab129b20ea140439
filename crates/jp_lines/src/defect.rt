//! Why lines are refused.

use jp_document::DocumentFault;
use std::fmt;
use thiserror::Error;

/// Why a line is refused.
#[derive(Debug, PartialEq, Drop, Error)]
pub enum Defect {
    /// Its bytes are no document. Want of memory is no such fault.
    Document(DocumentFault),
    /// It has more than `DOCUMENT_LIMIT` bytes.
    TooLarge,
    /// It is a document, over which the evaluation was given up after so many steps, all that the
    /// limit allows.
    StepsUsedUp(u64),
    /// It is a document in which more nodes are selected than may come out of one.
    TooManyNodes,
    /// It is a document of which more bytes were to be written than may come out of one.
    TooManyBytes,
}

/// As `jp` tells it, and of a number that is not whole also the path, as
/// `document refused: NotWhole at $['a'][1]`.
impl fmt::Display for Defect {
    ghost use Rattle.std.specs.Prelude.{Some};
    ghost use Rattle.jp_lines.specs.Outcome.{defect_text};

    ghost output = { λ defect. Some (defect_text defect) };

    fn fmt<W: fmt::Write>(&self, f: &mut fmt::Formatter<W>) -> fmt::Result {
        match self {
            Defect::Document(fault) => write!(f, "document refused: {fault}"),
            Defect::TooLarge => f.write_str("document refused: DocumentTooLarge"),
            Defect::StepsUsedUp(_) => f.write_str("document refused: StepsUsedUp"),
            Defect::TooManyNodes => f.write_str("document refused: TooManyNodes"),
            Defect::TooManyBytes => f.write_str("document refused: TooManyBytes"),
        }
    }
}

/// A line that is refused.
#[derive(Debug, PartialEq, Drop, Error)]
pub struct RefusedLine {
    /// Which line of the input it is, from 1.
    pub number: u64,
    /// Why it is refused.
    pub defect: Defect,
    /// What is told behind that: a line that says why and where the input's line is no document, with its
    /// newline, or nothing.
    pub explanation: String,
}

/// As `line 17: document refused: NotJson`, without the explanation.
impl fmt::Display for RefusedLine {
    ghost use Rattle.std.specs.Prelude.{Some};
    ghost use Rattle.jp_lines.specs.Outcome.{refused_text};

    ghost output = { λ refused. Some (refused_text refused) };

    fn fmt<W: fmt::Write>(&self, f: &mut fmt::Formatter<W>) -> fmt::Result {
        let number = self.number;
        let defect = &self.defect;
        write!(f, "line {number}: {defect}")
    }
}
