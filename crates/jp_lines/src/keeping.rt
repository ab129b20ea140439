//! What is written of a line that is kept.

ghost use Rattle.std.specs.Prelude.{◌++◌, IfErr, IfOk, OnOk, codes};
ghost use Rattle.jp_tree.specs.Views.{expr_of};
ghost use Rattle.jp_command.specs.Output.{WritesAll};
ghost use Rattle.jp_command.specs.Written.{StopsWriting};
ghost use Rattle.jp_lines.specs.Private.Limits.{WritesOrGivesUp, WritesWithin};
ghost use Rattle.jp_lines.specs.Task.{Keep, selected_in, written_for};

use crate::answer::{Asked, Reply};
use crate::limits::{allowed_by, defect_of_output, stop_of};
use crate::options::Options;
use crate::wanted::{write_bytes, write_text};
use jp_check::CheckedFilter;
use jp_command::{Fault, SelectionFault, Writer};
use jp_evaluate::{Patterns, holds_of};
use jp_lent::Selectable;
use jp_match::Marks;

/// Writes the line behind the text `lead`, where the expression is true of its document.
pub(crate) fn write_kept<'d: 'q, 'q, V: Selectable + 'd, W: Writer>(
    asked: Asked<'q>,
    filter: &'q CheckedFilter,
    lead: &str,
    line: &[u8],
    root: V,
    patterns: &mut Patterns,
    output: &mut W,
) -> Result<Reply, Fault>
    ensures ok { IfOk result (WritesOrGivesUp W.contents W.has_failed asked.entry.options
        (selected_in (Keep (expr_of filter.entry.now.expr)) (V.meaning root))
        (written_for (Keep (expr_of filter.entry.now.expr)) lead.now line.now (V.meaning root))
        output.old output.new) }
    ensures stopped { IfErr result (StopsWriting W.contents W.has_failed output.old output.new
        (written_for (Keep (expr_of filter.entry.now.expr)) lead.now line.now (V.meaning root))) }
    ensures within { IfErr result (WritesWithin W.contents W.has_failed asked.entry.options
        (selected_in (Keep (expr_of filter.entry.now.expr)) (V.meaning root))
        (written_for (Keep (expr_of filter.entry.now.expr)) lead.now line.now (V.meaning root))
        output.old output.new) }
{
    let allowed = allowed_by(asked.options.limit);
    let mut steps = allowed;
    match holds_of(asked.alloc, root, filter, &Marks, patterns, &mut steps) {
        Ok(true) => write_line_within(asked.options, lead, line, output),
        Ok(false) => Ok(Reply::Written(0)),
        Err(fault) => stop_of(SelectionFault::from(fault), allowed.left() - steps.left()),
    }
}

/// Writes a line of the input, and a newline behind it, unless that is more than may come out of one document.
fn write_line_within<W: Writer>(
    options: Options,
    lead: &str,
    line: &[u8],
    output: &mut W,
) -> Result<Reply, Fault>
    ensures ok { IfOk result (WritesOrGivesUp W.contents W.has_failed options 1
        (lead.now ++ (line.now ++ codes "\n")) output.old output.new) }
    ensures stopped { IfErr result (StopsWriting W.contents W.has_failed output.old output.new
        (lead.now ++ (line.now ++ codes "\n"))) }
    ensures within { IfErr result (WritesWithin W.contents W.has_failed options 1
        (lead.now ++ (line.now ++ codes "\n")) output.old output.new) }
{
    match defect_of_output(options.output_limit, 1, lead.len() + line.len() + 1) {
        Some(defect) => Ok(Reply::Refused(defect)),
        None => {
            write_line(lead, line, output)?;
            Ok(Reply::Written(1))
        }
    }
}

/// Writes a line of the input, and a newline behind it.
fn write_line<W: Writer>(lead: &str, line: &[u8], output: &mut W) -> Result<(), Fault>
    ensures ok { OnOk result (WritesAll W.contents W.has_failed output.old output.new
        (lead.now ++ (line.now ++ codes "\n"))) }
    ensures stopped { IfErr result (StopsWriting W.contents W.has_failed output.old output.new
        (lead.now ++ (line.now ++ codes "\n"))) }
{
    write_text(lead, output)?;
    write_bytes(line, output)?;
    write_bytes(b"\n", output)
}
