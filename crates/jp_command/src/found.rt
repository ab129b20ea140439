//! What is written of the node that was found at a location.

ghost use Rattle.std.specs.Prelude.{◌≡◌, ◌++◌, IfErr, IfOk, OnOk, map, string_bytes};
ghost use Rattle.std.specs.List.{flat_map};
ghost use Rattle.jp_command.specs.Found.{found_nodes};
ghost use Rattle.jp_command.specs.Lead.{line_behind};
ghost use Rattle.jp_command.specs.Lines.{line_of, lines_of};
ghost use Rattle.jp_command.specs.Private.Fronts.{path_in_line};
ghost use Rattle.jp_document.specs.Location.{owned_step};
ghost use Rattle.jp_document.specs.Node.{node_at};
ghost use Rattle.jp_command.specs.Output.{WritesAll};
ghost use Rattle.jp_command.specs.Written.{GoesAs, StopsWriting};

use crate::device::Writer;
use crate::fault::Fault;
use crate::form::Form;
use crate::lines::push_after_path;
use crate::output::write_all;
use jp_document::OwnedStep;
use jp_held::push_location;
use jp_lent::Selectable;
use std::alloc::{AllocError, Global};

/// Appends the line of the node at a location, with the value that was found there; nothing where none was.
/// The only error is that memory ran out.
pub fn push_found<V: Selectable>(
    form: Form,
    location: &[OwnedStep],
    value: Option<V>,
    lines: &mut String,
) -> Result<(), AllocError>
    ensures { OnOk result (string_bytes lines.new
        ≡ string_bytes lines.old ++ lines_of form (found_nodes V.meaning location.now value)) }
{
    match value {
        Some(value) => push_line_at(form, location, value, lines),
        None => Ok(()),
    }
}

/// Appends the line of the node at this location with this value.
fn push_line_at<V: Selectable>(
    form: Form,
    location: &[OwnedStep],
    value: V,
    line: &mut String,
) -> Result<(), AllocError>
    ensures { OnOk result (string_bytes line.new
        ≡ string_bytes line.old ++ line_of form (node_at (map owned_step location.now) (V.meaning value))) }
{
    push_path_alone(form, location, line)?;
    push_after_path(form, value, line)
}

/// Appends the path that the line of the node at this location has, if it has one.
fn push_path_alone(form: Form, location: &[OwnedStep], line: &mut String) -> Result<(), AllocError>
    ensures { OnOk result (string_bytes line.new ≡ string_bytes line.old
        ++ path_in_line form (map owned_step location.now)) }
{
    if form.has_path {
        push_location(line, location)
    } else {
        Ok(())
    }
}

/// Writes that line, behind the text `lead`; it is made in `line`, and what that held is gone then.
/// `Write` says that the output failed, and `NoMemory` that memory ran out; after both a prefix of
/// the line is written. There are no other errors.
pub fn write_found<V: Selectable, W: Writer>(
    alloc: Global,
    form: Form,
    lead: &str,
    location: &[OwnedStep],
    value: Option<V>,
    line: &mut String,
    output: &mut W,
) -> Result<(), Fault>
    ensures ok { OnOk result (WritesAll W.contents W.has_failed output.old output.new
        (flat_map (line_behind lead.now form) (found_nodes V.meaning location.now value))) }
    ensures stopped { IfErr result (StopsWriting W.contents W.has_failed output.old output.new
        (flat_map (line_behind lead.now form) (found_nodes V.meaning location.now value))) }
    ensures calls { GoesAs W.write_takes output.old output.new
        (flat_map (line_behind lead.now form) (found_nodes V.meaning location.now value)) result }
{
    let Some(value) = value else {
        return Ok(());
    };
    line.clear();
    line.push_str(lead)?;
    push_line_at(form, location, value, line)?;
    let Ok(()) = write_all(output, line.as_bytes()) else {
        return Err(Fault::Write);
    };
    Ok(())
}
