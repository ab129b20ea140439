//! The row of a document: a cell for each query.

ghost use Rattle.std.specs.Prelude.{◌≡◌, ◌+◌, ◌∷◌, ◌++◌, IfErr, IfOk, OnOk, false, length, map};
ghost use Rattle.std.specs.Prelude.{string_bytes};
ghost use Rattle.std.specs.List.{flat_map};
ghost use Rattle.jp_document.specs.Text.{text_of};
ghost use Rattle.jp_document.specs.Value.{items_of, list};
ghost use Rattle.jp_tree.specs.Views.{query_of};
ghost use Rattle.jp_select.specs.Steps.{Takes};
ghost use Rattle.jp_evaluate.specs.Lent.{has_failed, rest_of, steps_of};
ghost use Rattle.jp_evaluate.specs.Nodelist.{nodelist};
ghost use Rattle.jp_limit.specs.OutputLimit.{StaysWithin};
ghost use Rattle.jp_cells.specs.Cells.{cell_text, text_alone, values_in};
ghost use Rattle.jp_cells.specs.Columns.{cell_of, columns_text, nodes_in};
ghost use Rattle.jp_cells.specs.Fields.{field_text};
ghost use Rattle.jp_cells.specs.Limits.{IsTooMuch, StopsWithoutSteps};
ghost use Rattle.jp_cells.specs.Private.Lists.{behind_comma};

use crate::fault::{RowFault, stay_within};
use crate::field::push_field;
use crate::row::{end_row, push_separator};
use crate::style::Style;
use jp_check::Checked;
use jp_evaluate::{Frame, LentNodes, Patterns, lent_nodes_in};
use jp_lent::{Selectable, push_raw, push_value};
use jp_limit::OutputLimit;
use jp_match::Marks;
use jp_select::Steps;
use std::alloc::{AllocError, Global};
use std::mem;

/// Memory that goes from the row of one document to that of the next.
#[derive(Drop)]
pub struct Room {
    /// What was read of the patterns.
    patterns: Patterns,
    /// What a cell is made in.
    cell: String,
}

impl Room {
    /// None yet: it is taken as rows need it.
    pub fn new(alloc: Global) -> Room {
        Room {
            patterns: Patterns::new(alloc),
            cell: String::new(alloc),
        }
    }
}

/// Appends the row of the document whose value is the root: a cell for each query, in their order. The
/// evaluations take from `steps` those that they make. Answers how many nodes the queries select together.
/// The errors are that memory ran out, or that there are more nodes than 2^64 - 1, that the steps are
/// used up, and that there are more nodes than `limit` says, or that the row, with what stood there before it, has
/// more bytes; after each nothing is said of the row. No cell is made of more nodes or bytes than that, but for its last value.
pub fn push_columns<'d: 'q, 'q, V: Selectable + 'd>(
    alloc: Global,
    style: Style,
    limit: OutputLimit,
    root: V,
    queries: &'q [Checked],
    room: &mut Room,
    steps: &mut Steps,
    row: &mut String,
) -> Result<u64, RowFault>
    ensures count { IfOk result (λ count. count
        ≡ nodes_in (V.meaning root) (map (λ c. query_of c.query) queries.now)) }
    ensures row { OnOk result (string_bytes row.new ≡ string_bytes row.old
        ++ columns_text style (map (λ c. query_of c.query) queries.now) (V.meaning root)) }
    ensures within { IfOk result (λ count. StaysWithin limit count (length (string_bytes row.new))) }
    ensures beyond { IfErr result (IsTooMuch limit
        (nodes_in (V.meaning root) (map (λ c. query_of c.query) queries.now))
        (length (string_bytes row.old
        ++ columns_text style (map (λ c. query_of c.query) queries.now) (V.meaning root)))) }
    ensures takes { Takes steps.old steps.new }
    ensures stopped { StopsWithoutSteps result steps.new }
{
    let begin = row.len();
    let mut frames: Vec<Frame<'d, V>> = Vec::new(alloc);
    let mut count: u64 = 0;
    for (column, query) in queries.iter().enumerate() {
        push_separator(style.format, column, row)?;
        let more = push_column(
            alloc,
            style,
            limit,
            root,
            query,
            room,
            &mut frames,
            steps,
            row,
        )?;
        count = count.checked_add(more).ok_or(AllocError)?;
    }
    end_row(style.format, begin, row)?;
    stay_within(limit, count, row.len())?;
    Ok(count)
}

/// Appends the cell of a query, as it stands in a row. Answers how many nodes it selects.
fn push_column<'d: 'q, 'q, V: Selectable + 'd>(
    alloc: Global,
    style: Style,
    limit: OutputLimit,
    root: V,
    query: &'q Checked,
    room: &mut Room,
    frames: &mut Vec<Frame<'d, V>>,
    steps: &mut Steps,
    row: &mut String,
) -> Result<u64, RowFault>
    ensures count { IfOk result (λ count. count
        ≡ length (nodelist (query_of query.now.query) (V.meaning root))) }
    ensures cell { OnOk result (string_bytes row.new ≡ string_bytes row.old
        ++ field_text style (cell_of style.raw (V.meaning root) (query_of query.now.query))) }
    ensures beyond { IfErr result (IsTooMuch limit
        (length (nodelist (query_of query.now.query) (V.meaning root)))
        (length (cell_of style.raw (V.meaning root) (query_of query.now.query)))) }
    ensures takes { Takes steps.old steps.new }
    ensures stopped { StopsWithoutSteps result steps.new }
{
    let patterns = mem::replace(&mut room.patterns, Patterns::new(alloc));
    let within = mem::replace(frames, Vec::new(alloc));
    let mut nodes = lent_nodes_in(alloc, root, query, &Marks, patterns, within, *steps);
    room.cell.clear();
    let pushed = push_cell(style.raw, limit, &mut nodes, &mut room.cell);
    (room.patterns, *steps, *frames) = nodes.into_rooms();
    let count = pushed?;
    push_field(style, room.cell.as_str(), row)?;
    Ok(count)
}

/// Appends the text of the cell in which the values of the nodes stand that are still to come. Answers
/// how many there are.
fn push_cell<'d: 'q, 'q, V: Selectable + 'd>(
    raw: bool,
    limit: OutputLimit,
    nodes: &mut LentNodes<'d, 'q, V, Marks>,
    cell: &mut String,
) -> Result<u64, RowFault>
    requires { has_failed nodes.now ≡ false }
    ensures count { IfOk result (λ count. count ≡ length (rest_of V.meaning nodes.old)) }
    ensures cell { OnOk result (string_bytes cell.new ≡ string_bytes cell.old
        ++ cell_text raw (values_in (rest_of V.meaning nodes.old))) }
    ensures beyond { IfErr result (IsTooMuch limit (length (rest_of V.meaning nodes.old))
        (length (string_bytes cell.old ++ cell_text raw (values_in (rest_of V.meaning nodes.old))))) }
    ensures takes { Takes (steps_of nodes.old) (steps_of nodes.new) }
    ensures stopped { StopsWithoutSteps result (steps_of nodes.new) }
{
    let Some(first) = nodes.next_value() else {
        return Ok(0);
    };
    let first = first?;
    match nodes.next_value() {
        None => {
            push_alone(raw, first, cell)?;
            Ok(1)
        }
        Some(second) => push_list(limit, first, second?, nodes, cell),
    }
}

/// Appends the text of a cell in which this value stands alone.
fn push_alone<'d, V: Selectable + 'd>(
    raw: bool,
    value: V,
    cell: &mut String,
) -> Result<(), AllocError>
    ensures { OnOk result (string_bytes cell.new
        ≡ string_bytes cell.old ++ text_alone raw (V.meaning value)) }
{
    if raw {
        push_raw(cell, value)
    } else {
        push_value(cell, value)
    }
}

/// Appends a JSON list of two values and of those of the nodes that are still to come. Answers how many
/// values it has.
fn push_list<'d: 'q, 'q, V: Selectable + 'd>(
    limit: OutputLimit,
    first: V,
    second: V,
    nodes: &mut LentNodes<'d, 'q, V, Marks>,
    cell: &mut String,
) -> Result<u64, RowFault>
    requires { has_failed nodes.now ≡ false }
    ensures count { IfOk result (λ count. count ≡ 2 + length (rest_of V.meaning nodes.old)) }
    ensures cell { OnOk result (string_bytes cell.new ≡ string_bytes cell.old
        ++ text_of (list (items_of (V.meaning first ∷ V.meaning second
        ∷ values_in (rest_of V.meaning nodes.old))))) }
    ensures beyond { IfErr result (IsTooMuch limit (2 + length (rest_of V.meaning nodes.old))
        (length (string_bytes cell.old ++ text_of (list (items_of (V.meaning first ∷ V.meaning second
        ∷ values_in (rest_of V.meaning nodes.old))))))) }
    ensures takes { Takes (steps_of nodes.old) (steps_of nodes.new) }
    ensures stopped { StopsWithoutSteps result (steps_of nodes.new) }
{
    cell.push('[')?;
    push_value(cell, first)?;
    push_behind_comma(second, cell)?;
    let others = push_others(limit, nodes, cell)?;
    cell.push(']')?;
    let count = others.checked_add(2).ok_or(AllocError)?;
    Ok(count)
}

/// Appends a comma and a value for each node that is still to come. Answers how many there are, unless they or what
/// the cell has are more than there may be.
fn push_others<'d: 'q, 'q, V: Selectable + 'd>(
    limit: OutputLimit,
    nodes: &mut LentNodes<'d, 'q, V, Marks>,
    cell: &mut String,
) -> Result<u64, RowFault>
    requires { has_failed nodes.now ≡ false }
    ensures count { IfOk result (λ count. count ≡ length (rest_of V.meaning nodes.old)) }
    ensures cell { OnOk result (string_bytes cell.new ≡ string_bytes cell.old
        ++ flat_map behind_comma (values_in (rest_of V.meaning nodes.old))) }
    ensures beyond { IfErr result (IsTooMuch limit (length (rest_of V.meaning nodes.old))
        (length (string_bytes cell.old
        ++ flat_map behind_comma (values_in (rest_of V.meaning nodes.old))))) }
    ensures takes { Takes (steps_of nodes.old) (steps_of nodes.new) }
    ensures stopped { StopsWithoutSteps result (steps_of nodes.new) }
{
    let mut count: u64 = 0;
    while let Some(next) = nodes.next_value() {
        let value = next?;
        count = count.checked_add(1).ok_or(AllocError)?;
        push_behind_comma(value, cell)?;
        stay_within(limit, count, cell.len())?;
    }
    Ok(count)
}

/// Appends a comma and a value.
fn push_behind_comma<'d, V: Selectable + 'd>(value: V, cell: &mut String) -> Result<(), AllocError>
    ensures { OnOk result (string_bytes cell.new
        ≡ string_bytes cell.old ++ behind_comma (V.meaning value)) }
{
    cell.push(',')?;
    push_value(cell, value)
}
