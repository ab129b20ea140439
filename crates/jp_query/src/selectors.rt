//! Selectors (RFC 9535 section 2.3), and what stands between brackets (section 2.5.1.1).

ghost use Rattle.std.specs.Prelude.{◌≡◌, map, IfOk};
ghost use Rattle.jp_reading.specs.Views.{Gives, outcome_map};
ghost use Rattle.jp_tree.specs.Tree.{filter, name, slice};
ghost use Rattle.jp_tree.specs.Views.{selector_of};
ghost use Rattle.jp_query.specs.Private.Rules as rules;
ghost use Rattle.jp_query.specs.Private.Parts.{boxed_expr, boxed_selector, next_entry};
ghost use Rattle.jp_query.specs.Private.Reading.{read_flat, read_inside};

use crate::expressions::inside;
use crate::ints::int_component;
use crate::lists::{append_boxed, boxed};
use crate::slices::slice;
use crate::strings::quoted;
use jp_reading::{Reader, Stop};
use jp_tree::{Expr, Numeral, Selector};
use std::alloc::{AllocError, Global};

/// Selectors with commas between them, and blank space around each. The reader stands before the
/// first, and then past the blanks after the last.
#[cycle(nested)]
#[tactic(auto, unfolding(crate::specs::Private::Rules::entries))]
pub(crate) fn entries(reader: &mut Reader, levels: u32) -> Result<Vec<Selector>, Stop>
    ensures { Gives
        (λ v. map selector_of v.items)
        result
        reader.new
        (read_inside levels rules.entries reader.old) }
{
    let mut selectors = Vec::new(reader.alloc());
    let first = entry(reader, levels)?;
    append_boxed(&mut selectors, first)?;
    'entries: while reader.is_at(',') {
        let next = next_entry(reader, levels)?;
        append_boxed(&mut selectors, next)?;
    }
    Ok(selectors)
}

/// A selector after a comma, and the blanks after each of them.
#[cycle(nested)]
fn next_entry(reader: &mut Reader, levels: u32) -> Result<Box<Selector>, Stop>
    ensures { Gives boxed_selector result reader.new (read_inside levels next_entry reader.old) }
{
    reader.expect(',')?;
    reader.skip();
    entry(reader, levels)
}

/// A selector and the blanks after it.
#[cycle(nested)]
#[tactic(auto, unfolding(crate::specs::Private::Rules::entry))]
fn entry(reader: &mut Reader, levels: u32) -> Result<Box<Selector>, Stop>
    ensures { Gives boxed_selector result reader.new (read_inside levels rules.entry reader.old) }
{
    let selector = selector(reader, levels)?;
    reader.skip();
    Ok(selector)
}

/// A selector.
#[cycle(nested)]
#[tactic(auto, unfolding(crate::specs::Private::Rules::selector))]
fn selector(reader: &mut Reader, levels: u32) -> Result<Box<Selector>, Stop>
    ensures { Gives boxed_selector result reader.new (read_inside levels rules.selector reader.old) }
{
    if reader.is_at('"') {
        return name_selector(reader, '"');
    }
    if reader.is_at('\'') {
        return name_selector(reader, '\'');
    }
    if reader.is_at('*') {
        reader.bump();
        return Ok(boxed(reader.alloc(), Selector::Wildcard)?);
    }
    if reader.is_at(':') {
        return slice_selector(reader, None);
    }
    if reader.is_at('?') {
        let condition = inside(reader, '?', levels)?;
        return Ok(filter_selector(reader.alloc(), condition)?);
    }
    number(reader)
}

/// A name in quotes.
#[inline(never)]
fn name_selector(reader: &mut Reader, quote: char) -> Result<Box<Selector>, Stop>
    ensures { Gives
        boxed_selector
        result
        reader.new
        (outcome_map name (read_flat (rules.quoted quote) reader.old)) }
{
    let name = quoted(reader, quote)?;
    Ok(boxed(reader.alloc(), Selector::Name(name))?)
}

/// A slice from its first colon on.
#[inline(never)]
fn slice_selector(reader: &mut Reader, start: Option<Numeral>) -> Result<Box<Selector>, Stop>
    ensures { Gives
        boxed_selector
        result
        reader.new
        (outcome_map slice (read_flat (rules.slice_from start) reader.old)) }
{
    let slice = slice(reader, start)?;
    Ok(boxed(reader.alloc(), Selector::Slice(slice))?)
}

/// The children for which the condition is true.
#[inline(never)]
fn filter_selector(alloc: Global, condition: Box<Expr>) -> Result<Box<Selector>, AllocError>
    ensures { IfOk result (λ b. boxed_selector b ≡ filter (boxed_expr condition)) }
{
    boxed(alloc, Selector::Filter(Box::into_inner(condition)))
}

/// An index, or a slice that starts with it.
#[inline(never)]
#[tactic(auto, unfolding(crate::specs::Private::Rules::number_selector))]
fn number(reader: &mut Reader) -> Result<Box<Selector>, Stop>
    ensures { Gives boxed_selector result reader.new (read_flat rules.number_selector reader.old) }
{
    let index = int_component(reader)?;
    if reader.is_before(':') {
        reader.skip();
        return slice_selector(reader, Some(index));
    }
    Ok(boxed(reader.alloc(), Selector::Index(index))?)
}
