//! Queries, segments and selectors in canonical texts (RFC 9535 sections 2.1 to 2.5).

ghost use Rattle.std.specs.Prelude.{◌≡◌, ◌++◌, OnOk};
ghost use Rattle.jp_tree.specs.Views.{query_of, segment_of, selector_of};
ghost use Rattle.jp_canon.specs.Canon.{canon_of, segment_text, selector_text};

use crate::expressions::write_expr;
use crate::values::{write_numeral, write_slice};
use crate::writer::Writer;
use jp_tree::{Query, Segment, Selector};
use std::alloc::AllocError;

/// Writes a query: its identifier, then each segment.
#[cycle(nested)]
pub(crate) fn write_query(out: &mut Writer, query: &Query) -> Result<(), AllocError>
    ensures { OnOk result (out.new ≡ out.old ++ canon_of (query_of query.now)) }
{
    out.word(if query.absolute { "$" } else { "@" })?;
    for segment in &query.segments {
        write_segment(out, segment)?;
    }
    Ok(())
}

/// Writes a segment: its selectors between brackets, with commas between them.
#[cycle(nested)]
fn write_segment(out: &mut Writer, segment: &Segment) -> Result<(), AllocError>
    ensures { OnOk result (out.new ≡ out.old ++ segment_text (segment_of segment.now)) }
{
    out.word(if segment.descendant { "..[" } else { "[" })?;
    for (i, selector) in segment.selectors.iter().enumerate() {
        out.word_if(i > 0, ",")?;
        write_selector(out, selector)?;
    }
    out.word("]")
}

/// Writes a selector.
#[cycle(nested)]
fn write_selector(out: &mut Writer, selector: &Selector) -> Result<(), AllocError>
    ensures { OnOk result (out.new ≡ out.old ++ selector_text (selector_of selector.now)) }
{
    match selector {
        Selector::Name(name) => out.quote(name.as_str()),
        Selector::Wildcard => out.word("*"),
        Selector::Index(index) => write_numeral(out, *index),
        Selector::Slice(slice) => write_slice(out, slice),
        Selector::Filter(expr) => {
            out.word("?")?;
            write_expr(out, expr)
        }
    }
}
