//! Queries, segments and selectors (RFC 9535 sections 2.1 to 2.5).

ghost use Rattle.std.specs.Prelude.{◌≡◌, [], ◌∷◌, map, IfOk};
ghost use Rattle.jp_reading.specs.Outcome.{after_blank, passes};
ghost use Rattle.jp_reading.specs.Views.{Gives};
ghost use Rattle.jp_tree.specs.Tree.{segment, selectors};
ghost use Rattle.jp_tree.specs.Views.{selector_of, segment_of, query_of};
ghost use Rattle.jp_query.specs.Private.Rules as rules;
ghost use Rattle.jp_query.specs.Private.Rules.{begins_segment};
ghost use Rattle.jp_query.specs.Private.Reading.{at_text_end, query_at, read_flat, read_inside};

use crate::lists::append;
use crate::names::shorthand;
use crate::selectors::entries;
use jp_reading::{Reader, Stop};
use jp_tree::{Query, Segment, Selector};
use std::alloc::{AllocError, Global};

/// A whole query: the text ends after its segments.
#[tactic(auto, unfolding(crate::specs::Private::Reading::query_at, crate::specs::Private::Rules::query))]
pub(crate) fn query(reader: &mut Reader, levels: u32) -> Result<Query, Stop>
    ensures { Gives query_of result reader.new (query_at levels reader.old) }
{
    reader.expect('$')?;
    let segments = segments(reader, levels)?;
    end(reader)?;
    Ok(Query {
        absolute: true,
        segments,
    })
}

/// The end of the text; where it goes on, the stop is past the blanks.
pub(crate) fn end(reader: &mut Reader) -> Result<(), Stop>
    ensures { Gives (λ d. d) result reader.new (at_text_end tt reader.old) }
{
    if reader.peek().is_some() {
        reader.skip();
        return Err(Stop::Syntax(reader.place()));
    }
    Ok(())
}

/// Segment after segment, with blank space before each; the reader stays before blank space that
/// none follows.
#[cycle(nested)]
pub(crate) fn segments(reader: &mut Reader, levels: u32) -> Result<Vec<Segment>, Stop>
    ensures { Gives
        (λ v. map segment_of v.items)
        result
        reader.new
        (read_inside levels rules.segments reader.old) }
{
    let mut segments = Vec::new(reader.alloc());
    'segments: while is_before_segment(reader) {
        reader.skip();
        let next = segment(reader, levels)?;
        append(&mut segments, next)?;
    }
    Ok(segments)
}

/// Whether a segment begins past the blanks.
fn is_before_segment(reader: &Reader) -> bool
    ensures { result ≡ passes begins_segment (after_blank reader.now) }
{
    matches!(reader.peek_past_blank(), Some('[' | '.'))
}

/// A child segment or a descendant segment (RFC 9535 section 2.5).
#[cycle(nested)]
#[tactic(auto, unfolding(crate::specs::Private::Rules::segment, crate::specs::Private::Rules::selection))]
fn segment(reader: &mut Reader, levels: u32) -> Result<Segment, Stop>
    ensures { Gives segment_of result reader.new (read_inside levels rules.segment reader.old) }
{
    if reader.is_at('[') {
        return bracketed(reader, levels, false);
    }
    reader.expect('.')?;
    if !reader.is_at('.') {
        return member(reader, false);
    }
    reader.bump();
    if reader.is_at('[') {
        return bracketed(reader, levels, true);
    }
    member(reader, true)
}

/// Selectors in brackets.
#[cycle(nested)]
#[tactic(auto, unfolding(crate::specs::Private::Rules::bracket))]
fn bracketed(reader: &mut Reader, levels: u32, descendant: bool) -> Result<Segment, Stop>
    ensures { Gives
        segment_of
        result
        reader.new
        (read_inside levels (rules.bracket descendant) reader.old) }
{
    reader.expect('[')?;
    reader.skip();
    in_brackets(reader, levels, descendant)
}

/// Selectors, and the closing bracket.
#[cycle(nested)]
fn in_brackets(reader: &mut Reader, levels: u32, descendant: bool) -> Result<Segment, Stop>
    ensures { Gives
        segment_of
        result
        reader.new
        (read_inside levels (rules.in_brackets descendant) reader.old) }
{
    let selectors = entries(reader, levels)?;
    reader.expect(']')?;
    Ok(Segment {
        descendant,
        selectors,
    })
}

/// `*` or a member's name after a dot.
#[tactic(auto, unfolding(crate::specs::Private::Rules::member))]
fn member(reader: &mut Reader, descendant: bool) -> Result<Segment, Stop>
    ensures { Gives segment_of result reader.new (read_flat (rules.member descendant) reader.old) }
{
    if reader.is_at('*') {
        reader.bump();
        return Ok(alone(reader.alloc(), descendant, Selector::Wildcard)?);
    }
    let name = shorthand(reader)?;
    Ok(alone(reader.alloc(), descendant, Selector::Name(name))?)
}

/// The segment of one selector.
fn alone(alloc: Global, descendant: bool, selector: Selector) -> Result<Segment, AllocError>
    ensures { IfOk
        result
        (λ s. segment_of s ≡ segment descendant (selectors (selector_of selector ∷ []))) }
{
    let mut selectors = Vec::new(alloc);
    append(&mut selectors, selector)?;
    Ok(Segment {
        descendant,
        selectors,
    })
}
