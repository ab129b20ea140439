//! Where texts stand.

ghost use Rattle.std.specs.Prelude.{◌≡◌, ◌+◌, ◌≤◌, IfSome, OnSome, Some};
ghost use Rattle.std.specs.Prelude.{drop, length, option_map, string_bytes, take};
ghost use Rattle.json.specs.Text.{content, plain};
ghost use Rattle.jp_decimal.specs.NumberText.{number_text};
ghost use Rattle.jp_flat.specs.Flat.{Grows, piece, shown, text_at};
ghost use Rattle.jp_flat.specs.Private.Tokens.{HasSpan, IsEndOf, IsSpelledIn, StandsAt, said};

use crate::escapes::push_content;
use crate::item::Span;
use crate::tables::Tables;
use crate::token::Spelled;
use jp_decimal::{Number, push_number};

/// The span of a text: where the document spells it, else, with its escapes undone in the room, behind the
/// spare texts. None where its escapes are none, no memory is left, or more than 2^32 bytes would
/// stand there.
#[inline(always)]
pub(crate) fn text_span(tables: &mut Tables<'_>, text: Spelled<'_>) -> Option<Span>
    requires { IsSpelledIn tables.old.text.now text }
    ensures spanned { IfSome result (λ s. HasSpan (shown tables.new) s (said text.entry)) }
    ensures grows { OnSome result (Grows (shown tables.old) (shown tables.new)) }
    ensures items { OnSome result (tables.new.items.items ≡ tables.old.items.items) }
{
    match text {
        Spelled::Plain(first, bytes) => in_text(tables, first, bytes),
        Spelled::Escaped(quoted) => unescaped(tables, quoted),
    }
}

/// The span of a text that stands in the document from this offset on.
#[inline(always)]
pub(crate) fn in_text(tables: &Tables<'_>, first: usize, text: &[u8]) -> Option<Span>
    requires { StandsAt tables.now.text.now first text.now }
    ensures { IfSome result (λ s. text_at (shown tables.now) s ≡ Some text.now) }
{
    let span = span_of(first, text.len())?;
    Some(span)
}

/// A new spare text, which stands with escapes between these quotes, from the first of them on.
#[inline(never)]
fn unescaped(tables: &mut Tables<'_>, quoted: &[u8]) -> Option<Span>
    requires { IsEndOf tables.old.text.now quoted.now }
    ensures spanned { IfSome result (λ s. HasSpan (shown tables.new) s
        (content plain (drop 1 quoted.now))) }
    ensures grows { OnSome result (Grows (shown tables.old) (shown tables.new)) }
    ensures items { OnSome result (tables.new.items.items ≡ tables.old.items.items) }
{
    let quote = tables.text.len().checked_sub(quoted.len())?;
    let text = tables.text.get(quote + 1..)?;
    let old = tables.spare.len();
    push_content(&mut tables.spare, text)?;
    let span = spare_from(tables, old)?;
    Some(span)
}

/// A new spare text.
pub(crate) fn spared(tables: &mut Tables<'_>, text: &str) -> Option<Span>
    ensures spelled { IfSome result (λ s. text_at (shown tables.new) s ≡ Some text.now) }
    ensures grows { OnSome result (Grows (shown tables.old) (shown tables.new)) }
    ensures items { OnSome result (tables.new.items.items ≡ tables.old.items.items) }
{
    let old = tables.spare.len();
    tables.spare.push_str(text).ok()?;
    let span = spare_from(tables, old)?;
    Some(span)
}

/// The text of a number, as a new spare text.
pub(crate) fn spared_number(tables: &mut Tables<'_>, number: Number) -> Option<Span>
    ensures spelled { IfSome result (λ s. text_at (shown tables.new) s ≡ Some (number_text number)) }
    ensures grows { OnSome result (Grows (shown tables.old) (shown tables.new)) }
{
    let old = tables.spare.len();
    push_number(&mut tables.spare, number).ok()?;
    let span = spare_from(tables, old)?;
    Some(span)
}

/// The span of the spare texts from an offset on.
#[inline(always)]
fn spare_from(tables: &Tables<'_>, from: usize) -> Option<Span>
    requires { from ≤ length (string_bytes tables.now.spare) }
    ensures { IfSome result (λ s. text_at (shown tables.now) s
        ≡ Some (drop from (string_bytes tables.now.spare))) }
{
    let first = tables.text.len().checked_add(from)?;
    span_of(first, tables.spare.len() - from)
}

/// So many entries from the first on, None where they are not all there.
pub(crate) fn piece<T>(all: &[T], first: usize, count: usize) -> Option<&[T]>
    ensures { option_map (λ s. s.now) result ≡ piece all.now first count }
{
    let end = first.checked_add(count)?;
    if end <= all.len() {
        Some(&all[first..end])
    } else {
        None
    }
}

/// The span of these numbers, where they are below 2^32.
#[inline(always)]
pub(crate) fn span_of(first: usize, count: usize) -> Option<Span>
    ensures first { IfSome result (λ s. s.first ≡ first) }
    ensures count { IfSome result (λ s. s.count ≡ count) }
{
    Some(Span {
        first: u32::try_from(first).ok()?,
        count: u32::try_from(count).ok()?,
    })
}
