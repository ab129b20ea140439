//! Mends of operators of other languages, by what says the same.

use super::Piece::{Kept, New};
use super::cuts::{cut_at, cut_literal, cut_name, cut_side, has, past_blanks, past_name};
use super::{Cut, Mended, joined, write_characters};
use crate::class::Class;
use crate::marks::{begins_as, begins_in, ends, is, name_at, stem, without_first, without_last};
use crate::reason::Reason;
use crate::reasons::is_start_name;
use jp_canon::Writer;
use std::alloc::{AllocError, Global};

/// An operator in a text: what is before its left side, that side, and what is behind the operator.
#[derive(Clone, Copy)]
struct Operation<'t> {
    before: &'t [char],
    side: &'t [char],
    operand: &'t [char],
}

/// The text with an operator of another language mended; None for the reasons of other files, and where no
/// mend is plain.
pub(super) fn mended(alloc: Global, reason: Reason, cut: Cut<'_>) -> Mended {
    let word = name_at(cut.rest);
    let (before, side) = cut_side(cut.front);
    let operand = past_blanks(past_name(cut.rest));
    let it = Operation {
        before,
        side,
        operand,
    };
    if ends(stem(before), "!") {
        return Ok(None);
    }
    match reason {
        Reason::Among if begins_in(side, "@$") => listed(alloc, it, ["(", " == ", " || ", ")"]),
        Reason::Among => item_of(alloc, it),
        Reason::NotAmong if is(word, "nin") => listed(alloc, it, ["(", " != ", " && ", ")"]),
        Reason::NotAmong => {
            let operand = past_blanks(past_name(operand));
            listed(
                alloc,
                Operation { operand, ..it },
                ["(", " != ", " && ", ")"],
            )
        }
        Reason::AnyOf => any_of(alloc, it),
        Reason::Between => between(alloc, it),
        Reason::Contains => contains(alloc, it),
        Reason::Affix if is_start_name(word) => affixed(alloc, it, ["", ".*"]),
        Reason::Affix => affixed(alloc, it, [".*", ""]),
        Reason::Matches => affixed(alloc, it, ["", ""]),
        Reason::Like => like(alloc, it),
        _ => Ok(None),
    }
}

/// The text of a literal between quotation marks, or of a pattern between slashes, if no sign of it is one of those.
fn plain_text<'t>(literal: &'t [char], signs: &str) -> Option<&'t [char]> {
    match literal {
        ['"' | '\'' | '/', body @ .., _] if !has(body, signs) => Some(body),
        _ => None,
    }
}

/// Comparisons with each item of a list, in parentheses.
fn listed(
    alloc: Global,
    it: Operation<'_>,
    [open, sign, join, close]: [&'static str; 4],
) -> Mended {
    if !begins_in(it.side, "@$") {
        return Ok(None);
    }
    let mut out = Writer::new(alloc);
    write_characters(&mut out, it.before)?;
    out.text(open)?;
    let Some(after) = write_items(&mut out, it.side, it.operand, [sign, join])? else {
        return Ok(None);
    };
    out.text(close)?;
    write_characters(&mut out, after)?;
    Ok(Some(out.into_text()))
}

/// `anyof`: an array of which some item is one of the list.
fn any_of(alloc: Global, it: Operation<'_>) -> Mended {
    if !begins_in(it.side, "@$") {
        return Ok(None);
    }
    let mut out = Writer::new(alloc);
    write_characters(&mut out, it.before)?;
    write_characters(&mut out, it.side)?;
    out.text("[?")?;
    let Some(after) = write_items(&mut out, &['@'], it.operand, [" == ", " || "])? else {
        return Ok(None);
    };
    out.text("]")?;
    write_characters(&mut out, after)?;
    Ok(Some(out.into_text()))
}

/// Writes comparisons of the side with each literal of a list, and answers the text behind the list; None
/// where it is no list of literals, or may be one of numbers with commas between their digits.
fn write_items<'t>(
    out: &mut Writer,
    side: &[char],
    list: &'t [char],
    [sign, join]: [&'static str; 2],
) -> Result<Option<&'t [char]>, AllocError> {
    if !begins_in(list, "[(") {
        return Ok(None);
    }
    let mut rest = without_first(list);
    for _ in 0..list.len() {
        let (item, after) = cut_literal(past_blanks(rest));
        if item.is_empty() || matches!(item, ['0', '0'..='9', ..]) {
            return Ok(None);
        }
        write_characters(out, side)?;
        out.text(sign)?;
        write_characters(out, item)?;
        match past_blanks(after) {
            [',', more @ ..] => {
                out.text(join)?;
                rest = more;
            }
            [']' | ')', end @ ..] => return Ok(Some(end)),
            _ => return Ok(None),
        }
    }
    Ok(None)
}

/// `1 in @.a`: an array of which some item is the literal.
fn item_of(alloc: Global, it: Operation<'_>) -> Mended {
    let (literal, other) = cut_literal(it.side);
    let (path, after) = cut_name(it.operand, "@$.");
    if literal.is_empty() || !other.is_empty() || !begins_in(path, "@$") || begins_in(after, "[(") {
        return Ok(None);
    }
    let literal = Kept(literal);
    let (path, after) = (Kept(path), Kept(after));
    let parts = [
        Kept(it.before),
        path,
        New("[?@ == "),
        literal,
        New("]"),
        after,
    ];
    joined(alloc, &parts)
}

/// `between 1 and 5`.
fn between(alloc: Global, it: Operation<'_>) -> Mended {
    let (low, behind) = cut_literal(it.operand);
    let word = name_at(past_blanks(behind));
    let (high, after) = cut_literal(past_blanks(past_name(past_blanks(behind))));
    let is_range = (is(word, "and") || is(word, "AND")) && !low.is_empty() && !high.is_empty();
    if !is_range || !begins_in(it.side, "@$") {
        return Ok(None);
    }
    let side = Kept(it.side);
    let (low, high) = (Kept(low), Kept(high));
    let parts = [
        Kept(it.before),
        side,
        New(" >= "),
        low,
        New(" && "),
        side,
        New(" <= "),
        high,
        Kept(after),
    ];
    joined(alloc, &parts)
}

/// `contains`: a part of a text, or an item of an array, whichever the value is.
fn contains(alloc: Global, it: Operation<'_>) -> Mended {
    let (literal, after) = cut_literal(it.operand);
    if literal.is_empty() || !begins_in(it.side, "@$") {
        return Ok(None);
    }
    let (before, side, after) = (Kept(it.before), Kept(it.side), Kept(after));
    let item = Kept(literal);
    if !begins_in(literal, "\"'") {
        return joined(
            alloc,
            &[before, side, New("[?@ == "), item, New("]"), after],
        );
    }
    if plain_text(literal, "()*+.?[\\]{|}'\"").is_none() {
        return Ok(None);
    }
    let parts = [
        before,
        New("(search("),
        side,
        New(", "),
        item,
        New(") || "),
        side,
        New("[?@ == "),
        item,
        New("])"),
        after,
    ];
    joined(alloc, &parts)
}

/// A match by a text, with these patterns before it and behind it; a pattern that has signs of other
/// languages is left alone.
fn affixed(alloc: Global, it: Operation<'_>, [front, end]: [&'static str; 2]) -> Mended {
    let operand = if is(name_at(it.operand), "with") {
        past_blanks(past_name(it.operand))
    } else {
        it.operand
    };
    let (literal, after) = cut_literal(operand);
    let is_pattern = front.is_empty() && end.is_empty();
    let signs = if is_pattern {
        "^$\\'\""
    } else {
        "()*+.?[\\]{|}'\""
    };
    let Some(body) = plain_text(literal, signs) else {
        return Ok(None);
    };
    if !begins_in(it.side, "@$") {
        return Ok(None);
    }
    let parts = [
        Kept(it.before),
        New("match("),
        Kept(it.side),
        New(", \""),
        New(front),
        Kept(body),
        New(end),
        New("\")"),
        Kept(after),
    ];
    joined(alloc, &parts)
}

/// SQL's `like`, in whose pattern `%` is any text and `_` any character.
fn like(alloc: Global, it: Operation<'_>) -> Mended {
    let (literal, after) = cut_literal(it.operand);
    let Some(body) = plain_text(literal, "()*+.?[\\]{|}'\"") else {
        return Ok(None);
    };
    if !begins_in(it.side, "@$") {
        return Ok(None);
    }
    let mut out = Writer::new(alloc);
    write_characters(&mut out, it.before)?;
    out.text("match(")?;
    write_characters(&mut out, it.side)?;
    out.text(", \"")?;
    write_like(&mut out, body)?;
    out.text("\")")?;
    write_characters(&mut out, after)?;
    Ok(Some(out.into_text()))
}

/// Writes the pattern of I-Regexp for one of SQL.
fn write_like(out: &mut Writer, pattern: &[char]) -> Result<(), AllocError> {
    for c in pattern {
        match *c {
            '%' => out.text(".*")?,
            '_' => out.text(".")?,
            _ => out.character(*c)?,
        }
    }
    Ok(())
}
