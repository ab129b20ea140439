//! Mends of dots, brackets and names after dots.

use super::Piece::{Kept, New};
use super::cuts::{before_bracket, cut_at, cut_name, past_name};
use super::{Cut, Mended, joined, spliced};
use crate::class::{Class, split_prefix, split_suffix};
use crate::marks::{
    begins, begins_in, ends, ends_in, is, name_at, stem, without_first, without_last,
};
use crate::reason::Reason;
use std::alloc::Global;

/// The text with its dots, brackets and names mended; None for the reasons of other files, and where no
/// mend is plain.
pub(super) fn mended(alloc: Global, reason: Reason, cut: Cut<'_>) -> Mended {
    let Cut { front, rest } = cut;
    match reason {
        Reason::EmptyBrackets => spliced(alloc, front, "*", rest),
        Reason::LastComma => joined(alloc, &[Kept(without_last(stem(front))), Kept(rest)]),
        Reason::DotBracket => joined(alloc, &[Kept(without_last(front)), Kept(rest)]),
        Reason::ThreeDots => joined(alloc, &[Kept(front), Kept(without_first(rest))]),
        Reason::DotQuote => dot_quote(alloc, cut),
        Reason::DotDigit => digits(alloc, cut),
        Reason::OddName => odd_name(alloc, cut),
        Reason::OwnName if is(name_at(rest), "root") => {
            spliced(alloc, without_last(front), "$", past_name(rest))
        }
        Reason::MissingDot => spliced(alloc, front, ".", rest),
        Reason::NextSegment if ends_in(front, "$]") && begins(rest, "*") => {
            spliced(alloc, front, ".", rest)
        }
        Reason::DoubleStar if ends(front, ".*") && begins(rest, "*.") => {
            let kept = without_last(without_last(front));
            spliced(alloc, kept, ".", without_first(rest))
        }
        Reason::BlankName => blank_name(alloc, cut),
        _ => Ok(None),
    }
}

/// A name between quotation marks after a dot.
fn dot_quote(alloc: Global, Cut { front, rest }: Cut<'_>) -> Mended {
    let end = if begins(rest, "'") { "'" } else { "\"" };
    let (name, after) = cut_at(without_first(rest), end);
    if after.is_empty() {
        return Ok(None);
    }
    let (open, close) = if begins(rest, "'") {
        ("['", "']")
    } else {
        ("[\"", "\"]")
    };
    let parts = [
        Kept(before_bracket(front)),
        New(open),
        Kept(name),
        New(close),
        Kept(without_first(after)),
    ];
    joined(alloc, &parts)
}

/// A name that begins with a digit, after a dot.
fn digits(alloc: Global, Cut { front, rest }: Cut<'_>) -> Mended {
    let named = split_prefix(rest, Class::Name);
    bracketed(alloc, before_bracket(front), &[], "", named)
}

/// A name in which signs stand that XML, JSON-LD and others have in names.
fn odd_name(alloc: Global, Cut { front, rest }: Cut<'_>) -> Mended {
    let (dotted, begun) = split_suffix(front, Class::Name);
    let named = cut_name(rest, "@$#-:");
    bracketed(alloc, before_bracket(dotted), begun, "", named)
}

/// A name after a dot with one blank in it.
fn blank_name(alloc: Global, Cut { front, rest }: Cut<'_>) -> Mended {
    let (dotted, begun) = split_suffix(without_last(front), Class::Name);
    let named = split_prefix(rest, Class::Name);
    let ends_name = named.1.is_empty() || begins_in(named.1, ".[");
    if begun.is_empty() || !ends(dotted, ".") || !ends_name {
        return Ok(None);
    }
    bracketed(alloc, before_bracket(dotted), begun, " ", named)
}

/// A name of two parts, with what is between them, in quotes and brackets.
fn bracketed<'t>(
    alloc: Global,
    kept: &'t [char],
    begun: &'t [char],
    between: &'static str,
    (name, after): (&'t [char], &'t [char]),
) -> Mended {
    let parts = [
        Kept(kept),
        New("[\""),
        Kept(begun),
        New(between),
        Kept(name),
        New("\"]"),
        Kept(after),
    ];
    joined(alloc, &parts)
}
