//! Mends at the start of a query, and of slashes.

use super::Piece::{Kept, New};
use super::cuts::{before_bracket, cut_at, has};
use super::{Cut, Mended, joined, spliced};
use crate::class::{Class, split_prefix};
use crate::marks::{begins, begins_as, ends, is, without_first, without_last};
use crate::reason::Reason;
use std::alloc::Global;

/// The text mended at its start or at a slash; None for the reasons of other files, and where no mend is
/// plain.
pub(super) fn mended(alloc: Global, reason: Reason, cut: Cut<'_>) -> Mended {
    let rest = cut.rest;
    match reason {
        Reason::Empty => joined(alloc, &[New("$")]),
        Reason::BlankFirst => joined(alloc, &[Kept(split_prefix(rest, Class::Unseen).1)]),
        Reason::ShellNumber => number(alloc, rest),
        Reason::ShellDot => dot(alloc, rest),
        Reason::CurrentNode if !begins_as(without_first(rest), Class::Name) => {
            joined(alloc, &[New("$"), Kept(without_first(rest))])
        }
        Reason::Braces => joined(alloc, &[Kept(without_braces(rest))]),
        Reason::Quoted => without_quotes(alloc, rest),
        Reason::Slash => slash(alloc, cut),
        Reason::MissingDollar if begins(rest, "[") => joined(alloc, &[New("$"), Kept(rest)]),
        Reason::MissingDollar if begins_as(rest, Class::NameFirst) => {
            joined(alloc, &[New("$."), Kept(rest)])
        }
        _ => Ok(None),
    }
}

/// A number alone was an index.
fn number(alloc: Global, rest: &[char]) -> Mended {
    if split_prefix(rest, Class::Digit).1.is_empty() {
        joined(alloc, &[New("$["), Kept(rest), New("]")])
    } else {
        Ok(None)
    }
}

/// A dot alone is jq's whole document; a bracket has none before it.
fn dot(alloc: Global, rest: &[char]) -> Mended {
    if is(rest, ".") || begins(rest, ".[") {
        joined(alloc, &[New("$"), Kept(without_first(rest))])
    } else {
        joined(alloc, &[New("$"), Kept(rest)])
    }
}

/// The text without the brace that it begins with, and without a `}` that it ends with.
fn without_braces(text: &[char]) -> &[char] {
    match text {
        [_, inner @ .., '}'] => inner,
        _ => without_first(text),
    }
}

/// The text without the quotation marks around it; None where it does not end with one.
fn without_quotes(alloc: Global, text: &[char]) -> Mended {
    match text {
        [first, inner @ .., last] if *first == *last || Class::Quote.holds(*last) => {
            joined(alloc, &[Kept(inner)])
        }
        _ => Ok(None),
    }
}

/// A slash is a dot, and two are two, and digits after one are an index, as in JSON Pointer (RFC 6901). After
/// a name and a dot it begins a name, as that of a path in OpenAPI. What brackets and parents are in XPath
/// is another thing.
fn slash(alloc: Global, Cut { front, rest }: Cut<'_>) -> Mended {
    if ends(front, ".") && !is(front, "$.") && !begins(rest, "//") {
        return path_name(alloc, front, rest);
    }
    if has(front, "[") || has(rest, "[") || ends(front, "..") {
        return Ok(None);
    }
    let (digits, behind) = split_prefix(without_first(rest), Class::Digit);
    let is_index = digits.len() > 0 && (behind.is_empty() || begins(behind, "/"));
    if is_index && !front.is_empty() {
        return joined(
            alloc,
            &[Kept(front), New("["), Kept(digits), New("]"), Kept(behind)],
        );
    }
    let (dots, after) = if begins(rest, "//") {
        ("..", without_first(without_first(rest)))
    } else {
        (".", without_first(rest))
    };
    if front.is_empty() {
        joined(alloc, &[New("$"), New(dots), Kept(after)])
    } else if ends(front, ".") {
        spliced(alloc, without_last(front), dots, after)
    } else {
        spliced(alloc, front, dots, after)
    }
}

/// A name that begins with a slash, in quotes and brackets; in a filter a sign of it ends the name.
fn path_name<'t>(alloc: Global, front: &'t [char], rest: &'t [char]) -> Mended {
    let (name, after) = cut_at(rest, ".[ ])=<>!&|,");
    if has(name, "'\"\\") {
        return Ok(None);
    }
    let parts = [
        Kept(before_bracket(front)),
        New("[\""),
        Kept(name),
        New("\"]"),
        Kept(after),
    ];
    joined(alloc, &parts)
}
