//! Mends of signs: quotation marks, comparisons, patterns, logic and pipes.

use super::Piece::{Kept, New};
use super::cuts::{
    cut_after, cut_at, cut_at_quote, cut_literal, cut_name, cut_side, has, past_blanks, past_name,
};
use super::{Cut, Mended, joined, quoted, spliced};
use crate::class::{Class, split_prefix};
use crate::marks::{
    begins, begins_as, begins_in, ends, ends_in, has_more, is, is_among, is_inside, name_at, stem,
    without_first, without_last,
};
use crate::reason::Reason;
use crate::reasons::wants_selector;
use std::alloc::Global;

/// The text with its signs mended; None for the reasons of other files, and where no mend is plain.
pub(super) fn mended(alloc: Global, reason: Reason, cut: Cut<'_>) -> Mended {
    let Cut { front, rest } = cut;
    let after = without_first(rest);
    match reason {
        Reason::Unseen if matches!(rest, ['\u{a0}', ..]) => spliced(alloc, front, " ", after),
        Reason::Unseen => joined(alloc, &[Kept(front), Kept(after)]),
        Reason::Escape => escaped(alloc, front, rest),
        Reason::Quotes if !ends(front, ".") => requoted(alloc, front, rest),
        Reason::OrderSign if begins(rest, "<") => spliced(alloc, without_last(front), "<=", after),
        Reason::OrderSign => spliced(alloc, without_last(front), ">=", after),
        Reason::Pattern if begins(rest, "/") => argument(alloc, front, after),
        Reason::Pattern if ends(front, "=") => search(alloc, without_last(front), after),
        Reason::Equals if begins(rest, "=") => joined(alloc, &[Kept(front), Kept(after)]),
        Reason::Equals => spliced(alloc, front, "=", rest),
        Reason::Unequal => spliced(alloc, without_last(front), "!=", after),
        Reason::Comparison => comparison(alloc, cut),
        Reason::And if ends(front, "&") => spliced(alloc, front, "&", rest),
        Reason::Or if ends(front, "|") => spliced(alloc, front, "|", rest),
        Reason::And => spliced(alloc, front, "&&", past_name(rest)),
        Reason::Or => spliced(alloc, front, "||", past_name(rest)),
        Reason::Optional if begins_in(after, ".[") || after.is_empty() => {
            joined(alloc, &[Kept(front), Kept(after)])
        }
        Reason::Pipe if is_inside(front) => length_of(alloc, front, past_blanks(rest)),
        Reason::Pipe => pipe(alloc, front, past_blanks(after)),
        _ => Ok(None),
    }
}

/// A text between quotation marks of another kind, which has none of queries in it. Where a value is wanted,
/// JMESPath has a literal of JSON between backquotes.
fn requoted(alloc: Global, front: &[char], rest: &[char]) -> Mended {
    let (text, after) = cut_at_quote(without_first(rest));
    let behind = without_first(after);
    let is_json = begins(rest, "`") && !wants_selector(front);
    if after.is_empty() {
        Ok(None)
    } else if is_json && is_literal(text) {
        joined(alloc, &[Kept(front), Kept(text), Kept(behind)])
    } else if has(text, "'\"\\") || (is_json && begins_in(text, "[{")) {
        Ok(None)
    } else {
        quoted(alloc, front, text, behind)
    }
}

/// Whether the text is a literal of JSON: a number, a text without escapes, or a word.
fn is_literal(text: &[char]) -> bool {
    let is_text = matches!(text, ['"', inner @ .., '"'] if !has(inner, "\"\\"));
    is_number(text) || is_text || is(text, "true") || is(text, "false") || is(text, "null")
}

/// Whether the text is a number of JSON, as far as it has no exponent.
fn is_number(text: &[char]) -> bool {
    let (_, digits) = text.split_at(usize::from(begins(text, "-")).min(text.len()));
    let (whole, after) = split_prefix(digits, Class::Digit);
    let behind = match after {
        ['.', fraction @ ..] => split_prefix(fraction, Class::Digit).1,
        _ => after,
    };
    !whole.is_empty() && (behind.is_empty() || begins_in(behind, "eE"))
}

/// A backslash in quotes that begins no escape: in a pattern of `match` or `search` the class that it is in
/// other languages, and else a backslash.
fn escaped(alloc: Global, front: &[char], rest: &[char]) -> Mended {
    let (call, pattern) = cut_after(front, "(");
    let kept = without_last(front);
    if begins_in(rest, "'\"") {
        return joined(alloc, &[Kept(kept), Kept(rest)]);
    }
    if has_escape(cut_after(kept, "'\"").1) || has_escape(cut_at(rest, "'\"").0) {
        return Ok(None);
    }
    if !ends(call, "match(") && !ends(call, "search(") {
        return spliced(alloc, front, "\\", rest);
    }
    let is_apart = !has_more(pattern, "[", "]");
    match rest {
        ['d', after @ ..] if is_apart => spliced(alloc, kept, "[0-9]", after),
        ['w', after @ ..] if is_apart => spliced(alloc, kept, "[A-Za-z0-9_]", after),
        [
            '.' | '-' | '*' | '+' | '?' | '(' | ')' | '[' | ']' | '{' | '}' | '|',
            ..
        ] => { spliced(alloc, front, "\\", rest) }
        _ => Ok(None),
    }
}

/// Whether an escape of a letter stands in the text, which a path of Windows or a pattern may have without
/// meaning one.
fn has_escape(text: &[char]) -> bool {
    let mut is_escaped = false;
    for c in text {
        if is_escaped && is_among("bfnrt", *c) {
            return true;
        }
        is_escaped = *c == '\\' && !is_escaped;
    }
    false
}

/// `1 < @.a < 5` is two comparisons, and `!@.a == 1` is the opposite of one.
fn comparison(alloc: Global, cut: Cut<'_>) -> Mended {
    let Cut { front, rest } = cut;
    let (before, side) = cut_side(front);
    if !begins_in(side, "@$") {
        Ok(None)
    } else if ends(stem(before), "!") {
        opposite(alloc, before, cut)
    } else if ends_in(stem(before), "=<>") {
        let (side, rest) = (Kept(side), Kept(rest));
        joined(
            alloc,
            &[Kept(stem(front)), New(" && "), side, New(" "), rest],
        )
    } else {
        Ok(None)
    }
}

/// The opposite of a comparison, which is the comparison in parentheses behind the `!` that it has before its
/// left side; where it is not plain how far the right side goes, `==` is `!=`.
fn opposite<'t>(alloc: Global, before: &'t [char], cut: Cut<'t>) -> Mended {
    let Cut { front, rest } = cut;
    let (_, left) = front.split_at(before.len().min(front.len()));
    let after = past_sign(rest);
    if let Some(behind) = past_side(past_blanks(after)) {
        let (comparison, _) = rest.split_at(rest.len().saturating_sub(behind.len()));
        let (left, comparison) = (Kept(left), Kept(comparison));
        let parts = [
            Kept(before),
            New("("),
            left,
            comparison,
            New(")"),
            Kept(behind),
        ];
        return joined(alloc, &parts);
    }
    if !begins(rest, "==") {
        return Ok(None);
    }
    let kept = without_last(stem(before));
    joined(alloc, &[Kept(kept), Kept(left), New("!="), Kept(after)])
}

/// The text without the sign of comparisons that it begins with.
fn past_sign(text: &[char]) -> &[char] {
    if begins(without_first(text), "=") {
        without_first(without_first(text))
    } else {
        without_first(text)
    }
}

/// The text without the literal, or the path of names, that it begins with; None where more of a comparison's
/// side may follow.
fn past_side(text: &[char]) -> Option<&[char]> {
    let (side, behind) = if begins_in(text, "@$") {
        cut_name(text, "@$.")
    } else {
        cut_literal(text)
    };
    let next = past_blanks(behind);
    let is_end = begins_in(next, "])&|") || next.is_empty();
    if is_end && !side.is_empty() {
        Some(behind)
    } else {
        None
    }
}

/// Whether the pattern has no sign that means something else in I-Regexp, or ends a text.
fn is_plain(pattern: &[char]) -> bool {
    !has(pattern, "^$\\\"'")
}

/// A pattern between slashes, without flags, as the argument of a function.
fn argument(alloc: Global, front: &[char], inner: &[char]) -> Mended {
    let (body, end) = cut_at(inner, "/");
    if end.is_empty() || !is_plain(body) {
        return Ok(None);
    }
    quoted(alloc, front, body, without_first(end))
}

/// A search for a pattern between slashes or quotation marks, without flags.
fn search<'t>(alloc: Global, front: &'t [char], rest: &'t [char]) -> Mended {
    let (before, side) = cut_side(front);
    let pattern = past_blanks(rest);
    let mark = match pattern {
        ['/', ..] => "/",
        ['\'', ..] => "'",
        _ => "\"",
    };
    let (body, end) = cut_at(without_first(pattern), mark);
    let is_closed = begins(pattern, mark) && !end.is_empty();
    let after = without_first(end);
    if !begins_in(side, "@$") || !is_closed || !is_plain(body) || begins_as(after, Class::Name) {
        return Ok(None);
    }
    let parts = [
        Kept(before),
        New("search("),
        Kept(side),
        New(", \""),
        Kept(body),
        New("\")"),
        Kept(after),
    ];
    joined(alloc, &parts)
}

/// In jq `@.a | length` is the length of the value.
fn length_of<'t>(alloc: Global, front: &'t [char], after: &'t [char]) -> Mended {
    let (before, side) = cut_side(without_last(front));
    if !is(name_at(after), "length") || !begins_in(side, "@$") {
        return Ok(None);
    }
    let (side, behind) = (Kept(side), Kept(past_name(after)));
    joined(
        alloc,
        &[Kept(before), New("length("), side, New(")"), behind],
    )
}

/// In jq what comes after a pipe goes on from what comes before it.
fn pipe(alloc: Global, front: &[char], after: &[char]) -> Mended {
    match after {
        ['.', next, ..] if *next == '[' || Class::NameFirst.holds(*next) => {
            joined(alloc, &[Kept(stem(front)), Kept(after)])
        }
        _ => Ok(None),
    }
}
