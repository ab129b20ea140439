//! Mends of words: names without quotes, literals of other languages, and functions.

ghost use Rattle.std.specs.Prelude.{IfOk, IfSome, string_bytes};
ghost use Rattle.std.specs.Str.{chars};
ghost use Rattle.jp_explain.specs.Private.FromEnd.{IsFromEnd};

use super::Piece::{Kept, New};
use super::cuts::{cut_at, cut_call, cut_name, cut_side, past_blanks, past_name, past_word};
use super::{Cut, Mended, joined, quoted, spliced};
use crate::class::{Class, split_prefix, split_suffix};
use crate::marks::{
    before_name, begins, begins_in, ends, ends_as, is, last_name, stem, without_first,
    without_last, without_name,
};
use crate::reason::Reason;
use std::alloc::Global;

/// The text with its words mended; None for the reasons of other files, and where no mend is plain.
pub(super) fn mended(alloc: Global, reason: Reason, cut: Cut<'_>) -> Mended {
    let Cut { front, rest } = cut;
    match reason {
        Reason::Not => negation(alloc, cut),
        Reason::LastItem => last_item(alloc, front, rest),
        Reason::BracketName => {
            let (name, after) = cut_name(rest, "-");
            quoted(alloc, front, name, after)
        }
        Reason::Literal => literal(alloc, cut),
        Reason::Undefined => presence(alloc, before_name(front), rest),
        Reason::LoneLiteral => another(alloc, cut),
        Reason::TextQuotes => text(alloc, cut),
        Reason::MissingAt if begins(rest, ".") && !ends_as(front, Class::Name) => {
            spliced(alloc, front, "@", rest)
        }
        Reason::MissingAt => member(alloc, cut),
        Reason::MissingQuestionMark => spliced(alloc, front, "?", rest),
        Reason::Call => call(alloc, cut),
        Reason::LengthName => spliced(alloc, front, "length", past_name(rest)),
        Reason::NotCall => spliced(alloc, front, "!", past_name(rest)),
        Reason::Exists => joined(alloc, &[Kept(front), Kept(past_name(rest))]),
        Reason::CountNodes => spliced(alloc, without_name(without_last(front)), "count(", rest),
        Reason::MatchCompared => test(alloc, cut),
        _ => Ok(None),
    }
}

/// `not` before a test, with its blanks.
fn negation(alloc: Global, Cut { front, rest }: Cut<'_>) -> Mended {
    if is(last_name(front), "not") {
        spliced(alloc, without_name(front), "!", past_blanks(rest))
    } else {
        spliced(alloc, front, "!", past_blanks(past_name(rest)))
    }
}

/// XPath's `last()`, and a script such as `(@.length-1)`, as an index: the digits are those of the script.
fn last_item<'t>(alloc: Global, front: &'t [char], rest: &'t [char]) -> Mended
    ensures { IfOk result (λ o. IfSome o
        (λ text. IsFromEnd front.now rest.now (chars (string_bytes text)))) }
{
    if begins(rest, "last()") {
        return spliced(alloc, front, "-1", past_word(rest, "last()"));
    }
    let (_, less) = cut_at(rest, "-");
    let (digits, end) = split_prefix(past_blanks(without_first(less)), Class::Digit);
    if !begins(end, ")") {
        return Ok(None);
    }
    let after = without_first(end);
    joined(alloc, &[Kept(front), New("-"), Kept(digits), Kept(after)])
}

/// The text with a literal of another language, such as `True`, `None` or `nil`, as queries write it.
fn literal(alloc: Global, Cut { front, rest }: Cut<'_>) -> Mended {
    let (name, after) = split_prefix(rest, Class::Name);
    match name {
        ['T', ..] => spliced(alloc, front, "true", after),
        ['F', ..] => spliced(alloc, front, "false", after),
        ['N', ..] => spliced(alloc, front, "null", after),
        _ => spliced(alloc, without_name(front), "null", rest),
    }
}

/// A comparison with `undefined`, of which this is the text before the word, as a test.
fn presence<'t>(alloc: Global, compared: &'t [char], rest: &'t [char]) -> Mended {
    let (before, side) = cut_side(without_last(without_last(compared)));
    if !begins_in(side, "@$") {
        Ok(None)
    } else if ends(compared, "==") {
        joined(alloc, &[Kept(before), New("!"), Kept(side), Kept(rest)])
    } else if ends(compared, "!=") {
        joined(alloc, &[Kept(before), Kept(side), Kept(rest)])
    } else {
        Ok(None)
    }
}

/// `@.a == 1 || 2` compares one side with both.
fn another(alloc: Global, Cut { front, rest }: Cut<'_>) -> Mended {
    let (kept, _) = cut_side(front);
    let (_, literal) = front.split_at(kept.len().min(front.len()));
    let (compared, _) = cut_side(without_last(without_last(stem(kept))));
    let (_, side) = cut_side(without_last(without_last(stem(compared))));
    let is_another = ends(stem(kept), "||") && ends(stem(compared), "==");
    if !is_another || !begins_in(side, "@$") {
        return Ok(None);
    }
    let (literal, rest) = (Kept(literal), Kept(rest));
    joined(alloc, &[Kept(kept), Kept(side), New(" == "), literal, rest])
}

/// A text that is compared for equality, unless it is a value of another language.
fn text(alloc: Global, Cut { front, rest }: Cut<'_>) -> Mended {
    let (kept, begun) = split_suffix(front, Class::Name);
    let (next, after) = split_prefix(rest, Class::Name);
    let is_equality = ends(stem(kept), "==") || ends(stem(kept), "!=");
    if !is_equality || is(next, "NaN") {
        return Ok(None);
    }
    let parts = [
        Kept(kept),
        New("\""),
        Kept(begun),
        Kept(next),
        New("\""),
        Kept(after),
    ];
    joined(alloc, &parts)
}

/// A member of the current node, which is JavaScript's `this`.
fn member(alloc: Global, Cut { front, rest }: Cut<'_>) -> Mended {
    let (kept, begun) = split_suffix(front, Class::Name);
    if is(begun, "this") {
        spliced(alloc, kept, "@", rest)
    } else {
        joined(alloc, &[Kept(kept), New("@."), Kept(begun), Kept(rest)])
    }
}

/// A call of `length` or `size` behind a path.
fn call(alloc: Global, Cut { front, rest }: Cut<'_>) -> Mended {
    let (dotted, name) = split_suffix(front, Class::Name);
    let (before, path) = cut_side(without_last(dotted));
    let is_length = ends(dotted, ".") && (is(name, "length") || is(name, "size"));
    if !is_length || !begins(rest, "()") || !begins_in(path, "@$") || before.is_empty() {
        return Ok(None);
    }
    let after = Kept(without_first(without_first(rest)));
    let parts = [Kept(before), New("length("), Kept(path), New(")"), after];
    joined(alloc, &parts)
}

/// A call that is compared with `true`, or with `false`.
fn test(alloc: Global, Cut { front, rest }: Cut<'_>) -> Mended {
    let (call, behind) = cut_call(rest);
    let ['=', '=', compared @ ..] = past_blanks(behind) else {
        return Ok(None);
    };
    let (word, after) = split_prefix(past_blanks(compared), Class::Name);
    if is(word, "true") {
        joined(alloc, &[Kept(front), Kept(call), Kept(after)])
    } else if is(word, "false") {
        joined(alloc, &[Kept(front), New("!"), Kept(call), Kept(after)])
    } else {
        Ok(None)
    }
}
