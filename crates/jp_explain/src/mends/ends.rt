//! Mends at the end of a query.

ghost use Rattle.std.specs.Prelude.{◌≡◌, ◌++◌, IfOk, IfSome, reverse, string_bytes};
ghost use Rattle.std.specs.Str.{chars};

use super::Piece::{Kept, New};
use super::cuts::{cut_at, has, past_blanks};
use super::{Cut, Mended, joined, spliced, write_characters};
use crate::class::{Class, split_suffix};
use crate::marks::{begins_as, ends, is, stem, without_first, without_last};
use crate::reason::Reason;
use jp_canon::Writer;
use std::alloc::{AllocError, Global};

/// The text mended at its end; None for the reasons of other files, and where no mend is plain.
pub(super) fn mended(alloc: Global, reason: Reason, Cut { front, rest }: Cut<'_>) -> Mended {
    match reason {
        Reason::BlankLast => joined(alloc, &[Kept(split_suffix(front, Class::Unseen).0)]),
        Reason::AfterDot if begins_as(rest, Class::Blank) => {
            joined(alloc, &[Kept(front), Kept(past_blanks(rest))])
        }
        Reason::AfterDot if rest.is_empty() && ends(front, "..") => {
            joined(alloc, &[Kept(front), New("*")])
        }
        Reason::AfterDot if rest.is_empty() => joined(alloc, &[Kept(without_last(front))]),
        Reason::StrayBracket if is(rest, "]") => joined(alloc, &[Kept(front)]),
        Reason::NextSegment if is(rest, ";") => joined(alloc, &[Kept(front)]),
        Reason::StrayParenthesis => joined(alloc, &[Kept(front), Kept(without_first(rest))]),
        Reason::MissingParenthesis => spliced(alloc, stem(front), ")", rest),
        Reason::Unclosed | Reason::OpenQuote => closed(alloc, front),
        _ => Ok(None),
    }
}

/// What is open at the end of a text: brackets and parentheses, by what closes them, and a text
/// between quotation marks, by its mark and by how many characters stand after that.
#[derive(Drop)]
struct Open {
    closing: Vec<char>,
    mark: Option<char>,
    quoted_len: usize,
    is_escaped: bool,
}

impl Open {
    /// What is open at the end of this text.
    fn at_end(alloc: Global, text: &[char]) -> Result<Open, AllocError> {
        let mut open = Open {
            closing: Vec::new(alloc),
            mark: None,
            quoted_len: 0,
            is_escaped: false,
        };
        for c in text {
            open.pass(*c)?;
        }
        Ok(open)
    }

    /// Goes on past one more character of the text.
    fn pass(&mut self, c: char) -> Result<(), AllocError> {
        self.quoted_len = self.quoted_len.saturating_add(1);
        match self.mark {
            Some(_) if self.is_escaped => self.is_escaped = false,
            Some(_) if c == '\\' => self.is_escaped = true,
            Some(mark) if c == mark => self.mark = None,
            Some(_) => {}
            None => self.pass_sign(c)?,
        }
        Ok(())
    }

    /// Goes on past a character outside of quotation marks, which may open or close a bracket or a
    /// parenthesis, or begin a text.
    fn pass_sign(&mut self, c: char) -> Result<(), AllocError> {
        match c {
            '[' => self.closing.push(']')?,
            '(' => self.closing.push(')')?,
            ']' | ')' => {
                self.closing.pop();
            }
            '\'' | '"' => {
                self.mark = Some(c);
                self.quoted_len = 0;
            }
            _ => {}
        }
        Ok(())
    }
}

/// The text with what closes it.
fn closed(alloc: Global, front: &[char]) -> Mended {
    let open = Open::at_end(alloc, front)?;
    let (before, quoted) = front.split_at(front.len().saturating_sub(open.quoted_len));
    match open.mark {
        Some('"') => unquoted(alloc, before, quoted, "\""),
        Some(_) => unquoted(alloc, before, quoted, "'"),
        None => bracketed(alloc, stem(front), &open.closing),
    }
}

/// The text with what closes it behind it: what was opened last is closed first.
fn bracketed(alloc: Global, kept: &[char], closing: &[char]) -> Mended
    ensures { IfOk result (λ o. IfSome o
        (λ text. chars (string_bytes text) ≡ kept.now ++ reverse closing.now)) }
{
    let mut out = Writer::new(alloc);
    write_characters(&mut out, kept)?;
    for c in closing.iter().rev() {
        out.character(*c)?;
    }
    Ok(Some(out.into_text()))
}

/// The text with the mark before the first bracket or parenthesis that may close, if no other mark
/// may be meant.
fn unquoted<'t>(alloc: Global, before: &'t [char], open: &'t [char], mark: &'static str) -> Mended {
    let (name, after) = cut_at(open, "])");
    if name.is_empty() || has(name, "'\"\\") {
        return Ok(None);
    }
    joined(alloc, &[Kept(before), Kept(name), New(mark), Kept(after)])
}
