//! Mended texts of queries: for a reason, the text with what it obviously meant at the place.
//!
//! A mended text is a guess, which is read before it is told. Promised is of an item counted from an
//! array's end that its index has the digits that stood there, and of what closes a text that what was
//! opened last is closed first; of other mends nothing.

ghost use Rattle.std.specs.Prelude.{◌≡◌, ◌++◌, IfOk, IfSome, OnOk, string_bytes};
ghost use Rattle.std.specs.List.{flat_map};
ghost use Rattle.std.specs.Str.{chars};
ghost use Rattle.jp_explain.specs.Private.Pieces.{piece_text};

pub(crate) mod cuts;
mod ends;
mod names;
mod numbers;
mod operators;
mod signs;
mod starts;
mod words;

use crate::reason::Reason;
use jp_canon::Writer;
use std::alloc::{AllocError, Global};

/// The text of a query, cut where it is refused.
#[derive(Clone, Copy)]
pub(crate) struct Cut<'t> {
    pub(crate) front: &'t [char],
    pub(crate) rest: &'t [char],
}

/// A piece of a mended text: some of the query, or something new.
#[derive(Clone, Copy)]
enum Piece<'t> {
    Kept(&'t [char]),
    New(&'static str),
}

/// A mended text, if there is one. The only error is that memory ran out.
pub(crate) type Mended = Result<Option<String>, AllocError>;

/// The text with what the reason's slip meant, if that is plain: each file mends some reasons.
pub(crate) fn mended(alloc: Global, reason: Reason, cut: Cut<'_>) -> Mended {
    if let Some(text) = starts::mended(alloc, reason, cut)? {
        return Ok(Some(text));
    }
    if let Some(text) = ends::mended(alloc, reason, cut)? {
        return Ok(Some(text));
    }
    if let Some(text) = signs::mended(alloc, reason, cut)? {
        return Ok(Some(text));
    }
    if let Some(text) = words::mended(alloc, reason, cut)? {
        return Ok(Some(text));
    }
    if let Some(text) = operators::mended(alloc, reason, cut)? {
        return Ok(Some(text));
    }
    if let Some(text) = names::mended(alloc, reason, cut)? {
        return Ok(Some(text));
    }
    numbers::mended(alloc, reason, cut)
}

/// The pieces, one after the other.
fn joined(alloc: Global, pieces: &[Piece<'_>]) -> Mended
    ensures { IfOk result
        (λ o. IfSome o (λ text. chars (string_bytes text) ≡ flat_map piece_text pieces.now)) }
{
    let mut out = Writer::new(alloc);
    for piece in pieces {
        write_piece(&mut out, *piece)?;
    }
    Ok(Some(out.into_text()))
}

/// The word, between what is kept before it and after it.
fn spliced<'t>(alloc: Global, before: &'t [char], word: &'static str, after: &'t [char]) -> Mended
    ensures { IfOk result (λ o. IfSome o
        (λ text. chars (string_bytes text) ≡ before.now ++ chars word.now ++ after.now)) }
{
    joined(
        alloc,
        &[Piece::Kept(before), Piece::New(word), Piece::Kept(after)],
    )
}

/// A text between quotation marks, after what is kept before it and before what is kept after it.
fn quoted<'t>(alloc: Global, before: &'t [char], text: &'t [char], after: &'t [char]) -> Mended {
    let mark = Piece::New("\"");
    let (before, text, after) = (Piece::Kept(before), Piece::Kept(text), Piece::Kept(after));
    joined(alloc, &[before, mark, text, mark, after])
}

/// Writes a piece of a mended text.
fn write_piece(out: &mut Writer, piece: Piece<'_>) -> Result<(), AllocError>
    ensures { OnOk result (out.new ≡ out.old ++ piece_text piece.entry) }
{
    match piece {
        Piece::Kept(kept) => write_characters(out, kept),
        Piece::New(word) => out.text(word),
    }
}

/// Writes these characters as they are.
fn write_characters(out: &mut Writer, characters: &[char]) -> Result<(), AllocError>
    ensures { OnOk result (out.new ≡ out.old ++ characters.now) }
{
    for c in characters {
        out.character(*c)?;
    }
    Ok(())
}
