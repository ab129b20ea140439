//! A refusal, shown below its query.

ghost use Rattle.std.specs.Prelude.{◌≡◌, IfOk, string_bytes};
ghost use Rattle.std.specs.Str.{IsCharBoundary};
ghost use Rattle.jsonpath_uses.specs.Caret.{caret_text, column_of, text_at};

use jsonpath::Refusal;
use std::alloc::{AllocError, Global};

/// Two lines for a query of one line: the query, and below it a caret under the character at the
/// refusal's place, and behind the caret what the refusal says. The only error is that memory ran
/// out.
pub fn show_refusal(alloc: Global, query: &str, refusal: Refusal) -> Result<String, AllocError>
    ensures { IfOk result (λ text. IsCharBoundary query.now refusal.place
        → string_bytes text ≡ caret_text query.now refusal) }
{
    show_at(alloc, query, column(query, refusal.place), refusal)
}

/// The query, and below it a caret behind so many blanks and what the refusal says.
fn show_at(
    alloc: Global,
    query: &str,
    column: usize,
    refusal: Refusal,
) -> Result<String, AllocError>
    ensures { IfOk result (λ text. string_bytes text ≡ text_at query.now column refusal) }
{
    let blanks = " ".repeat(alloc, column)?;
    format!(in alloc; "{query}\n{blanks}^ {refusal}\n")
}

/// How many characters of a text stand before a byte at which one begins.
#[tactic(auto, using(std::proofs::lemmas::Str::chars_from_encodes))]
fn column(text: &str, place: usize) -> usize
    ensures { IsCharBoundary text.now place → result ≡ column_of text.now place }
{
    match text.split_at_checked(place) {
        Some((before, _)) => before.chars().count(),
        None => 0,
    }
}
