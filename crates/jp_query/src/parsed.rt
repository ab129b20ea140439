//! Parsed queries, and how they are parsed.

ghost use Rattle.std.specs.Prelude.{◌≡◌, ◌⊎◌, IfOk, IfErr};
ghost use Rattle.std.specs.Str.{chars};
ghost use Rattle.jp_tree.specs.Views.{query_of};
ghost use Rattle.jp_query.specs.ComponentSpans.{IsSpelledWithSpans};
ghost use Rattle.jp_query.specs.Grammar.{Spells};
ghost use Rattle.jp_query.specs.Spelled.{IsSpelled, SpellsNothing};
ghost use Rattle.jp_query.specs.Levels.{level_limit};
ghost use Rattle.jp_query.specs.ViablePrefix.{IsSyntaxAt, IsTooDeepAt};

use crate::refusal::{Refusal, RefusalKind};
use crate::segments::query;
use jp_reading::{Reader, Span};
use jp_tree::Query;
use std::alloc::Global;
use std::marker::Model;

/// How many filters, parentheses and calls may be inside one another at most.
pub const LEVEL_LIMIT: u32 = 128;

/// A query and the spans of its components, as some text spells them.
#[derive(Debug, Drop)]
pub struct Parsed {
    query: Query,
    spans: Vec<Option<Span>>,
}

impl Model for Parsed {
    ghost use Rattle.jp_query.specs.Spelled.{Spanned};
    ghost use Rattle.jp_tree.specs.contracts.tree.Query as q;
    ghost use Rattle.std.specs.Coded.{codes};

    ghost Value = { Spanned };

    ghost coded = { Prim.hlevel (codes, q.the_row.coded) };

    ghost use Rattle.jp_query.specs.Private.Parsed.{spanned, IsSpelledInside};

    ghost view = { spanned };

    ghost invariant = { IsSpelledInside };
}

/// Reads the text of a query (RFC 9535 section 2.1), in which at most [`LEVEL_LIMIT`] filters,
/// parentheses and calls are inside one another.
///
/// A text that spells no query is refused at the first byte with whose character it can go on to no
/// query, or at its end: as `TooDeep` where one level more would let that character stand, which is
/// then the `?` or `(` of the level too many or the character by which a word can only be a
/// function's name, else as `Syntax`. `NoMemory`, at place 0, says nothing of the text.
pub fn parse(alloc: Global, text: &str) -> Result<Parsed, Refusal>
    ensures found { IfOk
        result
        (λ p. Spells level_limit (query_of p.query) p.spans (chars text.now)) }
    ensures only { IfErr
        result
        (λ r. (r.kind ≡ RefusalKind.NoMemory) ⊎ SpellsNothing level_limit (chars text.now)) }
    ensures syntax { IfErr
        result
        (λ r. r.kind ≡ RefusalKind.Syntax → IsSyntaxAt level_limit (chars text.now) r.place) }
    ensures deep { IfErr
        result
        (λ r. r.kind ≡ RefusalKind.TooDeep → IsTooDeepAt level_limit (chars text.now) r.place) }
    ensures kinds { IfErr
        result
        (λ r. (r.kind ≡ RefusalKind.Syntax)
        ⊎ (r.kind ≡ RefusalKind.TooDeep)
        ⊎ ((r.kind ≡ RefusalKind.NoMemory) × (r.place ≡ 0))) }
{
    let mut reader = Reader::new(alloc, text);
    match query(&mut reader, LEVEL_LIMIT) {
        Ok(query) => Ok(Parsed {
            query,
            spans: reader.into_spans(),
        }),
        Err(stop) => Err(Refusal::from(stop)),
    }
}

impl Parsed {
    /// The tree of the query.
    pub fn query(&self) -> &Query
        ensures same { result.now ≡ self.now.query }
        ensures spelled { IsSpelled level_limit (query_of self.now.query) self.now.spans }
    {
        &self.query
    }

    /// From which byte to which each component of the query stands in the text, in the components'
    /// order; None for a step of a slice that is left out.
    pub fn spans(&self) -> &[Option<Span>]
        ensures same { result.now ≡ self.now.spans }
        ensures each { IsSpelledWithSpans level_limit (query_of self.now.query) result.now }
    {
        &self.spans
    }

    /// The tree of the query, which is handed over.
    pub fn into_query(self) -> Query
        ensures same { result ≡ self.query }
        ensures spelled { IsSpelled level_limit (query_of self.query) self.spans }
    {
        self.query
    }
}
