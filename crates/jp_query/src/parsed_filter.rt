//! Parsed expressions of filters, and how they are parsed.

ghost use Rattle.std.specs.Prelude.{◌≡◌, ◌⊎◌, IfOk, IfErr};
ghost use Rattle.std.specs.Str.{chars};
ghost use Rattle.jp_tree.specs.Views.{expr_of};
ghost use Rattle.jp_query.specs.ComponentSpans.{IsFilterWithSpans};
ghost use Rattle.jp_query.specs.Grammar.{SpellsFilter};
ghost use Rattle.jp_query.specs.Spelled.{IsFilterSpelled, SpellsNoFilter};
ghost use Rattle.jp_query.specs.Levels.{filter_level_limit};
ghost use Rattle.jp_query.specs.ViablePrefix.{IsFilterSyntaxAt, IsFilterTooDeepAt};

use crate::expressions::filter;
use crate::parsed::LEVEL_LIMIT;
use crate::refusal::{Refusal, RefusalKind};
use jp_reading::{Reader, Span};
use jp_tree::Expr;
use std::alloc::Global;
use std::marker::Model;

/// The expression of a filter and the spans of its components, as some text spells them.
#[derive(Debug, Drop)]
pub struct ParsedFilter {
    expr: Box<Expr>,
    spans: Vec<Option<Span>>,
}

impl Model for ParsedFilter {
    ghost use Rattle.jp_query.specs.Spelled.{SpannedFilter};
    ghost use Rattle.jp_tree.specs.contracts.tree.Expr as e;
    ghost use Rattle.std.specs.Coded.{codes};

    ghost Value = { SpannedFilter };

    ghost coded = { Prim.hlevel (codes, e.the_row.coded) };

    ghost use Rattle.jp_query.specs.Private.Parsed.{spanned_filter, IsFilterSpelledInside};

    ghost view = { spanned_filter };

    ghost invariant = { IsFilterSpelledInside };
}

/// Reads the text of a filter's expression alone, as it stands between the `?` and the `]` of
/// `$[?@.price < 10]` (RFC 9535 section 2.3.5.1), with the blank space around it. As a filter is a level
/// of its query, [`LEVEL_LIMIT`] - 1 parentheses, filters and calls may be inside one another.
///
/// A text that spells no such expression is refused as `parse` refuses one that spells no query, at the
/// first byte with whose character it can go on to no expression, or at its end.
pub fn parse_filter(alloc: Global, text: &str) -> Result<ParsedFilter, Refusal>
    ensures found { IfOk
        result
        (λ p. SpellsFilter filter_level_limit (expr_of p.expr) p.spans (chars text.now)) }
    ensures only { IfErr
        result
        (λ r. (r.kind ≡ RefusalKind.NoMemory) ⊎ SpellsNoFilter filter_level_limit (chars text.now)) }
    ensures syntax { IfErr
        result
        (λ r. r.kind ≡ RefusalKind.Syntax
        → IsFilterSyntaxAt filter_level_limit (chars text.now) r.place) }
    ensures deep { IfErr
        result
        (λ r. r.kind ≡ RefusalKind.TooDeep
        → IsFilterTooDeepAt filter_level_limit (chars text.now) r.place) }
    ensures kinds { IfErr
        result
        (λ r. (r.kind ≡ RefusalKind.Syntax)
        ⊎ (r.kind ≡ RefusalKind.TooDeep)
        ⊎ ((r.kind ≡ RefusalKind.NoMemory) × (r.place ≡ 0))) }
{
    let mut reader = Reader::new(alloc, text);
    match filter(&mut reader, LEVEL_LIMIT - 1) {
        Ok(expr) => Ok(ParsedFilter {
            expr,
            spans: reader.into_spans(),
        }),
        Err(stop) => Err(Refusal::from(stop)),
    }
}

impl ParsedFilter {
    /// The tree of the expression.
    pub fn expr(&self) -> &Expr
        ensures same { result.now ≡ self.now.expr }
        ensures spelled { IsFilterSpelled filter_level_limit (expr_of self.now.expr) self.now.spans }
    {
        &self.expr
    }

    /// From which byte to which each component of the expression stands in the text, in the components'
    /// order; None for a step of a slice that is left out.
    pub fn spans(&self) -> &[Option<Span>]
        ensures same { result.now ≡ self.now.spans }
        ensures each { IsFilterWithSpans filter_level_limit (expr_of self.now.expr) result.now }
    {
        &self.spans
    }

    /// The tree of the expression, which is handed over.
    pub fn into_expr(self) -> Box<Expr>
        ensures same { result.value ≡ self.expr }
        ensures spelled { IsFilterSpelled filter_level_limit (expr_of self.expr) self.spans }
    {
        self.expr
    }
}
