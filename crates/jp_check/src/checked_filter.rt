//! Checked expressions of filters, and how they are read.

ghost use Rattle.std.specs.Prelude.{◌≡◌, ◌⊎◌, IfOk, IfErr};
ghost use Rattle.std.specs.Str.{chars};
ghost use Rattle.jp_tree.specs.Views.{expr_of};
ghost use Rattle.jp_check.specs.Accepted.{IsFilterAccepted, IsFilterAcceptedAs, IsFilterNotAccepted};
ghost use Rattle.jp_check.specs.Refused.{IsFilterRefused};

use crate::inspection::first_filter_fault;
use crate::needs::{Needs, needs_of_filter};
use crate::profile::Profile;
use jp_query::{Refusal, RefusalKind, parse_filter};
use jp_tree::Expr;
use std::alloc::Global;
use std::marker::Model;

/// The tree of a filter's expression that is accepted (RFC 9535 sections 2.1, 2.3.5.1 and 2.4.3), the
/// profile in which it is, and what it needs.
#[derive(Debug, Drop)]
pub struct CheckedFilter {
    expr: Box<Expr>,
    profile: Profile,
    needs: Needs,
}

impl Model for CheckedFilter {
    ghost use Rattle.jp_check.specs.Checked.{ProfiledFilter};
    ghost use Rattle.jp_tree.specs.contracts.tree.Expr as e;
    ghost use Rattle.std.specs.Coded.{codes};

    ghost Value = { ProfiledFilter };

    ghost coded = { Prim.hlevel (codes, e.the_row.coded) };

    ghost use Rattle.jp_check.specs.Private.Checked.{profiled_filter, IsFilterAcceptedInside};

    ghost view = { profiled_filter };

    ghost invariant = { IsFilterAcceptedInside };
}

impl CheckedFilter {
    /// The tree of the expression.
    pub fn expr(&self) -> &Expr
        ensures same { result.now ≡ self.now.expr }
        ensures accepted { IsFilterAccepted self.now.profile (expr_of self.now.expr) }
    {
        &self.expr
    }

    /// The profile that the expression was checked with.
    pub fn profile(&self) -> Profile
        ensures { result ≡ self.now.profile }
    {
        self.profile
    }

    /// What it needs of an evaluation.
    pub fn needs(&self) -> Needs {
        self.needs
    }
}

/// Reads the expression of a filter alone: parses the text, then checks what it spells in the profile,
/// as `read_query` does with a query's. Places are in that text.
pub fn read_filter(alloc: Global, text: &str, profile: Profile) -> Result<CheckedFilter, Refusal>
    ensures accepted { IfOk
        result
        (λ c. IsFilterAcceptedAs profile (chars text.now) (expr_of c.expr)) }
    ensures profile { IfOk result (λ c. c.profile ≡ profile) }
    ensures refused { IfErr result (IsFilterRefused profile (chars text.now)) }
    ensures only { IfErr
        result
        (λ r. (r.kind ≡ RefusalKind.NoMemory) ⊎ IsFilterNotAccepted profile (chars text.now)) }
{
    let parsed = parse_filter(alloc, text)?;
    match first_filter_fault(&parsed, profile) {
        Some(fault) => Err(fault),
        None => {
            let expr = parsed.into_expr();
            let needs = needs_of_filter(&expr);
            Ok(CheckedFilter {
                expr,
                profile,
                needs,
            })
        }
    }
}
