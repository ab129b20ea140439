//! Reading what is asked of documents, before the inputs.

ghost use Rattle.std.specs.Prelude.{◌≡◌, IfErr, IfOk, map};
ghost use Rattle.jp_command.specs.Run.{IsAsked};
ghost use Rattle.jp_tree.specs.Views.{expr_of, query_of};
ghost use Rattle.jp_lines.specs.Expression.{IsFilterAsked};
ghost use Rattle.jp_lines.specs.Private.Halting.{StopsAtExpression, StopsAtQuery, StopsReading};
ghost use Rattle.jp_lines.specs.Request.{AreAsked};

use crate::expression::read_expression;
use crate::halt::Unbegun;
use jp_check::{Checked, CheckedFilter, Profile};
use jp_command::{Fault, read_within_limit};
use jp_query::RefusalKind;
use std::alloc::{AllocError, Global};

/// The query of this text.
pub(crate) fn read_query<'w>(
    alloc: Global,
    text: &'w str,
    profile: Profile,
) -> Result<Checked, Unbegun<'w>>
    ensures read { IfOk result (λ query. IsAsked profile text.now (query_of query.query)) }
    ensures stopped { IfErr result (StopsAtQuery profile text.now) }
{
    match read_within_limit(alloc, text, profile) {
        Ok(query) => Ok(query),
        Err(refusal) => Err(match refusal.kind {
            RefusalKind::NoMemory => Unbegun::Fault(Fault::NoMemory),
            _ => Unbegun::Query(text, refusal),
        }),
    }
}

/// The expression of this text.
pub(crate) fn read_keeping<'w>(
    alloc: Global,
    text: &'w str,
    profile: Profile,
) -> Result<CheckedFilter, Unbegun<'w>>
    ensures read { IfOk result (λ filter. IsFilterAsked profile text.now (expr_of filter.expr)) }
    ensures stopped { IfErr result (StopsAtExpression profile text.now) }
{
    match read_expression(alloc, text, profile) {
        Ok(filter) => Ok(filter),
        Err(refusal) => Err(match refusal.kind {
            RefusalKind::NoMemory => Unbegun::Fault(Fault::NoMemory),
            _ => Unbegun::Expression(text, refusal),
        }),
    }
}

/// The queries of these texts, in their order. Where one is refused, it is told of.
pub(crate) fn read_all<'w>(
    alloc: Global,
    texts: &[&'w str],
    profile: Profile,
) -> Result<Vec<Checked>, Unbegun<'w>>
    ensures read { IfOk result (λ queries. AreAsked profile (map (λ t. t.now) texts.now)
        (map (λ c. query_of c.query) queries.items)) }
    ensures stopped { IfErr result (StopsReading profile (map (λ t. t.now) texts.now)) }
{
    let mut queries = Vec::new(alloc);
    for text in texts {
        let query = read_query(alloc, text, profile)?;
        queries.push(query).map_err(AllocError::from)?;
    }
    Ok(queries)
}
