//! The members that queries, and the expression of a filter, ask for of the document itself.

ghost use Rattle.std.specs.Prelude.{IfOk, IfSome};
ghost use Rattle.jp_tree.specs.Tree.{QueryTree};
ghost use Rattle.jp_tree.specs.Views.{expr_of, query_of};
ghost use Rattle.jp_evaluate.specs.Asked.{AsksNoMore, TestsNoMore};
ghost use Rattle.jp_evaluate.specs.Private.Asks.{AskedOf, Collects, asks_expr, asks_root, pass};

use crate::asked::filters::push_expr;
use crate::asked::members::push_members;
use jp_check::{Checked, CheckedFilter};
use jp_flat::AskedFor;
use jp_tree::Expr;
use std::alloc::{AllocError, Global};

/// What a query asks of a document together with others, which ask for so much: over each document each
/// of them selects the same nodes in what is kept of it. None where one of them is not told to ask only
/// for members of the document itself. The only error is that memory ran out.
pub(crate) fn asked_beside(asked: AskedFor, query: &Checked) -> Result<Option<AskedFor>, AllocError>
    ensures asks { IfOk result (λ o. IfSome o (AsksNoMore (query_of query.now.query))) }
    ensures others { IfOk result (λ o. IfSome o
        (λ all. (q : QueryTree) → AsksNoMore q asked → AsksNoMore q all)) }
{
    let AskedFor::OfRoot(names) = asked else {
        return Ok(None);
    };
    match names_beside(names, query)? {
        Some(names) => Ok(Some(AskedFor::OfRoot(names))),
        None => Ok(None),
    }
}

/// What an expression asks of a document that is its root and its current node: it is as true of what
/// is kept of each. None where one of its queries is not told to ask only for members of the current
/// node. The only error is that memory ran out.
pub(crate) fn asked_by_test(
    alloc: Global,
    filter: &CheckedFilter,
) -> Result<Option<AskedFor>, AllocError>
    ensures { IfOk result (λ o. IfSome o (TestsNoMore (expr_of filter.now.expr))) }
{
    match names_of_test(alloc, filter.expr())? {
        Some(names) => Ok(Some(AskedFor::OfRoot(names))),
        None => Ok(None),
    }
}

/// These names and those of all members that a query asks for of the document itself, None where that is
/// not told.
fn names_beside(names: Vec<String>, query: &Checked) -> Result<Option<Vec<String>>, AllocError>
    ensures asked { IfOk result (λ o. IfSome o
        (λ all. AskedOf all.items (λ p. asks_root p (query_of query.now.query)))) }
    ensures others { IfOk result (λ o. IfSome o
        (λ all. AskedOf all.items (λ p. pass p names.items))) }
{
    let mut names = names;
    if push_root(query, &mut names)? {
        Ok(Some(names))
    } else {
        Ok(None)
    }
}

/// The names of all members that the expression asks for, None where it is not told.
fn names_of_test(alloc: Global, test: &Expr) -> Result<Option<Vec<String>>, AllocError>
    ensures { IfOk result (λ o. IfSome o
        (λ names. AskedOf names.items (λ p. asks_expr p (expr_of test.now)))) }
{
    let mut names = Vec::new(alloc);
    if push_expr(test, &mut names)? {
        Ok(Some(names))
    } else {
        Ok(None)
    }
}

/// Puts the names of the members that a query asks for of the document itself among others; whether these
/// are told.
fn push_root(query: &Checked, names: &mut Vec<String>) -> Result<bool, AllocError>
    ensures { IfOk result (Collects names.old.items names.new.items
        (λ p. asks_root p (query_of query.now.query))) }
{
    push_members(&query.query().segments, names)
}
