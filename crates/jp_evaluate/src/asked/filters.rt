//! The members that filters ask for of the values that they test. Each function here puts their
//! names among others, and tells whether these are all.

ghost use Rattle.std.specs.Prelude.{IfOk, map};
ghost use Rattle.jp_tree.specs.Tree.{exprs};
ghost use Rattle.jp_tree.specs.Views.{argument_of, call_of, expr_of, operand_of, query_of};
ghost use Rattle.jp_evaluate.specs.Private.Asks.{Collects, asks_argument, asks_call, asks_expr};
ghost use Rattle.jp_evaluate.specs.Private.Asks.{asks_exprs, asks_operand, asks_query};

use crate::asked::members::push_members;
use jp_tree::{Argument, Call, Expr, Operand, Query, Subject};
use std::alloc::AllocError;

/// Puts the names of the members that an expression asks for of the tested value among others; whether
/// these are all.
#[cycle(asked)]
pub(crate) fn push_expr(test: &Expr, names: &mut Vec<String>) -> Result<bool, AllocError>
    ensures { IfOk result (Collects names.old.items names.new.items
        (λ p. asks_expr p (expr_of test.now))) }
{
    match test {
        Expr::AnyOf(parts) => push_parts(parts, names),
        Expr::AllOf(parts) => push_parts(parts, names),
        Expr::Not(part) => push_expr(part, names),
        Expr::Compare { left, right, .. } => {
            if !push_side(left, names)? {
                return Ok(false);
            }
            push_side(right, names)
        }
        Expr::Test(Subject::Query(query)) => push_query(query, names),
        Expr::Test(Subject::Call(call)) => push_call(call, names),
    }
}

/// Puts the names that the parts of an expression ask for among others; whether these are all.
#[cycle(asked)]
fn push_parts(parts: &[Expr], names: &mut Vec<String>) -> Result<bool, AllocError>
    ensures { IfOk result (Collects names.old.items names.new.items
        (λ p. asks_exprs p (exprs (map expr_of parts.now)))) }
{
    for part in parts {
        if !push_expr(part, names)? {
            return Ok(false);
        }
    }
    Ok(true)
}

/// Puts the names that a side of a comparison asks for among others; whether these are all, as of a
/// literal, which asks for none.
#[cycle(asked)]
fn push_side(side: &Operand, names: &mut Vec<String>) -> Result<bool, AllocError>
    ensures { IfOk result (Collects names.old.items names.new.items
        (λ p. asks_operand p (operand_of side.now))) }
{
    match side {
        Operand::Literal(_) => Ok(true),
        Operand::Query(query) => push_query(query, names),
        Operand::Call(call) => push_call(call, names),
    }
}

/// Puts the names that the arguments of a call ask for among others; whether these are all.
#[cycle(asked)]
fn push_call(call: &Call, names: &mut Vec<String>) -> Result<bool, AllocError>
    ensures { IfOk result (Collects names.old.items names.new.items
        (λ p. asks_call p (call_of call.now))) }
{
    for argument in &call.arguments {
        if !push_argument(argument, names)? {
            return Ok(false);
        }
    }
    Ok(true)
}

/// Puts the names that an argument of a call asks for among others; whether these are all, as of a literal,
/// which asks for none.
#[cycle(asked)]
fn push_argument(argument: &Argument, names: &mut Vec<String>) -> Result<bool, AllocError>
    ensures { IfOk result (Collects names.old.items names.new.items
        (λ p. asks_argument p (argument_of argument.now))) }
{
    match argument {
        Argument::Literal(_) => Ok(true),
        Argument::Query(query) => push_query(query, names),
        Argument::Call(call) => push_call(call, names),
        Argument::Logical(test) => push_expr(test, names),
    }
}

/// A query from the root may ask for anything.
fn push_query(query: &Query, names: &mut Vec<String>) -> Result<bool, AllocError>
    ensures { IfOk result (Collects names.old.items names.new.items
        (λ p. asks_query p (query_of query.now))) }
{
    if query.absolute {
        return Ok(false);
    }
    push_members(&query.segments, names)
}
