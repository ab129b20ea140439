//! Logical expressions in canonical texts (RFC 9535 section 2.3.5.1).

ghost use Rattle.std.specs.Prelude.{◌≡◌, ◌++◌, map, true, OnOk};
ghost use Rattle.std.specs.Char.{is_ascii};
ghost use Rattle.std.specs.List.{list_all};
ghost use Rattle.jp_tree.specs.Tree.{exprs};
ghost use Rattle.jp_tree.specs.Views.{expr_of, operand_of};
ghost use Rattle.jp_canon.specs.Canon.{expr_text, operand_text, part_texts, separated};
ghost use Rattle.jp_canon.specs.Precedence.{is_grouped, precedence};

use crate::calls::write_call;
use crate::segments::write_query;
use crate::values::{write_literal, write_operator};
use crate::writer::Writer;
use jp_tree::{Expr, Operand, Subject};
use std::alloc::AllocError;

/// The precedences of operators (RFC 9535 section 2.3.5.1, Table 10).
const OR: u8 = 1;

const AND: u8 = 2;

const RELATION: u8 = 3;

const NOT: u8 = 4;

const WHOLE: u8 = 5;

/// Writes a logical expression. Parts stand in parentheses where they bind no more tightly than it.
#[cycle(nested)]
pub(crate) fn write_expr(out: &mut Writer, expr: &Expr) -> Result<(), AllocError>
    ensures { OnOk result (out.new ≡ out.old ++ expr_text (expr_of expr.now)) }
{
    match expr {
        Expr::AnyOf(parts) => write_parts(out, parts, OR, "||"),
        Expr::AllOf(parts) => write_parts(out, parts, AND, "&&"),
        Expr::Not(part) => {
            let grouped = is_grouped(NOT, part);
            out.word("!")?;
            out.word_if(grouped, "(")?;
            write_expr(out, part)?;
            out.word_if(grouped, ")")
        }
        Expr::Compare { left, op, right } => {
            write_side(out, left)?;
            write_operator(out, *op)?;
            write_side(out, right)
        }
        Expr::Test(Subject::Query(query)) => write_query(out, query),
        Expr::Test(Subject::Call(call)) => write_call(out, call),
    }
}

/// Writes the parts of an expression of this precedence, with this separator between them.
#[cycle(nested)]
fn write_parts(
    out: &mut Writer,
    parts: &[Expr],
    outer: u8,
    separator: &str,
) -> Result<(), AllocError>
    requires { list_all is_ascii separator.now ≡ true }
    ensures { OnOk result (out.new
        ≡ out.old ++ separated separator.now (part_texts outer (exprs (map expr_of parts.now)))) }
{
    for (i, part) in parts.iter().enumerate() {
        let grouped = is_grouped(outer, part);
        out.word_if(i > 0, separator)?;
        out.word_if(grouped, "(")?;
        write_expr(out, part)?;
        out.word_if(grouped, ")")?;
    }
    Ok(())
}

/// Writes a side of a comparison.
#[cycle(nested)]
fn write_side(out: &mut Writer, side: &Operand) -> Result<(), AllocError>
    ensures { OnOk result (out.new ≡ out.old ++ operand_text (operand_of side.now)) }
{
    match side {
        Operand::Literal(literal) => write_literal(out, literal),
        Operand::Query(query) => write_query(out, query),
        Operand::Call(call) => write_call(out, call),
    }
}

/// Whether a part stands in parentheses in an expression of this precedence.
fn is_grouped(outer: u8, part: &Expr) -> bool
    ensures { result ≡ is_grouped outer (expr_of part.now) }
{
    precedence(part) <= outer
}

/// The precedence of an expression: from the lowest, that of `||`, by those of `&&`, comparisons and `!` to
/// that of a test, which needs no parentheses.
fn precedence(expr: &Expr) -> u8
    ensures { result ≡ precedence (expr_of expr.now) }
{
    match expr {
        Expr::AnyOf(_) => OR,
        Expr::AllOf(_) => AND,
        Expr::Compare { .. } => RELATION,
        Expr::Not(_) => NOT,
        Expr::Test(_) => WHOLE,
    }
}
