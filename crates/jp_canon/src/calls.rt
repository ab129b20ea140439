//! Function expressions in canonical texts (RFC 9535 section 2.4).

ghost use Rattle.std.specs.Prelude.{◌≡◌, ◌++◌, OnOk};
ghost use Rattle.jp_tree.specs.Views.{argument_of, call_of, expr_of};
ghost use Rattle.jp_canon.specs.Canon.{argument_text, call_text};
ghost use Rattle.jp_canon.specs.Precedence.{is_test};

use crate::expressions::write_expr;
use crate::segments::write_query;
use crate::values::write_literal;
use crate::writer::Writer;
use jp_tree::{Argument, Call, Expr};
use std::alloc::AllocError;

/// Writes a function expression: its name, then its arguments in parentheses, with commas between
/// them.
#[cycle(nested)]
pub(crate) fn write_call(out: &mut Writer, call: &Call) -> Result<(), AllocError>
    ensures { OnOk result (out.new ≡ out.old ++ call_text (call_of call.now)) }
{
    out.text(call.name.as_str())?;
    out.word("(")?;
    for (i, argument) in call.arguments.iter().enumerate() {
        out.word_if(i > 0, ",")?;
        write_argument(out, argument)?;
    }
    out.word(")")
}

/// Writes an argument. A test stands in parentheses where the argument is a logical expression.
#[cycle(nested)]
fn write_argument(out: &mut Writer, argument: &Argument) -> Result<(), AllocError>
    ensures { OnOk result (out.new ≡ out.old ++ argument_text (argument_of argument.now)) }
{
    match argument {
        Argument::Literal(literal) => write_literal(out, literal),
        Argument::Query(query) => write_query(out, query),
        Argument::Call(call) => write_call(out, call),
        Argument::Logical(expr) => {
            let grouped = is_test(expr);
            out.word_if(grouped, "(")?;
            write_expr(out, expr)?;
            out.word_if(grouped, ")")
        }
    }
}

/// Whether the expression is a test without a `!`.
fn is_test(expr: &Expr) -> bool
    ensures { result ≡ is_test (expr_of expr.now) }
{
    matches!(expr, Expr::Test(_))
}
