//! Reading the expression of a filter that is asked of each document.

ghost use Rattle.std.specs.Prelude.{◌⊎◌, IfErr, IfOk};
ghost use Rattle.jp_command.specs.Run.{RanOut};
ghost use Rattle.jp_tree.specs.Views.{expr_of};
ghost use Rattle.jp_lines.specs.Expression.{IsFilterAsked, RefusesFilter};

use jp_check::{CheckedFilter, Profile, read_filter};
use jp_command::QUERY_LIMIT;
use jp_query::{Refusal, RefusalKind};
use std::alloc::Global;

/// Reads an expression of at most `QUERY_LIMIT` bytes in a profile, as `read_filter` does. A longer one is
/// refused with `TextTooLong` at 0.
pub(crate) fn read_expression(
    alloc: Global,
    text: &str,
    profile: Profile,
) -> Result<CheckedFilter, Refusal>
    ensures asked { IfOk result (λ c. IsFilterAsked profile text.now (expr_of c.expr)) }
    ensures refused { IfErr result
        (λ refusal. RanOut refusal ⊎ RefusesFilter profile text.now refusal) }
{
    if text.len() > QUERY_LIMIT {
        return Err(Refusal {
            kind: RefusalKind::TextTooLong,
            place: 0,
        });
    }
    read_filter(alloc, text, profile)
}
