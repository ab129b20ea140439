//! The truth of a filter's expression over a whole document.

ghost use Rattle.jp_evaluate.specs.Stopping.{StopsSpent};
ghost use Rattle.jp_select.specs.Steps.{Takes};
ghost use Rattle.std.specs.Prelude.{◌≡◌, IfOk, filter as those_of};
ghost use Rattle.jp_document.specs.Node.{root_of};
ghost use Rattle.jp_tree.specs.Views.{expr_of};
ghost use Rattle.jp_evaluate.specs.Nodelist.{holds};
ghost use Rattle.jp_evaluate.specs.Patterns.{is_short, texts_in};

use crate::evaluating::{Evaluation, Work};
use crate::evaluation_fault::EvaluationFault;
use crate::filter::Asking;
use crate::pattern::Patterns;
use jp_check::CheckedFilter;
use jp_lent::Selectable;
use jp_match::Matching;
use jp_select::Steps;
use std::alloc::Global;
use std::mem;

/// Whether a filter's expression is true where the value is both the root, `$`, and the current node,
/// `@` (RFC 9535 section 2.3.5.2). The matcher answers `match` and `search`; patterns that were read are
/// not read again, and those of at most 1,024 bytes are kept. `StepsUsedUp` says that the steps that
/// may be made are used up.
pub fn holds_of<'d: 'q, 'q, V: Selectable + 'd, M: Matching>(
    alloc: Global,
    root: V,
    filter: &'q CheckedFilter,
    matcher: &'q M,
    patterns: &mut Patterns,
    steps: &mut Steps,
) -> Result<bool, EvaluationFault>
    ensures gives { IfOk result (λ answer. answer
        ≡ holds (expr_of filter.now.expr) (V.meaning root) (root_of (V.meaning root))) }
    ensures takes { Takes steps.old steps.new }
    ensures stopped { StopsSpent result steps.new }
    ensures kept { those_of is_short (texts_in patterns.new) ≡ texts_in patterns.new }
{
    let evaluation = Evaluation {
        alloc,
        root,
        matcher,
        ways: filter.needs().ways,
    };
    let asking = Asking {
        evaluation: &evaluation,
        current: root,
    };
    let mut work = Work {
        patterns: mem::replace(patterns, Patterns::new(alloc)),
        steps: *steps,
    };
    let answer = asking.holds(&mut work, filter.expr());
    work.patterns.forget_long();
    *patterns = work.patterns;
    *steps = work.steps;
    answer
}
