//! What the filters of a query need of an evaluation.

use crate::singular::is_single_segment;
use jp_tree::{Argument, Call, Expr, Numeral, Operand, Query, Segment, Selector, Subject};

/// How many expressions, calls and queries stand in one another at most where answers are put in: for
/// each the copy goes one step deeper into the stack. Deeper queries are evaluated as they are.
const MOST_LEVELS: u32 = 128;

/// What the filters of a query need of an evaluation, or the expression of one. It is found once, and
/// no answer rests on it: where it tells otherwise, an evaluation takes longer.
#[derive(Debug, Clone, Copy)]
pub struct Needs {
    /// Whether an absolute query in a filter names no location, so that it is to be answered once, and
    /// not at each value that is tested.
    pub answers: bool,
    /// Whether a query in a filter may come to a value by several ways (`may_meet`).
    pub ways: bool,
}

/// What is seen of a part of a query: what it needs, and how many expressions, calls and queries stand
/// in one another.
#[derive(Clone, Copy)]
struct Look {
    needs: Needs,
    levels: u32,
}

impl Look {
    const NOTHING: Look = Look {
        needs: Needs {
            answers: false,
            ways: false,
        },
        levels: 0,
    };

    /// What is seen of two parts side by side: what either of them needs, and the levels of the deeper one.
    fn beside(self, other: Look) -> Look {
        Look {
            needs: Needs {
                answers: self.needs.answers || other.needs.answers,
                ways: self.needs.ways || other.needs.ways,
            },
            levels: self.levels.max(other.levels),
        }
    }

    /// What is seen of an expression, a call or a query that has this part in it: what the part needs, one
    /// level deeper.
    fn inside(self) -> Look {
        Look {
            needs: self.needs,
            levels: self.levels.saturating_add(1),
        }
    }

    /// What is needed, where answers can be put in so deep.
    fn needs(self) -> Needs {
        Needs {
            answers: self.needs.answers && self.levels <= MOST_LEVELS,
            ways: self.needs.ways,
        }
    }
}

/// What the filters of a query need. It takes no memory.
pub(crate) fn needs_of(query: &Query) -> Needs {
    filters_in(query).needs()
}

/// What the expression of a filter needs. It takes no memory.
pub(crate) fn needs_of_filter(expr: &Expr) -> Needs {
    look_at(expr).needs()
}

/// Whether several ways by these segments may lead to a value, so that walking each takes more than
/// the values and the segments: two of them may choose a value twice.
pub fn may_meet(segments: &[Segment]) -> bool {
    if segments.len() < 2 {
        return false;
    }
    let mut wide = false;
    for segment in segments {
        if segment.descendant || segment.selectors.len() > 1 {
            if wide {
                return true;
            }
            wide = true;
        }
    }
    false
}

/// What is seen in the filters of a query, one level deeper for the query itself.
#[cycle(needs)]
fn filters_in(query: &Query) -> Look {
    let mut look = Look::NOTHING;
    for segment in &query.segments {
        look = look.beside(filters_among(&segment.selectors));
    }
    look.inside()
}

/// What is seen in the filters among the selectors of one segment.
#[cycle(needs)]
fn filters_among(selectors: &[Selector]) -> Look {
    let mut look = Look::NOTHING;
    for selector in selectors {
        if let Selector::Filter(expr) = selector {
            look = look.beside(look_at(expr));
        }
    }
    look
}

/// What is seen of an expression and of all that stands in it; each expression is a level of its own.
#[cycle(needs)]
fn look_at(expr: &Expr) -> Look {
    let look = match expr {
        Expr::AnyOf(parts) | Expr::AllOf(parts) => parts_in(parts),
        Expr::Not(part) => look_at(part),
        Expr::Compare { left, right, .. } => side_in(left).beside(side_in(right)),
        Expr::Test(Subject::Query(query)) => query_in(query),
        Expr::Test(Subject::Call(call)) => arguments_in(call),
    };
    look.inside()
}

/// What is seen of the parts of an expression that joins them with `||` or `&&`.
#[cycle(needs)]
fn parts_in(parts: &[Expr]) -> Look {
    let mut look = Look::NOTHING;
    for part in parts {
        look = look.beside(look_at(part));
    }
    look
}

/// Queries that are sides themselves are singular, so that nothing is needed for them.
#[cycle(needs)]
fn side_in(side: &Operand) -> Look {
    match side {
        Operand::Call(call) => arguments_in(call),
        Operand::Literal(_) | Operand::Query(_) => Look::NOTHING,
    }
}

/// What is seen in the arguments of a call, one level deeper for the call itself.
#[cycle(needs)]
fn arguments_in(call: &Call) -> Look {
    let mut look = Look::NOTHING;
    for argument in &call.arguments {
        look = look.beside(match argument {
            Argument::Query(query) => query_in(query),
            Argument::Call(call) => arguments_in(call),
            Argument::Logical(expr) => look_at(expr),
            Argument::Literal(_) => Look::NOTHING,
        });
    }
    look.inside()
}

/// What is seen of a query in a filter: besides what its own filters need, whether the query itself is to
/// be answered once, and whether it may come to a value by several ways.
#[cycle(needs)]
fn query_in(query: &Query) -> Look {
    let look = filters_in(query);
    Look {
        needs: Needs {
            answers: look.needs.answers || (query.absolute && !names_location(query)),
            ways: look.needs.ways || may_meet(&query.segments),
        },
        levels: look.levels,
    }
}

/// Whether each segment is a child segment with one selector, a name or an index from 0 on.
fn names_location(query: &Query) -> bool {
    for segment in &query.segments {
        if !is_single_segment(segment) || is_from_the_end(&segment.selectors) {
            return false;
        }
    }
    true
}

/// Whether the first selector is an index that is counted from the end.
fn is_from_the_end(selectors: &[Selector]) -> bool {
    match selectors {
        [Selector::Index(Numeral::Whole(index)), ..] => *index < 0,
        _ => false,
    }
}
