//! The kinds of functions (RFC 9535 section 2.4.1), and the functions that make a value of a value.

ghost use Rattle.jp_select.specs.Steps.{IsSpent, Takes};
ghost use Rattle.std.specs.Prelude.{◌≡◌, IfOk, OnErr};
ghost use Rattle.jp_select.specs.Comparable.{comparable_of};
ghost use Rattle.jp_evaluate.specs.Functions.{meaning};
ghost use Rattle.jp_evaluate.specs.Private.Meanings.{kind_of, made_of_value};

use crate::length::length_of;
use jp_check::Function;
use jp_lent::Lent;
use jp_select::{Comparable, Steps, Stopped};

/// What a function makes of its arguments.
#[derive(Clone, Copy)]
pub(crate) enum Kind {
    /// A value of a value.
    ValueOfValue,
    /// A value of nodes.
    ValueOfNodes,
    /// Nodes of nodes.
    NodesOfNodes,
    /// True or false of two values.
    TruthOfValues,
}

/// The kind of a function.
pub(crate) fn kind_of(function: Function) -> Kind
    ensures { result ≡ kind_of (meaning function) }
{
    match function {
        Function::Length => Kind::ValueOfValue,
        Function::Count | Function::ValueOf => Kind::ValueOfNodes,
        Function::Distinct => Kind::NodesOfNodes,
        Function::Match | Function::Search => Kind::TruthOfValues,
    }
}

/// What a function makes of a value; Nothing of another kind's function.
pub(crate) fn value_of_value<'a, V: Lent + 'a>(
    function: Function,
    value: Comparable<'a, V>,
    steps: &mut Steps,
) -> Result<Comparable<'a, V>, Stopped>
    ensures value { IfOk result (λ answer. comparable_of V.meaning answer
        ≡ made_of_value (meaning function) (comparable_of V.meaning value.entry)) }
    ensures takes { Takes steps.old steps.new }
    ensures stopped { OnErr result (IsSpent steps.new) }
{
    match function {
        Function::Length => length_of(value, steps),
        _ => Ok(Comparable::Nothing),
    }
}
