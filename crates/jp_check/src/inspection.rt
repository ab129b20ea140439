//! The inspection of the components of a query, with their spans.

ghost use Rattle.std.specs.Prelude.{◌≡◌, map, MatchOption, Option, None};
ghost use Rattle.jp_query.specs.Components.{bound_components, call_components, expr_components};
ghost use Rattle.jp_query.specs.Components.{exprs_components, components_of};
ghost use Rattle.jp_query.specs.Components.{operand_components, segment_components};
ghost use Rattle.jp_query.specs.Components.{selector_components};
ghost use Rattle.jp_tree.specs.Tree.{exprs};
ghost use Rattle.jp_tree.specs.Views.{argument_of, call_of, expr_of, operand_of, query_of};
ghost use Rattle.jp_tree.specs.Tree.{slice as slice_tree};
ghost use Rattle.jp_tree.specs.Views.{segment_of, selector_of, subject_of};
ghost use Rattle.jp_check.specs.Faults.{IsFaultless, IsFaultlessFilter};
ghost use Rattle.jp_check.specs.First.{IsFirstFault};
ghost use Rattle.jp_check.specs.Private.Inspection.{earlier, fault_of_call, fault_of_int, fault_of_query};
ghost use Rattle.jp_check.specs.Private.Inspection.{is_before, past_argument, past_component, past_components};

use crate::faults::{
    fault_of_call, fault_of_int, fault_of_literal, fault_of_logical, fault_of_query,
};
use crate::functions::{DataType, wanted_of_arguments};
use crate::profile::Profile;
use jp_query::{Parsed, ParsedFilter, Refusal, RefusalKind, Span};
use jp_tree::{Argument, Call, Expr, Numeral, Operand, Query, Segment, Selector, Slice, Subject};
use std::marker::Model;

/// The first fault of a query in a profile, if it has one.
pub(crate) fn first_fault(parsed: &Parsed, profile: Profile) -> Option<Refusal>
    ensures { MatchOption result
        (IsFaultless profile (query_of parsed.now.query))
        (IsFirstFault profile (components_of (query_of parsed.now.query)) parsed.now.spans) }
{
    let mut inspection = Inspection::new(parsed.spans(), profile);
    inspection.query(parsed.query());
    inspection.first()
}

/// The first fault of a filter's expression in a profile, if it has one.
pub(crate) fn first_filter_fault(parsed: &ParsedFilter, profile: Profile) -> Option<Refusal>
    ensures { MatchOption result
        (IsFaultlessFilter profile (expr_of parsed.now.expr))
        (IsFirstFault profile (expr_components (expr_of parsed.now.expr)) parsed.now.spans) }
{
    let mut inspection = Inspection::new(parsed.spans(), profile);
    inspection.expr(parsed.expr());
    inspection.first()
}

/// An inspection of the components of a query, with their spans.
#[derive(Drop)]
struct Inspection<'s> {
    /// The profile, which has the functions that may be called.
    profile: Profile,
    /// The spans of the components that are still to come.
    spans: &'s [Option<Span>],
    /// The first fault of the components that were.
    first: Option<Refusal>,
}

impl<'s> Model for Inspection<'s> {
    ghost use Rattle.jp_check.specs.Private.Inspection.{Progress};

    ghost Value = { Progress };

    ghost view = { λ w. record { profile = w.profile; spans = w.spans.now; first = w.first } };
}

impl<'s> Inspection<'s> {
    /// An inspection with all components to come.
    fn new(spans: &'s [Option<Span>], profile: Profile) -> Inspection<'s>
        ensures { result ≡ record { profile = profile; spans = spans.now; first = None } }
    {
        Inspection {
            profile,
            spans,
            first: None,
        }
    }

    /// The first fault so far.
    fn first(&self) -> Option<Refusal>
        ensures { result ≡ self.now.first }
    {
        self.first
    }

    /// Goes through the components of a query.
    #[cycle(inspection)]
    fn query(&mut self, query: &Query)
        ensures { self.new ≡ past_components (components_of (query_of query.now)) self.old }
    {
        for segment in &query.segments {
            self.segment(segment);
        }
    }

    /// Goes through the components of a segment.
    #[cycle(inspection)]
    fn segment(&mut self, segment: &Segment)
        ensures { self.new ≡ past_components (segment_components (segment_of segment.now)) self.old }
    {
        for selector in &segment.selectors {
            self.selector(selector);
        }
    }

    /// Goes through the components of a selector.
    #[cycle(inspection)]
    fn selector(&mut self, selector: &Selector)
        ensures { self.new ≡ past_components (selector_components (selector_of selector.now)) self.old }
    {
        match selector {
            Selector::Name(_) | Selector::Wildcard => {}
            Selector::Index(index) => self.int(*index),
            Selector::Slice(slice) => self.slice(slice),
            Selector::Filter(expr) => self.expr(expr),
        }
    }

    /// Goes through the components of a logical expression.
    #[cycle(inspection)]
    fn expr(&mut self, expr: &Expr)
        ensures { self.new ≡ past_components (expr_components (expr_of expr.now)) self.old }
    {
        match expr {
            Expr::AnyOf(parts) | Expr::AllOf(parts) => self.parts(parts),
            Expr::Not(part) => self.expr(part),
            Expr::Compare { left, op: _, right } => {
                self.side(left);
                self.side(right);
            }
            Expr::Test(subject) => self.test(subject),
        }
    }

    /// Goes through the components of the parts of an expression.
    #[cycle(inspection)]
    fn parts(&mut self, parts: &[Expr])
        ensures { self.new ≡ past_components (exprs_components (exprs (map expr_of parts.now))) self.old }
    {
        for part in parts {
            self.expr(part);
        }
    }

    /// Goes through the components of a test, where a logical value is wanted.
    #[cycle(inspection)]
    fn test(&mut self, subject: &Subject)
        ensures { self.new ≡ past_components (expr_components (subject_of subject.now)) self.old }
    {
        match subject {
            Subject::Query(query) => self.inner(query, Some(DataType::Logical)),
            Subject::Call(call) => self.call(call, Some(DataType::Logical)),
        }
    }

    /// Goes through the components of a side of a comparison, where a value is wanted.
    #[cycle(inspection)]
    fn side(&mut self, side: &Operand)
        ensures { self.new ≡ past_components (operand_components (operand_of side.now)) self.old }
    {
        let wanted = Some(DataType::Value);
        match side {
            Operand::Literal(literal) => {
                self.pass(fault_of_literal(literal, wanted, self.profile.numbers()));
            }
            Operand::Query(query) => self.inner(query, wanted),
            Operand::Call(call) => self.call(call, wanted),
        }
    }

    /// Goes through an inner query where that type is wanted, and then through the components in it.
    #[cycle(inspection)]
    fn inner(&mut self, query: &Query, wanted: Option<DataType>)
        ensures { self.new
            ≡ past_components
            (components_of (query_of query.now))
            (past_component (fault_of_query (query_of query.now) wanted) self.old) }
    {
        self.pass(fault_of_query(query, wanted));
        self.query(query);
    }

    /// Goes through a call where that type is wanted, and then through the components in it.
    #[cycle(inspection)]
    fn call(&mut self, call: &Call, wanted: Option<DataType>)
        ensures { self.new
            ≡ past_components
            (call_components (call_of call.now))
            (past_component (fault_of_call self.old.profile (call_of call.now) wanted) self.old) }
    {
        self.pass(fault_of_call(call, wanted, self.profile));
        let types = wanted_of_arguments(call, self.profile);
        for (index, argument) in call.arguments.iter().enumerate() {
            self.argument(argument, types.get(index).copied());
        }
    }

    /// Goes through the components of an argument of which that type is wanted.
    #[cycle(inspection)]
    fn argument(&mut self, argument: &Argument, wanted: Option<DataType>)
        ensures { self.new ≡ past_argument wanted (argument_of argument.now) self.old }
    {
        match argument {
            Argument::Literal(literal) => {
                self.pass(fault_of_literal(literal, wanted, self.profile.numbers()));
            }
            Argument::Query(query) => self.inner(query, wanted),
            Argument::Call(call) => self.call(call, wanted),
            Argument::Logical(expr) => {
                self.pass(fault_of_logical(wanted));
                self.expr(expr);
            }
        }
    }

    /// Goes through the parts of a slice; an omitted step is a component without a span.
    #[tactic(auto, using(crate::proofs::PastComponents::past_components_append))]
    fn slice(&mut self, slice: &Slice)
        ensures { self.new ≡ past_components (selector_components (slice_tree slice.now)) self.old }
    {
        self.bound(slice.start);
        self.bound(slice.end);
        self.int(slice.step);
    }

    /// Goes through a bound of a slice, if it is there.
    fn bound(&mut self, bound: Option<Numeral>)
        ensures { self.new ≡ past_components (bound_components bound) self.old }
    {
        if let Some(number) = bound {
            self.int(number);
        }
    }

    /// Passes an index or a part of a slice.
    fn int(&mut self, number: Numeral)
        ensures { self.new ≡ past_component (fault_of_int number) self.old }
    {
        self.pass(fault_of_int(number));
    }

    /// Passes the next component, which has that fault or none.
    fn pass(&mut self, fault: Option<RefusalKind>)
        ensures { self.new ≡ past_component fault self.old }
    {
        let Some((span, rest)) = self.spans.split_first() else {
            return;
        };
        self.spans = rest;
        if let (Some(kind), Some(span)) = (fault, span) {
            self.note(Refusal {
                kind,
                place: span.start,
            });
        }
    }

    /// Keeps the fault if it is the first so far.
    fn note(&mut self, fault: Refusal)
        ensures profile { self.new.profile ≡ self.old.profile }
        ensures spans { self.new.spans ≡ self.old.spans }
        ensures first { self.new.first ≡ earlier self.old.first fault }
    {
        match self.first {
            Some(first) if !is_before(fault, first) => {}
            _ => self.first = Some(fault),
        }
    }
}

/// Whether the one fault stands before the other: at a smaller place, or at the same place with a
/// smaller number.
fn is_before(one: Refusal, other: Refusal) -> bool
    ensures { result ≡ is_before one other }
{
    one.place < other.place || (one.place == other.place && one.kind.number() < other.kind.number())
}
