//! Laws of acceptance, each the contract of a function that does nothing.

ghost use Rattle.jp_reading.specs.Texts.{Text};
ghost use Rattle.jp_check.specs.Laws.{DecimalIsExtended, FaultAtItsComponent, OneAnswer};
ghost use Rattle.jp_check.specs.Laws.{StandardIsExtended, WholeIsDecimal};
ghost use Rattle.jp_check.specs.declared.profile.Profile.{Profile};

use jp_query::laws::{one_reading, one_refusal, spans_of_components};

/// In each profile a text is accepted as one tree, or is refused in one way, with its first fault
/// or as no query, at one place; and not both, running out of memory aside.
pub fn one_answer()
    ensures { (profile : Profile) (text : Text) → OneAnswer profile text }
{
    one_reading();
    one_refusal();
}

/// A fault is that of one of the query's components, and its place is the byte where the text of that
/// component starts.
pub fn fault_at_its_component()
    ensures { (profile : Profile) → FaultAtItsComponent profile }
{
    spans_of_components();
}

/// What is accepted in `Standard` is accepted in `Extended` as the same tree.
pub fn standard_is_extended()
    ensures { StandardIsExtended }
{}

/// What is accepted in `Decimal` is accepted in `ExtendedDecimal` as the same tree.
pub fn decimal_is_extended()
    ensures { DecimalIsExtended }
{}

/// What is accepted in `Standard` is accepted in `Decimal` as the same tree, and what is accepted in
/// `Extended` in `ExtendedDecimal`.
pub fn whole_is_decimal()
    ensures { WholeIsDecimal }
{}
