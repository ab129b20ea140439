//! The values of a document in tables, as values that are lent.

ghost use Rattle.jp_reading.proofs.Conjunctions.{and-right};
ghost use Rattle.jp_flat.specs.FlatValue.{lent_flat};

use crate::flat_value::FlatValue;
use jp_document::Step;
use jp_lent::{Lent, Seen, Selectable};

impl<'v, 't> Lent for FlatValue<'v, 't> {
    ghost meaning = { lent_flat };

    #[inline(always)]
    fn seen<'d>(self) -> Seen<'d>
    where
        Self: 'd,
    {
        FlatValue::seen(self)
    }

    fn count(self) -> usize {
        FlatValue::count(self)
    }

    fn child<'d>(self, position: usize) -> Option<(Step<'d>, FlatValue<'v, 't>)>
    where
        Self: 'd,
    {
        FlatValue::child(self, position)
    }

    #[inline(always)]
    fn child_value(self, position: usize) -> Option<FlatValue<'v, 't>> {
        FlatValue::child_value(self, position)
    }
}

impl<'v, 't> Selectable for FlatValue<'v, 't> {
    fn list_length(self) -> Option<u64> {
        FlatValue::list_length(self)
    }

    #[inline(always)]
    fn member<'d>(self, name: &str) -> Option<(Step<'d>, FlatValue<'v, 't>)>
    where
        Self: 'd,
    {
        FlatValue::member(self, name)
    }

    ghost sound = { λ v. and-right _ _ v.sound };
}
