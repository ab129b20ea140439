//! The values of a document, as values that are lent.

ghost use Rattle.jp_document.specs.DocumentValue.{lent_value};

use crate::json_form::{count, seen};
use crate::lent::{Lent, Selectable};
use crate::seen::Seen;
use jp_document::{DocumentValue, Step};

impl<'v> Lent for DocumentValue<'v> {
    ghost meaning = { lent_value };

    fn seen<'d>(self) -> Seen<'d>
    where
        Self: 'd,
    {
        seen(self.json())
    }

    fn count(self) -> usize {
        count(self.json())
    }

    fn child<'d>(self, position: usize) -> Option<(Step<'d>, DocumentValue<'v>)>
    where
        Self: 'd,
    {
        DocumentValue::child(self, position)
    }

    fn child_value(self, position: usize) -> Option<DocumentValue<'v>> {
        match DocumentValue::child(self, position) {
            Some(part) => Some(part.1),
            None => None,
        }
    }
}

impl<'v> Selectable for DocumentValue<'v> {
    fn list_length(self) -> Option<u64> {
        DocumentValue::list_length(self)
    }

    fn member<'d>(self, name: &str) -> Option<(Step<'d>, DocumentValue<'v>)>
    where
        Self: 'd,
    {
        DocumentValue::member(self, name)
    }

    ghost sound = { λ v. v.sound };
}
