//! A `Json`, as a value that is lent. It need not be of a document.

ghost use Rattle.std.specs.Prelude.{◌≡◌, length};
ghost use Rattle.std.specs.Borrow.{Bor};
ghost use Rattle.jp_document.specs.Location.{entries};
ghost use Rattle.jp_document.specs.Value.{value_of};
ghost use Rattle.jp_lent.specs.Lending.{bare, seen_value};

use crate::lent::Lent;
use crate::seen::Seen;
use jp_document::{Json, Step};

impl<'v> Lent for &'v Json {
    ghost meaning = { λ json. value_of json.now };

    fn seen<'d>(self) -> Seen<'d>
    where
        Self: 'd,
    {
        seen(self)
    }

    fn count(self) -> usize {
        count(self)
    }

    fn child<'d>(self, position: usize) -> Option<(Step<'d>, &'v Json)>
    where
        Self: 'd,
    {
        match self {
            Json::List(items) => Some((Step::Index(position as u64), items.get(position)?)),
            Json::Members(members) => {
                let member = members.get(position)?;
                Some((Step::Name(member.name.as_str()), &member.value))
            }
            Json::Null | Json::Bool(_) | Json::Whole(_) | Json::Decimal { .. } | Json::Text(_) =>
                None,
        }
    }

    fn child_value(self, position: usize) -> Option<&'v Json> {
        match self.child(position) {
            Some(part) => Some(part.1),
            None => None,
        }
    }
}

/// What it is, without what is in it.
pub(crate) fn seen(json: &Json) -> Seen<'_>
    ensures { seen_value result ≡ bare (value_of json.now) }
{
    match json {
        Json::Null => Seen::Null,
        Json::Bool(truth) => Seen::Bool(*truth),
        Json::Whole(number) => Seen::Whole(*number),
        Json::Decimal {
            exponent,
            coefficient,
        } => Seen::Decimal {
            exponent: *exponent,
            coefficient: *coefficient,
        },
        Json::Text(text) => Seen::Text(text.as_str()),
        Json::List(_) => Seen::List,
        Json::Members(_) => Seen::Members,
    }
}

/// How many values it has one step inside.
#[tactic(auto, using(crate::proofs::Counts::item_count, crate::proofs::Counts::member_count))]
pub(crate) fn count(json: &Json) -> usize
    ensures { result ≡ length (entries (value_of json.now)) }
{
    match json {
        Json::List(items) => items.len(),
        Json::Members(members) => members.len(),
        Json::Null | Json::Bool(_) | Json::Whole(_) | Json::Decimal { .. } | Json::Text(_) => 0,
    }
}
