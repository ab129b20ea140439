//! Values of documents, wherever they stand.

ghost use Rattle.std.specs.Prelude.{◌≡◌, ◌<◌, OnSome, option_map, slice_get};
ghost use Rattle.std.specs.Cmp.Lexicographic.{slice_cmp};
ghost use Rattle.std.specs.Ordering.{nat_cmp};
ghost use Rattle.jp_document.specs.Value.{IsDocumentValue, list_length, member_of, value_of};

use crate::location::Step;
use crate::value::{Json, Member};
use std::cmp::Ordering;

/// A value of a document: the document's own, or one that stands inside it. It copies nothing of
/// it.
#[derive(Clone, Copy)]
pub struct DocumentValue<'d> {
    json: &'d Json,
    ghost sound: { IsDocumentValue (value_of json.now) },
}

impl<'d> DocumentValue<'d> {
    ghost use Rattle.jp_document.specs.DocumentValue.{lent_entry, lent_value};
    ghost use Rattle.jp_document.specs.Location.{child, child_entry, entries, step_of, named, nth};

    /// The value of a document.
    pub fn of(json: &'d Json) -> DocumentValue<'d>
        requires { IsDocumentValue (value_of json.now) }
        ensures { lent_value result ≡ value_of json.now }
    {
        DocumentValue { json }
    }

    /// The value itself.
    pub fn json(self) -> &'d Json
        ensures value { value_of result.now ≡ lent_value self.entry }
        ensures sound { IsDocumentValue (lent_value self.entry) }
    {
        self.json
    }

    /// How many items a list has, None of another value.
    pub fn list_length(self) -> Option<u64>
        ensures { result ≡ list_length (lent_value self.entry) }
    {
        match self.json {
            Json::List(items) => Some(items.len() as u64),
            Json::Null
            | Json::Bool(_)
            | Json::Whole(_)
            | Json::Decimal { .. }
            | Json::Text(_)
            | Json::Members(_) => None,
        }
    }

    /// The value at this position one step inside, from 0, with its step; None where there are no
    /// more. A list has its items, an object its members by the bytes of their names (RFC 9535
    /// section 1.1).
    pub fn child(self, position: usize) -> Option<(Step<'d>, DocumentValue<'d>)>
        ensures entry { option_map lent_entry result
            ≡ slice_get (entries (lent_value self.entry)) position }
        ensures more { OnSome result (position < usize.MAX) }
    {
        match self.json {
            Json::List(items) => {
                let json = items.get(position)?;
                Some((Step::Index(position as u64), DocumentValue { json }))
            }
            Json::Members(members) => {
                let member = members.get(position)?;
                let json = &member.value;
                Some((Step::Name(member.name.as_str()), DocumentValue { json }))
            }
            Json::Null | Json::Bool(_) | Json::Whole(_) | Json::Decimal { .. } | Json::Text(_) =>
                None,
        }
    }

    /// The item at this index of a list, with its step; None where there is none (RFC 9535 section
    /// 2.3.3).
    pub fn item(self, index: u64) -> Option<(Step<'d>, DocumentValue<'d>)>
        ensures { option_map lent_entry result
            ≡ child_entry (lent_value self.entry) (nth index) }
    {
        match self.json {
            Json::List(_) => self.child(index as usize),
            Json::Null
            | Json::Bool(_)
            | Json::Whole(_)
            | Json::Decimal { .. }
            | Json::Text(_)
            | Json::Members(_) => None,
        }
    }

    /// The member of this name of an object, with its step; None where there is none (RFC 9535
    /// section 2.3.1).
    pub fn member(self, name: &str) -> Option<(Step<'d>, DocumentValue<'d>)>
        ensures { option_map lent_entry result
            ≡ child_entry (lent_value self.entry) (named name.now) }
    {
        match self.json {
            Json::Members(members) => {
                match members.binary_search_by(|member| name_order(member, name)) {
                    Ok(index) => self.child(index),
                    Err(_) => None,
                }
            }
            Json::Null
            | Json::Bool(_)
            | Json::Whole(_)
            | Json::Decimal { .. }
            | Json::Text(_)
            | Json::List(_) => None,
        }
    }

    /// The value at this step inside, None where there is none.
    pub fn at_step(self, step: Step) -> Option<DocumentValue<'d>>
        ensures { option_map lent_value result ≡ child (lent_value self.entry) (step_of step.entry) }
    {
        match step {
            Step::Name(name) => Some(self.member(name)?.1),
            Step::Index(index) => Some(self.item(index)?.1),
        }
    }
}

/// The order of the member's name beside another, by their bytes.
#[tactic(auto, using(crate::proofs::Values::member_of_is))]
pub(crate) fn name_order(member: &Member, name: &str) -> Ordering
    ensures { result ≡ slice_cmp nat_cmp (member_of member.now).0 name.now }
{
    member.name.as_str().cmp(name)
}
