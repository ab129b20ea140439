//! Values that borrow nothing, made from values that are lent.

ghost use Rattle.std.specs.Prelude.{◌≡◌, IfOk, map, string_bytes};
ghost use Rattle.jp_document.specs.Location.{entries, step_of};
ghost use Rattle.jp_document.specs.Value.{member_of, value_of};
ghost use Rattle.jp_lent.specs.Lending.{step_with};
ghost use Rattle.jp_lent.specs.Private.Copying.{as_member, name_in};

use crate::lent::Lent;
use crate::seen::Seen;
use jp_document::{Json, Member, Step};
use std::alloc::{AllocError, Global};

/// A copy of a lent value, which borrows nothing. The only error is that memory ran out.
#[cycle(copying)]
pub fn json_of<'d, V: Lent + 'd>(alloc: Global, value: V) -> Result<Json, AllocError>
    ensures { IfOk result (λ j. value_of j ≡ V.meaning value) }
{
    match value.seen() {
        Seen::Null => Ok(Json::Null),
        Seen::Bool(truth) => Ok(Json::Bool(truth)),
        Seen::Whole(number) => Ok(Json::Whole(number)),
        Seen::Decimal {
            exponent,
            coefficient,
        } => Ok(Json::Decimal {
            exponent,
            coefficient,
        }),
        Seen::Text(text) => Ok(Json::Text(String::from_str(alloc, text)?)),
        Seen::List => Ok(Json::List(items(alloc, value)?)),
        Seen::Members => Ok(Json::Members(members(alloc, value)?)),
    }
}

/// The values one step inside.
#[cycle(copying)]
fn items<'d, V: Lent + 'd>(alloc: Global, value: V) -> Result<Vec<Json>, AllocError>
    ensures { IfOk result (λ v. map value_of v.items ≡ map (λ e. e.1) (entries (V.meaning value))) }
{
    let mut found = Vec::with_capacity(alloc, value.count())?;
    'parts: while let Some(part) = value.child(found.len()) {
        let item = json_of(alloc, part.1)?;
        found.push(item)?;
    }
    Ok(found)
}

/// The values one step inside, with their names.
#[cycle(copying)]
fn members<'d, V: Lent + 'd>(alloc: Global, value: V) -> Result<Vec<Member>, AllocError>
    ensures { IfOk result (λ v. map member_of v.items ≡ map as_member (entries (V.meaning value))) }
{
    let mut found = Vec::with_capacity(alloc, value.count())?;
    'parts: while let Some(part) = value.child(found.len()) {
        let member = member(alloc, part)?;
        found.push(member)?;
    }
    Ok(found)
}

/// A value with its name.
#[cycle(copying)]
fn member<'d, V: Lent + 'd>(alloc: Global, part: (Step<'d>, V)) -> Result<Member, AllocError>
    ensures { IfOk result (λ m. member_of m ≡ as_member (step_with V.meaning part.entry)) }
{
    let name = name(alloc, part.0)?;
    let value = json_of(alloc, part.1)?;
    Ok(Member { name, value })
}

/// The name at a step to a member.
fn name(alloc: Global, step: Step<'_>) -> Result<String, AllocError>
    ensures { IfOk result (λ s. string_bytes s ≡ name_in (step_of step.entry)) }
{
    match step {
        Step::Name(name) => String::from_str(alloc, name),
        Step::Index(_) => Ok(String::new(alloc)),
    }
}
