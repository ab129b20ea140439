//! Checked queries, and how they are checked and read.

ghost use Rattle.std.specs.Prelude.{◌≡◌, ◌⊎◌, IfOk, IfErr};
ghost use Rattle.std.specs.Str.{chars};
ghost use Rattle.jp_query.specs.Components.{components_of};
ghost use Rattle.jp_tree.specs.Views.{query_of};
ghost use Rattle.jp_check.specs.Accepted.{IsAccepted, IsAcceptedAs, IsNotAccepted};
ghost use Rattle.jp_check.specs.Faults.{IsFaultless};
ghost use Rattle.jp_check.specs.First.{IsFirstFault};
ghost use Rattle.jp_check.specs.Refused.{IsRefused};

use crate::inspection::first_fault;
use crate::needs::{Needs, needs_of};
use crate::profile::Profile;
use jp_query::{Parsed, Refusal, RefusalKind, parse};
use jp_tree::Query;
use std::alloc::Global;
use std::marker::Model;

/// The tree of a query that is accepted (RFC 9535 sections 2.1, 2.3.5.1 and 2.4.3), the profile in
/// which it is, and what its filters need.
#[derive(Debug, Drop)]
pub struct Checked {
    query: Query,
    profile: Profile,
    needs: Needs,
}

impl Model for Checked {
    ghost use Rattle.jp_check.specs.Checked.{Profiled};
    ghost use Rattle.jp_tree.specs.contracts.tree.Query as q;
    ghost use Rattle.std.specs.Coded.{codes};

    ghost Value = { Profiled };

    ghost coded = { Prim.hlevel (codes, q.the_row.coded) };

    ghost use Rattle.jp_check.specs.Private.Checked.{profiled, IsAcceptedInside};

    ghost view = { profiled };

    ghost invariant = { IsAcceptedInside };
}

impl Checked {
    /// The tree of the query.
    pub fn query(&self) -> &Query
        ensures same { result.now ≡ self.now.query }
        ensures accepted { IsAccepted self.now.profile (query_of self.now.query) }
    {
        &self.query
    }

    /// The profile that the query was checked with.
    pub fn profile(&self) -> Profile
        ensures { result ≡ self.now.profile }
    {
        self.profile
    }

    /// What its filters need of an evaluation.
    pub fn needs(&self) -> Needs {
        self.needs
    }
}

/// Checks the numbers and the types of a query in a profile (RFC 9535 sections 2.1, 2.3.5.1 and
/// 2.4.3).
///
/// The refusal is its first fault: the one with the least place, and of several there the one with
/// the least number. Where the profile's numbers are whole, a literal with a fraction or an exponent
/// is `NotWhole`, and a whole one outside -(2^63) to (2^64)-1 is `NumberRange`; where they are decimals,
/// a literal that can't be held is `NumberRange`: both at the literal. An index or a part of a slice
/// outside -(2^53)+1 to (2^53)-1 is `IndexRange`, at that number. A call is `UnknownFunction` where no
/// function of the profile has its name, and `ArgumentCount` where it has not as many arguments as
/// the function has parameters. Where a value is wanted, as a side of a comparison or as an
/// argument, a query that is not singular is `NotSingular`. Else a call or an argument that doesn't
/// fit what is wanted is `IllTyped`. The place is where that call, query or argument starts. It
/// takes no memory.
pub fn check(parsed: Parsed, profile: Profile) -> Result<Checked, Refusal>
    ensures same { IfOk result (λ c. c.query ≡ parsed.query) }
    ensures profile { IfOk result (λ c. c.profile ≡ profile) }
    ensures faultless { IfOk result (λ c. IsFaultless profile (query_of c.query)) }
    ensures first { IfErr
        result
        (IsFirstFault profile (components_of (query_of parsed.query)) parsed.spans) }
{
    match first_fault(&parsed, profile) {
        Some(fault) => Err(fault),
        None => {
            let query = parsed.into_query();
            let needs = needs_of(&query);
            Ok(Checked {
                query,
                profile,
                needs,
            })
        }
    }
}

/// Reads a query: parses the text, then checks what it spells in the profile.
///
/// It is refused as `parse` refuses it (`Syntax`, `TooDeep`, or `NoMemory` at place 0, which says
/// nothing of the text), or else as `check` does, with its first fault.
pub fn read_query(alloc: Global, text: &str, profile: Profile) -> Result<Checked, Refusal>
    ensures accepted { IfOk
        result
        (λ c. IsAcceptedAs profile (chars text.now) (query_of c.query)) }
    ensures profile { IfOk result (λ c. c.profile ≡ profile) }
    ensures refused { IfErr result (IsRefused profile (chars text.now)) }
    ensures only { IfErr
        result
        (λ r. (r.kind ≡ RefusalKind.NoMemory) ⊎ IsNotAccepted profile (chars text.now)) }
{
    let parsed = parse(alloc, text)?;
    check(parsed, profile)
}
