//! What is read of documents for queries, or for an expression, which is found out once for all of them.

ghost use Rattle.std.specs.Prelude.{◌≡◌, All, IfErr, IfOk, map};
ghost use Rattle.jp_exact.specs.Defects.{IsDocumentFaultIn};
ghost use Rattle.jp_tree.specs.Tree.{QueryTree};
ghost use Rattle.jp_tree.specs.Views.{expr_of, query_of};
ghost use Rattle.jp_evaluate.specs.Named.{location_named};
ghost use Rattle.jp_evaluate.specs.Plan.{HoldsPortion, IsReadToAnswer, Serves, ServesTest, location_in};
ghost use Rattle.jp_evaluate.specs.Private.Asks.{portion_asked};

use crate::asked::{asked_beside, asked_by, asked_by_test};
use crate::named::named_location;
use jp_check::{Checked, CheckedFilter};
use jp_decimal::Numbers;
use jp_document::DocumentFault;
use jp_flat::{AskedFor, Flat, Room};
use jp_held::{Excerpt, Portion, read_asked, read_into, read_portion};
use std::alloc::{AllocError, Global};
use std::mem;

/// How much of a document is read for queries, or for the expression of a filter: the value at the
/// location that a query names, the members that are asked for, or the whole document.
#[derive(Drop)]
pub struct Plan {
    portion: Portion,
}

impl Plan {
    /// The plan for a query. The only error is that memory ran out.
    pub fn of(alloc: Global, query: &Checked) -> Result<Plan, AllocError>
        ensures serves { IfOk result (λ p. Serves (query_of query.now.query) p.portion) }
        ensures named { IfOk result
            (λ p. location_in p.portion ≡ location_named (query_of query.now.query)) }
    {
        let portion = portion_for(alloc, query)?;
        Ok(Plan { portion })
    }

    /// The plan for several queries, which are answered together. The only error is that memory ran out.
    pub fn of_all(alloc: Global, queries: &[Checked]) -> Result<Plan, AllocError>
        ensures { IfOk result (λ p. All (λ q. Serves q p.portion)
            (map (λ c. query_of c.query) queries.now)) }
    {
        let mut plan = Plan::of_none(alloc);
        for query in queries {
            plan.add(query)?;
        }
        Ok(plan)
    }

    /// The plan for no query, to which those are added that are answered together.
    pub fn of_none(alloc: Global) -> Plan {
        Plan {
            portion: Portion::Members(AskedFor::OfRoot(Vec::new(alloc))),
        }
    }

    /// Serves a query together with those that it serves. The only error is that memory ran out, and then it
    /// serves each query.
    pub fn add(&mut self, query: &Checked) -> Result<(), AllocError>
        ensures serves { Serves (query_of query.now.query) self.new.portion }
        ensures others { (q : QueryTree) → Serves q self.old.portion → Serves q self.new.portion }
    {
        let portion = mem::replace(&mut self.portion, Portion::Whole);
        self.portion = portion_beside(portion, query)?;
        Ok(())
    }

    /// The plan for an expression that is tested where a document is its root and its current node. The
    /// only error is that memory ran out.
    pub fn of_test(alloc: Global, filter: &CheckedFilter) -> Result<Plan, AllocError>
        ensures { IfOk result (λ p. ServesTest (expr_of filter.now.expr) p.portion) }
    {
        let asked = asked_by_test(alloc, filter)?;
        Ok(Plan {
            portion: members_or_whole(asked),
        })
    }

    /// How much of a document is read.
    pub fn portion(&self) -> &Portion
        ensures { result.now ≡ self.now.portion }
    {
        &self.portion
    }

    /// So much of the document with such numbers that these bytes are as the query's nodes come from, else
    /// what is wrong with the bytes. `NoMemory` says nothing of them.
    pub fn read<'p, 't>(
        &'p self,
        alloc: Global,
        bytes: &'t [u8],
        numbers: Numbers,
    ) -> Result<Excerpt<'p, 't>, DocumentFault>
        ensures ok { IfOk result (λ read. (q : QueryTree) → Serves q self.now.portion
            → IsReadToAnswer numbers q bytes.now read) }
        ensures fault { IfErr result (IsDocumentFaultIn numbers bytes.now) }
    {
        match self.read_into(alloc, Room::new(alloc), bytes, numbers) {
            Ok(read) => Ok(read),
            Err((_, fault)) => Err(fault),
        }
    }

    /// `read` in the memory of other documents, which an `Err` gives back.
    pub fn read_into<'p, 't>(
        &'p self,
        alloc: Global,
        room: Room,
        bytes: &'t [u8],
        numbers: Numbers,
    ) -> Result<Excerpt<'p, 't>, (Room, DocumentFault)>
        ensures ok { IfOk result (λ read. (q : QueryTree) → Serves q self.now.portion
            → IsReadToAnswer numbers q bytes.now read) }
        ensures fault { IfErr result (λ e. IsDocumentFaultIn numbers bytes.now e.1) }
    {
        let read = read_portion(alloc, room, bytes, &self.portion, numbers)?;
        Ok(read)
    }

    /// The document with such numbers that these bytes are, of which what the plan does not ask for may be
    /// left out, in the memory of other documents; else that memory, and what is wrong with the bytes. `NoMemory` says
    /// nothing of them.
    pub fn read_document<'t>(
        &self,
        alloc: Global,
        room: Room,
        bytes: &'t [u8],
        numbers: Numbers,
    ) -> Result<Flat<'t>, (Room, DocumentFault)>
        ensures ok { IfOk result (HoldsPortion numbers self.now.portion bytes.now) }
        ensures fault { IfErr result (λ e. IsDocumentFaultIn numbers bytes.now e.1) }
    {
        match &self.portion {
            Portion::Members(asked) => {
                let flat = read_asked(alloc, room, bytes, asked, numbers)?;
                Ok(flat)
            }
            Portion::Value(_) | Portion::Whole => {
                let flat = read_into(alloc, room, bytes, numbers)?;
                Ok(flat)
            }
        }
    }
}

/// The members that are asked for, or the whole document where that is not told.
fn members_or_whole(asked: Option<AskedFor>) -> Portion
    ensures { result ≡ portion_asked asked }
{
    match asked {
        Some(asked) => Portion::Members(asked),
        None => Portion::Whole,
    }
}

/// How much of a document is read for a query, together with those that so much is read for.
fn portion_beside(portion: Portion, query: &Checked) -> Result<Portion, AllocError>
    ensures serves { IfOk result (Serves (query_of query.now.query)) }
    ensures others { IfOk result (λ p. (q : QueryTree) → Serves q portion → Serves q p) }
{
    match portion {
        Portion::Members(asked) => {
            let asked = asked_beside(asked, query)?;
            Ok(members_or_whole(asked))
        }
        Portion::Value(_) | Portion::Whole => Ok(Portion::Whole),
    }
}

/// How much of a document a query is answered from.
fn portion_for(alloc: Global, query: &Checked) -> Result<Portion, AllocError>
    ensures serves { IfOk result (Serves (query_of query.now.query)) }
    ensures named { IfOk result
        (λ p. location_in p ≡ location_named (query_of query.now.query)) }
{
    if let Some(location) = named_location(alloc, query)? {
        return Ok(Portion::Value(location));
    }
    let asked = asked_by(alloc, query)?;
    Ok(members_or_whole(asked))
}
