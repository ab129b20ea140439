//! A query with its plan.

ghost use Rattle.std.specs.Prelude.{◌≡◌, IfErr, IfOk};
ghost use Rattle.jp_check.specs.Numbers.{numbers};
ghost use Rattle.jp_evaluate.specs.Plan.{IsReadToAnswer};
ghost use Rattle.jp_exact.specs.Defects.{IsDocumentFaultIn};
ghost use Rattle.jp_tree.specs.Views.{query_of};

use jp_check::Checked;
use jp_document::DocumentFault;
use jp_evaluate::Plan;
use jp_flat::Room;
use jp_held::Excerpt;
use std::alloc::{AllocError, Global};
use std::marker::Model;

/// A query that is accepted, with what is read of documents for it.
#[derive(Drop)]
pub struct Planned {
    query: Checked,
    plan: Plan,
}

impl Model for Planned {
    ghost use Rattle.jp_check.specs.Checked.{Profiled};
    ghost use Rattle.jp_tree.specs.contracts.tree.Query as q;
    ghost use Rattle.std.specs.Coded.{codes};

    ghost Value = { Profiled };

    ghost coded = { Prim.hlevel (codes, q.the_row.coded) };

    ghost use Rattle.jp_c.specs.Private.Planned.{IsPlanned, query_planned};

    ghost view = { query_planned };

    ghost invariant = { IsPlanned };
}

impl Planned {
    /// The query with its plan. The only error is that memory ran out.
    pub(crate) fn new(alloc: Global, query: Checked) -> Result<Planned, AllocError>
        ensures { IfOk result (λ planned. planned ≡ query) }
    {
        let plan = Plan::of(alloc, &query)?;
        Ok(Planned { query, plan })
    }

    /// The query.
    pub(crate) fn query(&self) -> &Checked
        ensures { result.now ≡ self.now }
    {
        &self.query
    }

    /// So much of the document with the numbers of the query's profile that these bytes are as the query's nodes
    /// come from, in the memory of other documents, which an `Err` gives back with what is wrong with the bytes.
    pub(crate) fn read<'p, 't>(
        &'p self,
        alloc: Global,
        room: Room,
        bytes: &'t [u8],
    ) -> Result<Excerpt<'p, 't>, (Room, DocumentFault)>
        ensures ok { IfOk result
            (IsReadToAnswer (numbers self.now.profile) (query_of self.now.query) bytes.now) }
        ensures fault { IfErr result (λ e. IsDocumentFaultIn (numbers self.now.profile) bytes.now e.1) }
    {
        let numbers = self.query.profile().numbers();
        let read = self.plan.read_into(alloc, room, bytes, numbers)?;
        Ok(read)
    }
}
