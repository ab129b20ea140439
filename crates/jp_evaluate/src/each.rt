//! The nodes of a nodelist, to be taken one by one.

ghost use Rattle.std.specs.Prelude.{◌≡◌, false};
ghost use Rattle.jp_evaluate.specs.Lent.{steps_of};

use crate::lent::LentNodes;
use jp_document::{DocumentValue, Node};
use jp_match::Matching;
use std::alloc::AllocError;

/// The nodes that a query selects, one after another. What came so far is a prefix of the nodelist.
#[derive(Drop)]
pub struct Nodes<'d, 'q, M> {
    pub(crate) nodes: LentNodes<'d, 'q, DocumentValue<'d>, M>,
    ghost unlimited: { (steps_of nodes).limited ≡ false },
}

impl<'d: 'q, 'q, M: Matching> Nodes<'d, 'q, M> {
    ghost use Rattle.jp_evaluate.specs.Rest.{has_failed};

    /// Whether a node could not be given because memory ran out. No more are given then.
    pub fn failed(&self) -> bool
        ensures { result ≡ has_failed self.now }
    {
        self.nodes.failed()
    }
}

impl<'d: 'q, 'q, M: Matching> Iterator for Nodes<'d, 'q, M> {
    ghost use Rattle.std.specs.Prelude.{◌+◌, if◌then◌else◌, length};
    ghost use Rattle.std.specs.Iterator.{at_most};
    ghost use Rattle.jp_select.specs.Giving.{GivesNext};
    ghost use Rattle.jp_evaluate.specs.Rest.{has_failed, rest_of};

    type Item = Result<Node<'d>, AllocError>;

    ghost next_gives = { GivesNext rest_of has_failed };

    ghost remaining = { λ nodes. at_most (if has_failed nodes then 0 else length (rest_of nodes) + 1) };

    /// The next node, or an error where there is no memory for it, after which there are no more;
    /// None at the end of the nodelist.
    fn next(&mut self) -> Option<Result<Node<'d>, AllocError>> {
        let mut location = Vec::new(self.nodes.alloc());
        match self.nodes.next_at(&mut location)? {
            Ok(value) => Some(Ok(Node::of(location, value))),
            Err(fault) => Some(Err(fault.without_limit())),
        }
    }
}
