//! Nodes (RFC 9535 section 1.1): a location with the value that stands there, both borrowed from
//! the document.

ghost use Rattle.std.specs.Prelude.{◌≡◌, option_map, IfOk};
ghost use Rattle.jp_document.specs.Location.{named, nth};
ghost use Rattle.jp_document.specs.Node.{child_of, node_of};

use crate::document_value::DocumentValue;
use crate::location::Step;
use crate::value::Json;
use std::alloc::{AllocError, Global};
use std::marker::Model;

/// A location in a document with the value that stands there. It copies nothing of the document.
#[derive(Drop)]
pub struct Node<'d> {
    location: Vec<Step<'d>>,
    value: DocumentValue<'d>,
}

impl<'d> Model for Node<'d> {
    ghost use Rattle.std.specs.Prelude.{map};
    ghost use Rattle.jp_document.specs.contracts.value.Json as json;
    ghost use Rattle.std.specs.Coded.{codes};
    ghost use Rattle.jp_document.specs.Location.{step_of};
    ghost use Rattle.jp_document.specs.Node.{NodeView};

    ghost Value = { NodeView };

    ghost coded = { Prim.hlevel (codes, json.the_row.coded) };

    ghost view = { λ n. record { location = map step_of n.location.items; value = n.value.json.now } };
}

impl<'d> Node<'d> {
    ghost use Rattle.std.specs.Prelude.{map};
    ghost use Rattle.jp_document.specs.DocumentValue.{lent_entry, lent_value};
    ghost use Rattle.jp_document.specs.Location.{step_of};
    ghost use Rattle.jp_document.specs.Node.{node_at, node_below, node_of};
    ghost use Rattle.jp_document.specs.Value.{IsDocumentValue, value_of};

    /// The node of these steps, where this value stands.
    pub fn of(location: Vec<Step<'d>>, value: DocumentValue<'d>) -> Node<'d>
        ensures { node_of result ≡ node_at (map step_of location.entry.items) (lent_value value.entry) }
    {
        Node { location, value }
    }

    /// The steps from the root to this node.
    pub fn location(&self) -> &[Step<'d>]
        ensures { map step_of result.now ≡ (node_of self.now).location }
    {
        &self.location
    }

    /// The value that stands there.
    pub fn value(&self) -> &'d Json
        ensures value { value_of result.now ≡ (node_of self.now).value }
        ensures sound { IsDocumentValue (node_of self.now).value }
    {
        self.document_value().json()
    }

    /// The value that stands there, to go on from.
    pub fn document_value(&self) -> DocumentValue<'d>
        ensures { lent_value result ≡ (node_of self.now).value }
    {
        self.value
    }

    /// A copy of the node, which lends the same value. The only error is that memory ran out.
    pub fn copy(&self, alloc: Global) -> Result<Node<'d>, AllocError>
        ensures { IfOk result (λ n. n ≡ self.now) }
    {
        Ok(Node {
            location: Vec::from_slice(alloc, self.location())?,
            value: self.value,
        })
    }

    /// The node one step below, where this value stands. The only error is that memory ran out.
    pub fn below(
        &self,
        alloc: Global,
        step: Step<'d>,
        value: DocumentValue<'d>,
    ) -> Result<Node<'d>, AllocError>
        ensures { IfOk result (λ n. node_of n
            ≡ node_below (node_of self.now).location (step_of step.entry, lent_value value.entry)) }
    {
        let steps = self.location();
        let mut location = Vec::with_capacity(alloc, steps.len() + 1)?;
        location.extend_from_slice(steps)?;
        location.push(step)?;
        Ok(Node::of(location, value))
    }
}

/// The member of this name of the node's object, None where there is none (RFC 9535 section 2.3.1).
/// Its step borrows the name from the document. The only error is that memory ran out.
pub fn child_named<'d>(
    alloc: Global,
    node: &Node<'d>,
    name: &str,
) -> Result<Option<Node<'d>>, AllocError>
    ensures { IfOk result
        (λ o. option_map node_of o ≡ child_of (node_of node.now) (named name.now)) }
{
    match node.value.member(name) {
        Some((step, value)) => Ok(Some(node.below(alloc, step, value)?)),
        None => Ok(None),
    }
}

/// The item at this index of the node's list, None where there is none (RFC 9535 section 2.3.3).
/// The only error is that memory ran out.
pub fn child_at<'d>(
    alloc: Global,
    node: &Node<'d>,
    index: u64,
) -> Result<Option<Node<'d>>, AllocError>
    ensures { IfOk result (λ o. option_map node_of o ≡ child_of (node_of node.now) (nth index)) }
{
    match node.value.item(index) {
        Some((step, value)) => Ok(Some(node.below(alloc, step, value)?)),
        None => Ok(None),
    }
}
