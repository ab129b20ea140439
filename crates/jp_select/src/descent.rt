//! The walk over a node and its descendants in document order (RFC 9535 section 2.5.2.2).

ghost use Rattle.std.specs.Prelude.{◌≡◌, ◌+◌, [], ◌++◌, false, length, map, if◌then◌else◌, IfOk};
ghost use Rattle.std.specs.Prelude.{IfNone, option_to_list};
ghost use Rattle.std.specs.Iterator.{at_most};
ghost use Rattle.jp_document.specs.Node.{node_of};
ghost use Rattle.jp_select.specs.Giving.{GivesNext};
ghost use Rattle.jp_select.specs.Subtree.{subtree_of};
ghost use Rattle.jp_select.specs.Walk.{has_failed, rest_of};

use jp_document::{DocumentValue, Node, Step};
use std::alloc::{AllocError, Global};

/// The node and all its descendants, in document order: each node before its descendants, siblings
/// in the order of their parent's children (RFC 9535 section 2.5.2.2). The only error is that
/// memory ran out.
pub fn descend<'d>(alloc: Global, node: Node<'d>) -> Result<Vec<Node<'d>>, AllocError>
    ensures { IfOk result (λ nodes. map node_of nodes.items ≡ subtree_of (node_of node.entry)) }
{
    let mut nodes = Vec::new(alloc);
    for next in descend_each(alloc, node) {
        nodes.push(next?)?;
    }
    Ok(nodes)
}

/// A walk over a node and its descendants in document order, to be taken node by node. It takes no
/// memory before the first node is asked for, and then its memory follows the depth of the
/// document.
pub fn descend_each<'d>(alloc: Global, node: Node<'d>) -> Descent<'d>
    ensures working { has_failed result ≡ false }
    ensures nodes { rest_of result ≡ subtree_of (node_of node.entry) }
{
    Descent {
        alloc,
        first: Some(node),
        location: Vec::new(alloc),
        frames: Vec::new(alloc),
        failed: false,
    }
}

/// A value whose children are being visited, and the position of the next of them.
#[derive(Clone, Copy)]
struct Frame<'d> {
    value: DocumentValue<'d>,
    next: usize,
}

/// A walk under way: the node that it begins with, while it has not been given; then the location
/// of the value of the last frame, and a frame for each value on the way there from the first.
#[derive(Drop)]
pub struct Descent<'d> {
    alloc: Global,
    first: Option<Node<'d>>,
    location: Vec<Step<'d>>,
    frames: Vec<Frame<'d>>,
    failed: bool,
}

impl<'d> Descent<'d> {
    /// Whether a node could not be given because memory ran out. No more are given then.
    pub fn failed(&self) -> bool
        ensures { result ≡ has_failed self.now }
    {
        self.failed
    }

    /// The next node, None at the end. After an error nothing is said of what is left.
    fn advance(&mut self) -> Result<Option<Node<'d>>, AllocError>
        ensures gives { IfOk result (λ o. rest_of self.old
            ≡ map node_of (option_to_list o) ++ rest_of self.new) }
        ensures end { IfOk result (λ o. IfNone o (rest_of self.new ≡ [])) }
        ensures failed { has_failed self.new ≡ has_failed self.old }
    {
        if let Some(node) = self.first.take() {
            let value = node.document_value();
            self.location = Vec::from_slice(self.alloc, node.location())?;
            self.frames = vec![in self.alloc; Frame { value, next: 0 }]?;
            return Ok(Some(node));
        }
        while let Some(mut frame) = self.frames.pop() {
            if let Some((step, value)) = frame.value.child(frame.next) {
                frame.next += 1;
                self.frames.push(frame)?;
                self.frames.push(Frame { value, next: 0 })?;
                self.location.push(step)?;
                let location = Vec::from_slice(self.alloc, &self.location)?;
                return Ok(Some(Node::of(location, value)));
            }
            self.location.pop();
        }
        Ok(None)
    }
}

impl<'d> Iterator for Descent<'d> {
    type Item = Result<Node<'d>, AllocError>;

    ghost next_gives = { GivesNext rest_of has_failed };

    ghost remaining = { λ descent. at_most (if has_failed descent then 0 else length (rest_of descent) + 1) };

    /// The next node in document order, or an error where there is no memory for it, after which
    /// there are no more; None at the end.
    fn next(&mut self) -> Option<Result<Node<'d>, AllocError>> {
        if self.failed {
            return None;
        }
        match self.advance() {
            Ok(next) => Some(Ok(next?)),
            Err(error) => {
                self.failed = true;
                Some(Err(error))
            }
        }
    }
}
