//! What the paths of nodes begin with.

ghost use Rattle.std.specs.Prelude.{◌≡◌, ◌<◌, ◌≤◌, ◌++◌, [], OnOk, string_bytes};
ghost use Rattle.std.specs.List.{flat_map};
ghost use Rattle.jp_document.specs.Path.{path_of, step_text};
ghost use Rattle.jp_evaluate.specs.Lent.{location_of, place_of, stand_of};
ghost use Rattle.jp_command.specs.Private.Fronts.{Follows, HasPathText};

use jp_document::{Step, push_step};
use jp_evaluate::LentNodes;
use jp_lent::Selectable;
use jp_match::Marks;
use std::alloc::{AllocError, Global};

/// How a normalized path spells the steps to values on the way to where an evaluation stands. Nodes that come one
/// after another often stand beside each other, or one in another, so what their paths begin with is spelled once.
#[derive(Drop)]
pub(crate) struct Front {
    /// How many of the values on the way, from the first on.
    pub(crate) count: usize,
    pub(crate) text: String,
}

impl Front {
    /// Of no value.
    pub(crate) fn new(alloc: Global) -> Front
        ensures count { result.count ≡ 0 }
        ensures text { string_bytes result.text ≡ [] }
    {
        Front::within(String::new(alloc))
    }

    /// Of no value, in the memory of another.
    pub(crate) fn within(mut text: String) -> Front
        ensures count { result.count ≡ 0 }
        ensures text { string_bytes result.text ≡ [] }
    {
        text.clear();
        Front { count: 0, text }
    }

    /// Appends the normalized path of the node that was given last. After an error nothing is said of what is kept.
    pub(crate) fn push_path<'d: 'q, 'q, V: Selectable + 'd>(
        &mut self,
        nodes: &LentNodes<'d, 'q, V, Marks>,
        line: &mut String,
    ) -> Result<(), AllocError>
        requires { Follows self.old nodes.now }
        ensures kept { OnOk result (HasPathText self.new nodes.now) }
        ensures path { OnOk result (string_bytes line.new
            ≡ string_bytes line.old ++ path_of (place_of nodes.now)) }
    {
        self.follow(nodes)?;
        line.push('$')?;
        line.push_str(self.text.as_str())?;
        push_last(line, nodes.last_step())
    }

    /// Goes to where the evaluation stands.
    fn follow<'d: 'q, 'q, V: Selectable + 'd>(
        &mut self,
        nodes: &LentNodes<'d, 'q, V, Marks>,
    ) -> Result<(), AllocError>
        requires { Follows self.old nodes.now }
        ensures kept { OnOk result (HasPathText self.new nodes.now) }
        ensures all { OnOk result (string_bytes self.new.text ≡ flat_map step_text (stand_of nodes.now)) }
    {
        self.go_back(nodes.kept());
        while let Some(step) = nodes.step_at(self.count) {
            push_last(&mut self.text, step)?;
            self.count += 1;
        }
        Ok(())
    }

    /// Where not so many values are kept, nothing is.
    fn go_back(&mut self, kept: usize)
        ensures back { kept < self.old.count → (self.new.count ≡ 0) × (string_bytes self.new.text ≡ []) }
        ensures same { self.old.count ≤ kept → self.new ≡ self.old }
    {
        if kept < self.count {
            self.count = 0;
            self.text.clear();
        }
    }
}

/// Appends what a path has for a step, if there is one.
fn push_last(text: &mut String, step: Option<Step<'_>>) -> Result<(), AllocError>
    ensures { OnOk result (string_bytes text.new
        ≡ string_bytes text.old ++ flat_map step_text (location_of step.entry)) }
{
    match step {
        Some(step) => push_step(text, step),
        None => Ok(()),
    }
}
