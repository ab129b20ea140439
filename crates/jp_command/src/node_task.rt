//! What is asked for of the nodes that a query selects.

ghost use Rattle.std.specs.Prelude.{◌≡◌};
ghost use Rattle.jp_command.specs.NodeTask.{all_nodes};
ghost use Rattle.jp_command.specs.Private.Ended.{status_by};

use crate::form::Form;

/// What is asked for of the nodes that a query selects.
#[derive(Debug, Clone, Copy, PartialEq, Eq)]
pub(crate) struct NodeTask {
    /// What is written of each.
    pub(crate) form: Form,
    /// Whether that is written of the first alone.
    pub(crate) is_first: bool,
    /// Whether the status tells that there are none.
    pub(crate) tells_none: bool,
}

impl NodeTask {
    /// All of them in that form.
    pub(crate) fn all(form: Form) -> NodeTask
        ensures { result ≡ all_nodes form }
    {
        NodeTask {
            form,
            is_first: false,
            tells_none: false,
        }
    }

    /// The status of a run that is done and wrote so many lines.
    pub(crate) fn status(self, count: u64) -> u8
        ensures { result ≡ status_by self.tells_none count }
    {
        if self.tells_none && count == 0 { 6 } else { 0 }
    }
}
