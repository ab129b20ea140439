//! Where the inputs of a run come from.

ghost use Rattle.std.specs.Prelude.{List, ℕ, Result, ⊤};

use jp_command::Source;

/// Why an input can't be opened.
#[derive(Debug, Clone, Copy, PartialEq, Eq)]
pub enum Unopened {
    /// There is none of that name.
    Missing,
    /// It is not permitted.
    NotPermitted,
    /// Any other reason.
    Failed,
}

/// What opens inputs by their names.
pub trait Inputs {
    /// What the bytes of an input are read from.
    type Input: Source + Drop;

    ghost use Rattle.jp_lines.specs.declared.inputs.Unopened.{Unopened};

    // What leads from one state to the next where the input of that name was opened, or not: so a
    // contract can speak of each call.
    ghost opens: { Self → List ℕ → Result Self.Input Unopened → Self → Type 0 } = { λ _ _ _ _. ⊤ };

    /// Opens the input of that name, where `-` names the standard input. Or answers why it can't be.
    fn open(&mut self, name: &str) -> Result<Self::Input, Unopened>
        ensures { opens self.old name.now result self.new };
}
