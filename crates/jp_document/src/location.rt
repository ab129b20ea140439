//! Locations (RFC 9535 section 1.1): lists of steps, of a document or of their own.

use std::marker::Model;

/// One step of a location, which borrows its name. Names are before indexes, and compare by their
/// bytes.
#[derive(Debug, Clone, Copy, PartialEq, Eq, PartialOrd, Ord)]
pub enum Step<'d> {
    Name(&'d str),
    /// From 0.
    Index(u64),
}

/// One step of a location, with a name of its own.
#[derive(Drop)]
pub enum OwnedStep {
    Name(String),
    /// From 0.
    Index(u64),
}

impl OwnedStep {
    ghost use Rattle.std.specs.Prelude.{◌≡◌};
    ghost use Rattle.jp_document.specs.Location.{step_of, owned_step};

    /// This step, with its name borrowed.
    pub fn as_step(&self) -> Step<'_>
        ensures { step_of result ≡ owned_step self.now }
    {
        match self {
            OwnedStep::Name(name) => Step::Name(name.as_str()),
            OwnedStep::Index(index) => Step::Index(*index),
        }
    }
}

/// A location that borrows from no document.
#[derive(Drop)]
pub struct OwnedLocation {
    steps: Vec<OwnedStep>,
}

impl Model for OwnedLocation {
    ghost use Rattle.std.specs.Prelude.{map};
    ghost use Rattle.jp_document.specs.Location.{Location, owned_step};

    ghost Value = { Location };

    ghost view = { λ l. map owned_step l.steps.items };
}

impl OwnedLocation {
    ghost use Rattle.std.specs.Prelude.{◌≡◌, map};
    ghost use Rattle.jp_document.specs.Location.{owned_step};

    /// The location of these steps.
    pub(crate) fn of(steps: Vec<OwnedStep>) -> OwnedLocation
        ensures { result ≡ map owned_step steps.items }
    {
        OwnedLocation { steps }
    }

    /// The steps, from the root on.
    pub fn steps(&self) -> &[OwnedStep]
        ensures { map owned_step result.now ≡ self.now }
    {
        &self.steps
    }
}
