//! The steps for names of the document that are compared, where values or locations are looked up by
//! them.

ghost use Rattle.std.specs.Prelude.{◌≡◌, IfSome, OnErr, OnOk, map};
ghost use Rattle.jp_document.specs.Location.{step_of};
ghost use Rattle.jp_select.specs.Steps.{Counts, IsSpent, Takes};
ghost use Rattle.jp_tree.specs.Views.{query_of};
ghost use Rattle.jp_evaluate.specs.Named.{location_named};
ghost use Rattle.jp_evaluate.specs.Private.Compared.{location_steps, name_steps};

use crate::named::segment_step;
use jp_document::Step;
use jp_select::{Steps, Stopped};
use jp_tree::Query;

/// How many bytes of a name a step is for.
const BYTES_A_STEP: usize = 16;

/// How many steps of a location a step is for.
const DEPTH_A_STEP: usize = 4;

/// The steps for the name of a step: one for each 16 bytes, none for an index.
#[inline(always)]
pub(crate) fn name_steps(step: Step<'_>) -> u64
    ensures { result ≡ name_steps (step_of step.entry) }
{
    match step {
        Step::Name(name) => (name.len() / BYTES_A_STEP) as u64,
        Step::Index(_) => 0,
    }
}

/// Makes the steps for a location: those for its names, and one for each 4 of its steps.
pub(crate) fn take_location(location: &[Step<'_>], steps: &mut Steps) -> Result<(), Stopped>
    ensures takes { Takes steps.old steps.new }
    ensures stopped { OnErr result (IsSpent steps.new) }
    ensures counts { OnOk result (Counts (location_steps (map step_of location.now)) steps.old
        steps.new) }
{
    steps.take_many((location.len() / DEPTH_A_STEP) as u64)?;
    for step in location {
        steps.take_many(name_steps(*step))?;
    }
    Ok(())
}

/// Makes the steps for the location that a query names. Of another query it makes those for its length, and
/// for the names with which it begins.
pub(crate) fn take_named(query: &Query, steps: &mut Steps) -> Result<(), Stopped>
    ensures takes { Takes steps.old steps.new }
    ensures stopped { OnErr result (IsSpent steps.new) }
    ensures counts { OnOk result (IfSome (location_named (query_of query.now))
        (λ l. Counts (location_steps l) steps.old steps.new)) }
{
    steps.take_many((query.segments.len() / DEPTH_A_STEP) as u64)?;
    for segment in &query.segments {
        let Some(step) = segment_step(segment) else {
            return Ok(());
        };
        steps.take_many(name_steps(step))?;
    }
    Ok(())
}
