//! Sets of locations.

ghost use Rattle.std.specs.Prelude.{◌≡◌, ◌||◌, IfOk, OnOk, false, map, not};
ghost use Rattle.std.specs.Ordering.{is_eq};
ghost use Rattle.jp_document.specs.Location.{Location, location_cmp, step_of};
ghost use Rattle.jp_evaluate.specs.Private.LocationSet.{has};

use jp_document::Step;
use std::alloc::{AllocError, Global};
use std::collections::BTreeMap;

/// A set of locations. Those that begin with one step stand together, without it, so that a location is
/// compared with no others but by one step after the other.
#[derive(Drop)]
pub(crate) struct LocationSet<'d> {
    /// Whether the location without steps is in it.
    here: bool,
    inside: BTreeMap<Step<'d>, LocationSet<'d>>,
}

impl<'d> LocationSet<'d> {
    /// No locations.
    pub(crate) fn new(alloc: Global) -> LocationSet<'d>
        ensures { (l : Location) → has result l ≡ false }
    {
        LocationSet {
            here: false,
            inside: BTreeMap::new(alloc),
        }
    }

    /// Puts a location into it, and tells whether it was not there. After an error nothing is said of it.
    pub(crate) fn insert(
        &mut self,
        alloc: Global,
        location: &[Step<'d>],
    ) -> Result<bool, AllocError>
        ensures new { IfOk result (λ new. new ≡ not (has self.old (map step_of location.now))) }
        ensures more { OnOk result ((l : Location) → has self.new l
            ≡ (is_eq (location_cmp l (map step_of location.now)) || has self.old l)) }
    {
        let Some((step, rest)) = location.split_first() else {
            let new = !self.here;
            self.here = true;
            return Ok(new);
        };
        if let Some(inside) = self.inside.get_mut(step) {
            return inside.insert(alloc, rest);
        }
        let mut inside = LocationSet::new(alloc);
        let new = inside.insert(alloc, rest)?;
        self.inside.insert(*step, inside)?;
        Ok(new)
    }
}
