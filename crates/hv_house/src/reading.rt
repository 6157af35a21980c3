//! The places and the bytes of files, for a job or for nobody.
ghost use Rattle.std.specs.Prelude.{◌≡◌, option_map, IfOk, IfErr};
ghost use Rattle.std.specs.FinMap as tree;
ghost use Rattle.hv_base.specs.Told.{Tells};
ghost use Rattle.hv_base.specs.declared.ids.Limits.{Limits};
ghost use Rattle.hv_shelf.specs.Disk.{places_of};
ghost use Rattle.hv_trail.specs.Steps.{Step};
ghost use Rattle.hv_trail.specs.Steps as calls;
ghost use Rattle.hv_house.specs.Faults.{FileCause, HardStep};
ghost use Rattle.hv_house.specs.House.{IsAsked, IsReadyWithin, StaysPutWithin};
ghost use Rattle.hv_house.specs.Steps.{seen_of, outcome_of, IsReadMarkedBy};

use crate::fault::HouseFault;
use crate::house::House;
use hv_base::TableId;
use hv_shelf::{Place, Shelf};
use hv_trail::Reader;
use std::alloc::Global;

impl<D: Shelf> House<D> {
    /// The places of a table's files, rising. A call that failed is marked as this one's, or as nobody's.
    ///
    /// # Errors
    /// `NoMemory` where memory lacks. `Failed` where the store failed, with its count of faults; `Store` where that is the last one:
    /// the house is closed.
    pub fn places_for(
        &mut self,
        alloc: Global,
        by: Option<Reader>,
        table: TableId,
    ) -> Result<Vec<Place>, HouseFault>
        ghost limits: { Limits }
        requires ready { IsReadyWithin limits D.told self.old }
        ensures asked { IsAsked D.told self.old self.new }
        ensures places { IfOk result (λ places. Tells (D.told self.old.shelf)
            (λ s. places.items ≡ places_of table s.tree)) }
        ensures ready { IfOk result (λ _. IsReadyWithin limits D.told self.new) }
        ensures stays { IfErr result (λ why. StaysPutWithin limits D.told why self.new) }
        ensures marked { IfErr result (IsReadMarkedBy self.new by) }
        ensures step { Step D.told D.faults (calls.Read by) (outcome_of result)
            (seen_of self.old) (seen_of self.new) }
        ensures cause { FileCause (D.faults self.old.shelf) (D.faults self.new.shelf) result }
        ensures hard { HardStep (D.hard self.old.shelf) (D.hard self.new.shelf)
            self.old.trail.closed self.new.trail.closed }
    {
        self.places(alloc, by, table)
    }

    /// The bytes of the file at a place, where one stands there. A call that failed is marked as this one's, or as nobody's.
    ///
    /// # Errors
    /// As `places_for`.
    pub fn bytes_for(
        &mut self,
        alloc: Global,
        by: Option<Reader>,
        place: &Place,
    ) -> Result<Option<Vec<u8>>, HouseFault>
        ghost limits: { Limits }
        requires ready { IsReadyWithin limits D.told self.old }
        ensures asked { IsAsked D.told self.old self.new }
        ensures bytes { IfOk result (λ file. Tells (D.told self.old.shelf)
            (λ s. option_map (λ v. v.items) file ≡ tree.get s.tree place.now)) }
        ensures ready { IfOk result (λ _. IsReadyWithin limits D.told self.new) }
        ensures stays { IfErr result (λ why. StaysPutWithin limits D.told why self.new) }
        ensures marked { IfErr result (IsReadMarkedBy self.new by) }
        ensures step { Step D.told D.faults (calls.Read by) (outcome_of result)
            (seen_of self.old) (seen_of self.new) }
        ensures cause { FileCause (D.faults self.old.shelf) (D.faults self.new.shelf) result }
        ensures hard { HardStep (D.hard self.old.shelf) (D.hard self.new.shelf)
            self.old.trail.closed self.new.trail.closed }
    {
        self.file_at(alloc, by, place)
    }
}
