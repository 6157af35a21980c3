//! A call on files that failed is kept in mind.
ghost use Rattle.std.specs.Prelude.{◌≡◌, ◌<◌};
ghost use Rattle.hv_house.specs.Faults.{failed_with, ShutsAtLast};
ghost use Rattle.hv_house.specs.Steps.{KeepsFault};

use crate::fault::HouseFault;
use crate::house::House;
use hv_shelf::Shelf;
use hv_trail::{Mark, Reader};

impl<D: Shelf> House<D> {
    /// Keeps in mind that a call on files failed: a mark has the store's count of faults then. Where that count is
    /// the last one, no later fault could be told from this one, and the house is closed.
    #[tactic(auto, using(crate::proofs::Hards::last_same, crate::proofs::Hards::last_here))]
    pub(crate) fn fail(&mut self, by: Option<Reader>, put: bool) -> HouseFault
        requires room { 0 < self.old.trail.room }
        ensures fault { result ≡ failed_with (D.faults self.old.shelf) }
        ensures kept { KeepsFault by put result self.old self.new }
        ensures last { ShutsAtLast (Unit {0}) (D.faults self.old.shelf)
            self.old.trail.closed self.new.trail.closed }
    {
        let count = self.shelf.fault_count();
        if count < u64::MAX {
            self.trail.mark(Mark::Broke { by, put, count });
            HouseFault::Failed { count }
        } else {
            self.trail.close();
            HouseFault::Store
        }
    }
}
