//! Directories that go.
ghost use Rattle.std.specs.Prelude.{◌<◌};
ghost use Rattle.hv_base.specs.declared.ids.Limits.{Limits};
ghost use Rattle.hv_house.specs.Faults.{HardStep};
ghost use Rattle.hv_house.specs.House.{IsReadyWithin};
ghost use Rattle.hv_house.specs.Steps.{RemoveStepWithin};

use crate::fault::HouseFault;
use crate::house::{House, discard};
use hv_base::{Failed, NoMemory};
use hv_shelf::{DirAt, Shelf};
use hv_trail::Mark;

impl<D: Shelf> House<D> {
    /// Takes away all files of a directory, when there is room for its mark.
    fn take_in_room(&mut self, dir: DirAt) -> Result<(), HouseFault>
        ghost limits: { Limits }
        requires ready { IsReadyWithin limits D.told self.old }
        requires room { 0 < self.old.trail.room }
        ensures removed { RemoveStepWithin limits D.told D.faults dir self.old self.new result }
        ensures hard { HardStep (D.hard self.old.shelf) (D.hard self.new.shelf)
            self.old.trail.closed self.new.trail.closed }
    {
        match self.shelf.remove(&dir) {
            Ok(()) => {
                self.trail.mark(Mark::Went { dir });
                Ok(())
            }
            Err(Failed) => {
                discard(dir);
                Err(self.fail(None, false))
            }
        }
    }

    /// Takes away all files of a directory, of which there may be none. It is marked as gone; and where that failed, nobody's call is
    /// marked as failed, with the store's count of faults.
    ///
    /// # Errors
    /// `NoMemory` where memory lacked, and the store is as it was. `Failed` where the store failed: some of its files may be gone then.
    /// So too with `Store`, where its count of faults is the last one: the house is closed.
    pub fn take_away(&mut self, dir: DirAt) -> Result<(), HouseFault>
        ghost limits: { Limits }
        requires ready { IsReadyWithin limits D.told self.old }
        ensures removed { RemoveStepWithin limits D.told D.faults dir self.old self.new result }
        ensures hard { HardStep (D.hard self.old.shelf) (D.hard self.new.shelf)
            self.old.trail.closed self.new.trail.closed }
    {
        match self.trail.reserve_mark() {
            Ok(()) => self.take_in_room(dir),
            Err(NoMemory) => {
                discard(dir);
                Err(HouseFault::NoMemory)
            }
        }
    }
}
