ghost use Rattle.std.specs.Prelude.{◌≡◌, None, IfErr};
ghost use Rattle.hv_history.specs.Book.{tree_of_entry};
ghost use Rattle.hv_history.specs.State.{state_of};
ghost use Rattle.hv_history.specs.Legal.{Fits, profile};
ghost use Rattle.hv_trail.specs.Kept.{trail_of};
ghost use Rattle.hv_trail.specs.Steps.{Note};
ghost use Rattle.hv_telling.specs.hv_house.specs.Faults.{HardStep};
ghost use Rattle.hv_telling.specs.hv_house.specs.House.{entries_of, IsSmall};
ghost use Rattle.hv_telling.specs.hv_house.specs.Steps.{IsMarked};
ghost use Rattle.hv_telling.specs.Telling.{IsToldHouse, IsWhole, IsTrueNow};
ghost use Rattle.hv_job_calls.specs.Steps.{JobStep, job_call};
ghost use Rattle.hv_job_calls.specs.Tests.{IsHouse};

use crate::fault::JobFault;
use hv_history::Entry;
use hv_shelf::Shelf;
use hv_telling::hv_house::House;
use hv_telling::note;

/// Lets go of a value, in a function without other paths.
pub(crate) fn let_go<T: Drop>(_value: T) {}

/// Notes an entry of a job that fits. Where the house is told it is true.
pub(crate) fn note_job<D: Shelf>(house: &mut House<D>, entry: Entry) -> Result<(), JobFault>
    requires whole { IsWhole D.told house.old }
    requires textless { tree_of_entry entry ≡ None }
    requires small { IsSmall entry }
    requires fits { Fits profile (state_of (entries_of house.old)) entry }
    requires marked { IsMarked house.old entry }
    requires truly { IsToldHouse D.told house.old
        → IsTrueNow (entries_of house.old) (trail_of house.old.trail) entry }
    ensures step { JobStep D.told D.faults (job_call (Note entry) result) house.old house.new result }
    ensures hard { HardStep (D.hard house.old.shelf) (D.hard house.new.shelf)
        house.old.trail.closed house.new.trail.closed }
    ensures failed { IfErr result IsHouse }
{
    match note(house, entry, None) {
        Ok(()) => Ok(()),
        Err(why) => Err(JobFault::House(why)),
    }
}
