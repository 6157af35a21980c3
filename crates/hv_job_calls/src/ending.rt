ghost use Rattle.std.specs.Prelude.{◌↔◌, IsTrue, IfErr, IsErrOf};
ghost use Rattle.hv_history.specs.declared.entry.Entry.TheVariants as entry;
ghost use Rattle.hv_history.specs.State.{state_of};
ghost use Rattle.hv_history.specs.Jobs.{pieces_for, is_empty_of};
ghost use Rattle.hv_history.specs.JobsFit.{OfJob, FailedFits};
ghost use Rattle.hv_trail.specs.Steps.{Note};
ghost use Rattle.hv_telling.specs.hv_house.specs.Faults.{HardStep};
ghost use Rattle.hv_telling.specs.hv_house.specs.House.{entries_of, IsSmall};
ghost use Rattle.hv_telling.specs.hv_house.specs.Steps.{IsMarked};
ghost use Rattle.hv_telling.specs.Telling.{IsWhole};
ghost use Rattle.hv_job_calls.specs.declared.fault.JobFault.TheVariants as fault;
ghost use Rattle.hv_job_calls.specs.Refusals.{WorksAt, HasGoneJob, IfLive};
ghost use Rattle.hv_job_calls.specs.Steps.{JobStep, job_call};
ghost use Rattle.hv_job_calls.specs.Tests.{IsHouse, IsGoneOrHouse};

use crate::fault::JobFault;
use crate::noting::note_job;
use crate::tests::is_job_live;
use hv_base::JobId;
use hv_history::{Entry, JobCause};
use hv_shelf::Shelf;
use hv_telling::hv_house::House;

/// Notes that a job at work has nothing to merge.
///
/// # Errors
/// `Gone` where its table isn't live; the house is as it was. `House` where the journal failed or memory lacked.
pub fn nothing<D: Shelf>(house: &mut House<D>, job: JobId) -> Result<(), JobFault>
    requires whole { IsWhole D.told house.old }
    requires works { WorksAt (state_of (entries_of house.old)) job.0 }
    requires empty { IfLive (state_of (entries_of house.old)) job.0
        (λ j. IsTrue (is_empty_of j.kind (pieces_for (state_of (entries_of house.old)) j))) }
    ensures step { JobStep D.told D.faults (job_call (Note (entry.Empty job)) result) house.old house.new result }
    ensures hard { HardStep (D.hard house.old.shelf) (D.hard house.new.shelf)
        house.old.trail.closed house.new.trail.closed }
    ensures gone { IsErrOf result fault.Gone ↔ HasGoneJob (state_of (entries_of house.old)) job.0 }
    ensures others { IfErr result IsGoneOrHouse }
{
    if is_job_live(house, job) {
        note_job(house, Entry::Empty { job })
    } else {
        Err(JobFault::Gone)
    }
}

/// Notes that a job at work has failed, for this cause.
///
/// # Errors
/// `House` where the journal failed or memory lacked.
pub fn give_up<D: Shelf>(house: &mut House<D>, job: JobId, cause: JobCause) -> Result<(), JobFault>
    requires whole { IsWhole D.told house.old }
    requires small { IsSmall (entry.Failed job cause) }
    requires fits { OfJob (state_of (entries_of house.old)) job.0
        (FailedFits (state_of (entries_of house.old)) cause) }
    requires marked { IsMarked house.old (entry.Failed job cause) }
    ensures step { JobStep D.told D.faults (job_call (Note (entry.Failed job cause)) result)
        house.old house.new result }
    ensures hard { HardStep (D.hard house.old.shelf) (D.hard house.new.shelf)
        house.old.trail.closed house.new.trail.closed }
    ensures others { IfErr result IsHouse }
{
    note_job(house, Entry::Failed { job, cause })
}
