ghost use Rattle.std.specs.Prelude.{◌↔◌, ℕ, None, IsTrue, IfErr, IsErrOf};
ghost use Rattle.hv_history.specs.declared.entry.Entry.TheVariants as entry;
ghost use Rattle.hv_history.specs.State.{state_of};
ghost use Rattle.hv_history.specs.Legal.{HasRoom, profile};
ghost use Rattle.hv_history.specs.Jobs.{is_ready};
ghost use Rattle.hv_history.specs.JobsFit.{OfJob};
ghost use Rattle.hv_telling.specs.hv_law_work.specs.Work.{AreGone};
ghost use Rattle.hv_trail.specs.Kept.{trail_of};
ghost use Rattle.hv_trail.specs.Steps.{Note, Remove};
ghost use Rattle.hv_telling.specs.hv_house.specs.Calls.{LacksRoom};
ghost use Rattle.hv_telling.specs.hv_house.specs.Faults.{HardStep};
ghost use Rattle.hv_telling.specs.hv_house.specs.House.{entries_of};
ghost use Rattle.hv_telling.specs.hv_law_work.specs.Marks.{MayGoNow};
ghost use Rattle.hv_telling.specs.Telling.{IsToldHouse, IsWhole};
ghost use Rattle.hv_job_calls.specs.declared.fault.JobFault.TheVariants as fault;
ghost use Rattle.hv_job_calls.specs.Refusals.{HasGoneJob, HasLiveJob, IfLive, IsHeldBy, IsCoveredDir};
ghost use Rattle.hv_job_calls.specs.Steps.{JobStep, job_call};
ghost use Rattle.hv_job_calls.specs.Tests.{IsHouse, CleansOrHouse, RemovesOrHouse};

use crate::fault::JobFault;
use crate::noting::{let_go, note_job};
use crate::tests::{entry_count, has_room, holder, is_job_live};
use hv_base::{JobId, TxnId};
use hv_history::Entry;
use hv_shelf::{DirAt, Shelf};
use hv_telling::hv_house::House;
use hv_telling::take_away;

/// Takes away the files of a directory that may go.
pub(crate) fn take<D: Shelf>(house: &mut House<D>, dir: DirAt) -> Result<(), JobFault>
    requires whole { IsWhole D.told house.old }
    requires truly { IsToldHouse D.told house.old → MayGoNow (state_of (entries_of house.old)) dir }
    ensures step { JobStep D.told D.faults (job_call (Remove None dir) result) house.old house.new result }
    ensures hard { HardStep (D.hard house.old.shelf) (D.hard house.new.shelf)
        house.old.trail.closed house.new.trail.closed }
    ensures failed { IfErr result IsHouse }
{
    match take_away(house, dir) {
        Ok(()) => Ok(()),
        Err(why) => Err(JobFault::House(why)),
    }
}

/// Takes away the files of a directory that a published job covers, in its partition. It is marked as gone; and where that
/// failed, nobody's call is marked as failed.
///
/// # Errors
/// `Gone` where the job's table isn't live, and then `Needed` where a transaction below its mark is open, with the lowest one; the
/// house is as it was. `House` where the store failed or memory lacked.
pub fn remove<D: Shelf>(house: &mut House<D>, job: JobId, dir: DirAt) -> Result<(), JobFault>
    requires whole { IsWhole D.told house.old }
    requires covered { OfJob (state_of (entries_of house.old)) job.0 (IsCoveredDir dir) }
    ensures step { JobStep D.told D.faults (job_call (Remove None dir) result) house.old house.new result }
    ensures hard { HardStep (D.hard house.old.shelf) (D.hard house.new.shelf)
        house.old.trail.closed house.new.trail.closed }
    ensures gone { IsErrOf result fault.Gone ↔ HasGoneJob (state_of (entries_of house.old)) job.0 }
    ensures needed { (txn : ℕ) → IsErrOf result (fault.Needed (record { 0 = txn }))
        ↔ IsHeldBy (state_of (entries_of house.old)) job.0 txn }
    ensures others { IfErr result RemovesOrHouse }
{
    if !is_job_live(house, job) {
        let_go(dir);
        return Err(JobFault::Gone);
    }
    match holder(house, job) {
        Some(txn) => {
            let_go(dir);
            Err(JobFault::Needed { txn: TxnId(txn) })
        }
        None => take(house, dir),
    }
}

/// Notes that all that a published job covers was removed, in a live table.
fn clean_live<D: Shelf>(house: &mut House<D>, job: JobId) -> Result<(), JobFault>
    requires whole { IsWhole D.told house.old }
    requires live { HasLiveJob (state_of (entries_of house.old)) job.0 }
    requires ready { OfJob (state_of (entries_of house.old)) job.0 (λ j. IsTrue (is_ready j)) }
    requires room { HasRoom profile (state_of (entries_of house.old)) 1 }
    requires marked { IfLive (state_of (entries_of house.old)) job.0
        (AreGone (trail_of house.old.trail) (state_of (entries_of house.old))) }
    ensures step { JobStep D.told D.faults (job_call (Note (entry.Cleaned job)) result) house.old house.new result }
    ensures hard { HardStep (D.hard house.old.shelf) (D.hard house.new.shelf)
        house.old.trail.closed house.new.trail.closed }
    ensures needed { (txn : ℕ) → IsErrOf result (fault.Needed (record { 0 = txn }))
        ↔ IsHeldBy (state_of (entries_of house.old)) job.0 txn }
    ensures not_gone { IsErrOf result fault.Gone → ⊥ }
    ensures not_full { (count : ℕ) → IsErrOf result (fault.Full count) → ⊥ }
    ensures others { IfErr result CleansOrHouse }
{
    match holder(house, job) {
        Some(txn) => Err(JobFault::Needed { txn: TxnId(txn) }),
        None => note_job(house, Entry::Cleaned { job }),
    }
}

/// Notes that all that a published job covers was removed.
///
/// # Errors
/// `Gone` where its table isn't live, then `Full` where there is no room, then `Needed` where a transaction below its mark is open,
/// with the lowest one; the house is as it was. `House` where the journal failed or memory lacked.
pub fn cleaned<D: Shelf>(house: &mut House<D>, job: JobId) -> Result<(), JobFault>
    requires whole { IsWhole D.told house.old }
    requires ready { OfJob (state_of (entries_of house.old)) job.0 (λ j. IsTrue (is_ready j)) }
    requires marked { IfLive (state_of (entries_of house.old)) job.0
        (AreGone (trail_of house.old.trail) (state_of (entries_of house.old))) }
    ensures step { JobStep D.told D.faults (job_call (Note (entry.Cleaned job)) result) house.old house.new result }
    ensures hard { HardStep (D.hard house.old.shelf) (D.hard house.new.shelf)
        house.old.trail.closed house.new.trail.closed }
    ensures gone { IsErrOf result fault.Gone ↔ HasGoneJob (state_of (entries_of house.old)) job.0 }
    ensures full { (count : ℕ) → IsErrOf result (fault.Full count)
        ↔ (HasLiveJob (state_of (entries_of house.old)) job.0 × LacksRoom profile (entries_of house.old) 1 count) }
    ensures needed { (txn : ℕ) → IsErrOf result (fault.Needed (record { 0 = txn }))
        ↔ (HasRoom profile (state_of (entries_of house.old)) 1
        × IsHeldBy (state_of (entries_of house.old)) job.0 txn) }
    ensures others { IfErr result CleansOrHouse }
{
    if !is_job_live(house, job) {
        return Err(JobFault::Gone);
    }
    if has_room(house, 1) {
        clean_live(house, job)
    } else {
        Err(JobFault::Full {
            entries: entry_count(house),
        })
    }
}
