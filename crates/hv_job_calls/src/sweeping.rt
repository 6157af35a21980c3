ghost use Rattle.std.specs.Prelude.{◌≡◌, ◌↔◌, ℕ, None, IfOk, IfErr, IsErrOf};
ghost use Rattle.hv_base.specs.Told.{Tells};
ghost use Rattle.hv_shelf.specs.Disk.{places_of};
ghost use Rattle.hv_history.specs.State.{state_of};
ghost use Rattle.hv_trail.specs.Steps.{Read, Remove};
ghost use Rattle.hv_telling.specs.hv_house.specs.Faults.{HardStep};
ghost use Rattle.hv_telling.specs.hv_house.specs.House.{entries_of};
ghost use Rattle.hv_telling.specs.Telling.{IsWhole};
ghost use Rattle.hv_job_calls.specs.declared.fault.JobFault.TheVariants as fault;
ghost use Rattle.hv_job_calls.specs.Refusals.{CanSweep, IsStagedText, IsWorkingStage};
ghost use Rattle.hv_job_calls.specs.Steps.{JobStep, job_call};
ghost use Rattle.hv_job_calls.specs.Sweeping.{IsStagerOf, stager_named};
ghost use Rattle.hv_job_calls.specs.Tests.{IsHouse, SweepsOrHouse};

use crate::cleaning::take;
use crate::fault::JobFault;
use crate::noting::let_go;
use crate::tests::works_live;
use hv_base::{JobId, NoMemory, TableId, Text};
use hv_dirs::{DirName, parse_name};
use hv_shelf::{DirAt, Place, Shelf};
use hv_telling::hv_house::{House, HouseFault};
use std::alloc::Global;

/// The job that stages a directory of this name, where it is a staged one.
fn stager_in(name: &DirName) -> Option<JobId>
    ensures { result ≡ stager_named name.now }
{
    match name {
        DirName::Staged { job, .. } => Some(*job),
        _ => None,
    }
}

/// The job that stages a directory of this text, where it is a staged one.
fn stager_of(alloc: Global, text: &Text) -> Result<Option<JobId>, NoMemory>
    ensures stager { IfOk result (λ stager. IsStagerOf text.now stager) }
{
    let found = parse_name(alloc, text)?;
    match found {
        Some(name) => Ok(stager_in(&name)),
        None => Ok(None),
    }
}

/// Takes away a staged directory of this job.
fn sweep_staged<D: Shelf>(house: &mut House<D>, job: JobId, dir: DirAt) -> Result<(), JobFault>
    requires whole { IsWhole D.told house.old }
    requires staged { IsStagedText job.0 dir.dir }
    ensures step { JobStep D.told D.faults (job_call (Remove None dir) result) house.old house.new result }
    ensures hard { HardStep (D.hard house.old.shelf) (D.hard house.new.shelf)
        house.old.trail.closed house.new.trail.closed }
    ensures working { (number : ℕ) → IsErrOf result (fault.Working (record { 0 = number }))
        ↔ IsWorkingStage (state_of (entries_of house.old)) dir number }
    ensures others { IfErr result SweepsOrHouse }
{
    if works_live(house, job) {
        let_go(dir);
        Err(JobFault::Working { job })
    } else {
        take(house, dir)
    }
}

/// Takes away a staged directory of this job, or one of a dropped table.
fn sweep_from<D: Shelf>(
    house: &mut House<D>,
    stager: Option<JobId>,
    dir: DirAt,
) -> Result<(), JobFault>
    requires whole { IsWhole D.told house.old }
    requires can { CanSweep (state_of (entries_of house.old)) dir }
    requires stager { IsStagerOf dir.dir stager }
    ensures step { JobStep D.told D.faults (job_call (Remove None dir) result) house.old house.new result }
    ensures hard { HardStep (D.hard house.old.shelf) (D.hard house.new.shelf)
        house.old.trail.closed house.new.trail.closed }
    ensures working { (number : ℕ) → IsErrOf result (fault.Working (record { 0 = number }))
        ↔ IsWorkingStage (state_of (entries_of house.old)) dir number }
    ensures others { IfErr result SweepsOrHouse }
{
    match stager {
        Some(job) => sweep_staged(house, job, dir),
        None => take(house, dir),
    }
}

/// Takes away the files of a staged directory, or of one of a dropped table. It is marked as gone; and where that failed, nobody's
/// call is marked as failed.
///
/// # Errors
/// `Working` where the job that stages there is at work and its table is live; the house is as it was. `House` where the store failed
/// or memory lacked.
pub fn sweep<D: Shelf>(alloc: Global, house: &mut House<D>, dir: DirAt) -> Result<(), JobFault>
    requires whole { IsWhole D.told house.old }
    requires can { CanSweep (state_of (entries_of house.old)) dir }
    ensures step { JobStep D.told D.faults (job_call (Remove None dir) result) house.old house.new result }
    ensures hard { HardStep (D.hard house.old.shelf) (D.hard house.new.shelf)
        house.old.trail.closed house.new.trail.closed }
    ensures working { (number : ℕ) → IsErrOf result (fault.Working (record { 0 = number }))
        → IsWorkingStage (state_of (entries_of house.old)) dir number }
    ensures idle { (number : ℕ) → IsWorkingStage (state_of (entries_of house.old)) dir number
        → IfOk result (λ _. ⊥) }
    ensures others { IfErr result SweepsOrHouse }
{
    match stager_of(alloc, &dir.dir) {
        Ok(stager) => sweep_from(house, stager, dir),
        Err(NoMemory) => {
            let_go(dir);
            Err(JobFault::House(HouseFault::NoMemory))
        }
    }
}

/// The places of a table's files, rising, for a cleaner. A call that failed is marked as nobody's.
///
/// # Errors
/// `House` where the store failed or memory lacked.
pub fn places<D: Shelf>(
    alloc: Global,
    house: &mut House<D>,
    table: TableId,
) -> Result<Vec<Place>, JobFault>
    requires whole { IsWhole D.told house.old }
    ensures step { JobStep D.told D.faults (job_call (Read None) result) house.old house.new result }
    ensures hard { HardStep (D.hard house.old.shelf) (D.hard house.new.shelf)
        house.old.trail.closed house.new.trail.closed }
    ensures places { IfOk result (λ places. Tells (D.told house.old.shelf)
        (λ s. places.items ≡ places_of table s.tree)) }
    ensures others { IfErr result IsHouse }
{
    match house.places_for(alloc, None, table) {
        Ok(places) => Ok(places),
        Err(why) => Err(JobFault::House(why)),
    }
}
