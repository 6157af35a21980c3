ghost use Rattle.std.specs.Prelude.{◌≡◌, ◌↔◌, Some, IsSome, IfSome, IfOk, IfErr, IsErrOf};
ghost use Rattle.hv_history.specs.State.{state_of, Job, numbered};
ghost use Rattle.hv_history.specs.JobsFit.{OfJob};
ghost use Rattle.hv_jobs.specs.Finals.{finals_of};
ghost use Rattle.hv_law_visible.specs.Members.{IsIn};
ghost use Rattle.hv_telling.specs.hv_law_work.specs.Work.{IsJobFile, IsStagedFile};
ghost use Rattle.hv_trail.specs.declared.trail.Reader.TheVariants as reader;
ghost use Rattle.hv_trail.specs.Steps.{Put};
ghost use Rattle.hv_telling.specs.hv_house.specs.Faults.{HardStep};
ghost use Rattle.hv_telling.specs.hv_house.specs.House.{entries_of};
ghost use Rattle.hv_telling.specs.Telling.{IsToldHouse, IsWhole};
ghost use Rattle.hv_job_calls.specs.declared.fault.JobFault.TheVariants as fault;
ghost use Rattle.hv_job_calls.specs.Refusals.{WorksAt, HasGoneJob, HasLiveJob, IfLive};
ghost use Rattle.hv_job_calls.specs.Staging.{staged_in, IsStageable, PlacesFor};
ghost use Rattle.hv_job_calls.specs.Steps.{JobStep, job_call};
ghost use Rattle.hv_job_calls.specs.Tests.{IsHouse, IsGoneOrHouse};

use crate::fault::JobFault;
use crate::tests::is_job_live;
use hv_base::{Duplicate, JobId, NoMemory, TableId};
use hv_book::{Book, JobNote};
use hv_dirs::{DirName, print_name};
use hv_history::numbered;
use hv_shelf::{Place, Shelf};
use hv_tallies::asked_at;
use hv_telling::hv_house::{House, HouseFault};
use hv_telling::put_staged;
use std::alloc::Global;

/// The place of a file that the job which is noted so stages.
fn place_noted(
    alloc: Global,
    book: &Book,
    job: JobId,
    note: &JobNote,
    name: &DirName,
    bucket: u32,
) -> Result<Option<Place>, NoMemory>
    requires named { IsStageable job.0 name.now }
    ensures place { IfOk result (λ place. PlacesFor book.now.entries job.0 note.now name.now bucket place) }
{
    match asked_at(book, note.asked) {
        Some(partition) => {
            let made = print_name(alloc, name)?;
            let staged = DirName::Staged { job, name: made };
            Ok(Some(Place {
                table: TableId(note.table),
                partition: partition.duplicate(alloc)?,
                dir: print_name(alloc, &staged)?,
                bucket,
            }))
        }
        None => Ok(None),
    }
}

/// The place of a file that a job stages.
fn staged_place(
    alloc: Global,
    book: &Book,
    job: JobId,
    name: &DirName,
    bucket: u32,
) -> Result<Option<Place>, NoMemory>
    requires named { IsStageable job.0 name.now }
    ensures place { IfOk result (λ place. (j : Job) → numbered (state_of book.now.entries).jobs job.0 ≡ Some j
        → place ≡ Some (staged_in (state_of book.now.entries) job.0 name.now bucket)) }
{
    match numbered(book.jobs(), job.0) {
        Some(note) => place_noted(alloc, book, job, note, name, bucket),
        None => Ok(None),
    }
}

/// Puts a file of a job at its place.
fn put_at<D: Shelf>(
    house: &mut House<D>,
    job: JobId,
    place: Place,
    bytes: &[u8],
) -> Result<(), JobFault>
    requires whole { IsWhole D.told house.old }
    requires truly { IsToldHouse D.told house.old
        → IsStagedFile (state_of (entries_of house.old)) job.0 place bytes.now }
    ensures step { JobStep D.told D.faults (job_call (Put (reader.Job job) place bytes.now) result)
        house.old house.new result }
    ensures hard { HardStep (D.hard house.old.shelf) (D.hard house.new.shelf)
        house.old.trail.closed house.new.trail.closed }
    ensures failed { IfErr result IsHouse }
{
    match put_staged(house, job, place, bytes) {
        Ok(()) => Ok(()),
        Err(why) => Err(JobFault::House(why)),
    }
}

/// Puts a file of a job at its place, which was found.
fn put_found<D: Shelf>(
    house: &mut House<D>,
    job: JobId,
    place: Option<Place>,
    bytes: &[u8],
) -> Result<(), JobFault>
    requires whole { IsWhole D.told house.old }
    requires found { IsSome place }
    requires truly { IsToldHouse D.told house.old
        → IfSome place (λ at. IsStagedFile (state_of (entries_of house.old)) job.0 at bytes.now) }
    ensures step { IfSome place (λ at. JobStep D.told D.faults
        (job_call (Put (reader.Job job) at bytes.now) result) house.old house.new result) }
    ensures hard { HardStep (D.hard house.old.shelf) (D.hard house.new.shelf)
        house.old.trail.closed house.new.trail.closed }
    ensures failed { IfErr result IsHouse }
{
    match place {
        Some(place) => put_at(house, job, place, bytes),
        None => unreachable!(),
    }
}

/// Puts the file of a bucket of a directory that a job at work of a live table is to make, where it stages this.
fn put_live<D: Shelf>(
    alloc: Global,
    house: &mut House<D>,
    job: JobId,
    name: &DirName,
    bucket: u32,
    bytes: &[u8],
) -> Result<(), JobFault>
    requires whole { IsWhole D.told house.old }
    requires live { HasLiveJob (state_of (entries_of house.old)) job.0 }
    requires works { WorksAt (state_of (entries_of house.old)) job.0 }
    requires among { OfJob (state_of (entries_of house.old)) job.0
        (λ j. IsIn name.now (finals_of (state_of (entries_of house.old)) j)) }
    requires truly { IsToldHouse D.told house.old
        → IsJobFile (state_of (entries_of house.old)) job.0 name.now bucket bytes.now }
    ensures step { JobStep D.told D.faults
        (job_call (Put (reader.Job job) (staged_in (state_of (entries_of house.old)) job.0 name.now bucket) bytes.now)
        result) house.old house.new result }
    ensures hard { HardStep (D.hard house.old.shelf) (D.hard house.new.shelf)
        house.old.trail.closed house.new.trail.closed }
    ensures failed { IfErr result IsHouse }
{
    match staged_place(alloc, house.book(), job, name, bucket) {
        Ok(place) => put_found(house, job, place, bytes),
        Err(NoMemory) => Err(JobFault::House(HouseFault::NoMemory)),
    }
}

/// Puts the file of a bucket of a directory that a job at work is to make, where it stages this. It is marked as put; and where
/// that failed, as failed, with the store's count of faults.
///
/// # Errors
/// `Gone` where the job's table isn't live; the house is as it was. `House` where the store failed or memory lacked.
pub fn stage_put<D: Shelf>(
    alloc: Global,
    house: &mut House<D>,
    job: JobId,
    name: &DirName,
    bucket: u32,
    bytes: &[u8],
) -> Result<(), JobFault>
    requires whole { IsWhole D.told house.old }
    requires works { WorksAt (state_of (entries_of house.old)) job.0 }
    requires among { OfJob (state_of (entries_of house.old)) job.0
        (λ j. IsIn name.now (finals_of (state_of (entries_of house.old)) j)) }
    requires truly { IsToldHouse D.told house.old → IfLive (state_of (entries_of house.old)) job.0
        (λ _. IsJobFile (state_of (entries_of house.old)) job.0 name.now bucket bytes.now) }
    ensures step { JobStep D.told D.faults
        (job_call (Put (reader.Job job) (staged_in (state_of (entries_of house.old)) job.0 name.now bucket) bytes.now)
        result) house.old house.new result }
    ensures hard { HardStep (D.hard house.old.shelf) (D.hard house.new.shelf)
        house.old.trail.closed house.new.trail.closed }
    ensures gone { IsErrOf result fault.Gone ↔ HasGoneJob (state_of (entries_of house.old)) job.0 }
    ensures others { IfErr result IsGoneOrHouse }
{
    if is_job_live(house, job) {
        put_live(alloc, house, job, name, bucket, bytes)
    } else {
        Err(JobFault::Gone)
    }
}
