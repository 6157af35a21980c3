ghost use Rattle.std.specs.Prelude.{◌≡◌, ◌↔◌, ◌+◌, ◌++◌, ◌∷◌, [], Some, None, false, map, length, IfOk, IfErr, OnOk, IsErrOf};
ghost use Rattle.hv_history.specs.State.{state_of, Job, numbered};
ghost use Rattle.hv_history.specs.Jobs.{pieces_for, is_empty_of};
ghost use Rattle.hv_history.specs.JobsFit.{OfJob};
ghost use Rattle.hv_law_made.specs.Entries.{IsAtWork};
ghost use Rattle.hv_telling.specs.hv_law_work.specs.Work.{AreStagedAll};
ghost use Rattle.hv_trail.specs.declared.trail.Reader.TheVariants as reader;
ghost use Rattle.hv_trail.specs.Trail.{broken};
ghost use Rattle.hv_trail.specs.Kept.{trail_of};
ghost use Rattle.hv_trail.specs.Steps.{Publish};
ghost use Rattle.hv_telling.specs.hv_house.specs.House.{entries_of};
ghost use Rattle.hv_telling.specs.hv_house.specs.Publishing.{HardPublish};
ghost use Rattle.hv_telling.specs.Telling.{IsToldHouse, IsWhole};
ghost use Rattle.hv_job_calls.specs.declared.fault.JobFault.TheVariants as fault;
ghost use Rattle.hv_job_calls.specs.Refusals.{WorksAt, HasGoneJob, HasLiveJob, IfLive, publishing_of};
ghost use Rattle.hv_job_calls.specs.Staging.{renamings_of, stage_of, renamed, IsStageableDir, AreStageable};
ghost use Rattle.hv_job_calls.specs.Steps.{JobStep, job_call, fault_of};
ghost use Rattle.hv_job_calls.specs.Tests.{IsPublishing, IsGoneOrPublishing};

use crate::fault::JobFault;
use crate::tests::is_job_live;
use hv_base::{Duplicate, JobId, NoMemory, Text, TxnId};
use hv_book::Book;
use hv_dirs::{DirName, print_name};
use hv_finals::final_dirs;
use hv_history::Entry;
use hv_meta::next_txn;
use hv_queue::pieces;
use hv_shelf::{DirAt, Shelf};
use hv_telling::hv_house::{House, HouseFault, PublishFault};
use hv_trail::Renaming;
use std::alloc::Global;

/// The text of the directory in which a job stages one of this text.
fn stage_text(alloc: Global, job: JobId, text: &Text) -> Result<Text, NoMemory>
    requires named { IsStageableDir job.0 text.now }
    ensures staged { IfOk result (λ staged. staged ≡ stage_of job.0 text.now) }
{
    let staged = DirName::Staged {
        job,
        name: text.duplicate(alloc)?,
    };
    print_name(alloc, &staged)
}

/// The directory in which a job stages this one.
fn stage_dir(alloc: Global, job: JobId, dir: &DirAt) -> Result<DirAt, NoMemory>
    requires named { IsStageableDir job.0 dir.now.dir }
    ensures dir { IfOk result (λ staged. staged ≡ record dir.now { dir = stage_of job.0 dir.now.dir }) }
{
    Ok(DirAt {
        table: dir.table,
        partition: dir.partition.duplicate(alloc)?,
        dir: stage_text(alloc, job, &dir.dir)?,
    })
}

/// Puts behind these that a directory gets its name.
fn push_renaming(
    alloc: Global,
    renamings: &mut Vec<Renaming>,
    job: JobId,
    dir: &DirAt,
) -> Result<(), NoMemory>
    requires named { IsStageableDir job.0 dir.now.dir }
    ensures { OnOk result (renamings.new.items ≡ renamings.old.items ++ renamed job.0 dir.now ∷ []) }
{
    let from = stage_dir(alloc, job, dir)?;
    let to = dir.dir.duplicate(alloc)?;
    renamings.push(Renaming { from, to })?;
    Ok(())
}

/// How directories that a job stages get their names.
fn rename_from(alloc: Global, job: JobId, dirs: &[DirAt]) -> Result<Vec<Renaming>, NoMemory>
    requires named { AreStageable job.0 dirs.now }
    ensures renamings { IfOk result (λ renamings. renamings.items ≡ map (renamed job.0) dirs.now) }
{
    let mut renamings = Vec::new(alloc);
    for dir in dirs {
        push_renaming(alloc, &mut renamings, job, dir)?;
    }
    Ok(renamings)
}

/// How the directories get their names that a job at work is to make. It walks the jobs and the table's write ids.
fn renamings<D: Shelf>(
    alloc: Global,
    house: &House<D>,
    job: JobId,
) -> Result<Vec<Renaming>, NoMemory>
    requires whole { IsWhole D.told house.now }
    requires live { HasLiveJob (state_of (entries_of house.now)) job.0 }
    requires works { WorksAt (state_of (entries_of house.now)) job.0 }
    ensures renamings { IfOk result (λ renamings. renamings.items
        ≡ renamings_of (state_of (entries_of house.now)) job.0) }
{
    let dirs = final_dirs(alloc, house.book(), job)?;
    rename_from(alloc, job, &dirs)
}

/// The entry by which a job at work is published now.
fn publishing(book: &Book, job: JobId) -> Entry
    ensures entry { (j : Job) → numbered (state_of book.now.entries).jobs job.0 ≡ Some j
        → result ≡ publishing_of book.now.entries job }
{
    let merged = pieces(book, job);
    Entry::Published {
        job,
        low: merged.low,
        high: merged.high,
        mark: next_txn(book),
    }
}

fn publish_fault(why: PublishFault) -> JobFault
    ensures { result ≡ fault_of why }
{
    match why {
        PublishFault::Starved => JobFault::Starved,
        PublishFault::House(why) => JobFault::House(why),
    }
}

/// Publishes a job whose directories are staged, and answers its mark.
fn publish_as<D: Shelf>(
    house: &mut House<D>,
    job: JobId,
    renamings: &[Renaming],
) -> Result<TxnId, JobFault>
    requires whole { IsWhole D.told house.old }
    requires live { HasLiveJob (state_of (entries_of house.old)) job.0 }
    requires works { WorksAt (state_of (entries_of house.old)) job.0 }
    requires some { OfJob (state_of (entries_of house.old)) job.0
        (λ j. is_empty_of j.kind (pieces_for (state_of (entries_of house.old)) j) ≡ false) }
    requires unbroken { broken (reader.Job job) (trail_of house.old.trail) ≡ None }
    requires staged { IsToldHouse D.told house.old → (j : Job)
        (work : IsAtWork (state_of (entries_of house.old)) job.0 j)
        → AreStagedAll (trail_of house.old.trail) (state_of (entries_of house.old)) job.0 j work.table }
    requires renamings { renamings.now ≡ renamings_of (state_of (entries_of house.old)) job.0 }
    ensures step { JobStep D.told D.faults (job_call
        (Publish (renamings_of (state_of (entries_of house.old)) job.0) (publishing_of (entries_of house.old) job))
        result) house.old house.new result }
    ensures hard { HardPublish D.hard house.old house.new }
    ensures mark { IfOk result (λ mark. mark.0 ≡ length (state_of (entries_of house.old)).transactions + 1) }
    ensures failed { IfErr result IsPublishing }
{
    let mark = next_txn(house.book());
    let entry = publishing(house.book(), job);
    match hv_telling::publish(house, renamings, entry) {
        Ok(()) => Ok(mark),
        Err(why) => Err(publish_fault(why)),
    }
}

/// Publishes a job of a live table.
fn publish_live<D: Shelf>(
    alloc: Global,
    house: &mut House<D>,
    job: JobId,
) -> Result<TxnId, JobFault>
    requires whole { IsWhole D.told house.old }
    requires live { HasLiveJob (state_of (entries_of house.old)) job.0 }
    requires works { WorksAt (state_of (entries_of house.old)) job.0 }
    requires some { OfJob (state_of (entries_of house.old)) job.0
        (λ j. is_empty_of j.kind (pieces_for (state_of (entries_of house.old)) j) ≡ false) }
    requires unbroken { broken (reader.Job job) (trail_of house.old.trail) ≡ None }
    requires staged { IsToldHouse D.told house.old → (j : Job)
        (work : IsAtWork (state_of (entries_of house.old)) job.0 j)
        → AreStagedAll (trail_of house.old.trail) (state_of (entries_of house.old)) job.0 j work.table }
    ensures step { JobStep D.told D.faults (job_call
        (Publish (renamings_of (state_of (entries_of house.old)) job.0) (publishing_of (entries_of house.old) job))
        result) house.old house.new result }
    ensures hard { HardPublish D.hard house.old house.new }
    ensures mark { IfOk result (λ mark. mark.0 ≡ length (state_of (entries_of house.old)).transactions + 1) }
    ensures failed { IfErr result IsPublishing }
{
    match renamings(alloc, house, job) {
        Ok(renamings) => publish_as(house, job, &renamings),
        Err(NoMemory) => Err(JobFault::House(HouseFault::NoMemory)),
    }
}

/// Gives the directories of a job at work their names, one after another, and notes that it is published, with its range over the
/// book and the number of the next transaction, which it answers.
///
/// # Errors
/// `Gone` where the job's table isn't live; the house is as it was. `House` with `NoMemory` where memory lacked before the first
/// directory had its name, and `Starved` where it lacked later: the house is closed. `House` with `Store` where the store failed.
pub fn publish<D: Shelf>(alloc: Global, house: &mut House<D>, job: JobId) -> Result<TxnId, JobFault>
    requires whole { IsWhole D.told house.old }
    requires works { WorksAt (state_of (entries_of house.old)) job.0 }
    requires some { IfLive (state_of (entries_of house.old)) job.0
        (λ j. is_empty_of j.kind (pieces_for (state_of (entries_of house.old)) j) ≡ false) }
    requires unbroken { broken (reader.Job job) (trail_of house.old.trail) ≡ None }
    requires staged { IsToldHouse D.told house.old → (j : Job)
        (work : IsAtWork (state_of (entries_of house.old)) job.0 j)
        → AreStagedAll (trail_of house.old.trail) (state_of (entries_of house.old)) job.0 j work.table }
    ensures step { JobStep D.told D.faults (job_call
        (Publish (renamings_of (state_of (entries_of house.old)) job.0) (publishing_of (entries_of house.old) job))
        result) house.old house.new result }
    ensures hard { HardPublish D.hard house.old house.new }
    ensures mark { IfOk result (λ mark. mark.0 ≡ length (state_of (entries_of house.old)).transactions + 1) }
    ensures gone { IsErrOf result fault.Gone ↔ HasGoneJob (state_of (entries_of house.old)) job.0 }
    ensures others { IfErr result IsGoneOrPublishing }
{
    if is_job_live(house, job) {
        publish_live(alloc, house, job)
    } else {
        Err(JobFault::Gone)
    }
}
