//! A compaction's files, staged and then published.

ghost use Rattle.std.specs.Prelude.{◌≡◌, true, Some, None, IfOk};
ghost use Rattle.hv_history.specs.State.{state_of, Job, numbered};
ghost use Rattle.hv_history.specs.Jobs.{events_in};
ghost use Rattle.hv_jobs.specs.Covered.{has_within};
ghost use Rattle.hv_trail.specs.declared.trail.Reader.TheVariants as reader;
ghost use Rattle.hv_trail.specs.Trail.{state_at, book_of, broken};
ghost use Rattle.hv_trail.specs.Kept.{trail_of};
ghost use Rattle.hv_acts.specs.hv_telling.specs.hv_house.specs.Housed.{ShutsHard};
ghost use Rattle.hv_acts.specs.hv_telling.specs.hv_house.specs.House.{entries_of};
ghost use Rattle.hv_acts.specs.hv_telling.specs.hv_house.specs.Steps.{seen_of};
ghost use Rattle.hv_acts.specs.hv_telling.specs.Telling.{IsToldHouse, IsWhole};
ghost use Rattle.hv_job_calls.specs.Refusals.{WorksAt};
ghost use Rattle.hv_job_calls.specs.Staging.{staged_in, IsStageable, PlacesFor};
ghost use Rattle.hv_job_acts.specs.Answers.{ActStep};
ghost use Rattle.hv_job_acts.specs.Doing.{call_to_stage, IsFileDue, StagesSo, call_to_publish, IsStagedDue, PublishesSo};
ghost use Rattle.hv_job_acts.specs.Staging.{is_minor_final, is_major_final, is_final_of, is_final_in, FinalIn, with_place, with_range};

use crate::covering::can_stage;
use crate::fault::JobActFault;
use hv_actor::Act;
use hv_acts::ToldHouse;
use hv_acts::hv_telling::hv_house::{House, HouseFault};
use hv_base::{Duplicate, JobId, NoMemory, TableId, Text, TxnId, WriteId};
use hv_book::{Book, JobNote, JobRange};
use hv_dirs::{DirName, print_name};
use hv_finals::{Merge, is_at_work, merge_of};
use hv_history::{JobKind, numbered};
use hv_job_calls::{JobFault, publish, stage_put};
use hv_shelf::{Place, Shelf};
use hv_tallies::{asked_at, both, found_within};
use hv_trail::Reader;
use std::alloc::Global;

/// Puts the file of a bucket of a directory that a job at work is to make, where it stages this. The answer is its
/// place.
#[derive(Drop)]
pub struct StagePut<'a> {
    pub job: JobId,
    pub name: &'a DirName,
    pub bucket: u32,
    pub bytes: &'a [u8],
}

/// Whether rows of that kind were inserted, or deleted, in the range of what is merged.
fn has_some(book: &Book, partition: &Text, merge: Merge, deletes: bool) -> bool
    ensures { result ≡ has_within deletes merge.low merge.high
        (events_in (state_of book.now.entries) merge.table partition.now) }
{
    let range = JobRange {
        low: merge.low,
        high: merge.high,
        mark: 0,
    };
    let found = found_within(book, merge.table, partition, range);
    if deletes {
        found.deleted
    } else {
        found.inserted
    }
}

/// Whether a minor compaction that merges so is to make a directory of this name.
fn is_minor_final(book: &Book, partition: &Text, merge: Merge, name: &DirName) -> bool
    ensures { result ≡ is_minor_final (events_in (state_of book.now.entries) merge.table partition.now) merge name.now }
{
    match name {
        DirName::Wide { deletes, low, high } => {
            let same = both(low.0 == merge.low, high.0 == merge.high);
            both(same, has_some(book, partition, merge, *deletes))
        }
        DirName::Base { .. } | DirName::Own { .. } | DirName::Staged { .. } => false,
    }
}

/// Whether a major compaction that merges so is to make a directory of this name.
fn is_major_final(merge: Merge, name: &DirName) -> bool
    ensures { result ≡ is_major_final merge name.now }
{
    match name {
        DirName::Base { high } => high.0 == merge.high,
        DirName::Wide { .. } | DirName::Own { .. } | DirName::Staged { .. } => false,
    }
}

/// Whether a job that merges so is to make a directory of this name.
fn is_final_of(book: &Book, partition: &Text, merge: Merge, name: &DirName) -> bool
    ensures { result ≡ is_final_of (events_in (state_of book.now.entries) merge.table partition.now) merge name.now }
{
    match merge.kind {
        JobKind::Minor => is_minor_final(book, partition, merge, name),
        JobKind::Major => is_major_final(merge, name),
    }
}

/// Whether a job that merges so is to make a directory of this name in the partition that it was asked for.
fn is_final_in(book: &Book, merge: Merge, name: &DirName) -> bool
    ensures { result ≡ is_final_in book.now.entries merge name.now }
{
    match asked_at(book, merge.asked) {
        Some(partition) => is_final_of(book, partition, merge, name),
        None => false,
    }
}

/// Whether a job at work is to make a directory of this name.
fn is_final(book: &Book, job: JobId, name: &DirName) -> bool
    ensures among { FinalIn book.now.entries job.0 name.now result }
{
    match merge_of(book, job) {
        Some(merge) => is_final_in(book, merge, name),
        None => false,
    }
}

/// The place of a file that the job which is noted so stages.
fn place_noted(
    alloc: Global,
    book: &Book,
    job: JobId,
    note: &JobNote,
    name: &DirName,
    bucket: u32,
) -> Result<Option<Place>, NoMemory>
    requires named { IsStageable job.0 name.now }
    ensures place { IfOk result (λ place. PlacesFor book.now.entries job.0 note.now name.now bucket place) }
{
    match asked_at(book, note.asked) {
        Some(partition) => {
            let made = print_name(alloc, name)?;
            let staged = DirName::Staged { job, name: made };
            Ok(Some(Place {
                table: TableId(note.table),
                partition: partition.duplicate(alloc)?,
                dir: print_name(alloc, &staged)?,
                bucket,
            }))
        }
        None => Ok(None),
    }
}

/// The place of a file that a job stages.
fn staged_place(
    alloc: Global,
    book: &Book,
    job: JobId,
    name: &DirName,
    bucket: u32,
) -> Result<Option<Place>, NoMemory>
    requires named { IsStageable job.0 name.now }
    ensures place { IfOk result (λ place. (j : Job) → numbered (state_of book.now.entries).jobs job.0 ≡ Some j
        → place ≡ Some (staged_in (state_of book.now.entries) job.0 name.now bucket)) }
{
    match numbered(book.jobs(), job.0) {
        Some(note) => place_noted(alloc, book, job, note, name, bucket),
        None => Ok(None),
    }
}

/// The place, where the file was put there.
fn with_place(place: Place, done: Result<(), JobFault>) -> Result<Place, JobActFault>
    ensures { result ≡ with_place place done }
{
    match done {
        Ok(()) => Ok(place),
        Err(why) => Err(JobActFault::Call(why)),
    }
}

/// Stages a file of a job at work at this place.
fn stage_at<D: Shelf>(
    alloc: Global,
    house: &mut House<D>,
    job: JobId,
    name: &DirName,
    bucket: u32,
    bytes: &[u8],
    place: Option<Place>,
) -> Result<Place, JobActFault>
    requires whole { IsWhole D.told house.old }
    requires hard { ShutsHard D.hard (seen_of house.old) }
    requires works { WorksAt (state_of (entries_of house.old)) job.0 }
    requires among { FinalIn (entries_of house.old) job.0 name.now true }
    requires place { (j : Job) → numbered (state_of (entries_of house.old)).jobs job.0 ≡ Some j
        → place ≡ Some (staged_in (state_of (entries_of house.old)) job.0 name.now bucket) }
    requires truly { IsToldHouse D.told house.old → IsFileDue (trail_of house.old.trail) job name.now bucket bytes.now }
    ensures staged { ActStep D.told D.faults
        (call_to_stage (state_at (trail_of house.old.trail)) job name.now bucket bytes.now result) house.old house.new
        (StagesSo (state_at (trail_of house.old.trail)) job name.now bucket) result }
    ensures hard { ShutsHard D.hard (seen_of house.new) }
{
    match place {
        Some(place) => with_place(place, stage_put(alloc, house, job, name, bucket, bytes)),
        None => Err(JobActFault::Unfit),
    }
}

/// Stages a file of a job at work, of a directory that it is to make.
fn stage_final<D: Shelf>(
    alloc: Global,
    house: &mut House<D>,
    job: JobId,
    name: &DirName,
    bucket: u32,
    bytes: &[u8],
) -> Result<Place, JobActFault>
    requires whole { IsWhole D.told house.old }
    requires hard { ShutsHard D.hard (seen_of house.old) }
    requires works { WorksAt (state_of (entries_of house.old)) job.0 }
    requires among { FinalIn (entries_of house.old) job.0 name.now true }
    requires named { IsStageable job.0 name.now }
    requires truly { IsToldHouse D.told house.old → IsFileDue (trail_of house.old.trail) job name.now bucket bytes.now }
    ensures staged { ActStep D.told D.faults
        (call_to_stage (state_at (trail_of house.old.trail)) job name.now bucket bytes.now result) house.old house.new
        (StagesSo (state_at (trail_of house.old.trail)) job name.now bucket) result }
    ensures hard { ShutsHard D.hard (seen_of house.new) }
{
    match staged_place(alloc, house.book(), job, name, bucket) {
        Ok(place) => stage_at(alloc, house, job, name, bucket, bytes, place),
        Err(NoMemory) => Err(JobActFault::Call(JobFault::House(HouseFault::NoMemory))),
    }
}

fn stage_file<D: Shelf>(
    alloc: Global,
    house: &mut House<D>,
    job: JobId,
    name: &DirName,
    bucket: u32,
    bytes: &[u8],
) -> Result<Place, JobActFault>
    requires whole { IsWhole D.told house.old }
    requires hard { ShutsHard D.hard (seen_of house.old) }
    requires truly { IsToldHouse D.told house.old → IsFileDue (trail_of house.old.trail) job name.now bucket bytes.now }
    ensures staged { ActStep D.told D.faults
        (call_to_stage (state_at (trail_of house.old.trail)) job name.now bucket bytes.now result) house.old house.new
        (StagesSo (state_at (trail_of house.old.trail)) job name.now bucket) result }
    ensures hard { ShutsHard D.hard (seen_of house.new) }
{
    if !is_at_work(house.book(), job) {
        return Err(JobActFault::Unfit);
    }
    if !can_stage(job, name) {
        return Err(JobActFault::Unfit);
    }
    if is_final(house.book(), job, name) {
        stage_final(alloc, house, job, name, bucket, bytes)
    } else {
        Err(JobActFault::Unfit)
    }
}

impl<'a, D: Shelf + Drop> Act<D, ToldHouse<D>> for StagePut<'a> {
    ghost use Rattle.hv_trail.specs.Trail.{state_at};
    ghost use Rattle.hv_acts.specs.hv_telling.specs.Telling.{IsTold};
    ghost use Rattle.hv_job_acts.specs.Answers.{answer_outcome, JobDoes};
    ghost use Rattle.hv_job_acts.specs.Doing.{call_to_stage, adds_staged, IsFileDue, StagesSo};
    ghost use Rattle.hv_job_acts.specs.Few.{few_staged};
    ghost use Rattle.hv_job_acts.specs.Laters.{job_later};

    type Answer = Result<Place, JobActFault>;

    ghost can = { λ act house. IsTold D.told house.start
        → IsFileDue house.trail act.job act.name.now act.bucket act.bytes.now };

    ghost call = { λ act house answer.
        call_to_stage (state_at house.trail) act.job act.name.now act.bucket act.bytes.now answer };

    ghost outcome = { λ act answer. answer_outcome answer };

    ghost adds = { λ act answer. adds_staged act.job answer };

    ghost does = { λ act house now answer. JobDoes D.faults house now
        (StagesSo (state_at house.trail) act.job act.name.now act.bucket) answer };

    ghost most = { 1 };

    ghost few = { λ act answer. few_staged act.job answer };

    ghost goes_on = { λ act answer before now step does.
        job_later D.told D.faults
        (call_to_stage (state_at before.trail) act.job act.name.now act.bucket act.bytes.now answer) answer before
        now step does.leaves does.up };

    fn act(self, alloc: Global, house: &mut ToldHouse<D>) -> Result<Place, JobActFault> {
        if house.house.is_closed() {
            Err(JobActFault::Call(JobFault::House(HouseFault::Store)))
        } else {
            stage_file(
                alloc,
                &mut house.house,
                self.job,
                self.name,
                self.bucket,
                self.bytes,
            )
        }
    }
}

/// Gives the directories of a job at work their names, and notes that it is published.
#[derive(Drop)]
pub struct PublishJob {
    pub job: JobId,
}

/// The range and the mark of a job that was published.
#[derive(Clone, Copy)]
pub struct Publication {
    pub low: WriteId,
    pub high: WriteId,
    pub mark: TxnId,
}

/// The range and the mark, where it was published.
fn with_range(merge: Merge, done: Result<TxnId, JobFault>) -> Result<Publication, JobActFault>
    ensures { result ≡ with_range merge done }
{
    match done {
        Ok(mark) => Ok(Publication {
            low: WriteId(merge.low),
            high: WriteId(merge.high),
            mark,
        }),
        Err(why) => Err(JobActFault::Call(why)),
    }
}

/// Publishes a job at work of which no call on files failed.
fn publish_whole<D: Shelf>(
    alloc: Global,
    house: &mut House<D>,
    job: JobId,
) -> Result<Publication, JobActFault>
    requires whole { IsWhole D.told house.old }
    requires hard { ShutsHard D.hard (seen_of house.old) }
    requires works { WorksAt (state_of (entries_of house.old)) job.0 }
    requires unbroken { broken (reader.Job job) (trail_of house.old.trail) ≡ None }
    requires truly { IsToldHouse D.told house.old → IsStagedDue (trail_of house.old.trail) job }
    ensures published { ActStep D.told D.faults (call_to_publish (book_of (trail_of house.old.trail)) job result)
        house.old house.new (PublishesSo (trail_of house.old.trail) job) result }
    ensures hard { ShutsHard D.hard (seen_of house.new) }
{
    match merge_of(house.book(), job) {
        Some(merge) => with_range(merge, publish(alloc, house, job)),
        None => Err(JobActFault::Unfit),
    }
}

fn publish_job<D: Shelf>(
    alloc: Global,
    house: &mut House<D>,
    job: JobId,
) -> Result<Publication, JobActFault>
    requires whole { IsWhole D.told house.old }
    requires hard { ShutsHard D.hard (seen_of house.old) }
    requires truly { IsToldHouse D.told house.old → IsStagedDue (trail_of house.old.trail) job }
    ensures published { ActStep D.told D.faults (call_to_publish (book_of (trail_of house.old.trail)) job result)
        house.old house.new (PublishesSo (trail_of house.old.trail) job) result }
    ensures hard { ShutsHard D.hard (seen_of house.new) }
{
    if !is_at_work(house.book(), job) {
        return Err(JobActFault::Unfit);
    }
    match house.broken_of(Reader::Job(job)) {
        Some((put, count)) => Err(JobActFault::Broken { put, count }),
        None => publish_whole(alloc, house, job),
    }
}

impl<D: Shelf + Drop> Act<D, ToldHouse<D>> for PublishJob {
    ghost use Rattle.hv_trail.specs.Trail.{book_of};
    ghost use Rattle.hv_acts.specs.hv_telling.specs.Telling.{IsTold};
    ghost use Rattle.hv_job_acts.specs.Answers.{answer_outcome, JobDoes};
    ghost use Rattle.hv_job_acts.specs.Doing.{call_to_publish, adds_published, IsStagedDue, PublishesSo};
    ghost use Rattle.hv_job_acts.specs.Few.{few_published};
    ghost use Rattle.hv_job_acts.specs.Laters.{job_later};

    type Answer = Result<Publication, JobActFault>;

    ghost can = { λ act house. IsTold D.told house.start → IsStagedDue house.trail act.job };

    ghost call = { λ act house answer. call_to_publish (book_of house.trail) act.job answer };

    ghost outcome = { λ act answer. answer_outcome answer };

    ghost adds = { λ act answer. adds_published act.job answer };

    ghost does = { λ act house now answer. JobDoes D.faults house now (PublishesSo house.trail act.job) answer };

    ghost most = { 1 };

    ghost few = { λ act answer. few_published act.job answer };

    ghost goes_on = { λ act answer before now step does.
        job_later D.told D.faults (call_to_publish (book_of before.trail) act.job answer)
        answer before now step does.leaves does.up };

    fn act(self, alloc: Global, house: &mut ToldHouse<D>) -> Result<Publication, JobActFault> {
        if house.house.is_closed() {
            Err(JobActFault::Call(JobFault::House(HouseFault::Store)))
        } else {
            publish_job(alloc, &mut house.house, self.job)
        }
    }
}
