ghost use Rattle.std.specs.Prelude.{◌≡◌, ◌↔◌, nat_le, Bool, List, [], ◌∷◌, ◌++◌, length, map, filter, Some, None, IsSome, option_map, IfOk, IfErr, OnOk, IsErrOf};
ghost use Rattle.std.specs.FinMap as tree;
ghost use Rattle.hv_base.specs.Told.{Tells};
ghost use Rattle.hv_shelf.specs.Disk.{places_of};
ghost use Rattle.hv_rowfile.specs.declared.record.Rec.{Rec};
ghost use Rattle.hv_history.specs.State.{state_of, Job, numbered};
ghost use Rattle.hv_law_made.specs.Standing.{IsEncodingOf};
ghost use Rattle.hv_history.specs.Jobs.{mark_by};
ghost use Rattle.hv_book.specs.Briefs.{brief_job};
ghost use Rattle.hv_earlier.specs.Lists.{list_at};
ghost use Rattle.hv_earlier.specs.Places.{write_of};
ghost use Rattle.hv_trail.specs.declared.trail.Reader.TheVariants as reader;
ghost use Rattle.hv_trail.specs.Steps.{Read};
ghost use Rattle.hv_telling.specs.hv_house.specs.Faults.{HardStep};
ghost use Rattle.hv_telling.specs.hv_house.specs.House.{entries_of};
ghost use Rattle.hv_telling.specs.hv_house.specs.Listing.{AreTakenOf};
ghost use Rattle.hv_telling.specs.Telling.{IsToldHouse, IsWhole};
ghost use Rattle.hv_job_calls.specs.declared.fault.JobFault.TheVariants as fault;
ghost use Rattle.hv_job_calls.specs.Listing.{is_part, job_list, lost_up_to, lost_of, RisesLost, WithinLost, IsNotedIn, IsListOf, IsListingOf, list_read, AreTakenFor};
ghost use Rattle.hv_job_calls.specs.Refusals.{WorksAt, HasGoneJob, IsStandingAt};
ghost use Rattle.hv_job_calls.specs.Steps.{JobStep, job_call};
ghost use Rattle.hv_job_calls.specs.Tests.{IsHouse, IsGoneOrHouse, FindsOrHouse, GetsOrHouse};

use crate::fault::JobFault;
use crate::noting::let_go;
use crate::tests::is_job_live;
use hv_base::{JobId, NoMemory, TableId, Text, WriteId};
use hv_book::{Book, JobNote};
use hv_earlier::{PastIds, ids_at};
use hv_history::numbered;
use hv_shelf::{Place, Shelf};
use hv_tallies::asked_at;
use hv_telling::hv_house::{House, HouseFault, Listing, take_of};
use hv_trail::Reader;
use hv_wids::{Exception, WriteIdList};
use std::alloc::Global;

fn is_low(write: u64, mark: u64) -> bool
    ensures { result ≡ nat_le write mark }
{
    write <= mark
}

fn put_behind(exceptions: &mut Vec<Exception>, exception: Exception) -> Result<(), NoMemory>
    ensures { OnOk result (exceptions.new.items ≡ exceptions.old.items ++ exception ∷ []) }
{
    exceptions.push(exception)?;
    Ok(())
}

/// Puts a write id up to a mark behind these, as an aborted one.
fn push_lost(exceptions: &mut Vec<Exception>, write: u64, mark: u64) -> Result<(), NoMemory>
    ensures { OnOk result (exceptions.new.items ≡ exceptions.old.items ++ lost_up_to mark (write ∷ [])) }
{
    if is_low(write, mark) {
        put_behind(
            exceptions,
            Exception {
                write: WriteId(write),
                aborted: true,
            },
        )
    } else {
        Ok(())
    }
}

/// Of these write ids, those up to a mark, as aborted ones.
fn lost_up_to(alloc: Global, lost: &[u64], mark: u64) -> Result<Vec<Exception>, NoMemory>
    ensures { IfOk result (λ exceptions. exceptions.items ≡ lost_up_to mark lost.now) }
{
    let mut exceptions = Vec::new(alloc);
    for write in lost {
        push_lost(&mut exceptions, *write, mark)?;
    }
    Ok(exceptions)
}

/// A list that ends at a mark up to which all ids have ended.
fn cut_list(alloc: Global, ids: &PastIds, mark: u64) -> Result<WriteIdList, NoMemory>
    requires rises { RisesLost mark ids.now.lost.items }
    requires within { WithinLost mark ids.now.given ids.now.lost.items }
    ensures list { IfOk result (λ list. list ≡ lost_of mark ids.now.given ids.now.lost.items) }
{
    let exceptions = lost_up_to(alloc, &ids.lost, mark)?;
    Ok(WriteIdList::new(WriteId(mark.min(ids.given)), exceptions))
}

fn mark_of(note: &JobNote) -> u64
    ensures { result ≡ mark_by note.now.watermark }
{
    match note.watermark {
        Some(mark) => mark,
        None => 0,
    }
}

/// The write ids of a table at the end of the book.
fn ids_now(alloc: Global, book: &Book, table: TableId) -> Result<PastIds, NoMemory>
    ensures given { IfOk result (λ ids. ids.given
        ≡ (list_at book.now.entries (length book.now.entries) table.0).high.0) }
    ensures lost { IfOk result (λ ids. ids.lost.items
        ≡ map write_of (list_at book.now.entries (length book.now.entries) table.0).exceptions) }
{
    ids_at(alloc, book, book.entries().len(), table)
}

/// The list of a job's table at the end of the book, up to its watermark.
fn job_list<D: Shelf>(
    alloc: Global,
    house: &House<D>,
    note: &JobNote,
) -> Result<WriteIdList, NoMemory>
    requires whole { IsWhole D.told house.now }
    requires noted { IsNotedIn (state_of (entries_of house.now)) note.now }
    ensures list { IfOk result (λ list. IsListOf (entries_of house.now) note.now list) }
{
    let ids = ids_now(alloc, house.book(), TableId(note.table))?;
    cut_list(alloc, &ids, mark_of(note))
}

/// Those of these places that are in a partition.
fn places_in(alloc: Global, partition: &Text, places: Vec<Place>) -> Result<Vec<Place>, NoMemory>
    ensures { IfOk result (λ kept. kept.items ≡ filter (is_part partition.now) places.items) }
{
    let mut kept = Vec::new(alloc);
    for place in places {
        if place.partition == *partition {
            kept.push(place)?;
        }
    }
    Ok(kept)
}

/// The files of a partition that are taken under a list, of those at these places.
fn take_in(
    alloc: Global,
    partition: &Text,
    list: WriteIdList,
    places: Vec<Place>,
) -> Result<Listing, NoMemory>
    ensures list { IfOk result (λ listing. listing.list ≡ list) }
    ensures files { IfOk result (λ listing. AreTakenOf (filter (is_part partition.now) places.items)
        listing.list listing.inserts.items listing.deletes.items) }
{
    let kept = places_in(alloc, partition, places)?;
    take_of(alloc, list, kept)
}

/// What a job of this partition that is noted so reads, of these places of its table.
fn listing_in<D: Shelf>(
    alloc: Global,
    house: &House<D>,
    note: &JobNote,
    partition: &Text,
    places: Vec<Place>,
) -> Result<Listing, NoMemory>
    requires whole { IsWhole D.told house.now }
    requires noted { IsNotedIn (state_of (entries_of house.now)) note.now }
    ensures list { IfOk result (λ listing. IsListOf (entries_of house.now) note.now listing.list) }
    ensures files { IfOk result (λ listing. AreTakenOf (filter (is_part partition.now) places.items)
        listing.list listing.inserts.items listing.deletes.items) }
{
    let list = job_list(alloc, house, note)?;
    take_in(alloc, partition, list, places)
}

/// What a job that is noted so reads, of these places of its table.
fn listing_of<D: Shelf>(
    alloc: Global,
    house: &House<D>,
    note: &JobNote,
    places: Vec<Place>,
) -> Result<Option<Listing>, NoMemory>
    requires whole { IsWhole D.told house.now }
    requires noted { IsNotedIn (state_of (entries_of house.now)) note.now }
    ensures listing { IfOk result (λ listing. IsListingOf (entries_of house.now) note.now places.items listing) }
{
    match asked_at(house.book(), note.asked) {
        Some(partition) => {
            let listing = listing_in(alloc, house, note, partition, places)?;
            Ok(Some(listing))
        }
        None => {
            let_go(places);
            Ok(None)
        }
    }
}

/// What it reads, where its Asked stands.
fn read_places<D: Shelf>(
    alloc: Global,
    house: &House<D>,
    note: &JobNote,
    places: Vec<Place>,
) -> Result<Listing, NoMemory>
    requires whole { IsWhole D.told house.now }
    requires noted { IsNotedIn (state_of (entries_of house.now)) note.now }
    ensures listing { IfOk result (λ listing.
        IsListingOf (entries_of house.now) note.now places.items (Some listing)) }
{
    match listing_of(alloc, house, note, places)? {
        Some(listing) => Ok(listing),
        None => unreachable!(),
    }
}

fn list_read(listing: Result<Listing, NoMemory>) -> Result<Listing, JobFault>
    ensures { result ≡ list_read listing }
{
    match listing {
        Ok(listing) => Ok(listing),
        Err(NoMemory) => Err(JobFault::House(HouseFault::NoMemory)),
    }
}

/// Lists the table of a job that is noted so.
fn list_noted<D: Shelf>(
    alloc: Global,
    house: &mut House<D>,
    job: JobId,
    note: JobNote,
) -> Result<Listing, JobFault>
    requires whole { IsWhole D.told house.old }
    requires noted { IsNotedIn (state_of (entries_of house.old)) note }
    ensures step { JobStep D.told D.faults (job_call (Read (Some (reader.Job job))) result)
        house.old house.new result }
    ensures hard { HardStep (D.hard house.old.shelf) (D.hard house.new.shelf)
        house.old.trail.closed house.new.trail.closed }
    ensures list { IfOk result (λ listing. IsListOf (entries_of house.old) note listing.list) }
    ensures listing { IfOk result (λ listing. Tells (D.told house.old.shelf)
        (λ s. IsListingOf (entries_of house.old) note (places_of (record { 0 = note.table }) s.tree) (Some listing))) }
    ensures failed { IfErr result IsHouse }
{
    match house.places_for(alloc, Some(Reader::Job(job)), TableId(note.table)) {
        Ok(places) => list_read(read_places(alloc, house, &note, places)),
        Err(why) => Err(JobFault::House(why)),
    }
}

fn note_of(book: &Book, job: JobId) -> Option<JobNote>
    ensures { result ≡ option_map brief_job (numbered (state_of book.now.entries).jobs job.0) }
{
    numbered(book.jobs(), job.0).copied()
}

/// What is kept of a job that is there.
fn noted(book: &Book, job: JobId) -> JobNote
    requires { IsSome (option_map brief_job (numbered (state_of book.now.entries).jobs job.0)) }
    ensures { Some result ≡ option_map brief_job (numbered (state_of book.now.entries).jobs job.0) }
{
    match note_of(book, job) {
        Some(note) => note,
        None => unreachable!(),
    }
}

/// Lists the table of a job, which is live.
fn list_live<D: Shelf>(alloc: Global, house: &mut House<D>, job: JobId) -> Result<Listing, JobFault>
    requires whole { IsWhole D.told house.old }
    requires works { WorksAt (state_of (entries_of house.old)) job.0 }
    ensures step { JobStep D.told D.faults (job_call (Read (Some (reader.Job job))) result)
        house.old house.new result }
    ensures hard { HardStep (D.hard house.old.shelf) (D.hard house.new.shelf)
        house.old.trail.closed house.new.trail.closed }
    ensures list { IfOk result (λ listing. (j : Job)
        → numbered (state_of (entries_of house.old)).jobs job.0 ≡ Some j
        → listing.list ≡ job_list (entries_of house.old) j) }
    ensures files { IfOk result (λ listing. (j : Job)
        → numbered (state_of (entries_of house.old)).jobs job.0 ≡ Some j
        → Tells (D.told house.old.shelf) (λ s. AreTakenFor j listing s.tree)) }
    ensures failed { IfErr result IsHouse }
{
    let note = noted(house.book(), job);
    list_noted(alloc, house, job, note)
}

/// The files of the partition of a job at work that it takes under the list of its table up to its watermark, and this list. A call
/// that failed is marked as this job's.
///
/// # Errors
/// `Gone` where the job's table isn't live; the house is as it was. `House` where the store failed or memory lacked.
pub fn list_job<D: Shelf>(
    alloc: Global,
    house: &mut House<D>,
    job: JobId,
) -> Result<Listing, JobFault>
    requires whole { IsWhole D.told house.old }
    requires works { WorksAt (state_of (entries_of house.old)) job.0 }
    ensures step { JobStep D.told D.faults (job_call (Read (Some (reader.Job job))) result)
        house.old house.new result }
    ensures hard { HardStep (D.hard house.old.shelf) (D.hard house.new.shelf)
        house.old.trail.closed house.new.trail.closed }
    ensures list { IfOk result (λ listing. (j : Job)
        → numbered (state_of (entries_of house.old)).jobs job.0 ≡ Some j
        → listing.list ≡ job_list (entries_of house.old) j) }
    ensures files { IfOk result (λ listing. (j : Job)
        → numbered (state_of (entries_of house.old)).jobs job.0 ≡ Some j
        → Tells (D.told house.old.shelf) (λ s. AreTakenFor j listing s.tree)) }
    ensures gone { IsErrOf result fault.Gone ↔ HasGoneJob (state_of (entries_of house.old)) job.0 }
    ensures others { IfErr result IsGoneOrHouse }
{
    if is_job_live(house, job) {
        list_live(alloc, house, job)
    } else {
        Err(JobFault::Gone)
    }
}

/// The bytes of the file at a place, for a job of a live table.
fn get_live<D: Shelf>(
    alloc: Global,
    house: &mut House<D>,
    job: JobId,
    place: &Place,
) -> Result<Vec<u8>, JobFault>
    requires whole { IsWhole D.told house.old }
    ensures step { JobStep D.told D.faults (job_call (Read (Some (reader.Job job))) result)
        house.old house.new result }
    ensures hard { HardStep (D.hard house.old.shelf) (D.hard house.new.shelf)
        house.old.trail.closed house.new.trail.closed }
    ensures bytes { IfOk result (λ bytes. Tells (D.told house.old.shelf)
        (λ s. tree.get s.tree place.now ≡ Some bytes.items)) }
    ensures none { IsErrOf result fault.NotFound
        → Tells (D.told house.old.shelf) (λ s. tree.get s.tree place.now ≡ None) }
    ensures others { IfErr result FindsOrHouse }
{
    match house.bytes_for(alloc, Some(Reader::Job(job)), place) {
        Ok(Some(bytes)) => Ok(bytes),
        Ok(None) => Err(JobFault::NotFound),
        Err(why) => Err(JobFault::House(why)),
    }
}

/// The bytes of the file at a place, for a job at work. Where the house is told and the book makes a file there that nobody's removal may
/// have taken, they are those of its records, and it isn't missed. A call that failed is marked as this job's.
///
/// # Errors
/// `Gone` where the job's table isn't live; the house is as it was. `NotFound` where no file stands there. `House` where the store failed
/// or memory lacked.
pub fn get_for_job<D: Shelf>(
    alloc: Global,
    house: &mut House<D>,
    job: JobId,
    place: &Place,
) -> Result<Vec<u8>, JobFault>
    requires whole { IsWhole D.told house.old }
    requires works { WorksAt (state_of (entries_of house.old)) job.0 }
    ensures step { JobStep D.told D.faults (job_call (Read (Some (reader.Job job))) result)
        house.old house.new result }
    ensures hard { HardStep (D.hard house.old.shelf) (D.hard house.new.shelf)
        house.old.trail.closed house.new.trail.closed }
    ensures bytes { IfOk result (λ bytes. Tells (D.told house.old.shelf)
        (λ s. tree.get s.tree place.now ≡ Some bytes.items)) }
    ensures none { IsErrOf result fault.NotFound
        → Tells (D.told house.old.shelf) (λ s. tree.get s.tree place.now ≡ None) }
    ensures made { (deletes : Bool) (recs : List Rec) → IsToldHouse D.told house.old
        → IsStandingAt (state_of (entries_of house.old)) place.now deletes recs
        → IfOk result (λ bytes. IsEncodingOf deletes place.now.bucket recs bytes.items) }
    ensures found { (deletes : Bool) (recs : List Rec) → IsToldHouse D.told house.old
        → IsStandingAt (state_of (entries_of house.old)) place.now deletes recs
        → IsErrOf result fault.NotFound → ⊥ }
    ensures gone { IsErrOf result fault.Gone ↔ HasGoneJob (state_of (entries_of house.old)) job.0 }
    ensures others { IfErr result GetsOrHouse }
{
    if is_job_live(house, job) {
        get_live(alloc, house, job, place)
    } else {
        Err(JobFault::Gone)
    }
}
