//! What a job writes, bucket by bucket: one bucket's records are in memory at a time.

ghost use Rattle.std.specs.Prelude.{◌≡◌, ◌≤◌, ◌^◌, ◌++◌, ◌∷◌, [], None, true, false, List, map, IfOk, IfErr, OnOk};
ghost use Rattle.hv_rowfile.specs.declared.record.Rec.{Rec};
ghost use Rattle.hv_rowfile.specs.Layout.{CanWrite, RisesFrom};
ghost use Rattle.hv_history.specs.declared.entry.JobKind.TheVariants as kind;
ghost use Rattle.hv_actor.specs.Acting.{among, known};
ghost use Rattle.hv_choosing.specs.declared.listing.DirFile.{DirFile};
ghost use Rattle.hv_job_acts.specs.hv_acts.specs.Told.{trail_in};
ghost use Rattle.hv_job_acts.specs.hv_acts.specs.Going.{IsOpenHouse};
ghost use Rattle.hv_job_acts.specs.hv_acts.specs.hv_telling.specs.Telling.{IsToldHouse};
ghost use Rattle.hv_compact.specs.Compacting.{Works};
ghost use Rattle.hv_compact.specs.Gathering.{buckets_of, larger, inserted, files_in, taken_in, base_of, major_recs, AreDue, IsDue, ListsJob};
ghost use Rattle.hv_compact.specs.Writing.{gathered_of, IsStagedIn, HasMinorStaged, HasKindStaged, HasMajorStaged, HasBaseStaged, HasWrittenBase, HasStagedAll, IfSome};
ghost use Rattle.hv_compact.specs.Reading.{lacking, ReadsEach};
ghost use Rattle.std.specs.Global.{Vec};
ghost use Rattle.hv_merge.specs.Gathering.{gathered};
ghost use Rattle.hv_merge.specs.Merging.{merged};
ghost use Rattle.std.specs.List.{AllByRecursion};

use crate::fault::Stop;
use crate::reading::read_bucket;
use crate::stopping::act_stop;
use crate::task::Task;
use hv_actor::Actor;
use hv_base::{NoMemory, WriteId};
use hv_choosing::DirFile;
use hv_dirs::DirName;
use hv_history::{JobCause, JobKind};
use hv_job_acts::StagePut;
use hv_job_acts::hv_acts::ToldHouse;
use hv_job_acts::hv_acts::hv_telling::hv_house::Listing;
use hv_merge::{Shown, gather, merge};
use hv_rowfile::{Rec, encode};
use hv_shelf::Shelf;
use std::alloc::Global;

fn larger(a: u64, b: u64) -> u64
    ensures { result ≡ larger a b }
{
    if a < b { b } else { a }
}

/// The first bucket above all of these files.
fn buckets_of(files: &[DirFile]) -> u64
    ensures count { result ≡ buckets_of files.now }
    ensures most { result ≤ 2 ^ 32 }
{
    let mut count = 0;
    for file in files {
        count = larger(file.place.bucket as u64 + 1, count);
    }
    count
}

/// Stages these bytes as the file of a bucket.
fn stage<D: Shelf + Drop, W: Actor<D, ToldHouse<D>>>(
    alloc: Global,
    actor: &mut W,
    task: Task,
    name: &DirName,
    bucket: u32,
    bytes: &[u8],
) -> Result<(), Stop>
    requires keeps { W.keeps actor.old }
    requires running { IsOpenHouse (W.house actor.old) }
    requires truly { IsToldHouse D.told (W.house actor.old).house
        → IsDue (trail_in (W.house actor.old)) task.job name.now bucket bytes.now }
    ensures keeps { W.keeps actor.new }
    ensures works { Works (among D.told D.faults W.between W.meanwhile) task.job
        (known (W.own actor.old) (W.house actor.old)) (known (W.own actor.new) (W.house actor.new)) result }
    ensures staged { IfOk result (λ _. IsStagedIn (trail_in (W.house actor.new)) task.job name.now bucket) }
{
    match actor.hold(
        alloc,
        StagePut {
            job: task.job,
            name,
            bucket,
            bytes,
        },
    ) {
        Ok(_place) => Ok(()),
        Err(why) => Err(act_stop(true, why)),
    }
}

/// Stages these records as the file of a bucket.
fn stage_recs<D: Shelf + Drop, W: Actor<D, ToldHouse<D>>>(
    alloc: Global,
    actor: &mut W,
    task: Task,
    name: &DirName,
    deletes: bool,
    bucket: u32,
    recs: &[Rec],
) -> Result<(), Stop>
    requires keeps { W.keeps actor.old }
    requires running { IsOpenHouse (W.house actor.old) }
    requires writes { CanWrite deletes bucket recs.now }
    requires truly { IsToldHouse D.told (W.house actor.old).house
        → AreDue (trail_in (W.house actor.old)) task.job name.now deletes bucket recs.now }
    ensures keeps { W.keeps actor.new }
    ensures works { Works (among D.told D.faults W.between W.meanwhile) task.job
        (known (W.own actor.old) (W.house actor.old)) (known (W.own actor.new) (W.house actor.new)) result }
    ensures staged { IfOk result (λ _. IsStagedIn (trail_in (W.house actor.new)) task.job name.now bucket) }
{
    match encode(alloc, deletes, bucket, recs) {
        Ok(bytes) => stage(alloc, actor, task, name, bucket, &bytes),
        Err(NoMemory) => Err(Stop::GiveUp(JobCause::Memory)),
    }
}

/// The records of the job's range in these files.
fn gather_read(alloc: Global, task: Task, read: Vec<Vec<Rec>>) -> Result<Vec<Rec>, Stop>
    requires rises { AllByRecursion (RisesFrom None) (map (λ (file : Vec Rec). file.items) read.items) }
    ensures gathered { IfOk result (λ recs. recs.items
        ≡ gathered task.low task.high (map (λ (file : Vec Rec). file.items) read.items)) }
    ensures rising { IfOk result (λ recs. RisesFrom None recs.items) }
    ensures memory { IfErr result (λ why. why ≡ lacking) }
{
    match gather(alloc, read, WriteId(task.low), WriteId(task.high)) {
        Ok(recs) => Ok(recs),
        Err(NoMemory) => Err(Stop::GiveUp(JobCause::Memory)),
    }
}

/// The records of the job's range that the files of a kind have in a bucket.
fn gather_bucket<D: Shelf + Drop, W: Actor<D, ToldHouse<D>>>(
    alloc: Global,
    actor: &mut W,
    task: Task,
    deletes: bool,
    bucket: u32,
    files: &[DirFile],
) -> Result<Vec<Rec>, Stop>
    requires keeps { W.keeps actor.old }
    requires running { IsOpenHouse (W.house actor.old) }
    ensures keeps { W.keeps actor.new }
    ensures works { Works (among D.told D.faults W.between W.meanwhile) task.job
        (known (W.own actor.old) (W.house actor.old)) (known (W.own actor.new) (W.house actor.new)) result }
    ensures writes { IfOk result (λ recs. CanWrite deletes bucket recs.items) }
    ensures gathered { (recs_of : DirFile → List Rec) → IsToldHouse D.told (W.house actor.old).house
        → ReadsEach (trail_in (W.house actor.old)) task.job deletes recs_of files.now
        → IfOk result (λ recs. recs.items ≡ gathered_of recs_of task bucket files.now) }
{
    match read_bucket(alloc, actor, task, deletes, bucket, files) {
        Ok(read) => gather_read(alloc, task, read),
        Err(why) => Err(why),
    }
}

/// Stages these records, where there are some.
fn stage_some<D: Shelf + Drop, W: Actor<D, ToldHouse<D>>>(
    alloc: Global,
    actor: &mut W,
    task: Task,
    name: &DirName,
    deletes: bool,
    bucket: u32,
    recs: &[Rec],
) -> Result<(), Stop>
    requires keeps { W.keeps actor.old }
    requires running { IsOpenHouse (W.house actor.old) }
    requires writes { CanWrite deletes bucket recs.now }
    requires truly { IsToldHouse D.told (W.house actor.old).house
        → IfSome recs.now (AreDue (trail_in (W.house actor.old)) task.job name.now deletes bucket recs.now) }
    ensures keeps { W.keeps actor.new }
    ensures works { Works (among D.told D.faults W.between W.meanwhile) task.job
        (known (W.own actor.old) (W.house actor.old)) (known (W.own actor.new) (W.house actor.new)) result }
    ensures staged { IfOk result (λ _. IfSome recs.now
        (IsStagedIn (trail_in (W.house actor.new)) task.job name.now bucket)) }
{
    if recs.is_empty() {
        Ok(())
    } else {
        stage_recs(alloc, actor, task, name, deletes, bucket, recs)
    }
}

/// The files of a kind.
fn files_in(deletes: bool, listing: &Listing) -> &[DirFile]
    ensures { result.now ≡ files_in deletes listing.now }
{
    if deletes {
        &listing.deletes
    } else {
        &listing.inserts
    }
}

/// Writes a bucket of the delta of a kind.
fn write_wide<D: Shelf + Drop, W: Actor<D, ToldHouse<D>>>(
    alloc: Global,
    actor: &mut W,
    task: Task,
    deletes: bool,
    bucket: u32,
    listing: &Listing,
) -> Result<(), Stop>
    requires keeps { W.keeps actor.old }
    requires running { IsOpenHouse (W.house actor.old) }
    requires minor { task.kind ≡ kind.Minor }
    requires listed { IsToldHouse D.told (W.house actor.old).house
        → ListsJob (trail_in (W.house actor.old)) task listing.now }
    ensures keeps { W.keeps actor.new }
    ensures works { Works (among D.told D.faults W.between W.meanwhile) task.job
        (known (W.own actor.old) (W.house actor.old)) (known (W.own actor.new) (W.house actor.new)) result }
    ensures staged { IsToldHouse D.told (W.house actor.old).house
        → (lists : ListsJob (trail_in (W.house actor.old)) task
        listing.now) → IfOk result (λ _. HasMinorStaged (trail_in (W.house actor.new)) task lists.recs_of deletes bucket
        listing.now) }
{
    let files = files_in(deletes, listing);
    let name = DirName::Wide {
        deletes,
        low: WriteId(task.low),
        high: WriteId(task.high),
    };
    match gather_bucket(alloc, actor, task, deletes, bucket, files) {
        Ok(recs) => stage_some(alloc, actor, task, &name, deletes, bucket, &recs),
        Err(why) => Err(why),
    }
}

/// Writes the delta of a kind, bucket by bucket.
fn write_kind<D: Shelf + Drop, W: Actor<D, ToldHouse<D>>>(
    alloc: Global,
    actor: &mut W,
    task: Task,
    deletes: bool,
    buckets: u64,
    listing: &Listing,
) -> Result<(), Stop>
    requires keeps { W.keeps actor.old }
    requires running { IsOpenHouse (W.house actor.old) }
    requires minor { task.kind ≡ kind.Minor }
    requires few { buckets ≤ 2 ^ 32 }
    requires listed { IsToldHouse D.told (W.house actor.old).house
        → ListsJob (trail_in (W.house actor.old)) task listing.now }
    ensures keeps { W.keeps actor.new }
    ensures works { Works (among D.told D.faults W.between W.meanwhile) task.job
        (known (W.own actor.old) (W.house actor.old)) (known (W.own actor.new) (W.house actor.new)) result }
    ensures staged { IsToldHouse D.told (W.house actor.old).house
        → (lists : ListsJob (trail_in (W.house actor.old)) task
        listing.now) → IfOk result (λ _. HasKindStaged (trail_in (W.house actor.new)) task
        lists.recs_of deletes buckets listing.now) }
{
    for bucket in 0..buckets {
        match write_wide(alloc, actor, task, deletes, bucket as u32, listing) {
            Ok(()) => {}
            Err(why) => return Err(why),
        }
    }
    Ok(())
}

fn push_inserted(recs: &mut Vec<Rec>, shown: Shown) -> Result<(), NoMemory>
    ensures { OnOk result (recs.new.items ≡ recs.old.items ++ inserted shown ∷ []) }
{
    recs.push(Rec::Insert {
        id: shown.id,
        row: shown.row,
    })?;
    Ok(())
}

/// Rows as records.
fn insert_all(alloc: Global, rows: Vec<Shown>) -> Result<Vec<Rec>, NoMemory>
    ensures { IfOk result (λ recs. recs.items ≡ map inserted rows.items) }
{
    let mut recs = Vec::with_capacity(alloc, rows.len())?;
    for shown in rows {
        push_inserted(&mut recs, shown)?;
    }
    Ok(recs)
}

/// The rows that are left of these, as records.
fn left_of(
    alloc: Global,
    inserts: Vec<Vec<Rec>>,
    deletes: &[Vec<Rec>],
    listing: &Listing,
) -> Result<Vec<Rec>, NoMemory>
    requires rises { AllByRecursion (RisesFrom None) (map (λ file. file.items) inserts.items) }
    ensures { IfOk result (λ recs. recs.items ≡ map inserted (merged listing.now.list
        (map (λ file. file.items) inserts.items) (map (λ file. file.items) deletes.now))) }
{
    let rows = merge(alloc, inserts, deletes, &listing.list)?;
    insert_all(alloc, rows)
}

/// The same, where memory lacks for them.
fn left_read(
    alloc: Global,
    inserts: Vec<Vec<Rec>>,
    deletes: &[Vec<Rec>],
    listing: &Listing,
) -> Result<Vec<Rec>, Stop>
    requires rises { AllByRecursion (RisesFrom None) (map (λ (file : Vec Rec). file.items) inserts.items) }
    ensures left { IfOk result (λ recs. recs.items ≡ map inserted (merged listing.now.list
        (map (λ (file : Vec Rec). file.items) inserts.items) (map (λ (file : Vec Rec). file.items) deletes.now))) }
    ensures memory { IfErr result (λ why. why ≡ lacking) }
{
    match left_of(alloc, inserts, deletes, listing) {
        Ok(recs) => Ok(recs),
        Err(NoMemory) => Err(Stop::GiveUp(JobCause::Memory)),
    }
}

/// The rows of a bucket that are left behind these deletes.
fn merge_read<D: Shelf + Drop, W: Actor<D, ToldHouse<D>>>(
    alloc: Global,
    actor: &mut W,
    task: Task,
    bucket: u32,
    listing: &Listing,
    deletes: &[Vec<Rec>],
) -> Result<Vec<Rec>, Stop>
    requires keeps { W.keeps actor.old }
    requires running { IsOpenHouse (W.house actor.old) }
    ensures keeps { W.keeps actor.new }
    ensures works { Works (among D.told D.faults W.between W.meanwhile) task.job
        (known (W.own actor.old) (W.house actor.old)) (known (W.own actor.new) (W.house actor.new)) result }
    ensures writes { IfOk result (λ recs. CanWrite false bucket recs.items) }
    ensures left { (recs_of : DirFile → List Rec) → IsToldHouse D.told (W.house actor.old).house
        → ReadsEach (trail_in (W.house actor.old)) task.job false recs_of listing.now.inserts.items
        → IfOk result (λ recs. recs.items ≡ map inserted (merged listing.now.list
        (map recs_of (taken_in task.kind bucket listing.now.inserts.items))
        (map (λ (file : Vec Rec). file.items) deletes.now))) }
{
    match read_bucket(alloc, actor, task, false, bucket, &listing.inserts) {
        Ok(inserts) => left_read(alloc, inserts, deletes, listing),
        Err(why) => Err(why),
    }
}

/// The rows that are left in a bucket.
fn merge_bucket<D: Shelf + Drop, W: Actor<D, ToldHouse<D>>>(
    alloc: Global,
    actor: &mut W,
    task: Task,
    bucket: u32,
    listing: &Listing,
) -> Result<Vec<Rec>, Stop>
    requires keeps { W.keeps actor.old }
    requires running { IsOpenHouse (W.house actor.old) }
    requires major { task.kind ≡ kind.Major }
    requires listed { IsToldHouse D.told (W.house actor.old).house
        → ListsJob (trail_in (W.house actor.old)) task listing.now }
    ensures keeps { W.keeps actor.new }
    ensures works { Works (among D.told D.faults W.between W.meanwhile) task.job
        (known (W.own actor.old) (W.house actor.old)) (known (W.own actor.new) (W.house actor.new)) result }
    ensures writes { IfOk result (λ recs. CanWrite false bucket recs.items) }
    ensures left { IsToldHouse D.told (W.house actor.old).house → (lists : ListsJob (trail_in (W.house actor.old)) task
        listing.now) → IfOk result (λ recs. recs.items ≡ major_recs lists.recs_of bucket listing.now) }
{
    match read_bucket(alloc, actor, task, true, bucket, &listing.deletes) {
        Ok(deletes) => merge_read(alloc, actor, task, bucket, listing, &deletes),
        Err(why) => Err(why),
    }
}

/// Stages these rows of a bucket of the base, where there are some; and tells whether there are.
fn stage_left<D: Shelf + Drop, W: Actor<D, ToldHouse<D>>>(
    alloc: Global,
    actor: &mut W,
    task: Task,
    bucket: u32,
    recs: &[Rec],
) -> Result<bool, Stop>
    requires keeps { W.keeps actor.old }
    requires running { IsOpenHouse (W.house actor.old) }
    requires writes { CanWrite false bucket recs.now }
    requires truly { IsToldHouse D.told (W.house actor.old).house
        → IfSome recs.now (AreDue (trail_in (W.house actor.old)) task.job (base_of task) false bucket recs.now) }
    ensures keeps { W.keeps actor.new }
    ensures works { Works (among D.told D.faults W.between W.meanwhile) task.job
        (known (W.own actor.old) (W.house actor.old)) (known (W.own actor.new) (W.house actor.new)) result }
    ensures staged { IfOk result (λ _. IfSome recs.now
        (IsStagedIn (trail_in (W.house actor.new)) task.job (base_of task) bucket)) }
    ensures none { IfOk result (λ some. some ≡ false → recs.now ≡ []) }
    ensures rows { IfOk result (λ some. some ≡ true → recs.now ≡ [] → ⊥) }
{
    let name = DirName::Base {
        high: WriteId(task.high),
    };
    match stage_some(alloc, actor, task, &name, false, bucket, recs) {
        Ok(()) => Ok(!recs.is_empty()),
        Err(why) => Err(why),
    }
}

/// Writes a bucket of the base, where rows are left in it; and tells whether there are.
fn write_base_bucket<D: Shelf + Drop, W: Actor<D, ToldHouse<D>>>(
    alloc: Global,
    actor: &mut W,
    task: Task,
    bucket: u32,
    listing: &Listing,
) -> Result<bool, Stop>
    requires keeps { W.keeps actor.old }
    requires running { IsOpenHouse (W.house actor.old) }
    requires major { task.kind ≡ kind.Major }
    requires listed { IsToldHouse D.told (W.house actor.old).house
        → ListsJob (trail_in (W.house actor.old)) task listing.now }
    ensures keeps { W.keeps actor.new }
    ensures works { Works (among D.told D.faults W.between W.meanwhile) task.job
        (known (W.own actor.old) (W.house actor.old)) (known (W.own actor.new) (W.house actor.new)) result }
    ensures staged { IsToldHouse D.told (W.house actor.old).house
        → (lists : ListsJob (trail_in (W.house actor.old)) task
        listing.now) → IfOk result (λ some. HasMajorStaged (trail_in (W.house actor.new)) task lists.recs_of bucket
        listing.now some) }
{
    match merge_bucket(alloc, actor, task, bucket, listing) {
        Ok(recs) => stage_left(alloc, actor, task, bucket, &recs),
        Err(why) => Err(why),
    }
}

/// Writes the base, bucket by bucket, and tells whether rows are left in any.
fn write_buckets<D: Shelf + Drop, W: Actor<D, ToldHouse<D>>>(
    alloc: Global,
    actor: &mut W,
    task: Task,
    buckets: u64,
    listing: &Listing,
) -> Result<bool, Stop>
    requires keeps { W.keeps actor.old }
    requires running { IsOpenHouse (W.house actor.old) }
    requires major { task.kind ≡ kind.Major }
    requires few { buckets ≤ 2 ^ 32 }
    requires listed { IsToldHouse D.told (W.house actor.old).house
        → ListsJob (trail_in (W.house actor.old)) task listing.now }
    ensures keeps { W.keeps actor.new }
    ensures works { Works (among D.told D.faults W.between W.meanwhile) task.job
        (known (W.own actor.old) (W.house actor.old)) (known (W.own actor.new) (W.house actor.new)) result }
    ensures staged { IsToldHouse D.told (W.house actor.old).house
        → (lists : ListsJob (trail_in (W.house actor.old)) task
        listing.now) → IfOk result (λ some. HasBaseStaged (trail_in (W.house actor.new)) task
        lists.recs_of buckets listing.now some) }
{
    let mut some = false;
    for bucket in 0..buckets {
        match write_base_bucket(alloc, actor, task, bucket as u32, listing) {
            Ok(more) => some |= more,
            Err(why) => return Err(why),
        }
    }
    Ok(some)
}

/// Writes the file of the first bucket of a base without rows.
fn write_bare<D: Shelf + Drop, W: Actor<D, ToldHouse<D>>>(
    alloc: Global,
    actor: &mut W,
    task: Task,
    listing: &Listing,
    some: bool,
) -> Result<(), Stop>
    requires keeps { W.keeps actor.old }
    requires running { IsOpenHouse (W.house actor.old) }
    requires major { task.kind ≡ kind.Major }
    requires listed { IsToldHouse D.told (W.house actor.old).house
        → HasWrittenBase (trail_in (W.house actor.old)) task listing.now some }
    ensures keeps { W.keeps actor.new }
    ensures works { Works (among D.told D.faults W.between W.meanwhile) task.job
        (known (W.own actor.old) (W.house actor.old)) (known (W.own actor.new) (W.house actor.new)) result }
    ensures staged { IsToldHouse D.told (W.house actor.old).house
        → IfOk result (λ _. HasStagedAll (trail_in (W.house actor.new)) task.job) }
{
    if some {
        return Ok(());
    }
    let name = DirName::Base {
        high: WriteId(task.high),
    };
    stage_recs(alloc, actor, task, &name, false, 0, &[])
}

/// Writes the base: the rows that are left, and the file of its first bucket in any case.
fn write_base<D: Shelf + Drop, W: Actor<D, ToldHouse<D>>>(
    alloc: Global,
    actor: &mut W,
    task: Task,
    listing: &Listing,
) -> Result<(), Stop>
    requires keeps { W.keeps actor.old }
    requires running { IsOpenHouse (W.house actor.old) }
    requires major { task.kind ≡ kind.Major }
    requires listed { IsToldHouse D.told (W.house actor.old).house
        → ListsJob (trail_in (W.house actor.old)) task listing.now }
    ensures keeps { W.keeps actor.new }
    ensures works { Works (among D.told D.faults W.between W.meanwhile) task.job
        (known (W.own actor.old) (W.house actor.old)) (known (W.own actor.new) (W.house actor.new)) result }
    ensures staged { IsToldHouse D.told (W.house actor.old).house
        → IfOk result (λ _. HasStagedAll (trail_in (W.house actor.new)) task.job) }
{
    match write_buckets(alloc, actor, task, buckets_of(&listing.inserts), listing) {
        Ok(some) => write_bare(alloc, actor, task, listing, some),
        Err(why) => Err(why),
    }
}

/// Writes the deltas of both kinds.
fn write_wides<D: Shelf + Drop, W: Actor<D, ToldHouse<D>>>(
    alloc: Global,
    actor: &mut W,
    task: Task,
    listing: &Listing,
) -> Result<(), Stop>
    requires keeps { W.keeps actor.old }
    requires running { IsOpenHouse (W.house actor.old) }
    requires minor { task.kind ≡ kind.Minor }
    requires listed { IsToldHouse D.told (W.house actor.old).house
        → ListsJob (trail_in (W.house actor.old)) task listing.now }
    ensures keeps { W.keeps actor.new }
    ensures works { Works (among D.told D.faults W.between W.meanwhile) task.job
        (known (W.own actor.old) (W.house actor.old)) (known (W.own actor.new) (W.house actor.new)) result }
    ensures staged { IsToldHouse D.told (W.house actor.old).house
        → IfOk result (λ _. HasStagedAll (trail_in (W.house actor.new)) task.job) }
{
    let rows = buckets_of(&listing.inserts);
    match write_kind(alloc, actor, task, false, rows, listing) {
        Ok(()) => {
            let gone = buckets_of(&listing.deletes);
            write_kind(alloc, actor, task, true, gone, listing)
        }
        Err(why) => Err(why),
    }
}

/// Writes all that a job at work is to make, of the files that were listed for it.
pub(crate) fn write_all<D: Shelf + Drop, W: Actor<D, ToldHouse<D>>>(
    alloc: Global,
    actor: &mut W,
    task: Task,
    listing: &Listing,
) -> Result<(), Stop>
    requires keeps { W.keeps actor.old }
    requires running { IsOpenHouse (W.house actor.old) }
    requires listed { IsToldHouse D.told (W.house actor.old).house
        → ListsJob (trail_in (W.house actor.old)) task listing.now }
    ensures keeps { W.keeps actor.new }
    ensures works { Works (among D.told D.faults W.between W.meanwhile) task.job
        (known (W.own actor.old) (W.house actor.old)) (known (W.own actor.new) (W.house actor.new)) result }
    ensures staged { IsToldHouse D.told (W.house actor.old).house
        → IfOk result (λ _. HasStagedAll (trail_in (W.house actor.new)) task.job) }
{
    match task.kind {
        JobKind::Minor => write_wides(alloc, actor, task, listing),
        JobKind::Major => write_base(alloc, actor, task, listing),
    }
}
