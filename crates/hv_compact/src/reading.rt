//! The files of a job, read one by one, each by an act.

ghost use Rattle.std.specs.Prelude.{◌≡◌, ◌++◌, ◌∷◌, [], None, true, List, map, IfOk, IfErr, OnOk};
ghost use Rattle.std.specs.Global.{Vec};
ghost use Rattle.hv_rowfile.specs.declared.record.Rec.{Rec};
ghost use Rattle.hv_rowfile.specs.Layout.{IsFile};
ghost use Rattle.hv_law_made.specs.Standing.{IsEncodingOf};
ghost use Rattle.hv_choosing.specs.declared.listing.DirFile.{DirFile};
ghost use Rattle.hv_actor.specs.Acting.{among, known};
ghost use Rattle.hv_job_acts.specs.hv_acts.specs.Told.{trail_in};
ghost use Rattle.hv_job_acts.specs.hv_acts.specs.Going.{IsOpenHouse};
ghost use Rattle.hv_job_acts.specs.hv_acts.specs.hv_telling.specs.Telling.{IsToldHouse};
ghost use Rattle.hv_compact.specs.Compacting.{Works};
ghost use Rattle.hv_compact.specs.Gathering.{is_base, takes, is_taken, taken_in, StandsWhile};
ghost use Rattle.hv_compact.specs.Reading.{lacking, IsSpoilt, AreFilesOf, ReadsOne, ReadsEach};
ghost use Rattle.hv_table_rows.specs.Faults.{IsShort};
ghost use Rattle.hv_table_rows.specs.Damage.{told_place};
ghost use Rattle.hv_job_acts.specs.Doing.{IsMadeOf};

use crate::fault::Stop;
use crate::stopping::act_stop;
use crate::task::Task;
use hv_actor::Actor;
use hv_base::{Duplicate, NoMemory};
use hv_choosing::{Dir, DirFile};
use hv_history::{FilePlace, JobCause, JobKind};
use hv_job_acts::GetJobFile;
use hv_job_acts::hv_acts::ToldHouse;
use hv_rowfile::{FileFault, Rec, decode};
use hv_shelf::{Place, Shelf};
use hv_table_rows::first_amiss;
use std::alloc::Global;

/// The most bytes of a place's names that an entry takes.
const MOST_BYTES: usize = 1000;

/// Whether the names of a place are short enough for an entry.
fn is_short(place: &Place) -> bool
    ensures { result ≡ true → IsShort place.now.partition place.now.dir }
{
    let partition = place.partition.len();
    partition <= MOST_BYTES && place.dir.len() <= MOST_BYTES - partition
}

fn place_in(alloc: Global, place: &Place, at: u64) -> Result<FilePlace, NoMemory>
    ensures { IfOk result (λ found. found ≡ told_place place.now at) }
{
    Ok(FilePlace {
        table: place.table,
        partition: place.partition.duplicate(alloc)?,
        dir: place.dir.duplicate(alloc)?,
        bucket: place.bucket,
        at,
    })
}

/// The job is given up, for the file at this place, at this offset. A place whose names are too
/// long for an entry counts as want of memory: no
/// legal book has a file there.
fn spoilt(alloc: Global, place: &Place, at: u64) -> Stop
    ensures spoilt { IsSpoilt place.now result }
{
    if !is_short(place) {
        return Stop::GiveUp(JobCause::Memory);
    }
    match place_in(alloc, place, at) {
        Ok(place) => Stop::GiveUp(JobCause::Damaged { place }),
        Err(NoMemory) => Stop::GiveUp(JobCause::Memory),
    }
}

/// Why bytes aren't a file.
fn undecoded(alloc: Global, place: &Place, fault: FileFault) -> Stop
    ensures spoilt { IsSpoilt place.now result }
{
    match fault {
        FileFault::Damaged { at } => spoilt(alloc, place, at),
        FileFault::NoMemory => Stop::GiveUp(JobCause::Memory),
    }
}

/// The records of the file at this place, where nothing was amiss.
fn unamiss(
    alloc: Global,
    place: &Place,
    amiss: Option<u64>,
    recs: Vec<Rec>,
) -> Result<Vec<Rec>, Stop>
    ensures none { IfOk result (λ found. amiss ≡ None) }
    ensures same { IfOk result (λ found. found.items ≡ recs.items) }
    ensures spoilt { IfErr result (IsSpoilt place.now) }
{
    match amiss {
        Some(at) => Err(spoilt(alloc, place, at)),
        None => Ok(recs),
    }
}

/// These records of a file, where it is one of the kind, the bucket and the write ids that are meant.
fn meant(
    alloc: Global,
    deletes: bool,
    file: &DirFile,
    kind: bool,
    other: u32,
    recs: Vec<Rec>,
) -> Result<Vec<Rec>, Stop>
    requires file { IsFile kind other recs.items }
    ensures file { IfOk result (λ found. IsFile deletes file.now.place.bucket found.items) }
    ensures same { IfOk result (λ found. found.items ≡ recs.items) }
    ensures spoilt { IfErr result (IsSpoilt file.now.place) }
{
    let place = &file.place;
    let span = file.dir.span();
    match first_amiss(alloc, deletes, place.bucket, span, kind, other, &recs) {
        Ok(amiss) => unamiss(alloc, place, amiss, recs),
        Err(NoMemory) => Err(Stop::GiveUp(JobCause::Memory)),
    }
}

/// The records of the file that these bytes are, where it is one of the kind, the bucket and the
/// write ids that are meant.
fn records_of(alloc: Global, deletes: bool, file: &DirFile, bytes: &[u8]) -> Result<Vec<Rec>, Stop>
    ensures file { IfOk result (λ recs. IsFile deletes file.now.place.bucket recs.items) }
    ensures made { (recs : List Rec) → IsEncodingOf deletes file.now.place.bucket recs bytes.now
        → IfOk result (λ found. found.items ≡ recs) }
    ensures spoilt { IfErr result (IsSpoilt file.now.place) }
{
    match decode(alloc, bytes) {
        Ok((kind, other, recs)) => meant(alloc, deletes, file, kind, other, recs),
        Err(fault) => Err(undecoded(alloc, &file.place, fault)),
    }
}

/// The records of a file that was got, where one stands.
fn records_in(
    alloc: Global,
    deletes: bool,
    file: &DirFile,
    found: Option<Vec<u8>>,
) -> Result<Vec<Rec>, Stop>
    ensures file { IfOk result (λ recs. IsFile deletes file.now.place.bucket recs.items) }
    ensures made { (recs : List Rec) → IsMadeOf deletes recs file.now.place found
        → IfOk result (λ read. read.items ≡ recs) }
    ensures spoilt { IfErr result (IsSpoilt file.now.place) }
{
    match found {
        Some(bytes) => records_of(alloc, deletes, file, &bytes),
        None => Err(spoilt(alloc, &file.place, u64::MAX)),
    }
}

/// The records of a file of the job.
fn read_file<D: Shelf + Drop, W: Actor<D, ToldHouse<D>>>(
    alloc: Global,
    actor: &mut W,
    task: Task,
    deletes: bool,
    file: &DirFile,
) -> Result<Vec<Rec>, Stop>
    requires keeps { W.keeps actor.old }
    requires running { IsOpenHouse (W.house actor.old) }
    ensures keeps { W.keeps actor.new }
    ensures works { Works (among D.told D.faults W.between W.meanwhile) task.job
        (known (W.own actor.old) (W.house actor.old)) (known (W.own actor.new) (W.house actor.new)) result }
    ensures file { IfOk result (λ recs. IsFile deletes file.now.place.bucket recs.items) }
    ensures made { (recs : List Rec) → IsToldHouse D.told (W.house actor.old).house
        → StandsWhile (trail_in (W.house actor.old)) task.job file.now.place deletes recs
        → IfOk result (λ read. read.items ≡ recs) }
{
    match actor.hold(
        alloc,
        GetJobFile {
            job: task.job,
            place: &file.place,
        },
    ) {
        Ok(found) => records_in(alloc, deletes, file, found),
        Err(why) => Err(act_stop(false, why)),
    }
}

fn is_base(dir: Dir) -> bool
    ensures { result ≡ is_base dir }
{
    match dir {
        Dir::Base { .. } => true,
        Dir::Own { .. } => false,
        Dir::Wide { .. } => false,
    }
}

/// Whether a job of this kind reads files of the directory: a minor one takes no base.
fn takes(kind: JobKind, dir: Dir) -> bool
    ensures { result ≡ takes kind dir }
{
    match kind {
        JobKind::Major => true,
        JobKind::Minor => !is_base(dir),
    }
}

fn is_taken(kind: JobKind, bucket: u32, file: &DirFile) -> bool
    ensures { result ≡ is_taken kind bucket file.now }
{
    file.place.bucket == bucket && takes(kind, file.dir)
}

fn keep(read: &mut Vec<Vec<Rec>>, recs: Vec<Rec>) -> Result<(), Stop>
    ensures kept { OnOk result (read.new.items ≡ read.old.items ++ recs ∷ []) }
    ensures memory { IfErr result (λ why. why ≡ lacking) }
{
    match read.push(recs) {
        Ok(()) => Ok(()),
        Err(_) => Err(Stop::GiveUp(JobCause::Memory)),
    }
}

/// Reads a file of the job, and keeps its records behind the others.
fn read_next<D: Shelf + Drop, W: Actor<D, ToldHouse<D>>>(
    alloc: Global,
    actor: &mut W,
    task: Task,
    deletes: bool,
    file: &DirFile,
    read: &mut Vec<Vec<Rec>>,
) -> Result<(), Stop>
    requires keeps { W.keeps actor.old }
    requires running { IsOpenHouse (W.house actor.old) }
    ensures keeps { W.keeps actor.new }
    ensures works { Works (among D.told D.faults W.between W.meanwhile) task.job
        (known (W.own actor.old) (W.house actor.old)) (known (W.own actor.new) (W.house actor.new)) result }
    ensures read { OnOk result (ReadsOne deletes file.now.place.bucket read.old.items
        read.new.items) }
    ensures made { (recs : List Rec) → IsToldHouse D.told (W.house actor.old).house
        → StandsWhile (trail_in (W.house actor.old)) task.job file.now.place deletes recs
        → OnOk result (map (λ (one : Vec Rec). one.items) read.new.items
        ≡ map (λ (one : Vec Rec). one.items) read.old.items ++ recs ∷ []) }
{
    match read_file(alloc, actor, task, deletes, file) {
        Ok(recs) => keep(read, recs),
        Err(why) => Err(why),
    }
}

/// Reads a file that was listed for the job, where it takes it in the bucket, and keeps its records behind the others.
fn read_taken<D: Shelf + Drop, W: Actor<D, ToldHouse<D>>>(
    alloc: Global,
    actor: &mut W,
    task: Task,
    deletes: bool,
    bucket: u32,
    file: &DirFile,
    read: &mut Vec<Vec<Rec>>,
) -> Result<(), Stop>
    requires keeps { W.keeps actor.old }
    requires running { IsOpenHouse (W.house actor.old) }
    ensures keeps { W.keeps actor.new }
    ensures works { Works (among D.told D.faults W.between W.meanwhile) task.job
        (known (W.own actor.old) (W.house actor.old)) (known (W.own actor.new) (W.house actor.new)) result }
    ensures files { AreFilesOf deletes bucket (map (λ (one : Vec Rec). one.items) read.old.items)
        → OnOk result (AreFilesOf deletes bucket (map (λ (one : Vec Rec). one.items) read.new.items)) }
    ensures made { (recs_of : DirFile → List Rec) → IsToldHouse D.told (W.house actor.old).house
        → StandsWhile (trail_in (W.house actor.old)) task.job file.now.place deletes (recs_of file.now)
        → OnOk result (map (λ (one : Vec Rec). one.items) read.new.items
        ≡ map (λ (one : Vec Rec). one.items) read.old.items
        ++ map recs_of (taken_in task.kind bucket (file.now ∷ []))) }
{
    if is_taken(task.kind, bucket, file) {
        read_next(alloc, actor, task, deletes, file, read)
    } else {
        Ok(())
    }
}

/// The records of the files of a kind that the job takes in a bucket, file by file.
pub(crate) fn read_bucket<D: Shelf + Drop, W: Actor<D, ToldHouse<D>>>(
    alloc: Global,
    actor: &mut W,
    task: Task,
    deletes: bool,
    bucket: u32,
    files: &[DirFile],
) -> Result<Vec<Vec<Rec>>, Stop>
    requires keeps { W.keeps actor.old }
    requires running { IsOpenHouse (W.house actor.old) }
    ensures keeps { W.keeps actor.new }
    ensures works { Works (among D.told D.faults W.between W.meanwhile) task.job
        (known (W.own actor.old) (W.house actor.old)) (known (W.own actor.new) (W.house actor.new)) result }
    ensures files { IfOk result (λ read. AreFilesOf deletes bucket (map (λ one. one.items) read.items)) }
    ensures made { (recs_of : DirFile → List Rec) → IsToldHouse D.told (W.house actor.old).house
        → ReadsEach (trail_in (W.house actor.old)) task.job deletes recs_of files.now
        → IfOk result (λ read. map (λ one. one.items) read.items ≡ map recs_of (taken_in task.kind bucket files.now)) }
{
    let mut read = Vec::new(alloc);
    for file in files {
        if let Err(why) = read_taken(alloc, actor, task, deletes, bucket, file, &mut read) {
            return Err(why);
        }
    }
    Ok(read)
}
