//! The directories that a job covers and that are left to be taken away, and whether all of them went.

ghost use Rattle.std.specs.Prelude.{◌≡◌, ◌<◌, ◌↔◌, ◌++◌, ◌∷◌, [], IsTrue, true, false, Some, IfOk, OnOk};
ghost use Rattle.std.specs.List.{AllByRecursion};
ghost use Rattle.hv_dirs.specs.Names.{statement_end, IsNumber, IsRange, IsPlain};
ghost use Rattle.hv_history.specs.State.{state_of, Job, numbered};
ghost use Rattle.hv_history.specs.Jobs.{jobs_in};
ghost use Rattle.hv_book.specs.Briefs.{brief_job};
ghost use Rattle.hv_jobs.specs.Covers.{is_cleaned_away};
ghost use Rattle.hv_law_work.specs.Work.{AreGone};
ghost use Rattle.hv_trail.specs.Kept.{trail_of};
ghost use Rattle.hv_acts.specs.hv_telling.specs.hv_house.specs.House.{entries_of};
ghost use Rattle.hv_job_calls.specs.Staging.{IsStageable};
ghost use Rattle.hv_job_acts.specs.Work.{AreCovered};
ghost use Rattle.hv_job_acts.specs.Covering.{dir_named, is_cleaned_note, cleans_note, IsLeft, PutsDir, HasLeft, IsGoneName, SomeStands, AreNamesOf, IsMadeName};

use hv_acts::hv_telling::hv_house::House;
use hv_base::{Duplicate, JobId, NoMemory, TableId, Text};
use hv_book::{Book, JobNote};
use hv_dirs::{DirName, print_name};
use hv_history::numbered;
use hv_shelf::{DirAt, Shelf};
use hv_tallies::{asked_at, both, covered, is_asked_of, may_go};
use std::alloc::Global;

/// The end of the numbers that names can say: of write ids, and of statements.
const WRITE_END: u64 = 10_000_000;

const STATEMENT_END: u32 = 10_000;

fn is_number(number: u64) -> bool
    ensures { IsTrue result ↔ IsNumber number }
{
    1 <= number && number < WRITE_END
}

fn is_range(low: u64, high: u64) -> bool
    ensures { IsTrue result ↔ IsRange low high }
{
    1 <= low && low <= high && high < WRITE_END
}

fn is_statement(write: u64, statement: u32) -> bool
    ensures { IsTrue result ↔ (IsNumber write × (statement < statement_end)) }
{
    is_number(write) && statement < STATEMENT_END
}

/// Whether a directory of this name can stand: none that is staged.
fn is_named(name: &DirName) -> bool
    ensures { IsTrue result ↔ IsPlain name.now }
{
    match name {
        DirName::Base { high } => is_number(high.0),
        DirName::Own {
            write,
            statement,
            ..
        } => is_statement(write.0, *statement),
        DirName::Wide { low, high, .. } => is_range(low.0, high.0),
        DirName::Staged { .. } => false,
    }
}

/// Whether a compaction can make a directory of this name.
fn is_made(name: &DirName) -> bool
    ensures { IsTrue result ↔ IsMadeName name.now }
{
    match name {
        DirName::Base { high } => is_number(high.0),
        DirName::Wide { low, high, .. } => is_range(low.0, high.0),
        DirName::Own { .. } | DirName::Staged { .. } => false,
    }
}

/// Whether a job of this number may stage a directory of this name.
pub(crate) fn can_stage(job: JobId, name: &DirName) -> bool
    ensures { result ≡ true → IsStageable job.0 name.now }
{
    both(is_number(job.0), is_made(name))
}

/// The directory of this name in a partition.
fn dir_named(alloc: Global, table: u64, partition: &Text, name: &DirName) -> Result<DirAt, NoMemory>
    requires named { IsPlain name.now }
    ensures { IfOk result (λ dir. dir ≡ dir_named table partition.now name.now) }
{
    Ok(DirAt {
        table: TableId(table),
        partition: partition.duplicate(alloc)?,
        dir: print_name(alloc, name)?,
    })
}

/// Whether the job that is noted so was cleaned, and is one of that partition.
fn is_cleaned_of(book: &Book, table: u64, partition: &Text, note: &JobNote) -> bool
    ensures { result ≡ is_cleaned_note book.now.entries table partition.now note.now }
{
    both(note.is_cleaned, is_asked_of(book, table, partition, note))
}

/// Whether the job of this number is one of that partition, was cleaned, and covers a directory of this name.
fn cleans(book: &Book, table: u64, partition: &Text, number: u64, name: &DirName) -> bool
    ensures { result ≡ cleans_note book.now.entries table partition.now name.now number }
{
    match numbered(book.jobs(), number) {
        Some(note) => both(
            is_cleaned_of(book, table, partition, note),
            may_go(book, JobId(number), name),
        ),
        None => false,
    }
}

/// Whether a job that was cleaned covers a directory of this name.
fn is_cleaned_away(book: &Book, table: u64, partition: &Text, name: &DirName) -> bool
    ensures { result ≡ is_cleaned_away (jobs_in (state_of book.now.entries) table partition.now) name.now }
{
    for i in 0..book.jobs().len() {
        if cleans(book, table, partition, i as u64 + 1, name) {
            return true;
        }
    }
    false
}

/// Whether a directory of this name is left to be taken away: the job covers it, and none does that was cleaned.
fn is_left(book: &Book, job: JobId, table: u64, partition: &Text, name: &DirName) -> bool
    ensures named { result ≡ true → IsPlain name.now }
    ensures left { (j : Job) → numbered (state_of book.now.entries).jobs job.0 ≡ Some j
        → IsTrue result ↔ IsLeft (state_of book.now.entries) j table partition.now name.now }
{
    let known = both(is_named(name), may_go(book, job, name));
    both(known, !is_cleaned_away(book, table, partition, name))
}

/// Puts the directory of a name behind these.
fn put_left(
    alloc: Global,
    table: u64,
    partition: &Text,
    name: &DirName,
    dirs: &mut Vec<DirAt>,
) -> Result<(), NoMemory>
    requires named { IsPlain name.now }
    ensures { OnOk result (dirs.new.items ≡ dirs.old.items ++ dir_named table partition.now name.now ∷ []) }
{
    let dir = dir_named(alloc, table, partition, name)?;
    dirs.push(dir)?;
    Ok(())
}

/// Puts the directory of a name behind these, where it is left to be taken away.
fn put_dir(
    alloc: Global,
    book: &Book,
    job: JobId,
    table: u64,
    partition: &Text,
    name: &DirName,
    dirs: &mut Vec<DirAt>,
) -> Result<(), NoMemory>
    ensures { OnOk result ((j : Job) → numbered (state_of book.now.entries).jobs job.0 ≡ Some j
        → PutsDir (state_of book.now.entries) j table partition.now name.now dirs.old.items dirs.new.items) }
{
    if is_left(book, job, table, partition, name) {
        put_left(alloc, table, partition, name, dirs)
    } else {
        Ok(())
    }
}

/// The directories of those of these names that are left to be taken away.
fn dirs_left(
    alloc: Global,
    book: &Book,
    job: JobId,
    table: u64,
    partition: &Text,
    names: &[DirName],
) -> Result<Vec<DirAt>, NoMemory>
    ensures { IfOk result (λ dirs. (j : Job) → numbered (state_of book.now.entries).jobs job.0 ≡ Some j
        → HasLeft (state_of book.now.entries) j table partition.now names.now dirs.items) }
{
    let mut dirs = Vec::new(alloc);
    for name in names {
        put_dir(alloc, book, job, table, partition, name, &mut dirs)?;
    }
    Ok(dirs)
}

/// The directories that a job of this partition covers and no job covers that was cleaned.
fn covered_in(
    alloc: Global,
    book: &Book,
    job: JobId,
    table: u64,
    partition: &Text,
) -> Result<Vec<DirAt>, NoMemory>
    ensures { IfOk result (λ dirs. (j : Job) → numbered (state_of book.now.entries).jobs job.0 ≡ Some j
        → j.table ≡ table → j.partition ≡ partition.now
        → AreNamesOf (state_of book.now.entries) j → AreCovered (state_of book.now.entries) j dirs.items) }
{
    let names = covered(alloc, book, job)?;
    dirs_left(alloc, book, job, table, partition, names.as_slice())
}

/// The directories that the job which is noted so covers and no job covers that was cleaned.
fn covered_noted(
    alloc: Global,
    book: &Book,
    job: JobId,
    note: &JobNote,
) -> Result<Vec<DirAt>, NoMemory>
    ensures { IfOk result (λ dirs. (j : Job) → numbered (state_of book.now.entries).jobs job.0 ≡ Some j
        → note.now ≡ brief_job j
        → AreNamesOf (state_of book.now.entries) j → AreCovered (state_of book.now.entries) j dirs.items) }
{
    match asked_at(book, note.asked) {
        Some(partition) => covered_in(alloc, book, job, note.table, partition),
        None => Ok(Vec::new(alloc)),
    }
}

/// The directories that a job covers and no job covers that was cleaned.
pub(crate) fn covered_dirs(alloc: Global, book: &Book, job: JobId) -> Result<Vec<DirAt>, NoMemory>
    ensures { IfOk result (λ dirs. (j : Job) → numbered (state_of book.now.entries).jobs job.0 ≡ Some j
        → AreNamesOf (state_of book.now.entries) j → AreCovered (state_of book.now.entries) j dirs.items) }
{
    match numbered(book.jobs(), job.0) {
        Some(note) => covered_noted(alloc, book, job, note),
        None => Ok(Vec::new(alloc)),
    }
}

/// Whether the directory of this name went, or a job that was cleaned covers it.
fn is_gone<D: Shelf>(
    alloc: Global,
    house: &House<D>,
    table: u64,
    partition: &Text,
    name: &DirName,
) -> Result<bool, NoMemory>
    ensures gone { IfOk result (λ gone. gone ≡ true → IsGoneName (trail_of house.now.trail)
        (state_of (entries_of house.now)) table partition.now name.now) }
    ensures left { IfOk result (λ gone. gone ≡ false → IsPlain name.now → IsGoneName (trail_of house.now.trail)
        (state_of (entries_of house.now)) table partition.now name.now → ⊥) }
{
    if !is_named(name) {
        return Ok(false);
    }
    if is_cleaned_away(house.book(), table, partition, name) {
        return Ok(true);
    }
    let dir = dir_named(alloc, table, partition, name)?;
    Ok(house.has_gone(&dir))
}

/// Whether the directories of all these names went, but for those that a job covers which was cleaned.
fn all_gone<D: Shelf>(
    alloc: Global,
    house: &House<D>,
    table: u64,
    partition: &Text,
    names: &[DirName],
) -> Result<bool, NoMemory>
    ensures gone { IfOk result (λ gone. gone ≡ true → AllByRecursion (IsGoneName (trail_of house.now.trail)
        (state_of (entries_of house.now)) table partition.now) names.now) }
    ensures left { IfOk result (λ gone. gone ≡ false → SomeStands (trail_of house.now.trail)
        (state_of (entries_of house.now)) table partition.now names.now) }
{
    for name in names {
        let gone = is_gone(alloc, house, table, partition, name)?;
        if !gone {
            return Ok(false);
        }
    }
    Ok(true)
}

fn are_gone_in<D: Shelf>(
    alloc: Global,
    house: &House<D>,
    job: JobId,
    table: u64,
    partition: &Text,
) -> Result<bool, NoMemory>
    ensures gone { IfOk result (λ gone. gone ≡ true → (j : Job)
        → numbered (state_of (entries_of house.now)).jobs job.0 ≡ Some j
        → j.table ≡ table → j.partition ≡ partition.now
        → AreGone (trail_of house.now.trail) (state_of (entries_of house.now)) j) }
    ensures left { IfOk result (λ gone. gone ≡ false → (j : Job)
        → numbered (state_of (entries_of house.now)).jobs job.0 ≡ Some j
        → j.table ≡ table → j.partition ≡ partition.now → AreNamesOf (state_of (entries_of house.now)) j
        → AreGone (trail_of house.now.trail) (state_of (entries_of house.now)) j → ⊥) }
{
    let names = covered(alloc, house.book(), job)?;
    all_gone(alloc, house, table, partition, names.as_slice())
}

fn are_gone_noted<D: Shelf>(
    alloc: Global,
    house: &House<D>,
    job: JobId,
    note: &JobNote,
) -> Result<bool, NoMemory>
    ensures gone { IfOk result (λ gone. gone ≡ true → (j : Job)
        → numbered (state_of (entries_of house.now)).jobs job.0 ≡ Some j → note.now ≡ brief_job j
        → AreGone (trail_of house.now.trail) (state_of (entries_of house.now)) j) }
    ensures left { IfOk result (λ gone. gone ≡ false → (j : Job)
        → numbered (state_of (entries_of house.now)).jobs job.0 ≡ Some j → note.now ≡ brief_job j
        → AreNamesOf (state_of (entries_of house.now)) j
        → AreGone (trail_of house.now.trail) (state_of (entries_of house.now)) j → ⊥) }
{
    match asked_at(house.book(), note.asked) {
        Some(partition) => are_gone_in(alloc, house, job, note.table, partition),
        None => Ok(false),
    }
}

/// Whether each directory that a job covers went, or a job that was cleaned covers it.
pub(crate) fn are_gone<D: Shelf>(
    alloc: Global,
    house: &House<D>,
    job: JobId,
) -> Result<bool, NoMemory>
    ensures gone { IfOk result (λ gone. gone ≡ true → (j : Job)
        → numbered (state_of (entries_of house.now)).jobs job.0 ≡ Some j
        → AreGone (trail_of house.now.trail) (state_of (entries_of house.now)) j) }
    ensures left { IfOk result (λ gone. gone ≡ false → (j : Job)
        → numbered (state_of (entries_of house.now)).jobs job.0 ≡ Some j
        → AreNamesOf (state_of (entries_of house.now)) j
        → AreGone (trail_of house.now.trail) (state_of (entries_of house.now)) j → ⊥) }
{
    match numbered(house.book().jobs(), job.0) {
        Some(note) => are_gone_noted(alloc, house, job, note),
        None => Ok(false),
    }
}
