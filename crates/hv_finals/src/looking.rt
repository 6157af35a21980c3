ghost use Rattle.std.specs.Prelude.{◌≡◌, ◌++◌, true, Some, IfOk, OnOk, IsErrOf};
ghost use Rattle.std.specs.List.{list_all};
ghost use Rattle.hv_base.specs.Told.{Tells};
ghost use Rattle.hv_shelf.specs.Disk.{places_of};
ghost use Rattle.hv_history.specs.State.{state_of, Job, numbered};
ghost use Rattle.hv_jobs.specs.Finals.{finals_of};
ghost use Rattle.hv_law_made.specs.Opening.{is_listed, whole_jobs};
ghost use Rattle.hv_finals.specs.Finals.{CanName, works_at, has_place, have_places, number_if, whole_at, CallsCause};

use crate::dirs::final_dirs;
use crate::merging::{Merge, is_at_work, merge_of};
use hv_base::{JobId, NoMemory, TableId};
use hv_book::Book;
use hv_shelf::{DirAt, Place, Shelf, ShelfFault};
use std::alloc::Global;

/// Whether one of these places is in the directory.
fn has_place(places: &[Place], dir: &DirAt) -> bool
    ensures { result ≡ has_place places.now dir.now }
{
    for place in places {
        if dir.has(place) {
            return true;
        }
    }
    false
}

/// Whether each of these directories has one.
fn have_places(places: &[Place], dirs: &[DirAt]) -> bool
    ensures { result ≡ have_places places.now dirs.now }
{
    for dir in dirs {
        if !has_place(places, dir) {
            return false;
        }
    }
    true
}

/// Whether the table has a file in each of these directories. It is listed once.
fn list_dirs<D: Shelf>(
    alloc: Global,
    shelf: &mut D,
    table: TableId,
    dirs: &[DirAt],
) -> Result<bool, ShelfFault>
    ensures listed { IfOk result (λ listed. Tells (D.told shelf.old)
        (λ s. listed ≡ have_places (places_of table s.tree) dirs.now)) }
    ensures same { D.told shelf.new ≡ D.told shelf.old }
    ensures cause { CallsCause (IsErrOf result ShelfFault.Failed)
        (D.faults shelf.old) (D.faults shelf.new) (D.hard shelf.old) (D.hard shelf.new) }
{
    match shelf.list(alloc, table) {
        Ok(places) => Ok(have_places(&places, dirs)),
        Err(fault) => Err(fault),
    }
}

/// The same of the directories that a job makes which merges so.
fn list_finals<D: Shelf>(
    alloc: Global,
    shelf: &mut D,
    book: &Book,
    job: JobId,
    merge: Merge,
) -> Result<bool, ShelfFault>
    requires named { CanName book.now.entries }
    requires works { works_at (numbered (state_of book.now.entries).jobs job.0) ≡ true }
    ensures listed { IfOk result (λ listed. (j : Job) → numbered (state_of book.now.entries).jobs job.0 ≡ Some j
        → merge.table ≡ j.table → Tells (D.told shelf.old)
        (λ s. listed ≡ list_all (is_listed s.tree j) (finals_of (state_of book.now.entries) j))) }
    ensures same { D.told shelf.new ≡ D.told shelf.old }
    ensures cause { CallsCause (IsErrOf result ShelfFault.Failed)
        (D.faults shelf.old) (D.faults shelf.new) (D.hard shelf.old) (D.hard shelf.new) }
{
    match final_dirs(alloc, book, job) {
        Ok(dirs) => list_dirs(alloc, shelf, TableId(merge.table), &dirs),
        Err(NoMemory) => Err(ShelfFault::NoMemory),
    }
}

/// Whether each directory that a job at work is to make has a file in the store, by one listing of its table. One that has nothing to merge
/// makes none, and nothing is listed then. The store is as it was.
///
/// # Errors
/// `Failed` where the store failed, `NoMemory` where memory lacked.
pub fn is_listed<D: Shelf>(
    alloc: Global,
    shelf: &mut D,
    book: &Book,
    job: JobId,
) -> Result<bool, ShelfFault>
    requires named { CanName book.now.entries }
    requires works { works_at (numbered (state_of book.now.entries).jobs job.0) ≡ true }
    ensures listed { IfOk result (λ listed. (j : Job) → numbered (state_of book.now.entries).jobs job.0 ≡ Some j
        → Tells (D.told shelf.old)
        (λ s. listed ≡ list_all (is_listed s.tree j) (finals_of (state_of book.now.entries) j))) }
    ensures same { D.told shelf.new ≡ D.told shelf.old }
    ensures cause { CallsCause (IsErrOf result ShelfFault.Failed)
        (D.faults shelf.old) (D.faults shelf.new) (D.hard shelf.old) (D.hard shelf.new) }
{
    match merge_of(book, job) {
        Some(merge) => list_finals(alloc, shelf, book, job, merge),
        None => Ok(true),
    }
}

fn put_if(whole: &mut Vec<u64>, listed: bool, number: u64) -> Result<(), NoMemory>
    ensures { OnOk result (whole.new.items ≡ whole.old.items ++ number_if listed number) }
{
    if listed {
        whole.push(number)?;
    }
    Ok(())
}

/// Puts the job's number behind these, where its directories are listed.
fn keep_if(whole: &mut Vec<u64>, listed: bool, number: u64) -> Result<(), ShelfFault>
    ensures kept { OnOk result (whole.new.items ≡ whole.old.items ++ number_if listed number) }
    ensures unfailed { IsErrOf result ShelfFault.Failed → ⊥ }
{
    match put_if(whole, listed, number) {
        Ok(()) => Ok(()),
        Err(NoMemory) => Err(ShelfFault::NoMemory),
    }
}

/// Puts the number of a job at work behind these, where it is whole.
fn keep_whole<D: Shelf>(
    alloc: Global,
    shelf: &mut D,
    book: &Book,
    whole: &mut Vec<u64>,
    number: u64,
) -> Result<(), ShelfFault>
    requires named { CanName book.now.entries }
    requires works { works_at (numbered (state_of book.now.entries).jobs number) ≡ true }
    ensures looked { OnOk result (Tells (D.told shelf.old) (λ s. whole.new.items
        ≡ whole.old.items ++ whole_at (state_of book.now.entries) s.tree number
        (numbered (state_of book.now.entries).jobs number))) }
    ensures same { D.told shelf.new ≡ D.told shelf.old }
    ensures cause { CallsCause (IsErrOf result ShelfFault.Failed)
        (D.faults shelf.old) (D.faults shelf.new) (D.hard shelf.old) (D.hard shelf.new) }
{
    match is_listed(alloc, shelf, book, JobId(number)) {
        Ok(listed) => keep_if(whole, listed, number),
        Err(fault) => Err(fault),
    }
}

/// Puts the job's number behind these, where it is at work and whole.
fn look_at<D: Shelf>(
    alloc: Global,
    shelf: &mut D,
    book: &Book,
    whole: &mut Vec<u64>,
    number: u64,
) -> Result<(), ShelfFault>
    requires named { CanName book.now.entries }
    ensures looked { OnOk result (Tells (D.told shelf.old) (λ s. whole.new.items
        ≡ whole.old.items ++ whole_at (state_of book.now.entries) s.tree number
        (numbered (state_of book.now.entries).jobs number))) }
    ensures same { D.told shelf.new ≡ D.told shelf.old }
    ensures cause { CallsCause (IsErrOf result ShelfFault.Failed)
        (D.faults shelf.old) (D.faults shelf.new) (D.hard shelf.old) (D.hard shelf.new) }
{
    if is_at_work(book, JobId(number)) {
        keep_whole(alloc, shelf, book, whole, number)
    } else {
        Ok(())
    }
}

/// The numbers of the jobs at work whose directories are all listed, rising. It lists the table of each job at work that has something to
/// merge. The store is as it was.
///
/// # Errors
/// `Failed` where the store failed, `NoMemory` where memory lacked.
pub fn find_whole<D: Shelf>(
    alloc: Global,
    shelf: &mut D,
    book: &Book,
) -> Result<Vec<u64>, ShelfFault>
    requires named { CanName book.now.entries }
    ensures whole { IfOk result (λ whole. Tells (D.told shelf.old)
        (λ s. whole.items ≡ whole_jobs (state_of book.now.entries) s.tree)) }
    ensures same { D.told shelf.new ≡ D.told shelf.old }
    ensures cause { CallsCause (IsErrOf result ShelfFault.Failed)
        (D.faults shelf.old) (D.faults shelf.new) (D.hard shelf.old) (D.hard shelf.new) }
{
    let mut whole = Vec::new(alloc);
    for i in 0..book.jobs().len() {
        look_at(alloc, shelf, book, &mut whole, i as u64 + 1)?;
    }
    Ok(whole)
}
