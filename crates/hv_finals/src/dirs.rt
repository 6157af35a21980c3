ghost use Rattle.std.specs.Prelude.{◌≡◌, ◌++◌, true, Some, IfOk, OnOk};
ghost use Rattle.hv_dirs.specs.Names.{IsNumber, IsRange, IsName};
ghost use Rattle.hv_history.specs.State.{state_of, Job, numbered};
ghost use Rattle.hv_history.specs.Jobs.{events_in};
ghost use Rattle.hv_jobs.specs.Covered.{base, wide};
ghost use Rattle.hv_jobs.specs.Finals.{finals_of};
ghost use Rattle.hv_law_made.specs.Opening.{failing_dirs};
ghost use Rattle.hv_finals.specs.Finals.{CanName, works_at, dir_in, one_in, one_if, dirs_in, staged_as, both_in, wides_in, finals_in, range_dirs, AreFinals, AreFailing};

use crate::merging::{Merge, merge_of};
use hv_base::{Duplicate, JobId, NoMemory, TableId, Text, WriteId};
use hv_book::{Book, JobRange};
use hv_dirs::{DirName, print_name};
use hv_history::JobKind;
use hv_queue::hv_tallies::{Within, asked_at, found_within};
use hv_shelf::DirAt;
use std::alloc::Global;

/// The directory of this name in a table's partition.
fn dir_in(alloc: Global, table: u64, partition: &Text, name: &DirName) -> Result<DirAt, NoMemory>
    requires named { IsName name.now }
    ensures dir { IfOk result (λ dir. dir ≡ dir_in table partition.now name.now) }
{
    Ok(DirAt {
        table: TableId(table),
        partition: partition.duplicate(alloc)?,
        dir: print_name(alloc, name)?,
    })
}

/// Puts it behind these.
fn push_dir(
    alloc: Global,
    dirs: &mut Vec<DirAt>,
    table: u64,
    partition: &Text,
    name: &DirName,
) -> Result<(), NoMemory>
    requires named { IsName name.now }
    ensures { OnOk result (dirs.new.items ≡ dirs.old.items ++ one_in table partition.now name.now) }
{
    let dir = dir_in(alloc, table, partition, name)?;
    dirs.push(dir)?;
    Ok(())
}

/// Puts the delta of a kind that a job makes of its range, where it makes one.
fn push_wide(
    alloc: Global,
    dirs: &mut Vec<DirAt>,
    partition: &Text,
    merge: Merge,
    deletes: bool,
    made: bool,
) -> Result<(), NoMemory>
    requires range { IsRange merge.low merge.high }
    ensures { OnOk result (dirs.new.items
        ≡ dirs.old.items ++ one_if made merge.table partition.now (wide deletes merge.low merge.high)) }
{
    if made {
        let name = DirName::Wide {
            deletes,
            low: WriteId(merge.low),
            high: WriteId(merge.high),
        };
        push_dir(alloc, dirs, merge.table, partition, &name)?;
    }
    Ok(())
}

fn push_wides(
    alloc: Global,
    dirs: &mut Vec<DirAt>,
    partition: &Text,
    merge: Merge,
    found: Within,
) -> Result<(), NoMemory>
    requires range { IsRange merge.low merge.high }
    ensures { OnOk result (dirs.new.items ≡ dirs.old.items
        ++ wides_in merge.table partition.now found.inserted found.deleted merge.low merge.high) }
{
    push_wide(alloc, dirs, partition, merge, false, found.inserted)?;
    push_wide(alloc, dirs, partition, merge, true, found.deleted)?;
    Ok(())
}

/// Puts the base of a job that makes one.
fn push_base(
    alloc: Global,
    dirs: &mut Vec<DirAt>,
    partition: &Text,
    merge: Merge,
) -> Result<(), NoMemory>
    requires range { IsRange merge.low merge.high }
    ensures { OnOk result (dirs.new.items ≡ dirs.old.items ++ one_in merge.table partition.now (base merge.high)) }
{
    let name = DirName::Base {
        high: WriteId(merge.high),
    };
    push_dir(alloc, dirs, merge.table, partition, &name)
}

/// Puts what a job makes that merges so.
fn push_finals(
    alloc: Global,
    dirs: &mut Vec<DirAt>,
    book: &Book,
    partition: &Text,
    merge: Merge,
) -> Result<(), NoMemory>
    requires range { IsRange merge.low merge.high }
    ensures { OnOk result (dirs.new.items ≡ dirs.old.items ++ finals_in merge.table partition.now
        (events_in (state_of book.now.entries) merge.table partition.now) merge.kind merge.low merge.high) }
{
    match merge.kind {
        JobKind::Minor => {
            let range = JobRange {
                low: merge.low,
                high: merge.high,
                mark: 0,
            };
            let found = found_within(book, merge.table, partition, range);
            push_wides(alloc, dirs, partition, merge, found)
        }
        JobKind::Major => push_base(alloc, dirs, partition, merge),
    }
}

/// What it makes in this partition.
fn finals_in(
    alloc: Global,
    book: &Book,
    partition: &Text,
    merge: Merge,
) -> Result<Vec<DirAt>, NoMemory>
    requires range { IsRange merge.low merge.high }
    ensures dirs { IfOk result (λ dirs. dirs.items ≡ finals_in merge.table partition.now
        (events_in (state_of book.now.entries) merge.table partition.now) merge.kind merge.low merge.high) }
{
    let mut dirs = Vec::new(alloc);
    push_finals(alloc, &mut dirs, book, partition, merge)?;
    Ok(dirs)
}

/// What a job makes that merges so.
fn finals_by(alloc: Global, book: &Book, merge: Merge) -> Result<Vec<DirAt>, NoMemory>
    requires range { IsRange merge.low merge.high }
    ensures dirs { IfOk result (λ dirs. AreFinals book.now.entries merge dirs.items) }
{
    match asked_at(book, merge.asked) {
        Some(partition) => finals_in(alloc, book, partition, merge),
        None => Ok(Vec::new(alloc)),
    }
}

/// The directories that a job at work is to make, each once: none where it has nothing to merge. It walks the jobs and the table's write ids.
///
/// # Errors
/// `NoMemory` where memory lacked.
pub fn final_dirs(alloc: Global, book: &Book, job: JobId) -> Result<Vec<DirAt>, NoMemory>
    requires named { CanName book.now.entries }
    requires works { works_at (numbered (state_of book.now.entries).jobs job.0) ≡ true }
    ensures dirs { IfOk result (λ dirs. (j : Job) → numbered (state_of book.now.entries).jobs job.0 ≡ Some j
        → dirs.items ≡ dirs_in j.table j.partition (finals_of (state_of book.now.entries) j)) }
{
    match merge_of(book, job) {
        Some(merge) => finals_by(alloc, book, merge),
        None => Ok(Vec::new(alloc)),
    }
}

/// The name under which a job stages a directory.
fn staged_as(alloc: Global, number: u64, name: &DirName) -> Result<DirName, NoMemory>
    requires named { IsName name.now }
    ensures staged { IfOk result (λ staged. staged ≡ staged_as number name.now) }
{
    Ok(DirName::Staged {
        job: JobId(number),
        name: print_name(alloc, name)?,
    })
}

/// Puts the directory in which a job stages another one.
fn push_staged(
    alloc: Global,
    dirs: &mut Vec<DirAt>,
    table: u64,
    partition: &Text,
    number: u64,
    name: &DirName,
) -> Result<(), NoMemory>
    requires named { IsName name.now }
    requires staged { IsName (staged_as number name.now) }
    ensures { OnOk result (dirs.new.items
        ≡ dirs.old.items ++ one_in table partition.now (staged_as number name.now)) }
{
    let staged = staged_as(alloc, number, name)?;
    push_dir(alloc, dirs, table, partition, &staged)
}

/// Puts a directory that a job makes, and the one in which it stages this.
fn push_both(
    alloc: Global,
    dirs: &mut Vec<DirAt>,
    table: u64,
    partition: &Text,
    number: u64,
    name: &DirName,
) -> Result<(), NoMemory>
    requires named { IsName name.now }
    requires staged { IsName (staged_as number name.now) }
    ensures { OnOk result (dirs.new.items ≡ dirs.old.items ++ both_in table partition.now number name.now) }
{
    push_dir(alloc, dirs, table, partition, name)?;
    push_staged(alloc, dirs, table, partition, number, name)?;
    Ok(())
}

/// Puts those of the delta of a kind.
fn push_both_wide(
    alloc: Global,
    dirs: &mut Vec<DirAt>,
    partition: &Text,
    number: u64,
    merge: Merge,
    deletes: bool,
) -> Result<(), NoMemory>
    requires number { IsNumber number }
    requires range { IsRange merge.low merge.high }
    ensures { OnOk result (dirs.new.items
        ≡ dirs.old.items ++ both_in merge.table partition.now number (wide deletes merge.low merge.high)) }
{
    let name = DirName::Wide {
        deletes,
        low: WriteId(merge.low),
        high: WriteId(merge.high),
    };
    push_both(alloc, dirs, merge.table, partition, number, &name)
}

fn push_both_wides(
    alloc: Global,
    dirs: &mut Vec<DirAt>,
    partition: &Text,
    number: u64,
    merge: Merge,
) -> Result<(), NoMemory>
    requires number { IsNumber number }
    requires range { IsRange merge.low merge.high }
    ensures { OnOk result (dirs.new.items ≡ dirs.old.items
        ++ range_dirs merge.table partition.now number JobKind.Minor merge.low merge.high) }
{
    push_both_wide(alloc, dirs, partition, number, merge, false)?;
    push_both_wide(alloc, dirs, partition, number, merge, true)?;
    Ok(())
}

/// Puts those of the base.
fn push_both_base(
    alloc: Global,
    dirs: &mut Vec<DirAt>,
    partition: &Text,
    number: u64,
    merge: Merge,
) -> Result<(), NoMemory>
    requires number { IsNumber number }
    requires range { IsRange merge.low merge.high }
    ensures { OnOk result (dirs.new.items
        ≡ dirs.old.items ++ range_dirs merge.table partition.now number JobKind.Major merge.low merge.high) }
{
    let name = DirName::Base {
        high: WriteId(merge.high),
    };
    push_both(alloc, dirs, merge.table, partition, number, &name)
}

/// Puts those of a job's whole range.
fn push_range(
    alloc: Global,
    dirs: &mut Vec<DirAt>,
    partition: &Text,
    number: u64,
    merge: Merge,
) -> Result<(), NoMemory>
    requires number { IsNumber number }
    requires range { IsRange merge.low merge.high }
    ensures { OnOk result (dirs.new.items
        ≡ dirs.old.items ++ range_dirs merge.table partition.now number merge.kind merge.low merge.high) }
{
    match merge.kind {
        JobKind::Minor => push_both_wides(alloc, dirs, partition, number, merge),
        JobKind::Major => push_both_base(alloc, dirs, partition, number, merge),
    }
}

/// What goes of it in this partition.
fn failing_in(
    alloc: Global,
    partition: &Text,
    number: u64,
    merge: Merge,
) -> Result<Vec<DirAt>, NoMemory>
    requires number { IsNumber number }
    requires range { IsRange merge.low merge.high }
    ensures dirs { IfOk result (λ dirs. dirs.items
        ≡ range_dirs merge.table partition.now number merge.kind merge.low merge.high) }
{
    let mut dirs = Vec::new(alloc);
    push_range(alloc, &mut dirs, partition, number, merge)?;
    Ok(dirs)
}

/// What goes of a job that merges so.
fn failing_by(alloc: Global, book: &Book, number: u64, merge: Merge) -> Result<Vec<DirAt>, NoMemory>
    requires number { IsNumber number }
    requires range { IsRange merge.low merge.high }
    ensures dirs { IfOk result (λ dirs. AreFailing book.now.entries number merge dirs.items) }
{
    match asked_at(book, merge.asked) {
        Some(partition) => failing_in(alloc, partition, number, merge),
        None => Ok(Vec::new(alloc)),
    }
}

/// The directories that go of a job at work that is given up: those that it could have made, and those in which it stages. None where it
/// has nothing to merge, whatever stands under its range.
///
/// # Errors
/// `NoMemory` where memory lacked.
pub fn failing_dirs(alloc: Global, book: &Book, job: JobId) -> Result<Vec<DirAt>, NoMemory>
    requires named { CanName book.now.entries }
    requires works { works_at (numbered (state_of book.now.entries).jobs job.0) ≡ true }
    ensures dirs { IfOk result (λ dirs. (j : Job) → numbered (state_of book.now.entries).jobs job.0 ≡ Some j
        → dirs.items ≡ failing_dirs (state_of book.now.entries) job.0 j) }
{
    match merge_of(book, job) {
        Some(merge) => failing_by(alloc, book, job.0, merge),
        None => Ok(Vec::new(alloc)),
    }
}
