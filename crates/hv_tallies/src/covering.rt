//! The directories that a job covers, one by one.
ghost use Rattle.std.specs.Prelude.{◌≡◌, ℕ, ◌+◌, ◌++◌, ◌&&◌, true, false, Some, IfOk, OnOk};
ghost use Rattle.std.specs.List.{flat_map};
ghost use Rattle.hv_jobs.specs.hv_history.specs.State.{state_of, Job, numbered};
ghost use Rattle.hv_jobs.specs.hv_history.specs.Jobs.{events_of, events_in};
ghost use Rattle.hv_earlier.specs.hv_meta.specs.hv_book.specs.Briefs.{brief_job};
ghost use Rattle.hv_earlier.specs.hv_meta.specs.hv_book.specs.Past.{total, ended_weight};
ghost use Rattle.hv_jobs.specs.Covered.{has_within, covered_names};
ghost use Rattle.hv_tallies.specs.Covered.{covers_note};
ghost use Rattle.hv_tallies.specs.Covered.{kept_if, own_kept, names_at, names_weight, reach_within, wide_kept, range_kept, made_kept, kept_names};

use crate::covers::covers;
use crate::events::wrote_there;
use crate::survey::{asked_at, is_asked_of};
use crate::tally::{Reach, both};
use crate::walking::walk;
use hv_base::{JobId, NoMemory, Text, Touch, WriteId};
use hv_dirs::DirName;
use hv_earlier::hv_meta::hv_book::{Book, JobNote, JobRange};
use hv_ids::{IdNote, PlacedIds};
use hv_jobs::hv_history::{JobKind, numbered};
use std::alloc::Global;

/// Whether a directory was made and the job covers it.
fn is_covered(note: &JobNote, made: bool, name: &DirName) -> bool
    ensures { result ≡ (made && covers_note note.now name.now) }
{
    both(made, covers(note, name))
}

/// Puts the name behind these, where its directory was made and the job covers it.
fn put_name(
    names: &mut Vec<DirName>,
    note: &JobNote,
    made: bool,
    name: DirName,
) -> Result<(), NoMemory>
    ensures { OnOk result (names.new.items ≡ names.old.items ++ kept_if note.now made name) }
{
    if is_covered(note, made, &name) {
        names.push(name)?;
    }
    Ok(())
}

/// Puts the deltas that a commit made in the partition under this write id.
fn put_own(
    names: &mut Vec<DirName>,
    note: &JobNote,
    write: u64,
    touch: &Touch,
) -> Result<(), NoMemory>
    ensures { OnOk result (names.new.items
        ≡ names.old.items ++ own_kept note.now (events_of write touch.now)) }
{
    let inserted = DirName::Own {
        deletes: false,
        write: WriteId(write),
        statement: 0,
    };
    put_name(names, note, touch.inserted > 0, inserted)?;
    let deleted = DirName::Own {
        deletes: true,
        write: WriteId(write),
        statement: 0,
    };
    put_name(names, note, touch.deleted > 0, deleted)?;
    Ok(())
}

/// Puts those of a write id of the table.
fn put_id(
    names: &mut Vec<DirName>,
    book: &Book,
    table: u64,
    partition: &Text,
    note: &JobNote,
    id: IdNote,
) -> Result<(), NoMemory>
    ensures { OnOk result (names.new.items
        ≡ names.old.items ++ names_at (state_of book.now.entries) table partition.now note.now id) }
{
    match wrote_there(book, table, partition.as_str(), id.txn) {
        Some(touch) => put_own(names, note, id.write, touch),
        None => Ok(()),
    }
}

fn put_ids(
    names: &mut Vec<DirName>,
    book: &Book,
    table: u64,
    partition: &Text,
    note: &JobNote,
    ids: &[IdNote],
) -> Result<(), NoMemory>
    ensures { OnOk result (names.new.items ≡ names.old.items
        ++ flat_map (names_at (state_of book.now.entries) table partition.now note.now) ids.now) }
{
    for id in ids {
        put_id(names, book, table, partition, note, *id)?;
    }
    Ok(())
}

/// The same of ids whose transactions ended, the last one of the table first.
fn put_ended(
    names: &mut Vec<DirName>,
    book: &Book,
    table: u64,
    partition: &Text,
    note: &JobNote,
    ids: &PlacedIds,
) -> Result<(), NoMemory>
    ensures { OnOk result ((weight : DirName → ℕ) → total weight names.new.items
        ≡ total weight names.old.items + total (ended_weight table
        (names_weight (state_of book.now.entries) table partition.now note.now weight)) ids.now.ids) }
{
    let mut number = ids.last(table);
    while number > 0 {
        put_id(names, book, table, partition, note, ids.numbered(number).id)?;
        number = ids.before(number);
    }
    Ok(())
}

/// Whether commits inserted rows of the partition in a range, and whether they deleted some.
#[derive(Clone, Copy)]
pub struct Within {
    pub inserted: bool,
    pub deleted: bool,
}

fn reach_within(range: JobRange) -> Reach
    ensures { result ≡ reach_within range }
{
    Reach {
        base: range.low.saturating_sub(1),
        compacted: range.high,
        mark: range.high,
        given: 0,
    }
}

/// What commits say of a partition's rows in a range of write ids. It walks the table's write ids.
pub fn found_within(book: &Book, table: u64, partition: &Text, range: JobRange) -> Within
    ensures inserted { result.inserted ≡ has_within false range.low range.high
        (events_in (state_of book.now.entries) table partition.now) }
    ensures deleted { result.deleted ≡ has_within true range.low range.high
        (events_in (state_of book.now.entries) table partition.now) }
{
    let reach = reach_within(range);
    let tally = walk(book, table, partition.as_str(), reach);
    Within {
        inserted: tally.merged_ins,
        deleted: tally.merged_del,
    }
}

fn put_wide(
    names: &mut Vec<DirName>,
    note: &JobNote,
    found: Within,
    range: JobRange,
) -> Result<(), NoMemory>
    ensures { OnOk result (names.new.items
        ≡ names.old.items ++ wide_kept note.now found.inserted found.deleted range) }
{
    let inserted = DirName::Wide {
        deletes: false,
        low: WriteId(range.low),
        high: WriteId(range.high),
    };
    put_name(names, note, found.inserted, inserted)?;
    let deleted = DirName::Wide {
        deletes: true,
        low: WriteId(range.low),
        high: WriteId(range.high),
    };
    put_name(names, note, found.deleted, deleted)?;
    Ok(())
}

/// Puts what a job of this kind made with its range.
fn put_range(
    names: &mut Vec<DirName>,
    book: &Book,
    table: u64,
    partition: &Text,
    note: &JobNote,
    kind: JobKind,
    range: JobRange,
) -> Result<(), NoMemory>
    ensures { OnOk result (names.new.items ≡ names.old.items
        ++ range_kept (events_in (state_of book.now.entries) table partition.now) note.now kind range) }
{
    match kind {
        JobKind::Minor => {
            let found = found_within(book, table, partition, range);
            put_wide(names, note, found, range)?;
        }
        JobKind::Major => {
            let base = DirName::Base {
                high: WriteId(range.high),
            };
            put_name(names, note, true, base)?;
        }
    }
    Ok(())
}

/// Puts what another job made, where it is one of the partition.
fn put_made(
    names: &mut Vec<DirName>,
    book: &Book,
    table: u64,
    partition: &Text,
    note: &JobNote,
    other: &JobNote,
) -> Result<(), NoMemory>
    ensures { OnOk result (names.new.items ≡ names.old.items
        ++ made_kept book.now.entries table partition.now note.now other.now) }
{
    if is_asked_of(book, table, partition, other) {
        if let Some(range) = other.published {
            put_range(names, book, table, partition, note, other.kind, range)?;
        }
    }
    Ok(())
}

fn put_all_made(
    names: &mut Vec<DirName>,
    book: &Book,
    table: u64,
    partition: &Text,
    note: &JobNote,
    notes: &[JobNote],
) -> Result<(), NoMemory>
    ensures { OnOk result (names.new.items ≡ names.old.items
        ++ flat_map (made_kept book.now.entries table partition.now note.now) notes.now) }
{
    for other in notes {
        put_made(names, book, table, partition, note, other)?;
    }
    Ok(())
}

/// Puts all that a job covers which is noted so.
fn put_kept(
    names: &mut Vec<DirName>,
    book: &Book,
    table: u64,
    partition: &Text,
    note: &JobNote,
) -> Result<(), NoMemory>
    ensures { OnOk result ((weight : DirName → ℕ) → total weight names.new.items
        ≡ total weight names.old.items
        + total weight (kept_names book.now.entries table partition.now note.now)) }
{
    let past = book.past();
    let pending = past.pending.of_table(table);
    put_ids(names, book, table, partition, note, pending)?;
    put_ended(names, book, table, partition, note, &past.aborted)?;
    put_ended(names, book, table, partition, note, &past.committed)?;
    let notes = book.jobs();
    put_all_made(names, book, table, partition, note, notes)?;
    Ok(())
}

fn put_noted(names: &mut Vec<DirName>, book: &Book, note: &JobNote) -> Result<(), NoMemory>
    ensures { OnOk result ((number : ℕ) (j : Job)
        → numbered (state_of book.now.entries).jobs number ≡ Some j → note.now ≡ brief_job j
        → (weight : DirName → ℕ) → total weight names.new.items
        ≡ total weight names.old.items + total weight (covered_names (state_of book.now.entries) j)) }
{
    match asked_at(book, note.asked) {
        Some(partition) => put_kept(names, book, note.table, partition, note),
        None => Ok(()),
    }
}

fn put_covered(names: &mut Vec<DirName>, book: &Book, job: JobId) -> Result<(), NoMemory>
    ensures { OnOk result ((j : Job) → numbered (state_of book.now.entries).jobs job.0 ≡ Some j
        → (weight : DirName → ℕ) → total weight names.new.items
        ≡ total weight names.old.items + total weight (covered_names (state_of book.now.entries) j)) }
{
    match numbered(book.jobs(), job.0) {
        Some(note) => put_noted(names, book, note),
        None => Ok(()),
    }
}

/// The names of the directories in its partition that the job covers: own deltas of commits, and what other
/// jobs made. Each is there as often as the definition has it; their order means nothing. A job that isn't
/// published covers none. It walks the jobs and the table's write ids, and these once more for each minor job.
///
/// # Errors
/// `NoMemory` where memory lacked.
pub fn covered(alloc: Global, book: &Book, job: JobId) -> Result<Vec<DirName>, NoMemory>
    ensures covered { IfOk result (λ names. (j : Job)
        → numbered (state_of book.now.entries).jobs job.0 ≡ Some j
        → (weight : DirName → ℕ)
        → total weight names.items ≡ total weight (covered_names (state_of book.now.entries) j)) }
{
    let mut names = Vec::new(alloc);
    put_covered(&mut names, book, job)?;
    Ok(names)
}
