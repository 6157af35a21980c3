//! What there is to do for initiators, compactions and cleaners, asked of the book alone.

ghost use Rattle.std.specs.Prelude.{◌≡◌, ◌++◌, ◌∷◌, [], map, IfOk, OnOk};
ghost use Rattle.std.specs.List.{flat_map};
ghost use Rattle.hv_history.specs.State.{state_of, nothing_yet, numbered};
ghost use Rattle.hv_history.specs.Legal.{profile, AllFit};
ghost use Rattle.hv_job_acts.specs.Work.{touched_in, touched_by, in_order, texts_of, part_at, parts_at, parts_in, is_ready_note, is_ready_in, job_at, ready_at, ready_in, is_lost_at, id_at, lost_at, lost_of, lost_in, given_in, is_live_note, live_in};

use hv_base::{Duplicate, JobId, Limits, NoMemory, TableId, Text, Touch, WriteId};
use hv_book::{Book, JobNote, TableNote};
use hv_history::{Entry, numbered};
use hv_job_fits::forgot_fits;
use hv_queue::is_live;
use hv_tallies::both;
use std::alloc::Global;

/// A partition of a table.
#[derive(Drop)]
pub struct PartAt {
    pub table: TableId,
    pub partition: Text,
}

/// A write id of a table.
#[derive(Clone, Copy)]
pub struct LostId {
    pub table: TableId,
    pub write: WriteId,
}

/// Room without end: whether an id may be forgotten is asked without it.
const FREE: Limits = Limits { entries: u64::MAX };

// ---- partitions

fn put_touch(
    alloc: Global,
    table: u64,
    touch: &Touch,
    texts: &mut Vec<Text>,
) -> Result<(), NoMemory>
    ensures { OnOk result (texts.new.items ≡ texts.old.items ++ touched_in table touch.now) }
{
    if touch.table.0 == table {
        texts.push(touch.partition.duplicate(alloc)?)?;
    }
    Ok(())
}

fn put_touches(
    alloc: Global,
    table: u64,
    wrote: &[Touch],
    texts: &mut Vec<Text>,
) -> Result<(), NoMemory>
    ensures { OnOk result (texts.new.items ≡ texts.old.items ++ flat_map (touched_in table) wrote.now) }
{
    for touch in wrote {
        put_touch(alloc, table, touch, texts)?;
    }
    Ok(())
}

fn put_entry(
    alloc: Global,
    table: u64,
    entry: &Entry,
    texts: &mut Vec<Text>,
) -> Result<(), NoMemory>
    ensures { OnOk result (texts.new.items ≡ texts.old.items ++ touched_by table entry.now) }
{
    match entry {
        Entry::Commit { wrote, .. } => put_touches(alloc, table, wrote.as_slice(), texts),
        _ => Ok(()),
    }
}

/// The partitions of a table that commits touched, each as often as they did.
fn touched(alloc: Global, entries: &[Entry], table: u64) -> Result<Vec<Text>, NoMemory>
    ensures { IfOk result (λ texts. texts.items ≡ flat_map (touched_by table) entries.now) }
{
    let mut texts = Vec::new(alloc);
    for entry in entries {
        put_entry(alloc, table, entry, &mut texts)?;
    }
    Ok(texts)
}

/// These texts by bytes, one of those that are the same.
fn in_order(texts: Vec<Text>) -> Result<Vec<Text>, NoMemory>
    ensures { IfOk result (λ ordered. ordered.items ≡ in_order texts.items) }
{
    let mut texts = texts;
    texts.sort()?;
    texts.dedup();
    Ok(texts)
}

/// Puts the partitions of a table behind these.
fn put_texts(table: u64, texts: Vec<Text>, parts: &mut Vec<PartAt>) -> Result<(), NoMemory>
    ensures { OnOk result (parts.new.items ≡ parts.old.items ++ map (part_at table) texts.items) }
{
    for partition in texts {
        parts.push(PartAt {
            table: TableId(table),
            partition,
        })?;
    }
    Ok(())
}

/// Puts those of a table behind these.
fn put_touched(
    alloc: Global,
    book: &Book,
    table: u64,
    parts: &mut Vec<PartAt>,
) -> Result<(), NoMemory>
    ensures { OnOk result (parts.new.items
        ≡ parts.old.items ++ map (part_at table) (texts_of book.now.entries table)) }
{
    let found = touched(alloc, book.entries(), table)?;
    let texts = in_order(found)?;
    put_texts(table, texts, parts)
}

/// Puts those of a table behind these, where it is live.
fn put_parts(
    alloc: Global,
    book: &Book,
    table: u64,
    parts: &mut Vec<PartAt>,
) -> Result<(), NoMemory>
    ensures { OnOk result (parts.new.items ≡ parts.old.items ++ parts_at book.now.entries table) }
{
    if is_live(book, table) {
        put_touched(alloc, book, table, parts)
    } else {
        Ok(())
    }
}

/// The partitions of live tables that a commit touched, by table and by text, each once. It walks the entries once
/// for each table.
pub(crate) fn list_parts(alloc: Global, book: &Book) -> Result<Vec<PartAt>, NoMemory>
    ensures { IfOk result (λ parts. parts.items ≡ parts_in book.now.entries) }
{
    let mut parts = Vec::new(alloc);
    for i in 0..book.tables().len() {
        put_parts(alloc, book, i as u64 + 1, &mut parts)?;
    }
    Ok(parts)
}

// ---- jobs that are ready

/// Whether the job that is noted so is ready for cleaning.
pub(crate) fn is_ready_note(note: &JobNote) -> bool
    ensures { result ≡ is_ready_note note.now }
{
    both(note.published.is_some(), !note.is_cleaned)
}

/// Whether the job of this number is ready for cleaning, and its table is live.
fn is_ready_live(book: &Book, number: u64) -> bool
    ensures { result ≡ is_ready_in (state_of book.now.entries) (numbered (state_of book.now.entries).jobs number) }
{
    match numbered(book.jobs(), number) {
        Some(note) => both(is_ready_note(note), is_live(book, note.table)),
        None => false,
    }
}

fn put_job(number: u64, jobs: &mut Vec<JobId>) -> Result<(), NoMemory>
    ensures { OnOk result (jobs.new.items ≡ jobs.old.items ++ job_at number ∷ []) }
{
    jobs.push(JobId(number))?;
    Ok(())
}

fn put_ready(book: &Book, number: u64, jobs: &mut Vec<JobId>) -> Result<(), NoMemory>
    ensures { OnOk result (jobs.new.items ≡ jobs.old.items ++ ready_at (state_of book.now.entries) number) }
{
    if is_ready_live(book, number) {
        put_job(number, jobs)
    } else {
        Ok(())
    }
}

/// The jobs of live tables that are ready for cleaning, by number.
pub(crate) fn list_ready(alloc: Global, book: &Book) -> Result<Vec<JobId>, NoMemory>
    ensures { IfOk result (λ jobs. jobs.items ≡ ready_in (state_of book.now.entries)) }
{
    let mut jobs = Vec::new(alloc);
    for i in 0..book.jobs().len() {
        put_ready(book, i as u64 + 1, &mut jobs)?;
    }
    Ok(jobs)
}

// ---- aborted write ids

/// Whether the write id is aborted in its live table, and isn't forgotten there.
pub(crate) fn is_lost(book: &Book, table: u64, write: u64) -> bool
    requires fit { AllFit profile nothing_yet book.now.entries }
    ensures { result ≡ is_lost_at (state_of book.now.entries) write
        (numbered (state_of book.now.entries).tables table) }
{
    forgot_fits(book, &FREE, TableId(table), WriteId(write))
}

fn put_id(table: u64, write: u64, ids: &mut Vec<LostId>) -> Result<(), NoMemory>
    ensures { OnOk result (ids.new.items ≡ ids.old.items ++ id_at table write ∷ []) }
{
    ids.push(LostId {
        table: TableId(table),
        write: WriteId(write),
    })?;
    Ok(())
}

fn put_lost(book: &Book, table: u64, write: u64, ids: &mut Vec<LostId>) -> Result<(), NoMemory>
    requires fit { AllFit profile nothing_yet book.now.entries }
    ensures { OnOk result (ids.new.items ≡ ids.old.items ++ lost_at (state_of book.now.entries) table write) }
{
    if is_lost(book, table, write) {
        put_id(table, write, ids)
    } else {
        Ok(())
    }
}

/// How many write ids of the table were given.
fn given(book: &Book, table: u64) -> u64
    ensures { result ≡ given_in (state_of book.now.entries) table }
{
    match numbered(book.tables(), table) {
        Some(note) => note.high,
        None => 0,
    }
}

/// Puts those of a table behind these.
fn put_all_lost(book: &Book, table: u64, ids: &mut Vec<LostId>) -> Result<(), NoMemory>
    requires fit { AllFit profile nothing_yet book.now.entries }
    ensures { OnOk result (ids.new.items ≡ ids.old.items ++ lost_of (state_of book.now.entries) table) }
{
    for i in 0..given(book, table) {
        put_lost(book, table, i + 1, ids)?;
    }
    Ok(())
}

/// The aborted write ids of live tables that aren't forgotten, by table and by id.
pub(crate) fn list_lost(alloc: Global, book: &Book) -> Result<Vec<LostId>, NoMemory>
    requires fit { AllFit profile nothing_yet book.now.entries }
    ensures { IfOk result (λ ids. ids.items ≡ lost_in (state_of book.now.entries)) }
{
    let mut ids = Vec::new(alloc);
    for i in 0..book.tables().len() {
        put_all_lost(book, i as u64 + 1, &mut ids)?;
    }
    Ok(ids)
}

// ---- tables

fn live_of(alloc: Global, notes: &[TableNote]) -> Result<Vec<bool>, NoMemory>
    ensures { IfOk result (λ live. live.items ≡ map is_live_note notes.now) }
{
    let mut live = Vec::new(alloc);
    for note in notes {
        live.push(note.is_live)?;
    }
    Ok(live)
}

/// Whether each table is live, by number.
pub(crate) fn list_live(alloc: Global, book: &Book) -> Result<Vec<bool>, NoMemory>
    ensures { IfOk result (λ live. live.items ≡ live_in (state_of book.now.entries)) }
{
    live_of(alloc, book.tables())
}
