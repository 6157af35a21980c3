//! SHOW COMPACTIONS.

ghost use Rattle.std.specs.Prelude.{◌≡◌, ◌≤◌, ◌+◌, ◌++◌, ◌∷◌, [], IfOk, OnOk, length, map};
ghost use Rattle.std.specs.Option.{option_copied, option_map};
ghost use Rattle.hv_history.specs.Standing.{first_open, if_below};
ghost use Rattle.hv_history.specs.State.{changed};
ghost use Rattle.hv_history.specs.Shown.{has_ended_well, job_names, job_row, job_rows, kind_text, needed_by, number_or_null, stage_text, stands_ready, unended_text};
ghost use Rattle.hv_book.specs.Briefs.{brief_job};
ghost use Rattle.hv_book.specs.Jobs.{new_job, stepped};
ghost use Rattle.hv_earlier.specs.Fates.{fate_of};
ghost use Rattle.hv_showing.specs.Fronts.{IsFrontOf, tables_then, then_at, transactions_then};
ghost use Rattle.hv_showing.specs.Jobs.{is_going, jobs_by, jobs_over, jobs_then, mark_in, note_row, or_empty, row_of_note, rows_over, steps_in};

use crate::fronts::{Front, stood};
use crate::marks::before;
use crate::rows::{number_value, word_value};
use hv_base::{List, NoMemory, Text};
use hv_book::{Book, JobNote, JobRange, Step, stepped};
use hv_earlier::{Fate, is_live_at, name_at};
use hv_history::{Entry, JobKind, place_of};
use hv_tallies::asked_at;
use hv_value::{Row, Value};
use std::alloc::Global;

/// One of this table and kind that is asked for at this place.
fn new_job(table: u64, kind: JobKind, place: u64) -> JobNote
    ensures { result ≡ new_job table kind place }
{
    JobNote {
        table,
        kind,
        asked: place,
        watermark: None,
        published: None,
        is_empty: false,
        is_cleaned: false,
        is_failed: false,
        ended: None,
    }
}

/// Takes the job of this number, where there is one, a step further.
fn change(notes: &mut Vec<JobNote>, job: u64, step: Step)
    ensures items { notes.new.items ≡ changed (stepped step) notes.old.items job }
{
    if let Some(at) = place_of(notes, job) {
        notes[at] = stepped(notes[at], step);
    }
}

fn note_entry(place: u64, entry: &Entry, notes: &mut Vec<JobNote>) -> Result<(), NoMemory>
    ensures { OnOk result (notes.new.items ≡ jobs_by place entry.now notes.old.items) }
{
    match entry {
        Entry::Asked { table, kind, .. } => {
            notes.push(new_job(table.0, *kind, place))?;
            Ok(())
        }
        Entry::Picked { job, watermark } => {
            let watermark = watermark.0;
            change(notes, job.0, Step::Picked { watermark });
            Ok(())
        }
        Entry::Published {
            job,
            low,
            high,
            mark,
        } => {
            let range = JobRange {
                low: low.0,
                high: high.0,
                mark: mark.0,
            };
            change(notes, job.0, Step::Published { place, range });
            Ok(())
        }
        Entry::Empty { job } => {
            change(notes, job.0, Step::Empty { place });
            Ok(())
        }
        Entry::Cleaned { job } => {
            change(notes, job.0, Step::Cleaned);
            Ok(())
        }
        Entry::Failed { job, .. } => {
            change(notes, job.0, Step::Failed { place });
            Ok(())
        }
        _ => Ok(()),
    }
}

fn note_entries(entries: &[Entry], notes: &mut Vec<JobNote>) -> Result<(), NoMemory>
    ensures { OnOk result (notes.new.items ≡ jobs_over 0 entries.now notes.old.items) }
{
    for (place, entry) in entries.iter().enumerate() {
        note_entry(place as u64, entry, notes)?;
    }
    Ok(())
}

/// The jobs that were asked for before a place, as they stood there. It walks the entries before the place once.
fn notes_at(alloc: Global, book: &Book, position: usize) -> Result<Vec<JobNote>, NoMemory>
    requires { position ≤ length book.now.entries }
    ensures { IfOk result (λ notes. notes.items ≡ map brief_job (jobs_then book.now.entries position)) }
{
    let mut notes = Vec::new(alloc);
    note_entries(before(book.entries(), position), &mut notes)?;
    Ok(notes)
}

fn is_going(fate: Option<Fate>) -> bool
    ensures { result ≡ is_going fate }
{
    match fate {
        Some(Fate::Open) => true,
        Some(Fate::Committed) => false,
        Some(Fate::Aborted) => false,
        None => false,
    }
}

/// Whether the transaction of that number was open there.
fn was_open(book: &Book, front: Front, txn: u64) -> bool
    requires { IsFrontOf book.now.entries front }
    ensures { result ≡ is_going (option_map fate_of (then_at book.now.entries front.position txn)) }
{
    is_going(stood(book, front, txn))
}

/// The lowest transaction that was open there.
fn lowest_open(book: &Book, front: Front) -> Option<u64>
    requires { IsFrontOf book.now.entries front }
    ensures { result ≡ first_open 1 (transactions_then book.now.entries front.position) }
{
    for i in 0..front.opened {
        if was_open(book, front, i + 1) {
            return Some(i + 1);
        }
    }
    None
}

fn has_ended_well(note: &JobNote) -> bool
    ensures { result ≡ has_ended_well (steps_in note.now) }
{
    note.is_empty || (note.published.is_some() && note.is_cleaned)
}

/// Whether the directories of a job stand, and those that it covers weren't all removed, of a live table.
fn stands_ready(live: bool, note: &JobNote) -> bool
    ensures { result ≡ stands_ready live (steps_in note.now) }
{
    live && !note.is_failed && !note.is_empty && note.published.is_some() && !note.is_cleaned
}

fn unended_text(note: &JobNote) -> &'static str
    ensures { result.now ≡ unended_text (steps_in note.now) }
{
    if note.published.is_some() {
        "ready for cleaning"
    } else if note.watermark.is_some() {
        "working"
    } else {
        "initiated"
    }
}

fn stage_text(live: bool, note: &JobNote) -> &'static str
    ensures { result.now ≡ stage_text live (steps_in note.now) }
{
    if note.is_failed {
        "failed"
    } else if has_ended_well(note) {
        "succeeded"
    } else if live {
        unended_text(note)
    } else {
        "failed"
    }
}

fn kind_text(kind: JobKind) -> &'static str
    ensures { result.now ≡ kind_text kind }
{
    match kind {
        JobKind::Minor => "minor",
        JobKind::Major => "major",
    }
}

fn mark_in(range: Option<JobRange>) -> Option<u64>
    ensures { result ≡ mark_in range }
{
    match range {
        Some(range) => Some(range.mark),
        None => None,
    }
}

fn if_below(mark: u64, lowest: Option<u64>) -> Option<u64>
    ensures { result ≡ if_below mark lowest }
{
    match lowest {
        Some(txn) => { if txn < mark { Some(txn) } else { None } }
        None => None,
    }
}

/// Whom a job of this mark waits for, by the lowest transaction that was open.
fn needed_by(lowest: Option<u64>, ready: bool, mark: Option<u64>) -> Option<u64>
    ensures { result ≡ needed_by lowest ready mark }
{
    match mark {
        Some(mark) => { if ready { if_below(mark, lowest) } else { None } }
        None => None,
    }
}

fn number_or_null(number: Option<u64>) -> Result<Value, NoMemory>
    ensures { IfOk result (λ made. made ≡ number_or_null number) }
{
    match number {
        Some(number) => number_value(number),
        None => Ok(Value::Null),
    }
}

/// The row of a job.
fn job_row(
    alloc: Global,
    number: u64,
    name: &str,
    partition: &str,
    kind: JobKind,
    stage: &str,
    needed: Option<u64>,
) -> Result<Row, NoMemory>
    ensures { IfOk result (λ row. row ≡ job_row number name.now partition.now kind stage.now needed) }
{
    let mut values = Vec::new(alloc);
    values.push(number_value(number)?)?;
    values.push(word_value(alloc, name)?)?;
    values.push(word_value(alloc, partition)?)?;
    values.push(word_value(alloc, kind_text(kind))?)?;
    values.push(word_value(alloc, stage)?)?;
    values.push(number_or_null(needed)?)?;
    Ok(Row {
        values: List::from_vec(values),
    })
}

/// The row of a job that was noted so, of a table of this name and of this partition.
fn row_of_note(
    alloc: Global,
    name: &str,
    live: bool,
    partition: &str,
    lowest: Option<u64>,
    number: u64,
    note: &JobNote,
) -> Result<Row, NoMemory>
    ensures { IfOk result (λ row. row ≡ row_of_note name.now live partition.now lowest number note.now) }
{
    let stage = stage_text(live, note);
    let ready = stands_ready(live, note);
    let needed = needed_by(lowest, ready, mark_in(note.published));
    let row = job_row(alloc, number, name, partition, note.kind, stage, needed)?;
    Ok(row)
}

fn or_empty(text: Option<&Text>) -> &str
    ensures { result.now ≡ or_empty (option_copied text.entry) }
{
    match text {
        Some(text) => text.as_str(),
        None => "",
    }
}

/// The row of a job that was noted so at the place.
fn note_row(
    alloc: Global,
    book: &Book,
    front: Front,
    lowest: Option<u64>,
    number: u64,
    note: &JobNote,
) -> Result<Row, NoMemory>
    ensures { IfOk result (λ row. row ≡ note_row book.now.entries front.position lowest number note.now) }
{
    let name = name_at(book, front.position as usize, note.table);
    let live = is_live_at(book, front.position as usize, note.table);
    let partition = or_empty(asked_at(book, note.asked));
    let row = row_of_note(alloc, name, live, partition, lowest, number, note)?;
    Ok(row)
}

/// Appends the row of the next job.
fn put_job(
    alloc: Global,
    book: &Book,
    front: Front,
    lowest: Option<u64>,
    note: &JobNote,
    rows: &mut Vec<Row>,
) -> Result<(), NoMemory>
    ensures { OnOk result (rows.new.items ≡ rows.old.items
        ++ note_row book.now.entries front.position lowest (length rows.old.items + 1) note.now ∷ []) }
{
    let number = rows.len() as u64 + 1;
    rows.push(note_row(alloc, book, front, lowest, number, note)?)?;
    Ok(())
}

/// Appends the rows of the next jobs.
fn put_jobs(
    alloc: Global,
    book: &Book,
    front: Front,
    lowest: Option<u64>,
    notes: &[JobNote],
    rows: &mut Vec<Row>,
) -> Result<(), NoMemory>
    ensures { OnOk result (rows.new.items
        ≡ rows_over book.now.entries front.position lowest notes.now rows.old.items) }
{
    for note in notes {
        put_job(alloc, book, front, lowest, note, rows)?;
    }
    Ok(())
}

/// The rows of the jobs that were noted so at the place.
fn rows_of_notes(
    alloc: Global,
    book: &Book,
    front: Front,
    notes: &[JobNote],
) -> Result<Vec<Row>, NoMemory>
    requires front { IsFrontOf book.now.entries front }
    requires notes { notes.now ≡ map brief_job (jobs_then book.now.entries front.position) }
    ensures { IfOk result (λ rows. rows.items ≡ job_rows (tables_then book.now.entries front.position)
        (first_open 1 (transactions_then book.now.entries front.position)) 1
        (jobs_then book.now.entries front.position)) }
{
    let lowest = lowest_open(book, front);
    let mut rows = Vec::new(alloc);
    put_jobs(alloc, book, front, lowest, notes, &mut rows)?;
    Ok(rows)
}

/// The jobs that were asked for before the place, as they stood there.
pub fn jobs_at(alloc: Global, book: &Book, front: Front) -> Result<Vec<Row>, NoMemory>
    requires front { IsFrontOf book.now.entries front }
    requires place { front.position ≤ length book.now.entries }
    ensures { IfOk result (λ rows. rows.items ≡ job_rows (tables_then book.now.entries front.position)
        (first_open 1 (transactions_then book.now.entries front.position)) 1
        (jobs_then book.now.entries front.position)) }
{
    let notes = notes_at(alloc, book, front.position as usize)?;
    rows_of_notes(alloc, book, front, &notes)
}

/// The names of the columns.
pub fn job_names(alloc: Global) -> Result<List<Text>, NoMemory>
    ensures { IfOk result (λ names. names ≡ job_names) }
{
    let mut names = Vec::new(alloc);
    names.push(Text::of(alloc, "id")?)?;
    names.push(Text::of(alloc, "table")?)?;
    names.push(Text::of(alloc, "partition")?)?;
    names.push(Text::of(alloc, "type")?)?;
    names.push(Text::of(alloc, "state")?)?;
    names.push(Text::of(alloc, "held_by")?)?;
    Ok(List::from_vec(names))
}
