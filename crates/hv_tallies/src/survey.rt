ghost use Rattle.std.specs.Prelude.{◌≡◌, None, false, filter, fold};
ghost use Rattle.std.specs.Option.{option_copied};
ghost use Rattle.hv_jobs.specs.hv_history.specs.declared.entry.JobKind.{JobKind as KindOf};
ghost use Rattle.hv_jobs.specs.hv_history.specs.State.{state_of};
ghost use Rattle.hv_jobs.specs.hv_history.specs.JobsTrue.{was_busy};
ghost use Rattle.hv_tallies.specs.Jobs.{ended_behind, or_busy, is_major, range_high, is_busy_note, asked_at, is_asked_for, is_asked_of, no_survey, larger_if, surveyed, low_of, notes_in};

use crate::tally::{both, either, larger};
use hv_base::Text;
use hv_earlier::hv_meta::hv_book::{Book, JobNote, JobRange};
use hv_jobs::hv_history::{Entry, JobKind};

/// What the jobs of a partition come to: whether one is initiated or working, the greatest end of a major one
/// and of any, and the last one.
#[derive(Clone, Copy)]
pub struct Survey {
    pub busy: bool,
    pub base: u64,
    pub compacted: u64,
    pub last: Option<JobNote>,
}

fn no_survey() -> Survey
    ensures { result ≡ no_survey }
{
    Survey {
        busy: false,
        base: 0,
        compacted: 0,
        last: None,
    }
}

/// The partition that the Asked at this place is of. None where no Asked stands there.
pub fn asked_at(book: &Book, place: u64) -> Option<&Text>
    ensures { option_copied result ≡ asked_at book.now.entries place }
{
    match book.entries().get(place as usize) {
        Some(Entry::Asked { partition, .. }) => Some(partition),
        _ => None,
    }
}

fn is_partition(found: Option<&Text>, partition: &Text) -> bool
    ensures { result ≡ is_asked_for partition.now (option_copied found.entry) }
{
    match found {
        Some(found) => *found == *partition,
        None => false,
    }
}

/// Whether the job that is noted so was asked for in that partition.
pub fn is_asked_of(book: &Book, table: u64, partition: &Text, note: &JobNote) -> bool
    ensures { result ≡ is_asked_of book.now.entries table partition.now note.now }
{
    note.table == table && is_partition(asked_at(book, note.asked), partition)
}

fn is_major(kind: JobKind) -> bool
    ensures { result ≡ is_major kind }
{
    match kind {
        JobKind::Minor => false,
        JobKind::Major => true,
    }
}

fn high_of(range: Option<JobRange>) -> u64
    ensures { result ≡ range_high range }
{
    match range {
        Some(range) => range.high,
        None => 0,
    }
}

fn is_busy(note: &JobNote) -> bool
    ensures { result ≡ is_busy_note note.now }
{
    let initiated = both(note.watermark.is_none(), note.ended.is_none());
    let unended = both(!note.is_empty, !note.is_failed);
    let unpublished = both(note.published.is_none(), unended);
    either(initiated, both(note.watermark.is_some(), unpublished))
}

fn larger_if(test: bool, base: u64, high: u64) -> u64
    ensures { result ≡ larger_if test base high }
{
    if test { larger(base, high) } else { base }
}

fn surveyed(survey: Survey, note: &JobNote) -> Survey
    ensures { result ≡ surveyed survey note.now }
{
    let high = high_of(note.published);
    Survey {
        busy: either(survey.busy, is_busy(note)),
        base: larger_if(is_major(note.kind), survey.base, high),
        compacted: larger(survey.compacted, high),
        last: Some(*note),
    }
}

/// What those of these jobs come to that are of the partition.
fn survey_of(book: &Book, table: u64, partition: &Text, notes: &[JobNote]) -> Survey
    ensures { result ≡ fold surveyed no_survey
        (filter (is_asked_of book.now.entries table partition.now) notes.now) }
{
    let mut survey = no_survey();
    for note in notes {
        if is_asked_of(book, table, partition, note) {
            survey = surveyed(survey, note);
        }
    }
    survey
}

/// What the jobs of the partition come to. It walks the jobs.
pub fn survey_in(book: &Book, table: u64, partition: &Text) -> Survey
    ensures { result ≡ fold surveyed no_survey (notes_in book.now.entries table partition.now) }
{
    survey_of(book, table, partition, book.jobs())
}

/// Whether a job that ended at that place, or at none yet, ended behind a place.
fn ended_behind(place: u64, ended: Option<u64>) -> bool
    ensures { result ≡ ended_behind place ended }
{
    match ended {
        Some(end) => place < end,
        None => true,
    }
}

fn or_busy(place: u64, before: bool, note: &JobNote) -> bool
    ensures { result ≡ or_busy place before note.now }
{
    either(before, ended_behind(place, note.ended))
}

/// Whether one of those of these jobs that are of the partition was initiated or working behind a place.
fn busy_of(book: &Book, table: u64, partition: &Text, place: u64, notes: &[JobNote]) -> bool
    ensures { result ≡ fold (or_busy place) false
        (filter (is_asked_of book.now.entries table partition.now) notes.now) }
{
    let mut busy = false;
    for note in notes {
        if is_asked_of(book, table, partition, note) {
            busy = or_busy(place, busy, note);
        }
    }
    busy
}

/// Whether a job of the partition was initiated or working behind a place. It walks the jobs.
pub fn was_busy(book: &Book, table: u64, partition: &Text, place: u64) -> bool
    ensures was { (kind : KindOf) → result ≡ was_busy (state_of book.now.entries) place
        (record { table = table; partition = partition.now; kind = kind }) }
{
    busy_of(book, table, partition, place, book.jobs())
}

fn low_of(base: u64, low: Option<u64>, note: &JobNote) -> Option<u64>
    ensures { result ≡ low_of base low note.now }
{
    if is_major(note.kind) {
        return low;
    }
    match note.published {
        Some(range) => {
            if base < range.high {
                Some(range.low)
            } else {
                low
            }
        }
        None => low,
    }
}

fn minor_low_of(
    book: &Book,
    table: u64,
    partition: &Text,
    base: u64,
    notes: &[JobNote],
) -> Option<u64>
    ensures { result ≡ fold (low_of base) None
        (filter (is_asked_of book.now.entries table partition.now) notes.now) }
{
    let mut low = None;
    for note in notes {
        if is_asked_of(book, table, partition, note) {
            low = low_of(base, low, note);
        }
    }
    low
}

/// Where the last minor job begins that was published with an end above the base.
pub fn minor_low(book: &Book, table: u64, partition: &Text, base: u64) -> Option<u64>
    ensures { result ≡ fold (low_of base) None (notes_in book.now.entries table partition.now) }
{
    minor_low_of(book, table, partition, base, book.jobs())
}
