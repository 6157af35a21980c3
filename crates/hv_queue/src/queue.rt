ghost use Rattle.std.specs.Prelude.{◌≡◌, ℕ, ◌+◌, ◌*◌, ◌≤◌, nat_lt, Some, IfOk, IsOk, IsTrue, length};
ghost use Rattle.hv_history.specs.State.{state_of, Job, numbered};
ghost use Rattle.hv_history.specs.Legal.{one_if};
ghost use Rattle.hv_history.specs.Jobs.{ids_of, watermark, mark_by, pieces_for, pieces_up_to, is_empty_of, kind_over, unless_empty, is_live_one, due};
ghost use Rattle.hv_tallies.specs.hv_earlier.specs.hv_meta.specs.hv_book.specs.Briefs.{brief_job};
ghost use Rattle.hv_queue.specs.Queue.{state_by, note_state, says, front_by, number_or, low_by, no_pieces, pieces_by, pieces_in, is_counted, is_much_by, kind_by, due_by, failed_note, may_ask_by, HasFewRows, IsReach};

use crate::settings::{delta_threshold, is_behind_place, opening, percent_threshold};
use hv_base::{JobId, NoMemory, TableId, Text, WriteId};
use hv_history::{JobKind, numbered};
use hv_tallies::hv_earlier::hv_meta::hv_book::{Book, JobNote};
use hv_tallies::{Reach, Survey, Tally, asked_at, both, minor_low, one_more, survey_in, walk};

/// How far a compaction job has come.
#[derive(Clone, Copy)]
pub enum JobState {
    /// It was asked for.
    Initiated,
    /// Somebody has taken it up.
    Working,
    /// Its directories stand, and those that it covers weren't all removed.
    Ready,
    /// They were, or there was nothing to merge.
    Succeeded,
    /// It was given up.
    Failed,
}

/// What a job merges: the deltas and the delete deltas, whether there is a base, and its range of write ids.
#[derive(Clone, Copy)]
pub struct JobPieces {
    pub ins: u64,
    pub del: u64,
    pub base: bool,
    pub low: WriteId,
    pub high: WriteId,
}

fn note_state(note: &JobNote) -> JobState
    ensures { result ≡ note_state note.now }
{
    if note.is_failed {
        JobState::Failed
    } else if note.is_empty {
        JobState::Succeeded
    } else if note.published.is_some() {
        if note.is_cleaned {
            JobState::Succeeded
        } else {
            JobState::Ready
        }
    } else if note.watermark.is_some() {
        JobState::Working
    } else {
        JobState::Initiated
    }
}

/// How far the job of this number has come, by its entries alone.
pub fn job_state(book: &Book, job: JobId) -> JobState
    ensures state { (j : Job) → numbered (state_of book.now.entries).jobs job.0 ≡ Some j → result ≡ state_by j }
    ensures says { (j : Job) → numbered (state_of book.now.entries).jobs job.0 ≡ Some j → IsTrue (says result j) }
{
    match numbered(book.jobs(), job.0) {
        Some(note) => note_state(note),
        None => JobState::Initiated,
    }
}

fn front_by(high: u64, unended: Option<u64>) -> u64
    ensures { result ≡ front_by high unended }
{
    match unended {
        Some(write) => write.saturating_sub(1),
        None => high,
    }
}

/// How many write ids of the table were given.
fn given(book: &Book, table: u64) -> u64
    ensures { result ≡ length (ids_of (numbered (state_of book.now.entries).tables table)) }
{
    match numbered(book.tables(), table) {
        Some(note) => note.high,
        None => 0,
    }
}

/// The greatest write id of the table such that none up to it is of an open transaction. It walks the table's write ids.
pub fn watermark(book: &Book, table: TableId) -> WriteId
    ensures mark { result.0 ≡ watermark (state_of book.now.entries) table.0 }
{
    let reach = Reach {
        base: 0,
        compacted: 0,
        mark: 0,
        given: 0,
    };
    let tally = walk(book, table.0, "", reach);
    WriteId(front_by(given(book, table.0), tally.unended))
}

fn number_or(default: u64, found: Option<u64>) -> u64
    ensures { result ≡ number_or default found }
{
    match found {
        Some(number) => number,
        None => default,
    }
}

fn low_by(kind: JobKind, low: Option<u64>, first: Option<u64>) -> u64
    ensures { result ≡ low_by kind low first }
{
    match kind {
        JobKind::Minor => number_or(number_or(0, first), low),
        JobKind::Major => 1,
    }
}

fn pieces_by(reach: Reach, kind: JobKind, low: Option<u64>, tally: Tally) -> JobPieces
    ensures { result ≡ pieces_by reach kind low tally }
{
    JobPieces {
        ins: one_more(reach.given, tally.merged_ins, tally.ins),
        del: one_more(reach.given, tally.merged_del, tally.del),
        base: reach.base > 0,
        low: WriteId(low_by(kind, low, tally.first)),
        high: WriteId(tally.high),
    }
}

/// How far a walk counts where the jobs of the partition come to this.
fn reach_of(book: &Book, table: u64, jobs: Survey, mark: u64) -> Reach
    ensures { IsReach (state_of book.now.entries) table jobs mark result }
{
    Reach {
        base: jobs.base,
        compacted: jobs.compacted,
        mark,
        given: given(book, table),
    }
}

/// What a job of this partition merges up to a mark.
fn pieces_up_to(book: &Book, table: u64, partition: &Text, kind: JobKind, mark: u64) -> JobPieces
    ensures { pieces_in result ≡ pieces_up_to (state_of book.now.entries) table partition.now kind mark }
{
    let jobs = survey_in(book, table, partition);
    let low = minor_low(book, table, partition, jobs.base);
    let reach = reach_of(book, table, jobs, mark);
    let tally = walk(book, table, partition.as_str(), reach);
    pieces_by(reach, kind, low, tally)
}

fn no_pieces() -> JobPieces
    ensures { result ≡ no_pieces }
{
    JobPieces {
        ins: 0,
        del: 0,
        base: false,
        low: WriteId(0),
        high: WriteId(0),
    }
}

fn mark_by(watermark: Option<u64>) -> u64
    ensures { result ≡ mark_by watermark }
{
    match watermark {
        Some(mark) => mark,
        None => 0,
    }
}

/// What a job that is noted so merges.
fn pieces_of(book: &Book, note: &JobNote) -> JobPieces
    ensures { (number : ℕ) (j : Job) → numbered (state_of book.now.entries).jobs number ≡ Some j
        → note.now ≡ brief_job j → pieces_in result ≡ pieces_for (state_of book.now.entries) j }
{
    let mark = mark_by(note.watermark);
    match asked_at(book, note.asked) {
        Some(partition) => pieces_up_to(book, note.table, partition, note.kind, mark),
        None => no_pieces(),
    }
}

/// What the job of this number merges, under its own watermark. It walks the jobs and the table's write ids.
pub fn pieces(book: &Book, job: JobId) -> JobPieces
    ensures pieces { (j : Job) → numbered (state_of book.now.entries).jobs job.0 ≡ Some j
        → pieces_in result ≡ pieces_for (state_of book.now.entries) j }
{
    match numbered(book.jobs(), job.0) {
        Some(note) => pieces_of(book, note),
        None => no_pieces(),
    }
}

/// Whether the table of this number is there and live.
pub fn is_live(book: &Book, table: u64) -> bool
    ensures { result ≡ is_live_one (numbered (state_of book.now.entries).tables table) }
{
    match numbered(book.tables(), table) {
        Some(note) => note.is_live,
        None => false,
    }
}

fn failed_note(opening: Option<u64>, last: Option<JobNote>) -> bool
    ensures { result ≡ failed_note opening last }
{
    match last {
        Some(note) => match note.ended {
            Some(place) => both(note.is_failed, is_behind_place(opening, place)),
            None => false,
        },
        None => false,
    }
}

/// Whether so few rows were counted that the numbers are exact.
fn is_counted(tally: Tally) -> bool
    ensures { result ≡ is_counted tally }
{
    both(
        tally.kept < u64::MAX,
        both(tally.gone < u64::MAX, tally.above < u64::MAX),
    )
}

/// The product: there is room for it.
fn product(a: u64, b: u64) -> u128
    ensures { result ≡ a * b }
{
    a as u128 * b as u128
}

/// Whether much was written above the base, in thousandths of its rows.
fn is_much(percent: u64, base: u64, tally: Tally) -> bool
    ensures { result ≡ is_much_by percent base tally }
{
    let rows = tally.kept.saturating_sub(tally.gone);
    let limit = product(percent, rows);
    let above = product(1000, tally.above);
    both(base > 0, limit < above)
}

fn kind_over(base: u64) -> JobKind
    ensures { result ≡ kind_over base }
{
    if base > 0 {
        JobKind::Minor
    } else {
        JobKind::Major
    }
}

fn one_if(test: bool) -> u128
    ensures is { result ≡ one_if test }
    ensures bound { result ≤ 1 }
{
    if test { 1 } else { 0 }
}

/// Whether there is nothing to merge.
pub fn is_empty(kind: JobKind, pieces: JobPieces) -> bool
    ensures { result ≡ is_empty_of kind (pieces_in pieces) }
{
    match kind {
        JobKind::Minor => both(pieces.ins <= 1, pieces.del <= 1),
        JobKind::Major => { pieces.ins as u128 + pieces.del as u128 + one_if(pieces.base) < 2 }
    }
}

/// Whether there are more deltas and delete deltas than this.
fn are_more(number: u64, pieces: JobPieces) -> bool
    ensures { result ≡ nat_lt number (pieces.ins + pieces.del) }
{
    (number as u128) < pieces.ins as u128 + pieces.del as u128
}

/// The kind that the thresholds ask for.
fn asked_kind(
    number: u64,
    percent: u64,
    base: u64,
    pieces: JobPieces,
    tally: Tally,
) -> Option<JobKind>
    ensures { result ≡ kind_by number percent base (pieces_in pieces) tally }
{
    if is_much(percent, base, tally) {
        Some(JobKind::Major)
    } else if are_more(number, pieces) {
        Some(kind_over(base))
    } else {
        None
    }
}

fn unless_empty(pieces: JobPieces, kind: Option<JobKind>) -> Option<JobKind>
    ensures { result ≡ unless_empty (pieces_in pieces) kind }
{
    match kind {
        Some(kind) => {
            if is_empty(kind, pieces) {
                None
            } else {
                Some(kind)
            }
        }
        None => None,
    }
}

/// What is due by these numbers.
fn due_by(number: u64, percent: u64, reach: Reach, tally: Tally) -> Option<JobKind>
    ensures { result ≡ due_by number percent reach tally }
{
    let pieces = pieces_by(reach, JobKind::Major, None, tally);
    unless_empty(
        pieces,
        asked_kind(number, percent, reach.base, pieces, tally),
    )
}

fn may_ask(book: &Book, table: u64, jobs: Survey) -> bool
    ensures { result ≡ may_ask_by (state_of book.now.entries) table jobs }
{
    let failed = failed_note(opening(book), jobs.last);
    both(is_live(book, table), both(!jobs.busy, !failed))
}

/// Which compaction of the partition is due, by the thresholds that were set since the store was opened. It walks the jobs,
/// the transactions, and the table's write ids twice.
///
/// # Errors
/// `NoMemory` only where commits say of the partition that they wrote 2^64 - 1 rows or more: there may be no room for such
/// numbers.
pub fn due(book: &Book, table: TableId, partition: &Text) -> Result<Option<JobKind>, NoMemory>
    ensures due { IfOk result (λ kind. kind ≡ due (state_of book.now.entries) table.0 partition.now) }
    ensures few { HasFewRows (state_of book.now.entries) table.0 partition.now → IsOk result }
{
    let jobs = survey_in(book, table.0, partition);
    if !may_ask(book, table.0, jobs) {
        return Ok(None);
    }
    let mark = watermark(book, table);
    let reach = reach_of(book, table.0, jobs, mark.0);
    let tally = walk(book, table.0, partition.as_str(), reach);
    if !is_counted(tally) {
        return Err(NoMemory);
    }
    let number = delta_threshold(book);
    let percent = percent_threshold(book);
    Ok(due_by(number, percent, reach, tally))
}
