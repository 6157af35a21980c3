ghost use Rattle.std.specs.Prelude.{◌≡◌, ◌↔◌, IsTrue};
ghost use Rattle.hv_queue.specs.hv_history.specs.State.{state_of};
ghost use Rattle.hv_queue.specs.hv_history.specs.JobsFit.{OfJob, PublishedFits, EmptyFits, FailedFits, CleanedFits};
ghost use Rattle.hv_job_fits.specs.Notes.{is_past_mark, is_past_note};

use crate::causes::{is_fresh, says_gone};
use crate::notes::{is_ready, is_working, job_note};
use hv_base::{JobId, Limits, TxnId, WriteId};
use hv_queue::hv_history::JobCause;
use hv_queue::hv_tallies::both;
use hv_queue::hv_tallies::hv_earlier::hv_meta::hv_book::{Book, JobRange};
use hv_queue::hv_tallies::hv_earlier::hv_meta::{has_room, next_txn};
use hv_queue::{is_empty, is_live, pieces};

/// Whether it fits the book that the job's directories stand, with that range and mark. It walks the jobs, and the table's
/// write ids.
pub fn published_fits(book: &Book, job: JobId, low: WriteId, high: WriteId, mark: TxnId) -> bool
    ensures fits { IsTrue result ↔ OfJob (state_of book.now.entries) job.0
        (PublishedFits (state_of book.now.entries) low.0 high.0 mark.0) }
{
    match job_note(book, job) {
        Some(note) => {
            let working = is_working(note);
            let live = is_live(book, note.table);
            let merged = pieces(book, job);
            let empty = is_empty(note.kind, merged);
            let ends = both(low.0 == merged.low.0, high.0 == merged.high.0);
            let next = next_txn(book);
            let whole = both(ends, mark.0 == next.0);
            let some = both(!empty, whole);
            let there = both(live, some);
            both(working, there)
        }
        None => false,
    }
}

/// Whether it fits the book that the job has nothing to merge. It walks the jobs, and the table's write ids.
pub fn empty_fits(book: &Book, job: JobId) -> bool
    ensures fits { IsTrue result ↔ OfJob (state_of book.now.entries) job.0
        (EmptyFits (state_of book.now.entries)) }
{
    match job_note(book, job) {
        Some(note) => {
            let working = is_working(note);
            let merged = pieces(book, job);
            let empty = is_empty(note.kind, merged);
            both(working, empty)
        }
        None => false,
    }
}

/// Whether it fits the book that the job is given up for this cause.
pub fn failed_fits(book: &Book, job: JobId, cause: &JobCause) -> bool
    ensures fits { IsTrue result ↔ OfJob (state_of book.now.entries) job.0
        (FailedFits (state_of book.now.entries) cause.now) }
{
    match job_note(book, job) {
        Some(note) => {
            let working = is_working(note);
            let live = is_live(book, note.table);
            let gone = says_gone(cause, live);
            let fresh = is_fresh(book, cause);
            let rest = both(gone, fresh);
            both(working, rest)
        }
        None => false,
    }
}

/// Whether none of these numbers, which rise, is below the mark.
fn is_past_mark(ongoing: &[u64], mark: u64) -> bool
    ensures { result ≡ is_past_mark mark ongoing.now }
{
    match ongoing.get(0) {
        Some(txn) => mark <= *txn,
        None => true,
    }
}

/// Whether there is a range, and no open transaction is below its mark.
fn is_past(book: &Book, range: Option<JobRange>) -> bool
    ensures { result ≡ is_past_note (state_of book.now.entries) range }
{
    match range {
        Some(range) => is_past_mark(book.ongoing(), range.mark),
        None => false,
    }
}

/// Whether it fits the book that all that the job covers was removed.
pub fn cleaned_fits(book: &Book, limits: &Limits, job: JobId) -> bool
    ensures fits { IsTrue result ↔ OfJob (state_of book.now.entries) job.0
        (CleanedFits limits.now (state_of book.now.entries)) }
{
    match job_note(book, job) {
        Some(note) => {
            let ready = is_ready(note);
            let past = is_past(book, note.published);
            let room = has_room(book, limits, 1);
            let rest = both(past, room);
            both(ready, rest)
        }
        None => false,
    }
}
