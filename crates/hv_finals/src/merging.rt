ghost use Rattle.std.specs.Prelude.{◌≡◌, Some, None};
ghost use Rattle.hv_history.specs.State.{state_of, Job, numbered};
ghost use Rattle.hv_book.specs.Jobs.{is_working_note};
ghost use Rattle.hv_finals.specs.Finals.{merge_if, merge_noted, merge_in, works_at};

use hv_base::JobId;
use hv_book::{Book, JobNote};
use hv_history::{JobKind, numbered};
use hv_queue::hv_tallies::both;
use hv_queue::{JobPieces, is_empty, pieces};

/// What a compaction job merges: the write ids from `low` to `high` of its table. `asked` is the place of its Asked, where its partition
/// stands.
#[derive(Clone, Copy)]
pub struct Merge {
    pub table: u64,
    pub asked: u64,
    pub kind: JobKind,
    pub low: u64,
    pub high: u64,
}

/// Whether the job that is noted so was picked and has not ended.
fn is_working(note: &JobNote) -> bool
    ensures { result ≡ is_working_note note.now }
{
    let unended = both(!note.is_empty, !note.is_failed);
    let unpublished = both(note.published.is_none(), unended);
    both(note.watermark.is_some(), unpublished)
}

/// Whether the job of this number is at work.
pub fn is_at_work(book: &Book, job: JobId) -> bool
    ensures works { result ≡ works_at (numbered (state_of book.now.entries).jobs job.0) }
{
    match numbered(book.jobs(), job.0) {
        Some(note) => is_working(note),
        None => false,
    }
}

fn merge_if(empty: bool, merge: Merge) -> Option<Merge>
    ensures { result ≡ merge_if empty merge }
{
    if empty { None } else { Some(merge) }
}

/// What the job that is noted so merges, of these pieces.
fn merge_noted(note: &JobNote, merged: JobPieces) -> Option<Merge>
    ensures { result ≡ merge_noted note.now merged }
{
    let empty = is_empty(note.kind, merged);
    let merge = Merge {
        table: note.table,
        asked: note.asked,
        kind: note.kind,
        low: merged.low.0,
        high: merged.high.0,
    };
    merge_if(empty, merge)
}

/// What the job of this number merges, under its own watermark. None where it has nothing to merge, and where there is no such job. It
/// walks the jobs and the table's write ids.
pub fn merge_of(book: &Book, job: JobId) -> Option<Merge>
    ensures merge { (j : Job) → numbered (state_of book.now.entries).jobs job.0 ≡ Some j
        → result ≡ merge_in (state_of book.now.entries) j }
    ensures none { numbered (state_of book.now.entries).jobs job.0 ≡ None → result ≡ None }
{
    match numbered(book.jobs(), job.0) {
        Some(note) => {
            let merged = pieces(book, job);
            merge_noted(note, merged)
        }
        None => None,
    }
}
