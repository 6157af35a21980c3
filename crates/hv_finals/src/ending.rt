ghost use Rattle.std.specs.Prelude.{◌≡◌, Some};
ghost use Rattle.hv_history.specs.State.{state_of, Job, numbered};
ghost use Rattle.hv_law_made.specs.Opening.{is_among, job_end};
ghost use Rattle.hv_book.specs.Briefs.{brief_job};
ghost use Rattle.hv_finals.specs.Finals.{entry_of, entries_of_end, end_entries, end_by};

use crate::merging::is_at_work;
use hv_base::JobId;
use hv_book::{Book, JobNote, JobRange};
use hv_history::numbered;
use hv_meta::next_txn;
use hv_queue::hv_tallies::both;
use hv_queue::{is_empty, is_live, pieces};

/// How an opening ends a job that was at work.
#[derive(Clone, Copy)]
pub enum JobEnd {
    /// Its directories stand: it is published, with this range and mark.
    Published(JobRange),
    /// It has failed. `gone` is whether its table was dropped.
    Failed { gone: bool },
}

fn is_among(numbers: &[u64], number: u64) -> bool
    ensures { result ≡ is_among numbers.now number }
{
    for other in numbers {
        if *other == number {
            return true;
        }
    }
    false
}

fn end_by(live: bool, publish: bool, range: JobRange) -> JobEnd
    ensures { result ≡ end_by live publish range }
{
    if live {
        if publish {
            JobEnd::Published(range)
        } else {
            JobEnd::Failed { gone: false }
        }
    } else {
        JobEnd::Failed { gone: true }
    }
}

/// How the job at work ends that is noted so, where these are whole.
fn end_noted(book: &Book, whole: &[u64], job: JobId, note: &JobNote) -> JobEnd
    ensures { (j : Job) → numbered (state_of book.now.entries).jobs job.0 ≡ Some j → note.now ≡ brief_job j
        → entry_of job.0 result ≡ job_end whole.now (state_of book.now.entries) job.0 j }
{
    let merged = pieces(book, job);
    let empty = is_empty(note.kind, merged);
    let listed = is_among(whole, job.0);
    let publish = both(listed, !empty);
    let live = is_live(book, note.table);
    let next = next_txn(book);
    let range = JobRange {
        low: merged.low.0,
        high: merged.high.0,
        mark: next.0,
    };
    end_by(live, publish, range)
}

/// How the job of this number ends, where it is at work and the ones of these numbers are whole: it is published where it is among them, its
/// table is live, and it has something to merge. None where it isn't at work. It walks the jobs and the table's write ids.
pub fn end_of(book: &Book, whole: &[u64], job: JobId) -> Option<JobEnd>
    ensures end { entries_of_end job.0 result
        ≡ end_entries whole.now (state_of book.now.entries) job.0 (numbered (state_of book.now.entries).jobs job.0) }
{
    match numbered(book.jobs(), job.0) {
        Some(note) => {
            if is_at_work(book, job) {
                Some(end_noted(book, whole, job, note))
            } else {
                None
            }
        }
        None => None,
    }
}
