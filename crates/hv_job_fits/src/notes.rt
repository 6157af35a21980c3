ghost use Rattle.std.specs.Prelude.{◌≡◌, ◌+◌, length};
ghost use Rattle.std.specs.Option.{option_map};
ghost use Rattle.hv_queue.specs.hv_history.specs.State.{state_of, numbered};
ghost use Rattle.hv_queue.specs.hv_tallies.specs.hv_earlier.specs.hv_meta.specs.hv_book.specs.Jobs.{is_working_note};
ghost use Rattle.hv_queue.specs.hv_tallies.specs.hv_earlier.specs.hv_meta.specs.hv_book.specs.Briefs.{brief_job};
ghost use Rattle.hv_job_fits.specs.Notes.{is_ready_note};

use hv_base::JobId;
use hv_queue::hv_history::numbered;
use hv_queue::hv_tallies::both;
use hv_queue::hv_tallies::hv_earlier::hv_meta::hv_book::{Book, JobNote};

/// What is kept of the job of this number.
pub fn job_note(book: &Book, job: JobId) -> Option<JobNote>
    ensures note { result ≡ option_map brief_job (numbered (state_of book.now.entries).jobs job.0) }
{
    numbered(book.jobs(), job.0).copied()
}

/// The number of the next job.
pub fn next_job(book: &Book) -> u64
    ensures next { result ≡ length (state_of book.now.entries).jobs + 1 }
{
    book.jobs().len() as u64 + 1
}

/// How many entries the book has.
pub fn entry_count(book: &Book) -> u64
    ensures count { result ≡ length book.now.entries }
{
    book.entries().len() as u64
}

/// Whether the job was picked and has not ended.
pub fn is_working(note: JobNote) -> bool
    ensures { result ≡ is_working_note note }
{
    let unended = both(!note.is_empty, !note.is_failed);
    let unpublished = both(note.published.is_none(), unended);
    both(note.watermark.is_some(), unpublished)
}

/// Whether it is published, and not all that it covers was removed.
pub fn is_ready(note: JobNote) -> bool
    ensures { result ≡ is_ready_note note }
{
    both(note.published.is_some(), !note.is_cleaned)
}
