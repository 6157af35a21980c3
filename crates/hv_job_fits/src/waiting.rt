ghost use Rattle.std.specs.Prelude.{◌≡◌, ◌↔◌, IsTrue};
ghost use Rattle.hv_queue.specs.hv_history.specs.State.{state_of};
ghost use Rattle.hv_queue.specs.hv_history.specs.JobsFit.{OfJob, PickedFits};
ghost use Rattle.hv_job_fits.specs.Notes.{is_waiting, is_lowest};

use crate::notes::job_note;
use hv_base::{JobId, Limits, TableId, WriteId};
use hv_queue::hv_tallies::both;
use hv_queue::hv_tallies::hv_earlier::hv_meta::has_room;
use hv_queue::hv_tallies::hv_earlier::hv_meta::hv_book::{Book, JobNote};
use hv_queue::{is_live, watermark};

/// Whether nobody took up the job that is noted so, and its table is live.
fn is_waiting(book: &Book, note: &JobNote) -> bool
    ensures { result ≡ is_waiting (state_of book.now.entries) note.now }
{
    let initiated = both(note.watermark.is_none(), note.ended.is_none());
    let live = is_live(book, note.table);
    both(initiated, live)
}

/// Whether the first of these that waits is the one of that number, from 1.
fn is_lowest(book: &Book, notes: &[JobNote], number: u64) -> bool
    ensures { result ≡ is_lowest (state_of book.now.entries) number notes.now }
{
    let mut left = number;
    for note in notes {
        if is_waiting(book, note) {
            return left == 1;
        }
        left = left.saturating_sub(1);
    }
    false
}

/// Whether it fits the book that the job is taken up with that watermark. It walks the jobs, and the table's write ids.
pub fn picked_fits(book: &Book, limits: &Limits, job: JobId, mark: WriteId) -> bool
    ensures fits { IsTrue result ↔ OfJob (state_of book.now.entries) job.0
        (PickedFits limits.now (state_of book.now.entries) job.0 mark.0) }
{
    match job_note(book, job) {
        Some(note) => {
            let lowest = is_lowest(book, book.jobs(), job.0);
            let front = watermark(book, TableId(note.table));
            let room = has_room(book, limits, 2);
            let rest = both(mark.0 == front.0, room);
            both(lowest, rest)
        }
        None => false,
    }
}
