ghost use Rattle.std.specs.Prelude.{◌≡◌, Some};
ghost use Rattle.hv_jobs.specs.hv_history.specs.State.{state_of, Job, numbered};
ghost use Rattle.hv_jobs.specs.Covers.{covers};
ghost use Rattle.hv_tallies.specs.Covered.{covers_note, covers_by_range};

use crate::tally::both;
use hv_base::JobId;
use hv_dirs::DirName;
use hv_earlier::hv_meta::hv_book::{Book, JobNote, JobRange};
use hv_jobs::hv_history::{JobKind, numbered};

/// Whether a minor compaction of these write ids covers the directory.
fn covers_minor(range: JobRange, name: &DirName) -> bool
    ensures { result ≡ covers_by_range JobKind.Minor range name.now }
{
    match name {
        DirName::Own { write, .. } => both(range.low <= write.0, write.0 <= range.high),
        DirName::Wide { low, high, .. } => {
            let same = both(low.0 == range.low, high.0 == range.high);
            both(range.low <= low.0, both(high.0 <= range.high, !same))
        }
        DirName::Base { .. } | DirName::Staged { .. } => false,
    }
}

/// Whether a major one does.
fn covers_major(range: JobRange, name: &DirName) -> bool
    ensures { result ≡ covers_by_range JobKind.Major range name.now }
{
    match name {
        DirName::Base { high } => high.0 < range.high,
        DirName::Own { write, .. } => write.0 <= range.high,
        DirName::Wide { high, .. } => high.0 <= range.high,
        DirName::Staged { .. } => false,
    }
}

/// Whether the job that is noted so covers a directory of this name.
pub fn covers(note: &JobNote, name: &DirName) -> bool
    ensures { result ≡ covers_note note.now name.now }
{
    match note.published {
        Some(range) => match note.kind {
            JobKind::Minor => covers_minor(range, name),
            JobKind::Major => covers_major(range, name),
        },
        None => false,
    }
}

/// Whether the job covers a directory of this name in its partition: false for a job that isn't published.
pub fn may_go(book: &Book, job: JobId, name: &DirName) -> bool
    ensures covered { (j : Job) → numbered (state_of book.now.entries).jobs job.0 ≡ Some j → result ≡ covers j name.now }
{
    match numbered(book.jobs(), job.0) {
        Some(note) => covers(note, name),
        None => false,
    }
}
