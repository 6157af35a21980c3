ghost use Rattle.std.specs.Prelude.{◌≡◌};

use crate::notes::append;
use hv_base::NoMemory;
use hv_history::{Cause, Entry, JobCause};
use std::alloc::Global;

/// What is kept of the openings: how many there were, the place of the last Boot, whether only Losts
/// came behind it, and the counts of faults that were kept since.
#[derive(Drop)]
pub struct OpeningNotes {
    pub count: u64,
    pub last: Option<u64>,
    pub only_lost: bool,
    pub kept: Vec<u64>,
}

impl OpeningNotes {
    ghost use Rattle.std.specs.Prelude.{◌≡◌, ◌≤◌, ◌<◌, ◌+◌, ◌^◌, IsOk, OnOk, vec_len, vec_capacity};
    ghost use Rattle.hv_history.specs.State.{no_openings, openings_behind, aborting, failing, keeping};
    ghost use Rattle.hv_book.specs.Index.{openings_in};

    /// The openings of no entries. It takes no memory.
    pub fn new(alloc: Global) -> OpeningNotes
        ensures openings { openings_in result ≡ no_openings }
        ensures len { vec_len result.kept ≡ 0 }
    {
        OpeningNotes {
            count: 0,
            last: None,
            only_lost: false,
            kept: Vec::new(alloc),
        }
    }

    fn note_fault(&mut self, count: u64)
        requires room { vec_len self.old.kept < vec_capacity self.old.kept }
        ensures openings { openings_in self.new ≡ keeping count (openings_in self.old) }
        ensures len { vec_len self.new.kept ≤ vec_len self.old.kept + 1 }
        ensures capacity { vec_capacity self.old.kept ≤ vec_capacity self.new.kept }
    {
        append(&mut self.kept, count);
        self.only_lost = false;
    }

    fn note_cause(&mut self, cause: &Cause)
        requires room { vec_len self.old.kept < vec_capacity self.old.kept }
        ensures openings { openings_in self.new ≡ aborting cause.now (openings_in self.old) }
        ensures len { vec_len self.new.kept ≤ vec_len self.old.kept + 1 }
        ensures capacity { vec_capacity self.old.kept ≤ vec_capacity self.new.kept }
    {
        match cause {
            Cause::Lost => {}
            Cause::ReadFault { count } => self.note_fault(*count),
            Cause::WriteFault { count } => self.note_fault(*count),
            _ => self.only_lost = false,
        }
    }

    fn note_failure(&mut self, cause: &JobCause)
        requires room { vec_len self.old.kept < vec_capacity self.old.kept }
        ensures openings { openings_in self.new ≡ failing cause.now (openings_in self.old) }
        ensures len { vec_len self.new.kept ≤ vec_len self.old.kept + 1 }
        ensures capacity { vec_capacity self.old.kept ≤ vec_capacity self.new.kept }
    {
        match cause {
            JobCause::ReadFault { count } => self.note_fault(*count),
            JobCause::WriteFault { count } => self.note_fault(*count),
            _ => self.only_lost = false,
        }
    }

    /// Notes an entry at its place.
    pub fn note(&mut self, place: u64, entry: &Entry)
        requires room { vec_len self.old.kept < vec_capacity self.old.kept }
        requires below { self.old.count ≤ place }
        requires limit { place + 1 < 2 ^ 64 }
        ensures openings { openings_in self.new ≡ openings_behind place entry.now (openings_in self.old) }
        ensures len { vec_len self.new.kept ≤ vec_len self.old.kept + 1 }
        ensures capacity { vec_capacity self.old.kept ≤ vec_capacity self.new.kept }
    {
        match entry {
            Entry::Boot { .. } => {
                self.count += 1;
                self.last = Some(place);
                self.only_lost = true;
                self.kept.clear();
            }
            Entry::Abort { cause, .. } => self.note_cause(cause),
            Entry::Failed { cause, .. } => self.note_failure(cause),
            _ => self.only_lost = false,
        }
    }
}
