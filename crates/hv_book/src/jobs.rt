ghost use Rattle.std.specs.Prelude.{◌≡◌, ◌+◌, ◌<◌, ◌≤◌, ◌++◌, ◌∷◌, [], vec_len, vec_capacity};
ghost use Rattle.hv_book.specs.Jobs.{stepped, is_working_note, working_note};

use hv_base::NoMemory;
use hv_history::{JobKind, place_of};
use std::alloc::Global;
use std::marker::Model;

/// The write ids that a published job merged, from `low` to `high`, and its mark: transactions from there on
/// don't need what it covers.
#[derive(Clone, Copy)]
pub struct JobRange {
    pub low: u64,
    pub high: u64,
    pub mark: u64,
}

/// How far a compaction job has come. `asked` is the place of its Asked, which has its partition, and `ended` that
/// of the first entry that ended its work.
#[derive(Clone, Copy)]
pub struct JobNote {
    pub table: u64,
    pub kind: JobKind,
    pub asked: u64,
    pub watermark: Option<u64>,
    pub published: Option<JobRange>,
    pub is_empty: bool,
    pub is_cleaned: bool,
    pub is_failed: bool,
    pub ended: Option<u64>,
}

/// What happened to a job, and at which place where that ended its work.
#[derive(Clone, Copy)]
pub enum Step {
    Picked { watermark: u64 },
    Published { place: u64, range: JobRange },
    Empty { place: u64 },
    Cleaned,
    Failed { place: u64 },
}

/// The jobs, by number from 1, and beside them how many are at work. Contracts see the jobs, and how many
/// more fit without asking for memory.
#[derive(Drop)]
pub struct Jobs {
    notes: Vec<JobNote>,
    working: u64,
}

impl Model for Jobs {
    ghost use Rattle.std.specs.Prelude.{◌≡◌, ◌-◌, vec_len, vec_capacity, sum_by};
    ghost use Rattle.hv_book.specs.Jobs.{JobList, working_note};

    ghost Value = { JobList };

    ghost view = { λ jobs. record {
      notes = jobs.notes.items;
      room = vec_capacity jobs.notes - vec_len jobs.notes;
    } };

    ghost invariant = { λ jobs. jobs.working ≡ sum_by working_note jobs.notes.items };
}

/// Appends to a vector that has room.
fn append(items: &mut Vec<JobNote>, item: JobNote)
    requires room { vec_len items.old < vec_capacity items.old }
    ensures items { items.new.items ≡ items.old.items ++ item ∷ [] }
    ensures len { vec_len items.new ≡ vec_len items.old + 1 }
    ensures capacity { vec_capacity items.old ≤ vec_capacity items.new }
{
    items.push(item).unwrap();
}

/// The job behind a step.
pub fn stepped(job: JobNote, step: Step) -> JobNote
    ensures { result ≡ stepped step job }
{
    let mut next = job;
    match step {
        Step::Picked { watermark } => next.watermark = job.watermark.or(Some(watermark)),
        Step::Published { place, range } => {
            next.published = job.published.or(Some(range));
            next.ended = job.ended.or(Some(place));
        }
        Step::Empty { place } => {
            next.is_empty = true;
            next.ended = job.ended.or(Some(place));
        }
        Step::Cleaned => next.is_cleaned = true,
        Step::Failed { place } => {
            next.is_failed = true;
            next.ended = job.ended.or(Some(place));
        }
    }
    next
}

/// Whether the job was picked and has not ended.
fn is_working(job: JobNote) -> bool
    ensures { result ≡ is_working_note job }
{
    job.watermark.is_some() && job.published.is_none() && !job.is_empty && !job.is_failed
}

/// 1 where the job is at work, or 0.
fn working_one(job: JobNote) -> u64
    ensures { result ≡ working_note job }
{
    if is_working(job) { 1 } else { 0 }
}

impl Jobs {
    ghost use Rattle.std.specs.Prelude.{◌≡◌, ◌+◌, ◌<◌, ◌≤◌, ◌++◌, ◌∷◌, [], OnOk, sum_by};
    ghost use Rattle.hv_history.specs.State.{changed};
    ghost use Rattle.hv_book.specs.Jobs.{new_job, stepped, working_note};

    /// No jobs. It takes no memory.
    pub fn new(alloc: Global) -> Jobs
        ensures notes { result.notes ≡ [] }
    {
        Jobs {
            notes: Vec::new(alloc),
            working: 0,
        }
    }

    /// Makes room for so many jobs more.
    pub fn reserve(&mut self, more: usize) -> Result<(), NoMemory>
        ensures notes { self.new.notes ≡ self.old.notes }
        ensures room { self.old.room ≤ self.new.room }
        ensures enough { OnOk result (more ≤ self.new.room) }
    {
        self.notes.reserve(more)?;
        Ok(())
    }

    /// Notes a job of that table and kind that was asked for at this place.
    pub fn add(&mut self, table: u64, kind: JobKind, place: u64)
        requires room { 0 < self.old.room }
        ensures notes { self.new.notes ≡ self.old.notes ++ new_job table kind place ∷ [] }
        ensures room { self.old.room ≤ self.new.room + 1 }
    {
        append(
            &mut self.notes,
            JobNote {
                table,
                kind,
                asked: place,
                watermark: None,
                published: None,
                is_empty: false,
                is_cleaned: false,
                is_failed: false,
                ended: None,
            },
        );
    }

    /// Notes a step of the job of this number, where there is one.
    pub fn change(&mut self, job: u64, step: Step)
        ensures notes { self.new.notes ≡ changed (stepped step) self.old.notes job }
        ensures room { self.new.room ≡ self.old.room }
    {
        if let Some(at) = place_of(&self.notes, job) {
            let before = self.notes[at];
            let after = stepped(before, step);
            self.notes[at] = after;
            self.working -= working_one(before);
            self.working += working_one(after);
        }
    }

    /// The jobs, by number from 1.
    pub fn as_slice(&self) -> &[JobNote]
        ensures notes { result.now ≡ self.now.notes }
    {
        self.notes.as_slice()
    }

    /// How many jobs were picked and have not ended.
    pub fn working(&self) -> u64
        ensures working { result ≡ sum_by working_note self.now.notes }
    {
        self.working
    }
}
