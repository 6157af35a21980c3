ghost use Rattle.std.specs.Prelude.{◌≡◌};

use crate::jobs::{JobRange, Jobs, Step};
use crate::notes::{
    End, Held, TableNote, TransactionNote, append, close, count_one, drop_table, finish, is_open,
    let_go, start,
};
use hv_base::NoMemory;
use hv_history::{Entry, numbered};
use std::alloc::Global;

/// What a book keeps beside its entries. `room` more entries can be noted without asking for memory.
#[derive(Drop)]
pub struct Index {
    pub opened: Vec<u64>,
    pub transactions: Vec<TransactionNote>,
    pub ongoing: Vec<u64>,
    pub texts: Vec<Option<u64>>,
    pub tables: Vec<TableNote>,
    pub held: Vec<Held>,
    pub commits: Vec<u64>,
    pub jobs: Jobs,
    pub room: usize,
}

impl Index {
    ghost use Rattle.std.specs.Prelude.{◌≡◌, ◌≤◌, ◌<◌, ◌+◌, ◌-◌, ◌^◌, ◌++◌, ◌∷◌, [], false, max, IsOk, OnOk};
    ghost use Rattle.std.specs.List.{AllByRecursion};
    ghost use Rattle.hv_book.specs.Notes.{no_notes, noted, noted_opened, noted_start, noted_given, noted_commit, noted_create, noted_drop, noted_job, ending};
    ghost use Rattle.hv_book.specs.Jobs.{stepped};
    ghost use Rattle.hv_book.specs.declared.jobs.Step.TheVariants as step;
    ghost use Rattle.hv_book.specs.Index.{notes_in, Spares};

    /// The index of no entries. It takes no memory.
    pub fn new(alloc: Global) -> Index
        ensures notes { notes_in result ≡ no_notes }
        ensures room { result.room ≡ 0 }
        ensures spares { Spares result.room result }
    {
        Index {
            opened: Vec::new(alloc),
            transactions: Vec::new(alloc),
            ongoing: Vec::new(alloc),
            texts: Vec::new(alloc),
            tables: Vec::new(alloc),
            held: Vec::new(alloc),
            commits: Vec::new(alloc),
            jobs: Jobs::new(alloc),
            room: 0,
        }
    }

    /// Makes room for so many entries more.
    pub fn reserve(&mut self, more: usize) -> Result<(), NoMemory>
        requires spares { Spares self.old.room self.old }
        ensures notes { notes_in self.new ≡ notes_in self.old }
        ensures spares { Spares self.new.room self.new }
        ensures room { self.old.room ≤ self.new.room }
        ensures enough { OnOk result (more ≤ self.new.room) }
        ensures limit { self.new.room ≤ max self.old.room more }
        ensures has { more ≤ self.old.room → IsOk result }
    {
        if more <= self.room {
            return Ok(());
        }
        self.opened.reserve(more)?;
        self.transactions.reserve(more)?;
        self.ongoing.reserve(more)?;
        self.texts.reserve(more)?;
        self.tables.reserve(more)?;
        self.held.reserve(more)?;
        self.commits.reserve(more)?;
        self.jobs.reserve(more)?;
        self.room = more;
        Ok(())
    }

    fn note_opened(&mut self, place: u64)
        requires spares { Spares self.old.room self.old }
        requires room { 0 < self.old.room }
        ensures notes { notes_in self.new ≡ noted_opened place (notes_in self.old) }
        ensures spares { Spares (self.old.room - 1) self.new }
        ensures room { self.new.room ≡ self.old.room }
    {
        let number = self.transactions.len() as u64 + 1;
        append(&mut self.opened, place);
        append(
            &mut self.transactions,
            TransactionNote {
                started: None,
                ending: None,
            },
        );
        append(&mut self.ongoing, number);
    }

    fn note_given(&mut self, place: u64, txn: u64, table: u64, write: u64)
        requires spares { Spares self.old.room self.old }
        requires room { 0 < self.old.room }
        requires below { AllByRecursion (λ note. note.high ≤ place) self.old.tables.items }
        requires limit { place + 1 < 2 ^ 64 }
        ensures notes { notes_in self.new ≡ noted_given txn table write (notes_in self.old) }
        ensures spares { Spares (self.old.room - 1) self.new }
        ensures room { self.new.room ≡ self.old.room }
    {
        count_one(&mut self.tables, table, place);
        if is_open(&self.transactions, txn) {
            append(&mut self.held, Held { txn, table, write });
        }
    }

    #[tactic(auto, unfolding(crate::specs::Notes::ending))]
    fn note_end(&mut self, place: u64, committed: bool, txn: u64)
        requires spares { Spares self.old.room self.old }
        ensures notes { notes_in self.new ≡ ending place committed txn (notes_in self.old) }
        ensures spares { Spares self.old.room self.new }
        ensures room { self.new.room ≡ self.old.room }
    {
        let end_here = End {
            at: place,
            committed,
        };
        finish(&mut self.transactions, txn, end_here);
        close(&mut self.ongoing, txn);
        let_go(&mut self.held, txn);
    }

    #[tactic(auto, unfolding(crate::specs::Notes::ending))]
    fn note_commit(&mut self, place: u64, txn: u64)
        requires spares { Spares self.old.room self.old }
        requires room { 0 < self.old.room }
        ensures notes { notes_in self.new ≡ noted_commit place txn (notes_in self.old) }
        ensures spares { Spares (self.old.room - 1) self.new }
        ensures room { self.new.room ≡ self.old.room }
    {
        let was_open = is_open(&self.transactions, txn);
        self.note_end(place, true, txn);
        if was_open {
            append(&mut self.commits, place);
        }
    }

    #[tactic(auto, unfolding(crate::specs::Notes::ending))]
    fn note_create(&mut self, place: u64, txn: u64, table: u64)
        requires spares { Spares self.old.room self.old }
        requires room { 0 < self.old.room }
        ensures notes { notes_in self.new ≡ noted_create place txn table (notes_in self.old) }
        ensures spares { Spares (self.old.room - 1) self.new }
        ensures room { self.new.room ≡ self.old.room }
    {
        let text = numbered(&self.opened, txn).copied();
        self.note_end(place, true, txn);
        append(&mut self.texts, text);
        append(
            &mut self.tables,
            TableNote {
                id: table,
                is_live: true,
                high: 0,
            },
        );
    }

    #[tactic(auto, unfolding(crate::specs::Notes::ending))]
    fn note_drop(&mut self, place: u64, txn: u64, table: u64)
        requires spares { Spares self.old.room self.old }
        ensures notes { notes_in self.new ≡ noted_drop place txn table (notes_in self.old) }
        ensures spares { Spares self.old.room self.new }
        ensures room { self.new.room ≡ self.old.room }
    {
        self.note_end(place, true, txn);
        drop_table(&mut self.tables, table);
    }

    fn note_published(&mut self, place: u64, job: u64, low: u64, high: u64, mark: u64)
        requires spares { Spares self.old.room self.old }
        ensures notes { notes_in self.new ≡ noted_job
            (stepped (step.Published place (record { low = low; high = high; mark = mark })))
            job (notes_in self.old) }
        ensures spares { Spares self.old.room self.new }
        ensures room { self.new.room ≡ self.old.room }
    {
        let range = JobRange { low, high, mark };
        self.jobs.change(job, Step::Published { place, range });
    }

    /// Notes an entry at its place, and leaves the room to be lowered.
    fn act(&mut self, place: u64, entry: &Entry)
        requires spares { Spares self.old.room self.old }
        requires room { 0 < self.old.room }
        requires below { AllByRecursion (λ note. note.high ≤ place) self.old.tables.items }
        requires limit { place + 1 < 2 ^ 64 }
        ensures notes { notes_in self.new ≡ noted place entry.now (notes_in self.old) }
        ensures spares { Spares (self.old.room - 1) self.new }
        ensures room { self.new.room ≡ self.old.room }
    {
        match entry {
            Entry::Opened { .. } => self.note_opened(place),
            Entry::Start { txn, .. } => start(&mut self.transactions, txn.0, place),
            Entry::Given { txn, table, write } => self.note_given(place, txn.0, table.0, write.0),
            Entry::Commit { txn, .. } => self.note_commit(place, txn.0),
            Entry::Abort { txn, .. } => self.note_end(place, false, txn.0),
            Entry::Create { txn, table } => self.note_create(place, txn.0, table.0),
            Entry::Drop { txn, table } => self.note_drop(place, txn.0, table.0),
            Entry::Asked { table, kind, .. } => self.jobs.add(table.0, *kind, place),
            Entry::Picked { job, watermark } => {
                let watermark = watermark.0;
                self.jobs.change(job.0, Step::Picked { watermark });
            }
            Entry::Published {
                job,
                low,
                high,
                mark,
            } => self.note_published(place, job.0, low.0, high.0, mark.0),
            Entry::Empty { job } => self.jobs.change(job.0, Step::Empty { place }),
            Entry::Cleaned { job } => self.jobs.change(job.0, Step::Cleaned),
            Entry::Failed { job, .. } => self.jobs.change(job.0, Step::Failed { place }),
            Entry::Boot { .. } | Entry::Forgot { .. } => {}
            Entry::Next { .. } | Entry::Did { .. } | Entry::Alter { .. } => {}
        }
    }

    /// Notes an entry at its place.
    pub fn note(&mut self, place: u64, entry: &Entry)
        requires spares { Spares self.old.room self.old }
        requires room { 0 < self.old.room }
        requires below { AllByRecursion (λ note. note.high ≤ place) self.old.tables.items }
        requires limit { place + 1 < 2 ^ 64 }
        ensures notes { notes_in self.new ≡ noted place entry.now (notes_in self.old) }
        ensures spares { Spares self.new.room self.new }
        ensures room { self.new.room + 1 ≡ self.old.room }
    {
        self.act(place, entry);
        self.room -= 1;
    }
}
