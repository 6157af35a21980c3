ghost use Rattle.std.specs.Prelude.{◌≡◌, ◌≤◌, ◌<◌, ◌+◌, ◌++◌, ◌∷◌, [], length, map, OnOk, OnErr, IfErr};
ghost use Rattle.std.specs.List.{AllByRecursion};
ghost use Rattle.hv_base.specs.Told.{Moves, StaysTold};
ghost use Rattle.hv_history.specs.declared.entry.Entry.TheVariants as entries;
ghost use Rattle.hv_history.specs.Spelling.{entry_spelling};
ghost use Rattle.hv_history.specs.Journal.{place_of};
ghost use Rattle.hv_history.specs.Book.{tree_of_entry};
ghost use Rattle.hv_journal.specs.Appending.{Holds, KeepsTree};
ghost use Rattle.hv_trail.specs.Steps.{Step};
ghost use Rattle.hv_trail.specs.Steps as calls;
ghost use Rattle.hv_house.specs.Faults.{FileCause, EndsRun, HardStep};
ghost use Rattle.hv_house.specs.House.{entries_of, entry_limit, book_limit, IsSmall, IsKept, AreNoted, IsNoted, AreHalted, IsHalted};
ghost use Rattle.hv_house.specs.Steps.{seen_of, outcome_of, KeepsMarks, ClosesBy};
ghost use Rattle.hv_trail.specs.Kept.{trail_of};
ghost use Rattle.hv_trail.specs.Spare.{HavePlaces};
ghost use Rattle.hv_trail.specs.declared.trail.TrailItem.TheVariants.{Noted};

use crate::buffer::RecordBuffer;
use crate::fault::HouseFault;
use hv_ast::Stmt;
use hv_base::{Limits, TxnId};
use hv_history::Entry;
use hv_journal::records_length;
use hv_shelf::{Shelf, ShelfFault};
use hv_trail::KeptTrail;
use std::slice::from_ref;
use std::snapshot::Snapshot;

/// The warehouse over a store: the store, the place of its journal's closed gate, and what happened to it.
#[derive(Drop)]
pub struct House<D> {
    /// The store that it was opened over, for contracts alone.
    pub(crate) start: Snapshot<D>,
    pub(crate) shelf: D,
    /// The place of the journal's closed gate.
    pub(crate) place: u64,
    /// Where records are spelled.
    pub(crate) buffer: RecordBuffer,
    /// The journal's entries, and the marks between them.
    pub(crate) trail: KeptTrail,
    /// How much it may hold.
    pub(crate) limits: Limits,
}

pub(crate) fn discard<T: Drop>(_value: T) {}

impl<D: Shelf> House<D> {
    /// Makes room for these entries and writes them into the journal, all of them or none.
    fn write(&mut self, first: &Entry, more: &[Entry]) -> Result<(), HouseFault>
        requires kept { IsKept D.told self.old }
        requires small { AllByRecursion IsSmall (first.now ∷ more.now) }
        requires room { length (entries_of self.old) + length (first.now ∷ more.now) ≤ book_limit }
        ensures journal { OnOk result
            (Holds (D.told self.new.shelf) (entries_of self.old ++ first.now ∷ more.now)) }
        ensures place { OnOk result
            (self.new.place ≡ self.old.place + place_of (first.now ∷ more.now)) }
        ensures entries { entries_of self.new ≡ entries_of self.old }
        ensures places { OnOk result
            (HavePlaces (entries_of self.new) self.new.trail.spare first.now (length more.now)) }
        ensures tree { Moves KeepsTree (D.told self.old.shelf) (D.told self.new.shelf) }
        ensures halted { IfErr result (λ fault.
            AreHalted D.told (first.now ∷ more.now) fault self.old self.new) }
        ensures marks { KeepsMarks self.old self.new }
        ensures running { OnOk result (self.new.trail.closed ≡ self.old.trail.closed) }
        ensures closed { IfErr result (λ fault.
            ClosesBy fault self.old.trail.closed self.new.trail.closed) }
        ensures stays { OnErr result (self.new.place ≡ self.old.place) }
        ensures ends { IfErr result EndsRun }
        ensures cause { FileCause (D.faults self.old.shelf) (D.faults self.new.shelf) result }
        ensures hard { HardStep (D.hard self.old.shelf) (D.hard self.new.shelf)
            self.old.trail.closed self.new.trail.closed }
    {
        self.buffer.reserve(records_length(first, more))?;
        self.trail.reserve_for(first, more.len())?;
        match self
            .buffer
            .append(&mut self.shelf, &mut self.place, first, more)
        {
            Ok(()) => Ok(()),
            Err(ShelfFault::Failed) => {
                self.trail.close();
                Err(HouseFault::Store)
            }
            Err(ShelfFault::NoMemory) => Err(HouseFault::NoMemory),
        }
    }

    /// Adds what happened: in the journal, and behind the book. `tree` is that of the entry's text.
    #[tactic(auto, using(crate::proofs::Stays::stays_of))]
    pub(crate) fn add(&mut self, entry: Entry, tree: Option<Stmt>) -> Result<(), HouseFault>
        requires kept { IsKept D.told self.old }
        requires tree { tree ≡ tree_of_entry entry }
        requires short { length (entry_spelling entry) ≤ entry_limit }
        requires room { length (entries_of self.old) < book_limit }
        ensures noted { OnOk result (IsNoted D.told entry self.old self.new) }
        ensures tree { Moves KeepsTree (D.told self.old.shelf) (D.told self.new.shelf) }
        ensures tells { StaysTold (D.told self.old.shelf) (D.told self.new.shelf) }
        ensures halted { IfErr result (λ fault. IsHalted D.told entry fault self.old self.new) }
        ensures marks { KeepsMarks self.old self.new }
        ensures closed { IfErr result (λ fault.
            ClosesBy fault self.old.trail.closed self.new.trail.closed) }
        ensures step { Step D.told D.faults (calls.Note entry) (outcome_of result)
            (seen_of self.old) (seen_of self.new) }
        ensures stays { OnErr result (self.new.place ≡ self.old.place) }
        ensures ends { IfErr result EndsRun }
        ensures cause { FileCause (D.faults self.old.shelf) (D.faults self.new.shelf) result }
        ensures hard { HardStep (D.hard self.old.shelf) (D.hard self.new.shelf)
            self.old.trail.closed self.new.trail.closed }
    {
        match self.write(&entry, &[]) {
            Ok(()) => {
                self.trail.push(entry, tree)?;
                Ok(())
            }
            Err(fault) => {
                discard(entry);
                discard(tree);
                Err(fault)
            }
        }
    }

    /// Writes an entry and a transaction's `Start` behind it into the journal, both of them or none.
    #[tactic(auto, using(crate::proofs::Lengths::short_start))]
    fn write_with_start(&mut self, entry: &Entry, txn: TxnId) -> Result<(), HouseFault>
        requires kept { IsKept D.told self.old }
        requires short { length (entry_spelling entry.now) ≤ entry_limit }
        requires room { length (entries_of self.old) + 2 ≤ book_limit }
        ensures journal { OnOk result (Holds (D.told self.new.shelf)
            (entries_of self.old ++ entry.now ∷ entries.Start txn 0 ∷ [])) }
        ensures place { OnOk result
            (self.new.place ≡ self.old.place + place_of (entry.now ∷ entries.Start txn 0 ∷ [])) }
        ensures entries { entries_of self.new ≡ entries_of self.old }
        ensures places { OnOk result
            (HavePlaces (entries_of self.new) self.new.trail.spare entry.now
            (length (entries.Start txn 0 ∷ []))) }
        ensures tree { Moves KeepsTree (D.told self.old.shelf) (D.told self.new.shelf) }
        ensures halted { IfErr result (λ fault.
            AreHalted D.told (entry.now ∷ entries.Start txn 0 ∷ []) fault self.old self.new) }
        ensures marks { KeepsMarks self.old self.new }
        ensures running { OnOk result (self.new.trail.closed ≡ self.old.trail.closed) }
        ensures closed { IfErr result (λ fault.
            ClosesBy fault self.old.trail.closed self.new.trail.closed) }
        ensures stays { OnErr result (self.new.place ≡ self.old.place) }
        ensures ends { IfErr result EndsRun }
        ensures cause { FileCause (D.faults self.old.shelf) (D.faults self.new.shelf) result }
        ensures hard { HardStep (D.hard self.old.shelf) (D.hard self.new.shelf)
            self.old.trail.closed self.new.trail.closed }
    {
        let start = Entry::Start { txn, statement: 0 };
        self.write(entry, from_ref(&start))
    }

    /// Adds an entry and a transaction's `Start` behind it, both of them or none.
    #[tactic(auto, using(crate::proofs::Stays::stays_of))]
    pub(crate) fn add_with_start(
        &mut self,
        entry: Entry,
        tree: Option<Stmt>,
        txn: TxnId,
    ) -> Result<(), HouseFault>
        requires kept { IsKept D.told self.old }
        requires tree { tree ≡ tree_of_entry entry }
        requires short { length (entry_spelling entry) ≤ entry_limit }
        requires room { length (entries_of self.old) + 2 ≤ book_limit }
        ensures noted { OnOk result
            (AreNoted D.told (entry ∷ entries.Start txn 0 ∷ []) self.old self.new) }
        ensures tells { StaysTold (D.told self.old.shelf) (D.told self.new.shelf) }
        ensures halted { IfErr result (λ fault.
            AreHalted D.told (entry ∷ entries.Start txn 0 ∷ []) fault self.old self.new) }
        ensures marks { KeepsMarks self.old self.new }
        ensures trail { OnOk result (trail_of self.new.trail
            ≡ trail_of self.old.trail ++ map Noted (entry ∷ entries.Start txn 0 ∷ [])) }
        ensures running { OnOk result (self.new.trail.closed ≡ self.old.trail.closed) }
        ensures closed { IfErr result (λ fault.
            ClosesBy fault self.old.trail.closed self.new.trail.closed) }
        ensures stays { OnErr result (self.new.place ≡ self.old.place) }
        ensures ends { IfErr result EndsRun }
        ensures cause { FileCause (D.faults self.old.shelf) (D.faults self.new.shelf) result }
        ensures hard { HardStep (D.hard self.old.shelf) (D.hard self.new.shelf)
            self.old.trail.closed self.new.trail.closed }
    {
        match self.write_with_start(&entry, txn) {
            Ok(()) => {
                self.trail.push(entry, tree)?;
                self.trail.push(Entry::Start { txn, statement: 0 }, None)?;
                Ok(())
            }
            Err(fault) => {
                discard(entry);
                discard(tree);
                Err(fault)
            }
        }
    }
}
