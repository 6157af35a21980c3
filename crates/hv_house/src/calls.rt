//! Entries of a transaction, noted by their names: each tests whether the transaction is open, and whether there is room.
ghost use Rattle.std.specs.Prelude.{◌≡◌, ◌↔◌, ◌+◌, ◌<◌, ℕ, None, IsSome, IfOk, IfErr, IsErrOf, length};
ghost use Rattle.hv_base.specs.declared.ids.Limits.{Limits};
ghost use Rattle.hv_history.specs.declared.entry.Entry.TheVariants as entries;
ghost use Rattle.hv_history.specs.Book.{tree_of_entry};
ghost use Rattle.hv_history.specs.State.{state_of, numbered};
ghost use Rattle.hv_history.specs.Legal.{load, Fits, CommitFits, CauseFits, CreateFits, DropFits};
ghost use Rattle.hv_recovery.specs.hv_fits.specs.hv_meta.specs.States.{state_in};
ghost use Rattle.hv_house.specs.declared.calls.EntryFault.TheVariants as fault;
ghost use Rattle.hv_house.specs.House.{entries_of, IsSmall, IsReadyWithin};
ghost use Rattle.hv_house.specs.Steps.{IsMarked};
ghost use Rattle.hv_house.specs.Calls.{place_ended, HasEndedAt, HasNotEnded, HasNoRoom, IfOpen, CanBeGiven, next_id, next_given, next_table, next_create, IsHouseFault, EntryStepWithin};
ghost use Rattle.hv_house.specs.Faults.{HardStep};

use crate::fault::HouseFault;
use crate::house::{House, discard};
use hv_base::{List, TableId, Touch, TxnId, WriteId};
use hv_book::Book;
use hv_history::{Cause, Entry};
use hv_recovery::hv_fits::hv_meta::{TxnState, has_room, state_of};
use hv_shelf::Shelf;
use thiserror::Error;

/// Why an entry of a transaction was not noted.
#[derive(Clone, Copy, Debug, Error)]
pub enum EntryFault {
    /// The entry at this place ended the transaction.
    #[error("the transaction ended at {at}")]
    NotOpen { at: u64 },
    /// The journal has so many entries, and no room for what the call notes.
    #[error("the journal is full")]
    Full { entries: u64 },
    /// A call of the house failed.
    #[error("the house failed")]
    House(HouseFault),
}

/// The place of the entry that ended a transaction.
fn place_ended(state: TxnState) -> Option<u64>
    ensures { result ≡ place_ended state }
{
    match state {
        TxnState::Unknown => None,
        TxnState::Running { .. } => None,
        TxnState::Ended { at } => Some(at),
    }
}

/// The place of the entry that ended a transaction of a book.
pub(crate) fn ended_at(book: &Book, txn: TxnId) -> Option<u64>
    ensures at { result ≡ place_ended (state_in (state_of book.now.entries) txn.0) }
{
    place_ended(state_of(book, txn))
}

impl<D: Shelf> House<D> {
    /// Notes an entry that fits and has no text.
    pub(crate) fn note_entry(&mut self, entry: Entry) -> Result<(), EntryFault>
        ghost limits: { Limits }
        requires ready { IsReadyWithin limits D.told self.old }
        requires textless { tree_of_entry entry ≡ None }
        requires small { IsSmall entry }
        requires fits { Fits limits (state_of (entries_of self.old)) entry }
        requires marked { IsMarked self.old entry }
        ensures step { EntryStepWithin limits D.told D.faults entry self.old self.new result }
        ensures hard { HardStep (D.hard self.old.shelf) (D.hard self.new.shelf)
            self.old.trail.closed self.new.trail.closed }
        ensures failed { IfErr result (λ why. IsHouseFault why) }
    {
        match self.note(entry, None) {
            Ok(()) => Ok(()),
            Err(fault) => Err(EntryFault::House(fault)),
        }
    }

    /// Notes an entry that needs no room, and answers its place.
    fn note_last(&mut self, txn: TxnId, entry: Entry) -> Result<u64, EntryFault>
        ghost limits: { Limits }
        requires ready { IsReadyWithin limits D.told self.old }
        requires textless { tree_of_entry entry ≡ None }
        requires small { IsSmall entry }
        requires fits { HasNotEnded (entries_of self.old) txn.0
            → Fits limits (state_of (entries_of self.old)) entry }
        requires marked { IsMarked self.old entry }
        ensures step { EntryStepWithin limits D.told D.faults entry self.old self.new result }
        ensures hard { HardStep (D.hard self.old.shelf) (D.hard self.new.shelf)
            self.old.trail.closed self.new.trail.closed }
        ensures place { IfOk result (λ place. place ≡ length (entries_of self.old)) }
        ensures not_open { (at : ℕ) → IsErrOf result (fault.NotOpen at)
            ↔ HasEndedAt (entries_of self.old) txn.0 at }
        ensures not_full { (count : ℕ) → IsErrOf result (fault.Full count) → ⊥ }
    {
        match ended_at(self.trail.book(), txn) {
            Some(at) => {
                discard(entry);
                Err(EntryFault::NotOpen { at })
            }
            None => {
                let place = self.trail.book().entries().len() as u64;
                match self.note_entry(entry) {
                    Ok(()) => Ok(place),
                    Err(fault) => Err(fault),
                }
            }
        }
    }

    /// Gives a transaction the next write id of a table, where there is room.
    fn give(&mut self, txn: TxnId, table: TableId) -> Result<WriteId, EntryFault>
        ghost limits: { Limits }
        requires ready { IsReadyWithin limits D.told self.old }
        requires here { IsSome (numbered (state_of (entries_of self.old)).tables table.0) }
        requires fits { Fits limits (state_of (entries_of self.old))
            (next_given (entries_of self.old) txn table) }
        ensures step { EntryStepWithin limits D.told D.faults
            (next_given (entries_of self.old) txn table) self.old self.new result }
        ensures hard { HardStep (D.hard self.old.shelf) (D.hard self.new.shelf)
            self.old.trail.closed self.new.trail.closed }
        ensures write { IfOk result (λ write. write.0 ≡ next_id (entries_of self.old) table.0) }
        ensures failed { IfErr result (λ why. IsHouseFault why) }
    {
        match self.next_write(table) {
            Some(write) => match self.note_entry(Entry::Given { txn, table, write }) {
                Ok(()) => Ok(write),
                Err(fault) => Err(fault),
            },
            None => unreachable!(),
        }
    }

    /// Gives a transaction the next write id of a table.
    ///
    /// # Errors
    /// `NotOpen` where the transaction has ended, and then `Full` where there is no room; the house is as it was. `House` where
    /// the journal failed or memory lacked.
    pub fn write_id(&mut self, txn: TxnId, table: TableId) -> Result<WriteId, EntryFault>
        ghost limits: { Limits }
        requires ready { IsReadyWithin limits D.told self.old }
        requires can { IfOpen (state_of (entries_of self.old)) txn.0
            (CanBeGiven (state_of (entries_of self.old)) table.0) }
        ensures step { EntryStepWithin limits D.told D.faults
            (next_given (entries_of self.old) txn table) self.old self.new result }
        ensures hard { HardStep (D.hard self.old.shelf) (D.hard self.new.shelf)
            self.old.trail.closed self.new.trail.closed }
        ensures write { IfOk result (λ write. write.0 ≡ next_id (entries_of self.old) table.0) }
        ensures not_open { (at : ℕ) → IsErrOf result (fault.NotOpen at)
            ↔ HasEndedAt (entries_of self.old) txn.0 at }
        ensures full { (count : ℕ) → IsErrOf result (fault.Full count)
            ↔ HasNoRoom limits (entries_of self.old) txn.0 count }
    {
        let book = self.trail.book();
        match ended_at(book, txn) {
            Some(at) => Err(EntryFault::NotOpen { at }),
            None => {
                if has_room(book, &self.limits, 1) {
                    self.give(txn, table)
                } else {
                    let entries = book.entries().len() as u64;
                    Err(EntryFault::Full { entries })
                }
            }
        }
    }

    /// Commits a transaction that wrote these touches, and answers the place of its Commit.
    ///
    /// # Errors
    /// `NotOpen` where the transaction has ended; the house is as it was. `House` where the journal failed or memory lacked.
    pub fn commit(&mut self, txn: TxnId, wrote: List<Touch>) -> Result<u64, EntryFault>
        ghost limits: { Limits }
        requires ready { IsReadyWithin limits D.told self.old }
        requires small { IsSmall (entries.Commit txn wrote) }
        requires can { IfOpen (state_of (entries_of self.old)) txn.0
            (CommitFits (state_of (entries_of self.old)) wrote) }
        requires marked { IsMarked self.old (entries.Commit txn wrote) }
        ensures step { EntryStepWithin limits D.told D.faults
            (entries.Commit txn wrote) self.old self.new result }
        ensures hard { HardStep (D.hard self.old.shelf) (D.hard self.new.shelf)
            self.old.trail.closed self.new.trail.closed }
        ensures place { IfOk result (λ place. place ≡ length (entries_of self.old)) }
        ensures not_open { (at : ℕ) → IsErrOf result (fault.NotOpen at)
            ↔ HasEndedAt (entries_of self.old) txn.0 at }
        ensures not_full { (count : ℕ) → IsErrOf result (fault.Full count) → ⊥ }
    {
        self.note_last(txn, Entry::Commit { txn, wrote })
    }

    /// Aborts a transaction for this cause, and answers the place of its Abort.
    ///
    /// # Errors
    /// `NotOpen` where the transaction has ended; the house is as it was. `House` where the journal failed or memory lacked.
    pub fn abort(&mut self, txn: TxnId, cause: Cause) -> Result<u64, EntryFault>
        ghost limits: { Limits }
        requires ready { IsReadyWithin limits D.told self.old }
        requires small { IsSmall (entries.Abort txn cause) }
        requires can { IfOpen (state_of (entries_of self.old)) txn.0
            (CauseFits limits (state_of (entries_of self.old)) txn.0 cause) }
        requires marked { IsMarked self.old (entries.Abort txn cause) }
        ensures step { EntryStepWithin limits D.told D.faults
            (entries.Abort txn cause) self.old self.new result }
        ensures hard { HardStep (D.hard self.old.shelf) (D.hard self.new.shelf)
            self.old.trail.closed self.new.trail.closed }
        ensures place { IfOk result (λ place. place ≡ length (entries_of self.old)) }
        ensures not_open { (at : ℕ) → IsErrOf result (fault.NotOpen at)
            ↔ HasEndedAt (entries_of self.old) txn.0 at }
        ensures not_full { (count : ℕ) → IsErrOf result (fault.Full count) → ⊥ }
    {
        self.note_last(txn, Entry::Abort { txn, cause })
    }

    /// Makes the table that the statement of a transaction describes, and answers its number.
    ///
    /// # Errors
    /// `NotOpen` where the transaction has ended; the house is as it was. `House` where the journal failed or memory lacked.
    pub fn create(&mut self, txn: TxnId) -> Result<TableId, EntryFault>
        ghost limits: { Limits }
        requires ready { IsReadyWithin limits D.told self.old }
        requires can { IfOpen (state_of (entries_of self.old)) txn.0
            (CreateFits (state_of (entries_of self.old)) (next_table (entries_of self.old))) }
        ensures step { EntryStepWithin limits D.told D.faults
            (next_create (entries_of self.old) txn) self.old self.new result }
        ensures hard { HardStep (D.hard self.old.shelf) (D.hard self.new.shelf)
            self.old.trail.closed self.new.trail.closed }
        ensures table { IfOk result (λ table. table.0 ≡ next_table (entries_of self.old)) }
        ensures not_open { (at : ℕ) → IsErrOf result (fault.NotOpen at)
            ↔ HasEndedAt (entries_of self.old) txn.0 at }
        ensures not_full { (count : ℕ) → IsErrOf result (fault.Full count) → ⊥ }
    {
        let table = TableId(self.trail.book().tables().len() as u64 + 1);
        match self.note_last(txn, Entry::Create { txn, table }) {
            Ok(_) => Ok(table),
            Err(fault) => Err(fault),
        }
    }

    /// Drops the table of this number, and answers the place of its Drop. Its name is free at once, and its files stand.
    ///
    /// # Errors
    /// `NotOpen` where the transaction has ended; the house is as it was. `House` where the journal failed or memory lacked.
    pub fn drop_table(&mut self, txn: TxnId, table: TableId) -> Result<u64, EntryFault>
        ghost limits: { Limits }
        requires ready { IsReadyWithin limits D.told self.old }
        requires can { IfOpen (state_of (entries_of self.old)) txn.0
            (DropFits (state_of (entries_of self.old)) table.0) }
        ensures step { EntryStepWithin limits D.told D.faults
            (entries.Drop txn table) self.old self.new result }
        ensures hard { HardStep (D.hard self.old.shelf) (D.hard self.new.shelf)
            self.old.trail.closed self.new.trail.closed }
        ensures place { IfOk result (λ place. place ≡ length (entries_of self.old)) }
        ensures not_open { (at : ℕ) → IsErrOf result (fault.NotOpen at)
            ↔ HasEndedAt (entries_of self.old) txn.0 at }
        ensures not_full { (count : ℕ) → IsErrOf result (fault.Full count) → ⊥ }
    {
        self.note_last(txn, Entry::Drop { txn, table })
    }
}
