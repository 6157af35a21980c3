//! A transaction that is opened, and its Start, noted one by one: between them it waits, with no snapshot and no lock.
ghost use Rattle.std.specs.Prelude.{◌≡◌, ◌↔◌, ◌≤◌, ℕ, IfOk, IfErr, IsErrOf, length};
ghost use Rattle.hv_base.specs.declared.ids.Limits.{Limits};
ghost use Rattle.hv_built.specs.Running.{Runs};
ghost use Rattle.hv_history.specs.declared.entry.Entry.TheVariants as entries;
ghost use Rattle.hv_history.specs.State.{state_of};
ghost use Rattle.hv_history.specs.Legal.{HasRoom, Fits};
ghost use Rattle.hv_stands.specs.Running.{next_number, opening};
ghost use Rattle.hv_house.specs.declared.calls.EntryFault.TheVariants as fault;
ghost use Rattle.hv_house.specs.House.{entries_of, IsReadyWithin};
ghost use Rattle.hv_house.specs.Calls.{HasEndedAt, HasNoRoom, LacksRoom, IfOpen, CanStart, IsHouseFault, EntryStepWithin};
ghost use Rattle.hv_house.specs.Faults.{HardStep};

use crate::calls::{EntryFault, ended_at};
use crate::house::House;
use hv_ast::{Stmt, discard};
use hv_base::{Text, TxnId};
use hv_history::Entry;
use hv_recovery::hv_fits::hv_meta::{has_room, next_txn};
use hv_shelf::Shelf;

impl<D: Shelf> House<D> {
    /// Notes the Opened of a transaction, which has room.
    fn note_opened(
        &mut self,
        session: Text,
        number: u64,
        text: Text,
        tree: Stmt,
    ) -> Result<TxnId, EntryFault>
        ghost limits: { Limits }
        requires ready { IsReadyWithin limits D.told self.old }
        requires runs { Runs text tree }
        requires short { length text ≤ 32768 }
        requires named { length session ≤ 32 }
        requires room { HasRoom limits (state_of (entries_of self.old)) 2 }
        ensures step { EntryStepWithin limits D.told D.faults (opening (entries_of self.old)
            (record { session = session; number = number; text = text })) self.old self.new result }
        ensures hard { HardStep (D.hard self.old.shelf) (D.hard self.new.shelf)
            self.old.trail.closed self.new.trail.closed }
        ensures txn { IfOk result (λ txn. txn.0 ≡ next_number (entries_of self.old)) }
        ensures failed { IfErr result (λ why. IsHouseFault why) }
    {
        let txn = next_txn(self.trail.book());
        let entry = Entry::Opened {
            txn,
            session,
            number,
            text,
        };
        match self.note(entry, Some(tree)) {
            Ok(()) => Ok(txn),
            Err(fault) => Err(EntryFault::House(fault)),
        }
    }

    /// Opens a transaction for a statement, which waits then for its Start, and answers its number. `tree` is that of
    /// the text.
    ///
    /// # Errors
    /// `Full` where there is no room for its Opened and the entry that ends it; the house is as it was. `House` where
    /// the journal failed or memory lacked.
    pub fn open_txn(
        &mut self,
        session: Text,
        number: u64,
        text: Text,
        tree: Stmt,
    ) -> Result<TxnId, EntryFault>
        ghost limits: { Limits }
        requires ready { IsReadyWithin limits D.told self.old }
        requires runs { Runs text tree }
        requires short { length text ≤ 32768 }
        requires named { length session ≤ 32 }
        ensures step { EntryStepWithin limits D.told D.faults (opening (entries_of self.old)
            (record { session = session; number = number; text = text })) self.old self.new result }
        ensures hard { HardStep (D.hard self.old.shelf) (D.hard self.new.shelf)
            self.old.trail.closed self.new.trail.closed }
        ensures txn { IfOk result (λ txn. txn.0 ≡ next_number (entries_of self.old)) }
        ensures not_ended { (at : ℕ) → IsErrOf result (fault.NotOpen at) → ⊥ }
        ensures full { (count : ℕ) → IsErrOf result (fault.Full count)
            ↔ LacksRoom limits (entries_of self.old) 2 count }
    {
        let book = self.trail.book();
        if has_room(book, &self.limits, 2) {
            self.note_opened(session, number, text, tree)
        } else {
            let entries = book.entries().len() as u64;
            discard(tree);
            Err(EntryFault::Full { entries })
        }
    }

    /// Notes the Start of a transaction, which fits, and answers its place.
    fn note_start(&mut self, txn: TxnId) -> Result<u64, EntryFault>
        ghost limits: { Limits }
        requires ready { IsReadyWithin limits D.told self.old }
        requires fits { Fits limits (state_of (entries_of self.old)) (entries.Start txn 0) }
        ensures step { EntryStepWithin limits D.told D.faults
            (entries.Start txn 0) self.old self.new result }
        ensures hard { HardStep (D.hard self.old.shelf) (D.hard self.new.shelf)
            self.old.trail.closed self.new.trail.closed }
        ensures place { IfOk result (λ place. place ≡ length (entries_of self.old)) }
        ensures failed { IfErr result (λ why. IsHouseFault why) }
    {
        let place = self.trail.book().entries().len() as u64;
        match self.note_entry(Entry::Start { txn, statement: 0 }) {
            Ok(()) => Ok(place),
            Err(fault) => Err(fault),
        }
    }

    /// Starts an opened transaction, which waits and against which no lock is held, and answers the place of its Start:
    /// its snapshot is taken there.
    ///
    /// # Errors
    /// `NotOpen` where the transaction has ended, and then `Full` where there is no room; the house is as it was.
    /// `House` where the journal failed or memory lacked.
    pub fn start(&mut self, txn: TxnId) -> Result<u64, EntryFault>
        ghost limits: { Limits }
        requires ready { IsReadyWithin limits D.told self.old }
        requires can { IfOpen (state_of (entries_of self.old)) txn.0
            (CanStart (state_of (entries_of self.old))) }
        ensures step { EntryStepWithin limits D.told D.faults
            (entries.Start txn 0) self.old self.new result }
        ensures hard { HardStep (D.hard self.old.shelf) (D.hard self.new.shelf)
            self.old.trail.closed self.new.trail.closed }
        ensures place { IfOk result (λ place. place ≡ length (entries_of self.old)) }
        ensures not_open { (at : ℕ) → IsErrOf result (fault.NotOpen at)
            ↔ HasEndedAt (entries_of self.old) txn.0 at }
        ensures full { (count : ℕ) → IsErrOf result (fault.Full count)
            ↔ HasNoRoom limits (entries_of self.old) txn.0 count }
    {
        let book = self.trail.book();
        match ended_at(book, txn) {
            Some(at) => Err(EntryFault::NotOpen { at }),
            None => {
                if has_room(book, &self.limits, 1) {
                    self.note_start(txn)
                } else {
                    let entries = book.entries().len() as u64;
                    Err(EntryFault::Full { entries })
                }
            }
        }
    }
}
