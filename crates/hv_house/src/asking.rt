ghost use Rattle.std.specs.Prelude.{◌≡◌, ◌↔◌, ◌+◌, ◌≤◌, true, IsTrue, length, option_map};
ghost use Rattle.std.specs.Option.{option_copied};
ghost use Rattle.hv_base.specs.declared.ids.Limits.{Limits};
ghost use Rattle.hv_locks.specs.declared.table.LockState.TheVariants.{Granted};
ghost use Rattle.hv_history.specs.State.{state_of, numbered};
ghost use Rattle.hv_history.specs.Legal.{HasRoom, Fits};
ghost use Rattle.hv_built.specs.Running.{Runs};
ghost use Rattle.hv_stands.specs.Running.{Asking, next_number};
ghost use Rattle.hv_recovery.specs.hv_fits.specs.Texts.{IsHanded};
ghost use Rattle.hv_house.specs.House.{entries_of, IsReadyWithin, BeginFitsWithin};
ghost use Rattle.hv_house.specs.Asking.{holder_against, lock_state, CanBegin};

use crate::house::House;
use hv_ast::Stmt;
use hv_base::{TableId, TxnId, WriteId};
use hv_book::Book;
use hv_history::{Entry, numbered};
use hv_locks::LockState;
use hv_recovery::hv_fits::first_holder;
use hv_recovery::hv_fits::hv_meta::{has_room, next_txn};
use hv_shelf::Shelf;

/// The write id behind so many, of which there are no more than entries.
fn next_id(given: u64, entries: &[Entry]) -> WriteId
    requires few { given ≤ length entries.now }
    ensures next { result.0 ≡ given + 1 }
{
    // The entries are in memory, so that one more than their number is no more than a u64 holds.
    let _most = entries.len() as u64 + 1;
    WriteId(given + 1)
}

fn is_granted(state: LockState) -> bool
    ensures granted { IsTrue result ↔ (state ≡ Granted) }
{
    match state {
        LockState::Granted => true,
        LockState::Waiting { .. } => false,
    }
}

impl<D: Shelf> House<D> {
    /// Its store, to be looked at.
    pub fn shelf(&self) -> &D
        ensures shelf { result.now ≡ self.now.shelf }
    {
        &self.shelf
    }

    /// The book of its journal.
    pub fn book(&self) -> &Book
        ensures entries { result.now.entries ≡ entries_of self.now }
    {
        self.trail.book()
    }

    /// Whether an entry fits its book. `tree` is that of the entry's text.
    pub fn fits(&self, entry: &Entry, tree: Option<&Stmt>) -> bool
        ghost limits: { Limits }
        requires ready { IsReadyWithin limits D.told self.now }
        requires tree { IsHanded entry.now (option_copied tree) }
        ensures fits { IsTrue result ↔ Fits limits (state_of (entries_of self.now)) entry.now }
    {
        hv_recovery::hv_fits::fits(self.trail.book(), &self.limits, entry, tree)
    }

    /// Whether there is room for so much of the load more.
    pub fn has_room(&self, more: u64) -> bool
        ghost limits: { Limits }
        requires ready { IsReadyWithin limits D.told self.now }
        ensures room { IsTrue result ↔ HasRoom limits (state_of (entries_of self.now)) more }
    {
        has_room(self.trail.book(), &self.limits, more)
    }

    /// Whether a statement of this tree could be opened and started at once: there is room for both and for its
    /// end, and no lock is held against it.
    pub fn can_begin(&self, tree: &Stmt) -> bool
        ghost limits: { Limits }
        requires ready { IsReadyWithin limits D.told self.now }
        ensures can { IsTrue result ↔ CanBegin limits (entries_of self.now) tree.now }
        ensures fits { result ≡ true
            → (asking : Asking) → Runs asking.text tree.now → BeginFitsWithin limits (entries_of self.now) asking }
    {
        let room = has_room(self.trail.book(), &self.limits, 3);
        let free = is_granted(self.check(tree));
        room && free
    }

    /// Whether a statement of this tree has the locks that its Start asks for, or has to wait: for the lowest
    /// open started transaction that holds one against it. The book says who holds which locks.
    pub fn check(&self, tree: &Stmt) -> LockState
        ghost limits: { Limits }
        requires ready { IsReadyWithin limits D.told self.now }
        ensures state { result ≡ lock_state (holder_against (entries_of self.now) tree.now) }
    {
        match first_holder(self.trail.book(), tree) {
            Some(txn) => LockState::Waiting {
                blocker: TxnId(txn),
            },
            None => LockState::Granted,
        }
    }

    /// The write id that a table gives next.
    pub fn next_write(&self, table: TableId) -> Option<WriteId>
        ensures next { option_map (λ write. write.0) result ≡ option_map (λ t. length t.owners + 1)
            (numbered (state_of (entries_of self.now)).tables table.0) }
    {
        let book = self.trail.book();
        match numbered(book.tables(), table.0) {
            Some(note) => Some(next_id(note.high, book.entries())),
            None => None,
        }
    }

    /// The number of the transaction that is opened next.
    pub fn next_txn(&self) -> TxnId
        ensures next { result.0 ≡ next_number (entries_of self.now) }
    {
        next_txn(self.trail.book())
    }
}
