ghost use Rattle.std.specs.Prelude.{◌≡◌, ◌≤◌, ◌+◌, length, IfOk, OnOk, IfErr};
ghost use Rattle.hv_base.specs.declared.ids.Limits.{Limits};
ghost use Rattle.hv_base.specs.Told.{Moves, StaysTold};
ghost use Rattle.hv_built.specs.Running.{Runs};
ghost use Rattle.hv_history.specs.Book.{tree_of_entry};
ghost use Rattle.hv_history.specs.State.{state_of};
ghost use Rattle.hv_history.specs.Legal.{Fits};
ghost use Rattle.hv_journal.specs.Appending.{KeepsTree};
ghost use Rattle.hv_stands.specs.Running.{next_number};
ghost use Rattle.hv_trail.specs.Steps.{Step};
ghost use Rattle.hv_trail.specs.Steps as calls;
ghost use Rattle.hv_house.specs.Faults.{FileCause, EndsRun, HardStep};
ghost use Rattle.hv_house.specs.House.{entries_of, IsSmall, BeginFitsWithin, beginning_of, IsReadyWithin, StaysReadyWithin, AreNoted, IsNoted, AreHalted, IsHalted};
ghost use Rattle.hv_house.specs.Steps.{seen_of, outcome_of, IsMarked};

use crate::fault::HouseFault;
use crate::house::House;
use hv_ast::Stmt;
use hv_base::{Text, TxnId};
use hv_history::Entry;
use hv_recovery::hv_fits::hv_meta::next_txn;
use hv_shelf::Shelf;

impl<D: Shelf> House<D> {
    /// Notes an entry that fits: in the journal, and behind the book. `tree` is that of the entry's text.
    pub fn note(&mut self, entry: Entry, tree: Option<Stmt>) -> Result<(), HouseFault>
        ghost limits: { Limits }
        requires ready { IsReadyWithin limits D.told self.old }
        requires tree { tree ≡ tree_of_entry entry }
        requires small { IsSmall entry }
        requires fits { Fits limits (state_of (entries_of self.old)) entry }
        requires marked { IsMarked self.old entry }
        ensures ready { OnOk result (IsReadyWithin limits D.told self.new) }
        ensures noted { OnOk result (IsNoted D.told entry self.old self.new) }
        ensures stays { IfErr result (λ why. StaysReadyWithin limits D.told why self.new) }
        ensures halted { IfErr result (λ why. IsHalted D.told entry why self.old self.new) }
        ensures tree_kept { Moves KeepsTree (D.told self.old.shelf) (D.told self.new.shelf) }
        ensures tells { StaysTold (D.told self.old.shelf) (D.told self.new.shelf) }
        ensures ends { IfErr result EndsRun }
        ensures step { Step D.told D.faults (calls.Note entry) (outcome_of result)
            (seen_of self.old) (seen_of self.new) }
        ensures cause { FileCause (D.faults self.old.shelf) (D.faults self.new.shelf) result }
        ensures hard { HardStep (D.hard self.old.shelf) (D.hard self.new.shelf)
            self.old.trail.closed self.new.trail.closed }
    {
        self.add(entry, tree)
    }

    /// Opens a statement and starts it at once: the journal has both entries then or none. Its transaction,
    /// and the place of its `Start`. `tree` is that of the text.
    pub fn begin(
        &mut self,
        session: Text,
        number: u64,
        text: Text,
        tree: Stmt,
    ) -> Result<(TxnId, u64), HouseFault>
        ghost limits: { Limits }
        requires ready { IsReadyWithin limits D.told self.old }
        requires runs { Runs text tree }
        requires short { length text ≤ 32768 }
        requires named { length session ≤ 32 }
        requires fits { BeginFitsWithin limits (entries_of self.old)
            (record { session = session; number = number; text = text }) }
        ensures txn { IfOk result (λ x. x.0.0 ≡ next_number (entries_of self.old)) }
        ensures place { IfOk result (λ x. x.1 ≡ length (entries_of self.old) + 1) }
        ensures ready { OnOk result (IsReadyWithin limits D.told self.new) }
        ensures noted { OnOk result (AreNoted D.told (beginning_of (entries_of self.old)
            (record { session = session; number = number; text = text })) self.old self.new) }
        ensures stays { IfErr result (λ why. StaysReadyWithin limits D.told why self.new) }
        ensures halted { IfErr result (λ why. AreHalted D.told (beginning_of (entries_of self.old)
            (record { session = session; number = number; text = text })) why self.old self.new) }
        ensures tree_kept { Moves KeepsTree (D.told self.old.shelf) (D.told self.new.shelf) }
        ensures tells { StaysTold (D.told self.old.shelf) (D.told self.new.shelf) }
        ensures ends { IfErr result EndsRun }
        ensures step { Step D.told D.faults
            (calls.Begin (record { 0 = next_number (entries_of self.old) }) session number text)
            (outcome_of result) (seen_of self.old) (seen_of self.new) }
        ensures cause { FileCause (D.faults self.old.shelf) (D.faults self.new.shelf) result }
        ensures hard { HardStep (D.hard self.old.shelf) (D.hard self.new.shelf)
            self.old.trail.closed self.new.trail.closed }
    {
        let book = self.trail.book();
        let txn = next_txn(book);
        let place = book.entries().len() as u64 + 1;
        let entry = Entry::Opened {
            txn,
            session,
            number,
            text,
        };
        self.add_with_start(entry, Some(tree), txn)?;
        Ok((txn, place))
    }
}
