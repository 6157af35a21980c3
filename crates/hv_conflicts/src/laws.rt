ghost use Rattle.std.specs.Prelude.{◌≡◌, ℕ, List, Some};
ghost use Rattle.std.specs.List.{slice_get};
ghost use Rattle.hv_base.specs.declared.ids.Touch.{Touch};
ghost use Rattle.hv_history.specs.declared.state.Transaction.{Transaction};
ghost use Rattle.hv_history.specs.State.{State, numbered};
ghost use Rattle.hv_history.specs.Legal.{IsRunning, ConflictFits};
ghost use Rattle.hv_conflicts.specs.declared.meeting.Clash.{Clash};
ghost use Rattle.hv_conflicts.specs.Clashes.{IsClash};

/// An abort of a running transaction fits with the cause that a clash gives: its transaction, and the
/// table and partition of the touch at its place.
pub fn clash_fits()
    ensures law { (state : State) (txn : ℕ) (t : Transaction) (wrote : List Touch) (clash : Clash) (touch : Touch)
        → numbered state.transactions txn ≡ Some t → IsRunning t → IsClash state txn wrote clash
        → slice_get wrote clash.at ≡ Some touch
        → ConflictFits state clash.by.0 touch.table.0 touch.partition t }
{}
