ghost use Rattle.std.specs.Prelude.{◌≡◌, ℕ, ◌++◌, ◌∷◌, [], None, List};
ghost use Rattle.hv_ast.specs.declared.statement.Stmt.{Stmt};
ghost use Rattle.hv_built.specs.Running.{Runs};
ghost use Rattle.hv_history.specs.declared.entry.Entry.{Entry};
ghost use Rattle.hv_history.specs.State.{state_of};
ghost use Rattle.hv_stands.specs.Running.{Asking, IsWaiting, next_number, opening};
ghost use Rattle.hv_house.specs.Asking.{holder_against};
ghost use Rattle.hv_house.specs.Calls.{IfOpen, CanStart};

/// A transaction whose Opened alone is noted waits, and one that waits can start where no lock is held against its
/// statement.
pub fn who_waits_can_start()
    ensures waits { (book : List Entry) (asking : Asking) (tree : Stmt) → Runs asking.text tree
        → IsWaiting (book ++ opening book asking ∷ []) asking (next_number book) tree }
    ensures can { (book : List Entry) (asking : Asking) (txn : ℕ) (tree : Stmt) → IsWaiting book asking txn tree
        → holder_against book tree ≡ None → IfOpen (state_of book) txn (CanStart (state_of book)) }
{}
