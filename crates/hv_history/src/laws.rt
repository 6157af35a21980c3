ghost use Rattle.std.specs.Prelude.{◌≡◌, ℕ, List, [], ◌∷◌, ◌++◌, Some, fold};
ghost use Rattle.hv_history.specs.declared.entry.Entry.{Entry};
ghost use Rattle.hv_meaning.specs.hv_typing.specs.hv_logic.specs.declared.catalog.Shape.{Shape};
ghost use Rattle.hv_meaning.specs.hv_typing.specs.hv_logic.specs.declared.effect.Effect.{Effect};
ghost use Rattle.hv_history.specs.declared.state.Transaction.{Transaction};
ghost use Rattle.hv_history.specs.Lasting.{GoesOn, txn_of};
ghost use Rattle.hv_history.specs.State.{State, numbered, state_of, after, content, written_by, IsNoCommit, Carry, Differ};
ghost use Rattle.hv_history.specs.Answers.{answer};

/// The meaning of a book goes on by one entry.
pub fn state_goes_on()
    ensures law { (book : List Entry) (event : Entry) → state_of (book ++ event ∷ []) ≡ after (state_of book) event }
{}

/// What is printed for a transaction that has ended doesn't change when entries are appended,
/// whatever they are.
pub fn answers_stay()
    ensures law { (book more : List Entry) (txn : ℕ) (text : List ℕ)
        → answer (state_of book) txn ≡ Some text → answer (state_of (book ++ more)) txn ≡ Some text }
{}

/// The rows of a table change at a Commit alone.
pub fn rows_change_at_commits()
    ensures law { (state : State) (event : Entry) (table : ℕ)
        → IsNoCommit event → content (after state event) table ≡ content state table }
{}

/// The rows that a statement inserts carry its write id, and no two are one by partition and identifier.
pub fn identifiers_differ()
    ensures carry { (shape : Shape) (write statement : ℕ) (effect : Effect)
        → Carry write (written_by shape write statement effect).inserts }
    ensures differ { (shape : Shape) (write statement : ℕ) (effect : Effect)
        → Differ (written_by shape write statement effect).inserts }
{}

/// One entry leaves each transaction what it has, and each table: snapshots are fixed, ids and writes are
/// added behind, and a transaction that has ended never changes. So does any number of entries.
pub fn entries_keep_what_is()
    ensures one { (state : State) (event : Entry) → GoesOn state (after state event) }
    ensures all { (state : State) (more : List Entry) → GoesOn state (fold after state more) }
{}

/// A transaction's record changes by its own entries alone.
pub fn other_transactions_stay()
    ensures law { (state : State) (event : Entry) (n : ℕ) (t : Transaction)
        → (txn_of event ≡ Some n → ⊥) → numbered state.transactions n ≡ Some t
        → numbered (after state event).transactions n ≡ Some t }
{}
