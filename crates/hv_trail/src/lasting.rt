ghost use Rattle.std.specs.Prelude.{◌≡◌, ℕ, Bool, Some, List, [], ◌∷◌, ◌++◌};
ghost use Rattle.hv_shelf.specs.declared.place.Place.{Place};
ghost use Rattle.hv_shelf.specs.declared.place.DirAt.{DirAt};
ghost use Rattle.hv_logic.specs.declared.meaning.Meaning.{Meaning};
ghost use Rattle.hv_book.specs.hv_history.specs.declared.state.Transaction.{Transaction};
ghost use Rattle.hv_book.specs.hv_history.specs.declared.state.Snapshot.{Snapshot};
ghost use Rattle.hv_book.specs.hv_history.specs.declared.state.Ending.{Ending};
ghost use Rattle.hv_book.specs.hv_history.specs.State.{numbered};
ghost use Rattle.hv_book.specs.hv_history.specs.Lasting.{IsFront};
ghost use Rattle.hv_trail.specs.declared.trail.Reader.{Reader};
ghost use Rattle.hv_trail.specs.declared.trail.TrailItem.{TrailItem};
ghost use Rattle.hv_trail.specs.Trail.{state_at, broken, HasWritten, HasGone};
ghost use Rattle.hv_trail.specs.Lasting.{Has, GoesOn, IsOpened, IsStarted, IsGiven, IsOpen, IsEnded};
ghost use Rattle.hv_trail.specs.Own.{AllSpare};

/// One item leaves each transaction and each table what it has, and so does any number of items: whoever saw a front of a
/// trail finds all of it in the whole.
pub fn goes_on_after()
    ensures one { (trail : List TrailItem) (item : TrailItem) → GoesOn trail (trail ++ item ∷ []) }
    ensures all { (trail more : List TrailItem) → GoesOn trail (trail ++ more) }
    ensures front { (before now : List TrailItem) → IsFront before now → GoesOn before now }
{}

/// Who opened a transaction, and with which text.
pub fn opening_lasts()
    ensures law { (before now : List TrailItem) (txn : ℕ) (session : List ℕ) (number : ℕ) (text : List ℕ) → GoesOn before now
        → Has before txn (IsOpened session number text) → Has now txn (IsOpened session number text) }
{}

/// Its snapshot, and what its statement means.
pub fn start_lasts()
    ensures law { (before now : List TrailItem) (txn : ℕ) (snapshot : Snapshot) (means : Meaning) → GoesOn before now
        → Has before txn (IsStarted snapshot means) → Has now txn (IsStarted snapshot means) }
{}

/// Its write id in a table.
pub fn write_id_lasts()
    ensures law { (before now : List TrailItem) (txn table write : ℕ) → GoesOn before now
        → Has before txn (IsGiven table write) → Has now txn (IsGiven table write) }
{}

/// What was put and what was taken away, and the first call that failed.
pub fn marks_last()
    ensures written { (trail more : List TrailItem) (by : Reader) (place : Place) → HasWritten trail by place → HasWritten (trail ++ more) by place }
    ensures gone { (trail more : List TrailItem) (dir : DirAt) → HasGone trail dir → HasGone (trail ++ more) dir }
    ensures fault { (trail more : List TrailItem) (by : Reader) (why : Bool × ℕ) → broken by trail ≡ Some why → broken by (trail ++ more) ≡ Some why }
{}

/// How it ended; and nothing of it changes then.
pub fn ending_lasts()
    ensures law { (before now : List TrailItem) (txn : ℕ) (ending : Ending) → GoesOn before now
        → Has before txn (IsEnded ending) → Has now txn (IsEnded ending) }
    ensures same { (before now : List TrailItem) (txn : ℕ) (t : Transaction) (ending : Ending) → GoesOn before now
        → numbered (state_at before).transactions txn ≡ Some t → IsEnded ending t → numbered (state_at now).transactions txn ≡ Some t }
{}

/// One that is open now was open before. That it is open doesn't last: another may abort it, and so it is tested in the step
/// that needs it.
pub fn open_was_open()
    ensures law { (before now : List TrailItem) (txn : ℕ) (t : Transaction) → GoesOn before now
        → numbered (state_at before).transactions txn ≡ Some t → Has now txn IsOpen → IsOpen t }
{}

/// Entries that aren't about a transaction leave its whole record, and marks do.
pub fn others_leave_it()
    ensures law { (trail more : List TrailItem) (txn : ℕ) (t : Transaction) → AllSpare txn more
        → numbered (state_at trail).transactions txn ≡ Some t → numbered (state_at (trail ++ more)).transactions txn ≡ Some t }
{}
