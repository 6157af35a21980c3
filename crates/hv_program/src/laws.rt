ghost use Rattle.std.specs.Prelude.{List, ℕ, Bool};
ghost use Rattle.hv_shelf.specs.Disk.{Store};
ghost use Rattle.hv_history.specs.declared.entry.Entry.{Entry};
ghost use Rattle.hv_script.specs.declared.actions.Action.{Action};
ghost use Rattle.hv_session.specs.hv_beginning.specs.hv_steps.specs.hv_table_reader.specs.hv_acts.specs.hv_telling.specs.Telling.{OpensLater};
ghost use Rattle.hv_program.specs.Change.{from_to};
ghost use Rattle.hv_program.specs.Results.{IsServed, IsCutOff, IsStopped, ReadsTo, ReadsFurther, StopsForMemory, StopsForStore};

/// What a run leaves opens again, however it ended: to a legal book that begins with the book it was opened with, and with all that was
/// noted by then. A run that stopped in its opening leaves a front of that behind the book.
pub fn opens_again()
    ensures done { (low high : ℕ) (start : List Entry) (actions : List Action) (written now : List ℕ) (store : Store)
        (refused : Bool) → IsServed (from_to low high) start actions (from_to written now) store refused
        → OpensLater start store }
    ensures cut { (low high : ℕ) (start : List Entry) (actions : List Action) (written now : List ℕ) (store : Store)
        → IsCutOff (from_to low high) start actions (from_to written now) store → OpensLater start store }
    ensures stopped { (low high : ℕ) (start : List Entry) (actions : List Action) (written now : List ℕ) (store : Store)
        → IsStopped (from_to low high) start actions (from_to written now) store (ReadsFurther store.journal)
        → OpensLater start store }
    ensures ran_out { (low high : ℕ) (start : List Entry) (actions : List Action) (written now : List ℕ) (store : Store)
        → IsStopped (from_to low high) start actions (from_to written now) store (ReadsTo store.journal)
        → OpensLater start store }
    ensures failed { (low high : ℕ) (book : List Entry) (actions : List Action) (written now : List ℕ)
        (before store : Store)
        → StopsForStore (from_to low high) book actions (from_to written now) (from_to before store)
        → OpensLater book store }
    ensures lacked { (low high : ℕ) (book : List Entry) (actions : List Action) (written now : List ℕ)
        (before store : Store)
        → StopsForMemory (from_to low high) book actions (from_to written now) (from_to before store)
        → OpensLater book store }
{}
