ghost use Rattle.std.specs.Prelude.{◌≡◌, ℕ, Some, List, [], ◌∷◌, ◌++◌, length, map};
ghost use Rattle.std.specs.List.{AllByRecursion};
ghost use Rattle.hv_base.specs.declared.ids.TxnId.{TxnId};
ghost use Rattle.hv_base.specs.declared.ids.TableId.{TableId};
ghost use Rattle.hv_base.specs.declared.ids.WriteId.{WriteId};
ghost use Rattle.hv_base.specs.declared.ids.Touch.{Touch};
ghost use Rattle.hv_ast.specs.declared.statement.Stmt.{Stmt};
ghost use Rattle.hv_built.specs.Running.{Runs};
ghost use Rattle.hv_logic.specs.declared.meaning.Meaning.{Meaning};
ghost use Rattle.hv_shelf.specs.declared.place.Place.{Place};
ghost use Rattle.hv_route.specs.declared.files.OutFile.{OutFile};
ghost use Rattle.hv_history.specs.declared.entry.Entry.TheVariants as entry;
ghost use Rattle.hv_history.specs.declared.entry.Cause.{Cause};
ghost use Rattle.hv_history.specs.Lasting.{IsFront};
ghost use Rattle.hv_history.specs.Legal.{Of, IsRunning};
ghost use Rattle.hv_history.specs.Legal as legal;
ghost use Rattle.hv_meta.specs.States.{state_in};
ghost use Rattle.hv_stands.specs.Running.{Asking, AreOf, next_number, opening, meant, IsWaiting};
ghost use Rattle.hv_trail.specs.declared.trail.TrailItem.{TrailItem};
ghost use Rattle.hv_trail.specs.declared.trail.TrailItem.TheVariants.{Noted};
ghost use Rattle.hv_trail.specs.Trail.{book_of, state_at};
ghost use Rattle.hv_trail.specs.Steps.{begun};
ghost use Rattle.hv_acts.specs.Answers.{HasItsMark, HasNotEnded};
ghost use Rattle.hv_acts.specs.Putting.{HasIdFor};
ghost use Rattle.hv_acts.specs.Committing.{CanBePut};
ghost use Rattle.hv_acts.specs.Compacting.{IsJobDue};
ghost use Rattle.hv_acts.specs.declared.compacting.AskFor.{AskFor};
ghost use Rattle.hv_acts.specs.Meant.{RunsWith, MeansNow, HasMeant, IsFileMeant, IsIdDue, IsCommitDue, IsMakeMeant, IsDropMeant, IsAbortDue, IsNoEnd};

/// What acts ask of a trail is true of every longer one too, whatever its further items are.
pub fn what_is_asked_lasts()
    ensures mark { (before now : List TrailItem) (txn : TxnId) (cause : Cause) → IsFront before now
        → HasItsMark before txn cause → HasItsMark now txn cause }
    ensures id { (before now : List TrailItem) (by : TxnId) (place : Place) (file : OutFile) → IsFront before now
        → HasIdFor before by place file → HasIdFor now by place file }
    ensures put { (before now : List TrailItem) (txn : TxnId) (wrote : List Touch) (places : List Place)
        → IsFront before now
        → CanBePut before txn wrote places → CanBePut now txn wrote places }
    ensures due { (before now : List TrailItem) (txn : TxnId) (table : TableId) → IsFront before now
        → IsIdDue before txn table → IsIdDue now txn table }
    ensures job { (before now : List TrailItem) (asked : AskFor) → IsFront before now
        → IsJobDue before asked → IsJobDue now asked }
    ensures file { (before now : List TrailItem) (by : TxnId) (place : Place) (file : OutFile) → IsFront before now
        → IsFileMeant before by place file → IsFileMeant now by place file }
    ensures commit { (before now : List TrailItem) (txn : TxnId) (wrote : List Touch) (places : List Place)
        → IsFront before now
        → IsCommitDue before txn wrote places → IsCommitDue now txn wrote places }
    ensures make { (before now : List TrailItem) (txn : TxnId) → IsFront before now
        → IsMakeMeant before txn → IsMakeMeant now txn }
    ensures unmake { (before now : List TrailItem) (txn : TxnId) (table : TableId) → IsFront before now
        → IsDropMeant before txn table → IsDropMeant now txn table }
    ensures cause { (before now : List TrailItem) (txn : TxnId) (cause : Cause) → IsFront before now
        → IsAbortDue before txn cause → IsAbortDue now txn cause }
{}

/// A transaction that runs has not ended behind entries that end no other than an asked for one, and runs still. One that waits has not
/// ended behind marks.
pub fn what_is_open_stays_open()
    ensures law { (trail items : List TrailItem) (txn : TxnId) → Of (state_at trail) txn.0 IsRunning
        → AreOf txn.0 (book_of items) → AllByRecursion (IsNoEnd txn.0) (book_of items)
        → HasNotEnded (state_in (state_at (trail ++ items)) txn.0) }
    ensures runs { (trail items : List TrailItem) (txn : TxnId) → Of (state_at trail) txn.0 IsRunning
        → AllByRecursion (IsNoEnd txn.0) (book_of items) → Of (state_at (trail ++ items)) txn.0 IsRunning }
    ensures waits { (trail items : List TrailItem) (txn : TxnId) → Of (state_at trail) txn.0 legal.IsWaiting
        → book_of items ≡ [] → HasNotEnded (state_in (state_at (trail ++ items)) txn.0) }
{}

/// How it comes to be known what the statement of a transaction means, and when it is so still: while it runs, and no write id was
/// added, whatever others added.
pub fn what_was_meant_is_meant()
    ensures begun { (trail : List TrailItem) (asking : Asking) (said : Stmt) (means : Meaning) → Runs asking.text said
        → meant (book_of trail ++ opening (book_of trail) asking ∷ []) said ≡ Some means
        → MeansNow (trail ++ map Noted (begun (record { 0 = next_number (book_of trail) }) asking.session asking.number
        asking.text))
        (record { 0 = next_number (book_of trail) }) [] means }
    ensures started { (trail : List TrailItem) (asking : Asking) (txn : TxnId) (said : Stmt) (means : Meaning)
        → IsWaiting (book_of trail) asking txn.0 said → meant (book_of trail) said ≡ Some means
        → MeansNow (trail ++ Noted (entry.Start txn 0) ∷ []) txn [] means }
    ensures given { (trail : List TrailItem) (txn : TxnId) (table : TableId) (write : WriteId) (given : List (ℕ × ℕ))
        (means : Meaning)
        → MeansNow trail txn given means
        → MeansNow (trail ++ Noted (entry.Given txn table write) ∷ []) txn (given ++ (table.0, write.0) ∷ []) means }
    ensures still { (trail : List TrailItem) (txn : TxnId) (given : List (ℕ × ℕ)) (means : Meaning)
        → HasMeant trail txn given means → RunsWith trail txn (length given) → MeansNow trail txn given means }
{}
