ghost use Rattle.std.specs.Prelude.{◌≡◌, ℕ, true, Some, None, List, [], ◌∷◌, length};
ghost use Rattle.hv_book.specs.hv_history.specs.declared.state.Ending.TheVariants.{Committed, Aborted};
ghost use Rattle.hv_book.specs.hv_history.specs.declared.entry.Cause.TheVariants as cause;
ghost use Rattle.hv_trail.specs.declared.trail.Reader.TheVariants as reader;
ghost use Rattle.hv_trail.specs.declared.trail.Mark.TheVariants as mark;
ghost use Rattle.hv_trail.specs.declared.trail.TrailItem.TheVariants as item;
ghost use Rattle.hv_trail.specs.Trail.{book_of, marks_of, broken};
ghost use Rattle.hv_trail.specs.Own.{own_places};
ghost use Rattle.hv_trail.specs.Steps as step;
ghost use Rattle.hv_trail.specs.Steps.{gains};
ghost use Rattle.hv_book.specs.hv_history.specs.declared.entry.Entry.TheVariants as entry;
ghost use Rattle.hv_trail.specs.Worked.{both_open, both_ended, made, put_at, wrote, record_of, snapshot_at, ids_of, ending_of};

/// The worked trail of fourteen items: its twelve entries and two marks, and who was broken.
pub fn worked_marks()
    ensures entries { length (book_of both_ended) ≡ 12 }
    ensures marks { marks_of both_ended ≡ (9, mark.Wrote (reader.Txn (record { 0 = 2 })) put_at)
        ∷ (10, mark.Broke (Some (reader.Txn (record { 0 = 3 }))) true 1) ∷ [] }
    ensures whole { broken (reader.Txn (record { 0 = 2 })) both_ended ≡ None }
    ensures broken { broken (reader.Txn (record { 0 = 3 })) both_ended ≡ Some (true, 1) }
{}

/// Two transactions side by side: the snapshot, the write id and the end of each.
pub fn worked_records()
    ensures first_snapshot { snapshot_at (record_of 2 both_open) ≡ Some (Some 6) }
    ensures second_snapshot { snapshot_at (record_of 3 both_open) ≡ Some (Some 7) }
    ensures first_open { ending_of (record_of 2 both_open) ≡ Some None }
    ensures first_ids { ids_of (record_of 2 both_ended) ≡ Some ((1, 1) ∷ []) }
    ensures second_ids { ids_of (record_of 3 both_ended) ≡ Some ((1, 2) ∷ []) }
    ensures first_ending { ending_of (record_of 2 both_ended) ≡ Some (Some (Committed 11 wrote)) }
    ensures second_ending { ending_of (record_of 3 both_ended) ≡ Some (Some (Aborted 10 (cause.WriteFault 1))) }
{}

/// The places of each: those of the one don't stand for those of the other.
pub fn worked_places()
    ensures first { own_places 2 both_ended ≡ 4 ∷ 6 ∷ 8 ∷ 9 ∷ 13 ∷ [] }
    ensures second { own_places 3 both_ended ≡ 5 ∷ 7 ∷ 10 ∷ 11 ∷ 12 ∷ [] }
{}

/// Rows of the table of steps: a put, one that fails, a commit, one that meets a conflict, and one that is refused.
pub fn worked_steps()
    ensures put { gains (step.Put (reader.Txn (record { 0 = 2 })) put_at []) step.Done
        ≡ item.Marked (mark.Wrote (reader.Txn (record { 0 = 2 })) put_at) ∷ [] }
    ensures failed { gains (step.Put (reader.Txn (record { 0 = 3 })) put_at []) (step.Failed 1)
        ≡ item.Marked (mark.Broke (Some (reader.Txn (record { 0 = 3 }))) true 1) ∷ [] }
    ensures commit { gains (step.Commit (record { 0 = 2 }) wrote) step.Done ≡ item.Noted (entry.Commit (record { 0 = 2 }) wrote) ∷ [] }
    ensures conflict { gains (step.Commit (record { 0 = 3 }) wrote) (step.Conflict (record { 0 = 2 }) made [])
        ≡ item.Noted (entry.Abort (record { 0 = 3 }) (cause.Conflict (record { 0 = 2 }) made [])) ∷ [] }
    ensures refused { gains (step.Commit (record { 0 = 3 }) wrote) step.Refused ≡ [] }
{}
