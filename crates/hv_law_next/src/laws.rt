ghost use Rattle.std.specs.Prelude.{◌≡◌, Some, None, [], ◌∷◌};
ghost use Rattle.hv_base.specs.declared.gate.Stage.TheVariants as stage;
ghost use Rattle.hv_base.specs.declared.refusal.Refusal.TheVariants as refusal;
ghost use Rattle.hv_logic.specs.declared.meaning.Meaning.TheVariants.{Refused};
ghost use Rattle.hv_history.specs.declared.entry.Cause.TheVariants as cause;
ghost use Rattle.hv_stands.specs.Worked.{part_one};
ghost use Rattle.hv_law_next.specs.Next.{abort, commit, giving, due};
ghost use Rattle.hv_law_next.specs.Carrying.{CarriesOn, StaysAtHold};
ghost use Rattle.hv_law_next.specs.Worked.{info_by_hand, touch_by_hand, change_by_hand, second_by_hand, state_by_hand};

/// A legal book that goes on by entries of one transaction, in order, goes on as one thread carries it on.
pub fn carries_on()
    ensures law { CarriesOn }
{}

/// Of a started statement that is at its hold nothing is due before it is released.
pub fn stays_at_hold()
    ensures law { StaysAtHold }
{}

/// The second of two deletes in one partition, worked out by hand: it asks for its write id, it meets the first where its snapshot
/// stands before that commit, and it commits where it stands behind it. Held at its commit nothing of it is due.
pub fn worked_by_hand()
    ensures asks { due None (state_by_hand (second_by_hand 5 [] change_by_hand)) 2 ≡ Some (giving (state_by_hand (second_by_hand 5 [] change_by_hand)) 2 info_by_hand) }
    ensures meets { due None (state_by_hand (second_by_hand 5 ((1, 3) ∷ []) change_by_hand)) 2 ≡ Some (abort 2 (cause.Conflict (record { 0 = 1 }) (record { 0 = 1 }) part_one)) }
    ensures commits { due None (state_by_hand (second_by_hand 10 ((1, 3) ∷ []) change_by_hand)) 2 ≡ Some (commit 2 (touch_by_hand ∷ [])) }
    ensures held { due (Some stage.Commit) (state_by_hand (second_by_hand 5 ((1, 3) ∷ []) change_by_hand)) 2 ≡ None }
    ensures refused { due (Some stage.Read) (state_by_hand (second_by_hand 5 [] (Some (Refused refusal.NoTable)))) 2 ≡ Some (abort 2 (cause.Refused 10)) }
{}
