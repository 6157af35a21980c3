ghost use Rattle.std.specs.Prelude.{◌≡◌, ℕ, Some, List, [], ◌∷◌, ◌++◌};
ghost use Rattle.hv_book.specs.hv_history.specs.Answers.{answer};
ghost use Rattle.hv_trail.specs.declared.trail.TrailItem.{TrailItem};
ghost use Rattle.hv_trail.specs.Trail.{state_at};
ghost use Rattle.hv_trail.specs.Serial.{Alone, Serial};

/// What is printed for a transaction that has ended doesn't change, whatever items come.
pub fn replies_last()
    ensures law { (trail more : List TrailItem) (txn : ℕ) (reply : List ℕ)
        → answer (state_at trail) txn ≡ Some reply → answer (state_at (trail ++ more)) txn ≡ Some reply }
{}

/// Where nobody adds anything between, statements stand one after another: one more stands behind those before it.
pub fn one_after_another()
    ensures law { (replies : List (List ℕ)) (first before now : List TrailItem) (reply : List ℕ)
        → Serial before replies first → Alone now reply before now → Serial now (replies ++ reply ∷ []) first }
{}
