ghost use Rattle.std.specs.Prelude.{◌≡◌, ℕ, None, List, ◌++◌, length};
ghost use Rattle.hv_book.specs.hv_history.specs.State.{numbered};
ghost use Rattle.hv_book.specs.hv_history.specs.Lasting.{IsFront};
ghost use Rattle.hv_trail.specs.declared.trail.TrailItem.{TrailItem};
ghost use Rattle.hv_trail.specs.Trail.{state_at};
ghost use Rattle.hv_trail.specs.Own.{RiseWithin, items_at, own_places, own_moments, record_from};

/// The places of a transaction's items rise and lie within the trail, and what comes later adds places behind them. The items at
/// places of a front are those of the whole.
pub fn own_places_rise()
    ensures rise { (txn : ℕ) (trail : List TrailItem) → RiseWithin 0 (own_places txn trail) (length trail) }
    ensures front { (txn : ℕ) (trail more : List TrailItem) → IsFront (own_places txn trail) (own_places txn (trail ++ more)) }
    ensures items { (low : ℕ) (places : List ℕ) (trail more : List TrailItem)
        → RiseWithin low places (length trail) → items_at places (trail ++ more) ≡ items_at places trail }
{}

/// A transaction's record is what its own entries make of it, each at its moment: the number of entries before it, and the
/// tables and transactions then, which a SHOW reads. So it is the same in any two trails in which these are.
pub fn own_entries_make_the_record()
    ensures made { (txn : ℕ) (trail : List TrailItem)
        → record_from None (own_moments txn trail) ≡ numbered (state_at trail).transactions txn }
    ensures same { (txn : ℕ) (trail other : List TrailItem) → own_moments txn trail ≡ own_moments txn other
        → numbered (state_at trail).transactions txn ≡ numbered (state_at other).transactions txn }
{}
