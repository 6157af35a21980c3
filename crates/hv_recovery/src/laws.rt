ghost use Rattle.std.specs.Prelude.{◌≡◌, List, ℕ};
ghost use Rattle.hv_base.specs.declared.ids.Limits.{Limits};
ghost use Rattle.hv_history.specs.declared.entry.Entry.{Entry};
ghost use Rattle.hv_recovery.specs.Recovery.{IsJournalOf, IsBadJournalAt};

/// Whatever its bytes are, a journal reads to one book at most and is bad at one place at most. It
/// never does both, and never neither.
pub fn reads_or_is_bad()
    ensures one_book { (limits : Limits) (book other : List Entry) (bytes : List ℕ)
        → IsJournalOf limits book bytes → IsJournalOf limits other bytes → book ≡ other }
    ensures one_place { (limits : Limits) (bytes : List ℕ) (at other : ℕ)
        → IsBadJournalAt limits bytes at → IsBadJournalAt limits bytes other → at ≡ other }
    ensures not_both { (limits : Limits) (book : List Entry) (bytes : List ℕ) (at : ℕ)
        → IsJournalOf limits book bytes → IsBadJournalAt limits bytes at → ⊥ }
    ensures not_neither { (limits : Limits) (bytes : List ℕ)
        → ((book : List Entry) → IsJournalOf limits book bytes → ⊥)
        → ((at : ℕ) → IsBadJournalAt limits bytes at → ⊥) → ⊥ }
{}
