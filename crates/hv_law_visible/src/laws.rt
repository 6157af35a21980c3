ghost use Rattle.std.specs.Prelude.{ℕ, List};
ghost use Rattle.hv_wids.specs.WriteIds.{WriteIds};
ghost use Rattle.hv_law_visible.specs.Snapshots.{Fate, list_at, list_up_to};
ghost use Rattle.hv_law_visible.specs.Worked.{ChoicesByHand, RowsByHand};
ghost use Rattle.hv_law_visible.specs.Laws.{ShowsContent, SnapshotShowsContent, CompactionShowsContent, ChoosesNoLoose, SaysFates, SaysUpTo, StaysKnown, StaysSince};

/// What the chosen directories show under a list of write ids is the content of the writes that the
/// list shows.
pub fn shows_content<F>()
    ensures law { ShowsContent F }
{}

/// An open snapshot's reader finds the content at its snapshot.
pub fn snapshot_shows_content<F>()
    ensures law { SnapshotShowsContent F }
{}

/// A compaction finds the content of what is committed up to its watermark.
pub fn compaction_shows_content<F>()
    ensures law { CompactionShowsContent F }
{}

/// Nobody chooses a directory that may be gone.
pub fn chooses_no_loose<F>()
    ensures law { ChoosesNoLoose F }
{}

/// The list of a place of the book says what its write ids have come to there.
pub fn list_says_fates()
    ensures law { (fates : List Fate) → SaysFates fates (list_at fates) }
{}

/// A list that ends at a watermark says of the write ids up to there what the whole list says.
pub fn list_says_up_to()
    ensures law { (watermark : ℕ) (list : WriteIds)
        → SaysUpTo watermark list (list_up_to watermark list) }
{}

/// Each entry of the book keeps what it knows of its readers and compactions.
pub fn stays_known()
    ensures law { StaysKnown }
{}

/// Each commit keeps what an open snapshot is to the book.
pub fn stays_since<F>()
    ensures law { StaysSince F }
{}

/// Choices that are worked out by hand.
pub fn choices_by_hand()
    ensures choices { ChoicesByHand }
    ensures rows { RowsByHand }
{}
