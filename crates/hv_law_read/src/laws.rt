ghost use Rattle.hv_law_read.specs.Needs.{NeededIsntSpare, NeededStands, NeedsLast};
ghost use Rattle.hv_law_read.specs.Reading.{TakenIsNeeded, RowsStood, NoneWasSpoiled};

/// Nobody may take what an open transaction needs.
pub fn needed_isnt_spare()
    ensures law { NeededIsntSpare }
{}

/// So it stands.
pub fn needed_stands()
    ensures law { NeededStands }
{}

/// And the transaction needs it whatever entries come.
pub fn needs_last()
    ensures law { NeedsLast }
{}

/// What it takes of the files that stand is made by the book, and it needs it.
pub fn taken_is_needed()
    ensures law { TakenIsNeeded }
{}

/// What it reads of a table is what stood in it at its snapshot.
pub fn rows_stood()
    ensures law { RowsStood }
{}

/// And no file of it is amiss.
pub fn none_was_spoiled()
    ensures law { NoneWasSpoiled }
{}
