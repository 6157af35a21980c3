ghost use Rattle.hv_telling.specs.Laws.{TrueShown, WholeOpens, OpensTold, ToldStays, ReadsKeepWhole, ReadsStillOpen, FaithfulIsLeft, OpenedIsWhole, OpenedIsTold};

/// In a house that is true the book's files stand. One that is whole and told opens again, and what opens again has a store that opens.
pub fn true_shows<D>()
    ensures shown { TrueShown D }
    ensures whole { WholeOpens D }
    ensures opens { OpensTold D }
{}

/// What a house was opened over tells for all of its calls.
pub fn told_stays<D>()
    ensures law { ToldStays D }
{}

/// A call that only read keeps a house whole, and where it closed the house, what it leaves opens again.
pub fn reads_keep_whole<D>()
    ensures whole { ReadsKeepWhole D }
    ensures opens { ReadsStillOpen D }
{}

/// A store with a legal book whose files stand is one that can be opened.
pub fn faithful_is_left()
    ensures law { FaithfulIsLeft }
{}

/// A house that was just opened is whole; and over a store that tells of a book, whose files are what a run leaves, it is told.
pub fn opened_is_whole<D>()
    ensures whole { OpenedIsWhole D }
    ensures told { OpenedIsTold D }
{}
