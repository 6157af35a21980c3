ghost use Rattle.hv_law_needed.specs.Needed.{AReaderTakesWhatItNeeds, AJobTakesWhatItNeeds, TheEndTakesWhatItNeeds};

/// A reader takes nothing that a compaction covers which came before it.
pub fn a_reader_takes_what_it_needs<F>()
    ensures law { AReaderTakesWhatItNeeds F }
{}

/// A compaction at work takes nothing that a published one covers.
pub fn a_job_takes_what_it_needs<F>()
    ensures law { AJobTakesWhatItNeeds F }
{}

/// Nor does a reader of the end of the book.
pub fn the_end_takes_what_it_needs<F>()
    ensures law { TheEndTakesWhatItNeeds F }
{}
