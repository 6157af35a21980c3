ghost use Rattle.hv_law_whole.specs.Covered.{CoveredAreListed, ListedAreCovered, ListedOnce};
ghost use Rattle.hv_law_whole.specs.Finals.{FinalsAreSaid};
ghost use Rattle.hv_law_whole.specs.Gathered.{MinorJobsGather, MajorJobsGather};
ghost use Rattle.hv_law_whole.specs.Whole.{FilesAreWhole};
ghost use Rattle.hv_law_whole.specs.Shown.{PartitionsAreKept, ReadersAreShown, TheEndIsShown, JobsReadUpToMark, JobsAreShown, RowsGoOnce};

/// What a book makes is needed by nobody any more, or it stands whole.
pub fn files_are_whole()
    ensures law { FilesAreWhole }
{}

/// No two commits delete one row.
pub fn rows_go_once()
    ensures law { RowsGoOnce }
{}

/// With bases and wide deltas all holds of a partition that publications and removals keep.
pub fn partitions_are_kept()
    ensures law { PartitionsAreKept }
{}

/// So an open transaction reads the rows of its snapshot.
pub fn readers_are_shown()
    ensures law { ReadersAreShown }
{}

/// And whoever comes next reads those of the end.
pub fn the_end_is_shown()
    ensures law { TheEndIsShown }
{}

/// A job at work reads what is left of the writes up to its watermark.
pub fn jobs_read_up_to_mark()
    ensures law { JobsReadUpToMark }
{}

/// Where commits say the truth, that is what is left up to the end of its range.
pub fn jobs_are_shown()
    ensures law { JobsAreShown }
{}

/// What a minor job at work gathers in a bucket is what its wide deltas are to have there.
pub fn minor_jobs_gather()
    ensures law { MinorJobsGather }
{}

/// Each directory that the book makes and a job covers is one of those that it lists.
pub fn covered_are_listed()
    ensures law { CoveredAreListed }
{}

/// And it lists nothing else.
pub fn listed_are_covered()
    ensures law { ListedAreCovered }
{}

/// And none of these comes twice.
pub fn listed_once()
    ensures law { ListedOnce }
{}

/// What a major job at work reads of a bucket is what its base is to have there.
pub fn major_jobs_gather()
    ensures law { MajorJobsGather }
{}

/// The directories that a job is to make, by what commits say of its range, are those that its writes make.
pub fn finals_are_said()
    ensures law { FinalsAreSaid }
{}
