ghost use Rattle.hv_law_published.specs.Laws.{ANewPartitionIsKept, AnOpenListShowsContent, ACommitKeeps, EachOtherEntryKeeps, AnAbortedWriteKeeps, APublishedJobKeeps, AJobGathersItsRecords, ALooseOneIsRetired, ARemovalKeeps};
ghost use Rattle.hv_law_published.specs.Worked.{RowsByHand, StepsByHand};

/// A partition of which nothing stands and nothing is written has what always holds.
pub fn a_new_partition_is_kept<F>()
    ensures law { ANewPartitionIsKept F }
{}

/// Under each list under which somebody may read, the directories show the content of the writes
/// that the list shows.
pub fn an_open_list_shows_content<F>()
    ensures law { AnOpenListShowsContent F }
{}

/// A commit keeps what must stand, where its own directories hold just its records.
pub fn a_commit_keeps<F>()
    ensures law { ACommitKeeps F }
{}

/// The own directories of an open or aborted write id may hold anything, and nobody sees it.
pub fn an_aborted_write_keeps<F>()
    ensures law { AnAbortedWriteKeeps F }
{}

/// Opening and starting transactions, giving and forgetting write ids, and ends without one keep it.
pub fn each_other_entry_keeps<F>()
    ensures law { EachOtherEntryKeeps F }
{}

/// A published compaction keeps what must stand, and changes no answer.
pub fn a_published_job_keeps<F>()
    ensures law { APublishedJobKeeps F }
{}

/// What a compaction gathers under its list is just what it has to write.
pub fn a_job_gathers_its_records<F>()
    ensures law { AJobGathersItsRecords F }
{}

/// A directory that may be gone is chosen by nobody, and another one that is chosen covers it.
pub fn a_loose_directory_is_retired<F>()
    ensures law { ALooseOneIsRetired F }
{}

/// Taking such a directory away, or a part of it, keeps what must stand, and changes no answer.
pub fn a_removal_keeps<F>()
    ensures law { ARemovalKeeps F }
{}

/// A base that is published over two deltas, and the deltas that go then, worked out by hand.
pub fn steps_by_hand()
    ensures rows { RowsByHand }
    ensures steps { StepsByHand }
{}
