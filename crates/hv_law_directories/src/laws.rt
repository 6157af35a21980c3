ghost use Rattle.hv_law_directories.specs.Laws.{FilesCanBeRead, ListedAreDirectories, ThereAreDirectories, RowsAreVisible};
ghost use Rattle.hv_law_directories.specs.Worked.{DirectoriesByHand};

/// Each file can be read.
pub fn files_can_be_read()
    ensures law { FilesCanBeRead }
{}

/// A listing of a table's files says which directories each partition has, and there always is one.
pub fn listed_are_directories()
    ensures law { ListedAreDirectories }
    ensures there { ThereAreDirectories }
{}

/// The rows that are read of a table are those that its directories show, partition by partition.
pub fn rows_are_visible()
    ensures law { RowsAreVisible }
{}

/// The files of two partitions, worked out by hand.
pub fn directories_by_hand()
    ensures law { DirectoriesByHand }
{}
