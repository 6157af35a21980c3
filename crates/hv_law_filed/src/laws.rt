ghost use Rattle.hv_law_filed.specs.Filed.{NewIdsHaveNoFile, FilesArePut, PutsStand, QuietEntriesStand, OtherEntriesStand, CommitsStand};

/// The next write id of a live table has no file, and behind the put of a change's files just these stand in its directories.
pub fn files_are_put()
    ensures bare { NewIdsHaveNoFile }
    ensures law { FilesArePut }
{}

/// Whatever is put or broken there, the files that the book makes stand.
pub fn puts_stand()
    ensures law { PutsStand }
{}

/// An entry that asks nothing of the files keeps them standing: one of a statement without a write id, and of whom it may be else.
pub fn entries_stand()
    ensures quiet { QuietEntriesStand }
    ensures others { OtherEntriesStand }
{}

/// So does a commit with its files.
pub fn commits_stand()
    ensures law { CommitsStand }
{}
