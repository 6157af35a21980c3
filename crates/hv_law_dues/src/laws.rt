ghost use Rattle.std.specs.Prelude.{◌≡◌, true, false};
ghost use Rattle.hv_stands.specs.Worked.{part_one, part_two};
ghost use Rattle.hv_law_dues.specs.Worked.{count_by_hand};
ghost use Rattle.hv_law_dues.specs.Laws.{TouchesCountRows, FilesCountRows, DuesCountWrites, FilesAreCounted, WantedFilesAreCounted};

/// The touches of a change say of each partition how many rows are inserted and deleted there, and its files have so many records
/// there.
pub fn touches_count_rows()
    ensures touches { TouchesCountRows }
    ensures files { FilesCountRows }
{}

/// The commits of a legal book say of each table, write id and partition how many rows the table's write inserted and deleted there.
pub fn dues_count_writes()
    ensures law { DuesCountWrites }
{}

/// Where an open transaction reads a table of a legal book from own directories alone, the files have as many records as the commits
/// before its snapshot say; so too of the partitions that are wanted, where the files of these alone are read.
pub fn files_are_counted()
    ensures law { FilesAreCounted }
    ensures wanted { WantedFilesAreCounted }
{}

/// A write worked out by hand.
pub fn counted_by_hand()
    ensures first { count_by_hand false 2 part_one ≡ 2 }
    ensures second { count_by_hand false 2 part_two ≡ 2 }
    ensures gone { count_by_hand true 2 part_one ≡ 1 }
    ensures kept { count_by_hand true 2 part_two ≡ 0 }
    ensures other { count_by_hand false 1 part_one ≡ 0 }
{}
