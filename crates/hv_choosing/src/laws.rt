ghost use Rattle.hv_choosing.specs.Laws.{OwnFilesAreTaken};

/// Where no base and no wide delta stands, the files of the own directories of valid write ids are those that are taken.
pub fn own_files_are_taken()
    ensures law { OwnFilesAreTaken }
{}
