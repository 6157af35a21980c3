ghost use Rattle.std.specs.Prelude.{◌≡◌, [], ◌∷◌, true, false, None};
ghost use Rattle.hv_stands.specs.Files.{records_of, commit_file};
ghost use Rattle.hv_stands.specs.Worked.{shape_by_hand, part_one, part_two, id_by_hand, write_by_hand, record_by_hand, delete_by_hand};
ghost use Rattle.hv_stands.specs.Laws.{SoundnessGoesOn};
ghost use Rattle.hv_stands.specs.Statements.{Opens, Starts, Begins, IdsAreGiven, CommitsAnswer, CreatesAnswer, DropsAnswer, AbortsAnswer, WaitingAbortsAnswer, AnswersStay, OthersLeaveIt, FittingIsSound, FrontsFit, OneMoreFits, FittingHasRoom, SeeingIsEnough, ChangedTableStood, TablesStay, EffectsCanBeWritten, PutFilesStay, NewIdsAreOthers, EarlierIdsAreKept};

/// What holds of every state holds behind each entry that fits.
pub fn soundness_goes_on()
    ensures law { SoundnessGoesOn }
{}

/// A statement waits behind its Opened, and is under way behind its Start: its snapshot is of the book there.
pub fn begins()
    ensures opens { Opens }
    ensures starts { Starts }
    ensures both { Begins }
{}

/// A write id stands behind those that the statement's transaction was given.
pub fn ids_are_given()
    ensures law { IdsAreGiven }
{}

/// What a statement's last entry is gives its answer, and the answer stays.
pub fn answers()
    ensures commits { CommitsAnswer }
    ensures creates { CreatesAnswer }
    ensures drops { DropsAnswer }
    ensures aborts { AbortsAnswer }
    ensures waiting { WaitingAbortsAnswer }
    ensures stay { AnswersStay }
{}

/// Entries of other transactions leave a statement that is under way as it is.
pub fn others_leave_it()
    ensures law { OthersLeaveIt }
{}

/// A book whose entries fit is sound, and so is each front of it; an entry more that fits has room.
pub fn fitting_books()
    ensures sound { FittingIsSound }
    ensures fronts { FrontsFit }
    ensures more { OneMoreFits }
    ensures room { FittingHasRoom }
{}

/// The tables that a statement names, with the rows of the partitions that it needs, are all that it has to see. What it changes is a
/// table of its snapshot, which stays, and the rows of the change fit row files.
pub fn seeing_is_enough()
    ensures seeing { SeeingIsEnough }
    ensures changed { ChangedTableStood }
    ensures tables { TablesStay }
    ensures written { EffectsCanBeWritten }
{}

/// The files of a statement stay while those of write ids that were given stay; files of the next one are of none that was given.
pub fn statement_files_stay()
    ensures stay { PutFilesStay }
    ensures new { NewIdsAreOthers }
    ensures earlier { EarlierIdsAreKept }
{}

/// A commit worked out by hand: the records of two partitions and two buckets, and where it makes no file.
pub fn worked_by_hand()
    ensures first { records_of shape_by_hand false part_one 0 write_by_hand ≡ record_by_hand (id_by_hand 2 0 0) 4 ∷ [] }
    ensures second { records_of shape_by_hand false part_one 1 write_by_hand ≡ record_by_hand (id_by_hand 2 1 0) 7 ∷ [] }
    ensures both { records_of shape_by_hand false part_two 1 write_by_hand ≡ record_by_hand (id_by_hand 2 1 0) 5 ∷ record_by_hand (id_by_hand 2 1 1) 9 ∷ [] }
    ensures none { commit_file shape_by_hand false part_two 0 write_by_hand ≡ None }
    ensures gone { records_of shape_by_hand true part_one 0 write_by_hand ≡ delete_by_hand ∷ [] }
    ensures kept { commit_file shape_by_hand true part_one 1 write_by_hand ≡ None }
{}
