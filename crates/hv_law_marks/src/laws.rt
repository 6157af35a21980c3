ghost use Rattle.hv_law_marks.specs.Laws.{UnbrokenStays, PutStays, OpenedMarksStand, NotedMarksStand, PutMarksStand, BrokenMarksStand, UnreadMarksStand, ChangesAreOpen, GivenPlacesAreOwn, MarksGiveFiles};

/// A reader for whom no call failed stays so while none fails for it, and all that a transaction put stays put whatever others add to
/// the trail.
pub fn others_leave_marks()
    ensures unbroken { UnbrokenStays }
    ensures put { PutStays }
{}

/// The marks of a house that was just opened are true of its files: no transaction is open, and there is no mark.
pub fn opened_marks_stand()
    ensures law { OpenedMarksStand }
{}

/// Each entry that fits, whoever's it is, keeps the marks true of the files.
pub fn noted_marks_stand()
    ensures law { NotedMarksStand }
{}

/// So does each file of an open transaction's change that is put.
pub fn put_marks_stand()
    ensures law { PutMarksStand }
{}

/// So does a put at an own place that failed, whatever it left there, and any call that failed and left the files.
pub fn broken_marks_stand()
    ensures puts { BrokenMarksStand }
    ensures reads { UnreadMarksStand }
{}

/// A statement that is under way with a change and its write id is changing rows, and places of its write id are its own.
pub fn changes_are_open()
    ensures open_ { ChangesAreOpen }
    ensures own { GivenPlacesAreOwn }
{}

/// A transaction whose change was wholly put has just the files of it in its own directories.
pub fn marks_give_files()
    ensures law { MarksGiveFiles }
{}
