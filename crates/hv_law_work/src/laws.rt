ghost use Rattle.hv_law_work.specs.Laws.{WantsStay, JobFileLasts, StagedLasts, StagedPutsStand, GoneStand, MarkedIsStaged, GoneIsFiled, OthersKeepMarks, StagedKeepsChanges, GoneKeepsChanges, PublishedKeepsMarks, OpenedJobMarks, NotedJobMarks, OwnJobMarks, PutJobMarks, BrokenJobMarks, UnreadJobMarks, WentJobMarks, TornJobMarks, PublishedJobMarks};

/// While a job is at work it wants the same, and what was staged stays staged.
pub fn what_is_wanted_stays()
    ensures wants { WantsStay }
    ensures file { JobFileLasts }
    ensures staged { StagedLasts }
{}

/// A file that a job stages leaves all else standing.
pub fn staged_puts_stand()
    ensures law { StagedPutsStand }
{}

/// And so does a directory that may go.
pub fn gone_stands()
    ensures law { GoneStand }
{}

/// Where all files of a job have marks, its directories may get their names.
pub fn marked_is_staged()
    ensures law { MarkedIsStaged }
{}

/// Where all that a job covers has marks, it may be noted as cleaned.
pub fn gone_is_filed()
    ensures law { GoneIsFiled }
{}

/// What jobs and cleaners do keeps what the marks of transactions say true of the files.
pub fn marks_stay()
    ensures others { OthersKeepMarks }
    ensures staged { StagedKeepsChanges }
    ensures gone { GoneKeepsChanges }
    ensures published { PublishedKeepsMarks }
{}

/// Each step of a house keeps what the marks of jobs say true of the files.
pub fn job_marks_stand()
    ensures opened { OpenedJobMarks }
    ensures noted { NotedJobMarks }
    ensures own { OwnJobMarks }
    ensures put { PutJobMarks }
    ensures broken { BrokenJobMarks }
    ensures unread { UnreadJobMarks }
    ensures went { WentJobMarks }
    ensures torn { TornJobMarks }
    ensures published { PublishedJobMarks }
{}
