ghost use Rattle.hv_law_made.specs.Entries.{BooksGoOn, BooksAreSound, BooksHaveNames, EntriesChange, StandingGoesOn, RenamesStand, FrontsRecover, RecoveredGoOn};
ghost use Rattle.hv_law_made.specs.Laws.{ChangesStand, PutsAreUnmade, QuietStands, NewNamesAreFree, JobStepsStand, CleanedStands, AskedStands, PublishedStands, GivenStands, ForgottenStands, DroppedStands, CreatedStands, CommittedStands, OpenedStands, PublishedNamesAreNew, QuietEntriesStand};
ghost use Rattle.hv_law_made.specs.Opening.{StandingRecovers, NoneWorksStands, ListedAreWhole, GoingRecovers, GivenUpGoOn, QuietRecovers, QuietKeepsWhole, OpeningStands};
ghost use Rattle.hv_law_made.specs.Stopping.{OpeningFrontsRecover, OpeningStopsRecover};

/// The book makes nothing where writes and jobs put.
pub fn puts_are_unmade()
    ensures law { PutsAreUnmade }
{}

/// Where nothing goes that has to stand, and nothing comes but where writes and jobs put, all stands on.
pub fn changes_stand()
    ensures law { ChangesStand }
{}

/// An entry that leaves the tables and the jobs keeps the files standing.
pub fn quiet_stands()
    ensures law { QuietStands }
{}

/// Under a name that nothing has yet no file stands.
pub fn new_names_are_free()
    ensures law { NewNamesAreFree }
{}

/// A job that is picked, is empty, or fails keeps the files standing.
pub fn job_steps_stand()
    ensures law { JobStepsStand }
{}

/// A job that is asked for keeps them standing.
pub fn asked_stands()
    ensures law { AskedStands }
{}

/// And so does one that was cleaned, where nothing stands of what it covers.
pub fn cleaned_stands()
    ensures law { CleanedStands }
{}

/// And so does a publication of new directories which have their files.
pub fn published_stands()
    ensures law { PublishedStands }
{}

/// A write id that is given keeps them standing.
pub fn given_stands()
    ensures law { GivenStands }
{}

/// And so does one that is forgotten, where nothing stands of it.
pub fn forgotten_stands()
    ensures law { ForgottenStands }
{}

/// A table that is dropped keeps them standing.
pub fn dropped_stands()
    ensures law { DroppedStands }
{}

/// And so does one that is created.
pub fn created_stands()
    ensures law { CreatedStands }
{}

/// And so does a commit whose files stand.
pub fn committed_stands()
    ensures law { CommittedStands }
{}

/// A transaction that is opened keeps them standing.
pub fn opened_stands()
    ensures law { OpenedStands }
{}

/// And so do an opening of the store, a start, an abort.
pub fn quiet_entries_stand()
    ensures law { QuietEntriesStand }
{}

/// What a job is about to publish has new names.
pub fn published_names_are_new()
    ensures law { PublishedNamesAreNew }
{}

/// A book of few enough entries has names for all its directories.
pub fn books_have_names()
    ensures law { BooksHaveNames }
{}

/// What is said of books with jobs holds behind each entry that fits.
pub fn books_go_on()
    ensures law { BooksGoOn }
{}

/// So it holds of every book whose entries fit.
pub fn books_are_sound()
    ensures law { BooksAreSound }
{}

/// What an entry changes is at the places that it asks of.
pub fn entries_change()
    ensures law { EntriesChange }
{}

/// Each entry that fits keeps the files standing, where they are as it asks.
pub fn standing_goes_on()
    ensures law { StandingGoesOn }
{}

/// Staged directories that get their names have what they are to have, and the book may be told.
pub fn renames_stand()
    ensures law { RenamesStand }
{}

/// A front of the renames leaves what an opening accepts.
pub fn fronts_recover()
    ensures law { FrontsRecover }
{}

/// An opening that finds all directories of a job tells the book, and goes on so for the others.
pub fn recovered_go_on()
    ensures law { RecoveredGoOn }
{}

/// What stands can be opened.
pub fn standing_recovers()
    ensures law { StandingRecovers }
{}

/// Where no job is at work, what an opening finds stands.
pub fn none_works_stands()
    ensures law { NoneWorksStands }
{}

/// A job is whole where its directories are listed, and one of them is bare where they aren't.
pub fn listed_are_whole()
    ensures law { ListedAreWhole }
{}

/// While the directories of a job that is given up go, an opening finds what it may find.
pub fn going_recovers()
    ensures law { GoingRecovers }
{}

/// When they are gone, so it is behind the entry by which it has failed.
pub fn given_up_go_on()
    ensures law { GivenUpGoOn }
{}

/// And behind an opening, a start or an abort.
pub fn quiet_recovers()
    ensures law { QuietRecovers }
{}

/// These leave which jobs are whole.
pub fn quiet_keeps_whole()
    ensures law { QuietKeepsWhole }
{}

/// When an opening has ended all jobs that were at work, all stands.
pub fn opening_stands()
    ensures law { OpeningStands }
{}

/// When it has ended some of them, the next opening finds what it may find.
pub fn opening_fronts_recover()
    ensures law { OpeningFrontsRecover }
{}

/// And while the directories go of the one that comes next.
pub fn opening_stops_recover()
    ensures law { OpeningStopsRecover }
{}
