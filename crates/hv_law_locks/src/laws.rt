ghost use Rattle.hv_law_locks.specs.Laws.{CreatedNamesAreFree, DroppedTablesAreNamed, GivenTablesLive, LockedNamesStay, LocksAreApart};

/// No two statements that run hold locks that conflict, and under each name that a running statement locks stand the
/// live tables that stood there at its snapshot.
pub fn locks_hold()
    ensures apart { LocksAreApart }
    ensures names { LockedNamesStay }
{}

/// A table that was live at its snapshot, under a name that it locks, is live: so it may be given a write id there.
pub fn given_tables_live()
    ensures law { GivenTablesLive }
{}

/// A CREATE TABLE of a name that no live table had at its snapshot finds that name free.
pub fn created_names_are_free()
    ensures law { CreatedNamesAreFree }
{}

/// A DROP TABLE of a table that had its name at its snapshot finds that table under that name.
pub fn dropped_tables_are_named()
    ensures law { DroppedTablesAreNamed }
{}
