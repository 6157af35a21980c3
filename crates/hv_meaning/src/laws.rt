ghost use Rattle.hv_meaning.specs.MergeLaws.{FirstIsNamed, NoneMatchTwice};
ghost use Rattle.hv_meaning.specs.Needs.{NarrowRowsAreEnough};
ghost use Rattle.hv_meaning.specs.Laws.{FormsMean, OtherFormsMeanNothing, TablesAreNew, DropsAreNamed, AsksAreNamed, ChangesAreNamed, ChangesAreSeen, InsertsDeleteNothing, TypedValuesAreStored, RowsAreUnseen, RowsAreUnseenIn};

/// The statements of the forms that are analysed mean something, whatever the tables.
pub fn forms_mean()
    ensures forms { FormsMean }
    ensures others { OtherFormsMeanNothing }
{}

/// Only a CREATE TABLE of a new name makes a table, in the shape of its text, with no ARRAY among its partition columns.
pub fn made_tables_are_new()
    ensures law { TablesAreNew }
{}

/// Only a DROP TABLE drops a table: the live one of its name.
pub fn dropped_tables_are_named()
    ensures law { DropsAreNamed }
{}

/// Only a COMPACT asks for a compaction: of its kind, of the live table of its name. The partition's text is at most 240 bytes.
pub fn asks_are_named()
    ensures law { AsksAreNamed }
{}

/// A change is of the table that the statement names, and deletes rows that stand in it, each once and in
/// their order; each new row has a value of its type for each column, a row file takes what is stored of it, and its
/// partition's text says the rest. It is within the limits of rows and partitions.
pub fn changes_are_named()
    ensures law { ChangesAreNamed }
{}

/// Over whatever tables are seen, a change is of one of them: it deletes rows that are seen of it, each once and
/// in their order, and its new rows fit the table as those of `changes_are_named`.
pub fn changes_are_seen()
    ensures law { ChangesAreSeen }
{}

/// INSERT INTO deletes nothing.
pub fn inserts_delete_nothing()
    ensures law { InsertsDeleteNothing }
{}

/// A value of a type is one that a row file takes, and it is counted by what it takes there.
pub fn typed_values_are_stored()
    ensures law { TypedValuesAreStored }
{}

/// A statement that reads no rows means the same whatever rows its tables have.
pub fn rows_are_unseen()
    ensures named { RowsAreUnseenIn }
    ensures live { RowsAreUnseen }
{}

/// A statement comes to the same without the rows of partitions that it doesn't need.
pub fn narrow_rows_are_enough()
    ensures law { NarrowRowsAreEnough }
{}

/// The row that a MERGE names as matched by two source rows is one, and each row before it is matched by one at most; where none is
/// named, so is every row.
pub fn merges_name_the_first()
    ensures first { FirstIsNamed }
    ensures none { NoneMatchTwice }
{}
