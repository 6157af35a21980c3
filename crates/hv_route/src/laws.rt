ghost use Rattle.hv_route.specs.Back.{TextSaysValues, SaysLayers, TypedAreSaid};
ghost use Rattle.hv_route.specs.Rising.{AllTouchesRise, AllFilesRise, RowsAreNumbered};
ghost use Rattle.hv_route.specs.Standing.{FilesHaveRows, FilesHaveRecords, AllTouchesAreOfRows};

/// The values of a partition's text are those that it was made of, where each value's own text says it.
pub fn text_says_values()
    ensures law { TextSaysValues }
{}

/// The text of a value says it: of NULL, of a BOOLEAN, of an INT or a BIGINT, of a STRING, and of a DATE that the calendar
/// has, each in a column of its type.
pub fn texts_say_values()
    ensures law { SaysLayers }
{}

/// The text of a value of its column's type says it, where that is no ARRAY and the value is one that the code's types hold.
pub fn typed_values_are_said()
    ensures law { TypedAreSaid }
{}

/// The touches of a change rise strictly by table and partition, and each inserts or deletes some row.
pub fn touches_rise()
    ensures law { AllTouchesRise }
{}

/// The files of an effect rise strictly: those of inserts before those of deletes, by partition, and then by bucket. So no two
/// have the same partition, kind and bucket.
pub fn files_rise()
    ensures law { AllFilesRise }
{}

/// Of the files of an effect the one of a kind, partition and bucket has just the records of the rows that stand there, the inserted
/// rows numbered, where the deleted rows rise by partition and identifier; and no file is without records. So where no row
/// stands there is no file.
pub fn files_have_rows()
    ensures rows { FilesHaveRows }
    ensures records { FilesHaveRecords }
{}

/// A change touches rows exactly where it inserts or deletes some.
pub fn touches_are_of_rows()
    ensures law { AllTouchesAreOfRows }
{}

/// The numbered rows rise by partition and identifier, so no two are one. Each stands in its own partition and bucket, under the
/// write id and the statement's number.
pub fn rows_are_numbered()
    ensures law { RowsAreNumbered }
{}
