ghost use Rattle.hv_law_partitions.specs.States.{PartitionsAreKept, ReadersSeeTheirContent, ReadersSeeItInOrder, WritesAreOfTheirIds};
ghost use Rattle.hv_law_partitions.specs.Since.{PlacesAreSince, ListShowsThen, SnapshotsAreOfPlaces};
ghost use Rattle.hv_law_partitions.specs.Worked.{ByHand};
ghost use Rattle.hv_law_partitions.specs.Deletes.{DeletedRowsStood, DeletesAreLater, HistoryIsSound};
ghost use Rattle.hv_law_partitions.specs.Laws.{IdsAreSound, WritesAreCommitted, ListIsOfFates, ContentIsOfPartition, ContentIsInOrder, ListShowsContent};

/// Inserted rows carry their write id and statement, and no two of a partition have one identifier.
pub fn ids_are_sound()
    ensures law { IdsAreSound }
{}

/// Each write of a table is of an id that is committed.
pub fn writes_are_committed()
    ensures law { WritesAreCommitted }
{}

/// The list of a table at a place says what its write ids have come to there.
pub fn list_is_of_fates()
    ensures law { ListIsOfFates }
{}

/// What is left of a partition's writes is what stands of the table in the partition.
pub fn content_is_of_partition()
    ensures law { ContentIsOfPartition }
    ensures ordered { ContentIsInOrder }
{}

/// Under the list at a place they show what stood of the table in the partition.
pub fn list_shows_content()
    ensures law { ListShowsContent }
{}

/// The rows that a write deleted stood in the table at its transaction's snapshot.
pub fn deleted_rows_stood()
    ensures law { DeletedRowsStood }
{}

/// Each row that a partition's write deleted was left of the writes before its snapshot.
pub fn deletes_are_later()
    ensures law { DeletesAreLater }
{}

/// A partition's writes are what the laws on directories ask of a history.
pub fn history_is_sound()
    ensures law { HistoryIsSound }
{}

/// Two inserts and a delete, in two partitions, worked out by hand.
pub fn writes_by_hand()
    ensures law { ByHand }
{}

/// The writes at a place of a book, and those since.
pub fn places_are_since()
    ensures law { PlacesAreSince }
{}

/// Under the list at a place all writes of now show what stood there of the table in the partition.
pub fn list_shows_then()
    ensures law { ListShowsThen }
{}

/// Where its directories stand, all holds of a partition of a book that publications and removals keep.
pub fn partitions_are_kept()
    ensures law { PartitionsAreKept }
{}

/// Whatever is published of a partition, an open transaction reads what stood there at its snapshot.
pub fn readers_see_their_content()
    ensures law { ReadersSeeTheirContent }
    ensures ordered { ReadersSeeItInOrder }
{}

/// A snapshot has the tables as they were at its place of the book.
pub fn snapshots_are_of_places()
    ensures law { SnapshotsAreOfPlaces }
{}

/// What a transaction wrote in a partition is what the law on commits asks of it.
pub fn writes_are_of_their_ids()
    ensures law { WritesAreOfTheirIds }
{}
