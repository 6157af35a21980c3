//! Why a reading in several acts is sound, whatever others do between.

ghost use Rattle.std.specs.Prelude.{◌≡◌, ℕ, Option, Some, List, slice_get, take};
ghost use Rattle.hv_base.specs.declared.ids.TxnId.{TxnId};
ghost use Rattle.hv_shelf.specs.Disk.{Tree, Store};
ghost use Rattle.hv_ast.specs.declared.statement.Stmt.{Stmt};
ghost use Rattle.hv_locks.specs.declared.table.Lock.{Lock};
ghost use Rattle.hv_logic.specs.Names.{names_in};
ghost use Rattle.hv_logic.specs.declared.catalog.TableInfo.{TableInfo};
ghost use Rattle.hv_choosing.specs.declared.listing.DirFile.{DirFile};
ghost use Rattle.hv_history.specs.declared.state.Table.{Table};
ghost use Rattle.hv_history.specs.Lasting.{IsFront};
ghost use Rattle.hv_stands.specs.Running.{Asking, IsUnderWay};
ghost use Rattle.hv_trail.specs.declared.trail.TrailItem.{TrailItem};
ghost use Rattle.hv_trail.specs.Trail.{book_of};
ghost use Rattle.hv_trail.specs.Steps.{HouseSeen};
ghost use Rattle.hv_telling.specs.hv_house.specs.Listing.{AreTaken};
ghost use Rattle.hv_telling.specs.hv_house.specs.declared.listing.Listing.{Listing};
ghost use Rattle.hv_telling.specs.hv_house.specs.Seeing.{ids_in};
ghost use Rattle.hv_acts.specs.Reading.{HasPlace, state_then, HasFittingBook, HasReader, ReadsTable, info_then, IsThere, table_at, ReadsOn, AllStandStill, ReadsOnTold, HasListed, AllGotStill};

/// A place of a book is one of every longer book, and the entries before it are the same: so are the table of a name there and
/// the list of a table's write ids.
pub fn places_last()
    ensures has { (before now : List TrailItem) (place : ℕ) → IsFront before now → HasPlace before place
        → HasPlace now place }
    ensures front { (before now : List TrailItem) (place : ℕ) → IsFront before now → HasPlace before place
        → take place (book_of now) ≡ take place (book_of before) }
    ensures found { (before now : List TrailItem) (place : ℕ) (name : List ℕ) → IsFront before now
        → HasPlace before place
        → info_then now place name ≡ info_then before place name }
    ensures list { (before now : List TrailItem) (place table : ℕ) → IsFront before now → HasPlace before place
        → ids_in (state_then now place) table ≡ ids_in (state_then before place) table }
{}

/// A table that is found by its name was there, by its number.
pub fn what_was_found_is_there()
    ensures law { (trail : List TrailItem) (place : ℕ) (name : List ℕ) (info : TableInfo) → HasFittingBook trail
        → Some info ≡ info_then trail place name → IsThere trail place info }
{}

/// A transaction whose statement is under way reads at the place of its snapshot under each name that the statement locks, and what has the
/// name there is the table that it reads; and so it is of every longer trail.
pub fn who_is_under_way_reads()
    ensures reads { (trail : List TrailItem) (asking : Asking) (by : TxnId) (place : ℕ) (said : Stmt)
        (given : List (ℕ × ℕ)) (index : ℕ) (lock : Lock)
        → IsUnderWay (book_of trail) asking by.0 place said given → slice_get (names_in said) index ≡ Some lock
        → HasReader trail by place lock.name }
    ensures finds { (trail : List TrailItem) (by : TxnId) (place : ℕ) (name : List ℕ) (info : TableInfo)
        → HasFittingBook trail
        → HasReader trail by place name → Some info ≡ info_then trail place name
        → ReadsTable trail by place info.table.0 }
    ensures lasts { (before now : List TrailItem) (by : TxnId) (place : ℕ) (name : List ℕ) → IsFront before now
        → HasReader before by place name → HasReader now by place name }
    ensures table { (before now : List TrailItem) (by : TxnId) (place table : ℕ) → IsFront before now
        → ReadsTable before by place table → ReadsTable now by place table }
{}

/// Where the files of the book stood and stand: the files of a table that were listed for a transaction that has not ended stand later with the
/// bytes that they had.
pub fn what_was_listed_stands()
    ensures stand { (before now : List TrailItem) (files files' : Tree) (by : TxnId) (place : ℕ) (table : Table)
        (inserts deletes : List DirFile)
        → ReadsOn before now files files' (table_at by place table)
        → AreTaken table.info.table (ids_in (state_then before place) table.info.table.0) files inserts deletes
        → AllStandStill files files' inserts × AllStandStill files files' deletes }
{}

/// Of a told house: of the files of a table that were listed for a transaction one that is got for it later is there, with the bytes that it
/// had.
pub fn what_was_listed_is_got<D>()
    ensures got { (told : D → Option Store) (before now : HouseSeen D) (by : TxnId) (place : ℕ) (table : Table)
        (listing : Listing)
        → ReadsOnTold told before now by place table → HasListed told before by place table.info.table listing
        → AllGotStill told before now by listing.inserts.items × AllGotStill told before now by listing.deletes.items }
{}
