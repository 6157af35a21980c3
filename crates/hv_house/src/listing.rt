//! Tables, their files, and the bytes of a file, each by one call for a transaction that reads.

ghost use Rattle.std.specs.Prelude.{◌≡◌, ◌↔◌, ℕ, ◌<◌, Bool, List, Some, None, false, take, option_map, IfOk, IfErr, IsErrOf};
ghost use Rattle.std.specs.FinMap as tree;
ghost use Rattle.hv_base.specs.Told.{Tells};
ghost use Rattle.hv_base.specs.declared.ids.Limits.{Limits};
ghost use Rattle.hv_shelf.specs.Disk.{places_of};
ghost use Rattle.hv_rowfile.specs.declared.record.Rec.{Rec};
ghost use Rattle.hv_history.specs.State.{state_of};
ghost use Rattle.hv_stands.specs.Reading.{table_of_name};
ghost use Rattle.hv_finals.specs.hv_law_made.specs.Standing.{IsEncodingOf};
ghost use Rattle.hv_trail.specs.declared.trail.Reader.TheVariants.{Txn};
ghost use Rattle.hv_trail.specs.Steps.{Step};
ghost use Rattle.hv_trail.specs.Steps as calls;
ghost use Rattle.hv_shelf.specs.declared.fault.ShelfFault.TheVariants as shelf_fault;
ghost use Rattle.hv_house.specs.declared.listing.ListFault.TheVariants as list_fault;
ghost use Rattle.hv_house.specs.declared.listing.GetFault.TheVariants as get_fault;
ghost use Rattle.hv_house.specs.Calls.{IfOpen, HasEndedAt};
ghost use Rattle.hv_house.specs.Faults.{house_fault, ShutsAtLast, HardStep};
ghost use Rattle.hv_house.specs.House.{entries_of, IsAsked, IsReadyWithin};
ghost use Rattle.hv_house.specs.Seeing.{ids_in};
ghost use Rattle.hv_house.specs.Steps.{seen_of, fault_outcome, GainsBy};
ghost use Rattle.hv_house.specs.Listing.{AreTaken, AreTakenOf, HasSnapshotAt, IsNeeded, IsNotFound, ReadStep, ListCause, GetCause, info_in, list_outcome, get_outcome, IsMarkedListing, IsMarkedGetting, StaysListedWithin, StaysGotWithin};

use crate::calls::ended_at;
use crate::fault::HouseFault;
use crate::house::House;
use hv_base::{NoMemory, TableId, Text, TxnId};
use hv_choosing::{DirFile, list_files, take_files};
use hv_earlier::{find_at, list_at};
use hv_logic::TableInfo;
use hv_shelf::{Place, Shelf, ShelfFault};
use hv_trail::Reader;
use hv_wids::WriteIdList;
use std::alloc::Global;
use thiserror::Error;

/// The files of a table that a reader takes, and the list of the table's write ids by which it takes them.
#[derive(Drop)]
pub struct Listing {
    pub list: WriteIdList,
    /// Those of rows.
    pub inserts: Vec<DirFile>,
    /// Those of deletes.
    pub deletes: Vec<DirFile>,
}

/// Why the files of a table were not listed.
#[derive(Clone, Copy, Debug, Error)]
pub enum ListFault {
    /// The entry at this place ended the transaction.
    #[error("the transaction ended at {at}")]
    NotOpen { at: u64 },
    /// A call of the house failed.
    #[error("the house failed")]
    House(HouseFault),
}

/// Why the bytes of a file were not got.
#[derive(Clone, Copy, Debug, Error)]
pub enum GetFault {
    /// The entry at this place ended the transaction.
    #[error("the transaction ended at {at}")]
    NotOpen { at: u64 },
    /// No file stands there.
    #[error("no such file")]
    NotFound,
    /// A call of the house failed.
    #[error("the house failed")]
    House(HouseFault),
}

/// Of the files at these places, those that a reader takes under its list.
pub fn take_of(alloc: Global, list: WriteIdList, places: Vec<Place>) -> Result<Listing, NoMemory>
    ensures list { IfOk result (λ listing. listing.list ≡ list) }
    ensures files { IfOk result (λ listing. AreTakenOf places.items listing.list listing.inserts.items
        listing.deletes.items) }
{
    let files = list_files(alloc, places)?;
    let taken = take_files(alloc, &list, &files)?;
    Ok(Listing {
        list,
        inserts: taken.inserts,
        deletes: taken.deletes,
    })
}

impl<D: Shelf> House<D> {
    /// What a fault of the store is for a reader, or for nobody.
    fn fail_get(&mut self, by: Option<Reader>, fault: ShelfFault) -> HouseFault
        requires running { self.old.trail.closed ≡ false }
        requires room { 0 < self.old.trail.room }
        ensures fault { result ≡ house_fault (D.faults self.old.shelf) fault }
        ensures shelf { self.new.shelf ≡ self.old.shelf }
        ensures gains { GainsBy (calls.Read by) (fault_outcome result) self.old self.new }
        ensures last { ShutsAtLast (fault ≡ shelf_fault.Failed) (D.faults self.old.shelf)
            self.old.trail.closed self.new.trail.closed }
    {
        match fault {
            ShelfFault::Failed => self.fail(by, false),
            ShelfFault::NoMemory => HouseFault::NoMemory,
        }
    }

    /// The places of a table's files, rising.
    pub(crate) fn places(
        &mut self,
        alloc: Global,
        by: Option<Reader>,
        table: TableId,
    ) -> Result<Vec<Place>, HouseFault>
        ghost limits: { Limits }
        requires ready { IsReadyWithin limits D.told self.old }
        ensures places { IfOk result (λ places. Tells (D.told self.old.shelf)
            (λ s. places.items ≡ places_of table s.tree)) }
        ensures read { ReadStep D.told D.faults by self.old self.new result }
        ensures hard { HardStep (D.hard self.old.shelf) (D.hard self.new.shelf)
            self.old.trail.closed self.new.trail.closed }
    {
        self.trail.reserve_mark()?;
        match self.shelf.list(alloc, table) {
            Ok(places) => Ok(places),
            Err(fault) => Err(self.fail_get(by, fault)),
        }
    }

    /// The bytes of the file at a place, where one stands there.
    pub(crate) fn file_at(
        &mut self,
        alloc: Global,
        by: Option<Reader>,
        place: &Place,
    ) -> Result<Option<Vec<u8>>, HouseFault>
        ghost limits: { Limits }
        requires ready { IsReadyWithin limits D.told self.old }
        ensures bytes { IfOk result (λ file. Tells (D.told self.old.shelf)
            (λ s. option_map (λ v. v.items) file ≡ tree.get s.tree place.now)) }
        ensures read { ReadStep D.told D.faults by self.old self.new result }
        ensures hard { HardStep (D.hard self.old.shelf) (D.hard self.new.shelf)
            self.old.trail.closed self.new.trail.closed }
    {
        self.trail.reserve_mark()?;
        match self.shelf.get(alloc, place) {
            Ok(file) => Ok(file),
            Err(fault) => Err(self.fail_get(by, fault)),
        }
    }

    /// The files of a table that a transaction takes under the list that it had at a place of the book.
    fn files_at(
        &mut self,
        alloc: Global,
        by: TxnId,
        place: u64,
        table: TableId,
    ) -> Result<Listing, HouseFault>
        ghost limits: { Limits }
        requires ready { IsReadyWithin limits D.told self.old }
        ensures list { IfOk result (λ listing.
            listing.list ≡ ids_in (state_of (take place (entries_of self.old))) table.0) }
        ensures files { IfOk result (λ listing. Tells (D.told self.old.shelf)
            (λ s. AreTaken table listing.list s.tree listing.inserts.items listing.deletes.items)) }
        ensures read { ReadStep D.told D.faults (Some (Txn by)) self.old self.new result }
        ensures hard { HardStep (D.hard self.old.shelf) (D.hard self.new.shelf)
            self.old.trail.closed self.new.trail.closed }
    {
        let list = list_at(alloc, self.trail.book(), place as usize, table)?;
        let places = self.places(alloc, Some(Reader::Txn(by)), table)?;
        Ok(take_of(alloc, list, places)?)
    }

    /// The table of that name as it stood at a place of the book; None where there was none. A place is a number of entries, from 0 on:
    /// those before it count.
    ///
    /// # Errors
    /// Where memory lacks.
    pub fn find(
        &self,
        alloc: Global,
        place: u64,
        name: &Text,
    ) -> Result<Option<TableInfo>, NoMemory>
        ghost limits: { Limits }
        requires ready { IsReadyWithin limits D.told self.now }
        ensures found { IfOk result (λ found. found ≡ option_map info_in
            (table_of_name name.now (state_of (take place (entries_of self.now))).tables)) }
    {
        find_at(alloc, self.trail.book(), place as usize, name)
    }

    /// The files of a table that a transaction takes under the list that the table's write ids had at the place of its snapshot, and this
    /// list. A call that failed is marked as this transaction's.
    ///
    /// # Errors
    /// `NotOpen` where the transaction has ended. `NoMemory` where memory lacks. `Failed` where the store failed, with its count of faults;
    /// `Store` where that is the last one: the house is closed.
    pub fn list(
        &mut self,
        alloc: Global,
        by: TxnId,
        place: u64,
        table: TableId,
    ) -> Result<Listing, ListFault>
        ghost limits: { Limits }
        requires ready { IsReadyWithin limits D.told self.old }
        requires can { IfOpen (state_of (entries_of self.old)) by.0 (HasSnapshotAt place) }
        ensures asked { IsAsked D.told self.old self.new }
        ensures list { IfOk result (λ listing.
            listing.list ≡ ids_in (state_of (take place (entries_of self.old))) table.0) }
        ensures files { IfOk result (λ listing. Tells (D.told self.old.shelf)
            (λ s. AreTaken table listing.list s.tree listing.inserts.items listing.deletes.items)) }
        ensures not_open { (at : ℕ) → IsErrOf result (list_fault.NotOpen at)
            ↔ HasEndedAt (entries_of self.old) by.0 at }
        ensures ready { IfOk result (λ _. IsReadyWithin limits D.told self.new) }
        ensures stays { IfErr result (λ why. StaysListedWithin limits D.told why self.new) }
        ensures marked { IfErr result (IsMarkedListing self.new by) }
        ensures step { Step D.told D.faults (calls.Read (Some (Txn by))) (list_outcome result)
            (seen_of self.old) (seen_of self.new) }
        ensures cause { ListCause (D.faults self.old.shelf) (D.faults self.new.shelf) result }
        ensures hard { HardStep (D.hard self.old.shelf) (D.hard self.new.shelf)
            self.old.trail.closed self.new.trail.closed }
    {
        match ended_at(self.trail.book(), by) {
            Some(at) => Err(ListFault::NotOpen { at }),
            None => match self.files_at(alloc, by, place, table) {
                Ok(listing) => Ok(listing),
                Err(why) => Err(ListFault::House(why)),
            },
        }
    }

    /// The bytes of the file at a place, for a transaction. Where the files of the book stand, those of one that it needs are answered, and
    /// none that it needs is missed. A call that failed is marked as this transaction's.
    ///
    /// # Errors
    /// `NotOpen` where the transaction has ended, and then `NotFound` where no file stands there. Else as `list`.
    pub fn get(&mut self, alloc: Global, by: TxnId, place: &Place) -> Result<Vec<u8>, GetFault>
        ghost limits: { Limits }
        requires ready { IsReadyWithin limits D.told self.old }
        ensures asked { IsAsked D.told self.old self.new }
        ensures bytes { IfOk result (λ bytes. Tells (D.told self.old.shelf)
            (λ s. tree.get s.tree place.now ≡ Some bytes.items)) }
        ensures none { IfErr result (λ why. IsNotFound why
            → Tells (D.told self.old.shelf) (λ s. tree.get s.tree place.now ≡ None)) }
        ensures needed { (deletes : Bool) (recs : List Rec) → IsNeeded D.told self.old by place.now deletes recs
            → IfOk result (λ found. Tells (D.told self.old.shelf)
            (λ _. IsEncodingOf deletes place.now.bucket recs found.items)) }
        ensures found { (deletes : Bool) (recs : List Rec) → IsNeeded D.told self.old by place.now deletes recs
            → IfErr result (λ why. IsNotFound why → Tells (D.told self.old.shelf) (λ _. ⊥)) }
        ensures not_open { (at : ℕ) → IsErrOf result (get_fault.NotOpen at)
            ↔ HasEndedAt (entries_of self.old) by.0 at }
        ensures ready { IfOk result (λ _. IsReadyWithin limits D.told self.new) }
        ensures stays { IfErr result (λ why. StaysGotWithin limits D.told why self.new) }
        ensures marked { IfErr result (IsMarkedGetting self.new by) }
        ensures step { Step D.told D.faults (calls.Read (Some (Txn by))) (get_outcome result)
            (seen_of self.old) (seen_of self.new) }
        ensures cause { GetCause (D.faults self.old.shelf) (D.faults self.new.shelf) result }
        ensures hard { HardStep (D.hard self.old.shelf) (D.hard self.new.shelf)
            self.old.trail.closed self.new.trail.closed }
    {
        match ended_at(self.trail.book(), by) {
            Some(at) => Err(GetFault::NotOpen { at }),
            None => match self.file_at(alloc, Some(Reader::Txn(by)), place) {
                Ok(Some(bytes)) => Ok(bytes),
                Ok(None) => Err(GetFault::NotFound),
                Err(why) => Err(GetFault::House(why)),
            },
        }
    }
}
