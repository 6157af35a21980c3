ghost use Rattle.std.specs.Prelude.{◌≡◌, ◌↔◌, ℕ, ◌<◌, List, false, IsTrue, OnOk, IsErrOf};
ghost use Rattle.hv_base.specs.declared.ids.Limits.{Limits};
ghost use Rattle.hv_table_rows.specs.Putting.{CanPut, IsEncoded, bytes_of};
ghost use Rattle.hv_trail.specs.declared.trail.Reader.TheVariants.{Txn};
ghost use Rattle.hv_trail.specs.Trail.{HasGone};
ghost use Rattle.hv_house.specs.Steps.{due_of};
ghost use Rattle.hv_trail.specs.Trail.{broken, HasWritten};
ghost use Rattle.hv_trail.specs.Kept.{trail_of};
ghost use Rattle.hv_trail.specs.Steps as calls;
ghost use Rattle.hv_shelf.specs.declared.fault.ShelfFault.TheVariants as shelf_fault;
ghost use Rattle.hv_shelf.specs.declared.place.Place.{Place};
ghost use Rattle.hv_house.specs.Faults.{house_fault, put_result, HardStep, ShutsAtLast};
ghost use Rattle.hv_house.specs.House.{entries_of, IsReadyWithin};
ghost use Rattle.hv_house.specs.Steps.{outcome_of, fault_outcome, GainsBy, IsOwnFile, PutStepWithin, put_of};

use crate::fault::HouseFault;
use crate::house::House;
use hv_base::{NoMemory, TxnId};
use hv_route::OutFile;
use hv_shelf::{DirAt, Place, Shelf, ShelfFault};
use hv_table_rows::put_file;
use hv_trail::{Mark, Reader};
use std::alloc::Global;

impl<D: Shelf> House<D> {
    /// What a fault of putting is for one who puts a file.
    fn fail_put(&mut self, by: Reader, fault: ShelfFault) -> HouseFault
        requires running { self.old.trail.closed ≡ false }
        requires room { 0 < self.old.trail.room }
        ensures fault { result ≡ house_fault (D.faults self.old.shelf) fault }
        ensures shelf { self.new.shelf ≡ self.old.shelf }
        ensures gains { (place : Place) (bytes : List ℕ)
            → GainsBy (calls.Put by place bytes) (fault_outcome result) self.old self.new }
        ensures last { ShutsAtLast (fault ≡ shelf_fault.Failed) (D.faults self.old.shelf)
            self.old.trail.closed self.new.trail.closed }
    {
        match fault {
            ShelfFault::Failed => self.fail(Some(by), true),
            ShelfFault::NoMemory => HouseFault::NoMemory,
        }
    }

    /// Keeps in mind how a put ended: by a mark that the file was put, or that it failed.
    fn keep_put(
        &mut self,
        by: Reader,
        place: Place,
        done: Result<(), ShelfFault>,
    ) -> Result<(), HouseFault>
        requires running { self.old.trail.closed ≡ false }
        requires room { 0 < self.old.trail.room }
        ensures result { result ≡ put_result (D.faults self.old.shelf) done }
        ensures shelf { self.new.shelf ≡ self.old.shelf }
        ensures gains { (bytes : List ℕ) → GainsBy (calls.Put by place bytes) (outcome_of result)
            self.old self.new }
        ensures last { ShutsAtLast (IsErrOf done shelf_fault.Failed) (D.faults self.old.shelf)
            self.old.trail.closed self.new.trail.closed }
    {
        match done {
            Ok(()) => {
                self.trail.mark(Mark::Wrote { by, place });
                Ok(())
            }
            Err(fault) => Err(self.fail_put(by, fault)),
        }
    }

    /// Puts a file of a change at its place, under a write id of this transaction. It is marked as put; and where that failed,
    /// as failed, with the store's count of faults.
    ///
    /// # Errors
    /// `NoMemory` where memory lacked, and the store is as it was. `Failed` where the store failed: at this place may be any bytes
    /// then, or no file. So too with `Store`, where its count of faults is the last one: the house is closed.
    pub fn put(
        &mut self,
        alloc: Global,
        by: TxnId,
        place: Place,
        file: &OutFile,
    ) -> Result<(), HouseFault>
        ghost limits: { Limits }
        requires ready { IsReadyWithin limits D.told self.old }
        requires can { CanPut file.now }
        requires own { IsOwnFile (entries_of self.old) by place file.now }
        ensures put { PutStepWithin limits D.told D.faults (put_of by place (bytes_of file.now)) self.old self.new
            result }
        ensures hard { HardStep (D.hard self.old.shelf) (D.hard self.new.shelf)
            self.old.trail.closed self.new.trail.closed }
        ensures encoded { OnOk result (IsEncoded file.now) }
    {
        match self.trail.reserve_mark() {
            Ok(()) => {
                let done = put_file(alloc, &mut self.shelf, &place, file);
                self.keep_put(Reader::Txn(by), place, done)
            }
            Err(NoMemory) => Err(HouseFault::NoMemory),
        }
    }

    /// The first call on files that failed for a transaction: whether it was to put a file, and the count behind it.
    pub fn broken(&self, by: TxnId) -> Option<(bool, u64)>
        ensures broken { result ≡ broken (Txn by) (trail_of self.now.trail) }
    {
        self.trail.broken(Reader::Txn(by))
    }

    /// Whether this transaction put a file at this place: there is a mark of it.
    pub fn has_put(&self, by: TxnId, place: &Place) -> bool
        ensures written { IsTrue result ↔ HasWritten (trail_of self.now.trail) (Txn by) place.now }
    {
        self.trail.has_written(Reader::Txn(by), place)
    }

    /// Puts these bytes as the file at a place, for a transaction or a job. It is marked as put; and where that failed, as failed,
    /// with the store's count of faults.
    ///
    /// # Errors
    /// As `put`.
    pub fn put_bytes(&mut self, by: Reader, place: Place, bytes: &[u8]) -> Result<(), HouseFault>
        ghost limits: { Limits }
        requires ready { IsReadyWithin limits D.told self.old }
        ensures put { PutStepWithin limits D.told D.faults (due_of by place bytes.now) self.old self.new result }
        ensures hard { HardStep (D.hard self.old.shelf) (D.hard self.new.shelf)
            self.old.trail.closed self.new.trail.closed }
    {
        match self.trail.reserve_mark() {
            Ok(()) => {
                let done = self.shelf.put(&place, bytes);
                self.keep_put(by, place, done)
            }
            Err(NoMemory) => Err(HouseFault::NoMemory),
        }
    }

    /// The first call on files that failed for a transaction or a job: whether it was to put a file, and the count behind it.
    pub fn broken_of(&self, by: Reader) -> Option<(bool, u64)>
        ensures broken { result ≡ broken by (trail_of self.now.trail) }
    {
        self.trail.broken(by)
    }

    /// Whether this one put a file at this place: there is a mark of it.
    pub fn has_put_by(&self, by: Reader, place: &Place) -> bool
        ensures written { IsTrue result ↔ HasWritten (trail_of self.now.trail) by place.now }
    {
        self.trail.has_written(by, place)
    }

    /// Whether the files of this directory were taken away: there is a mark of it.
    pub fn has_gone(&self, dir: &DirAt) -> bool
        ensures gone { IsTrue result ↔ HasGone (trail_of self.now.trail) dir.now }
    {
        self.trail.has_gone(dir)
    }
}
