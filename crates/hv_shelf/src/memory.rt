ghost use Rattle.std.specs.Prelude.{◌≡◌, ℕ, ◌≤◌, [], length, Option, Some, option_map, IfOk, OnOk, OnErr, IsErr, IsErrOf};
ghost use Rattle.std.specs.FinMap as tree;
ghost use Rattle.hv_base.specs.Told.{Tells, Moves};
ghost use Rattle.hv_shelf.specs.Causes.{SoftCause, HardCause};
ghost use Rattle.hv_shelf.specs.Disk.{places_of, ReadsAt, HasFile, IsRemoved, IsRenamed, HasWritten, TornFile, TornRemove, TornRename, TornWrite, IsListing};
ghost use Rattle.hv_shelf.specs.Plan.{IsCall, new_plan};

use crate::disk::MemoryDisk;
use crate::fault::ShelfFault;
use crate::place::{DirAt, Place};
use crate::plan::{Fail, FaultPlan, Op};
use crate::shelf::Shelf;
use hv_base::{Failed, List, NoMemory, TableId, Text};
use std::alloc::Global;
use std::collections::BTreeMap;
use std::marker::Model;

/// A store in memory. It fails at the calls that are listed, and at no other, and a call that
/// fails changes nothing.
#[derive(Drop)]
pub struct MemoryShelf {
    disk: MemoryDisk,
    plan: FaultPlan,
}

impl Model for MemoryShelf {
    ghost use Rattle.hv_shelf.specs.Plan.{Memory, memory_code};

    ghost Value = { Memory };

    ghost coded = { memory_code };

    ghost view = { λ m. record { store = m.disk; plan = m.plan } };
}

impl MemoryShelf {
    /// A store that holds nothing and fails at the calls listed.
    pub fn new(alloc: Global, fail: Vec<Fail>) -> Result<MemoryShelf, NoMemory>
        ensures store { IfOk result (λ m. m.store ≡ record { tree = tree.empty; journal = [] }) }
        ensures plan { IfOk result (λ m. m.plan ≡ new_plan fail.items) }
    {
        Ok(MemoryShelf {
            disk: MemoryDisk::new(alloc)?,
            plan: FaultPlan::new(fail),
        })
    }

    /// The journal's bytes.
    pub fn journal(&self) -> &[u8]
        ensures { result.now ≡ self.now.store.journal }
    {
        self.disk.journal()
    }

    /// The files.
    pub fn files(&self) -> &BTreeMap<Place, List<u8>>
        ensures { result.now.entries ≡ tree.entries self.now.store.tree }
    {
        self.disk.files()
    }
}

impl Shelf for MemoryShelf {
    ghost told = { λ m. Some m.store };

    ghost unsynced = { λ m left. left ≡ Some m.store };

    ghost faults = { λ m. m.plan.faults };

    ghost hard = { λ m. m.plan.hard };

    fn journal_len(&mut self) -> Result<u64, Failed>
        ensures done { IfOk result (λ len. len ≡ length self.old.store.journal) }
        ensures same { self.new.store ≡ self.old.store }
        ensures cause { HardCause (IsErr result) self.old.plan.faults self.new.plan.faults
            self.old.plan.hard self.new.plan.hard }
        ensures exact { IsCall Op.JournalLen (IsErr result) self.old.plan self.new.plan }
    {
        self.plan.hard(Op::JournalLen)?;
        Ok(self.disk.len() as u64)
    }

    fn journal_read(&mut self, at: u64, out: &mut [u8]) -> Result<usize, Failed>
        ensures room { IfOk result (λ count. count ≤ length out.new) }
        ensures done { IfOk result (λ count. ReadsAt at count out.new self.old.store.journal) }
        ensures same { self.new.store ≡ self.old.store }
        ensures cause { HardCause (IsErr result) self.old.plan.faults self.new.plan.faults
            self.old.plan.hard self.new.plan.hard }
        ensures exact { IsCall Op.JournalRead (IsErr result) self.old.plan self.new.plan }
    {
        self.plan.hard(Op::JournalRead)?;
        Ok(self.disk.read(at, out))
    }

    fn journal_write(&mut self, at: u64, bytes: &[u8]) -> Result<(), ShelfFault>
        requires reached { at ≤ length self.old.store.journal }
        ensures done { OnOk result (HasWritten at bytes.now self.old.store self.new.store) }
        ensures unchanged { OnErr result (self.new.store ≡ self.old.store) }
        ensures cause { HardCause (IsErrOf result ShelfFault.Failed)
            self.old.plan.faults self.new.plan.faults self.old.plan.hard self.new.plan.hard }
        ensures exact { IsCall Op.JournalWrite (IsErrOf result ShelfFault.Failed)
            self.old.plan self.new.plan }
    {
        self.plan.hard(Op::JournalWrite)?;
        self.disk.write(at as usize, bytes)?;
        Ok(())
    }

    fn journal_sync(&mut self) -> Result<(), Failed>
        ensures same { self.new.store ≡ self.old.store }
        ensures cause { HardCause (IsErr result) self.old.plan.faults self.new.plan.faults
            self.old.plan.hard self.new.plan.hard }
        ensures exact { IsCall Op.JournalSync (IsErr result) self.old.plan self.new.plan }
    {
        self.plan.hard(Op::JournalSync)?;
        self.disk.reserve();
        Ok(())
    }

    fn list(&mut self, alloc: Global, table: TableId) -> Result<Vec<Place>, ShelfFault>
        ensures rising { IfOk result (λ places. IsListing table places.items) }
        ensures done { IfOk result (λ places. places.items ≡ places_of table self.old.store.tree) }
        ensures same { self.new.store ≡ self.old.store }
        ensures cause { SoftCause (IsErrOf result ShelfFault.Failed)
            self.old.plan.faults self.new.plan.faults self.old.plan.hard self.new.plan.hard }
        ensures exact { IsCall Op.List (IsErrOf result ShelfFault.Failed)
            self.old.plan self.new.plan }
    {
        self.plan.soft(Op::List)?;
        Ok(self.disk.list(alloc, table)?)
    }

    fn get(&mut self, alloc: Global, place: &Place) -> Result<Option<Vec<u8>>, ShelfFault>
        ensures done { IfOk result (λ file.
            option_map (λ v. v.items) file ≡ tree.get self.old.store.tree place.now) }
        ensures same { self.new.store ≡ self.old.store }
        ensures cause { SoftCause (IsErrOf result ShelfFault.Failed)
            self.old.plan.faults self.new.plan.faults self.old.plan.hard self.new.plan.hard }
        ensures exact { IsCall Op.Get (IsErrOf result ShelfFault.Failed)
            self.old.plan self.new.plan }
    {
        self.plan.soft(Op::Get)?;
        match self.disk.file(place) {
            Some(bytes) => Ok(Some(Vec::from_slice(alloc, bytes)?)),
            None => Ok(None),
        }
    }

    fn put(&mut self, place: &Place, bytes: &[u8]) -> Result<(), ShelfFault>
        ensures done { OnOk result (HasFile place.now bytes.now self.old.store self.new.store) }
        ensures unchanged { OnErr result (self.new.store ≡ self.old.store) }
        ensures cause { SoftCause (IsErrOf result ShelfFault.Failed)
            self.old.plan.faults self.new.plan.faults self.old.plan.hard self.new.plan.hard }
        ensures exact { IsCall Op.Put (IsErrOf result ShelfFault.Failed)
            self.old.plan self.new.plan }
    {
        self.plan.soft(Op::Put)?;
        self.disk.put(place, bytes)?;
        Ok(())
    }

    fn rename(&mut self, from: &DirAt, to: &Text) -> Result<(), ShelfFault>
        ensures done { OnOk result (IsRenamed from.now to.now self.old.store self.new.store) }
        ensures unchanged { OnErr result (self.new.store ≡ self.old.store) }
        ensures cause { HardCause (IsErrOf result ShelfFault.Failed)
            self.old.plan.faults self.new.plan.faults self.old.plan.hard self.new.plan.hard }
        ensures exact { IsCall Op.Rename (IsErrOf result ShelfFault.Failed)
            self.old.plan self.new.plan }
    {
        self.plan.hard(Op::Rename)?;
        self.disk.rename(from, to)?;
        Ok(())
    }

    fn remove(&mut self, dir: &DirAt) -> Result<(), Failed>
        ensures done { OnOk result (IsRemoved dir.now self.old.store self.new.store) }
        ensures unchanged { OnErr result (self.new.store ≡ self.old.store) }
        ensures cause { SoftCause (IsErr result) self.old.plan.faults self.new.plan.faults
            self.old.plan.hard self.new.plan.hard }
        ensures exact { IsCall Op.Remove (IsErr result) self.old.plan self.new.plan }
    {
        self.plan.soft(Op::Remove)?;
        self.disk.remove(dir);
        Ok(())
    }

    fn fault_count(&self) -> u64
        ensures { result ≡ self.now.plan.faults }
    {
        self.plan.fault_count()
    }

    fn hard_count(&self) -> u64
        ensures { result ≡ self.now.plan.hard }
    {
        self.plan.hard_count()
    }
}
