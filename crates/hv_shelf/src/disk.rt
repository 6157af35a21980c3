ghost use Rattle.std.specs.Prelude.{◌≡◌, ℕ, ◌+◌, ◌≤◌, [], length, option_map, option_copied, IfOk, OnOk, OnErr};
ghost use Rattle.std.specs.FinMap as tree;
ghost use Rattle.hv_shelf.specs.Places.{renamed_place};
ghost use Rattle.hv_shelf.specs.Disk.{Store, places_of, ReadsAt, HasFile, IsRemoved, IsRenamed, HasWritten, IsListing};

use crate::place::{DirAt, Place};
use hv_base::{Duplicate, List, NoMemory, TableId, Text};
use std::alloc::Global;
use std::collections::BTreeMap;
use std::marker::Model;

/// How much room for the journal's next bytes a sync tries to find.
const AHEAD: usize = 65_536;

/// What a store in memory holds. A call that finds no memory changes nothing.
#[derive(Drop)]
pub struct MemoryDisk {
    files: BTreeMap<Place, List<u8>>,
    journal: Vec<u8>,
}

impl Model for MemoryDisk {
    ghost use Rattle.std.specs.BTreeMap.{IsOrdered};
    ghost use Rattle.std.specs.FinMap as tree;
    ghost use Rattle.hv_shelf.specs.Disk.{Store, store_code};
    ghost use Rattle.hv_shelf.specs.Places.{place_cmp};

    ghost Value = { Store };

    ghost coded = { store_code };

    ghost view = { λ d.
        record { tree = tree.from_entries d.files.entries; journal = d.journal.items } };

    ghost invariant = { λ d. IsOrdered place_cmp d.files };
}

impl MemoryDisk {
    /// Nothing, with room for the journal's first bytes.
    pub fn new(alloc: Global) -> Result<MemoryDisk, NoMemory>
        ensures { IfOk result (λ disk. disk ≡ record { tree = tree.empty; journal = [] }) }
    {
        Ok(MemoryDisk {
            files: BTreeMap::new(alloc),
            journal: Vec::with_capacity(alloc, AHEAD)?,
        })
    }

    /// The journal's bytes.
    pub fn journal(&self) -> &[u8]
        ensures { result.now ≡ self.now.journal }
    {
        &self.journal
    }

    /// Writes `bytes` over the journal's bytes from `at` on, and past its end.
    pub fn write(&mut self, at: usize, bytes: &[u8]) -> Result<(), NoMemory>
        requires { at ≤ length self.old.journal }
        ensures ok { OnOk result (HasWritten at bytes.now self.old self.new) }
        ensures err { OnErr result (self.new ≡ self.old) }
    {
        let over = bytes.len().min(self.journal.len() - at);
        self.journal.extend_from_slice(&bytes[over..])?;
        self.journal[at..at + over].copy_from_slice(&bytes[..over]);
        Ok(())
    }

    /// Finds room for the journal's next bytes, where there is memory for it.
    pub fn reserve(&mut self)
        ensures { self.new ≡ self.old }
    {
        let _ = self.journal.reserve(AHEAD);
    }

    /// The number of the journal's bytes.
    pub fn len(&self) -> usize
        ensures { result ≡ length self.now.journal }
    {
        self.journal.len()
    }

    /// Reads the journal's bytes from `at` on into `out`, and says how many.
    pub fn read(&self, at: u64, out: &mut [u8]) -> usize
        ensures room { result ≤ length out.new }
        ensures read { ReadsAt at result out.new self.now.journal }
    {
        let at = at as usize;
        if at >= self.journal.len() {
            return 0;
        }
        let left = &self.journal[at..];
        let count = out.len().min(left.len());
        out[..count].copy_from_slice(&left[..count]);
        count
    }

    /// The files.
    pub fn files(&self) -> &BTreeMap<Place, List<u8>>
        ensures { result.now.entries ≡ tree.entries self.now.tree }
    {
        &self.files
    }

    /// The bytes of the file at `place`.
    pub fn file(&self, place: &Place) -> Option<&[u8]>
        ensures { option_copied result ≡ tree.get self.now.tree place.now }
    {
        match self.files.get(place) {
            Some(bytes) => Some(bytes.as_slice()),
            None => None,
        }
    }

    /// Creates or replaces one file.
    pub fn put(&mut self, place: &Place, bytes: &[u8]) -> Result<(), NoMemory>
        ensures ok { OnOk result (HasFile place.now bytes.now self.old self.new) }
        ensures err { OnErr result (self.new ≡ self.old) }
    {
        let alloc = *self.journal.allocator();
        let file = List::from_vec(Vec::from_slice(alloc, bytes)?);
        let key = place.duplicate(alloc)?;
        self.files.insert(key, file)?;
        Ok(())
    }

    /// Takes away all files of `dir`.
    pub fn remove(&mut self, dir: &DirAt)
        ensures { IsRemoved dir.now self.old self.new }
    {
        self.files.retain(|place, _| !dir.has(place));
    }

    /// The places of one table, rising.
    pub fn list(&self, alloc: Global, table: TableId) -> Result<Vec<Place>, NoMemory>
        ensures rising { IfOk result (λ places. IsListing table places.items) }
        ensures places { IfOk result (λ places. places.items ≡ places_of table self.now.tree) }
    {
        let mut places = Vec::new(alloc);
        for place in self.files.keys() {
            if place.table == table {
                places.push(place.duplicate(alloc)?)?;
            }
        }
        Ok(places)
    }

    /// Moves all files of `from` to the directory's name `to`.
    pub fn rename(&mut self, from: &DirAt, to: &Text) -> Result<(), NoMemory>
        ensures ok { OnOk result (IsRenamed from.now to.now self.old self.new) }
        ensures err { OnErr result (self.new ≡ self.old) }
    {
        let alloc = *self.journal.allocator();
        let mut files = BTreeMap::new(alloc);
        for (place, bytes) in self.files.iter() {
            let bytes = List::from_vec(Vec::from_slice(alloc, bytes.as_slice())?);
            let place = place_after(alloc, from, to, place)?;
            files.insert(place, bytes)?;
        }
        self.files = files;
        Ok(())
    }
}

/// Where the file at `place` stands after its directory was renamed, if that is `from`.
fn place_after(alloc: Global, from: &DirAt, to: &Text, place: &Place) -> Result<Place, NoMemory>
    ensures { IfOk result (λ after. after ≡ renamed_place from.now to.now place.now) }
{
    let dir = if from.has(place) { to } else { &place.dir };
    Ok(Place {
        table: place.table,
        partition: place.partition.duplicate(alloc)?,
        dir: dir.duplicate(alloc)?,
        bucket: place.bucket,
    })
}
