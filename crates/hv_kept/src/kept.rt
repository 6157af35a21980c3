ghost use Rattle.std.specs.Prelude.{◌≡◌};

use crate::names::{Names, list_names};
use crate::settling::{settle_list, settle_put, settle_remove, settle_rename};
use hv_base::{Failed, TableId, Text};
use hv_shelf::{DirAt, Place, Shelf, ShelfFault};
use std::alloc::Global;
use std::collections::BTreeMap;
use std::marker::Model;

/// A store over another one. It lists a table there once, keeps in memory which files the table has,
/// and keeps that right through each call that changes files. Contracts see the other store alone.
#[derive(Drop)]
pub struct KeptShelf<D: Shelf> {
    inner: D,
    alloc: Global,
    kept: Names,
}

impl<D: Shelf> Model for KeptShelf<D> {
    ghost use Rattle.hv_kept.specs.Kept.{AreKnown};

    ghost Value = { D };

    ghost coded = { D.code };

    ghost view = { λ k. k.inner };

    ghost invariant = { λ k. AreKnown (D.told k.inner) k.kept };
}

impl<D: Shelf> KeptShelf<D> {
    /// A store over `inner` that keeps nothing yet.
    pub fn over(alloc: Global, inner: D) -> KeptShelf<D>
        ensures { result ≡ inner }
    {
        KeptShelf {
            inner,
            alloc,
            kept: BTreeMap::new(alloc),
        }
    }

    /// The other store.
    pub fn inner(&self) -> &D
        ensures { result.now ≡ self.now }
    {
        &self.inner
    }
}

impl<D: Shelf> Shelf for KeptShelf<D> {
    ghost told = { λ k. D.told k };

    ghost unsynced = { λ k left. D.unsynced k left };

    ghost faults = { λ k. D.faults k };

    ghost hard = { λ k. D.hard k };

    fn journal_len(&mut self) -> Result<u64, Failed> {
        self.inner.journal_len()
    }

    fn journal_read(&mut self, at: u64, out: &mut [u8]) -> Result<usize, Failed> {
        self.inner.journal_read(at, out)
    }

    fn journal_write(&mut self, at: u64, bytes: &[u8]) -> Result<(), ShelfFault> {
        self.inner.journal_write(at, bytes)
    }

    fn journal_sync(&mut self) -> Result<(), Failed> {
        self.inner.journal_sync()
    }

    fn list(&mut self, alloc: Global, table: TableId) -> Result<Vec<Place>, ShelfFault> {
        if let Some(names) = self.kept.get(&table.0) {
            return list_names(alloc, names, table);
        }
        let listed = self.inner.list(alloc, table);
        settle_list(self.alloc, &mut self.kept, table, &listed);
        listed
    }

    fn get(&mut self, alloc: Global, place: &Place) -> Result<Option<Vec<u8>>, ShelfFault> {
        self.inner.get(alloc, place)
    }

    fn put(&mut self, place: &Place, bytes: &[u8]) -> Result<(), ShelfFault> {
        let done = self.inner.put(place, bytes);
        settle_put(&mut self.kept, place, done.is_ok());
        done
    }

    fn rename(&mut self, from: &DirAt, to: &Text) -> Result<(), ShelfFault> {
        let done = self.inner.rename(from, to);
        settle_rename(self.alloc, &mut self.kept, from, to, done.is_ok());
        done
    }

    fn remove(&mut self, dir: &DirAt) -> Result<(), Failed> {
        let done = self.inner.remove(dir);
        settle_remove(&mut self.kept, dir, done.is_ok());
        done
    }

    fn fault_count(&self) -> u64 {
        self.inner.fault_count()
    }

    fn hard_count(&self) -> u64 {
        self.inner.hard_count()
    }
}
