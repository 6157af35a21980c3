ghost use Rattle.std.specs.Prelude.{◌≡◌, ℕ, ◌≤◌, length, All, Option, option_map, IfOk, OnOk, OnErr, IsErr, IsErrOf};
ghost use Rattle.std.specs.List.Sorted.{IsStrictlySortedBy};
ghost use Rattle.std.specs.FinMap as tree;
ghost use Rattle.hv_base.specs.Told.{Tells, Moves};
ghost use Rattle.hv_shelf.specs.Causes.{SoftCause, HardCause};
ghost use Rattle.hv_shelf.specs.Disk.{Store, places_of, ReadsAt, HasFile, IsRemoved, IsRenamed, HasWritten, TornFile, TornRemove, TornRename, TornWrite, IsListing};

use crate::fault::ShelfFault;
use crate::place::{DirAt, Place};
use hv_base::{Failed, TableId, Text};
use std::alloc::Global;

/// A store: the bytes of a journal, and a tree of files. What it holds may be told (`told`) or
/// not. Each call that fails counts: `faults` counts all failures, and `hard` those of the journal
/// and of `rename`, behind which the store isn't to be used. A call that doesn't fail leaves `hard`.
pub trait Shelf {
    ghost told: { Self → Option Store };

    /// What a sync of the journal that fails may leave of what the store holds.
    ghost unsynced: { Self → Option Store → Type 0 };

    ghost faults: { Self → ℕ };

    ghost hard: { Self → ℕ };

    /// The number of the journal's bytes.
    fn journal_len(&mut self) -> Result<u64, Failed>
        ensures done { IfOk result (λ len. Tells (told self.old) (λ s. len ≡ length s.journal)) }
        ensures same { told self.new ≡ told self.old }
        ensures cause { HardCause (IsErr result)
            (faults self.old) (faults self.new) (hard self.old) (hard self.new) }
        ensures stays { ¬ (IsErr result) → hard self.new ≡ hard self.old };

    /// Reads the journal's bytes from `at` on into the front of `out`: at least one where `out`
    /// isn't empty and bytes are left there, and else 0. What stands in `out` behind the bytes
    /// read, and in all of it after a failure, isn't said.
    fn journal_read(&mut self, at: u64, out: &mut [u8]) -> Result<usize, Failed>
        ensures room { IfOk result (λ count. count ≤ length out.new) }
        ensures done { IfOk result (λ count.
            Tells (told self.old) (λ s. ReadsAt at count out.new s.journal)) }
        ensures same { told self.new ≡ told self.old }
        ensures cause { HardCause (IsErr result)
            (faults self.old) (faults self.new) (hard self.old) (hard self.new) }
        ensures stays { ¬ (IsErr result) → hard self.new ≡ hard self.old };

    /// Writes `bytes` into the journal from `at` on, which isn't past its end. They survive a stop
    /// behind the next successful sync.
    fn journal_write(&mut self, at: u64, bytes: &[u8]) -> Result<(), ShelfFault>
        requires reached { Tells (told self.old) (λ s. at ≤ length s.journal) }
        ensures done { OnOk result
            (Moves (HasWritten at bytes.now) (told self.old) (told self.new)) }
        ensures torn { IsErrOf result ShelfFault.Failed →
            Moves (TornWrite at (length bytes.now)) (told self.old) (told self.new) }
        ensures unsynced { OnOk result ((left : Option Store) → unsynced self.new left →
            Moves (TornWrite at (length bytes.now)) (told self.old) left) }
        ensures no_memory { IsErrOf result ShelfFault.NoMemory → told self.new ≡ told self.old }
        ensures cause { HardCause (IsErrOf result ShelfFault.Failed)
            (faults self.old) (faults self.new) (hard self.old) (hard self.new) }
        ensures stays { ¬ (IsErrOf result ShelfFault.Failed) → hard self.new ≡ hard self.old };

    /// Makes all that was written to the journal survive a stop. Where it fails right behind a write,
    /// the bytes of that write may be anything; where other calls came between, the journal's may.
    fn journal_sync(&mut self) -> Result<(), Failed>
        ensures same { OnOk result (told self.new ≡ told self.old) }
        ensures torn { OnErr result (unsynced self.old (told self.new)) }
        ensures tree { Moves (λ before now. now.tree ≡ before.tree) (told self.old) (told self.new) }
        ensures cause { HardCause (IsErr result)
            (faults self.old) (faults self.new) (hard self.old) (hard self.new) }
        ensures stays { ¬ (IsErr result) → hard self.new ≡ hard self.old };

    /// The places of one table, rising.
    fn list(&mut self, alloc: Global, table: TableId) -> Result<Vec<Place>, ShelfFault>
        ensures rising { IfOk result (λ places. IsListing table places.items) }
        ensures done { IfOk result (λ places.
            Tells (told self.old) (λ s. places.items ≡ places_of table s.tree)) }
        ensures same { told self.new ≡ told self.old }
        ensures cause { SoftCause (IsErrOf result ShelfFault.Failed)
            (faults self.old) (faults self.new) (hard self.old) (hard self.new) }
        ensures stays { ¬ (IsErrOf result ShelfFault.Failed) → hard self.new ≡ hard self.old };

    /// The bytes of the file at `place`, None exactly where none stands there.
    fn get(&mut self, alloc: Global, place: &Place) -> Result<Option<Vec<u8>>, ShelfFault>
        ensures done { IfOk result (λ file.
            Tells (told self.old) (λ s.
            option_map (λ v. v.items) file ≡ tree.get s.tree place.now)) }
        ensures same { told self.new ≡ told self.old }
        ensures cause { SoftCause (IsErrOf result ShelfFault.Failed)
            (faults self.old) (faults self.new) (hard self.old) (hard self.new) }
        ensures stays { ¬ (IsErrOf result ShelfFault.Failed) → hard self.new ≡ hard self.old };

    /// Creates or replaces one file. It survives a stop.
    fn put(&mut self, place: &Place, bytes: &[u8]) -> Result<(), ShelfFault>
        ensures done { OnOk result
            (Moves (HasFile place.now bytes.now) (told self.old) (told self.new)) }
        ensures torn { IsErrOf result ShelfFault.Failed →
            Moves (TornFile place.now) (told self.old) (told self.new) }
        ensures no_memory { IsErrOf result ShelfFault.NoMemory → told self.new ≡ told self.old }
        ensures cause { SoftCause (IsErrOf result ShelfFault.Failed)
            (faults self.old) (faults self.new) (hard self.old) (hard self.new) }
        ensures stays { ¬ (IsErrOf result ShelfFault.Failed) → hard self.new ≡ hard self.old };

    /// Moves all files of `from` to the directory's name `to` in the same partition. Where a file
    /// stands under `to`, nothing is said of the files under either name. It survives a stop.
    fn rename(&mut self, from: &DirAt, to: &Text) -> Result<(), ShelfFault>
        ensures done { OnOk result
            (Moves (IsRenamed from.now to.now) (told self.old) (told self.new)) }
        ensures torn { IsErrOf result ShelfFault.Failed →
            Moves (TornRename from.now to.now) (told self.old) (told self.new) }
        ensures no_memory { IsErrOf result ShelfFault.NoMemory → told self.new ≡ told self.old }
        ensures cause { HardCause (IsErrOf result ShelfFault.Failed)
            (faults self.old) (faults self.new) (hard self.old) (hard self.new) }
        ensures stays { ¬ (IsErrOf result ShelfFault.Failed) → hard self.new ≡ hard self.old };

    /// Takes away all files of `dir`, of which there may be none. It survives a stop.
    fn remove(&mut self, dir: &DirAt) -> Result<(), Failed>
        ensures done { OnOk result (Moves (IsRemoved dir.now) (told self.old) (told self.new)) }
        ensures torn { OnErr result (Moves (TornRemove dir.now) (told self.old) (told self.new)) }
        ensures cause { SoftCause (IsErr result)
            (faults self.old) (faults self.new) (hard self.old) (hard self.new) }
        ensures stays { ¬ (IsErr result) → hard self.new ≡ hard self.old };

    /// How many calls failed, up to 2^64 - 1.
    fn fault_count(&self) -> u64
        ensures { result ≡ faults self.now };

    /// How many calls failed of the journal and of `rename`, up to 2^64 - 1.
    fn hard_count(&self) -> u64
        ensures { result ≡ hard self.now };
}
