ghost use Rattle.std.specs.Prelude.{◌≡◌, ◌≤◌, ◌<◌, ◌+◌, ◌^◌, ◌++◌, ◌∷◌, List, length, vec_capacity, OnOk, OnErr, IsOk, IsErrOf};
ghost use Rattle.std.specs.List.{AllByRecursion};
ghost use Rattle.hv_base.specs.Told.{Tells, Moves};
ghost use Rattle.hv_shelf.specs.Causes.{HardCause};
ghost use Rattle.hv_history.specs.declared.entry.Entry.{Entry};
ghost use Rattle.hv_history.specs.Journal.{place_of};
ghost use Rattle.hv_journal.specs.Appending.{Holds, HoldsMore, KeepsTree};
ghost use Rattle.hv_journal.specs.Writing.{CanPutEntry};

use hv_base::NoMemory;
use hv_history::Entry;
use hv_journal::append;
use hv_shelf::{Shelf, ShelfFault};
use std::alloc::Global;
use std::marker::Model;

/// The most bytes of an entry's record with its gate.
const RECORD_LIMIT: usize = 65541;

/// Where records are spelled. There is room for one of the greatest, so an entry that stands alone asks for no memory.
#[derive(Drop)]
pub struct RecordBuffer {
    bytes: Vec<u8>,
}

impl Model for RecordBuffer {
    ghost use Rattle.std.specs.Prelude.{ℕ, ◌≤◌, vec_capacity};

    ghost Value = { ℕ };

    ghost view = { λ buffer. vec_capacity buffer.bytes };

    ghost invariant = { λ buffer. 65541 ≤ vec_capacity buffer.bytes };
}

/// Makes room for so many bytes; what was there is gone. Where there is room it asks for no memory.
fn make_room(bytes: &mut Vec<u8>, needed: usize) -> Result<(), NoMemory>
    ensures room { OnOk result (needed ≤ vec_capacity bytes.new) }
    ensures keeps { vec_capacity bytes.old ≤ vec_capacity bytes.new }
    ensures has { needed ≤ vec_capacity bytes.old → IsOk result }
{
    if needed <= bytes.capacity() {
        return Ok(());
    }
    bytes.clear();
    bytes.reserve(needed)?;
    Ok(())
}

impl RecordBuffer {
    pub(crate) fn new(alloc: Global) -> Result<RecordBuffer, NoMemory> {
        let bytes = Vec::with_capacity(alloc, RECORD_LIMIT)?;
        Ok(RecordBuffer { bytes })
    }

    /// Makes room for so many bytes. For one record there is.
    pub(crate) fn reserve(&mut self, needed: usize) -> Result<(), NoMemory>
        ensures room { OnOk result (needed ≤ self.new) }
        ensures has { needed ≤ 65541 → IsOk result }
    {
        make_room(&mut self.bytes, needed)
    }

    /// Appends these entries to the journal whose closed gate stands at `place`, all of them or none (`append` of hv_journal).
    pub(crate) fn append<D: Shelf>(
        &mut self,
        shelf: &mut D,
        place: &mut u64,
        first: &Entry,
        more: &[Entry],
    ) -> Result<(), ShelfFault>
        requires can { AllByRecursion CanPutEntry (first.now ∷ more.now) }
        requires room { place_of (first.now ∷ more.now) ≤ self.old }
        requires below { place.old + place_of (first.now ∷ more.now) + 1 < 2 ^ 64 }
        requires reached { Tells (D.told shelf.old) (λ s. place.old < length s.journal) }
        ensures moved { OnOk result (place.new ≡ place.old + place_of (first.now ∷ more.now)) }
        ensures stays { OnErr result (place.new ≡ place.old) }
        ensures added { OnOk result ((book : List Entry) → place.old ≡ place_of book
            → Holds (D.told shelf.old) book → Holds (D.told shelf.new) (book ++ first.now ∷ more.now)) }
        ensures no_memory { IsErrOf result ShelfFault.NoMemory → (book : List Entry)
            → place.old ≡ place_of book → Holds (D.told shelf.old) book → Holds (D.told shelf.new) book }
        ensures torn { IsErrOf result ShelfFault.Failed → (book : List Entry)
            → place.old ≡ place_of book → Holds (D.told shelf.old) book
            → HoldsMore (D.told shelf.new) book (first.now ∷ more.now) }
        ensures tree { Moves KeepsTree (D.told shelf.old) (D.told shelf.new) }
        ensures cause { HardCause (IsErrOf result ShelfFault.Failed)
            (D.faults shelf.old) (D.faults shelf.new) (D.hard shelf.old) (D.hard shelf.new) }
    {
        append(shelf, place, first, more, &mut self.bytes)
    }
}
