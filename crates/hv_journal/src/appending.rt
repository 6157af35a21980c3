ghost use Rattle.std.specs.Prelude.{◌≡◌, ◌<◌, ◌≤◌, ◌+◌, ◌^◌, ◌++◌, [], ◌∷◌, List, length, vec_capacity, OnOk, OnErr, IsErrOf};
ghost use Rattle.std.specs.List.{AllByRecursion};
ghost use Rattle.hv_base.specs.Told.{Tells, Moves};
ghost use Rattle.hv_shelf.specs.Causes.{HardCause};
ghost use Rattle.hv_shelf.specs.Disk.{HasWritten, TornWrite};
ghost use Rattle.hv_history.specs.declared.entry.Entry.{Entry};
ghost use Rattle.hv_history.specs.Journal.{HasRecord, place_of};
ghost use Rattle.hv_journal.specs.Appending.{Holds, HoldsMore, KeepsTree, StaysShort};
ghost use Rattle.hv_journal.specs.Writing.{CanPutEntry};

use crate::writing::records::encode_entries;
use hv_history::Entry;
use hv_shelf::{Shelf, ShelfFault};

/// Writes these bytes into the journal, so that they survive a stop.
fn write_through<D: Shelf>(shelf: &mut D, at: u64, bytes: &[u8]) -> Result<(), ShelfFault>
    requires { Tells (D.told shelf.old) (λ s. at ≤ length s.journal) }
    ensures done { OnOk result
        (Moves (HasWritten at bytes.now) (D.told shelf.old) (D.told shelf.new)) }
    ensures torn { Moves (TornWrite at (length bytes.now)) (D.told shelf.old) (D.told shelf.new) }
    ensures no_memory { IsErrOf result ShelfFault.NoMemory
        → D.told shelf.new ≡ D.told shelf.old }
    ensures tree { Moves KeepsTree (D.told shelf.old) (D.told shelf.new) }
    ensures cause { HardCause (IsErrOf result ShelfFault.Failed)
        (D.faults shelf.old) (D.faults shelf.new) (D.hard shelf.old) (D.hard shelf.new) }
{
    shelf.journal_write(at, bytes)?;
    shelf.journal_sync()?;
    Ok(())
}

/// Makes the journal one of no entry: a closed gate at its front. For a journal of no byte or of one.
pub fn open_empty<D: Shelf>(shelf: &mut D) -> Result<(), ShelfFault>
    requires empty { Tells (D.told shelf.old) (λ s. length s.journal ≤ 1) }
    ensures opened { OnOk result (Holds (D.told shelf.new) []) }
    ensures short { Moves StaysShort (D.told shelf.old) (D.told shelf.new) }
    ensures no_memory { IsErrOf result ShelfFault.NoMemory
        → D.told shelf.new ≡ D.told shelf.old }
    ensures tree { Moves KeepsTree (D.told shelf.old) (D.told shelf.new) }
    ensures cause { HardCause (IsErrOf result ShelfFault.Failed)
        (D.faults shelf.old) (D.faults shelf.new) (D.hard shelf.old) (D.hard shelf.new) }
{
    write_through(shelf, 0, &[0])
}

/// Appends these entries to the journal whose closed gate stands at `place`, all of them or none: first
/// their records and a closed gate behind that gate, with open gates between the records, and when these
/// are sure to survive a stop, the gate is opened. `buffer` is where the records are spelled; what it had
/// is gone.
#[tactic(auto, using(crate::proofs::Room::places))]
pub fn append<D: Shelf>(
    shelf: &mut D,
    place: &mut u64,
    first: &Entry,
    more: &[Entry],
    buffer: &mut Vec<u8>,
) -> Result<(), ShelfFault>
    requires can { AllByRecursion CanPutEntry (first.now ∷ more.now) }
    requires room { place_of (first.now ∷ more.now) ≤ vec_capacity buffer.old }
    requires below { place.old + place_of (first.now ∷ more.now) + 1 < 2 ^ 64 }
    requires reached { Tells (D.told shelf.old) (λ s. place.old < length s.journal) }

    // The closed gate moves by the records and their gates.
    ensures moved { OnOk result (place.new ≡ place.old + place_of (first.now ∷ more.now)) }
    ensures stays { OnErr result (place.new ≡ place.old) }

    // A journal of this book now reads to the book and these entries.
    ensures added { OnOk result ((book : List Entry) → place.old ≡ place_of book
        → Holds (D.told shelf.old) book → Holds (D.told shelf.new) (book ++ first.now ∷ more.now)) }
    ensures no_memory { IsErrOf result ShelfFault.NoMemory → (book : List Entry)
        → place.old ≡ place_of book → Holds (D.told shelf.old) book → Holds (D.told shelf.new) book }
    // Where the store failed it reads to the book, or to the book and all of these entries.
    ensures torn { IsErrOf result ShelfFault.Failed → (book : List Entry)
        → place.old ≡ place_of book → Holds (D.told shelf.old) book
        → HoldsMore (D.told shelf.new) book (first.now ∷ more.now) }

    ensures tree { Moves KeepsTree (D.told shelf.old) (D.told shelf.new) }
    ensures has { AllByRecursion HasRecord (first.now ∷ more.now) }
    ensures buffer { vec_capacity buffer.old ≤ vec_capacity buffer.new }
    ensures cause { HardCause (IsErrOf result ShelfFault.Failed)
        (D.faults shelf.old) (D.faults shelf.new) (D.hard shelf.old) (D.hard shelf.new) }
{
    buffer.clear();
    encode_entries(buffer, first, more);
    buffer.push(0).unwrap();
    let at = *place;
    write_through(shelf, at + 1, buffer.as_slice())?;
    write_through(shelf, at, &[1])?;
    *place = at + buffer.len() as u64;
    Ok(())
}
