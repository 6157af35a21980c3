//! Calls of a house for compactions: what they stage and publish, and directories that go.
ghost use Rattle.std.specs.Prelude.{◌≡◌, None, IfErr, OnOk};
ghost use Rattle.hv_base.specs.Told.{Tells};
ghost use Rattle.hv_history.specs.Book.{tree_of_entry};
ghost use Rattle.hv_history.specs.State.{state_of};
ghost use Rattle.hv_history.specs.Legal.{Fits, profile};
ghost use Rattle.hv_history.specs.declared.entry.Entry.TheVariants as entries;
ghost use Rattle.hv_trail.specs.Kept.{trail_of};
ghost use Rattle.hv_trail.specs.Steps.{Step};
ghost use Rattle.hv_trail.specs.Steps as calls;
ghost use Rattle.hv_trail.specs.declared.trail.Reader.TheVariants as readers;
ghost use Rattle.hv_law_work.specs.Work.{IsStagedFile};
ghost use Rattle.hv_law_work.specs.Marks.{MayGoNow};
ghost use Rattle.hv_house.specs.Faults.{FileCause, EndsRun, HardStep};
ghost use Rattle.hv_house.specs.House.{entries_of, IsSmall, IsNoted, IsHalted};
ghost use Rattle.hv_house.specs.Publishing.{measured, PublishStepWithin, HardPublish};
ghost use Rattle.hv_house.specs.Steps.{seen_of, outcome_of, IsMarked, PutStep, RemoveStepWithin, due_of};
ghost use Rattle.hv_telling.specs.Telling.{IsToldHouse, IsWhole, StaysWhole, StaysPublished, StillOpens, IsPublication, HasNoOwn};

use hv_base::{JobId, TableId, WriteId};
use hv_history::Entry;
use hv_house::{House, HouseFault, PublishFault};
use hv_shelf::{DirAt, Place, Shelf};
use hv_trail::{Reader, Renaming};

/// Puts a file of a job at work where it stages it. Where the house is told it is the file that the directory is to have. It is
/// marked as put; and where that failed, as failed, with the store's count of faults.
///
/// # Errors
/// `NoMemory` where memory lacked, and the store is as it was. `Failed` where the store failed: at this place may be any bytes
/// then, or no file. So too with `Store`, where its count of faults is the last one: the house is closed.
pub fn put_staged<D: Shelf>(
    house: &mut House<D>,
    job: JobId,
    place: Place,
    bytes: &[u8],
) -> Result<(), HouseFault>
    requires whole { IsWhole D.told house.old }
    requires truly { IsToldHouse D.told house.old
        → IsStagedFile (state_of (entries_of house.old)) job.0 place bytes.now }
    ensures whole { OnOk result (IsWhole D.told house.new) }
    ensures stays { IfErr result (λ why. StaysWhole D.told why house.new) }
    ensures opens { IsToldHouse D.told house.old
        → IfErr result (λ _. StillOpens D.told house.new) }
    ensures start { house.new.start ≡ house.old.start }
    ensures put { PutStep D.told D.faults (due_of (readers.Job job) place bytes.now) house.old house.new result }
    ensures hard { HardStep (D.hard house.old.shelf) (D.hard house.new.shelf)
        house.old.trail.closed house.new.trail.closed }
{
    house.put_bytes(Reader::Job(job), place, bytes)
}

/// Takes away all files of a directory, which may go where the house is told. It is marked as gone; and where that failed, nobody's
/// call is marked as failed, with the store's count of faults.
///
/// # Errors
/// `NoMemory` where memory lacked, and the store is as it was. `Failed` where the store failed: some of its files may be gone then.
/// So too with `Store`, where its count of faults is the last one: the house is closed.
pub fn take_away<D: Shelf>(house: &mut House<D>, dir: DirAt) -> Result<(), HouseFault>
    requires whole { IsWhole D.told house.old }
    requires truly { IsToldHouse D.told house.old → MayGoNow (state_of (entries_of house.old)) dir }
    ensures whole { OnOk result (IsWhole D.told house.new) }
    ensures stays { IfErr result (λ why. StaysWhole D.told why house.new) }
    ensures opens { IsToldHouse D.told house.old
        → IfErr result (λ _. StillOpens D.told house.new) }
    ensures start { house.new.start ≡ house.old.start }
    ensures removed { RemoveStepWithin profile D.told D.faults dir house.old house.new result }
    ensures hard { HardStep (D.hard house.old.shelf) (D.hard house.new.shelf)
        house.old.trail.closed house.new.trail.closed }
{
    house.take_away(dir)
}

/// Gives directories their names, one after another, and notes an entry that fits. Where the house is told they are those of a job
/// at work, all staged, and the entry is the one with which it is published now.
///
/// # Errors
/// `House` with `NoMemory` where memory lacked before the first of them had its name: the house is as it was. `Starved` where it
/// lacked later, and `House` with `Store` where the store failed: the first ones have their names then, and the house is closed.
pub fn publish<D: Shelf>(
    house: &mut House<D>,
    renamings: &[Renaming],
    entry: Entry,
) -> Result<(), PublishFault>
    requires whole { IsWhole D.told house.old }
    requires textless { tree_of_entry entry ≡ None }
    requires small { IsSmall entry }
    requires fits { Fits profile (state_of (entries_of house.old)) entry }
    requires marked { IsMarked house.old entry }
    requires truly { IsToldHouse D.told house.old
        → IsPublication (state_of (entries_of house.old)) (trail_of house.old.trail) renamings.now entry }
    ensures whole { OnOk result (IsWhole D.told house.new) }
    ensures stays { IfErr result (λ why. StaysPublished D.told why house.new) }
    ensures opens { IsToldHouse D.told house.old
        → IfErr result (λ _. StillOpens D.told house.new) }
    ensures start { house.new.start ≡ house.old.start }
    ensures published { PublishStepWithin (measured profile D.told D.faults) renamings.now entry
        house.old house.new result }
    ensures hard { HardPublish D.hard house.old house.new }
{
    house.publish(renamings, entry)
}

/// Notes that a write id is forgotten in a table, where no file stands in its own directories.
///
/// # Errors
/// `Store` where the journal failed, and `NoMemory` where memory lacked: the book is as it was then.
pub fn forget_bare<D: Shelf>(
    house: &mut House<D>,
    table: TableId,
    write: WriteId,
) -> Result<(), HouseFault>
    requires whole { IsWhole D.told house.old }
    requires small { IsSmall (entries.Forgot table write) }
    requires fits { Fits profile (state_of (entries_of house.old)) (entries.Forgot table write) }
    requires bare { Tells (D.told house.old.shelf) (λ s. HasNoOwn table.0 write.0 s.tree) }
    ensures whole { OnOk result (IsWhole D.told house.new) }
    ensures noted { OnOk result (IsNoted D.told (entries.Forgot table write) house.old house.new) }
    ensures stays { IfErr result (λ why. StaysWhole D.told why house.new) }
    ensures halted { IfErr result (λ why. IsHalted D.told (entries.Forgot table write) why house.old house.new) }
    ensures opens { IsToldHouse D.told house.old
        → IfErr result (λ _. StillOpens D.told house.new) }
    ensures start { house.new.start ≡ house.old.start }
    ensures ends { IfErr result EndsRun }
    ensures step { Step D.told D.faults (calls.Note (entries.Forgot table write)) (outcome_of result)
        (seen_of house.old) (seen_of house.new) }
    ensures cause { FileCause (D.faults house.old.shelf) (D.faults house.new.shelf) result }
    ensures hard { HardStep (D.hard house.old.shelf) (D.hard house.new.shelf)
        house.old.trail.closed house.new.trail.closed }
{
    house.note(Entry::Forgot { table, write }, None)
}
