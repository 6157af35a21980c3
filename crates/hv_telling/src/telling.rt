ghost use Rattle.std.specs.Prelude.{◌≡◌, ◌≤◌, ◌+◌, length, IfOk, OnOk, IfErr};
ghost use Rattle.hv_built.specs.Running.{Runs};
ghost use Rattle.hv_history.specs.Book.{tree_of_entry};
ghost use Rattle.hv_history.specs.State.{state_of};
ghost use Rattle.hv_history.specs.Legal.{Fits, profile};
ghost use Rattle.hv_stands.specs.Running.{next_number};
ghost use Rattle.hv_house.specs.hv_table_rows.specs.Putting.{CanPut, IsEncoded, bytes_of};
ghost use Rattle.hv_trail.specs.Kept.{trail_of};
ghost use Rattle.hv_trail.specs.Steps.{Step};
ghost use Rattle.hv_trail.specs.Steps as calls;
ghost use Rattle.hv_house.specs.Faults.{FileCause, EndsRun, HardStep};
ghost use Rattle.hv_house.specs.House.{entries_of, IsSmall, BeginFits, beginning_of, AreNoted, IsNoted, AreHalted, IsHalted};
ghost use Rattle.hv_house.specs.Steps.{seen_of, outcome_of, IsMarked, IsOwnFile, PutStep, put_of};
ghost use Rattle.hv_telling.specs.Telling.{IsToldHouse, IsWhole, StaysWhole, StillOpens, IsTrueNow, IsMeantFile};

use hv_ast::Stmt;
use hv_base::{Text, TxnId};
use hv_history::Entry;
use hv_house::{House, HouseFault};
use hv_route::OutFile;
use hv_shelf::{Place, Shelf};
use std::alloc::Global;

/// Notes an entry that fits: in the journal, and behind the book. Where the house is told the entry is true. `tree` is that of its
/// text.
///
/// # Errors
/// `Store` where the journal failed, and `NoMemory` where memory lacked: the book is as it was then.
pub fn note<D: Shelf>(
    house: &mut House<D>,
    entry: Entry,
    tree: Option<Stmt>,
) -> Result<(), HouseFault>
    requires whole { IsWhole D.told house.old }
    requires tree { tree ≡ tree_of_entry entry }
    requires small { IsSmall entry }
    requires fits { Fits profile (state_of (entries_of house.old)) entry }
    requires marked { IsMarked house.old entry }
    requires truly { IsToldHouse D.told house.old
        → IsTrueNow (entries_of house.old) (trail_of house.old.trail) entry }
    ensures whole { OnOk result (IsWhole D.told house.new) }
    ensures noted { OnOk result (IsNoted D.told entry house.old house.new) }
    ensures stays { IfErr result (λ why. StaysWhole D.told why house.new) }
    ensures halted { IfErr result (λ why. IsHalted D.told entry why house.old house.new) }
    ensures opens { IsToldHouse D.told house.old
        → IfErr result (λ _. StillOpens D.told house.new) }
    ensures start { house.new.start ≡ house.old.start }
    ensures ends { IfErr result EndsRun }
    ensures step { Step D.told D.faults (calls.Note entry) (outcome_of result)
        (seen_of house.old) (seen_of house.new) }
    ensures cause { FileCause (D.faults house.old.shelf) (D.faults house.new.shelf) result }
    ensures hard { HardStep (D.hard house.old.shelf) (D.hard house.new.shelf)
        house.old.trail.closed house.new.trail.closed }
{
    house.note(entry, tree)
}

/// Opens a statement and starts it at once: the journal has both entries then or none. Its transaction, and the place of its
/// `Start`. `tree` is that of the text.
///
/// # Errors
/// `Store` where the journal failed, and `NoMemory` where memory lacked: the book is as it was then.
pub fn begin<D: Shelf>(
    house: &mut House<D>,
    session: Text,
    number: u64,
    text: Text,
    tree: Stmt,
) -> Result<(TxnId, u64), HouseFault>
    requires whole { IsWhole D.told house.old }
    requires runs { Runs text tree }
    requires short { length text ≤ 32768 }
    requires named { length session ≤ 32 }
    requires fits { BeginFits (entries_of house.old)
        (record { session = session; number = number; text = text }) }
    ensures txn { IfOk result (λ x. x.0.0 ≡ next_number (entries_of house.old)) }
    ensures place { IfOk result (λ x. x.1 ≡ length (entries_of house.old) + 1) }
    ensures whole { OnOk result (IsWhole D.told house.new) }
    ensures noted { OnOk result (AreNoted D.told (beginning_of (entries_of house.old)
        (record { session = session; number = number; text = text })) house.old house.new) }
    ensures stays { IfErr result (λ why. StaysWhole D.told why house.new) }
    ensures halted { IfErr result (λ why. AreHalted D.told (beginning_of (entries_of house.old)
        (record { session = session; number = number; text = text })) why house.old house.new) }
    ensures opens { IsToldHouse D.told house.old
        → IfErr result (λ _. StillOpens D.told house.new) }
    ensures start { house.new.start ≡ house.old.start }
    ensures ends { IfErr result EndsRun }
    ensures step { Step D.told D.faults
        (calls.Begin (record { 0 = next_number (entries_of house.old) }) session number text)
        (outcome_of result) (seen_of house.old) (seen_of house.new) }
    ensures cause { FileCause (D.faults house.old.shelf) (D.faults house.new.shelf) result }
    ensures hard { HardStep (D.hard house.old.shelf) (D.hard house.new.shelf)
        house.old.trail.closed house.new.trail.closed }
{
    house.begin(session, number, text, tree)
}

/// Puts a file of a change at its place, under a write id of this transaction. Where the house is told the file is one of the
/// change that its statement means. It is marked as put; and where that failed, as failed, with the store's count of faults.
///
/// # Errors
/// `NoMemory` where memory lacked, and the store is as it was. `Failed` where the store failed: at this place may be any bytes
/// then, or no file. So too with `Store`, where its count of faults is the last one: the house is closed.
pub fn put<D: Shelf>(
    alloc: Global,
    house: &mut House<D>,
    by: TxnId,
    place: Place,
    file: &OutFile,
) -> Result<(), HouseFault>
    requires whole { IsWhole D.told house.old }
    requires can { CanPut file.now }
    requires own { IsOwnFile (entries_of house.old) by place file.now }
    requires truly { IsToldHouse D.told house.old
        → IsMeantFile (entries_of house.old) by place file.now }
    ensures whole { OnOk result (IsWhole D.told house.new) }
    ensures stays { IfErr result (λ why. StaysWhole D.told why house.new) }
    ensures opens { IsToldHouse D.told house.old
        → IfErr result (λ _. StillOpens D.told house.new) }
    ensures start { house.new.start ≡ house.old.start }
    ensures put { PutStep D.told D.faults (put_of by place (bytes_of file.now)) house.old house.new result }
    ensures hard { HardStep (D.hard house.old.shelf) (D.hard house.new.shelf)
        house.old.trail.closed house.new.trail.closed }
    ensures encoded { OnOk result (IsEncoded file.now) }
{
    house.put(alloc, by, place, file)
}
