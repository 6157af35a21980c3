ghost use Rattle.std.specs.Prelude.{◌≡◌, ◌↔◌, ℕ, Some, None, true, false, IfOk, IfErr, IsErrOf};
ghost use Rattle.hv_base.specs.Told.{Tells};
ghost use Rattle.hv_shelf.specs.Disk.{places_of};
ghost use Rattle.hv_dirs.specs.Names.{IsNumber};
ghost use Rattle.hv_history.specs.declared.entry.Entry.TheVariants as entry;
ghost use Rattle.hv_history.specs.State.{state_of};
ghost use Rattle.hv_history.specs.Legal.{HasRoom, profile};
ghost use Rattle.hv_trail.specs.Steps.{Note, Remove};
ghost use Rattle.hv_telling.specs.hv_house.specs.Calls.{LacksRoom};
ghost use Rattle.hv_telling.specs.hv_house.specs.Faults.{HardStep};
ghost use Rattle.hv_telling.specs.hv_house.specs.House.{entries_of};
ghost use Rattle.hv_telling.specs.Telling.{IsWhole, HasNoOwn};
ghost use Rattle.hv_job_calls.specs.declared.fault.JobFault.TheVariants as fault;
ghost use Rattle.hv_job_calls.specs.Forgetting.{forget_call, is_own_named, IsOwnNamed, IsFirstOwn, StillListedIn};
ghost use Rattle.hv_job_calls.specs.Refusals.{is_live_in, IsLostIn, CanForget, IsOwnText, IsUnlisted};
ghost use Rattle.hv_job_calls.specs.Steps.{JobStep, job_call};
ghost use Rattle.hv_job_calls.specs.Tests.{IsGoneOrHouse, ForgetsOrHouse, ListsOrHouse, IsHouse};

use crate::cleaning::take;
use crate::fault::JobFault;
use crate::noting::let_go;
use crate::tests::{entry_count, has_room, is_table_live};
use hv_base::{Duplicate, NoMemory, TableId, Text, WriteId};
use hv_dirs::{DirName, parse_name};
use hv_shelf::{DirAt, Place, Shelf};
use hv_telling::forget_bare;
use hv_telling::hv_house::{House, HouseFault};
use std::alloc::Global;

/// Takes away the files of an own directory of an aborted write id. It is marked as gone; and where that failed, nobody's call is
/// marked as failed.
///
/// # Errors
/// `Gone` where the table isn't live; the house is as it was. `House` where the store failed or memory lacked.
pub fn remove_own<D: Shelf>(
    house: &mut House<D>,
    table: TableId,
    write: WriteId,
    dir: DirAt,
) -> Result<(), JobFault>
    requires whole { IsWhole D.told house.old }
    requires lost { is_live_in (state_of (entries_of house.old)) table.0 ≡ true
        → IsLostIn (state_of (entries_of house.old)) table.0 write.0 }
    requires here { dir.table ≡ table }
    requires own { IsOwnText write.0 dir.dir }
    ensures step { JobStep D.told D.faults (job_call (Remove None dir) result) house.old house.new result }
    ensures hard { HardStep (D.hard house.old.shelf) (D.hard house.new.shelf)
        house.old.trail.closed house.new.trail.closed }
    ensures gone { IsErrOf result fault.Gone ↔ (is_live_in (state_of (entries_of house.old)) table.0 ≡ false) }
    ensures others { IfErr result IsGoneOrHouse }
{
    if is_table_live(house, table.0) {
        take(house, dir)
    } else {
        let_go(dir);
        Err(JobFault::Gone)
    }
}

/// Whether the name is an own one of this write id.
fn is_own_name(write: WriteId, name: &DirName) -> bool
    ensures { result ≡ is_own_named write.0 name.now }
{
    match name {
        DirName::Own { write: other, .. } => other.0 == write.0,
        _ => false,
    }
}

/// Whether a directory's text is that of an own one of this write id, which has a name.
fn is_own(alloc: Global, write: WriteId, text: &Text) -> Result<bool, NoMemory>
    requires number { IsNumber write.0 }
    ensures own { IfOk result (λ own. IsOwnNamed write.0 text.now own) }
{
    let found = parse_name(alloc, text)?;
    match found {
        Some(name) => Ok(is_own_name(write, &name)),
        None => Ok(false),
    }
}

/// The text of a directory that was found.
fn found_dir(alloc: Global, dir: &Text) -> Result<Option<Text>, NoMemory>
    ensures found { IfOk result (λ found. found ≡ Some dir.now) }
{
    let text = dir.duplicate(alloc)?;
    Ok(Some(text))
}

/// The first of these places that is in an own directory of the id: its directory.
fn first_own(alloc: Global, write: WriteId, places: &[Place]) -> Result<Option<Text>, NoMemory>
    requires number { IsNumber write.0 }
    ensures found { IfOk result (λ found. IsFirstOwn write.0 places.now found) }
{
    for place in places {
        let own = is_own(alloc, write, &place.dir)?;
        if own {
            return found_dir(alloc, &place.dir);
        }
    }
    Ok(None)
}

/// Notes that the id is forgotten in a live table, of which no file stands in its own directories.
fn note_forgotten<D: Shelf>(
    house: &mut House<D>,
    table: TableId,
    write: WriteId,
) -> Result<(), JobFault>
    requires whole { IsWhole D.told house.old }
    requires live { is_live_in (state_of (entries_of house.old)) table.0 ≡ true }
    requires can { CanForget (state_of (entries_of house.old)) table.0 write.0 }
    requires room { HasRoom profile (state_of (entries_of house.old)) 1 }
    requires bare { Tells (D.told house.old.shelf) (λ s. HasNoOwn table.0 write.0 s.tree) }
    ensures step { JobStep D.told D.faults (job_call (Note (entry.Forgot table write)) result)
        house.old house.new result }
    ensures hard { HardStep (D.hard house.old.shelf) (D.hard house.new.shelf)
        house.old.trail.closed house.new.trail.closed }
    ensures failed { IfErr result IsHouse }
{
    match forget_bare(house, table, write) {
        Ok(()) => Ok(()),
        Err(why) => Err(JobFault::House(why)),
    }
}

/// The directory of the id that is listed, where one is; and none is for the entry that is noted then.
fn forget_listed<D: Shelf>(
    alloc: Global,
    house: &mut House<D>,
    table: TableId,
    write: WriteId,
    places: &[Place],
) -> Result<(), JobFault>
    requires whole { IsWhole D.told house.old }
    requires live { is_live_in (state_of (entries_of house.old)) table.0 ≡ true }
    requires can { CanForget (state_of (entries_of house.old)) table.0 write.0 }
    requires room { HasRoom profile (state_of (entries_of house.old)) 1 }
    requires listed { Tells (D.told house.old.shelf) (λ s. places.now ≡ places_of table s.tree) }
    ensures step { JobStep D.told D.faults (forget_call table write result) house.old house.new result }
    ensures hard { HardStep (D.hard house.old.shelf) (D.hard house.new.shelf)
        house.old.trail.closed house.new.trail.closed }
    ensures listed { IfErr result (StillListedIn (D.told house.old.shelf) table write.0) }
    ensures bare { IfOk result (λ _. Tells (D.told house.old.shelf) (λ s. IsUnlisted table write.0 s.tree)) }
    ensures others { IfErr result ListsOrHouse }
{
    match first_own(alloc, write, places) {
        Ok(Some(dir)) => Err(JobFault::StillListed { dir }),
        Ok(None) => note_forgotten(house, table, write),
        Err(NoMemory) => Err(JobFault::House(HouseFault::NoMemory)),
    }
}

/// Lists a live table, and notes that the id is forgotten there, where no own directory of it is listed.
fn forget_live<D: Shelf>(
    alloc: Global,
    house: &mut House<D>,
    table: TableId,
    write: WriteId,
) -> Result<(), JobFault>
    requires whole { IsWhole D.told house.old }
    requires live { is_live_in (state_of (entries_of house.old)) table.0 ≡ true }
    requires can { CanForget (state_of (entries_of house.old)) table.0 write.0 }
    requires room { HasRoom profile (state_of (entries_of house.old)) 1 }
    ensures step { JobStep D.told D.faults (forget_call table write result) house.old house.new result }
    ensures hard { HardStep (D.hard house.old.shelf) (D.hard house.new.shelf)
        house.old.trail.closed house.new.trail.closed }
    ensures listed { IfErr result (StillListedIn (D.told house.old.shelf) table write.0) }
    ensures bare { IfOk result (λ _. Tells (D.told house.old.shelf) (λ s. IsUnlisted table write.0 s.tree)) }
    ensures others { IfErr result ListsOrHouse }
{
    match house.places_for(alloc, None, table) {
        Ok(places) => forget_listed(alloc, house, table, write, &places),
        Err(why) => Err(JobFault::House(why)),
    }
}

/// Lists a table, and notes that an aborted write id is forgotten there: none of its own directories is listed. A listing that failed
/// is marked as nobody's.
///
/// # Errors
/// `Gone` where the table isn't live, then `Full` where there is no room; the house is as it was. `StillListed` where a directory of the
/// id is listed, with it. `House` where the store failed or memory lacked.
pub fn forget<D: Shelf>(
    alloc: Global,
    house: &mut House<D>,
    table: TableId,
    write: WriteId,
) -> Result<(), JobFault>
    requires whole { IsWhole D.told house.old }
    requires can { is_live_in (state_of (entries_of house.old)) table.0 ≡ true
        → CanForget (state_of (entries_of house.old)) table.0 write.0 }
    ensures step { JobStep D.told D.faults (forget_call table write result) house.old house.new result }
    ensures hard { HardStep (D.hard house.old.shelf) (D.hard house.new.shelf)
        house.old.trail.closed house.new.trail.closed }
    ensures gone { IsErrOf result fault.Gone ↔ (is_live_in (state_of (entries_of house.old)) table.0 ≡ false) }
    ensures full { (count : ℕ) → IsErrOf result (fault.Full count)
        ↔ ((is_live_in (state_of (entries_of house.old)) table.0 ≡ true)
        × LacksRoom profile (entries_of house.old) 1 count) }
    ensures listed { IfErr result (StillListedIn (D.told house.old.shelf) table write.0) }
    ensures bare { IfOk result (λ _. Tells (D.told house.old.shelf) (λ s. IsUnlisted table write.0 s.tree)) }
    ensures others { IfErr result ForgetsOrHouse }
{
    if !is_table_live(house, table.0) {
        return Err(JobFault::Gone);
    }
    if has_room(house, 1) {
        forget_live(alloc, house, table, write)
    } else {
        Err(JobFault::Full {
            entries: entry_count(house),
        })
    }
}
