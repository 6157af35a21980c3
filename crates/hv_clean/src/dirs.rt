//! The directories among places that a cleaner takes away.

ghost use Rattle.std.specs.Prelude.{◌≡◌, ◌==◌, IfOk, OnOk};
ghost use Rattle.std.specs.List.{AllByRecursion};
ghost use Rattle.hv_job_acts.specs.hv_job_calls.specs.Forgetting.{is_own_named};
ghost use Rattle.hv_clean.specs.Dirs.{IsOwnIf, is_staged_name, IsStagedIf, dir_of_place, IsPutOnce, SweepsIf};
ghost use Rattle.hv_clean.specs.Removing.{IsLostDir};

use hv_base::{Duplicate, NoMemory, Text};
use hv_dirs::{DirName, parse_name};
use hv_job_acts::LostId;
use hv_shelf::{DirAt, Place};
use std::alloc::Global;

/// The directory of a place.
fn dir_of(alloc: Global, place: &Place) -> Result<DirAt, NoMemory>
    ensures { IfOk result (λ dir. dir ≡ dir_of_place place.now) }
{
    Ok(DirAt {
        table: place.table,
        partition: place.partition.duplicate(alloc)?,
        dir: place.dir.duplicate(alloc)?,
    })
}

/// Whether a place is of that table.
fn is_of(place: &Place, table: u64) -> bool
    ensures { result ≡ (place.now.table.0 == table) }
{
    place.table.0 == table
}

/// Whether the last one of these is the directory of the place: places rise, so that those of one directory stand
/// together.
fn is_last(dirs: &[DirAt], place: &Place) -> bool {
    match dirs.last() {
        Some(dir) => dir.has(place),
        None => false,
    }
}

/// Puts the directory of a place behind the others, unless it is the last one.
fn put_once(alloc: Global, dirs: &mut Vec<DirAt>, place: &Place) -> Result<(), NoMemory>
    ensures { OnOk result (IsPutOnce place.now dirs.old.items dirs.new.items) }
{
    if is_last(dirs, place) {
        return Ok(());
    }
    let dir = dir_of(alloc, place)?;
    dirs.push(dir)?;
    Ok(())
}

/// Whether a name is that of an own directory of a write id.
fn is_own_name(id: LostId, name: &DirName) -> bool
    ensures { result ≡ is_own_named id.write.0 name.now }
{
    match name {
        DirName::Own { write, .. } => write.0 == id.write.0,
        _ => false,
    }
}

/// Whether a text is that of an own directory of a write id.
fn is_own(alloc: Global, id: LostId, text: &Text) -> Result<bool, NoMemory>
    ensures own { IfOk result (IsOwnIf id.write.0 text.now) }
{
    let found = parse_name(alloc, text)?;
    match found {
        Some(name) => Ok(is_own_name(id, &name)),
        None => Ok(false),
    }
}

/// Whether a name is that of a staged directory.
fn is_staged_name(name: &DirName) -> bool
    ensures { result ≡ is_staged_name name.now }
{
    match name {
        DirName::Staged { .. } => true,
        _ => false,
    }
}

/// Whether a text is that of a staged directory.
fn is_staged(alloc: Global, text: &Text) -> Result<bool, NoMemory>
    ensures staged { IfOk result (IsStagedIf text.now) }
{
    let found = parse_name(alloc, text)?;
    match found {
        Some(name) => Ok(is_staged_name(&name)),
        None => Ok(false),
    }
}

fn put_lost(alloc: Global, dirs: &mut Vec<DirAt>, id: LostId, place: &Place) -> Result<(), NoMemory>
    ensures { OnOk result (AllByRecursion (IsLostDir id) dirs.old.items
        → AllByRecursion (IsLostDir id) dirs.new.items) }
{
    if !is_of(place, id.table.0) {
        return Ok(());
    }
    let own = is_own(alloc, id, &place.dir)?;
    if !own {
        return Ok(());
    }
    put_once(alloc, dirs, place)
}

/// The own directories of a write id among these places, each once where places rise.
pub(crate) fn lost_dirs(alloc: Global, id: LostId, places: &[Place]) -> Result<Vec<DirAt>, NoMemory>
    ensures lost { IfOk result (λ dirs. AllByRecursion (IsLostDir id) dirs.items) }
{
    let mut dirs = Vec::new(alloc);
    for place in places {
        put_lost(alloc, &mut dirs, id, place)?;
    }
    Ok(dirs)
}

fn put_staged(
    alloc: Global,
    dirs: &mut Vec<DirAt>,
    table: u64,
    live: bool,
    place: &Place,
) -> Result<(), NoMemory>
    requires here { place.now.table.0 ≡ table }
    ensures { OnOk result (AllByRecursion (SweepsIf table live) dirs.old.items
        → AllByRecursion (SweepsIf table live) dirs.new.items) }
{
    let staged = is_staged(alloc, &place.dir)?;
    if !staged {
        return Ok(());
    }
    put_once(alloc, dirs, place)
}

fn put_sweepable(
    alloc: Global,
    dirs: &mut Vec<DirAt>,
    table: u64,
    live: bool,
    place: &Place,
) -> Result<(), NoMemory>
    ensures { OnOk result (AllByRecursion (SweepsIf table live) dirs.old.items
        → AllByRecursion (SweepsIf table live) dirs.new.items) }
{
    if !is_of(place, table) {
        return Ok(());
    }
    if live {
        return put_staged(alloc, dirs, table, live, place);
    }
    put_once(alloc, dirs, place)
}

/// The staged directories of a table among these places, and all of them where it was dropped; each once where places
/// rise.
pub(crate) fn sweepable_dirs(
    alloc: Global,
    table: u64,
    live: bool,
    places: &[Place],
) -> Result<Vec<DirAt>, NoMemory>
    ensures sweepable { IfOk result (λ dirs. AllByRecursion (SweepsIf table live) dirs.items) }
{
    let mut dirs = Vec::new(alloc);
    for place in places {
        put_sweepable(alloc, &mut dirs, table, live, place)?;
    }
    Ok(dirs)
}
