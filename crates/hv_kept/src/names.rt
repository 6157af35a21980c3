ghost use Rattle.std.specs.Prelude.{◌≡◌, List, ℕ, true, false, ◌||◌, not, Option, Some, IfOk, OnOk, IsErrOf};
ghost use Rattle.std.specs.List.{list_any};
ghost use Rattle.std.specs.FinMap as tree;
ghost use Rattle.hv_base.specs.Told.{Tells, Moves};
ghost use Rattle.hv_shelf.specs.declared.place.Place.{Place};
ghost use Rattle.hv_shelf.specs.Disk.{Store, HasFile, IsRemoved, IsRenamed, IsListing, places_of};
ghost use Rattle.hv_shelf.specs.Places.{is_in, dir_named, place_named};
ghost use Rattle.hv_kept.specs.Kept.{is_among, moved_places, HasMoved, Knows, AreKnown, IsWithin};

use hv_base::{Duplicate, NoMemory, TableId, Text};
use hv_shelf::{DirAt, MemoryDisk, Place, ShelfFault};
use std::alloc::Global;
use std::collections::BTreeMap;

/// Which files tables have, by the tables' numbers: for each a disk in memory with the same files,
/// all of them empty.
pub type Names = BTreeMap<u64, MemoryDisk>;

/// Puts an empty file at each of these places.
fn put_all(names: &mut MemoryDisk, places: &[Place]) -> Result<(), NoMemory>
    ensures names { OnOk result ((place : Place) → tree.contains_key names.new.tree place
        ≡ (tree.contains_key names.old.tree place || is_among places.now place)) }
{
    for place in places {
        names.put(place, &[])?;
    }
    Ok(())
}

/// A disk with an empty file at each of these places.
fn names_of(alloc: Global, places: &[Place]) -> Result<MemoryDisk, NoMemory>
    ensures names { IfOk result (λ names. (place : Place) →
        tree.contains_key names.tree place ≡ is_among places.now place) }
{
    let mut names = MemoryDisk::new(alloc)?;
    put_all(&mut names, places)?;
    Ok(names)
}

/// Keeps the files of a table, where there is memory for it.
fn keep(kept: &mut Names, table: u64, names: MemoryDisk)
    ensures known { (told : Option Store) → AreKnown told kept.old
        → Knows told table (Some names) → AreKnown told kept.new }
{
    let _ = kept.insert(table, names);
}

/// Keeps the files of a table that was listed, where there is memory for it.
pub fn learn(alloc: Global, kept: &mut Names, table: TableId, places: &[Place])
    ensures known { (told : Option Store) → Tells told (λ s. places.now ≡ places_of table s.tree)
        → AreKnown told kept.old → AreKnown told kept.new }
{
    if let Ok(names) = names_of(alloc, places) {
        keep(kept, table.0, names);
    }
}

/// The places of a table that is kept, rising.
pub fn list_names(
    alloc: Global,
    names: &MemoryDisk,
    table: TableId,
) -> Result<Vec<Place>, ShelfFault>
    ensures rising { IfOk result (λ places. IsListing table places.items) }
    ensures done { IfOk result (λ places. (told : Option Store) → Knows told table.0 (Some names.now)
        → Tells told (λ s. places.items ≡ places_of table s.tree)) }
    ensures unfailed { ¬ (IsErrOf result ShelfFault.Failed) }
{
    match names.list(alloc, table) {
        Ok(places) => Ok(places),
        Err(NoMemory) => Err(ShelfFault::NoMemory),
    }
}

/// Forgets the files of a table.
pub fn forget(kept: &mut Names, table: u64)
    ensures known { (before now : Option Store) → Moves (IsWithin table) before now
        → AreKnown before kept.old → AreKnown now kept.new }
{
    let _ = kept.remove(&table);
}

/// Notes that a file was put, where its table is kept and there is memory for it; else the table is
/// forgotten.
pub fn note_put(kept: &mut Names, place: &Place)
    ensures known { (bytes : List ℕ) (before now : Option Store)
        → Moves (HasFile place.now bytes) before now
        → AreKnown before kept.old → AreKnown now kept.new }
{
    let table = place.table.0;
    if let Some(mut names) = kept.remove(&table)
        && names.put(place, &[]).is_ok()
    {
        keep(kept, table, names);
    }
}

/// Notes that the files of a directory were taken away.
pub fn note_removed(kept: &mut Names, dir: &DirAt)
    ensures known { (before now : Option Store) → Moves (IsRemoved dir.now) before now
        → AreKnown before kept.old → AreKnown now kept.new }
{
    let table = dir.table.0;
    if let Some(mut names) = kept.remove(&table) {
        names.remove(dir);
        keep(kept, table, names);
    }
}

/// Whether a place is in the directory's other name.
fn is_named(from: &DirAt, to: &Text, place: &Place) -> bool
    ensures { result ≡ is_in (dir_named from.now to.now) place.now }
{
    place.table == from.table && place.partition == from.partition && place.dir == *to
}

/// Whether no file stands under the directory's other name.
fn is_free(names: &MemoryDisk, from: &DirAt, to: &Text) -> bool
    ensures { result ≡ not (list_any (is_in (dir_named from.now to.now)) (tree.keys names.now.tree)) }
{
    for place in names.files().keys() {
        if is_named(from, to, place) {
            return false;
        }
    }
    true
}

/// Where a file stands under the directory's other name.
fn place_named(alloc: Global, place: &Place, to: &Text) -> Result<Place, NoMemory>
    ensures { IfOk result (λ named. named ≡ place_named place.now to.now) }
{
    Ok(Place {
        table: place.table,
        partition: place.partition.duplicate(alloc)?,
        dir: to.duplicate(alloc)?,
        bucket: place.bucket,
    })
}

/// Where the directory's files stand under its other name.
fn moved(alloc: Global, names: &MemoryDisk, from: &DirAt, to: &Text) -> Result<Vec<Place>, NoMemory>
    ensures { IfOk result (λ places.
        places.items ≡ moved_places from.now to.now (tree.keys names.now.tree)) }
{
    let mut places = Vec::new(alloc);
    for place in names.files().keys() {
        if from.has(place) {
            places.push(place_named(alloc, place, to)?)?;
        }
    }
    Ok(places)
}

/// Moves all files of `from` to the directory's name `to`. Where a file stands there, and where memory
/// lacks, it says no, and what it leaves then isn't said.
fn rename(alloc: Global, names: &mut MemoryDisk, from: &DirAt, to: &Text) -> bool
    ensures { result ≡ true → HasMoved from.now to.now names.old.tree names.new.tree }
{
    if !is_free(names, from, to) {
        return false;
    }
    let Ok(places) = moved(alloc, names, from, to) else {
        return false;
    };
    names.remove(from);
    put_all(names, &places).is_ok()
}

/// Notes that a directory got another name. Where a file stood under it, and where memory lacks, the
/// table is forgotten.
pub fn note_renamed(alloc: Global, kept: &mut Names, from: &DirAt, to: &Text)
    ensures known { (before now : Option Store) → Moves (IsRenamed from.now to.now) before now
        → AreKnown before kept.old → AreKnown now kept.new }
{
    let table = from.table.0;
    if let Some(mut names) = kept.remove(&table)
        && rename(alloc, &mut names, from, to)
    {
        keep(kept, table, names);
    }
}
