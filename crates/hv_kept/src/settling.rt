ghost use Rattle.std.specs.Prelude.{◌≡◌, List, ℕ, true, false, Option, IfOk};
ghost use Rattle.hv_base.specs.Told.{Tells, Moves};
ghost use Rattle.hv_shelf.specs.Disk.{Store, places_of, HasFile, IsRemoved, IsRenamed};
ghost use Rattle.hv_kept.specs.Kept.{AreKnown, IsWithin};

use crate::names::{Names, forget, learn, note_put, note_removed, note_renamed};
use hv_base::{TableId, Text};
use hv_shelf::{DirAt, Place, ShelfFault};
use std::alloc::Global;

/// Keeps the files of a table, where they were listed.
pub fn settle_list(
    alloc: Global,
    kept: &mut Names,
    table: TableId,
    listed: &Result<Vec<Place>, ShelfFault>,
)
    ensures known { (told : Option Store) → IfOk listed.now (λ places.
        Tells told (λ s. places.items ≡ places_of table s.tree))
        → AreKnown told kept.old → AreKnown told kept.new }
{
    if let Ok(places) = listed {
        learn(alloc, kept, table, places);
    }
}

/// Notes that a file was put, or, where that wasn't done, forgets its table.
pub fn settle_put(kept: &mut Names, place: &Place, done: bool)
    ensures known { (bytes : List ℕ) (before now : Option Store)
        → (done ≡ true → Moves (HasFile place.now bytes) before now)
        → (done ≡ false → Moves (IsWithin place.now.table.0) before now)
        → AreKnown before kept.old → AreKnown now kept.new }
{
    if done {
        note_put(kept, place);
    } else {
        forget(kept, place.table.0);
    }
}

/// Notes that a directory got another name, or, where that wasn't done, forgets its table.
pub fn settle_rename(alloc: Global, kept: &mut Names, from: &DirAt, to: &Text, done: bool)
    ensures known { (before now : Option Store)
        → (done ≡ true → Moves (IsRenamed from.now to.now) before now)
        → (done ≡ false → Moves (IsWithin from.now.table.0) before now)
        → AreKnown before kept.old → AreKnown now kept.new }
{
    if done {
        note_renamed(alloc, kept, from, to);
    } else {
        forget(kept, from.table.0);
    }
}

/// Notes that the files of a directory were taken away, or, where that wasn't done, forgets its table.
pub fn settle_remove(kept: &mut Names, dir: &DirAt, done: bool)
    ensures known { (before now : Option Store)
        → (done ≡ true → Moves (IsRemoved dir.now) before now)
        → (done ≡ false → Moves (IsWithin dir.now.table.0) before now)
        → AreKnown before kept.old → AreKnown now kept.new }
{
    if done {
        note_removed(kept, dir);
    } else {
        forget(kept, dir.table.0);
    }
}
