//! The records of a file's bytes, and what is told where they are not those that are meant.

ghost use Rattle.std.specs.Prelude.{◌≡◌, true, Option, Some, IfOk, IfErr};
ghost use Rattle.std.specs.FinMap as tree;
ghost use Rattle.hv_base.specs.Told.{Tells};
ghost use Rattle.hv_shelf.specs.Disk.{Store};
ghost use Rattle.hv_rowfile.specs.Layout.{file_spelling};
ghost use Rattle.hv_table_rows.specs.Faults.{IsShort};
ghost use Rattle.hv_table_rows.specs.Damage.{told_place};
ghost use Rattle.hv_table_rows.specs.Reading.{HoldsAt};
ghost use Rattle.hv_table_reader.specs.Damage.{IsSoft, IsShortDamage, TellsPlace, TellsFile};

use crate::fault::RowFault;
use hv_acts::hv_telling::hv_house::HouseFault;
use hv_base::{Duplicate, NoMemory};
use hv_choosing::Span;
use hv_history::FilePlace;
use hv_rowfile::{FileFault, Rec, decode};
use hv_shelf::Place;
use hv_table_rows::first_amiss;
use std::alloc::Global;

/// The most bytes of a place's names that an entry takes.
const MOST_BYTES: usize = 1000;

/// Whether the names of a place are short enough for an entry.
fn is_short(place: &Place) -> bool
    ensures { result ≡ true → IsShort place.now.partition place.now.dir }
{
    let partition = place.partition.len();
    partition <= MOST_BYTES && place.dir.len() <= MOST_BYTES - partition
}

fn place_in(alloc: Global, place: &Place, at: u64) -> Result<FilePlace, NoMemory>
    ensures { IfOk result (λ found. found ≡ told_place place.now at) }
{
    Ok(FilePlace {
        table: place.table,
        partition: place.partition.duplicate(alloc)?,
        dir: place.dir.duplicate(alloc)?,
        bucket: place.bucket,
        at,
    })
}

/// The damage of the file at this place, at this offset. A place whose names are too long for an entry counts as
/// want of memory: no legal book has a file there.
pub fn damaged(alloc: Global, place: &Place, at: u64) -> RowFault
    ensures soft { IsSoft result }
    ensures short { IsShortDamage result }
    ensures place { TellsPlace place.now at result }
{
    if !is_short(place) {
        return RowFault::House(HouseFault::NoMemory);
    }
    match place_in(alloc, place, at) {
        Ok(place) => RowFault::Damaged(place),
        Err(NoMemory) => RowFault::House(HouseFault::NoMemory),
    }
}

/// The records of the file of a kind and of these write ids that these bytes are, which stand at this place.
pub fn records_of(
    alloc: Global,
    deletes: bool,
    span: Span,
    place: &Place,
    bytes: &[u8],
) -> Result<Vec<Rec>, RowFault>
    ensures recs { (o : Option Store) → Tells o (λ s. tree.get s.tree place.now ≡ Some bytes.now)
        → IfOk result (λ recs. Tells o (λ s. HoldsAt s.tree place.now deletes span recs.items)) }
    ensures damage { (o : Option Store) → Tells o (λ s. tree.get s.tree place.now ≡ Some bytes.now)
        → IfErr result (λ fault. Tells o (λ s. TellsFile s.tree place.now deletes span fault)) }
    ensures spelled { IfOk result (λ recs. bytes.now ≡ file_spelling deletes place.now.bucket recs.items) }
    ensures soft { IfErr result IsSoft }
    ensures short { IfErr result IsShortDamage }
{
    match decode(alloc, bytes) {
        Ok((kind, other, recs)) => {
            match first_amiss(alloc, deletes, place.bucket, span, kind, other, &recs)? {
                Some(at) => Err(damaged(alloc, place, at)),
                None => Ok(recs),
            }
        }
        Err(FileFault::Damaged { at }) => Err(damaged(alloc, place, at)),
        Err(FileFault::NoMemory) => Err(RowFault::House(HouseFault::NoMemory)),
    }
}
