//! Whether the files that were read have as many records as the commits of their table say.

ghost use Rattle.std.specs.Prelude.{◌≡◌, ◌++◌, ◌∷◌, [], true, List, Option, Some, length, IfOk, IfErr, OnOk};
ghost use Rattle.std.specs.FinMap as tree;
ghost use Rattle.hv_base.specs.Told.{Tells};
ghost use Rattle.hv_shelf.specs.Disk.{Store};
ghost use Rattle.hv_table_rows.specs.Reading.{HoldsAt, Sheet};
ghost use Rattle.hv_law_dues.specs.hv_counts.specs.Counts.{AreOwn, IsCounted};
ghost use Rattle.hv_law_dues.specs.hv_counts.specs.Miscounts.{AreCounted};
ghost use Rattle.hv_table_reader.specs.Counting.{counted_at, TellsUncounted, IsOfAsked};
ghost use Rattle.hv_table_reader.specs.Damage.{IsSoft, IsShortDamage, TellsFile};

use crate::damage::{damaged, records_of};
use crate::fault::RowFault;
use hv_base::{NoMemory, TableId};
use hv_choosing::{DirFile, Span};
use hv_law_dues::hv_counts::{Counted, Due, first_miscount};
use hv_rowfile::Rec;
use hv_shelf::Place;
use std::alloc::Global;

fn push_count(rows: usize, bytes: usize, counts: &mut Vec<Counted>) -> Result<(), NoMemory>
    ensures { OnOk result (counts.new.items ≡ counts.old.items ++ record { rows = rows; bytes = bytes } ∷ []) }
{
    Ok(counts.push(Counted {
        rows: rows as u64,
        bytes: bytes as u64,
    })?)
}

/// The records of the file of a kind and of these write ids that these bytes are, which stand at this place. Appends how many records and
/// bytes it has.
pub fn counted_records(
    alloc: Global,
    deletes: bool,
    span: Span,
    place: &Place,
    bytes: &[u8],
    counts: &mut Vec<Counted>,
) -> Result<Vec<Rec>, RowFault>
    ensures recs { (o : Option Store) → Tells o (λ s. tree.get s.tree place.now ≡ Some bytes.now)
        → IfOk result (λ recs. Tells o (λ s. HoldsAt s.tree place.now deletes span recs.items)) }
    ensures damage { (o : Option Store) → Tells o (λ s. tree.get s.tree place.now ≡ Some bytes.now)
        → IfErr result (λ fault. Tells o (λ s. TellsFile s.tree place.now deletes span fault)) }
    ensures soft { IfErr result IsSoft }
    ensures short { IfErr result IsShortDamage }
    ensures counted { IfOk result (λ recs. counts.new.items
        ≡ counts.old.items ++ counted_at deletes place.now recs.items ∷ []) }
{
    let recs = records_of(alloc, deletes, span, place, bytes)?;
    push_count(recs.len(), bytes.len(), counts)?;
    Ok(recs)
}

/// Whether these files of a kind have as many records of each write id in each partition as the commits say, where that is asked.
///
/// # Errors
/// `Damaged` where they don't, by the last file of the first write id and partition that differ, and its length. `NoMemory`.
pub fn check_counts(
    alloc: Global,
    deletes: bool,
    table: TableId,
    files: &[DirFile],
    asked: bool,
    counts: &[Counted],
    dues: &[Due],
) -> Result<(), RowFault>
    requires { length counts.now ≡ length files.now }
    ensures counted { (sheets : List Sheet) → AreCounted deletes files.now counts.now sheets
        → OnOk result (AreOwn files.now → asked ≡ true → IsCounted deletes dues.now sheets) }
    ensures told { (sheets : List Sheet) → AreCounted deletes files.now counts.now sheets
        → IfErr result (TellsUncounted deletes table.0 dues.now sheets) }
    ensures asks { IfErr result (IsOfAsked asked) }
    ensures soft { IfErr result IsSoft }
    ensures short { IfErr result IsShortDamage }
{
    if !asked {
        return Ok(());
    }
    match first_miscount(alloc, deletes, table, files, counts, dues)? {
        Some(told) => Err(damaged(alloc, &told.place, told.at)),
        None => Ok(()),
    }
}
