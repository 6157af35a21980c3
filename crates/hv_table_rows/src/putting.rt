ghost use Rattle.std.specs.Prelude.{◌≡◌, ◌<◌, ◌≤◌, true, false, None, IfOk, OnOk, IsErrOf};
ghost use Rattle.hv_base.specs.Told.{Moves};
ghost use Rattle.hv_dirs.specs.Names.{write_end};
ghost use Rattle.hv_shelf.specs.declared.fault.ShelfFault.TheVariants as why;
ghost use Rattle.hv_shelf.specs.Causes.{SoftCause};
ghost use Rattle.hv_shelf.specs.Disk.{HasFile, TornFile};
ghost use Rattle.hv_stands.specs.Files.{place_of_file};
ghost use Rattle.hv_table_rows.specs.Faults.{StoreCause};
ghost use Rattle.hv_table_rows.specs.Putting.{CanPut, is_behind, may_follow, can_delete_from, can_put, IsEncoded, bytes_of};

use hv_base::{Duplicate, NoMemory, RowId, TableId, WriteId};
use hv_dirs::{DirName, print_name};
use hv_route::OutFile;
use hv_rowfile::{Rec, encode};
use hv_shelf::{Place, Shelf, ShelfFault};
use std::alloc::Global;

/// Whether the row of an identifier comes behind that of the one before it, if there is one.
fn is_behind(before: Option<RowId>, id: RowId) -> bool
    ensures { result ≡ is_behind before id }
{
    match before {
        Some(last) => last < id,
        None => true,
    }
}

/// Whether a deleting record may stand in a file of this bucket, behind that one.
fn may_follow(bucket: u32, before: Option<RowId>, rec: &Rec) -> bool
    ensures { result ≡ may_follow bucket before rec.now }
{
    match rec {
        Rec::Insert { .. } => false,
        Rec::Delete { id, by } => {
            let behind = is_behind(before, *id);
            id.bucket == bucket && 0 < id.write.0 && 0 < by.0 && behind
        }
    }
}

/// Whether these records can be a file of deletes of this bucket.
fn can_delete(bucket: u32, recs: &[Rec]) -> bool
    ensures { result ≡ can_delete_from bucket None recs.now }
{
    let mut before: Option<RowId> = None;
    for rec in recs {
        if !may_follow(bucket, before, rec) {
            return false;
        }
        before = Some(rec.id());
    }
    true
}

/// Whether the deletes of a file are such as it takes.
fn can_put(file: &OutFile) -> bool
    ensures { result ≡ can_put file.now }
{
    !file.deletes || can_delete(file.bucket, file.recs.as_slice())
}

/// Where a file of a change in a table stands, under its write id.
pub fn place_of_file(
    alloc: Global,
    table: TableId,
    write: WriteId,
    file: &OutFile,
) -> Result<Place, NoMemory>
    requires first { 1 ≤ write.0 }
    requires last { write.0 < write_end }
    ensures place { IfOk result (λ place. place ≡ place_of_file table.0 write.0 file.now) }
{
    let name = DirName::Own {
        deletes: file.deletes,
        write,
        statement: 0,
    };
    Ok(Place {
        table,
        partition: file.partition.duplicate(alloc)?,
        dir: print_name(alloc, &name)?,
        bucket: file.bucket,
    })
}

/// Puts a file of a change at this place. Deletes that don't rise, or aren't of the file's bucket, count as want of memory:
/// no files of a legal book show such rows.
///
/// # Errors
/// `NoMemory` where memory lacked: the store is as it was. `Failed` where the store failed: at this place may be any bytes
/// then, or no file.
#[tactic(auto, using(crate::proofs::Puts::no_call))]
pub fn put_file<D: Shelf>(
    alloc: Global,
    shelf: &mut D,
    place: &Place,
    file: &OutFile,
) -> Result<(), ShelfFault>
    requires can { CanPut file.now }
    ensures put { OnOk result
        (Moves (HasFile place.now (bytes_of file.now)) (D.told shelf.old) (D.told shelf.new)) }
    ensures encoded { OnOk result (IsEncoded file.now) }
    ensures torn { IsErrOf result why.Failed
        → Moves (TornFile place.now) (D.told shelf.old) (D.told shelf.new) }
    ensures no_memory { IsErrOf result why.NoMemory → D.told shelf.new ≡ D.told shelf.old }
    ensures cause { StoreCause (D.faults shelf.old) (D.faults shelf.new) (IsErrOf result why.Failed) }
    ensures hard { SoftCause (IsErrOf result why.Failed)
        (D.faults shelf.old) (D.faults shelf.new) (D.hard shelf.old) (D.hard shelf.new) }
{
    if !can_put(file) {
        return Err(ShelfFault::NoMemory);
    }
    let bytes = encode(alloc, file.deletes, file.bucket, file.recs.as_slice())?;
    shelf.put(place, &bytes)
}
