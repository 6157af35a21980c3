ghost use Rattle.std.specs.Prelude.{◌≡◌, ℕ, IfOk, OnOk, map};
ghost use Rattle.std.specs.List.Sorted.{IsNonDecreasingBy};
ghost use Rattle.hv_wids.specs.declared.list.Exception.{Exception};
ghost use Rattle.hv_meta.specs.hv_book.specs.Past.{total};
ghost use Rattle.hv_earlier.specs.Lists.{list_at};
ghost use Rattle.hv_earlier.specs.Places.{IsSpot, write_of};

use crate::counts::spot_at;
use crate::exceptions::{Spot, put_ended, put_ids};
use hv_base::{NoMemory, TableId, WriteId};
use hv_meta::hv_book::Book;
use hv_wids::{Exception, WriteIdList};
use std::alloc::Global;

/// The exceptions of a list, in no order: of the ids that have not committed, and of those that
/// committed from that place on.
fn exceptions_at(alloc: Global, book: &Book, spot: Spot) -> Result<Vec<Exception>, NoMemory>
    requires spot { IsSpot book.now.entries spot }
    ensures exceptions { IfOk result (λ exceptions. (weight : Exception → ℕ) → total weight exceptions.items
        ≡ total weight (list_at book.now.entries spot.position spot.table).exceptions) }
{
    let past = book.past();
    let notes = book.transactions();
    let forgotten = past.forgotten.as_slice();
    let pending = past.pending.of_table(spot.table);
    let mut exceptions = Vec::new(alloc);
    put_ids(&mut exceptions, notes, forgotten, spot, pending)?;
    put_ended(&mut exceptions, notes, forgotten, spot, &past.aborted, 0)?;
    let from = spot.position;
    put_ended(
        &mut exceptions,
        notes,
        forgotten,
        spot,
        &past.committed,
        from,
    )?;
    Ok(exceptions)
}

/// Sorts exceptions by their ids.
fn sort_ids(exceptions: &mut Vec<Exception>) -> Result<(), NoMemory>
    ensures same { (weight : Exception → ℕ) → total weight exceptions.new.items
        ≡ total weight exceptions.old.items }
    ensures sorted { OnOk result (IsNonDecreasingBy write_of exceptions.new.items) }
{
    exceptions.sort_by_key(|exception| exception.write.0)?;
    Ok(())
}

/// The exceptions of a list, rising.
fn rising_at(alloc: Global, book: &Book, spot: Spot) -> Result<Vec<Exception>, NoMemory>
    requires spot { IsSpot book.now.entries spot }
    ensures exceptions { IfOk result (λ exceptions. exceptions.items
        ≡ (list_at book.now.entries spot.position spot.table).exceptions) }
{
    let mut exceptions = exceptions_at(alloc, book, spot)?;
    sort_ids(&mut exceptions)?;
    Ok(exceptions)
}

/// The write id list of a table at a place of the book, from 0: the entries before it count. It walks, of
/// the table, the ids that have not committed, those that committed from that place on, and those that were
/// given there.
pub fn list_at(
    alloc: Global,
    book: &Book,
    position: usize,
    table: TableId,
) -> Result<WriteIdList, NoMemory>
    ensures list { IfOk result (λ list. list ≡ list_at book.now.entries position table.0) }
{
    let spot = spot_at(book, position, table.0);
    let exceptions = rising_at(alloc, book, spot)?;
    Ok(WriteIdList::new(WriteId(spot.high), exceptions))
}

/// The write ids of a table at a place of the book: how many were given, and those, rising, that a reader
/// there passes over.
#[derive(Drop)]
pub struct PastIds {
    pub given: u64,
    pub lost: Vec<u64>,
}

/// The ids of these exceptions.
fn writes_of(alloc: Global, exceptions: &[Exception]) -> Result<Vec<u64>, NoMemory>
    ensures { IfOk result (λ writes. writes.items ≡ map write_of exceptions.now) }
{
    let mut writes = Vec::new(alloc);
    for exception in exceptions {
        writes.push(exception.write.0)?;
    }
    Ok(writes)
}

/// The list of a table at a place of the book, as `list_at` gives it, in numbers.
pub fn ids_at(
    alloc: Global,
    book: &Book,
    position: usize,
    table: TableId,
) -> Result<PastIds, NoMemory>
    ensures given { IfOk result (λ ids. ids.given ≡ (list_at book.now.entries position table.0).high.0) }
    ensures lost { IfOk result (λ ids. ids.lost.items
        ≡ map write_of (list_at book.now.entries position table.0).exceptions) }
{
    let spot = spot_at(book, position, table.0);
    let exceptions = rising_at(alloc, book, spot)?;
    let lost = writes_of(alloc, &exceptions)?;
    Ok(PastIds {
        given: spot.high,
        lost,
    })
}
