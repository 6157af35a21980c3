ghost use Rattle.std.specs.Prelude.{◌≡◌, ℕ, ◌+◌, ◌++◌, IfOk, OnOk, take};
ghost use Rattle.std.specs.List.{flat_map};
ghost use Rattle.std.specs.Option.{option_copied};
ghost use Rattle.hv_history.specs.State.{state_of, numbered};
ghost use Rattle.hv_book.specs.Commits.{wrote_in};
ghost use Rattle.hv_book.specs.Past.{total};
ghost use Rattle.hv_counts.specs.Counts.{due_of, dues_in};
ghost use Rattle.hv_counts.specs.Places.{IsSpot, dues_then, dues_weight};

use crate::due::Due;
use crate::spot::{Spot, had_committed, spot_at};
use hv_base::{Duplicate, List, NoMemory, TableId, Touch};
use hv_book::Book;
use hv_ids::{IdNote, PlacedIds};
use std::alloc::Global;

/// What the transaction of that number wrote, where it had committed its writes before the place.
fn wrote_then(book: &Book, spot: Spot, txn: u64) -> Option<&List<Touch>>
    requires { IsSpot book.now.entries spot }
    ensures { option_copied result
        ≡ wrote_in (numbered (state_of (take spot.position book.now.entries)).transactions txn) }
{
    if had_committed(book, spot, txn) {
        book.committed(txn)
    } else {
        None
    }
}

/// Appends what a touch says of the table.
fn push_touch(
    alloc: Global,
    table: u64,
    write: u64,
    touch: &Touch,
    dues: &mut Vec<Due>,
) -> Result<(), NoMemory>
    ensures { OnOk result (dues.new.items ≡ dues.old.items ++ due_of table write touch.now) }
{
    if touch.table.0 == table {
        let partition = touch.partition.duplicate(alloc)?;
        dues.push(Due {
            write,
            partition,
            inserted: touch.inserted,
            deleted: touch.deleted,
        })?;
    }
    Ok(())
}

/// Appends what these touches say of the table.
fn push_touches(
    alloc: Global,
    table: u64,
    write: u64,
    wrote: &[Touch],
    dues: &mut Vec<Due>,
) -> Result<(), NoMemory>
    ensures { OnOk result (dues.new.items ≡ dues.old.items ++ flat_map (due_of table write) wrote.now) }
{
    for touch in wrote {
        push_touch(alloc, table, write, touch, dues)?;
    }
    Ok(())
}

/// Appends what a write id of the table says, where it was given before the place.
#[tactic(auto, unfolding(crate::specs::Places::dues_then))]
fn push_id(
    alloc: Global,
    book: &Book,
    spot: Spot,
    id: IdNote,
    dues: &mut Vec<Due>,
) -> Result<(), NoMemory>
    requires { IsSpot book.now.entries spot }
    ensures { OnOk result (dues.new.items ≡ dues.old.items ++ dues_then book.now.entries spot id) }
{
    if id.table == spot.table && id.write <= spot.high {
        if let Some(wrote) = wrote_then(book, spot, id.txn) {
            push_touches(alloc, spot.table, id.write, wrote.as_slice(), dues)?;
        }
    }
    Ok(())
}

fn push_ids(
    alloc: Global,
    book: &Book,
    spot: Spot,
    ids: &[IdNote],
    dues: &mut Vec<Due>,
) -> Result<(), NoMemory>
    requires { IsSpot book.now.entries spot }
    ensures { OnOk result (dues.new.items
        ≡ dues.old.items ++ flat_map (dues_then book.now.entries spot) ids.now) }
{
    for id in ids {
        push_id(alloc, book, spot, *id, dues)?;
    }
    Ok(())
}

/// The same of ids whose transactions ended, the last one of the table first.
fn push_ended(
    alloc: Global,
    book: &Book,
    spot: Spot,
    ids: &PlacedIds,
    dues: &mut Vec<Due>,
) -> Result<(), NoMemory>
    requires { IsSpot book.now.entries spot }
    ensures { OnOk result ((weight : Due → ℕ) → total weight dues.new.items
        ≡ total weight dues.old.items + total (dues_weight book.now.entries spot weight) ids.now.ids) }
{
    let mut number = ids.last(spot.table);
    while number > 0 {
        push_id(alloc, book, spot, ids.numbered(number).id, dues)?;
        number = ids.before(number);
    }
    Ok(())
}

fn dues_then(alloc: Global, book: &Book, spot: Spot) -> Result<Vec<Due>, NoMemory>
    requires { IsSpot book.now.entries spot }
    ensures { IfOk result (λ dues. (weight : Due → ℕ) → total weight dues.items
        ≡ total weight (dues_in (state_of (take spot.position book.now.entries)) spot.table)) }
{
    let past = book.past();
    let pending = past.pending.of_table(spot.table);
    let mut dues = Vec::new(alloc);
    push_ids(alloc, book, spot, pending, &mut dues)?;
    push_ended(alloc, book, spot, &past.aborted, &mut dues)?;
    push_ended(alloc, book, spot, &past.committed, &mut dues)?;
    Ok(dues)
}

/// What the commits of a table said at a place of the book, from 0: the entries before it count. Each is there as often as the
/// definition has it; their order is that in which the write ids' transactions ended, the last first, and means nothing. It walks the
/// write ids of the table alone.
///
/// # Errors
/// `NoMemory` where memory lacked.
pub fn dues_at(
    alloc: Global,
    book: &Book,
    position: usize,
    table: TableId,
) -> Result<Vec<Due>, NoMemory>
    ensures dues { IfOk result (λ dues. (weight : Due → ℕ) → total weight dues.items
        ≡ total weight (dues_in (state_of (take position book.now.entries)) table.0)) }
{
    let spot = spot_at(alloc, book, position, table)?;
    dues_then(alloc, book, spot)
}
