ghost use Rattle.std.specs.Prelude.{◌≡◌, ℕ, ◌+◌, ◌<◌, ◌++◌, OnOk};
ghost use Rattle.std.specs.List.{list_any, flat_map};
ghost use Rattle.hv_meta.specs.hv_book.specs.Past.{total, PlacesRise};
ghost use Rattle.hv_earlier.specs.Places.{is_forgot, exception_then, exceptions_of, ended_exceptions, weight_from};

use crate::fates::{Fate, fate_in};
use hv_base::{NoMemory, WriteId};
use hv_ids::{IdNote, PlacedId, PlacedIds};
use hv_meta::hv_book::{ForgotNote, TransactionNote};
use hv_wids::Exception;

/// Where a list is asked: the place, the table, how many ids of it were given before that place, and how
/// many transactions were opened.
#[derive(Clone, Copy)]
pub struct Spot {
    pub position: u64,
    pub table: u64,
    pub high: u64,
    pub transactions: u64,
}

fn is_forgot(note: &ForgotNote, spot: Spot, write: u64) -> bool
    ensures { result ≡ is_forgot spot write note.now }
{
    note.table == spot.table && note.at < spot.position && note.write == write
}

fn is_forgotten(forgotten: &[ForgotNote], spot: Spot, write: u64) -> bool
    ensures { result ≡ list_any (is_forgot spot write) forgotten.now }
{
    for note in forgotten {
        if is_forgot(note, spot, write) {
            return true;
        }
    }
    false
}

/// Puts a write id behind the exceptions, where it was one.
fn put_exception(
    exceptions: &mut Vec<Exception>,
    forgotten: &[ForgotNote],
    spot: Spot,
    write: u64,
    fate: Option<Fate>,
) -> Result<(), NoMemory>
    ensures { OnOk result (exceptions.new.items
        ≡ exceptions.old.items ++ exception_then forgotten.now spot write fate) }
{
    let write_id = WriteId(write);
    match fate {
        Some(Fate::Open) => exceptions.push(Exception {
            write: write_id,
            aborted: false,
        })?,
        Some(Fate::Aborted) => {
            if !is_forgotten(forgotten, spot, write) {
                exceptions.push(Exception {
                    write: write_id,
                    aborted: true,
                })?;
            }
        }
        Some(Fate::Committed) | None => {}
    }
    Ok(())
}

#[tactic(auto, unfolding(crate::specs::Places::exceptions_of))]
fn put_id(
    exceptions: &mut Vec<Exception>,
    notes: &[TransactionNote],
    forgotten: &[ForgotNote],
    spot: Spot,
    id: IdNote,
) -> Result<(), NoMemory>
    ensures { OnOk result (exceptions.new.items
        ≡ exceptions.old.items ++ exceptions_of notes.now forgotten.now spot id) }
{
    if id.table == spot.table && id.write <= spot.high {
        let fate = fate_in(notes, spot.position, spot.transactions, id.txn);
        put_exception(exceptions, forgotten, spot, id.write, fate)?;
    }
    Ok(())
}

/// Puts those of these ids behind the exceptions that were some.
pub fn put_ids(
    exceptions: &mut Vec<Exception>,
    notes: &[TransactionNote],
    forgotten: &[ForgotNote],
    spot: Spot,
    ids: &[IdNote],
) -> Result<(), NoMemory>
    ensures { OnOk result (exceptions.new.items
        ≡ exceptions.old.items ++ flat_map (exceptions_of notes.now forgotten.now spot) ids.now) }
{
    for id in ids {
        put_id(exceptions, notes, forgotten, spot, *id)?;
    }
    Ok(())
}

#[tactic(auto, unfolding(crate::specs::Places::ended_exceptions))]
fn put_ended_one(
    exceptions: &mut Vec<Exception>,
    notes: &[TransactionNote],
    forgotten: &[ForgotNote],
    spot: Spot,
    ended: PlacedId,
) -> Result<(), NoMemory>
    ensures { OnOk result (exceptions.new.items
        ≡ exceptions.old.items ++ ended_exceptions notes.now forgotten.now spot ended) }
{
    put_id(exceptions, notes, forgotten, spot, ended.id)
}

/// The same of ids of the table whose transactions ended, from a place on. It walks these alone, the last
/// first.
pub fn put_ended(
    exceptions: &mut Vec<Exception>,
    notes: &[TransactionNote],
    forgotten: &[ForgotNote],
    spot: Spot,
    ids: &PlacedIds,
    from: u64,
) -> Result<(), NoMemory>
    requires rising { 0 < from → PlacesRise ids.now.ids }
    ensures put { OnOk result ((weight : Exception → ℕ) → total weight exceptions.new.items
        ≡ total weight exceptions.old.items + total (weight_from notes.now forgotten.now spot from weight) ids.now.ids) }
{
    let mut number = ids.last(spot.table);
    while number > 0 {
        let ended = ids.numbered(number);
        if ended.at < from {
            return Ok(());
        }
        put_ended_one(exceptions, notes, forgotten, spot, ended)?;
        number = ids.before(number);
    }
    Ok(())
}
