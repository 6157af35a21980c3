//! What a table was at a place of the book, and which transactions had committed there.

ghost use Rattle.std.specs.Prelude.{◌≡◌, Some, IfOk, length, map, take};
ghost use Rattle.hv_history.specs.State.{state_of, numbered};
ghost use Rattle.hv_earlier.specs.Fates.{fate_of};
ghost use Rattle.hv_earlier.specs.Places.{fate_then, fate_in};
ghost use Rattle.hv_counts.specs.Places.{is_done, IsSpot};

use hv_base::{NoMemory, TableId};
use hv_book::{Book, End, TransactionNote};
use hv_earlier::ids_at;
use hv_history::numbered;
use std::alloc::Global;

/// A place of a book and a table, with how many write ids of it were given before the place, and how many transactions were opened.
#[derive(Clone, Copy)]
pub struct Spot {
    pub position: u64,
    pub table: u64,
    pub high: u64,
    pub transactions: u64,
}

/// How many transactions were opened before a place, by binary search.
fn opened_at(book: &Book, position: usize) -> u64
    ensures { result ≡ length (state_of (take position book.now.entries)).transactions }
{
    let place = position as u64;
    book.opened().partition_point(|at| *at < place) as u64
}

/// A place, and what the table of this number was there.
pub fn spot_at(
    alloc: Global,
    book: &Book,
    position: usize,
    table: TableId,
) -> Result<Spot, NoMemory>
    ensures spot { IfOk result (λ spot. IsSpot book.now.entries spot) }
    ensures position { IfOk result (λ spot. spot.position ≡ position) }
    ensures table { IfOk result (λ spot. spot.table ≡ table.0) }
{
    let ids = ids_at(alloc, book, position, table)?;
    Ok(Spot {
        position: position as u64,
        table: table.0,
        high: ids.given,
        transactions: opened_at(book, position),
    })
}

/// Whether a transaction that ended so had committed before a place.
fn was_done(position: u64, ending: Option<End>) -> bool
    ensures { result ≡ is_done (Some (fate_then position ending)) }
{
    match ending {
        Some(end) => {
            if end.at < position {
                end.committed
            } else {
                false
            }
        }
        None => false,
    }
}

fn is_done(notes: &[TransactionNote], spot: Spot, txn: u64) -> bool
    ensures { result ≡ is_done (fate_in spot.position spot.transactions txn (numbered notes.now txn)) }
{
    match numbered(notes, txn) {
        Some(note) => {
            if txn <= spot.transactions {
                was_done(spot.position, note.ending)
            } else {
                false
            }
        }
        None => false,
    }
}

/// Whether the transaction of that number had committed before the place.
pub fn had_committed(book: &Book, spot: Spot, txn: u64) -> bool
    requires { IsSpot book.now.entries spot }
    ensures { result
        ≡ is_done (numbered (map fate_of (state_of (take spot.position book.now.entries)).transactions) txn) }
{
    is_done(book.transactions(), spot, txn)
}
