//! Ids and links of several tables, the places of names, and digits.
ghost use Rattle.std.specs.Prelude.{◌≡◌};

use crate::words::piece;
use hv_base::NoMemory;
use hv_ids::{IdNote, PendingIds, PlacedId, PlacedIds};
use hv_links::Links;
use hv_table::{Digits, Names};
use std::alloc::{AllocError, Global};

fn id(table: u64, write: u64, txn: u64) -> IdNote
    ensures { result ≡ record { table = table; write = write; txn = txn } }
{
    IdNote { table, write, txn }
}

/// How many ids each table has.
fn counts(out: &mut String, pending: &PendingIds) -> Result<(), AllocError> {
    for table in 0..5 {
        write!(out, "{} ", pending.of_table(table).len())?;
    }
    Ok(())
}

fn pending(alloc: Global, out: &mut String) -> Result<(), NoMemory> {
    let mut pending = PendingIds::new(alloc);
    for (table, write, txn) in [(2, 1, 1), (1, 1, 2), (2, 2, 2), (3, 1, 3)] {
        pending.reserve(1)?;
        pending.add(id(table, write, txn));
    }
    counts(out, &pending)?;
    pending.take_out(2);
    counts(out, &pending)?;
    Ok(())
}

fn placed(alloc: Global, out: &mut String) -> Result<(), NoMemory> {
    let mut placed = PlacedIds::new(alloc);
    placed.reserve(3, 2)?;
    placed.add_table();
    placed.add_table();
    placed.add(PlacedId {
        id: id(1, 1, 1),
        at: 5,
    });
    placed.add(PlacedId {
        id: id(2, 1, 2),
        at: 6,
    });
    placed.add(PlacedId {
        id: id(1, 2, 3),
        at: 9,
    });
    let last = (placed.last(1), placed.last(2));
    Ok(write!(out, "{last:?} {} {}", placed.before(3), placed.before(1))?)
}

fn links(alloc: Global, out: &mut String) -> Result<(), NoMemory> {
    let mut links = Links::new(alloc);
    links.reserve(4, 2)?;
    links.add_group();
    links.add_group();
    links.add(2);
    links.add(1);
    links.add(2);
    links.add(2);
    for number in 0..6 {
        write!(out, "{} {}, ", links.last(number), links.before(number))?;
    }
    Ok(())
}

const DIRECTIONS: Names<3> = Names {
    rows: ["asc", "desc", "a"],
};

fn print(out: &mut String) -> Result<(), AllocError> {
    let seven = Digits::<7>::print(12);
    let one = Digits::<1>::print(9);
    let most = Digits::<18>::print(999_999_999_999_999_999);
    write!(out, "{seven:?} {one:?} {most:?}")
}

fn read(out: &mut String) -> Result<(), AllocError> {
    let seven = Digits::<7>::read(b"0000120");
    let most = Digits::<18>::read(b"123456789012345678");
    let letter = Digits::<4>::read(b"12a4");
    let space = Digits::<4>::read(b"12 4");
    let beside = Digits::<2>::read(b"/:");
    write!(out, "{seven:?} {most:?} {letter:?} {space:?} {beside:?}")
}

pub fn answer(alloc: Global, out: &mut String, call: &str, words: &[&str]) -> Result<(), NoMemory> {
    match call {
        "pending" => pending(alloc, out),
        "placed" => placed(alloc, out),
        "links" => links(alloc, out),
        _ => Ok(match call {
            "find" => write!(out, "{:?}", DIRECTIONS.find(piece(words, 0))),
            "print" => print(out),
            "read" => read(out),
            _ => Ok(()),
        }?),
    }
}
