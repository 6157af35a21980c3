//! Stores in memory: houses over them, copies, and files that are laid into them.
ghost use Rattle.std.specs.Prelude.{◌≡◌, IsOk, IfOk, OnOk};
ghost use Rattle.tests_house.specs.Asking.{told_memory, IsOpen};

use crate::house::{boot, leave};
use crate::words::{cut, number};
use hv_base::{Limits, NoMemory, TableId, Text};
use hv_journal::next_record;
use hv_session::hv_beginning::hv_steps::hv_table_reader::hv_acts::hv_telling::hv_house::House;
use hv_shelf::{MemoryShelf, Place, Shelf};
use std::alloc::Global;
use std::io;
use std::io::ErrorKind;

/// A house over an empty store, with room for so many entries.
pub(crate) fn fresh(alloc: Global, limits: Limits) -> io::Result<House<MemoryShelf>>
    ensures ready { IfOk result (IsOpen told_memory) }
{
    let Ok(store) = MemoryShelf::new(alloc, Vec::new(alloc)) else {
        return Err(ErrorKind::OutOfMemory.into());
    };
    match boot(alloc, store, limits) {
        Ok(house) => Ok(house),
        Err((_, store)) => {
            leave(store);
            Err(ErrorKind::Other.into())
        }
    }
}

/// The house, where that went well; else it is closed.
pub(crate) fn kept(
    house: House<MemoryShelf>,
    done: io::Result<()>,
) -> io::Result<House<MemoryShelf>>
    ensures same { IfOk result (λ kept. kept ≡ house) }
    ensures went { OnOk result (IsOk done) }
{
    match done {
        Ok(()) => Ok(house),
        Err(why) => {
            leave(house.close());
            Err(why)
        }
    }
}

/// A store with this journal, and with the files of another one.
fn with_journal(alloc: Global, journal: &[u8], store: &MemoryShelf) -> io::Result<MemoryShelf> {
    let Ok(mut copy) = MemoryShelf::new(alloc, Vec::new(alloc)) else {
        return Err(ErrorKind::OutOfMemory.into());
    };
    let mut whole = copy.journal_write(0, journal).is_ok();
    for (place, bytes) in store.files() {
        whole &= copy.put(place, bytes.as_slice()).is_ok();
    }
    if whole {
        Ok(copy)
    } else {
        leave(copy);
        Err(ErrorKind::OutOfMemory.into())
    }
}

/// A store with the same journal and the same files.
pub(crate) fn copied(alloc: Global, store: &MemoryShelf) -> io::Result<MemoryShelf> {
    with_journal(alloc, store.journal(), store)
}

/// What stands in a journal behind its first records, so many.
fn behind(alloc: Global, journal: &[u8], records: u64) -> io::Result<&[u8]> {
    let mut rest = journal;
    for _ in 0..records {
        match next_record(alloc, rest, 0) {
            Ok(Some((entry, after))) => {
                leave(entry);
                rest = after;
            }
            Ok(None) => return Err(ErrorKind::Other.into()),
            Err(_) => return Err(ErrorKind::Other.into()),
        }
    }
    Ok(rest)
}

/// A store with the same files, in whose journal the first entries stand alone, so many.
pub(crate) fn copied_front(
    alloc: Global,
    store: &MemoryShelf,
    entries: u64,
) -> io::Result<MemoryShelf> {
    let journal = store.journal();
    let rest = behind(alloc, journal, entries)?;
    let front = journal
        .get(..journal.len().saturating_sub(rest.len()))
        .unwrap_or(&[]);
    let mut bytes = Vec::from_slice(alloc, front)?;
    bytes.push(0)?;
    with_journal(alloc, &bytes, store)
}

/// Lays the file of a line into a store, and says whether it stands there: `TABLE PARTITION DIRECTORY BUCKET BYTES`.
pub(crate) fn lay(alloc: Global, store: &mut MemoryShelf, line: &str) -> Result<bool, NoMemory> {
    let (table, line) = cut(line, ' ');
    let (partition, line) = cut(line, ' ');
    let (dir, line) = cut(line, ' ');
    let (bucket, bytes) = cut(line, ' ');
    let Ok(bytes) = hex::decode(alloc, bytes.as_bytes()) else {
        return Ok(false);
    };
    let place = Place {
        table: TableId(number(table)),
        partition: Text::of(alloc, partition)?,
        dir: Text::of(alloc, dir)?,
        bucket: bucket.parse::<u32>().unwrap_or(0),
    };
    Ok(store.put(&place, &bytes).is_ok())
}
