ghost use Rattle.std.specs.Prelude.{◌≡◌, ℕ, ◌+◌, ◌≤◌, ◌<◌, List, length, None, IfOk, IfSome};
ghost use Rattle.std.specs.List.{list_all};
ghost use Rattle.hv_dirs.specs.Names.{write_end};
ghost use Rattle.hv_stands.specs.Files.{own_place};
ghost use Rattle.hv_table_rows.specs.Reading.{Sheet};
ghost use Rattle.hv_table_rows.specs.Damage.{no_offset};
ghost use Rattle.hv_counts.specs.Counts.{AreOwn, IsCounted};
ghost use Rattle.hv_counts.specs.Miscounts.{is_own, is_own_file, AreCounted, IsFileAt, IsMiscounted};

use crate::beside::tallies_of;
use crate::counted::Counted;
use crate::due::Due;
use crate::level::first_off;
use crate::tally::{Tally, tallies_rising};
use hv_base::{Duplicate, NoMemory, TableId, Text, WriteId};
use hv_choosing::{Dir, DirFile};
use hv_dirs::{DirName, print_name};
use hv_shelf::Place;
use std::alloc::Global;

/// What is told of files that don't have so many records as commits say: the place of the last of them, and its length.
#[derive(Drop)]
pub struct Miscount {
    pub place: Place,
    pub at: u64,
}

fn is_own(dir: Dir) -> bool
    ensures { result ≡ is_own dir }
{
    match dir {
        Dir::Own { .. } => true,
        Dir::Base { .. } | Dir::Wide { .. } => false,
    }
}

/// Whether each of these files stands in an own directory.
pub fn are_own(files: &[DirFile]) -> bool
    ensures { result ≡ list_all is_own_file files.now }
{
    for file in files {
        if !is_own(file.dir) {
            return false;
        }
    }
    true
}

/// The most write ids that a directory's name can say.
const WRITE_END: u64 = 10_000_000;

/// The first bucket of the own directory of a write id in a partition, where no file stands. A write id that no directory can have
/// counts as want of memory: no legal book gives one.
fn missing(
    alloc: Global,
    deletes: bool,
    table: TableId,
    write: u64,
    partition: &Text,
) -> Result<Miscount, NoMemory>
    ensures place { IfOk result (λ told. told.place ≡ own_place table.0 partition.now deletes write 0) }
    ensures at { IfOk result (λ told. told.at ≡ no_offset) }
{
    if write == 0 || write >= WRITE_END {
        return Err(NoMemory);
    }
    let name = DirName::Own {
        deletes,
        write: WriteId(write),
        statement: 0,
    };
    let place = Place {
        table,
        partition: partition.duplicate(alloc)?,
        dir: print_name(alloc, &name)?,
        bucket: 0,
    };
    Ok(Miscount {
        place,
        at: u64::MAX,
    })
}

/// The file at this place of these.
fn standing(
    alloc: Global,
    files: &[DirFile],
    counts: &[Counted],
    at: usize,
) -> Result<Miscount, NoMemory>
    requires there { at < length files.now }
    requires counts { length counts.now ≡ length files.now }
    ensures { IfOk result (λ told. IsFileAt files.now counts.now at told.place told.at) }
{
    Ok(Miscount {
        place: files[at].place.duplicate(alloc)?,
        at: counts[at].bytes,
    })
}

/// What is told of the files of one write id and partition, of which this is the last.
fn told_of(
    alloc: Global,
    deletes: bool,
    table: TableId,
    files: &[DirFile],
    counts: &[Counted],
    tally: &Tally,
) -> Result<Miscount, NoMemory>
    requires there { tally.now.file ≤ length files.now }
    requires counts { length counts.now ≡ length files.now }
    ensures missing { IfOk result (λ told. tally.now.file ≡ 0
        → told.place ≡ own_place table.0 tally.now.partition deletes tally.now.write 0) }
    ensures nowhere { IfOk result (λ told. tally.now.file ≡ 0 → told.at ≡ no_offset) }
    ensures standing { IfOk result (λ told. (n : ℕ) → tally.now.file ≡ n + 1
        → IsFileAt files.now counts.now n told.place told.at) }
{
    if tally.file == 0 {
        missing(alloc, deletes, table, tally.write, &tally.partition)
    } else {
        standing(alloc, files, counts, tally.file as usize - 1)
    }
}

/// The first write id and partition of which the files of a kind that were read don't have so many records as the commits say, by what
/// is told of it. None where all have, or a file stands in no own directory.
///
/// # Errors
/// `NoMemory` where memory lacked.
pub fn first_miscount(
    alloc: Global,
    deletes: bool,
    table: TableId,
    files: &[DirFile],
    counts: &[Counted],
    dues: &[Due],
) -> Result<Option<Miscount>, NoMemory>
    requires { length counts.now ≡ length files.now }
    ensures counted { (sheets : List Sheet) → AreCounted deletes files.now counts.now sheets
        → IfOk result (λ found. found ≡ None → AreOwn files.now → IsCounted deletes dues.now sheets) }
    ensures miscounted { (sheets : List Sheet) → AreCounted deletes files.now counts.now sheets
        → IfOk result (λ found. IfSome found (λ told. IsMiscounted deletes table.0 dues.now sheets told.place told.at)) }
{
    if !are_own(files) {
        return Ok(None);
    }
    let tallies = tallies_rising(tallies_of(alloc, deletes, files, counts, dues)?)?;
    match first_off(&tallies) {
        Some(tally) => Ok(Some(told_of(alloc, deletes, table, files, counts, tally)?)),
        None => Ok(None),
    }
}
