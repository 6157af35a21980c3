ghost use Rattle.std.specs.Prelude.{◌≡◌, ◌+◌, ◌<◌, ◌++◌, ◌∷◌, [], length, map, IfOk, OnOk};
ghost use Rattle.hv_counts.specs.Counts.{due_rows};
ghost use Rattle.hv_counts.specs.Miscounts.{own_write, file_tally, file_tallies, due_tally};

use crate::counted::Counted;
use crate::due::Due;
use crate::tally::Tally;
use hv_base::{Duplicate, NoMemory};
use hv_choosing::{Dir, DirFile};
use std::alloc::Global;

/// The write id of an own directory.
fn own_write(dir: Dir) -> Option<u64>
    ensures { result ≡ own_write dir }
{
    match dir {
        Dir::Own { write, .. } => Some(write.0),
        Dir::Base { .. } | Dir::Wide { .. } => None,
    }
}

/// Appends what a file in an own directory has, under its number.
fn push_file(
    alloc: Global,
    number: u64,
    file: &DirFile,
    counted: Counted,
    tallies: &mut Vec<Tally>,
) -> Result<(), NoMemory>
    ensures { OnOk result (tallies.new.items ≡ tallies.old.items ++ file_tally number file.now counted) }
{
    if let Some(write) = own_write(file.dir) {
        let partition = file.place.partition.duplicate(alloc)?;
        tallies.push(Tally {
            write,
            partition,
            file: number,
            stored: counted.rows,
            due: 0,
        })?;
    }
    Ok(())
}

/// Appends what these files have, numbered from 1.
fn push_files(
    alloc: Global,
    files: &[DirFile],
    counts: &[Counted],
    tallies: &mut Vec<Tally>,
) -> Result<(), NoMemory>
    requires { length counts.now ≡ length files.now }
    ensures { OnOk result (tallies.new.items ≡ tallies.old.items ++ file_tallies 1 files.now counts.now) }
{
    for (i, file) in files.iter().enumerate() {
        push_file(alloc, i as u64 + 1, file, counts[i], tallies)?;
    }
    Ok(())
}

fn due_rows(deletes: bool, due: &Due) -> u64
    ensures { result ≡ due_rows deletes due.now }
{
    if deletes { due.deleted } else { due.inserted }
}

/// Appends what commits say.
fn push_dues(
    alloc: Global,
    deletes: bool,
    dues: &[Due],
    tallies: &mut Vec<Tally>,
) -> Result<(), NoMemory>
    ensures { OnOk result (tallies.new.items ≡ tallies.old.items ++ map (due_tally deletes) dues.now) }
{
    for due in dues {
        let partition = due.partition.duplicate(alloc)?;
        tallies.push(Tally {
            write: due.write,
            partition,
            file: 0,
            stored: 0,
            due: due_rows(deletes, due),
        })?;
    }
    Ok(())
}

/// What these files have, and what commits say of their kind.
pub fn tallies_of(
    alloc: Global,
    deletes: bool,
    files: &[DirFile],
    counts: &[Counted],
    dues: &[Due],
) -> Result<Vec<Tally>, NoMemory>
    requires { length counts.now ≡ length files.now }
    ensures { IfOk result (λ tallies. tallies.items
        ≡ file_tallies 1 files.now counts.now ++ map (due_tally deletes) dues.now) }
{
    let mut tallies = Vec::new(alloc);
    push_files(alloc, files, counts, &mut tallies)?;
    push_dues(alloc, deletes, dues, &mut tallies)?;
    Ok(tallies)
}
