//! Files with what was counted of them, and what commits say.
use crate::words::{number, piece};
use hv_base::{NoMemory, TableId, Text};
use hv_choosing::{DirFile, list_files};
use hv_counts::{Counted, Due, Miscount, first_miscount};
use hv_shelf::Place;
use std::alloc::Global;

/// What a row says.
#[derive(Drop)]
struct Case {
    places: Vec<Place>,
    counts: Vec<Counted>,
    dues: Vec<Due>,
}

/// `due WRITE PARTITION INSERTED DELETED`.
fn due_of(alloc: Global, words: &[&str]) -> Result<Due, NoMemory> {
    Ok(Due {
        write: number(words, 1),
        partition: Text::of(alloc, piece(words, 2))?,
        inserted: number(words, 3),
        deleted: number(words, 4),
    })
}

/// `file PARTITION DIRECTORY BUCKET ..`.
fn place_of(alloc: Global, words: &[&str]) -> Result<Place, NoMemory> {
    Ok(Place {
        table: TableId(1),
        partition: Text::of(alloc, piece(words, 1))?,
        dir: Text::of(alloc, piece(words, 2))?,
        bucket: piece(words, 3).parse::<u32>().unwrap_or(0),
    })
}

/// Takes an item of a row into the case.
fn take(alloc: Global, item: &str, case: &mut Case) -> Result<(), NoMemory> {
    let words: Vec<&str> = item.split(' ').collect(alloc)?;
    if piece(&words, 0) == "due" {
        case.dues.push(due_of(alloc, &words)?)?;
        return Ok(());
    }
    case.places.push(place_of(alloc, &words)?)?;
    case.counts.push(Counted {
        rows: number(&words, 4),
        bytes: number(&words, 5),
    })?;
    Ok(())
}

fn case_of(alloc: Global, words: &[&str]) -> Result<Case, NoMemory> {
    let mut case = Case {
        places: Vec::new(alloc),
        counts: Vec::new(alloc),
        dues: Vec::new(alloc),
    };
    for item in words.iter().skip(1) {
        take(alloc, item, &mut case)?;
    }
    Ok(case)
}

fn say_told(out: &mut String, told: &Miscount) -> Result<(), NoMemory> {
    let Place {
        partition,
        dir,
        bucket,
        ..
    } = &told.place;
    Ok(write!(out, "{partition} {dir} {bucket} at {}", told.at)?)
}

fn say_count(
    alloc: Global,
    out: &mut String,
    deletes: bool,
    files: &[DirFile],
    counts: &[Counted],
    dues: &[Due],
) -> Result<(), NoMemory> {
    if counts.len() != files.len() {
        return Ok(out.push_str("a directory without a name")?);
    }
    match first_miscount(alloc, deletes, TableId(1), files, counts, dues)? {
        Some(told) => say_told(out, &told),
        None => Ok(out.push_str("counted")?),
    }
}

/// The first miscount of `inserts` or `deletes`, with what commits say, `due WRITE PARTITION INSERTED DELETED`, and the
/// files that were read, `file PARTITION DIRECTORY BUCKET ROWS BYTES`, in any order.
pub fn count(alloc: Global, out: &mut String, words: &[&str]) -> Result<(), NoMemory> {
    let Case {
        places,
        counts,
        dues,
    } = case_of(alloc, words)?;
    let files = list_files(alloc, places)?;
    let deletes = piece(words, 0) == "deletes";
    say_count(alloc, out, deletes, &files, &counts, &dues)
}
