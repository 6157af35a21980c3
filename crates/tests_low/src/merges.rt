//! The rows that a reader sees in files of rows of one INT.
ghost use Rattle.std.specs.Prelude.{map, None, OnOk};
ghost use Rattle.std.specs.List.{AllByRecursion};
ghost use Rattle.hv_rowfile.specs.Layout.{RisesFrom};

use crate::words::{number, piece};
use hv_base::{List, NoMemory, RowId, WriteId};
use hv_merge::{merge, rises};
use hv_rowfile::Rec;
use hv_value::{Row, Value};
use hv_wids::{Exception, WriteIdList};
use std::alloc::Global;

/// A record of a row's WRITE.STATEMENT.ROW.VALUE, or of a delete's WRITE.STATEMENT.ROW.DELETER.
fn record(alloc: Global, text: &str, deletes: bool) -> Result<Rec, NoMemory> {
    let mut numbers = text.split('.').map(|word| word.parse::<u16>().unwrap_or(0));
    let id = RowId {
        write: WriteId(u64::from(numbers.next().unwrap_or(0))),
        statement: u32::from(numbers.next().unwrap_or(0)),
        bucket: 0,
        row: u64::from(numbers.next().unwrap_or(0)),
    };
    let last = numbers.next().unwrap_or(0);
    if deletes {
        let by = WriteId(u64::from(last));
        return Ok(Rec::Delete { id, by });
    }
    let values = List::from_vec(vec![in alloc; Value::Int(i32::from(last))]?);
    let row = Row { values };
    Ok(Rec::Insert { id, row })
}

fn file(alloc: Global, text: &str, deletes: bool) -> Result<Vec<Rec>, NoMemory> {
    let mut recs = Vec::new(alloc);
    for word in text.split(' ') {
        if !word.is_empty() {
            recs.push(record(alloc, word, deletes)?)?;
        }
    }
    Ok(recs)
}

/// The files of deletes, with a slash behind each.
fn deletes(alloc: Global, text: &str) -> Result<Vec<Vec<Rec>>, NoMemory> {
    let mut files = Vec::new(alloc);
    for part in text.split('/') {
        files.push(file(alloc, part, true)?)?;
    }
    let _behind = files.pop();
    Ok(files)
}

/// Writes up to `high`, of which one may be open.
fn list_of(alloc: Global, high: u64, open: u64) -> Result<WriteIdList, NoMemory> {
    let mut exceptions = Vec::new(alloc);
    if 0 < open && open <= high {
        exceptions.push(Exception {
            write: WriteId(open),
            aborted: false,
        })?;
    }
    Ok(WriteIdList::new(WriteId(high), exceptions))
}

// A file more, where it rises.
fn put_file(files: &mut Vec<Vec<Rec>>, file: Vec<Rec>) -> Result<(), NoMemory>
    requires rise { AllByRecursion (RisesFrom None) (map (λ file. file.items) files.old.items) }
    ensures rise { AllByRecursion (RisesFrom None) (map (λ file. file.items) files.new.items) }
{
    if rises(&file) {
        files.push(file)?;
    }
    Ok(())
}

/// Of a highest write, an open one, files and files of deletes, each with a slash behind it: the rows that are seen.
pub fn answer(alloc: Global, out: &mut String, words: &[&str]) -> Result<(), NoMemory> {
    let list = list_of(alloc, number(words, 0), number(words, 1))?;
    let deletes = deletes(alloc, piece(words, 3))?;
    let mut files = Vec::new(alloc);
    for part in piece(words, 2).split('/') {
        put_file(&mut files, file(alloc, part, false)?)?;
    }
    for shown in merge(alloc, files, &deletes, &list)? {
        let RowId {
            write,
            statement,
            row,
            ..
        } = shown.id;
        write!(
            out,
            "{}.{statement}.{row} {:?} ",
            write.0,
            shown.row.values.as_slice()
        )?;
    }
    Ok(())
}
