//! What is printed of the book and of the files.
use crate::words::{add, add_number, add_numbers};
use hv_base::{JobId, TableId, TxnId, WriteId};
use hv_book::Book;
use hv_history::{Cause, Entry, JobCause};
use hv_shelf::MemoryShelf;
use std::alloc::Global;
use std::io;

/// A write id that was given.
fn add_given(
    alloc: Global,
    said: &mut String,
    txn: TxnId,
    table: TableId,
    write: WriteId,
) -> io::Result<()> {
    add_numbers(alloc, said, "give ", txn.0, " ", table.0)?;
    add_number(alloc, said, ".", write.0)
}

/// An abort, with its cause.
fn add_abort(alloc: Global, said: &mut String, txn: TxnId, cause: &Cause) -> io::Result<()> {
    add_number(alloc, said, "abort ", txn.0)?;
    let why = match cause {
        Cause::Lost => " lost",
        Cause::Memory => " memory",
        _ => " else",
    };
    add(said, why)
}

/// A compaction whose directories stand, with the range that they cover.
fn add_published(
    alloc: Global,
    said: &mut String,
    job: JobId,
    low: WriteId,
    high: WriteId,
) -> io::Result<()> {
    add_numbers(alloc, said, "publish ", job.0, " ", low.0)?;
    add_number(alloc, said, " ", high.0)
}

/// A compaction that failed, with its cause.
fn add_failed(alloc: Global, said: &mut String, job: JobId, cause: &JobCause) -> io::Result<()> {
    add_number(alloc, said, "fail ", job.0)?;
    let why = match cause {
        JobCause::Gone => " gone",
        JobCause::Lost => " lost",
        _ => " else",
    };
    add(said, why)
}

/// An entry of a compaction in short.
fn add_job_entry(alloc: Global, said: &mut String, entry: &Entry) -> io::Result<()> {
    match entry {
        Entry::Asked { job, table, .. } => { add_numbers(alloc, said, "ask ", job.0, " ", table.0) }
        Entry::Picked { job, watermark } => {
            add_numbers(alloc, said, "pick ", job.0, " ", watermark.0)
        }
        Entry::Published { job, low, high, .. } => add_published(alloc, said, *job, *low, *high),
        Entry::Failed { job, cause } => add_failed(alloc, said, *job, cause),
        _ => add(said, "else"),
    }
}

/// An entry in short.
fn add_entry(alloc: Global, said: &mut String, entry: &Entry) -> io::Result<()> {
    match entry {
        Entry::Boot { run } => add_number(alloc, said, "boot ", *run),
        Entry::Opened { txn, .. } => add_number(alloc, said, "open ", txn.0),
        Entry::Start { txn, .. } => add_number(alloc, said, "start ", txn.0),
        Entry::Given { txn, table, write } => add_given(alloc, said, *txn, *table, *write),
        Entry::Commit { txn, wrote } => {
            add_numbers(alloc, said, "commit ", txn.0, " ", wrote.len() as u64)
        }
        Entry::Abort { txn, cause } => add_abort(alloc, said, *txn, cause),
        Entry::Create { txn, table } => { add_numbers(alloc, said, "create ", txn.0, " ", table.0) }
        Entry::Drop { txn, table } => add_numbers(alloc, said, "drop ", txn.0, " ", table.0),
        _ => add_job_entry(alloc, said, entry),
    }
}

/// The entries of a book, in short.
pub(crate) fn add_book(alloc: Global, said: &mut String, book: &Book) -> io::Result<()> {
    let mut mark = "";
    for entry in book.entries() {
        add(said, mark)?;
        add_entry(alloc, said, entry)?;
        mark = ", ";
    }
    Ok(())
}

/// The places of the files that stand.
pub(crate) fn add_files(alloc: Global, said: &mut String, store: &MemoryShelf) -> io::Result<()> {
    let mut more = false;
    for place in store.files().keys() {
        if more {
            add(said, ", ")?;
        }
        let (table, bucket) = (place.table.0, place.bucket);
        let text = format!(in alloc; "{table}/{}/{}/{bucket}", place.partition, place.dir)?;
        add(said, text.as_str())?;
        more = true;
    }
    Ok(())
}
