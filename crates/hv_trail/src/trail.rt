use hv_base::{JobId, Text, TxnId};
use hv_book::hv_history::Entry;
use hv_shelf::{DirAt, Place};

/// Who reads and writes files: a transaction, or a compaction job.
#[derive(Clone, Copy)]
pub enum Reader {
    Txn(TxnId),
    Job(JobId),
}

/// What happened to a store's files and stands in no journal.
#[derive(Drop)]
pub enum Mark {
    /// A file was put at this place.
    Wrote {
        by: Reader,
        place: Place,
    },
    /// The files of this directory were taken away.
    Went {
        dir: DirAt,
    },
    /// A call on files failed. `put` is whether it was to put a file, `count` the store's count of faults behind it.
    Broke {
        by: Option<Reader>,
        put: bool,
        count: u64,
    },
}

/// What happened to a house, in order: an entry of its book, or a mark.
#[derive(Drop)]
pub enum TrailItem {
    Noted(Entry),
    Marked(Mark),
}

/// A directory, and the name that it is given.
#[derive(Drop)]
pub struct Renaming {
    pub from: DirAt,
    pub to: Text,
}
