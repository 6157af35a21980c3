use hv_base::{List, TableId, Text, Touch, TxnId};
use hv_shelf::Place;

/// What is printed for a statement, whether it was refused, and the place in the book of the entry that ended its
/// transaction; None for a statement that was never opened.
#[derive(Drop)]
pub struct Reply {
    pub text: List<u8>,
    pub refused: bool,
    pub ended: Option<u64>,
}

/// A started statement: its transaction, and the place of its Start in the book.
#[derive(Clone, Copy)]
pub struct Way {
    pub txn: TxnId,
    pub place: u64,
}

/// What is noted where a statement ends.
#[derive(Drop)]
pub enum End {
    /// A commit with these touches, in the table of that name, of the files at these places.
    Commit(List<Touch>, Text, List<Place>),
    /// The table that it makes.
    Create,
    /// The table that it drops.
    Drop(TableId),
}

/// A statement of which all is done but its end: what is to be noted, and its reply then.
#[derive(Drop)]
pub struct Ready {
    pub end: End,
    pub text: List<u8>,
}
