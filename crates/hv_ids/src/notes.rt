/// A write id of a table, and the number of the transaction that it was given to.
#[derive(Clone, Copy)]
pub struct IdNote {
    pub table: u64,
    pub write: u64,
    pub txn: u64,
}

/// A write id, and the place of an entry: of the one that gave it, or of the one that ended its transaction.
#[derive(Clone, Copy)]
pub struct PlacedId {
    pub id: IdNote,
    pub at: u64,
}
