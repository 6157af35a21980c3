use hv_base::TxnId;
use hv_telling::hv_house::HouseFault;
use thiserror::Error;

/// Why an act of a transaction was refused.
#[derive(Clone, Copy, Debug, Error)]
pub enum ActFault {
    /// The transaction was ended, by the entry at this place.
    #[error("the transaction has ended")]
    Ended { at: u64 },
    /// There is no room for what the act notes: the book has so many entries.
    #[error("the journal is full")]
    Full { entries: u64 },
    /// Its Start has to wait: this is the lowest open started transaction that holds a lock against its statement.
    #[error("another transaction holds a lock")]
    Held { by: TxnId },
    /// A call on files failed for the transaction: whether it was to put a file, and the store's count of faults then.
    #[error("a call on files failed before")]
    Broken { put: bool, count: u64 },
    /// It does not fit the book for another reason.
    #[error("it does not fit")]
    Unfit,
    /// The house's call failed. It is `Store` too where the house was closed before.
    #[error("the house failed")]
    House(HouseFault),
}

/// Why a statement was not begun.
#[derive(Clone, Copy, Debug, Error)]
pub enum BeginFault {
    /// It has to wait: this is the lowest open started transaction that holds a lock against it.
    #[error("another transaction holds a lock")]
    Held { by: TxnId },
    /// There is no room for its beginning and its end: the book has so many entries.
    #[error("the journal is full")]
    Full { entries: u64 },
    /// The house's call failed. It is `Store` too where the house was closed before.
    #[error("the house failed")]
    House(HouseFault),
}
