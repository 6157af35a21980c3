use hv_base::{Text, TxnId};

/// A lock on a table's name.
#[derive(Drop)]
pub struct Lock {
    pub name: Text,
    pub exclusive: bool,
}

/// Whether a transaction has the locks that it asked for.
#[derive(Clone, Copy)]
pub enum LockState {
    Granted,
    Waiting { blocker: TxnId },
}
