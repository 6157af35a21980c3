use hv_base::TxnId;

/// A commit, by its transaction, and the place among a transaction's touches of the first one that
/// conflicts with what the commit wrote.
#[derive(Clone, Copy)]
pub struct Clash {
    pub by: TxnId,
    pub at: usize,
}
