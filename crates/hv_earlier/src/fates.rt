ghost use Rattle.std.specs.Prelude.{◌≡◌};
ghost use Rattle.hv_meta.specs.hv_book.specs.hv_history.specs.State.{numbered};
ghost use Rattle.hv_earlier.specs.Places.{fate_then, fate_in};

use hv_meta::hv_book::hv_history::numbered;
use hv_meta::hv_book::{End, TransactionNote};

/// How a transaction stands.
#[derive(Clone, Copy)]
pub enum Fate {
    Open,
    Committed,
    Aborted,
}

/// How a transaction stood at a place, by how it ended.
fn fate_then(position: u64, ending: Option<End>) -> Fate
    ensures { result ≡ fate_then position ending }
{
    match ending {
        Some(end) => {
            if end.at >= position {
                Fate::Open
            } else if end.committed {
                Fate::Committed
            } else {
                Fate::Aborted
            }
        }
        None => Fate::Open,
    }
}

/// How the transaction of that number stood at a place, behind so many transactions.
pub fn fate_in(
    notes: &[TransactionNote],
    position: u64,
    transactions: u64,
    txn: u64,
) -> Option<Fate>
    ensures { result ≡ fate_in position transactions txn (numbered notes.now txn) }
{
    match numbered(notes, txn) {
        Some(note) => {
            if txn <= transactions {
                Some(fate_then(position, note.ending))
            } else {
                None
            }
        }
        None => None,
    }
}
