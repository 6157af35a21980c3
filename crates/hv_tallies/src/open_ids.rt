ghost use Rattle.std.specs.Prelude.{◌≡◌};
ghost use Rattle.hv_jobs.specs.hv_history.specs.State.{state_of, numbered};
ghost use Rattle.hv_jobs.specs.hv_history.specs.Jobs.{is_open_one};
ghost use Rattle.hv_earlier.specs.hv_meta.specs.hv_book.specs.Notes.{is_open_note};

use hv_earlier::hv_meta::hv_book::{Book, TransactionNote};
use hv_jobs::hv_history::numbered;

fn is_open_note(notes: &[TransactionNote], txn: u64) -> bool
    ensures { result ≡ is_open_note (numbered notes.now txn) }
{
    match numbered(notes, txn) {
        Some(note) => note.ending.is_none(),
        None => false,
    }
}

/// Whether the transaction of that number is open.
pub fn is_open(book: &Book, txn: u64) -> bool
    ensures { result ≡ is_open_one (numbered (state_of book.now.entries).transactions txn) }
{
    is_open_note(book.transactions(), txn)
}
