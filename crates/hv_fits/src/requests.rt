ghost use Rattle.std.specs.Prelude.{◌≡◌, ◌≢◌, ◌↔◌, ◌==◌, IsTrue};
ghost use Rattle.std.specs.List.{list_any};
ghost use Rattle.std.specs.Option.{option_copied};
ghost use Rattle.hv_history.specs.State.{state_of};
ghost use Rattle.hv_history.specs.Legal.{Of, RequestFits, asks_to_abort};
ghost use Rattle.hv_fits.specs.Texts.{Asks, AsksOther};

use hv_ast::Stmt;
use hv_base::TxnId;
use hv_book::Book;
use hv_meta::{is_running, is_unended};

fn is_among(txns: &[u64], txn: u64) -> bool
    ensures { result ≡ list_any (λ other. other == txn) txns.now }
{
    for other in txns {
        if *other == txn {
            return true;
        }
    }
    false
}

/// Whether the text asks for the abort of this transaction.
fn asks_to_abort(txn: u64, tree: Option<&Stmt>) -> bool
    ensures { result ≡ asks_to_abort txn (option_copied tree.entry) }
{
    match tree {
        Some(Stmt::AbortTransactions(txns)) => is_among(txns.as_slice(), txn),
        _ => false,
    }
}

/// Whether that transaction runs and its text asks for the abort of this one.
fn is_asker(book: &Book, txn: TxnId, by: TxnId) -> bool
    ensures asks { IsTrue result ↔ Of (state_of book.now.entries) by.0 (Asks txn.0) }
{
    let running = is_running(book, by);
    let asks = asks_to_abort(txn.0, book.opening_tree(by.0));
    running && asks
}

/// Whether that transaction is another one, which runs and asks for the abort of this one.
fn is_other_asker(book: &Book, txn: TxnId, by: TxnId) -> bool
    ensures asks { IsTrue result ↔ AsksOther (state_of book.now.entries) txn.0 by.0 }
{
    let asks = is_asker(book, txn, by);
    by.0 != txn.0 && asks
}

/// Whether an abort of this transaction fits the book since that one asks for it.
pub fn request_fits(book: &Book, txn: TxnId, by: TxnId) -> bool
    ensures fits { IsTrue result ↔ Of (state_of book.now.entries) txn.0
        (RequestFits (state_of book.now.entries) txn.0 by.0) }
{
    let unended = is_unended(book, txn);
    let asked = is_other_asker(book, txn, by);
    unended && asked
}
