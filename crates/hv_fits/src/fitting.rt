ghost use Rattle.std.specs.Prelude.{◌≡◌, ◌↔◌, ◌++◌, ◌∷◌, [], IsTrue};
ghost use Rattle.std.specs.Option.{option_copied};
ghost use Rattle.hv_history.specs.State.{state_of, nothing_yet};
ghost use Rattle.hv_history.specs.Legal.{Of, OpenedFits, CauseFits, Fits, AllFit};
ghost use Rattle.hv_fits.specs.Texts.{TextsRun, IsTreeOf, IsHanded};

use crate::locks::{blocked_fits, start_fits};
use crate::requests::request_fits;
use hv_ast::Stmt;
use hv_base::{Limits, Text, TxnId};
use hv_book::Book;
use hv_history::{Cause, Entry};
use hv_job_fits::{
    asked_fits, cleaned_fits, empty_fits, failed_fits, forgot_fits, picked_fits, published_fits,
};
use hv_meta::{
    boot_fits, commit_fits, conflict_fits, create_fits, drop_fits, fault_fits, full_fits,
    given_fits, is_running, is_unended, lost_fits, opened_fits,
};

/// Whether an Opened of this number and text fits the book.
fn text_fits(book: &Book, limits: &Limits, txn: TxnId, text: &Text, tree: Option<&Stmt>) -> bool
    requires tree { IsTreeOf text.now (option_copied tree) }
    ensures fits { IsTrue result ↔ OpenedFits limits.now (state_of book.now.entries) txn.0 text.now }
{
    match tree {
        Some(_) => opened_fits(book, limits, txn, text),
        None => false,
    }
}

/// Whether an abort of this transaction for this cause fits the book.
fn abort_fits(book: &Book, limits: &Limits, txn: TxnId, cause: &Cause) -> bool
    requires texts { TextsRun (state_of book.now.entries) }
    ensures fits { IsTrue result ↔ Of (state_of book.now.entries) txn.0
        (CauseFits limits.now (state_of book.now.entries) txn.0 cause.now) }
{
    match cause {
        Cause::Refused { .. } | Cause::Twice { .. } | Cause::Damaged { .. } => is_running(
            book, txn,
        ),
        Cause::RowLimit | Cause::PartitionLimit => is_running(book, txn),
        Cause::Conflict {
            with,
            table,
            partition,
        } => conflict_fits(book, txn, *with, *table, partition),
        Cause::Request { by } => request_fits(book, txn, *by),
        Cause::Full => full_fits(book, limits, txn),
        Cause::Blocked { holder } => blocked_fits(book, txn, *holder),
        Cause::ReadFault { count } => fault_fits(book, txn, *count),
        Cause::WriteFault { count } => fault_fits(book, txn, *count),
        Cause::Memory => is_unended(book, txn),
        Cause::Lost => lost_fits(book, txn),
        Cause::Rollback => false,
    }
}

/// Whether an entry fits, by its kind.
fn is_fitting(book: &Book, limits: &Limits, entry: &Entry, tree: Option<&Stmt>) -> bool
    requires texts { TextsRun (state_of book.now.entries) }
    requires tree { IsHanded entry.now (option_copied tree) }
    ensures fits { IsTrue result ↔ Fits limits.now (state_of book.now.entries) entry.now }
{
    match entry {
        Entry::Boot { run } => boot_fits(book, limits, *run),
        Entry::Opened { txn, text, .. } => text_fits(book, limits, *txn, text, tree),
        Entry::Start { txn, statement } => start_fits(book, limits, *txn, *statement),
        Entry::Given { txn, table, write } => given_fits(book, limits, *txn, *table, *write),
        Entry::Commit { txn, wrote } => commit_fits(book, *txn, wrote.as_slice()),
        Entry::Abort { txn, cause } => abort_fits(book, limits, *txn, cause),
        Entry::Create { txn, table } => create_fits(book, *txn, *table),
        Entry::Drop { txn, table } => drop_fits(book, *txn, *table),
        Entry::Asked {
            job,
            table,
            partition,
            kind,
            by,
        } => asked_fits(book, limits, *job, *table, partition, *kind, *by),
        Entry::Picked { job, watermark } => picked_fits(book, limits, *job, *watermark),
        Entry::Published {
            job,
            low,
            high,
            mark,
        } => published_fits(book, *job, *low, *high, *mark),
        Entry::Empty { job } => empty_fits(book, *job),
        Entry::Cleaned { job } => cleaned_fits(book, limits, *job),
        Entry::Failed { job, cause } => failed_fits(book, *job, cause),
        Entry::Forgot { table, write } => forgot_fits(book, limits, *table, *write),
        Entry::Next { .. } | Entry::Did { .. } | Entry::Alter { .. } => false,
    }
}

/// Whether an entry fits a book whose own entries fit: if so, all fit with it behind them. With an
/// Opened comes a tree where its text runs, and nothing where it doesn't.
pub fn fits(book: &Book, limits: &Limits, entry: &Entry, tree: Option<&Stmt>) -> bool
    requires fit { AllFit limits.now nothing_yet book.now.entries }
    requires tree { IsHanded entry.now (option_copied tree) }
    ensures fits { IsTrue result ↔ Fits limits.now (state_of book.now.entries) entry.now }
    ensures grows { IsTrue result → AllFit limits.now nothing_yet (book.now.entries ++ entry.now ∷ []) }
{
    is_fitting(book, limits, entry, tree)
}
