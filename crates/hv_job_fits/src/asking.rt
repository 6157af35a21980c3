ghost use Rattle.std.specs.Prelude.{◌≡◌, ◌⊎◌, ◌↔◌, IsTrue};
ghost use Rattle.std.specs.Option.{option_copied};
ghost use Rattle.hv_queue.specs.hv_history.specs.State.{state_of, numbered};
ghost use Rattle.hv_queue.specs.hv_history.specs.Legal.{Of};
ghost use Rattle.hv_queue.specs.hv_history.specs.JobsFit.{is_of_kind, name_in, IsAsker, AskedFits};
ghost use Rattle.hv_job_fits.specs.Notes.{compacts};

use crate::notes::next_job;
use hv_ast::{CompactionKind, Stmt};
use hv_base::{JobId, Limits, TableId, Text, TxnId};
use hv_queue::hv_history::JobKind;
use hv_queue::hv_tallies::hv_earlier::hv_meta::hv_book::Book;
use hv_queue::hv_tallies::hv_earlier::hv_meta::{has_room, is_running};
use hv_queue::hv_tallies::{both, either, survey_in};
use hv_queue::is_live;

fn is_of_kind(kind: JobKind, asked: CompactionKind) -> bool
    ensures { result ≡ is_of_kind kind asked }
{
    match kind {
        JobKind::Minor => match asked {
            CompactionKind::Minor => true,
            CompactionKind::Major => false,
        },
        JobKind::Major => match asked {
            CompactionKind::Minor => false,
            CompactionKind::Major => true,
        },
    }
}

/// Whether the text asks for a compaction of that kind of a table of this one's name.
fn compacts(book: &Book, table: u64, kind: JobKind, tree: Option<&Stmt>) -> bool
    ensures { result ≡ compacts (state_of book.now.entries).tables table kind (option_copied tree.entry) }
{
    match tree {
        Some(Stmt::Compact(compact)) => {
            let same = book.has_name(table, &compact.table);
            both(same, is_of_kind(kind, compact.kind))
        }
        _ => false,
    }
}

/// Whether the transaction runs, and its text asks so.
fn is_asker(book: &Book, by: TxnId, table: u64, kind: JobKind) -> bool
    ensures asks { IsTrue result ↔ Of (state_of book.now.entries) by.0
        (IsAsker (name_in (numbered (state_of book.now.entries).tables table)) kind) }
{
    let running = is_running(book, by);
    let asks = compacts(book, table, kind, book.opening_tree(by.0));
    both(running, asks)
}

/// Whether the initiator asks, whose number is 0, or a transaction does whose text says so.
fn has_asker(book: &Book, by: u64, table: u64, kind: JobKind) -> bool
    ensures asks { IsTrue result ↔ ((by ≡ 0) ⊎ Of (state_of book.now.entries) by
        (IsAsker (name_in (numbered (state_of book.now.entries).tables table)) kind)) }
{
    let asker = is_asker(book, TxnId(by), table, kind);
    either(by == 0, asker)
}

/// Whether a job that is asked for so fits the book. It walks the jobs.
pub fn asked_fits(
    book: &Book,
    limits: &Limits,
    job: JobId,
    table: TableId,
    partition: &Text,
    kind: JobKind,
    by: u64,
) -> bool
    ensures fits { IsTrue result
        ↔ AskedFits limits.now (state_of book.now.entries) job.0 table.0 partition.now kind by }
{
    let live = is_live(book, table.0);
    let number = next_job(book);
    let jobs = survey_in(book, table.0, partition);
    let asker = has_asker(book, by, table.0, kind);
    let room = has_room(book, limits, 1);
    let allowed = both(asker, room);
    let free = both(!jobs.busy, allowed);
    let new = both(job.0 == number, free);
    both(live, new)
}
