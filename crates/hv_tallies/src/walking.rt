ghost use Rattle.std.specs.Prelude.{◌≡◌, fold};
ghost use Rattle.hv_jobs.specs.hv_history.specs.State.{state_of};
ghost use Rattle.hv_tallies.specs.Tallies.{visited};
ghost use Rattle.hv_tallies.specs.Walks.{HasWalked, IsTally};

use crate::events::visit;
use crate::tally::{Reach, Tally, no_tally};
use hv_earlier::hv_meta::hv_book::Book;
use hv_ids::{IdNote, PlacedIds};

fn walk_ids(
    book: &Book,
    table: u64,
    partition: &str,
    reach: Reach,
    ids: &[IdNote],
    tally: Tally,
) -> Tally
    ensures { result ≡ fold (visited (state_of book.now.entries) table partition.now reach) tally ids.now }
{
    let mut sum = tally;
    for id in ids {
        sum = visit(book, table, partition, reach, *id, sum);
    }
    sum
}

/// Goes over those of the table, the last first.
fn walk_ended(
    book: &Book,
    table: u64,
    partition: &str,
    reach: Reach,
    ids: &PlacedIds,
    tally: Tally,
) -> Tally
    ensures { HasWalked (visited (state_of book.now.entries) table partition.now reach) table ids.now.ids tally result }
{
    let mut sum = tally;
    let mut number = ids.last(table);
    while number > 0 {
        sum = visit(book, table, partition, reach, ids.numbered(number).id, sum);
        number = ids.before(number);
    }
    sum
}

/// Goes over the write ids of the table, each once.
pub fn walk(book: &Book, table: u64, partition: &str, reach: Reach) -> Tally
    ensures { IsTally (state_of book.now.entries) table partition.now reach result }
{
    let past = book.past();
    let pending = walk_ids(
        book,
        table,
        partition,
        reach,
        past.pending.of_table(table),
        no_tally(),
    );
    let aborted = walk_ended(book, table, partition, reach, &past.aborted, pending);
    walk_ended(book, table, partition, reach, &past.committed, aborted)
}
