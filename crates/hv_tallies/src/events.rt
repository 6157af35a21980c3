ghost use Rattle.std.specs.Prelude.{◌≡◌, find};
ghost use Rattle.std.specs.Option.{option_copied};
ghost use Rattle.hv_jobs.specs.hv_history.specs.State.{state_of, numbered};
ghost use Rattle.hv_earlier.specs.hv_meta.specs.hv_book.specs.Commits.{wrote_in};
ghost use Rattle.hv_jobs.specs.hv_history.specs.Jobs.{is_touch_of, events_of};
ghost use Rattle.hv_tallies.specs.Tallies.{counted, tallied, touch_in, visited};

use crate::open_ids::is_open;
use crate::rows::{more_both, more_if};
use crate::tally::{Reach, Tally, both, either, first_if, larger, noted_open, one_more};
use hv_base::Touch;
use hv_earlier::hv_meta::hv_book::Book;
use hv_ids::IdNote;

fn is_touch_of(touch: &Touch, table: u64, partition: &str) -> bool
    ensures { result ≡ is_touch_of table partition.now touch.now }
{
    touch.table.0 == table && touch.partition.as_str() == partition
}

/// The first of these touches that is of the partition.
fn touch_of<'a>(wrote: &'a [Touch], table: u64, partition: &str) -> Option<&'a Touch>
    ensures { option_copied result ≡ find (is_touch_of table partition.now) wrote.now }
{
    for touch in wrote {
        if is_touch_of(touch, table, partition) {
            return Some(touch);
        }
    }
    None
}

/// Counts what a commit wrote in the partition under this write id.
fn counted(reach: Reach, tally: Tally, write: u64, touch: &Touch) -> Tally
    ensures { result ≡ counted reach tally (events_of write touch.now) }
{
    let inserted = touch.inserted;
    let deleted = touch.deleted;
    let fresh = reach.compacted < write;
    let above = reach.base < write;
    let merged = both(above, write <= reach.compacted);
    let based = write <= reach.base;
    Tally {
        unended: tally.unended,
        ins: one_more(reach.given, both(fresh, inserted > 0), tally.ins),
        del: one_more(reach.given, both(fresh, deleted > 0), tally.del),
        merged_ins: either(tally.merged_ins, both(merged, inserted > 0)),
        merged_del: either(tally.merged_del, both(merged, deleted > 0)),
        first: first_if(above, write, tally.first),
        high: larger(tally.high, write),
        kept: more_if(based, tally.kept, inserted),
        gone: more_if(based, tally.gone, deleted),
        above: more_both(above, tally.above, inserted, deleted),
    }
}

fn tallied(reach: Reach, tally: Tally, write: u64, touch: &Touch) -> Tally
    ensures { result ≡ tallied reach tally (events_of write touch.now) }
{
    if write <= reach.mark {
        counted(reach, tally, write, touch)
    } else {
        tally
    }
}

/// What the transaction wrote in the partition, where it committed its writes.
pub fn wrote_there<'a>(book: &'a Book, table: u64, partition: &str, txn: u64) -> Option<&'a Touch>
    ensures { option_copied result ≡ touch_in table partition.now
        (wrote_in (numbered (state_of book.now.entries).transactions txn)) }
{
    match book.committed(txn) {
        Some(wrote) => touch_of(wrote.as_slice(), table, partition),
        None => None,
    }
}

/// Counts a write id of the table.
pub fn visit(
    book: &Book,
    table: u64,
    partition: &str,
    reach: Reach,
    id: IdNote,
    tally: Tally,
) -> Tally
    ensures { result ≡ visited (state_of book.now.entries) table partition.now reach tally id }
{
    let noted = noted_open(is_open(book, id.txn), id.write, tally);
    match wrote_there(book, table, partition, id.txn) {
        Some(touch) => tallied(reach, noted, id.write, touch),
        None => noted,
    }
}
