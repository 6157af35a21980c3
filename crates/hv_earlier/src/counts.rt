ghost use Rattle.std.specs.Prelude.{◌≡◌, ◌≤◌, length, take};
ghost use Rattle.std.specs.Option.{option_copied, option_map};
ghost use Rattle.hv_meta.specs.hv_book.specs.hv_history.specs.State.{state_of, numbered};
ghost use Rattle.hv_meta.specs.hv_book.specs.Past.{owners_in, total, live_then, table_live, PlacesRise};
ghost use Rattle.hv_earlier.specs.Places.{given_from, IsSpot};

use crate::exceptions::Spot;
use hv_ids::PlacedIds;
use hv_meta::hv_book::hv_history::numbered;
use hv_meta::hv_book::{Book, SpanNote};

/// How many ids of a table were given from a place on. It walks these ids alone, the last first.
fn given_since(given: &PlacedIds, position: u64, table: u64) -> u64
    requires rising { PlacesRise given.now.ids }
    ensures since { result ≡ total (given_from position table) given.now.ids }
{
    let mut count = 0;
    let mut number = given.last(table);
    while number > 0 {
        if given.numbered(number).at < position {
            return count;
        }
        count += 1;
        number = given.before(number);
    }
    count
}

fn live_then(span: Option<&SpanNote>, position: u64) -> Option<bool>
    ensures { result ≡ live_then position (option_copied span.entry) }
{
    match span {
        Some(span) => {
            if span.made < position {
                Some(match span.dropped {
                    Some(at) => at >= position,
                    None => true,
                })
            } else {
                None
            }
        }
        None => None,
    }
}

/// Whether a table was live behind the entries before a place. None where it wasn't there yet.
pub fn was_live(book: &Book, position: usize, table: u64) -> Option<bool>
    ensures live { result
        ≡ option_map table_live (numbered (state_of (take position book.now.entries)).tables table) }
{
    live_then(numbered(&book.past().spans, table), position as u64)
}

/// How many write ids of a table were given before a place.
fn high_at(book: &Book, position: usize, table: u64) -> u64
    ensures high { result
        ≡ length (owners_in (numbered (state_of (take position book.now.entries)).tables table)) }
{
    let since = given_since(&book.past().given, position as u64, table);
    match numbered(book.tables(), table) {
        Some(note) => note.high.saturating_sub(since),
        None => 0,
    }
}

/// How many transactions were opened before a place, by binary search.
pub fn opened_at(book: &Book, position: usize) -> u64
    ensures opened { result ≡ length (state_of (take position book.now.entries)).transactions }
{
    let place = position as u64;
    book.opened().partition_point(|at| *at < place) as u64
}

/// The place, and what a list is asked with there.
pub fn spot_at(book: &Book, position: usize, table: u64) -> Spot
    ensures spot { IsSpot book.now.entries result }
    ensures position { result.position ≡ position }
    ensures table { result.table ≡ table }
{
    Spot {
        position: position as u64,
        table,
        high: high_at(book, position, table),
        transactions: opened_at(book, position),
    }
}
