ghost use Rattle.std.specs.Prelude.{◌≡◌, None, fold};
ghost use Rattle.std.specs.Option.{option_copied};
ghost use Rattle.hv_history.specs.State.{state_of, numbered};
ghost use Rattle.hv_history.specs.Thresholds.{is_behind_place, if_key, later_set, set_at, set_by, set_in, value_or, delta_threshold, percent_threshold};
ghost use Rattle.hv_queue.specs.Settings.{key_of, reads_of, set_with, set_next, end_place};

use crate::digits::{count_in, thousandths_in};
use hv_ast::{Setting, Stmt};
use hv_history::numbered;
use hv_tallies::hv_earlier::hv_meta::hv_book::{Book, TransactionNote};

#[tactic(auto, unfolding(crate::specs::Settings::key_of))]
fn key_of(is_percent: bool) -> &'static str
    ensures { result.now ≡ key_of is_percent }
{
    if is_percent {
        "hive.compactor.delta.pct.threshold"
    } else {
        "hive.compactor.delta.num.threshold"
    }
}

#[tactic(auto, unfolding(crate::specs::Settings::reads_of))]
fn read(is_percent: bool, value: &[u8]) -> Option<u64>
    ensures { result ≡ reads_of is_percent value.now }
{
    if is_percent {
        thousandths_in(value)
    } else {
        count_in(value)
    }
}

/// What a SET sets the threshold to, where it is one of its key.
fn value_in(is_percent: bool, setting: &Setting) -> Option<u64>
    ensures { result ≡ if_key (key_of is_percent) (reads_of is_percent) setting.now }
{
    if setting.key.as_str() == key_of(is_percent) {
        read(is_percent, setting.value.bytes())
    } else {
        None
    }
}

/// What this text sets the threshold to.
fn set_by(is_percent: bool, tree: Option<&Stmt>) -> Option<u64>
    ensures { result ≡ set_by (key_of is_percent) (reads_of is_percent) (option_copied tree.entry) }
{
    match tree {
        Some(Stmt::Set(setting)) => value_in(is_percent, setting),
        _ => None,
    }
}

fn later_set(place: u64, value: u64, found: Option<(u64, u64)>) -> Option<(u64, u64)>
    ensures { result ≡ later_set place value found }
{
    match found {
        Some(before) => {
            if before.0 < place {
                Some((place, value))
            } else {
                found
            }
        }
        None => Some((place, value)),
    }
}

/// Whether the place is behind the other, if there is one.
pub fn is_behind_place(before: Option<u64>, place: u64) -> bool
    ensures { result ≡ is_behind_place before place }
{
    match before {
        Some(before) => before < place,
        None => true,
    }
}

fn set_at(
    opening: Option<u64>,
    place: u64,
    value: Option<u64>,
    found: Option<(u64, u64)>,
) -> Option<(u64, u64)>
    ensures { result ≡ set_at opening place value found }
{
    match value {
        Some(value) => {
            if is_behind_place(opening, place) {
                later_set(place, value, found)
            } else {
                found
            }
        }
        None => found,
    }
}

fn end_place(notes: &[TransactionNote], number: u64) -> Option<u64>
    ensures { result ≡ end_place (numbered notes.now number) }
{
    match numbered(notes, number) {
        Some(note) => match note.ending {
            Some(end) => Some(end.at),
            None => None,
        },
        None => None,
    }
}

fn set_with(
    opening: Option<u64>,
    value: Option<u64>,
    found: Option<(u64, u64)>,
    place: Option<u64>,
) -> Option<(u64, u64)>
    ensures { result ≡ set_with opening value found place }
{
    match place {
        Some(place) => set_at(opening, place, value, found),
        None => found,
    }
}

/// What was set last, and the place of the commit that did it, with the transaction of this number.
fn set_next(
    book: &Book,
    opening: Option<u64>,
    is_percent: bool,
    found: Option<(u64, u64)>,
    number: u64,
) -> Option<(u64, u64)>
    ensures { result ≡ set_next opening (key_of is_percent) (reads_of is_percent) found
        (numbered (state_of book.now.entries).transactions number) }
{
    match book.committed(number) {
        Some(_) => {
            let value = set_by(is_percent, book.opening_tree(number));
            set_with(
                opening,
                value,
                found,
                end_place(book.transactions(), number),
            )
        }
        None => found,
    }
}

/// The last one that was set behind that place, with the place of its commit. It walks the transactions.
fn last_set(book: &Book, opening: Option<u64>, is_percent: bool) -> Option<(u64, u64)>
    ensures { result ≡ fold (set_in opening (key_of is_percent) (reads_of is_percent)) None
        (state_of book.now.entries).transactions }
{
    let notes = book.transactions();
    let mut found = None;
    for i in 0..notes.len() {
        found = set_next(book, opening, is_percent, found, i as u64 + 1);
    }
    found
}

fn value_or(default: u64, found: Option<(u64, u64)>) -> u64
    ensures { result ≡ value_or default found }
{
    match found {
        Some(found) => found.1,
        None => default,
    }
}

/// The place of the last opening.
pub fn opening(book: &Book) -> Option<u64>
    ensures { result ≡ (state_of book.now.entries).openings.last }
{
    book.openings().last
}

#[tactic(auto, unfolding(hv_history::specs::Thresholds::delta_threshold, crate::specs::Settings::key_of, crate::specs::Settings::reads_of))]
pub fn delta_threshold(book: &Book) -> u64
    ensures { result ≡ delta_threshold (state_of book.now.entries) }
{
    value_or(10, last_set(book, opening(book), false))
}

#[tactic(auto, unfolding(hv_history::specs::Thresholds::percent_threshold, crate::specs::Settings::key_of, crate::specs::Settings::reads_of))]
pub fn percent_threshold(book: &Book) -> u64
    ensures { result ≡ percent_threshold (state_of book.now.entries) }
{
    value_or(100, last_set(book, opening(book), true))
}
