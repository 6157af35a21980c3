ghost use Rattle.std.specs.Prelude.{◌≡◌, IfSome, IfNone};
ghost use Rattle.std.specs.List.{slice_get};
ghost use Rattle.hv_history.specs.State.{state_of};
ghost use Rattle.hv_history.specs.Legal.{Of, IsRunning, MeetsNoConflict};
ghost use Rattle.hv_book.specs.Commits.{IsRising};
ghost use Rattle.hv_conflicts.specs.Clashes.{IsClash, shared_from, clash_with, clash_behind, first_some};

use crate::meeting::Clash;
use hv_base::{Touch, TxnId};
use hv_book::Book;
use hv_history::Entry;
use hv_meta::{conflicts_with, note_of, started_place};

/// The place of the first of these touches that conflicts with one of those.
fn shared_place(wrote: &[Touch], those: &[Touch]) -> Option<usize>
    ensures { result ≡ shared_from 0 wrote.now those.now }
{
    for at in 0..wrote.len() {
        if conflicts_with(&wrote[at], those) {
            return Some(at);
        }
    }
    None
}

/// The clash with the Commit at this place. None where no Commit stands there, or none that conflicts.
fn clash_at(book: &Book, place: u64, wrote: &[Touch]) -> Option<Clash>
    ensures { result ≡ clash_with wrote.now (slice_get book.now.entries place) }
{
    match book.entries().get(place as usize) {
        Some(Entry::Commit { txn, wrote: those }) => match shared_place(wrote, those.as_slice()) {
            Some(at) => Some(Clash { by: *txn, at }),
            None => None,
        },
        _ => None,
    }
}

/// The clash with the first Commit behind a place that conflicts. It walks these places, the last first.
fn first_behind(book: &Book, places: &[u64], place: u64, wrote: &[Touch]) -> Option<Clash>
    requires rising { IsRising places.now }
    ensures { result ≡ first_some (clash_behind book.now.entries place wrote.now) places.now }
{
    let mut first = None;
    for i in (0..places.len()).rev() {
        if places[i] <= place {
            return first;
        }
        if let Some(clash) = clash_at(book, places[i], wrote) {
            first = Some(clash);
        }
    }
    first
}

/// The first commit that a transaction's touches conflict with, if there is one: its transaction, and
/// the place among the touches of the first one that both share. It walks the commits behind the
/// transaction's Start.
pub fn clash(book: &Book, txn: TxnId, wrote: &[Touch]) -> Option<Clash>
    requires running { Of (state_of book.now.entries) txn.0 IsRunning }
    ensures found { IfSome result (IsClash (state_of book.now.entries) txn.0 wrote.now) }
    ensures none { IfNone result (Of (state_of book.now.entries) txn.0
        (λ t. MeetsNoConflict (state_of book.now.entries) t wrote.now)) }
{
    let place = started_place(note_of(book, txn.0));
    first_behind(book, book.commits(), place, wrote)
}
