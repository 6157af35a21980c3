ghost use Rattle.std.specs.Prelude.{◌≡◌, ◌↔◌, ◌≤◌, None, IsTrue, IfOk, length};
ghost use Rattle.hv_book.specs.Briefs.{held_by};
ghost use Rattle.hv_history.specs.declared.entry.Entry.TheVariants as entry;
ghost use Rattle.hv_history.specs.declared.entry.Cause.TheVariants as cause;
ghost use Rattle.hv_history.specs.Book.{tree_of_entry};
ghost use Rattle.hv_history.specs.Legal.{Of, FullFits, profile};
ghost use Rattle.hv_showing.specs.hv_fits.specs.Texts.{IsHanded};
ghost use Rattle.hv_stands.specs.Running.{IsOf, IsOwnCause};
ghost use Rattle.hv_trail.specs.Trail.{book_of, state_at};
ghost use Rattle.hv_trail.specs.Kept.{trail_of};
ghost use Rattle.hv_telling.specs.hv_house.specs.House.{entries_of, IsReady, IsSmall};
ghost use Rattle.hv_telling.specs.hv_house.specs.Housed.{ShutsHard};
ghost use Rattle.hv_telling.specs.Telling.{IsToldHouse, IsWhole, IsTrueNow};
ghost use Rattle.hv_telling.specs.hv_house.specs.Steps.{seen_of, IsMarked};
ghost use Rattle.hv_acts.specs.Answers.{IsLate, EntryFits, own_entry, EntryStep, OpensNone, HasItsMark, aborted_line};
ghost use Rattle.hv_acts.specs.Aborting.{AbortStep, abort_of};
ghost use Rattle.hv_acts.specs.Meant.{RunsWith, IsCauseTrue};

use crate::aborted::Aborted;
use crate::fault::ActFault;
use hv_base::{List, NoMemory, TxnId};
use hv_book::Held;
use hv_history::{Cause, Entry, cause_text};
use hv_meta::{TxnState, is_running, state_of};
use hv_shelf::Shelf;
use hv_telling::hv_house::{House, HouseFault};
use hv_telling::note;
use std::alloc::Global;

/// Lets go of a value, in a function without other paths.
pub(crate) fn let_go<T: Drop>(_value: T) {}

/// The place of the entry that is noted next.
pub(crate) fn next_place<D: Shelf>(house: &House<D>) -> u64
    ensures place { result ≡ length (book_of (trail_of house.now.trail)) }
{
    house.book().entries().len() as u64
}

/// Why nothing of this transaction fits: it has ended, or else for another reason.
pub(crate) fn late<D: Shelf>(house: &House<D>, txn: TxnId) -> ActFault
    ensures late { IsLate (trail_of house.now.trail) txn result }
{
    match state_of(house.book(), txn) {
        TxnState::Ended { at } => ActFault::Ended { at },
        TxnState::Unknown => ActFault::Unfit,
        TxnState::Running { .. } => ActFault::Unfit,
    }
}

/// Whether a transaction holds so many write ids at most.
fn holds_at_most(held: &[Held], txn: u64, most: u64) -> bool
    ensures at_most { IsTrue result ↔ length (held_by txn held.now) ≤ most }
{
    let mut spare = most;
    for one in held {
        if one.txn == txn {
            if spare == 0 {
                return false;
            }
            spare -= 1;
        }
    }
    true
}

/// Whether a transaction runs, and has so many write ids at most.
pub(crate) fn runs_with<D: Shelf>(house: &House<D>, txn: TxnId, most: u64) -> bool
    ensures runs { IsTrue result ↔ RunsWith (trail_of house.now.trail) txn most }
{
    let book = house.book();
    is_running(book, txn) && holds_at_most(book.held(), txn.0, most)
}

/// Whether an open transaction has no room for an entry more.
pub(crate) fn is_full<D: Shelf>(house: &House<D>, txn: TxnId) -> bool
    requires ready { IsReady D.told house.now }
    ensures full { IsTrue result ↔ Of (state_at (trail_of house.now.trail)) txn.0
        (FullFits profile (state_at (trail_of house.now.trail))) }
{
    let cause = Cause::Full;
    house.fits(&Entry::Abort { txn, cause }, None)
}

/// Notes an entry of this transaction where it fits. Where the house is told it is true then.
pub(crate) fn note_fitting<D: Shelf>(
    house: &mut House<D>,
    txn: TxnId,
    entry: Entry,
) -> Result<(), ActFault>
    requires whole { IsWhole D.told house.old }
    requires hard { ShutsHard D.hard (seen_of house.old) }
    requires of_it { IsOf txn.0 entry }
    requires unopened { OpensNone entry }
    requires tree { tree_of_entry entry ≡ None }
    requires handed { IsHanded entry None }
    requires small { IsSmall entry }
    requires marked { IsMarked house.old entry }
    requires truly { IsToldHouse D.told house.old → EntryFits (trail_of house.old.trail) entry
        → IsTrueNow (entries_of house.old) (trail_of house.old.trail) entry }
    ensures noted { EntryStep D.told D.faults (own_entry txn entry) house.old house.new result }
    ensures hard { ShutsHard D.hard (seen_of house.new) }
{
    if !house.fits(&entry, None) {
        let_go(entry);
        return Err(late(house, txn));
    }
    match note(house, entry, None) {
        Ok(()) => Ok(()),
        Err(fault) => Err(ActFault::House(fault)),
    }
}

/// What is told of an abort for this cause by the entry at that place. It isn't for a conflict, whose line has the table's name.
pub(crate) fn told_abort(alloc: Global, at: u64, cause: Cause) -> Result<Aborted, NoMemory>
    ensures place { IfOk result (λ aborted. aborted.at ≡ at) }
    ensures cause { IfOk result (λ aborted. aborted.cause ≡ cause) }
    ensures line { IfOk result (λ aborted. aborted.text ≡ aborted_line cause) }
{
    match cause_text(alloc, &None, &cause) {
        Ok(text) => Ok(Aborted {
            at,
            cause,
            text: List::from_vec(text),
        }),
        Err(NoMemory) => {
            let_go(cause);
            Err(NoMemory)
        }
    }
}

/// Notes an abort of this transaction that fits, of which `aborted` tells. Where the house is told its cause is true.
pub(crate) fn note_abort<D: Shelf>(
    house: &mut House<D>,
    txn: TxnId,
    cause: Cause,
    aborted: Aborted,
) -> Result<Aborted, HouseFault>
    requires whole { IsWhole D.told house.old }
    requires hard { ShutsHard D.hard (seen_of house.old) }
    requires own { IsOwnCause cause }
    requires small { IsSmall (entry.Abort txn cause) }
    requires fits { EntryFits (trail_of house.old.trail) (entry.Abort txn cause) }
    requires marked { HasItsMark (trail_of house.old.trail) txn cause }
    requires truly { IsToldHouse D.told house.old → IsCauseTrue (trail_of house.old.trail) txn cause }
    requires place { aborted.at ≡ length (book_of (trail_of house.old.trail)) }
    requires same { aborted.cause ≡ cause }
    ensures noted { AbortStep D.told D.faults (abort_of txn cause aborted.text) house.old house.new result }
    ensures hard { ShutsHard D.hard (seen_of house.new) }
{
    match note(house, Entry::Abort { txn, cause }, None) {
        Ok(()) => Ok(aborted),
        Err(fault) => {
            let_go(aborted);
            Err(fault)
        }
    }
}

/// Aborts a transaction for want of room.
pub(crate) fn abort_full<D: Shelf>(
    alloc: Global,
    house: &mut House<D>,
    txn: TxnId,
) -> Result<Aborted, HouseFault>
    requires whole { IsWhole D.told house.old }
    requires hard { ShutsHard D.hard (seen_of house.old) }
    requires full { Of (state_at (trail_of house.old.trail)) txn.0
        (FullFits profile (state_at (trail_of house.old.trail))) }
    requires truly { IsToldHouse D.told house.old → IsCauseTrue (trail_of house.old.trail) txn cause.Full }
    ensures noted { AbortStep D.told D.faults (abort_of txn cause.Full (aborted_line cause.Full)) house.old house.new
        result }
    ensures hard { ShutsHard D.hard (seen_of house.new) }
{
    let at = next_place(house);
    match told_abort(alloc, at, Cause::Full) {
        Ok(aborted) => note_abort(house, txn, Cause::Full, aborted),
        Err(NoMemory) => Err(HouseFault::NoMemory),
    }
}
