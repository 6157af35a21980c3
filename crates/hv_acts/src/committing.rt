ghost use Rattle.std.specs.Prelude.{◌≡◌, ◌<◌, ◌↔◌, ℕ, List, None, Some, IsTrue, IfOk, length};
ghost use Rattle.std.specs.List.{slice_get};
ghost use Rattle.hv_base.specs.declared.ids.Touch.{Touch};
ghost use Rattle.hv_shelf.specs.declared.place.Place.{Place};
ghost use Rattle.hv_history.specs.declared.entry.Entry.TheVariants as entry;
ghost use Rattle.hv_history.specs.Legal.{Of, MeetsNoConflict};
ghost use Rattle.hv_conflicts.specs.Clashes.{IsClash};
ghost use Rattle.hv_stands.specs.Running.{IsOwnCause};
ghost use Rattle.hv_trail.specs.declared.trail.Reader.TheVariants.{Txn};
ghost use Rattle.hv_trail.specs.Trail.{book_of, state_at, broken};
ghost use Rattle.hv_trail.specs.Kept.{trail_of};
ghost use Rattle.hv_telling.specs.hv_house.specs.House.{IsSmall};
ghost use Rattle.hv_telling.specs.hv_house.specs.Housed.{ShutsHard};
ghost use Rattle.hv_telling.specs.hv_house.specs.Steps.{seen_of};
ghost use Rattle.hv_telling.specs.Telling.{IsToldHouse, IsWhole};
ghost use Rattle.hv_acts.specs.Answers.{EntryFits, HasItsMark};
ghost use Rattle.hv_acts.specs.Meant.{RunsWith, IsCommitDue, IsCauseTrue};
ghost use Rattle.hv_acts.specs.Committing.{CanBePut, WerePut, IsConflictOf, HasMet, CommitStep};

use crate::aborted::Aborted;
use crate::fault::ActFault;
use crate::noting::{late, next_place, note_abort, note_fitting, runs_with};
use crate::told::ToldHouse;
use hv_actor::Act;
use hv_base::{Duplicate, List, NoMemory, Text, Touch, TxnId};
use hv_conflicts::{Clash, clash};
use hv_history::{Cause, Entry, conflict_text};
use hv_shelf::{Place, Shelf};
use hv_telling::hv_house::{House, HouseFault};
use std::alloc::Global;

/// Commits a transaction with what it wrote in the table of that name, whose files it has put at these places; or aborts it, where a
/// commit conflicts with it.
#[derive(Drop)]
pub struct CommitWrites {
    pub txn: TxnId,
    pub wrote: List<Touch>,
    pub name: Text,
    pub put: List<Place>,
}

/// How a transaction ended that was to commit.
#[derive(Drop)]
pub enum Committed {
    /// It committed, by the entry at this place.
    At(u64),
    /// It was aborted: another transaction committed behind its snapshot, and both deleted rows in one partition.
    Aborted(Aborted),
}

/// Whether the house has a mark of each of these files. Marks of others may stand between them.
fn are_marked<D: Shelf>(house: &House<D>, txn: TxnId, places: &[Place]) -> bool
    ensures marked { IsTrue result ↔ WerePut (trail_of house.now.trail) txn places.now }
{
    for place in places {
        if !house.has_put(txn, place) {
            return false;
        }
    }
    true
}

/// Whether the house has a mark of each file that was put.
fn is_put<D: Shelf>(house: &House<D>, txn: TxnId, put: &List<Place>) -> bool
    ensures put { IsTrue result ↔ WerePut (trail_of house.now.trail) txn put.now }
{
    are_marked(house, txn, put.as_slice())
}

/// The cause of an abort for a conflict, to be noted, and what is told of it.
#[derive(Drop)]
struct Conflict {
    cause: Cause,
    aborted: Aborted,
}

/// The conflict of the touch at the clash's place, in the table of that name, which the entry at that place aborts for.
fn conflict_at(
    alloc: Global,
    at: u64,
    found: Clash,
    wrote: &[Touch],
    name: &Text,
) -> Result<Conflict, NoMemory>
    requires within { found.at < length wrote.now }
    ensures conflict { (touch : Touch) → slice_get wrote.now found.at ≡ Some touch
        → IfOk result (IsConflictOf at found.by touch name.now) }
{
    let touch = &wrote[found.at];
    let line = conflict_text(alloc, found.by.0, name.as_str(), &touch.partition)?;
    let partition = touch.partition.duplicate(alloc)?;
    let copy = touch.partition.duplicate(alloc)?;
    Ok(Conflict {
        cause: Cause::Conflict {
            with: found.by,
            table: touch.table,
            partition,
        },
        aborted: Aborted {
            at,
            cause: Cause::Conflict {
                with: found.by,
                table: touch.table,
                partition: copy,
            },
            text: List::from_vec(line),
        },
    })
}

/// Aborts a transaction for this conflict.
fn note_conflict<D: Shelf>(
    house: &mut House<D>,
    txn: TxnId,
    conflict: Conflict,
) -> Result<Committed, ActFault>
    requires whole { IsWhole D.told house.old }
    requires hard { ShutsHard D.hard (seen_of house.old) }
    requires own { IsOwnCause conflict.cause }
    requires small { IsSmall (entry.Abort txn conflict.cause) }
    requires fits { EntryFits (trail_of house.old.trail) (entry.Abort txn conflict.cause) }
    requires marked { HasItsMark (trail_of house.old.trail) txn conflict.cause }
    requires truly { IsToldHouse D.told house.old
        → IsCauseTrue (trail_of house.old.trail) txn conflict.cause }
    requires place { conflict.aborted.at ≡ length (book_of (trail_of house.old.trail)) }
    requires same { conflict.aborted.cause ≡ conflict.cause }
    ensures committed { (wrote : List Touch) (name : List ℕ) (places : List Place)
        → HasMet (trail_of house.old.trail) txn wrote name conflict
        → CommitStep D.told D.faults (record { txn = txn; wrote = wrote; name = name; put = places }) house.old
        house.new result }
    ensures hard { ShutsHard D.hard (seen_of house.new) }
{
    let Conflict { cause, aborted } = conflict;
    match note_abort(house, txn, cause, aborted) {
        Ok(aborted) => Ok(Committed::Aborted(aborted)),
        Err(fault) => Err(ActFault::House(fault)),
    }
}

/// Aborts a transaction whose touches conflict.
fn end_by_conflict<D: Shelf>(
    alloc: Global,
    house: &mut House<D>,
    due: &CommitWrites,
    found: Clash,
) -> Result<Committed, ActFault>
    requires whole { IsWhole D.told house.old }
    requires hard { ShutsHard D.hard (seen_of house.old) }
    requires running { RunsWith (trail_of house.old.trail) due.now.txn 1 }
    requires small { IsSmall (entry.Commit due.now.txn due.now.wrote) }
    requires clash { IsClash (state_at (trail_of house.old.trail)) due.now.txn.0 due.now.wrote found }
    requires truly { IsToldHouse D.told house.old
        → IsCommitDue (trail_of house.old.trail) due.now.txn due.now.wrote due.now.put }
    ensures committed { CommitStep D.told D.faults due.now
        house.old house.new result }
    ensures hard { ShutsHard D.hard (seen_of house.new) }
{
    let at = next_place(house);
    match conflict_at(alloc, at, found, due.wrote.as_slice(), &due.name) {
        Ok(conflict) => note_conflict(house, due.txn, conflict),
        Err(NoMemory) => Err(ActFault::House(HouseFault::NoMemory)),
    }
}

/// Commits a transaction that meets no conflict.
fn end_by_commit<D: Shelf>(house: &mut House<D>, due: CommitWrites) -> Result<Committed, ActFault>
    requires whole { IsWhole D.told house.old }
    requires hard { ShutsHard D.hard (seen_of house.old) }
    requires running { RunsWith (trail_of house.old.trail) due.txn 1 }
    requires small { IsSmall (entry.Commit due.txn due.wrote) }
    requires can { CanBePut (trail_of house.old.trail) due.txn due.wrote due.put }
    requires truly { IsToldHouse D.told house.old
        → IsCommitDue (trail_of house.old.trail) due.txn due.wrote due.put }
    requires unbroken { broken (Txn due.txn) (trail_of house.old.trail) ≡ None }
    requires put { WerePut (trail_of house.old.trail) due.txn due.put }
    requires clear { Of (state_at (trail_of house.old.trail)) due.txn.0
        (λ t. MeetsNoConflict (state_at (trail_of house.old.trail)) t due.wrote) }
    ensures committed { CommitStep D.told D.faults due
        house.old house.new result }
    ensures hard { ShutsHard D.hard (seen_of house.new) }
{
    let at = next_place(house);
    let txn = due.txn;
    let wrote = due.wrote;
    match note_fitting(house, txn, Entry::Commit { txn, wrote }) {
        Ok(()) => Ok(Committed::At(at)),
        Err(fault) => Err(fault),
    }
}

/// Commits a running transaction whose files have their marks, or aborts it where a commit conflicts with it.
fn end_running<D: Shelf>(
    alloc: Global,
    house: &mut House<D>,
    due: CommitWrites,
) -> Result<Committed, ActFault>
    requires whole { IsWhole D.told house.old }
    requires hard { ShutsHard D.hard (seen_of house.old) }
    requires running { RunsWith (trail_of house.old.trail) due.txn 1 }
    requires small { IsSmall (entry.Commit due.txn due.wrote) }
    requires can { CanBePut (trail_of house.old.trail) due.txn due.wrote due.put }
    requires truly { IsToldHouse D.told house.old
        → IsCommitDue (trail_of house.old.trail) due.txn due.wrote due.put }
    requires unbroken { broken (Txn due.txn) (trail_of house.old.trail) ≡ None }
    ensures committed { CommitStep D.told D.faults due
        house.old house.new result }
    ensures hard { ShutsHard D.hard (seen_of house.new) }
{
    if !is_put(house, due.txn, &due.put) {
        return Err(late(house, due.txn));
    }
    match clash(house.book(), due.txn, due.wrote.as_slice()) {
        Some(found) => end_by_conflict(alloc, house, &due, found),
        None => end_by_commit(house, due),
    }
}

fn commit_writes<D: Shelf>(
    alloc: Global,
    house: &mut House<D>,
    due: CommitWrites,
) -> Result<Committed, ActFault>
    requires whole { IsWhole D.told house.old }
    requires hard { ShutsHard D.hard (seen_of house.old) }
    requires small { IsSmall (entry.Commit due.txn due.wrote) }
    requires can { CanBePut (trail_of house.old.trail) due.txn due.wrote due.put }
    requires truly { IsToldHouse D.told house.old
        → IsCommitDue (trail_of house.old.trail) due.txn due.wrote due.put }
    ensures committed { CommitStep D.told D.faults due
        house.old house.new result }
    ensures hard { ShutsHard D.hard (seen_of house.new) }
{
    if !runs_with(house, due.txn, 1) {
        return Err(late(house, due.txn));
    }
    match house.broken(due.txn) {
        Some((put, count)) => Err(ActFault::Broken { put, count }),
        None => end_running(alloc, house, due),
    }
}

impl<D: Shelf + Drop> Act<D, ToldHouse<D>> for CommitWrites {
    ghost use Rattle.hv_history.specs.declared.entry.Entry.TheVariants as entry;
    ghost use Rattle.hv_telling.specs.hv_house.specs.House.{IsSmall};
    ghost use Rattle.hv_telling.specs.Telling.{IsTold};
    ghost use Rattle.hv_acts.specs.Meant.{IsCommitDue};
    ghost use Rattle.hv_acts.specs.Answers.{answer_outcome, AnswerLeaves};
    ghost use Rattle.hv_acts.specs.Committing.{CanBePut, call_to_commit, adds_commit, CommitAnswers};
    ghost use Rattle.hv_acts.specs.Few.{few_commit};
    ghost use Rattle.hv_acts.specs.Laters.{commit_later};

    type Answer = Result<Committed, ActFault>;

    ghost can = { λ act house. IsSmall (entry.Commit act.txn act.wrote) × CanBePut house.trail act.txn act.wrote act.put
        × (IsTold D.told house.start → IsCommitDue house.trail act.txn act.wrote act.put) };

    ghost call = { λ act house answer. call_to_commit act.txn act.wrote answer };

    ghost outcome = { λ act answer. answer_outcome answer };

    ghost adds = { λ act answer. adds_commit act.txn act.wrote answer };

    ghost does = { λ act house now answer. CommitAnswers house.trail act.txn act.wrote act.name act.put answer
        × AnswerLeaves D.told D.faults act.txn.0 house now answer };

    ghost most = { 1 };

    ghost few = { λ act answer. few_commit act.txn act.wrote answer };

    ghost goes_on = { λ act answer before now step does.
        commit_later D.told D.faults act.txn act.wrote answer before now step does.1 };

    fn act(self, alloc: Global, house: &mut ToldHouse<D>) -> Result<Committed, ActFault> {
        if house.house.is_closed() {
            Err(ActFault::House(HouseFault::Store))
        } else {
            commit_writes(alloc, &mut house.house, self)
        }
    }
}
