//! A transaction that is opened in one hold, and started in another, or aborted there for what stands in its way.
ghost use Rattle.std.specs.Prelude.{◌≡◌, ◌↔◌, ◌≤◌, Some, IsTrue, IfOk, length};
ghost use Rattle.hv_base.specs.declared.ids.TxnId.{TxnId};
ghost use Rattle.hv_built.specs.Running.{Runs};
ghost use Rattle.hv_history.specs.declared.entry.Cause.TheVariants as cause;
ghost use Rattle.hv_history.specs.Legal.{Of, IsWaiting, FullFits, profile};
ghost use Rattle.hv_trail.specs.Trail.{state_at};
ghost use Rattle.hv_trail.specs.Kept.{trail_of};
ghost use Rattle.hv_telling.specs.hv_house.specs.House.{IsReady};
ghost use Rattle.hv_telling.specs.hv_house.specs.Housed.{ShutsHard};
ghost use Rattle.hv_telling.specs.hv_house.specs.Steps.{seen_of};
ghost use Rattle.hv_telling.specs.Telling.{IsWhole};
ghost use Rattle.hv_acts.specs.Answers.{aborted_line};
ghost use Rattle.hv_acts.specs.Aborting.{AbortStep, abort_of};
ghost use Rattle.hv_acts.specs.Starting.{WaitsInFull, StartOrAbortStep};
ghost use Rattle.hv_acts.specs.Waiting.{next_txn, IsHeld, OpenStep, StartStep};

use crate::aborted::Aborted;
use crate::fault::ActFault;
use crate::noting::{
    abort_full, is_full, let_go, next_place, note_abort, note_fitting, told_abort,
};
use crate::told::ToldHouse;
use hv_actor::Act;
use hv_ast::{Stmt, discard};
use hv_base::{NoMemory, Text, TxnId};
use hv_history::{Cause, Entry};
use hv_locks::LockState;
use hv_meta::is_running;
use hv_shelf::Shelf;
use hv_telling::hv_house::{House, HouseFault};
use hv_telling::note;
use std::alloc::Global;

/// Opens a transaction for a statement, where there is room for its Opened and its end, and answers its number. It waits
/// then for its Start. `tree` is that of the text.
#[derive(Drop)]
pub struct OpenTransaction {
    pub session: Text,
    pub number: u64,
    pub text: Text,
    pub tree: Stmt,
}

/// Starts an opened transaction, where no lock is held against its statement and there is room, and answers the place of
/// its Start.
#[derive(Drop)]
pub struct StartTransaction {
    pub txn: TxnId,
}

/// Starts an opened transaction, where no lock is held against its statement and there is room, and answers the place of
/// its Start. Else it is aborted in the same hold, for the lock or for want of room.
#[derive(Drop)]
pub struct StartOrAbort {
    pub txn: TxnId,
}

/// What came of a transaction that was to start at once.
#[derive(Drop)]
pub enum Started {
    At(u64),
    /// A lock stood in its way, or there was no room.
    Aborted(Aborted),
}

fn open_transaction<D: Shelf>(
    house: &mut House<D>,
    session: Text,
    number: u64,
    text: Text,
    tree: Stmt,
) -> Result<TxnId, ActFault>
    requires whole { IsWhole D.told house.old }
    requires hard { ShutsHard D.hard (seen_of house.old) }
    requires runs { Runs text tree }
    requires short { length text ≤ 32768 }
    requires named { length session ≤ 32 }
    ensures opened { OpenStep D.told D.faults (record { session = session; number = number; text = text }) house.old
        house.new result }
    ensures next { IfOk result (λ txn. txn ≡ next_txn (trail_of house.old.trail)) }
    ensures hard { ShutsHard D.hard (seen_of house.new) }
{
    let txn = house.next_txn();
    let entry = Entry::Opened {
        txn,
        session,
        number,
        text,
    };
    if !house.fits(&entry, Some(&tree)) {
        let entries = next_place(house);
        discard(tree);
        let_go(entry);
        return Err(ActFault::Full { entries });
    }
    match note(house, entry, Some(tree)) {
        Ok(()) => Ok(txn),
        Err(fault) => Err(ActFault::House(fault)),
    }
}

/// The lowest open started transaction that holds a lock against the statement of one that waits.
fn holder<D: Shelf>(house: &House<D>, txn: TxnId) -> Option<TxnId>
    requires ready { IsReady D.told house.now }
    ensures held { (by : TxnId) → (result ≡ Some by) ↔ IsHeld (trail_of house.now.trail) txn by }
{
    match house.book().opening_tree(txn.0) {
        Some(tree) => match house.check(tree) {
            LockState::Waiting { blocker } => {
                let cause = Cause::Blocked { holder: blocker };
                if house.fits(&Entry::Abort { txn, cause }, None) {
                    Some(blocker)
                } else {
                    None
                }
            }
            LockState::Granted => None,
        },
        None => None,
    }
}

/// Starts a transaction against which nobody holds a lock, where there is room.
fn start_in_room<D: Shelf>(house: &mut House<D>, txn: TxnId) -> Result<u64, ActFault>
    requires whole { IsWhole D.told house.old }
    requires hard { ShutsHard D.hard (seen_of house.old) }
    requires unheld { (by : TxnId) → IsHeld (trail_of house.old.trail) txn by → ⊥ }
    ensures started { StartStep D.told D.faults txn house.old house.new result }
    ensures hard { ShutsHard D.hard (seen_of house.new) }
{
    let place = next_place(house);
    if is_full(house, txn) {
        return Err(ActFault::Full { entries: place });
    }
    match note_fitting(house, txn, Entry::Start { txn, statement: 0 }) {
        Ok(()) => Ok(place),
        Err(fault) => Err(fault),
    }
}

fn start_transaction<D: Shelf>(house: &mut House<D>, txn: TxnId) -> Result<u64, ActFault>
    requires whole { IsWhole D.told house.old }
    requires hard { ShutsHard D.hard (seen_of house.old) }
    ensures started { StartStep D.told D.faults txn house.old house.new result }
    ensures hard { ShutsHard D.hard (seen_of house.new) }
{
    match holder(house, txn) {
        Some(by) => Err(ActFault::Held { by }),
        None => start_in_room(house, txn),
    }
}

/// Whether a transaction waits, and there is no room for an entry more.
fn waits_in_full<D: Shelf>(house: &House<D>, txn: TxnId) -> bool
    requires ready { IsReady D.told house.now }
    ensures full { IsTrue result ↔ WaitsInFull (trail_of house.now.trail) txn }
{
    let runs = is_running(house.book(), txn);
    !runs && is_full(house, txn)
}

/// Aborts a transaction that waits, for the one that holds a lock against it.
fn abort_blocked<D: Shelf>(
    alloc: Global,
    house: &mut House<D>,
    txn: TxnId,
    holder: TxnId,
) -> Result<Aborted, HouseFault>
    requires whole { IsWhole D.told house.old }
    requires hard { ShutsHard D.hard (seen_of house.old) }
    requires held { IsHeld (trail_of house.old.trail) txn holder }
    ensures noted { AbortStep D.told D.faults
        (abort_of txn (cause.Blocked holder) (aborted_line (cause.Blocked holder))) house.old house.new result }
    ensures hard { ShutsHard D.hard (seen_of house.new) }
{
    let at = next_place(house);
    match told_abort(alloc, at, Cause::Blocked { holder }) {
        Ok(aborted) => note_abort(house, txn, Cause::Blocked { holder }, aborted),
        Err(NoMemory) => Err(HouseFault::NoMemory),
    }
}

fn start_blocked<D: Shelf>(
    alloc: Global,
    house: &mut House<D>,
    txn: TxnId,
    holder: TxnId,
) -> Result<Started, ActFault>
    requires whole { IsWhole D.told house.old }
    requires hard { ShutsHard D.hard (seen_of house.old) }
    requires held { IsHeld (trail_of house.old.trail) txn holder }
    ensures started { StartOrAbortStep D.told D.faults txn house.old house.new result }
    ensures hard { ShutsHard D.hard (seen_of house.new) }
{
    match abort_blocked(alloc, house, txn, holder) {
        Ok(aborted) => Ok(Started::Aborted(aborted)),
        Err(fault) => Err(ActFault::House(fault)),
    }
}

fn start_full<D: Shelf>(
    alloc: Global,
    house: &mut House<D>,
    txn: TxnId,
) -> Result<Started, ActFault>
    requires whole { IsWhole D.told house.old }
    requires hard { ShutsHard D.hard (seen_of house.old) }
    requires unheld { (by : TxnId) → IsHeld (trail_of house.old.trail) txn by → ⊥ }
    requires full { WaitsInFull (trail_of house.old.trail) txn }
    ensures started { StartOrAbortStep D.told D.faults txn house.old house.new result }
    ensures hard { ShutsHard D.hard (seen_of house.new) }
{
    match abort_full(alloc, house, txn) {
        Ok(aborted) => Ok(Started::Aborted(aborted)),
        Err(fault) => Err(ActFault::House(fault)),
    }
}

/// Starts a transaction in whose way nothing stands.
fn start_free<D: Shelf>(house: &mut House<D>, txn: TxnId) -> Result<Started, ActFault>
    requires whole { IsWhole D.told house.old }
    requires hard { ShutsHard D.hard (seen_of house.old) }
    requires unheld { (by : TxnId) → IsHeld (trail_of house.old.trail) txn by → ⊥ }
    requires room { WaitsInFull (trail_of house.old.trail) txn → ⊥ }
    ensures started { StartOrAbortStep D.told D.faults txn house.old house.new result }
    ensures hard { ShutsHard D.hard (seen_of house.new) }
{
    let place = next_place(house);
    match note_fitting(house, txn, Entry::Start { txn, statement: 0 }) {
        Ok(()) => Ok(Started::At(place)),
        Err(fault) => Err(fault),
    }
}

/// Starts a transaction against which nobody holds a lock, or aborts it where it waits and there is no room.
fn start_unheld<D: Shelf>(
    alloc: Global,
    house: &mut House<D>,
    txn: TxnId,
) -> Result<Started, ActFault>
    requires whole { IsWhole D.told house.old }
    requires hard { ShutsHard D.hard (seen_of house.old) }
    requires unheld { (by : TxnId) → IsHeld (trail_of house.old.trail) txn by → ⊥ }
    ensures started { StartOrAbortStep D.told D.faults txn house.old house.new result }
    ensures hard { ShutsHard D.hard (seen_of house.new) }
{
    if waits_in_full(house, txn) {
        start_full(alloc, house, txn)
    } else {
        start_free(house, txn)
    }
}

fn start_or_abort<D: Shelf>(
    alloc: Global,
    house: &mut House<D>,
    txn: TxnId,
) -> Result<Started, ActFault>
    requires whole { IsWhole D.told house.old }
    requires hard { ShutsHard D.hard (seen_of house.old) }
    ensures started { StartOrAbortStep D.told D.faults txn house.old house.new result }
    ensures hard { ShutsHard D.hard (seen_of house.new) }
{
    match holder(house, txn) {
        Some(by) => start_blocked(alloc, house, txn, by),
        None => start_unheld(alloc, house, txn),
    }
}

impl<D: Shelf + Drop> Act<D, ToldHouse<D>> for OpenTransaction {
    ghost use Rattle.std.specs.Prelude.{◌≤◌, length};
    ghost use Rattle.hv_base.specs.declared.ids.TxnId.{TxnId};
    ghost use Rattle.hv_built.specs.Running.{Runs};
    ghost use Rattle.hv_history.specs.declared.entry.Entry.TheVariants as entry;
    ghost use Rattle.hv_trail.specs.Steps.{Note};
    ghost use Rattle.hv_acts.specs.Answers.{answer_call, answer_outcome, adds_entry};
    ghost use Rattle.hv_acts.specs.Waiting.{next_opened, OpenAnswers, OpenLeaves};
    ghost use Rattle.hv_acts.specs.Few.{few_entry};
    ghost use Rattle.hv_acts.specs.Laters.{open_later};

    type Answer = Result<TxnId, ActFault>;

    ghost can = { λ act house. Runs act.text act.tree × (length act.text ≤ 32768) × (length act.session ≤ 32) };

    ghost call = { λ act house answer. answer_call (Note (next_opened house.trail act.session act.number act.text))
        answer };

    ghost outcome = { λ act answer. answer_outcome answer };

    ghost adds = { λ act answer.
        adds_entry (λ (txn : TxnId). entry.Opened txn act.session act.number act.text) answer };

    ghost does = { λ act house now answer. OpenAnswers house.trail answer
        × OpenLeaves D.told D.faults (record { session = act.session; number = act.number; text = act.text }) house now
        answer };

    ghost most = { 1 };

    ghost few = { λ act answer.
        few_entry (λ (txn : TxnId). entry.Opened txn act.session act.number act.text) answer };

    ghost goes_on = { λ act answer before now step does.
        open_later D.told D.faults (record { session = act.session; number = act.number; text = act.text })
        answer before now step does.1 };

    fn act(self, _alloc: Global, house: &mut ToldHouse<D>) -> Result<TxnId, ActFault> {
        if house.house.is_closed() {
            discard(self.tree);
            Err(ActFault::House(HouseFault::Store))
        } else {
            open_transaction(
                &mut house.house,
                self.session,
                self.number,
                self.text,
                self.tree,
            )
        }
    }
}

impl<D: Shelf + Drop> Act<D, ToldHouse<D>> for StartTransaction {
    ghost use Rattle.std.specs.Prelude.{ℕ};
    ghost use Rattle.hv_history.specs.declared.entry.Entry.TheVariants as entry;
    ghost use Rattle.hv_trail.specs.Steps.{Note};
    ghost use Rattle.hv_acts.specs.Answers.{answer_call, answer_outcome, adds_entry, AnswerLeaves};
    ghost use Rattle.hv_acts.specs.Waiting.{StartAnswers};
    ghost use Rattle.hv_acts.specs.Few.{few_entry};
    ghost use Rattle.hv_acts.specs.Laters.{note_later};

    type Answer = Result<u64, ActFault>;

    ghost can = { λ act house. Unit {0} };

    ghost call = { λ act house answer. answer_call (Note (entry.Start act.txn 0)) answer };

    ghost outcome = { λ act answer. answer_outcome answer };

    ghost adds = { λ act answer. adds_entry (λ (place : ℕ). entry.Start act.txn 0) answer };

    ghost does = { λ act house now answer. StartAnswers house.trail act.txn answer
        × AnswerLeaves D.told D.faults act.txn.0 house now answer };

    ghost most = { 1 };

    ghost few = { λ act answer. few_entry (λ (place : ℕ). entry.Start act.txn 0) answer };

    ghost goes_on = { λ act answer before now step does.
        note_later D.told D.faults (entry.Start act.txn 0) act.txn.0 answer before now step does.1 };

    fn act(self, _alloc: Global, house: &mut ToldHouse<D>) -> Result<u64, ActFault> {
        if house.house.is_closed() {
            Err(ActFault::House(HouseFault::Store))
        } else {
            start_transaction(&mut house.house, self.txn)
        }
    }
}

impl<D: Shelf + Drop> Act<D, ToldHouse<D>> for StartOrAbort {
    ghost use Rattle.hv_acts.specs.Answers.{answer_outcome, AnswerLeaves};
    ghost use Rattle.hv_acts.specs.Starting.{call_to_start, adds_started, StartOrAbortAnswers};
    ghost use Rattle.hv_acts.specs.Few.{few_started};
    ghost use Rattle.hv_acts.specs.Laters.{start_later};

    type Answer = Result<Started, ActFault>;

    ghost can = { λ act house. Unit {0} };

    ghost call = { λ act house answer. call_to_start house.trail act.txn answer };

    ghost outcome = { λ act answer. answer_outcome answer };

    ghost adds = { λ act answer. adds_started act.txn answer };

    ghost does = { λ act house now answer. StartOrAbortAnswers house.trail act.txn answer
        × AnswerLeaves D.told D.faults act.txn.0 house now answer };

    ghost most = { 1 };

    ghost few = { λ act answer. few_started act.txn answer };

    ghost goes_on = { λ act answer before now step does.
        start_later D.told D.faults act.txn answer before now step does.1 };

    fn act(self, alloc: Global, house: &mut ToldHouse<D>) -> Result<Started, ActFault> {
        if house.house.is_closed() {
            Err(ActFault::House(HouseFault::Store))
        } else {
            start_or_abort(alloc, &mut house.house, self.txn)
        }
    }
}
