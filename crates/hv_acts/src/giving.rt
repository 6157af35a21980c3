ghost use Rattle.std.specs.Prelude.{◌≡◌};
ghost use Rattle.hv_history.specs.Legal.{Of, FullFits, profile};
ghost use Rattle.hv_trail.specs.Trail.{state_at};
ghost use Rattle.hv_trail.specs.Kept.{trail_of};
ghost use Rattle.hv_telling.specs.hv_house.specs.Housed.{ShutsHard};
ghost use Rattle.hv_telling.specs.hv_house.specs.Steps.{seen_of};
ghost use Rattle.hv_telling.specs.Telling.{IsToldHouse, IsWhole};
ghost use Rattle.hv_acts.specs.Answers.{next_id, own_table};
ghost use Rattle.hv_acts.specs.Giving.{GiveStep};
ghost use Rattle.hv_acts.specs.Meant.{RunsWith, IsIdDue};

use crate::aborted::Aborted;
use crate::fault::ActFault;
use crate::noting::{abort_full, is_full, late, note_fitting, runs_with};
use crate::told::ToldHouse;
use hv_actor::Act;
use hv_base::{TableId, TxnId, WriteId};
use hv_history::Entry;
use hv_shelf::Shelf;
use hv_telling::hv_house::{House, HouseFault};
use std::alloc::Global;

/// Gives a transaction that has none the next write id of a table, and answers it. Where there is no room for that, aborts it.
#[derive(Drop)]
pub struct GiveId {
    pub txn: TxnId,
    pub table: TableId,
}

/// What came of a write id that was to be given.
#[derive(Drop)]
pub enum Given {
    Id(WriteId),
    /// There was no room for it.
    Aborted(Aborted),
}

/// The next write id of a table, which is 1 where no table has that number.
fn next_id<D: Shelf>(house: &House<D>, table: TableId) -> WriteId
    ensures next { result ≡ next_id (trail_of house.now.trail) table }
{
    match house.next_write(table) {
        Some(write) => write,
        None => WriteId(1),
    }
}

/// Aborts a transaction that runs without a write id, and for which there is no room.
fn give_none<D: Shelf>(
    alloc: Global,
    house: &mut House<D>,
    txn: TxnId,
    table: TableId,
) -> Result<Given, ActFault>
    requires whole { IsWhole D.told house.old }
    requires hard { ShutsHard D.hard (seen_of house.old) }
    requires runs { RunsWith (trail_of house.old.trail) txn 0 }
    requires full { Of (state_at (trail_of house.old.trail)) txn.0
        (FullFits profile (state_at (trail_of house.old.trail))) }
    requires truly { IsToldHouse D.told house.old → IsIdDue (trail_of house.old.trail) txn table }
    ensures given { GiveStep D.told D.faults (own_table txn table) house.old house.new result }
    ensures hard { ShutsHard D.hard (seen_of house.new) }
{
    match abort_full(alloc, house, txn) {
        Ok(aborted) => Ok(Given::Aborted(aborted)),
        Err(fault) => Err(ActFault::House(fault)),
    }
}

/// Gives the next write id of a table, where that fits, to a transaction that runs without one, and for which there is room.
#[tactic(auto, using(crate::proofs::Shorts::short_given))]
fn give_next<D: Shelf>(house: &mut House<D>, txn: TxnId, table: TableId) -> Result<Given, ActFault>
    requires whole { IsWhole D.told house.old }
    requires hard { ShutsHard D.hard (seen_of house.old) }
    requires runs { RunsWith (trail_of house.old.trail) txn 0 }
    requires room { Of (state_at (trail_of house.old.trail)) txn.0
        (FullFits profile (state_at (trail_of house.old.trail))) → ⊥ }
    ensures given { GiveStep D.told D.faults (own_table txn table) house.old house.new result }
    ensures hard { ShutsHard D.hard (seen_of house.new) }
{
    let write = next_id(house, table);
    match note_fitting(house, txn, Entry::Given { txn, table, write }) {
        Ok(()) => Ok(Given::Id(write)),
        Err(fault) => Err(fault),
    }
}

fn give_id<D: Shelf>(
    alloc: Global,
    house: &mut House<D>,
    txn: TxnId,
    table: TableId,
) -> Result<Given, ActFault>
    requires whole { IsWhole D.told house.old }
    requires hard { ShutsHard D.hard (seen_of house.old) }
    requires truly { IsToldHouse D.told house.old → IsIdDue (trail_of house.old.trail) txn table }
    ensures given { GiveStep D.told D.faults (own_table txn table) house.old house.new result }
    ensures hard { ShutsHard D.hard (seen_of house.new) }
{
    if !runs_with(house, txn, 0) {
        return Err(late(house, txn));
    }
    if is_full(house, txn) {
        give_none(alloc, house, txn, table)
    } else {
        give_next(house, txn, table)
    }
}

impl<D: Shelf + Drop> Act<D, ToldHouse<D>> for GiveId {
    ghost use Rattle.hv_telling.specs.Telling.{IsTold};
    ghost use Rattle.hv_acts.specs.Answers.{answer_outcome, AnswerLeaves};
    ghost use Rattle.hv_acts.specs.Giving.{call_to_give, adds_given, GiveAnswers};
    ghost use Rattle.hv_acts.specs.Meant.{IsIdDue};
    ghost use Rattle.hv_acts.specs.Few.{few_given};
    ghost use Rattle.hv_acts.specs.Laters.{give_later};

    type Answer = Result<Given, ActFault>;

    ghost can = { λ act house. IsTold D.told house.start → IsIdDue house.trail act.txn act.table };

    ghost call = { λ act house answer. call_to_give house.trail act.txn act.table answer };

    ghost outcome = { λ act answer. answer_outcome answer };

    ghost adds = { λ act answer. adds_given act.txn act.table answer };

    ghost does = { λ act house now answer. GiveAnswers house.trail act.txn act.table answer
        × AnswerLeaves D.told D.faults act.txn.0 house now answer };

    ghost most = { 1 };

    ghost few = { λ act answer. few_given act.txn act.table answer };

    ghost goes_on = { λ act answer before now step does.
        give_later D.told D.faults act.txn act.table answer before now step does.1 };

    fn act(self, alloc: Global, house: &mut ToldHouse<D>) -> Result<Given, ActFault> {
        if house.house.is_closed() {
            Err(ActFault::House(HouseFault::Store))
        } else {
            give_id(alloc, &mut house.house, self.txn, self.table)
        }
    }
}
