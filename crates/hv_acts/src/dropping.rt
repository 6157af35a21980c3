ghost use Rattle.std.specs.Prelude.{◌≡◌, IfOk, length};
ghost use Rattle.hv_trail.specs.Trail.{book_of};
ghost use Rattle.hv_trail.specs.Kept.{trail_of};
ghost use Rattle.hv_telling.specs.hv_house.specs.Housed.{ShutsHard};
ghost use Rattle.hv_telling.specs.hv_house.specs.Steps.{seen_of};
ghost use Rattle.hv_telling.specs.Telling.{IsToldHouse, IsWhole};
ghost use Rattle.hv_acts.specs.Answers.{own_table};
ghost use Rattle.hv_acts.specs.Meant.{IsDropMeant};
ghost use Rattle.hv_acts.specs.Dropping.{DropStep};

use crate::fault::ActFault;
use crate::noting::{late, next_place, note_fitting, runs_with};
use crate::told::ToldHouse;
use hv_actor::Act;
use hv_base::{TableId, TxnId};
use hv_history::Entry;
use hv_shelf::Shelf;
use hv_telling::hv_house::{House, HouseFault};
use std::alloc::Global;

/// Ends a transaction by the drop of the table that its text names, and answers the place of its Drop.
#[derive(Drop)]
pub struct DropTable {
    pub txn: TxnId,
    pub table: TableId,
}

#[tactic(auto, using(crate::proofs::Shorts::short_drop))]
fn drop_table<D: Shelf>(house: &mut House<D>, txn: TxnId, table: TableId) -> Result<u64, ActFault>
    requires whole { IsWhole D.told house.old }
    requires hard { ShutsHard D.hard (seen_of house.old) }
    requires truly { IsToldHouse D.told house.old → IsDropMeant (trail_of house.old.trail) txn table }
    ensures dropped { DropStep D.told D.faults (own_table txn table) house.old house.new result }
    ensures place { IfOk result (λ place. place ≡ length (book_of (trail_of house.old.trail))) }
    ensures hard { ShutsHard D.hard (seen_of house.new) }
{
    if !runs_with(house, txn, 0) {
        return Err(late(house, txn));
    }
    let at = next_place(house);
    match note_fitting(house, txn, Entry::Drop { txn, table }) {
        Ok(()) => Ok(at),
        Err(fault) => Err(fault),
    }
}

impl<D: Shelf + Drop> Act<D, ToldHouse<D>> for DropTable {
    ghost use Rattle.hv_history.specs.declared.entry.Entry.TheVariants as entry;
    ghost use Rattle.hv_trail.specs.Steps.{Note};
    ghost use Rattle.hv_telling.specs.Telling.{IsTold};
    ghost use Rattle.hv_acts.specs.Answers.{answer_call, answer_outcome, adds_entry, NoTest, Answers, AnswerLeaves};
    ghost use Rattle.hv_acts.specs.Meant.{IsDropMeant};
    ghost use Rattle.hv_acts.specs.Dropping.{CanDrop, IsDroppedAt, drop_of};
    ghost use Rattle.hv_acts.specs.Few.{few_entry};
    ghost use Rattle.hv_acts.specs.Laters.{note_later};

    type Answer = Result<u64, ActFault>;

    ghost can = { λ act house. IsTold D.told house.start → IsDropMeant house.trail act.txn act.table };

    ghost call = { λ act house answer. answer_call (Note (entry.Drop act.txn act.table)) answer };

    ghost outcome = { λ act answer. answer_outcome answer };

    ghost adds = { λ act answer. adds_entry (drop_of act.txn act.table) answer };

    ghost does = { λ act house now answer. Answers NoTest house.trail act.txn (CanDrop house.trail act.txn act.table)
        (IsDroppedAt house.trail) answer
        × AnswerLeaves D.told D.faults act.txn.0 house now answer };

    ghost most = { 1 };

    ghost few = { λ act answer. few_entry (drop_of act.txn act.table) answer };

    ghost goes_on = { λ act answer before now step does.
        note_later D.told D.faults (entry.Drop act.txn act.table) act.txn.0 answer before now step does.1 };

    fn act(self, _alloc: Global, house: &mut ToldHouse<D>) -> Result<u64, ActFault> {
        if house.house.is_closed() {
            Err(ActFault::House(HouseFault::Store))
        } else {
            drop_table(&mut house.house, self.txn, self.table)
        }
    }
}
