//! A transaction that is started in its turn, or waits.
ghost use Rattle.std.specs.Prelude.{◌≡◌, ◌↔◌, false, Some, None, IfSome};
ghost use Rattle.hv_base.specs.declared.ids.TxnId.{TxnId};
ghost use Rattle.hv_trail.specs.Kept.{trail_of};
ghost use Rattle.hv_session.specs.hv_beginning.specs.hv_steps.specs.hv_table_reader.specs.hv_acts.specs.hv_telling.specs.hv_house.specs.House.{IsReady};
ghost use Rattle.hv_session.specs.hv_beginning.specs.hv_steps.specs.hv_table_reader.specs.hv_acts.specs.Told.{IsWholeOrClosed, trail_in};
ghost use Rattle.hv_waiting.specs.Queue.{IsInWay, IsFree};

use crate::ahead::who_is_ahead;
use hv_actor::Act;
use hv_base::TxnId;
use hv_session::hv_beginning::hv_steps::hv_table_reader::hv_acts::hv_telling::hv_house::House;
use hv_session::hv_beginning::hv_steps::hv_table_reader::hv_acts::{
    ActFault, StartOrAbort, Started, ToldHouse,
};
use hv_shelf::Shelf;
use std::alloc::Global;

/// Starts an opened transaction in its turn, and answers the place of its Start: where no open transaction has locks that
/// conflict with its own and has started or was opened before it. Where one has, the answer is the lowest that does
/// (`Held`), and nothing is noted. Where there is no room it is aborted in the same hold.
#[derive(Drop)]
pub struct StartOrWait {
    pub txn: TxnId,
}

/// Who stands in the way of one that waits.
fn in_way<D: Shelf>(house: &House<D>, txn: TxnId) -> Option<TxnId>
    requires ready { IsReady D.told house.now }
    ensures way { (by : TxnId) → (result ≡ Some by) ↔ IsInWay (trail_of house.now.trail) txn by }
{
    who_is_ahead(house.book(), txn)
}

/// The same in a house that may be closed: there nobody is asked for.
fn in_open_way<D: Shelf + Drop>(house: &ToldHouse<D>, txn: TxnId) -> Option<TxnId>
    requires keeps { IsWholeOrClosed D.told house.now.house }
    ensures running { IfSome result (λ by. house.now.house.trail.closed ≡ false) }
    ensures held { IfSome result (IsInWay (trail_in house.now) txn) }
    ensures free { result ≡ None → house.now.house.trail.closed ≡ false → IsFree (trail_in house.now) txn }
{
    if house.is_closed() {
        None
    } else {
        in_way(&house.house, txn)
    }
}

impl<D: Shelf + Drop> Act<D, ToldHouse<D>> for StartOrWait {
    ghost use Rattle.hv_session.specs.hv_beginning.specs.hv_steps.specs.hv_table_reader.specs.hv_acts.specs.Answers.{answer_outcome, AnswerLeaves};
    ghost use Rattle.hv_session.specs.hv_beginning.specs.hv_steps.specs.hv_table_reader.specs.hv_acts.specs.Starting.{call_to_start, adds_started};
    ghost use Rattle.hv_session.specs.hv_beginning.specs.hv_steps.specs.hv_table_reader.specs.hv_acts.specs.Few.{few_started};
    ghost use Rattle.hv_session.specs.hv_beginning.specs.hv_steps.specs.hv_table_reader.specs.hv_acts.specs.Laters.{start_later};
    ghost use Rattle.hv_waiting.specs.Starting.{StartOrWaitAnswers};

    type Answer = Result<Started, ActFault>;

    ghost can = { λ act house. Unit {0} };

    ghost call = { λ act house answer. call_to_start house.trail act.txn answer };

    ghost outcome = { λ act answer. answer_outcome answer };

    ghost adds = { λ act answer. adds_started act.txn answer };

    ghost does = { λ act house now answer. StartOrWaitAnswers house.trail act.txn answer
        × AnswerLeaves D.told D.faults act.txn.0 house now answer };

    ghost most = { 1 };

    ghost few = { λ act answer. few_started act.txn answer };

    ghost goes_on = { λ act answer before now step does.
        start_later D.told D.faults act.txn answer before now step does.1 };

    fn act(self, alloc: Global, house: &mut ToldHouse<D>) -> Result<Started, ActFault> {
        match in_open_way(house, self.txn) {
            Some(by) => Err(ActFault::Held { by }),
            None => StartOrAbort { txn: self.txn }.act(alloc, house),
        }
    }
}
