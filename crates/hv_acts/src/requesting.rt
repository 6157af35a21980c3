ghost use Rattle.std.specs.Prelude.{◌≡◌, ◌==◌, ◌&&◌, not, nat_lt};
ghost use Rattle.hv_trail.specs.Kept.{trail_of};
ghost use Rattle.hv_telling.specs.hv_house.specs.Housed.{ShutsHard};
ghost use Rattle.hv_telling.specs.hv_house.specs.Steps.{seen_of};
ghost use Rattle.hv_telling.specs.Telling.{IsWhole};
ghost use Rattle.hv_acts.specs.Passing.{is_left};
ghost use Rattle.hv_acts.specs.Requesting.{RequestStep};

use crate::fault::ActFault;
use crate::noting::{late, note_fitting, runs_with};
use crate::told::ToldHouse;
use hv_actor::Act;
use hv_base::TxnId;
use hv_history::{Cause, Entry};
use hv_meta::is_unended;
use hv_shelf::Shelf;
use hv_showing::hv_earlier::opened_at;
use hv_telling::hv_house::{House, HouseFault};
use std::alloc::Global;

/// Asks for the abort of a transaction in the name of another one, whose Start stands at `place`: its text lists it. Answers
/// whether it was aborted: not where it is the asker itself, was opened behind that Start, or has ended.
#[derive(Drop)]
pub struct AskAbort {
    pub by: TxnId,
    pub place: u64,
    pub txn: TxnId,
}

fn is_due(own: u64, opened: u64, txn: u64, unended: bool) -> bool
    ensures due { result ≡ (not (txn == own) && (not (nat_lt opened txn) && unended)) }
{
    txn != own && !(opened < txn) && unended
}

/// Whether its abort is still to be asked for.
fn is_left<D: Shelf>(house: &House<D>, by: TxnId, place: u64, txn: TxnId) -> bool
    ensures left { result ≡ is_left (trail_of house.now.trail) by place txn.0 }
{
    let book = house.book();
    let opened = opened_at(book, place as usize);
    let unended = is_unended(book, txn);
    is_due(by.0, opened, txn.0, unended)
}

#[tactic(auto, using(crate::proofs::Shorts::short_request))]
fn ask_abort<D: Shelf>(
    house: &mut House<D>,
    by: TxnId,
    place: u64,
    txn: TxnId,
) -> Result<bool, ActFault>
    requires whole { IsWhole D.told house.old }
    requires hard { ShutsHard D.hard (seen_of house.old) }
    ensures requested { RequestStep D.told D.faults (record { by = by; place = place; txn = txn }) house.old house.new
        result }
    ensures hard { ShutsHard D.hard (seen_of house.new) }
{
    if !runs_with(house, by, 0) {
        return Err(late(house, by));
    }
    if !is_left(house, by, place, txn) {
        return Ok(false);
    }
    let cause = Cause::Request { by };
    match note_fitting(house, by, Entry::Abort { txn, cause }) {
        Ok(()) => Ok(true),
        Err(fault) => Err(fault),
    }
}

impl<D: Shelf + Drop> Act<D, ToldHouse<D>> for AskAbort {
    ghost use Rattle.hv_acts.specs.Answers.{answer_outcome, AnswerLeaves};
    ghost use Rattle.hv_acts.specs.Requesting.{call_to_request, adds_request, RequestAnswers};
    ghost use Rattle.hv_acts.specs.Few.{few_request};
    ghost use Rattle.hv_acts.specs.Laters.{request_later};

    type Answer = Result<bool, ActFault>;

    ghost can = { λ act house. Unit {0} };

    ghost call = { λ act house answer. call_to_request act.by act.txn answer };

    ghost outcome = { λ act answer. answer_outcome answer };

    ghost adds = { λ act answer. adds_request act.by act.txn answer };

    ghost does = { λ act house now answer. RequestAnswers house.trail act.by act.place act.txn answer
        × AnswerLeaves D.told D.faults act.by.0 house now answer };

    ghost most = { 1 };

    ghost few = { λ act answer. few_request act.by act.txn answer };

    ghost goes_on = { λ act answer before now step does.
        request_later D.told D.faults act.by act.txn answer before now step does.1 };

    fn act(self, _alloc: Global, house: &mut ToldHouse<D>) -> Result<bool, ActFault> {
        if house.house.is_closed() {
            Err(ActFault::House(HouseFault::Store))
        } else {
            ask_abort(&mut house.house, self.by, self.place, self.txn)
        }
    }
}
