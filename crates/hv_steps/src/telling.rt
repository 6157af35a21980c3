//! How a transaction has ended that others may have ended.

ghost use Rattle.std.specs.Prelude.{◌≡◌, ℕ, Some, [], IfOk, IfErr};
ghost use Rattle.std.specs.Option.{option_map};
ghost use Rattle.hv_table_reader.specs.hv_acts.specs.declared.fault.ActFault.TheVariants as act_fault;
ghost use Rattle.hv_table_reader.specs.hv_acts.specs.Told.{trail_in};
ghost use Rattle.hv_table_reader.specs.hv_acts.specs.Going.{AddsOwn, HaltsFor, IsOpenHouse};
ghost use Rattle.hv_table_reader.specs.hv_acts.specs.Reading.{IsOfHouse};
ghost use Rattle.hv_steps.specs.Going.{Goes, IsGone, IsSaid, SaysEnd, end_reply};
ghost use Rattle.hv_steps.specs.Phases.{AbortsFor, NoCause};
ghost use Rattle.hv_actor.specs.Acting.{among, known};

use crate::ready::Reply;
use crate::reply::Done;
use hv_actor::Actor;
use hv_base::TxnId;
use hv_shelf::Shelf;
use hv_table_reader::hv_acts::hv_telling::hv_house::HouseFault;
use hv_table_reader::hv_acts::{ActFault, EndTold, TellEnd, ToldHouse};
use std::alloc::Global;

/// The fault of the house for which an act was refused that makes no test.
fn house_fault(why: ActFault) -> HouseFault
    requires house { IsOfHouse why }
    ensures fault { why ≡ act_fault.House result }
{
    match why {
        ActFault::House(fault) => fault,
        ActFault::Ended { .. }
        | ActFault::Full { .. }
        | ActFault::Held { .. }
        | ActFault::Broken { .. }
        | ActFault::Unfit => unreachable!(),
    }
}

/// What is printed where others have ended a statement.
fn end_reply(told: EndTold) -> Reply
    ensures reply { result ≡ end_reply told }
{
    let EndTold { at, refused, text } = told;
    Reply {
        text,
        refused,
        ended: Some(at),
    }
}

fn end_replied(told: Option<EndTold>) -> Option<Reply>
    ensures replied { result ≡ option_map end_reply told }
{
    match told {
        Some(told) => Some(end_reply(told)),
        None => None,
    }
}

/// Asks what is printed for a transaction that has ended: None where it hasn't.
///
/// # Errors
/// `Store` where others closed the house, and `NoMemory` where memory lacked for that.
pub fn tell_end<D: Shelf + Drop, W: Actor<D, ToldHouse<D>>>(
    alloc: Global,
    actor: &mut W,
    txn: TxnId,
) -> Result<Option<Reply>, HouseFault>
    requires keeps { W.keeps actor.old }
    requires running { IsOpenHouse (W.house actor.old) }
    ensures keeps { W.keeps actor.new }
    ensures adds { AddsOwn D.faults W.between txn.0 (known (W.own actor.old) (W.house actor.old))
        (known (W.own actor.new) (W.house actor.new)) [] }
    ensures running { IfOk result (λ _. IsOpenHouse (W.house actor.new)) }
    ensures halts { IfErr result (HaltsFor D.told W.meanwhile txn.0 (W.house actor.new)) }
    ensures says { IfOk result (SaysEnd (trail_in (W.house actor.new)) txn.0) }
{
    match actor.hold(alloc, TellEnd { txn }) {
        Ok(told) => Ok(end_replied(told)),
        Err(why) => Err(house_fault(why)),
    }
}

/// The reply of a transaction that has ended.
fn gone_reply(said: Option<Reply>) -> Reply
    requires said { IsSaid said }
    ensures reply { said ≡ Some result }
{
    match said {
        Some(reply) => reply,
        None => unreachable!(),
    }
}

/// What comes of a transaction that others have ended, by the entry at a place.
///
/// # Errors
/// As `tell_end`.
pub fn tell_gone<D: Shelf + Drop, W: Actor<D, ToldHouse<D>>>(
    alloc: Global,
    actor: &mut W,
    txn: TxnId,
    _at: u64,
) -> Result<Done, HouseFault>
    requires keeps { W.keeps actor.old }
    requires running { IsOpenHouse (W.house actor.old) }
    requires gone { IsGone (trail_in (W.house actor.old)) txn.0 _at }
    ensures keeps { W.keeps actor.new }
    ensures goes { (low : ℕ) → Goes (among D.told D.faults W.between W.meanwhile) low txn.0
        (known (W.own actor.old) (W.house actor.old)) (known (W.own actor.new) (W.house actor.new))
        (AbortsFor txn.0 (W.house actor.new) [] NoCause) result }
{
    match tell_end(alloc, actor, txn) {
        Ok(said) => Ok(Done::Gone(gone_reply(said))),
        Err(why) => Err(why),
    }
}
