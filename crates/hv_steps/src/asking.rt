//! The aborts that a statement asks for, one after another.

ghost use Rattle.std.specs.Prelude.{◌≡◌, Some, IfOk, IfErr};
ghost use Rattle.hv_history.specs.Asking.{numbers_in};
ghost use Rattle.hv_table_reader.specs.hv_acts.specs.Told.{trail_in};
ghost use Rattle.hv_table_reader.specs.hv_acts.specs.Passing.{HasPassed, AllPassed};
ghost use Rattle.hv_table_reader.specs.hv_acts.specs.Reading.{HasPlace};
ghost use Rattle.hv_steps.specs.Going.{faults_in, AddsOwn, Goes, IsOpenHouse, WasOpened};
ghost use Rattle.hv_steps.specs.Leaving.{EndsAct, IsLeft};
ghost use Rattle.hv_steps.specs.Phases.{Asks};
ghost use Rattle.hv_steps.specs.Requests.{asked_entries, AsksOne, asks_stopped, AsksSoFar, HasAsked, IsAskIn, IsAskOf};
ghost use Rattle.hv_actor.specs.Acting.{among, known};

use crate::ready::Way;
use crate::refusing::end_without;
use crate::reply::{Asked, Done};
use hv_actor::Actor;
use hv_ast::Stmt;
use hv_base::TxnId;
use hv_shelf::Shelf;
use hv_table_reader::hv_acts::hv_telling::hv_house::HouseFault;
use hv_table_reader::hv_acts::{ActFault, AskAbort, ToldHouse};
use std::alloc::Global;

/// Asks for the abort of one transaction, where it is left to ask for.
fn ask_one<D: Shelf + Drop, W: Actor<D, ToldHouse<D>>>(
    alloc: Global,
    actor: &mut W,
    way: Way,
    number: u64,
) -> Result<bool, ActFault>
    requires keeps { W.keeps actor.old }
    requires running { IsOpenHouse (W.house actor.old) }
    requires place { HasPlace (trail_in (W.house actor.old)) way.place }
    ensures keeps { W.keeps actor.new }
    ensures adds { AddsOwn D.faults W.between way.txn.0 (known (W.own actor.old) (W.house actor.old))
        (known (W.own actor.new) (W.house actor.new))
        (asked_entries way.txn.0 number result) }
    ensures left { IsLeft D.told W.meanwhile way.txn.0 (W.house actor.new) result }
    ensures asked { AsksOne (trail_in (W.house actor.old)) (trail_in (W.house actor.new)) way.txn way.place number
        (asked_entries way.txn.0 number result) }
    ensures passed { IfOk result (λ _. HasPassed (trail_in (W.house actor.new)) way.txn way.place number) }
    ensures ends { IfErr result EndsAct }
{
    actor.hold(
        alloc,
        AskAbort {
            by: way.txn,
            place: way.place,
            txn: TxnId(number),
        },
    )
}

/// Asks for the aborts of these transactions, in their order.
fn ask_each<D: Shelf + Drop, W: Actor<D, ToldHouse<D>>>(
    alloc: Global,
    actor: &mut W,
    way: Way,
    numbers: &[u64],
) -> Result<(), ActFault>
    requires keeps { W.keeps actor.old }
    requires running { IsOpenHouse (W.house actor.old) }
    requires place { HasPlace (trail_in (W.house actor.old)) way.place }
    ensures keeps { W.keeps actor.new }
    ensures asks { AsksSoFar D.faults W.between (known (W.own actor.old) (W.house actor.old))
        (known (W.own actor.new) (W.house actor.new)) way numbers.now }
    ensures left { IsLeft D.told W.meanwhile way.txn.0 (W.house actor.new) result }
    ensures passed { IfOk result (λ _. AllPassed (trail_in (W.house actor.new)) way.txn way.place numbers.now) }
    ensures ends { IfErr result EndsAct }
{
    for number in numbers {
        if let Err(why) = ask_one(alloc, actor, way, *number) {
            return Err(why);
        }
    }
    Ok(())
}

/// What comes of a statement one of whose asks was refused.
fn stopped(found: Result<Done, HouseFault>) -> Result<Asked, HouseFault>
    ensures { result ≡ asks_stopped found }
{
    match found {
        Ok(done) => Ok(Asked::Ended(done)),
        Err(fault) => Err(fault),
    }
}

/// Asks for the aborts of these transactions; where an act was refused the statement ends.
fn ask_listed<D: Shelf + Drop, W: Actor<D, ToldHouse<D>>>(
    alloc: Global,
    actor: &mut W,
    way: Way,
    numbers: &[u64],
) -> Result<Asked, HouseFault>
    requires keeps { W.keeps actor.old }
    requires running { IsOpenHouse (W.house actor.old) }
    requires place { HasPlace (trail_in (W.house actor.old)) way.place }
    requires was { WasOpened (trail_in (W.house actor.old)) way.txn.0 }
    ensures keeps { W.keeps actor.new }
    ensures goes { Goes (among D.told D.faults W.between W.meanwhile) (faults_in D.faults (W.house actor.old)) way.txn.0
        (known (W.own actor.old) (W.house actor.old)) (known (W.own actor.new) (W.house actor.new))
        (Asks way.txn.0 (W.house actor.new) (IsAskOf (trail_in (W.house actor.new)) way.txn.0 way.place numbers.now))
        result }
    ensures asked { IfOk result (HasAsked (W.house actor.new) way numbers.now) }
{
    match ask_each(alloc, actor, way, numbers) {
        Ok(()) => Ok(Asked::All),
        Err(why) => stopped(end_without(alloc, actor, way.txn, why)),
    }
}

/// The numbers that a statement lists for that.
fn listed_in(tree: &Stmt) -> &[u64]
    ensures { result.now ≡ numbers_in (Some tree.now) }
{
    match tree {
        Stmt::AbortTransactions(numbers) => numbers.as_slice(),
        _ => &[],
    }
}

/// Asks for the aborts that a started statement lists, in their order, one hold each: any other statement asks for none.
///
/// # Errors
/// `Store` where the journal failed or others closed the house, and `NoMemory` where memory lacked even for an abort.
pub fn ask<D: Shelf + Drop, W: Actor<D, ToldHouse<D>>>(
    alloc: Global,
    actor: &mut W,
    way: Way,
    tree: &Stmt,
) -> Result<Asked, HouseFault>
    requires keeps { W.keeps actor.old }
    requires running { IsOpenHouse (W.house actor.old) }
    requires place { HasPlace (trail_in (W.house actor.old)) way.place }
    requires was { WasOpened (trail_in (W.house actor.old)) way.txn.0 }
    ensures keeps { W.keeps actor.new }
    ensures goes { Goes (among D.told D.faults W.between W.meanwhile) (faults_in D.faults (W.house actor.old)) way.txn.0
        (known (W.own actor.old) (W.house actor.old)) (known (W.own actor.new) (W.house actor.new))
        (Asks way.txn.0 (W.house actor.new) (IsAskIn (W.house actor.new) way tree.now)) result }
    ensures asked { IfOk result (HasAsked (W.house actor.new) way (numbers_in (Some tree.now))) }
{
    ask_listed(alloc, actor, way, listed_in(tree))
}
