//! How a statement begins that waits for its locks: opened in one hold, and started in its turn.
ghost use Rattle.std.specs.Prelude.{◌≡◌, ◌≤◌, true, ℕ, List, length, IfOk, IfErr};
ghost use Rattle.hv_ast.specs.declared.statement.Stmt.{Stmt as Tree};
ghost use Rattle.hv_built.specs.Running.{Runs};
ghost use Rattle.hv_stands.specs.Running.{Asking};
ghost use Rattle.hv_session.specs.hv_beginning.specs.hv_steps.specs.hv_table_reader.specs.hv_acts.specs.declared.told.ToldHouse.{ToldHouse as House};
ghost use Rattle.hv_session.specs.hv_beginning.specs.hv_steps.specs.hv_table_reader.specs.hv_acts.specs.Told.{trail_in};
ghost use Rattle.hv_session.specs.hv_beginning.specs.hv_steps.specs.Going.{IsOpenHouse, faults_in, GainsSome, WasOpened};
ghost use Rattle.hv_session.specs.hv_beginning.specs.hv_steps.specs.Leaving.{IsLeftFor, EndsAct};
ghost use Rattle.hv_session.specs.hv_beginning.specs.hv_steps.specs.Phases.{HaltsBeginning};
ghost use Rattle.hv_session.specs.hv_beginning.specs.Beginnings.{WaitsIn};
ghost use Rattle.hv_waiting.specs.Starting.{is_settled};
ghost use Rattle.hv_waiting.specs.Beginnings.{OpenedToWait, OpensToWait, StartsSoFar, GoesInTurn, BeginsInTurn};
ghost use Rattle.hv_actor.specs.Acting.{among, known};

use crate::starting::StartOrWait;
use hv_actor::Actor;
use hv_ast::Stmt;
use hv_base::{Text, TxnId};
use hv_session::hv_beginning::hv_steps::hv_table_reader::hv_acts::hv_telling::hv_house::HouseFault;
use hv_session::hv_beginning::hv_steps::hv_table_reader::hv_acts::{
    ActFault, OpenTransaction, Started, ToldHouse,
};
use hv_session::hv_beginning::hv_steps::{Opened, end_without};
use hv_session::hv_beginning::{started_as, unopened};
use hv_shelf::Shelf;
use std::alloc::Global;
use std::sync::Wait;
use std::thread;
    }
}

/// Opens a stawhich waits then for its Start.
fn open_to_wait<D: Shelf + Drop, W: Actor<D, ToldHouse<D>>>(
    alloc: Global,
    actor: &mut W,
     W,
    session: Text,
    number: u64,
    text: Text,
    tree: Stmt,
) ->TxnId, ActFault>
    requires keeps { W.keeps actor.old }
    requires running { IsOpenHouse (W.house actor.old) }
    requires runs { Runs text tree }
    requires short { length text ≤ 32768 }
    requires named { length session ≤ 32 }
    ensures keeps { W.keeps actor.new }
    ensures waits { IfOk result (λ txn. WaitsIn (W.house actor.new)
        (record { session = session; number = number; text = text }) tree txn.0) }
    ensures opens { OpensToWait (among D.told D.faults W.between W.meanwhile)
        (record { session = session; number = number; text = text }) tree
        (known (W.own actor.old) (W.house actor.old)) (known (W.own actor.new) (W.house actor.new)) result }
{
    actor.hold(
        alloc,
        OpenTransaction {
            session,
            number,
            text,
            tree,
        },
    )
}

/// Starts a statement that waits, where it is its turn.
fn start_or_wait<D: Shelf + Drop, W: Actor<D, ToldHouse<D>>>(
    alloc: Global,
    actor: &mut W,
    txn: TxnId,
) -> Result<Started, ActFault>
    requires keeps { W.keeps actor.old }
    requires running { IsOpenHouse (W.house actor.old) }
    requires was { WasOpened (trail_in (W.house actor.old)) txn.0 }
    ensures keeps { W.keeps actor.new }
    ensures was { WasOpened (trail_in (W.house actor.new)) txn.0 }
    ensures left { IfErr result (IsLeftFor D.told W.meanwhile txn.0 (W.house actor.new)) }
    ensures ends { IfErr result EndsAct }
    ensures starts { (first : House D) (own : List ℕ) (asking : Asking) (said : Tree)
        → OpenedToWait D.faults W.between asking txn.0 said (known own first)
        (known (W.own actor.old) (W.house actor.old))
        → StartsSoFar (among D.told D.faults W.between W.meanwhile) asking txn said (known own first)
        (known (W.own actor.new) (W.house actor.new)) result }
{
    actor.hold(alloc, StartOrWait { txn })
}

/// Whether a statement need not wait.
fn is_settled(found: &Result<Started, ActFault>) -> bool
    ensures { result ≡ is_settled found.nowound }
{
    match found {
    Err(ActFault::Held { .. }) => false,
        _ => true,
    }
}

/// Starts a statement that waits, as soon as it is its turn: as long as somebody stands in its way others may act on the house between.
fn wait_to_start<D: ShelfD: Shelf + Drop, W: Actor<D, ToldH, R: Wait>(
    rt: &R,se<D>>>(
    alloc: Global,
    actor: &muttxn: TxnId,
) -> Result<Started, ActFault>
    requires keeps { W.keeps actor.old }
    requires running { IsOpenHouse (W.house actor.old) }
    requires was { WasOpened (trail_in (W.house actor.old)) txn.0 }
    ensures keeps { W.keeps actor.new }
    ensures was { WasOpened (trail_in (W.house actor.new)) txn.0 }
    ensures settled { is_settled result ≡ true }
    ensures left { IfErr result (IsLeftFor D.told W.meanwhile txn.0 (W.house actor.new)) }
    ensures ends { IfErr result EndsAct }
    ensures starts { (first : House D) (own : List ℕ) (asking : Asking) (said : Tree)
        → OpenedToWait D.faults W.between asking txn.0 said (known own first)
        (known (W.own actor.old) (W.house actor.old))
        → StartsSoFar (among D.told D.faults W.between W.meanwhile) asking txn said (known own first)
        (known (W.own actor.new) (W.house actor.new)) result }
{
    for _ in rt.forever() {
        let found = start_or_wait(alloc, actor, txn);
        if is_settled(&found) {
            return found;
        }
        thread::yield_now();
    }
    unreachable!()
}

/// Ends an opened statement that was neither started nor aborted where it was to start.
fn end_unstarted<D: Shelf + Drop, W: Actor<D, ToldHouse<D>>>(
    alloc: Global,
    actor: &mut W,
    txn: TxnId,
    why: ActFault,
) -> Result<Opened, HouseFault>
    requires keeps { W.keeps actor.old }
    requires left { IsLeftFor D.told W.meanwhile txn.0 (W.house actor.old) why }
    requires ends { EndsAct why }
    requires was { WasOpened (trail_in (W.house actor.old)) txn.0 }
    ensures keeps { W.keeps actor.new }
    ensures goes { (first : House D) (own : List ℕ) (asking : Asking) (said : Tree)
        → OpenedToWait D.faults W.between asking txn.0 said (known own first)
        (known (W.own actor.old) (W.house actor.old))
        → GoesInTurn (among D.told D.faults W.between W.meanwhile) asking said (known own first)
        (known (W.own actor.new) (W.house actor.new)) result }
{
    match end_without(alloc, actor, txn, why) {
        Ok(done) => Ok(Opened::Ended(done)),
        Err(fault) => Err(fault),
    }
}

/// Starts an opened statement in its turn, or ends it.
fn start_in_turn<D: Shelf + Drop, W: Actor<D, ToldHouse<D>>, R: Wait>(
    rt: &R,se<D>>>(
    alloc: Global,
    actor: &muttxn: TxnId,
) -> Result<Opened, HouseFault>
    requires keeps { W.keeps actor.old }
    requires running { IsOpenHouse (W.house actor.old) }
    requires was { WasOpened (trail_in (W.house actor.old)) txn.0 }
    ensures keeps { W.keeps actor.new }
    ensures goes { (first : House D) (own : List ℕ) (asking : Asking) (said : Tree)
        → OpenedToWait D.faults W.between asking txn.0 said (known own first)
        (known (W.own actor.old) (W.house actor.old))
        → GoesInTurn (among D.told D.faults W.between W.meanwhile) asking said (known own first)
        (known (W.own actor.new) (W.house actor.new)) result }
{
    match wait_to_start(rt, alloc, actor, txn) {
        Ok(found) => Ok(started_as(txn, found)),
        Err(why) => end_unstarted(alloc, actor, txn, why),
    }
}

/// 
}

/// Opens a s, and starts it in its turn.old.
/// `tree` is that of its text.
///
/// # Errors
/// `Store` where the journal failed or others closed the house, and `NoMemory` where memory lacked even for an ab(crate) fn begin_in_turn<D: Shelf + Drop, W: Actor<D, ToldHouse<D>>, R: Wait>(
    rt: &R,se<D>>>(
    alloc: Global,
    actor: &mut W,
    session: Text,
    number: u64,
    text: Text,
    tree: Stmt,
) -> Result<Opened, HouseFault>
    requires keeps { W.keeps actor.old }
    requires running { IsOpenHouse (W.house actor.old) }
    requires runs { Runs text tree }
    requires short { length text ≤ 32768 }
    requires named { length session ≤ 32 }
    ensures keeps { W.keeps actor.new }
    begins { IfOk result
        (λ opened. GainsSome D.faults W.between (faults_in D.faults (W.house actor.old))
        (known (W.own actor.old) (W.house actor.old)) (known (W.own actor.new) (W.house actor.new))
       InTurn (W.house actor.old) (W.house actor.new)
        (record { session = session; number = number; text = text }) tree    said opened)) }
    ensures halts { IfErr result (HaltsBeginning (among D.told D.faults W.between W.meanwhile)
        (record { session = session; number = number; text = text })
        (known (W.own actor.old) (W.house actor.old)) (known (W.own actor.new) (W.house actor.new))) }
{
  open_to_waithindered(alloc, actor, session, number, text, tree) {
        Ok(txn) =in_turn(rt, _or_end(alloc, actor, txn),
        Err(why) => unopened(why),
