//! A held statement to its reply: what others have ended meanwhile is told, and any other goes on to its end.
ghost use Rattle.std.specs.Prelude.{◌≡◌, ◌⊎◌, ℕ, IfOk};
ghost use Rattle.hv_beginning.specs.hv_steps.specs.hv_table_reader.specs.hv_acts.specs.hv_telling.specs.hv_house.specs.House.{entries_of};
ghost use Rattle.hv_beginning.specs.hv_steps.specs.hv_table_reader.specs.hv_acts.specs.hv_telling.specs.Telling.{IsToldHouse};
ghost use Rattle.hv_beginning.specs.hv_steps.specs.hv_table_reader.specs.hv_acts.specs.Told.{trail_in};
ghost use Rattle.hv_beginning.specs.hv_steps.specs.Going.{IsOpenHouse, SaysEnd, faults_in, Goes};
ghost use Rattle.hv_session.specs.Doing.{CanFinish, FinishesSo, RepliesTruly, reply_from, replied_of};
ghost use Rattle.hv_session.specs.Taking.{IsTrulyHeld, WasStopped};
ghost use Rattle.hv_session.specs.Ways.{ActsAlone, FinishesAlone, IsFinishedSo};
ghost use Rattle.hv_actor.specs.Acting.{among, known};

use crate::paused::Paused;
use crate::taking::go_on;
use hv_actor::Actor;
use hv_ast::discard;
use hv_beginning::hv_steps::hv_table_reader::hv_acts::ToldHouse;
use hv_beginning::hv_steps::hv_table_reader::hv_acts::hv_telling::hv_house::HouseFault;
use hv_beginning::hv_steps::{Done, Reply, tell_end};
use hv_shelf::Shelf;
use std::alloc::Global;

/// The reply of a statement that has ended: its own, or what is told of the end that others made.
pub fn reply_from(found: Done) -> Reply
    ensures reply { result ≡ reply_from found }
{
    match found {
        Done::Replied(reply) => reply,
        Done::Gone(reply) => reply,
    }
}

fn replied(found: Result<Done, HouseFault>) -> Result<Reply, HouseFault>
    ensures replied { result ≡ replied_of found }
{
    match found {
        Ok(found) => Ok(reply_from(found)),
        Err(why) => Err(why),
    }
}

/// Lets go of a statement that goes on no more.
fn let_go(paused: Paused) {
    let Paused { tree, .. } = paused;
    discard(tree);
}

/// Does a held statement to its end, unless it has ended: then this is said of that.
fn finish_unless<D: Shelf + Drop, W: Actor<D, ToldHouse<D>>>(
    alloc: Global,
    actor: &mut W,
    paused: Paused,
    said: Option<Reply>,
) -> Result<Reply, HouseFault>
    requires keeps { W.keeps actor.old }
    requires running { IsOpenHouse (W.house actor.old) }
    requires can { CanFinish D.told (W.house actor.old) paused }
    requires says { SaysEnd (trail_in (W.house actor.old)) paused.way.txn.0 said }
    ensures keeps { W.keeps actor.new }
    ensures goes { Goes (among D.told D.faults W.between W.meanwhile) (faults_in D.faults (W.house actor.old))
        paused.way.txn.0
        (known (W.own actor.old) (W.house actor.old)) (known (W.own actor.new) (W.house actor.new))
        (FinishesSo D.told (W.house actor.new) paused) result }
    ensures answered { IsToldHouse D.told (W.house actor.old).house
        → IfOk result (RepliesTruly paused.way.txn.0 (W.house actor.new)) }
    ensures alone { ActsAlone W.between W.meanwhile → IsToldHouse D.told (W.house actor.old).house
        → IsTrulyHeld (entries_of (W.house actor.old).house) paused
        ⊎ WasStopped (entries_of (W.house actor.old).house) paused.way.txn.0
        → IfOk result (IsFinishedSo (entries_of (W.house actor.old).house) (entries_of (W.house actor.new).house)
        paused.way.txn.0) }
{
    match said {
        Some(reply) => {
            let_go(paused);
            Ok(reply)
        }
        None => replied(go_on(alloc, actor, paused)),
    }
}

/// Does a held statement to its end, and gives its reply. It first asks whether others have ended it: then it adds nothing, reads nothing,
/// and the reply is what is told of that.
///
/// # Errors
/// `Store` where the journal failed or others closed the house, and `NoMemory` where memory lacked even for an abort, or for what is told.
pub fn finish<D: Shelf + Drop, W: Actor<D, ToldHouse<D>>>(
    alloc: Global,
    actor: &mut W,
    paused: Paused,
) -> Result<Reply, HouseFault>
    requires keeps { W.keeps actor.old }
    requires running { IsOpenHouse (W.house actor.old) }
    requires can { CanFinish D.told (W.house actor.old) paused }
    ensures keeps { W.keeps actor.new }
    ensures goes { Goes (among D.told D.faults W.between W.meanwhile) (faults_in D.faults (W.house actor.old))
        paused.way.txn.0
        (known (W.own actor.old) (W.house actor.old)) (known (W.own actor.new) (W.house actor.new))
        (FinishesSo D.told (W.house actor.new) paused) result }
    ensures answered { IsToldHouse D.told (W.house actor.old).house
        → IfOk result (RepliesTruly paused.way.txn.0 (W.house actor.new)) }
    ensures alone { ActsAlone W.between W.meanwhile
        → (IsToldHouse D.told (W.house actor.old).house
        → IsTrulyHeld (entries_of (W.house actor.old).house) paused
        ⊎ WasStopped (entries_of (W.house actor.old).house) paused.way.txn.0)
        → FinishesAlone D.told D.faults paused.way.txn.0 (W.house actor.old).house (W.house actor.new).house result }
{
    match tell_end(alloc, actor, paused.way.txn) {
        Ok(said) => finish_unless(alloc, actor, paused, said),
        Err(why) => {
            let_go(paused);
            Err(why)
        }
    }
}
