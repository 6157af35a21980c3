//! A statement from its text to its end, or to the place where it is to be held, over any actor.
ghost use Rattle.std.specs.Prelude.{◌≡◌, ◌≤◌, false, length, IfOk, IfErr};
ghost use Rattle.hv_built.specs.Running.{Runs};
ghost use Rattle.hv_beginning.specs.hv_steps.specs.Going.{IsOpenHouse, faults_in, GainsSome};
ghost use Rattle.hv_beginning.specs.hv_steps.specs.Phases.{HaltsBeginning};
ghost use Rattle.hv_session.specs.Doing.{IsHold, IsSaidFor, WasNeverOpened, TakesText};
ghost use Rattle.hv_session.specs.Taking.{asked_of};
ghost use Rattle.hv_session.specs.Ways.{ActsAlone, asked_up_to, TakesAlone};
ghost use Rattle.hv_actor.specs.Acting.{among, known};

use crate::asking::{Asking, How};
use crate::finishing::reply_from;
use crate::lines::{full_reply, memory_reply, text_reply};
use crate::paused::{Carried, Taken};
use crate::taking::carry;
use hv_actor::Actor;
use hv_ast::{Stmt, discard};
use hv_base::NoMemory;
use hv_beginning::hv_steps::hv_table_reader::hv_acts::ToldHouse;
use hv_beginning::hv_steps::hv_table_reader::hv_acts::hv_telling::hv_house::HouseFault;
use hv_reading::read_statement;
use hv_shelf::Shelf;
use std::alloc::Global;

/// What is replied to a statement that was carried so far. Only memory may lack for it, where it was never opened.
fn said(alloc: Global, found: Carried) -> Result<Taken, NoMemory>
    ensures said { IfOk result (IsSaidFor found) }
    ensures unopened { IfErr result (λ _. WasNeverOpened found) }
{
    match found {
        Carried::Ended(done) => Ok(Taken::Replied(reply_from(done))),
        Carried::Kept(paused) => Ok(Taken::Kept(paused)),
        Carried::Full { .. } => Ok(Taken::Replied(full_reply(alloc)?)),
        Carried::NoMemory => Ok(Taken::Replied(memory_reply(alloc)?)),
    }
}

/// Takes up a statement of this tree, of which `kept` is the same for the book.
fn take_read<D: Shelf + Drop, W: Actor<D, ToldHouse<D>>>(
    alloc: Global,
    actor: &mut W,
    asking: Asking,
    kept: Stmt,
    tree: Stmt,
) -> Result<Taken, HouseFault>
    requires keeps { W.keeps actor.old }
    requires both { 2 ≤ W.most }
    requires running { IsOpenHouse (W.house actor.old) }
    requires kept { Runs asking.text kept }
    requires tree { Runs asking.text tree }
    requires short { length asking.text ≤ 32768 }
    requires named { length asking.session ≤ 32 }
    requires hold { IsHold asking.hold }
    ensures keeps { W.keeps actor.new }
    ensures takes { IfOk result (λ answer. GainsSome D.faults W.between (faults_in D.faults (W.house actor.old))
        (known (W.own actor.old) (W.house actor.old)) (known (W.own actor.new) (W.house actor.new))
        (TakesText D.told (W.house actor.old) (W.house actor.new) (asked_of asking) asking.hold answer)) }
    ensures halts { IfErr result (HaltsBeginning (among D.told D.faults W.between W.meanwhile) (asked_of asking)
        (known (W.own actor.old) (W.house actor.old)) (known (W.own actor.new) (W.house actor.new))) }
    ensures alone { ActsAlone W.between W.meanwhile
        → TakesAlone D.told D.faults (asked_up_to (asked_of asking) asking.hold) (W.house actor.old).house
        (W.house actor.new).house result }
{
    let Asking {
        session,
        number,
        text,
        hold,
        ..
    } = asking;
    match carry(alloc, actor, session, number, text, kept, tree, hold) {
        Ok(found) => Ok(said(alloc, found)?),
        Err(why) => Err(why),
    }
}

/// Takes up a statement of this tree. It is read once more, for the book: since its text runs, only memory may lack there.
fn take_statement<D: Shelf + Drop, W: Actor<D, ToldHouse<D>>>(
    alloc: Global,
    actor: &mut W,
    asking: Asking,
    tree: Stmt,
) -> Result<Taken, HouseFault>
    requires keeps { W.keeps actor.old }
    requires both { 2 ≤ W.most }
    requires running { IsOpenHouse (W.house actor.old) }
    requires tree { Runs asking.text tree }
    requires short { length asking.text ≤ 32768 }
    requires named { length asking.session ≤ 32 }
    requires hold { IsHold asking.hold }
    ensures keeps { W.keeps actor.new }
    ensures takes { IfOk result (λ answer. GainsSome D.faults W.between (faults_in D.faults (W.house actor.old))
        (known (W.own actor.old) (W.house actor.old)) (known (W.own actor.new) (W.house actor.new))
        (TakesText D.told (W.house actor.old) (W.house actor.new) (asked_of asking) asking.hold answer)) }
    ensures halts { IfErr result (HaltsBeginning (among D.told D.faults W.between W.meanwhile) (asked_of asking)
        (known (W.own actor.old) (W.house actor.old)) (known (W.own actor.new) (W.house actor.new))) }
    ensures alone { ActsAlone W.between W.meanwhile
        → TakesAlone D.told D.faults (asked_up_to (asked_of asking) asking.hold) (W.house actor.old).house
        (W.house actor.new).house result }
{
    match read_statement(alloc, &asking.text) {
        Ok(kept) => take_read(alloc, actor, asking, kept, tree),
        Err(_) => {
            discard(tree);
            Ok(Taken::Replied(memory_reply(alloc)?))
        }
    }
}

/// Takes up a statement, and does it to its end, or to the place where it is to be held, act by act: others may act on the house between.
/// One that has to wait for a lock is refused.
///
/// # Errors
/// `Store` where the journal failed or others closed the house, `NoMemory` where memory lacked even for a refusal; no `Failed`: a fault of
/// files ends the statement.
pub fn take_up<D: Shelf + Drop, W: Actor<D, ToldHouse<D>>>(
    alloc: Global,
    actor: &mut W,
    asking: Asking,
    how: How,
) -> Result<Taken, HouseFault>
    requires keeps { W.keeps actor.old }
    requires both { 2 ≤ W.most }
    requires running { IsOpenHouse (W.house actor.old) }
    requires short { length asking.text ≤ 32768 }
    requires named { length asking.session ≤ 32 }
    requires hold { IsHold asking.hold }
    requires run { how.waits ≡ false }
    ensures keeps { W.keeps actor.new }
    ensures takes { IfOk result (λ answer. GainsSome D.faults W.between (faults_in D.faults (W.house actor.old))
        (known (W.own actor.old) (W.house actor.old)) (known (W.own actor.new) (W.house actor.new))
        (TakesText D.told (W.house actor.old) (W.house actor.new) (asked_of asking) asking.hold answer)) }
    ensures halts { IfErr result (HaltsBeginning (among D.told D.faults W.between W.meanwhile) (asked_of asking)
        (known (W.own actor.old) (W.house actor.old)) (known (W.own actor.new) (W.house actor.new))) }
    ensures alone { ActsAlone W.between W.meanwhile
        → TakesAlone D.told D.faults (asked_up_to (asked_of asking) asking.hold) (W.house actor.old).house
        (W.house actor.new).house result }
{
    match read_statement(alloc, &asking.text) {
        Ok(tree) => take_statement(alloc, actor, asking, tree),
        Err(fault) => Ok(Taken::Replied(text_reply(alloc, fault)?)),
    }
}
