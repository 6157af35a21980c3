//! A session's statements, each from its text to its reply, one after another.
ghost use Rattle.std.specs.Prelude.{◌≡◌, ◌≤◌, [], length, map, vec_capacity, IfOk, IfErr};
ghost use Rattle.std.specs.List.{AllByRecursion};
ghost use Rattle.hv_actor.specs.Acting.{among, known};
ghost use Rattle.hv_session.specs.hv_beginning.specs.hv_steps.specs.Going.{IsOpenHouse};
ghost use Rattle.hv_session.specs.Taking.{asked_of};
ghost use Rattle.hv_saying.specs.Saying.{IsShort, SaysAll, StopsSaying};

use hv_actor::Actor;
use hv_base::Gate;
use hv_session::Asking;
use hv_session::hv_beginning::hv_steps::Reply;
use hv_session::hv_beginning::hv_steps::hv_table_reader::hv_acts::ToldHouse;
use hv_session::hv_beginning::hv_steps::hv_table_reader::hv_acts::hv_telling::hv_house::HouseFault;
use hv_shelf::Shelf;
use hv_waiting::take_in_turn;
use std::alloc::Global;
use std::sync::Wait;
use std::thread::Threads;

/// Does these statements to their replies, each behind the reply of the one before it. Others may act on the house between any two acts.
/// Where it is to be held isn't looked at.
///
/// # Errors
/// As `take_in_turn`, at the first statement that stops: the replies before it stand, and those behind it aren't taken up.
pub fn say_all<D: Shelf + Drop, W: Actor<D, ToldHouse<D>>, R: Threads + Wait + Sync, G: Gate>(
    rt: &R,
    gate: &G,
    alloc: Global,
    actor: &mut W,
    askings: Vec<Asking>,
    replies: &mut Vec<Reply>,
) -> Result<(), HouseFault>
    requires keeps { W.keeps actor.old }
    requires running { IsOpenHouse (W.house actor.old) }
    requires short { AllByRecursion IsShort askings.items }
    requires none { replies.old.items ≡ [] }
    requires room { length askings.items ≤ vec_capacity replies.old }
    ensures keeps { W.keeps actor.new }
    ensures says { IfOk result (λ _. SaysAll (among D.told D.faults W.between W.meanwhile)
        (known (W.own actor.old) (W.house actor.old)) (known (W.own actor.new) (W.house actor.new))
        (map asked_of askings.items) replies.new.items) }
    ensures stops { IfErr result (StopsSaying (among D.told D.faults W.between W.meanwhile)
        (known (W.own actor.old) (W.house actor.old)) (known (W.own actor.new) (W.house actor.new))
        (map asked_of askings.items) replies.new.items) }
{
    for asking in askings {
        match take_in_turn(rt, gate, alloc, actor, asking) {
            Ok(reply) => replies.push_reserved(reply),
            Err(why) => return Err(why),
        }
    }
    Ok(())
}
