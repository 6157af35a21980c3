//! A statement of one's own, over whoever acts on the house.
ghost use Rattle.std.specs.Prelude.{◌≡◌, ◌≤◌, IfSome, IfOk, OnOk};
ghost use Rattle.hv_actor.specs.Acting.{IsLater};
ghost use Rattle.hv_session.specs.hv_beginning.specs.hv_steps.specs.hv_table_reader.specs.hv_acts.specs.Told.{seen_in};
ghost use Rattle.hv_session.specs.hv_beginning.specs.hv_steps.specs.hv_table_reader.specs.hv_acts.specs.Going.{IsOpenHouse};
ghost use Rattle.hv_session.specs.Doing.{IsHold, CanFinish, CanFinishTaken};
ghost use Rattle.tests_jobs.specs.Keeping.{held_behind, CanTakeUp, CanGoOn};

use crate::desk::{Desk, say_reply};
use crate::words::{cut, say};
use crate::working::{is_work, say_work, work};
use hv_actor::Actor;
use hv_base::{Stage, Text};
use hv_session::hv_beginning::hv_steps::Reply;
use hv_session::hv_beginning::hv_steps::hv_table_reader::hv_acts::ToldHouse;
use hv_session::hv_beginning::hv_steps::hv_table_reader::hv_acts::hv_telling::hv_house::HouseFault;
use hv_session::{Asking, How, Paused, Taken, finish, take_up, what_is_held_can_be_finished};
use hv_shelf::Shelf;
use std::alloc::Global;
use std::io;
use std::io::ErrorKind;
use std::mem::ManuallyDrop;

/// Nobody waits, and there is one worker.
const HOW: How = How {
    waits: false,
    workers: 1,
};

/// The longest text of a statement, and the longest name of a session.
const MOST_TEXT: usize = 32_768;

const MOST_NAME: usize = 32;

/// The stage of that name; a statement is held at none where there is no such stage.
pub(crate) fn stage(word: &str) -> Option<Stage>
    ensures hold { IsHold result }
{
    match word {
        "start" => Some(Stage::Start),
        "read" => Some(Stage::Read),
        "commit" => Some(Stage::Commit),
        _ => None,
    }
}

/// The statement of a session, where neither is too long and memory doesn't lack.
pub(crate) fn asking(
    alloc: Global,
    session: &str,
    words: &str,
    hold: Option<Stage>,
) -> Option<Asking>
    requires hold { IsHold hold }
    ensures asked { IfSome result CanTakeUp }
{
    let Ok(name) = Text::of(alloc, session) else {
        return None;
    };
    let Ok(text) = Text::of(alloc, words) else {
        return None;
    };
    if name.len() > MOST_NAME || text.len() > MOST_TEXT {
        return None;
    }
    Some(Asking {
        session: name,
        place: 0,
        number: 0,
        text,
        hold,
    })
}

/// Says how a statement ended, or keeps it where it is held.
fn keep_or_say(desk: &mut Desk, taken: Taken, said: &mut String) -> io::Result<()>
    ensures hold { desk.new.hold ≡ desk.old.hold }
    ensures held { desk.new.held ≡ held_behind taken desk.old.held }
{
    match taken {
        Taken::Replied(reply) => say_reply(said, &reply),
        Taken::Kept(paused) => {
            let _last = ManuallyDrop::new(desk.held.replace(paused));
            say(said, "held")
        }
    }
}

/// Takes up a statement.
pub(crate) fn take_one<D: Shelf + Drop, W: Actor<D, ToldHouse<D>>>(
    alloc: Global,
    actor: &mut W,
    asking: Asking,
) -> Result<Taken, HouseFault>
    requires keeps { W.keeps actor.old }
    requires both { 2 ≤ W.most }
    requires running { IsOpenHouse (W.house actor.old) }
    requires can { CanTakeUp asking }
    ensures keeps { W.keeps actor.new }
    ensures later { IsLater D.faults (seen_in (W.house actor.old)) (seen_in (W.house actor.new)) }
    ensures running { IfOk result (λ _. IsOpenHouse (W.house actor.new)) }
    ensures can { IfOk result (CanFinishTaken D.told (W.house actor.new)) }
{
    take_up(alloc, actor, asking, HOW)
}

/// Finishes a statement that is held.
fn finish_one<D: Shelf + Drop, W: Actor<D, ToldHouse<D>>>(
    alloc: Global,
    actor: &mut W,
    paused: Paused,
) -> Result<Reply, HouseFault>
    requires keeps { W.keeps actor.old }
    requires running { IsOpenHouse (W.house actor.old) }
    requires can { CanFinish D.told (W.house actor.old) paused }
    ensures keeps { W.keeps actor.new }
    ensures running { IfOk result (λ _. IsOpenHouse (W.house actor.new)) }
{
    finish(alloc, actor, paused)
}

/// Takes up a statement of one's own.
fn take<D: Shelf + Drop, W: Actor<D, ToldHouse<D>>>(
    alloc: Global,
    actor: &mut W,
    desk: &mut Desk,
    session: &str,
    text: &str,
    said: &mut String,
) -> io::Result<()>
    requires keeps { W.keeps actor.old }
    requires both { 2 ≤ W.most }
    requires can { CanGoOn D.told (W.house actor.old) desk.old }
    ensures keeps { W.keeps actor.new }
    ensures can { OnOk result (CanGoOn D.told (W.house actor.new) desk.new) }
{
    what_is_held_can_be_finished::<D, W>();
    let hold = desk.hold.take();
    let Some(asking) = asking(alloc, session, text, hold) else {
        return say(said, "not asked");
    };
    match take_one(alloc, actor, asking) {
        Ok(taken) => keep_or_say(desk, taken, said),
        Err(_) => Err(ErrorKind::Other.into()),
    }
}

/// Does what the order names, while a statement may be held.
fn work_on<D: Shelf + Drop, W: Actor<D, ToldHouse<D>>>(
    alloc: Global,
    actor: &mut W,
    desk: &mut Desk,
    order: &str,
    said: &mut String,
) -> io::Result<()>
    requires keeps { W.keeps actor.old }
    requires can { CanGoOn D.told (W.house actor.old) desk.old }
    ensures keeps { W.keeps actor.new }
    ensures can { OnOk result (CanGoOn D.told (W.house actor.new) desk.new) }
{
    what_is_held_can_be_finished::<D, W>();
    match work(alloc, actor, order) {
        Ok(worked) => say_work(alloc, said, worked),
        Err(_) => Err(ErrorKind::Other.into()),
    }
}

/// Finishes the statement that is held, if there is one.
fn finish_held<D: Shelf + Drop, W: Actor<D, ToldHouse<D>>>(
    alloc: Global,
    actor: &mut W,
    desk: &mut Desk,
    said: &mut String,
) -> io::Result<()>
    requires keeps { W.keeps actor.old }
    requires can { CanGoOn D.told (W.house actor.old) desk.old }
    ensures keeps { W.keeps actor.new }
    ensures can { OnOk result (CanGoOn D.told (W.house actor.new) desk.new) }
{
    match desk.held.take() {
        Some(paused) => match finish_one(alloc, actor, paused) {
            Ok(reply) => say_reply(said, &reply),
            Err(_) => Err(ErrorKind::Other.into()),
        },
        None => say(said, "none is held"),
    }
}

/// Does a compaction, a pass of a cleaner or one of an initiator, or takes up a statement, as `ada SELECT * FROM t`;
/// without one, finishes what is held.
pub(crate) fn do_order<D: Shelf + Drop, W: Actor<D, ToldHouse<D>>>(
    alloc: Global,
    actor: &mut W,
    desk: &mut Desk,
    order: &str,
    said: &mut String,
) -> io::Result<()>
    requires keeps { W.keeps actor.old }
    requires both { 2 ≤ W.most }
    requires can { CanGoOn D.told (W.house actor.old) desk.old }
    ensures keeps { W.keeps actor.new }
    ensures can { OnOk result (CanGoOn D.told (W.house actor.new) desk.new) }
{
    let (session, text) = cut(order, ' ');
    if is_work(order) {
        work_on(alloc, actor, desk, order, said)
    } else if text.is_empty() {
        finish_held(alloc, actor, desk, said)
    } else {
        take(alloc, actor, desk, session, text, said)
    }
}
