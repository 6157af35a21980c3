//! Compactions and passes over whoever acts on the house, and what is printed of them.

ghost use Rattle.std.specs.Prelude.{IfOk};
ghost use Rattle.hv_actor.specs.Acting.{IsLater};
ghost use Rattle.hv_session.specs.hv_beginning.specs.hv_steps.specs.hv_table_reader.specs.hv_acts.specs.Told.{seen_in};
ghost use Rattle.hv_session.specs.hv_beginning.specs.hv_steps.specs.hv_table_reader.specs.hv_acts.specs.Going.{IsOpenHouse};

use crate::words::{add_number, say, say_number};
use hv_actor::Actor;
use hv_clean::{Swept, clean_pass};
use hv_compact::{Done, compact_one, initiate};
use hv_history::JobCause;
use hv_session::hv_beginning::hv_steps::hv_table_reader::hv_acts::ToldHouse;
use hv_shelf::Shelf;
use std::alloc::Global;
use std::io;

/// What was done.
#[derive(Drop)]
pub(crate) enum Worked {
    Initiated(u64),
    Compacted(Done),
    Cleaned(Swept),
}

/// A compaction or a pass stopped: the house is closed, has no room, or memory lacked.
#[derive(Clone, Copy)]
pub(crate) struct Stopped;

/// Whether an order is a compaction or a pass.
pub(crate) fn is_work(order: &str) -> bool {
    order == "initiate" || order == "compact" || order == "clean"
}

fn initiate_now<D: Shelf + Drop, W: Actor<D, ToldHouse<D>>>(
    alloc: Global,
    actor: &mut W,
) -> Result<Worked, Stopped>
    requires keeps { W.keeps actor.old }
    requires running { IsOpenHouse (W.house actor.old) }
    ensures keeps { W.keeps actor.new }
    ensures later { IsLater D.faults (seen_in (W.house actor.old)) (seen_in (W.house actor.new)) }
    ensures running { IfOk result (λ _. IsOpenHouse (W.house actor.new)) }
{
    match initiate(alloc, actor) {
        Ok(count) => Ok(Worked::Initiated(count)),
        Err(_) => Err(Stopped),
    }
}

fn compact_now<D: Shelf + Drop, W: Actor<D, ToldHouse<D>>>(
    alloc: Global,
    actor: &mut W,
) -> Result<Worked, Stopped>
    requires keeps { W.keeps actor.old }
    requires running { IsOpenHouse (W.house actor.old) }
    ensures keeps { W.keeps actor.new }
    ensures later { IsLater D.faults (seen_in (W.house actor.old)) (seen_in (W.house actor.new)) }
    ensures running { IfOk result (λ _. IsOpenHouse (W.house actor.new)) }
{
    match compact_one(alloc, actor) {
        Ok(done) => Ok(Worked::Compacted(done)),
        Err(_) => Err(Stopped),
    }
}

fn clean_now<D: Shelf + Drop, W: Actor<D, ToldHouse<D>>>(
    alloc: Global,
    actor: &mut W,
) -> Result<Worked, Stopped>
    requires keeps { W.keeps actor.old }
    requires running { IsOpenHouse (W.house actor.old) }
    ensures keeps { W.keeps actor.new }
    ensures later { IsLater D.faults (seen_in (W.house actor.old)) (seen_in (W.house actor.new)) }
    ensures running { IfOk result (λ _. IsOpenHouse (W.house actor.new)) }
{
    match clean_pass(alloc, actor) {
        Ok(swept) => Ok(Worked::Cleaned(swept)),
        Err(_) => Err(Stopped),
    }
}

/// Does what an order names.
pub(crate) fn work<D: Shelf + Drop, W: Actor<D, ToldHouse<D>>>(
    alloc: Global,
    actor: &mut W,
    order: &str,
) -> Result<Worked, Stopped>
    requires keeps { W.keeps actor.old }
    requires running { IsOpenHouse (W.house actor.old) }
    ensures keeps { W.keeps actor.new }
    ensures later { IsLater D.faults (seen_in (W.house actor.old)) (seen_in (W.house actor.new)) }
    ensures running { IfOk result (λ _. IsOpenHouse (W.house actor.new)) }
{
    if order == "initiate" {
        initiate_now(alloc, actor)
    } else if order == "compact" {
        compact_now(alloc, actor)
    } else {
        clean_now(alloc, actor)
    }
}

fn say_cause(said: &mut String, cause: &JobCause) -> io::Result<()> {
    match cause {
        JobCause::ReadFault { .. } => say(said, ": a read failed"),
        JobCause::WriteFault { .. } => say(said, ": a write failed"),
        JobCause::Damaged { .. } => say(said, ": a file is damaged"),
        JobCause::Gone => say(said, ": gone"),
        JobCause::Memory => say(said, ": memory lacked"),
        JobCause::Lost => say(said, ": lost"),
    }
}

fn say_done(alloc: Global, said: &mut String, done: &Done) -> io::Result<()> {
    match done {
        Done::Idle => say(said, "idle"),
        Done::Nothing => say(said, "nothing to merge"),
        Done::Published { job, mark } => {
            add_number(alloc, said, "published ", job.0)?;
            say_number(alloc, said, ", mark ", mark.0)
        }
        Done::GivenUp { job, cause } => {
            add_number(alloc, said, "gave up ", job.0)?;
            say_cause(said, cause)
        }
    }
}

fn say_swept(alloc: Global, said: &mut String, swept: Swept) -> io::Result<()> {
    add_number(alloc, said, "cleaned ", swept.cleaned)?;
    add_number(alloc, said, ", held ", swept.held)?;
    add_number(alloc, said, ", forgotten ", swept.forgotten)?;
    add_number(alloc, said, ", listed ", swept.listed)?;
    say_number(alloc, said, ", faults ", swept.faults)
}

/// Says what was done.
pub(crate) fn say_work(alloc: Global, said: &mut String, worked: Worked) -> io::Result<()> {
    match worked {
        Worked::Initiated(count) => say_number(alloc, said, "asked for ", count),
        Worked::Compacted(done) => say_done(alloc, said, &done),
        Worked::Cleaned(swept) => say_swept(alloc, said, swept),
    }
}
