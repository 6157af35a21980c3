//! Rounds of an initiator and a compactor.
ghost use Rattle.std.specs.Prelude.{◌≡◌, IfOk};
ghost use Rattle.hv_actor.specs.Acting.{among, known};
ghost use Rattle.hv_clean.specs.hv_job_acts.specs.hv_acts.specs.Going.{IsOpenHouse};
ghost use Rattle.hv_background.specs.Rounds.{is_compactors, AddsTested, has_stopped};

use hv_actor::Actor;
use hv_clean::hv_job_acts::hv_acts::ToldHouse;
use hv_compact::{Done, RunFault, compact_one, initiate};
use hv_shelf::Shelf;
use std::alloc::Global;
use std::sync::Wait;
use std::sync::atomic::{AtomicBool, Ordering};
use std::thread;

/// Lets others run where nothing was found.
pub(crate) fn rest(idle: bool) {
    if idle {
        thread::yield_now();
    }
}

/// Whether the run has ended.
pub(crate) fn has_stopped<E>(done: &Result<(), E>) -> bool
    ensures { result ≡ has_stopped done.now }
{
    match done {
        Ok(()) => false,
        Err(_) => true,
    }
}

/// Whether a round found nothing: so many were asked for in it, and this came of its job.
fn is_idle(asked: u64, done: &Done) -> bool {
    asked == 0 && matches!(done, Done::Idle)
}

/// Does one job, where there is one. So many were asked for in this round.
fn compact_asked<D: Shelf + Drop, W: Actor<D, ToldHouse<D>>>(
    alloc: Global,
    actor: &mut W,
    asked: u64,
) -> Result<(), RunFault>
    requires keeps { W.keeps actor.old }
    requires running { IsOpenHouse (W.house actor.old) }
    ensures keeps { W.keeps actor.new }
    ensures running { IfOk result (λ _. IsOpenHouse (W.house actor.new)) }
    ensures adds { AddsTested (among D.told D.faults W.between W.meanwhile) is_compactors
        (known (W.own actor.old) (W.house actor.old)) (known (W.own actor.new) (W.house actor.new)) }
{
    match compact_one(alloc, actor) {
        Ok(done) => {
            rest(is_idle(asked, &done));
            Ok(())
        }
        Err(why) => Err(why),
    }
}

/// Asks for what is due, and does one job.
fn compact_round<D: Shelf + Drop, W: Actor<D, ToldHouse<D>>>(
    alloc: Global,
    actor: &mut W,
) -> Result<(), RunFault>
    requires keeps { W.keeps actor.old }
    requires running { IsOpenHouse (W.house actor.old) }
    ensures keeps { W.keeps actor.new }
    ensures running { IfOk result (λ _. IsOpenHouse (W.house actor.new)) }
    ensures adds { AddsTested (among D.told D.faults W.between W.meanwhile) is_compactors
        (known (W.own actor.old) (W.house actor.old)) (known (W.own actor.new) (W.house actor.new)) }
{
    match initiate(alloc, actor) {
        Ok(asked) => compact_asked(alloc, actor, asked),
        Err(why) => Err(why),
    }
}

/// Asks for compactions that are due and does them, round by round, until the flag is set. What it adds are items of a
/// compactor alone. Where a round found nothing others may run.
///
/// # Errors
/// As `initiate` and `compact_one`: the rounds end there.
pub fn compact_until<D: Shelf + Drop, W: Actor<D, ToldHouse<D>>, R: Wait>(
    rt: &R,
    alloc: Global,
    actor: &mut W,
    stop: &AtomicBool,
) -> Result<(), RunFault>
    requires keeps { W.keeps actor.old }
    requires running { IsOpenHouse (W.house actor.old) }
    ensures keeps { W.keeps actor.new }
    ensures running { IfOk result (λ _. IsOpenHouse (W.house actor.new)) }
    ensures adds { AddsTested (among D.told D.faults W.between W.meanwhile) is_compactors
        (known (W.own actor.old) (W.house actor.old)) (known (W.own actor.new) (W.house actor.new)) }
{
    for _ in rt.forever() {
        let stopped = stop.load(Ordering::SeqCst);
        if stopped {
            return Ok(());
        }
        let done = compact_round(alloc, actor);
        if has_stopped(&done) {
            return done;
        }
    }
    unreachable!()
}
