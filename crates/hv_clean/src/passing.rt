//! One pass of a cleaner.

ghost use Rattle.std.specs.Prelude.{IfOk, IfErr};
ghost use Rattle.hv_actor.specs.Acting.{IsLater, among, known};
ghost use Rattle.hv_job_acts.specs.hv_acts.specs.Told.{seen_in, trail_in};
ghost use Rattle.hv_job_acts.specs.hv_acts.specs.Going.{IsOpenHouse};
ghost use Rattle.hv_clean.specs.Passing.{Sweeps, SweepsLess, PassesRest, PassesOver, Passes};
ghost use Rattle.hv_clean.specs.Fronts.{RestFront, OverFront, PassFront, StopsBehind};
ghost use Rattle.hv_clean.specs.Removing.{AreKnown};

use crate::cleaning::clean_jobs;
use crate::fault::{NOTHING, PassFault, Swept};
use crate::forgetting::forget_all;
use crate::stopping::stopped;
use crate::sweeping::sweep_all;
use hv_actor::Actor;
use hv_base::JobId;
use hv_job_acts::hv_acts::ToldHouse;
use hv_job_acts::{AskBook, Ready};
use hv_shelf::Shelf;
use std::alloc::Global;

/// The last part of a pass.
fn end_pass<D: Shelf + Drop, W: Actor<D, ToldHouse<D>>>(
    alloc: Global,
    actor: &mut W,
    before: Swept,
) -> Result<Swept, PassFault>
    requires keeps { W.keeps actor.old }
    requires running { IsOpenHouse (W.house actor.old) }
    ensures keeps { W.keeps actor.new }
    ensures sweeps { IfOk result (Sweeps (among D.told D.faults W.between W.meanwhile)
        (known (W.own actor.old) (W.house actor.old)) (known (W.own actor.new) (W.house actor.new))
        before) }
    ensures less { IfErr result (SweepsLess (among D.told D.faults W.between W.meanwhile)
        (known (W.own actor.old) (W.house actor.old)) (known (W.own actor.new) (W.house actor.new))) }
{
    let mut swept = before;
    match sweep_all(alloc, actor, &mut swept) {
        Ok(()) => Ok(swept),
        Err(why) => Err(why),
    }
}

/// The parts of a pass behind its jobs.
fn pass_rest<D: Shelf + Drop, W: Actor<D, ToldHouse<D>>>(
    alloc: Global,
    actor: &mut W,
    before: Swept,
) -> Result<Swept, PassFault>
    requires keeps { W.keeps actor.old }
    requires running { IsOpenHouse (W.house actor.old) }
    ensures keeps { W.keeps actor.new }
    ensures passes { IfOk result (PassesRest (among D.told D.faults W.between W.meanwhile)
        (known (W.own actor.old) (W.house actor.old)) (known (W.own actor.new) (W.house actor.new))
        before) }
    ensures less { IfErr result (StopsBehind (among D.told D.faults W.between W.meanwhile)
        (RestFront (among D.told D.faults W.between W.meanwhile) before)
        (known (W.own actor.old) (W.house actor.old)) (known (W.own actor.new) (W.house actor.new))) }
{
    let mut swept = before;
    match forget_all(alloc, actor, &mut swept) {
        Ok(()) => end_pass(alloc, actor, swept),
        Err(why) => Err(why),
    }
}

/// A pass over these jobs, and then over the rest.
fn pass_over<D: Shelf + Drop, W: Actor<D, ToldHouse<D>>>(
    alloc: Global,
    actor: &mut W,
    jobs: &[JobId],
) -> Result<Swept, PassFault>
    requires keeps { W.keeps actor.old }
    requires running { IsOpenHouse (W.house actor.old) }
    requires there { AreKnown (trail_in (W.house actor.old)) jobs.now }
    ensures keeps { W.keeps actor.new }
    ensures passes { IfOk result (PassesOver (among D.told D.faults W.between W.meanwhile)
        (known (W.own actor.old) (W.house actor.old)) (known (W.own actor.new) (W.house actor.new))
        jobs.now) }
    ensures less { IfErr result (StopsBehind (among D.told D.faults W.between W.meanwhile)
        (OverFront (among D.told D.faults W.between W.meanwhile) jobs.now)
        (known (W.own actor.old) (W.house actor.old)) (known (W.own actor.new) (W.house actor.new))) }
{
    let mut swept = NOTHING;
    match clean_jobs(alloc, actor, jobs, &mut swept) {
        Ok(()) => pass_rest(alloc, actor, swept),
        Err(why) => Err(why),
    }
}

/// One pass of a cleaner: the jobs of live tables that were ready at its first hold, by number, each of which is noted
/// as cleaned where no transaction below its mark is open and all that it covers went; then the aborted write ids of
/// live tables, by table and by id, each of which is noted as forgotten where none of its directories is listed; then
/// staged directories of jobs that aren't at work, and all of dropped tables. What couldn't be taken away, or listed,
/// is left to a later pass, and counted.
///
/// # Errors
/// `Store` where the journal failed or others closed the house, `Full` where there was no room for its next entry,
/// `NoMemory`.
pub fn clean_pass<D: Shelf + Drop, W: Actor<D, ToldHouse<D>>>(
    alloc: Global,
    actor: &mut W,
) -> Result<Swept, PassFault>
    requires keeps { W.keeps actor.old }
    requires running { IsOpenHouse (W.house actor.old) }
    ensures keeps { W.keeps actor.new }
    ensures later { IsLater D.faults (seen_in (W.house actor.old)) (seen_in (W.house actor.new)) }
    ensures running { IfOk result (λ _. IsOpenHouse (W.house actor.new)) }
    ensures passes { IfOk result (Passes (among D.told D.faults W.between W.meanwhile)
        (known (W.own actor.old) (W.house actor.old)) (known (W.own actor.new) (W.house actor.new))) }
    ensures less { IfErr result (StopsBehind (among D.told D.faults W.between W.meanwhile)
        (PassFront (among D.told D.faults W.between W.meanwhile))
        (known (W.own actor.old) (W.house actor.old)) (known (W.own actor.new) (W.house actor.new))) }
{
    match actor.hold(alloc, AskBook { question: Ready }) {
        Ok(jobs) => pass_over(alloc, actor, &jobs),
        Err(why) => Err(stopped(why)),
    }
}
