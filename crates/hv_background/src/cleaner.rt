//! Rounds of a cleaner.
ghost use Rattle.std.specs.Prelude.{IfOk};
ghost use Rattle.hv_actor.specs.Acting.{among, known};
ghost use Rattle.hv_clean.specs.hv_job_acts.specs.hv_acts.specs.Going.{IsOpenHouse};
ghost use Rattle.hv_background.specs.Rounds.{is_cleaners, AddsTested};

use crate::compactor::{has_stopped, rest};
use hv_actor::Actor;
use hv_clean::hv_job_acts::hv_acts::ToldHouse;
use hv_clean::{PassFault, Swept, clean_pass};
use hv_shelf::Shelf;
use std::alloc::Global;
use std::sync::Wait;
use std::sync::atomic::{AtomicBool, Ordering};

fn is_idle(swept: &Swept) -> bool {
    swept.cleaned == 0 && swept.forgotten == 0
}

/// One pass.
fn clean_round<D: Shelf + Drop, W: Actor<D, ToldHouse<D>>>(
    alloc: Global,
    actor: &mut W,
) -> Result<(), PassFault>
    requires keeps { W.keeps actor.old }
    requires running { IsOpenHouse (W.house actor.old) }
    ensures keeps { W.keeps actor.new }
    ensures running { IfOk result (λ _. IsOpenHouse (W.house actor.new)) }
    ensures adds { AddsTested (among D.told D.faults W.between W.meanwhile) is_cleaners
        (known (W.own actor.old) (W.house actor.old)) (known (W.own actor.new) (W.house actor.new)) }
{
    match clean_pass(alloc, actor) {
        Ok(swept) => {
            rest(is_idle(&swept));
            Ok(())
        }
        Err(why) => Err(why),
    }
}

/// Cleans, pass by pass, until the flag is set. What it adds are items of a cleaner alone. Where a pass took nothing
/// away others may run.
///
/// # Errors
/// As `clean_pass`: the passes end there.
pub fn clean_until<D: Shelf + Drop, W: Actor<D, ToldHouse<D>>, R: Wait>(
    rt: &R,
    alloc: Global,
    actor: &mut W,
    stop: &AtomicBool,
) -> Result<(), PassFault>
    requires keeps { W.keeps actor.old }
    requires running { IsOpenHouse (W.house actor.old) }
    ensures keeps { W.keeps actor.new }
    ensures running { IfOk result (λ _. IsOpenHouse (W.house actor.new)) }
    ensures adds { AddsTested (among D.told D.faults W.between W.meanwhile) is_cleaners
        (known (W.own actor.old) (W.house actor.old)) (known (W.own actor.new) (W.house actor.new)) }
{
    for _ in rt.forever() {
        let stopped = stop.load(Ordering::SeqCst);
        if stopped {
            return Ok(());
        }
        let done = clean_round(alloc, actor);
        if has_stopped(&done) {
            return done;
        }
    }
    unreachable!()
}
