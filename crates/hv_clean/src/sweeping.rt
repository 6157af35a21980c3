//! Staged directories that nobody writes any more, and dropped tables, are taken away.

ghost use Rattle.std.specs.Prelude.{◌≡◌, false, IfOk, IfErr};
ghost use Rattle.hv_trail.specs.Trail.{state_at};
ghost use Rattle.hv_actor.specs.Acting.{among, known};
ghost use Rattle.hv_job_acts.specs.hv_acts.specs.Told.{trail_in};
ghost use Rattle.hv_job_acts.specs.hv_acts.specs.Going.{IsOpenHouse};
ghost use Rattle.hv_job_acts.specs.hv_job_calls.specs.Refusals.{CanSweep};
ghost use Rattle.hv_clean.specs.Passing.{Sweeps, SweepsLess};
ghost use Rattle.hv_clean.specs.Removing.{AreSweepable, IsDropped, AreTables};

use crate::dirs::sweepable_dirs;
use crate::fault::{PassFault, Swept};
use crate::forgetting::list;
use crate::stopping::{counted, refusal_of, stopped, unless_stopped};
use hv_actor::Actor;
use hv_base::{NoMemory, TableId};
use hv_job_acts::hv_acts::ToldHouse;
use hv_job_acts::{AskBook, Sweep, Tables};
use hv_shelf::{DirAt, Place, Shelf};
use std::alloc::Global;

/// Takes away a staged directory, or one of a dropped table.
fn sweep_one<D: Shelf + Drop, W: Actor<D, ToldHouse<D>>>(
    alloc: Global,
    actor: &mut W,
    dir: DirAt,
    swept: &mut Swept,
) -> Result<(), PassFault>
    requires keeps { W.keeps actor.old }
    requires running { IsOpenHouse (W.house actor.old) }
    requires can { CanSweep (state_at (trail_in (W.house actor.old))) dir }
    ensures keeps { W.keeps actor.new }
    ensures sweeps { IfOk result (λ _. Sweeps (among D.told D.faults W.between W.meanwhile)
        (known (W.own actor.old) (W.house actor.old)) (known (W.own actor.new) (W.house actor.new))
        swept.old swept.new) }
    ensures less { IfErr result (SweepsLess (among D.told D.faults W.between W.meanwhile)
        (known (W.own actor.old) (W.house actor.old)) (known (W.own actor.new) (W.house actor.new))) }
{
    match actor.hold(alloc, Sweep { dir }) {
        Ok(()) => Ok(()),
        Err(why) => {
            let why = refusal_of(why);
            *swept = counted(why, *swept);
            unless_stopped(why)
        }
    }
}

fn sweep_each<D: Shelf + Drop, W: Actor<D, ToldHouse<D>>>(
    alloc: Global,
    actor: &mut W,
    dirs: Vec<DirAt>,
    swept: &mut Swept,
) -> Result<(), PassFault>
    requires keeps { W.keeps actor.old }
    requires running { IsOpenHouse (W.house actor.old) }
    requires can { AreSweepable (trail_in (W.house actor.old)) dirs.items }
    ensures keeps { W.keeps actor.new }
    ensures sweeps { IfOk result (λ _. Sweeps (among D.told D.faults W.between W.meanwhile)
        (known (W.own actor.old) (W.house actor.old)) (known (W.own actor.new) (W.house actor.new))
        swept.old swept.new) }
    ensures less { IfErr result (SweepsLess (among D.told D.faults W.between W.meanwhile)
        (known (W.own actor.old) (W.house actor.old)) (known (W.own actor.new) (W.house actor.new))) }
{
    for dir in dirs {
        if let Err(why) = sweep_one(alloc, actor, dir, swept) {
            return Err(why);
        }
    }
    Ok(())
}

/// Sweeps these places of a table.
fn sweep_places<D: Shelf + Drop, W: Actor<D, ToldHouse<D>>>(
    alloc: Global,
    actor: &mut W,
    table: u64,
    live: bool,
    places: &[Place],
    swept: &mut Swept,
) -> Result<(), PassFault>
    requires keeps { W.keeps actor.old }
    requires running { IsOpenHouse (W.house actor.old) }
    requires dropped { live ≡ false → IsDropped (trail_in (W.house actor.old)) table }
    ensures keeps { W.keeps actor.new }
    ensures sweeps { IfOk result (λ _. Sweeps (among D.told D.faults W.between W.meanwhile)
        (known (W.own actor.old) (W.house actor.old)) (known (W.own actor.new) (W.house actor.new))
        swept.old swept.new) }
    ensures less { IfErr result (SweepsLess (among D.told D.faults W.between W.meanwhile)
        (known (W.own actor.old) (W.house actor.old)) (known (W.own actor.new) (W.house actor.new))) }
{
    match sweepable_dirs(alloc, table, live, places) {
        Ok(dirs) => sweep_each(alloc, actor, dirs, swept),
        Err(NoMemory) => Err(PassFault::NoMemory),
    }
}

/// The same, where the table was listed.
fn sweep_found<D: Shelf + Drop, W: Actor<D, ToldHouse<D>>>(
    alloc: Global,
    actor: &mut W,
    table: u64,
    live: bool,
    found: Option<Vec<Place>>,
    swept: &mut Swept,
) -> Result<(), PassFault>
    requires keeps { W.keeps actor.old }
    requires running { IsOpenHouse (W.house actor.old) }
    requires dropped { live ≡ false → IsDropped (trail_in (W.house actor.old)) table }
    ensures keeps { W.keeps actor.new }
    ensures sweeps { IfOk result (λ _. Sweeps (among D.told D.faults W.between W.meanwhile)
        (known (W.own actor.old) (W.house actor.old)) (known (W.own actor.new) (W.house actor.new))
        swept.old swept.new) }
    ensures less { IfErr result (SweepsLess (among D.told D.faults W.between W.meanwhile)
        (known (W.own actor.old) (W.house actor.old)) (known (W.own actor.new) (W.house actor.new))) }
{
    match found {
        Some(places) => sweep_places(alloc, actor, table, live, &places, swept),
        None => Ok(()),
    }
}

/// Sweeps a table: its staged directories, and all of them where it was dropped.
fn sweep_table<D: Shelf + Drop, W: Actor<D, ToldHouse<D>>>(
    alloc: Global,
    actor: &mut W,
    table: u64,
    live: bool,
    swept: &mut Swept,
) -> Result<(), PassFault>
    requires keeps { W.keeps actor.old }
    requires running { IsOpenHouse (W.house actor.old) }
    requires dropped { live ≡ false → IsDropped (trail_in (W.house actor.old)) table }
    ensures keeps { W.keeps actor.new }
    ensures sweeps { IfOk result (λ _. Sweeps (among D.told D.faults W.between W.meanwhile)
        (known (W.own actor.old) (W.house actor.old)) (known (W.own actor.new) (W.house actor.new))
        swept.old swept.new) }
    ensures less { IfErr result (SweepsLess (among D.told D.faults W.between W.meanwhile)
        (known (W.own actor.old) (W.house actor.old)) (known (W.own actor.new) (W.house actor.new))) }
{
    match list(alloc, actor, TableId(table), swept) {
        Ok(found) => sweep_found(alloc, actor, table, live, found, swept),
        Err(why) => Err(why),
    }
}

fn sweep_tables<D: Shelf + Drop, W: Actor<D, ToldHouse<D>>>(
    alloc: Global,
    actor: &mut W,
    live: &[bool],
    swept: &mut Swept,
) -> Result<(), PassFault>
    requires keeps { W.keeps actor.old }
    requires running { IsOpenHouse (W.house actor.old) }
    requires tables { AreTables (trail_in (W.house actor.old)) live.now }
    ensures keeps { W.keeps actor.new }
    ensures sweeps { IfOk result (λ _. Sweeps (among D.told D.faults W.between W.meanwhile)
        (known (W.own actor.old) (W.house actor.old)) (known (W.own actor.new) (W.house actor.new))
        swept.old swept.new) }
    ensures less { IfErr result (SweepsLess (among D.told D.faults W.between W.meanwhile)
        (known (W.own actor.old) (W.house actor.old)) (known (W.own actor.new) (W.house actor.new))) }
{
    for i in 0..live.len() {
        if let Err(why) = sweep_table(alloc, actor, i as u64 + 1, live[i], swept) {
            return Err(why);
        }
    }
    Ok(())
}

/// The last part of a pass: staged directories and dropped tables.
pub(crate) fn sweep_all<D: Shelf + Drop, W: Actor<D, ToldHouse<D>>>(
    alloc: Global,
    actor: &mut W,
    swept: &mut Swept,
) -> Result<(), PassFault>
    requires keeps { W.keeps actor.old }
    requires running { IsOpenHouse (W.house actor.old) }
    ensures keeps { W.keeps actor.new }
    ensures sweeps { IfOk result (λ _. Sweeps (among D.told D.faults W.between W.meanwhile)
        (known (W.own actor.old) (W.house actor.old)) (known (W.own actor.new) (W.house actor.new))
        swept.old swept.new) }
    ensures less { IfErr result (SweepsLess (among D.told D.faults W.between W.meanwhile)
        (known (W.own actor.old) (W.house actor.old)) (known (W.own actor.new) (W.house actor.new))) }
{
    match actor.hold(alloc, AskBook { question: Tables }) {
        Ok(live) => sweep_tables(alloc, actor, &live, swept),
        Err(why) => Err(stopped(why)),
    }
}
