//! The turns of jobs that are ready for cleaning: what they cover is taken away, and they are noted as cleaned.

ghost use Rattle.std.specs.Prelude.{◌≡◌, ◌∷◌, [], IfOk, IfErr};
ghost use Rattle.hv_actor.specs.Acting.{among, known};
ghost use Rattle.hv_job_acts.specs.hv_acts.specs.Told.{trail_in};
ghost use Rattle.hv_job_acts.specs.hv_acts.specs.Going.{IsOpenHouse};
ghost use Rattle.hv_clean.specs.Passing.{Sweeps, SweepsLess, CleansOne, CleanEach};
ghost use Rattle.hv_clean.specs.Fronts.{CleansFront, StopsBehind};
ghost use Rattle.hv_clean.specs.Removing.{IsKnown, AreKnown, IsCoveredFor, AreCoveredDirs, joined, ends, counted_held, removal_by, WentBy, RemovalSays, EndsTurn};
ghost use Rattle.hv_clean.specs.declared.cleaning.Removal.TheVariants as removed;

use crate::fault::{PassFault, Swept, count_cleaned, count_held};
use crate::stopping::{Refused, counted, refusal_of, stopped, unless_stopped};
use hv_actor::Actor;
use hv_base::JobId;
use hv_job_acts::hv_acts::ToldHouse;
use hv_job_acts::{AskBook, Covered, NoteCleaned, RemoveCovered};
use hv_shelf::{DirAt, Shelf};
use std::alloc::Global;

/// How the removal of what a job covers ended.
#[derive(Clone, Copy)]
pub(crate) enum Removal {
    /// All of it went.
    All,
    /// A call on files failed: something is left.
    Left,
    /// A transaction below its mark is open.
    Held,
    /// Its table was dropped, or it isn't published.
    Over,
}

/// What removals come to, of which none met one who needs it, behind a further one.
fn joined(first: Removal, next: Removal) -> Removal
    ensures { result ≡ joined first next }
{
    match next {
        Removal::All => first,
        Removal::Left => Removal::Left,
        Removal::Held => Removal::Held,
        Removal::Over => Removal::Over,
    }
}

/// Whether the removals end here: the job is held, or over.
fn ends(removal: Removal) -> bool
    ensures { result ≡ ends removal }
{
    match removal {
        Removal::All => false,
        Removal::Left => false,
        Removal::Held => true,
        Removal::Over => true,
    }
}

/// What the removal of a directory comes to that was refused.
fn removal_by(why: Refused) -> Result<Removal, PassFault>
    ensures { result ≡ removal_by why }
{
    match why {
        Refused::Failed => Ok(Removal::Left),
        Refused::Needed => Ok(Removal::Held),
        Refused::Listed => Ok(Removal::Over),
        Refused::Over => Ok(Removal::Over),
        Refused::Stop(fault) => Err(fault),
    }
}

/// Takes away one directory that a job covers.
fn remove_one<D: Shelf + Drop, W: Actor<D, ToldHouse<D>>>(
    alloc: Global,
    actor: &mut W,
    job: JobId,
    dir: DirAt,
    swept: &mut Swept,
) -> Result<Removal, PassFault>
    requires keeps { W.keeps actor.old }
    requires running { IsOpenHouse (W.house actor.old) }
    requires covered { IsCoveredFor (trail_in (W.house actor.old)) job dir }
    ensures keeps { W.keeps actor.new }
    ensures sweeps { IfOk result (λ _. Sweeps (among D.told D.faults W.between W.meanwhile)
        (known (W.own actor.old) (W.house actor.old)) (known (W.own actor.new) (W.house actor.new))
        swept.old swept.new) }
    ensures went { IfOk result (WentBy (trail_in (W.house actor.new)) (dir ∷ [])) }
    ensures says { IfOk result (RemovalSays (W.house actor.old) (W.house actor.new) job swept.old swept.new) }
    ensures less { IfErr result (SweepsLess (among D.told D.faults W.between W.meanwhile)
        (known (W.own actor.old) (W.house actor.old)) (known (W.own actor.new) (W.house actor.new))) }
{
    match actor.hold(alloc, RemoveCovered { job, dir }) {
        Ok(()) => Ok(Removal::All),
        Err(why) => {
            let why = refusal_of(why);
            *swept = counted(why, *swept);
            removal_by(why)
        }
    }
}

/// Takes away the directories that a job covers, one after another, up to one that is needed.
fn remove_each<D: Shelf + Drop, W: Actor<D, ToldHouse<D>>>(
    alloc: Global,
    actor: &mut W,
    job: JobId,
    dirs: Vec<DirAt>,
    swept: &mut Swept,
) -> Result<Removal, PassFault>
    requires keeps { W.keeps actor.old }
    requires running { IsOpenHouse (W.house actor.old) }
    requires covered { AreCoveredDirs (trail_in (W.house actor.old)) job dirs.items }
    ensures keeps { W.keeps actor.new }
    ensures sweeps { IfOk result (λ _. Sweeps (among D.told D.faults W.between W.meanwhile)
        (known (W.own actor.old) (W.house actor.old)) (known (W.own actor.new) (W.house actor.new))
        swept.old swept.new) }
    ensures went { IfOk result (WentBy (trail_in (W.house actor.new)) dirs.items) }
    ensures says { IfOk result (RemovalSays (W.house actor.old) (W.house actor.new) job swept.old swept.new) }
    ensures less { IfErr result (SweepsLess (among D.told D.faults W.between W.meanwhile)
        (known (W.own actor.old) (W.house actor.old)) (known (W.own actor.new) (W.house actor.new))) }
{
    let mut removal = Removal::All;
    for dir in dirs {
        match remove_one(alloc, actor, job, dir, swept) {
            Ok(next) => removal = joined(removal, next),
            Err(why) => return Err(why),
        }
        if ends(removal) {
            return Ok(removal);
        }
    }
    Ok(removal)
}

/// A job that a transaction holds is counted.
fn counted_held(why: Refused, swept: Swept) -> Swept
    ensures { result ≡ counted_held why swept }
{
    match why {
        Refused::Failed => swept,
        Refused::Needed => count_held(swept),
        Refused::Listed => swept,
        Refused::Over => swept,
        Refused::Stop(_) => swept,
    }
}

/// Notes that a job is cleaned, where all of its directories went.
fn note_cleaned<D: Shelf + Drop, W: Actor<D, ToldHouse<D>>>(
    alloc: Global,
    actor: &mut W,
    job: JobId,
    swept: &mut Swept,
) -> Result<(), PassFault>
    requires keeps { W.keeps actor.old }
    requires running { IsOpenHouse (W.house actor.old) }
    ensures keeps { W.keeps actor.new }
    ensures ends { IfOk result (λ _. EndsTurn (among D.told D.faults W.between W.meanwhile)
        (known (W.own actor.old) (W.house actor.old)) (known (W.own actor.new) (W.house actor.new))
        job removed.All swept.old swept.new) }
    ensures less { IfErr result (SweepsLess (among D.told D.faults W.between W.meanwhile)
        (known (W.own actor.old) (W.house actor.old)) (known (W.own actor.new) (W.house actor.new))) }
{
    match actor.hold(alloc, NoteCleaned { job }) {
        Ok(()) => {
            *swept = count_cleaned(*swept);
            Ok(())
        }
        Err(why) => {
            let why = refusal_of(why);
            *swept = counted_held(why, *swept);
            unless_stopped(why)
        }
    }
}

/// Ends a job's turn, behind the removal of what it covers.
fn end_turn<D: Shelf + Drop, W: Actor<D, ToldHouse<D>>>(
    alloc: Global,
    actor: &mut W,
    job: JobId,
    removal: Removal,
    swept: &mut Swept,
) -> Result<(), PassFault>
    requires keeps { W.keeps actor.old }
    requires running { IsOpenHouse (W.house actor.old) }
    ensures keeps { W.keeps actor.new }
    ensures ends { IfOk result (λ _. EndsTurn (among D.told D.faults W.between W.meanwhile)
        (known (W.own actor.old) (W.house actor.old)) (known (W.own actor.new) (W.house actor.new))
        job removal swept.old swept.new) }
    ensures less { IfErr result (SweepsLess (among D.told D.faults W.between W.meanwhile)
        (known (W.own actor.old) (W.house actor.old)) (known (W.own actor.new) (W.house actor.new))) }
{
    match removal {
        Removal::All => note_cleaned(alloc, actor, job, swept),
        Removal::Left => Ok(()),
        Removal::Held => {
            *swept = count_held(*swept);
            Ok(())
        }
        Removal::Over => Ok(()),
    }
}

/// A job's turn: what it covers is taken away, and where all of that went, the job is noted as cleaned. One that a
/// transaction still needs is left, and counts as held.
fn clean_job<D: Shelf + Drop, W: Actor<D, ToldHouse<D>>>(
    alloc: Global,
    actor: &mut W,
    job: JobId,
    swept: &mut Swept,
) -> Result<(), PassFault>
    requires keeps { W.keeps actor.old }
    requires running { IsOpenHouse (W.house actor.old) }
    requires there { IsKnown (trail_in (W.house actor.old)) job }
    ensures keeps { W.keeps actor.new }
    ensures cleans { IfOk result (λ _. CleansOne (among D.told D.faults W.between W.meanwhile)
        (known (W.own actor.old) (W.house actor.old)) (known (W.own actor.new) (W.house actor.new))
        job swept.old swept.new) }
    ensures less { IfErr result (SweepsLess (among D.told D.faults W.between W.meanwhile)
        (known (W.own actor.old) (W.house actor.old)) (known (W.own actor.new) (W.house actor.new))) }
{
    let dirs = match actor.hold(
        alloc,
        AskBook {
            question: Covered { job },
        },
    ) {
        Ok(dirs) => dirs,
        Err(why) => return Err(stopped(why)),
    };
    match remove_each(alloc, actor, job, dirs, swept) {
        Ok(removal) => end_turn(alloc, actor, job, removal, swept),
        Err(why) => Err(why),
    }
}

/// The turns of these jobs, one after another.
pub(crate) fn clean_jobs<D: Shelf + Drop, W: Actor<D, ToldHouse<D>>>(
    alloc: Global,
    actor: &mut W,
    jobs: &[JobId],
    swept: &mut Swept,
) -> Result<(), PassFault>
    requires keeps { W.keeps actor.old }
    requires running { IsOpenHouse (W.house actor.old) }
    requires there { AreKnown (trail_in (W.house actor.old)) jobs.now }
    ensures keeps { W.keeps actor.new }
    ensures cleans { IfOk result (λ _. CleanEach (among D.told D.faults W.between W.meanwhile)
        (known (W.own actor.old) (W.house actor.old)) (known (W.own actor.new) (W.house actor.new))
        jobs.now swept.old swept.new) }
    ensures less { IfErr result (StopsBehind (among D.told D.faults W.between W.meanwhile)
        (CleansFront (among D.told D.faults W.between W.meanwhile) jobs.now swept.old)
        (known (W.own actor.old) (W.house actor.old)) (known (W.own actor.new) (W.house actor.new))) }
{
    for job in jobs {
        if let Err(why) = clean_job(alloc, actor, *job, swept) {
            return Err(why);
        }
    }
    Ok(())
}
