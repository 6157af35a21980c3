//! One compaction, from the job that is taken up to its end.

ghost use Rattle.std.specs.Prelude.{◌≡◌, IfOk, IfErr};
ghost use Rattle.hv_actor.specs.Acting.{IsLater, among, known};
ghost use Rattle.hv_job_acts.specs.hv_acts.specs.Told.{seen_in, trail_in};
ghost use Rattle.hv_job_acts.specs.hv_acts.specs.Going.{IsOpenHouse};
ghost use Rattle.hv_job_acts.specs.hv_acts.specs.hv_telling.specs.Telling.{IsToldHouse};
ghost use Rattle.hv_compact.specs.Stopping.{StopsSo};
ghost use Rattle.hv_compact.specs.Compacting.{Works, CompactsSo, StopsWith, HasStaged};
ghost use Rattle.hv_compact.specs.Gathering.{ListsJob};
ghost use Rattle.hv_compact.specs.Ending.{IsThere, EndsGiven, EndsIn, EndsLess, AreSame, task_of, IsPicked, IfPicked, CanGiveUp, IsLeftBy, EndsFound, LessFound, at_work};

use crate::fault::{RunFault, Stop};
use crate::stopping::{act_run, act_stop, let_go};
use crate::task::Task;
use crate::writing::write_all;
use hv_actor::Actor;
use hv_base::{Duplicate, JobId, NoMemory, TxnId};
use hv_history::JobCause;
use hv_job_acts::hv_acts::ToldHouse;
use hv_job_acts::hv_acts::hv_telling::hv_house::Listing;
use hv_job_acts::{EndEmpty, GiveUp, JobActFault, ListJob, PickJob, PickedJob, PublishJob};
use hv_queue::is_empty;
use hv_shelf::Shelf;
use std::alloc::Global;

/// What came of one compaction.
#[derive(Drop)]
pub enum Done {
    /// No job of a live table was initiated.
    Idle,
    /// The job had nothing to merge.
    Nothing,
    Published { job: JobId, mark: TxnId },
    GivenUp { job: JobId, cause: JobCause },
}

/// A cause, twice: to be noted, and to be told.
pub(crate) struct Causes {
    noted: JobCause,
    told: JobCause,
}

fn copied(alloc: Global, cause: &JobCause) -> Result<JobCause, NoMemory>
    ensures { IfOk result (λ copy. copy ≡ cause.now) }
{
    match cause {
        JobCause::ReadFault { count } => Ok(JobCause::ReadFault { count: *count }),
        JobCause::WriteFault { count } => Ok(JobCause::WriteFault { count: *count }),
        JobCause::Damaged { place } => Ok(JobCause::Damaged {
            place: place.duplicate(alloc)?,
        }),
        JobCause::Gone => Ok(JobCause::Gone),
        JobCause::Memory => Ok(JobCause::Memory),
        JobCause::Lost => Ok(JobCause::Lost),
    }
}

/// Both; where memory lacks for the copy, that is the cause.
fn twice(alloc: Global, cause: JobCause) -> Causes
    ensures causes { AreSame cause result }
{
    match copied(alloc, &cause) {
        Ok(told) => Causes { noted: cause, told },
        Err(NoMemory) => {
            let_go(cause);
            Causes {
                noted: JobCause::Memory,
                told: JobCause::Memory,
            }
        }
    }
}

/// Gives up a job whose table was dropped, where another cause didn't fit.
fn give_up_gone<D: Shelf + Drop, W: Actor<D, ToldHouse<D>>>(
    alloc: Global,
    actor: &mut W,
    job: JobId,
) -> Result<Done, RunFault>
    requires keeps { W.keeps actor.old }
    requires running { IsOpenHouse (W.house actor.old) }
    ensures keeps { W.keeps actor.new }
    ensures ends { IfOk result (EndsGiven (among D.told D.faults W.between W.meanwhile) job
        (known (W.own actor.old) (W.house actor.old)) (known (W.own actor.new) (W.house actor.new))) }
    ensures less { IfErr result (EndsLess (among D.told D.faults W.between W.meanwhile) job
        (known (W.own actor.old) (W.house actor.old)) (known (W.own actor.new) (W.house actor.new))) }
{
    match actor.hold(
        alloc,
        GiveUp {
            job,
            cause: JobCause::Gone,
        },
    ) {
        Ok(()) => Ok(Done::GivenUp {
            job,
            cause: JobCause::Gone,
        }),
        Err(why) => Err(act_run(why)),
    }
}

/// Gives up a job for this cause; where its table was dropped, for that.
fn give_up<D: Shelf + Drop, W: Actor<D, ToldHouse<D>>>(
    alloc: Global,
    actor: &mut W,
    job: JobId,
    causes: Causes,
) -> Result<Done, RunFault>
    requires keeps { W.keeps actor.old }
    requires running { IsOpenHouse (W.house actor.old) }
    requires can { CanGiveUp (W.house actor.old) job causes }
    ensures keeps { W.keeps actor.new }
    ensures ends { IfOk result (EndsGiven (among D.told D.faults W.between W.meanwhile) job
        (known (W.own actor.old) (W.house actor.old)) (known (W.own actor.new) (W.house actor.new))) }
    ensures less { IfErr result (EndsLess (among D.told D.faults W.between W.meanwhile) job
        (known (W.own actor.old) (W.house actor.old)) (known (W.own actor.new) (W.house actor.new))) }
{
    let Causes { noted, told } = causes;
    match actor.hold(alloc, GiveUp { job, cause: noted }) {
        Ok(()) => Ok(Done::GivenUp { job, cause: told }),
        Err(why) => {
            let_go(told);
            give_up_else(alloc, actor, job, why)
        }
    }
}

/// What is done where a job couldn't be given up for its cause.
fn give_up_else<D: Shelf + Drop, W: Actor<D, ToldHouse<D>>>(
    alloc: Global,
    actor: &mut W,
    job: JobId,
    why: JobActFault,
) -> Result<Done, RunFault>
    requires keeps { W.keeps actor.old }
    requires left { IsLeftBy (among D.told D.faults W.between W.meanwhile) job
        (W.house actor.old) why }
    ensures keeps { W.keeps actor.new }
    ensures ends { IfOk result (EndsGiven (among D.told D.faults W.between W.meanwhile) job
        (known (W.own actor.old) (W.house actor.old)) (known (W.own actor.new) (W.house actor.new))) }
    ensures less { IfErr result (EndsLess (among D.told D.faults W.between W.meanwhile) job
        (known (W.own actor.old) (W.house actor.old)) (known (W.own actor.new) (W.house actor.new))) }
{
    match why {
        JobActFault::Unfit => give_up_gone(alloc, actor, job),
        JobActFault::Broken { .. } => Err(RunFault::NoMemory),
        JobActFault::Call(fault) => Err(act_run(JobActFault::Call(fault))),
    }
}

/// Ends a job whose work stopped: it is given up, or the run ends.
fn end_by<D: Shelf + Drop, W: Actor<D, ToldHouse<D>>>(
    alloc: Global,
    actor: &mut W,
    job: JobId,
    why: Stop,
) -> Result<Done, RunFault>
    requires keeps { W.keeps actor.old }
    requires stops { StopsSo (among D.told D.faults W.between W.meanwhile) job (W.house actor.old) why }
    ensures keeps { W.keeps actor.new }
    ensures ends { IfOk result (EndsGiven (among D.told D.faults W.between W.meanwhile) job
        (known (W.own actor.old) (W.house actor.old)) (known (W.own actor.new) (W.house actor.new))) }
    ensures less { IfErr result (EndsLess (among D.told D.faults W.between W.meanwhile) job
        (known (W.own actor.old) (W.house actor.old)) (known (W.own actor.new) (W.house actor.new))) }
{
    match why {
        Stop::GiveUp(cause) => give_up(alloc, actor, job, twice(alloc, cause)),
        Stop::Run(fault) => Err(fault),
    }
}

/// Publishes a job all of whose files are staged.
fn publish<D: Shelf + Drop, W: Actor<D, ToldHouse<D>>>(
    alloc: Global,
    actor: &mut W,
    job: JobId,
) -> Result<Done, RunFault>
    requires keeps { W.keeps actor.old }
    requires running { IsOpenHouse (W.house actor.old) }
    requires there { IsThere (trail_in (W.house actor.old)) job }
    requires staged { HasStaged D.told job (W.house actor.old) }
    ensures keeps { W.keeps actor.new }
    ensures ends { IfOk result (EndsIn (among D.told D.faults W.between W.meanwhile) job
        (known (W.own actor.old) (W.house actor.old)) (known (W.own actor.new) (W.house actor.new))) }
    ensures less { IfErr result (EndsLess (among D.told D.faults W.between W.meanwhile) job
        (known (W.own actor.old) (W.house actor.old)) (known (W.own actor.new) (W.house actor.new))) }
{
    match actor.hold(alloc, PublishJob { job }) {
        Ok(found) => Ok(Done::Published {
            job,
            mark: found.mark,
        }),
        Err(why) => end_by(alloc, actor, job, act_stop(false, why)),
    }
}

/// Notes that a job has nothing to merge.
fn end_empty<D: Shelf + Drop, W: Actor<D, ToldHouse<D>>>(
    alloc: Global,
    actor: &mut W,
    job: JobId,
) -> Result<Done, RunFault>
    requires keeps { W.keeps actor.old }
    requires running { IsOpenHouse (W.house actor.old) }
    ensures keeps { W.keeps actor.new }
    ensures ends { IfOk result (EndsIn (among D.told D.faults W.between W.meanwhile) job
        (known (W.own actor.old) (W.house actor.old)) (known (W.own actor.new) (W.house actor.new))) }
    ensures less { IfErr result (EndsLess (among D.told D.faults W.between W.meanwhile) job
        (known (W.own actor.old) (W.house actor.old)) (known (W.own actor.new) (W.house actor.new))) }
{
    match actor.hold(alloc, EndEmpty { job }) {
        Ok(()) => Ok(Done::Nothing),
        Err(why) => end_by(alloc, actor, job, act_stop(false, why)),
    }
}

/// Lists the files of a job at work.
fn list<D: Shelf + Drop, W: Actor<D, ToldHouse<D>>>(
    alloc: Global,
    actor: &mut W,
    task: Task,
) -> Result<Listing, Stop>
    requires keeps { W.keeps actor.old }
    requires running { IsOpenHouse (W.house actor.old) }
    requires picked { IsPicked (trail_in (W.house actor.old)) task }
    ensures keeps { W.keeps actor.new }
    ensures works { Works (among D.told D.faults W.between W.meanwhile) task.job
        (known (W.own actor.old) (W.house actor.old)) (known (W.own actor.new) (W.house actor.new)) result }
    ensures listed { IsToldHouse D.told (W.house actor.old).house
        → IfOk result (ListsJob (trail_in (W.house actor.new)) task) }
{
    match actor.hold(alloc, ListJob { job: task.job }) {
        Ok(listing) => Ok(listing),
        Err(why) => Err(act_stop(false, why)),
    }
}

/// Lists the files of a job at work, and writes what it is to make.
fn write_listed<D: Shelf + Drop, W: Actor<D, ToldHouse<D>>>(
    alloc: Global,
    actor: &mut W,
    task: Task,
) -> Result<(), Stop>
    requires keeps { W.keeps actor.old }
    requires running { IsOpenHouse (W.house actor.old) }
    requires picked { IsPicked (trail_in (W.house actor.old)) task }
    ensures keeps { W.keeps actor.new }
    ensures works { Works (among D.told D.faults W.between W.meanwhile) task.job
        (known (W.own actor.old) (W.house actor.old)) (known (W.own actor.new) (W.house actor.new)) result }
    ensures staged { IfOk result (λ _. HasStaged D.told task.job (W.house actor.new)) }
{
    match list(alloc, actor, task) {
        Ok(listing) => write_all(alloc, actor, task, &listing),
        Err(why) => Err(why),
    }
}

fn task_of(picked: PickedJob) -> Task
    ensures { result ≡ task_of picked }
{
    Task {
        job: picked.job,
        kind: picked.kind,
        low: picked.pieces.low.0,
        high: picked.pieces.high.0,
    }
}

/// Does a job that was taken up.
fn compact_picked<D: Shelf + Drop, W: Actor<D, ToldHouse<D>>>(
    alloc: Global,
    actor: &mut W,
    picked: PickedJob,
) -> Result<Done, RunFault>
    requires keeps { W.keeps actor.old }
    requires running { IsOpenHouse (W.house actor.old) }
    requires picked { IsPicked (trail_in (W.house actor.old)) (task_of picked) }
    ensures keeps { W.keeps actor.new }
    ensures ends { IfOk result (EndsIn (among D.told D.faults W.between W.meanwhile) picked.job
        (known (W.own actor.old) (W.house actor.old)) (known (W.own actor.new) (W.house actor.new))) }
    ensures less { IfErr result (EndsLess (among D.told D.faults W.between W.meanwhile) picked.job
        (known (W.own actor.old) (W.house actor.old)) (known (W.own actor.new) (W.house actor.new))) }
{
    let job = picked.job;
    if is_empty(picked.kind, picked.pieces) {
        return end_empty(alloc, actor, job);
    }
    match write_listed(alloc, actor, task_of(picked)) {
        Ok(()) => publish(alloc, actor, job),
        Err(why) => end_by(alloc, actor, job, why),
    }
}

/// How a job's work ended: it had room for its end since it was taken up, so that want of room is no answer.
fn at_work(answer: Result<Done, RunFault>) -> Result<Done, RunFault>
    ensures { result ≡ at_work answer }
{
    match answer {
        Ok(done) => Ok(done),
        Err(RunFault::Store) => Err(RunFault::Store),
        Err(RunFault::Full { .. }) => Err(RunFault::NoMemory),
        Err(RunFault::NoMemory) => Err(RunFault::NoMemory),
    }
}

/// Does the job that was taken up, where one was.
fn compact_found<D: Shelf + Drop, W: Actor<D, ToldHouse<D>>>(
    alloc: Global,
    actor: &mut W,
    found: Option<PickedJob>,
) -> Result<Done, RunFault>
    requires keeps { W.keeps actor.old }
    requires running { IsOpenHouse (W.house actor.old) }
    requires picked { IfPicked (trail_in (W.house actor.old)) found }
    ensures keeps { W.keeps actor.new }
    ensures ends { IfOk result (EndsFound (among D.told D.faults W.between W.meanwhile) found
        (known (W.own actor.old) (W.house actor.old)) (known (W.own actor.new) (W.house actor.new))) }
    ensures less { IfErr result (LessFound (among D.told D.faults W.between W.meanwhile) found
        (known (W.own actor.old) (W.house actor.old)) (known (W.own actor.new) (W.house actor.new))) }
{
    match found {
        Some(picked) => at_work(compact_picked(alloc, actor, picked)),
        None => Ok(Done::Idle),
    }
}

/// Takes up the lowest job of a live table that nobody took up, and does it: its files are listed
/// under its watermark, gathered bucket by bucket,
/// staged, and given their names. A job with nothing to merge ends so; one of which a call
/// failed, whose files are damaged, whose table was
/// dropped, or that lacks memory is given up.
///
/// # Errors
/// `Store` where the journal failed or others closed the house, `Full` where there is no room to
/// take one up, and `NoMemory` where memory lacked
/// even to give it up, or others ended the job.
pub fn compact_one<D: Shelf + Drop, W: Actor<D, ToldHouse<D>>>(
    alloc: Global,
    actor: &mut W,
) -> Result<Done, RunFault>
    requires keeps { W.keeps actor.old }
    requires running { IsOpenHouse (W.house actor.old) }
    ensures keeps { W.keeps actor.new }
    ensures later { IsLater D.faults (seen_in (W.house actor.old)) (seen_in (W.house actor.new)) }
    ensures running { IfOk result (λ _. IsOpenHouse (W.house actor.new)) }
    ensures compacts { IfOk result (CompactsSo (among D.told D.faults W.between W.meanwhile)
        (known (W.own actor.old) (W.house actor.old)) (known (W.own actor.new) (W.house actor.new))) }
    ensures stops { IfErr result (StopsWith (among D.told D.faults W.between W.meanwhile)
        (known (W.own actor.old) (W.house actor.old)) (known (W.own actor.new) (W.house actor.new))) }
{
    match actor.hold(alloc, PickJob) {
        Ok(found) => compact_found(alloc, actor, found),
        Err(why) => Err(act_run(why)),
    }
}
