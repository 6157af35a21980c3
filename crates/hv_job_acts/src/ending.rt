//! How a compaction at work ends without directories.

ghost use Rattle.std.specs.Prelude.{◌≡◌};
ghost use Rattle.hv_history.specs.declared.entry.Entry.TheVariants as entry;
ghost use Rattle.hv_trail.specs.Trail.{state_at};
ghost use Rattle.hv_trail.specs.Kept.{trail_of};
ghost use Rattle.hv_trail.specs.Steps.{Note};
ghost use Rattle.hv_acts.specs.hv_telling.specs.hv_house.specs.Housed.{ShutsHard};
ghost use Rattle.hv_acts.specs.hv_telling.specs.hv_house.specs.House.{IsSmall};
ghost use Rattle.hv_acts.specs.hv_telling.specs.hv_house.specs.Steps.{seen_of};
ghost use Rattle.hv_acts.specs.hv_telling.specs.Telling.{IsWhole};
ghost use Rattle.hv_job_acts.specs.Answers.{ActStep, answer_call};
ghost use Rattle.hv_job_acts.specs.Doing.{EmptySo, GivesUpSo};
ghost use Rattle.hv_job_acts.specs.Marked.{HasJobMark};

use crate::fault::JobActFault;
use crate::passing::{let_go, passed};
use hv_actor::Act;
use hv_acts::ToldHouse;
use hv_acts::hv_telling::hv_house::{House, HouseFault};
use hv_base::JobId;
use hv_history::JobCause;
use hv_job_calls::{JobFault, give_up, nothing};
use hv_job_fits::{empty_fits, failed_fits};
use hv_shelf::Shelf;
use std::alloc::Global;

/// Notes that a job at work has nothing to merge.
#[derive(Drop)]
pub struct EndEmpty {
    pub job: JobId,
}

fn end_empty<D: Shelf>(house: &mut House<D>, job: JobId) -> Result<(), JobActFault>
    requires whole { IsWhole D.told house.old }
    requires hard { ShutsHard D.hard (seen_of house.old) }
    ensures ended { ActStep D.told D.faults (answer_call (Note (entry.Empty job)) result) house.old house.new
        (EmptySo (state_at (trail_of house.old.trail)) job) result }
    ensures hard { ShutsHard D.hard (seen_of house.new) }
{
    if empty_fits(house.book(), job) {
        passed(nothing(house, job))
    } else {
        Err(JobActFault::Unfit)
    }
}

impl<D: Shelf + Drop> Act<D, ToldHouse<D>> for EndEmpty {
    ghost use Rattle.hv_history.specs.declared.entry.Entry.TheVariants as entry;
    ghost use Rattle.hv_trail.specs.Trail.{state_at};
    ghost use Rattle.hv_trail.specs.Steps.{Note};
    ghost use Rattle.hv_job_acts.specs.Answers.{answer_call, answer_outcome, adds_by, JobDoes};
    ghost use Rattle.hv_job_acts.specs.Doing.{EmptySo};
    ghost use Rattle.hv_job_acts.specs.Few.{few_note};
    ghost use Rattle.hv_job_acts.specs.Laters.{job_later};

    type Answer = Result<(), JobActFault>;

    ghost can = { λ act house. Unit {0} };

    ghost call = { λ act house answer. answer_call (Note (entry.Empty act.job)) answer };

    ghost outcome = { λ act answer. answer_outcome answer };

    ghost adds = { λ act answer. adds_by (Note (entry.Empty act.job)) answer };

    ghost does = { λ act house now answer. JobDoes D.faults house now (EmptySo (state_at house.trail) act.job) answer };

    ghost most = { 1 };

    ghost few = { λ act answer. few_note (entry.Empty act.job) answer };

    ghost goes_on = { λ act answer before now step does.
        job_later D.told D.faults (answer_call (Note (entry.Empty act.job)) answer)
        answer before now step does.leaves does.up };

    fn act(self, _alloc: Global, house: &mut ToldHouse<D>) -> Result<(), JobActFault> {
        if house.house.is_closed() {
            Err(JobActFault::Call(JobFault::House(HouseFault::Store)))
        } else {
            end_empty(&mut house.house, self.job)
        }
    }
}

/// Notes that a job at work has failed for this cause.
#[derive(Drop)]
pub struct GiveUp {
    pub job: JobId,
    pub cause: JobCause,
}

fn give_up_job<D: Shelf>(
    house: &mut House<D>,
    job: JobId,
    cause: JobCause,
) -> Result<(), JobActFault>
    requires whole { IsWhole D.told house.old }
    requires hard { ShutsHard D.hard (seen_of house.old) }
    requires small { IsSmall (entry.Failed job cause) }
    requires marked { HasJobMark (trail_of house.old.trail) job cause }
    ensures ended { ActStep D.told D.faults (answer_call (Note (entry.Failed job cause)) result) house.old house.new
        (GivesUpSo (state_at (trail_of house.old.trail)) job cause) result }
    ensures hard { ShutsHard D.hard (seen_of house.new) }
{
    if failed_fits(house.book(), job, &cause) {
        passed(give_up(house, job, cause))
    } else {
        let_go(cause);
        Err(JobActFault::Unfit)
    }
}

impl<D: Shelf + Drop> Act<D, ToldHouse<D>> for GiveUp {
    ghost use Rattle.hv_history.specs.declared.entry.Entry.TheVariants as entry;
    ghost use Rattle.hv_trail.specs.Trail.{state_at};
    ghost use Rattle.hv_trail.specs.Steps.{Note};
    ghost use Rattle.hv_acts.specs.hv_telling.specs.hv_house.specs.House.{IsSmall};
    ghost use Rattle.hv_job_acts.specs.Answers.{answer_call, answer_outcome, adds_by, JobDoes};
    ghost use Rattle.hv_job_acts.specs.Doing.{GivesUpSo};
    ghost use Rattle.hv_job_acts.specs.Marked.{HasJobMark};
    ghost use Rattle.hv_job_acts.specs.Few.{few_note};
    ghost use Rattle.hv_job_acts.specs.Laters.{job_later};

    type Answer = Result<(), JobActFault>;

    ghost can = { λ act house. IsSmall (entry.Failed act.job act.cause) × HasJobMark house.trail act.job act.cause };

    ghost call = { λ act house answer. answer_call (Note (entry.Failed act.job act.cause)) answer };

    ghost outcome = { λ act answer. answer_outcome answer };

    ghost adds = { λ act answer. adds_by (Note (entry.Failed act.job act.cause)) answer };

    ghost does = { λ act house now answer. JobDoes D.faults house now
        (GivesUpSo (state_at house.trail) act.job act.cause) answer };

    ghost most = { 1 };

    ghost few = { λ act answer. few_note (entry.Failed act.job act.cause) answer };

    ghost goes_on = { λ act answer before now step does.
        job_later D.told D.faults (answer_call (Note (entry.Failed act.job act.cause)) answer)
        answer before now step does.leaves does.up };

    fn act(self, _alloc: Global, house: &mut ToldHouse<D>) -> Result<(), JobActFault> {
        if house.house.is_closed() {
            Err(JobActFault::Call(JobFault::House(HouseFault::Store)))
        } else {
            give_up_job(&mut house.house, self.job, self.cause)
        }
    }
}
