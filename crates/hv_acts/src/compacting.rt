//! A compaction is asked for in the name of a transaction.
ghost use Rattle.std.specs.Prelude.{◌≡◌, ◌+◌, ◌≤◌, true, false, length};
ghost use Rattle.hv_history.specs.JobsTrue.{kind_of};
ghost use Rattle.hv_history.specs.Legal.{Of, FullFits, profile};
ghost use Rattle.hv_history.specs.State.{state_of};
ghost use Rattle.hv_trail.specs.Trail.{state_at};
ghost use Rattle.hv_trail.specs.Kept.{trail_of};
ghost use Rattle.hv_telling.specs.hv_house.specs.House.{entries_of};
ghost use Rattle.hv_telling.specs.hv_house.specs.Housed.{ShutsHard};
ghost use Rattle.hv_telling.specs.hv_house.specs.Steps.{seen_of};
ghost use Rattle.hv_telling.specs.Telling.{IsToldHouse, IsWhole};
ghost use Rattle.hv_acts.specs.Compacting.{is_busy_then, AskStep, IsJobDue};
ghost use Rattle.hv_acts.specs.Meant.{RunsWith};

use crate::aborted::Aborted;
use crate::fault::ActFault;
use crate::noting::{abort_full, is_full, late, let_go, note_fitting, runs_with};
use crate::told::ToldHouse;
use hv_actor::Act;
use hv_ast::CompactionKind;
use hv_base::{JobId, TableId, Text, TxnId};
use hv_history::{Entry, JobKind};
use hv_shelf::Shelf;
use hv_showing::hv_tallies::was_busy;
use hv_telling::hv_house::{House, HouseFault};
use std::alloc::Global;

/// Asks for a compaction of a partition in the name of a transaction, whose Start stands at `place`, where no job of the partition was
/// initiated or working behind that. Where there is no room for it, aborts the transaction.
#[derive(Drop)]
pub struct AskFor {
    pub by: TxnId,
    pub place: u64,
    pub table: TableId,
    pub partition: Text,
    pub kind: CompactionKind,
}

/// What came of a compaction that was to be asked for.
#[derive(Drop)]
pub enum AskedFor {
    Job(JobId),
    /// One of the partition was initiated or working behind the Start.
    Busy,
    /// There was no room for it.
    Aborted(Aborted),
}

/// A job of the kind that a text names.
fn kind_of(kind: CompactionKind) -> JobKind
    ensures { result ≡ kind_of kind }
{
    match kind {
        CompactionKind::Minor => JobKind::Minor,
        CompactionKind::Major => JobKind::Major,
    }
}

/// The number of the job that is asked for next.
fn next_job<D: Shelf>(house: &House<D>) -> JobId
    ensures next { result.0 ≡ length (state_of (entries_of house.now)).jobs + 1 }
{
    JobId(house.book().jobs().len() as u64 + 1)
}

/// Whether a job of the partition was initiated or working behind the Start. It walks the jobs.
fn is_busy_then<D: Shelf>(house: &House<D>, asked: &AskFor) -> bool
    ensures busy { result ≡ is_busy_then (trail_of house.now.trail) asked.now }
{
    was_busy(house.book(), asked.table.0, &asked.partition, asked.place)
}

/// Aborts a transaction that runs without a write id, and for whose job there is no room.
fn ask_none<D: Shelf>(
    alloc: Global,
    house: &mut House<D>,
    asked: AskFor,
) -> Result<AskedFor, ActFault>
    requires whole { IsWhole D.told house.old }
    requires hard { ShutsHard D.hard (seen_of house.old) }
    requires runs { RunsWith (trail_of house.old.trail) asked.by 0 }
    requires full { Of (state_at (trail_of house.old.trail)) asked.by.0
        (FullFits profile (state_at (trail_of house.old.trail))) }
    requires idle { is_busy_then (trail_of house.old.trail) asked ≡ false }
    requires truly { IsToldHouse D.told house.old → IsJobDue (trail_of house.old.trail) asked }
    ensures asked { AskStep D.told D.faults asked house.old house.new result }
    ensures hard { ShutsHard D.hard (seen_of house.new) }
{
    let by = asked.by;
    let_go(asked);
    match abort_full(alloc, house, by) {
        Ok(aborted) => Ok(AskedFor::Aborted(aborted)),
        Err(fault) => Err(ActFault::House(fault)),
    }
}

/// Asks for the next job, where that fits, for a transaction that runs without a write id, and for which there is room.
fn ask_next<D: Shelf>(house: &mut House<D>, asked: AskFor) -> Result<AskedFor, ActFault>
    requires whole { IsWhole D.told house.old }
    requires hard { ShutsHard D.hard (seen_of house.old) }
    requires short { length asked.partition ≤ 240 }
    requires runs { RunsWith (trail_of house.old.trail) asked.by 0 }
    requires room { Of (state_at (trail_of house.old.trail)) asked.by.0
        (FullFits profile (state_at (trail_of house.old.trail))) → ⊥ }
    requires idle { is_busy_then (trail_of house.old.trail) asked ≡ false }
    requires truly { IsToldHouse D.told house.old → IsJobDue (trail_of house.old.trail) asked }
    ensures asked { AskStep D.told D.faults asked house.old house.new result }
    ensures hard { ShutsHard D.hard (seen_of house.new) }
{
    let job = next_job(house);
    let AskFor {
        by,
        place: _,
        table,
        partition,
        kind,
    } = asked;
    let sort = kind_of(kind);
    let entry = Entry::Asked {
        job,
        table,
        partition,
        kind: sort,
        by: by.0,
    };
    match note_fitting(house, by, entry) {
        Ok(()) => Ok(AskedFor::Job(job)),
        Err(fault) => Err(fault),
    }
}

fn ask_for<D: Shelf>(
    alloc: Global,
    house: &mut House<D>,
    asked: AskFor,
) -> Result<AskedFor, ActFault>
    requires whole { IsWhole D.told house.old }
    requires hard { ShutsHard D.hard (seen_of house.old) }
    requires short { length asked.partition ≤ 240 }
    requires truly { IsToldHouse D.told house.old → IsJobDue (trail_of house.old.trail) asked }
    ensures asked { AskStep D.told D.faults asked house.old house.new result }
    ensures hard { ShutsHard D.hard (seen_of house.new) }
{
    if !runs_with(house, asked.by, 0) {
        let by = asked.by;
        let_go(asked);
        return Err(late(house, by));
    }
    if is_busy_then(house, &asked) {
        let_go(asked);
        return Ok(AskedFor::Busy);
    }
    if is_full(house, asked.by) {
        ask_none(alloc, house, asked)
    } else {
        ask_next(house, asked)
    }
}

impl<D: Shelf + Drop> Act<D, ToldHouse<D>> for AskFor {
    ghost use Rattle.std.specs.Prelude.{◌≤◌, length};
    ghost use Rattle.hv_telling.specs.Telling.{IsTold};
    ghost use Rattle.hv_acts.specs.Answers.{answer_outcome, AnswerLeaves};
    ghost use Rattle.hv_acts.specs.Compacting.{call_to_ask, adds_job, AskAnswers, IsJobDue};
    ghost use Rattle.hv_acts.specs.Few.{few_job};
    ghost use Rattle.hv_acts.specs.Laters.{ask_later};

    type Answer = Result<AskedFor, ActFault>;

    ghost can = { λ act house. (length act.partition ≤ 240) × (IsTold D.told house.start → IsJobDue house.trail act) };

    ghost call = { λ act house answer. call_to_ask house.trail act answer };

    ghost outcome = { λ act answer. answer_outcome answer };

    ghost adds = { λ act answer. adds_job act answer };

    ghost does = { λ act house now answer. AskAnswers house.trail act answer
        × AnswerLeaves D.told D.faults act.by.0 house now answer };

    ghost most = { 1 };

    ghost few = { λ act answer. few_job act answer };

    ghost goes_on = { λ act answer before now step does.
        ask_later D.told D.faults act answer before now step does.1 };

    fn act(self, alloc: Global, house: &mut ToldHouse<D>) -> Result<AskedFor, ActFault> {
        if house.house.is_closed() {
            Err(ActFault::House(HouseFault::Store))
        } else {
            ask_for(alloc, &mut house.house, self)
        }
    }
}
