ghost use Rattle.std.specs.Prelude.{◌≡◌, ◌↔◌, ◌⊎◌, ◌+◌, ◌≤◌, ℕ, true, false, length, IfErr, IsErrOf};
ghost use Rattle.hv_history.specs.State.{state_of, numbered};
ghost use Rattle.hv_history.specs.Legal.{Of, Fits, profile};
ghost use Rattle.hv_history.specs.Jobs.{has_busy};
ghost use Rattle.hv_history.specs.JobsFit.{name_in, IsAsker};
ghost use Rattle.hv_history.specs.JobsTrue.{IsAskedFor};
ghost use Rattle.hv_trail.specs.Steps.{Note};
ghost use Rattle.hv_telling.specs.hv_house.specs.Calls.{LacksRoom};
ghost use Rattle.hv_telling.specs.hv_house.specs.Faults.{HardStep};
ghost use Rattle.hv_telling.specs.hv_house.specs.House.{entries_of, IsSmall};
ghost use Rattle.hv_telling.specs.Telling.{IsToldHouse, IsWhole};
ghost use Rattle.hv_job_calls.specs.declared.fault.JobFault.TheVariants as fault;
ghost use Rattle.hv_job_calls.specs.Refusals.{is_live_in, asking, IsNone, IfFound};
ghost use Rattle.hv_job_calls.specs.Steps.{JobStep, found_call};
ghost use Rattle.hv_job_calls.specs.Tests.{IsFoundOrHouse, NotesOrHouse};

use crate::fault::JobFault;
use crate::noting::{let_go, note_job};
use crate::tests::{entry_count, has_room, is_table_live};
use hv_base::{JobId, TableId, Text};
use hv_history::{Entry, JobKind};
use hv_shelf::Shelf;
use hv_tallies::survey_in;
use hv_telling::hv_house::House;

/// The number of the job that is asked for next.
fn next_job<D: Shelf>(house: &House<D>) -> JobId
    ensures next { result.0 ≡ length (state_of (entries_of house.now)).jobs + 1 }
{
    JobId(house.book().jobs().len() as u64 + 1)
}

/// Whether a job of the partition is initiated or working. It walks the jobs.
fn is_busy<D: Shelf>(house: &House<D>, table: TableId, partition: &Text) -> bool
    ensures busy { result ≡ has_busy (state_of (entries_of house.now)) table.0 partition.now }
{
    let jobs = survey_in(house.book(), table.0, partition);
    jobs.busy
}

/// Notes that a compaction is asked for, which fits.
fn note_asked<D: Shelf>(
    house: &mut House<D>,
    table: TableId,
    partition: Text,
    kind: JobKind,
    by: u64,
) -> Result<Option<JobId>, JobFault>
    requires whole { IsWhole D.told house.old }
    requires small { IsSmall (asking (entries_of house.old) table partition kind by) }
    requires fits { Fits profile (state_of (entries_of house.old))
        (asking (entries_of house.old) table partition kind by) }
    requires truly { IsToldHouse D.told house.old → IsAskedFor (state_of (entries_of house.old))
        (record { table = table.0; partition = partition; kind = kind }) by }
    ensures step { JobStep D.told D.faults
        (found_call (Note (asking (entries_of house.old) table partition kind by)) result)
        house.old house.new result }
    ensures hard { HardStep (D.hard house.old.shelf) (D.hard house.new.shelf)
        house.old.trail.closed house.new.trail.closed }
    ensures job { IfFound result (λ job. job.0 ≡ length (state_of (entries_of house.old)).jobs + 1) }
    ensures found { IsFoundOrHouse result }
{
    let job = next_job(house);
    let entry = Entry::Asked {
        job,
        table,
        partition,
        kind,
        by,
    };
    match note_job(house, entry) {
        Ok(()) => Ok(Some(job)),
        Err(why) => Err(why),
    }
}

/// Asks for a compaction of a partition: by nobody, that is 0, or by a transaction whose text asks for it. It answers the job's
/// number, and None where one of the partition is initiated or working. Where the house is told, the transaction's statement asks
/// for it now.
///
/// # Errors
/// `Gone` where the table isn't live, and behind None `Full` where there is no room; the house is as it was. `House` where the
/// journal failed or memory lacked.
pub fn ask<D: Shelf>(
    house: &mut House<D>,
    table: TableId,
    partition: Text,
    kind: JobKind,
    by: u64,
) -> Result<Option<JobId>, JobFault>
    requires whole { IsWhole D.told house.old }
    requires short { length partition ≤ 240 }
    requires asker { (by ≡ 0) ⊎ Of (state_of (entries_of house.old)) by
        (IsAsker (name_in (numbered (state_of (entries_of house.old)).tables table.0)) kind) }
    requires truly { IsToldHouse D.told house.old → IsAskedFor (state_of (entries_of house.old))
        (record { table = table.0; partition = partition; kind = kind }) by }
    ensures step { JobStep D.told D.faults
        (found_call (Note (asking (entries_of house.old) table partition kind by)) result)
        house.old house.new result }
    ensures hard { HardStep (D.hard house.old.shelf) (D.hard house.new.shelf)
        house.old.trail.closed house.new.trail.closed }
    ensures job { IfFound result (λ job. job.0 ≡ length (state_of (entries_of house.old)).jobs + 1) }
    ensures gone { IsErrOf result fault.Gone ↔ (is_live_in (state_of (entries_of house.old)) table.0 ≡ false) }
    ensures none { IsNone result ↔ ((is_live_in (state_of (entries_of house.old)) table.0 ≡ true)
        × (has_busy (state_of (entries_of house.old)) table.0 partition ≡ true)) }
    ensures full { (count : ℕ) → IsErrOf result (fault.Full count)
        ↔ ((is_live_in (state_of (entries_of house.old)) table.0 ≡ true)
        × (has_busy (state_of (entries_of house.old)) table.0 partition ≡ false)
        × LacksRoom profile (entries_of house.old) 1 count) }
    ensures others { IfErr result NotesOrHouse }
{
    if !is_table_live(house, table.0) {
        let_go(partition);
        return Err(JobFault::Gone);
    }
    if is_busy(house, table, &partition) {
        let_go(partition);
        return Ok(None);
    }
    if has_room(house, 1) {
        note_asked(house, table, partition, kind, by)
    } else {
        let_go(partition);
        Err(JobFault::Full {
            entries: entry_count(house),
        })
    }
}
