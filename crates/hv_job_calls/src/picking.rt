ghost use Rattle.std.specs.Prelude.{◌≡◌, ◌↔◌, ℕ, Some, None, IsSome, IfErr, IsErrOf};
ghost use Rattle.hv_history.specs.State.{state_of, numbered};
ghost use Rattle.hv_history.specs.Legal.{HasRoom, profile};
ghost use Rattle.hv_trail.specs.Steps.{Note};
ghost use Rattle.hv_telling.specs.hv_house.specs.Calls.{LacksRoom};
ghost use Rattle.hv_telling.specs.hv_house.specs.Faults.{HardStep};
ghost use Rattle.hv_telling.specs.hv_house.specs.House.{entries_of};
ghost use Rattle.hv_telling.specs.Telling.{IsWhole};
ghost use Rattle.hv_job_calls.specs.declared.fault.JobFault.TheVariants as fault;
ghost use Rattle.hv_job_calls.specs.Refusals.{to_pick, mark_at, picking, IsNone, IfFound};
ghost use Rattle.hv_job_calls.specs.Steps.{JobStep, found_call};
ghost use Rattle.hv_job_calls.specs.Tests.{is_initiated_note, waits_in, IsFoundOrHouse, NotesOrHouse};

use crate::fault::JobFault;
use crate::noting::note_job;
use crate::tests::{entry_count, has_room};
use hv_base::{JobId, TableId, WriteId};
use hv_book::{Book, JobNote};
use hv_history::{Entry, numbered};
use hv_queue::{is_live, watermark};
use hv_shelf::Shelf;
use hv_tallies::both;
use hv_telling::hv_house::House;

/// Whether nobody took up the job that is noted so.
fn is_initiated(note: &JobNote) -> bool
    ensures { result ≡ is_initiated_note note.now }
{
    both(note.watermark.is_none(), note.ended.is_none())
}

/// Whether nobody took up the job of this number, and its table is live.
fn is_waiting(book: &Book, number: u64) -> bool
    ensures { result ≡ waits_in (state_of book.now.entries) (numbered (state_of book.now.entries).jobs number) }
{
    match numbered(book.jobs(), number) {
        Some(note) => both(is_initiated(note), is_live(book, note.table)),
        None => false,
    }
}

/// The lowest job of a live table that nobody took up.
fn first_waiting(book: &Book) -> Option<u64>
    ensures { result ≡ to_pick (state_of book.now.entries) }
{
    for i in 0..book.jobs().len() {
        if is_waiting(book, i as u64 + 1) {
            return Some(i as u64 + 1);
        }
    }
    None
}

/// The watermark of the table of a job.
fn mark_of(book: &Book, number: u64) -> WriteId
    ensures mark { result.0 ≡ mark_at (state_of book.now.entries) (numbered (state_of book.now.entries).jobs number) }
{
    match numbered(book.jobs(), number) {
        Some(note) => watermark(book, TableId(note.table)),
        None => WriteId(0),
    }
}

/// Takes up the job of this number, for which there is room.
fn take_up<D: Shelf>(house: &mut House<D>, number: u64) -> Result<Option<JobId>, JobFault>
    requires whole { IsWhole D.told house.old }
    requires lowest { to_pick (state_of (entries_of house.old)) ≡ Some number }
    requires room { HasRoom profile (state_of (entries_of house.old)) 2 }
    ensures step { JobStep D.told D.faults (found_call (Note (picking (entries_of house.old))) result)
        house.old house.new result }
    ensures hard { HardStep (D.hard house.old.shelf) (D.hard house.new.shelf)
        house.old.trail.closed house.new.trail.closed }
    ensures job { IfFound result (λ job. to_pick (state_of (entries_of house.old)) ≡ Some job.0) }
    ensures found { IsFoundOrHouse result }
{
    let job = JobId(number);
    let mark = mark_of(house.book(), number);
    match note_job(
        house,
        Entry::Picked {
            job,
            watermark: mark,
        },
    ) {
        Ok(()) => Ok(Some(job)),
        Err(why) => Err(why),
    }
}

/// Takes up the lowest job of a live table that nobody took up, with the watermark of its table, and answers its number; None
/// where there is none.
///
/// # Errors
/// Behind None `Full` where there is no room; the house is as it was. `House` where the journal failed or memory lacked.
pub fn pick<D: Shelf>(house: &mut House<D>) -> Result<Option<JobId>, JobFault>
    requires whole { IsWhole D.told house.old }
    ensures step { JobStep D.told D.faults (found_call (Note (picking (entries_of house.old))) result)
        house.old house.new result }
    ensures hard { HardStep (D.hard house.old.shelf) (D.hard house.new.shelf)
        house.old.trail.closed house.new.trail.closed }
    ensures job { IfFound result (λ job. to_pick (state_of (entries_of house.old)) ≡ Some job.0) }
    ensures none { IsNone result ↔ (to_pick (state_of (entries_of house.old)) ≡ None) }
    ensures full { (count : ℕ) → IsErrOf result (fault.Full count)
        ↔ (IsSome (to_pick (state_of (entries_of house.old))) × LacksRoom profile (entries_of house.old) 2 count) }
    ensures not_gone { IsErrOf result fault.Gone → ⊥ }
    ensures others { IfErr result NotesOrHouse }
{
    match first_waiting(house.book()) {
        Some(number) => {
            if has_room(house, 2) {
                take_up(house, number)
            } else {
                Err(JobFault::Full {
                    entries: entry_count(house),
                })
            }
        }
        None => Ok(None),
    }
}
