//! Directories that are taken away, and what is noted of that.

ghost use Rattle.std.specs.Prelude.{◌≡◌, ◌↔◌, true, false, Some, None, IsTrue, IfOk};
ghost use Rattle.hv_history.specs.declared.entry.Entry.TheVariants as entry;
ghost use Rattle.hv_history.specs.State.{state_of, nothing_yet, Job, numbered};
ghost use Rattle.hv_history.specs.Legal.{profile, AllFit};
ghost use Rattle.hv_history.specs.Jobs.{is_ready};
ghost use Rattle.hv_history.specs.JobsFit.{OfJob, is_live_job};
ghost use Rattle.hv_law_work.specs.Work.{AreGone};
ghost use Rattle.hv_trail.specs.Trail.{state_at};
ghost use Rattle.hv_trail.specs.Kept.{trail_of};
ghost use Rattle.hv_trail.specs.Steps.{Note, Remove};
ghost use Rattle.hv_acts.specs.hv_telling.specs.hv_house.specs.Housed.{ShutsHard};
ghost use Rattle.hv_acts.specs.hv_telling.specs.hv_house.specs.House.{entries_of};
ghost use Rattle.hv_acts.specs.hv_telling.specs.hv_house.specs.Steps.{seen_of};
ghost use Rattle.hv_acts.specs.hv_telling.specs.Telling.{IsWhole};
ghost use Rattle.hv_job_calls.specs.Refusals.{is_live_in, IsCoveredDir, IsLostIn, CanForget, IsOwnText, CanSweep};
ghost use Rattle.hv_job_acts.specs.Answers.{ActStep, answer_call};
ghost use Rattle.hv_job_acts.specs.Doing.{RemovesSo, OwnGoesSo, SweepsSo, CleansSo, ForgetsSo};
ghost use Rattle.hv_job_acts.specs.Covering.{AreNamesOf};
ghost use Rattle.hv_job_acts.specs.Forgetting.{call_to_forget};

use crate::asking::{is_lost, is_ready_note};
use crate::covering::are_gone;
use crate::fault::JobActFault;
use crate::passing::passed;
use hv_actor::Act;
use hv_acts::ToldHouse;
use hv_acts::hv_telling::hv_house::{House, HouseFault};
use hv_base::{JobId, NoMemory, TableId, WriteId};
use hv_book::Book;
use hv_history::numbered;
use hv_job_calls::{JobFault, cleaned, forget, remove, remove_own, sweep};
use hv_queue::is_live;
use hv_shelf::{DirAt, Shelf};
use std::alloc::Global;

/// Takes away the files of a directory that a published job covers, where no transaction below its mark is open.
#[derive(Drop)]
pub struct RemoveCovered {
    pub job: JobId,
    pub dir: DirAt,
}

fn remove_covered<D: Shelf>(house: &mut House<D>, job: JobId, dir: DirAt) -> Result<(), JobActFault>
    requires whole { IsWhole D.told house.old }
    requires hard { ShutsHard D.hard (seen_of house.old) }
    requires covered { OfJob (state_at (trail_of house.old.trail)) job.0 (IsCoveredDir dir) }
    ensures removed { ActStep D.told D.faults (answer_call (Remove None dir) result) house.old house.new
        (RemovesSo (state_at (trail_of house.old.trail)) job) result }
    ensures hard { ShutsHard D.hard (seen_of house.new) }
{
    passed(remove(house, job, dir))
}

impl<D: Shelf + Drop> Act<D, ToldHouse<D>> for RemoveCovered {
    ghost use Rattle.std.specs.Prelude.{None};
    ghost use Rattle.hv_history.specs.JobsFit.{OfJob};
    ghost use Rattle.hv_trail.specs.Trail.{state_at};
    ghost use Rattle.hv_trail.specs.Steps.{Remove};
    ghost use Rattle.hv_job_calls.specs.Refusals.{IsCoveredDir};
    ghost use Rattle.hv_job_acts.specs.Answers.{answer_call, answer_outcome, adds_by, JobDoes};
    ghost use Rattle.hv_job_acts.specs.Doing.{RemovesSo};
    ghost use Rattle.hv_job_acts.specs.Few.{few_remove};
    ghost use Rattle.hv_job_acts.specs.Laters.{job_later};

    type Answer = Result<(), JobActFault>;

    ghost can = { λ act house. OfJob (state_at house.trail) act.job.0 (IsCoveredDir act.dir) };

    ghost call = { λ act house answer. answer_call (Remove None act.dir) answer };

    ghost outcome = { λ act answer. answer_outcome answer };

    ghost adds = { λ act answer. adds_by (Remove None act.dir) answer };

    ghost does = { λ act house now answer. JobDoes D.faults house now (RemovesSo (state_at house.trail) act.job)
        answer };

    ghost most = { 1 };

    ghost few = { λ act answer. few_remove act.dir answer };

    ghost goes_on = { λ act answer before now step does.
        job_later D.told D.faults (answer_call (Remove None act.dir) answer)
        answer before now step does.leaves does.up };

    fn act(self, _alloc: Global, house: &mut ToldHouse<D>) -> Result<(), JobActFault> {
        if house.house.is_closed() {
            Err(JobActFault::Call(JobFault::House(HouseFault::Store)))
        } else {
            remove_covered(&mut house.house, self.job, self.dir)
        }
    }
}

/// Takes away the files of an own directory of an aborted write id of a live table.
#[derive(Drop)]
pub struct RemoveOwn {
    pub table: TableId,
    pub write: WriteId,
    pub dir: DirAt,
}

fn remove_lost<D: Shelf>(
    house: &mut House<D>,
    table: TableId,
    write: WriteId,
    dir: DirAt,
) -> Result<(), JobActFault>
    requires whole { IsWhole D.told house.old }
    requires hard { ShutsHard D.hard (seen_of house.old) }
    requires lost { IsLostIn (state_at (trail_of house.old.trail)) table.0 write.0 }
    requires here { dir.table ≡ table }
    requires own { IsOwnText write.0 dir.dir }
    ensures removed { ActStep D.told D.faults (answer_call (Remove None dir) result) house.old house.new
        (OwnGoesSo (state_at (trail_of house.old.trail)) table) result }
    ensures hard { ShutsHard D.hard (seen_of house.new) }
{
    passed(remove_own(house, table, write, dir))
}

impl<D: Shelf + Drop> Act<D, ToldHouse<D>> for RemoveOwn {
    ghost use Rattle.std.specs.Prelude.{◌≡◌, None};
    ghost use Rattle.hv_trail.specs.Trail.{state_at};
    ghost use Rattle.hv_trail.specs.Steps.{Remove};
    ghost use Rattle.hv_job_calls.specs.Refusals.{IsLostIn, IsOwnText};
    ghost use Rattle.hv_job_acts.specs.Answers.{answer_call, answer_outcome, adds_by, JobDoes};
    ghost use Rattle.hv_job_acts.specs.Doing.{OwnGoesSo};
    ghost use Rattle.hv_job_acts.specs.Few.{few_remove};
    ghost use Rattle.hv_job_acts.specs.Laters.{job_later};

    type Answer = Result<(), JobActFault>;

    ghost can = { λ act house. IsLostIn (state_at house.trail) act.table.0 act.write.0 × (act.dir.table ≡ act.table)
        × IsOwnText act.write.0 act.dir.dir };

    ghost call = { λ act house answer. answer_call (Remove None act.dir) answer };

    ghost outcome = { λ act answer. answer_outcome answer };

    ghost adds = { λ act answer. adds_by (Remove None act.dir) answer };

    ghost does = { λ act house now answer. JobDoes D.faults house now (OwnGoesSo (state_at house.trail) act.table)
        answer };

    ghost most = { 1 };

    ghost few = { λ act answer. few_remove act.dir answer };

    ghost goes_on = { λ act answer before now step does.
        job_later D.told D.faults (answer_call (Remove None act.dir) answer)
        answer before now step does.leaves does.up };

    fn act(self, _alloc: Global, house: &mut ToldHouse<D>) -> Result<(), JobActFault> {
        if house.house.is_closed() {
            Err(JobActFault::Call(JobFault::House(HouseFault::Store)))
        } else {
            remove_lost(&mut house.house, self.table, self.write, self.dir)
        }
    }
}

/// Takes away the files of a staged directory whose job isn't at work, or of one of a dropped table.
#[derive(Drop)]
pub struct Sweep {
    pub dir: DirAt,
}

fn sweep_dir<D: Shelf>(alloc: Global, house: &mut House<D>, dir: DirAt) -> Result<(), JobActFault>
    requires whole { IsWhole D.told house.old }
    requires hard { ShutsHard D.hard (seen_of house.old) }
    requires can { CanSweep (state_at (trail_of house.old.trail)) dir }
    ensures removed { ActStep D.told D.faults (answer_call (Remove None dir) result) house.old house.new
        (SweepsSo (state_at (trail_of house.old.trail)) dir) result }
    ensures hard { ShutsHard D.hard (seen_of house.new) }
{
    passed(sweep(alloc, house, dir))
}

impl<D: Shelf + Drop> Act<D, ToldHouse<D>> for Sweep {
    ghost use Rattle.std.specs.Prelude.{None};
    ghost use Rattle.hv_trail.specs.Trail.{state_at};
    ghost use Rattle.hv_trail.specs.Steps.{Remove};
    ghost use Rattle.hv_job_calls.specs.Refusals.{CanSweep};
    ghost use Rattle.hv_job_acts.specs.Answers.{answer_call, answer_outcome, adds_by, JobDoes};
    ghost use Rattle.hv_job_acts.specs.Doing.{SweepsSo};
    ghost use Rattle.hv_job_acts.specs.Few.{few_remove};
    ghost use Rattle.hv_job_acts.specs.Laters.{job_later};

    type Answer = Result<(), JobActFault>;

    ghost can = { λ act house. CanSweep (state_at house.trail) act.dir };

    ghost call = { λ act house answer. answer_call (Remove None act.dir) answer };

    ghost outcome = { λ act answer. answer_outcome answer };

    ghost adds = { λ act answer. adds_by (Remove None act.dir) answer };

    ghost does = { λ act house now answer. JobDoes D.faults house now (SweepsSo (state_at house.trail) act.dir)
        answer };

    ghost most = { 1 };

    ghost few = { λ act answer. few_remove act.dir answer };

    ghost goes_on = { λ act answer before now step does.
        job_later D.told D.faults (answer_call (Remove None act.dir) answer)
        answer before now step does.leaves does.up };

    fn act(self, alloc: Global, house: &mut ToldHouse<D>) -> Result<(), JobActFault> {
        if house.house.is_closed() {
            Err(JobActFault::Call(JobFault::House(HouseFault::Store)))
        } else {
            sweep_dir(alloc, &mut house.house, self.dir)
        }
    }
}

/// Notes that a published job is cleaned: all that it covers went.
#[derive(Drop)]
pub struct NoteCleaned {
    pub job: JobId,
}

/// Whether the job of this number is ready for cleaning.
fn is_ready(book: &Book, job: JobId) -> bool
    ensures ready { IsTrue result ↔ OfJob (state_of book.now.entries) job.0 (λ j. IsTrue (is_ready j)) }
{
    match numbered(book.jobs(), job.0) {
        Some(note) => is_ready_note(note),
        None => false,
    }
}

/// Whether the job is there and its table is live.
fn is_job_live(book: &Book, job: JobId) -> bool
    ensures live { (j : Job) → numbered (state_of book.now.entries).jobs job.0 ≡ Some j
        → result ≡ is_live_job (state_of book.now.entries) j }
{
    match numbered(book.jobs(), job.0) {
        Some(note) => is_live(book, note.table),
        None => false,
    }
}

/// Whether all that the job covers went, where its table is live.
fn may_clean<D: Shelf>(alloc: Global, house: &House<D>, job: JobId) -> Result<bool, NoMemory>
    ensures may { IfOk result (λ may. may ≡ true → (j : Job)
        → numbered (state_of (entries_of house.now)).jobs job.0 ≡ Some j
        → is_live_job (state_of (entries_of house.now)) j ≡ true
        → AreGone (trail_of house.now.trail) (state_of (entries_of house.now)) j) }
    ensures left { IfOk result (λ may. may ≡ false → (j : Job)
        → numbered (state_of (entries_of house.now)).jobs job.0 ≡ Some j
        → AreNamesOf (state_of (entries_of house.now)) j
        → (is_live_job (state_of (entries_of house.now)) j ≡ true)
        × (AreGone (trail_of house.now.trail) (state_of (entries_of house.now)) j → ⊥)) }
{
    if is_job_live(house.book(), job) {
        are_gone(alloc, house, job)
    } else {
        Ok(true)
    }
}

/// Notes it where it may be noted.
fn clean_if<D: Shelf>(house: &mut House<D>, job: JobId, may: bool) -> Result<(), JobActFault>
    requires whole { IsWhole D.told house.old }
    requires hard { ShutsHard D.hard (seen_of house.old) }
    requires ready { OfJob (state_of (entries_of house.old)) job.0 (λ j. IsTrue (is_ready j)) }
    requires may { may ≡ true → (j : Job) → numbered (state_of (entries_of house.old)).jobs job.0 ≡ Some j
        → is_live_job (state_of (entries_of house.old)) j ≡ true
        → AreGone (trail_of house.old.trail) (state_of (entries_of house.old)) j }
    requires left { may ≡ false → (j : Job) → numbered (state_of (entries_of house.old)).jobs job.0 ≡ Some j
        → AreNamesOf (state_of (entries_of house.old)) j
        → (is_live_job (state_of (entries_of house.old)) j ≡ true)
        × (AreGone (trail_of house.old.trail) (state_of (entries_of house.old)) j → ⊥) }
    ensures cleaned { ActStep D.told D.faults (answer_call (Note (entry.Cleaned job)) result) house.old house.new
        (CleansSo (trail_of house.old.trail) job) result }
    ensures hard { ShutsHard D.hard (seen_of house.new) }
{
    if may {
        passed(cleaned(house, job))
    } else {
        Err(JobActFault::Unfit)
    }
}

fn note_cleaned<D: Shelf>(
    alloc: Global,
    house: &mut House<D>,
    job: JobId,
) -> Result<(), JobActFault>
    requires whole { IsWhole D.told house.old }
    requires hard { ShutsHard D.hard (seen_of house.old) }
    ensures cleaned { ActStep D.told D.faults (answer_call (Note (entry.Cleaned job)) result) house.old house.new
        (CleansSo (trail_of house.old.trail) job) result }
    ensures hard { ShutsHard D.hard (seen_of house.new) }
{
    if !is_ready(house.book(), job) {
        return Err(JobActFault::Unfit);
    }
    match may_clean(alloc, house, job) {
        Ok(may) => clean_if(house, job, may),
        Err(NoMemory) => Err(JobActFault::Call(JobFault::House(HouseFault::NoMemory))),
    }
}

impl<D: Shelf + Drop> Act<D, ToldHouse<D>> for NoteCleaned {
    ghost use Rattle.hv_history.specs.declared.entry.Entry.TheVariants as entry;
    ghost use Rattle.hv_trail.specs.Steps.{Note};
    ghost use Rattle.hv_job_acts.specs.Answers.{answer_call, answer_outcome, adds_by, JobDoes};
    ghost use Rattle.hv_job_acts.specs.Doing.{CleansSo};
    ghost use Rattle.hv_job_acts.specs.Few.{few_note};
    ghost use Rattle.hv_job_acts.specs.Laters.{job_later};

    type Answer = Result<(), JobActFault>;

    ghost can = { λ act house. Unit {0} };

    ghost call = { λ act house answer. answer_call (Note (entry.Cleaned act.job)) answer };

    ghost outcome = { λ act answer. answer_outcome answer };

    ghost adds = { λ act answer. adds_by (Note (entry.Cleaned act.job)) answer };

    ghost does = { λ act house now answer. JobDoes D.faults house now (CleansSo house.trail act.job) answer };

    ghost most = { 1 };

    ghost few = { λ act answer. few_note (entry.Cleaned act.job) answer };

    ghost goes_on = { λ act answer before now step does.
        job_later D.told D.faults (answer_call (Note (entry.Cleaned act.job)) answer)
        answer before now step does.leaves does.up };

    fn act(self, alloc: Global, house: &mut ToldHouse<D>) -> Result<(), JobActFault> {
        if house.house.is_closed() {
            Err(JobActFault::Call(JobFault::House(HouseFault::Store)))
        } else {
            note_cleaned(alloc, &mut house.house, self.job)
        }
    }
}

/// Notes that an aborted write id is forgotten: none of its own directories is listed.
#[derive(Drop)]
pub struct Forget {
    pub table: TableId,
    pub write: WriteId,
}

/// Whether the table was dropped, or the id is aborted there and isn't forgotten.
fn may_forget(book: &Book, table: TableId, write: WriteId) -> bool
    requires fit { AllFit profile nothing_yet book.now.entries }
    ensures may { IsTrue result ↔ (is_live_in (state_of book.now.entries) table.0 ≡ true
        → CanForget (state_of book.now.entries) table.0 write.0) }
{
    if is_live(book, table.0) {
        is_lost(book, table.0, write.0)
    } else {
        true
    }
}

fn forget_id<D: Shelf>(
    alloc: Global,
    house: &mut House<D>,
    table: TableId,
    write: WriteId,
) -> Result<(), JobActFault>
    requires whole { IsWhole D.told house.old }
    requires hard { ShutsHard D.hard (seen_of house.old) }
    ensures forgotten { ActStep D.told D.faults (call_to_forget table write result) house.old house.new
        (ForgetsSo (trail_of house.old.trail) table write) result }
    ensures hard { ShutsHard D.hard (seen_of house.new) }
{
    if may_forget(house.book(), table, write) {
        passed(forget(alloc, house, table, write))
    } else {
        Err(JobActFault::Unfit)
    }
}

impl<D: Shelf + Drop> Act<D, ToldHouse<D>> for Forget {
    ghost use Rattle.hv_job_acts.specs.Answers.{answer_outcome, JobDoes};
    ghost use Rattle.hv_job_acts.specs.Doing.{ForgetsSo};
    ghost use Rattle.hv_job_acts.specs.Forgetting.{call_to_forget, adds_forgotten};
    ghost use Rattle.hv_job_acts.specs.Few.{few_forgotten};
    ghost use Rattle.hv_job_acts.specs.Laters.{job_later};

    type Answer = Result<(), JobActFault>;

    ghost can = { λ act house. Unit {0} };

    ghost call = { λ act house answer. call_to_forget act.table act.write answer };

    ghost outcome = { λ act answer. answer_outcome answer };

    ghost adds = { λ act answer. adds_forgotten act.table act.write answer };

    ghost does = { λ act house now answer. JobDoes D.faults house now (ForgetsSo house.trail act.table act.write)
        answer };

    ghost most = { 1 };

    ghost few = { λ act answer. few_forgotten act.table act.write answer };

    ghost goes_on = { λ act answer before now step does.
        job_later D.told D.faults (call_to_forget act.table act.write answer)
        answer before now step does.leaves does.up };

    fn act(self, alloc: Global, house: &mut ToldHouse<D>) -> Result<(), JobActFault> {
        if house.house.is_closed() {
            Err(JobActFault::Call(JobFault::House(HouseFault::Store)))
        } else {
            forget_id(alloc, &mut house.house, self.table, self.write)
        }
    }
}
