//! Compactions that are asked for and taken up.

ghost use Rattle.std.specs.Prelude.{◌≡◌, ◌≤◌, ◌<◌, ◌-◌, true, false, Some, length};
ghost use Rattle.hv_history.specs.State.{state_of, Job, numbered};
ghost use Rattle.hv_history.specs.Jobs.{due};
ghost use Rattle.hv_trail.specs.Trail.{book_of};
ghost use Rattle.hv_trail.specs.Kept.{trail_of};
ghost use Rattle.hv_acts.specs.hv_telling.specs.hv_house.specs.Housed.{ShutsHard};
ghost use Rattle.hv_acts.specs.hv_telling.specs.hv_house.specs.House.{entries_of};
ghost use Rattle.hv_acts.specs.hv_telling.specs.hv_house.specs.Steps.{seen_of};
ghost use Rattle.hv_acts.specs.hv_telling.specs.Telling.{IsWhole};
ghost use Rattle.hv_job_acts.specs.Answers.{ActStep};
ghost use Rattle.hv_job_acts.specs.Asking.{most_text, asked_as, asked_in, call_to_ask, DuesSo, call_to_pick, PicksSo};
ghost use Rattle.hv_job_acts.specs.Picking.{mark_at, PickedNow, PickedIn};

use crate::fault::JobActFault;
use hv_actor::Act;
use hv_acts::ToldHouse;
use hv_acts::hv_telling::hv_house::{House, HouseFault};
use hv_base::{Duplicate, JobId, NoMemory, TableId, Text, WriteId};
use hv_book::Book;
use hv_history::{Entry, JobKind, numbered};
use hv_job_calls::{JobFault, ask, pick};
use hv_queue::{JobPieces, due, pieces};
use hv_shelf::Shelf;
use std::alloc::Global;

/// The longest text of a partition that is asked for.
const MOST_TEXT: usize = 240;

/// A compaction that was asked for.
#[derive(Clone, Copy)]
pub struct AskedJob {
    pub job: JobId,
    pub kind: JobKind,
}

/// A compaction that was taken up: what it merges of the write ids up to its watermark.
#[derive(Clone, Copy)]
pub struct PickedJob {
    pub job: JobId,
    pub watermark: WriteId,
    pub kind: JobKind,
    pub pieces: JobPieces,
}

/// Asks for a compaction of a partition, where one is due; None where none is.
#[derive(Drop)]
pub struct AskDue<'a> {
    pub table: TableId,
    pub partition: &'a Text,
}

fn asked_as(kind: JobKind, found: Option<JobId>) -> Option<AskedJob>
    ensures { result ≡ asked_as kind found }
{
    match found {
        Some(job) => Some(AskedJob { job, kind }),
        None => None,
    }
}

/// What the house answered, with the kind that was asked for.
fn asked_in(
    kind: JobKind,
    done: Result<Option<JobId>, JobFault>,
) -> Result<Option<AskedJob>, JobActFault>
    ensures { result ≡ asked_in kind done }
{
    match done {
        Ok(found) => Ok(asked_as(kind, found)),
        Err(why) => Err(JobActFault::Call(why)),
    }
}

/// Asks for the one of this kind, which is due.
fn ask_kind<D: Shelf>(
    house: &mut House<D>,
    table: TableId,
    partition: Text,
    kind: JobKind,
) -> Result<Option<AskedJob>, JobActFault>
    requires whole { IsWhole D.told house.old }
    requires hard { ShutsHard D.hard (seen_of house.old) }
    requires short { length partition ≤ most_text }
    requires due { due (state_of (entries_of house.old)) table.0 partition ≡ Some kind }
    ensures asked { ActStep D.told D.faults
        (call_to_ask (book_of (trail_of house.old.trail)) table partition result) house.old house.new
        (DuesSo (book_of (trail_of house.old.trail)) table partition) result }
    ensures hard { ShutsHard D.hard (seen_of house.new) }
{
    asked_in(kind, ask(house, table, partition, kind, 0))
}

/// Whether the text is too long to be asked for.
fn is_long(partition: &Text) -> bool
    ensures long { result ≡ true → most_text < length partition.now }
    ensures short { result ≡ false → length partition.now ≤ most_text }
{
    partition.len() > MOST_TEXT
}

fn ask_short<D: Shelf>(
    alloc: Global,
    house: &mut House<D>,
    table: TableId,
    partition: &Text,
    kind: JobKind,
) -> Result<Option<AskedJob>, JobActFault>
    requires whole { IsWhole D.told house.old }
    requires hard { ShutsHard D.hard (seen_of house.old) }
    requires due { due (state_of (entries_of house.old)) table.0 partition.now ≡ Some kind }
    ensures asked { ActStep D.told D.faults
        (call_to_ask (book_of (trail_of house.old.trail)) table partition.now result) house.old house.new
        (DuesSo (book_of (trail_of house.old.trail)) table partition.now) result }
    ensures hard { ShutsHard D.hard (seen_of house.new) }
{
    if is_long(partition) {
        return Err(JobActFault::Unfit);
    }
    match partition.duplicate(alloc) {
        Ok(copy) => ask_kind(house, table, copy, kind),
        Err(NoMemory) => Err(JobActFault::Call(JobFault::House(HouseFault::NoMemory))),
    }
}

/// Asks for what is due, where something is.
fn ask_found<D: Shelf>(
    alloc: Global,
    house: &mut House<D>,
    table: TableId,
    partition: &Text,
    found: Option<JobKind>,
) -> Result<Option<AskedJob>, JobActFault>
    requires whole { IsWhole D.told house.old }
    requires hard { ShutsHard D.hard (seen_of house.old) }
    requires due { due (state_of (entries_of house.old)) table.0 partition.now ≡ found }
    ensures asked { ActStep D.told D.faults
        (call_to_ask (book_of (trail_of house.old.trail)) table partition.now result) house.old house.new
        (DuesSo (book_of (trail_of house.old.trail)) table partition.now) result }
    ensures hard { ShutsHard D.hard (seen_of house.new) }
{
    match found {
        Some(kind) => ask_short(alloc, house, table, partition, kind),
        None => Ok(None),
    }
}

fn ask_due<D: Shelf>(
    alloc: Global,
    house: &mut House<D>,
    table: TableId,
    partition: &Text,
) -> Result<Option<AskedJob>, JobActFault>
    requires whole { IsWhole D.told house.old }
    requires hard { ShutsHard D.hard (seen_of house.old) }
    ensures asked { ActStep D.told D.faults
        (call_to_ask (book_of (trail_of house.old.trail)) table partition.now result) house.old house.new
        (DuesSo (book_of (trail_of house.old.trail)) table partition.now) result }
    ensures hard { ShutsHard D.hard (seen_of house.new) }
{
    match due(house.book(), table, partition) {
        Ok(found) => ask_found(alloc, house, table, partition, found),
        Err(NoMemory) => Err(JobActFault::Call(JobFault::House(HouseFault::NoMemory))),
    }
}

impl<'a, D: Shelf + Drop> Act<D, ToldHouse<D>> for AskDue<'a> {
    ghost use Rattle.hv_trail.specs.Trail.{book_of};
    ghost use Rattle.hv_job_acts.specs.Answers.{answer_outcome, JobDoes};
    ghost use Rattle.hv_job_acts.specs.Asking.{call_to_ask, adds_found, asked_entry, DuesSo};
    ghost use Rattle.hv_job_acts.specs.Few.{few_found};
    ghost use Rattle.hv_job_acts.specs.Laters.{job_later};

    type Answer = Result<Option<AskedJob>, JobActFault>;

    ghost can = { λ act house. Unit {0} };

    ghost call = { λ act house answer. call_to_ask (book_of house.trail) act.table act.partition.now answer };

    ghost outcome = { λ act answer. answer_outcome answer };

    ghost adds = { λ act answer. adds_found (asked_entry act.table act.partition.now) answer };

    ghost does = { λ act house now answer. JobDoes D.faults house now
        (DuesSo (book_of house.trail) act.table act.partition.now) answer };

    ghost most = { 1 };

    ghost few = { λ act answer. few_found (asked_entry act.table act.partition.now) answer };

    ghost goes_on = { λ act answer before now step does.
        job_later D.told D.faults (call_to_ask (book_of before.trail) act.table act.partition.now answer)
        answer before now step does.leaves does.up };

    fn act(self, alloc: Global, house: &mut ToldHouse<D>) -> Result<Option<AskedJob>, JobActFault> {
        if house.house.is_closed() {
            Err(JobActFault::Call(JobFault::House(HouseFault::Store)))
        } else {
            ask_due(alloc, &mut house.house, self.table, self.partition)
        }
    }
}

/// Takes up the lowest job of a live table that nobody took up; None where there is none.
#[derive(Drop)]
pub struct PickJob;

/// The watermark of the Picked at this place of the book.
fn mark_at(book: &Book, place: usize) -> WriteId
    ensures { result ≡ mark_at book.now.entries place }
{
    match book.entries().get(place) {
        Some(Entry::Picked { watermark, .. }) => *watermark,
        _ => WriteId(0),
    }
}

/// The watermark of the Picked that the book ends with.
fn last_mark(book: &Book) -> WriteId
    ensures { result ≡ mark_at book.now.entries (length book.now.entries - 1) }
{
    let count = book.entries().len();
    mark_at(book, count.saturating_sub(1))
}

fn kind_of(book: &Book, job: JobId) -> JobKind
    ensures { (j : Job) → numbered (state_of book.now.entries).jobs job.0 ≡ Some j → result ≡ j.kind }
{
    match numbered(book.jobs(), job.0) {
        Some(note) => note.kind,
        None => JobKind::Minor,
    }
}

/// What is known of a job that was just taken up.
fn picked(book: &Book, job: JobId) -> PickedJob
    ensures picked { PickedNow book.now.entries job result }
{
    PickedJob {
        job,
        watermark: last_mark(book),
        kind: kind_of(book, job),
        pieces: pieces(book, job),
    }
}

fn pick_found(book: &Book, found: Option<JobId>) -> Option<PickedJob>
    ensures picked { PickedIn book.now.entries found result }
{
    match found {
        Some(job) => Some(picked(book, job)),
        None => None,
    }
}

fn pick_job<D: Shelf>(house: &mut House<D>) -> Result<Option<PickedJob>, JobActFault>
    requires whole { IsWhole D.told house.old }
    requires hard { ShutsHard D.hard (seen_of house.old) }
    ensures picked { ActStep D.told D.faults (call_to_pick (book_of (trail_of house.old.trail)) result)
        house.old house.new
        (PicksSo (book_of (trail_of house.old.trail)) (book_of (trail_of house.new.trail))) result }
    ensures hard { ShutsHard D.hard (seen_of house.new) }
{
    match pick(house) {
        Ok(found) => Ok(pick_found(house.book(), found)),
        Err(why) => Err(JobActFault::Call(why)),
    }
}

impl<D: Shelf + Drop> Act<D, ToldHouse<D>> for PickJob {
    ghost use Rattle.hv_trail.specs.Trail.{book_of};
    ghost use Rattle.hv_job_acts.specs.Answers.{answer_outcome, JobDoes};
    ghost use Rattle.hv_job_acts.specs.Asking.{call_to_pick, adds_found, picked_entry, PicksSo};
    ghost use Rattle.hv_job_acts.specs.Few.{few_found};
    ghost use Rattle.hv_job_acts.specs.Laters.{job_later};

    type Answer = Result<Option<PickedJob>, JobActFault>;

    ghost can = { λ act house. Unit {0} };

    ghost call = { λ act house answer. call_to_pick (book_of house.trail) answer };

    ghost outcome = { λ act answer. answer_outcome answer };

    ghost adds = { λ act answer. adds_found picked_entry answer };

    ghost does = { λ act house now answer. JobDoes D.faults house now
        (PicksSo (book_of house.trail) (book_of now.trail)) answer };

    ghost most = { 1 };

    ghost few = { λ act answer. few_found picked_entry answer };

    ghost goes_on = { λ act answer before now step does.
        job_later D.told D.faults (call_to_pick (book_of before.trail) answer)
        answer before now step does.leaves does.up };

    fn act(
        self,
        _alloc: Global,
        house: &mut ToldHouse<D>,
    ) -> Result<Option<PickedJob>, JobActFault> {
        if house.house.is_closed() {
            Err(JobActFault::Call(JobFault::House(HouseFault::Store)))
        } else {
            pick_job(&mut house.house)
        }
    }
}
