//! What is tested of a house before a call.
ghost use Rattle.std.specs.Prelude.{◌≡◌, ◌↔◌, IsTrue, length, slice_get};
ghost use Rattle.hv_history.specs.State.{state_of, numbered};
ghost use Rattle.hv_history.specs.Legal.{HasRoom, profile};
ghost use Rattle.hv_history.specs.Jobs.{if_below};
ghost use Rattle.hv_telling.specs.hv_house.specs.House.{entries_of};
ghost use Rattle.hv_telling.specs.Telling.{IsWhole};
ghost use Rattle.hv_job_calls.specs.Refusals.{is_live_in};
ghost use Rattle.hv_job_calls.specs.Tests.{holder_note, live_in, held_in, works_live};

use hv_base::JobId;
use hv_book::{Book, JobRange};
use hv_finals::is_at_work;
use hv_history::numbered;
use hv_queue::is_live;
use hv_shelf::Shelf;
use hv_tallies::both;
use hv_telling::hv_house::House;

/// How many entries the book has.
pub(crate) fn entry_count<D: Shelf>(house: &House<D>) -> u64
    ensures count { result ≡ length (entries_of house.now) }
{
    house.book().entries().len() as u64
}

/// Whether the table of this number is live.
pub(crate) fn is_table_live<D: Shelf>(house: &House<D>, table: u64) -> bool
    ensures live { result ≡ is_live_in (state_of (entries_of house.now)) table }
{
    is_live(house.book(), table)
}

/// Whether the job is there and its table is live.
fn is_live_for(book: &Book, job: JobId) -> bool
    ensures live { result ≡ live_in (state_of book.now.entries) (numbered (state_of book.now.entries).jobs job.0) }
{
    match numbered(book.jobs(), job.0) {
        Some(note) => is_live(book, note.table),
        None => false,
    }
}

/// Whether the table of the job is live.
pub(crate) fn is_job_live<D: Shelf>(house: &House<D>, job: JobId) -> bool
    ensures live { result
        ≡ live_in (state_of (entries_of house.now)) (numbered (state_of (entries_of house.now)).jobs job.0) }
{
    is_live_for(house.book(), job)
}

/// Whether there is room for so much of the load more.
pub(crate) fn has_room<D: Shelf>(house: &House<D>, more: u64) -> bool
    requires whole { IsWhole D.told house.now }
    ensures room { IsTrue result ↔ HasRoom profile (state_of (entries_of house.now)) more }
{
    house.has_room(more)
}

/// The first of these numbers, where it is below the mark.
fn first_below(ongoing: &[u64], mark: u64) -> Option<u64>
    ensures { result ≡ if_below mark (slice_get ongoing.now 0) }
{
    match ongoing.get(0) {
        Some(txn) => { if *txn < mark { Some(*txn) } else { None } }
        None => None,
    }
}

/// The lowest open transaction below the mark of a range.
fn holder_of(book: &Book, range: Option<JobRange>) -> Option<u64>
    ensures { result ≡ holder_note (state_of book.now.entries) range }
{
    match range {
        Some(range) => first_below(book.ongoing(), range.mark),
        None => None,
    }
}

fn holder_in(book: &Book, job: JobId) -> Option<u64>
    ensures holder { result
        ≡ held_in (state_of book.now.entries) (numbered (state_of book.now.entries).jobs job.0) }
{
    match numbered(book.jobs(), job.0) {
        Some(note) => holder_of(book, note.published),
        None => None,
    }
}

/// The lowest open transaction below the mark of a job.
pub(crate) fn holder<D: Shelf>(house: &House<D>, job: JobId) -> Option<u64>
    ensures holder { result
        ≡ held_in (state_of (entries_of house.now)) (numbered (state_of (entries_of house.now)).jobs job.0) }
{
    holder_in(house.book(), job)
}

/// Whether the job of this number is at work and its table is live.
fn works_for(book: &Book, job: JobId) -> bool
    ensures works { result ≡ works_live (state_of book.now.entries) (numbered (state_of book.now.entries).jobs job.0) }
{
    both(is_at_work(book, job), is_live_for(book, job))
}

pub(crate) fn works_live<D: Shelf>(house: &House<D>, job: JobId) -> bool
    ensures works { result
        ≡ works_live (state_of (entries_of house.now)) (numbered (state_of (entries_of house.now)).jobs job.0) }
{
    works_for(house.book(), job)
}
