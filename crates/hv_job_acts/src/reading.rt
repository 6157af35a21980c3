//! Files that are listed and got, for a compaction at work or a cleaner.

ghost use Rattle.std.specs.Prelude.{◌≡◌, Some, None};
ghost use Rattle.hv_trail.specs.declared.trail.Reader.TheVariants as reader;
ghost use Rattle.hv_trail.specs.Steps.{Read};
ghost use Rattle.hv_acts.specs.hv_telling.specs.hv_house.specs.Housed.{ShutsHard};
ghost use Rattle.hv_acts.specs.hv_telling.specs.hv_house.specs.Steps.{seen_of};
ghost use Rattle.hv_acts.specs.hv_telling.specs.Telling.{IsWhole};
ghost use Rattle.hv_job_acts.specs.Answers.{ActStep, answer_call};
ghost use Rattle.hv_job_acts.specs.Doing.{ListsSo, GetsSo};
ghost use Rattle.hv_job_acts.specs.Reading.{PlacesSo, why_found, found_in};

use crate::fault::JobActFault;
use crate::passing::passed;
use hv_actor::Act;
use hv_acts::ToldHouse;
use hv_acts::hv_telling::hv_house::{House, HouseFault, Listing};
use hv_base::{JobId, TableId};
use hv_finals::is_at_work;
use hv_job_calls::{JobFault, get_for_job, list_job, places};
use hv_shelf::{Place, Shelf};
use std::alloc::Global;

/// Lists the files of the partition of a job at work that it takes, under the list of its table up to its watermark.
#[derive(Drop)]
pub struct ListJob {
    pub job: JobId,
}

fn list_for<D: Shelf>(
    alloc: Global,
    house: &mut House<D>,
    job: JobId,
) -> Result<Listing, JobActFault>
    requires whole { IsWhole D.told house.old }
    requires hard { ShutsHard D.hard (seen_of house.old) }
    ensures listed { ActStep D.told D.faults (answer_call (Read (Some (reader.Job job))) result) house.old house.new
        (ListsSo D.told (seen_of house.old) job) result }
    ensures hard { ShutsHard D.hard (seen_of house.new) }
{
    if is_at_work(house.book(), job) {
        passed(list_job(alloc, house, job))
    } else {
        Err(JobActFault::Unfit)
    }
}

impl<D: Shelf + Drop> Act<D, ToldHouse<D>> for ListJob {
    ghost use Rattle.std.specs.Prelude.{Some};
    ghost use Rattle.hv_trail.specs.declared.trail.Reader.TheVariants as reader;
    ghost use Rattle.hv_trail.specs.Steps.{Read};
    ghost use Rattle.hv_job_acts.specs.Answers.{answer_call, answer_outcome, adds_by, JobDoes};
    ghost use Rattle.hv_job_acts.specs.Doing.{ListsSo};
    ghost use Rattle.hv_job_acts.specs.Few.{few_read};
    ghost use Rattle.hv_job_acts.specs.Laters.{job_later};

    type Answer = Result<Listing, JobActFault>;

    ghost can = { λ act house. Unit {0} };

    ghost call = { λ act house answer. answer_call (Read (Some (reader.Job act.job))) answer };

    ghost outcome = { λ act answer. answer_outcome answer };

    ghost adds = { λ act answer. adds_by (Read (Some (reader.Job act.job))) answer };

    ghost does = { λ act house now answer. JobDoes D.faults house now (ListsSo D.told house act.job) answer };

    ghost most = { 1 };

    ghost few = { λ act answer. few_read (Some (reader.Job act.job)) answer };

    ghost goes_on = { λ act answer before now step does.
        job_later D.told D.faults (answer_call (Read (Some (reader.Job act.job))) answer)
        answer before now step does.leaves does.up };

    fn act(self, alloc: Global, house: &mut ToldHouse<D>) -> Result<Listing, JobActFault> {
        if house.house.is_closed() {
            Err(JobActFault::Call(JobFault::House(HouseFault::Store)))
        } else {
            list_for(alloc, &mut house.house, self.job)
        }
    }
}

/// Gets the bytes of the file at a place, for a job at work; None where no file stands there.
#[derive(Drop)]
pub struct GetJobFile<'a> {
    pub job: JobId,
    pub place: &'a Place,
}

/// That no file stands there is an answer.
fn why_found(why: JobFault) -> Result<Option<Vec<u8>>, JobActFault>
    ensures { result ≡ why_found why }
{
    match why {
        JobFault::NotFound => Ok(None),
        JobFault::Gone => Err(JobActFault::Call(JobFault::Gone)),
        JobFault::Full { entries } => Err(JobActFault::Call(JobFault::Full { entries })),
        JobFault::Needed { txn } => Err(JobActFault::Call(JobFault::Needed { txn })),
        JobFault::StillListed { dir } => Err(JobActFault::Call(JobFault::StillListed { dir })),
        JobFault::Working { job } => Err(JobActFault::Call(JobFault::Working { job })),
        JobFault::Starved => Err(JobActFault::Call(JobFault::Starved)),
        JobFault::House(why) => Err(JobActFault::Call(JobFault::House(why))),
    }
}

/// What the house answered.
fn found_in(done: Result<Vec<u8>, JobFault>) -> Result<Option<Vec<u8>>, JobActFault>
    ensures { result ≡ found_in done }
{
    match done {
        Ok(bytes) => Ok(Some(bytes)),
        Err(why) => why_found(why),
    }
}

fn get_for<D: Shelf>(
    alloc: Global,
    house: &mut House<D>,
    job: JobId,
    place: &Place,
) -> Result<Option<Vec<u8>>, JobActFault>
    requires whole { IsWhole D.told house.old }
    requires hard { ShutsHard D.hard (seen_of house.old) }
    ensures got { ActStep D.told D.faults (answer_call (Read (Some (reader.Job job))) result) house.old house.new
        (GetsSo D.told (seen_of house.old) job place.now) result }
    ensures hard { ShutsHard D.hard (seen_of house.new) }
{
    if is_at_work(house.book(), job) {
        found_in(get_for_job(alloc, house, job, place))
    } else {
        Err(JobActFault::Unfit)
    }
}

impl<'a, D: Shelf + Drop> Act<D, ToldHouse<D>> for GetJobFile<'a> {
    ghost use Rattle.std.specs.Prelude.{Some};
    ghost use Rattle.hv_trail.specs.declared.trail.Reader.TheVariants as reader;
    ghost use Rattle.hv_trail.specs.Steps.{Read};
    ghost use Rattle.hv_job_acts.specs.Answers.{answer_call, answer_outcome, adds_by, JobDoes};
    ghost use Rattle.hv_job_acts.specs.Doing.{GetsSo};
    ghost use Rattle.hv_job_acts.specs.Few.{few_read};
    ghost use Rattle.hv_job_acts.specs.Laters.{job_later};

    type Answer = Result<Option<Vec<u8>>, JobActFault>;

    ghost can = { λ act house. Unit {0} };

    ghost call = { λ act house answer. answer_call (Read (Some (reader.Job act.job))) answer };

    ghost outcome = { λ act answer. answer_outcome answer };

    ghost adds = { λ act answer. adds_by (Read (Some (reader.Job act.job))) answer };

    ghost does = { λ act house now answer. JobDoes D.faults house now (GetsSo D.told house act.job act.place.now)
        answer };

    ghost most = { 1 };

    ghost few = { λ act answer. few_read (Some (reader.Job act.job)) answer };

    ghost goes_on = { λ act answer before now step does.
        job_later D.told D.faults (answer_call (Read (Some (reader.Job act.job))) answer)
        answer before now step does.leaves does.up };

    fn act(self, alloc: Global, house: &mut ToldHouse<D>) -> Result<Option<Vec<u8>>, JobActFault> {
        if house.house.is_closed() {
            Err(JobActFault::Call(JobFault::House(HouseFault::Store)))
        } else {
            get_for(alloc, &mut house.house, self.job, self.place)
        }
    }
}

/// Lists the places of a table's files, rising, for a cleaner.
#[derive(Drop)]
pub struct ListPlaces {
    pub table: TableId,
}

fn list_places<D: Shelf>(
    alloc: Global,
    house: &mut House<D>,
    table: TableId,
) -> Result<Vec<Place>, JobActFault>
    requires whole { IsWhole D.told house.old }
    requires hard { ShutsHard D.hard (seen_of house.old) }
    ensures listed { ActStep D.told D.faults (answer_call (Read None) result) house.old house.new
        (PlacesSo D.told (seen_of house.old) table) result }
    ensures hard { ShutsHard D.hard (seen_of house.new) }
{
    passed(places(alloc, house, table))
}

impl<D: Shelf + Drop> Act<D, ToldHouse<D>> for ListPlaces {
    ghost use Rattle.std.specs.Prelude.{None};
    ghost use Rattle.hv_trail.specs.Steps.{Read};
    ghost use Rattle.hv_job_acts.specs.Answers.{answer_call, answer_outcome, adds_by, JobDoes};
    ghost use Rattle.hv_job_acts.specs.Reading.{PlacesSo};
    ghost use Rattle.hv_job_acts.specs.Few.{few_read};
    ghost use Rattle.hv_job_acts.specs.Laters.{job_later};

    type Answer = Result<Vec<Place>, JobActFault>;

    ghost can = { λ act house. Unit {0} };

    ghost call = { λ act house answer. answer_call (Read None) answer };

    ghost outcome = { λ act answer. answer_outcome answer };

    ghost adds = { λ act answer. adds_by (Read None) answer };

    ghost does = { λ act house now answer. JobDoes D.faults house now (PlacesSo D.told house act.table) answer };

    ghost most = { 1 };

    ghost few = { λ act answer. few_read None answer };

    ghost goes_on = { λ act answer before now step does.
        job_later D.told D.faults (answer_call (Read None) answer)
        answer before now step does.leaves does.up };

    fn act(self, alloc: Global, house: &mut ToldHouse<D>) -> Result<Vec<Place>, JobActFault> {
        if house.house.is_closed() {
            Err(JobActFault::Call(JobFault::House(HouseFault::Store)))
        } else {
            list_places(alloc, &mut house.house, self.table)
        }
    }
}
