ghost use Rattle.std.specs.Prelude.{◌≡◌, ℕ, List, IfOk, Some};
ghost use Rattle.hv_history.specs.declared.entry.Entry.{Entry};
ghost use Rattle.hv_history.specs.State.{state_of, nothing_yet, Job, numbered};
ghost use Rattle.hv_history.specs.Legal.{profile, AllFit};
ghost use Rattle.hv_trail.specs.Kept.{trail_of};
ghost use Rattle.hv_trail.specs.Trail.{book_of};
ghost use Rattle.hv_trail.specs.Steps.{Ask};
ghost use Rattle.hv_acts.specs.hv_telling.specs.Telling.{IsWhole};
ghost use Rattle.hv_job_acts.specs.Answers.{ActStep};
ghost use Rattle.hv_job_acts.specs.Work.{parts_in, ready_in, lost_in, live_in, AreCovered};
ghost use Rattle.hv_job_acts.specs.Covering.{AreNamesOf};
ghost use Rattle.hv_job_acts.specs.Questions.{AnswersSo};

use crate::asking::{LostId, PartAt, list_live, list_lost, list_parts, list_ready};
use crate::covering::covered_dirs;
use crate::fault::JobActFault;
use hv_actor::Act;
use hv_acts::ToldHouse;
use hv_acts::hv_telling::hv_house::{House, HouseFault};
use hv_base::{JobId, NoMemory};
use hv_book::Book;
use hv_job_calls::JobFault;
use hv_shelf::{DirAt, Shelf};
use std::alloc::Global;

/// Something that is asked of a book.
pub trait Question: Drop {
    type Answer;

    /// What is true of its answer, over the book.
    ghost says: { Self → List Entry → Self.Answer → Type 0 };

    fn ask(&self, alloc: Global, book: &Book) -> Result<Self::Answer, NoMemory>
        requires fit { AllFit profile nothing_yet book.now.entries }
        ensures says { IfOk result (λ answer. says self.now book.now.entries answer) };
}

/// Which partitions of live tables commits have touched, by table and by text, each once.
#[derive(Drop)]
pub struct Parts;

impl Question for Parts {
    type Answer = Vec<PartAt>;

    ghost says = { λ question book parts. parts.items ≡ parts_in book };

    fn ask(&self, alloc: Global, book: &Book) -> Result<Vec<PartAt>, NoMemory> {
        list_parts(alloc, book)
    }
}

/// Which jobs of live tables are ready for cleaning, by number.
#[derive(Drop)]
pub struct Ready;

impl Question for Ready {
    type Answer = Vec<JobId>;

    ghost says = { λ question book jobs. jobs.items ≡ ready_in (state_of book) };

    fn ask(&self, alloc: Global, book: &Book) -> Result<Vec<JobId>, NoMemory> {
        list_ready(alloc, book)
    }
}

/// Which directories a job covers that no job covers which was cleaned.
#[derive(Drop)]
pub struct Covered {
    pub job: JobId,
}

impl Question for Covered {
    type Answer = Vec<DirAt>;

    ghost says = { λ question book dirs. (j : Job) → numbered (state_of book).jobs question.job.0 ≡ Some j
        → AreNamesOf (state_of book) j → AreCovered (state_of book) j dirs.items };

    fn ask(&self, alloc: Global, book: &Book) -> Result<Vec<DirAt>, NoMemory> {
        covered_dirs(alloc, book, self.job)
    }
}

/// Which aborted write ids of live tables aren't forgotten, by table and by id.
#[derive(Drop)]
pub struct Lost;

impl Question for Lost {
    type Answer = Vec<LostId>;

    ghost says = { λ question book ids. ids.items ≡ lost_in (state_of book) };

    fn ask(&self, alloc: Global, book: &Book) -> Result<Vec<LostId>, NoMemory> {
        list_lost(alloc, book)
    }
}

/// How many tables were made, and which of them are live, by number.
#[derive(Drop)]
pub struct Tables;

impl Question for Tables {
    type Answer = Vec<bool>;

    ghost says = { λ question book live. live.items ≡ live_in (state_of book) };

    fn ask(&self, alloc: Global, book: &Book) -> Result<Vec<bool>, NoMemory> {
        list_live(alloc, book)
    }
}

/// Asks a house's book, in one hold.
#[derive(Drop)]
pub struct AskBook<Q> {
    pub question: Q,
}

fn ask_book<D: Shelf, Q: Question>(
    alloc: Global,
    house: &House<D>,
    question: &Q,
) -> Result<Q::Answer, JobActFault>
    requires whole { IsWhole D.told house.now }
    ensures asked { ActStep D.told D.faults Ask house.now house.now
        (AnswersSo (Q.says question.now) (book_of (trail_of house.now.trail))) result }
{
    match question.ask(alloc, house.book()) {
        Ok(answer) => Ok(answer),
        Err(NoMemory) => Err(JobActFault::Call(JobFault::House(HouseFault::NoMemory))),
    }
}

impl<D: Shelf + Drop, Q: Question> Act<D, ToldHouse<D>> for AskBook<Q> {
    ghost use Rattle.std.specs.Prelude.{[]};
    ghost use Rattle.hv_trail.specs.Trail.{book_of};
    ghost use Rattle.hv_trail.specs.Steps.{Ask};
    ghost use Rattle.hv_job_acts.specs.Answers.{answer_outcome, JobDoes};
    ghost use Rattle.hv_job_acts.specs.Questions.{AnswersSo};
    ghost use Rattle.hv_job_acts.specs.Few.{few_none};
    ghost use Rattle.hv_job_acts.specs.Laters.{job_later};

    type Answer = Result<Q::Answer, JobActFault>;

    ghost can = { λ act house. Unit {0} };

    ghost call = { λ act house answer. Ask };

    ghost outcome = { λ act answer. answer_outcome answer };

    ghost adds = { λ act answer. [] };

    ghost does = { λ act house now answer. JobDoes D.faults house now
        (AnswersSo (Q.says act.question) (book_of house.trail)) answer };

    ghost most = { 1 };

    ghost few = { λ act answer. few_none };

    ghost goes_on = { λ act answer before now step does.
        job_later D.told D.faults Ask answer before now step does.leaves does.up };

    fn act(self, alloc: Global, house: &mut ToldHouse<D>) -> Result<Q::Answer, JobActFault> {
        if house.house.is_closed() {
            Err(JobActFault::Call(JobFault::House(HouseFault::Store)))
        } else {
            ask_book(alloc, &house.house, &self.question)
        }
    }
}
