ghost use Rattle.std.specs.Prelude.{◌≡◌, Some, IfOk};
ghost use Rattle.std.specs.Option.{option_copied};
ghost use Rattle.hv_trail.specs.Trail.{book_of};
ghost use Rattle.hv_trail.specs.Kept.{trail_of};
ghost use Rattle.hv_telling.specs.hv_house.specs.House.{IsReady};
ghost use Rattle.hv_acts.specs.Ending.{cause_at, told_so, told_at, some_told, EndStep};

use crate::fault::ActFault;
use crate::told::ToldHouse;
use hv_actor::Act;
use hv_base::{List, NoMemory, TxnId};
use hv_history::{Cause, Entry, cause_text};
use hv_meta::{TxnState, state_of};
use hv_shelf::Shelf;
use hv_telling::hv_house::{House, HouseFault};
use std::alloc::Global;

/// The entry by which a transaction has ended: its place in the book, whether it is an abort, and what is printed for that. An abort for a
/// conflict is told without a table's name, and of any other end nothing is printed.
#[derive(Drop)]
pub struct EndTold {
    pub at: u64,
    pub refused: bool,
    pub text: List<u8>,
}

/// Asks how a transaction has ended: None where it hasn't.
#[derive(Drop)]
pub struct TellEnd {
    pub txn: TxnId,
}

/// The cause of the Abort at this place. None where no Abort stands there.
fn cause_at(entries: &[Entry], place: u64) -> Option<&Cause>
    ensures cause { option_copied result ≡ cause_at entries.now place }
{
    match entries.get(place as usize) {
        Some(Entry::Abort { cause, .. }) => Some(cause),
        _ => None,
    }
}

/// What is told of an abort for this cause, by the entry at that place.
fn abort_told(alloc: Global, at: u64, cause: &Cause) -> Result<EndTold, NoMemory>
    ensures told { IfOk result (λ told. told ≡ told_so at (Some cause.now)) }
{
    let text = cause_text(alloc, &None, cause)?;
    Ok(EndTold {
        at,
        refused: true,
        text: List::from_vec(text),
    })
}

/// The same of any entry, by the cause that it has.
fn told_so(alloc: Global, at: u64, cause: Option<&Cause>) -> Result<EndTold, NoMemory>
    ensures told { IfOk result (λ told. told ≡ told_so at (option_copied cause.entry)) }
{
    match cause {
        Some(cause) => abort_told(alloc, at, cause),
        None => Ok(EndTold {
            at,
            refused: false,
            text: List::from_vec(Vec::new(alloc)),
        }),
    }
}

/// What is told of the entry at this place of the house's book.
fn told_at<D: Shelf>(alloc: Global, house: &House<D>, at: u64) -> Result<EndTold, NoMemory>
    ensures told { IfOk result (λ told. told ≡ told_at (book_of (trail_of house.now.trail)) at) }
{
    let entries = house.book().entries();
    told_so(alloc, at, cause_at(entries, at))
}

fn some_told(told: Result<EndTold, NoMemory>) -> Result<Option<EndTold>, ActFault>
    ensures some { result ≡ some_told told }
{
    match told {
        Ok(told) => Ok(Some(told)),
        Err(NoMemory) => Err(ActFault::House(HouseFault::NoMemory)),
    }
}

fn tell_end<D: Shelf>(
    alloc: Global,
    house: &House<D>,
    txn: TxnId,
) -> Result<Option<EndTold>, ActFault>
    requires ready { IsReady D.told house.now }
    ensures told { EndStep D.told D.faults txn house.now result }
{
    match state_of(house.book(), txn) {
        TxnState::Ended { at } => some_told(told_at(alloc, house, at)),
        TxnState::Unknown => Ok(None),
        TxnState::Running { .. } => Ok(None),
    }
}

impl<D: Shelf + Drop> Act<D, ToldHouse<D>> for TellEnd {
    ghost use Rattle.std.specs.Prelude.{[]};
    ghost use Rattle.hv_trail.specs.Steps.{Ask};
    ghost use Rattle.hv_acts.specs.Answers.{answer_outcome};
    ghost use Rattle.hv_acts.specs.Ending.{EndAnswers};
    ghost use Rattle.hv_acts.specs.Few.{few_none};
    ghost use Rattle.hv_acts.specs.Laters.{tell_later};

    type Answer = Result<Option<EndTold>, ActFault>;

    ghost can = { λ act house. Unit {0} };

    ghost call = { λ act house answer. Ask };

    ghost outcome = { λ act answer. answer_outcome answer };

    ghost adds = { λ act answer. [] };

    ghost does = { λ act house now answer. EndAnswers house act.txn answer };

    ghost most = { 1 };

    ghost few = { λ act answer. few_none };

    ghost goes_on = { λ act answer before now step does.
        tell_later D.told D.faults act.txn answer before now step does };

    fn act(self, alloc: Global, house: &mut ToldHouse<D>) -> Result<Option<EndTold>, ActFault> {
        if house.house.is_closed() {
            Err(ActFault::House(HouseFault::Store))
        } else {
            tell_end(alloc, &house.house, self.txn)
        }
    }
}
