ghost use Rattle.std.specs.Prelude.{◌≡◌, IfOk, length};
ghost use Rattle.hv_history.specs.declared.entry.Entry.TheVariants as entry;
ghost use Rattle.hv_stands.specs.Running.{IsOwnCause};
ghost use Rattle.hv_trail.specs.Trail.{book_of};
ghost use Rattle.hv_trail.specs.Kept.{trail_of};
ghost use Rattle.hv_telling.specs.hv_house.specs.House.{IsSmall};
ghost use Rattle.hv_telling.specs.hv_house.specs.Housed.{ShutsHard};
ghost use Rattle.hv_telling.specs.hv_house.specs.Steps.{seen_of};
ghost use Rattle.hv_telling.specs.Telling.{IsToldHouse, IsWhole};
ghost use Rattle.hv_acts.specs.Meant.{IsAbortDue};
ghost use Rattle.hv_acts.specs.Answers.{HasItsMark, own_entry, EntryStep};

use crate::fault::ActFault;
use crate::noting::{next_place, note_fitting};
use crate::told::ToldHouse;
use hv_actor::Act;
use hv_base::TxnId;
use hv_history::{Cause, Entry};
use hv_shelf::Shelf;
use hv_telling::hv_house::{House, HouseFault};
use std::alloc::Global;

/// Aborts a transaction for a cause that fits, and answers the place of the entry that ended it.
#[derive(Drop)]
pub struct AbortFor {
    pub txn: TxnId,
    pub cause: Cause,
}

fn abort_for<D: Shelf>(house: &mut House<D>, txn: TxnId, cause: Cause) -> Result<u64, ActFault>
    requires whole { IsWhole D.told house.old }
    requires hard { ShutsHard D.hard (seen_of house.old) }
    requires own { IsOwnCause cause }
    requires small { IsSmall (entry.Abort txn cause) }
    requires marked { HasItsMark (trail_of house.old.trail) txn cause }
    requires truly { IsToldHouse D.told house.old → IsAbortDue (trail_of house.old.trail) txn cause }
    ensures noted { EntryStep D.told D.faults (own_entry txn (entry.Abort txn cause)) house.old house.new result }
    ensures place { IfOk result (λ place. place ≡ length (book_of (trail_of house.old.trail))) }
    ensures hard { ShutsHard D.hard (seen_of house.new) }
{
    let place = next_place(house);
    match note_fitting(house, txn, Entry::Abort { txn, cause }) {
        Ok(()) => Ok(place),
        Err(fault) => Err(fault),
    }
}

impl<D: Shelf + Drop> Act<D, ToldHouse<D>> for AbortFor {
    ghost use Rattle.std.specs.Prelude.{◌≡◌, ℕ, length};
    ghost use Rattle.hv_history.specs.declared.entry.Entry.TheVariants as entry;
    ghost use Rattle.hv_stands.specs.Running.{IsOwnCause};
    ghost use Rattle.hv_trail.specs.Trail.{book_of};
    ghost use Rattle.hv_trail.specs.Steps.{Note};
    ghost use Rattle.hv_telling.specs.hv_house.specs.House.{IsSmall};
    ghost use Rattle.hv_telling.specs.Telling.{IsTold};
    ghost use Rattle.hv_acts.specs.Meant.{IsAbortDue};
    ghost use Rattle.hv_acts.specs.Answers.{HasItsMark, answer_call, answer_outcome, adds_entry, NoTest, EntryFits, Answers, AnswerLeaves};
    ghost use Rattle.hv_acts.specs.Few.{few_entry};
    ghost use Rattle.hv_acts.specs.Laters.{note_later};

    type Answer = Result<u64, ActFault>;

    ghost can = { λ act house. IsSmall (entry.Abort act.txn act.cause) × HasItsMark house.trail act.txn act.cause
        × (IsTold D.told house.start → IsAbortDue house.trail act.txn act.cause) × IsOwnCause act.cause };

    ghost call = { λ act house answer. answer_call (Note (entry.Abort act.txn act.cause)) answer };

    ghost outcome = { λ act answer. answer_outcome answer };

    ghost adds = { λ act answer. adds_entry (λ place. entry.Abort act.txn act.cause) answer };

    ghost does = { λ act house now answer. Answers NoTest house.trail act.txn
        (EntryFits house.trail (entry.Abort act.txn act.cause))
        (λ (place : ℕ). place ≡ length (book_of house.trail)) answer
        × AnswerLeaves D.told D.faults act.txn.0 house now answer };

    ghost most = { 1 };

    ghost few = { λ act answer. few_entry (λ (place : ℕ). entry.Abort act.txn act.cause) answer };

    ghost goes_on = { λ act answer before now step does.
        note_later D.told D.faults (entry.Abort act.txn act.cause) act.txn.0 answer before now step does.1 };

    fn act(self, _alloc: Global, house: &mut ToldHouse<D>) -> Result<u64, ActFault> {
        if house.house.is_closed() {
            Err(ActFault::House(HouseFault::Store))
        } else {
            abort_for(&mut house.house, self.txn, self.cause)
        }
    }
}
